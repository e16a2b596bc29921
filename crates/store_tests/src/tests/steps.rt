//! Plays scripts over a database in memory and over lists, and makes databases by SQL.

use portal_core::{Code, Keeper};
use portal_desk::Desk;
use portal_fixtures::{fresh_lists, office_code, play};
use portal_list::ListKeeper;
use portal_store::Store;
use sqlite::{Alter, Connection, Error, MemStore};
use std::process::Abort;

/// A desk over a database in memory.
pub(crate) type MemDesk = Desk<Store<MemStore>>;

/// Returns the office's code.
pub(crate) fn new_office_code(rt: &(impl Abort + AllocGlobal)) -> Code {
    office_code(rt.alloc()).expect(rt, "a code")
}

/// Makes a desk over the empty world in setup, in a database in memory.
pub(crate) fn new_desk(rt: &(impl Abort + AllocGlobal)) -> MemDesk {
    match Store::create_memory(rt.alloc(), new_office_code(rt)) {
        Ok(store) => Desk::new(store),
        Err(_) => panic!(rt; "a store"),
    }
}

/// Makes a desk over the empty world in setup, in lists.
pub(crate) fn new_lists(rt: &(impl Abort + AllocGlobal)) -> Desk<ListKeeper> {
    fresh_lists(rt.alloc()).expect(rt, "a desk")
}

/// Checks that each line of the scripts gets its reply.
pub(crate) fn plays<K: Keeper>(
    rt: &(impl Abort + AllocGlobal),
    desk: &mut Desk<K>,
    scripts: &[&str],
) {
    let wrong = play(rt.alloc(), desk, scripts).expect(rt, "memory");
    assert_eq!(rt; wrong.as_str(), "");
}

/// Runs these SQL texts in order, and stops at the first error.
pub(crate) fn run_all<S: Alter>(conn: &mut Connection<S>, texts: &[&str]) -> Result<(), Error> {
    for text in texts {
        conn.execute_batch(text)?;
    }
    Ok(())
}

/// Makes a database in memory, and runs these statements in it.
pub(crate) fn database(rt: &(impl Abort + AllocGlobal), texts: &[&str]) -> Connection<MemStore> {
    let mut conn = Connection::open_in_memory(rt.alloc()).expect(rt, "a connection");
    run_all(&mut conn, texts).expect(rt, "statements");
    conn
}
