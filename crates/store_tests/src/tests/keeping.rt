//! Tests a database that is closed and opened again, and one that already has tables.

use crate::tests::steps::{new_desk, new_office_code, plays};
use portal_desk::Desk;
use portal_fixtures::OFFICE;
use portal_fixtures::worked::TWO_ROUNDS;
use portal_store::{CreateFault, NotOpened, Store};
use sqlite::{Alter, Connection};
use std::process::Abort;

/// Opens the same database again, and returns a desk over it. Generic, because proofs over
/// `MemStore` are slow.
fn again<S: Alter + Drop>(rt: &(impl Abort + AllocGlobal), desk: Desk<Store<S>>) -> Desk<Store<S>> {
    let conn = desk.into_keeper().into_connection();
    match Store::open(rt.alloc(), conn) {
        Ok(store) => Desk::new(store),
        Err(NotOpened { .. }) => panic!(rt; "a portal"),
    }
}

/// Plays two rounds, and opens the database again after each part.
fn plays_reopening<S: Alter + Drop>(rt: &(impl Abort + AllocGlobal), desk: Desk<Store<S>>) {
    let mut desk = desk;
    for part in TWO_ROUNDS {
        plays(rt, &mut desk, &[part]);
        desk = again(rt, desk);
    }
}

#[test]
fn a_year_over_connections_of_their_own(rt: HostRuntime) {
    plays_reopening(&rt, new_desk(&rt));
}

/// Returns why no store is created in a database that has this table, if none is.
fn refused(rt: &(impl Abort + AllocGlobal), statement: &str) -> Option<CreateFault> {
    let mut conn = Connection::open_in_memory(rt.alloc()).expect(rt, "a connection");
    conn.execute(statement, &[]).expect(rt, "a table");
    assert!(rt; conn.is_autocommit());
    match Store::create(rt.alloc(), conn, new_office_code(rt)) {
        Ok(store) => {
            let _conn = store.into_connection();
            None
        }
        Err(
            NotOpened {
                fault,
                connection: _,
            },
        ) => Some(fault),
    }
}

#[test]
fn a_table_of_the_name_is_there(rt: HostRuntime) {
    let own = refused(&rt, "CREATE TABLE choice (a INTEGER)");
    assert_eq!(rt; own, Some(CreateFault::Exists));
    let other = refused(&rt, "CREATE TABLE notes (a INTEGER)");
    assert_eq!(rt; other, None);
}

#[test]
fn the_office_has_its_code(rt: HostRuntime) {
    let mut store = Store::create_memory(rt.alloc(), new_office_code(&rt)).expect(&rt, "a store");
    let code = store.office_code(rt.alloc()).expect(&rt, "a code");
    assert_eq!(rt; code.as_bytes(), OFFICE.as_bytes());
    let _conn = store.into_connection();
}
