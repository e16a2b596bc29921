//! Tests the upgrade of databases from version 1 to version 2, which keeps their world.

use crate::tests::steps::{database, new_desk, plays, run_all};
use portal_desk::Desk;
use portal_fixtures::worked::{
    IN_CHOOSING, IN_PUBLISHED, IN_RANKING, IN_SETUP, LISTS, PUBLICATION, RESULT, SECOND_LISTS,
    SECOND_OPENING, SECOND_PUBLICATION, SECOND_TO_RANKING, TO_RANKING,
};
use portal_fixtures::{version1, world_output};
use portal_store::{NotOpened, OpenFault, Store, UpgradeFault};
use sqlite::{Alter, Connection, MemStore};
use std::process::Abort;

/// Upgrades the tables. Returns a desk over them, or the fault and the connection. Generic, because
/// proofs over `MemStore` are slow.
fn upgrade<S: Alter + Drop>(
    rt: &(impl Abort + AllocGlobal),
    conn: Connection<S>,
) -> Result<Desk<Store<S>>, (UpgradeFault, Connection<S>)> {
    if !conn.is_autocommit() {
        rt.abort();
    }
    match Store::upgrade(rt.alloc(), conn) {
        Ok(store) => Ok(Desk::new(store)),
        Err(NotOpened { fault, connection }) => Err((fault, connection)),
    }
}

/// Opens the tables. Returns a desk over them, or the fault and the connection.
fn open<S: Alter + Drop>(
    rt: &(impl Abort + AllocGlobal),
    conn: Connection<S>,
) -> Result<Desk<Store<S>>, (OpenFault, Connection<S>)> {
    if !conn.is_autocommit() {
        rt.abort();
    }
    match Store::open(rt.alloc(), conn) {
        Ok(store) => Ok(Desk::new(store)),
        Err(NotOpened { fault, connection }) => Err((fault, connection)),
    }
}

/// Checks that an upgrade is refused for this reason, and returns the connection.
fn not_upgraded<S: Alter + Drop>(
    rt: &(impl Abort + AllocGlobal),
    conn: Connection<S>,
    wanted: UpgradeFault,
) -> Connection<S> {
    match upgrade(rt, conn) {
        Ok(_) => panic!(rt; "upgraded"),
        Err((fault, conn)) => {
            assert_eq!(rt; fault, wanted);
            conn
        }
    }
}

/// Checks that `open` refuses the version of the tables, and returns the connection.
fn not_opened<S: Alter + Drop>(
    rt: &(impl Abort + AllocGlobal),
    conn: Connection<S>,
) -> Connection<S> {
    match open(rt, conn) {
        Ok(_) => panic!(rt; "opened"),
        Err((fault, conn)) => {
            assert_eq!(rt; fault, OpenFault::OtherVersion);
            conn
        }
    }
}

/// Upgrades tables that `open` refuses, and returns a desk over them.
fn upgraded<S: Alter + Drop>(
    rt: &(impl Abort + AllocGlobal),
    conn: Connection<S>,
) -> Desk<Store<S>> {
    match upgrade(rt, not_opened(rt, conn)) {
        Ok(desk) => desk,
        Err(_) => panic!(rt; "an upgrade"),
    }
}

/// Checks that the tables are not upgraded again. Opens them, and returns a desk over them.
fn again<S: Alter + Drop>(rt: &(impl Abort + AllocGlobal), desk: Desk<Store<S>>) -> Desk<Store<S>> {
    let conn = desk.into_keeper().into_connection();
    match open(rt, not_upgraded(rt, conn, UpgradeFault::OtherVersion)) {
        Ok(desk) => desk,
        Err(_) => panic!(rt; "a portal"),
    }
}

/// Returns what a new desk shows after these scripts.
fn seen_after(rt: &(impl Abort + AllocGlobal), played: &[&str]) -> Vec<u8> {
    let mut desk = new_desk(rt);
    plays(rt, &mut desk, played);
    world_output(rt.alloc(), &mut desk).expect(rt, "memory")
}

/// Checks that the desk shows the same as a new desk after the first scripts, and plays the others.
fn shows<S: Alter + Drop>(
    rt: &(impl Abort + AllocGlobal),
    desk: Desk<Store<S>>,
    played: &[&str],
    parts: &[&str],
) {
    let mut desk = desk;
    let wanted = seen_after(rt, played);
    let found = world_output(rt.alloc(), &mut desk).expect(rt, "memory");
    assert!(rt; found.as_slice() == wanted.as_slice());
    plays(rt, &mut desk, parts);
}

/// Upgrades tables of version 1 that these texts create. Checks that they show the played world,
/// and plays further parts on them. Does the same after they are opened again.
fn goes_on(rt: &(impl Abort + AllocGlobal), texts: &[&str], played: &[&str], parts: &[&str]) {
    shows(rt, upgraded(rt, database(rt, texts)), played, parts);
    let desk = again(rt, upgraded(rt, database(rt, texts)));
    shows(rt, desk, played, parts);
}

/// The rest of a year after setup. `AFTER_PUBLISHED` is the rest after a publication.
const AFTER_SETUP: &[&str] = &[
    LISTS,
    TO_RANKING,
    PUBLICATION,
    RESULT,
    SECOND_OPENING,
    SECOND_LISTS,
    SECOND_TO_RANKING,
    SECOND_PUBLICATION,
];

const AFTER_PUBLISHED: &[&str] = &[
    RESULT,
    SECOND_OPENING,
    SECOND_LISTS,
    RESULT,
    SECOND_TO_RANKING,
    SECOND_PUBLICATION,
];

#[test]
fn setup_is_upgraded(rt: HostRuntime) {
    goes_on(&rt, version1::IN_SETUP, IN_SETUP, AFTER_SETUP);
}

#[test]
fn choosing_is_upgraded(rt: HostRuntime) {
    let rest = [TO_RANKING, PUBLICATION, RESULT];
    goes_on(&rt, version1::IN_CHOOSING, IN_CHOOSING, &rest);
}

#[test]
fn ranking_is_upgraded(rt: HostRuntime) {
    let rest = [PUBLICATION, RESULT];
    goes_on(&rt, version1::IN_RANKING, IN_RANKING, &rest);
}

#[test]
fn published_is_upgraded(rt: HostRuntime) {
    goes_on(&rt, version1::IN_PUBLISHED, IN_PUBLISHED, AFTER_PUBLISHED);
}

#[test]
fn rules_in_another_order_are_upgraded(rt: HostRuntime) {
    let rest = [PUBLICATION, RESULT];
    goes_on(&rt, version1::OTHERWISE, IN_RANKING, &rest);
}

/// Tables and views with one of the five names that an upgrade adds.
const NAMES: &[&str] = &[
    "CREATE TABLE second (a INTEGER)",
    "CREATE TABLE choice2 (a INTEGER)",
    "CREATE TABLE ranked2 (a INTEGER)",
    "CREATE TABLE ranking2 (a INTEGER)",
    "CREATE TABLE assigned2 (a INTEGER)",
    "CREATE TABLE Second (a INTEGER)",
    "CREATE TABLE ASSIGNED2 (a INTEGER)",
    "CREATE VIEW second AS SELECT key FROM student",
    "CREATE VIEW choice2 AS SELECT key FROM student",
    "CREATE VIEW Ranked2 AS SELECT key FROM student",
    "CREATE VIEW ranking2 AS SELECT key FROM student",
    "CREATE VIEW assigned2 AS SELECT key FROM student",
];

/// Makes a database of version 1 in ranking, and runs these texts on it.
fn with(rt: &(impl Abort + AllocGlobal), texts: &[&str]) -> Connection<MemStore> {
    let mut conn = database(rt, version1::IN_RANKING);
    run_all(&mut conn, texts).expect(rt, "statements");
    conn
}

#[test]
fn a_table_of_a_name_is_there(rt: HostRuntime) {
    for name in NAMES {
        let conn = not_upgraded(&rt, with(&rt, &[name]), UpgradeFault::Exists);
        let _conn = not_opened(&rt, conn);
    }
}

/// Tables and a view with other names.
const OTHERS: &[&str] = &[
    "CREATE TABLE notes (a INTEGER)",
    "CREATE TABLE second2 (a INTEGER)",
    "CREATE VIEW third AS SELECT key FROM student",
];

#[test]
fn what_else_is_there_stays(rt: HostRuntime) {
    for text in OTHERS {
        let _desk = again(&rt, upgraded(&rt, with(&rt, &[text])));
    }
}

/// Checks that an upgrade is refused for this reason after these texts are run.
fn are_told(rt: &(impl Abort + AllocGlobal), texts: &[&str], wanted: UpgradeFault) {
    let _conn = not_upgraded(rt, with(rt, texts), wanted);
}

#[test]
fn the_first_fault_is_told(rt: HostRuntime) {
    let name = "CREATE TABLE ranked2 (a INTEGER)";
    let damage = "DELETE FROM choice WHERE place = 1";
    let version = "UPDATE portal SET version = 2";
    let table = "DROP TABLE ranking";
    let row = "DELETE FROM portal";
    are_told(&rt, &[name, damage], UpgradeFault::Damaged);
    are_told(&rt, &[name, damage, version], UpgradeFault::OtherVersion);
    let all = [name, damage, version, table];
    are_told(&rt, &all, UpgradeFault::NotPortal);
    are_told(&rt, &[name, damage, row], UpgradeFault::NotPortal);
}
