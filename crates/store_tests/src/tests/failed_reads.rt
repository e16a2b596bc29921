//! Tests reads that fail while a request is served. Each is reported as a fault of the store, and
//! never as memory shortage.

use crate::tests::steps::new_office_code;
use crate::tests::stops::{
    Attempt, INIT, Image, blank, desk_over, files_after, left_of, stopped, tried,
};
use crate::tests::trial::{Fault, Plan};
use portal_core::{KeepFault, Keeper};
use portal_desk::Cause;
use portal_fixtures::Line;
use portal_fixtures::changes::{
    CHOOSING, FIRST, OPENED, PUBLICATION, RANKED, RANKING, SECOND_PUBLICATION, SETUP,
};
use portal_store::{NotOpened, Store};
use sqlite::{Alter, Connection};
use std::process::Abort;

/// Serves the request, with a read that fails after `reads` others. If it fails, the reply is 503,
/// and the store and the desk have failed. If not, the reply is 200. Returns whether it is 200, and
/// the connection.
pub(crate) fn request_fails<S: Alter + Drop>(
    rt: &(impl Abort + AllocGlobal),
    conn: Connection<S>,
    line: &Line,
    plan: &Plan,
    reads: u64,
) -> (bool, Connection<S>) {
    let mut desk = desk_over(rt, conn);
    plan.arm(reads);
    let (cause, reply) = stopped(rt, &mut desk, line);
    let came = plan.came();
    let wanted: &[u8] = if came {
        b"HTTP/1.1 503"
    } else {
        b"HTTP/1.1 200"
    };
    assert!(rt; reply.starts_with(wanted));
    assert!(rt; desk.failed() == came);
    assert!(rt; cause == if came { Some(Cause::Store) } else { None });
    (!came, desk.into_keeper().into_connection())
}

/// Returns whether a read failed after `reads` others during the attempt.
fn fails_at(rt: &(impl Abort + AllocGlobal), image: &Image, attempt: &Attempt, reads: u64) -> bool {
    let plan = Plan::new(Fault::Read);
    let (is_done, conn) = tried(rt, image, attempt, &plan, reads);
    plan.arm(u64::MAX);
    let _left = left_of(rt, conn);
    !is_done
}

/// Lets reads of the line's request fail: each of the first sixteen, and later ones at growing
/// distances. Checks that there are at least `least` reads.
fn fails(rt: &(impl Abort + AllocGlobal), image: &Image, line: &str, least: u64) {
    let line = Line::new(line.trim_start());
    let mut reads = 0u64;
    for _ in 0..1_000 {
        if !fails_at(rt, image, &Attempt::Request(&line), reads) {
            break;
        }
        reads = reads.saturating_add(reads / 16).saturating_add(1);
    }
    assert!(rt; reads >= least && reads < 10_000, "{reads} reads");
}

/// Lets reads fail in views of the office, a lecturer and a student, after these scripts.
fn look(rt: &(impl Abort + AllocGlobal), played: &[&str], student: &str) {
    let image = files_after(rt, played);
    fails(rt, &image, "office  GET /status", 1);
    fails(rt, &image, "lee  GET /me", 1);
    fails(rt, &image, student, 1);
}

#[test]
fn a_view_of_the_first_round_meets_a_failed_read(rt: HostRuntime) {
    look(&rt, &[INIT, SETUP, CHOOSING], "ann  GET /choices");
}

#[test]
fn a_view_of_the_second_round_meets_a_failed_read(rt: HostRuntime) {
    look(&rt, &[INIT, FIRST, OPENED], "stud-code-4  GET /choices");
}

#[test]
fn a_change_meets_a_failed_read(rt: HostRuntime) {
    let first = files_after(&rt, &[INIT, SETUP, CHOOSING]);
    let list = r#"ann  PUT /choices {"projects":["P1","P2"]}"#;
    fails(&rt, &first, list, 2);
    let second = files_after(&rt, &[INIT, FIRST, OPENED]);
    let list = r#"stud-code-5  PUT /choices {"projects":["P5"]}"#;
    fails(&rt, &second, list, 2);
}

#[test]
fn a_publication_meets_a_failed_read(rt: HostRuntime) {
    let first = files_after(&rt, &[INIT, SETUP, CHOOSING, RANKING]);
    fails(&rt, &first, PUBLICATION, 2);
    let second = files_after(&rt, &[INIT, FIRST, OPENED, RANKED]);
    fails(&rt, &second, SECOND_PUBLICATION, 2);
}

/// Asks a new portal for its instance, with a read that fails after `reads` others. If it fails,
/// this is reported as a fault of the store. Returns whether no read failed, and the connection.
pub(crate) fn instance_fails<S: Alter + Drop>(
    rt: &(impl Abort + AllocGlobal),
    conn: Connection<S>,
    plan: &Plan,
    reads: u64,
) -> (bool, Connection<S>) {
    assert!(rt; conn.is_autocommit());
    match Store::create(rt.alloc(), conn, new_office_code(rt)) {
        Ok(mut store) => {
            plan.arm(reads);
            let told = store.instance(rt.alloc());
            assert!(rt; matches!(told, Err(KeepFault::Store)) == plan.came());
            (!plan.came(), store.into_connection())
        }
        Err(NotOpened { .. }) => panic!(rt; "a portal"),
    }
}

/// Each read for an instance fails in turn, and there is at least one.
#[test]
fn an_instance_meets_a_failed_read(rt: HostRuntime) {
    let image = blank(&rt);
    let mut reads = 0u64;
    for _ in 0..1_000 {
        if !fails_at(&rt, &image, &Attempt::Instance, reads) {
            break;
        }
        reads = reads.saturating_add(1);
    }
    assert!(rt; reads > 0 && reads < 1_000);
}

/// Asks for the office's code, with a read that fails after `reads` others. If it fails, this is
/// reported as a fault of the store. Returns whether no read failed, and the connection.
pub(crate) fn code_fails<S: Alter + Drop>(
    rt: &(impl Abort + AllocGlobal),
    conn: Connection<S>,
    plan: &Plan,
    reads: u64,
) -> (bool, Connection<S>) {
    let mut store = desk_over(rt, conn).into_keeper();
    plan.arm(reads);
    let told = store.office_code(rt.alloc());
    assert!(rt; matches!(told, Err(KeepFault::Store)) == plan.came());
    (!plan.came(), store.into_connection())
}

/// A failed read of the office's code is reported as a fault of the store.
#[test]
fn the_code_of_the_office_meets_a_failed_read(rt: HostRuntime) {
    let image = files_after(&rt, &[INIT, SETUP]);
    assert!(rt; fails_at(&rt, &image, &Attempt::Code, 0));
}
