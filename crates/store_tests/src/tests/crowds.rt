//! Tests the view of a lecturer with many applicants, in either round.

use crate::tests::steps::{new_desk, plays};
use portal_core::{LecturerView, View};
use portal_fixtures::worked::{LISTS, PUBLICATION, ROLLS, SECOND_OPENING, TO_RANKING};
use portal_fixtures::{LEE, MOE};
use portal_store::reading::queries::view;
use sqlite::types::ValueRef;
use sqlite::{Alter, Connection};
use std::process::Abort;

/// How many students choose one project.
const CROWD: usize = 600;

/// Returns the key of one of these students, which is also the code. All keys have four digits, so
/// that their order is that of the numbers.
fn key_of(rt: &(impl Abort + AllocGlobal), at: usize) -> String {
    let number = at.saturating_add(1000);
    format!(in rt.alloc(); "key-{number}").expect(rt, "memory")
}

/// Inserts the students, the last key first. The statement inserts the choice of each.
fn add_crowd<S: Alter>(rt: &(impl Abort + AllocGlobal), conn: &mut Connection<S>, statement: &str) {
    for back in 0..CROWD {
        let key = key_of(rt, CROWD.saturating_sub(back));
        let text = ValueRef::Text(key.as_bytes());
        let student = conn.execute(
            "INSERT INTO student (key, name, code, assigned) VALUES (?1, ?1, ?1, NULL)",
            &[text],
        );
        student.expect(rt, "a student");
        conn.execute(statement, &[text]).expect(rt, "a choice");
    }
}

/// Checks that the lecturer sees this many projects, and all these students at the first, by key.
fn sees_all(rt: &(impl Abort + AllocGlobal), lecturer: &LecturerView, projects: usize) {
    assert!(rt; lecturer.applicants.len() == projects && projects > 0);
    let (_, seen) = &lecturer.applicants[0];
    assert_eq!(rt; seen.len(), CROWD);
    for (back, person) in seen.iter().enumerate() {
        let key = key_of(rt, back.saturating_add(1));
        assert_eq!(rt; person.key.as_bytes(), key.as_bytes());
    }
}

/// Checks that the lecturer sees nobody at the other projects.
fn sees_no_other(rt: &(impl Abort + AllocGlobal), lecturer: &LecturerView) {
    for (_, seen) in lecturer.applicants.iter().skip(1) {
        assert!(rt; seen.is_empty());
    }
}

/// Returns the view of the lecturer with this code.
fn seen_by<S: Alter>(
    rt: &(impl Abort + AllocGlobal),
    conn: &mut Connection<S>,
    code: &str,
) -> LecturerView {
    assert!(rt; conn.is_autocommit());
    match view(rt.alloc(), conn, code.as_bytes()).expect(rt, "a view") {
        View::Lecturer(lecturer) => lecturer,
        _ => panic!(rt; "no lecturer"),
    }
}

/// Inserts the students and their choices, runs the second statement, and checks the view. Generic,
/// because proofs over `MemStore` are slow.
fn is_seen<S: Alter + Drop>(
    rt: &(impl Abort + AllocGlobal),
    conn: Connection<S>,
    statements: (&str, &str),
    code: &str,
    projects: usize,
) {
    let (choice, ranking) = statements;
    let mut conn = conn;
    add_crowd(rt, &mut conn, choice);
    conn.execute(ranking, &[]).expect(rt, "a statement");
    let lecturer = seen_by(rt, &mut conn, code);
    sees_all(rt, &lecturer, projects);
    sees_no_other(rt, &lecturer);
}

#[test]
fn a_crowd_is_seen_by_key(rt: HostRuntime) {
    let mut desk = new_desk(&rt);
    plays(&rt, &mut desk, &[ROLLS]);
    let statements = (
        "INSERT INTO choice (student, place, project) VALUES (?1, 1, 'P1')",
        "UPDATE portal SET phase = 2 WHERE id = 1",
    );
    let conn = desk.into_keeper().into_connection();
    is_seen(&rt, conn, statements, LEE, 2);
}

#[test]
fn a_crowd_of_the_second_round_is_seen_by_key(rt: HostRuntime) {
    let mut desk = new_desk(&rt);
    let parts = [ROLLS, LISTS, TO_RANKING, PUBLICATION, SECOND_OPENING];
    plays(&rt, &mut desk, &parts);
    let statements = (
        "INSERT INTO choice2 (student, place, project) VALUES (?1, 1, 'P3')",
        "UPDATE second SET phase = 2 WHERE id = 1",
    );
    let conn = desk.into_keeper().into_connection();
    is_seen(&rt, conn, statements, MOE, 1);
}
