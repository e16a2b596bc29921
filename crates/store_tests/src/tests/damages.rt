//! Tests the opening of databases that other programs have changed.

use crate::tests::steps::{database, new_desk, plays, run_all};
use portal_core::{Phase, StudentView, View};
use portal_fixtures::worked::{IN_CHOOSING, IN_PUBLISHED, IN_RANKING, IN_SETUP};
use portal_fixtures::{ANN, cut, version1};
use portal_store::reading::queries::view;
use portal_store::{NotOpened, OpenFault, Store, UpgradeFault};
use sqlite::{Alter, Connection, MemStore};
use std::process::Abort;

/// Opens the database, and returns the fault, if there is one. Generic, because proofs over
/// `MemStore` are slow.
pub(crate) fn opening_fault<S: Alter + Drop>(
    rt: &(impl Abort + AllocGlobal),
    conn: Connection<S>,
) -> Option<OpenFault> {
    assert!(rt; conn.is_autocommit());
    match Store::open(rt.alloc(), conn) {
        Ok(store) => {
            let _conn = store.into_connection();
            None
        }
        Err(
            NotOpened {
                fault,
                connection: _,
            },
        ) => Some(fault),
    }
}

/// Returns the word for the outcome of an opening.
fn word_of(fault: Option<OpenFault>) -> &'static str {
    match fault {
        None => "good",
        Some(OpenFault::NotPortal) => "not_portal",
        Some(OpenFault::OtherVersion) => "other_version",
        Some(OpenFault::Damaged) => "damaged",
        Some(OpenFault::Store) => "store",
        Some(OpenFault::Memory) => "memory",
    }
}

/// Upgrades the database, and returns the word for the outcome.
fn upgraded<S: Alter + Drop>(rt: &(impl Abort + AllocGlobal), conn: Connection<S>) -> &'static str {
    assert!(rt; conn.is_autocommit());
    match Store::upgrade(rt.alloc(), conn) {
        Ok(store) => {
            let _conn = store.into_connection();
            "good"
        }
        Err(
            NotOpened {
                fault,
                connection: _,
            },
        ) => match fault {
            UpgradeFault::NotPortal => "not_portal",
            UpgradeFault::OtherVersion => "other_version",
            UpgradeFault::Damaged => "damaged",
            UpgradeFault::Exists => "exists",
            UpgradeFault::Store => "store",
            UpgradeFault::Memory => "memory",
        },
    }
}

/// Each row has a phase, the expected outcome, and statements that change the tables. These rows
/// hold for both versions.
const DAMAGES: &str = r#"
setup      good           UPDATE portal SET id = 1
published  good           UPDATE portal SET id = 1
choosing   damaged        UPDATE choice SET place = 3 WHERE student = 'S1' AND place = 2
published  damaged        UPDATE choice SET place = 3 WHERE student = 'S1' AND place = 2
published  damaged        UPDATE student SET code = 'lee-code-01' WHERE key = 'S1'
choosing   damaged        UPDATE portal SET phase = 0 WHERE id = 1
choosing   damaged        UPDATE portal SET phase = 7 WHERE id = 1
published  damaged        DELETE FROM ranking WHERE lecturer = 'L1' AND place = 2
ranking    damaged        UPDATE lecturer SET ranked = 1 WHERE key = 'L1'; INSERT INTO ranking (lecturer, place, student) VALUES ('L1', 1, 'S1')
published  damaged        UPDATE lecturer SET ranked = 0 WHERE key = 'L1'
ranking    damaged        UPDATE student SET assigned = 'P1' WHERE key = 'S1'
published  damaged        UPDATE student SET assigned = 'P3' WHERE key = 'S1'
published  damaged        UPDATE student SET assigned = 'P1' WHERE key = 'S1'; UPDATE student SET assigned = 'P3' WHERE key = 'S2'
setup      damaged        UPDATE student SET key = 'S 3' WHERE key = 'S3'
published  not_portal     DELETE FROM portal
published  other_version  UPDATE portal SET version = 3 WHERE id = 1
choosing   other_version  UPDATE portal SET version = 0, phase = 0 WHERE id = 1
setup      not_portal     DROP TABLE ranking
setup      not_portal     DROP TABLE ranking; UPDATE portal SET version = 7
"#;

/// The rows for version 2 alone.
const LATER_DAMAGES: &str = r#"
published  other_version  UPDATE portal SET version = 1 WHERE id = 1
published  other_version  DROP TABLE choice2; UPDATE portal SET version = 1
published  not_portal     DROP TABLE second
setup      not_portal     DROP TABLE choice2
ranking    not_portal     DROP TABLE ranked2
ranking    not_portal     DROP TABLE ranking2
published  not_portal     DROP TABLE assigned2
choosing   not_portal     DROP TABLE assigned2; UPDATE portal SET phase = 0
published  damaged        DELETE FROM second
setup      damaged        DELETE FROM second
setup      damaged        UPDATE second SET phase = 1
choosing   damaged        UPDATE second SET phase = 2
ranking    damaged        UPDATE second SET phase = 3
published  damaged        INSERT INTO choice2 (student, place, project) VALUES ('S3', 1, 'P3')
published  damaged        INSERT INTO ranked2 (lecturer) VALUES ('L2')
published  damaged        INSERT INTO ranking2 (lecturer, place, student) VALUES ('L2', 1, 'S3')
published  damaged        INSERT INTO assigned2 (student, project) VALUES ('S3', 'P3')
"#;

/// Makes tables of version 2 in this phase.
fn played(rt: &(impl Abort + AllocGlobal), year: &str) -> Connection<MemStore> {
    let mut desk = new_desk(rt);
    let scripts = match year {
        "setup" => IN_SETUP,
        "choosing" => IN_CHOOSING,
        "ranking" => IN_RANKING,
        _ => IN_PUBLISHED,
    };
    plays(rt, &mut desk, scripts);
    desk.into_keeper().into_connection()
}

/// Makes tables of version 1 in this phase.
fn made(rt: &(impl Abort + AllocGlobal), year: &str) -> Connection<MemStore> {
    let texts = match year {
        "setup" => version1::IN_SETUP,
        "choosing" => version1::IN_CHOOSING,
        "ranking" => version1::IN_RANKING,
        _ => version1::IN_PUBLISHED,
    };
    database(rt, texts)
}

/// Changes tables as the row says, and checks the outcome of opening or upgrading them.
fn is_answered(rt: &(impl Abort + AllocGlobal), row: &str, is_first: bool) {
    let (year, rest) = cut(row, "  ");
    let (wanted, statements) = cut(rest.trim_start(), "  ");
    let mut conn = if is_first {
        made(rt, year)
    } else {
        played(rt, year)
    };
    run_all(&mut conn, &[statements.trim_start()]).expect(rt, "statements");
    let found = if is_first {
        upgraded(rt, conn)
    } else {
        word_of(opening_fault(rt, conn))
    };
    assert_eq!(rt; found, wanted, "{row}");
}

/// Checks all rows, with tables of version 1 if `is_first`, and else of version 2.
fn are_answered(rt: &(impl Abort + AllocGlobal), rows: &str, is_first: bool) {
    for row in rows.lines().skip(1) {
        is_answered(rt, row, is_first);
    }
}

#[test]
fn each_damage_is_told(rt: HostRuntime) {
    are_answered(&rt, DAMAGES, false);
}

#[test]
fn each_damage_of_version_2_is_told(rt: HostRuntime) {
    are_answered(&rt, LATER_DAMAGES, false);
}

#[test]
fn each_damage_is_told_by_an_upgrade(rt: HostRuntime) {
    are_answered(&rt, DAMAGES, true);
}

/// Checks that the view is that of the first student in choosing, with a list of two projects.
fn is_of_ann(rt: &impl Abort, student: &StudentView) {
    let is_ann = student.me.key.as_bytes() == b"S1".as_slice();
    assert!(rt; is_ann && student.phase == Phase::Choosing);
    assert!(rt; student.catalogue.len() == 3 && student.choices.len() == 2);
    let first = student.choices[0].as_bytes() == b"P1".as_slice();
    let second = student.choices[1].as_bytes() == b"P2".as_slice();
    assert!(rt; first && second && student.result.is_none());
}

/// Statements that damage rows of other persons.
const OF_OTHERS: &[&str] = &[
    "UPDATE student SET assigned = 'P3' WHERE key = 'S2'",
    "UPDATE student SET code = 'short' WHERE key = 'S2'",
    "UPDATE student SET name = '' WHERE key = 'S3'",
    "UPDATE student SET key = 'S 3' WHERE key = 'S3'",
    "UPDATE choice SET place = 7 WHERE student = 'S2' AND place = 1",
    "INSERT INTO ranking (lecturer, place, student) VALUES ('L1', 2, 'S1')",
];

/// Returns the view of the student with this code.
pub(crate) fn student_seen<S: Alter + Drop>(
    rt: &(impl Abort + AllocGlobal),
    conn: Connection<S>,
    code: &str,
) -> StudentView {
    let mut conn = conn;
    assert!(rt; conn.is_autocommit());
    match view(rt.alloc(), &mut conn, code.as_bytes()).expect(rt, "a view") {
        View::Student(student) => student,
        _ => panic!(rt; "no student"),
    }
}

/// A student is shown the same after each damage of `OF_OTHERS`.
#[test]
fn a_view_reads_no_other_row(rt: HostRuntime) {
    for statements in OF_OTHERS {
        let mut conn = played(&rt, "choosing");
        run_all(&mut conn, &[statements]).expect(&rt, "statements");
        is_of_ann(&rt, &student_seen(&rt, conn, ANN));
    }
}
