//! Tests the opening of databases of the wider department that other programs have changed.

use crate::tests::damages::{opening_fault, student_seen};
use crate::tests::steps::{new_desk, plays};
use portal_core::{Listing, StudentView};
use portal_fixtures::wide::{
    CHOOSING, PUBLISHED, RANKING, ROLLS, SECOND_CHOOSING, SECOND_RANKING, WIDE_YEAR,
};
use portal_store::OpenFault;
use sqlite::{Connection, MemStore};
use std::process::Abort;

/// Makes a database, and plays these scripts in it.
fn database(rt: &(impl Abort + AllocGlobal), played: &[&str]) -> Connection<MemStore> {
    let mut desk = new_desk(rt);
    plays(rt, &mut desk, played);
    desk.into_keeper().into_connection()
}

/// Checks that opening the database has this outcome after each of these texts.
fn are_answered(
    rt: &(impl Abort + AllocGlobal),
    played: &[&str],
    texts: &[&str],
    wanted: Option<OpenFault>,
) {
    for text in texts {
        let mut conn = database(rt, played);
        conn.execute_batch(text).expect(rt, "statements");
        let found = opening_fault(rt, conn);
        assert!(rt; found == wanted, "{text}");
    }
}

/// The published first round. The next two go on to phases of the second.
const IN_THE_FIRST: &[&str] = &[ROLLS, CHOOSING, RANKING, PUBLISHED];

const IN_CHOOSING: &[&str] = &[ROLLS, CHOOSING, RANKING, PUBLISHED, SECOND_CHOOSING];

const IN_RANKING: &[&str] = &[
    ROLLS,
    CHOOSING,
    RANKING,
    PUBLISHED,
    SECOND_CHOOSING,
    SECOND_RANKING,
];

/// Rows of a second round that is not open, or no row in the table `second`.
const NO_ROUND: &[&str] = &[
    "DELETE FROM second",
    "INSERT INTO choice2 (student, place, project) VALUES ('S4', 1, 'P4')",
    "INSERT INTO ranked2 (lecturer) VALUES ('L1')",
    "INSERT INTO ranking2 (lecturer, place, student) VALUES ('L2', 1, 'S4')",
    "INSERT INTO assigned2 (student, project) VALUES ('S4', 'P4')",
];

/// A second round before the first is published.
const TOO_EARLY: &[&str] = &[
    "UPDATE second SET phase = 1",
    "UPDATE second SET phase = 2",
    "UPDATE second SET phase = 3",
];

/// Damage to the phases or to the first round, in any phase of the second.
const OF_THE_FIRST: &[&str] = &[
    "DELETE FROM second",
    "UPDATE second SET phase = 0",
    "UPDATE portal SET phase = 0",
    "UPDATE portal SET phase = 2",
    "UPDATE portal SET phase = 4",
    "UPDATE student SET assigned = NULL WHERE key = 'S1'",
    "UPDATE student SET assigned = 'P4' WHERE key = 'S3'",
    "UPDATE student SET assigned = 'P3' WHERE key = 'S4'",
    "UPDATE lecturer SET ranked = 0 WHERE key = 'L2'",
    "DELETE FROM ranking WHERE lecturer = 'L2'",
    "UPDATE choice SET place = 2 WHERE student = 'S3'",
    "UPDATE lecturer SET capacity = 1 WHERE key = 'L1'",
];

/// Damage to lists of the second round: of a student with a project, with a project that is not on
/// offer, or with a gap. The last two statements take away room that the lists need.
const OF_THE_LISTS: &[&str] = &[
    "INSERT INTO choice2 (student, place, project) VALUES ('S1', 1, 'P3')",
    "INSERT INTO choice2 (student, place, project) VALUES ('S6', 2, 'P1')",
    "INSERT INTO choice2 (student, place, project) VALUES ('S6', 2, 'P2')",
    "INSERT INTO choice2 (student, place, project) VALUES ('S6', 3, 'P3')",
    "UPDATE choice2 SET place = 3 WHERE student = 'S4' AND place = 2",
    "UPDATE choice2 SET place = 0 WHERE student = 'S4' AND place = 1",
    "UPDATE project SET capacity = 1 WHERE key = 'P5'",
    "UPDATE lecturer SET capacity = 1 WHERE key = 'L2'",
];

/// Malformed keys, names and codes, and codes that identify two callers.
const FORMS: &[&str] = &[
    "UPDATE student SET code = 'lee-code-01' WHERE key = 'S9'",
    "UPDATE student SET code = 'office-code-0' WHERE key = 'S4'",
    "UPDATE portal SET office = 'stud-code-1'",
    "UPDATE portal SET office = 'short'",
    "UPDATE student SET name = '' WHERE key = 'S4'",
    "UPDATE project SET title = '' WHERE key = 'P4'",
    "INSERT INTO student (key, name, code, assigned) VALUES ('S 0', 'Zoe', 'stud-code-0', NULL)",
    "INSERT INTO student (key, name, code, assigned) VALUES ('S0', 'Zoe', 'short', NULL)",
];

/// Damage in choosing: a later phase, a ranking, or a result.
const DAMAGED_CHOOSING: &[&str] = &[
    "UPDATE second SET phase = 3",
    "INSERT INTO ranked2 (lecturer) VALUES ('L1')",
    "INSERT INTO ranked2 (lecturer) VALUES ('L2')",
    "INSERT INTO ranking2 (lecturer, place, student) VALUES ('L2', 1, 'S4')",
    "INSERT INTO assigned2 (student, project) VALUES ('S4', 'P3')",
    "INSERT INTO assigned2 (student, project) VALUES ('S1', 'P1')",
];

/// Damage in ranking: wrong rankings, another phase, or a result.
const DAMAGED_RANKING: &[&str] = &[
    "DELETE FROM ranking2 WHERE lecturer = 'L2'",
    "DELETE FROM ranking2 WHERE lecturer = 'L2' AND place = 3",
    "DELETE FROM ranking2 WHERE lecturer = 'L2' AND place = 1",
    "DELETE FROM ranked2 WHERE lecturer = 'L2'",
    "INSERT INTO ranking2 (lecturer, place, student) VALUES ('L2', 4, 'S8')",
    "INSERT INTO ranking2 (lecturer, place, student) VALUES ('L2', 4, 'S3')",
    "INSERT INTO ranking2 (lecturer, place, student) VALUES ('L1', 1, 'S4')",
    "INSERT INTO ranked2 (lecturer) VALUES ('L1'); INSERT INTO ranking2 (lecturer, place, student) VALUES ('L1', 1, 'S4')",
    "UPDATE second SET phase = 1",
    "UPDATE second SET phase = 3",
    "INSERT INTO assigned2 (student, project) VALUES ('S4', 'P3')",
];

/// Damage in published: a result that is too early, has a student of the first result, or ignores a
/// list. Or it exceeds a capacity together with the first result, or has a blocking pair.
const DAMAGED_PUBLISHED: &[&str] = &[
    "UPDATE second SET phase = 2",
    "DELETE FROM assigned2",
    "DELETE FROM assigned2 WHERE student = 'S4'",
    "INSERT INTO assigned2 (student, project) VALUES ('S1', 'P1')",
    "INSERT INTO assigned2 (student, project) VALUES ('S1', 'P5')",
    "INSERT INTO assigned2 (student, project) VALUES ('S6', 'P5')",
    "INSERT INTO assigned2 (student, project) VALUES ('S9', 'P5')",
    "INSERT INTO assigned2 (student, project) VALUES ('S6', 'P4')",
];

/// More such damage, and a lecturer who is still to rank.
const DAMAGED_RESULT: &[&str] = &[
    "UPDATE assigned2 SET project = 'P4' WHERE student = 'S4'",
    "UPDATE assigned2 SET project = 'P3' WHERE student = 'S5'; UPDATE assigned2 SET project = 'P4' WHERE student = 'S4'",
    "UPDATE assigned2 SET student = 'S6' WHERE student = 'S5'",
    "UPDATE assigned2 SET student = 'S9' WHERE student = 'S8'",
    "UPDATE assigned2 SET student = 'S1' WHERE student = 'S8'",
    "UPDATE project SET capacity = 3 WHERE key = 'P5'",
    "UPDATE lecturer SET capacity = 4 WHERE key = 'L2'",
    "DELETE FROM ranked2 WHERE lecturer = 'L2'; DELETE FROM ranking2 WHERE lecturer = 'L2'",
];

/// A list of 21 projects, 18 of which are added.
const TOO_LONG: &[&str] = &[
    "INSERT INTO project (key, lecturer, title, capacity) VALUES ('Q1', 'L3', 'Q', 1), ('Q2', 'L3', 'Q', 1), ('Q3', 'L3', 'Q', 1), ('Q4', 'L3', 'Q', 1), ('Q5', 'L3', 'Q', 1), ('Q6', 'L3', 'Q', 1), ('Q7', 'L3', 'Q', 1), ('Q8', 'L3', 'Q', 1), ('Q9', 'L3', 'Q', 1), ('R1', 'L3', 'Q', 1), ('R2', 'L3', 'Q', 1), ('R3', 'L3', 'Q', 1), ('R4', 'L3', 'Q', 1), ('R5', 'L3', 'Q', 1), ('R6', 'L3', 'Q', 1), ('R7', 'L3', 'Q', 1), ('R8', 'L3', 'Q', 1), ('R9', 'L3', 'Q', 1); INSERT INTO choice2 (student, place, project) VALUES ('S6', 2, 'P3'), ('S6', 3, 'Q1'), ('S6', 4, 'Q2'), ('S6', 5, 'Q3'), ('S6', 6, 'Q4'), ('S6', 7, 'Q5'), ('S6', 8, 'Q6'), ('S6', 9, 'Q7'), ('S6', 10, 'Q8'), ('S6', 11, 'Q9'), ('S6', 12, 'R1'), ('S6', 13, 'R2'), ('S6', 14, 'R3'), ('S6', 15, 'R4'), ('S6', 16, 'R5'), ('S6', 17, 'R6'), ('S6', 18, 'R7'), ('S6', 19, 'R8'), ('S6', 20, 'R9'), ('S6', 21, 'P5')",
];

/// The same list without its last project.
const LONGEST: &[&str] = &[
    "INSERT INTO project (key, lecturer, title, capacity) VALUES ('Q1', 'L3', 'Q', 1), ('Q2', 'L3', 'Q', 1), ('Q3', 'L3', 'Q', 1), ('Q4', 'L3', 'Q', 1), ('Q5', 'L3', 'Q', 1), ('Q6', 'L3', 'Q', 1), ('Q7', 'L3', 'Q', 1), ('Q8', 'L3', 'Q', 1), ('Q9', 'L3', 'Q', 1), ('R1', 'L3', 'Q', 1), ('R2', 'L3', 'Q', 1), ('R3', 'L3', 'Q', 1), ('R4', 'L3', 'Q', 1), ('R5', 'L3', 'Q', 1), ('R6', 'L3', 'Q', 1), ('R7', 'L3', 'Q', 1), ('R8', 'L3', 'Q', 1), ('R9', 'L3', 'Q', 1); INSERT INTO choice2 (student, place, project) VALUES ('S6', 2, 'P3'), ('S6', 3, 'Q1'), ('S6', 4, 'Q2'), ('S6', 5, 'Q3'), ('S6', 6, 'Q4'), ('S6', 7, 'Q5'), ('S6', 8, 'Q6'), ('S6', 9, 'Q7'), ('S6', 10, 'Q8'), ('S6', 11, 'Q9'), ('S6', 12, 'R1'), ('S6', 13, 'R2'), ('S6', 14, 'R3'), ('S6', 15, 'R4'), ('S6', 16, 'R5'), ('S6', 17, 'R6'), ('S6', 18, 'R7'), ('S6', 19, 'R8'), ('S6', 20, 'R9')",
];

/// Changes in choosing that leave a good world: the next phase, removed or reordered lists, more
/// room, and another student.
const GOOD_CHOOSING: &[&str] = &[
    "UPDATE portal SET id = 1",
    "UPDATE second SET phase = 2",
    "DELETE FROM choice2",
    "UPDATE choice2 SET place = 9 WHERE student = 'S4' AND place = 1; UPDATE choice2 SET place = 1 WHERE student = 'S4' AND place = 2; UPDATE choice2 SET place = 2 WHERE student = 'S4' AND place = 9",
    "UPDATE lecturer SET capacity = 200 WHERE key = 'L2'",
    "INSERT INTO student (key, name, code, assigned) VALUES ('S0', 'Zoe', 'stud-code-0', NULL)",
];

/// The same in ranking: an empty ranking without applicants, and a lecturer who is still to rank.
const GOOD_RANKING: &[&str] = &[
    "INSERT INTO ranked2 (lecturer) VALUES ('L1')",
    "DELETE FROM ranking2 WHERE lecturer = 'L2'; DELETE FROM ranked2 WHERE lecturer = 'L2'",
];

/// The same in published: a smaller capacity of a lecturer whose project is full.
const GOOD_PUBLISHED: &[&str] = &["UPDATE lecturer SET capacity = 4 WHERE key = 'L3'"];

/// A missing row of the office, and missing tables.
const NO_PORTAL: &[&str] = &[
    "DELETE FROM portal",
    "DROP TABLE second",
    "DROP TABLE choice2",
    "DROP TABLE ranked2",
    "DROP TABLE ranking2",
    "DROP TABLE assigned2; DELETE FROM second",
];

const OTHER_VERSION: &[&str] = &[
    "UPDATE portal SET version = 1",
    "UPDATE portal SET version = 3; DROP TABLE choice2",
];

#[test]
fn no_round_has_no_rows(rt: HostRuntime) {
    let damaged = Some(OpenFault::Damaged);
    are_answered(&rt, IN_THE_FIRST, NO_ROUND, damaged);
    are_answered(&rt, &[ROLLS], TOO_EARLY, damaged);
    are_answered(&rt, &[ROLLS, CHOOSING], TOO_EARLY, damaged);
    are_answered(&rt, &[ROLLS, CHOOSING, RANKING], TOO_EARLY, damaged);
    are_answered(&rt, IN_THE_FIRST, &["UPDATE second SET phase = 1"], None);
}

#[test]
fn the_first_round_stays(rt: HostRuntime) {
    let damaged = Some(OpenFault::Damaged);
    are_answered(&rt, IN_CHOOSING, OF_THE_FIRST, damaged);
    are_answered(&rt, IN_RANKING, OF_THE_FIRST, damaged);
    are_answered(&rt, WIDE_YEAR, OF_THE_FIRST, damaged);
}

#[test]
fn the_lists_are_of_what_is_left(rt: HostRuntime) {
    let damaged = Some(OpenFault::Damaged);
    are_answered(&rt, IN_CHOOSING, OF_THE_LISTS, damaged);
    are_answered(&rt, IN_RANKING, OF_THE_LISTS, damaged);
    are_answered(&rt, WIDE_YEAR, OF_THE_LISTS, damaged);
}

#[test]
fn forms_stay(rt: HostRuntime) {
    are_answered(&rt, IN_CHOOSING, FORMS, Some(OpenFault::Damaged));
    are_answered(&rt, WIDE_YEAR, FORMS, Some(OpenFault::Damaged));
}

#[test]
fn a_list_has_twenty(rt: HostRuntime) {
    are_answered(&rt, IN_CHOOSING, LONGEST, None);
    are_answered(&rt, IN_CHOOSING, TOO_LONG, Some(OpenFault::Damaged));
}

#[test]
fn each_damage_of_a_phase_is_told(rt: HostRuntime) {
    let damaged = Some(OpenFault::Damaged);
    are_answered(&rt, IN_CHOOSING, DAMAGED_CHOOSING, damaged);
    are_answered(&rt, IN_RANKING, DAMAGED_RANKING, damaged);
    are_answered(&rt, WIDE_YEAR, DAMAGED_PUBLISHED, damaged);
    are_answered(&rt, WIDE_YEAR, DAMAGED_RESULT, damaged);
}

#[test]
fn nothing_else_is_told(rt: HostRuntime) {
    are_answered(&rt, IN_CHOOSING, GOOD_CHOOSING, None);
    are_answered(&rt, IN_RANKING, GOOD_RANKING, None);
    are_answered(&rt, WIDE_YEAR, GOOD_PUBLISHED, None);
}

#[test]
fn other_tables_are_told(rt: HostRuntime) {
    are_answered(&rt, IN_RANKING, NO_PORTAL, Some(OpenFault::NotPortal));
    are_answered(
        &rt,
        IN_RANKING,
        OTHER_VERSION,
        Some(OpenFault::OtherVersion),
    );
}

/// Damage to rows of other persons: students, lists, a ranking, and the second result.
const OF_OTHERS: &[&str] = &[
    "UPDATE student SET code = 'short' WHERE key = 'S4'",
    "UPDATE student SET name = '' WHERE key = 'S5'",
    "UPDATE student SET code = '' WHERE key = 'S1'",
    "DELETE FROM choice2 WHERE student = 'S4' AND place = 1",
    "UPDATE choice2 SET place = 7 WHERE student = 'S5' AND place = 1",
    "UPDATE choice SET place = 3 WHERE student = 'S1'",
    "INSERT INTO ranking2 (lecturer, place, student) VALUES ('L2', 5, 'S4')",
    "INSERT INTO assigned2 (student, project) VALUES ('S4', 'P3')",
];

/// Checks that the project has this key and this much room.
fn offers(rt: &(impl Abort + AllocGlobal), listing: &Listing, key: &[u8], room: u32) {
    assert_eq!(rt; listing.key.as_bytes(), key);
    assert_eq!(rt; listing.capacity, room);
}

/// Checks that the view is that of S6: a list of P4, and the remaining projects with their
/// remaining room.
fn is_of_fay(rt: &(impl Abort + AllocGlobal), student: &StudentView) {
    assert!(rt; student.me.key.as_bytes() == b"S6".as_slice() && student.result.is_none());
    assert!(rt; student.choices.len() == 1 && student.catalogue.len() == 3);
    assert!(rt; student.choices[0].as_bytes() == b"P4".as_slice());
    offers(rt, &student.catalogue[0], b"P3", 1);
    offers(rt, &student.catalogue[1], b"P4", 2);
    offers(rt, &student.catalogue[2], b"P5", 1);
}

/// In the second round, a student is shown the same after each damage of `OF_OTHERS`.
#[test]
fn a_view_reads_no_other_row(rt: HostRuntime) {
    for text in OF_OTHERS {
        let mut conn = database(&rt, IN_CHOOSING);
        conn.execute_batch(text).expect(&rt, "statements");
        is_of_fay(&rt, &student_seen(&rt, conn, "stud-code-6"));
    }
}
