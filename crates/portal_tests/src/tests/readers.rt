//! Tests the reading of rolls.

use portal_core::{LecturerRow, ProjectRow, StudentRow};
use portal_rolls::{RollFault, read_lecturers, read_projects, read_students};
use std::process::Abort;

/// Checks the fault of a file that has or ends with this text.
pub(crate) fn is_fault(
    rt: &impl Abort,
    found: Option<RollFault>,
    wanted: Option<RollFault>,
    text: &[u8],
) {
    assert_eq!(rt; found, wanted, "{text:?}");
}

/// Checks that the text that was read is this one.
pub(crate) fn same(rt: &impl Abort, found: &str, wanted: &str) {
    assert_eq!(rt; found, wanted);
}

/// Checks the key and the code of the first student, and the name and the code of the second.
fn are_students(rt: &impl Abort, rows: &[StudentRow]) {
    assert!(rt; rows.len() == 2);
    same(rt, rows[0].key.as_str(), "S1");
    same(rt, rows[0].code.as_str(), "ann-code-1");
    same(rt, rows[1].name.as_str(), "Roe, Bea");
    same(rt, rows[1].code.as_str(), "bea-code-2");
}

#[test]
fn a_roll_of_students_and_one_with_a_mark_and_crlf(rt: HostRuntime) {
    let text = b"id,name,code\nS1,Ann,ann-code-1\nS2,\"Roe, Bea\",bea-code-2\n";
    are_students(&rt, &read_students(rt.alloc(), text).expect(&rt, "a roll"));
    let text = b"\xef\xbb\xbfid,name,code\r\nS1,Ann,ann-code-1\r\nS2,\"Roe, Bea\",bea-code-2\r\n";
    are_students(&rt, &read_students(rt.alloc(), text).expect(&rt, "a roll"));
}

/// Checks the name and the capacity of the lecturer, and each value but the key of the project.
fn are_rows(rt: &impl Abort, lecturers: &[LecturerRow], projects: &[ProjectRow]) {
    assert!(rt; lecturers.len() == 1);
    same(rt, lecturers[0].name.as_str(), "Lee");
    assert!(rt; lecturers[0].capacity == 2);
    assert!(rt; projects.len() == 1);
    same(rt, projects[0].lecturer.as_str(), "L1");
    same(rt, projects[0].title.as_str(), "Tides");
    assert!(rt; projects[0].capacity == 200);
}

#[test]
fn a_roll_of_lecturers_and_one_of_projects(rt: HostRuntime) {
    let text = b"id,name,code,capacity\nL1,Lee,lee-code-01,2\n";
    let lecturers = read_lecturers(rt.alloc(), text).expect(&rt, "a roll of lecturers");
    let text = b"id,lecturer,title,capacity\nP1,L1,Tides,200\n";
    let projects = read_projects(rt.alloc(), text).expect(&rt, "a roll of projects");
    are_rows(&rt, &lecturers, &projects);
}

/// Rolls of students, and the fault of each.
const STUDENTS: &[(&[u8], RollFault)] = &[
    (b"", RollFault::NoHeader),
    (b"id,name\n", RollFault::BadHeader),
    (b"id,name,cod\n", RollFault::BadHeader),
    (b"id,name,code\nS1,Ann\n", RollFault::FieldCount(1)),
    (b"id,name,code\nS1,\xff\n", RollFault::FieldCount(1)),
    (b"id,name,code\nS1,\xff,ann-code-1\n", RollFault::NotText(1)),
    (
        b"id,name,code\nS1,Ann,ann-code-1\nS 2,\xff,x\n",
        RollFault::NotText(2),
    ),
    (b"id,name,code\nS1,Ann,short\n", RollFault::BadField(1, 3)),
    (b"id,name,code\nS 1,Ann,short\n", RollFault::BadField(1, 1)),
    (
        b"id,name,code\nS1,\"A\nB\",short\n",
        RollFault::BadField(1, 2),
    ),
];

/// Rolls of lecturers whose capacity is bad.
const LECTURERS: &[&[u8]] = &[
    b"id,name,code,capacity\nL9,Zed,zed-code-01,201",
    b"id,name,code,capacity\nL9,Zed,zed-code-01,0",
    b"id,name,code,capacity\nL9,Zed,zed-code-01,x",
];

#[test]
fn headers_counts_texts_columns_and_capacities(rt: HostRuntime) {
    for (text, fault) in STUDENTS {
        let found = read_students(rt.alloc(), *text).err();
        is_fault(&rt, found, Some(*fault), *text);
    }
    for text in LECTURERS {
        let fault = read_lecturers(rt.alloc(), *text).err();
        is_fault(&rt, fault, Some(RollFault::BadField(1, 4)), *text);
    }
}

/// Returns a roll of as many students as there may be, with these bytes at its end.
fn full_roll(rt: &(impl Abort + AllocGlobal), end: &[u8]) -> Vec<u8> {
    let rows = b"S1,Ann,ann-code-1\n".repeat(rt.alloc(), 2000);
    let rows = rows.expect(rt, "memory");
    let text = [b"id,name,code\n", rows.as_slice(), end].concat(rt.alloc());
    text.expect(rt, "memory")
}

#[test]
fn as_many_as_there_may_be(rt: HostRuntime) {
    let read = read_students(rt.alloc(), &full_roll(&rt, b""));
    assert!(rt; read.expect(&rt, "a full roll").len() == 2000);
    let fault = read_students(rt.alloc(), &full_roll(&rt, b"S1,Ann\n")).err();
    is_fault(&rt, fault, Some(RollFault::TooMany), b"S1,Ann\n");
}
