//! Tests each fault of an instance, with few records.

use super::chance::put;
use super::made::{is_same, read};
use spa_model::{BadInstance, Instance, InstanceFault};
use std::process::Abort;

/// The records of an instance with one lecturer, one project and one student.
const THREE_LINES: &str = "L,L1,1,S1\nP,P1,1,L1\nS,S1,,P1\n";

/// Checks whether the records are refused, and why.
fn is_refused(rt: &(impl Abort + AllocGlobal), records: &str, wanted: Option<BadInstance>) {
    is_same(rt, &refusal(rt, records), &wanted, records);
}

/// Returns why the records are refused, if they are.
pub(crate) fn refusal(rt: &(impl Abort + AllocGlobal), records: &str) -> Option<BadInstance> {
    let (rows, _) = read(rt, records);
    Instance::build(rt.alloc(), rows).err()
}

/// Returns the refusal for this fault at this row.
pub(crate) fn bad(fault: InstanceFault, row: u32) -> Option<BadInstance> {
    Some(BadInstance { fault, row })
}

/// Checks whether the three lines and these are refused, and why.
fn are_refused(rt: &(impl Abort + AllocGlobal), more: &str, wanted: Option<BadInstance>) {
    let records = format!(in rt.alloc(); "{THREE_LINES}{more}").expect(rt, "memory");
    is_refused(rt, &records, wanted);
}

/// Further records, and why and at which row the three lines are refused with them.
const REFUSED: &[(&str, InstanceFault, u32)] = &[
    ("P,P1,1,L1\n", InstanceFault::KeyTwice, 4),
    ("P,P1,1,L1\nS,S 2,,P1\n", InstanceFault::BadKey, 5),
    ("S,S1,,P1\nL,L1,1,S1\n", InstanceFault::KeyTwice, 4),
    ("P,P2,0,L1\n", InstanceFault::BadCapacity, 4),
    ("P,P2,201,L1\n", InstanceFault::BadCapacity, 4),
    ("P,P2,1,L2\nP,P3,1,L3\n", InstanceFault::NoSuchLecturer, 4),
    ("S,S2,,P1 P2\n", InstanceFault::NoSuchProject, 4),
    ("S,S2,,P1 P1\nS,S3,,P2\n", InstanceFault::NoSuchProject, 5),
    ("S,S2,,P1 P1\n", InstanceFault::RepeatInList, 4),
    ("L,L2,1,S9 S9\n", InstanceFault::RepeatInList, 4),
    ("L,L2,1,S9 S1 S8 S1\n", InstanceFault::RepeatInList, 4),
    ("L,L2,1,S9 S8\n", InstanceFault::NotApplicant, 4),
    ("L,L2,1,S9\n", InstanceFault::NotApplicant, 4),
    ("L,L2,1,S1\n", InstanceFault::NotApplicant, 4),
    ("S,S2,,P1\n", InstanceFault::ApplicantMissing, 1),
];

#[test]
fn each_fault_is_told_at_its_least_row(rt: HostRuntime) {
    for (more, fault, row) in REFUSED {
        are_refused(&rt, more, bad(*fault, *row));
    }
}

#[test]
fn no_lines_and_three_lines_pass(rt: HostRuntime) {
    is_refused(&rt, "", None);
    are_refused(&rt, "", None);
    are_refused(&rt, "P,P2,1,L1\nP,P3,200,L1\n", None);
}

#[test]
fn there_are_at_most_300_lecturers(rt: HostRuntime) {
    has_lecturers(&rt, 301, None);
    has_lecturers(&rt, 302, bad(InstanceFault::TooMany, 0));
}

/// Checks whether the three lines are refused with lecturers of numbers below this, and why.
fn has_lecturers(rt: &(impl Abort + AllocGlobal), lecturers: u32, wanted: Option<BadInstance>) {
    let mut more = String::new(rt.alloc());
    for number in 2..lecturers {
        put(rt, &mut more, format_args!("L,L{number},1,\n"));
    }
    are_refused(rt, &more, wanted);
}

/// Checks whether the records of a lecturer, 21 projects, and a student who lists the first 20 and
/// these are refused, and why.
fn has_choices(rt: &(impl Abort + AllocGlobal), more: &str, wanted: Option<BadInstance>) {
    let mut records = String::new(rt.alloc());
    put(rt, &mut records, "L,L1,1,S2\n");
    for number in 10..31 {
        put(rt, &mut records, format_args!("P,P{number},1,L1\n"));
    }
    put(rt, &mut records, "S,S2,,P10");
    for number in 11..30 {
        put(rt, &mut records, format_args!(" P{number}"));
    }
    put(rt, &mut records, format_args!("{more}\n"));
    is_refused(rt, &records, wanted);
}

#[test]
fn lists_have_at_most_20_projects(rt: HostRuntime) {
    has_choices(&rt, "", None);
    has_choices(&rt, " P30", bad(InstanceFault::ListTooLong, 23));
}
