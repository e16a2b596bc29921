//! Tests a department at every limit.

use super::chance::put;
use super::made::{instance_of, is_same, is_so};
use super::rows::{bad, refusal};
use spa_model::{Instance, InstanceFault};
use std::process::Abort;

/// Returns the project at this place of the student's list.
fn chosen(student: u32, place: u32) -> u32 {
    (student % 1000 + place % 1000 * 47) % 1000
}

/// Returns whether one of the student's choices is a project of the lecturer.
fn lists(student: u32, choices: u32, lecturer: u32) -> bool {
    for place in 0..choices {
        if chosen(student, place) % 300 == lecturer {
            return true;
        }
    }
    false
}

/// Returns the records of these students, 1,000 projects and 300 lecturers.
fn department(rt: &(impl Abort + AllocGlobal), students: u32, choices: u32) -> String {
    let mut records = String::new(rt.alloc());
    for number in 0..1000u32 {
        let owner = number % 300;
        put(rt, &mut records, format_args!("P,P{number},2,L{owner}\n"));
    }
    for number in 0..students {
        let first = number % 1000;
        put(rt, &mut records, format_args!("S,S{number},,P{first}"));
        for place in 1..choices {
            let project = chosen(number, place);
            put(rt, &mut records, format_args!(" P{project}"));
        }
        put(rt, &mut records, "\n");
    }
    put_lecturers(rt, &mut records, students, choices);
    records
}

/// Appends the records of the lecturers, who rank the students by their numbers.
fn put_lecturers(rt: &impl Abort, records: &mut String, students: u32, choices: u32) {
    for lecturer in 0..300u32 {
        put(rt, records, format_args!("L,L{lecturer},3,"));
        let mut space = "";
        for student in 0..students {
            if lists(student, choices, lecturer) {
                put(rt, records, format_args!("{space}S{student}"));
                space = " ";
            }
        }
        put(rt, records, "\n");
    }
}

/// Checks that there are as many students, projects and lecturers as there may be.
fn is_full(rt: &impl Abort, instance: &Instance) {
    let (students, projects) = (instance.students(), instance.projects());
    let counts = (students, projects, instance.lecturers());
    is_same(rt, &counts, &(2000, 1000, 300), "counts");
}

#[test]
fn a_department_at_every_limit_is_an_instance(rt: HostRuntime) {
    let records = department(&rt, 2000, 20);
    is_full(&rt, &instance_of(&rt, &records));
}

/// Checks that there are too many with this many students and these records more.
fn are_too_many(rt: &(impl Abort + AllocGlobal), students: u32, more: &str) {
    let mut records = department(rt, students, 1);
    put(rt, &mut records, more);
    let so = refusal(rt, &records) == bad(InstanceFault::TooMany, 0);
    is_so(rt, so, format_args!("{students}{more}"));
}

/// Numbers of students and further records that are too many.
const TOO_MANY: &[(u32, &str)] = &[(2001, ""), (1, "P,P1000,1,L0\n"), (1, "L,L300,1,\n")];

#[test]
fn one_student_or_project_more_is_too_many(rt: HostRuntime) {
    for (students, more) in TOO_MANY {
        are_too_many(&rt, *students, more);
    }
}
