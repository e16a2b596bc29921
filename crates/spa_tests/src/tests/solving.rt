//! Compares the solver with the method that shortens lists, on worked and generated instances.

use super::chance::{Chance, add, generated, put, put_words};
use super::made::{
    FULL_LECTURER, TWO_STABLE, instance_of, is_same, is_so, matching_of, projects_of,
};
use super::plain::{Board, Places};
use spa_check::{better_off, is_stable};
use spa_model::{Instance, Matching};
use spa_student::solve;
use std::process::Abort;

/// Checks that both methods give the same stable matching, and returns the students' projects.
fn solved(rt: &(impl Abort + AllocGlobal), records: &str) -> Places {
    judged(rt, &instance_of(rt, records), records)
}

/// Checks the same for the instance of the records.
fn judged(rt: &(impl Abort + AllocGlobal), instance: &Instance, records: &str) -> Places {
    let matching = solve(rt.alloc(), instance).expect(rt, "memory");
    is_so(rt, is_stable(instance, &matching), records);
    let projects = projects_of(rt, instance, &matching);
    let judged = Board::of(rt, instance).solve(rt);
    is_so(rt, projects.as_slice() == judged.as_slice(), records);
    judged
}

/// Checks that both methods give the students these projects.
fn gives(rt: &(impl Abort + AllocGlobal), records: &str, wanted: &[Option<usize>]) {
    is_so(rt, solved(rt, records).as_slice() == wanted, records);
}

/// Seven students, eight projects and three lecturers.
const SEVEN: &str = concat!(
    "L,L1,3,S7 S4 S1 S3 S2 S5 S6\nL,L2,2,S3 S2 S6 S7 S5\nL,L3,2,S1 S7\n",
    "P,P1,2,L1\nP,P2,1,L1\nP,P3,1,L1\nP,P4,1,L2\nP,P5,1,L2\nP,P6,1,L2\nP,P7,1,L3\nP,P8,1,L3\n",
    "S,S1,,P1 P7\nS,S2,,P1 P2 P3 P4 P5 P6\nS,S3,,P2 P1 P4\nS,S4,,P2\nS,S5,,P1 P2 P3 P4\n",
    "S,S6,,P2 P3 P4 P5 P6\nS,S7,,P5 P3 P8\n"
);

/// The project of each of the seven students.
const PLACES: &[Option<usize>] = &[Some(0), Some(4), Some(3), Some(1), None, None, Some(2)];

/// Instances, and the project of each student.
const SOLVED: &[(&str, &[Option<usize>])] = &[
    (SEVEN, PLACES),
    (TWO_STABLE, &[Some(0), Some(1)]),
    (FULL_LECTURER, &[Some(0), None, Some(0)]),
];

#[test]
fn seven_students_two_stable_matchings_and_a_full_lecturer(rt: HostRuntime) {
    for (records, wanted) in SOLVED {
        gives(&rt, records, wanted);
    }
}

/// Checks that nobody is better off in the other matching, and the first student is in the solved
/// one.
fn is_better(rt: &impl Abort, instance: &Instance, matching: &Matching, other: &Matching) {
    assert!(rt; instance.fits(matching) && instance.fits(other));
    let none = better_off(instance, matching, other);
    let first = better_off(instance, other, matching);
    is_same(rt, &(none, first), &(None, Some(0)), "better off");
}

#[test]
fn better_off_in_the_solved_matching(rt: HostRuntime) {
    let instance = instance_of(&rt, TWO_STABLE);
    let matching = solve(rt.alloc(), &instance).expect(&rt, "memory");
    let other = matching_of(&rt, &instance, "M,S1,P2,\nM,S2,P1,\n");
    is_better(&rt, &instance, &matching, &other);
}

/// If all lists have the same order, each student gets the first project that is still free.
#[test]
fn one_order_for_all(rt: HostRuntime) {
    let mut all = Vec::new(rt.alloc());
    let mut wanted = Vec::new(rt.alloc());
    for n in 0..20u64 {
        add(&rt, &mut all, n);
        add(&rt, &mut wanted, Some(n as usize));
        gives_all(&rt, &all, &wanted);
    }
}

/// Checks the same for students, projects and lecturers of these numbers, which list them all.
fn gives_all(rt: &(impl Abort + AllocGlobal), all: &[u64], wanted: &[Option<usize>]) {
    let mut records = String::new(rt.alloc());
    for n in all {
        let m = n.wrapping_add(10);
        put(rt, &mut records, format_args!("L,L{m},1,"));
        put_words(rt, &mut records, "S", all);
        put(rt, &mut records, format_args!("P,P{m},1,L{m}\nS,S{m},,"));
        put_words(rt, &mut records, "P", all);
    }
    gives(rt, &records, wanted);
}

#[test]
fn both_agree_on_generated_instances(rt: HostRuntime) {
    let mut chance = Chance { state: 20 };
    for _ in 0..400 {
        let records = generated(&rt, &mut chance);
        let _projects = solved(&rt, records.as_str());
    }
}
