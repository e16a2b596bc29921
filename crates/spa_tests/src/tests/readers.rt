//! Tests the methods that read an instance.

use super::chance::put;
use super::made::{TWO_LECTURERS, instance_of, is_same, is_so};
use spa_model::{Instance, Letter};
use std::process::Abort;

/// Checks keys, capacities and owners of `TWO_LECTURERS`.
fn has_keys_and_capacities(rt: &impl Abort, instance: &Instance) {
    assert!(rt; instance.students() == 2 && instance.projects() == 2 && instance.lecturers() == 2);
    let (student, project) = (instance.student_key(1), instance.project_key(0));
    let lecturer = instance.lecturer_key(1).as_str();
    let keys = (student.as_str(), project.as_str(), lecturer);
    is_same(rt, &keys, &("S2", "P1", "L2"), "keys");
    let capacities = (instance.project_capacity(1), instance.lecturer_capacity(0));
    let found = (instance.lecturer_of(1), capacities);
    is_same(rt, &found, &(1, (1, 2)), "capacities");
}

/// Checks the lists and ranks.
fn has_lists_and_ranks(rt: &impl Abort, instance: &Instance) {
    assert!(rt; instance.students() == 2 && instance.projects() == 2 && instance.lecturers() == 2);
    let (lists, list) = (
        (instance.choices(1), instance.ranking(0)),
        [1, 0].as_slice(),
    );
    is_same(rt, &lists, &(list, list), "lists");
    let ranks = (instance.rank(0, 1), instance.rank(0, 0));
    is_same(rt, &ranks, &(Some(0), Some(1)), "ranks");
    let (first, last) = (instance.prefers(0, 1, 0), instance.prefers(0, 0, 1));
    let found = (first, last, instance.prefers(0, 1, 1));
    is_same(rt, &found, &(true, false, false), "prefers");
}

#[test]
fn keys_capacities_lists_and_ranks(rt: HostRuntime) {
    let instance = instance_of(&rt, TWO_LECTURERS);
    has_keys_and_capacities(&rt, &instance);
    has_lists_and_ranks(&rt, &instance);
}

#[test]
fn letters_are_shown(rt: HostRuntime) {
    let mut shown = String::new(rt.alloc());
    let letters = format_args!("{}{}{}", Letter::A, Letter::B, Letter::C);
    put(&rt, &mut shown, letters);
    is_so(&rt, shown.as_str() == "abc", &shown);
}
