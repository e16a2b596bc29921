//! Tests each fault of pairs, and which matchings fit an instance.

use super::made::{
    ONE_LECTURER, TWO_LECTURERS, instance_of, is_same, is_so, matching_of, pairs_of, projects_of,
};
use spa_model::MatchingFault::{
    LecturerOver, NoSuchProject, NoSuchStudent, NotAcceptable, ProjectOver, StudentTwice,
};
use spa_model::{BadMatching, Matching, MatchingFault};
use std::process::Abort;

/// Checks that the pairs are refused for the instance of the records, and why.
fn is_refused(rt: &(impl Abort + AllocGlobal), records: &str, pairs: &str, wanted: BadMatching) {
    let instance = instance_of(rt, records);
    let found = Matching::build(rt.alloc(), &instance, pairs_of(rt, pairs)).err();
    is_same(rt, &found, &Some(wanted), pairs);
}

/// Instances and pairs, and why and at which row these are refused.
const REFUSED: &[(&str, &str, MatchingFault, u32)] = &[
    (TWO_LECTURERS, "M,S3,P1,\n", NoSuchStudent, 1),
    (TWO_LECTURERS, "M,S1,L1,\n", NoSuchProject, 1),
    (TWO_LECTURERS, "M,S1,P3,\nM,S3,P1,\n", NoSuchStudent, 2),
    (TWO_LECTURERS, "M,S3,P1,\nM,S4,P1,\n", NoSuchStudent, 1),
    (ONE_LECTURER, "M,S1,P2,\n", NotAcceptable, 1),
    (TWO_LECTURERS, "M,S1,P1,\nM,S1,P2,\n", StudentTwice, 2),
    (TWO_LECTURERS, "M,S1,P1,\nM,S2,P1,\n", ProjectOver, 2),
    (ONE_LECTURER, "M,S1,P1,\nM,S2,P2,\n", LecturerOver, 2),
];

#[test]
fn each_fault_is_told_at_its_least_row(rt: HostRuntime) {
    for (records, pairs, fault, row) in REFUSED {
        let (fault, row) = (*fault, *row);
        is_refused(&rt, records, pairs, BadMatching { fault, row });
    }
}

#[test]
fn pairs_are_a_matching(rt: HostRuntime) {
    let instance = instance_of(&rt, TWO_LECTURERS);
    let pairs = "M,S2,P1,\n";
    let matching = matching_of(&rt, &instance, pairs);
    let projects = projects_of(&rt, &instance, &matching);
    let found = projects.as_slice() == [None, Some(0)].as_slice();
    is_so(&rt, found, pairs);
}

/// Pairs that fit `TWO_LECTURERS`, and whether they fit `ONE_LECTURER`.
const FITS: &[(&str, bool)] = &[
    ("M,S2,P2,\n", true),
    ("M,S2,P1,\n", false),
    ("M,S1,P1,\nM,S2,P2,\n", false),
];

#[test]
fn a_matching_may_fit_another_instance(rt: HostRuntime) {
    for (pairs, fits) in FITS {
        is_so(&rt, fits_too(&rt, pairs) == *fits, *pairs);
    }
}

/// Checks that the pairs fit `TWO_LECTURERS`, and returns whether they fit `ONE_LECTURER`.
fn fits_too(rt: &(impl Abort + AllocGlobal), pairs: &str) -> bool {
    let two = instance_of(rt, TWO_LECTURERS);
    let matching = matching_of(rt, &two, pairs);
    is_so(rt, two.fits(&matching), pairs);
    instance_of(rt, ONE_LECTURER).fits(&matching)
}
