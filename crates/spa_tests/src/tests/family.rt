//! Compares two ways of listing blocking pairs, for all matchings of 64 small instances.

use super::blocking::are_blocks;
use super::chance::put;
use super::made::{instance_of, is_so, pairs_of, projects_of};
use super::plain::Board;
use spa_model::{Instance, Matching};
use std::process::Abort;

/// The records of a small instance, in parts. A bit of a number chooses the first or second text.
const PARTS: &[(u32, &str, &str)] = &[
    (5, "L,L1,1,", "L,L1,2,"),
    (0, "S1 S2 S3\n", "S3 S1 S2\n"),
    (1, "L,L2,1,S1 S3\n", "L,L2,1,S3 S1\n"),
    (
        5,
        "P,P1,1,L1\nP,P2,1,L1\nP,P3,1,L2\n",
        "P,P1,1,L1\nP,P2,2,L1\nP,P3,1,L2\n",
    ),
    (2, "S,S1,,P1 P2 P3\n", "S,S1,,P3 P2 P1\n"),
    (3, "S,S2,,P1 P2\n", "S,S2,,P2 P1\n"),
    (4, "S,S3,,P3 P1 P2\n", "S,S3,,P2 P3 P1\n"),
];

/// Builds a small instance whose lists and capacities depend on the bits of the number.
fn member(rt: &(impl Abort + AllocGlobal), number: u32) -> Instance {
    let mut records = String::new(rt.alloc());
    for (bit, first, second) in PARTS {
        let is_first = (number >> (*bit % 32)) % 2 == 0;
        put(rt, &mut records, if is_first { *first } else { *second });
    }
    instance_of(rt, &records)
}

/// Returns the records of the pairs. The digits of the code to base 4, from the last, give the
/// students' projects, and 0 gives none.
fn pairs_by(rt: &(impl Abort + AllocGlobal), code: u32) -> String {
    let mut records = String::new(rt.alloc());
    let mut rest = code;
    for student in 1..4u32 {
        if rest % 4 > 0 {
            put(
                rt,
                &mut records,
                format_args!("M,S{student},P{},\n", rest % 4),
            );
        }
        rest /= 4;
    }
    records
}

/// Returns whether both ways list the same blocking pairs.
fn do_agree(rt: &(impl Abort + AllocGlobal), instance: &Instance, matching: &Matching) -> bool {
    let projects = projects_of(rt, instance, matching);
    let judged = Board::of(rt, instance).blocks(rt, &projects);
    are_blocks(rt, instance, matching, &judged)
}

/// Checks that both ways agree on the pairs of the code, and returns whether they are a matching.
fn is_agreed(rt: &(impl Abort + AllocGlobal), instance: &Instance, code: u32) -> bool {
    let lines = pairs_of(rt, &pairs_by(rt, code));
    let Ok(matching) = Matching::build(rt.alloc(), instance, lines) else {
        return false;
    };
    is_so(rt, do_agree(rt, instance, &matching), code);
    true
}

/// Checks that both ways agree on all matchings of the member, and returns their number.
fn agreeing(rt: &(impl Abort + AllocGlobal), number: u32) -> u32 {
    let instance = member(rt, number);
    let mut count = 0u32;
    for code in 0..64u32 {
        if is_agreed(rt, &instance, code) {
            count = count.wrapping_add(1);
        }
    }
    count
}

#[test]
fn both_ways_agree(rt: HostRuntime) {
    for number in 0..64 {
        is_so(&rt, agreeing(&rt, number) > 9, number);
    }
}
