//! Tests matchings whose blocking pairs are known.

use super::chance::add;
use super::made::{FULL_LECTURER, TWO_STABLE, instance_of, is_so, matching_of};
use spa_check::{Block, blocking_pairs, is_stable};
use spa_model::Letter::{A, B, C};
use spa_model::{Instance, Letter, Matching};
use std::process::Abort;

/// Returns a blocking pair.
pub(crate) fn block(student: usize, project: usize, letter: Letter) -> Block {
    Block {
        student,
        project,
        letter,
    }
}

/// Checks that the matching fits, and returns whether exactly these pairs block it.
pub(crate) fn are_blocks(
    rt: &(impl Abort + AllocGlobal),
    instance: &Instance,
    matching: &Matching,
    blocks: &[Block],
) -> bool {
    assert!(rt; instance.fits(matching));
    let found = blocking_pairs(rt.alloc(), instance, matching).expect(rt, "memory");
    found.as_slice() == blocks && is_stable(instance, matching) == blocks.is_empty()
}

/// The numbers of a blocking pair, and its letter.
type Pair = (usize, usize, Letter);

/// Checks that exactly these pairs block the matching.
fn do_block(rt: &(impl Abort + AllocGlobal), records: &str, pairs: &str, wanted: &[Pair]) {
    let mut blocks = Vec::new(rt.alloc());
    for (student, project, letter) in wanted {
        add(rt, &mut blocks, block(*student, *project, *letter));
    }
    let instance = instance_of(rt, records);
    let matching = matching_of(rt, &instance, pairs);
    let exactly = are_blocks(rt, &instance, &matching, &blocks);
    is_so(rt, exactly, format_args!("{records}{pairs}"));
}

/// One student, who lists two projects of a lecturer with one place.
const ONE_STUDENT: &str = "L,L1,1,S1\nP,P1,1,L1\nP,P2,1,L1\nS,S1,,P1 P2\n";

/// Instances, matchings and all their blocking pairs. First a student at the full lecturer may
/// move, then there are two students and two lecturers, and last a full lecturer takes a better
/// student.
const BLOCKS: &[(&str, &str, &[Pair])] = &[
    (ONE_STUDENT, "M,S1,P2,\n", &[(0, 0, B)]),
    (ONE_STUDENT, "M,S1,P1,\n", &[]),
    (TWO_STABLE, "M,S1,P1,\nM,S2,P2,\n", &[]),
    (TWO_STABLE, "M,S1,P2,\nM,S2,P1,\n", &[]),
    (TWO_STABLE, "M,S1,P2,\n", &[(0, 0, A), (1, 0, A)]),
    (TWO_STABLE, "M,S1,P1,\n", &[(1, 0, C), (1, 1, A)]),
    (FULL_LECTURER, "M,S1,P1,\nM,S2,P1,\n", &[(2, 0, B)]),
    (FULL_LECTURER, "M,S1,P1,\nM,S3,P1,\n", &[]),
    ("", "", &[]),
];

#[test]
fn exactly_these_pairs_block(rt: HostRuntime) {
    for (records, pairs, blocks) in BLOCKS {
        do_block(&rt, records, pairs, blocks);
    }
}
