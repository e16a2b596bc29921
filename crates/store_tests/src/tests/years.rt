//! Plays whole years, over a database in memory and over lists.

use crate::tests::steps::{new_desk, new_lists, plays};
use portal_core::Keeper;
use portal_desk::Desk;
use portal_fixtures::second::SECOND_ROUND;
use portal_fixtures::{fills, rolls, runs, watched, wide, years};
use std::process::Abort;

/// Checks that each line of the year gets its reply. Generic, because proofs over `MemStore` are
/// slow.
fn is_told<K: Keeper + Drop>(rt: &(impl Abort + AllocGlobal), desk: Desk<K>, year: &[&str]) {
    let mut desk = desk;
    plays(rt, &mut desk, year);
}

/// Checks that each line of the year gets its reply from both keepers.
fn is_played(rt: &(impl Abort + AllocGlobal), year: &[&str]) {
    is_told(rt, new_desk(rt), year);
    is_told(rt, new_lists(rt), year);
}

#[test]
fn the_worked_year(rt: HostRuntime) {
    is_played(&rt, years::WORKED_YEAR);
}

#[test]
fn what_is_missing_is_filled(rt: HostRuntime) {
    is_played(&rt, fills::ONE_IS_FILLED);
}

#[test]
fn all_is_filled(rt: HostRuntime) {
    is_played(&rt, fills::ALL_ARE_FILLED);
}

#[test]
fn what_was_filled_is_replaced_and_counts(rt: HostRuntime) {
    is_played(&rt, fills::ONE_IS_REPLACED);
}

#[test]
fn who_has_no_applicant_need_not_rank(rt: HostRuntime) {
    is_played(&rt, fills::ONE_IS_NOT_OWED);
}

#[test]
fn one_key_names_two(rt: HostRuntime) {
    is_played(&rt, rolls::ONE_KEY_NAMES_TWO);
}

#[test]
fn a_roll_with_a_mark_and_other_ends(rt: HostRuntime) {
    is_played(&rt, rolls::OTHER_LINE_ENDS);
}

#[test]
fn rows_stand_twice_or_are_refused(rt: HostRuntime) {
    is_played(&rt, rolls::FAULTY_ROWS);
}

#[test]
fn a_list_of_twenty(rt: HostRuntime) {
    is_played(&rt, rolls::LIST_OF_TWENTY);
}

#[test]
fn no_place_is_seen(rt: HostRuntime) {
    is_played(&rt, watched::NO_PLACE_IS_SEEN);
}

#[test]
fn the_office_sees_each_change(rt: HostRuntime) {
    is_played(&rt, watched::WATCHED);
}

#[test]
fn the_office_sees_each_change_of_the_second_round(rt: HostRuntime) {
    is_played(&rt, watched::WATCHED_TWICE);
}

#[test]
fn a_lecturer_hears_this(rt: HostRuntime) {
    is_played(&rt, runs::PLAIN);
}

#[test]
fn a_lecturer_hears_the_same(rt: HostRuntime) {
    is_played(&rt, runs::TURNED);
}

#[test]
fn the_worked_round(rt: HostRuntime) {
    is_played(&rt, SECOND_ROUND);
}

#[test]
fn a_lecturer_hears_this_in_both_rounds(rt: HostRuntime) {
    is_played(&rt, wide::PLAIN);
}

#[test]
fn a_lecturer_hears_the_same_in_both_rounds(rt: HostRuntime) {
    is_played(&rt, wide::TURNED);
}
