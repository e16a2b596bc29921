//! Tests changes of the second round on a disk that stops at a write, or fails once at a write or a
//! read. The database is opened again after each fault.

use crate::tests::stops::{INIT, comes, dies};
use crate::tests::trial::Fault;
use portal_fixtures::changes::{FIRST, OPENED, RANKED, SECOND_PUBLICATION};
use portal_fixtures::worked::SECOND_OPENING;
use std::process::Abort;

/// A published first round. `IN_CHOOSING` adds the lists of the second round.
const IN_THE_FIRST: &[&str] = &[INIT, FIRST];

const IN_CHOOSING: &[&str] = &[INIT, FIRST, OPENED];

/// Checks that the fault occurs at least `least` times from the opening to the last list.
fn comes_in_choosing(rt: &(impl Abort + AllocGlobal), fault: Fault, least: u64) {
    comes(rt, fault, IN_THE_FIRST, &[OPENED], least);
}

/// Checks that the fault occurs at least `least` times in ranking and in the publication.
fn comes_in_ranking(rt: &(impl Abort + AllocGlobal), fault: Fault, least: u64) {
    comes(rt, fault, IN_CHOOSING, &[RANKED, SECOND_PUBLICATION], least);
}

#[test]
fn the_disk_stops_in_choosing(rt: HostRuntime) {
    comes_in_choosing(&rt, Fault::Stop, 30);
}

#[test]
fn a_write_is_refused_in_choosing(rt: HostRuntime) {
    comes_in_choosing(&rt, Fault::Refusal, 30);
}

#[test]
fn a_write_is_in_doubt_in_choosing(rt: HostRuntime) {
    comes_in_choosing(&rt, Fault::Doubt, 30);
}

#[test]
fn a_read_fails_in_choosing(rt: HostRuntime) {
    comes_in_choosing(&rt, Fault::Read, 70);
}

#[test]
fn the_disk_stops_in_ranking(rt: HostRuntime) {
    comes_in_ranking(&rt, Fault::Stop, 35);
}

#[test]
fn a_write_is_refused_in_ranking(rt: HostRuntime) {
    comes_in_ranking(&rt, Fault::Refusal, 35);
}

#[test]
fn a_write_is_in_doubt_in_ranking(rt: HostRuntime) {
    comes_in_ranking(&rt, Fault::Doubt, 35);
}

#[test]
fn a_read_fails_in_ranking(rt: HostRuntime) {
    comes_in_ranking(&rt, Fault::Read, 120);
}

#[test]
fn a_store_that_failed_is_served_no_more(rt: HostRuntime) {
    dies(&rt, Fault::Stop, IN_THE_FIRST, SECOND_OPENING);
    dies(&rt, Fault::Refusal, IN_THE_FIRST, SECOND_OPENING);
}
