//! Tests the timeouts of a connection, by a clock that moves only during waits.

use crate::tests::callers::Act::{Ends, Sends, Signal};
use crate::tests::callers::{Act, Caller, ME, PROMPT, Pace, TestClock, pace_of, serve};
use crate::tests::portal::fresh_keeper;
use portal_desk::{Cause, Desk, Ending, ServeFault, Served};
use std::process::Abort;

/// The request of `ME` that also asks to close the connection. Its reply has 118 bytes.
const LAST: &str = "GET /me HTTP/1.1\r\nHost: h\r\nConnection: close\r\n\r\n";

/// The result of a connection.
type End = Result<Served, ServeFault>;

/// Checks the result of a connection.
fn has_ended(rt: &impl Abort, found: End, wanted: End) {
    assert_eq!(rt; found, wanted);
}

/// Checks how many bytes the caller read, and how many seconds passed.
fn has_taken(rt: &impl Abort, found: (usize, u64), bytes: usize, seconds: u64) {
    assert_eq!(rt; found.0, bytes);
    assert_eq!(rt; found.1, seconds);
}

/// Serves a caller who reads replies at this pace. Checks how the connection ends, how many bytes
/// the caller reads, and how many seconds pass.
fn comes(
    rt: &(impl Abort + AllocGlobal),
    acts: &[(u64, Act)],
    pace: Pace,
    ended: End,
    bytes: usize,
    seconds: u64,
) {
    let clock = TestClock::new();
    let caller = Caller::new(&clock, acts, pace);
    let mut desk = Desk::new(fresh_keeper(rt));
    let found = serve(rt.alloc(), &caller, &mut desk);
    has_ended(rt, found.ended, ended);
    has_taken(rt, (caller.taken(), clock.seconds()), bytes, seconds);
}

/// Returns the result of a connection that ends with a fault after this many requests.
pub(crate) fn fault(cause: Cause, requests: u32) -> End {
    Err(ServeFault { cause, requests })
}

/// Returns the result of a connection whose input ends after this many requests.
pub(crate) fn end(requests: u32) -> End {
    let ending = Ending::End;
    Ok(Served { requests, ending })
}

/// Returns the result of a connection that the last of this many requests closes.
fn closed(requests: u32) -> End {
    let ending = Ending::Closed;
    Ok(Served { requests, ending })
}

#[test]
fn silence_ends_after_30_seconds(rt: HostRuntime) {
    comes(&rt, &[], PROMPT, fault(Cause::Read, 0), 0, 30);
    let late = [(31, Sends(ME))];
    comes(&rt, &late, PROMPT, fault(Cause::Read, 0), 0, 30);
    let one = [(29, Sends(ME)), (31, Sends(ME))];
    comes(&rt, &one, PROMPT, fault(Cause::Read, 1), 99, 59);
}

#[test]
fn a_kept_connection_ends_after_300_seconds(rt: HostRuntime) {
    let kept = [(29, Sends(ME)); 20];
    comes(&rt, &kept, PROMPT, fault(Cause::Read, 10), 990, 300);
}

#[test]
fn a_request_has_60_seconds(rt: HostRuntime) {
    let slow = [
        (10, Sends("GET /me")),
        (29, Sends(" HTTP/1.1\r\n")),
        (29, Sends("Host: h\r\n")),
        (3, Sends("\r\n")),
    ];
    comes(&rt, &slow, PROMPT, fault(Cause::Read, 0), 0, 70);
    let whole = [
        (10, Sends("GET /me")),
        (29, Sends(" HTTP/1.1\r\n")),
        (29, Sends("Host: h\r\n")),
        (1, Sends("\r\n")),
        (0, Ends),
    ];
    comes(&rt, &whole, PROMPT, end(1), 99, 69);
}

#[test]
fn each_request_has_60_seconds_of_its_own(rt: HostRuntime) {
    let first = (5, Sends("GET /me HTTP/1.1\r\n"));
    let middle = (25, Sends("Host: h\r\n"));
    let last = (25, Sends("\r\n"));
    let three = [
        first,
        middle,
        last,
        first,
        middle,
        last,
        first,
        middle,
        last,
        (0, Ends),
    ];
    comes(&rt, &three, PROMPT, end(3), 297, 165);
}

#[test]
fn a_first_byte_may_come_with_the_request_before(rt: HostRuntime) {
    let both = (0, Sends("GET /me HTTP/1.1\r\nHost: h\r\n\r\nGET /me"));
    let slow = pace_of(4_096, 5, 0);
    let late = [
        both,
        (29, Sends(" HTTP/1.1\r\n")),
        (27, Sends("Host: h\r\n\r\n")),
    ];
    comes(&rt, &late, slow, fault(Cause::Read, 1), 99, 60);
    let timely = [
        both,
        (29, Sends(" HTTP/1.1\r\n")),
        (25, Sends("Host: h\r\n\r\n")),
        (0, Ends),
    ];
    comes(&rt, &timely, slow, end(2), 198, 64);
}

#[test]
fn each_reply_has_60_seconds_of_its_own(rt: HostRuntime) {
    let two_pieces = pace_of(50, 25, 0);
    let three = [(0, Sends(ME)), (10, Sends(ME)), (10, Sends(ME)), (0, Ends)];
    comes(&rt, &three, two_pieces, end(3), 297, 170);
    let three_pieces = pace_of(40, 25, 0);
    let one = [(0, Sends(ME))];
    comes(&rt, &one, three_pieces, fault(Cause::Write, 1), 80, 60);
}

#[test]
fn a_signal_is_no_fault(rt: HostRuntime) {
    let begun = [
        (20, Sends("GET /me")),
        (25, Signal),
        (25, Signal),
        (5, Sends(" HTTP/1.1\r\nHost: h\r\n\r\n")),
        (5, Signal),
        (0, Ends),
    ];
    comes(&rt, &begun, PROMPT, end(1), 99, 80);
}

#[test]
fn a_signal_gives_no_time(rt: HostRuntime) {
    let begun = [
        (20, Sends("GET /me")),
        (25, Signal),
        (25, Signal),
        (25, Sends(" HTTP/1.1\r\nHost: h\r\n\r\n")),
    ];
    comes(&rt, &begun, PROMPT, fault(Cause::Read, 0), 0, 80);
    let one = [(0, Sends(ME)), (0, Ends)];
    let twice = pace_of(4_096, 19, 2);
    comes(&rt, &one, twice, end(1), 99, 57);
    let thrice = pace_of(4_096, 19, 3);
    comes(&rt, &one, thrice, fault(Cause::Write, 1), 0, 60);
}

/// A byte that a caller sends after 4 seconds, although the connection is closing.
const TALKS: (u64, Act) = (4, Sends("x"));

#[test]
fn a_caller_is_parted_from_in_time(rt: HostRuntime) {
    let falls_silent = [(0, Sends(LAST)), TALKS, (4, Signal), TALKS, (6, Sends("x"))];
    comes(&rt, &falls_silent, PROMPT, closed(1), 118, 17);
    let mut goes_on = [TALKS; 20];
    goes_on[0] = (10, Sends(LAST));
    comes(&rt, &goes_on, PROMPT, closed(1), 118, 70);
    let mut at_the_end = [(29, Sends(ME)); 13];
    at_the_end[10] = (5, Sends(LAST));
    at_the_end[11] = TALKS;
    at_the_end[12] = TALKS;
    comes(&rt, &at_the_end, PROMPT, closed(11), 1108, 300);
}
