//! Tests request heads at their limits.

use super::frames::is;
use crate::tests::portal::{BAD_HEAD, NO_CALLER, filled, fresh, gives};
use portal_desk::Ending;
use std::process::Abort;

/// Returns a head with a request line, a Host line and `more` further lines.
fn with_lines(rt: &(impl Abort + AllocGlobal), more: usize) -> String {
    let opening = "GET /me HTTP/1.1\r\nHost: h\r\n";
    filled(rt, opening, "a: b\r\n", more, "\r\n")
}

/// Returns a head with a header value of `length` bytes, followed by `end`.
fn with_value(rt: &(impl Abort + AllocGlobal), length: usize, end: &str) -> String {
    let opening = "GET /me HTTP/1.1\r\nHost: h\r\na: ";
    filled(rt, opening, "b", length, end)
}

#[test]
fn at_most_32_lines(rt: HostRuntime) {
    let most = with_lines(&rt, 31);
    is(&rt, most.as_str(), false, "request 3 0 false 0 215");
    let more = with_lines(&rt, 32);
    is(&rt, more.as_str(), false, "400 bad_head false");
}

#[test]
fn at_most_16384_bytes(rt: HostRuntime) {
    let most = with_value(&rt, 16350, "\r\n\r\n");
    is(&rt, most.as_str(), false, "request 3 0 false 0 16384");
    let more = with_value(&rt, 16351, "\r\n\r\n");
    is(&rt, more.as_str(), false, "400 bad_head false");
    let open = with_value(&rt, 16354, "");
    is(&rt, open.as_str(), false, "400 bad_head false");
}

/// Checks that a desk serves a head at the limit, and refuses one beyond it.
fn serves(rt: &(impl Abort + AllocGlobal), most: &str, more: &str) {
    let mut desk = fresh(rt);
    gives(rt, &mut desk, most, Ending::End, 1, NO_CALLER);
    let refused = Ending::Refused("bad_head");
    gives(rt, &mut desk, more, refused, 0, BAD_HEAD);
}

#[test]
fn heads_are_served_up_to_their_limits(rt: HostRuntime) {
    let lines = with_lines(&rt, 31);
    let more_lines = with_lines(&rt, 32);
    serves(&rt, lines.as_str(), more_lines.as_str());
    let bytes = with_value(&rt, 16350, "\r\n\r\n");
    let more_bytes = with_value(&rt, 16354, "\r\n\r\n");
    serves(&rt, bytes.as_str(), more_bytes.as_str());
}
