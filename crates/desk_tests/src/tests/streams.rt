//! Tests a repeated short request, on devices that end or fail after each number of bytes.

use crate::tests::devices::{
    Feeder, ended, is_first, is_text, served_by, served_failing, stopped, taken,
};
use crate::tests::portal::{
    BAD_HEAD, NO_CALLER, filled, fresh, has_length, plays, published, reply, request, written,
};
use portal_core::Keeper;
use portal_desk::{Cause, Desk, Ending};
use std::process::Abort;

const SHORT: &str = "GET /me HTTP/1.1\r\nHost: h\r\n\r\n";

const LAST_REPLY: &str =
    "HTTP/1.1 403 Forbidden\r\ncontent-type: application/json\r\ncontent-length: 21\r\nconnection: close\r\n\r\n{\"error\":\"no_caller\"}";

const LAST_OPENING: &str =
    "HTTP/1.1 200 OK\r\ncontent-type: application/json\r\ncontent-length: 30\r\nconnection: close\r\n\r\n{\"phase\":\"choosing\",\"round\":2}";

/// Returns one request more than a connection serves.
fn requests(rt: &(impl Abort + AllocGlobal)) -> Vec<u8> {
    let bytes = filled(rt, "", SHORT, 257, "").into_bytes();
    has_length(rt, bytes.as_slice(), 7_453);
    bytes
}

/// Returns the replies to all requests that a connection serves. The last reply closes it.
fn replies(rt: &(impl Abort + AllocGlobal)) -> Vec<u8> {
    let text = filled(rt, "", NO_CALLER, 255, LAST_REPLY).into_bytes();
    has_length(rt, text.as_slice(), 25_363);
    text
}

/// Checks the output of a connection whose bytes are one request more than it serves.
fn is_limited<K: Keeper>(
    rt: &(impl Abort + AllocGlobal),
    desk: &mut Desk<K>,
    bytes: &[u8],
    wanted: &[u8],
) {
    let output = written(rt, desk, bytes, Ending::Limit, 256);
    is_text(rt, output.as_slice(), wanted);
}

#[test]
fn no_more_than_256_requests(rt: HostRuntime) {
    let mut desk = fresh(&rt);
    let (bytes, wanted) = (requests(&rt), replies(&rt));
    is_limited(&rt, &mut desk, bytes.as_slice(), wanted.as_slice());
}

/// The first request opens the second round, and the others change nothing.
#[test]
fn no_more_than_256_openings(rt: HostRuntime) {
    let mut desk = published(&rt);
    let opening =
        r#"office  POST /phase {"phase":"choosing","round":2}  200 {"phase":"choosing","round":2}"#;
    let bytes = filled(&rt, "", request(&rt, opening).as_str(), 257, "");
    let wanted = filled(&rt, "", reply(&rt, opening).as_str(), 255, LAST_OPENING);
    is_limited(&rt, &mut desk, bytes.as_bytes(), wanted.as_bytes());
    let me = r#"office  GET /me  200 {"phase":"choosing","role":"office","round":2}"#;
    plays(&rt, &mut desk, me);
}

/// Checks a reader that fails after `many` bytes: the requests that are complete are answered.
fn fails_reading<K: Keeper>(
    rt: &(impl Abort + AllocGlobal),
    desk: &mut Desk<K>,
    bytes: &[u8],
    wanted: &[u8],
    many: usize,
) {
    let bytes = &bytes[..many.min(bytes.len())];
    if many >= 7_424 {
        let output = served_failing(rt, desk, bytes, 4_096, ended(Ending::Limit, 256));
        is_text(rt, output.as_slice(), wanted);
    } else {
        let whole = many / 29;
        let output = served_failing(rt, desk, bytes, 4_096, stopped(Cause::Read, whole));
        is_first(rt, output.as_slice(), wanted, whole * 99);
    }
}

/// Checks readers that fail after each number of bytes in `from..to`.
fn fail_reading(rt: &(impl Abort + AllocGlobal), from: usize, to: usize) {
    let mut desk = fresh(rt);
    let bytes = requests(rt);
    let wanted = replies(rt);
    for many in from..to {
        fails_reading(rt, &mut desk, bytes.as_slice(), wanted.as_slice(), many);
    }
}

#[test]
fn readers_fail_before_5_000(rt: HostRuntime) {
    fail_reading(&rt, 0, 5_000);
}

#[test]
fn readers_fail_up_to_7_453(rt: HostRuntime) {
    fail_reading(&rt, 5_000, 7_454);
}

/// Checks that the output is the first `many` bytes of the replies, and then `closing`.
fn is_written(rt: &impl Abort, output: &[u8], wanted: &[u8], many: usize, closing: &str) {
    assert!(rt; many <= output.len());
    assert!(rt; many <= wanted.len());
    is_text(rt, &output[..many], &wanted[..many]);
    is_text(rt, &output[many..], closing.as_bytes());
}

/// Checks an input that ends after `many` bytes: an incomplete request is refused.
fn ends_reading<K: Keeper>(
    rt: &(impl Abort + AllocGlobal),
    desk: &mut Desk<K>,
    bytes: &[u8],
    wanted: &[u8],
    many: usize,
) {
    let mut source = Feeder::new(&bytes[..many.min(bytes.len())], 4_096);
    let (ending, replies, closing) = if many >= 7_424 {
        (Ending::Limit, wanted.len(), "")
    } else if many % 29 == 0 {
        (Ending::End, many / 29 * 99, "")
    } else {
        (Ending::Refused("bad_head"), many / 29 * 99, BAD_HEAD)
    };
    let outcome = ended(ending, (many / 29).min(256));
    let output = served_by(rt, desk, &mut source, outcome, many);
    is_written(rt, output.as_slice(), wanted, replies, closing);
}

/// Checks inputs that end after each number of bytes in `from..to`.
fn end_reading(rt: &(impl Abort + AllocGlobal), from: usize, to: usize) {
    let mut desk = fresh(rt);
    let bytes = requests(rt);
    let wanted = replies(rt);
    for many in from..to {
        ends_reading(rt, &mut desk, bytes.as_slice(), wanted.as_slice(), many);
    }
}

#[test]
fn readers_end_before_5_000(rt: HostRuntime) {
    end_reading(&rt, 0, 5_000);
}

#[test]
fn readers_end_up_to_7_453(rt: HostRuntime) {
    end_reading(&rt, 5_000, 7_454);
}

/// Checks a writer that fails after `many` bytes: no request after the failed reply has acted.
fn fails_writing<K: Keeper>(
    rt: &(impl Abort + AllocGlobal),
    desk: &mut Desk<K>,
    bytes: &[u8],
    wanted: &[u8],
    many: usize,
) {
    let requests = (many / 99).min(255) + 1;
    let held = taken(rt, desk, bytes, usize::MAX, many, requests);
    is_first(rt, held.as_slice(), wanted, many);
}

/// Checks writers that fail after each number of bytes in `from..to`.
fn fail_writing(rt: &(impl Abort + AllocGlobal), from: usize, to: usize) {
    let mut desk = fresh(rt);
    let bytes = requests(rt);
    let wanted = replies(rt);
    for many in from..to {
        fails_writing(rt, &mut desk, bytes.as_slice(), wanted.as_slice(), many);
    }
}

#[test]
fn writers_fail_before_12_500(rt: HostRuntime) {
    fail_writing(&rt, 0, 12_500);
}

#[test]
fn writers_fail_before_18_000(rt: HostRuntime) {
    fail_writing(&rt, 12_500, 18_000);
}

#[test]
fn writers_fail_before_22_000(rt: HostRuntime) {
    fail_writing(&rt, 18_000, 22_000);
}

#[test]
fn writers_fail_up_to_25_362(rt: HostRuntime) {
    fail_writing(&rt, 22_000, 25_363);
}
