//! Tests the longest body, on devices that fail.

use crate::tests::devices::{is_first, is_text, served_failing, stopped, taken};
use crate::tests::portal::{choosing, filled, plays, reopened, written};
use portal_core::Keeper;
use portal_desk::{Cause, Desk, Ending};
use std::process::Abort;

/// A request with an empty list, up to the spaces at its end.
const ASKED: &str =
    "PUT /choices HTTP/1.1\r\nHost: h\r\nportal-code: ann-code-1\r\nContent-Length: 1048576\r\n\r\n{\"projects\":[]}";

/// Lines in which a student is shown an empty list or the old one, or submits the old one.
const SHOWS_NONE: &str = r#"ann  GET /choices  200 {"projects":[]}"#;

const SHOWS_OLD: &str = r#"ann  GET /choices  200 {"projects":["P1","P2"]}"#;

const PUTS_OLD: &str =
    r#"ann  PUT /choices {"projects":["P1","P2"]}  200 {"projects":["P1","P2"]}"#;

const REPLY: &str =
    "HTTP/1.1 200 OK\r\ncontent-type: application/json\r\ncontent-length: 15\r\n\r\n{\"projects\":[]}";

const HAS_ONE: &str =
    "HTTP/1.1 409 Conflict\r\ncontent-type: application/json\r\ncontent-length: 26\r\n\r\n{\"error\":\"already_placed\"}";

/// Returns a request with an empty list, padded with spaces to the longest body.
fn longest(rt: &(impl Abort + AllocGlobal)) -> Vec<u8> {
    filled(rt, ASKED, " ", 1_048_561, "").into_bytes()
}

/// Checks the reply to the longest body, and that the student is then shown an empty list.
fn is_answered<K: Keeper>(rt: &(impl Abort + AllocGlobal), desk: &mut Desk<K>, reply: &str) {
    let bytes = longest(rt);
    let output = written(rt, desk, bytes.as_slice(), Ending::End, 1);
    is_text(rt, output.as_slice(), reply.as_bytes());
    plays(rt, desk, SHOWS_NONE);
}

#[test]
fn is_taken(rt: HostRuntime) {
    let mut desk = choosing(&rt);
    is_answered(&rt, &mut desk, REPLY);
}

/// In the second round, the longest body of a student with a project is read, and then refused.
#[test]
fn is_read_before_it_is_refused(rt: HostRuntime) {
    let mut desk = reopened(&rt);
    is_answered(&rt, &mut desk, HAS_ONE);
}

/// Checks a reader that fails before the last byte: the request has not acted.
fn fails_reading<K: Keeper>(
    rt: &(impl Abort + AllocGlobal),
    desk: &mut Desk<K>,
    bytes: &[u8],
    step: usize,
    many: usize,
) {
    let bytes = &bytes[..many.min(bytes.len())];
    let output = served_failing(rt, desk, bytes, step, stopped(Cause::Read, 0));
    is_text(rt, output.as_slice(), b"");
    plays(rt, desk, SHOWS_OLD);
}

#[test]
fn readers_fail_at_each_piece(rt: HostRuntime) {
    let mut desk = choosing(&rt);
    let bytes = longest(&rt);
    for calls in 0..257usize {
        fails_reading(&rt, &mut desk, bytes.as_slice(), 4_096, calls * 4_096);
    }
}

#[test]
fn readers_fail_at_each_byte_of_the_head(rt: HostRuntime) {
    let mut desk = choosing(&rt);
    let bytes = longest(&rt);
    for many in 0..200usize {
        fails_reading(&rt, &mut desk, bytes.as_slice(), 1, many);
    }
}

/// If a reader fails after the last byte, the request has acted and its reply is complete.
#[test]
fn a_reader_fails_behind_it(rt: HostRuntime) {
    let mut desk = choosing(&rt);
    let bytes = longest(&rt);
    let wanted = stopped(Cause::Read, 1);
    let output = served_failing(&rt, &mut desk, bytes.as_slice(), 4_096, wanted);
    is_text(&rt, output.as_slice(), REPLY.as_bytes());
    plays(&rt, &mut desk, SHOWS_NONE);
}

/// Checks a writer that fails after `many` bytes: the request has acted.
fn fails_writing<K: Keeper>(
    rt: &(impl Abort + AllocGlobal),
    desk: &mut Desk<K>,
    bytes: &[u8],
    step: usize,
    many: usize,
) {
    plays(rt, desk, PUTS_OLD);
    let held = taken(rt, desk, bytes, step, many, 1);
    is_first(rt, held.as_slice(), REPLY.as_bytes(), many);
    plays(rt, desk, SHOWS_NONE);
}

/// Checks writers that fail after each number of bytes. They accept up to `step` bytes a call.
fn writers_fail(rt: &(impl Abort + AllocGlobal), step: usize) {
    let mut desk = choosing(rt);
    let bytes = longest(rt);
    for many in 0..REPLY.len() {
        fails_writing(rt, &mut desk, bytes.as_slice(), step, many);
    }
}

#[test]
fn writers_fail_at_each_byte(rt: HostRuntime) {
    writers_fail(&rt, 1);
}

#[test]
fn writers_fail_at_each_part(rt: HostRuntime) {
    writers_fail(&rt, usize::MAX);
}
