//! Tests framing by examples.

use crate::tests::portal::says;
use portal_fixtures::{cut, without_escapes};
use portal_frame::{Frame, Refusal, Request, frame};
use std::process::Abort;

/// Returns what framing finds in the bytes. `ended` says whether the input ends after them.
pub(crate) fn framed(rt: &(impl Abort + AllocGlobal), bytes: &[u8], ended: bool) -> Frame {
    frame(rt.alloc(), bytes, ended).expect(rt, "memory")
}

/// Describes a frame in short.
fn told(rt: &(impl Abort + AllocGlobal), found: &Frame) -> String {
    match found {
        Frame::Need => owned(rt, "need"),
        Frame::End => owned(rt, "end"),
        Frame::Request(request, used) => told_request(rt, request, *used),
        Frame::Bad { refusal, head_only } => told_refusal(rt, refusal, *head_only),
    }
}

/// Copies a word.
pub(crate) fn owned(rt: &(impl Abort + AllocGlobal), word: &str) -> String {
    word.to_string(rt.alloc()).expect(rt, "memory")
}

fn told_request(rt: &(impl Abort + AllocGlobal), request: &Request, used: usize) -> String {
    let (path, code, body) = (request.path.len(), request.code.len(), request.body.len());
    let text = format!(in rt.alloc(); "request {path} {code} {} {body} {used}", request.close);
    text.expect(rt, "memory")
}

fn told_refusal(rt: &(impl Abort + AllocGlobal), refusal: &Refusal, head_only: bool) -> String {
    let text = format!(in rt.alloc(); "{} {} {head_only}", refusal.status, refusal.word);
    text.expect(rt, "memory")
}

/// Checks what framing finds in the bytes. `ended` says whether the input ends after them.
pub(crate) fn finds(rt: &(impl Abort + AllocGlobal), bytes: &[u8], ended: bool, wanted: &str) {
    says(rt, told(rt, &framed(rt, bytes, ended)).as_str(), wanted);
}

pub(crate) fn is(rt: &(impl Abort + AllocGlobal), bytes: &str, ended: bool, wanted: &str) {
    finds(rt, bytes.as_bytes(), ended, wanted);
}

/// Each row says whether the input has ended, what framing finds, and the bytes.
const REQUESTS: &str = r#"
open   request 3 3 false 0 49  GET /me?a HTTP/1.1\r\nHost: h\r\nPortal-Code: abc\r\n\r\nGET
open   request 3 0 true 0 53   GET /me HTTP/1.1\r\nHost: h\r\nConnection: a ,\tClose \r\n\r\n
open   request 3 0 true 0 18   GET /me HTTP/1.0\n\n
open   request 3 0 false 2 82  PUT /me HTTP/1.1\r\nhost: h\r\ncontent-length: 2\r\nportal-code: a\r\nportal-code: b\r\n\r\nabc
open   need                    PUT /me HTTP/1.1\r\nhost: h\r\ncontent-length: 4\r\n\r\nabc
open   need                    GET /me HTTP/1.1\r\nHost: h\r\n
ended  end                     \r\n\n\r
ended  end
open   need
"#;

const REFUSALS: &str = r#"
ended  400 bad_head false      GET /me HTTP/1.1\r\nHost: h\r\n
open   400 bad_head false      GET /me HTTP/1.2\r\n
open   400 bad_host true       HEAD /me HTTP/1.1\r\n\r\n
open   400 bad_host false      GET /me HTTP/1.0\r\nHost: a\r\nhost: b\r\n\r\n
open   501 coded_body false    GET /me HTTP/1.1\r\nHost: a\r\nTransfer-Encoding: chunked\r\n\r\n
open   413 too_large false     PUT /me HTTP/1.1\r\nHost: a\r\ncontent-length: 1048577\r\n\r\n
open   400 bad_length false    PUT /me HTTP/1.1\r\nHost: a\r\ncontent-length: +1\r\n\r\n
open   400 bad_length false    PUT /me HTTP/1.1\r\nHost: a\r\ncontent-length: 1\r\ncontent-length: 1\r\n\r\n
ended  400 bad_length false    PUT /me HTTP/1.1\r\nHost: a\r\ncontent-length: 10\r\n\r\nabcd
open   need                    GET /me HTTP/1.1\na:\na:\na:\na:\na:\na:\na:\na:\na:\na:\na:\na:\na:\na:\na:\na:\na:\na:\na:\na:\na:\na:\na:\na:\na:\na:\na:\na:\na:\na:\na:\na:\na:
open   400 bad_head false      GET /me HTTP/1.1\na:\na:\na:\na:\na:\na:\na:\na:\na:\na:\na:\na:\na:\na:\na:\na:\na:\na:\na:\na:\na:\na:\na:\na:\na:\na:\na:\na:\na:\na:\na:\na:\na:\n
open   400 bad_length false    PUT /choices HTTP/1.1\r\nHost: h\r\nContent-Length: +5\r\n\r\n
open   413 too_large false     PUT /choices HTTP/1.1\r\nHost: h\r\nContent-Length: 999999999999999999\r\n\r\n
ended  400 bad_length false    PUT /choices HTTP/1.1\r\nHost: h\r\nContent-Length: 10\r\n\r\n{"pr
open   400 bad_host false      GET /me HTTP/1.1\r\nHost: h\r\nHost: h\r\n\r\n
open   501 coded_body false    PUT /choices HTTP/1.1\r\nHost: h\r\nTransfer-Encoding: chunked\r\n\r\n
"#;

/// Checks that framing finds what each row says.
fn are(rt: &(impl Abort + AllocGlobal), rows: &str) {
    for row in rows.lines().skip(1) {
        is_row(rt, row);
    }
}

fn is_row(rt: &(impl Abort + AllocGlobal), row: &str) {
    let (input, rest) = cut(row, "  ");
    let (wanted, bytes) = cut(rest.trim_start(), "  ");
    let bytes = without_escapes(rt.alloc(), bytes.trim_start()).expect(rt, "memory");
    is(rt, bytes.as_str(), input == "ended", wanted);
}

#[test]
fn requests_and_refusals(rt: HostRuntime) {
    are(&rt, REQUESTS);
    are(&rt, REFUSALS);
}
