//! Tests short streams that are cut or end anywhere, and devices that fail at each call.

use crate::tests::conversation::Stream;
use crate::tests::portal::{BAD_HEAD, BAD_LENGTH, fresh, with_rolls};
use crate::tests::trials::{ended_at, reader_fails_at, served_cut, writer_fails_at};
use portal_core::Keeper;
use portal_desk::Desk;
use std::process::Abort;

/// The office, a student, a lecturer and an unknown caller ask who they are.
const CALLERS: Stream = Stream {
    asked: &[
        (
            "GET /me HTTP/1.1\r\nHost: h\r\nportal-code: office-code-0\r\n\r\n",
            "",
            "HTTP/1.1 200 OK\r\ncontent-type: application/json\r\ncontent-length: 33\r\n\r\n{\"phase\":\"setup\",\"role\":\"office\"}",
        ),
        (
            "GET /me HTTP/1.1\r\nHost: h\r\nportal-code: ann-code-1\r\n\r\n",
            "",
            "HTTP/1.1 200 OK\r\ncontent-type: application/json\r\ncontent-length: 58\r\n\r\n{\"key\":\"S1\",\"name\":\"Ann\",\"phase\":\"setup\",\"role\":\"student\"}",
        ),
        (
            "GET /me HTTP/1.1\r\nHost: h\r\nportal-code: lee-code-01\r\n\r\n",
            "",
            "HTTP/1.1 200 OK\r\ncontent-type: application/json\r\ncontent-length: 72\r\n\r\n{\"capacity\":2,\"key\":\"L1\",\"name\":\"Lee\",\"phase\":\"setup\",\"role\":\"lecturer\"}",
        ),
        (
            "GET /me HTTP/1.1\r\nHost: h\r\n\r\n",
            "",
            "HTTP/1.1 403 Forbidden\r\ncontent-type: application/json\r\ncontent-length: 21\r\n\r\n{\"error\":\"no_caller\"}",
        ),
    ],
    head: "",
    body: "",
    word: "",
    closing: "",
    waits: true,
};

const NO_METHOD_NO_ROUTE: Stream = Stream {
    asked: &[
        (
            "DELETE /catalogue HTTP/1.1\r\nHost: h\r\n\r\n",
            "",
            "HTTP/1.1 405 Method Not Allowed\r\ncontent-type: application/json\r\ncontent-length: 22\r\nallow: GET, HEAD\r\n\r\n{\"error\":\"bad_method\"}",
        ),
        (
            "GET /nowhere HTTP/1.1\r\nHost: h\r\n\r\n",
            "",
            "HTTP/1.1 404 Not Found\r\ncontent-type: application/json\r\ncontent-length: 20\r\n\r\n{\"error\":\"no_route\"}",
        ),
    ],
    head: "",
    body: "",
    word: "",
    closing: "",
    waits: true,
};

const HALF_A_HEAD: Stream = Stream {
    asked: &[],
    head: "GET /me HTTP/1.1\r\nHost: h\r\n",
    body: "",
    word: "bad_head",
    closing: BAD_HEAD,
    waits: true,
};

const LONG_BODY: Stream = Stream {
    asked: &[],
    head: "PUT /choices HTTP/1.1\r\nHost: h\r\nContent-Length: 1048577\r\n\r\n",
    body: "",
    word: "too_large",
    closing: "HTTP/1.1 413 Content Too Large\r\ncontent-type: application/json\r\ncontent-length: 21\r\nconnection: close\r\n\r\n{\"error\":\"too_large\"}",
    waits: false,
};

const SHORT_BODY: Stream = Stream {
    asked: &[],
    head: "PUT /choices HTTP/1.1\r\nHost: h\r\nContent-Length: 10\r\n\r\n",
    body: "four",
    word: "bad_length",
    closing: BAD_LENGTH,
    waits: true,
};

const TWO_HOSTS: Stream = Stream {
    asked: &[],
    head: "GET /me HTTP/1.1\r\nHost: h\r\nHost: h\r\n\r\n",
    body: "",
    word: "bad_host",
    closing: "HTTP/1.1 400 Bad Request\r\ncontent-type: application/json\r\ncontent-length: 20\r\nconnection: close\r\n\r\n{\"error\":\"bad_host\"}",
    waits: false,
};

const CODED_BODY: Stream = Stream {
    asked: &[],
    head: "PUT /choices HTTP/1.1\r\nHost: h\r\nTransfer-Encoding: chunked\r\n\r\n",
    body: "",
    word: "coded_body",
    closing: "HTTP/1.1 501 Not Implemented\r\ncontent-type: application/json\r\ncontent-length: 22\r\nconnection: close\r\n\r\n{\"error\":\"coded_body\"}",
    waits: false,
};

/// A request, and after it one that framing refuses.
const REFUSED_SECOND: Stream = Stream {
    asked: &[(
        "GET /nowhere HTTP/1.1\r\nHost: h\r\n\r\n",
        "",
        "HTTP/1.1 404 Not Found\r\ncontent-type: application/json\r\ncontent-length: 20\r\n\r\n{\"error\":\"no_route\"}",
    )],
    head: "PUT /choices HTTP/1.1\r\nHost: h\r\nContent-Length: 10\r\n\r\n",
    body: "four",
    word: "bad_length",
    closing: BAD_LENGTH,
    waits: true,
};

fn cut_at_each_two_places<K: Keeper>(
    rt: &(impl Abort + AllocGlobal),
    desk: &mut Desk<K>,
    stream: &Stream,
) {
    let length = stream.bytes(rt).len();
    for first in 1..length {
        let behind = length.saturating_sub(first);
        for second in 1..=behind {
            served_cut(rt, desk, stream, first, second);
        }
    }
}

fn ended_at_each_place<K: Keeper>(
    rt: &(impl Abort + AllocGlobal),
    desk: &mut Desk<K>,
    stream: &Stream,
) {
    let length = stream.bytes(rt).len();
    for many in 0..=length {
        ended_at(rt, desk, stream, many);
    }
}

/// Checks readers that fail after each number of bytes, returned one by one or all at once.
fn readers_fail<K: Keeper>(rt: &(impl Abort + AllocGlobal), desk: &mut Desk<K>, stream: &Stream) {
    let length = stream.bytes(rt).len();
    for many in 0..=length {
        reader_fails_at(rt, desk, stream, 1, many);
        reader_fails_at(rt, desk, stream, 4_096, many);
    }
}

/// Checks writers that fail after each number of bytes, accepted one by one or all at once.
fn writers_fail<K: Keeper>(rt: &(impl Abort + AllocGlobal), desk: &mut Desk<K>, stream: &Stream) {
    let length = stream.output(rt).len();
    for many in 0..length {
        writer_fails_at(rt, desk, stream, 1, many);
        writer_fails_at(rt, desk, stream, usize::MAX, many);
    }
}

/// Checks the stream with all cuts and early ends, and on failing devices.
fn is_served_on_any_device<K: Keeper>(
    rt: &(impl Abort + AllocGlobal),
    desk: &mut Desk<K>,
    stream: &Stream,
) {
    cut_at_each_two_places(rt, desk, stream);
    ended_at_each_place(rt, desk, stream);
    readers_fail(rt, desk, stream);
    writers_fail(rt, desk, stream);
}

/// Checks the stream so on a fresh desk.
fn is_served_afresh(rt: &(impl Abort + AllocGlobal), stream: &Stream) {
    let mut desk = fresh(rt);
    is_served_on_any_device(rt, &mut desk, stream);
}

#[test]
fn four_callers(rt: HostRuntime) {
    let mut desk = with_rolls(&rt);
    is_served_on_any_device(&rt, &mut desk, &CALLERS);
}

#[test]
fn no_method_and_no_route(rt: HostRuntime) {
    is_served_afresh(&rt, &NO_METHOD_NO_ROUTE);
}

#[test]
fn half_a_head(rt: HostRuntime) {
    is_served_afresh(&rt, &HALF_A_HEAD);
}

#[test]
fn a_body_too_long(rt: HostRuntime) {
    is_served_afresh(&rt, &LONG_BODY);
}

#[test]
fn a_body_that_ends(rt: HostRuntime) {
    is_served_afresh(&rt, &SHORT_BODY);
}

#[test]
fn two_hosts(rt: HostRuntime) {
    is_served_afresh(&rt, &TWO_HOSTS);
}

#[test]
fn a_coded_body(rt: HostRuntime) {
    is_served_afresh(&rt, &CODED_BODY);
}

#[test]
fn a_refusal_behind_a_request(rt: HostRuntime) {
    is_served_afresh(&rt, &REFUSED_SECOND);
}
