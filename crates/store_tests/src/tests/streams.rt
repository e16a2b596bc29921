//! Tests streams of requests, over a database in memory and over lists.

use crate::tests::steps::{new_desk, new_lists, plays};
use portal_core::Keeper;
use portal_desk::{Counted, Desk};
use portal_fixtures::output_for;
use portal_fixtures::worked::{
    IN_CHOOSING, IN_PUBLISHED, IN_SETUP, SECOND_PUBLICATION, SECOND_TO_RANKING,
};
use std::io::Read;
use std::process::Abort;
use std::{io, slice};

const FOUR: &str =
    "GET /me HTTP/1.1\r\nHost: h\r\nPortal-Code: office-code-0\r\n\r\nGET /me HTTP/1.1\r\nHost: h\r\nPortal-Code: ann-code-1\r\n\r\nGET /me HTTP/1.1\r\nHost: h\r\nPortal-Code: lee-code-01\r\n\r\nGET /me HTTP/1.1\r\nHost: h\r\n\r\n";

const FOUR_REPLIES: &str =
    "HTTP/1.1 200 OK\r\ncontent-type: application/json\r\ncontent-length: 33\r\n\r\n{\"phase\":\"setup\",\"role\":\"office\"}HTTP/1.1 200 OK\r\ncontent-type: application/json\r\ncontent-length: 58\r\n\r\n{\"key\":\"S1\",\"name\":\"Ann\",\"phase\":\"setup\",\"role\":\"student\"}HTTP/1.1 200 OK\r\ncontent-type: application/json\r\ncontent-length: 72\r\n\r\n{\"capacity\":2,\"key\":\"L1\",\"name\":\"Lee\",\"phase\":\"setup\",\"role\":\"lecturer\"}HTTP/1.1 403 Forbidden\r\ncontent-type: application/json\r\ncontent-length: 21\r\n\r\n{\"error\":\"no_caller\"}";

const HEAD: &str =
    "GET /nowhere HTTP/1.1\r\nHost: h\r\n\r\nHEAD /catalogue HTTP/1.1\r\nHost: h\r\nPortal-Code: office-code-0\r\n\r\nDELETE /catalogue HTTP/1.1\r\nHost: h\r\nPortal-Code: office-code-0\r\n\r\n";

const HEAD_REPLIES: &str =
    "HTTP/1.1 404 Not Found\r\ncontent-type: application/json\r\ncontent-length: 20\r\n\r\n{\"error\":\"no_route\"}HTTP/1.1 200 OK\r\ncontent-type: application/json\r\ncontent-length: 15\r\n\r\nHTTP/1.1 405 Method Not Allowed\r\ncontent-type: application/json\r\ncontent-length: 22\r\nallow: GET, HEAD\r\n\r\n{\"error\":\"bad_method\"}";

const SHEETS: &str =
    "GET /allocation.csv HTTP/1.1\r\nHost: h\r\nPortal-Code: office-code-0\r\n\r\nGET /report HTTP/1.1\r\nHost: h\r\nPortal-Code: office-code-0\r\n\r\n";

const SHEET_REPLIES: &str =
    "HTTP/1.1 200 OK\r\ncontent-type: text/csv; charset=utf-8\r\ncontent-length: 91\r\n\r\nstudent,name,project,title,lecturer\nS1,Ann,P2,Kites,L1\nS2,\"Roe, Bea\",P1,Tides,L1\nS3,Cyr,,,\nHTTP/1.1 200 OK\r\ncontent-type: text/plain; charset=utf-8\r\ncontent-length: 208\r\n\r\nS1                P2                L1\nS2                P1                L1\nS3                (none)\n\nP1                 1 of    1\nP2                 1 of    1\nP3                 0 of    1\n\nassigned 2 of 3\n";

/// The scripts to play, the input of a connection after them, and its output.
type Served = (&'static [&'static str], &'static str, &'static str);

const SERVED: &[Served] = &[
    (IN_SETUP, FOUR, FOUR_REPLIES),
    (&[], HEAD, HEAD_REPLIES),
    (IN_PUBLISHED, SHEETS, SHEET_REPLIES),
    (
        &[],
        "GET /me HTTP/1.1\r\nHost: h\r\n",
        "HTTP/1.1 400 Bad Request\r\ncontent-type: application/json\r\ncontent-length: 20\r\nconnection: close\r\n\r\n{\"error\":\"bad_head\"}",
    ),
    (
        &[],
        "PUT /choices HTTP/1.1\r\nHost: h\r\nContent-Length: 1048577\r\n\r\n",
        "HTTP/1.1 413 Content Too Large\r\ncontent-type: application/json\r\ncontent-length: 21\r\nconnection: close\r\n\r\n{\"error\":\"too_large\"}",
    ),
    (
        &[],
        "PUT /choices HTTP/1.1\r\nHost: h\r\nContent-Length: 10\r\n\r\nfour",
        "HTTP/1.1 400 Bad Request\r\ncontent-type: application/json\r\ncontent-length: 22\r\nconnection: close\r\n\r\n{\"error\":\"bad_length\"}",
    ),
    (
        &[],
        "GET /me HTTP/1.1\r\nHost: h\r\nHost: h\r\n\r\n",
        "HTTP/1.1 400 Bad Request\r\ncontent-type: application/json\r\ncontent-length: 20\r\nconnection: close\r\n\r\n{\"error\":\"bad_host\"}",
    ),
    (
        &[],
        "PUT /choices HTTP/1.1\r\nHost: h\r\nTransfer-Encoding: chunked\r\n\r\n",
        "HTTP/1.1 501 Not Implemented\r\ncontent-type: application/json\r\ncontent-length: 22\r\nconnection: close\r\n\r\n{\"error\":\"coded_body\"}",
    ),
];

/// A reader that returns one byte a call.
#[derive(Drop)]
struct Drip<'b> {
    rest: &'b [u8],
}

impl<'b> Read for Drip<'b> {
    fn read(&mut self, buf: &mut [u8]) -> io::Result<usize> {
        let room = buf.len().min(1);
        self.rest.read(&mut buf[..room])
    }
}

/// Serves bytes that arrive one at a time, and returns the output.
fn dripped<K: Keeper>(
    rt: &(impl Abort + AllocGlobal),
    desk: &mut Desk<K>,
    bytes: &[u8],
) -> Vec<u8> {
    let mut source = Counted::new(Drip { rest: bytes });
    let mut sink = Counted::new(Vec::new(rt.alloc()));
    let _served = desk.serve(rt.alloc(), &mut source, &mut sink);
    sink.into_inner()
}

/// Checks the output of a stream that arrives in one piece, and byte by byte.
fn gives<K: Keeper>(rt: &(impl Abort + AllocGlobal), desk: &mut Desk<K>, served: &Served) {
    let (parts, bytes, output) = *served;
    plays(rt, desk, parts);
    let text = output_for(rt.alloc(), desk, bytes.as_bytes());
    assert!(rt; text.as_slice() == output.as_bytes());
    let text = dripped(rt, desk, bytes.as_bytes());
    assert!(rt; text.as_slice() == output.as_bytes());
}

/// Checks the output of these streams in order. Generic, because proofs over `MemStore` are slow.
fn gives_all<K: Keeper + Drop>(rt: &(impl Abort + AllocGlobal), desk: Desk<K>, all: &[Served]) {
    let mut desk = desk;
    for served in all {
        gives(rt, &mut desk, served);
    }
}

#[test]
fn streams_are_served(rt: HostRuntime) {
    for served in SERVED {
        gives_all(&rt, new_desk(&rt), slice::from_ref(served));
        gives_all(&rt, new_lists(&rt), slice::from_ref(served));
    }
}

/// The sheets of both rounds' results.
const BOTH_SHEETS: &str =
    "HTTP/1.1 200 OK\r\ncontent-type: text/csv; charset=utf-8\r\ncontent-length: 100\r\n\r\nstudent,name,project,title,lecturer\nS1,Ann,P2,Kites,L1\nS2,\"Roe, Bea\",P1,Tides,L1\nS3,Cyr,P3,Bells,L2\nHTTP/1.1 200 OK\r\ncontent-type: text/plain; charset=utf-8\r\ncontent-length: 222\r\n\r\nS1                P2                L1\nS2                P1                L1\nS3                P3                L2\n\nP1                 1 of    1\nP2                 1 of    1\nP3                 1 of    1\n\nassigned 3 of 3\n";

/// The requests that open a second round and submit lists, one of which is refused.
const LISTS_ASKED: &str =
    "POST /phase HTTP/1.1\r\nHost: h\r\nPortal-Code: office-code-0\r\nContent-Length: 30\r\n\r\n{\"phase\":\"choosing\",\"round\":2}PUT /choices HTTP/1.1\r\nHost: h\r\nPortal-Code: ann-code-1\r\nContent-Length: 15\r\n\r\n{\"projects\":[]}PUT /choices HTTP/1.1\r\nHost: h\r\nPortal-Code: cyr-code-3\r\nContent-Length: 19\r\n\r\n{\"projects\":[\"P3\"]}GET /result HTTP/1.1\r\nHost: h\r\nPortal-Code: ann-code-1\r\n\r\n";

const LISTS_REPLIES: &str =
    "HTTP/1.1 200 OK\r\ncontent-type: application/json\r\ncontent-length: 30\r\n\r\n{\"phase\":\"choosing\",\"round\":2}HTTP/1.1 409 Conflict\r\ncontent-type: application/json\r\ncontent-length: 26\r\n\r\n{\"error\":\"already_placed\"}HTTP/1.1 200 OK\r\ncontent-type: application/json\r\ncontent-length: 19\r\n\r\n{\"projects\":[\"P3\"]}HTTP/1.1 200 OK\r\ncontent-type: application/json\r\ncontent-length: 16\r\n\r\n{\"project\":\"P2\"}";

/// Its requests in ranking.
const RANKING_ASKED: &str =
    "GET /applicants HTTP/1.1\r\nHost: h\r\nPortal-Code: moe-code-02\r\n\r\nPOST /phase HTTP/1.1\r\nHost: h\r\nPortal-Code: office-code-0\r\nContent-Length: 19\r\n\r\n{\"phase\":\"ranking\"}PUT /ranking HTTP/1.1\r\nHost: h\r\nPortal-Code: moe-code-02\r\nContent-Length: 19\r\n\r\n{\"students\":[\"S1\"]}";

const RANKING_REPLIES: &str =
    "HTTP/1.1 200 OK\r\ncontent-type: application/json\r\ncontent-length: 67\r\n\r\n{\"projects\":[{\"applicants\":[{\"key\":\"S3\",\"name\":\"Cyr\"}],\"id\":\"P3\"}]}HTTP/1.1 200 OK\r\ncontent-type: application/json\r\ncontent-length: 29\r\n\r\n{\"phase\":\"ranking\",\"round\":2}HTTP/1.1 422 Unprocessable Content\r\ncontent-type: application/json\r\ncontent-length: 54\r\n\r\n{\"at\":1,\"error\":\"bad_list\",\"fault\":\"not_an_applicant\"}";

/// Its requests in published.
const RESULT_ASKED: &str =
    "POST /phase HTTP/1.1\r\nHost: h\r\nPortal-Code: office-code-0\r\nContent-Length: 21\r\n\r\n{\"phase\":\"published\"}GET /result HTTP/1.1\r\nHost: h\r\nPortal-Code: cyr-code-3\r\n\r\nHEAD /me HTTP/1.1\r\nHost: h\r\nPortal-Code: cyr-code-3\r\n\r\n";

const RESULT_REPLIES: &str =
    "HTTP/1.1 200 OK\r\ncontent-type: application/json\r\ncontent-length: 31\r\n\r\n{\"phase\":\"published\",\"round\":2}HTTP/1.1 200 OK\r\ncontent-type: application/json\r\ncontent-length: 16\r\n\r\n{\"project\":\"P3\"}HTTP/1.1 200 OK\r\ncontent-type: application/json\r\ncontent-length: 72\r\n\r\n";

/// The connections of a second round in order. Each of their streams may be sent twice.
const SECOND_SERVED: &[Served] = &[
    (IN_PUBLISHED, LISTS_ASKED, LISTS_REPLIES),
    (&[], SHEETS, SHEET_REPLIES),
    (&[SECOND_TO_RANKING], RANKING_ASKED, RANKING_REPLIES),
    (&[], SHEETS, SHEET_REPLIES),
    (&[SECOND_PUBLICATION], RESULT_ASKED, RESULT_REPLIES),
    (&[], SHEETS, BOTH_SHEETS),
];

#[test]
fn the_second_round_is_served(rt: HostRuntime) {
    gives_all(&rt, new_desk(&rt), SECOND_SERVED);
    gives_all(&rt, new_lists(&rt), SECOND_SERVED);
}

/// Checks that an empty list, padded with spaces to the longest body, is accepted.
fn takes_the_longest<K: Keeper + Drop>(rt: &(impl Abort + AllocGlobal), desk: Desk<K>) {
    let mut desk = desk;
    plays(rt, &mut desk, IN_CHOOSING);
    let mut bytes = Vec::new(rt.alloc());
    let head =
        b"PUT /choices HTTP/1.1\r\nHost: h\r\nPortal-Code: ann-code-1\r\nContent-Length: 1048576\r\n\r\n{\"projects\":[]}";
    bytes.extend_from_slice(head).expect(rt, "memory");
    bytes
        .resize(bytes.len() + 1_048_561, b' ')
        .expect(rt, "memory");
    let text = output_for(rt.alloc(), &mut desk, &bytes);
    let wanted =
        "HTTP/1.1 200 OK\r\ncontent-type: application/json\r\ncontent-length: 15\r\n\r\n{\"projects\":[]}";
    assert_eq!(rt; text.as_slice(), wanted.as_bytes());
}

#[test]
fn the_longest_body_is_taken(rt: HostRuntime) {
    takes_the_longest(&rt, new_desk(&rt));
    takes_the_longest(&rt, new_lists(&rt));
}
