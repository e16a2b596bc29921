//! Tests a stream of requests that plays the second round, on devices that end or fail.

use crate::tests::conversation::{Asked, Stream};
use crate::tests::devices::is_text;
use crate::tests::portal::{after, plays, published, written};
use crate::tests::trials::{ended_at, reader_fails_at, served_cut, writer_fails_at};
use portal_core::Keeper;
use portal_desk::{Desk, Ending};
use portal_fixtures::worked::{FIRST_ROUND, RANKED_AGAIN};
use std::process::Abort;

/// The office opens the second round.
const OPENS: Asked = (
    "POST /phase HTTP/1.1\r\nHost: h\r\nportal-code: office-code-0\r\nContent-Length: 30\r\n\r\n",
    "{\"phase\":\"choosing\",\"round\":2}",
    "HTTP/1.1 200 OK\r\ncontent-type: application/json\r\ncontent-length: 30\r\n\r\n{\"phase\":\"choosing\",\"round\":2}",
);

/// A student with a project submits a list, and is refused.
const HAS_ONE: Asked = (
    "PUT /choices HTTP/1.1\r\nHost: h\r\nportal-code: ann-code-1\r\nContent-Length: 15\r\n\r\n",
    "{\"projects\":[]}",
    "HTTP/1.1 409 Conflict\r\ncontent-type: application/json\r\ncontent-length: 26\r\n\r\n{\"error\":\"already_placed\"}",
);

/// A student without a project submits a list.
const CHOOSES: Asked = (
    "PUT /choices HTTP/1.1\r\nHost: h\r\nportal-code: cyr-code-3\r\nContent-Length: 19\r\n\r\n",
    "{\"projects\":[\"P3\"]}",
    "HTTP/1.1 200 OK\r\ncontent-type: application/json\r\ncontent-length: 19\r\n\r\n{\"projects\":[\"P3\"]}",
);

/// The office closes the lists.
const CLOSES: Asked = (
    "POST /phase HTTP/1.1\r\nHost: h\r\nportal-code: office-code-0\r\nContent-Length: 19\r\n\r\n",
    "{\"phase\":\"ranking\"}",
    "HTTP/1.1 200 OK\r\ncontent-type: application/json\r\ncontent-length: 29\r\n\r\n{\"phase\":\"ranking\",\"round\":2}",
);

/// The office publishes too early: a lecturer is still to rank.
const WAITS: Asked = (
    "POST /phase HTTP/1.1\r\nHost: h\r\nportal-code: office-code-0\r\nContent-Length: 21\r\n\r\n",
    "{\"phase\":\"published\"}",
    "HTTP/1.1 409 Conflict\r\ncontent-type: application/json\r\ncontent-length: 44\r\n\r\n{\"error\":\"still_to_rank\",\"lecturers\":[\"L2\"]}",
);

/// The office fills the missing ranking.
const FILLS: Asked = (
    "POST /ranking/fill HTTP/1.1\r\nHost: h\r\nportal-code: office-code-0\r\nContent-Length: 2\r\n\r\n",
    "{}",
    "HTTP/1.1 200 OK\r\ncontent-type: application/json\r\ncontent-length: 17\r\n\r\n{\"filled\":[\"L2\"]}",
);

/// The office publishes.
const PUBLISHES: Asked = (
    "POST /phase HTTP/1.1\r\nHost: h\r\nportal-code: office-code-0\r\nContent-Length: 21\r\n\r\n",
    "{\"phase\":\"published\"}",
    "HTTP/1.1 200 OK\r\ncontent-type: application/json\r\ncontent-length: 31\r\n\r\n{\"phase\":\"published\",\"round\":2}",
);

/// The student who submitted a list is shown a project.
const SHOWS: Asked = (
    "GET /result HTTP/1.1\r\nHost: h\r\nportal-code: cyr-code-3\r\n\r\n",
    "",
    "HTTP/1.1 200 OK\r\ncontent-type: application/json\r\ncontent-length: 16\r\n\r\n{\"project\":\"P3\"}",
);

/// The whole round.
const ROUND: Stream = Stream {
    asked: &[
        OPENS, HAS_ONE, CHOOSES, CLOSES, WAITS, FILLS, PUBLISHES, SHOWS,
    ],
    head: "",
    body: "",
    word: "",
    closing: "",
    waits: true,
};

/// Its opening and its lists.
const LISTS: Stream = Stream {
    asked: &[OPENS, HAS_ONE, CHOOSES],
    head: "",
    body: "",
    word: "",
    closing: "",
    waits: true,
};

/// Its publication and its result.
const RESULT: Stream = Stream {
    asked: &[PUBLISHES, SHOWS],
    head: "",
    body: "",
    word: "",
    closing: "",
    waits: true,
};

/// Sends the requests that have not acted on another connection. Checks their replies and the
/// result of the round.
fn goes_on<K: Keeper>(rt: &(impl Abort + AllocGlobal), desk: &mut Desk<K>, acted: usize) {
    let bytes = ROUND.behind(rt, acted);
    let left = ROUND.requests().saturating_sub(acted);
    let output = written(rt, desk, bytes.as_slice(), Ending::End, left);
    let wanted = ROUND.replies_behind(rt, acted);
    is_text(rt, output.as_slice(), wanted.as_slice());
    plays(rt, desk, r#"cyr  GET /result  200 {"project":"P3"}"#);
}

#[test]
fn is_played(rt: HostRuntime) {
    let mut desk = published(&rt);
    goes_on(&rt, &mut desk, 0);
}

#[test]
fn ends_at_each_place(rt: HostRuntime) {
    let length = ROUND.bytes(&rt).len();
    for many in 0..=length {
        ends_at(&rt, many);
    }
}

fn ends_at(rt: &(impl Abort + AllocGlobal), many: usize) {
    let mut desk = published(rt);
    ended_at(rt, &mut desk, &ROUND, many);
    let (whole, _) = ROUND.whole_in(many);
    goes_on(rt, &mut desk, whole);
}

/// Lets readers fail after each number of bytes. They return up to `step` bytes a call.
fn readers_fail(rt: &(impl Abort + AllocGlobal), step: usize) {
    let length = ROUND.bytes(rt).len();
    for many in 0..=length {
        reader_fails(rt, step, many);
    }
}

fn reader_fails(rt: &(impl Abort + AllocGlobal), step: usize, many: usize) {
    let mut desk = published(rt);
    reader_fails_at(rt, &mut desk, &ROUND, step, many);
    let (whole, _) = ROUND.whole_in(many);
    goes_on(rt, &mut desk, whole);
}

#[test]
fn readers_fail_at_each_byte(rt: HostRuntime) {
    readers_fail(&rt, 1);
}

#[test]
fn readers_fail_at_each_piece(rt: HostRuntime) {
    readers_fail(&rt, 4_096);
}

/// Lets writers fail after each number of bytes. They accept up to `step` bytes a call.
fn writers_fail(rt: &(impl Abort + AllocGlobal), step: usize) {
    let length = ROUND.output(rt).len();
    for many in 0..length {
        writer_fails(rt, step, many);
    }
}

fn writer_fails(rt: &(impl Abort + AllocGlobal), step: usize, many: usize) {
    let mut desk = published(rt);
    writer_fails_at(rt, &mut desk, &ROUND, step, many);
    goes_on(rt, &mut desk, ROUND.acted_at(many));
}

#[test]
fn writers_fail_at_each_byte(rt: HostRuntime) {
    writers_fail(&rt, 1);
}

#[test]
fn writers_fail_at_each_part(rt: HostRuntime) {
    writers_fail(&rt, usize::MAX);
}

/// The stream is served when it is cut at any place, and again 1, 50 or 150 bytes later.
#[test]
fn is_cut_in_two_places(rt: HostRuntime) {
    let length = ROUND.bytes(&rt).len();
    for first in 1..length {
        for second in [1usize, 50, 150] {
            cut_twice(&rt, first, second);
        }
    }
}

fn cut_twice(rt: &(impl Abort + AllocGlobal), first: usize, second: usize) {
    let mut desk = published(rt);
    served_cut(rt, &mut desk, &ROUND, first, second);
}

/// Checks the stream with a cut at `first` and one at each later place. All runs use one desk: only
/// the first changes it, since repeated requests change nothing.
fn cut_at(rt: &(impl Abort + AllocGlobal), scripts: &[&str], stream: &Stream, first: usize) {
    let mut desk = after(rt, scripts);
    let behind = stream.bytes(rt).len().saturating_sub(first);
    for second in 1..=behind {
        served_cut(rt, &mut desk, stream, first, second);
    }
}

#[test]
fn the_lists_are_cut_at_each_two_places(rt: HostRuntime) {
    for first in 1..LISTS.bytes(&rt).len() {
        cut_at(&rt, FIRST_ROUND, &LISTS, first);
    }
}

#[test]
fn the_result_is_cut_at_each_two_places(rt: HostRuntime) {
    for first in 1..RESULT.bytes(&rt).len() {
        cut_at(&rt, RANKED_AGAIN, &RESULT, first);
    }
}
