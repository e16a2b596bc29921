//! Tests connections in memory: what is written for each, the counts, and what is dropped.

ghost use Rattle.std.specs.Prelude.{◌≡◌, ◌<◌, ◌∷◌, ◌++◌, [], None, Some, vec_len, vec_capacity};

use crate::tests::callers::TestClock;
use crate::tests::devices::{ended, is_outcome, is_text};
use crate::tests::portal::{NO_CALLER, filled, fresh, has_length, reply, request};
use portal_core::Keeper;
use portal_desk::{Desk, Ending};
use portal_serve::{
    Connections, Ended, Hall, Outcome, TimedRead, TimedWrite, serve_each, serve_one,
};
use std::alloc::Global;
use std::io;
use std::io::{Read, Write};
use std::process::Abort;
use std::time::Duration;

/// What a caller sends, in memory.
#[derive(Drop)]
struct Sent<'b> {
    rest: &'b [u8],
}

impl<'b> TimedRead for Sent<'b> {
    ghost remaining = { λ sent. Some sent.rest.now };

    fn read_within(&mut self, buf: &mut [u8], timeout: Duration) -> io::Result<usize> {
        let _timeout = timeout;
        self.rest.read(buf)
    }
}

/// What a caller gets, in memory.
#[derive(Drop)]
struct Got {
    text: Vec<u8>,
}

impl TimedWrite for Got {
    ghost contents = { λ got. Some got.text.items };

    fn write_within(&mut self, buf: &[u8], timeout: Duration) -> io::Result<usize> {
        let _timeout = timeout;
        self.text.write(buf)
    }

    fn end_writing(&mut self) -> io::Result<()> {
        Ok(())
    }
}

/// A connection that was served.
#[derive(Drop)]
struct Parted<'b> {
    sent: &'b [u8],
    reader: Sent<'b>,
    writer: Got,
    outcome: Outcome,
}

/// Callers who are served one after another: what each sends, and what was served so far.
#[derive(Drop)]
struct Callers<'b> {
    alloc: Global,
    clock: &'b TestClock,
    waiting: &'b [&'b [u8]],
    served: Vec<Parted<'b>>,
}

impl<'b> Connections for Callers<'b> {
    ghost series = { λ _. None };

    fn serve_next<K: Keeper>(&mut self, desk: &mut Desk<K>) -> Option<Outcome> {
        let [first, waiting @ ..] = self.waiting else {
            return None;
        };
        if self.served.reserve(1).is_err() {
            return None;
        }
        let sent = *first;
        let mut reader = Sent { rest: sent };
        let mut writer = Got {
            text: Vec::new(self.alloc),
        };
        let rt = (self.clock, self.alloc);
        let outcome = serve_one(&rt, &mut reader, &mut writer, desk);
        self.waiting = waiting;
        note(
            &mut self.served,
            Parted {
                sent,
                reader,
                writer,
                outcome,
            },
        );
        Some(outcome)
    }
}

/// Appends a connection to a vector with reserved memory.
fn note<'b>(served: &mut Vec<Parted<'b>>, parted: Parted<'b>)
    requires { vec_len served.old < vec_capacity served.old }
    ensures { served.new.items ≡ served.old.items ++ parted.entry ∷ [] }
{
    if served.push(parted).is_err() {
        unreachable!();
    }
}

/// Checks the counts of a hall.
fn has_served(rt: &impl Abort, found: Hall, accepted: u32) {
    let wanted = Hall {
        accepted,
        faults: 0,
        ended: Ended::Full,
    };
    assert_eq!(rt; found, wanted);
}

/// Serves the callers who send these, all of them, on a desk over the empty world.
fn come<'b>(
    rt: &(impl Abort + AllocGlobal),
    clock: &'b TestClock,
    waiting: &'b [&'b [u8]],
    many: u32,
) -> Vec<Parted<'b>> {
    let mut desk = fresh(rt);
    let mut callers = Callers {
        alloc: rt.alloc(),
        clock,
        waiting,
        served: Vec::new(rt.alloc()),
    };
    has_served(rt, serve_each(&mut callers, many, &mut desk), many);
    let Callers { served, .. } = callers;
    served
}

/// Checks how a connection ended after one request, what was written, and what was not read.
fn is_served(rt: &impl Abort, found: &Parted, ending: Ending, text: &str, left: usize) {
    is_outcome(rt, found.outcome.ended, ended(ending, 1), found.sent.len());
    is_text(rt, found.writer.text.as_slice(), text.as_bytes());
    has_length(rt, found.reader.rest, left);
}

/// Checks four connections, in order; only the last one closes by its request.
fn are_served(rt: &impl Abort, found: &[Parted], texts: &[&str; 4], left: usize) {
    assert_eq!(rt; found.len(), 4);
    is_served(rt, &found[0], Ending::End, texts[0], 0);
    is_served(rt, &found[1], Ending::End, texts[1], 0);
    is_served(rt, &found[2], Ending::End, texts[2], 0);
    is_served(rt, &found[3], Ending::Closed, texts[3], left);
}

/// A request of an unknown caller that asks to close the connection, in 48 bytes.
const LAST: &str = "GET /me HTTP/1.1\r\nHost: h\r\nConnection: close\r\n\r\n";

/// The reply to it.
const PARTING: &str =
    "HTTP/1.1 403 Forbidden\r\ncontent-type: application/json\r\ncontent-length: 21\r\nconnection: close\r\n\r\n{\"error\":\"no_caller\"}";

/// The second caller adds a lecturer, who is unknown to the first and known to the third. The
/// fourth sends 1,100,000 bytes, of which the desk reads 4,096; then 1,064,960 are dropped.
#[test]
fn each_caller_gets_the_own_replies(rt: HostRuntime) {
    let me =
        r#"lee  GET /me  200 {"capacity":2,"key":"L1","name":"Lee","phase":"setup","role":"lecturer"}"#;
    let roll =
        r#"office  POST /rolls/lecturers id,name,code,capacity\nL1,Lee,lee-code-01,2\n  200 {"added":1,"same":0}"#;
    let (asks, enrols) = (request(&rt, me), request(&rt, roll));
    let (known, added) = (reply(&rt, me), reply(&rt, roll));
    let goes_on = filled(&rt, LAST, "x", 1_099_952, "");
    let waiting = [
        asks.as_bytes(),
        enrols.as_bytes(),
        asks.as_bytes(),
        goes_on.as_bytes(),
    ];
    let texts = [NO_CALLER, added.as_str(), known.as_str(), PARTING];
    let clock = TestClock::new();
    let served = come(&rt, &clock, &waiting, 4);
    are_served(&rt, served.as_slice(), &texts, 30_944);
}
