//! Simulates readers and writers that work in small pieces, or end or fail after some bytes.

ghost use Rattle.std.specs.Prelude.{Some};

use portal_core::Keeper;
use portal_desk::{Cause, Counted, Desk, Ending, Failed, ServeFault, Served, Sink, Source};
use std::alloc::Global;
use std::io::{Read, Write};
use std::process::Abort;

/// A reader that returns bytes in pieces, and then ends or fails.
#[derive(Drop)]
pub(crate) struct Feeder<'b> {
    rest: &'b [u8],
    step: usize,
    later: usize,
    last: usize,
    fails: bool,
    failures: u64,
}

impl<'b> Feeder<'b> {
    /// Makes a reader that returns up to `step` bytes a call.
    pub(crate) fn new(bytes: &'b [u8], step: usize) -> Feeder<'b> {
        Feeder::of(bytes, step, step, step, false)
    }

    /// Makes a reader that returns up to `first` bytes, then `second`, and then 4,096 a call.
    pub(crate) fn cut(bytes: &'b [u8], first: usize, second: usize) -> Feeder<'b> {
        Feeder::of(bytes, first, second, 4_096, false)
    }

    /// Makes a reader that returns up to `step` bytes a call, and fails after the last byte.
    pub(crate) fn failing(bytes: &'b [u8], step: usize) -> Feeder<'b> {
        Feeder::of(bytes, step, step, step, true)
    }

    /// Makes a reader of pieces of these lengths, the last of which repeats.
    fn of(rest: &'b [u8], step: usize, later: usize, last: usize, fails: bool) -> Feeder<'b> {
        Feeder {
            rest,
            step,
            later,
            last,
            fails,
            failures: 0,
        }
    }
}

impl<'b> Source for Feeder<'b> {
    ghost remaining = { λ feeder. Some feeder.rest.now };

    ghost failed = { λ feeder. feeder.failures };

    fn read(&mut self, buf: &mut [u8]) -> Result<usize, Failed> {
        if self.fails && self.rest.is_empty() {
            self.failures = self.failures.saturating_add(1);
            return Err(Failed);
        }
        let room = buf.len().min(self.step.max(1));
        self.step = self.later;
        self.later = self.last;
        match self.rest.read(&mut buf[..room]) {
            Ok(n) => Ok(n),
            Err(_) => {
                self.failures = self.failures.saturating_add(1);
                Err(Failed)
            }
        }
    }

    fn failures(&self) -> u64 {
        self.failures
    }
}

/// A writer that accepts bytes in pieces up to a total, and then fails.
#[derive(Drop)]
pub(crate) struct Basin {
    held: Vec<u8>,
    step: usize,
    room: usize,
    failures: u64,
}

impl Basin {
    /// Makes a writer that accepts up to `step` bytes a call, and `room` bytes in all.
    pub(crate) fn new(alloc: Global, step: usize, room: usize) -> Basin {
        Basin {
            held: Vec::new(alloc),
            step,
            room,
            failures: 0,
        }
    }

    fn into_held(self) -> Vec<u8> {
        let Basin { held, .. } = self;
        held
    }
}

impl Sink for Basin {
    ghost contents = { λ basin. Some basin.held.items };

    ghost failed = { λ basin. basin.failures };

    fn write(&mut self, buf: &[u8]) -> Result<usize, Failed> {
        let n = buf.len().min(self.step.max(1)).min(self.room);
        if n == 0 && !buf.is_empty() {
            self.failures = self.failures.saturating_add(1);
            return Err(Failed);
        }
        match self.held.write(&buf[..n]) {
            Ok(taken) => {
                self.room -= taken;
                Ok(taken)
            }
            Err(_) => {
                self.failures = self.failures.saturating_add(1);
                Err(Failed)
            }
        }
    }

    fn failures(&self) -> u64 {
        self.failures
    }
}

/// What `serve` returns.
pub(crate) type Outcome = Result<Served, ServeFault>;

pub(crate) fn ended(ending: Ending, requests: usize) -> Outcome {
    let requests = requests.min(1_000) as u32;
    Ok(Served { requests, ending })
}

pub(crate) fn stopped(cause: Cause, requests: usize) -> Outcome {
    let requests = requests.min(1_000) as u32;
    Err(ServeFault { cause, requests })
}

/// Checks an outcome. `at` is told if the check fails.
pub(crate) fn is_outcome(rt: &impl Abort, found: Outcome, wanted: Outcome, at: usize) {
    assert_eq!(rt; found, wanted, "at {at}");
}

/// Checks bytes.
pub(crate) fn is_text(rt: &impl Abort, found: &[u8], wanted: &[u8]) {
    assert_eq!(rt; found, wanted);
}

/// Checks that bytes are the first `many` of the wanted ones.
pub(crate) fn is_first(rt: &impl Abort, found: &[u8], wanted: &[u8], many: usize) {
    is_text(rt, found, &wanted[..many.min(wanted.len())]);
    assert_eq!(rt; found.len(), many);
}

/// Checks how many times a device failed.
fn has_failed(rt: &impl Abort, failures: u64, wanted: u64) {
    assert_eq!(rt; failures, wanted);
}

/// Serves a source, checks the outcome, and returns the output. `at` is told if the check fails.
pub(crate) fn served_by<K: Keeper, R: Source>(
    rt: &(impl Abort + AllocGlobal),
    desk: &mut Desk<K>,
    source: &mut R,
    wanted: Outcome,
    at: usize,
) -> Vec<u8> {
    let mut sink = Counted::new(Vec::new(rt.alloc()));
    let outcome = desk.serve(rt.alloc(), source, &mut sink);
    is_outcome(rt, outcome, wanted, at);
    sink.into_inner()
}

/// Serves a reader that returns up to `step` of these bytes a call, and then fails. Checks the
/// outcome and whether the failure was met, and returns the output.
pub(crate) fn served_failing<K: Keeper>(
    rt: &(impl Abort + AllocGlobal),
    desk: &mut Desk<K>,
    bytes: &[u8],
    step: usize,
    wanted: Outcome,
) -> Vec<u8> {
    let mut source = Feeder::failing(bytes, step);
    let output = served_by(rt, desk, &mut source, wanted, bytes.len());
    has_failed(rt, Source::failures(&source), wanted.is_err() as u64);
    output
}

/// Serves to a writer that accepts up to `step` bytes a call, and fails after `many` bytes. Checks
/// that it fails once, after this many requests, and returns the bytes that it accepted.
pub(crate) fn taken<K: Keeper>(
    rt: &(impl Abort + AllocGlobal),
    desk: &mut Desk<K>,
    bytes: &[u8],
    step: usize,
    many: usize,
    requests: usize,
) -> Vec<u8> {
    let mut source = Feeder::new(bytes, 4_096);
    let mut sink = Basin::new(rt.alloc(), step, many);
    let outcome = desk.serve(rt.alloc(), &mut source, &mut sink);
    is_outcome(rt, outcome, stopped(Cause::Write, requests), many);
    has_failed(rt, Sink::failures(&sink), 1);
    sink.into_held()
}
