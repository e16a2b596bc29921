//! Tests that a request acts, and its reply is written, before the next byte is read.

ghost use Rattle.std.specs.Prelude.{None};

use crate::tests::devices::{ended, is_outcome};
use crate::tests::portal::fresh_keeper;
use portal_core::{Change, KeepFault, Keeper, View};
use portal_desk::{Desk, Ending, Failed, Sink, Source};
use portal_list::ListKeeper;
use spa_model::Instance;
use std::alloc::Global;
use std::cell::Cell;
use std::process::Abort;

/// Counts of what was done so far.
#[derive(Drop)]
struct Done {
    /// How many views the keeper was asked for.
    views: Cell<usize>,
    /// How many bytes were written.
    bytes: Cell<usize>,
}

/// A keeper in lists that counts the views it is asked for.
#[derive(Drop)]
struct Noting<'a> {
    kept: ListKeeper,
    done: &'a Done,
}

impl<'a> Keeper for Noting<'a> {
    ghost state = { λ noting. record {
      world = noting.kept;
      clean = Unit {0};
      disk = Unit {0};
      broken = ⊥;
      leaves = λ _. ⊥;
      faults = 0;
    } };

    fn view(&mut self, alloc: Global, code: &[u8]) -> Result<View, KeepFault> {
        self.done.views.set(self.done.views.get().saturating_add(1));
        self.kept.view(alloc, code)
    }

    fn instance(&mut self, alloc: Global) -> Result<Instance, KeepFault> {
        self.kept.instance(alloc)
    }

    fn apply(&mut self, alloc: Global, change: &Change) -> Result<(), KeepFault> {
        self.kept.apply(alloc, change)
    }
}

/// A reader that returns one request a call. It checks that all earlier ones were answered.
#[derive(Drop)]
struct Watching<'a> {
    left: usize,
    given: usize,
    done: &'a Done,
    in_turn: bool,
}

const REQUEST: &[u8] = b"GET /me HTTP/1.1\r\nHost: h\r\n\r\n";

/// The length of the reply to it in bytes: 403 `no_caller`.
const REPLY: usize = 99;

impl<'a> Source for Watching<'a> {
    ghost remaining = { λ watching. None };

    ghost failed = { λ watching. 0 };

    fn read(&mut self, buf: &mut [u8]) -> Result<usize, Failed> {
        if self.done.views.get() != self.given || self.done.bytes.get() / REPLY != self.given {
            self.in_turn = false;
        }
        if self.left == 0 || buf.len() < REQUEST.len() {
            return Ok(0);
        }
        self.left -= 1;
        self.given = self.given.saturating_add(1);
        buf[..REQUEST.len()].copy_from_slice(REQUEST);
        Ok(REQUEST.len())
    }

    fn failures(&self) -> u64 {
        0
    }
}

/// A writer that accepts all bytes, and counts them.
#[derive(Drop)]
struct Tallying<'a> {
    done: &'a Done,
}

impl<'a> Sink for Tallying<'a> {
    ghost contents = { λ tallying. None };

    ghost failed = { λ tallying. 0 };

    fn write(&mut self, buf: &[u8]) -> Result<usize, Failed> {
        self.done
            .bytes
            .set(self.done.bytes.get().saturating_add(buf.len()));
        Ok(buf.len())
    }

    fn failures(&self) -> u64 {
        0
    }
}

#[test]
fn a_request_is_answered_before_more_is_read(rt: HostRuntime) {
    let done = Done {
        views: Cell::new(0),
        bytes: Cell::new(0),
    };
    let mut desk = Desk::new(Noting {
        kept: fresh_keeper(&rt),
        done: &done,
    });
    is_in_turn(&rt, &mut desk, &done);
}

/// Checks that a desk answers each of five requests before more is read.
fn is_in_turn(rt: &(impl Abort + AllocGlobal), desk: &mut Desk<Noting<'_>>, done: &Done) {
    let mut source = Watching {
        left: 5,
        given: 0,
        done,
        in_turn: true,
    };
    let mut sink = Tallying { done };
    let outcome = desk.serve(rt.alloc(), &mut source, &mut sink);
    is_outcome(rt, outcome, ended(Ending::End, 5), 0);
    has_answered(rt, &source);
}

/// Checks that five requests were answered in turn.
fn has_answered(rt: &impl Abort, source: &Watching) {
    assert!(rt; source.in_turn);
    assert_eq!(rt; source.done.bytes.get(), 5 * REPLY);
}
