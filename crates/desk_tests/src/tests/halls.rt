//! Tests how many connections are accepted, and the outcome of each.

ghost use Rattle.std.specs.Prelude.{◌≡◌, ◌<◌, ◌∷◌, ◌++◌, [], None, vec_len, vec_capacity};

use crate::tests::callers::Act::{Ends, Sends};
use crate::tests::callers::{Act, Caller, ME, PROMPT, TestClock, serve};
use crate::tests::failing::Failing;
use crate::tests::portal::fresh_keeper;
use crate::tests::times::{end, fault};
use portal_core::Keeper;
use portal_desk::{Cause, Desk};
use portal_serve::{Connections, Ended, Hall, Outcome, serve_each};
use std::alloc::Global;
use std::process::Abort;

/// Callers who are served one after another, and the outcomes of their connections.
#[derive(Drop)]
struct Queue<'a> {
    alloc: Global,
    clock: &'a TestClock,
    callers: &'a [&'a [(u64, Act)]],
    /// How many callers were served.
    served: usize,
    outcomes: Vec<Outcome>,
}

/// Appends an outcome to a vector with reserved memory.
fn note(outcomes: &mut Vec<Outcome>, outcome: Outcome)
    requires { vec_len outcomes.old < vec_capacity outcomes.old }
    ensures { outcomes.new.items ≡ outcomes.old.items ++ outcome ∷ [] }
{
    if outcomes.push(outcome).is_err() {
        unreachable!();
    }
}

impl<'a> Connections for Queue<'a> {
    ghost series = { λ _. None };

    fn serve_next<K: Keeper>(&mut self, desk: &mut Desk<K>) -> Option<Outcome> {
        let Some(acts) = self.callers.get(self.served) else {
            return None;
        };
        if self.outcomes.reserve(1).is_err() {
            return None;
        }
        self.served = self.served.saturating_add(1);
        let caller = Caller::new(self.clock, acts, PROMPT);
        let outcome = serve(self.alloc, &caller, desk);
        note(&mut self.outcomes, outcome);
        Some(outcome)
    }
}

/// A caller who asks once.
const ASKS: &[(u64, Act)] = &[(0, Sends(ME)), (0, Ends)];

/// A caller who asks once, and then falls silent in the middle of a request.
const BREAKS: &[(u64, Act)] = &[(0, Sends(ME)), (0, Sends("GET"))];

/// Returns the outcome of a connection that is served to its end, on a desk that has not failed.
fn served(requests: u32) -> Outcome {
    Outcome {
        ended: end(requests),
        failed: false,
    }
}

/// Returns the outcome of a connection that ends with a fault after this many requests.
fn broken(cause: Cause, requests: u32, failed: bool) -> Outcome {
    Outcome {
        ended: fault(cause, requests),
        failed,
    }
}

/// Returns the counts of a hall that ended like this.
fn counts(accepted: u32, faults: u32, ended: Ended) -> Hall {
    Hall {
        accepted,
        faults,
        ended,
    }
}

/// Checks how many callers were served, and the outcome of each.
fn has_served(rt: &impl Abort, queue: &Queue, outcomes: &[Outcome]) {
    assert_eq!(rt; queue.outcomes.as_slice(), outcomes);
    assert_eq!(rt; queue.served, outcomes.len());
}

/// Checks the counts of a hall.
fn has_counted(rt: &impl Abort, found: Hall, wanted: Hall) {
    assert_eq!(rt; found, wanted);
}

/// Serves at most `most` of these callers, and checks the counts and the outcomes.
fn come<K: Keeper>(
    rt: &(impl Abort + AllocGlobal),
    desk: &mut Desk<K>,
    callers: &[&[(u64, Act)]],
    most: u32,
    hall: Hall,
    outcomes: &[Outcome],
) {
    let clock = TestClock::new();
    let mut queue = Queue {
        alloc: rt.alloc(),
        clock: &clock,
        callers,
        served: 0,
        outcomes: Vec::new(rt.alloc()),
    };
    has_counted(rt, serve_each(&mut queue, most, desk), hall);
    has_served(rt, &queue, outcomes);
}

/// Makes a desk over a keeper that fails after `left` views.
fn desk_failing_after(rt: &(impl Abort + AllocGlobal), left: u32) -> Desk<Failing> {
    Desk::new(Failing::new(fresh_keeper(rt), left))
}

#[test]
fn as_many_as_are_asked_for(rt: HostRuntime) {
    let mut desk = Desk::new(fresh_keeper(&rt));
    let callers = [ASKS, BREAKS, ASKS, BREAKS, BREAKS, ASKS];
    let hall = counts(5, 3, Ended::Full);
    let fault = broken(Cause::Read, 1, false);
    let outcomes = [served(1), fault, served(1), fault, fault];
    come(&rt, &mut desk, &callers, 5, hall, &outcomes);
    come(&rt, &mut desk, &callers, 0, counts(0, 0, Ended::Full), &[]);
}

#[test]
fn as_many_as_come(rt: HostRuntime) {
    let mut desk = Desk::new(fresh_keeper(&rt));
    let hall = counts(2, 1, Ended::ListenFault);
    let outcomes = [broken(Cause::Read, 1, false), served(1)];
    come(&rt, &mut desk, &[BREAKS, ASKS], 9, hall, &outcomes);
}

#[test]
fn nobody_after_a_fault_of_the_store(rt: HostRuntime) {
    let mut desk = desk_failing_after(&rt, 2);
    let hall = counts(3, 1, Ended::StoreFault);
    let outcomes = [
        broken(Cause::Read, 1, false),
        served(1),
        broken(Cause::Store, 1, true),
    ];
    let callers = [BREAKS, ASKS, ASKS, ASKS, BREAKS];
    come(&rt, &mut desk, &callers, 9, hall, &outcomes);
}

#[test]
fn one_on_a_desk_that_had_failed(rt: HostRuntime) {
    let mut desk = desk_failing_after(&rt, 0);
    let hall = counts(1, 0, Ended::StoreFault);
    let outcomes = [broken(Cause::Store, 1, true)];
    come(&rt, &mut desk, &[ASKS, ASKS], 9, hall, &outcomes);
    come(&rt, &mut desk, &[ASKS, ASKS], 9, hall, &outcomes);
    come(&rt, &mut desk, &[ASKS], 0, counts(0, 0, Ended::Full), &[]);
}
