//! The server loop: serves one connection after another, and counts faults other than store faults.

ghost use Rattle.std.specs.Prelude.{◌≡◌, ◌+◌, ◌-◌, ◌^◌, ◌<◌, if◌then◌else◌, List, Option, None};
ghost use Rattle.std.specs.Option.{option_to_list};
ghost use Rattle.portal_wire.specs.Conversation.{Exchange};
ghost use Rattle.portal_serve.specs.Hall.{is_own_fault, IsMovedBy, ServesHall, CountsOutcomes};
ghost use Rattle.portal_serve.specs.Streams.{Series, ServesInTurn};
ghost use Rattle.portal_serve.specs.declared.server.Outcome.{Outcome};

use portal_core::Keeper;
use portal_desk::{Cause, Desk, ServeFault, Served};

/// Why no more connections are accepted.
#[derive(Clone, Copy, Debug, Drop, PartialEq, Eq)]
pub enum Ended {
    /// The requested number of connections was served.
    Full,
    /// The desk has failed.
    StoreFault,
    /// No connection could be accepted.
    ListenFault,
}

/// The numbers of connections and faults, and why serving ended.
#[derive(Clone, Copy, Debug, Drop, PartialEq, Eq)]
pub struct Hall {
    /// How many connections were accepted.
    pub accepted: u32,
    /// How many of them ended with a fault of the connection or a memory shortage.
    pub faults: u32,
    pub ended: Ended,
}

/// The outcome of a connection.
#[derive(Clone, Copy, Debug, Drop, PartialEq, Eq)]
pub struct Outcome {
    /// How the connection ended.
    pub ended: Result<Served, ServeFault>,
    /// Whether the desk had failed by then.
    pub failed: bool,
}

/// A series of connections, each of which is served on a desk.
pub trait Connections {
    /// The connections so far, and the streams of those to come, if they are known.
    ghost series: { Self → Option Series } = { λ _. None };

    /// No further connection can be accepted.
    ghost over: { Self → Type 0 } = { λ _. Unit {0} };

    /// Serves the next connection and returns its outcome, or `None` if none can be accepted.
    fn serve_next<K: Keeper>(&mut self, desk: &mut Desk<K>) -> Option<Outcome>
        ensures serves { ServesInTurn K.state desk.old desk.new (series self.old) (series self.new)
            (option_to_list result) }
        ensures over { result ≡ None → over self.new };
}

/// Serves requests on a desk, as a listener does.
pub trait Service {
    /// What the service knows of the requests that it served and of their replies.
    ghost told: { Self → Self → List Exchange → Type 0 } = { λ _ _ _. Unit {0} };

    /// Serves the requests, and keeps how that ended.
    fn serve<K: Keeper>(&mut self, desk: &mut Desk<K>)
        ensures moves { IsMovedBy (told self.old self.new)
            (K.state desk.old.keeper) (K.state desk.new.keeper) };
}

/// Returns whether a connection ended with a fault of its own, not of the store. Its own faults are
/// those of the reader, of the writer or of memory.
pub(crate) fn has_own_fault(ended: &Result<Served, ServeFault>) -> bool
    ensures { result ≡ is_own_fault ended.now }
{
    match ended {
        Ok(_) => false,
        Err(fault) => match fault.cause {
            Cause::Read | Cause::Write | Cause::Memory => true,
            Cause::Store => false,
        },
    }
}

/// Adds 1 to the number of faults if the connection ended with a fault of its own.
fn faults_with(faults: u32, ended: &Result<Served, ServeFault>) -> u32
    requires { faults < 2 ^ 32 - 1 }
    ensures { result ≡ faults + (if is_own_fault ended.now then 1 else 0) }
{
    if has_own_fault(ended) {
        faults + 1
    } else {
        faults
    }
}

/// Serves up to `most` connections one after another, all of them if the result is `Full`. Counts
/// their outcomes, and those with faults of their own. Stops early if the desk fails or none can be
/// accepted. If the series is known, each of the accepted ones was served, in order.
pub fn serve_each<C: Connections, K: Keeper>(
    connections: &mut C,
    most: u32,
    desk: &mut Desk<K>,
) -> Hall
    ensures told { (outcomes : List Outcome) × ServesInTurn K.state desk.old desk.new
        (C.series connections.old) (C.series connections.new) outcomes
        × CountsOutcomes result outcomes }
    ensures serves { ServesHall K.state result most desk.old desk.new }
    ensures listen { result.ended ≡ Ended.ListenFault → C.over connections.new }
{
    let mut faults = 0u32;
    for accepted in 0..most {
        let Some(outcome) = connections.serve_next(desk) else {
            return hall_of(accepted, faults, Ended::ListenFault);
        };
        faults = faults_with(faults, &outcome.ended);
        if outcome.failed {
            return hall_of(accepted + 1, faults, Ended::StoreFault);
        }
    }
    hall_of(most, faults, Ended::Full)
}

/// Makes the server loop's result: the numbers of connections and faults, and why serving ended.
fn hall_of(accepted: u32, faults: u32, ended: Ended) -> Hall
    ensures accepted { result.accepted ≡ accepted }
    ensures faults { result.faults ≡ faults }
    ensures ended { result.ended ≡ ended }
{
    Hall {
        accepted,
        faults,
        ended,
    }
}
