//! The desk: acts on requests, over any keeper.

ghost use Rattle.std.specs.Prelude.{◌≡◌, ◌≢◌, ◌||◌, true, false, MatchResult};
ghost use Rattle.portal_frame.specs.Stream.{request_content};
ghost use Rattle.portal_rules.specs.Meaning.{reply_model, body_model};
ghost use Rattle.portal_rules.specs.Keeping.{KeepsGood};
ghost use Rattle.portal_rules.specs.Run.{unavailable};
ghost use Rattle.portal_rules.specs.Answer.{HasWholeNumbers};
ghost use Rattle.portal_wire.specs.Conversation.{request_of};
ghost use Rattle.portal_desk.specs.Kept.{Acted, FailsByCount};
ghost use Rattle.portal_desk.specs.inner.Turns.{has_store_failed, TurnsAway};

use crate::playing::play;
use portal_core::{KeepFault, Keeper, Reply};
use portal_frame::{Refusal, Request};
use portal_wire::{call_of, reply_of};
use std::alloc::Global;
use std::marker::Model;

/// A desk, which serves requests and streams over a keeper.
#[derive(Drop)]
pub struct Desk<K: Keeper> {
    keeper: K,
    failed: bool,
}

impl<K: Keeper> Model for Desk<K> {
    ghost use Rattle.portal_rules.specs.Keeping.{KeepsGood};
    ghost use Rattle.portal_desk.specs.Kept.{DeskState};

    ghost Value = { DeskState K };

    ghost view = { λ desk. record { keeper = desk.keeper; failed = desk.failed } };

    ghost invariant = { λ desk. KeepsGood (K.state desk.keeper) };
}

impl<K: Keeper> Desk<K> {
    /// Makes a desk over a keeper; the world of a clean keeper has to be good.
    pub fn new(keeper: K) -> Desk<K>
        requires { KeepsGood (K.state keeper) }
        ensures keeper { result.keeper ≡ keeper }
        ensures calm { result.failed ≡ false }
    {
        Desk {
            keeper,
            failed: false,
        }
    }

    /// Returns whether the store has failed.
    pub fn failed(&self) -> bool
        ensures failed { result ≡ self.now.failed }
        ensures good { KeepsGood (K.state self.now.keeper) }
    {
        self.failed
    }

    /// Returns the keeper.
    pub fn into_keeper(self) -> K
        ensures same { result ≡ self.keeper }
        ensures good { KeepsGood (K.state result) }
    {
        let Desk { keeper, failed: _ } = self;
        keeper
    }

    /// Returns the reply for the outcome of a call; a fault of the store makes the desk fail.
    fn record_outcome(&mut self, outcome: Result<Reply, KeepFault>) -> Reply
        ensures keeper { self.new.keeper ≡ self.old.keeper }
        ensures failed { self.new.failed ≡ (self.old.failed || has_store_failed outcome) }
        ensures reply { MatchResult outcome (λ reply. result ≡ reply)
            (λ _. reply_model result ≡ unavailable) }
    {
        match outcome {
            Ok(told) => told,
            Err(KeepFault::Memory) => Reply::unavailable(),
            Err(KeepFault::Store) => {
                self.failed = true;
                Reply::unavailable()
            }
        }
    }

    /// Acts on one request, as one step of the world, which leads to a good one. The reply may be
    /// 503, if memory runs out or the store fails. The desk fails exactly if its keeper counts a
    /// fault of the store. Then every reply is 503, and the keeper is left alone.
    ///
    /// After a 503, the world of a keeper that is clean is as before. On a clean disk, a clean
    /// keeper stays clean unless the reply is 503; then it may have broken. If it was settled, a
    /// stop now leaves only its world if it is clean, else the world before this request or after
    /// it. On a clean disk, a broken keeper stays broken, and no request adds to what a stop
    /// leaves. If the disk fails in a call that reports want of memory, the desk has not failed,
    /// but its keeper may have broken.
    pub fn respond(&mut self, alloc: Global, request: &Request) -> Reply
        ensures acted { Acted (K.state self.old.keeper) (K.state self.new.keeper)
            (request_of request.now.close (request_content request.now)) (reply_model result) }
        ensures good { KeepsGood (K.state self.new.keeper) }
        ensures same { (K.state self.new.keeper).clean → reply_model result ≡ unavailable
            → (K.state self.new.keeper).world ≡ (K.state self.old.keeper).world }
        ensures stays { self.old.failed ≡ true → self.new ≡ self.old }
        ensures failed { self.new.failed ≡ true → reply_model result ≡ unavailable }
        ensures counts { FailsByCount self.old.failed self.new.failed
            (K.state self.old.keeper).faults (K.state self.new.keeper).faults }
        ensures whole { HasWholeNumbers (body_model result.body) }
    {
        if self.failed {
            return Reply::unavailable();
        }
        match call_of(alloc, request) {
            Ok((code, call)) => {
                let outcome = play(alloc, &mut self.keeper, code.as_slice(), &call);
                self.record_outcome(outcome)
            }
            Err(refusal) => turn_away(alloc, &refusal),
        }
    }
}

/// Returns the desk's reply to a request that makes no call, or 503 if memory runs out.
fn turn_away(alloc: Global, refusal: &Refusal) -> Reply
    ensures told { TurnsAway refusal.now (reply_model result) }
    ensures whole { HasWholeNumbers (body_model result.body) }
{
    match reply_of(alloc, refusal) {
        Ok(reply) => reply,
        Err(_) => Reply::unavailable(),
    }
}
