//! Tests a desk over a keeper that fails.

ghost use Rattle.std.specs.Prelude.{Err};
ghost use Rattle.portal_rules.specs.Keeping.{CountsFaults};

use crate::tests::conversation::put;
use crate::tests::devices::{is_text, served_by, stopped};
use crate::tests::portal::{NO_CALLER, after, fresh_keeper, request};
use portal_core::{Change, KeepFault, Keeper, View};
use portal_desk::{Cause, Counted, Desk};
use portal_fixtures::worked::{FIRST_ROUND, RANKED_AGAIN, RANKING_AGAIN, REOPENED};
use portal_list::ListKeeper;
use spa_model::Instance;
use std::alloc::Global;
use std::process::Abort;

/// A keeper in lists that fails after `left` views, and at each instance and each change.
#[derive(Drop)]
pub(crate) struct Failing {
    kept: ListKeeper,
    left: u32,
    faults: u64,
}

impl Failing {
    pub(crate) fn new(kept: ListKeeper, left: u32) -> Failing {
        Failing {
            kept,
            left,
            faults: 0,
        }
    }

    /// Returns a fault, and counts it.
    fn fault(&mut self) -> KeepFault
        ensures { CountsFaults {A = Unit {0}} (Err result) self.old.faults self.new.faults }
    {
        match self.faults.checked_add(1) {
            Some(faults) => {
                self.faults = faults;
                KeepFault::Store
            }
            None => KeepFault::Memory,
        }
    }
}

impl Keeper for Failing {
    ghost state = { λ failing. record {
      world = failing.kept;
      clean = ⊥;
      disk = Unit {0};
      broken = ⊥;
      leaves = λ _. ⊥;
      faults = failing.faults;
    } };

    fn view(&mut self, alloc: Global, code: &[u8]) -> Result<View, KeepFault> {
        if self.left == 0 {
            return Err(self.fault());
        }
        self.left -= 1;
        self.kept.view(alloc, code)
    }

    fn instance(&mut self, alloc: Global) -> Result<Instance, KeepFault> {
        let _alloc = alloc;
        Err(self.fault())
    }

    fn apply(&mut self, alloc: Global, change: &Change) -> Result<(), KeepFault> {
        let _alloc = alloc;
        let _change = change;
        Err(self.fault())
    }
}

const TWO: &str = "GET /me HTTP/1.1\r\nHost: h\r\n\r\nGET /me HTTP/1.1\r\nHost: h\r\n\r\n";

const LOST: &str =
    "HTTP/1.1 503 Service Unavailable\r\ncontent-type: application/json\r\ncontent-length: 23\r\nconnection: close\r\n\r\n{\"error\":\"unavailable\"}";

/// Checks that `serve` ends with a fault of the store, after these requests and this output.
fn fails<K: Keeper>(
    rt: &(impl Abort + AllocGlobal),
    desk: &mut Desk<K>,
    asked: &str,
    requests: usize,
    output: &[u8],
) {
    let mut source = Counted::new(asked.as_bytes());
    let wanted = stopped(Cause::Store, requests);
    let text = served_by(rt, desk, &mut source, wanted, asked.len());
    is_text(rt, text.as_slice(), output);
    assert!(rt; desk.failed());
}

/// Checks that `serve` ends so, and that the desk then stays failed.
fn stays_failed<K: Keeper + Drop>(
    rt: &(impl Abort + AllocGlobal),
    desk: Desk<K>,
    asked: &str,
    requests: usize,
    output: &[u8],
) {
    let mut desk = desk;
    fails(rt, &mut desk, asked, requests, output);
    fails(rt, &mut desk, TWO, 1, LOST.as_bytes());
}

#[test]
fn the_desk_has_failed_from_then_on(rt: HostRuntime) {
    let mut both = Vec::new(rt.alloc());
    put(&rt, &mut both, NO_CALLER);
    put(&rt, &mut both, LOST);
    let desk = Desk::new(Failing::new(fresh_keeper(&rt), 1));
    stays_failed(&rt, desk, TWO, 2, both.as_slice());
}

/// Checks that a change after these scripts fails with a fault of the store, and that the desk then
/// stays failed.
fn is_lost(rt: &(impl Abort + AllocGlobal), scripts: &[&str], line: &str) {
    let asked = request(rt, line);
    let desk = Desk::new(Failing::new(after(rt, scripts).into_keeper(), u32::MAX));
    stays_failed(rt, desk, asked.as_str(), 1, LOST.as_bytes());
}

#[test]
fn each_change_of_the_second_round_is_lost(rt: HostRuntime) {
    let opening = r#"office  POST /phase {"phase":"choosing","round":2}"#;
    is_lost(&rt, FIRST_ROUND, opening);
    is_lost(&rt, REOPENED, r#"cyr  PUT /choices {"projects":["P3"]}"#);
    let ranking = r#"moe  PUT /ranking {"students":["S3"]}"#;
    is_lost(&rt, RANKING_AGAIN, ranking);
    is_lost(&rt, RANKING_AGAIN, "office  POST /ranking/fill {}");
}

/// The publication fails because the keeper returns no instance.
#[test]
fn the_second_publication_is_lost(rt: HostRuntime) {
    let publication = r#"office  POST /phase {"phase":"published"}"#;
    is_lost(&rt, RANKED_AGAIN, publication);
}
