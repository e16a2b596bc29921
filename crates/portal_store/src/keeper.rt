//! Implements `Keeper` for the store; `Store::office_code` returns the office's code.

ghost use Rattle.std.specs.Prelude.{◌≡◌, IfErr, IfOk, OnErr, OnOk, IsTrue};
ghost use Rattle.portal_rules.specs.World.{changed};
ghost use Rattle.portal_rules.specs.Keeping.{Changes, IsAlive, KeepsGood, Looks};
ghost use Rattle.portal_rules.specs.Meaning.{change_model};
ghost use Rattle.portal_rules.specs.Good.{Good};
ghost use Rattle.portal_rules.specs.View as seen;
ghost use Rattle.portal_rules.specs.Good as meant_by;
ghost use Rattle.portal_tables.specs.Tables.{IsCurrentSchema};
ghost use Rattle.portal_store.specs.Calls.{ChangesTables, HasStoreReason, StaysStore};
ghost use Rattle.portal_store.specs.Kept.{IsCleanStore, kept_state, kept_world};

use crate::changing::change::commit_change;
use crate::fault::{count_fault, count_outcome};
use crate::reading::entries::{follow, instance_in, instance_of};
use crate::reading::queries::show;
use crate::reading::round::office_code;
use crate::store::Store;
use portal_rules::{Change, Code, KeepFault, Keeper, View};
use portal_tables::TableFault;
use spa_model::Instance;
use sqlite::Alter;
use std::alloc::Global;

impl<S: Alter> Store<S> {
    /// Checks before each call of the keeper that tables that were the portal's own still are.
    /// Otherwise returns `Store`.
    fn check_own(&self) -> Result<(), TableFault>
        ensures own { IsTrue self.now.own → OnOk result (IsCurrentSchema self.now.conn.schema) }
        ensures fits { IsCurrentSchema self.now.conn.schema → OnErr result ⊥ }
        ensures store { IfErr result (λ fault. fault ≡ TableFault.Store) }
    {
        if !self.own || self.pattern.fits(&self.conn) {
            return Ok(());
        }
        Err(TableFault::Store)
    }

    /// Returns the office's code. `Store` means an error of the connection, tables that are no
    /// longer the portal's own, or no valid row of the office.
    pub fn office_code(&mut self, alloc: Global) -> Result<Code, KeepFault>
        ensures looks { Looks result (kept_state S.Store self.old) (kept_state S.Store self.new) }
        ensures alive { OnOk result (IsAlive (kept_state S.Store self.new)) }
        ensures code { IsCleanStore S.Store self.new
            → IfOk result (λ code. code ≡ (kept_world S.Store self.old).office) }
        ensures reason { HasStoreReason S.Store result self.old self.new }
        ensures store { StaysStore S.Store self.old self.new }
    {
        if let Err(fault) = self.check_own() {
            return Err(count_fault(&mut self.faults, fault));
        }
        let code = office_code(alloc, &mut self.conn);
        count_outcome(&mut self.faults, code)
    }
}

impl<S: Alter> Keeper for Store<S> {
    ghost state = { λ s. kept_state S.Store s };

    /// Returns the caller's view, from the cache and by queries of what that caller may see.
    fn view(&mut self, alloc: Global, code: &[u8]) -> Result<View, KeepFault>
        ensures looks { Looks result (kept_state S.Store self.old) (kept_state S.Store self.new) }
        ensures alive { OnOk result (IsAlive (kept_state S.Store self.new)) }
        ensures shown { IfOk result (λ view. IsCleanStore S.Store self.new
            → Good (kept_world S.Store self.old)
            → view ≡ seen.view (kept_world S.Store self.old) code.now) }
        ensures reason { HasStoreReason S.Store result self.old self.new }
        ensures store { StaysStore S.Store self.old self.new }
    {
        if let Err(fault) = self.check_own() {
            return Err(count_fault(&mut self.faults, fault));
        }
        let shown = show(alloc, &mut self.conn, &mut self.cache, code);
        count_outcome(&mut self.faults, shown)
    }

    /// Builds the instance of the current round, from the cached entries or else from the tables.
    fn instance(&mut self, alloc: Global) -> Result<Instance, KeepFault>
        requires good { KeepsGood (kept_state S.Store self.old) }
        ensures looks { Looks result (kept_state S.Store self.old) (kept_state S.Store self.new) }
        ensures instance { IfOk result (λ i. IsCleanStore S.Store self.new
            → i ≡ meant_by.instance (kept_world S.Store self.old)) }
        ensures store { StaysStore S.Store self.old self.new }
    {
        if let Err(fault) = self.check_own() {
            return Err(count_fault(&mut self.faults, fault));
        }
        match &self.entries {
            Some(entries) => count_outcome(&mut self.faults, instance_of(alloc, entries)),
            None => count_outcome(&mut self.faults, instance_in(alloc, &mut self.conn)),
        }
    }

    /// Makes one change in one transaction; the worlds before and after it must be good. After `Ok`
    /// the change is on the disk. An error leaves a clean store unchanged. A crash leaves the
    /// tables before or after the change.
    fn apply(&mut self, alloc: Global, change: &Change) -> Result<(), KeepFault>
        requires good { KeepsGood (kept_state S.Store self.old) }
        requires leaves_good { IsCleanStore S.Store self.old
            → Good (changed (kept_world S.Store self.old) (change_model change.now)) }
        ensures changes { Changes result (kept_state S.Store self.old)
            (kept_state S.Store self.new)
            (λ w. w ≡ changed (kept_world S.Store self.old) (change_model change.now)) }
        ensures store { StaysStore S.Store self.old self.new }
        ensures tables { ChangesTables S.Store (change_model change.now) result self.old self.new }
    {
        if let Err(fault) = self.check_own() {
            return Err(count_fault(&mut self.faults, fault));
        }
        let taken = commit_change(alloc, &mut self.conn, &mut self.entries, change);
        let made = count_outcome(&mut self.faults, taken);
        self.cache.follow(change, &made);
        follow(alloc, &mut self.entries, change, &made);
        made
    }
}
