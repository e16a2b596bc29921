//! Keeps the cached entries after a change, and builds the instance from them or from the tables.

ghost use Rattle.std.specs.Prelude.{◌≡◌, IfOk, OnOk, OnErr};
ghost use Rattle.sqlite.specs.Effect.{IsDatabase};
ghost use Rattle.portal_rules.specs.World.{changed, World};
ghost use Rattle.portal_rules.specs.Good.{Sound};
ghost use Rattle.portal_rules.specs.Good as meant_by;
ghost use Rattle.portal_rules.specs.Meaning.{change_model};
ghost use Rattle.portal_rules.specs.declared.phase.Round.TheVariants.{Second};
ghost use Rattle.portal_list.specs.Rows.{HasEntries};
ghost use Rattle.portal_store.specs.World.{world_of};
ghost use Rattle.portal_store.specs.inner.Keeping.{AreEntries};
ghost use Rattle.portal_tables.specs.Reads.{Reads, Gives};

use crate::fault::rows_fault_of;
use crate::reading::load::load_entries;
use portal_list::Entries;
use portal_rules::{Change, KeepFault};
use portal_tables::TableFault;
use spa_model::Instance;
use sqlite::{Alter, Connection};
use std::alloc::Global;

/// Builds the instance of the store's entries, cached or just read, without checking them. Entries
/// without an instance are `Damaged`.
pub(crate) fn instance_of(alloc: Global, entries: &Entries) -> Result<Instance, TableFault>
    ensures meant { IfOk result (λ i. (w : World) → HasEntries entries.now w → Sound w
        → i ≡ meant_by.instance w) }
    ensures store { result ≡ Err TableFault.Store → ⊥ }
{
    entries.instance(alloc).map_err(rows_fault_of)
}

/// Builds the instance of the current round from the tables, without checking the lists.
pub(crate) fn instance_in<S: Alter>(
    alloc: Global,
    conn: &mut Connection<S>,
) -> Result<Instance, TableFault>
    ensures { Reads Second S.Store IsDatabase
        (Gives (λ db i. Sound (world_of db.trees) → i ≡ meant_by.instance (world_of db.trees)))
        result conn.old conn.new }
{
    let entries = load_entries(alloc, conn)?;
    instance_of(alloc, &entries)
}

/// Returns the cached entries after the change, or `None` if they do not follow it.
fn entries_after(alloc: Global, mut entries: Entries, change: &Change) -> Option<Entries>
    ensures { (w : World) → Sound w → HasEntries entries w
        → AreEntries result (changed w (change_model change.now)) }
{
    match entries.follow(alloc, change) {
        Ok(true) => Some(entries),
        _ => None,
    }
}

/// Updates the cached entries after a successful change, or drops them. It drops them if they do
/// not follow the change or memory runs out. A failed change leaves them as they are.
pub(crate) fn follow(
    alloc: Global,
    entries: &mut Option<Entries>,
    change: &Change,
    made: &Result<(), KeepFault>,
)
    ensures made { OnOk made.now
        ((w : World) → Sound w → AreEntries entries.old w
        → AreEntries entries.new (changed w (change_model change.now))) }
    ensures not_made { OnErr made.now (entries.new ≡ entries.old) }
{
    if made.is_ok() {
        *entries = match entries.take() {
            Some(read) => entries_after(alloc, read, change),
            None => None,
        };
    }
}
