//! Upgrades tables of version 1, and makes a store of them.

ghost use Rattle.std.specs.Prelude.{◌≡◌, ◌↔◌, [], false, IfOk, IfErr, OnOk, IsTrue};
ghost use Rattle.sqlite.specs.State.{HasCleanDisk};
ghost use Rattle.sqlite.specs.Held.{state};
ghost use Rattle.portal_rules.specs.declared.phase.Round.TheVariants.{First};
ghost use Rattle.portal_tables.specs.Tables.{first_version, IsFirstSchema};
ghost use Rattle.portal_tables.specs.Making.{has_names};
ghost use Rattle.portal_tables.specs.declared.sql.names.Names.TheVariants.{OfSecond};
ghost use Rattle.portal_tables.specs.Reads.{GivesOrFails, ReadsOr, NoFault, IsCommitted, OnlyLooks};
ghost use Rattle.portal_list.specs.Rows.{HasEntries};
ghost use Rattle.portal_store.specs.Calls.{RefusesToUpgrade, UpgradesStore};
ghost use Rattle.portal_store.specs.Kept.{HasGoodFirst};
ghost use Rattle.portal_store.specs.World.{world_in};
ghost use Rattle.portal_store.specs.Crash.{IsTrueOfQueries, IsTrueOfTables, Suits};
ghost use Rattle.portal_store.specs.inner.Asked.{AdmitsAs, Judges};
ghost use Rattle.portal_store.specs.inner.Reading.{IsSoundIfOpen, OverLive};
ghost use Rattle.portal_store.specs.inner.Upgrading.{UpgradesWithEntries};

use crate::fault::upgrade_fault_of;
use crate::opening::checks::{judge_first, see_first};
use crate::reading::view_cache::ViewCache;
use crate::store::{NotOpened, OpenFault, Store, UpgradeFault};
use portal_list::Entries;
use portal_tables::sql::names::{Names, is_there};
use portal_tables::{FIRST_VERSION, PortalSchema, outside_transaction, upgrade_tables};
use sqlite::{Alter, Connection};
use std::alloc::Global;

/// Checks that the tables of version 1 can be queried and have the version, then their rows.
/// Returns the entries of their world. `own` says that they are the portal's own.
fn examine_first<S: Alter>(
    alloc: Global,
    conn: &mut Connection<S>,
    own: bool,
) -> Result<Entries, OpenFault>
    ensures looks { OnlyLooks (state S.Store conn.old) (state S.Store conn.new) }
    ensures suits { IsCommitted (state S.Store conn.old) → HasCleanDisk (state S.Store conn.new)
        → OnOk result (Suits (IsTrue own) first_version [] (state S.Store conn.old)) }
    ensures judged { IsCommitted (state S.Store conn.old) → OverLive First S.Store conn.old conn.new
        (Judges result (HasGoodFirst first_version (state S.Store conn.old).now.trees)) }
    ensures reads { IsTrue own → ReadsOr NoFault First S.Store (IsSoundIfOpen S.Store conn.old)
        (GivesOrFails (λ db e. AdmitsAs first_version db.trees
        × HasEntries e (world_in First db.trees))
        (λ db fault. IsTrueOfTables fault first_version
        (HasGoodFirst first_version db.trees) db.trees))
        result conn.old conn.new }
    ensures explained { IsCommitted (state S.Store conn.old) → HasCleanDisk (state S.Store conn.new)
        → IfErr result (λ fault. IsTrueOfQueries fault (IsTrue own) first_version []
        (state S.Store conn.old)) }
{
    see_first(conn, own, FIRST_VERSION)?;
    judge_first(alloc, conn, FIRST_VERSION)
}

/// Upgrades the tables if they pass and no name is taken, and returns the entries of their world.
fn upgrade_with_entries<S: Alter>(
    alloc: Global,
    conn: &mut Connection<S>,
    own: bool,
    is_taken: bool,
) -> Result<Entries, UpgradeFault>
    requires idle { conn.old.in_transaction ≡ false }
    requires first { IsTrue own ↔ IsFirstSchema conn.old.schema }
    requires taken { is_taken ≡ has_names OfSecond conn.old.schema }
    ensures upgrades { IfOk result (λ entries.
        UpgradesWithEntries S.Store entries conn.old conn.new) }
    ensures refuses { IfErr result (λ fault.
        RefusesToUpgrade S.Store fault conn.old conn.new) }
{
    outside_transaction(conn);
    let entries = match examine_first(alloc, conn, own) {
        Ok(entries) => entries,
        Err(fault) => return Err(upgrade_fault_of(fault)),
    };
    if is_taken {
        return Err(UpgradeFault::Exists);
    }
    match upgrade_tables(alloc, conn) {
        Ok(()) => Ok(entries),
        Err(fault) => Err(upgrade_fault_of(OpenFault::from(fault))),
    }
}

impl<S: Alter> Store<S> {
    /// Upgrades tables of a good world from version 1 to 2 in one transaction; the world stays. On
    /// a clean disk, a crash right after it leaves the new tables; right after `Store` or `Memory`,
    /// the old ones or, if no new name was taken, the new ones. All this is proved of own tables of
    /// version 1, and that these keep their world also after an error. Any tables that are upgraded
    /// answer the first six queries and show version 1; if the first six are the portal's, their
    /// world is good. A store that is clean is settled and consistent, too.
    ///
    /// # Errors
    ///
    /// Every error hands the connection back, with the file unchanged if the disk is clean and the
    /// connection open; but for `Store` and `Memory`, a crash right after it leaves any tables as
    /// one before. `NotPortal`: a table cannot be queried, or `portal` has no row. `OtherVersion`:
    /// that row has a version other than 1. `Damaged`: it has version 1, and the rows represent no
    /// good world. `Exists`: a table or view has one of the five new names, and else the tables
    /// would be upgraded. `Store`: the store reports an error. `Memory`: memory runs out. The first
    /// four are checked in this order, and a fault of the device or memory shortage never causes
    /// them. What the first three say is proved of own tables; what `Damaged` says, of all whose
    /// first six are the portal's. Of other tables it is proved that `NotPortal` means that one of
    /// the first six queries fails with an error that is not the store's, or that the one of
    /// `portal` shows no row; that they are answered in every case but this and the latter two; and
    /// that `OtherVersion` and `Damaged` tell the version in the first row shown.
    pub fn upgrade(
        alloc: Global,
        mut conn: Connection<S>,
    ) -> Result<Store<S>, NotOpened<UpgradeFault, S>>
        requires idle { conn.in_transaction ≡ false }
        ensures upgrades { IfOk result (UpgradesStore S.Store conn) }
        ensures refuses { IfErr result (λ e. RefusesToUpgrade S.Store e.fault conn e.connection) }
    {
        outside_transaction(&conn);
        let pattern = match PortalSchema::new(alloc) {
            Ok(pattern) => pattern,
            Err(error) => {
                return Err(NotOpened {
                    fault: upgrade_fault_of(OpenFault::from(error)),
                    connection: conn,
                });
            }
        };
        let own = pattern.fits_first(&conn);
        let is_taken = is_there(conn.schema(), Names::OfSecond);
        let entries = match upgrade_with_entries(alloc, &mut conn, own, is_taken) {
            Ok(entries) => entries,
            Err(fault) => {
                return Err(NotOpened {
                    fault,
                    connection: conn,
                });
            }
        };
        Ok(Store {
            conn,
            own,
            pattern,
            cache: ViewCache::nothing(),
            entries: Some(entries),
            faults: 0,
        })
    }
}
