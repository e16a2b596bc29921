//! Opens a store over tables. The file `checks` checks the first round's tables; this file checks
//! the second round's tables, and the whole world.

ghost use Rattle.std.specs.Prelude.{◌≡◌, false, [], IfOk, IfErr, OnOk, IsTrue};
ghost use Rattle.sqlite.specs.Effect.{IsDatabase};
ghost use Rattle.sqlite.specs.State.{HasCleanDisk};
ghost use Rattle.sqlite.specs.Held.{state};
ghost use Rattle.portal_rules.specs.declared.phase.Round.TheVariants.{First, Second};
ghost use Rattle.portal_rules.specs.declared.phase.Phase.TheVariants.{Published};
ghost use Rattle.portal_tables.specs.Tables.{HasFirstSchema, version};
ghost use Rattle.portal_tables.specs.inner.Queries.{round_asked};
ghost use Rattle.portal_tables.specs.Reads.{Always, GivesOrFails, Gives, IsCommitted};
ghost use Rattle.portal_tables.specs.Reads.{OnlyLooks, ReadsOr, NoFault};
ghost use Rattle.portal_list.specs.Rows.{HasEntries};
ghost use Rattle.portal_store.specs.Kept.{HasSecond, HasGoodWorld, HasGoodWorldIn};
ghost use Rattle.portal_store.specs.inner.Keeping.{AreEmpty};
ghost use Rattle.portal_store.specs.World.{phase_in, round_in, world_of};
ghost use Rattle.portal_store.specs.Calls.{OpensStore, RefusesToOpen};
ghost use Rattle.portal_store.specs.Crash.{IsTrueOfQueries, HasVersion, IsTrueOfOpening, Suits, later_queries};
ghost use Rattle.portal_store.specs.inner.Asked.{Admits, SaysNot, IsJudged, IsOfRows};
ghost use Rattle.portal_store.specs.inner.Asked.{NumbersDiffer, SaysNothing};
ghost use Rattle.portal_store.specs.inner.Reading.{ReadsAll, IsSoundIfOpen, queried_rows};

use crate::opening::checks::{
    judge_rows, see_first, see_first_numbers, see_row_numbers, see_tables,
};
use crate::reading::load::load;
use crate::reading::round::first_phase;
use crate::reading::view_cache::ViewCache;
use crate::store::{NotOpened, OpenFault, Store};
use portal_list::Entries;
use portal_rules::{Phase, Round};
use portal_tables::sql::list_table::Lists;
use portal_tables::sql::select::{Query, Table, finds_any};
use portal_tables::{PortalSchema, VERSION, outside_transaction, second_in};
use sqlite::{Alter, Connection};
use std::alloc::Global;

/// Checks that a table of the second round is empty: a query of it returns no row.
fn see_none<S: Alter>(conn: &mut Connection<S>, query: Query<'_>) -> Result<(), OpenFault>
    ensures refused { IfErr result IsOfRows }
    ensures reads { ReadsOr NoFault (round_asked query.entry) S.Store (λ _. ReadsAll query.entry)
        (GivesOrFails (λ db _. queried_rows query.entry db.trees ≡ [])
        (λ db fault. SaysNot fault (queried_rows query.entry db.trees ≡ [])))
        result conn.old conn.new }
{
    let found = finds_any(conn, query)?;
    if found {
        Err(OpenFault::Damaged)
    } else {
        Ok(())
    }
}

/// Checks that a second round that is not open has no lists, rankings or placements.
fn see_nothing<S: Alter>(conn: &mut Connection<S>) -> Result<(), OpenFault>
    ensures refused { IfErr result IsOfRows }
    ensures reads { ReadsOr NoFault Second S.Store Always
        (GivesOrFails (λ db _. AreEmpty db.trees) (λ db fault. SaysNot fault (AreEmpty db.trees)))
        result conn.old conn.new }
{
    see_none(conn, Query::AllLists(Lists::Choices(Round::Second)))?;
    see_none(conn, Query::SecondRanked)?;
    see_none(conn, Query::AllLists(Lists::Rankings(Round::Second)))?;
    see_none(conn, Query::SecondPlacements)
}

/// Checks that the first round is published, as an open second round requires.
fn see_published<S: Alter>(alloc: Global, conn: &mut Connection<S>) -> Result<(), OpenFault>
    ensures refused { IfErr result IsOfRows }
    ensures reads { ReadsOr NoFault First S.Store IsDatabase
        (GivesOrFails (λ db _. phase_in First db.trees ≡ Published)
        (λ db fault. SaysNot fault (HasGoodWorldIn Second db.trees)))
        result conn.old conn.new }
{
    match first_phase(alloc, conn)? {
        Phase::Published => Ok(()),
        Phase::Setup | Phase::Choosing | Phase::Ranking => Err(OpenFault::Damaged),
    }
}

/// Checks that without a second round its other tables are empty, and that with one the first round
/// is published.
fn see_second<S: Alter>(alloc: Global, conn: &mut Connection<S>) -> Result<(), OpenFault>
    ensures refused { IfErr result IsOfRows }
    ensures reads { ReadsOr NoFault Second S.Store IsDatabase
        (GivesOrFails (λ db _. HasSecond (round_in db.trees) db.trees)
        (λ db fault. SaysNot fault (HasGoodWorld db.trees)))
        result conn.old conn.new }
{
    if second_in(alloc, conn)?.is_setup() {
        see_nothing(conn)
    } else {
        see_published(alloc, conn)
    }
}

/// Checks that rowids are distinct in the tables of many rows of both rounds.
fn see_numbers<S: Alter>(conn: &mut Connection<S>) -> Result<(), OpenFault>
    ensures refused { IfErr result SaysNothing }
    ensures reads { ReadsOr NoFault Second S.Store Always (Gives (λ db _. NumbersDiffer db.trees))
        result conn.old conn.new }
{
    see_first_numbers(conn)?;
    see_row_numbers(conn, Table::OfLists(Lists::Choices(Round::Second)))?;
    see_row_numbers(conn, Table::OfRanked)?;
    see_row_numbers(conn, Table::OfLists(Lists::Rankings(Round::Second)))?;
    see_row_numbers(conn, Table::OfPlaces)
}

/// Loads the world of both rounds, checks that it is good, and returns its entries.
fn see_world<S: Alter>(alloc: Global, conn: &mut Connection<S>) -> Result<Entries, OpenFault>
    ensures refused { IfErr result IsOfRows }
    ensures reads { ReadsOr NoFault Second S.Store IsDatabase
        (GivesOrFails (λ db e. IsJudged db.trees × HasEntries e (world_of db.trees))
        (λ db fault. NumbersDiffer db.trees → SaysNot fault (HasGoodWorld db.trees)))
        result conn.old conn.new }
{
    let rows = load(alloc, conn)?;
    judge_rows(alloc, rows)
}

/// Checks the rowids of both rounds, then the row of `second`, then the world, and returns its
/// entries.
fn judge_both<S: Alter>(alloc: Global, conn: &mut Connection<S>) -> Result<Entries, OpenFault>
    ensures refused { IfErr result IsOfRows }
    ensures reads { ReadsOr NoFault Second S.Store (IsSoundIfOpen S.Store conn.old)
        (GivesOrFails (λ db e. Admits db.trees × HasEntries e (world_of db.trees))
        (λ db fault. SaysNot fault (HasGoodWorld db.trees)))
        result conn.old conn.new }
{
    see_numbers(conn)?;
    see_second(alloc, conn)?;
    see_world(alloc, conn)
}

/// Checks the tables of both rounds and their world, before a store is opened. First, the first
/// round's tables must be readable and have the version, and the second's must be readable. Then it
/// checks their rows, and returns the entries of the world.
fn examine<S: Alter>(
    alloc: Global,
    conn: &mut Connection<S>,
    own: bool,
) -> Result<Entries, OpenFault>
    ensures looks { OnlyLooks (state S.Store conn.old) (state S.Store conn.new) }
    ensures suits { IsCommitted (state S.Store conn.old) → HasCleanDisk (state S.Store conn.new)
        → OnOk result (Suits (IsTrue own) version later_queries (state S.Store conn.old)) }
    ensures version { IsCommitted (state S.Store conn.old) → HasFirstSchema conn.old.schema
        → HasCleanDisk (state S.Store conn.new)
        → OnOk result (HasVersion version (state S.Store conn.old).now.trees) }
    ensures reads { IsTrue own → ReadsOr NoFault Second S.Store (IsSoundIfOpen S.Store conn.old)
        (GivesOrFails (λ db e. Admits db.trees × HasEntries e (world_of db.trees))
        (λ db fault. IsTrueOfOpening fault db.trees))
        result conn.old conn.new }
    ensures explained { IsCommitted (state S.Store conn.old) → HasCleanDisk (state S.Store conn.new)
        → IfErr result (λ fault. IsTrueOfQueries fault (IsTrue own) version later_queries
        (state S.Store conn.old)) }
{
    see_first(conn, own, VERSION)?;
    let queries = [
        Query::Second,
        Query::AllLists(Lists::Choices(Round::Second)),
        Query::SecondRanked,
        Query::AllLists(Lists::Rankings(Round::Second)),
        Query::SecondPlacements,
    ];
    see_tables(conn, own, &queries)?;
    judge_both(alloc, conn)
}

impl<S: Alter> Store<S> {
    /// Opens the portal in a database. If `Ok` is returned on a clean disk, own tables represent a
    /// good world; other tables answer the eleven queries, and show version 2. Whatever the tables
    /// are, it changes nothing if the disk is clean and the connection open, and a crash right
    /// after it leaves only what one before left. Tables of which the first six are the portal's
    /// are opened only in version 2. A store that is clean is settled and consistent, too.
    ///
    /// # Errors
    ///
    /// Every error hands the connection back, with the file unchanged if the disk is clean and the
    /// connection open, whatever its tables. `NotPortal`: a table cannot be queried, or `portal`
    /// has no row. `OtherVersion`: that row has a version other than 2. `Damaged`: it has version
    /// 2, and the rows represent no good world. `Store`: the store reports an error. `Memory`:
    /// memory runs out. What the first three say is proved of own tables, so that a good world in
    /// them is refused only for the latter two. Of other tables it is proved that `NotPortal` means
    /// that one of the first six queries fails with an error that is not the store's, that the one
    /// of `portal` shows no row, or that its first row has version 2 and one of the five queries of
    /// the second round fails so; that `OtherVersion` means that the first six are answered, and
    /// `Damaged` that all are; and that these two tell the version in that row. So if a query is
    /// not answered, and the store and memory suffice, they are refused as `NotPortal`, and tables
    /// of version 1 that can be queried as `OtherVersion`.
    pub fn open(alloc: Global, mut conn: Connection<S>) -> Result<Store<S>, NotOpened<OpenFault, S>>
        requires idle { conn.in_transaction ≡ false }
        ensures opens { IfOk result (OpensStore S.Store conn) }
        ensures refuses { IfErr result (λ e. RefusesToOpen S.Store e.fault conn e.connection) }
    {
        outside_transaction(&conn);
        let pattern = match PortalSchema::new(alloc) {
            Ok(pattern) => pattern,
            Err(error) => {
                return Err(NotOpened {
                    fault: OpenFault::from(error),
                    connection: conn,
                });
            }
        };
        let own = pattern.fits(&conn);
        let entries = match examine(alloc, &mut conn, own) {
            Ok(entries) => entries,
            Err(fault) => {
                return Err(NotOpened {
                    fault,
                    connection: conn,
                });
            }
        };
        Ok(Store {
            conn,
            own,
            pattern,
            cache: ViewCache::nothing(),
            entries: Some(entries),
            faults: 0,
        })
    }
}
