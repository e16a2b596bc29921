//! Checks the first round's tables, their version and rowids, and that loaded worlds are good.

ghost use Rattle.std.specs.Prelude.{◌≡◌, ◌≢◌, ◌↔◌, ◌⊎◌, [], ◌∷◌, pos, false, Err, List};
ghost use Rattle.std.specs.Prelude.{IfErr, MatchResult, OnOk, IsTrue};
ghost use Rattle.sqlite.specs.declared.types.Value.TheVariants.{Int};
ghost use Rattle.sqlite.specs.Order.{Row as Cells, column};
ghost use Rattle.sqlite.specs.Effect.{IsDatabase};
ghost use Rattle.sqlite.specs.Held.{state};
ghost use Rattle.sqlite.specs.State.{HasCleanDisk};
ghost use Rattle.portal_rules.specs.Good.{Good};
ghost use Rattle.portal_rules.specs.World.{World, is_second};
ghost use Rattle.portal_rules.specs.declared.phase.Round.TheVariants.{First};
ghost use Rattle.portal_tables.specs.Tables.{HasFirstSchema};
ghost use Rattle.portal_tables.specs.Rows.{RowNumbersDiffer};
ghost use Rattle.portal_tables.specs.inner.Queries.{table_tree, table_round};
ghost use Rattle.portal_tables.specs.Reads.{Always, GivesOrFails, Gives, IsCommitted};
ghost use Rattle.portal_tables.specs.Reads.{OnlyLooks, ReadsOr, NoFault};
ghost use Rattle.portal_list.specs.Rows.{HasEntries, world_rows};
ghost use Rattle.portal_store.specs.Kept.{HasGoodFirst};
ghost use Rattle.portal_store.specs.inner.Keeping.{AllNumbersDiffer};
ghost use Rattle.portal_store.specs.inner.Keeping.{early_trees};
ghost use Rattle.portal_store.specs.inner.Loads.{HasNothingBefore};
ghost use Rattle.portal_store.specs.World.{world_in};
ghost use Rattle.portal_store.specs.Crash.{IsTrueOfQueries, HasVersion, Passes, IsTrueOfTables};
ghost use Rattle.portal_store.specs.Crash.{RefusesOne, ShowsVersion, Suits};
ghost use Rattle.portal_store.specs.inner.Asked.{AdmitsAs, SaysNot, IsOfRows, SaysNothing};
ghost use Rattle.portal_store.specs.inner.Asked.{TellsOffice};
ghost use Rattle.portal_store.specs.inner.Reading.{IsSoundIfOpen};

use crate::fault::table_fault_of;
use crate::reading::load::load_first;
use crate::store::OpenFault;
use portal_list::{Entries, ListKeeper, RowsFault, WorldRows};
use portal_rules::Round;
use portal_tables::sql::list_table::Lists;
use portal_tables::sql::select::{Query, RollTable, Table, read};
use portal_tables::{is_number, row_numbers_differ};
use sqlite::{Alter, Connection, Row};
use std::alloc::Global;

/// Checks that tables can be queried, by these queries, unless they are the portal's own. So either
/// they are, or each query was answered.
pub(crate) fn see_tables<S: Alter>(
    conn: &mut Connection<S>,
    own: bool,
    queries: &[Query<'_>],
) -> Result<(), OpenFault>
    ensures looks { OnlyLooks (state S.Store conn.old) (state S.Store conn.new) }
    ensures same { IsTrue own → conn.new ≡ conn.old }
    ensures none { IsTrue own → IfErr result (λ _. ⊥) }
    ensures damaged { result ≢ Err OpenFault.Damaged }
    ensures version { result ≢ Err OpenFault.OtherVersion }
    ensures refused { IsCommitted (state S.Store conn.old) → HasCleanDisk (state S.Store conn.new)
        → result ≡ Err OpenFault.NotPortal → RefusesOne queries.now (state S.Store conn.old) }
    ensures passes { IsCommitted (state S.Store conn.old) → HasCleanDisk (state S.Store conn.new)
        → OnOk result (Passes (IsTrue own) queries.now (state S.Store conn.old)) }
{
    if own {
        return Ok(());
    }
    for query in queries {
        if let Err(error) = read(conn, *query) {
            return Err(table_fault_of(error));
        }
    }
    Ok(())
}

/// Checks that there is a row of the office, and that it has this version.
fn judge_office(rows: &[Row], version: u32) -> Result<(), OpenFault>
    ensures none { (result ≡ Err OpenFault.NotPortal) ↔ (rows.now ≡ []) }
    ensures version { OnOk result ((row : Cells) × (rest : List Cells) × (rows.now ≡ row ∷ rest)
        × (column row 1 ≡ Int (pos version))) }
    ensures other { result ≡ Err OpenFault.OtherVersion → (row : Cells) × (rest : List Cells)
        × (rows.now ≡ row ∷ rest) × (column row 1 ≢ Int (pos version)) }
    ensures judged { IfErr result (λ fault. (fault ≡ OpenFault.Damaged) → ⊥) }
{
    match rows {
        [] => Err(OpenFault::NotPortal),
        [row, ..] => {
            if is_number(row, 1, version) {
                Ok(())
            } else {
                Err(OpenFault::OtherVersion)
            }
        }
    }
}

/// Checks that `portal` has a row, and that it has this version.
fn see_office<S: Alter>(conn: &mut Connection<S>, version: u32) -> Result<(), OpenFault>
    ensures reads { ReadsOr NoFault First S.Store Always
        (GivesOrFails (λ db _. HasVersion version db.trees)
        (λ db fault. IsTrueOfTables fault version (Unit {0}) db.trees))
        result conn.old conn.new }
    ensures shows { HasCleanDisk (state S.Store conn.new)
        → OnOk result (ShowsVersion version (state S.Store conn.new)) }
    ensures told { HasCleanDisk (state S.Store conn.new)
        → IfErr result (λ fault. TellsOffice fault version (state S.Store conn.old)) }
    ensures judged { IfErr result (λ fault. (fault ≡ OpenFault.Damaged) → ⊥) }
{
    let rows = read(conn, Query::Office)?;
    judge_office(&rows, version)
}

/// Checks that the first round's tables can be queried and have this version. `own` says that they
/// are the portal's own.
pub(crate) fn see_first<S: Alter>(
    conn: &mut Connection<S>,
    own: bool,
    version: u32,
) -> Result<(), OpenFault>
    ensures looks { OnlyLooks (state S.Store conn.old) (state S.Store conn.new) }
    ensures suits { IsCommitted (state S.Store conn.old) → HasCleanDisk (state S.Store conn.new)
        → OnOk result (Suits (IsTrue own) version [] (state S.Store conn.old)) }
    ensures version { IsCommitted (state S.Store conn.old) → HasFirstSchema conn.old.schema
        → HasCleanDisk (state S.Store conn.new)
        → OnOk result (HasVersion version (state S.Store conn.old).now.trees) }
    ensures reads { IsTrue own → ReadsOr NoFault First S.Store Always
        (GivesOrFails (λ db _. HasVersion version db.trees)
        (λ db fault. IsTrueOfTables fault version (Unit {0}) db.trees))
        result conn.old conn.new }
    ensures explained { IsCommitted (state S.Store conn.old) → HasCleanDisk (state S.Store conn.new)
        → IfErr result (λ fault. IsTrueOfQueries fault (IsTrue own) version []
        (state S.Store conn.old)) }
    ensures judged { IfErr result (λ fault. (fault ≡ OpenFault.Damaged) → ⊥) }
    ensures live { HasCleanDisk (state S.Store conn.new)
        → OnOk result (IsTrue (state S.Store conn.new).is_open) }
{
    let queries = [
        Query::Office,
        Query::Whole(RollTable::Lecturers),
        Query::Whole(RollTable::Projects),
        Query::Whole(RollTable::Students),
        Query::AllLists(Lists::Choices(Round::First)),
        Query::AllLists(Lists::Rankings(Round::First)),
    ];
    see_tables(conn, own, &queries)?;
    see_office(conn, version)
}

/// Checks that the rowids of a single table are distinct. They are in a sound database, so
/// otherwise it returns `Store`.
pub(crate) fn see_row_numbers<S: Alter>(
    conn: &mut Connection<S>,
    table: Table,
) -> Result<(), OpenFault>
    ensures refused { IfErr result SaysNothing }
    ensures reads { ReadsOr NoFault (table_round table) S.Store Always
        (Gives (λ db _. RowNumbersDiffer (db.trees (table_tree table)))) result conn.old conn.new }
{
    if row_numbers_differ(conn, table)? {
        Ok(())
    } else {
        Err(OpenFault::Store)
    }
}

/// Checks that rows are those of a good world, and returns its entries.
pub(crate) fn judge_rows(alloc: Global, rows: WorldRows) -> Result<Entries, OpenFault>
    ensures good { (w : World) → rows ≡ world_rows w
        → (is_second w.round ≡ false → HasNothingBefore w)
        → MatchResult result (λ e. Good w × HasEntries e w) (λ fault. SaysNot fault (Good w)) }
    ensures judged { IfErr result (λ fault. (fault ≡ OpenFault.Damaged)
        ⊎ (fault ≡ OpenFault.Memory)) }
{
    let keeper = match ListKeeper::from_rows(alloc, rows) {
        Ok(keeper) => keeper,
        Err(RowsFault::NotGood) => return Err(OpenFault::Damaged),
        Err(RowsFault::Memory) => return Err(OpenFault::Memory),
    };
    match keeper.is_good(alloc) {
        Ok(true) => Ok(keeper.into_entries()),
        Ok(false) => Err(OpenFault::Damaged),
        Err(_) => Err(OpenFault::Memory),
    }
}

/// Loads the first round's world, checks that it is good, and returns its entries.
fn see_first_world<S: Alter>(
    alloc: Global,
    conn: &mut Connection<S>,
    version: u32,
) -> Result<Entries, OpenFault>
    ensures refused { IfErr result IsOfRows }
    ensures reads { ReadsOr NoFault First S.Store IsDatabase
        (GivesOrFails (λ db e. HasGoodFirst version db.trees
        × HasEntries e (world_in First db.trees))
        (λ db fault. SaysNot fault (HasGoodFirst version db.trees)))
        result conn.old conn.new }
{
    let rows = load_first(alloc, conn, version)?;
    judge_rows(alloc, rows)
}

/// Checks that rowids are distinct in the first round's tables of many rows.
pub(crate) fn see_first_numbers<S: Alter>(conn: &mut Connection<S>) -> Result<(), OpenFault>
    ensures refused { IfErr result SaysNothing }
    ensures reads { ReadsOr NoFault First S.Store Always
        (Gives (λ db _. AllNumbersDiffer early_trees db.trees)) result conn.old conn.new }
{
    see_row_numbers(conn, Table::OfRoll(RollTable::Lecturers))?;
    see_row_numbers(conn, Table::OfRoll(RollTable::Projects))?;
    see_row_numbers(conn, Table::OfRoll(RollTable::Students))?;
    see_row_numbers(conn, Table::OfLists(Lists::Choices(Round::First)))?;
    see_row_numbers(conn, Table::OfLists(Lists::Rankings(Round::First)))
}

/// Checks the first round's tables of this version: the rowids, then the world, whose entries it
/// returns.
pub(crate) fn judge_first<S: Alter>(
    alloc: Global,
    conn: &mut Connection<S>,
    version: u32,
) -> Result<Entries, OpenFault>
    ensures refused { IfErr result IsOfRows }
    ensures reads { ReadsOr NoFault First S.Store (IsSoundIfOpen S.Store conn.old)
        (GivesOrFails (λ db e. AdmitsAs version db.trees × HasEntries e (world_in First db.trees))
        (λ db fault. SaysNot fault (HasGoodFirst version db.trees)))
        result conn.old conn.new }
{
    see_first_numbers(conn)?;
    see_first_world(alloc, conn, version)
}
