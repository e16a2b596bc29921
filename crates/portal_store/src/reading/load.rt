//! Loads the world from the tables, as rows or as entries.

ghost use Rattle.std.specs.Prelude.{◌≡◌};
ghost use Rattle.sqlite.specs.Effect.{IsDatabase};
ghost use Rattle.portal_rules.specs.Good.{Sound};
ghost use Rattle.portal_rules.specs.declared.phase.Round.TheVariants.{Second, First};
ghost use Rattle.portal_list.specs.Rows.{HasEntries};
ghost use Rattle.portal_views.specs.inner.Contents.{rows_held};
ghost use Rattle.portal_tables.specs.Reads.{GivesOrFails, Blames, Reads, Gives};
ghost use Rattle.portal_store.specs.inner.Asked.{NumbersDiffer};
ghost use Rattle.portal_store.specs.Kept.{HasGoodWorld, HasGoodFirst, HasGoodWorldIn};
ghost use Rattle.portal_store.specs.inner.Loads as meant_by;
ghost use Rattle.portal_store.specs.inner.Loads.{Loads, LoadsIn};
ghost use Rattle.portal_store.specs.World.{round_in, world_of};

use crate::fault::rows_fault_of;
use crate::reading::round::round_in;
use portal_list::{Entries, WorldRows};
use portal_rules::{Phase, Round};
use portal_tables::{TableFault, VERSION, office_in, second_in};
use portal_views::{Contents, contents_in};
use sqlite::{Alter, Connection};
use std::alloc::Global;

/// Loads the rows of the first round's world from tables of this schema version.
pub(crate) fn load_first<S: Alter>(
    alloc: Global,
    conn: &mut Connection<S>,
    version: u32,
) -> Result<WorldRows, TableFault>
    ensures { Reads First S.Store IsDatabase
        (GivesOrFails (λ db. Loads version First db.trees)
        (λ db fault. Blames fault (HasGoodFirst version db.trees)))
        result conn.old conn.new }
{
    let office = office_in(alloc, conn, version)?;
    let contents = contents_in(alloc, conn, Round::First)?;
    Ok(WorldRows {
        round: Round::First,
        phase: office.phase,
        office: office.code,
        lecturers: contents.lecturers,
        projects: contents.projects,
        students: contents.students,
        choices: contents.choices,
        rankings: contents.rankings,
        pairs: contents.pairs,
        earlier_choices: Vec::new(alloc),
        earlier_rankings: Vec::new(alloc),
        earlier_pairs: Vec::new(alloc),
    })
}

/// Combines the rows of the first round and of the second into those of the second's world.
fn after_first(first: WorldRows, phase: Phase, contents: Contents) -> WorldRows
    ensures { result ≡ meant_by.after_first first phase (rows_held contents) }
{
    WorldRows {
        round: Round::Second,
        phase,
        office: first.office,
        lecturers: contents.lecturers,
        projects: contents.projects,
        students: contents.students,
        choices: contents.choices,
        rankings: contents.rankings,
        pairs: contents.pairs,
        earlier_choices: first.choices,
        earlier_rankings: first.rankings,
        earlier_pairs: first.pairs,
    }
}

/// Loads the rows of the second round's world.
fn load_second<S: Alter>(alloc: Global, conn: &mut Connection<S>) -> Result<WorldRows, TableFault>
    ensures { Reads Second S.Store IsDatabase
        (GivesOrFails (λ db. LoadsIn Second db.trees)
        (λ db fault. NumbersDiffer db.trees → Blames fault (HasGoodWorldIn Second db.trees)))
        result conn.old conn.new }
{
    let phase = second_in(alloc, conn)?;
    let first = load_first(alloc, conn, VERSION)?;
    let contents = contents_in(alloc, conn, Round::Second)?;
    Ok(after_first(first, phase, contents))
}

/// Loads the rows of the world that the tables represent.
pub(crate) fn load<S: Alter>(
    alloc: Global,
    conn: &mut Connection<S>,
) -> Result<WorldRows, TableFault>
    ensures { Reads Second S.Store IsDatabase
        (GivesOrFails (λ db. LoadsIn (round_in db.trees) db.trees)
        (λ db fault. NumbersDiffer db.trees → Blames fault (HasGoodWorld db.trees)))
        result conn.old conn.new }
{
    match round_in(alloc, conn)? {
        Round::First => load_first(alloc, conn, VERSION),
        Round::Second => load_second(alloc, conn),
    }
}

/// Loads the entries of the world that the tables represent, without checking the lists. If that
/// world is not sound, it may return `Damaged` or meaningless entries.
pub(crate) fn load_entries<S: Alter>(
    alloc: Global,
    conn: &mut Connection<S>,
) -> Result<Entries, TableFault>
    ensures { Reads Second S.Store IsDatabase
        (Gives (λ db e. Sound (world_of db.trees) → HasEntries e (world_of db.trees)))
        result conn.old conn.new }
{
    let rows = load(alloc, conn)?;
    match Entries::from_rows(alloc, rows) {
        Ok(entries) => Ok(entries),
        Err(fault) => Err(rows_fault_of(fault)),
    }
}
