//! Reads placements of both rounds; tests whether a student takes part in a round.

ghost use Rattle.std.specs.Prelude.{◌≡◌, is_none};
ghost use Rattle.portal_tables.specs.inner.Base.{true, Err, None, IfOk, AllByRecursion, filter_map};
ghost use Rattle.portal_tables.specs.inner.Base.{IsDatabase, IsStudent, First, InSecond};
ghost use Rattle.portal_tables.specs.Reads.{MayRead, Always, GivesOrFails, Blames, Reads};
ghost use Rattle.portal_tables.specs.inner.Shown.{shown_student};
ghost use Rattle.portal_tables.specs.inner.Placements as meant;
ghost use Rattle.portal_tables.specs.Rows.{second_placement};
ghost use Rattle.portal_tables.specs.inner.Placements.{placement_shown, placement_before};
ghost use Rattle.portal_tables.specs.inner.Placements.{result_shown, pair_shown, HasFirstPlace};
ghost use Rattle.portal_tables.specs.inner.Placements.{HasPlacement, HasPlacementAsked, HasPairKeys};
ghost use Rattle.portal_tables.specs.inner.Placements.{HasSecondPlace, first_pair, places_shown};
ghost use Rattle.portal_tables.specs.inner.Placements.{first_pairs};
ghost use Rattle.portal_tables.specs.inner.Rolls.{RollRises};
ghost use Rattle.portal_tables.specs.declared.sql.select.RollTable.TheVariants.{Students};

use crate::fault::TableFault;
use crate::reading::cells::{assigned_at, bytes_at, is_null, key_at};
use crate::reading::decode::{at_most_one, push_some};
use crate::reading::sorted_rolls::read_in_order;
use crate::sql::select::{Query, read_each};
use portal_rules::{Phase, Round};
use spa_rows::Key;
use sqlite::{Alter, Connection, Row};
use std::alloc::Global;

/// Reads the second round's placement of the student with this key.
pub fn second_placement_in<S: Alter>(
    alloc: Global,
    conn: &mut Connection<S>,
    student: &[u8],
) -> Result<Option<Key>, TableFault>
    ensures { Reads InSecond S.Store IsDatabase
        (GivesOrFails (λ db p. p ≡ second_placement db.trees student.now)
        (λ db fault. Blames fault (HasSecondPlace db.trees student.now)))
        result conn.old conn.new }
{
    let names: Vec<Key> = read_each(alloc, conn, Query::SecondPlaceOf(student))?;
    at_most_one(names)
}

/// Returns a round's placement of the student in this row. Fails with `Damaged` if it is not a
/// valid key or the second round has several. Fails with `Store` if the store reports an error, and
/// with `Memory` if memory runs out.
pub(crate) fn placement_in<S: Alter>(
    alloc: Global,
    conn: &mut Connection<S>,
    round: Round,
    row: &Row,
) -> Result<Option<Key>, TableFault>
    ensures { MayRead round S.Store IsDatabase
        (GivesOrFails (λ db p. p ≡ placement_shown round db.trees row.now)
        (λ db fault. Blames fault (HasPlacement round db.trees row.now)))
        result conn.old conn.new }
{
    match round {
        Round::First => assigned_at(alloc, row, 3),
        Round::Second => second_placement_in(alloc, conn, bytes_at(row, 0)),
    }
}

/// Returns the earlier placement of the student in this row, which is `None` in the first round.
fn place_before_at(alloc: Global, round: Round, row: &Row) -> Result<Option<Key>, TableFault>
    ensures ok { IfOk result (λ p. p ≡ placement_before round row.now) }
    ensures damaged { result ≡ Err TableFault.Damaged → HasFirstPlace row.now → ⊥ }
    ensures store { result ≡ Err TableFault.Store → ⊥ }
{
    match round {
        Round::First => Ok(None),
        Round::Second => assigned_at(alloc, row, 3),
    }
}

/// Returns whether the student in this row has no earlier placement, and so takes part.
pub fn takes_part(round: Round, row: &Row) -> bool
    ensures { result ≡ is_none (placement_before round row.now) }
{
    match round {
        Round::First => true,
        Round::Second => is_null(row, 3),
    }
}

/// Returns the placement that the student in this row sees. It is the earlier one, or else the
/// round's own once it is published. Fails like `placement_in`.
pub fn result_in<S: Alter>(
    alloc: Global,
    conn: &mut Connection<S>,
    round: Round,
    phase: Phase,
    row: &Row,
) -> Result<Option<Key>, TableFault>
    ensures { MayRead round S.Store IsDatabase
        (GivesOrFails (λ db p. p ≡ result_shown round db.trees phase row.now)
        (λ db fault. Blames fault (HasFirstPlace row.now × HasPlacement round db.trees row.now)))
        result conn.old conn.new }
{
    if let Some(place) = place_before_at(alloc, round, row)? {
        return Ok(Some(place));
    }
    match phase {
        Phase::Published => placement_in(alloc, conn, round, row),
        Phase::Setup | Phase::Choosing | Phase::Ranking => Ok(None),
    }
}

/// Returns a round's placement of the student in this row, or the one that the student sees. Given
/// a phase, it returns the one that the student sees in that phase.
fn placement_asked<S: Alter>(
    alloc: Global,
    conn: &mut Connection<S>,
    round: Round,
    phase: Option<Phase>,
    row: &Row,
) -> Result<Option<Key>, TableFault>
    ensures { MayRead round S.Store IsDatabase
        (GivesOrFails (λ db p. p ≡ meant.placement_asked round phase db.trees row.now)
        (λ db fault. Blames fault (HasPlacementAsked round phase db.trees row.now)))
        result conn.old conn.new }
{
    match phase {
        Some(phase) => result_in(alloc, conn, round, phase, row),
        None => placement_in(alloc, conn, round, row),
    }
}

/// Returns the key of the student in this row with the placement from `placement_asked`.
fn pair_in<S: Alter>(
    alloc: Global,
    conn: &mut Connection<S>,
    round: Round,
    phase: Option<Phase>,
    row: &Row,
) -> Result<Option<(Key, Key)>, TableFault>
    ensures { MayRead round S.Store IsDatabase
        (GivesOrFails (λ db o. o ≡ pair_shown round phase db.trees row.now)
        (λ db fault. Blames fault (IsStudent (shown_student row.now)
        × HasPlacementAsked round phase db.trees row.now))) result conn.old conn.new }
{
    match placement_asked(alloc, conn, round, phase, row)? {
        Some(project) => Ok(Some((key_at(alloc, row, 0)?, project))),
        None => Ok(None),
    }
}

/// Reads a round's placements as pairs of student and project, in the order of the students' rows.
/// Given a phase, it returns the placements that the students see in that phase. Fails like
/// `placement_in`, and with `Damaged` if a student's key is invalid.
pub fn pairs_in<S: Alter>(
    alloc: Global,
    conn: &mut Connection<S>,
    round: Round,
    phase: Option<Phase>,
    rows: &[Row],
) -> Result<Vec<(Key, Key)>, TableFault>
    ensures { MayRead round S.Store IsDatabase
        (GivesOrFails (λ db v. v.items ≡ filter_map (pair_shown round phase db.trees) rows.now)
        (λ db fault. Blames fault (AllByRecursion (λ c. IsStudent (shown_student c)) rows.now
        × AllByRecursion (HasPlacementAsked round phase db.trees) rows.now)))
        result conn.old conn.new }
{
    let mut pairs = Vec::new(alloc);
    for row in rows {
        let pair = pair_in(alloc, conn, round, phase, row)?;
        push_some(&mut pairs, pair)?;
    }
    Ok(pairs)
}

/// Decodes a row of key and placement into a pair, or `None` without a placement.
fn pair_at(alloc: Global, row: &Row) -> Result<Option<(Key, Key)>, TableFault>
    ensures ok { IfOk result (λ pair. pair ≡ first_pair row.now) }
    ensures damaged { result ≡ Err TableFault.Damaged → HasPairKeys row.now → ⊥ }
    ensures store { result ≡ Err TableFault.Store → ⊥ }
{
    match assigned_at(alloc, row, 1)? {
        Some(project) => Ok(Some((key_at(alloc, row, 0)?, project))),
        None => Ok(None),
    }
}

/// Decodes rows of key and placement into pairs, in order, without the unplaced students.
fn pairs_from(alloc: Global, rows: &[Row]) -> Result<Vec<(Key, Key)>, TableFault>
    ensures ok { IfOk result (λ v. v.items ≡ filter_map first_pair rows.now) }
    ensures damaged { result ≡ Err TableFault.Damaged → AllByRecursion HasPairKeys rows.now → ⊥ }
    ensures store { result ≡ Err TableFault.Store → ⊥ }
{
    let mut pairs = Vec::new(alloc);
    for row in rows {
        let pair = pair_at(alloc, row)?;
        push_some(&mut pairs, pair)?;
    }
    Ok(pairs)
}

/// Reads the first round's result as pairs of student and project, sorted by student. It reads only
/// these two columns. Fails with `Damaged` if the students' keys are not strictly ascending, or a
/// student's or project's key is invalid.
pub fn first_pairs_in<S: Alter>(
    alloc: Global,
    conn: &mut Connection<S>,
) -> Result<Vec<(Key, Key)>, TableFault>
    ensures { Reads First S.Store Always
        (GivesOrFails (λ db v. v.items ≡ first_pairs db.trees)
        (λ db fault. Blames fault (IsDatabase db × RollRises Students db.trees
        × AllByRecursion HasPairKeys (places_shown db.trees)))) result conn.old conn.new }
{
    let rows = read_in_order(alloc, conn, Query::FirstPlacements)?;
    pairs_from(alloc, &rows)
}
