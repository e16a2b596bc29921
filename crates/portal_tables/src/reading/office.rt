//! Reads the office's row and the second round's, and converts phases to numbers and back.

ghost use Rattle.std.specs.Prelude.{◌≡◌, ◌↔◌, ◌∷◌};
ghost use Rattle.portal_tables.specs.inner.Base.{[], pos, true, Err, IfOk, IfSome, IfNone, IsTrue};
ghost use Rattle.portal_tables.specs.inner.Base.{List, ℕ, Int, Cells, column, is_code};
ghost use Rattle.portal_tables.specs.inner.Base.{ThePhase, First, InSecond, IsDatabase};
ghost use Rattle.portal_tables.specs.Tables.{portal_tree, second_tree};
ghost use Rattle.portal_tables.specs.Reads.{Always, GivesOrFails, Blames, Reads};
ghost use Rattle.portal_tables.specs.Rows.{portal_row, second_row, number_of_phase, HasOffice};
ghost use Rattle.portal_tables.specs.inner.RowChanges.{IsOffice, IsSecond};

use crate::fault::TableFault;
use crate::reading::cells::code_at;
use crate::sql::select::{Query, read_rows};
use portal_rules::{Code, Phase};
use sqlite::types::ValueRef;
use sqlite::{Alter, Connection, Row};
use std::alloc::Global;

/// The schema version with all eleven tables, as stored in the row of `portal`.
pub const VERSION: u32 = 2;

/// The schema version with only the six tables of the first round.
pub const FIRST_VERSION: u32 = 1;

/// The content of the office's row.
#[derive(Drop)]
pub struct Office {
    /// The phase of the round.
    pub phase: Phase,
    /// The code that identifies the office.
    pub code: Code,
}

/// Returns whether the cell holds this integer, such as the version in the office's row.
pub fn is_number(row: &Row, at: usize, number: u32) -> bool
    ensures { IsTrue result ↔ (column row.now at ≡ Int (pos number)) }
{
    match row.get_ref(at) {
        Ok(ValueRef::Int(found)) => found == i64::from(number),
        _ => false,
    }
}

/// Returns the number that represents a phase in a table.
pub(crate) fn phase_number(phase: Phase) -> u32
    ensures { result ≡ number_of_phase phase }
{
    match phase {
        Phase::Setup => 0,
        Phase::Choosing => 1,
        Phase::Ranking => 2,
        Phase::Published => 3,
    }
}

/// Returns the phase that the number in a cell represents, or `None` for any other value.
pub(crate) fn phase_at(row: &Row, at: usize) -> Option<Phase>
    ensures some { IfSome result (λ phase. column row.now at ≡ Int (pos (number_of_phase phase))) }
    ensures none { IfNone result
        ((phase : ThePhase) → column row.now at ≡ Int (pos (number_of_phase phase)) → ⊥) }
{
    match row.get_ref(at) {
        Ok(ValueRef::Int(0)) => Some(Phase::Setup),
        Ok(ValueRef::Int(1)) => Some(Phase::Choosing),
        Ok(ValueRef::Int(2)) => Some(Phase::Ranking),
        Ok(ValueRef::Int(3)) => Some(Phase::Published),
        _ => None,
    }
}

/// Decodes the only row of the office's table. Fails with `Damaged` unless there is exactly one
/// row, with id 1, this version, a phase and a code.
fn office_from(alloc: Global, rows: &[Row], version: u32) -> Result<Office, TableFault>
    ensures ok { IfOk result (λ office. (row : Cells) × (rows.now ≡ row ∷ [])
        × IsOffice version office.phase office.code row) }
    ensures damaged { result ≡ Err TableFault.Damaged
        → (row : Cells) (phase : ThePhase) (code : List ℕ) → rows.now ≡ row ∷ []
        → IsOffice version phase code row → is_code code ≡ true → ⊥ }
    ensures store { result ≡ Err TableFault.Store → ⊥ }
{
    let [row] = rows else {
        return Err(TableFault::Damaged);
    };
    if !is_number(row, 0, 1) || !is_number(row, 1, version) {
        return Err(TableFault::Damaged);
    }
    let Some(phase) = phase_at(row, 2) else {
        return Err(TableFault::Damaged);
    };
    let Ok(ValueRef::Text(_)) = row.get_ref(3) else {
        return Err(TableFault::Damaged);
    };
    let code = code_at(alloc, row, 3)?;
    Ok(Office { phase, code })
}

/// Reads the office's row. Fails with `Damaged` unless it is the only row, valid and of this
/// version. Fails with `Store` or `Memory` if the query does.
pub fn office_in<S: Alter>(
    alloc: Global,
    conn: &mut Connection<S>,
    version: u32,
) -> Result<Office, TableFault>
    ensures { Reads First S.Store Always
        (GivesOrFails (λ db office. IsDatabase db → db.trees portal_tree
        ≡ portal_row (pos version) (pos (number_of_phase office.phase)) office.code ∷ [])
        (λ db fault. (office : HasOffice version (db.trees portal_tree))
        → Blames fault (is_code office.office ≡ true))) result conn.old conn.new }
{
    let rows = read_rows(alloc, conn, Query::Office)?;
    office_from(alloc, &rows, version)
}

/// Decodes the second round's phase from the only row of its table, or fails with `Damaged`.
fn second_from(rows: &[Row]) -> Result<Phase, TableFault>
    ensures ok { IfOk result (λ phase. IsSecond phase rows.now) }
    ensures damaged { result ≡ Err TableFault.Damaged
        → (phase : ThePhase) → IsSecond phase rows.now → ⊥ }
    ensures store { result ≡ Err TableFault.Store → ⊥ }
{
    let [row] = rows else {
        return Err(TableFault::Damaged);
    };
    if !is_number(row, 0, 1) {
        return Err(TableFault::Damaged);
    }
    phase_at(row, 1).ok_or(TableFault::Damaged)
}

/// Reads the phase of the second round, which is setup if there is no second round. Fails with
/// `Damaged` unless the table has exactly one row, with id 1 and a phase. Fails with `Store` if the
/// store reports an error, and with `Memory` if memory runs out.
pub fn second_in<S: Alter>(alloc: Global, conn: &mut Connection<S>) -> Result<Phase, TableFault>
    ensures { Reads InSecond S.Store Always
        (GivesOrFails (λ db phase. IsDatabase db
        → db.trees second_tree ≡ second_row (pos (number_of_phase phase)) ∷ [])
        (λ db fault. (phase : ThePhase) → Blames fault
        (db.trees second_tree ≡ second_row (pos (number_of_phase phase)) ∷ [])))
        result conn.old conn.new }
{
    let rows = read_rows(alloc, conn, Query::Second)?;
    second_from(&rows)
}
