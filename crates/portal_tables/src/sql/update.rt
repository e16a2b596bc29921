//! Sets a round's phase or the version, and records that a lecturer has a ranking.

ghost use Rattle.std.specs.Prelude.{◌≡◌};
ghost use Rattle.portal_tables.specs.Rows.{number_of_phase};
ghost use Rattle.portal_tables.specs.inner.Texts as texts;
ghost use Rattle.portal_tables.specs.Running.{Does, Made};
ghost use Rattle.portal_tables.specs.inner.RowChanges.{IsOfVersion, MovesTo, MarksRanked};
ghost use Rattle.portal_tables.specs.inner.Putting.{RanksSecond};

use crate::reading::office::phase_number;
use crate::sql::run::write;
use portal_rules::{Phase, Round};
use sqlite::types::{ToSql, ValueRef};
use sqlite::{Alter, Error, Transaction};

/// Returns the statement that sets a round's phase.
fn phase_text(round: Round) -> &'static str
    ensures { result.now ≡ texts.phase_text round }
{
    match round {
        Round::First => "UPDATE portal SET phase = ?1 WHERE id = 1",
        Round::Second => "UPDATE second SET phase = ?1 WHERE id = 1",
    }
}

/// Writes a round's phase into the row of `portal`, or for the second round into that of `second`,
/// where the phase `Setup` means that there is no second round.
pub fn set_phase<S: Alter>(
    tx: &mut Transaction<'_, S>,
    round: Round,
    phase: Phase,
) -> Result<(), Error>
    ensures { Does S.Store (Made (MovesTo round (number_of_phase phase))) result tx.old tx.new }
{
    write(tx, phase_text(round), &[phase_number(phase).to_sql()])
}

/// Writes the version into the row of `portal`.
pub(crate) fn set_version<S: Alter>(tx: &mut Transaction<'_, S>, version: u32) -> Result<(), Error>
    ensures { Does S.Store (Made (IsOfVersion version)) result tx.old tx.new }
{
    write(
        tx,
        "UPDATE portal SET version = ?1 WHERE id = 1",
        &[version.to_sql()],
    )
}

/// Records that a lecturer has a ranking in the first round, by a flag in the row.
pub fn set_ranked<S: Alter>(tx: &mut Transaction<'_, S>, lecturer: &[u8]) -> Result<(), Error>
    ensures { Does S.Store (Made (MarksRanked lecturer.now)) result tx.old tx.new }
{
    write(
        tx,
        "UPDATE lecturer SET ranked = 1 WHERE key = ?1",
        &[ValueRef::Text(lecturer)],
    )
}

/// Records that a lecturer has a ranking in the second round.
pub fn rank_second<S: Alter>(tx: &mut Transaction<'_, S>, lecturer: &[u8]) -> Result<(), Error>
    ensures { Does S.Store (Made (RanksSecond lecturer.now)) result tx.old tx.new }
{
    write(
        tx,
        "DELETE FROM ranked2 WHERE lecturer = ?1",
        &[ValueRef::Text(lecturer)],
    )?;
    write(
        tx,
        "INSERT INTO ranked2 (lecturer) VALUES (?1)",
        &[ValueRef::Text(lecturer)],
    )
}
