//! The refusals of rows to be added to a roll.

ghost use Rattle.std.specs.Prelude.{◌≡◌};
ghost use Rattle.portal_rules.specs.Faults as rolls;

use std::marker::Model;

/// A refusal: the status, the error word, and the row's number if the fault has one.
#[derive(Drop)]
pub(crate) struct RollRefusal {
    pub(crate) status: u16,
    pub(crate) word: &'static str,
    pub(crate) row: Option<u64>,
}

impl Model for RollRefusal {
    ghost use Rattle.portal_rules.specs.Faults as rolls;

    ghost Value = { rolls.RollRefusal };

    ghost view = { λ f. record { status = f.status; word = f.word.now; row = f.row } };
}

/// Returns the refusal of a row whose key is present with other fields, or whose code is in use.
pub(crate) fn conflict_at(row: u64) -> RollRefusal
    ensures { result ≡ rolls.conflict_at row }
{
    RollRefusal {
        status: 409,
        word: "roll_conflict",
        row: Some(row),
    }
}

/// Returns the refusal of a project to be added whose lecturer is not on the roll.
pub(crate) fn bad_row_at(row: u64) -> RollRefusal
    ensures { result ≡ rolls.bad_row_at row }
{
    RollRefusal {
        status: 422,
        word: "bad_row",
        row: Some(row),
    }
}

/// Returns the refusal of rows to be added that exceed the limit of the roll.
pub(crate) fn roll_full() -> RollRefusal
    ensures { result ≡ rolls.roll_full }
{
    RollRefusal {
        status: 422,
        word: "roll_full",
        row: None,
    }
}
