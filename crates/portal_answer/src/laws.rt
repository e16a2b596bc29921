//! Law: the answer to an instance file is unique.

ghost use Rattle.std.specs.Prelude.{◌≡◌};
ghost use Rattle.portal_answer.specs.Answer.{Text, Output, IsAnswer};
ghost use Rattle.portal_answer.specs.declared.answer.Task.{Task};

/// Law: for each command, the bytes of a file have at most one answer.
pub fn answer_is_one()
    ensures { (task : Task) (bytes : Text) (t u : Output) → IsAnswer task bytes t
        → IsAnswer task bytes u → t ≡ u }
{}
