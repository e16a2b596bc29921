//! Finds in the entries the placements that callers may see in a phase.

ghost use Rattle.std.specs.Prelude.{◌≡◌, IfOk, option_map};
ghost use Rattle.portal_rules.specs.World.{shown_placement, pairs_with};

use crate::copies::pair_copy;
use crate::entries::StudentEntry;
use portal_rules::Phase;
use portal_rules::collecting::try_filter_map;
use spa_rows::Key;
use std::alloc::{AllocError, Global};

/// Returns the placement in a student's entry that the phase shows. It is that of the first round,
/// or else this round's once it is published.
pub(super) fn placement_shown(phase: Phase, student: &StudentEntry) -> Option<&Key>
    ensures { option_map (λ k. k.now) result ≡ shown_placement phase student.now }
{
    if student.earlier_placement.is_some() {
        return student.earlier_placement.as_ref();
    }
    match phase {
        Phase::Published => student.placed.as_ref(),
        Phase::Setup | Phase::Choosing | Phase::Ranking => None,
    }
}

/// Returns the placements in the entries that the phase shows, as pairs of student and project.
pub(super) fn pairs_of(
    alloc: Global,
    phase: Phase,
    students: &[StudentEntry],
) -> Result<Vec<(Key, Key)>, AllocError>
    ensures { IfOk result (λ v. v.items ≡ pairs_with (shown_placement phase) students.now) }
{
    try_filter_map(alloc, students, |s| {
        pair_copy(alloc, &s.row.key, placement_shown(phase, s))
    })
}
