//! Finds the projects that a student prefers to the assigned project, and the first student who
//! gets a better project in the second of two matchings.

ghost use Rattle.std.specs.Prelude.{◌≡◌, ◌<◌, ◌↔◌, ℕ, Contains, IsTrue, MatchOption, length};
ghost use Rattle.spa_model.specs.Spa.{IsLawful, IsMatching, Wants, place};
ghost use Rattle.spa_check.specs.Listed.{IsBetterOff, IsFirstBetterOff};
ghost use Rattle.spa_check.specs.inner.Groups.{not_below, IsLeastIn};

use spa_model::{Instance, Matching};

/// Returns how many projects on the list the student prefers to `x`: all if `x` is not on it.
pub(crate) fn place_in(list: &[usize], x: usize) -> usize
    ensures { result ≡ place list.now x }
{
    match list.iter().position(|y| *y == x) {
        Some(k) => k,
        None => list.len(),
    }
}

/// Returns the projects that the student prefers to the assigned one; all if none is assigned.
pub(crate) fn wanted_projects<'a>(
    instance: &'a Instance,
    matching: &Matching,
    s: usize,
) -> &'a [usize]
    requires fits { IsMatching instance.now matching.now }
    requires in_range { s < length instance.now.choices }
    ensures each { (p : ℕ) → Contains result.now p ↔ Wants instance.now matching.now s p }
    ensures lawful { IsLawful instance.now }
{
    let list = instance.choices(s);
    match instance.project_of(matching, s) {
        Some(own) => &list[..place_in(list, own)],
        None => list,
    }
}

/// Returns the smallest index, at least `from`, among the projects that the student prefers, if
/// any.
pub(crate) fn least_from(list: &[usize], from: usize) -> Option<usize>
    ensures { MatchOption result (length (not_below from list.now)
        ≡ 0) (IsLeastIn (not_below from list.now)) }
{
    list.iter().copied().filter(|p| *p >= from).min()
}

/// Returns whether the matching `other` gives the student a better project, or one instead of none.
fn is_better_off(instance: &Instance, matching: &Matching, other: &Matching, s: usize) -> bool
    requires fits { IsMatching instance.now matching.now }
    requires other_fits { IsMatching instance.now other.now }
    requires in_range { s < length instance.now.choices }
    ensures { IsTrue result ↔ IsBetterOff instance.now matching.now other.now s }
{
    match instance.project_of(other, s) {
        Some(p) => wanted_projects(instance, matching, s).contains(&p),
        None => false,
    }
}

/// Finds the first student to whom the matching `other` gives a better project, or one instead of
/// none.
pub fn better_off(instance: &Instance, matching: &Matching, other: &Matching) -> Option<usize>
    requires fits { IsMatching instance.now matching.now }
    requires other_fits { IsMatching instance.now other.now }
    ensures { MatchOption result ((s : ℕ) → IsBetterOff instance.now matching.now other.now s → ⊥)
        (IsFirstBetterOff instance.now matching.now other.now) }
{
    (0..instance.students()).find(|s| is_better_off(instance, matching, other, *s))
}
