//! Tests whether a matching is stable, without allocating memory.

ghost use Rattle.std.specs.Prelude.{◌≡◌, ◌<◌, ◌↔◌, ◌⊎◌, ℕ, IsTrue, MatchOption, length};
ghost use Rattle.spa_model.specs.declared.letter.Letter.{Letter};
ghost use Rattle.spa_model.specs.Spa.{IsMatching, Blocks, Wants, SomeWorseAt, SomeWorseWith};
ghost use Rattle.spa_model.specs.Spa.{IsWith, IsStable, is_lecturer, project_of, lecturer_of};

use crate::wants::wanted_projects;
use spa_model::{Instance, Letter, Matching};

/// Returns whether the student has a project of the lecturer, to test whether the matching is
/// stable.
pub(crate) fn is_with(instance: &Instance, matching: &Matching, l: usize, s: usize) -> bool
    requires fits { IsMatching instance.now matching.now }
    requires in_range { s < length instance.now.choices }
    ensures counted { result ≡ is_lecturer instance.now l (project_of matching.now s) }
    ensures cases { IsTrue result ↔ IsWith instance.now matching.now l s }
{
    match instance.project_of(matching, s) {
        Some(q) => instance.lecturer_of(q) == l,
        None => false,
    }
}

/// Returns whether a student at the project is ranked below `s`, without allocating memory.
fn has_worse_at(instance: &Instance, matching: &Matching, p: usize, s: usize) -> bool
    requires fits { IsMatching instance.now matching.now }
    requires project { p < length instance.now.lecturers }
    requires student { s < length instance.now.choices }
    ensures { IsTrue result ↔ SomeWorseAt instance.now matching.now p s }
{
    let l = instance.lecturer_of(p);
    for t in 0..instance.students() {
        if let Some(q) = instance.project_of(matching, t) {
            if q == p && instance.prefers(l, s, t) {
                return true;
            }
        }
    }
    false
}

/// Returns whether a student of the lecturer is ranked below `s`, without allocating memory.
fn has_worse_with(instance: &Instance, matching: &Matching, l: usize, s: usize) -> bool
    requires fits { IsMatching instance.now matching.now }
    requires lecturer { l < length instance.now.rankings }
    requires student { s < length instance.now.choices }
    ensures { IsTrue result ↔ SomeWorseWith instance.now matching.now l s }
{
    for t in 0..instance.students() {
        if is_with(instance, matching, l, t) && instance.prefers(l, s, t) {
            return true;
        }
    }
    false
}

/// Returns whether the lecturer has `s`, or a student ranked below `s`, without allocating memory.
fn may_replace(instance: &Instance, matching: &Matching, l: usize, s: usize) -> bool
    requires fits { IsMatching instance.now matching.now }
    requires lecturer { l < length instance.now.rankings }
    requires student { s < length instance.now.choices }
    ensures { IsTrue result ↔ (IsWith instance.now matching.now l s
        ⊎ SomeWorseWith instance.now matching.now l s) }
{
    is_with(instance, matching, l, s) || has_worse_with(instance, matching, l, s)
}

/// Returns the letter of the pair if it blocks the matching, without allocating memory. The student
/// has to want the project.
pub(crate) fn letter_of(
    instance: &Instance,
    matching: &Matching,
    s: usize,
    p: usize,
) -> Option<Letter>
    requires fits { IsMatching instance.now matching.now }
    requires student { s < length instance.now.choices }
    requires project { p < length instance.now.lecturers }
    requires wants { Wants instance.now matching.now s p }
    ensures { MatchOption result ((x : Letter) → Blocks instance.now matching.now s p x → ⊥)
        (λ x. Blocks instance.now matching.now s p x) }
{
    let l = instance.lecturer_of(p);
    if instance.students_at(matching, p) < instance.project_capacity(p) as usize {
        if instance.students_with(matching, l) < instance.lecturer_capacity(l) as usize {
            Some(Letter::A)
        } else if may_replace(instance, matching, l, s) {
            Some(Letter::B)
        } else {
            None
        }
    } else if has_worse_at(instance, matching, p, s) {
        Some(Letter::C)
    } else {
        None
    }
}

/// Returns whether the student is in no blocking pair, to test whether the matching is stable.
fn is_content(instance: &Instance, matching: &Matching, s: usize) -> bool
    requires fits { IsMatching instance.now matching.now }
    requires in_range { s < length instance.now.choices }
    ensures { IsTrue result ↔ ((p : ℕ) (x : Letter) → Blocks instance.now matching.now s p x → ⊥) }
{
    for p in wanted_projects(instance, matching, s) {
        if letter_of(instance, matching, s, *p).is_some() {
            return false;
        }
    }
    true
}

/// Returns whether the matching has no blocking pair.
pub fn is_stable(instance: &Instance, matching: &Matching) -> bool
    requires { IsMatching instance.now matching.now }
    ensures { IsTrue result ↔ IsStable instance.now matching.now }
{
    for s in 0..instance.students() {
        if !is_content(instance, matching, s) {
            return false;
        }
    }
    true
}
