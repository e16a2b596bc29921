//! Finds all blocking pairs and their letters, using the module `groups`.

ghost use Rattle.std.specs.Prelude.{◌≡◌, ◌+◌, ◌<◌, All, IfOk, OnOk, MatchOption, length};
ghost use Rattle.spa_model.specs.declared.letter.Letter.{Letter};
ghost use Rattle.spa_model.specs.Spa.{IsMatching, Blocks, Wants};
ghost use Rattle.spa_check.specs.Listed.{AreAllBlocks};
ghost use Rattle.spa_check.specs.inner.Groups.{AreBlocksBefore, AreProjectGroups};
ghost use Rattle.spa_check.specs.inner.Groups.{AreLecturerGroups};

use crate::groups::{Group, depth_of, lecturer_groups, project_groups};
use crate::stable::is_with;
use crate::wants::{least_from, wanted_projects};
use spa_model::{Instance, Letter, Matching};
use std::alloc::{AllocError, Global};

/// A student and a project that block a matching, and the letter of their case.
#[derive(Clone, Copy, Debug, PartialEq, Eq)]
pub struct Block {
    pub student: usize,
    pub project: usize,
    pub letter: Letter,
}

/// Returns the letter of the pair if it blocks the matching, using the groups' counts and worst
/// ranks. The student has to want the project.
fn letter_of(
    instance: &Instance,
    matching: &Matching,
    projects: &[Group],
    lecturers: &[Group],
    s: usize,
    p: usize,
) -> Option<Letter>
    requires fits { IsMatching instance.now matching.now }
    requires projects { AreProjectGroups instance.now matching.now projects.now }
    requires lecturers { AreLecturerGroups instance.now matching.now lecturers.now }
    requires student { s < length instance.now.choices }
    requires project { p < length instance.now.lecturers }
    requires wants { Wants instance.now matching.now s p }
    ensures { MatchOption result ((x : Letter) → Blocks instance.now matching.now s p x → ⊥)
        (λ x. Blocks instance.now matching.now s p x) }
{
    let l = instance.lecturer_of(p);
    let depth = depth_of(instance, l, s);
    if projects[p].count < instance.project_capacity(p) as usize {
        if lecturers[l].count < instance.lecturer_capacity(l) as usize {
            Some(Letter::A)
        } else if is_with(instance, matching, l, s) || depth < lecturers[l].depth {
            Some(Letter::B)
        } else {
            None
        }
    } else if depth < projects[p].depth {
        Some(Letter::C)
    } else {
        None
    }
}

/// Appends this student's blocking pairs to the list of all, sorted by project.
fn add_blocks(
    instance: &Instance,
    matching: &Matching,
    projects: &[Group],
    lecturers: &[Group],
    s: usize,
    blocks: &mut Vec<Block>,
) -> Result<(), AllocError>
    requires fits { IsMatching instance.now matching.now }
    requires projects { AreProjectGroups instance.now matching.now projects.now }
    requires lecturers { AreLecturerGroups instance.now matching.now lecturers.now }
    requires student { s < length instance.now.choices }
    requires before { AreBlocksBefore instance.now matching.now s 0 blocks.old.items }
    ensures { OnOk result (AreBlocksBefore instance.now matching.now (s + 1) 0 blocks.new.items) }
{
    let list = wanted_projects(instance, matching, s);
    let mut next = 0;
    while let Some(p) = least_from(list, next) {
        if let Some(letter) = letter_of(instance, matching, projects, lecturers, s, p) {
            blocks.push(Block {
                student: s,
                project: p,
                letter,
            })?;
        }
        next = p + 1;
    }
    Ok(())
}

/// Returns exactly the blocking pairs, each with its only letter (law `one_letter`), sorted by
/// student, then by project.
pub fn blocking_pairs(
    alloc: Global,
    instance: &Instance,
    matching: &Matching,
) -> Result<Vec<Block>, AllocError>
    requires { IsMatching instance.now matching.now }
    ensures blocks { IfOk result (λ blocks. AreAllBlocks instance.now matching.now blocks.items) }
    ensures in_range { IfOk result (λ blocks. All (λ b. (b.student < length instance.now.choices)
        × (b.project < length instance.now.lecturers)) blocks.items) }
{
    let projects = project_groups(alloc, instance, matching)?;
    let lecturers = lecturer_groups(alloc, instance, matching)?;
    let mut blocks = Vec::new(alloc);
    for s in 0..instance.students() {
        add_blocks(instance, matching, &projects, &lecturers, s, &mut blocks)?;
    }
    Ok(blocks)
}
