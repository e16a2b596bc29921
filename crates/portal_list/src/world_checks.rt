//! Tests whether a keeper's sound world is good: stable results, and a sound first round.

ghost use Rattle.std.specs.Prelude.{◌≡◌, ◌↔◌, IfOk, IsTrue, true, map, filter, option_map};
ghost use Rattle.spa_model.specs.Pairs.{number_in};
ghost use Rattle.spa_model.specs.Spa.{IsStable};
ghost use Rattle.portal_rules.specs.Good.{Good, Sound, IsRound};
ghost use Rattle.portal_rules.specs.World.{first, first_published, is_second};
ghost use Rattle.portal_list.specs.Rows.{HasSoundFirst};
ghost use Rattle.portal_list.specs.inner.Parts.{IsStableIfPublished, RollsOf};
ghost use Rattle.portal_list.specs.inner.Played.{takes_part};

use crate::copies::{project_rows_of, ranking_copy, student_copy};
use crate::entries::{Entries, LecturerEntry, StudentEntry};
use crate::instance::instance_of;
use crate::keeper::ListKeeper;
use crate::list_checks::lists_fit;
use crate::second_round::takes_part;
use portal_rules::collecting::{try_map, try_map_where};
use portal_rules::{Phase, Round};
use spa_check::is_stable;
use spa_model::{Instance, Matching};
use std::alloc::{AllocError, Global};

/// Returns the number of the student's project in the instance, to test whether the result is
/// stable. If the project is unknown, the number is the count of projects.
fn placement_in(instance: &Instance, student: &StudentEntry) -> Option<usize>
    ensures { result ≡ option_map (number_in instance.now.project_keys) student.now.placed }
{
    match &student.placed {
        Some(project) => Some(instance.project_number(project.as_bytes())),
        None => None,
    }
}

/// Returns the project number, or `None`, of each student who takes part, to test stability.
fn placements_in(
    alloc: Global,
    instance: &Instance,
    round: Round,
    students: &[StudentEntry],
) -> Result<Vec<Option<usize>>, AllocError>
    ensures { IfOk result (λ places. places.items
        ≡ map (λ s. option_map (number_in instance.now.project_keys) s.placed)
        (filter (takes_part round) students.now)) }
{
    try_map_where(
        alloc,
        students,
        |s| takes_part(round, s),
        |s| Ok(placement_in(instance, s)),
    )
}

/// Returns whether the placements in a keeper's world are a stable matching.
fn are_stable(instance: &Instance, places: Vec<Option<usize>>) -> bool
    ensures { IsTrue result ↔ IsStable instance.now places.items }
{
    if !instance.accepts(&places) {
        return false;
    }
    let matching = Matching::of(instance, places);
    is_stable(instance, &matching)
}

/// Copies the lecturer as of the first round's publication, to test that round's result.
fn first_lecturer(alloc: Global, lecturer: &LecturerEntry) -> Result<LecturerEntry, AllocError>
    ensures { IfOk result (λ l. l ≡ first_published lecturer.now) }
{
    Ok(LecturerEntry {
        row: lecturer.row.copy(alloc)?,
        ranking: ranking_copy(alloc, &lecturer.earlier_ranking)?,
        earlier_ranking: None,
    })
}

impl ListKeeper {
    /// Returns whether the result of the current round, if published, is a stable matching.
    fn has_stable_result(&self, alloc: Global) -> Result<bool, AllocError>
        requires { Sound self.now }
        ensures { IfOk result (λ yes. IsTrue yes ↔ IsStableIfPublished self.now) }
    {
        if !self.phase.is_published() {
            return Ok(true);
        }
        let entries = &self.entries;
        let instance = instance_of(alloc, entries)?;
        let places = placements_in(alloc, &instance, entries.round, &entries.students)?;
        Ok(are_stable(&instance, places))
    }

    /// Returns the world in which the first round was published, to test whether it was sound and
    /// stable.
    fn first(&self, alloc: Global) -> Result<ListKeeper, AllocError>
        ensures { IfOk result (λ keeper. keeper ≡ first self.now) }
    {
        Ok(ListKeeper {
            phase: Phase::Published,
            office: self.office.copy(alloc)?,
            entries: Entries {
                round: Round::First,
                lecturers: try_map(alloc, &self.entries.lecturers, |l| first_lecturer(alloc, l))?,
                projects: project_rows_of(alloc, &self.entries.projects)?,
                students: try_map(alloc, &self.entries.students, |s| {
                    student_copy(
                        alloc,
                        &s.row,
                        &s.earlier_choice,
                        s.earlier_placement.as_ref(),
                    )
                })?,
            },
            catalogue: None,
        })
    }

    /// Returns whether a world with valid rolls is sound.
    pub(crate) fn is_sound(&self, alloc: Global) -> Result<bool, AllocError>
        requires { RollsOf self.now }
        ensures { IfOk result (λ yes. IsTrue yes ↔ Sound self.now) }
    {
        lists_fit(alloc, self.phase, &self.entries)
    }

    /// Returns whether the published first round is sound, or `true` in the first round.
    pub(crate) fn has_sound_first(&self, alloc: Global) -> Result<bool, AllocError>
        requires { Sound self.now }
        ensures { IfOk result (λ yes. IsTrue yes ↔ HasSoundFirst self.now) }
    {
        match self.entries.round {
            Round::First => Ok(true),
            Round::Second => {
                let first = self.first(alloc)?;
                first.is_sound(alloc)
            }
        }
    }

    /// Returns whether a world with valid rolls is sound, and its result, if published, stable.
    fn is_round(&self, alloc: Global) -> Result<bool, AllocError>
        requires { RollsOf self.now }
        ensures { IfOk result (λ yes. IsTrue yes ↔ IsRound self.now) }
    {
        if !self.is_sound(alloc)? {
            return Ok(false);
        }
        self.has_stable_result(alloc)
    }

    /// Returns whether the published first round is sound and stable, or `true` in the first round.
    fn is_before_good(&self, alloc: Global) -> Result<bool, AllocError>
        requires { Sound self.now }
        ensures { IfOk result (λ yes. IsTrue yes
            ↔ (is_second self.now.round ≡ true → IsRound (first self.now))) }
    {
        match self.entries.round {
            Round::First => Ok(true),
            Round::Second => {
                let first = self.first(alloc)?;
                first.is_round(alloc)
            }
        }
    }

    /// Returns whether this sound world is good. Its result, if published, must be stable; in the
    /// second round the first round as published must be sound and stable.
    pub fn is_good(&self, alloc: Global) -> Result<bool, AllocError>
        requires { Sound self.now }
        ensures { IfOk result (λ good. IsTrue good ↔ Good self.now) }
    {
        if !self.has_stable_result(alloc)? {
            return Ok(false);
        }
        self.is_before_good(alloc)
    }
}
