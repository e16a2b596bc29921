//! Tests whether lists, rankings and results obey the rules; finds a lecturer's applicants.

ghost use Rattle.std.specs.Prelude.{◌≡◌, ◌↔◌, IfOk, IsTrue, true, map, option_map};
ghost use Rattle.std.specs.List.{AllByRecursion};
ghost use Rattle.portal_rules.specs.Words.{has, Rise};
ghost use Rattle.portal_rules.specs.World.{project_key, student_key};
ghost use Rattle.portal_rules.specs.Good.{IsChoice, IsRanking};
ghost use Rattle.portal_list.specs.inner.Parts.{HasNothingEarlier, IsOutIfPlaced, StudentFits};
ghost use Rattle.portal_list.specs.inner.Parts.{LecturerFits, EntriesFit, HasChoices, HasRanking};
ghost use Rattle.portal_list.specs.inner.Parts.{applicant_keys, ListsFit};

use crate::applicant_index::ApplicantIndex;
use crate::entries::{Entries, LecturerEntry, StudentEntry};
use crate::keys::{is_known, keys_are_distinct};
use crate::second_round::entries_in_play;
use portal_rules::{Keyed, Phase, ProjectRow, Round, own_keys};
use spa_rows::Key;
use spa_rows::limits::LONGEST_CHOICE;
use std::alloc::{AllocError, Global};

/// Returns whether the student has no earlier list and no earlier placement, as the first round
/// requires.
fn has_nothing_earlier(student: &StudentEntry) -> bool
    ensures { IsTrue result ↔ HasNothingEarlier student.now }
{
    student.earlier_choice.is_empty() && student.earlier_placement.is_none()
}

/// Returns whether the student, if placed in the first round, has no list and no placement in the
/// current round.
fn is_out_if_placed(student: &StudentEntry) -> bool
    ensures { IsTrue result ↔ IsOutIfPlaced student.now }
{
    student.earlier_placement.is_none() || (student.choice.is_empty() && student.placed.is_none())
}

/// Returns whether the student has a list or a placement only where the phase and the round allow
/// it.
fn student_fits(phase: Phase, round: Round, student: &StudentEntry) -> bool
    ensures { IsTrue result ↔ StudentFits phase round student.now }
{
    (phase != Phase::Setup || student.choice.is_empty())
        && (phase.is_published() || student.placed.is_none())
        && (round == Round::Second || has_nothing_earlier(student))
        && is_out_if_placed(student)
}

/// Returns whether the lecturer has a ranking only where the phase and the round allow it.
fn lecturer_fits(phase: Phase, round: Round, lecturer: &LecturerEntry) -> bool
    ensures { IsTrue result ↔ LecturerFits phase round lecturer.now }
{
    (phase.is_from_ranking() || lecturer.ranking.is_none())
        && (round == Round::Second || lecturer.earlier_ranking.is_none())
}

/// Returns whether every student has a list or a placement only where the phase and the round allow
/// it.
fn students_fit(phase: Phase, round: Round, students: &[StudentEntry]) -> bool
    ensures { IsTrue result ↔ AllByRecursion (StudentFits phase round) students.now }
{
    students.iter().all(|s| student_fits(phase, round, s))
}

/// Returns whether every lecturer has a ranking only where the phase and the round allow it.
fn lecturers_fit(phase: Phase, round: Round, lecturers: &[LecturerEntry]) -> bool
    ensures { IsTrue result ↔ AllByRecursion (LecturerFits phase round) lecturers.now }
{
    lecturers.iter().all(|l| lecturer_fits(phase, round, l))
}

/// Returns whether lists, rankings and placements exist only where the phase and the round allow it.
fn entries_fit(phase: Phase, entries: &Entries) -> bool
    ensures { IsTrue result ↔ EntriesFit phase entries.now }
{
    (entries.round == Round::First || phase != Phase::Setup)
        && students_fit(phase, entries.round, &entries.students)
        && lecturers_fit(phase, entries.round, &entries.lecturers)
}

/// Returns whether every key is that of one of the rows, whose keys rise.
fn are_known<K: Keyed>(rows: &[K], keys: &[Key]) -> bool
    requires { Rise (map K.key_of rows.now) }
    ensures { IsTrue result ↔ AllByRecursion (λ k. has (map K.key_of rows.now) k ≡ true) keys.now }
{
    keys.iter().all(|key| is_known(rows, key))
}

/// Returns whether a stored list obeys the rules: at most 20 keys, all of projects, all distinct.
fn is_choice(alloc: Global, projects: &[ProjectRow], choice: &[Key]) -> Result<bool, AllocError>
    requires { Rise (map project_key projects.now) }
    ensures { IfOk result (λ yes. IsTrue yes ↔ IsChoice (map project_key projects.now) choice.now) }
{
    if choice.len() > LONGEST_CHOICE {
        return Ok(false);
    }
    if !are_known(projects, choice) {
        return Ok(false);
    }
    keys_are_distinct(alloc, choice)
}

/// Returns whether each student's stored list obeys the rules, given these projects.
fn choices_fit(
    alloc: Global,
    projects: &[ProjectRow],
    students: &[StudentEntry],
) -> Result<bool, AllocError>
    requires { Rise (map project_key projects.now) }
    ensures { IfOk result (λ yes. IsTrue yes
        ↔ AllByRecursion (λ s. IsChoice (map project_key projects.now) s.choice) students.now) }
{
    for student in students {
        if !is_choice(alloc, projects, &student.choice)? {
            return Ok(false);
        }
    }
    Ok(true)
}

/// Returns whether each list is valid for the projects that take part in the round.
fn choices_in_play_fit(alloc: Global, entries: &Entries) -> Result<bool, AllocError>
    requires { Rise (map project_key entries.now.projects) }
    ensures { IfOk result (λ yes. IsTrue yes ↔ HasChoices entries.now) }
{
    match entries.round {
        Round::First => choices_fit(alloc, &entries.projects, &entries.students),
        Round::Second => {
            let left = entries_in_play(alloc, entries)?;
            choices_fit(alloc, &left.projects, &entries.students)
        }
    }
}

/// Finds the applicants whom the lecturer's ranking must contain, and returns their keys.
pub(crate) fn applicants<'a>(
    alloc: Global,
    projects: &[ProjectRow],
    wanted: &ApplicantIndex<'a>,
    lecturer: &Key,
) -> Result<Vec<&'a Key>, AllocError>
    ensures { IfOk result (λ keys. map (λ k. k.now) keys.items
        ≡ applicant_keys projects.now wanted.now lecturer.now) }
{
    let own = own_keys(alloc, projects, lecturer)?;
    wanted.wanting(alloc, &own)
}

/// Returns whether a stored ranking obeys the rules: each applicant once, and nobody else.
fn is_ranking(alloc: Global, applicants: &[&Key], ranking: &[Key]) -> Result<bool, AllocError>
    requires { Rise (map (λ k. k.now) applicants.now) }
    ensures { IfOk result (λ yes. IsTrue yes
        ↔ IsRanking (map (λ k. k.now) applicants.now) ranking.now) }
{
    if ranking.len() != applicants.len() {
        return Ok(false);
    }
    if !are_known(applicants, ranking) {
        return Ok(false);
    }
    keys_are_distinct(alloc, ranking)
}

/// Returns whether a lecturer's stored ranking, if there is one, ranks exactly the applicants. If a
/// ranking is required (`asked`), it may be missing only if there are no applicants.
fn is_ranked(
    alloc: Global,
    asked: bool,
    applicants: &[&Key],
    ranking: &Option<Vec<Key>>,
) -> Result<bool, AllocError>
    requires { Rise (map (λ k. k.now) applicants.now) }
    ensures { IfOk result (λ yes. IsTrue yes
        ↔ HasRanking asked (map (λ k. k.now) applicants.now)
        (option_map (λ r. r.items) ranking.now)) }
{
    match ranking {
        Some(ranking) => is_ranking(alloc, applicants, ranking),
        None => Ok(!asked || applicants.is_empty()),
    }
}

/// Returns whether the lecturer's stored ranking obeys the rules of `is_ranked`. It finds the
/// applicants only if the answer depends on them.
fn ranking_fits(
    alloc: Global,
    asked: bool,
    projects: &[ProjectRow],
    wanted: &ApplicantIndex<'_>,
    lecturer: &LecturerEntry,
) -> Result<bool, AllocError>
    requires { Rise (map student_key wanted.now) }
    ensures { IfOk result (λ yes. IsTrue yes
        ↔ HasRanking asked
        (applicant_keys projects.now wanted.now lecturer.now.row.key) lecturer.now.ranking) }
{
    if !asked && lecturer.ranking.is_none() {
        return Ok(true);
    }
    let applicants = applicants(alloc, projects, wanted, &lecturer.row.key)?;
    is_ranked(alloc, asked, &applicants, &lecturer.ranking)
}

/// Returns whether every lecturer's stored ranking obeys the rules of `is_ranked`.
fn rankings_fit(
    alloc: Global,
    asked: bool,
    lecturers: &[LecturerEntry],
    projects: &[ProjectRow],
    students: &[StudentEntry],
) -> Result<bool, AllocError>
    requires { Rise (map student_key students.now) }
    ensures { IfOk result (λ yes. IsTrue yes
        ↔ AllByRecursion
        (λ l. HasRanking asked
        (applicant_keys projects.now students.now l.row.key) l.ranking) lecturers.now) }
{
    let wanted = ApplicantIndex::of(alloc, students)?;
    for lecturer in lecturers {
        if !ranking_fits(alloc, asked, projects, &wanted, lecturer)? {
            return Ok(false);
        }
    }
    Ok(true)
}

/// Returns whether lists, rankings and placements obey the rules of a sound world.
pub(crate) fn lists_fit(alloc: Global, phase: Phase, entries: &Entries) -> Result<bool, AllocError>
    requires projects { Rise (map project_key entries.now.projects) }
    requires students { Rise (map student_key entries.now.students) }
    ensures { IfOk result (λ yes. IsTrue yes ↔ ListsFit phase entries.now) }
{
    if !entries_fit(phase, entries) {
        return Ok(false);
    }
    if !choices_in_play_fit(alloc, entries)? {
        return Ok(false);
    }
    rankings_fit(
        alloc,
        phase.is_published(),
        &entries.lecturers,
        &entries.projects,
        &entries.students,
    )
}
