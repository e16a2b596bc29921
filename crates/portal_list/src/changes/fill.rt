//! Makes the missing rankings, each lecturer's applicants in key order: `fill_rankings` adds them to
//! the entries, and `Entries::fills` returns them for the store.

ghost use Rattle.std.specs.Prelude.{◌≡◌, IfOk, OnOk, OnErr, List, map};
ghost use Rattle.portal_rules.specs.Words as words;
ghost use Rattle.portal_rules.specs.World.{World};
ghost use Rattle.portal_list.specs.Rows.{HasEntries, fill_missing};
ghost use Rattle.portal_list.specs.inner.Parts.{applicant_keys};
ghost use Rattle.portal_list.specs.inner.Fill.{missing, with_missing, filled};

use crate::applicant_index::ApplicantIndex;
use crate::entries::{Entries, LecturerEntry, StudentEntry};
use crate::list_checks::applicants;
use crate::views::lecturers_to_rank;
use portal_rules::ProjectRow;
use portal_rules::collecting::try_map;
use spa_rows::Key;
use std::alloc::{AllocError, Global};
use std::marker::Model;

/// A ranking that a fill adds.
#[derive(Drop)]
struct Ranking {
    keys: Vec<Key>,
}

impl Model for Ranking {
    ghost use Rattle.std.specs.Prelude.{List};
    ghost use Rattle.portal_rules.specs.Words.{Key};

    ghost Value = { List Key };

    ghost view = { λ r. r.keys.items };
}

/// Copies the applicants' keys, for a ranking that a fill adds.
fn copies(alloc: Global, keys: &[&Key]) -> Result<Vec<Key>, AllocError>
    ensures { IfOk result (λ v. v.items ≡ map (λ k. k.now) keys.now) }
{
    try_map(alloc, keys, |key| (*key).copy(alloc))
}

/// Returns the keys of the lecturer's applicants in key order, as a fill ranks them.
fn applicants_by_key(
    alloc: Global,
    projects: &[ProjectRow],
    wanted: &ApplicantIndex<'_>,
    lecturer: &Key,
) -> Result<Vec<Key>, AllocError>
    ensures { IfOk result (λ v. v.items ≡ applicant_keys projects.now wanted.now lecturer.now) }
{
    let applicants = applicants(alloc, projects, wanted, lecturer)?;
    copies(alloc, &applicants)
}

/// Returns the ranking that a fill adds: none if the lecturer has a ranking or no applicant.
fn missing_ranking(
    alloc: Global,
    projects: &[ProjectRow],
    wanted: &ApplicantIndex<'_>,
    lecturer: &LecturerEntry,
) -> Result<Option<Ranking>, AllocError>
    ensures { IfOk result (λ o. o ≡ missing projects.now wanted.now lecturer.now) }
{
    if lecturer.ranking.is_some() {
        return Ok(None);
    }
    let keys = applicants_by_key(alloc, projects, wanted, &lecturer.row.key)?;
    if keys.is_empty() {
        return Ok(None);
    }
    Ok(Some(Ranking { keys }))
}

/// Returns, for each lecturer, the ranking that a fill adds, or `None`.
fn missing_rankings(
    alloc: Global,
    lecturers: &[LecturerEntry],
    projects: &[ProjectRow],
    students: &[StudentEntry],
) -> Result<Vec<Option<Ranking>>, AllocError>
    ensures { IfOk result (λ v. v.items ≡ map (missing projects.now students.now) lecturers.now) }
{
    let wanted = ApplicantIndex::of(alloc, students)?;
    try_map(alloc, lecturers, |l| {
        missing_ranking(alloc, projects, &wanted, l)
    })
}

/// Gives the lecturer the ranking that the fill adds, if there is one.
fn settle(lecturer: &mut LecturerEntry, ranking: Option<Ranking>)
    ensures { lecturer.new ≡ with_missing lecturer.old ranking }
{
    if let Some(ranking) = ranking {
        lecturer.ranking = Some(ranking.keys);
    }
}

/// Fills the missing rankings in the entries with the lecturers' applicants in key order.
pub(crate) fn fill_rankings(
    alloc: Global,
    lecturers: &mut [LecturerEntry],
    projects: &[ProjectRow],
    students: &[StudentEntry],
) -> Result<(), AllocError>
    ensures made { OnOk result (lecturers.new
        ≡ map (filled projects.now students.now) lecturers.old) }
    ensures same { OnErr result (lecturers.new ≡ lecturers.old) }
{
    let mut rankings = missing_rankings(alloc, lecturers, projects, students)?;
    for (i, lecturer) in lecturers.iter_mut().enumerate() {
        settle(lecturer, rankings[i].take());
    }
    Ok(())
}

/// Returns each of these lecturers with the keys of the lecturer's applicants, found in the index.
fn fills_from(
    alloc: Global,
    lecturers: &[Key],
    projects: &[ProjectRow],
    wanted: &ApplicantIndex<'_>,
) -> Result<Vec<(Key, Vec<Key>)>, AllocError>
    ensures { IfOk result (λ v. map {B = words.Key × List words.Key} (λ f. (f.0, f.1.items)) v.items
        ≡ map (λ k. (k, applicant_keys projects.now wanted.now k)) lecturers.now) }
{
    let mut fills = Vec::with_capacity(alloc, lecturers.len())?;
    for lecturer in lecturers {
        let keys = applicants_by_key(alloc, projects, wanted, lecturer)?;
        fills.push((lecturer.copy(alloc)?, keys))?;
    }
    Ok(fills)
}

impl Entries {
    /// Returns the lecturers still to rank, in roll order, each with the applicants' keys in key
    /// order. These are the rankings that a fill would add.
    pub fn fills(&self, alloc: Global) -> Result<Vec<(Key, Vec<Key>)>, AllocError>
        ensures { IfOk result (λ v. (w : World) → HasEntries self.now w
            → map {B = words.Key × List words.Key} (λ f. (f.0, f.1.items)) v.items
            ≡ fill_missing w) }
    {
        let lecturers = lecturers_to_rank(alloc, &self.lecturers, &self.projects, &self.students)?;
        let wanted = ApplicantIndex::of(alloc, &self.students)?;
        fills_from(alloc, &lecturers, &self.projects, &wanted)
    }
}
