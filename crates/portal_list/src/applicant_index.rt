//! A hash table from projects to the students who list them.

ghost use Rattle.std.specs.Prelude.{◌≡◌, ◌<◌, ◌==◌, ◌||◌, ◌&&◌, ℕ, List, map, length, get_or};
ghost use Rattle.std.specs.Prelude.{false, IfOk, OnOk};
ghost use Rattle.std.specs.Borrow.{Bor};
ghost use Rattle.std.specs.List.{list_any};
ghost use Rattle.portal_rules.specs.Words.{Key as Text, equals, has};
ghost use Rattle.portal_rules.specs.World.{student_key};
ghost use Rattle.portal_list.specs.inner.Parts.{wanting};
ghost use Rattle.portal_list.specs.inner.ApplicantIndex.{passes_at, is_among, is_noted};

use crate::entries::StudentEntry;
use spa_rows::Key;
use std::alloc::{AllocError, Global};
use std::collections::HashMap;
use std::marker::Model;

/// An index of a roll of students: for each project, the roll positions of the students who list
/// it. Crafted keys can all collide; a lookup then compares each project at most once.
#[derive(Drop)]
pub(crate) struct ApplicantIndex<'a> {
    students: &'a [StudentEntry],
    places: HashMap<&'a [u8], Vec<usize>>,
}

impl<'a> Model for ApplicantIndex<'a> {
    ghost use Rattle.std.specs.Prelude.{List};
    ghost use Rattle.portal_rules.specs.World.{Student};
    ghost use Rattle.portal_list.specs.inner.ApplicantIndex.{IsApplicantIndex};

    ghost Value = { List Student };

    ghost view = { λ w. w.students.now };

    ghost invariant = { λ w. IsApplicantIndex w.students.now w.places };
}

/// Adds a student's position in the roll to a project's entry in the hash table.
fn note<'a>(
    alloc: Global,
    places: &mut HashMap<&'a [u8], Vec<usize>>,
    project: &'a Key,
    place: usize,
) -> Result<(), AllocError>
    ensures { OnOk result ((q : Bor Text) (i : ℕ)
        → is_noted places.new q i
        ≡ (is_noted places.old q i || (equals q.now project.now && (place == i)))) }
{
    let noted = places.entry(project.as_bytes())?.or_insert(Vec::new(alloc));
    noted.push(place)?;
    Ok(())
}

/// Adds a student's position in the roll to the hash table, for each project on the student's list.
fn note_all<'a>(
    alloc: Global,
    places: &mut HashMap<&'a [u8], Vec<usize>>,
    choice: &'a [Key],
    place: usize,
) -> Result<(), AllocError>
    ensures { OnOk result ((q : Bor Text) (i : ℕ)
        → is_noted places.new q i
        ≡ (is_noted places.old q i || (has choice.now q.now && (place == i)))) }
{
    for project in choice {
        note(alloc, places, project, place)?;
    }
    Ok(())
}

/// Marks the students at these positions, found in the hash table; ignores positions beyond the
/// end.
fn mark(marks: &mut [bool], places: &[usize])
    ensures len { length marks.new ≡ length marks.old }
    ensures marks { (i : ℕ) → i < length marks.old
        → get_or marks.new i false ≡ (get_or marks.old i false || is_among places.now i) }
{
    for place in places {
        if *place < marks.len() {
            marks[*place] = true;
        }
    }
}

impl<'a> ApplicantIndex<'a> {
    /// Builds the index of a roll.
    pub(crate) fn of(
        alloc: Global,
        students: &'a [StudentEntry],
    ) -> Result<ApplicantIndex<'a>, AllocError>
        ensures { IfOk result (λ w. w ≡ students.now) }
    {
        let mut places = HashMap::new(alloc);
        for (place, student) in students.iter().enumerate() {
            note_all(alloc, &mut places, &student.choice, place)?;
        }
        Ok(ApplicantIndex { students, places })
    }

    /// Returns, for each student of the roll, whether the list holds one of the projects.
    fn marks(&self, alloc: Global, projects: &[&Key]) -> Result<Vec<bool>, AllocError>
        ensures len { IfOk result (λ v. length v.items ≡ length self.now) }
        ensures marks { IfOk result (λ v. (i : ℕ) → i < length self.now
            → get_or v.items i false
            ≡ passes_at (λ s. list_any (λ p. has s.choice p)
            (map (λ k. k.now) projects.now)) self.now i) }
    {
        let mut marks = vec![in alloc; false; self.students.len()]?;
        for project in projects {
            if let Some(places) = self.places.get(&project.as_bytes()) {
                mark(&mut marks, places);
            }
        }
        Ok(marks)
    }

    /// Returns the keys of the students whose list holds one of the projects.
    pub(crate) fn wanting(
        &self,
        alloc: Global,
        projects: &[&Key],
    ) -> Result<Vec<&'a Key>, AllocError>
        ensures { IfOk result (λ keys. map (λ k. k.now) keys.items
            ≡ map student_key (wanting (map (λ k. k.now) projects.now) self.now)) }
    {
        let marks = self.marks(alloc, projects)?;
        let mut keys = Vec::new(alloc);
        for (i, student) in self.students.iter().enumerate() {
            if marks[i] {
                keys.push(&student.row.key)?;
            }
        }
        Ok(keys)
    }
}
