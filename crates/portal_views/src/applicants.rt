//! Reads each project's applicants and placed students by queries, as far as the phase shows them.

ghost use Rattle.std.specs.Prelude.{◌≡◌, ◌≤◌, ◌∷◌, ◌++◌, insert};
ghost use Rattle.portal_views.specs.inner.Base.{[], IfOk, OnOk, map, length, put, put_all, is_at};
ghost use Rattle.portal_views.specs.inner.Base.{is_from_ranking, Contradicts};
ghost use Rattle.portal_views.specs.inner.Base.{Person as ThatPerson};
ghost use Rattle.portal_views.specs.inner.Callers.{with_persons, lines_shown, persons_at};
ghost use Rattle.portal_views.specs.inner.Callers.{persons_before, placed_at_shown};
ghost use Rattle.portal_views.specs.inner.Callers.{AreStudentsOf, person_key};
ghost use Rattle.portal_views.specs.inner.Lines.{HasTables, HasStudents};
ghost use Rattle.portal_tables.specs.Reads.{MayRead, GivesOrFails};

use crate::lines::{ApplicantLine, lines_to, persons_of};
use portal_rules::{Person, Phase, Round};
use portal_tables::TableFault;
use spa_rows::Key;
use sqlite::{Alter, Connection};
use std::alloc::{AllocError, Global};

/// Reads the lines of the project's applicants, or returns none before the ranking phase.
fn lines_in<S: Alter>(
    alloc: Global,
    conn: &mut Connection<S>,
    round: Round,
    phase: Phase,
    project: &Key,
) -> Result<Vec<ApplicantLine>, TableFault>
    ensures { MayRead round S.Store HasTables
        (GivesOrFails (λ db v. v.items ≡ lines_shown round db.trees phase project.now)
        (Contradicts (HasStudents round))) result conn.old conn.new }
{
    if phase.is_from_ranking() {
        return lines_to(alloc, conn, round, project);
    }
    Ok(Vec::new(alloc))
}

/// Returns whether the placement on an applicant's line is at this project.
fn is_placed_at(placed: &Option<Key>, project: &Key) -> bool
    ensures { result ≡ is_at project.now placed.now }
{
    match placed {
        Some(key) => key == project,
        None => false,
    }
}

/// Returns the students on the applicants' lines who are placed at the project.
fn placed_at(
    alloc: Global,
    lines: &[ApplicantLine],
    project: &Key,
) -> Result<Vec<Person>, AllocError>
    ensures { IfOk result (λ v. v.items ≡ persons_at project.now lines.now) }
{
    let mut found = Vec::new(alloc);
    for line in lines {
        if is_placed_at(&line.placed, project) {
            found.push(line.person.copy(alloc)?)?;
        }
    }
    Ok(found)
}

/// Reads the students whom the first round placed at the project, if this is the second.
fn before_in<S: Alter>(
    alloc: Global,
    conn: &mut Connection<S>,
    round: Round,
    project: &Key,
) -> Result<Vec<Person>, TableFault>
    ensures { MayRead round S.Store HasTables
        (GivesOrFails (λ db v. v.items ≡ persons_before round db.trees project.now)
        (Contradicts (HasStudents round))) result conn.old conn.new }
{
    match round {
        Round::First => Ok(Vec::new(alloc)),
        Round::Second => {
            let lines = lines_to(alloc, conn, Round::First, project)?;
            Ok(placed_at(alloc, &lines, project)?)
        }
    }
}

/// Finds the index at which to insert a person with this key into a sorted list.
fn place_for(persons: &[Person], key: &Key) -> usize
    ensures low { result ≤ length persons.now }
    ensures place { (person : ThatPerson) → person.key ≡ key.now
        → insert persons.now result person ≡ put person_key person persons.now }
{
    for (i, person) in persons.iter().enumerate() {
        if *key < person.key {
            return i;
        }
    }
    persons.len()
}

/// Inserts a person into a list sorted by key.
fn put_person(persons: &mut Vec<Person>, person: Person) -> Result<(), AllocError>
    ensures { OnOk result (persons.new.items ≡ put person_key person persons.old.items) }
{
    let place = place_for(persons, &person.key);
    persons.insert(place, person)?;
    Ok(())
}

/// Inserts persons into a list sorted by key. Fails only if memory runs out.
fn put_persons(persons: &mut Vec<Person>, more: Vec<Person>) -> Result<(), AllocError>
    ensures { OnOk result (persons.new.items
        ≡ put_all person_key more.items persons.old.items) }
{
    for person in more {
        put_person(persons, person)?;
    }
    Ok(())
}

/// Returns the students shown as placed at the project, sorted by key. Placements in this round
/// come from the applicants' lines, and earlier ones from queries.
fn placed_with<S: Alter>(
    alloc: Global,
    conn: &mut Connection<S>,
    round: Round,
    phase: Phase,
    project: &Key,
    lines: &[ApplicantLine],
) -> Result<Vec<Person>, TableFault>
    ensures { MayRead round S.Store HasTables
        (GivesOrFails (λ db v. v.items ≡ placed_at_shown round db.trees phase project.now lines.now)
        (Contradicts (HasStudents round))) result conn.old conn.new }
{
    let mut placed = before_in(alloc, conn, round, project)?;
    if phase != Phase::Published {
        return Ok(placed);
    }
    put_persons(&mut placed, placed_at(alloc, lines, project)?)?;
    Ok(placed)
}

/// The applicants and the placed students of each of a lecturer's projects.
#[derive(Drop)]
pub(crate) struct ProjectStudents {
    pub applicants: Vec<(Key, Vec<Person>)>,
    pub placed: Vec<(Key, Vec<Person>)>,
}

impl ProjectStudents {
    /// Adds a project, with the persons on its applicants' lines and its placed students.
    fn add(
        &mut self,
        alloc: Global,
        project: &Key,
        lines: &[ApplicantLine],
        placed: Vec<Person>,
    ) -> Result<(), AllocError>
        ensures applicants { OnOk result (map with_persons self.new.applicants.items
            ≡ map with_persons self.old.applicants.items
            ++ ((project.now, map (λ l. l.person) lines.now) ∷ [])) }
        ensures placed { OnOk result (map with_persons self.new.placed.items
            ≡ map with_persons self.old.placed.items ++ ((project.now, placed.items) ∷ [])) }
    {
        let applicants = persons_of(alloc, lines)?;
        self.applicants.push((project.copy(alloc)?, applicants))?;
        self.placed.push((project.copy(alloc)?, placed))?;
        Ok(())
    }
}

/// Reads the applicants and the placed students of these projects that the phase shows.
pub(crate) fn project_students<S: Alter>(
    alloc: Global,
    conn: &mut Connection<S>,
    round: Round,
    phase: Phase,
    projects: &[Key],
) -> Result<ProjectStudents, TableFault>
    ensures { MayRead round S.Store HasTables
        (GivesOrFails (λ db. AreStudentsOf round db.trees phase projects.now)
        (Contradicts (HasStudents round))) result conn.old conn.new }
{
    let mut told = ProjectStudents {
        applicants: Vec::new(alloc),
        placed: Vec::new(alloc),
    };
    for project in projects {
        let lines = lines_in(alloc, conn, round, phase, project)?;
        let placed = placed_with(alloc, conn, round, phase, project, &lines)?;
        told.add(alloc, project, &lines, placed)?;
    }
    Ok(told)
}
