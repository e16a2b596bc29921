//! Makes instance rows from the entries, and builds the instance from these rows.

ghost use Rattle.std.specs.Prelude.{◌≡◌, false, Err, IfOk, map};
ghost use Rattle.std.specs.List.{AllByRecursion};
ghost use Rattle.portal_rules.specs.World.{World, is_still_to_rank};
ghost use Rattle.portal_rules.specs.declared.phase.Round.TheVariants.{First};
ghost use Rattle.portal_rules.specs.Good.{Sound};
ghost use Rattle.portal_rules.specs.Good as meant_by;
ghost use Rattle.portal_list.specs.Rows.{HasEntries};
ghost use Rattle.portal_list.specs.inner.Lines.{instance_lecturer, instance_project};
ghost use Rattle.portal_list.specs.inner.Lines.{instance_student, instance_rows};

use crate::entries::{Entries, LecturerEntry, StudentEntry};
use crate::from_rows::RowsFault;
use crate::second_round::entries_in_play;
use portal_rules::collecting::try_map;
use portal_rules::{ProjectRow, Round};
use spa_model::{Instance, InstanceFault, InstanceRows, LecturerLine, ProjectLine, StudentLine};
use spa_rows::Key;
use std::alloc::{AllocError, Global};

/// Copies the bytes of a key, for a line of the instance.
fn text_of(alloc: Global, key: &Key) -> Result<Vec<u8>, AllocError>
    ensures { IfOk result (λ text. text.items ≡ key.now) }
{
    key.as_bytes().to_vec(alloc)
}

/// Copies the bytes of each key on a list, for a line of the instance.
fn key_texts(alloc: Global, keys: &[Key]) -> Result<Vec<Vec<u8>>, AllocError>
    ensures { IfOk result (λ texts. map (λ text. text.items) texts.items ≡ keys.now) }
{
    let mut texts = Vec::new(alloc);
    for key in keys {
        texts.push(text_of(alloc, key)?)?;
    }
    Ok(texts)
}

/// Makes the instance's line of a lecturer from the entry.
fn lecturer_line(alloc: Global, entry: &LecturerEntry) -> Result<LecturerLine, AllocError>
    ensures { IfOk result (λ line. line ≡ instance_lecturer entry.now) }
{
    let list = match &entry.ranking {
        Some(ranking) => key_texts(alloc, ranking)?,
        None => Vec::new(alloc),
    };
    Ok(LecturerLine {
        row: 0,
        key: text_of(alloc, &entry.row.key)?,
        capacity: entry.row.capacity,
        list,
    })
}

/// Makes the instance's line of a project from the project's row.
fn project_line(alloc: Global, project: &ProjectRow) -> Result<ProjectLine, AllocError>
    ensures { IfOk result (λ line. line ≡ instance_project project.now) }
{
    Ok(ProjectLine {
        row: 0,
        key: text_of(alloc, &project.key)?,
        capacity: project.capacity,
        lecturer: text_of(alloc, &project.lecturer)?,
    })
}

/// Makes the instance's line of a student from the entry.
fn student_line(alloc: Global, entry: &StudentEntry) -> Result<StudentLine, AllocError>
    ensures { IfOk result (λ line. line ≡ instance_student entry.now) }
{
    Ok(StudentLine {
        row: 0,
        key: text_of(alloc, &entry.row.key)?,
        list: key_texts(alloc, &entry.choice)?,
    })
}

/// Makes all lines of the instance from the entries.
fn rows_of(alloc: Global, entries: &Entries) -> Result<InstanceRows, AllocError>
    ensures { IfOk result (λ rows. rows ≡ instance_rows entries.now) }
{
    Ok(InstanceRows {
        lecturers: try_map(alloc, &entries.lecturers, |l| lecturer_line(alloc, l))?,
        projects: try_map(alloc, &entries.projects, |p| project_line(alloc, p))?,
        students: try_map(alloc, &entries.students, |s| student_line(alloc, s))?,
    })
}

/// Builds the instance of entries of a first round, without checking that their world is sound.
/// Returns `NotGood` if the lines form no valid instance.
fn instance_among(alloc: Global, entries: &Entries) -> Result<Instance, RowsFault>
    requires { entries.now.round ≡ First }
    ensures instance { IfOk result (λ instance. (w : World) → HasEntries entries.now w → Sound w
        → instance ≡ meant_by.instance w) }
    ensures refused { result ≡ Err RowsFault.NotGood → (w : World) → HasEntries entries.now w
        → Sound w → AllByRecursion (λ l. is_still_to_rank w l ≡ false) w.lecturers → ⊥ }
{
    let rows = rows_of(alloc, entries)?;
    match Instance::build(alloc, rows) {
        Ok(instance) => Ok(instance),
        Err(bad) => match bad.fault {
            InstanceFault::Memory => Err(RowsFault::Memory),
            _ => Err(RowsFault::NotGood),
        },
    }
}

/// Builds the current round's instance from the entries of a sound world in which no ranking is
/// missing.
pub(crate) fn instance_of(alloc: Global, entries: &Entries) -> Result<Instance, AllocError>
    requires ready { (w : World) × HasEntries entries.now w × Sound w
        × AllByRecursion (λ l. is_still_to_rank w l ≡ false) w.lecturers }
    ensures instance { IfOk result (λ instance. (w : World) → HasEntries entries.now w → Sound w
        → instance ≡ meant_by.instance w) }
{
    match entries.instance(alloc) {
        Ok(instance) => Ok(instance),
        Err(RowsFault::Memory) => Err(AllocError),
        Err(RowsFault::NotGood) => unreachable!(),
    }
}

impl Entries {
    /// Builds the current round's instance from the entries of a sound world in which no ranking is
    /// missing. Other entries give `NotGood` or a meaningless instance.
    pub fn instance(&self, alloc: Global) -> Result<Instance, RowsFault>
        ensures instance { IfOk result (λ instance. (w : World) → HasEntries self.now w → Sound w
            → instance ≡ meant_by.instance w) }
        ensures refused { result ≡ Err RowsFault.NotGood → (w : World) → HasEntries self.now w
            → Sound w → AllByRecursion (λ l. is_still_to_rank w l ≡ false) w.lecturers → ⊥ }
    {
        match self.round {
            Round::First => instance_among(alloc, self),
            Round::Second => {
                let left = entries_in_play(alloc, self)?;
                instance_among(alloc, &left)
            }
        }
    }
}
