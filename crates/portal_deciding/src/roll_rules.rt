//! The rules for new rows of each roll.

ghost use Rattle.std.specs.Prelude.{◌≡◌, [], ◌∷◌, ◌++◌, List, map, refl, OnOk, IfOk};
ghost use Rattle.portal_rules.specs.Words as words;
ghost use Rattle.portal_rules.specs.World.{Change, Lecturers, Projects, Students};
ghost use Rattle.portal_rules.specs.Meaning.{change_model};
ghost use Rattle.portal_rules.specs.Faults as rolls;
ghost use Rattle.portal_rules.specs.Faults.{lecturer_roll, project_roll, student_roll};
ghost use Rattle.portal_rules.specs.inner.Tables.{HasTexts};

use crate::roll_refusal::{RollRefusal, bad_row_at, conflict_at};
use portal_rules::index::keys_of;
use portal_rules::{Change, Code, Coded, Keyed, LecturerRow, OfficeView, ProjectRow, StudentRow};
use spa_rows::limits::{MOST_LECTURERS, MOST_PROJECTS, MOST_STUDENTS};
use std::alloc::{AllocError, Global};
use std::collections::HashSet;

/// The rules for new rows of a roll.
pub(crate) trait RollRules<X: Keyed> {
    /// The rules, as a definition.
    ghost rules: { Self → rolls.RollRules X };

    /// The change that new rows make.
    ghost changes: { Self → List X → Change };

    /// The codes or keys against which a new row is checked, given the rows already present.
    ghost texts_beside: { Self → List X → List words.Key };

    /// Returns the greatest number of rows that a roll may have, with the rows to be added.
    fn limit(&self) -> usize
        ensures { result ≡ (rules self.now).limit };

    /// Returns whether a row to be added equals a row on the roll in all fields.
    fn is_same(&self, old: &X, row: &X) -> bool
        ensures { result ≡ (rules self.now).same old.now row.now };

    /// Returns the texts against which a new row is checked if the roll is empty.
    fn texts<'a>(&'a self, alloc: Global) -> Result<HashSet<&'a [u8]>, AllocError>
        ensures { IfOk result (HasTexts (texts_beside self.now [])) };

    /// Adds the text of a row that is now present, if new rows are checked against it.
    fn add_text<'a>(&self, texts: &mut HashSet<&'a [u8]>, row: &'a X) -> Result<(), AllocError>
        ensures { OnOk result ((there : List X) → HasTexts (texts_beside self.now there) texts.old
            → HasTexts (texts_beside self.now (row.now ∷ there)) texts.new) };

    /// Returns whether a row to be added is bad, given these texts.
    fn is_bad(&self, texts: &HashSet<&[u8]>, row: &X) -> bool
        ensures { (there : List X) → HasTexts (texts_beside self.now there) texts.now
            → result ≡ (rules self.now).is_bad there row.now };

    /// Returns the refusal of a bad row among the rows to be added.
    fn fault(&self, row: u64) -> RollRefusal
        ensures { result ≡ (rules self.now).fault row };

    /// Copies a row to be added to a roll.
    fn copy(&self, alloc: Global, row: &X) -> Result<X, AllocError>
        ensures { IfOk result (λ copy. copy ≡ row.now) };

    /// Returns the change that adds these new rows.
    fn change(&self, rows: Vec<X>) -> Change
        ensures { change_model result ≡ changes self.now rows.items };

    /// The rules find a row by its key.
    ghost finds_by_key: { (roll : Self) → (rules roll).key ≡ X.key_of };
}

/// Adds the codes of these lecturers or students to those that the rules for new rows forbid.
fn add_codes<'a, X: Coded>(codes: &mut HashSet<&'a [u8]>, rows: &'a [X]) -> Result<(), AllocError>
    ensures { OnOk result ((given : List words.Key) → HasTexts given codes.old
        → HasTexts (given ++ map X.code_of rows.now) codes.new) }
{
    for row in rows {
        codes.insert(row.code().as_bytes())?;
    }
    Ok(())
}

/// Collects the codes of the office and of these lecturers or students, which the rules for new
/// rows forbid.
fn given_codes<'a, X: Coded>(
    alloc: Global,
    office: &'a Code,
    rows: &'a [X],
) -> Result<HashSet<&'a [u8]>, AllocError>
    ensures { IfOk result (HasTexts (office.now ∷ map X.code_of rows.now)) }
{
    let mut codes = HashSet::new(alloc);
    codes.insert(office.as_bytes())?;
    add_codes(&mut codes, rows)?;
    Ok(codes)
}

/// The rules for new lecturers, given the office's view.
#[derive(Drop)]
pub(crate) struct NewLecturers<'a>(pub(crate) &'a OfficeView);

impl RollRules<LecturerRow> for NewLecturers<'_> {
    ghost rules = { λ roll. lecturer_roll roll.0.now };

    ghost changes = { λ _. Lecturers };

    ghost texts_beside = { λ roll there. roll.0.now.office_code
        ∷ map (λ s. s.code) roll.0.now.students ++ map (λ l. l.code) there };

    ghost finds_by_key = { λ _. refl };

    fn limit(&self) -> usize {
        MOST_LECTURERS
    }

    fn is_same(&self, old: &LecturerRow, row: &LecturerRow) -> bool {
        old.key == row.key
            && old.name == row.name
            && old.code == row.code
            && old.capacity == row.capacity
    }

    fn texts<'a>(&'a self, alloc: Global) -> Result<HashSet<&'a [u8]>, AllocError> {
        let view = self.0;
        given_codes(alloc, &view.office_code, &view.students)
    }

    fn add_text<'a>(
        &self,
        texts: &mut HashSet<&'a [u8]>,
        row: &'a LecturerRow,
    ) -> Result<(), AllocError> {
        texts.insert(row.code.as_bytes())?;
        Ok(())
    }

    fn is_bad(&self, texts: &HashSet<&[u8]>, row: &LecturerRow) -> bool {
        texts.contains(&row.code.as_bytes())
    }

    fn fault(&self, row: u64) -> RollRefusal {
        conflict_at(row)
    }

    fn copy(&self, alloc: Global, row: &LecturerRow) -> Result<LecturerRow, AllocError> {
        row.copy(alloc)
    }

    fn change(&self, rows: Vec<LecturerRow>) -> Change
        ensures { change_model result ≡ Lecturers rows.items }
    {
        Change::Lecturers(rows)
    }
}

/// The rules for new projects, given the office's view.
#[derive(Drop)]
pub(crate) struct NewProjects<'a>(pub(crate) &'a OfficeView);

impl RollRules<ProjectRow> for NewProjects<'_> {
    ghost rules = { λ roll. project_roll roll.0.now };

    ghost changes = { λ _. Projects };

    ghost texts_beside = { λ roll there. map (λ l. l.key) roll.0.now.lecturers };

    ghost finds_by_key = { λ _. refl };

    fn limit(&self) -> usize {
        MOST_PROJECTS
    }

    fn is_same(&self, old: &ProjectRow, row: &ProjectRow) -> bool {
        old.key == row.key
            && old.lecturer == row.lecturer
            && old.title == row.title
            && old.capacity == row.capacity
    }

    fn texts<'a>(&'a self, alloc: Global) -> Result<HashSet<&'a [u8]>, AllocError> {
        let view = self.0;
        keys_of(alloc, &view.lecturers)
    }

    fn add_text<'a>(&self, _: &mut HashSet<&'a [u8]>, _: &'a ProjectRow) -> Result<(), AllocError> {
        Ok(())
    }

    fn is_bad(&self, texts: &HashSet<&[u8]>, row: &ProjectRow) -> bool {
        !texts.contains(&row.lecturer.as_bytes())
    }

    fn fault(&self, row: u64) -> RollRefusal {
        bad_row_at(row)
    }

    fn copy(&self, alloc: Global, row: &ProjectRow) -> Result<ProjectRow, AllocError> {
        row.copy(alloc)
    }

    fn change(&self, rows: Vec<ProjectRow>) -> Change
        ensures { change_model result ≡ Projects rows.items }
    {
        Change::Projects(rows)
    }
}

/// The rules for new students, given the office's view.
#[derive(Drop)]
pub(crate) struct NewStudents<'a>(pub(crate) &'a OfficeView);

impl RollRules<StudentRow> for NewStudents<'_> {
    ghost rules = { λ roll. student_roll roll.0.now };

    ghost changes = { λ _. Students };

    ghost texts_beside = { λ roll there. roll.0.now.office_code
        ∷ map (λ l. l.code) roll.0.now.lecturers ++ map (λ s. s.code) there };

    ghost finds_by_key = { λ _. refl };

    fn limit(&self) -> usize {
        MOST_STUDENTS
    }

    fn is_same(&self, old: &StudentRow, row: &StudentRow) -> bool {
        old.key == row.key && old.name == row.name && old.code == row.code
    }

    fn texts<'a>(&'a self, alloc: Global) -> Result<HashSet<&'a [u8]>, AllocError> {
        let view = self.0;
        given_codes(alloc, &view.office_code, &view.lecturers)
    }

    fn add_text<'a>(
        &self,
        texts: &mut HashSet<&'a [u8]>,
        row: &'a StudentRow,
    ) -> Result<(), AllocError> {
        texts.insert(row.code.as_bytes())?;
        Ok(())
    }

    fn is_bad(&self, texts: &HashSet<&[u8]>, row: &StudentRow) -> bool {
        texts.contains(&row.code.as_bytes())
    }

    fn fault(&self, row: u64) -> RollRefusal {
        conflict_at(row)
    }

    fn copy(&self, alloc: Global, row: &StudentRow) -> Result<StudentRow, AllocError> {
        row.copy(alloc)
    }

    fn change(&self, rows: Vec<StudentRow>) -> Change
        ensures { change_model result ≡ Students rows.items }
    {
        Change::Students(rows)
    }
}
