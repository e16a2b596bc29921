//! The views: what a student, a lecturer or the office sees.

ghost use Rattle.std.specs.Prelude.{◌≡◌, IfOk};

use crate::code::Code;
use crate::phase::{Phase, Round};
use crate::rows::{LecturerRow, Listing, Person, ProjectRow, StudentRow, copy_keys, copy_pairs};
use spa_rows::Key;
use std::alloc::{AllocError, Global};
use std::marker::Model;
use std::rc::Rc;

#[derive(Drop)]
pub struct StudentView {
    pub round: Round,
    pub phase: Phase,
    pub me: Person,
    pub catalogue: Rc<Vec<Listing>>,
    pub choices: Vec<Key>,
    pub result: Option<Key>,
}

impl Model for StudentView {
    ghost use Rattle.portal_rules.specs.Calls.{StudentSees};

    ghost Value = { StudentSees };

    ghost view = { λ v. record {
      round = v.round;
      phase = v.phase;
      me = v.me;
      catalogue = v.catalogue.value.items;
      choices = v.choices.items;
      result = v.result;
    } };
}

#[derive(Drop)]
pub struct LecturerView {
    pub round: Round,
    pub phase: Phase,
    pub me: Person,
    pub capacity: u32,
    pub catalogue: Rc<Vec<Listing>>,
    pub applicants: Vec<(Key, Vec<Person>)>,
    pub ranking: Option<Vec<Key>>,
    pub placed: Vec<(Key, Vec<Person>)>,
}

impl Model for LecturerView {
    ghost use Rattle.std.specs.Prelude.{map, option_map};
    ghost use Rattle.portal_rules.specs.Calls.{LecturerSees};

    ghost Value = { LecturerSees };

    ghost view = { λ v. record {
      round = v.round;
      phase = v.phase;
      me = v.me;
      capacity = v.capacity;
      catalogue = v.catalogue.value.items;
      applicants = map (λ p. (p.0, p.1.items)) v.applicants.items;
      ranking = option_map (λ r. r.items) v.ranking;
      placed = map (λ p. (p.0, p.1.items)) v.placed.items;
    } };
}

#[derive(Drop)]
pub struct OfficeView {
    pub round: Round,
    pub phase: Phase,
    pub office_code: Code,
    pub lecturers: Rc<Vec<LecturerRow>>,
    pub projects: Rc<Vec<ProjectRow>>,
    pub students: Rc<Vec<StudentRow>>,
    pub catalogue: Rc<Vec<Listing>>,
    pub without_list: Vec<Key>,
    pub still_to_rank: Vec<Key>,
    pub pairs: Vec<(Key, Key)>,
}

impl Model for OfficeView {
    ghost use Rattle.portal_rules.specs.Calls.{OfficeSees};

    ghost Value = { OfficeSees };

    ghost view = { λ v. record {
      round = v.round;
      phase = v.phase;
      office_code = v.office_code;
      lecturers = v.lecturers.value.items;
      projects = v.projects.value.items;
      students = v.students.value.items;
      catalogue = v.catalogue.value.items;
      without_list = v.without_list.items;
      still_to_rank = v.still_to_rank.items;
      pairs = v.pairs.items;
    } };
}

impl OfficeView {
    /// Copies the view. The copy shares the rolls and the catalogue.
    ///
    /// # Errors
    ///
    /// Memory ran out.
    pub fn copy(&self, alloc: Global) -> Result<OfficeView, AllocError>
        ensures { IfOk result (λ view. view ≡ self.now) }
    {
        Ok(OfficeView {
            round: self.round,
            phase: self.phase,
            office_code: self.office_code.copy(alloc)?,
            lecturers: self.lecturers.clone()?,
            projects: self.projects.clone()?,
            students: self.students.clone()?,
            catalogue: self.catalogue.clone()?,
            without_list: copy_keys(alloc, &self.without_list)?,
            still_to_rank: copy_keys(alloc, &self.still_to_rank)?,
            pairs: copy_pairs(alloc, &self.pairs)?,
        })
    }
}

#[derive(Drop)]
pub enum View {
    Nobody,
    Office(OfficeView),
    Lecturer(LecturerView),
    Student(StudentView),
}
