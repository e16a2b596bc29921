//! The lines of an instance, unchecked (keys are plain bytes), and traits for reading their parts.

ghost use Rattle.std.specs.Prelude.{◌≡◌, ℕ, List, map};
ghost use Rattle.spa_rows.specs.Lines.{Text};

use std::marker::Model;

/// A lecturer with a list of students, best first.
#[derive(Drop)]
pub struct LecturerLine {
    pub row: u32,
    pub key: Vec<u8>,
    pub capacity: u32,
    pub list: Vec<Vec<u8>>,
}

impl Model for LecturerLine {
    ghost use Rattle.std.specs.Prelude.{map};
    ghost use Rattle.spa_rows.specs.Lines.{LecturerWithList};

    ghost Value = { LecturerWithList };

    ghost view = { λ x. record {
      row = x.row;
      key = x.key.items;
      capacity = x.capacity;
      list = map (λ text. text.items) x.list.items;
    } };
}

/// A project and the lecturer who offers it.
#[derive(Drop)]
pub struct ProjectLine {
    pub row: u32,
    pub key: Vec<u8>,
    pub capacity: u32,
    pub lecturer: Vec<u8>,
}

impl Model for ProjectLine {
    ghost use Rattle.spa_rows.specs.Lines.{ProjectWithLecturer};

    ghost Value = { ProjectWithLecturer };

    ghost view = { λ x. record {
      row = x.row;
      key = x.key.items;
      capacity = x.capacity;
      lecturer = x.lecturer.items;
    } };
}

/// A student with a list of projects, best first.
#[derive(Drop)]
pub struct StudentLine {
    pub row: u32,
    pub key: Vec<u8>,
    pub list: Vec<Vec<u8>>,
}

impl Model for StudentLine {
    ghost use Rattle.std.specs.Prelude.{map};
    ghost use Rattle.spa_rows.specs.Lines.{StudentWithList};

    ghost Value = { StudentWithList };

    ghost view = { λ x. record {
      row = x.row;
      key = x.key.items;
      list = map (λ text. text.items) x.list.items;
    } };
}

/// A pair of a matching: the student is at the project.
#[derive(Drop)]
pub struct PairLine {
    pub row: u32,
    pub student: Vec<u8>,
    pub project: Vec<u8>,
}

impl Model for PairLine {
    ghost use Rattle.spa_rows.specs.Lines.{Pair};

    ghost Value = { Pair };

    ghost view = { λ x. record {
      row = x.row;
      student = x.student.items;
      project = x.project.items;
    } };
}

/// The lines of an instance by kind, each kind in its given order.
#[derive(Drop)]
pub struct InstanceRows {
    pub lecturers: Vec<LecturerLine>,
    pub projects: Vec<ProjectLine>,
    pub students: Vec<StudentLine>,
}

impl Model for InstanceRows {
    ghost use Rattle.spa_rows.specs.Lines.{Rows};

    ghost Value = { Rows };

    ghost view = { λ x. record {
      lecturers = x.lecturers.items;
      projects = x.projects.items;
      students = x.students.items;
    } };
}

/// The lists of an instance's lines by number: of each key, the index of its line, or the number of
/// lines if no line has the key.
#[derive(Drop)]
pub struct ListNumbers {
    pub choices: Vec<Vec<usize>>,
    pub rankings: Vec<Vec<usize>>,
}

/// A line with a row and a key.
pub trait Line {
    ghost row_of: { Self → ℕ };

    ghost key_of: { Self → List ℕ };

    /// Returns the line's row number.
    fn row(&self) -> u32
        ensures { result ≡ row_of self.now };

    /// Returns the line's key.
    fn key(&self) -> &[u8]
        ensures { result.now ≡ key_of self.now };
}

impl Line for LecturerLine {
    ghost row_of = { λ x. x.row };

    ghost key_of = { λ x. x.key };

    fn row(&self) -> u32 {
        self.row
    }

    fn key(&self) -> &[u8] {
        &self.key
    }
}

impl Line for ProjectLine {
    ghost row_of = { λ x. x.row };

    ghost key_of = { λ x. x.key };

    fn row(&self) -> u32 {
        self.row
    }

    fn key(&self) -> &[u8] {
        &self.key
    }
}

impl Line for StudentLine {
    ghost row_of = { λ x. x.row };

    ghost key_of = { λ x. x.key };

    fn row(&self) -> u32 {
        self.row
    }

    fn key(&self) -> &[u8] {
        &self.key
    }
}

/// A line with a list of keys.
pub trait HasList {
    ghost list_of: { Self → List Text };

    /// Returns the keys on the line's list.
    fn list(&self) -> &[Vec<u8>]
        ensures { map (λ text. text.items) result.now ≡ list_of self.now };
}

impl HasList for LecturerLine {
    ghost list_of = { λ x. x.list };

    fn list(&self) -> &[Vec<u8>] {
        &self.list
    }
}

impl HasList for StudentLine {
    ghost list_of = { λ x. x.list };

    fn list(&self) -> &[Vec<u8>] {
        &self.list
    }
}
