//! The lines of an instance file, collected by kind.

ghost use Rattle.std.specs.Prelude.{◌≡◌, ◌++◌, ◌∷◌, [], List, OnOk, IfErr};
ghost use Rattle.portal_rolls.specs.Lines as spec;
ghost use Rattle.portal_rolls.specs.Views as view;
ghost use Rattle.portal_rolls.specs.inner.AsRead as form;
ghost use Rattle.portal_rolls.specs.declared.line.FileLine as declared;

use crate::fault::RollFault;
use spa_rows::{InstanceRows, LecturerLine, PairLine, ProjectLine, StudentLine};
use std::alloc::Global;

/// A line of an instance file, of any kind.
#[derive(Drop)]
pub(crate) enum FileLine {
    Lecturer(LecturerLine),
    Project(ProjectLine),
    Student(StudentLine),
    Pair(PairLine),
}

/// The lines of a file by kind, each kind in the order of the file.
#[derive(Drop)]
pub(crate) struct File {
    lecturers: Vec<LecturerLine>,
    projects: Vec<ProjectLine>,
    students: Vec<StudentLine>,
    pairs: Vec<PairLine>,
}

impl File {
    /// Creates a file without lines.
    pub(crate) fn new(alloc: Global) -> File
        ensures { form.file result ≡ spec.file_of [] }
    {
        File {
            lecturers: Vec::new(alloc),
            projects: Vec::new(alloc),
            students: Vec::new(alloc),
            pairs: Vec::new(alloc),
        }
    }

    /// Appends a line to the lines of its kind.
    pub(crate) fn put(&mut self, line: FileLine) -> Result<(), RollFault>
        ensures ok { OnOk result ((lines : List declared.FileLine)
            → form.file self.old ≡ spec.file_of lines
            → form.file self.new ≡ spec.file_of (lines ++ line ∷ [])) }
        ensures fault { IfErr result (λ e. e ≡ RollFault.Memory) }
    {
        match line {
            FileLine::Lecturer(x) => self.lecturers.push(x)?,
            FileLine::Project(x) => self.projects.push(x)?,
            FileLine::Student(x) => self.students.push(x)?,
            FileLine::Pair(x) => self.pairs.push(x)?,
        }
        Ok(())
    }

    /// Returns the rows of the instance and the pairs of the matching.
    pub(crate) fn into_parts(self) -> (InstanceRows, Vec<PairLine>)
        ensures { view.parts result ≡ form.file self }
    {
        let rows = InstanceRows {
            lecturers: self.lecturers,
            projects: self.projects,
            students: self.students,
        };
        (rows, self.pairs)
    }
}
