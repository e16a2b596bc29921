//! Builds matchings from pairs; names the faults that pairs can have.

ghost use Rattle.std.specs.Prelude.{◌≡◌, ◌<◌, IfErr, IfOk, length};

use crate::instance::Instance;
use crate::pairs::{assigned_projects, check_pairs, project_numbers, student_numbers};
use spa_rows::PairLine;
use std::alloc::{AllocError, Global};
use std::marker::Model;

/// A fault of a matching's pairs. Of several faults, the first in this order is reported.
#[derive(Clone, Copy, Debug, PartialEq, Eq)]
pub enum MatchingFault {
    /// The pair's student is unknown.
    NoSuchStudent,
    /// The pair's project is unknown.
    NoSuchProject,
    /// The project is not on the student's list.
    NotAcceptable,
    /// The student is in an earlier pair.
    StudentTwice,
    /// This pair and the earlier ones exceed the project's capacity.
    ProjectOver,
    /// This pair and the earlier ones exceed the lecturer's capacity.
    LecturerOver,
    /// Memory ran out.
    Memory,
}

/// A fault, and the lowest-numbered row that has it (0 for `Memory`).
#[derive(Clone, Copy, Debug, PartialEq, Eq)]
pub struct BadMatching {
    pub fault: MatchingFault,
    pub row: u32,
}

impl From<AllocError> for BadMatching {
    ghost use Rattle.spa_model.specs.declared.matching.MatchingFault.{MatchingFault};

    ghost from_gives = { λ _ e. (e.fault ≡ MatchingFault.Memory) × (e.row ≡ 0) };

    fn from(_: AllocError) -> BadMatching {
        BadMatching {
            fault: MatchingFault::Memory,
            row: 0,
        }
    }
}

/// The project of each student, if any.
#[derive(Drop)]
pub struct Matching {
    projects: Vec<Option<usize>>,
}

impl Model for Matching {
    ghost use Rattle.std.specs.Prelude.{List, ℕ, Option};

    ghost Value = { List (Option ℕ) };

    ghost view = { λ m. m.projects.items };
}

impl Matching {
    ghost use Rattle.spa_model.specs.Spa.{project_of, IsMatching};
    ghost use Rattle.spa_model.specs.Pairs.{IsMatchingOf, IsPairRefusal};

    /// Builds the matching of these pairs, or returns their first fault as an error.
    pub fn build(
        alloc: Global,
        instance: &Instance,
        pairs: Vec<PairLine>,
    ) -> Result<Matching, BadMatching>
        ensures ok { IfOk result (λ m. IsMatchingOf instance.now pairs.items m) }
        ensures err { IfErr result (λ e. IsPairRefusal instance.now pairs.items e.fault e.row) }
    {
        let lines = pairs.as_slice();
        let students = student_numbers(alloc, instance, lines)?;
        let projects = project_numbers(alloc, instance, lines)?;
        check_pairs(alloc, instance, lines, &students, &projects)?;
        let own = assigned_projects(alloc, instance.students(), &students, &projects)?;
        Ok(Matching { projects: own })
    }

    /// Creates a matching from each student's project or none.
    pub fn of(instance: &Instance, projects: Vec<Option<usize>>) -> Matching
        requires { IsMatching instance.now projects.items }
        ensures { result ≡ projects.items }
    {
        // only the contract needs the instance
        let _ = instance;
        Matching { projects }
    }

    /// Returns the project of each student.
    pub(crate) fn projects(&self) -> &[Option<usize>]
        ensures { result.now ≡ self.now }
    {
        &self.projects
    }

    /// Returns the project of a student, if any.
    pub(crate) fn project(&self, student: usize) -> Option<usize>
        requires { student < length self.now }
        ensures { result ≡ project_of self.now student }
    {
        self.projects[student]
    }
}
