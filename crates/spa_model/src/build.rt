//! Builds an instance from its rows, or refuses them.

mod applicants;
mod numbers;

ghost use Rattle.std.specs.Prelude.{IfErr, IfOk};
ghost use Rattle.spa_rows.specs.Faults.{HasNoneBefore, IsRefusal};
ghost use Rattle.spa_rows.specs.Numbers.{AreListNumbers};
ghost use Rattle.spa_rows.specs.declared.faults.InstanceFault.TheVariants.{NotApplicant};
ghost use Rattle.spa_model.specs.Pairs.{IsInstanceOf};
ghost use Rattle.spa_model.specs.inner.Numbers.{AreSorted, rows_of};

use crate::instance::Instance;
use applicants::{applicant_missing, not_applicant};
use numbers::{number_lecturers, number_projects, number_students};
use spa_rows::{
    BadInstance, InstanceFault, InstanceRows, LecturerLine, ProjectLine, StudentLine, check_lines,
    check_lists, refuse, sort_rows,
};
use std::alloc::Global;

/// Builds the instance of sorted lines that `check_lines` and `check_lists` accept, given their
/// lists by number.
fn instance_of(
    alloc: Global,
    lecturers: &[LecturerLine],
    projects: &[ProjectLine],
    students: &[StudentLine],
    choices: &[Vec<usize>],
    rankings: &[Vec<usize>],
) -> Result<Instance, BadInstance>
    requires sorted { AreSorted (rows_of lecturers.now projects.now students.now) }
    requires faultless { HasNoneBefore
        (rows_of lecturers.now projects.now students.now) NotApplicant }
    requires choices { AreListNumbers projects.now (λ x. x.key) (λ x. x.list)
        students.now choices.now }
    requires rankings { AreListNumbers students.now (λ x. x.key) (λ x. x.list)
        lecturers.now rankings.now }
    ensures ok { IfOk result
        (λ i. IsInstanceOf (rows_of lecturers.now projects.now students.now) i) }
    ensures err { IfErr result
        (λ e. IsRefusal (rows_of lecturers.now projects.now students.now) e.fault e.row) }
{
    let student_rows = number_students(alloc, students, choices)?;
    let project_rows = number_projects(alloc, projects, lecturers)?;
    refuse(
        InstanceFault::NotApplicant,
        not_applicant(lecturers, rankings, &student_rows, &project_rows),
    )?;
    let lecturer_rows = number_lecturers(alloc, lecturers, rankings, students.len())?;
    refuse(
        InstanceFault::ApplicantMissing,
        applicant_missing(lecturers, &lecturer_rows, &project_rows, &student_rows),
    )?;
    Ok(Instance {
        students: student_rows,
        projects: project_rows,
        lecturers: lecturer_rows,
    })
}

impl Instance {
    /// Builds the lawful instance of these rows, the only one (law `instance_is_one`), or returns
    /// their first fault as an error.
    pub fn build(alloc: Global, rows: InstanceRows) -> Result<Instance, BadInstance>
        ensures ok { IfOk result (λ i. IsInstanceOf rows i) }
        ensures err { IfErr result (λ e. IsRefusal rows e.fault e.row) }
    {
        check_lines(alloc, &rows)?;
        let mut sorted = rows;
        sort_rows(&mut sorted)?;
        let lists = check_lists(alloc, &sorted)?;
        instance_of(
            alloc,
            &sorted.lecturers,
            &sorted.projects,
            &sorted.students,
            &lists.choices,
            &lists.rankings,
        )
    }
}
