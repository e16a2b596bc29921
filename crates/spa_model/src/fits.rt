//! Tests whether assigned projects form a matching: all acceptable, no capacity exceeded.

ghost use Rattle.std.specs.Prelude.{◌≡◌, ◌<◌, ◌≤◌, ◌↔◌, ℕ, IsTrue, Some, length};
ghost use Rattle.spa_model.specs.Spa.{IsOn, at_project, at_lecturer, project_of, is_project};
ghost use Rattle.spa_model.specs.Spa.{is_lecturer, capacity_of, limit_of};
ghost use Rattle.spa_model.specs.inner.Fitting.{AreAcceptable};

use crate::instance::Instance;

/// Returns whether the project `x` is acceptable: on the student's list.
pub(crate) fn is_on(list: &[usize], x: usize) -> bool
    ensures { IsTrue result ↔ IsOn list.now x }
{
    list.contains(&x)
}

/// Returns whether the assigned projects are acceptable: each on its student's list.
pub(crate) fn are_acceptable(instance: &Instance, projects: &[Option<usize>]) -> bool
    requires { length projects.now ≡ length instance.now.choices }
    ensures { IsTrue result ↔ AreAcceptable instance.now projects.now }
{
    for s in 0..projects.len() {
        if let Some(p) = projects[s] {
            if !is_on(instance.choices(s), p) {
                return false;
            }
        }
    }
    true
}

/// Returns how many students have this assigned project, to test its capacity.
pub(crate) fn count_at(projects: &[Option<usize>], p: usize) -> usize
    ensures { result ≡ at_project projects.now p }
{
    projects.iter().filter(|q| **q == Some(p)).count()
}

/// Returns whether the assigned projects keep within the projects' capacities.
pub(crate) fn projects_fit(instance: &Instance, projects: &[Option<usize>]) -> bool
    requires { AreAcceptable instance.now projects.now }
    ensures { IsTrue result ↔ ((p : ℕ) → at_project projects.now p ≤ capacity_of instance.now p) }
{
    for p in 0..instance.projects() {
        if count_at(projects, p) > instance.project_capacity(p) as usize {
            return false;
        }
    }
    true
}

/// Returns whether the student's assigned project is one of the lecturer's.
fn is_with(instance: &Instance, projects: &[Option<usize>], l: usize, s: usize) -> bool
    requires acceptable { AreAcceptable instance.now projects.now }
    requires in_range { s < length projects.now }
    ensures { result ≡ is_lecturer instance.now l (project_of projects.now s) }
{
    match projects[s] {
        Some(p) => {
            prove!(p < instance.projects());
            instance.lecturer_of(p) == l
        }
        None => false,
    }
}

/// Returns how many students have an assigned project of the lecturer, to test the capacity.
pub(crate) fn count_with(instance: &Instance, projects: &[Option<usize>], l: usize) -> usize
    requires { AreAcceptable instance.now projects.now }
    ensures { result ≡ at_lecturer instance.now projects.now l }
{
    let mut count = 0;
    for s in 0..projects.len() {
        if is_with(instance, projects, l, s) {
            count += 1;
        }
    }
    count
}

/// Returns whether the assigned projects keep within the lecturers' capacities.
pub(crate) fn lecturers_fit(instance: &Instance, projects: &[Option<usize>]) -> bool
    requires { AreAcceptable instance.now projects.now }
    ensures { IsTrue result
        ↔ ((l : ℕ) → at_lecturer instance.now projects.now l ≤ limit_of instance.now l) }
{
    for l in 0..instance.lecturers() {
        if count_with(instance, projects, l) > instance.lecturer_capacity(l) as usize {
            return false;
        }
    }
    true
}
