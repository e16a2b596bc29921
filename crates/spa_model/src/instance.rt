//! Instances: methods for keys, lists, ranks, capacities and placements; `fits` tests a matching.

ghost use Rattle.std.specs.Prelude.{◌≡◌, ◌<◌, ◌↔◌, [], IsTrue, IfSome, length, slice_index_or};
ghost use Rattle.std.specs.Ordering.{nat_cmp};
ghost use Rattle.std.specs.Cmp.Lexicographic.{slice_cmp};
ghost use Rattle.spa_model.specs.Pairs.{number_in};
ghost use Rattle.spa_model.specs.Spa.{choices_of, lecturer_of, capacity_of, ranking_of, limit_of};
ghost use Rattle.spa_model.specs.Spa.{rank_in, IsBefore, IsLawful, IsMatching, IsAcceptable};
ghost use Rattle.spa_model.specs.Spa.{project_of, at_project, at_lecturer};

use crate::fits::{are_acceptable, count_at, count_with, lecturers_fit, projects_fit};
use crate::matching::Matching;
use spa_rows::Key;
use std::cmp::Ordering;
use std::marker::Model;

#[derive(Drop)]
pub(crate) struct Student {
    pub(crate) key: Key,
    pub(crate) choices: Vec<usize>,
}

#[derive(Drop)]
pub(crate) struct Project {
    pub(crate) key: Key,
    pub(crate) capacity: u32,
    pub(crate) lecturer: usize,
}

#[derive(Drop)]
pub(crate) struct Lecturer {
    pub(crate) key: Key,
    pub(crate) capacity: u32,
    pub(crate) ranking: Vec<usize>,
    pub(crate) ranks: Vec<Option<u32>>,
}

/// Students, projects and lecturers, each sorted by key. Lists hold indices instead of keys.
#[derive(Drop)]
pub struct Instance {
    pub(crate) students: Vec<Student>,
    pub(crate) projects: Vec<Project>,
    pub(crate) lecturers: Vec<Lecturer>,
}

impl Model for Instance {
    ghost use Rattle.spa_model.specs.Spa.{Spa};

    ghost Value = { Spa };

    ghost use Rattle.std.specs.Prelude.{length};
    ghost use Rattle.spa_model.specs.Spa.{IsLawful};
    ghost use Rattle.spa_model.specs.inner.Inside.{spa_of, HaveRanks};

    ghost view = { λ a. spa_of a.students.items a.projects.items a.lecturers.items };

    ghost invariant = { λ a. IsLawful (spa_of a.students.items a.projects.items a.lecturers.items)
        × HaveRanks (length a.students.items) a.lecturers.items };
}

impl Instance {
    /// Returns the number of students.
    pub fn students(&self) -> usize
        ensures count { result ≡ length self.now.choices }
        ensures lawful { IsLawful self.now }
    {
        self.students.len()
    }

    /// Returns the number of projects.
    pub fn projects(&self) -> usize
        ensures count { result ≡ length self.now.lecturers }
        ensures lawful { IsLawful self.now }
    {
        self.projects.len()
    }

    /// Returns the number of lecturers.
    pub fn lecturers(&self) -> usize
        ensures count { result ≡ length self.now.rankings }
        ensures lawful { IsLawful self.now }
    {
        self.lecturers.len()
    }

    /// Returns the key of a student.
    pub fn student_key(&self, s: usize) -> &Key
        requires { s < length self.now.choices }
        ensures { result.now ≡ slice_index_or self.now.student_keys s [] }
    {
        &self.students[s].key
    }

    /// Returns the key of a project.
    pub fn project_key(&self, p: usize) -> &Key
        requires { p < length self.now.lecturers }
        ensures { result.now ≡ slice_index_or self.now.project_keys p [] }
    {
        &self.projects[p].key
    }

    /// Returns the key of a lecturer.
    pub fn lecturer_key(&self, l: usize) -> &Key
        requires { l < length self.now.rankings }
        ensures { result.now ≡ slice_index_or self.now.lecturer_keys l [] }
    {
        &self.lecturers[l].key
    }

    /// Returns the lecturer who offers a project.
    pub fn lecturer_of(&self, p: usize) -> usize
        requires { p < length self.now.lecturers }
        ensures gives { result ≡ lecturer_of self.now p }
        ensures in_range { result < length self.now.rankings }
        ensures lawful { IsLawful self.now }
    {
        self.projects[p].lecturer
    }

    /// Returns the capacity of a project, in students.
    pub fn project_capacity(&self, p: usize) -> u32
        requires { p < length self.now.lecturers }
        ensures { result ≡ capacity_of self.now p }
    {
        self.projects[p].capacity
    }

    /// Returns the capacity of a lecturer, in students over all projects.
    pub fn lecturer_capacity(&self, l: usize) -> u32
        requires { l < length self.now.rankings }
        ensures { result ≡ limit_of self.now l }
    {
        self.lecturers[l].capacity
    }

    /// Returns a student's list of projects, best first.
    pub fn choices(&self, s: usize) -> &[usize]
        requires { s < length self.now.choices }
        ensures gives { result.now ≡ choices_of self.now s }
        ensures lawful { IsLawful self.now }
    {
        self.students[s].choices.as_slice()
    }

    /// Returns a lecturer's list of students, best first.
    pub fn ranking(&self, l: usize) -> &[usize]
        requires { l < length self.now.rankings }
        ensures { result.now ≡ ranking_of self.now l }
    {
        self.lecturers[l].ranking.as_slice()
    }

    /// Returns a student's position on a lecturer's list, counted from 0, or `None` if absent.
    pub fn rank(&self, l: usize, s: usize) -> Option<u32>
        requires lecturer { l < length self.now.rankings }
        requires student { s < length self.now.choices }
        ensures { result ≡ rank_in (ranking_of self.now l) s }
    {
        self.lecturers[l].ranks[s]
    }

    /// Returns whether both students are on the lecturer's list and `a` comes before `b`.
    pub fn prefers(&self, l: usize, a: usize, b: usize) -> bool
        requires lecturer { l < length self.now.rankings }
        requires first { a < length self.now.choices }
        requires second { b < length self.now.choices }
        ensures { IsTrue result ↔ IsBefore (ranking_of self.now l) a b }
    {
        match (self.rank(l, a), self.rank(l, b)) {
            (Some(first), Some(second)) => first < second,
            _ => false,
        }
    }

    /// Returns the index of the student with this key, or the number of students if none has it.
    pub(crate) fn student_number(&self, text: &[u8]) -> usize
        ensures { result ≡ number_in self.now.student_keys text.now }
    {
        match self.students.binary_search_by(
            |student: &Student| -> Ordering
                ensures { result ≡ slice_cmp nat_cmp student.now.key text.entry.now }
            { student.key.as_bytes().cmp(text) },
        ) {
            Ok(s) => s,
            Err(_) => self.students(),
        }
    }

    /// Returns the index of the project with this key, or the number of projects if none has it.
    pub fn project_number(&self, text: &[u8]) -> usize
        ensures { result ≡ number_in self.now.project_keys text.now }
    {
        match self.projects.binary_search_by(
            |project: &Project| -> Ordering
                ensures { result ≡ slice_cmp nat_cmp project.now.key text.entry.now }
            { project.key.as_bytes().cmp(text) },
        ) {
            Ok(p) => p,
            Err(_) => self.projects(),
        }
    }

    /// Returns whether these projects, one or none for each student, form a matching.
    pub fn accepts(&self, projects: &[Option<usize>]) -> bool
        ensures { IsTrue result ↔ IsMatching self.now projects.now }
    {
        projects.len() == self.students()
            && are_acceptable(self, projects)
            && projects_fit(self, projects)
            && lecturers_fit(self, projects)
    }

    /// Returns whether a matching, perhaps of another instance, is a matching of this one.
    pub fn fits(&self, matching: &Matching) -> bool
        ensures { IsTrue result ↔ IsMatching self.now matching.now }
    {
        self.accepts(matching.projects())
    }

    /// Returns the project of a student in a matching of this instance.
    pub fn project_of(&self, matching: &Matching, student: usize) -> Option<usize>
        requires fits { IsMatching self.now matching.now }
        requires in_range { student < length self.now.choices }
        ensures gives { result ≡ project_of matching.now student }
        ensures acceptable { IfSome result (λ p. IsAcceptable self.now student p) }
        ensures in_range { IfSome result (λ p. p < length self.now.lecturers) }
    {
        prove!(student < self.students());
        matching.project(student)
    }

    /// Returns how many students a project has in a matching of this instance.
    pub fn students_at(&self, matching: &Matching, p: usize) -> usize
        requires { IsMatching self.now matching.now }
        ensures { result ≡ at_project matching.now p }
    {
        count_at(matching.projects(), p)
    }

    /// Returns how many students a lecturer has in a matching of this instance.
    pub fn students_with(&self, matching: &Matching, l: usize) -> usize
        requires { IsMatching self.now matching.now }
        ensures { result ≡ at_lecturer self.now matching.now l }
    {
        count_with(self, matching.projects(), l)
    }
}
