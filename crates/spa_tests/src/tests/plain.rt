//! Models an instance as plain lists. It tests each pair for blocking, and solves the instance by
//! shortening lists.

use super::blocking::block;
use super::chance::add;
use spa_check::Block;
use spa_model::{Instance, Letter};
use std::process::Abort;

/// The lists and capacities of an instance, by number.
#[derive(Drop)]
pub(crate) struct Board {
    choices: Vec<Vec<usize>>,
    rankings: Vec<Vec<usize>>,
    /// The lecturer of each project. `places` has the capacities.
    owners: Vec<usize>,
    places: Vec<usize>,
    /// The capacity of each lecturer.
    rooms: Vec<usize>,
}

/// Returns the list of this number, or an empty one.
fn row(rows: &[Vec<usize>], at: usize) -> &[usize] {
    match rows.get(at) {
        Some(row) => row.as_slice(),
        None => &[],
    }
}

/// Returns the entry of this number, or 0.
fn number(numbers: &[usize], at: usize) -> usize {
    numbers.get(at).copied().unwrap_or(0)
}

/// Returns the student's project.
fn project(projects: &[Option<usize>], s: usize) -> Option<usize> {
    projects.get(s).copied().unwrap_or(None)
}

/// Returns the place of the number on the list, or the list's length.
fn place(list: &[usize], wanted: usize) -> usize {
    list.iter().position(|x| *x == wanted).unwrap_or(list.len())
}

/// Appends a copy of the list.
fn put_list(rt: &(impl Abort + AllocGlobal), lists: &mut Vec<Vec<usize>>, list: &[usize]) {
    add(
        rt,
        lists,
        Vec::from_slice(rt.alloc(), list).expect(rt, "memory"),
    );
}

/// The project of each student.
pub(crate) type Places = Vec<Option<usize>>;

impl Board {
    /// Copies the instance.
    pub(crate) fn of(rt: &(impl Abort + AllocGlobal), instance: &Instance) -> Board {
        let alloc = rt.alloc();
        let mut board = Board {
            choices: Vec::new(alloc),
            rankings: Vec::new(alloc),
            owners: Vec::new(alloc),
            places: Vec::new(alloc),
            rooms: Vec::new(alloc),
        };
        for s in 0..instance.students() {
            put_list(rt, &mut board.choices, instance.choices(s));
        }
        for p in 0..instance.projects() {
            add(rt, &mut board.owners, instance.lecturer_of(p));
            add(rt, &mut board.places, instance.project_capacity(p) as usize);
        }
        for l in 0..instance.lecturers() {
            put_list(rt, &mut board.rankings, instance.ranking(l));
            add(rt, &mut board.rooms, instance.lecturer_capacity(l) as usize);
        }
        board
    }

    /// Returns whether the lecturer offers the project.
    fn is_with(&self, own: Option<usize>, l: usize) -> bool {
        match own {
            Some(p) => number(&self.owners, p) == l,
            None => false,
        }
    }

    /// Counts the students at the project.
    fn count_at(&self, projects: &[Option<usize>], p: usize) -> usize {
        projects.iter().filter(|own| **own == Some(p)).count()
    }

    /// Counts the students with the lecturer.
    fn count_with(&self, projects: &[Option<usize>], l: usize) -> usize {
        projects.iter().filter(|own| self.is_with(**own, l)).count()
    }

    /// Returns the lowest-ranked student at the project.
    fn worst_at(&self, projects: &[Option<usize>], p: usize) -> Option<usize> {
        let ranking = row(&self.rankings, number(&self.owners, p));
        let mut students = ranking.iter().copied().rev();
        students.find(|t| project(projects, *t) == Some(p))
    }

    /// Returns the lowest-ranked student at any project of the lecturer.
    fn worst_with(&self, projects: &[Option<usize>], l: usize) -> Option<usize> {
        let ranking = row(&self.rankings, l);
        let mut students = ranking.iter().copied().rev();
        students.find(|t| self.is_with(project(projects, *t), l))
    }

    /// Returns whether `w` is a student who comes after `s` on the lecturer's ranking.
    fn is_worse(&self, l: usize, w: Option<usize>, s: usize) -> bool {
        let ranking = row(&self.rankings, l);
        match w {
            Some(w) => place(ranking, s) < place(ranking, w),
            None => false,
        }
    }

    /// Returns why the student and the project block, if they do.
    fn letter(&self, projects: &[Option<usize>], s: usize, p: usize) -> Option<Letter> {
        let list = row(&self.choices, s);
        let own = project(projects, s);
        let kept = match own {
            Some(q) => place(list, q),
            None => list.len(),
        };
        if place(list, p) >= kept {
            return None;
        }
        let l = number(&self.owners, p);
        if self.count_at(projects, p) >= number(&self.places, p) {
            let is_better = self.is_worse(l, self.worst_at(projects, p), s);
            return is_better.then_some(Letter::C);
        }
        if self.count_with(projects, l) < number(&self.rooms, l) {
            return Some(Letter::A);
        }
        if self.is_with(own, l) || self.is_worse(l, self.worst_with(projects, l), s) {
            return Some(Letter::B);
        }
        None
    }

    /// Returns all blocking pairs, ordered by student, then by project.
    pub(crate) fn blocks(&self, rt: &(impl Abort + AllocGlobal), projects: &Places) -> Vec<Block> {
        let mut blocks = Vec::new(rt.alloc());
        for student in 0..self.choices.len() {
            for project in 0..self.owners.len() {
                if let Some(letter) = self.letter(projects, student, project) {
                    add(rt, &mut blocks, block(student, project, letter));
                }
            }
        }
        blocks
    }

    /// Removes the projects of `struck` from the lists of the students ranked after `w`.
    fn strike(&mut self, l: usize, w: usize, struck: &[usize]) {
        let ranking = row(&self.rankings, l);
        for t in ranking.iter().skip(place(ranking, w).saturating_add(1)) {
            if let Some(list) = self.choices.get_mut(*t) {
                list.retain(|p| !struck.contains(p));
            }
        }
    }

    /// Assigns the student to the project, and lets a student go if there is no room. Then shortens
    /// the lists of students ranked after the last one at a full project or lecturer.
    fn round(
        &mut self,
        rt: &(impl Abort + AllocGlobal),
        projects: &mut Places,
        s: usize,
        p: usize,
    ) {
        let l = number(&self.owners, p);
        set(projects, s, Some(p));
        if self.count_at(projects, p) > number(&self.places, p) {
            let worst = self.worst_at(projects, p);
            self.let_go(projects, worst, p);
        } else if self.count_with(projects, l) > number(&self.rooms, l) {
            let worst = self.worst_with(projects, l);
            self.let_go(projects, worst, p);
        }
        if self.count_at(projects, p) == number(&self.places, p) {
            if let Some(w) = self.worst_at(projects, p) {
                self.strike(l, w, &[p]);
            }
        }
        if self.count_with(projects, l) == number(&self.rooms, l) {
            if let Some(w) = self.worst_with(projects, l) {
                let offered = self.offered(rt, l);
                self.strike(l, w, &offered);
            }
        }
    }

    /// Returns the projects of the lecturer.
    fn offered(&self, rt: &(impl Abort + AllocGlobal), l: usize) -> Vec<usize> {
        let mut offered = Vec::new(rt.alloc());
        for q in 0..self.owners.len() {
            if number(&self.owners, q) == l {
                add(rt, &mut offered, q);
            }
        }
        offered
    }

    /// Takes the student's project away, and removes it from the student's list.
    fn let_go(&mut self, projects: &mut Places, w: Option<usize>, p: usize) {
        let Some(w) = w else {
            return;
        };
        let own = project(projects, w).unwrap_or(p);
        set(projects, w, None);
        if let Some(list) = self.choices.get_mut(w) {
            list.retain(|q| *q != own);
        }
    }

    /// Returns a free student with a project left on the list, and the first such project.
    fn next(&self, projects: &[Option<usize>]) -> Option<(usize, usize)> {
        for s in 0..self.choices.len() {
            if project(projects, s).is_none() {
                if let Some(p) = row(&self.choices, s).first() {
                    return Some((s, *p));
                }
            }
        }
        None
    }

    /// Computes the student-optimal matching by the method that shortens lists.
    pub(crate) fn solve(&mut self, rt: &(impl Abort + AllocGlobal)) -> Places {
        let mut projects = Vec::new(rt.alloc());
        for _ in 0..self.choices.len() {
            add(rt, &mut projects, None);
        }
        for _ in 0..10_000 {
            let Some((s, p)) = self.next(&projects) else {
                return projects;
            };
            self.round(rt, &mut projects, s, p);
        }
        projects
    }
}

/// Sets the student's project.
fn set(projects: &mut Places, s: usize, own: Option<usize>) {
    if let Some(place) = projects.get_mut(s) {
        *place = own;
    }
}
