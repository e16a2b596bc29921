//! The state of the SPA-student algorithm: a cursor in each list, and cut-offs in rankings.

mod turns;

ghost use Rattle.std.specs.Prelude.{◌≡◌, ◌<◌, ◌≤◌, ◌+◌, ◌↔◌, ◌⊎◌, ℕ, IfOk, MatchOption, IsTrue};
ghost use Rattle.std.specs.Prelude.{Some, length, slice_set, slice_index, map};
ghost use Rattle.spa_model.specs.Spa.{IsWith, IsAcceptable, choices_of, project_of, lecturer_of};
ghost use Rattle.spa_model.specs.Spa.{ranking_of};
ghost use Rattle.spa_student.specs.inner.Cuts.{IsPastCut, IsUncut, IsUnderWay, AreCounts, AreMarks};
ghost use Rattle.spa_student.specs.inner.Cuts.{IsNextEntry, IsTallied, KeepsCuts, Puts, Leaves, LetsGoAt};
ghost use Rattle.spa_student.specs.inner.Cuts.{LetsGoByLecturer, Exchanges};
ghost use Rattle.spa_student.specs.inner.Machine.{rank_of};
ghost use Rattle.spa_student.specs.inner.Worst.{IsWorstAt, IsWorstWith};

use spa_model::Instance;
use std::alloc::{AllocError, Global};
pub use turns::solve;

/// The state of the search for the student-optimal stable matching.
#[derive(Drop)]
pub(crate) struct Progress {
    /// For each student, the position of the first list entry that is not passed.
    cursors: Vec<usize>,
    /// For each student, the provisional project, if any.
    projects: Vec<Option<usize>>,
    /// For each project: students at this position on the lecturer's ranking or later don't get it.
    project_cuts: Vec<usize>,
    /// For each lecturer: students at this position or later get none of the lecturer's projects.
    lecturer_cuts: Vec<usize>,
    /// For each project, the number of its students.
    project_counts: Vec<usize>,
    /// For each lecturer, the number of students over all projects.
    lecturer_counts: Vec<usize>,
}

impl Progress {
    /// Returns whether the student is at or past the cut of the project or of its lecturer.
    fn is_past_cut(&self, instance: &Instance, s: usize, p: usize) -> bool
        requires marks { AreMarks instance.now self.now }
        requires acceptable { IsAcceptable instance.now s p }
        ensures { IsTrue result ↔ IsPastCut instance.now self.now s p }
    {
        let l = instance.lecturer_of(p);
        match instance.rank(l, s) {
            Some(rank) => {
                let rank = rank as usize;
                self.project_cuts[p] <= rank || self.lecturer_cuts[l] <= rank
            }
            None => unreachable!(),
        }
    }

    /// Returns the position of the first entry that is neither passed nor cut. Without such an
    /// entry, returns the list's length.
    fn next(&self, instance: &Instance, s: usize) -> usize
        requires marks { AreMarks instance.now self.now }
        requires in_range { s < length instance.now.choices }
        ensures from { slice_index self.now.cursors.items s ≤ result }
        ensures to { result ≤ length (choices_of instance.now s) }
        ensures cut { (k : ℕ) → slice_index self.now.cursors.items s ≤ k → k < result
            → IsPastCut instance.now self.now s (slice_index (choices_of instance.now s) k) }
        ensures uncut { result < length (choices_of instance.now s)
            → IsPastCut instance.now self.now s (slice_index (choices_of instance.now s) result)
            → ⊥ }
    {
        let list = instance.choices(s);
        for k in self.cursors[s]..list.len() {
            if !self.is_past_cut(instance, s, list[k]) {
                return k;
            }
        }
        list.len()
    }

    /// Returns whether the student's provisional project is `p`.
    fn is_at(&self, s: usize, p: usize) -> bool
        requires { s < length self.now.projects.items }
        ensures { IsTrue result ↔ (project_of self.now.projects.items s ≡ Some p) }
    {
        match self.projects[s] {
            Some(q) => q == p,
            None => false,
        }
    }

    /// Returns whether the student has a project of the lecturer who offers `p`.
    fn is_with(&self, instance: &Instance, s: usize, p: usize) -> bool
        requires marks { AreMarks instance.now self.now }
        requires in_range { s < length self.now.projects.items }
        requires offered { p < length instance.now.lecturers }
        ensures { IsTrue result
            ↔ IsWith instance.now self.now.projects.items (lecturer_of instance.now p) s }
    {
        match self.projects[s] {
            Some(q) => instance.lecturer_of(q) == instance.lecturer_of(p),
            None => false,
        }
    }

    /// Returns the position, on the lecturer's ranking, of the worst student at the project.
    fn worst_at(&self, instance: &Instance, p: usize) -> usize
        requires marks { AreMarks instance.now self.now }
        requires uncut { IsUncut instance.now self.now }
        requires in_range { p < length instance.now.lecturers }
        requires some { (s : ℕ) × (project_of self.now.projects.items s ≡ Some p) }
        ensures in_range { result < length (ranking_of instance.now (lecturer_of instance.now p)) }
        ensures worst { IsWorstAt instance.now self.now.projects.items p
            (slice_index (ranking_of instance.now (lecturer_of instance.now p)) result) }
    {
        let ranking = instance.ranking(instance.lecturer_of(p));
        for k in (0..self.project_cuts[p]).rev() {
            if self.is_at(ranking[k], p) {
                return k;
            }
        }
        unreachable!()
    }

    /// Returns the position, on the ranking of the project's lecturer, of the worst student at any
    /// of the lecturer's projects.
    fn worst_with(&self, instance: &Instance, p: usize) -> usize
        requires marks { AreMarks instance.now self.now }
        requires uncut { IsUncut instance.now self.now }
        requires in_range { p < length instance.now.lecturers }
        requires some { (s : ℕ) × IsWith instance.now self.now.projects.items
            (lecturer_of instance.now p) s }
        ensures in_range { result < length (ranking_of instance.now (lecturer_of instance.now p)) }
        ensures worst { IsWorstWith instance.now self.now.projects.items
            (lecturer_of instance.now p)
            (slice_index (ranking_of instance.now (lecturer_of instance.now p)) result) }
    {
        let l = instance.lecturer_of(p);
        let ranking = instance.ranking(l);
        for k in (0..self.lecturer_cuts[l]).rev() {
            if self.is_with(instance, ranking[k], p) {
                return k;
            }
        }
        unreachable!()
    }

    /// Removes student `w` from project `u`, and moves the student's cursor to the next entry.
    fn leave(&mut self, instance: &Instance, w: usize, u: usize)
        requires tallied { IsTallied instance.now self.old }
        requires has { project_of self.old.projects.items w ≡ Some u }
        requires past { IsPastCut instance.now self.old w u }
        ensures leaves { Leaves w self.old self.new }
        ensures cuts { KeepsCuts self.old self.new }
        ensures tallied { IsTallied instance.now self.new }
    {
        let entries = instance.choices(w).len();
        prove!(self.cursors[w] < entries);
        let l = instance.lecturer_of(u);
        self.projects[w] = None;
        self.cursors[w] += 1;
        self.project_counts[u] -= 1;
        self.lecturer_counts[l] -= 1;
    }

    /// Removes and returns the project's worst student. The cut moves to the student's position.
    fn let_go_at(&mut self, instance: &Instance, p: usize) -> usize
        requires tallied { IsTallied instance.now self.old }
        requires uncut { IsUncut instance.now self.old }
        requires in_range { p < length instance.now.lecturers }
        requires some { (s : ℕ) × (project_of self.old.projects.items s ≡ Some p) }
        ensures { LetsGoAt instance.now p result self.old self.new }
    {
        let rank = self.worst_at(instance, p);
        let w = instance.ranking(instance.lecturer_of(p))[rank];
        self.project_cuts[p] = rank;
        self.leave(instance, w, p);
        w
    }

    /// Removes and returns the worst student of the project's lecturer, whose cut moves to the
    /// student's position.
    fn let_go_by_lecturer(&mut self, instance: &Instance, p: usize) -> usize
        requires tallied { IsTallied instance.now self.old }
        requires uncut { IsUncut instance.now self.old }
        requires in_range { p < length instance.now.lecturers }
        requires some { (s : ℕ) × IsWith instance.now self.old.projects.items
            (lecturer_of instance.now p) s }
        ensures { LetsGoByLecturer instance.now p result self.old self.new }
    {
        let l = instance.lecturer_of(p);
        let rank = self.worst_with(instance, p);
        let w = instance.ranking(l)[rank];
        let Some(u) = self.projects[w] else {
            unreachable!()
        };
        self.lecturer_cuts[l] = rank;
        self.leave(instance, w, u);
        w
    }

    /// Assigns a free student to a project, and removes nobody yet.
    fn place(&mut self, instance: &Instance, s: usize, p: usize)
        requires state { IsUnderWay instance.now self.old }
        requires next { IsNextEntry instance.now self.old s p }
        ensures puts { Puts s p self.old self.new }
        ensures cuts { KeepsCuts self.old self.new }
        ensures marks { AreMarks instance.now self.new }
        ensures counts { AreCounts instance.now self.new }
    {
        let l = instance.lecturer_of(p);
        self.projects[s] = Some(p);
        self.project_counts[p] += 1;
        self.lecturer_counts[l] += 1;
    }

    /// Assigns a free student to a project. If the project is now over capacity, removes its worst
    /// student; otherwise does the same for the lecturer. Returns the removed student, if any.
    fn put(&mut self, instance: &Instance, s: usize, p: usize) -> Option<usize>
        requires state { IsUnderWay instance.now self.old }
        requires next { IsNextEntry instance.now self.old s p }
        ensures state { IsUnderWay instance.now self.new }
        ensures moves { MatchOption result (Puts s p self.old self.new)
            (λ w. Exchanges s p w self.old self.new) }
    {
        let l = instance.lecturer_of(p);
        self.place(instance, s, p);
        if self.project_counts[p] > instance.project_capacity(p) as usize {
            return Some(self.let_go_at(instance, p));
        }
        if self.lecturer_counts[l] > instance.lecturer_capacity(l) as usize {
            return Some(self.let_go_by_lecturer(instance, p));
        }
        None
    }

    /// Creates the initial state: nobody has a project, and nobody is cut.
    fn new(alloc: Global, instance: &Instance) -> Result<Progress, AllocError>
        ensures { IfOk result (λ q. IsUnderWay instance.now q) }
    {
        Ok(Progress {
            cursors: vec![in alloc; 0; instance.students()]?,
            projects: vec![in alloc; None; instance.students()]?,
            project_cuts: first_project_cuts(alloc, instance)?,
            lecturer_cuts: first_lecturer_cuts(alloc, instance)?,
            project_counts: vec![in alloc; 0; instance.projects()]?,
            lecturer_counts: vec![in alloc; 0; instance.lecturers()]?,
        })
    }
}

/// Returns the first cut of each project: the length of its lecturer's ranking.
fn first_project_cuts(alloc: Global, instance: &Instance) -> Result<Vec<usize>, AllocError>
    ensures { IfOk result (λ cuts. cuts.items ≡ map
        (λ l. length (ranking_of instance.now l)) instance.now.lecturers) }
{
    let mut cuts = Vec::new(alloc);
    for p in 0..instance.projects() {
        cuts.push(instance.ranking(instance.lecturer_of(p)).len())?;
    }
    Ok(cuts)
}

/// Returns the first cut of each lecturer: the length of the ranking.
fn first_lecturer_cuts(alloc: Global, instance: &Instance) -> Result<Vec<usize>, AllocError>
    ensures { IfOk result (λ cuts. cuts.items ≡ map length instance.now.rankings) }
{
    let mut cuts = Vec::new(alloc);
    for l in 0..instance.lecturers() {
        cuts.push(instance.ranking(l).len())?;
    }
    Ok(cuts)
}
