//! Entries: rows of the rolls, joined with lists and rankings. `follow` and `place` change them.

ghost use Rattle.std.specs.Prelude.{◌≡◌, true, false, Ok, Some, IfOk, OnOk, OnErr, map};
ghost use Rattle.portal_rules.specs.World.{World, changed, with_place, ranked_before};
ghost use Rattle.portal_rules.specs.World.{placed_before};
ghost use Rattle.portal_rules.specs.Good.{Sound};
ghost use Rattle.portal_rules.specs.Meaning.{change_model};
ghost use Rattle.portal_list.specs.Rows.{HasEntries, is_followed};

use crate::changes::{fill_rankings, place_all, replace_list};
use portal_rules::{Change, LecturerRow, ProjectRow, Round, StudentRow};
use spa_rows::Key;
use std::alloc::{AllocError, Global};
use std::marker::Model;
use std::mem;

/// A lecturer's row, and the ranking of the current round if there is one. In the second round it
/// also has the ranking of the first.
#[derive(Drop)]
pub(crate) struct LecturerEntry {
    pub row: LecturerRow,
    pub ranking: Option<Vec<Key>>,
    pub earlier_ranking: Option<Vec<Key>>,
}

impl Model for LecturerEntry {
    ghost use Rattle.std.specs.Prelude.{option_map};
    ghost use Rattle.portal_rules.specs.World.{Lecturer};

    ghost Value = { Lecturer };

    ghost view = { λ e. record {
      row = e.row;
      ranking = option_map (λ r. r.items) e.ranking;
      earlier_ranking = option_map (λ r. r.items) e.earlier_ranking;
    } };
}

/// A student's row, and the list and the placement of the current round. In the second round it
/// also has those of the first.
#[derive(Drop)]
pub(crate) struct StudentEntry {
    pub row: StudentRow,
    pub choice: Vec<Key>,
    pub placed: Option<Key>,
    pub earlier_choice: Vec<Key>,
    pub earlier_placement: Option<Key>,
}

impl Model for StudentEntry {
    ghost use Rattle.portal_rules.specs.World.{Student};

    ghost Value = { Student };

    ghost view = { λ e. record {
      row = e.row;
      choice = e.choice.items;
      placed = e.placed;
      earlier_choice = e.earlier_choice.items;
      earlier_placement = e.earlier_placement;
    } };
}

/// An entry with a list of the current round, a lecturer's ranking or a student's choice.
pub(crate) trait Entry {
    ghost use Rattle.std.specs.Prelude.{List};
    ghost use Rattle.portal_rules.specs.Words.{Key};

    /// The entry with this list.
    ghost with_list: { List Key → Self → Self };

    /// The entry in a new round, before anything of that round is in it.
    ghost laid_by: { Self → Self };

    /// Replaces the list.
    fn set_list(&mut self, list: Vec<Key>)
        ensures { self.new ≡ with_list list.items self.old };

    /// Moves what is of the current round into the fields of the first, without allocating.
    fn lay_by(&mut self, alloc: Global)
        ensures { self.new ≡ laid_by self.old };
}

impl Entry for LecturerEntry {
    ghost with_list = { λ list l. record l { ranking = Some list } };

    ghost laid_by = { ranked_before };

    fn set_list(&mut self, list: Vec<Key>) {
        self.ranking = Some(list);
    }

    fn lay_by(&mut self, _alloc: Global) {
        self.earlier_ranking = self.ranking.take();
    }
}

impl Entry for StudentEntry {
    ghost with_list = { λ list s. record s { choice = list } };

    ghost laid_by = { placed_before };

    fn set_list(&mut self, list: Vec<Key>) {
        self.choice = list;
    }

    fn lay_by(&mut self, alloc: Global) {
        self.earlier_choice = mem::replace(&mut self.choice, Vec::new(alloc));
        self.earlier_placement = self.placed.take();
    }
}

/// The entries of a world, in the order of its rolls.
#[derive(Drop)]
pub struct Entries {
    pub(crate) round: Round,
    pub(crate) lecturers: Vec<LecturerEntry>,
    pub(crate) projects: Vec<ProjectRow>,
    pub(crate) students: Vec<StudentEntry>,
}

impl Model for Entries {
    ghost use Rattle.portal_list.specs.Rows.{AllEntries};

    ghost Value = { AllEntries };

    ghost view = { λ e. record {
      round = e.round;
      lecturers = e.lecturers.items;
      projects = e.projects.items;
      students = e.students.items;
    } };
}

impl Entries {
    /// Changes the entries for a result: gives each student who takes part the project of the
    /// pairs, or none.
    pub(crate) fn place(&mut self, alloc: Global, pairs: &[(Key, Key)]) -> Result<(), AllocError>
        ensures made { OnOk result (self.new
            ≡ record self.old { students = map (with_place pairs.now) self.old.students }) }
        ensures same { OnErr result (self.new ≡ self.old) }
    {
        place_all(alloc, &mut self.students, pairs)
    }

    /// Updates the entries for a fill, or for a change of a list, a ranking or the phase. It then
    /// returns `true`. For new rolls, a result or the second round it returns `false`. In that
    /// case, and if an allocation fails, the entries are unchanged.
    pub fn follow(&mut self, alloc: Global, change: &Change) -> Result<bool, AllocError>
        ensures followed { IfOk result (λ yes. yes ≡ is_followed (change_model change.now)) }
        ensures made { result ≡ Ok true → (w : World) → Sound w → HasEntries self.old w
            → HasEntries self.new (changed w (change_model change.now)) }
        ensures not_made { result ≡ Ok false → self.new ≡ self.old }
        ensures same { OnErr result (self.new ≡ self.old) }
    {
        match change {
            Change::Choices { student, projects } => {
                replace_list(alloc, &mut self.students, student, projects)?;
                Ok(true)
            }
            Change::Ranking { lecturer, students } => {
                replace_list(alloc, &mut self.lecturers, lecturer, students)?;
                Ok(true)
            }
            Change::Fill => {
                fill_rankings(alloc, &mut self.lecturers, &self.projects, &self.students)?;
                Ok(true)
            }
            Change::Phase(_) => Ok(true),
            Change::Lecturers(_)
            | Change::Projects(_)
            | Change::Students(_)
            | Change::Result(_)
            | Change::SecondRound => Ok(false),
        }
    }
}
