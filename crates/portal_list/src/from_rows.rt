//! Builds entries from the rows of tables, and a keeper around them; gives a keeper's entries out.

ghost use Rattle.std.specs.Prelude.{◌≡◌, Err, IfOk};
ghost use Rattle.portal_rules.specs.World.{World};
ghost use Rattle.portal_rules.specs.Good.{Sound};
ghost use Rattle.portal_list.specs.Rows.{HasEntries, HasSoundFirst, world_rows};
ghost use Rattle.portal_list.specs.inner.Parts.{RollsFit, RollsOf};
ghost use Rattle.portal_list.specs.inner.Fit.{IsFitted};
ghost use Rattle.portal_list.specs.inner.Played.{world_with};
ghost use Rattle.portal_list.specs.declared.from_rows.RowsFault.TheVariants.{Memory};

use crate::entries::Entries;
use crate::joining::{lecturer_entries, student_entries};
use crate::keeper::ListKeeper;
use crate::roll_checks::rolls_fit;
use portal_rules::{Code, Keeper, LecturerRow, Phase, ProjectRow, Round, StudentRow};
use spa_rows::Key;
use std::alloc::{AllocError, Global};
use std::marker::Model;

/// The rows of a world, as tables store them. The rows of each roll come in ascending order of
/// keys.
#[derive(Drop)]
pub struct WorldRows {
    pub round: Round,
    pub phase: Phase,
    pub office: Code,
    pub lecturers: Vec<LecturerRow>,
    pub projects: Vec<ProjectRow>,
    pub students: Vec<StudentRow>,
    /// Each student's list, in the order of students.
    pub choices: Vec<(Key, Vec<Key>)>,
    /// The rankings that exist, in the order of lecturers.
    pub rankings: Vec<(Key, Vec<Key>)>,
    /// The result: pairs of a student and a project, in the order of students.
    pub pairs: Vec<(Key, Key)>,
    /// In the second round, each student's list of the first, in the same order; otherwise empty.
    pub earlier_choices: Vec<(Key, Vec<Key>)>,
    /// In the second round, the rankings of the first, in the same order; otherwise empty.
    pub earlier_rankings: Vec<(Key, Vec<Key>)>,
    /// In the second round, the result of the first, in the same order; otherwise empty.
    pub earlier_pairs: Vec<(Key, Key)>,
}

impl Model for WorldRows {
    ghost use Rattle.std.specs.Prelude.{map};
    ghost use Rattle.portal_list.specs.Rows.{RowsOfWorld};

    ghost Value = { RowsOfWorld };

    ghost view = { λ x. record {
      round = x.round;
      phase = x.phase;
      office = x.office;
      lecturers = x.lecturers.items;
      projects = x.projects.items;
      students = x.students.items;
      choices = map (λ c. (c.0, c.1.items)) x.choices.items;
      rankings = map (λ r. (r.0, r.1.items)) x.rankings.items;
      pairs = x.pairs.items;
      earlier_choices = map (λ c. (c.0, c.1.items)) x.earlier_choices.items;
      earlier_rankings = map (λ r. (r.0, r.1.items)) x.earlier_rankings.items;
      earlier_pairs = x.earlier_pairs.items;
    } };
}

/// Why rows or entries are refused.
#[derive(Clone, Copy, Debug, PartialEq, Eq)]
pub enum RowsFault {
    /// They represent no sound world, or a ranking that an instance needs is missing.
    NotGood,
    /// There was not enough memory.
    Memory,
}

impl From<AllocError> for RowsFault {
    ghost from_gives = { λ _ fault. fault ≡ Memory };

    fn from(_: AllocError) -> RowsFault {
        RowsFault::Memory
    }
}

/// Checks that the rolls obey the rules of a sound world, before a keeper is built from rows.
fn check_rolls(alloc: Global, rows: &WorldRows) -> Result<(), RowsFault>
    ensures fit { IfOk result (λ _. RollsFit rows.now.office rows.now.lecturers rows.now.projects
        rows.now.students) }
    ensures refused { result ≡ Err RowsFault.NotGood → RollsFit rows.now.office rows.now.lecturers
        rows.now.projects rows.now.students
        → ⊥ }
{
    let fit = rolls_fit(
        alloc,
        &rows.office,
        &rows.lecturers,
        &rows.projects,
        &rows.students,
    )?;
    if fit { Ok(()) } else { Err(RowsFault::NotGood) }
}

/// Joins rows into the entries of the world that has them. Returns `NotGood` only if no sound world
/// has them.
fn entries_of_rows(alloc: Global, rows: WorldRows) -> Result<Entries, RowsFault>
    ensures fitted { IfOk result (λ e. IsFitted rows (world_with rows.phase rows.office e)) }
    ensures refused { result ≡ Err RowsFault.NotGood → (w : World) → rows ≡ world_rows w → Sound w
        → ⊥ }
{
    let Some(lecturers) = lecturer_entries(
        alloc,
        rows.lecturers,
        rows.rankings,
        rows.earlier_rankings,
    )?
    else {
        return Err(RowsFault::NotGood);
    };
    let Some(students) = student_entries(
        alloc,
        rows.round,
        rows.students,
        rows.choices,
        rows.pairs,
        rows.earlier_choices,
        rows.earlier_pairs,
    )?
    else {
        return Err(RowsFault::NotGood);
    };
    Ok(Entries {
        round: rows.round,
        lecturers,
        projects: rows.projects,
        students,
    })
}

/// Joins rows into a keeper, and checks only its rolls. Returns `NotGood` only if no sound world has
/// the rows.
fn keeper_of_rows(alloc: Global, rows: WorldRows) -> Result<ListKeeper, RowsFault>
    ensures fitted { IfOk result (λ keeper. IsFitted rows keeper) }
    ensures rolls { IfOk result (λ keeper. RollsOf keeper) }
    ensures refused { result ≡ Err RowsFault.NotGood → (w : World) → rows ≡ world_rows w → Sound w
        → ⊥ }
{
    check_rolls(alloc, &rows)?;
    let phase = rows.phase;
    let office = rows.office.copy(alloc)?;
    let entries = entries_of_rows(alloc, rows)?;
    Ok(ListKeeper {
        phase,
        office,
        entries,
        catalogue: None,
    })
}

impl ListKeeper {
    /// Builds a keeper with exactly these rows of a sound world. In the second round the first, as
    /// published, must be sound, too. Refuses other rows, and only them, as `NotGood`, also rolls
    /// out of the order of keys.
    pub fn from_rows(alloc: Global, rows: WorldRows) -> Result<ListKeeper, RowsFault>
        ensures ok { IfOk result (λ keeper. rows ≡ world_rows keeper) }
        ensures clean { IfOk result (λ keeper. (⟦<ListKeeper as Keeper>⟧.state keeper).clean) }
        ensures sound { IfOk result (λ keeper. Sound keeper) }
        ensures first { IfOk result (λ keeper. HasSoundFirst keeper) }
        ensures err { result ≡ Err RowsFault.NotGood → (w : World) → rows ≡ world_rows w → Sound w
            → HasSoundFirst w
            → ⊥ }
    {
        let keeper = keeper_of_rows(alloc, rows)?;
        if !keeper.is_sound(alloc)? {
            return Err(RowsFault::NotGood);
        }
        if keeper.has_sound_first(alloc)? {
            Ok(keeper)
        } else {
            Err(RowsFault::NotGood)
        }
    }

    /// Turns a keeper, usually one built from the rows of tables, into the entries of its world.
    pub fn into_entries(self) -> Entries
        ensures { HasEntries result self }
    {
        self.entries
    }
}

impl Entries {
    /// Builds entries from the rows of a sound world, without checking that it is sound. Other rows
    /// give `NotGood` or meaningless entries.
    pub fn from_rows(alloc: Global, rows: WorldRows) -> Result<Entries, RowsFault>
        ensures entries { IfOk result (λ e. (w : World) → rows ≡ world_rows w → Sound w
            → HasEntries e w) }
        ensures refused { result ≡ Err RowsFault.NotGood → (w : World) → rows ≡ world_rows w
            → Sound w
            → ⊥ }
    {
        entries_of_rows(alloc, rows)
    }
}
