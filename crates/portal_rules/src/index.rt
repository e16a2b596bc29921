//! Indexes in memory: of rows by key, and of a result by student.

ghost use Rattle.std.specs.Prelude.{◌≡◌, map, IfOk, option_map};
ghost use Rattle.std.specs.HashMap.{get};
ghost use Rattle.spa_rows.specs.inner.Index.{text_eq};
ghost use Rattle.portal_rules.specs.World.{placement_in};
ghost use Rattle.portal_rules.specs.Bodies as bodies;
ghost use Rattle.portal_rules.specs.Bodies.{is_assigned};
ghost use Rattle.portal_rules.specs.inner.Tables.{HasRows, HasTexts};

use crate::rows::{Keyed, ProjectRow, StudentRow};
use crate::view::OfficeView;
use spa_rows::Key;
use std::alloc::{AllocError, Global};
use std::collections::{HashMap, HashSet};
use std::marker::Model;

/// Makes a hash table of the rows by key. If several rows have the same key, the first one counts.
pub(crate) fn rows_by_key<'a, X: Keyed>(
    alloc: Global,
    rows: &'a [X],
) -> Result<HashMap<&'a [u8], &'a X>, AllocError>
    ensures { IfOk result (HasRows X.key_of rows.now) }
{
    let mut table = HashMap::with_capacity(alloc, rows.len())?;
    for row in rows.iter().rev() {
        table.insert(row.key().as_bytes(), row)?;
    }
    Ok(table)
}

/// Returns the row that the hash table holds for this key.
pub fn row_at<'a, X>(table: &HashMap<&'a [u8], &'a X>, key: &[u8]) -> Option<&'a X>
    ensures { result ≡ get text_eq table.now key.entry }
{
    table.get(&key).copied()
}

/// Collects the keys of the rows.
pub fn keys_of<'a, X: Keyed>(alloc: Global, rows: &'a [X]) -> Result<HashSet<&'a [u8]>, AllocError>
    ensures { IfOk result (HasTexts (map X.key_of rows.now)) }
{
    let mut keys = HashSet::with_capacity(alloc, rows.len())?;
    for row in rows {
        keys.insert(row.key().as_bytes())?;
    }
    Ok(keys)
}

/// The pairs of a result, each a student and a project, indexed by student. If a student has
/// several pairs, the first one counts. Keys can be crafted so that they all collide in the hash
/// table. A lookup then examines each pair at most once.
#[derive(Drop)]
pub struct Pairs<'a> {
    pairs: &'a [(Key, Key)],
    by_student: HashMap<&'a [u8], &'a (Key, Key)>,
}

impl<'a> Model for Pairs<'a> {
    ghost use Rattle.std.specs.Prelude.{List};
    ghost use Rattle.portal_rules.specs.Words.{Key};
    ghost use Rattle.portal_rules.specs.inner.Tables.{HasRows};

    ghost Value = { List (Key × Key) };

    ghost view = { λ p. p.pairs.now };

    ghost invariant = { λ p. HasRows (λ pair. pair.0) p.pairs.now p.by_student };
}

impl<'a> Pairs<'a> {
    /// Indexes these pairs by student.
    pub fn of(alloc: Global, pairs: &'a [(Key, Key)]) -> Result<Pairs<'a>, AllocError>
        ensures { IfOk result (λ p. p ≡ pairs.now) }
    {
        let by_student = rows_by_key(alloc, pairs)?;
        Ok(Pairs { pairs, by_student })
    }

    /// Returns the project that the pairs give to the student with this key.
    pub fn project_of(&self, student: &[u8]) -> Option<&'a Key>
        ensures { option_map (λ key. key.now) result ≡ placement_in self.now student.now }
    {
        let (_, project) = row_at(&self.by_student, student)?;
        Some(project)
    }
}

/// The result that the office sees, indexed by student. Keys can be crafted so that they all
/// collide in its hash tables. A lookup then examines each row at most once.
#[derive(Drop)]
pub struct Placings<'a> {
    view: &'a OfficeView,
    pairs: Pairs<'a>,
    projects: HashMap<&'a [u8], &'a ProjectRow>,
}

impl<'a> Model for Placings<'a> {
    ghost use Rattle.portal_rules.specs.Calls.{OfficeSees};
    ghost use Rattle.portal_rules.specs.inner.Tables.{HasPlacings};

    ghost Value = { OfficeSees };

    ghost view = { λ p. p.view.now };

    ghost invariant = { λ p. HasPlacings p.view.now p.pairs p.projects };
}

impl<'a> Placings<'a> {
    /// Indexes the result that the office sees.
    pub fn of(alloc: Global, view: &'a OfficeView) -> Result<Placings<'a>, AllocError>
        ensures { IfOk result (λ placings. placings ≡ view.now) }
    {
        let pairs = Pairs::of(alloc, &view.pairs)?;
        let projects = rows_by_key(alloc, &view.projects)?;
        Ok(Placings {
            view,
            pairs,
            projects,
        })
    }

    /// Returns whether the result gives the student a project.
    pub fn is_placed(&self, student: &StudentRow) -> bool
        ensures { result ≡ is_assigned self.now.pairs student.now.key }
    {
        self.pairs.project_of(student.key.as_bytes()).is_some()
    }

    /// Returns the project that the result gives to the student.
    pub fn project_of(&self, student: &StudentRow) -> Option<&'a ProjectRow>
        ensures { option_map (λ row. row.now) result ≡ bodies.project_given self.now student.now }
    {
        let project = self.pairs.project_of(student.key.as_bytes())?;
        row_at(&self.projects, project.as_bytes())
    }
}
