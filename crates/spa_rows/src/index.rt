//! Looks up lines by key, in a hash table, and sorts them by key.

ghost use Rattle.std.specs.Prelude.{◌≡◌, ◌<◌, ◌↔◌, IsTrue, IfNone, IfOk, IfSome, OnOk, length};
ghost use Rattle.std.specs.Prelude.{map, slice_index_or, IsPermutation, IsSortedByKey};
ghost use Rattle.std.specs.Ordering.{nat_cmp};
ghost use Rattle.std.specs.Cmp.Lexicographic.{slice_cmp};
ghost use Rattle.spa_rows.specs.Faults.{IsKeyOf};
ghost use Rattle.std.specs.HashMap.{get};
ghost use Rattle.spa_rows.specs.inner.Index.{text_eq};
ghost use Rattle.spa_rows.specs.Numbers.{AreListNumbers, HasNumber, HaveNumbers};

use crate::lines::{HasList, InstanceRows, Line};
use std::alloc::{AllocError, Global};
use std::cmp::Ordering;
use std::collections::HashMap;
use std::marker::Model;

/// Returns the index of the line that the hash table holds for a key, if any.
fn place_of(places: &HashMap<&[u8], usize>, key: &[u8]) -> Option<usize>
    ensures { result ≡ get text_eq places.now key.entry }
{
    places.get(&key).copied()
}

/// Lines, and a hash map from each key to the index of its line. Crafted keys can collide in the
/// map; a search then compares each key at most once.
#[derive(Drop)]
pub struct LineIndex<'a, L: Line> {
    lines: &'a [L],
    places: HashMap<&'a [u8], usize>,
}

impl<'a, L: Line> Model for LineIndex<'a, L> {
    ghost use Rattle.std.specs.Prelude.{List, length};
    ghost use Rattle.spa_rows.specs.inner.Index.{IsIndexOf};

    ghost Value = { List L };

    ghost view = { λ p. p.lines.now };

    ghost invariant = { λ p. IsIndexOf p.lines.now L.key_of (length p.lines.now) p.places };
}

impl<'a, L: Line> LineIndex<'a, L> {
    /// Indexes these lines by key. If a key occurs twice, its last line counts.
    pub fn of(alloc: Global, lines: &'a [L]) -> Result<LineIndex<'a, L>, AllocError>
        ensures { IfOk result (λ places. places ≡ lines.now) }
    {
        let mut places = HashMap::with_capacity(alloc, lines.len())?;
        for (place, line) in lines.iter().enumerate() {
            places.insert(line.key(), place)?;
        }
        Ok(LineIndex { lines, places })
    }

    /// Returns the number of lines.
    pub fn len(&self) -> usize
        ensures { result ≡ length self.now }
    {
        self.lines.len()
    }

    /// Returns the index of a line with this key, if there is one.
    pub fn find(&self, key: &[u8]) -> Option<usize>
        ensures found { IfSome result (λ k. (k < length self.now)
            × ((d : L) → L.key_of (slice_index_or self.now k d) ≡ key.now)) }
        ensures none { IfNone result (IsKeyOf self.now L.key_of key.now → ⊥) }
    {
        place_of(&self.places, key)
    }

    /// Returns whether a line has this key.
    pub fn has(&self, key: &[u8]) -> bool
        ensures { IsTrue result ↔ IsKeyOf self.now L.key_of key.now }
    {
        self.find(key).is_some()
    }

    /// Returns the index of a line with this key, or the number of lines if there is none.
    fn number(&self, key: &[u8]) -> usize
        ensures { HasNumber self.now L.key_of key.now result }
    {
        match self.find(key) {
            Some(number) => number,
            None => self.len(),
        }
    }

    /// Returns the number of each key on a list.
    fn numbers(&self, alloc: Global, list: &[Vec<u8>]) -> Result<Vec<usize>, AllocError>
        ensures { IfOk result (λ numbers. HaveNumbers self.now L.key_of
            (map (λ text. text.items) list.now) numbers.items) }
    {
        let mut numbers = Vec::with_capacity(alloc, list.len())?;
        for text in list {
            numbers.push(self.number(text))?;
        }
        Ok(numbers)
    }
}

/// Returns the numbers of the keys on the list of each line: of a key, the index of its line, or
/// the number of lines if no line has the key.
pub(crate) fn list_numbers<L: HasList, K: Line>(
    alloc: Global,
    owners: &[L],
    lines: &[K],
) -> Result<Vec<Vec<usize>>, AllocError>
    ensures { IfOk result (λ numbers. AreListNumbers lines.now K.key_of L.list_of
        owners.now numbers.items) }
{
    let places = LineIndex::of(alloc, lines)?;
    let mut numbers = Vec::with_capacity(alloc, owners.len())?;
    for owner in owners {
        numbers.push(places.numbers(alloc, owner.list())?)?;
    }
    Ok(numbers)
}

/// Sorts the lines of one kind by key.
fn sort_lines<L: Line>(lines: &mut Vec<L>) -> Result<(), AllocError>
    ensures same { IsPermutation lines.old.items lines.new.items }
    ensures sorted { OnOk result (IsSortedByKey L.key_of (slice_cmp nat_cmp) lines.new.items) }
{
    lines.sort_by(
        |a: &L, b: &L| -> Ordering
            ensures { result ≡ slice_cmp nat_cmp (L.key_of a.now) (L.key_of b.now) }
        { a.key().cmp(&b.key()) },
    )
}

/// Sorts the lines of each kind by key.
pub fn sort_rows(rows: &mut InstanceRows) -> Result<(), AllocError>
    ensures lecturers { IsPermutation rows.old.lecturers rows.new.lecturers }
    ensures projects { IsPermutation rows.old.projects rows.new.projects }
    ensures students { IsPermutation rows.old.students rows.new.students }
    ensures sorted_lecturers { OnOk result (IsSortedByKey (λ x. x.key)
        (slice_cmp nat_cmp) rows.new.lecturers) }
    ensures sorted_projects { OnOk result (IsSortedByKey (λ x. x.key)
        (slice_cmp nat_cmp) rows.new.projects) }
    ensures sorted_students { OnOk result (IsSortedByKey (λ x. x.key)
        (slice_cmp nat_cmp) rows.new.students) }
{
    sort_lines(&mut rows.lecturers)?;
    sort_lines(&mut rows.projects)?;
    sort_lines(&mut rows.students)
}
