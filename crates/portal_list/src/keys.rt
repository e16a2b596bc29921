//! Keys of rows: whether they ascend, include a key or are distinct; where a row with a key stands,
//! and where one is inserted.

ghost use Rattle.std.specs.Prelude.{◌≡◌, ◌↔◌, ◌<◌, ◌≤◌, ◌+◌, ℕ, List, true, false, length, IsTrue};
ghost use Rattle.std.specs.Prelude.{IfOk, IfSome, IfNone, slice_index_or, insert, vec_len};
ghost use Rattle.std.specs.Prelude.{vec_capacity, map};
ghost use Rattle.std.specs.List.{list_any};
ghost use Rattle.std.specs.Ordering.{nat_cmp};
ghost use Rattle.std.specs.Cmp.Lexicographic.{slice_cmp};
ghost use Rattle.portal_rules.specs.Words.{AreDistinct, Rise, equals, has, put, put_all};
ghost use Rattle.portal_rules.specs.World.{lecturer_key, student_key};

use crate::entries::{LecturerEntry, StudentEntry};
use portal_rules::Keyed;
use spa_rows::Key;
use std::alloc::{AllocError, Global};
use std::cmp::Ordering;
use std::collections::BTreeSet;

impl Keyed for LecturerEntry {
    ghost key_of = { lecturer_key };

    fn key(&self) -> &Key {
        &self.row.key
    }
}

impl Keyed for StudentEntry {
    ghost key_of = { student_key };

    fn key(&self) -> &Key {
        &self.row.key
    }
}

/// Returns whether the keys of the rows rise strictly.
pub(crate) fn keys_rise<K: Keyed>(rows: &[K]) -> bool
    ensures { IsTrue result ↔ Rise (map K.key_of rows.now) }
{
    rows.is_sorted_by(|a, b| a.key() < b.key())
}

/// Returns whether a row has the key, among rows with rising keys.
pub(crate) fn is_known<K: Keyed>(rows: &[K], key: &Key) -> bool
    requires { Rise (map K.key_of rows.now) }
    ensures { result ≡ has (map K.key_of rows.now) key.now }
{
    match rows.binary_search_by(
        |row: &K| -> Ordering
            ensures { result ≡ slice_cmp nat_cmp (K.key_of row.now) key.entry.now }
        { row.key().cmp(key) },
    ) {
        Ok(_) => true,
        Err(_) => false,
    }
}

/// Returns the index of a row with this key, if there is one.
pub(crate) fn index_of<T: Keyed>(rows: &[T], key: &Key) -> Option<usize>
    ensures some { IfSome result
        (λ i. (i < length rows.now)
        × ((d : T) → equals (T.key_of (slice_index_or rows.now i d)) key.now ≡ true)) }
    ensures none { IfNone result (list_any (λ row. equals (T.key_of row) key.now) rows.now
        ≡ false) }
{
    for (i, row) in rows.iter().enumerate() {
        if *row.key() == *key {
            return Some(i);
        }
    }
    None
}

/// Returns the index at which to insert a row with this key in key order. It is that of the first
/// row with a greater key, or the length if there is none.
fn place_for<T: Keyed>(rows: &[T], key: &Key) -> usize
    ensures low { result ≤ length rows.now }
    ensures place { (row : T) → T.key_of row ≡ key.now
        → insert rows.now result row ≡ put T.key_of row rows.now }
{
    for (i, row) in rows.iter().enumerate() {
        if *key < *row.key() {
            return i;
        }
    }
    rows.len()
}

/// Inserts a row in key order into a vector, which must have spare capacity.
fn put_row<T: Keyed + Drop>(rows: &mut Vec<T>, row: T)
    requires { vec_len rows.old < vec_capacity rows.old }
    ensures items { rows.new.items ≡ put T.key_of row rows.old.items }
    ensures len { vec_len rows.new ≡ vec_len rows.old + 1 }
    ensures capacity { vec_capacity rows.old ≤ vec_capacity rows.new }
{
    let place = place_for(rows, row.key());
    if rows.insert(place, row).is_err() {
        unreachable!();
    }
}

/// Inserts rows in key order into a vector, which must have spare capacity for all of them.
pub(crate) fn put_rows<T: Keyed + Drop>(rows: &mut Vec<T>, fresh: Vec<T>)
    requires { vec_len rows.old + vec_len fresh ≤ vec_capacity rows.old }
    ensures { rows.new.items ≡ put_all T.key_of fresh.items rows.old.items }
{
    for row in fresh {
        put_row(rows, row);
    }
}

/// Returns whether the texts, which are codes or keys, are distinct.
pub(crate) fn are_distinct(alloc: Global, texts: &[&[u8]]) -> Result<bool, AllocError>
    ensures { IfOk result (λ yes. IsTrue yes ↔ AreDistinct (map (λ text. text.now) texts.now)) }
{
    let mut seen = BTreeSet::new(alloc);
    for text in texts {
        if !seen.insert(*text)? {
            return Ok(false);
        }
    }
    Ok(true)
}

/// Returns the bytes of each key, to test whether keys are distinct.
fn bytes_of<'a>(alloc: Global, keys: &'a [Key]) -> Result<Vec<&'a [u8]>, AllocError>
    ensures { IfOk result (λ texts. map (λ text. text.now) texts.items ≡ keys.now) }
{
    let mut texts = Vec::new(alloc);
    for key in keys {
        texts.push(key.as_bytes())?;
    }
    Ok(texts)
}

/// Returns whether the keys are distinct.
pub(crate) fn keys_are_distinct(alloc: Global, keys: &[Key]) -> Result<bool, AllocError>
    ensures { IfOk result (λ yes. IsTrue yes ↔ AreDistinct keys.now) }
{
    let texts = bytes_of(alloc, keys)?;
    are_distinct(alloc, &texts)
}
