//! Finds the lowest-numbered row of one kind that has a given fault, such as a bad key.

ghost use Rattle.std.specs.Prelude.{◌≡◌, ◌<◌, ◌↔◌, false, if◌then◌else◌, All, Contains, IfOk};
ghost use Rattle.std.specs.Prelude.{IsTrue, Some, [], length, map, slice_index_or};
ghost use Rattle.std.specs.Fn.{FnReturnsAt};
ghost use Rattle.spa_rows.specs.Faults.{IsBadCapacity, IsEarlierKey, Repeats};
ghost use Rattle.spa_rows.specs.Faults.{BadAt};
ghost use Rattle.spa_rows.specs.Lines.{is_key};
ghost use Rattle.std.specs.List.{AllZip};
ghost use Rattle.spa_rows.specs.inner.Index.{Differ};
ghost use Rattle.spa_rows.specs.inner.Least.{IsLeastOf, IsLeastTold, least_row};

use crate::key::is_key_text;
use crate::limits::is_capacity;
use crate::lines::{HasList, Line};
use std::alloc::{AllocError, Global};
use std::collections::BTreeSet;

/// Returns the smaller of a line's `row` and `best`, or `row` if there is no `best`.
pub(crate) fn least(best: Option<u32>, row: u32) -> u32
    ensures { result ≡ least_row best row }
{
    match best {
        Some(other) => { if other < row { other } else { row } }
        None => row,
    }
}

/// Returns the lowest-numbered faulty row so far, given the previous one and whether `row` is bad.
pub fn least_with(best: Option<u32>, row: u32, is_bad: bool) -> Option<u32>
    ensures { result ≡ (if is_bad then Some (least_row best row) else best) }
{
    if is_bad { Some(least(best, row)) } else { best }
}

/// Finds the lowest-numbered row of the lines, all of one kind, that the closure calls bad.
pub(crate) fn least_where<L: Line, F: Fn(&L) -> bool>(lines: &[L], is_bad: F) -> Option<u32>
    requires { F.IsAlwaysCallable is_bad }
    ensures { IsLeastTold lines.now L.row_of (FnReturnsAt F.Fn is_bad) (length lines.now) result }
{
    let mut best = None;
    for line in lines {
        best = least_with(best, line.row(), is_bad(line));
    }
    best
}

/// Returns whether a line's capacity has the fault that it is not 1 to 200.
pub(crate) fn is_bad_capacity(capacity: u32) -> bool
    ensures { IsTrue result ↔ IsBadCapacity capacity }
{
    !is_capacity(capacity)
}

/// Returns whether a line's key has the fault that it is malformed.
pub(crate) fn has_bad_key<L: Line>(line: &L) -> bool
    ensures { IsTrue result ↔ is_key (L.key_of line.now) ≡ false }
{
    !is_key_text(line.key())
}

/// Finds the lowest-numbered row that repeats the key of an earlier line, in lines of one kind.
pub(crate) fn key_twice<L: Line>(alloc: Global, lines: &[L]) -> Result<Option<u32>, AllocError>
    ensures { IfOk result (IsLeastOf (BadAt lines.now L.row_of
        (λ j x. IsEarlierKey lines.now L.key_of j (L.key_of x)))) }
{
    let mut seen = BTreeSet::new(alloc);
    let mut best = None;
    for line in lines {
        let is_new = seen.insert(line.key())?;
        best = least_with(best, line.row(), !is_new);
    }
    Ok(best)
}

/// Returns whether a number may occur twice on a list. Each number gets the list's mark; if none
/// had it before, `true` says that one does.
fn may_repeat(marks: &mut [usize], mark: usize, numbers: &[usize]) -> bool
    requires { All (λ n. n < length marks.old) numbers.now }
    ensures count { length marks.new ≡ length marks.old }
    ensures apart { result ≡ false → Differ numbers.now }
{
    for number in numbers {
        if marks[*number] == mark {
            return true;
        }
        marks[*number] = mark;
    }
    false
}

/// Returns whether the list has the fault that a text occurs twice. Crafted texts can collide in a
/// hash set and make it slow, so the texts go into a tree.
fn repeats(alloc: Global, list: &[Vec<u8>]) -> Result<bool, AllocError>
    ensures { IfOk result (λ yes. IsTrue yes ↔ Repeats (map (λ text. text.items) list.now)) }
{
    let mut seen = BTreeSet::new(alloc);
    for text in list {
        if !seen.insert(text.as_slice())? {
            return Ok(true);
        }
    }
    Ok(false)
}

/// Returns whether a line's list has the fault that a text occurs twice, given the text's numbers.
/// Two texts that are no keys have one number, so the texts decide where a number may repeat.
fn list_repeats(
    alloc: Global,
    marks: &mut [usize],
    mark: usize,
    list: &[Vec<u8>],
    numbers: &[usize],
) -> Result<bool, AllocError>
    requires below { All (λ n. n < length marks.old) numbers.now }
    requires apart { Differ numbers.now → ¬ Repeats (map (λ text. text.items) list.now) }
    ensures count { length marks.new ≡ length marks.old }
    ensures repeats { IfOk result (λ yes. IsTrue yes
        ↔ Repeats (map (λ text. text.items) list.now)) }
{
    if may_repeat(marks, mark, numbers) {
        return repeats(alloc, list);
    }
    Ok(false)
}

/// Finds the lowest-numbered row of a line whose list contains a text twice, given the numbers of
/// the texts, which are below `count`.
pub(crate) fn repeat_in_list<L: Line + HasList>(
    alloc: Global,
    lines: &[L],
    numbers: &[Vec<usize>],
    count: usize,
) -> Result<Option<u32>, AllocError>
    requires length { length numbers.now ≡ length lines.now }
    requires below { All (λ own. All (λ n. n < count) own.items) numbers.now }
    requires apart { AllZip (λ x own. Differ own.items → ¬ Repeats (L.list_of x))
        lines.now numbers.now }
    ensures { IfOk result (IsLeastOf (BadAt lines.now L.row_of (λ _ x. Repeats (L.list_of x)))) }
{
    let mut marks = vec![in alloc; lines.len(); count]?;
    let mut best = None;
    for (place, line) in lines.iter().enumerate() {
        let is_bad = list_repeats(alloc, &mut marks, place, line.list(), &numbers[place])?;
        best = least_with(best, line.row(), is_bad);
    }
    Ok(best)
}

/// Finds the lowest-numbered row of a line whose list has the number `unknown`.
pub(crate) fn unknown_in_list<L: Line>(
    lines: &[L],
    numbers: &[Vec<usize>],
    unknown: usize,
) -> Option<u32>
    requires { length numbers.now ≡ length lines.now }
    ensures { IsLeastOf (BadAt lines.now L.row_of (λ j _. Contains
        (slice_index_or (map (λ own. own.items) numbers.now) j []) unknown)) result }
{
    let mut best = None;
    for (place, line) in lines.iter().enumerate() {
        let is_bad = numbers[place].contains(&unknown);
        best = least_with(best, line.row(), is_bad);
    }
    best
}
