//! Joins the rows of the rolls with lists, rankings and placements into entries.

ghost use Rattle.std.specs.Prelude.{◌≡◌, IfOk, map, option_map};
ghost use Rattle.portal_list.specs.inner.Fit.{next_for, rest_for, earlier_for, earlier_rest};
ghost use Rattle.portal_list.specs.inner.Fit.{lecturers_fitting, students_fitting};

use crate::entries::{LecturerEntry, StudentEntry};
use portal_rules::{LecturerRow, Round, StudentRow};
use spa_rows::Key;
use std::alloc::{AllocError, Global};
use std::collections::VecDeque;

/// Removes the next list or placement, if it has the row's key, to join it to the row. Returns
/// `None` if the key differs or nothing is left.
fn take_for<V: Drop>(rest: &mut VecDeque<(Key, V)>, key: &Key) -> Option<V>
    ensures taken { result ≡ next_for key.now rest.old.items }
    ensures left { rest.new.items ≡ rest_for key.now rest.old.items }
{
    let is_next = match rest.front() {
        Some(next) => next.0 == *key,
        None => false,
    };
    if !is_next {
        return None;
    }
    let (_, value) = rest.pop_front()?;
    Some(value)
}

/// Returns the earlier list to join to a student's row. In the first round this is an empty list.
/// In the second it removes the first pair if that has this key, and returns its list.
fn earlier_for(
    alloc: Global,
    round: Round,
    rest: &mut VecDeque<(Key, Vec<Key>)>,
    key: &Key,
) -> Option<Vec<Key>>
    ensures taken { option_map (λ v. v.items) result
        ≡ earlier_for round key.now (map (λ c. (c.0, c.1.items)) rest.old.items) }
    ensures left { map (λ c. (c.0, c.1.items)) rest.new.items
        ≡ earlier_rest round key.now (map (λ c. (c.0, c.1.items)) rest.old.items) }
{
    match round {
        Round::First => Some(Vec::new(alloc)),
        Round::Second => take_for(rest, key),
    }
}

/// Joins each lecturer with the rankings of both rounds into an entry, all in roll order. Returns
/// `None` if a ranking is left over: it is for no lecturer, or out of order.
pub(crate) fn lecturer_entries(
    alloc: Global,
    rows: Vec<LecturerRow>,
    rankings: Vec<(Key, Vec<Key>)>,
    earlier_rankings: Vec<(Key, Vec<Key>)>,
) -> Result<Option<Vec<LecturerEntry>>, AllocError>
    ensures { IfOk result (λ entries. option_map (λ v. v.items) entries
        ≡ lecturers_fitting rows.items (map (λ r. (r.0, r.1.items)) rankings.items)
        (map (λ r. (r.0, r.1.items)) earlier_rankings.items)) }
{
    let mut rest = VecDeque::from_vec(rankings);
    let mut earlier = VecDeque::from_vec(earlier_rankings);
    let mut entries = Vec::new(alloc);
    for row in rows {
        let ranking = take_for(&mut rest, &row.key);
        let earlier_ranking = take_for(&mut earlier, &row.key);
        entries.push(LecturerEntry {
            row,
            ranking,
            earlier_ranking,
        })?;
    }
    Ok(if rest.is_empty() && earlier.is_empty() {
        Some(entries)
    } else {
        None
    })
}

/// Joins each student with lists and placements into an entry, all in roll order. Returns `None` if
/// a student lacks a list (two in the second round), or if a list or placement is left over.
pub(crate) fn student_entries(
    alloc: Global,
    round: Round,
    rows: Vec<StudentRow>,
    choices: Vec<(Key, Vec<Key>)>,
    pairs: Vec<(Key, Key)>,
    earlier_choices: Vec<(Key, Vec<Key>)>,
    earlier_pairs: Vec<(Key, Key)>,
) -> Result<Option<Vec<StudentEntry>>, AllocError>
    ensures { IfOk result (λ entries. option_map (λ v. v.items) entries
        ≡ students_fitting round rows.items (map (λ c. (c.0, c.1.items)) choices.items) pairs.items
        (map (λ c. (c.0, c.1.items)) earlier_choices.items) earlier_pairs.items) }
{
    let mut choices = VecDeque::from_vec(choices);
    let mut pairs = VecDeque::from_vec(pairs);
    let mut earlier_choices = VecDeque::from_vec(earlier_choices);
    let mut earlier_pairs = VecDeque::from_vec(earlier_pairs);
    let mut entries = Vec::new(alloc);
    for row in rows {
        let Some(choice) = take_for(&mut choices, &row.key) else {
            return Ok(None);
        };
        let Some(earlier_choice) = earlier_for(alloc, round, &mut earlier_choices, &row.key) else {
            return Ok(None);
        };
        let placed = take_for(&mut pairs, &row.key);
        let earlier_placement = take_for(&mut earlier_pairs, &row.key);
        entries.push(StudentEntry {
            row,
            choice,
            placed,
            earlier_choice,
            earlier_placement,
        })?;
    }
    Ok(if choices.is_empty()
        && pairs.is_empty()
        && earlier_choices.is_empty()
        && earlier_pairs.is_empty()
    {
        Some(entries)
    } else {
        None
    })
}
