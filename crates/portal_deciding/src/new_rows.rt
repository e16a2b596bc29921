//! Checks the rows to be added to a roll; refuses all rows if any row is faulty.

ghost use Rattle.std.specs.Prelude.{◌≡◌, ◌∷◌, ◌++◌, List, reverse, if◌then◌else◌, OnOk, IfOk, IfErr};
ghost use Rattle.portal_rules.specs.Faults as rolls;
ghost use Rattle.portal_rules.specs.Faults.{Faulty, Took, Present, New, Rejected};
ghost use Rattle.portal_rules.specs.inner.Tables.{HasRows, HasTexts};

use crate::roll_refusal::{RollRefusal, conflict_at, roll_full};
use crate::roll_rules::RollRules;
use portal_rules::Keyed;
use portal_rules::index::row_at;
use std::alloc::{AllocError, Global};
use std::collections::{HashMap, HashSet};

/// The rows already present, by key, and the texts against which a new row is checked.
#[derive(Drop)]
struct Register<'a, X> {
    rows: HashMap<&'a [u8], &'a X>,
    texts: HashSet<&'a [u8]>,
}

/// Adds the row to the register, in front of the rows already present.
fn enter<'a, X: Keyed, R: RollRules<X>>(
    register: &mut Register<'a, X>,
    roll: &R,
    row: &'a X,
) -> Result<(), AllocError>
    ensures rows { OnOk result ((there : List X)
        → HasRows X.key_of there register.old.rows
        → HasRows X.key_of (row.now ∷ there) register.new.rows) }
    ensures texts { OnOk result ((there : List X)
        → HasTexts (R.texts_beside roll.now there) register.old.texts
        → HasTexts (R.texts_beside roll.now (row.now ∷ there)) register.new.texts) }
{
    register.rows.insert(row.key().as_bytes(), row)?;
    roll.add_text(&mut register.texts, row)
}

/// Indexes the rows on the roll by key, in a register. If several rows have the same key, the first
/// one counts.
fn register_of<'a, X: Keyed, R: RollRules<X>>(
    alloc: Global,
    roll: &'a R,
    on_roll: &'a [X],
) -> Result<Register<'a, X>, AllocError>
    ensures rows { IfOk result (λ register. HasRows
        X.key_of on_roll.now register.rows) }
    ensures texts { IfOk result (λ register. HasTexts
        (R.texts_beside roll.now on_roll.now) register.texts) }
{
    let mut register = Register {
        rows: HashMap::with_capacity(alloc, on_roll.len())?,
        texts: roll.texts(alloc)?,
    };
    for old in on_roll.iter().rev() {
        enter(&mut register, roll, old)?;
    }
    Ok(register)
}

/// Returns true for a new row, false for an equal row already present, or else the refusal.
fn is_new<X: Keyed, R: RollRules<X>>(
    roll: &R,
    register: &Register<X>,
    on_roll: &[X],
    new: &[X],
    at: u64,
    row: &X,
) -> Result<bool, RollRefusal>
    requires rows { HasRows X.key_of
        (reverse new.now ++ on_roll.now) register.now.rows }
    requires texts { HasTexts (R.texts_beside roll.now
        (reverse new.now ++ on_roll.now)) register.now.texts }
    ensures taken { IfOk result (λ is_new. rolls.verdict (R.rules roll.now) at
        (reverse new.now ++ on_roll.now) row.now ≡ (if is_new then New else Present)) }
    ensures refused { IfErr result (λ fault. rolls.verdict (R.rules roll.now) at
        (reverse new.now ++ on_roll.now) row.now ≡ Rejected fault) }
{
    if let Some(old) = row_at(&register.rows, row.key().as_bytes()) {
        return if roll.is_same(old, row) {
            Ok(false)
        } else {
            Err(conflict_at(at))
        };
    }
    if roll.is_bad(&register.texts, row) {
        return Err(roll.fault(at));
    }
    if new.len() >= roll.limit().saturating_sub(on_roll.len()) {
        return Err(roll_full());
    }
    Ok(true)
}

/// What a list of rows adds to a roll: the new rows, in order, and the number already present.
#[derive(Drop)]
pub(crate) struct Added<X: Drop> {
    pub(crate) new: Vec<X>,
    pub(crate) same: u64,
}

/// Checks the rows to be added to a roll, one after the other. Returns what they add, or the first
/// refusal.
pub(crate) fn take_rows<'a, X: Drop + Keyed, R: RollRules<X>>(
    alloc: Global,
    roll: &'a R,
    on_roll: &'a [X],
    rows: &'a [X],
) -> Result<Result<Added<X>, RollRefusal>, AllocError>
    ensures ok { IfOk result (λ taken. IfOk taken
        (λ a. rolls.take_rows (R.rules roll.now) 1 on_roll.now rows.now
        ≡ Took a.new.items a.same)) }
    ensures err { IfOk result (λ taken. IfErr taken
        (λ fault. rolls.take_rows (R.rules roll.now) 1 on_roll.now rows.now ≡ Faulty fault)) }
{
    let mut register = register_of(alloc, roll, on_roll)?;
    let mut new = Vec::new(alloc);
    let mut same: u64 = 0;
    let mut at: u64 = 0;
    for row in rows {
        at += 1;
        let added = match is_new(roll, &register, on_roll, &new, at, row) {
            Ok(added) => added,
            Err(fault) => return Ok(Err(fault)),
        };
        if added {
            enter(&mut register, roll, row)?;
            new.push(roll.copy(alloc, row)?)?;
        } else {
            same += 1;
        }
    }
    Ok(Ok(Added { new, same }))
}
