//! Checks a submitted list or ranking, item by item, and refuses it at its first fault.

ghost use Rattle.std.specs.Prelude.{◌≡◌, ◌+◌, true, false, [], length, Some, None, OnOk, IfOk, IfErr};
ghost use Rattle.std.specs.Prelude.{IfSome, IfNone};
ghost use Rattle.std.specs.Result.{result_err};
ghost use Rattle.portal_rules.specs.Words.{has};
ghost use Rattle.portal_rules.specs.Faults.{choice_fault, fault_at, first_wrong, in_catalogue};
ghost use Rattle.portal_rules.specs.Faults.{ranking_fault, wrong_choice, wrong_rank};
ghost use Rattle.portal_rules.specs.Answer as answer;
ghost use Rattle.portal_rules.specs.Meaning.{texts_of, decision_model};
ghost use Rattle.portal_rules.specs.inner.Room.{by_project};
ghost use Rattle.portal_rules.specs.inner.Tables.{HasTexts};

use crate::applicants::{Applicants, lacks_one};
use crate::bodies::put_text;
use crate::replies::{json_reply, refuses};
use portal_rules::{Decision, Listing, Person};
use serde_json::{Map, Value, put};
use spa_rows::Key;
use spa_rows::limits::LONGEST_CHOICE;
use std::alloc::{AllocError, Global};
use std::collections::HashSet;
use std::marker::Model;

/// The first fault of a list: its position, counted from 1, and its error word. The position is 0
/// if an applicant is missing.
#[derive(Drop)]
pub(crate) struct ListFault {
    pub at: usize,
    pub word: &'static str,
}

impl Model for ListFault {
    ghost use Rattle.portal_rules.specs.Faults as fault;

    ghost Value = { fault.ListFault };

    ghost view = { λ f. record { at = f.at; word = f.word.now } };
}

/// Refuses a submitted list or ranking for this fault.
pub(crate) fn bad_list(alloc: Global, fault: ListFault) -> Result<Decision, AllocError>
    ensures { IfOk result (λ decision. decision_model decision
        ≡ answer.refuses (answer.bad_list fault)) }
{
    let mut body = Map::new(alloc);
    put(&mut body, alloc, "at", Value::from(fault.at))?;
    put_text(&mut body, alloc, "error", "bad_list")?;
    put_text(&mut body, alloc, "fault", fault.word)?;
    Ok(refuses(json_reply(422, Value::Object(body))))
}

/// Returns a fault of a submitted list or ranking, at the entry after the earlier ones.
fn fault_after(earlier: &[Key], word: &'static str) -> ListFault
    ensures { result ≡ fault_at (length earlier.now + 1) word.now }
{
    ListFault {
        at: earlier.len() + 1,
        word,
    }
}

/// Returns whether the next entry of a submitted list repeats one of the earlier keys.
fn stands_in(keys: &[Key], text: &[u8]) -> bool
    ensures { result ≡ has keys.now text.now }
{
    keys.iter().any(|key| text == key.as_bytes())
}

/// Finds the key with this text, an entry of a submitted list, in the catalogue.
fn key_in_catalogue<'a>(catalogue: &'a [Listing], text: &[u8]) -> Option<&'a Key>
    ensures some { IfSome result
        (λ key. (key.now ≡ text.now) × (in_catalogue catalogue.now text.now ≡ true)) }
    ensures none { IfNone result (in_catalogue catalogue.now text.now ≡ false) }
{
    for listing in catalogue {
        if listing.key.as_bytes() == text {
            return Some(&listing.key);
        }
    }
    None
}

/// Checks the next entry of a student's submitted list. Returns its key or its error word.
fn next_choice<'a>(
    catalogue: &'a [Listing],
    earlier: &[Key],
    text: &[u8],
) -> Result<&'a Key, &'static str>
    ensures key { IfOk result (λ key. key.now ≡ text.now) }
    ensures taken { OnOk result (wrong_choice catalogue.now earlier.now text.now ≡ None) }
    ensures refused { IfErr result
        (λ word. wrong_choice catalogue.now earlier.now text.now ≡ Some word.now) }
{
    if earlier.len() == LONGEST_CHOICE {
        return Err("too_long");
    }
    match key_in_catalogue(catalogue, text) {
        None => Err("unknown_project"),
        Some(_) if stands_in(earlier, text) => Err("repeated"),
        Some(key) => Ok(key),
    }
}

/// Checks a student's submitted list, entry by entry. Returns its keys or its first fault.
pub(crate) fn checked_choices(
    alloc: Global,
    catalogue: &[Listing],
    list: &[Vec<u8>],
) -> Result<Result<Vec<Key>, ListFault>, AllocError>
    ensures keys { IfOk result (λ checked. IfOk checked (λ keys. keys.items ≡ texts_of list.now)) }
    ensures fault { IfOk result (λ checked. result_err checked
        ≡ choice_fault catalogue.now (texts_of list.now)) }
{
    let mut keys = Vec::new(alloc);
    for text in list {
        match next_choice(catalogue, &keys, text) {
            Ok(key) => keys.push(key.copy(alloc)?)?,
            Err(word) => return Ok(Err(fault_after(&keys, word))),
        }
    }
    Ok(Ok(keys))
}

/// Checks the next entry of a lecturer's submitted ranking. Returns its key or its error word.
fn next_rank<'a>(
    applicants: &Applicants<'a>,
    earlier: &[Key],
    texts: &HashSet<&[u8]>,
    text: &[u8],
) -> Result<&'a Key, &'static str>
    requires { HasTexts earlier.now texts.now }
    ensures key { IfOk result (λ key. key.now ≡ text.now) }
    ensures taken { OnOk result (wrong_rank applicants.now earlier.now text.now ≡ None) }
    ensures refused { IfErr result
        (λ word. wrong_rank applicants.now earlier.now text.now ≡ Some word.now) }
{
    match applicants.find(text) {
        None => Err("not_an_applicant"),
        Some(_) if texts.contains(&text) => Err("repeated"),
        Some(key) => Ok(key),
    }
}

/// Checks the entries of a submitted ranking, not its completeness. Returns its keys or its first
/// fault.
fn checked_entries(
    alloc: Global,
    applicants: &Applicants,
    list: &[Vec<u8>],
) -> Result<Result<Vec<Key>, ListFault>, AllocError>
    ensures keys { IfOk result (λ checked. IfOk checked (λ keys. keys.items ≡ texts_of list.now)) }
    ensures fault { IfOk result (λ checked. result_err checked
        ≡ first_wrong (wrong_rank applicants.now) [] (texts_of list.now)) }
{
    let mut keys = Vec::new(alloc);
    let mut texts = HashSet::new(alloc);
    for text in list {
        match next_rank(applicants, &keys, &texts, text) {
            Ok(key) => {
                texts.insert(key.as_bytes())?;
                keys.push(key.copy(alloc)?)?;
            }
            Err(word) => return Ok(Err(fault_after(&keys, word))),
        }
    }
    Ok(Ok(keys))
}

/// Checks a lecturer's submitted ranking: each entry, then that no applicant is missing. Returns
/// its keys or its first fault.
pub(crate) fn checked_ranking(
    alloc: Global,
    applicants: &[(Key, Vec<Person>)],
    list: &[Vec<u8>],
) -> Result<Result<Vec<Key>, ListFault>, AllocError>
    ensures keys { IfOk result (λ checked. IfOk checked (λ keys. keys.items ≡ texts_of list.now)) }
    ensures fault { IfOk result (λ checked. result_err checked
        ≡ ranking_fault (by_project applicants.now) (texts_of list.now)) }
{
    let by_key = Applicants::of(alloc, applicants)?;
    let keys = match checked_entries(alloc, &by_key, list)? {
        Ok(keys) => keys,
        Err(fault) => return Ok(Err(fault)),
    };
    if lacks_one(alloc, applicants, &keys)? {
        return Ok(Err(ListFault {
            at: 0,
            word: "missing",
        }));
    }
    Ok(Ok(keys))
}
