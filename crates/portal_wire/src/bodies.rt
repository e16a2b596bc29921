//! Parses the JSON bodies of requests.

ghost use Rattle.std.specs.Prelude.{◌≡◌, map, option_map};
ghost use Rattle.serde_json.specs.View.{view, items_view};
ghost use Rattle.portal_wire.specs.Wish.{json_in, member_among, item_texts, texts_in, phase_of};
ghost use Rattle.portal_wire.specs.Wish.{phase_named, round_named, phase_among, phase_and_round};
ghost use Rattle.portal_wire.specs.Wish.{move_named, empty_object, listed_in, move_in, nothing_in};
ghost use Rattle.portal_wire.specs.inner.Calls.{GivesBody};
ghost use Rattle.portal_wire.specs.declared.bodies.BodyFault.TheVariants.{Memory as OutOfMemory};

use portal_rules::{Phase, Round};
use serde_json::Value;
use serde_json::error::Category;
use std::alloc::{AllocError, AllocFailed, Global};

/// Why a body was not read.
#[derive(Clone, Copy, Debug, PartialEq, Eq, Drop)]
pub(crate) enum BodyFault {
    /// It does not have the required form.
    Bad,
    /// There was not enough memory.
    Memory,
}

impl From<AllocError> for BodyFault {
    ghost from_gives = { λ _ fault. fault ≡ OutOfMemory };

    fn from(_: AllocError) -> BodyFault {
        BodyFault::Memory
    }
}

impl<T: Drop> From<AllocFailed<T>> for BodyFault {
    ghost from_gives = { λ _ fault. fault ≡ OutOfMemory };

    fn from(_: AllocFailed<T>) -> BodyFault {
        BodyFault::Memory
    }
}

/// Parses a request's body as JSON.
fn json_of(alloc: Global, body: &[u8]) -> Result<Value, BodyFault>
    ensures { GivesBody view result (json_in body.now) }
{
    let Ok(text) = str::from_utf8(body) else {
        return Err(BodyFault::Bad);
    };
    match Value::from_str(alloc, text) {
        Ok(value) => Ok(value),
        Err(error) => {
            if error.classify() == Category::Memory {
                return Err(BodyFault::Memory);
            }
            Err(BodyFault::Bad)
        }
    }
}

/// Returns the value of this member if a JSON object has exactly `count` members.
fn member_among<'a>(value: &'a Value, count: usize, name: &str) -> Option<&'a Value>
    ensures { option_map (λ v. view v.now) result
        ≡ member_among count name.now (view value.now) }
{
    let Value::Object(members) = value else {
        return None;
    };
    if members.len() != count {
        return None;
    }
    value.get(name)
}

/// Copies the text of each JSON value in a request's body; each has to be a string.
fn texts_of(alloc: Global, values: &[Value]) -> Result<Vec<Vec<u8>>, BodyFault>
    ensures { GivesBody (λ ts. map (λ t. t.items) ts.items) result
        (item_texts (items_view values.now)) }
{
    let mut texts = Vec::new(alloc);
    for value in values {
        let Value::String(text) = value else {
            return Err(BodyFault::Bad);
        };
        texts.push(Vec::from_slice(alloc, text.as_bytes())?)?;
    }
    Ok(texts)
}

/// Copies the texts of a JSON array in a request's body, whose items have to be strings.
fn array_texts(alloc: Global, value: &Value) -> Result<Vec<Vec<u8>>, BodyFault>
    ensures { GivesBody (λ ts. map (λ t. t.items) ts.items) result (texts_in (view value.now)) }
{
    let Value::Array(values) = value else {
        return Err(BodyFault::Bad);
    };
    texts_of(alloc, values.as_slice())
}

/// Reads a JSON body whose only member has this name and is an array of texts.
pub(crate) fn read_list(alloc: Global, body: &[u8], name: &str) -> Result<Vec<Vec<u8>>, BodyFault>
    ensures { GivesBody (λ ts. map (λ t. t.items) ts.items) result (listed_in name.now body.now) }
{
    let value = json_of(alloc, body)?;
    match member_among(&value, 1, name) {
        Some(list) => array_texts(alloc, list),
        None => Err(BodyFault::Bad),
    }
}

/// Returns the phase that a word in a request's body names.
fn phase_in_word(word: &[u8]) -> Option<Phase>
    ensures { result ≡ phase_of word.now }
{
    Phase::parse(word)
}

/// Returns the phase that a JSON string names.
fn named_phase(value: &Value) -> Option<Phase>
    ensures { result ≡ phase_named (view value.now) }
{
    let Value::String(word) = value else {
        return None;
    };
    phase_in_word(word.as_bytes())
}

/// Returns the round whose number a JSON value holds.
fn named_round(value: &Value) -> Option<Round>
    ensures { result ≡ round_named (view value.now) }
{
    match value.as_u64()? {
        1 => Some(Round::First),
        2 => Some(Round::Second),
        _ => None,
    }
}

/// Returns the member `phase` of a JSON object with exactly `count` members.
fn phase_among(value: &Value, count: usize) -> Option<Phase>
    ensures { result ≡ phase_among count (view value.now) }
{
    named_phase(member_among(value, count, "phase")?)
}

/// Returns the phase and the round of a JSON object that has exactly these two members.
fn phase_and_round(value: &Value) -> Option<(Phase, Option<Round>)>
    ensures { result ≡ phase_and_round (view value.now) }
{
    let phase = phase_among(value, 2)?;
    let round = named_round(member_among(value, 2, "round")?)?;
    Some((phase, Some(round)))
}

/// Returns the phase, and the round if it is named, of a JSON object without other members.
fn named_move(value: &Value) -> Option<(Phase, Option<Round>)>
    ensures { result ≡ move_named (view value.now) }
{
    match phase_among(value, 1) {
        Some(phase) => Some((phase, None)),
        None => phase_and_round(value),
    }
}

/// Reads the phase, and the round if it is named, of a JSON body without other members.
pub(crate) fn read_move(alloc: Global, body: &[u8]) -> Result<(Phase, Option<Round>), BodyFault>
    ensures { GivesBody (λ m. m) result (move_in body.now) }
{
    let value = json_of(alloc, body)?;
    match named_move(&value) {
        Some(named) => Ok(named),
        None => Err(BodyFault::Bad),
    }
}

/// Checks that a JSON value is an object without members.
fn no_member(value: &Value) -> Result<(), BodyFault>
    ensures { GivesBody (λ u. u) result (empty_object (view value.now)) }
{
    let Value::Object(members) = value else {
        return Err(BodyFault::Bad);
    };
    if members.len() == 0 {
        return Ok(());
    }
    Err(BodyFault::Bad)
}

/// Checks that a request's body is a JSON object without members.
pub(crate) fn read_empty(alloc: Global, body: &[u8]) -> Result<(), BodyFault>
    ensures { GivesBody (λ u. u) result (nothing_in body.now) }
{
    let value = json_of(alloc, body)?;
    no_member(&value)
}
