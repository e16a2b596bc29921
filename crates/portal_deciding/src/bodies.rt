//! Builds JSON that several replies share: keys, persons, catalogue, phase.

ghost use Rattle.std.specs.Prelude.{◌≡◌, ◌∷◌, [], map, codes, IfOk, OnOk};
ghost use Rattle.serde_json.specs.View as json;
ghost use Rattle.serde_json.specs.Data.{Data, string, put as with_member};
ghost use Rattle.portal_rules.specs.World.{phase_word};
ghost use Rattle.portal_rules.specs.Bodies as bodies;
ghost use Rattle.portal_rules.specs.Bodies.{dictionary, members, round_member};

use portal_rules::{Listing, Person, Phase, Round};
use serde_json::{Map, Value, put};
use spa_rows::Key;
use std::alloc::{AllocError, Global};

/// Makes a JSON object of one member.
pub(crate) fn object_of(alloc: Global, name: &str, value: Value) -> Result<Value, AllocError>
    ensures { IfOk result (λ object. json.view object
        ≡ dictionary ((name.now, json.view value) ∷ [])) }
{
    let mut members = Map::new(alloc);
    put(&mut members, alloc, name, value)?;
    Ok(Value::Object(members))
}

/// Adds a text to the JSON members.
pub(crate) fn put_text(
    members: &mut Map<String, Value>,
    alloc: Global,
    name: &str,
    text: &str,
) -> Result<(), AllocError>
    ensures { OnOk result (json.members_view members.new.entries
        ≡ with_member name.now (string text.now) (json.members_view members.old.entries)) }
{
    put(members, alloc, name, Value::try_from_str(alloc, text)?)
}

/// A value that replies show as JSON.
pub(crate) trait ToJson {
    /// The JSON that shows the value.
    ghost json_of: { Self → Data };

    /// Makes the JSON that shows the value.
    fn to_json(&self, alloc: Global) -> Result<Value, AllocError>
        ensures { IfOk result (λ value. json.view value ≡ json_of self.now) };
}

impl ToJson for Key {
    ghost json_of = { string };

    fn to_json(&self, alloc: Global) -> Result<Value, AllocError> {
        Value::try_from_str(alloc, self.as_str())
    }
}

impl ToJson for Person {
    ghost json_of = { bodies.person };

    fn to_json(&self, alloc: Global) -> Result<Value, AllocError> {
        let mut members = Map::new(alloc);
        put_person(&mut members, alloc, self)?;
        Ok(Value::Object(members))
    }
}

impl ToJson for Listing {
    ghost json_of = { bodies.listing };

    fn to_json(&self, alloc: Global) -> Result<Value, AllocError> {
        let (mut members, lecturer) = (Map::new(alloc), self.lecturer_name.as_str());
        put(&mut members, alloc, "capacity", Value::from(self.capacity))?;
        put_text(&mut members, alloc, "id", self.key.as_str())?;
        put_text(&mut members, alloc, "lecturer", self.lecturer.as_str())?;
        put_text(&mut members, alloc, "lecturer_name", lecturer)?;
        put_text(&mut members, alloc, "title", self.title.as_str())?;
        Ok(Value::Object(members))
    }
}

/// A pair of the result: a student and a project.
impl ToJson for (Key, Key) {
    ghost json_of = { bodies.pair };

    fn to_json(&self, alloc: Global) -> Result<Value, AllocError> {
        let (student, project) = self;
        let mut members = Map::new(alloc);
        put_text(&mut members, alloc, "project", project.as_str())?;
        put_text(&mut members, alloc, "student", student.as_str())?;
        Ok(Value::Object(members))
    }
}

/// Makes a JSON value of each item.
fn values_of<X: ToJson>(alloc: Global, items: &[X]) -> Result<Vec<Value>, AllocError>
    ensures { IfOk result (λ values. map json.view values.items ≡ map X.json_of items.now) }
{
    let mut values = Vec::new(alloc);
    for item in items {
        values.push(item.to_json(alloc)?)?;
    }
    Ok(values)
}

/// Makes a JSON array of the items.
pub(crate) fn array_of<X: ToJson>(alloc: Global, items: &[X]) -> Result<Value, AllocError>
    ensures { IfOk result (λ value. json.view value ≡ bodies.several (map X.json_of items.now)) }
{
    Ok(Value::Array(values_of(alloc, items)?))
}

/// Makes the body that shows the catalogue.
pub(crate) fn catalogue_body(alloc: Global, listings: &[Listing]) -> Result<Value, AllocError>
    ensures { IfOk result (λ body. json.view body ≡ bodies.catalogue_body listings.now) }
{
    object_of(alloc, "projects", array_of(alloc, listings)?)
}

/// Makes the body that shows the phase and, only in the second round, the round.
pub(crate) fn phase_body(alloc: Global, round: Round, phase: Phase) -> Result<Value, AllocError>
    ensures { IfOk result (λ body. json.view body ≡ bodies.phase_body round phase) }
{
    let mut body = Map::new(alloc);
    put_text(&mut body, alloc, "phase", phase.word())?;
    if round == Round::Second {
        put(&mut body, alloc, "round", Value::from(2u32))?;
    }
    Ok(Value::Object(body))
}

/// Makes the JSON members that the reply to `Call::Me` has for every role: phase, role and, only in
/// the second round, the round.
pub(crate) fn me_members(
    alloc: Global,
    round: Round,
    phase: Phase,
    role: &str,
) -> Result<Map<String, Value>, AllocError>
    ensures { IfOk result (λ me. json.members_view me.entries ≡ members (
        (codes "phase", string (phase_word phase)) ∷ (codes "role", string role.now)
        ∷ round_member round)) }
{
    let mut me = Map::new(alloc);
    put_text(&mut me, alloc, "phase", phase.word())?;
    put_text(&mut me, alloc, "role", role)?;
    if round == Round::Second {
        put(&mut me, alloc, "round", Value::from(2u32))?;
    }
    Ok(me)
}

/// Adds the person's key and name to the JSON members.
pub(crate) fn put_person(
    members: &mut Map<String, Value>,
    alloc: Global,
    person: &Person,
) -> Result<(), AllocError>
    ensures { OnOk result (json.members_view members.new.entries
        ≡ with_member (codes "key") (string person.now.key)
        (with_member (codes "name") (string person.now.name)
        (json.members_view members.old.entries))) }
{
    put_text(members, alloc, "name", person.name.as_str())?;
    put_text(members, alloc, "key", person.key.as_str())
}
