//! Looks up a lecturer's applicants by key, to check a submitted ranking.

ghost use Rattle.std.specs.Prelude.{◌≡◌, ◌||◌, Bool, true, false, not, OnOk, IfOk, IfSome, IfNone};
ghost use Rattle.std.specs.List.{list_any};
ghost use Rattle.std.specs.HashSet.{contains_by};
ghost use Rattle.portal_rules.specs.Words as words;
ghost use Rattle.portal_rules.specs.Words.{equals};
ghost use Rattle.portal_rules.specs.Faults as fault;
ghost use Rattle.portal_rules.specs.Faults.{is_applicant};
ghost use Rattle.portal_rules.specs.inner.Room.{by_project};
ghost use Rattle.portal_rules.specs.inner.Tables.{HasKeys};

use portal_rules::Person;
use portal_rules::index::keys_of;
use spa_rows::Key;
use std::alloc::{AllocError, Global};
use std::collections::{HashMap, HashSet};
use std::marker::Model;

/// The applicants to each project of a lecturer, with an index of their keys.
#[derive(Drop)]
pub(crate) struct Applicants<'a> {
    projects: &'a [(Key, Vec<Person>)],
    keys: HashMap<&'a [u8], &'a Key>,
}

impl<'a> Model for Applicants<'a> {
    ghost use Rattle.std.specs.Prelude.{List};
    ghost use Rattle.portal_rules.specs.declared.rows.Person.{Person};
    ghost use Rattle.portal_rules.specs.Words as words;
    ghost use Rattle.portal_rules.specs.Faults.{is_applicant};
    ghost use Rattle.portal_rules.specs.inner.Room.{by_project};
    ghost use Rattle.portal_rules.specs.inner.Tables.{HasKeys};

    ghost Value = { List (words.Key × List Person) };

    ghost view = { λ a. by_project a.projects.now };

    ghost invariant = { λ a. HasKeys (is_applicant (by_project a.projects.now)) a.keys };
}

/// Adds the keys of a project's applicants to the index.
fn add_persons<'a>(
    keys: &mut HashMap<&'a [u8], &'a Key>,
    persons: &'a [Person],
) -> Result<(), AllocError>
    ensures { OnOk result ((known : words.Key → Bool) → HasKeys known keys.old
        → HasKeys (λ k. known k || list_any (λ s. equals s.key k) persons.now) keys.new) }
{
    for person in persons {
        keys.insert(person.key.as_bytes(), &person.key)?;
    }
    Ok(())
}

/// Returns whether a submitted ranking's `keys` lack an applicant to a project.
fn leaves_out(keys: &HashSet<&[u8]>, persons: &[Person]) -> bool
    ensures { result ≡ list_any
        (λ s. not (contains_by (λ k. equals s.key k.now) keys.now)) persons.now }
{
    persons
        .iter()
        .any(|person| !keys.contains(&person.key.as_bytes()))
}

impl<'a> Applicants<'a> {
    /// Indexes the applicants to these projects.
    pub(crate) fn of(
        alloc: Global,
        projects: &'a [(Key, Vec<Person>)],
    ) -> Result<Applicants<'a>, AllocError>
        ensures { IfOk result (λ applicants. applicants ≡ by_project projects.now) }
    {
        let mut keys = HashMap::new(alloc);
        for (_, persons) in projects {
            add_persons(&mut keys, persons)?;
        }
        Ok(Applicants { projects, keys })
    }

    /// Finds the key with this text among the applicants to all the projects.
    pub(crate) fn find(&self, text: &[u8]) -> Option<&'a Key>
        ensures some { IfSome result
            (λ key. (key.now ≡ text.now) × (is_applicant self.now text.now ≡ true)) }
        ensures none { IfNone result (is_applicant self.now text.now ≡ false) }
    {
        self.keys.get(&text).copied()
    }
}

/// Returns whether a submitted ranking's `keys` lack an applicant of the lecturer.
pub(crate) fn lacks_one(
    alloc: Global,
    applicants: &[(Key, Vec<Person>)],
    keys: &[Key],
) -> Result<bool, AllocError>
    ensures { IfOk result (λ lacks. lacks ≡ fault.lacks_one (by_project applicants.now) keys.now) }
{
    let texts = keys_of(alloc, keys)?;
    for (_, persons) in applicants {
        if leaves_out(&texts, persons) {
            return Ok(true);
        }
    }
    Ok(false)
}
