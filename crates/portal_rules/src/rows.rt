//! Rows of the rolls, persons as others see them, and listings of the catalogue.

ghost use Rattle.std.specs.Prelude.{◌≡◌, IfOk};
ghost use Rattle.portal_rules.specs.View.{listing_with};
ghost use Rattle.portal_rules.specs.Words as words;

use crate::code::Code;
use crate::name::Name;
use spa_rows::Key;
use std::alloc::{AllocError, Global};

/// A lecturer or a student, as others see them.
#[derive(Debug, Drop)]
pub struct Person {
    pub key: Key,
    pub name: Name,
}

impl Person {
    /// Copies the person. Fails if memory runs out.
    pub fn copy(&self, alloc: Global) -> Result<Person, AllocError>
        ensures { IfOk result (λ person. person ≡ self.now) }
    {
        Ok(Person {
            key: self.key.copy(alloc)?,
            name: self.name.copy(alloc)?,
        })
    }
}

/// A lecturer's row on the roll.
#[derive(Debug, Drop)]
pub struct LecturerRow {
    pub key: Key,
    pub name: Name,
    pub code: Code,
    pub capacity: u32,
}

impl LecturerRow {
    /// Copies the row. Fails if memory runs out.
    pub fn copy(&self, alloc: Global) -> Result<LecturerRow, AllocError>
        ensures { IfOk result (λ row. row ≡ self.now) }
    {
        Ok(LecturerRow {
            key: self.key.copy(alloc)?,
            name: self.name.copy(alloc)?,
            code: self.code.copy(alloc)?,
            capacity: self.capacity,
        })
    }
}

/// A project's row on the roll.
#[derive(Debug, Drop)]
pub struct ProjectRow {
    pub key: Key,
    pub lecturer: Key,
    pub title: Name,
    pub capacity: u32,
}

impl ProjectRow {
    /// Copies the row. Fails if memory runs out.
    pub fn copy(&self, alloc: Global) -> Result<ProjectRow, AllocError>
        ensures { IfOk result (λ row. row ≡ self.now) }
    {
        Ok(ProjectRow {
            key: self.key.copy(alloc)?,
            lecturer: self.lecturer.copy(alloc)?,
            title: self.title.copy(alloc)?,
            capacity: self.capacity,
        })
    }
}

/// A student's row on the roll.
#[derive(Debug, Drop)]
pub struct StudentRow {
    pub key: Key,
    pub name: Name,
    pub code: Code,
}

impl StudentRow {
    /// Copies the row. Fails if memory runs out.
    pub fn copy(&self, alloc: Global) -> Result<StudentRow, AllocError>
        ensures { IfOk result (λ row. row ≡ self.now) }
    {
        Ok(StudentRow {
            key: self.key.copy(alloc)?,
            name: self.name.copy(alloc)?,
            code: self.code.copy(alloc)?,
        })
    }
}

/// A project as the catalogue shows it.
#[derive(Debug, Drop)]
pub struct Listing {
    pub key: Key,
    pub title: Name,
    pub lecturer: Key,
    pub lecturer_name: Name,
    pub capacity: u32,
}

impl Listing {
    /// Makes the catalogue's entry for the project, with its lecturer's name. Fails if memory runs
    /// out.
    pub fn of(
        alloc: Global,
        project: &ProjectRow,
        lecturer_name: &Name,
    ) -> Result<Listing, AllocError>
        ensures { IfOk result (λ listing. listing ≡ listing_with project.now lecturer_name.now) }
    {
        Ok(Listing {
            key: project.key.copy(alloc)?,
            title: project.title.copy(alloc)?,
            lecturer: project.lecturer.copy(alloc)?,
            lecturer_name: lecturer_name.copy(alloc)?,
            capacity: project.capacity,
        })
    }
}

/// A row that is looked up by its key.
pub trait Keyed {
    /// The row's key.
    ghost key_of: { Self → words.Key };

    /// Returns the row's key.
    fn key(&self) -> &Key
        ensures { result.now ≡ key_of self.now };
}

/// A row of a person with a code.
pub trait Coded {
    /// The row's code.
    ghost code_of: { Self → words.Key };

    /// Returns the row's code.
    fn code(&self) -> &Code
        ensures { result.now ≡ code_of self.now };
}

impl Keyed for LecturerRow {
    ghost key_of = { λ row. row.key };

    fn key(&self) -> &Key {
        &self.key
    }
}

impl Keyed for ProjectRow {
    ghost key_of = { λ row. row.key };

    fn key(&self) -> &Key {
        &self.key
    }
}

impl Keyed for StudentRow {
    ghost key_of = { λ row. row.key };

    fn key(&self) -> &Key {
        &self.key
    }
}

/// A pair of a student and a project; its key is the student's.
impl Keyed for (Key, Key) {
    ghost key_of = { λ pair. pair.0 };

    fn key(&self) -> &Key {
        &self.0
    }
}

impl Keyed for Key {
    ghost key_of = { λ key. key };

    fn key(&self) -> &Key {
        self
    }
}

impl Keyed for &Key {
    ghost key_of = { λ key. key.now };

    fn key(&self) -> &Key {
        self
    }
}

impl Coded for LecturerRow {
    ghost code_of = { λ row. row.code };

    fn code(&self) -> &Code {
        &self.code
    }
}

impl Coded for StudentRow {
    ghost code_of = { λ row. row.code };

    fn code(&self) -> &Code {
        &self.code
    }
}

/// Copies a list of keys. Fails if memory runs out.
pub fn copy_keys(alloc: Global, keys: &[Key]) -> Result<Vec<Key>, AllocError>
    ensures { IfOk result (λ v. v.items ≡ keys.now) }
{
    let mut copies = Vec::with_capacity(alloc, keys.len())?;
    for key in keys {
        copies.push(key.copy(alloc)?)?;
    }
    Ok(copies)
}

/// Copies a list of pairs. Fails if memory runs out.
pub(crate) fn copy_pairs(alloc: Global, pairs: &[(Key, Key)]) -> Result<Vec<(Key, Key)>, AllocError>
    ensures { IfOk result (λ v. v.items ≡ pairs.now) }
{
    let mut copies = Vec::with_capacity(alloc, pairs.len())?;
    for (student, project) in pairs {
        copies.push((student.copy(alloc)?, project.copy(alloc)?))?;
    }
    Ok(copies)
}
