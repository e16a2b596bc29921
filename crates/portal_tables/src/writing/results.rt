//! Writes a round's result: the first into the rows of students, the second into `assigned2`.

ghost use Rattle.std.specs.Prelude.{◌≡◌, ◌∷◌};
ghost use Rattle.portal_tables.specs.inner.Base.{[], option_map, owned};
ghost use Rattle.portal_tables.specs.Tables.{assigned2_tree};
ghost use Rattle.portal_tables.specs.inner.Putting.{PutsPlacements};
ghost use Rattle.portal_tables.specs.Running.{Does, Made, GoesOn};
ghost use Rattle.portal_tables.specs.inner.RowChanges.{Assigns, pair_new};
ghost use Rattle.portal_tables.specs.inner.RowChanges.{text_or_null_cell};

use crate::sql::insert::{Target, add_all};
use crate::sql::run::write;
use spa_rows::Key;
use sqlite::types::ValueRef;
use sqlite::{Alter, Error, Transaction};
use std::alloc::{AllocError, Global};
use std::marker::Model;

/// A student's key, and the key of the project to assign to the student, or `None`.
#[derive(Drop)]
pub struct Assignment<'a> {
    pub student: &'a [u8],
    pub project: Option<&'a [u8]>,
}

impl<'a> Model for Assignment<'a> {
    ghost use Rattle.std.specs.Prelude.{option_map};
    ghost use Rattle.portal_tables.specs.inner.RowChanges.{Assigned};

    ghost Value = { Assigned };

    ghost view = { λ a. (a.student.now, option_map (λ p. p.now) a.project) };
}

/// Returns the key of an assigned project as an SQL value, or NULL for `None`.
fn text_or_null(text: Option<&[u8]>) -> ValueRef<'_>
    ensures { owned result ≡ text_or_null_cell (option_map (λ t. t.now) text.entry) }
{
    match text {
        Some(text) => ValueRef::Text(text),
        None => ValueRef::Null,
    }
}

/// Writes a student's assigned project into the student's row, or NULL if there is none.
fn set_assigned<S: Alter>(tx: &mut Transaction<'_, S>, a: &Assignment<'_>) -> Result<(), Error>
    ensures { Does S.Store (Made (Assigns (a.now ∷ []))) result tx.old tx.new }
{
    write(
        tx,
        "UPDATE student SET assigned = ?2 WHERE key = ?1",
        &[ValueRef::Text(a.student), text_or_null(a.project)],
    )
}

/// Writes each student's assigned project, or NULL, into the student's row, one after another.
/// Stops at the first error and returns it.
pub fn assign_all<S: Alter>(
    tx: &mut Transaction<'_, S>,
    all: &[Assignment<'_>],
) -> Result<(), Error>
    ensures { Does S.Store (GoesOn (Assigns all.now)) result tx.old tx.new }
{
    for a in all {
        set_assigned(tx, a)?;
    }
    Ok(())
}

/// The table of the second round's result.
#[derive(Clone, Copy, Drop)]
struct Placements;

impl Target<(Key, Key)> for Placements {
    ghost tree = { λ _. assigned2_tree };

    ghost cells = { pair_new };

    ghost values = { pair_new };

    fn text<S: Alter>(&self) -> &'static str {
        "INSERT INTO assigned2 (student, project) VALUES (?1, ?2)"
    }

    fn text_of_eight<S: Alter>(&self) -> &'static str {
        "INSERT INTO assigned2 (student, project) VALUES (?1, ?2), (?3, ?4), (?5, ?6), \
         (?7, ?8), (?9, ?10), (?11, ?12), (?13, ?14), (?15, ?16)"
    }

    fn put_values<'v>(row: &'v (Key, Key), all: &mut Vec<ValueRef<'v>>) -> Result<(), AllocError> {
        all.extend_from_slice(&[
            ValueRef::Text(row.0.as_bytes()),
            ValueRef::Text(row.1.as_bytes()),
        ])
    }
}

/// Replaces the second round's result by these pairs of student and project. Stops at the first
/// error and returns it. The error may be a memory shortage.
pub fn put_placements<S: Alter>(
    alloc: Global,
    tx: &mut Transaction<'_, S>,
    pairs: &[(Key, Key)],
) -> Result<(), Error>
    ensures { Does S.Store (GoesOn (PutsPlacements pairs.now)) result tx.old tx.new }
{
    write(tx, "DELETE FROM assigned2", &[])?;
    add_all(alloc, tx, &Placements, pairs)
}
