//! Makes a catalogue of rows: each project with its lecturer's name.

ghost use Rattle.std.specs.Prelude.{◌≡◌, IfOk, map, option_map};
ghost use Rattle.portal_rules.specs.View.{listing_with};
ghost use Rattle.portal_rules.specs.declared.rows.LecturerRow as rows;
ghost use Rattle.portal_rules.specs.inner.Offers.{name_of, offered};

use crate::collecting::try_filter_map;
use crate::name::Name;
use crate::rows::{LecturerRow, Listing, ProjectRow};
use spa_rows::Key;
use std::alloc::{AllocError, Global};

/// A type that has a row of the roll of lecturers.
pub trait HasLecturerRow {
    /// The row of a value, for contracts.
    ghost row_of: { Self → rows.LecturerRow };

    /// Returns the row.
    fn lecturer_row(&self) -> &LecturerRow
        ensures { result.now ≡ row_of self.now };
}

impl HasLecturerRow for LecturerRow {
    ghost row_of = { λ row. row };

    fn lecturer_row(&self) -> &LecturerRow {
        self
    }
}

/// Finds the name of the lecturer with this key, for a listing of the catalogue.
fn name_among<'a, L: HasLecturerRow>(lecturers: &'a [L], key: &Key) -> Option<&'a Name>
    ensures { option_map (λ n. n.now) result ≡ name_of (map L.row_of lecturers.now) key.now }
{
    for lecturer in lecturers {
        let row = lecturer.lecturer_row();
        if row.key == *key {
            return Some(&row.name);
        }
    }
    None
}

/// Makes a project's listing with its lecturer's name. Returns `None` if the lecturer is not among
/// these.
fn listing_among<L: HasLecturerRow>(
    alloc: Global,
    lecturers: &[L],
    project: &ProjectRow,
) -> Result<Option<Listing>, AllocError>
    ensures { IfOk result (λ o. o
        ≡ option_map (listing_with project.now)
        (name_of (map L.row_of lecturers.now) project.now.lecturer)) }
{
    match name_among(lecturers, &project.lecturer) {
        Some(name) => Ok(Some(Listing::of(alloc, project, name)?)),
        None => Ok(None),
    }
}

/// Makes listings for a catalogue: each project with its lecturer's name. It omits projects of
/// other lecturers.
///
/// # Errors
///
/// Returns `AllocError` if memory runs out.
pub fn listings_of<L: HasLecturerRow>(
    alloc: Global,
    lecturers: &[L],
    projects: &[ProjectRow],
) -> Result<Vec<Listing>, AllocError>
    ensures { IfOk result (λ v. v.items ≡ offered (map L.row_of lecturers.now) projects.now) }
{
    try_filter_map(alloc, projects, |p| listing_among(alloc, lecturers, p))
}
