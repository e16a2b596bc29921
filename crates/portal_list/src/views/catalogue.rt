//! Makes the catalogue from the entries.

ghost use Rattle.std.specs.Prelude.{◌≡◌, IfOk};
ghost use Rattle.portal_list.specs.inner.Shown.{catalogue_in};

use crate::entries::{Entries, LecturerEntry};
use crate::second_round::entries_in_play;
use portal_rules::{HasLecturerRow, LecturerRow, Listing, Round, listings_of};
use std::alloc::{AllocError, Global};

impl HasLecturerRow for LecturerEntry {
    ghost row_of = { λ entry. entry.row };

    fn lecturer_row(&self) -> &LecturerRow {
        &self.row
    }
}

/// Makes the catalogue of the round from the entries.
pub(crate) fn catalogue_of(alloc: Global, entries: &Entries) -> Result<Vec<Listing>, AllocError>
    ensures { IfOk result (λ v. v.items ≡ catalogue_in entries.now) }
{
    match entries.round {
        Round::First => listings_of(alloc, &entries.lecturers, &entries.projects),
        Round::Second => {
            let left = entries_in_play(alloc, entries)?;
            listings_of(alloc, &left.lecturers, &left.projects)
        }
    }
}
