//! Replaces a list or a ranking in the entries, and moves them to the first round's fields; the
//! submodules make the other changes.

ghost use Rattle.std.specs.Prelude.{◌≡◌, OnOk, OnErr, map, if◌then◌else◌};
ghost use Rattle.portal_rules.specs.Words.{Rise, equals};

mod fill;
mod new_rows;
mod placements;

use crate::entries::Entry;
use crate::keys::index_of;
pub(crate) use fill::fill_rankings;
pub(crate) use new_rows::{add_rows, new_lecturers, new_students};
pub(crate) use placements::place_all;
use portal_rules::{Keyed, copy_keys};
use spa_rows::Key;
use std::alloc::{AllocError, Global};

/// Replaces the list of the entry with this key.
pub(crate) fn replace_list<T: Keyed + Entry>(
    alloc: Global,
    entries: &mut [T],
    key: &Key,
    list: &[Key],
) -> Result<(), AllocError>
    ensures made { OnOk result (Rise (map T.key_of entries.old)
        → entries.new ≡ map
        (λ e. if equals (T.key_of e) key.now then T.with_list list.now e else e) entries.old) }
    ensures same { OnErr result (entries.new ≡ entries.old) }
{
    let list = copy_keys(alloc, list)?;
    if let Some(place) = index_of(entries, key) {
        let entry = &mut entries[place];
        entry.set_list(list);
    }
    Ok(())
}

/// Moves what is of the current round into the fields of the first, in all entries, without
/// allocating.
pub(crate) fn lay_by_all<T: Entry>(alloc: Global, entries: &mut [T])
    ensures { entries.new ≡ map T.laid_by entries.old }
{
    for entry in entries.iter_mut() {
        entry.lay_by(alloc);
    }
}
