//! Replaces or clears an owner's list or ranking.

ghost use Rattle.std.specs.Prelude.{◌≡◌, ◌≤◌};
ghost use Rattle.portal_tables.specs.inner.Base.{length, map, IfOk};
ghost use Rattle.portal_tables.specs.Running.{Does, Made, GoesOn};
ghost use Rattle.portal_tables.specs.Tables.{tree_of};
ghost use Rattle.portal_tables.specs.inner.RowChanges.{Clears, place_new};
ghost use Rattle.portal_tables.specs.inner.Putting.{list_cells, PutsList};

use crate::sql::insert::{NewPlace, add_all};
use crate::sql::list_table::Lists;
use crate::sql::run::write;
use spa_rows::Key;
use spa_rows::limits::MOST_STUDENTS;
use sqlite::types::ValueRef;
use sqlite::{Alter, Error, ErrorCode, Transaction};
use std::alloc::{AllocError, Global};

/// Clears an owner's list or ranking: deletes its rows.
pub fn clear_list<S: Alter>(
    tx: &mut Transaction<'_, S>,
    lists: Lists,
    owner: &[u8],
) -> Result<(), Error>
    ensures { Does S.Store (Made (Clears (tree_of lists) owner.now)) result tx.old tx.new }
{
    write(tx, lists.clear_text(), &[ValueRef::Text(owner)])
}

/// Returns the rows that put a list into its table, with places from 1 on. Fails only if memory
/// runs out.
fn places_of<'a>(
    alloc: Global,
    owner: &'a Key,
    items: &'a [Key],
) -> Result<Vec<NewPlace<'a>>, AllocError>
    requires few { length items.now ≤ MOST_STUDENTS }
    ensures { IfOk result (λ v. map place_new v.items ≡ list_cells owner.now items.now) }
{
    let mut rows = Vec::with_capacity(alloc, items.len())?;
    let mut place = 0u32;
    for item in items {
        place += 1;
        rows.push(NewPlace {
            owner: owner.as_bytes(),
            place,
            item: item.as_bytes(),
        })?;
    }
    Ok(rows)
}

/// Replaces an owner's list or ranking by these items, best first. Fails with `TooBig` for more
/// than `MOST_STUDENTS` items. Otherwise it stops at the first error and returns it. The error may
/// be a memory shortage.
pub fn put_list<S: Alter>(
    alloc: Global,
    tx: &mut Transaction<'_, S>,
    lists: Lists,
    owner: &Key,
    items: &[Key],
) -> Result<(), Error>
    ensures { Does S.Store (GoesOn
        (PutsList (tree_of lists) owner.now items.now)) result tx.old tx.new }
{
    if items.len() > MOST_STUDENTS {
        return Err(Error::SqliteFailure(ErrorCode::TooBig));
    }
    clear_list(tx, lists, owner.as_bytes())?;
    let rows = places_of(alloc, owner, items)?;
    add_all(alloc, tx, &lists, &rows)
}
