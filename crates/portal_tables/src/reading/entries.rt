//! Reads the list or ranking of one owner, or of several owners one after another.

ghost use Rattle.std.specs.Prelude.{◌≡◌, if◌then◌else◌};
ghost use Rattle.portal_tables.specs.inner.Base.{[], false, true, Err, IfOk, OnOk, IsTrue, Some};
ghost use Rattle.portal_tables.specs.inner.Base.{None, option_map, map, AllByRecursion, ⊤};
ghost use Rattle.portal_tables.specs.inner.Base.{IsDatabase, has, Rise};
ghost use Rattle.portal_tables.specs.Reads.{MayRead, Always, GivesOrFails, Blames, Reads, Gives};
ghost use Rattle.portal_tables.specs.inner.Texts.{round_of};
ghost use Rattle.portal_tables.specs.Tables.{tree_of};
ghost use Rattle.portal_tables.specs.inner.Owners.{AreOwned, has_list, entry, with_list, IsRead};
ghost use Rattle.portal_tables.specs.inner.Owners.{IsFine, IsFineList, IsListOf, AreEntriesOf};
ghost use Rattle.portal_tables.specs.inner.Shown.{first_cell};
ghost use Rattle.portal_tables.specs.declared.sql.list_table.Lists.TheVariants.{Rankings};

use crate::fault::TableFault;
use crate::reading::cells::{bytes_at, key_at, number_at};
use crate::reading::decode::{do_rise, list_from, push_some};
use crate::reading::sorted_rolls::is_named;
use crate::sql::list_table::Lists;
use crate::sql::select::{Query, finds_any, read_rows};
use portal_rules::Round;
use spa_rows::Key;
use sqlite::{Alter, Connection, Row};
use std::alloc::Global;

/// Reads one owner's list in the order of its places. Fails with `Damaged` if they are not 1, 2 and
/// so on or an item is not a valid key. Fails with `Store` if the store reports an error, and with
/// `Memory` if memory runs out.
pub fn list_in<S: Alter>(
    alloc: Global,
    conn: &mut Connection<S>,
    lists: Lists,
    owner: &Key,
) -> Result<Vec<Key>, TableFault>
    ensures { Reads (round_of lists) S.Store Always
        (GivesOrFails (λ db v. IsListOf owner.now (db.trees (tree_of lists)) v.items)
        (λ db fault. Blames fault (IsFineList owner.now (db.trees (tree_of lists)))))
        result conn.old conn.new }
{
    let rows = read_rows(alloc, conn, Query::ListOf(lists, owner.as_bytes()))?;
    list_from(alloc, &rows)
}

/// Returns whether the lecturer in this row has a ranking. Only those of the second round need a
/// query. Never fails with `Damaged`.
fn has_ranking_in<S: Alter>(
    conn: &mut Connection<S>,
    round: Round,
    row: &Row,
) -> Result<bool, TableFault>
    ensures reads { MayRead round S.Store IsDatabase
        (Gives (λ db b. b ≡ has_list (Rankings round) db.trees row.now)) result conn.old conn.new }
    ensures undamaged { result ≡ Err TableFault.Damaged → ⊥ }
{
    match round {
        Round::First => Ok(number_at(row, 4) == 1),
        Round::Second => Ok(finds_any(conn, Query::SecondRankedBy(bytes_at(row, 0)))?),
    }
}

/// Returns whether the owner in this row has a list. Every student has one. Never fails with
/// `Damaged`.
pub fn has_list_in<S: Alter>(
    conn: &mut Connection<S>,
    lists: Lists,
    row: &Row,
) -> Result<bool, TableFault>
    ensures reads { MayRead (round_of lists) S.Store IsDatabase
        (Gives (λ db b. b ≡ has_list lists db.trees row.now)) result conn.old conn.new }
    ensures undamaged { result ≡ Err TableFault.Damaged → ⊥ }
{
    match lists {
        Lists::Choices(_) => Ok(true),
        Lists::Rankings(round) => has_ranking_in(conn, round, row),
    }
}

/// Returns the owner with the list that was read if `is_there`. Otherwise checks that the list is
/// empty.
fn kept_entry(
    is_there: bool,
    owner: Key,
    list: Vec<Key>,
) -> Result<Option<(Key, Vec<Key>)>, TableFault>
    ensures ok { IfOk result (λ found. option_map with_list found
        ≡ (if is_there then Some (owner, list.items) else None)) }
    ensures none { OnOk result (is_there ≡ false → list.items ≡ []) }
    ensures damaged { result ≡ Err TableFault.Damaged
        → (is_there ≡ false → list.items ≡ []) → ⊥ }
    ensures store { result ≡ Err TableFault.Store → ⊥ }
{
    if is_there {
        return Ok(Some((owner, list)));
    }
    if !list.is_empty() {
        return Err(TableFault::Damaged);
    }
    Ok(None)
}

/// Reads the list of the owner in this row, or returns `None` if the owner has none.
pub fn entry_in<S: Alter>(
    alloc: Global,
    conn: &mut Connection<S>,
    lists: Lists,
    owner: &Row,
) -> Result<Option<(Key, Vec<Key>)>, TableFault>
    ensures { MayRead (round_of lists) S.Store IsDatabase
        (GivesOrFails (λ db found. (option_map with_list found ≡ entry lists db.trees owner.now)
        × IsRead lists db.trees owner.now)
        (λ db fault. Blames fault (IsFine lists db.trees owner.now))) result conn.old conn.new }
{
    let key = key_at(alloc, owner, 0)?;
    let list = list_in(alloc, conn, lists, &key)?;
    let is_there = has_list_in(conn, lists, owner)?;
    kept_entry(is_there, key, list)
}

/// Reads the lists of the owners in these rows, with queries for each owner. Fails with `Damaged`
/// if an owner's key is invalid or a lecturer has rows but no ranking; otherwise like `list_in`.
fn entries_each<S: Alter>(
    alloc: Global,
    conn: &mut Connection<S>,
    lists: Lists,
    owners: &[Row],
) -> Result<Vec<(Key, Vec<Key>)>, TableFault>
    ensures { MayRead (round_of lists) S.Store IsDatabase
        (GivesOrFails (λ db v. AreEntriesOf lists db.trees owners.now (map with_list v.items))
        (λ db fault. Blames fault (AllByRecursion (IsFine lists db.trees) owners.now)))
        result conn.old conn.new }
{
    let mut entries = Vec::new(alloc);
    for owner in owners {
        let entry = entry_in(alloc, conn, lists, owner)?;
        push_some(&mut entries, entry)?;
    }
    Ok(entries)
}

/// Returns whether the owners' keys are strictly ascending and each row begins with one of them.
fn are_owned(owners: &[Row], rows: &[Row]) -> bool
    ensures rise { IsTrue result → Rise (map first_cell owners.now) }
    ensures owned { Rise (map first_cell owners.now)
        → AllByRecursion (λ c. has (map first_cell owners.now) (first_cell c) ≡ true) rows.now
        → IsTrue result }
{
    do_rise(owners) && rows.iter().all(|row| is_named(owners, bytes_at(row, 0)))
}

/// Checks that the owners' keys are strictly ascending and that each row of the lists has one of
/// them. Foreign keys forbid other rows, but a program that does not enforce them may write some.
fn see_owners<S: Alter>(
    alloc: Global,
    conn: &mut Connection<S>,
    lists: Lists,
    owners: &[Row],
) -> Result<(), TableFault>
    ensures { Reads (round_of lists) S.Store Always
        (GivesOrFails (λ db _. ⊤) (λ db fault. Blames fault (AreOwned lists db.trees owners.now)))
        result conn.old conn.new }
{
    let rows = read_rows(alloc, conn, Query::AllLists(lists))?;
    if are_owned(owners, &rows) {
        Ok(())
    } else {
        Err(TableFault::Damaged)
    }
}

/// Reads the lists of the owners in these rows, with queries for each owner. Fails with `Damaged`
/// if the owners' keys are not strictly ascending, or a list row belongs to none of them. An
/// invalid owner's key, or a lecturer with rows but no ranking, is `Damaged` too. Otherwise fails
/// like `list_in`.
pub fn entries_in<S: Alter>(
    alloc: Global,
    conn: &mut Connection<S>,
    lists: Lists,
    owners: &[Row],
) -> Result<Vec<(Key, Vec<Key>)>, TableFault>
    ensures { Reads (round_of lists) S.Store IsDatabase
        (GivesOrFails (λ db v. AreEntriesOf lists db.trees owners.now (map with_list v.items))
        (λ db fault. Blames fault (AreOwned lists db.trees owners.now
        × AllByRecursion (IsFine lists db.trees) owners.now))) result conn.old conn.new }
{
    see_owners(alloc, conn, lists, owners)?;
    entries_each(alloc, conn, lists, owners)
}
