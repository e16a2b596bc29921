//! Decodes single cells of a row: keys, names, codes, numbers.

ghost use Rattle.std.specs.Prelude.{◌≡◌, ◌≤◌, is_none};
ghost use Rattle.portal_tables.specs.inner.Base.{true, false, Err, IfOk, IfSome, column, bytes};
ghost use Rattle.portal_tables.specs.inner.Base.{number_in, is_key, is_code, is_name};
ghost use Rattle.portal_tables.specs.Rows.{text_or_none};

use crate::fault::TableFault;
use portal_rules::{Code, CodeFault, Name, NameFault};
use spa_rows::limits::MOST_PLACES;
use spa_rows::{Key, KeyFault};
use sqlite::Row;
use sqlite::types::ValueRef;
use std::alloc::Global;

/// Returns the bytes of the text or blob in column `at` (from 0), or an empty slice otherwise.
pub fn bytes_at(row: &Row, at: usize) -> &[u8]
    ensures { result.now ≡ bytes (column row.now at) }
{
    match row.get_ref(at) {
        Ok(ValueRef::Text(bytes)) | Ok(ValueRef::Blob(bytes)) => bytes,
        _ => &[],
    }
}

/// Returns the number in a cell, or 0 if the cell holds no positive integer.
pub(crate) fn number_at(row: &Row, at: usize) -> u64
    ensures { result ≡ number_in (column row.now at) }
{
    match row.get_ref(at) {
        Ok(ValueRef::Int(number)) if number > 0 => number as u64,
        _ => 0,
    }
}

/// Decodes the key in a cell. Fails with `Damaged` if the bytes are not a valid key, and with
/// `Memory` if memory runs out.
pub fn key_at(alloc: Global, row: &Row, at: usize) -> Result<Key, TableFault>
    ensures ok { IfOk result (λ key. key ≡ bytes (column row.now at)) }
    ensures damaged { result ≡ Err TableFault.Damaged → is_key (bytes (column row.now at)) ≡ false }
    ensures store { result ≡ Err TableFault.Store → ⊥ }
{
    match Key::parse(alloc, bytes_at(row, at)) {
        Ok(key) => Ok(key),
        Err(KeyFault::BadKey) => Err(TableFault::Damaged),
        Err(KeyFault::Memory) => Err(TableFault::Memory),
    }
}

/// Decodes the name or title in a cell. Fails with `Damaged` if the bytes are not a valid name.
pub fn name_at(alloc: Global, row: &Row, at: usize) -> Result<Name, TableFault>
    ensures ok { IfOk result (λ name. name ≡ bytes (column row.now at)) }
    ensures damaged { result ≡ Err TableFault.Damaged
        → is_name (bytes (column row.now at)) ≡ false }
    ensures store { result ≡ Err TableFault.Store → ⊥ }
{
    match Name::parse(alloc, bytes_at(row, at)) {
        Ok(name) => Ok(name),
        Err(NameFault::BadName) => Err(TableFault::Damaged),
        Err(NameFault::Memory) => Err(TableFault::Memory),
    }
}

/// Decodes the code in a cell. Fails with `Damaged` if the bytes are not a valid code.
pub(crate) fn code_at(alloc: Global, row: &Row, at: usize) -> Result<Code, TableFault>
    ensures ok { IfOk result (λ code. code ≡ bytes (column row.now at)) }
    ensures damaged { result ≡ Err TableFault.Damaged
        → is_code (bytes (column row.now at)) ≡ false }
    ensures store { result ≡ Err TableFault.Store → ⊥ }
{
    match Code::parse(alloc, bytes_at(row, at)) {
        Ok(code) => Ok(code),
        Err(CodeFault::BadCode) => Err(TableFault::Damaged),
        Err(CodeFault::Memory) => Err(TableFault::Memory),
    }
}

/// Decodes the capacity in a cell, in students. Fails with `Damaged` unless it is 1 to 200.
pub fn capacity_at(row: &Row, at: usize) -> Result<u32, TableFault>
    ensures ok { IfOk result (λ capacity. capacity ≡ number_in (column row.now at)) }
    ensures damaged { result ≡ Err TableFault.Damaged → 1 ≤ number_in (column row.now at)
        → number_in (column row.now at) ≤ MOST_PLACES → ⊥ }
    ensures store { result ≡ Err TableFault.Store → ⊥ }
{
    let number = number_at(row, at);
    if number < 1 || u64::from(MOST_PLACES) < number {
        return Err(TableFault::Damaged);
    }
    Ok(number as u32)
}

/// Decodes the key in a cell, or returns `None` for NULL. Fails with `Damaged` if the cell holds
/// anything else, and with `Memory` if memory runs out.
pub fn assigned_at(alloc: Global, row: &Row, at: usize) -> Result<Option<Key>, TableFault>
    ensures ok { IfOk result (λ key. key ≡ text_or_none (column row.now at)) }
    ensures damaged { result ≡ Err TableFault.Damaged
        → IfSome (text_or_none (column row.now at)) (λ p. is_key p ≡ true) → ⊥ }
    ensures store { result ≡ Err TableFault.Store → ⊥ }
{
    match row.get_ref(at) {
        Ok(ValueRef::Null) | Err(_) => Ok(None),
        Ok(ValueRef::Text(_)) => Ok(Some(key_at(alloc, row, at)?)),
        Ok(_) => Err(TableFault::Damaged),
    }
}

/// Returns whether a cell is NULL or absent.
pub(crate) fn is_null(row: &Row, at: usize) -> bool
    ensures { result ≡ is_none (text_or_none (column row.now at)) }
{
    match row.get_ref(at) {
        Ok(ValueRef::Null) | Err(_) => true,
        Ok(_) => false,
    }
}
