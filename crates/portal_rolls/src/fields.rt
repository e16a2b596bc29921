//! Parses the fields of a record: keys, names, codes, capacities, lists.

ghost use Rattle.std.specs.Prelude.{◌≡◌, ◌<◌, IfOk, length, map};
ghost use Rattle.std.specs.Char.{is_ascii_digit};
ghost use Rattle.std.specs.List.{list_all};
ghost use Rattle.std.specs.Str.{is_utf8};
ghost use Rattle.csv.specs.Records.{field_at, fields_of};
ghost use Rattle.spa_rows.specs.Lines.{is_key};
ghost use Rattle.portal_rules.specs.Words.{is_code, is_name};
ghost use Rattle.portal_rolls.specs.Lines as spec;
ghost use Rattle.portal_rolls.specs.Views.{Gives};
ghost use Rattle.portal_rolls.specs.Reading.{same_record};
ghost use Rattle.portal_rolls.specs.inner.AsRead as form;

use crate::fault::RollFault;
use csv::ByteRecord;
use portal_rules::{Code, CodeFault, Name, NameFault};
use spa_rows::limits::is_capacity;
use spa_rows::{Key, KeyFault};
use std::alloc::{AllocError, Global};
use std::{mem, str};

/// Returns the field with this index, which the record has.
fn field(row: &ByteRecord, at: usize) -> &[u8]
    requires { at < length (fields_of row.now) }
    ensures { Some result.now ≡ field_at (fields_of row.now) at }
{
    let Some(field) = row.get(at) else {
        unreachable!()
    };
    field
}

/// Returns the fields of a record that has four.
pub(crate) fn four(row: &ByteRecord) -> (&[u8], &[u8], &[u8], &[u8])
    requires { length (fields_of row.now) ≡ 4 }
    ensures { fields_of row.now ≡ form.four result }
{
    (field(row, 0), field(row, 1), field(row, 2), field(row, 3))
}

/// Returns the fields of a record that has three.
pub(crate) fn three(row: &ByteRecord) -> (&[u8], &[u8], &[u8])
    requires { length (fields_of row.now) ≡ 3 }
    ensures { fields_of row.now ≡ form.three result }
{
    (field(row, 0), field(row, 1), field(row, 2))
}

/// Returns whether the fields of a record are these names.
pub(crate) fn has_names(row: &ByteRecord, names: &[&str]) -> bool
    ensures { result ≡ same_record (map (λ n. n.now) names.now) (fields_of row.now) }
{
    if row.len() != names.len() {
        return false;
    }
    for (i, name) in names.iter().enumerate() {
        if name.as_bytes() != field(row, i) {
            return false;
        }
    }
    true
}

/// Returns whether a field is UTF-8.
fn is_text(field: &[u8]) -> bool
    ensures { result ≡ is_utf8 field.now }
{
    str::from_utf8(field).is_ok()
}

/// Returns whether each field of a record is UTF-8.
pub(crate) fn is_all_text(row: &ByteRecord) -> bool
    ensures { result ≡ list_all is_utf8 (fields_of row.now) }
{
    for i in 0..row.len() {
        if !is_text(field(row, i)) {
            return false;
        }
    }
    true
}

/// Returns whether each byte of a field is an ASCII digit.
fn is_digits(field: &[u8]) -> bool
    ensures { result ≡ list_all is_ascii_digit field.now }
{
    field.iter().all(|b| b.is_ascii_digit())
}

/// Parses a field that holds a number of 1 to 7 digits.
pub(crate) fn capacity_of(field: &[u8]) -> Option<u32>
    ensures { result ≡ form.capacity_in field.now }
{
    if field.is_empty() || field.len() > 7 || !is_digits(field) {
        return None;
    }
    let mut value = 0;
    for digit in field {
        value = value * 10 + u32::from(digit.saturating_sub(b'0'));
    }
    Some(value)
}

/// Parses a capacity of 1 to 200 in a column of a record.
pub(crate) fn capacity_at(row: u32, column: u32, field: &[u8]) -> Result<u32, RollFault>
    ensures { result ≡ form.limited row column field.now }
{
    match capacity_of(field) {
        Some(n) if is_capacity(n) => Ok(n),
        _ => Err(RollFault::BadField(row, column)),
    }
}

/// Parses the key in a column of a record.
pub(crate) fn key_at(alloc: Global, row: u32, column: u32, field: &[u8]) -> Result<Key, RollFault>
    ensures { Gives form.same result (form.formed is_key row column field.now) }
{
    match Key::parse(alloc, field) {
        Ok(key) => Ok(key),
        Err(KeyFault::BadKey) => Err(RollFault::BadField(row, column)),
        Err(KeyFault::Memory) => Err(RollFault::Memory),
    }
}

/// Parses the name in a column of a record.
pub(crate) fn name_at(alloc: Global, row: u32, column: u32, field: &[u8]) -> Result<Name, RollFault>
    ensures { Gives form.same result (form.formed is_name row column field.now) }
{
    match Name::parse(alloc, field) {
        Ok(name) => Ok(name),
        Err(NameFault::BadName) => Err(RollFault::BadField(row, column)),
        Err(NameFault::Memory) => Err(RollFault::Memory),
    }
}

/// Parses the code in a column of a record.
pub(crate) fn code_at(alloc: Global, row: u32, column: u32, field: &[u8]) -> Result<Code, RollFault>
    ensures { Gives form.same result (form.formed is_code row column field.now) }
{
    match Code::parse(alloc, field) {
        Ok(code) => Ok(code),
        Err(CodeFault::BadCode) => Err(RollFault::BadField(row, column)),
        Err(CodeFault::Memory) => Err(RollFault::Memory),
    }
}

/// Splits the list in a field at each blank. An empty field is an empty list.
pub(crate) fn list_of(alloc: Global, field: &[u8]) -> Result<Vec<Vec<u8>>, AllocError>
    ensures { IfOk result (λ v. form.text_views v.items ≡ spec.list_of field.now) }
{
    let mut list = Vec::new(alloc);
    if field.is_empty() {
        return Ok(list);
    }
    let mut piece = Vec::new(alloc);
    for byte in field {
        if *byte == b' ' {
            list.push(mem::replace(&mut piece, Vec::new(alloc)))?;
        } else {
            piece.push(*byte)?;
        }
    }
    list.push(piece)?;
    Ok(list)
}
