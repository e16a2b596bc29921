//! Reads a CSV file of any kind, record by record, up to its first fault.

ghost use Rattle.std.specs.Prelude.{◌≡◌, ◌<◌, List, length, map, OnOk, IfOk, IfErr};
ghost use Rattle.csv.specs.Records.{fields_of};
ghost use Rattle.portal_rolls.specs.Views.{Gives};
ghost use Rattle.portal_rolls.specs.Reading.{Format, same_record, line_of, lines_of};
ghost use Rattle.portal_rolls.specs.Reading.{Record, records_of};
ghost use Rattle.portal_rolls.specs.inner.Records.{Has, IsSetUp, TakesRecord};
ghost use Rattle.portal_rolls.specs.Views as view;
ghost use Rattle.portal_rolls.specs.inner.AsRead as form;

use crate::fault::RollFault;
use crate::fields::{has_names, is_all_text};
use csv::{ByteRecord, ErrorKind, Reader, ReaderBuilder};
use std::alloc::Global;

/// A row that a record of a kind of file becomes: the names of the file's columns, the greatest
/// number of records, and how a record is parsed.
pub(crate) trait FromRecord: Drop {
    /// The definition of this kind of file.
    ghost format: { Format Self };

    /// Returns the names of the columns of this kind of CSV file.
    fn names() -> &'static [&'static str]
        ensures { map (λ n. n.now) result.now ≡ format.header };

    /// Returns the greatest number of records that this kind of CSV file may have after the header.
    fn limit() -> u32
        ensures value { result ≡ format.limit }
        ensures small { result < 10000 };

    /// Parses a record of this kind of CSV file; it has the right number of fields, all UTF-8.
    fn says(alloc: Global, number: u32, row: &ByteRecord) -> Result<Self, RollFault>
        requires { length (fields_of row.now) ≡ length format.header }
        ensures { Gives form.same result (format.says number (fields_of row.now)) };
}

/// Checks that a record has the right number of fields, all UTF-8, then parses it.
fn parse_line<T: FromRecord>(alloc: Global, number: u32, row: &ByteRecord) -> Result<T, RollFault>
    ensures { Gives form.same result (line_of T.format number (fields_of row.now)) }
{
    if row.len() != T::names().len() {
        return Err(RollFault::FieldCount(number));
    }
    if !is_all_text(row) {
        return Err(RollFault::NotText(number));
    }
    T::says(alloc, number, row)
}

/// Creates a reader of the records of a CSV text.
fn reader_of(alloc: Global, text: &[u8]) -> Reader<&[u8]>
    ensures set_up { IsSetUp result }
    ensures has { Has result (records_of text.entry.now) }
{
    ReaderBuilder::new()
        .has_headers(false)
        .flexible(true)
        .from_reader(alloc, text)
}

/// Reads the next CSV record into `row`, and returns whether there was one.
fn take_record(rdr: &mut Reader<&[u8]>, row: &mut ByteRecord) -> Result<bool, RollFault>
    requires { IsSetUp rdr.old }
    ensures kept { OnOk result (IsSetUp rdr.new) }
    ensures took { (rows : List Record) → Has rdr.old rows
        → IfOk result (λ found. TakesRecord rows found (fields_of row.new) rdr.new) }
    ensures fault { IfErr result (λ e. e ≡ RollFault.Memory) }
{
    match rdr.read_byte_record(row) {
        Ok(found) => Ok(found),
        Err(e) => match e.into_kind() {
            ErrorKind::Io(_) | ErrorKind::OutOfMemory => Err(RollFault::Memory),
            _ => unreachable!(),
        },
    }
}

/// Checks that the next record of a reader is the header, then parses all later ones.
fn read_lines<T: FromRecord>(
    alloc: Global,
    rdr: &mut Reader<&[u8]>,
    row: &mut ByteRecord,
) -> Result<Vec<T>, RollFault>
    requires { IsSetUp rdr.old }
    ensures { (rows : List Record) → Has rdr.old rows
        → Gives view.items result (lines_of T.format rows) }
{
    if !take_record(rdr, row)? {
        return Err(RollFault::NoHeader);
    }
    if !has_names(row, T::names()) {
        return Err(RollFault::BadHeader);
    }
    let mut lines = Vec::new(alloc);
    for number in 1..T::limit() + 1 {
        if !take_record(rdr, row)? {
            return Ok(lines);
        }
        lines.push(parse_line::<T>(alloc, number, row)?)?;
    }
    if take_record(rdr, row)? {
        return Err(RollFault::TooMany);
    }
    Ok(lines)
}

/// Parses a whole CSV text of any kind, or returns its first fault as an error.
pub(crate) fn read_text<T: FromRecord>(alloc: Global, text: &[u8]) -> Result<Vec<T>, RollFault>
    ensures { Gives view.items result (lines_of T.format (records_of text.now)) }
{
    let mut rdr = reader_of(alloc, text);
    let mut row = ByteRecord::new(alloc);
    read_lines::<T>(alloc, &mut rdr, &mut row)
}
