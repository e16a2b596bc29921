//! Reads instance files: parses each record by its first field, and groups lines by kind.

ghost use Rattle.std.specs.Prelude.{◌≡◌, IfOk, IfErr};
ghost use Rattle.csv.specs.Records.{fields_of};
ghost use Rattle.portal_rolls.specs.Views.{Gives};
ghost use Rattle.portal_rolls.specs.Lines as spec;
ghost use Rattle.portal_rolls.specs.Views as view;
ghost use Rattle.portal_rolls.specs.inner.AsRead as form;

use crate::fault::RollFault;
use crate::fields::{capacity_of, four, list_of};
use crate::line::{File, FileLine};
use crate::reading::{FromRecord, read_text};
use csv::ByteRecord;
use spa_rows::limits::{MOST_LECTURERS, MOST_PROJECTS, MOST_STUDENTS};
use spa_rows::{InstanceRows, LecturerLine, PairLine, ProjectLine, StudentLine};
use std::alloc::Global;

/// The kind of a record.
#[derive(Clone, Copy, Debug, PartialEq, Eq)]
pub(crate) enum Mark {
    Lecturer,
    Project,
    Student,
    Pair,
}

/// Decodes the letter in the first field of an instance file's record.
fn mark_of(field: &[u8]) -> Option<Mark>
    ensures { result ≡ spec.mark_of field.now }
{
    match field {
        [b'L'] => Some(Mark::Lecturer),
        [b'P'] => Some(Mark::Project),
        [b'S'] => Some(Mark::Student),
        [b'M'] => Some(Mark::Pair),
        _ => None,
    }
}

/// Parses an instance file's record of this kind into a line.
fn line_at(
    alloc: Global,
    mark: Mark,
    number: u32,
    key: &[u8],
    value: &[u8],
    list: &[u8],
) -> Result<FileLine, RollFault>
    ensures { Gives form.same result (spec.line_at (Some mark) number key.now value.now list.now) }
{
    let key = Vec::from_slice(alloc, key)?;
    match mark {
        Mark::Lecturer => {
            let capacity = capacity_of(value).ok_or(RollFault::BadField(number, 3))?;
            let list = list_of(alloc, list)?;
            Ok(FileLine::Lecturer(LecturerLine {
                row: number,
                key,
                capacity,
                list,
            }))
        }
        Mark::Project => {
            let capacity = capacity_of(value).ok_or(RollFault::BadField(number, 3))?;
            let lecturer = Vec::from_slice(alloc, list)?;
            Ok(FileLine::Project(ProjectLine {
                row: number,
                key,
                capacity,
                lecturer,
            }))
        }
        Mark::Student => {
            if !value.is_empty() {
                return Err(RollFault::BadField(number, 3));
            }
            let list = list_of(alloc, list)?;
            Ok(FileLine::Student(StudentLine {
                row: number,
                key,
                list,
            }))
        }
        Mark::Pair => {
            if !list.is_empty() {
                return Err(RollFault::BadField(number, 4));
            }
            let project = Vec::from_slice(alloc, value)?;
            Ok(FileLine::Pair(PairLine {
                row: number,
                student: key,
                project,
            }))
        }
    }
}

impl FromRecord for FileLine {
    ghost format = { spec.instance_file };

    fn names() -> &'static [&'static str] {
        &["kind", "key", "value", "list"]
    }

    fn limit() -> u32 {
        (MOST_LECTURERS + MOST_PROJECTS + 2 * MOST_STUDENTS) as u32
    }

    fn says(alloc: Global, number: u32, row: &ByteRecord) -> Result<FileLine, RollFault> {
        let (kind, key, value, list) = four(row);
        let mark = mark_of(kind).ok_or(RollFault::BadField(number, 1))?;
        line_at(alloc, mark, number, key, value, list)
    }
}

/// Groups the lines of an instance file by kind.
fn file_of(alloc: Global, lines: Vec<FileLine>) -> Result<File, RollFault>
    ensures ok { IfOk result (λ file. form.file file ≡ spec.file_of lines.items) }
    ensures fault { IfErr result (λ e. e ≡ RollFault.Memory) }
{
    let mut file = File::new(alloc);
    for line in lines {
        file.put(line)?;
    }
    Ok(file)
}

/// Reads the rows of an instance file and the pairs of its matching.
///
/// # Errors
///
/// Returns the first fault, with its row and column if it has them, or `Memory`.
pub fn read_instance(alloc: Global, text: &[u8]) -> Result<(InstanceRows, Vec<PairLine>), RollFault>
    ensures { Gives view.parts result (spec.rows text.now) }
{
    match read_text::<FileLine>(alloc, text) {
        Ok(lines) => Ok(file_of(alloc, lines)?.into_parts()),
        Err(fault) => Err(fault),
    }
}
