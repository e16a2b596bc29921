//! Writes the result as CSV.

ghost use Rattle.std.specs.Prelude.{◌≡◌, ◌++◌, ℕ, List, map, IfOk, OnOk};
ghost use Rattle.portal_rules.specs.Bodies as bodies;
ghost use Rattle.portal_rolls.specs.inner.Written.{HasWritten};

use csv::Writer;
use portal_rules::index::Placings;
use portal_rules::{OfficeView, StudentRow};
use std::alloc::{AllocError, Global};

/// Writes one CSV record of five fields.
fn put_record(writer: &mut Writer<Vec<u8>>, fields: &[&[u8]; 5]) -> Result<(), AllocError>
    ensures { OnOk result ((text : List ℕ) → HasWritten writer.old text
        → HasWritten writer.new (text ++ bodies.csv_record (map (λ f. f.now) fields.now))) }
{
    writer
        .write_fields(fields.as_slice())
        .map_err(|_| AllocError)
}

/// Writes the CSV record of a student, with the project that the result gives.
fn put_student(
    writer: &mut Writer<Vec<u8>>,
    placings: &Placings,
    student: &StudentRow,
) -> Result<(), AllocError>
    ensures { OnOk result ((text : List ℕ) → HasWritten writer.old text
        → HasWritten writer.new (text ++ bodies.csv_record
        (bodies.student_fields placings.now student.now))) }
{
    let key = student.key.as_bytes();
    let name = student.name.as_bytes();
    match placings.project_of(student) {
        Some(project) => {
            let title = project.title.as_bytes();
            put_record(
                writer,
                &[
                    key,
                    name,
                    project.key.as_bytes(),
                    title,
                    project.lecturer.as_bytes(),
                ],
            )
        }
        None => put_record(writer, &[key, name, b"", b"", b""]),
    }
}

/// Returns the CSV text that a writer holds.
fn text_of(writer: Writer<Vec<u8>>) -> Result<Vec<u8>, AllocError>
    ensures { IfOk result (λ v. (text : List ℕ) → HasWritten writer text → v.items ≡ text) }
{
    writer.into_inner().map_err(|_| AllocError)
}

/// Returns the result as CSV: a header, then a record for each student, by key. An error means that
/// memory ran out.
pub fn write_allocation(alloc: Global, view: &OfficeView) -> Result<Vec<u8>, AllocError>
    ensures { IfOk result (λ text. text.items ≡ bodies.csv_text view.now) }
{
    let placings = Placings::of(alloc, view)?;
    let mut writer = Writer::from_writer(Vec::new(alloc));
    put_record(
        &mut writer,
        &[b"student", b"name", b"project", b"title", b"lecturer"],
    )?;
    for student in view.students.iter() {
        put_student(&mut writer, &placings, student)?;
    }
    text_of(writer)
}
