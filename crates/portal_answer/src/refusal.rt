//! Writes the refusals of files, of instances and of matchings.

ghost use Rattle.std.specs.Prelude.{◌≡◌, IfOk, IsErr};
ghost use Rattle.portal_answer.specs.Answer.{refused_plain, refused_row};
ghost use Rattle.portal_answer.specs.Answer as spec;

use crate::answer::Output;
use portal_rolls::RollFault;
use spa_model::{BadInstance, BadMatching, InstanceFault, MatchingFault};
use std::alloc::{AllocError, Global};

/// Writes the text of a refusal that names no row.
pub(crate) fn plain(alloc: Global, word: &str) -> Result<Output, AllocError>
    ensures { IfOk result (λ t. t ≡ refused_plain word.now) }
{
    let text = format!(in alloc; "refused {word}\n")?.into_bytes();
    Ok(Output { text, status: 2 })
}

/// Writes the text of a refusal that names a row.
fn at_row(alloc: Global, word: &str, row: u32) -> Result<Output, AllocError>
    ensures { IfOk result (λ t. t ≡ refused_row word.now row) }
{
    let text = format!(in alloc; "refused {word} row {row}\n")?.into_bytes();
    Ok(Output { text, status: 2 })
}

/// Writes the text that refuses a malformed field of a file.
fn bad_field(alloc: Global, row: u32, column: u32) -> Result<Output, AllocError>
    ensures { IfOk result (λ t. t ≡ spec.refused_file (RollFault.BadField row column)) }
{
    let text = format!(in alloc; "refused bad_field row {row} column {column}\n")?.into_bytes();
    Ok(Output { text, status: 2 })
}

/// Writes the text that refuses a file that cannot be read. An error means that memory ran out.
pub(crate) fn refused_file(alloc: Global, fault: RollFault) -> Result<Output, AllocError>
    ensures told { IfOk result (λ t. t ≡ spec.refused_file fault) }
    ensures memory { fault ≡ RollFault.Memory → IsErr result }
{
    match fault {
        RollFault::NoHeader => plain(alloc, "no_header"),
        RollFault::BadHeader => plain(alloc, "bad_header"),
        RollFault::FieldCount(row) => at_row(alloc, "field_count", row),
        RollFault::NotText(row) => at_row(alloc, "not_text", row),
        RollFault::BadField(row, column) => bad_field(alloc, row, column),
        RollFault::TooMany => plain(alloc, "too_many_rows"),
        RollFault::Memory => Err(AllocError),
    }
}

/// Returns the word that names this fault of an instance's rows in the text of a refusal.
fn instance_word(fault: InstanceFault) -> &'static str
    ensures { result.now ≡ spec.instance_word fault }
{
    match fault {
        InstanceFault::TooMany => "too_many",
        InstanceFault::BadKey => "bad_key",
        InstanceFault::KeyTwice => "key_twice",
        InstanceFault::BadCapacity => "bad_capacity",
        InstanceFault::NoSuchLecturer => "no_such_lecturer",
        InstanceFault::NoSuchProject => "no_such_project",
        InstanceFault::RepeatInList => "repeat_in_list",
        InstanceFault::ListTooLong => "list_too_long",
        InstanceFault::NotApplicant => "not_applicant",
        InstanceFault::ApplicantMissing => "applicant_missing",
        InstanceFault::Memory => "",
    }
}

/// Returns the word that names this fault of a matching's pairs in the text of a refusal.
fn matching_word(fault: MatchingFault) -> &'static str
    ensures { result.now ≡ spec.matching_word fault }
{
    match fault {
        MatchingFault::NoSuchStudent => "pair_no_student",
        MatchingFault::NoSuchProject => "pair_no_project",
        MatchingFault::NotAcceptable => "pair_not_acceptable",
        MatchingFault::StudentTwice => "student_twice",
        MatchingFault::ProjectOver => "project_over",
        MatchingFault::LecturerOver => "lecturer_over",
        MatchingFault::Memory => "",
    }
}

/// Writes the text that refuses rows that are no instance. An error means that memory ran out.
pub(crate) fn refused_instance(alloc: Global, bad: BadInstance) -> Result<Output, AllocError>
    ensures told { IfOk result (λ t. t ≡ spec.refused_instance bad.fault bad.row) }
    ensures memory { bad.fault ≡ InstanceFault.Memory → IsErr result }
{
    match bad.fault {
        InstanceFault::Memory => Err(AllocError),
        InstanceFault::TooMany => plain(alloc, instance_word(bad.fault)),
        fault => at_row(alloc, instance_word(fault), bad.row),
    }
}

/// Writes the text that refuses pairs that are no matching. An error means that memory ran out.
pub(crate) fn refused_matching(alloc: Global, bad: BadMatching) -> Result<Output, AllocError>
    ensures told { IfOk result (λ t. t ≡ spec.refused_matching bad.fault bad.row) }
    ensures memory { bad.fault ≡ MatchingFault.Memory → IsErr result }
{
    match bad.fault {
        MatchingFault::Memory => Err(AllocError),
        fault => at_row(alloc, matching_word(fault), bad.row),
    }
}
