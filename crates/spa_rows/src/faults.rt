//! The faults that the rows of an instance can have.

ghost use Rattle.std.specs.Prelude.{◌≡◌};
ghost use Rattle.spa_rows.specs.declared.faults.InstanceFault.TheVariants.{Memory};

use std::alloc::AllocError;

/// A fault of an instance's rows. Of several faults, the first in this order is reported.
#[derive(Clone, Copy, Debug, PartialEq, Eq)]
pub enum InstanceFault {
    /// More than 300 lecturers, 1,000 projects or 2,000 students.
    TooMany,
    /// A line's key does not have the form of a key.
    BadKey,
    /// A line has the key of an earlier line of its kind.
    KeyTwice,
    /// A capacity is not in the range 1 to 200.
    BadCapacity,
    /// A project's lecturer has no line.
    NoSuchLecturer,
    /// A student lists a project that has no line.
    NoSuchProject,
    /// A student's or lecturer's list contains a text twice.
    RepeatInList,
    /// A student lists more than 20 projects.
    ListTooLong,
    /// An entry on a lecturer's list is not a student who lists one of the lecturer's projects.
    NotApplicant,
    /// A lecturer's list lacks a student who lists one of the lecturer's projects.
    ApplicantMissing,
    /// Memory ran out.
    Memory,
}

/// A fault, and the lowest-numbered row that has it (0 for `TooMany` and `Memory`).
#[derive(Clone, Copy, Debug, PartialEq, Eq)]
pub struct BadInstance {
    pub fault: InstanceFault,
    pub row: u32,
}

impl From<AllocError> for BadInstance {
    ghost from_gives = { λ _ bad. bad ≡ record { fault = Memory; row = 0 } };

    fn from(_: AllocError) -> BadInstance {
        BadInstance {
            fault: InstanceFault::Memory,
            row: 0,
        }
    }
}
