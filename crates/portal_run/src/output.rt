//! Writes a text, a fault or a refusal to the output, and returns the exit status.

ghost use Rattle.std.specs.Prelude.{◌≡◌, ◌≤◌, IfErr, IfOk, IsTrue, codes};
ghost use Rattle.std.specs.Io.KnownBytes.{Appends};
ghost use Rattle.portal_desk.specs.declared.served.Cause.{Cause};
ghost use Rattle.portal_store.specs.Crash.{as_upgrading};
ghost use Rattle.portal_store.specs.declared.store.UpgradeFault.{UpgradeFault};
ghost use Rattle.portal_run.specs.Databases.{create_refusal};
ghost use Rattle.portal_run.specs.Lines.{Says, fault, refusal, success};
ghost use Rattle.portal_run.specs.inner.Input.{connect_refusal};
ghost use Rattle.portal_run.specs.inner.Taken.{AppendsFront};

use portal_desk::{Cause, write_again};
use portal_store::{CreateFault, OpenFault};
use sqlite::{Error, ErrorCode};
use std::io::Write;

// Each reason why some command refuses a database is one of an upgrade's.
pub(crate) use portal_store::UpgradeFault;

/// Writes a text, and returns whether all of it was written.
fn write_whole<W: Write>(writer: &mut W, text: &[u8]) -> bool
    ensures whole { IsTrue result
        → Appends (W.contents writer.old) (W.contents writer.new) text.now }
    ensures front { AppendsFront (W.contents writer.old) (W.contents writer.new) text.now }
{
    let mut done = 0;
    while done < text.len() {
        match write_again(writer, &text[done..]) {
            Ok(0) | Err(_) => return false,
            Ok(n) => done += n,
        }
    }
    true
}

/// Writes a text and flushes the output, and returns whether all of that was done.
pub(crate) fn write_flushed<W: Write>(writer: &mut W, text: &[u8]) -> bool
    ensures whole { IsTrue result
        → Appends (W.contents writer.old) (W.contents writer.new) text.now }
    ensures front { AppendsFront (W.contents writer.old) (W.contents writer.new) text.now }
{
    if !write_whole(writer, text) {
        return false;
    }
    writer.flush().is_ok()
}

/// Writes a text and returns its exit status, or 3 if the writer fails.
pub fn say<W: Write>(writer: &mut W, text: &[u8], status: u8) -> u8
    ensures says { Says (record { text = text.now; status = status }) result
        (W.contents writer.old) (W.contents writer.new) }
    ensures bound { status ≤ 3 → result ≤ 3 }
{
    if write_flushed(writer, text) {
        return status;
    }
    let _ = write_whole(writer, b"fault write\n");
    3
}

/// Reports that a device or memory failed.
pub(crate) fn say_fault<W: Write>(writer: &mut W, cause: Cause) -> u8
    ensures says { Says (fault cause) result (W.contents writer.old) (W.contents writer.new) }
    ensures bound { result ≤ 3 }
{
    match cause {
        Cause::Read => say(writer, b"fault read\n", 3),
        Cause::Write => say(writer, b"fault write\n", 3),
        Cause::Memory => say(writer, b"fault memory\n", 3),
        Cause::Store => say(writer, b"fault store\n", 3),
    }
}

/// What keeps a command from its work over a database.
pub(crate) trait ToLine {
    // why the database is refused
    ghost refusal: { Self → UpgradeFault };

    /// Converts the fault.
    fn why(self) -> UpgradeFault
        ensures { result ≡ refusal self };
}

impl ToLine for Error {
    ghost refusal = { connect_refusal };

    fn why(self) -> UpgradeFault {
        match self {
            Error::SqliteFailure(ErrorCode::OutOfMemory) => UpgradeFault::Memory,
            _ => UpgradeFault::Store,
        }
    }
}

impl ToLine for OpenFault {
    ghost refusal = { as_upgrading };

    fn why(self) -> UpgradeFault {
        match self {
            OpenFault::NotPortal => UpgradeFault::NotPortal,
            OpenFault::OtherVersion => UpgradeFault::OtherVersion,
            OpenFault::Damaged => UpgradeFault::Damaged,
            OpenFault::Store => UpgradeFault::Store,
            OpenFault::Memory => UpgradeFault::Memory,
        }
    }
}

impl ToLine for CreateFault {
    ghost refusal = { create_refusal };

    fn why(self) -> UpgradeFault {
        match self {
            CreateFault::Exists => UpgradeFault::Exists,
            CreateFault::Store => UpgradeFault::Store,
            CreateFault::Memory => UpgradeFault::Memory,
        }
    }
}

impl ToLine for UpgradeFault {
    ghost refusal = { λ why. why };

    fn why(self) -> UpgradeFault {
        self
    }
}

/// Reports why a command refuses a database, and returns the exit status.
pub(crate) fn refuse<W: Write>(writer: &mut W, why: UpgradeFault) -> u8
    ensures says { Says (refusal why) result (W.contents writer.old) (W.contents writer.new) }
    ensures bound { result ≤ 3 }
{
    match why {
        UpgradeFault::NotPortal => say(writer, b"refused not_portal\n", 2),
        UpgradeFault::OtherVersion => say(writer, b"refused other_version\n", 2),
        UpgradeFault::Damaged => say(writer, b"refused damaged\n", 2),
        UpgradeFault::Exists => say(writer, b"refused exists\n", 2),
        UpgradeFault::Store => say_fault(writer, Cause::Store),
        UpgradeFault::Memory => say_fault(writer, Cause::Memory),
    }
}

/// Writes `line` on success, or reports the refusal, and returns the exit status.
pub(crate) fn say_done<W: Write>(writer: &mut W, done: Result<(), UpgradeFault>, line: &[u8]) -> u8
    ensures done { IfOk done (λ _. Says (success line.now) result (W.contents writer.old)
        (W.contents writer.new)) }
    ensures refused { IfErr done (λ why. Says (refusal why) result
        (W.contents writer.old) (W.contents writer.new)) }
    ensures bound { result ≤ 3 }
{
    match done {
        Ok(()) => say(writer, line, 0),
        Err(why) => refuse(writer, why),
    }
}
