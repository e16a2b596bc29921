//! Creates a database for `init`; upgrades one for `upgrade`.

ghost use Rattle.std.specs.Prelude.{◌≡◌, ◌==◌, ◌<◌, ◌≤◌, IfSome, MatchOption, length};
ghost use Rattle.std.specs.List.{before_first};
ghost use Rattle.portal_run.specs.Databases.{Inits, Performs, first_line, known, making, upgrading};
ghost use Rattle.portal_run.specs.Databases.{without_return};
ghost use Rattle.portal_run.specs.Run.{ConsumesAtMost};
ghost use Rattle.portal_run.specs.inner.Input.{IsCodeIn};

use crate::databases::Databases;
use crate::expecting::{expect_database, expect_room, outcome};
use crate::input::{InputFault, feed_at, first_bytes};
use crate::output::{refuse, say, say_done, say_fault};
use portal_core::{Code, CodeFault};
use portal_desk::Cause;
use std::alloc::Global;
use std::io::{Read, Write};

/// Why no code was read.
#[derive(Clone, Copy, Debug, Drop, PartialEq, Eq)]
enum NoCode {
    /// The first line is not a code.
    Bad,
    Read,
    Memory,
}

/// The most bytes of the input that are read.
const CODE_LINE_LIMIT: usize = 64;

/// Returns the bytes before the first line feed, or all.
fn before_feed(bytes: &[u8]) -> &[u8]
    ensures { result.now ≡ before_first (λ b. b == 10) bytes.now }
{
    match feed_at(bytes) {
        Some(end) => &bytes[..end],
        None => bytes,
    }
}

/// Returns a line without the carriage return at its end.
fn stripped(line: &[u8]) -> &[u8]
    ensures { result.now ≡ without_return line.now }
{
    match line.split_last() {
        Some((last, rest)) => { if *last == b'\r' { rest } else { line } }
        None => line,
    }
}

/// Returns the first line without its line end, or `None` if it has `CODE_LINE_LIMIT` bytes or more.
fn line_of(bytes: &[u8]) -> Option<&[u8]>
    ensures { MatchOption result (64 ≤ length (before_first (λ b. b == 10) bytes.now))
        (λ line. (line.now ≡ first_line bytes.now)
        × (length (before_first (λ b. b == 10) bytes.now) < 64)) }
{
    let line = before_feed(bytes);
    if line.len() >= CODE_LINE_LIMIT {
        return None;
    }
    Some(stripped(line))
}

/// Reads the code in the first line of an input, without its line end. A line of `CODE_LINE_LIMIT` bytes or
/// more is none.
fn code_of<R: Read>(alloc: Global, reader: &mut R) -> Result<Code, NoCode>
    ensures takes { ConsumesAtMost 64 (R.remaining reader.old) (R.remaining reader.new) }
    ensures reads { IfSome (R.remaining reader.old) (λ input. IsCodeIn input result) }
{
    let bytes = match first_bytes(alloc, reader) {
        Ok(bytes) => bytes,
        Err(InputFault::Read) => return Err(NoCode::Read),
        Err(InputFault::Memory) => return Err(NoCode::Memory),
    };
    let Some(line) = line_of(&bytes) else {
        return Err(NoCode::Bad);
    };
    match Code::parse(alloc, line) {
        Ok(code) => Ok(code),
        Err(CodeFault::BadCode) => Err(NoCode::Bad),
        Err(CodeFault::Memory) => Err(NoCode::Memory),
    }
}

/// Makes the tables at a path, with this office code, and reports the outcome.
fn make_over<F: Databases, W: Write>(
    rt: &HostRuntime,
    files: F,
    path: &str,
    office: Code,
    writer: &mut W,
) -> u8
    ensures bound { result ≤ 3 }
    ensures performs { Performs (known F.stands F.over files) path.now
        (making {A = Unit {0}} office (W.contents writer.old)) result
        (W.contents writer.old) (W.contents writer.new) }
{
    match expect_room(rt, &files, path) {
        Ok(()) => {
            let done = outcome(files.make(rt, path, office));
            say_done(writer, done, b"made\n")
        }
        Err(why) => refuse(writer, why),
    }
}

/// Creates the database in a file; the office's code is the first line of the input. A bad code is
/// refused before anything else. A file that is no database is a fault of the store, and is not
/// touched. Returns the exit status.
pub(crate) fn init<F: Databases, R: Read, W: Write>(
    rt: &HostRuntime,
    files: F,
    path: &str,
    reader: &mut R,
    writer: &mut W,
) -> u8
    ensures bound { result ≤ 3 }
    ensures takes { ConsumesAtMost 64 (R.remaining reader.old) (R.remaining reader.new) }
    ensures performs { Inits (known F.stands F.over files) path.now (R.remaining reader.old) result
        (W.contents writer.old) (W.contents writer.new) }
{
    match code_of(rt.alloc(), reader) {
        Ok(office) => make_over(rt, files, path, office, writer),
        Err(NoCode::Bad) => say(writer, b"refused bad_code\n", 2),
        Err(NoCode::Read) => say_fault(writer, Cause::Read),
        Err(NoCode::Memory) => say_fault(writer, Cause::Memory),
    }
}

/// Upgrades the database at a path from version 1 to version 2, and reports the outcome. Returns
/// the exit status.
pub(crate) fn upgrade_over<F: Databases, W: Write>(
    rt: &HostRuntime,
    files: F,
    path: &str,
    writer: &mut W,
) -> u8
    ensures bound { result ≤ 3 }
    ensures performs { Performs (known F.stands F.over files) path.now
        (upgrading {A = Unit {0}} (W.contents writer.old)) result
        (W.contents writer.old) (W.contents writer.new) }
{
    match expect_database(rt, &files, path) {
        Ok(()) => {
            let done = outcome(files.upgrade(rt, path));
            say_done(writer, done, b"upgraded\n")
        }
        Err(why) => refuse(writer, why),
    }
}
