//! Looks at what stands where a database should be, before a command connects to it.

ghost use Rattle.std.specs.Prelude.{◌≡◌, ◌≢◌, ◌↔◌, IsTrue, Some, option_map};
ghost use Rattle.portal_run.specs.inner.Beginnings.{BeginsDatabase, IsBegunLog, IsOnlyBegun};

use crate::input::{InputFault, first_bytes};
use std::alloc::AllocError;
use std::fs;
use std::io::ErrorKind;

/// What stands at the path of a database.
#[derive(Clone, Copy, Debug, Drop, PartialEq, Eq)]
pub enum Place {
    /// No file.
    Missing,
    /// An empty file, or one that a stopped `init` has begun.
    Empty,
    /// A file that begins as a database does.
    Database,
    /// Anything else.
    Other,
}

/// Returns the first bytes of a file, at most 64 and at least the first line, or `None` if they
/// cannot be read.
fn front_of(rt: &HostRuntime, path: &str) -> Result<Option<Vec<u8>>, AllocError> {
    let mut file = match fs::open(rt, path) {
        Ok(file) => file,
        Err(error) => match error.kind() {
            ErrorKind::OutOfMemory => return Err(AllocError),
            _ => return Ok(None),
        },
    };
    match first_bytes(rt.alloc(), &mut file) {
        Ok(front) => Ok(Some(front)),
        Err(InputFault::Memory) => Err(AllocError),
        Err(InputFault::Read) => Ok(None),
    }
}

/// Returns whether a log has the header that is written before a new database: it counts as many
/// checkpoints as no other log does.
fn is_begun(log: &[u8]) -> bool
    ensures { IsTrue result ↔ IsBegunLog (Some log.now) }
{
    log.len() >= 32 && log[12..16] == [0xff; 4]
}

/// Returns what a regular file is, by its first bytes and those of the log beside it, if there are
/// any.
fn place_by(front: &[u8], log: Option<&[u8]>) -> Place
    ensures database { (result ≡ Place.Database) ↔ BeginsDatabase front.now }
    ensures empty { (result ≡ Place.Empty)
        ↔ IsOnlyBegun front.now (option_map (λ bytes. bytes.now) log.entry) }
    ensures there { result ≢ Place.Missing }
{
    if front.starts_with(b"SQLite format 3\0".as_slice()) {
        return Place::Database;
    }
    let is_only_begun = match log {
        Some(bytes) => front.is_empty() || is_begun(bytes),
        None => front.is_empty(),
    };
    if is_only_begun {
        Place::Empty
    } else {
        Place::Other
    }
}

/// Returns what a regular file is. Reads the log beside it only where the file alone does not tell.
fn place_in(rt: &HostRuntime, path: &str) -> Result<Place, AllocError> {
    let Some(front) = front_of(rt, path)? else {
        return Ok(Place::Other);
    };
    let place = place_by(&front, None);
    if place != Place::Other {
        return Ok(place);
    }
    let Ok(log) = format!(in rt.alloc(); "{path}-wal") else {
        return Err(AllocError);
    };
    match front_of(rt, log.as_str())? {
        Some(begun) => Ok(place_by(&front, Some(&begun))),
        None => Ok(Place::Other),
    }
}

/// Returns what stands at a path, or that memory ran out.
pub(crate) fn place_of(rt: &HostRuntime, path: &str) -> Result<Place, AllocError> {
    match fs::metadata(rt, path) {
        Ok(found) => {
            if found.is_file() {
                place_in(rt, path)
            } else {
                Ok(Place::Other)
            }
        }
        Err(error) => match error.kind() {
            ErrorKind::NotFound => Ok(Place::Missing),
            ErrorKind::OutOfMemory => Err(AllocError),
            _ => Ok(Place::Other),
        },
    }
}
