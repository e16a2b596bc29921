//! Looks at what stands at a path before a command works there, and converts what the work returns.

ghost use Rattle.std.specs.Prelude.{◌≡◌, Ok, Err, IfOk, IfErr};
ghost use Rattle.portal_run.specs.Databases.{unless_database, unless_room};
ghost use Rattle.portal_run.specs.inner.Input.{Expects, connect_refusal};

use crate::databases::Databases;
use crate::output::{ToLine, UpgradeFault};
use crate::place::Place;
use sqlite::Error;

/// Refuses a missing or an empty file as `NotPortal`, and one that is no database as a fault of the
/// store; neither is touched.
pub(crate) fn expect_database<F: Databases>(
    rt: &HostRuntime,
    files: &F,
    path: &str,
) -> Result<(), UpgradeFault>
    ensures { Expects (F.stands files.now path.now) unless_database result }
{
    match files.place(rt, path) {
        Ok(Place::Database) => Ok(()),
        Ok(Place::Missing | Place::Empty) => Err(UpgradeFault::NotPortal),
        Ok(Place::Other) => Err(UpgradeFault::Store),
        Err(_) => Err(UpgradeFault::Memory),
    }
}

/// Refuses a file that is no database as a fault of the store, and does not touch it.
pub(crate) fn expect_room<F: Databases>(
    rt: &HostRuntime,
    files: &F,
    path: &str,
) -> Result<(), UpgradeFault>
    ensures { Expects (F.stands files.now path.now) unless_room result }
{
    match files.place(rt, path) {
        Ok(Place::Other) => Err(UpgradeFault::Store),
        Ok(_) => Ok(()),
        Err(_) => Err(UpgradeFault::Memory),
    }
}

/// Returns what a command did over its database, or why the database was refused. The files are let
/// go: committed changes last even if closing failed.
pub(crate) fn outcome<T, E: ToLine, F: Drop>(
    done: Result<(Result<T, E>, F), Error>,
) -> Result<T, UpgradeFault>
    ensures ok { IfOk done (λ r. IfOk r.0 (λ x. result ≡ Ok x)) }
    ensures refused { IfOk done (λ r. IfErr r.0 (λ fault. result ≡ Err (E.refusal fault))) }
    ensures closed { IfErr done (λ error. result ≡ Err (connect_refusal error)) }
{
    match done {
        Ok((done, _files)) => match done {
            Ok(x) => Ok(x),
            Err(fault) => Err(fault.why()),
        },
        Err(error) => Err(error.why()),
    }
}
