//! The databases of a machine: any ones, and those in named files.

ghost use Rattle.std.specs.Prelude.{◌≡◌, ℕ, IfErr, IfOk, List, OnOk};
ghost use Rattle.sqlite_wal.specs.Files.{image_at};
ghost use Rattle.portal_wire.specs.Conversation.{Exchange};
ghost use Rattle.portal_desk.specs.Kept.{TakesAtMost, taken_limit};
ghost use Rattle.portal_file.specs.Chain.{OverClosed};
ghost use Rattle.portal_file.specs.Jobs.{MakesTables, PipesStream, ReportsWorld, ServesRequests};
ghost use Rattle.portal_file.specs.Jobs.{UpgradesTables};
ghost use Rattle.portal_file.specs.Tables.{FileEffect};
ghost use Rattle.portal_run.specs.declared.place.Place.{Place};

use crate::place::{Place, place_of};
use portal_core::{Code, KeepFault};
use portal_desk::{ServeFault, Served};
use portal_file::{NotCopied, make_file, pipe_file, report_file, serve_file, upgrade_file};
use portal_serve::Service;
use portal_store::{CreateFault, OpenFault, UpgradeFault};
use sqlite::{Error, FileFrom, Files, Start};
use sqlite_disk::Disk;
use std::alloc::AllocError;
use std::io::{Read, Write};

/// The databases of a machine, each at a path, of which a command works over one.
pub trait Databases: Drop {
    /// What is left of a database that was closed after the work.
    type Closed: Drop;

    /// What may stand at a path.
    ghost stands: { Self → List ℕ → Place → Type 0 };

    /// What was done over the database at a path.
    ghost over: { Self → List ℕ → Self.Closed → (FileEffect → Type 0) → Type 0 };

    /// Returns what stands at a path, or that memory ran out.
    fn place(&self, rt: &HostRuntime, path: &str) -> Result<Place, AllocError>
        ensures { IfOk result (stands self.now path.now) };

    /// Makes the portal's tables, with this office code.
    fn make(
        self,
        rt: &HostRuntime,
        path: &str,
        office: Code,
    ) -> Result<(Result<(), CreateFault>, Self::Closed), Error>
        ensures { IfOk result (λ r. over self path.now r.1 (MakesTables office r.0)) };

    /// Upgrades the tables from version 1 to version 2.
    fn upgrade(
        self,
        rt: &HostRuntime,
        path: &str,
    ) -> Result<(Result<(), UpgradeFault>, Self::Closed), Error>
        ensures { IfOk result (λ r. over self path.now r.1 (UpgradesTables r.0)) };

    /// Returns the office's report.
    fn report(
        self,
        rt: &HostRuntime,
        path: &str,
    ) -> Result<(Result<Result<Vec<u8>, KeepFault>, OpenFault>, Self::Closed), Error>
        ensures { IfOk result (λ r. over self path.now r.1 (ReportsWorld r.0)) };

    /// Serves a reader and a writer as one connection.
    fn pipe<R: Read, W: Write>(
        self,
        rt: &HostRuntime,
        path: &str,
        reader: &mut R,
        writer: &mut W,
    ) -> Result<(Result<Result<Served, ServeFault>, OpenFault>, Self::Closed), Error>
        ensures taken { TakesAtMost taken_limit (R.remaining reader.old) (R.remaining reader.new) }
        ensures pipes { IfOk result (λ r. over self path.now r.1 (PipesStream r.0 (record {
          remaining = R.remaining reader.old;
          left = R.remaining reader.new;
          before = W.contents writer.old;
          after = W.contents writer.new;
        }))) }
        ensures refused { IfOk result (λ r. IfErr r.0 (λ _. writer.new ≡ writer.old)) }
        ensures closed { IfErr result (λ _. writer.new ≡ writer.old) };

    /// Lets a service serve requests.
    fn serve<L: Service>(
        self,
        rt: &HostRuntime,
        path: &str,
        service: &mut L,
    ) -> Result<(Result<(), OpenFault>, Self::Closed), Error>
        ensures serves { IfOk result (λ r. over self path.now r.1
            (ServesRequests r.0 (λ _. Unit {0}))) }
        ensures refused { IfOk result (λ r. IfErr r.0 (λ _. service.new ≡ service.old)) }
        ensures told { IfOk result (λ r. OnOk r.0 ((es : List Exchange)
            × L.told service.old service.new es)) }
        ensures closed { IfErr result (λ _. service.new ≡ service.old) };
}

/// The databases in named files. `S` stands for what the file held before the work; no clause says
/// which file is at a path, or what stands there.
#[derive(Drop)]
pub struct NamedFiles<S> {
    pub start: S,
}

impl<S: Start> Databases for NamedFiles<S> {
    type Closed = Result<Files<FileFrom<S>>, NotCopied<FileFrom<S>>>;

    ghost stands = { λ files path place. Unit {0} };

    ghost over = { λ files path closed Does.
        OverClosed ⟦<FileFrom<S> as Disk>⟧ (image_at S.Start) Does closed };

    fn place(&self, rt: &HostRuntime, path: &str) -> Result<Place, AllocError> {
        place_of(rt, path)
    }

    fn make(
        self,
        rt: &HostRuntime,
        path: &str,
        office: Code,
    ) -> Result<(Result<(), CreateFault>, Self::Closed), Error> {
        make_file(rt, path, self.start, office)
    }

    fn upgrade(
        self,
        rt: &HostRuntime,
        path: &str,
    ) -> Result<(Result<(), UpgradeFault>, Self::Closed), Error> {
        upgrade_file(rt, path, self.start)
    }

    fn report(
        self,
        rt: &HostRuntime,
        path: &str,
    ) -> Result<(Result<Result<Vec<u8>, KeepFault>, OpenFault>, Self::Closed), Error> {
        report_file(rt, path, self.start)
    }

    fn pipe<R: Read, W: Write>(
        self,
        rt: &HostRuntime,
        path: &str,
        reader: &mut R,
        writer: &mut W,
    ) -> Result<(Result<Result<Served, ServeFault>, OpenFault>, Self::Closed), Error> {
        pipe_file(rt, path, self.start, reader, writer)
    }

    fn serve<L: Service>(
        self,
        rt: &HostRuntime,
        path: &str,
        service: &mut L,
    ) -> Result<(Result<(), OpenFault>, Self::Closed), Error> {
        serve_file(rt, path, self.start, service)
    }
}
