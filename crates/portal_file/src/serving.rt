//! Lets a service, such as a listener, serve requests over a database file.

ghost use Rattle.std.specs.Prelude.{◌≡◌, IfErr, IfOk, List, MatchResult, OnOk};
ghost use Rattle.sqlite_wal.specs.Files.{image_at};
ghost use Rattle.portal_wire.specs.Conversation.{Exchange};
ghost use Rattle.portal_file.specs.Jobs.{ServesRequests};
ghost use Rattle.portal_file.specs.Chain.{OverClosed};

use crate::job::{Job, OverFile, over_file};
use crate::tables::{close_tables, open_tables};
use portal_core::laws::run_good;
use portal_desk::Desk;
use portal_serve::Service;
use portal_store::OpenFault;
use sqlite::{Alter, Connection, FileFrom, Start};
use sqlite_disk::Disk;
use std::alloc::Global;

/// Lets the service serve requests.
#[derive(Drop)]
struct ServeRequests<'l, L> {
    service: &'l mut L,
}

impl<'l, L: Service> Job for ServeRequests<'l, L> {
    type Done = ();

    type Fault = OpenFault;

    ghost does = { λ old new r. ServesRequests r (L.told old.service.now new.service.now) };

    ghost becomes = { λ old new r. (new.service.ghost_name ≡ old.service.ghost_name)
        × MatchResult r (λ _. (es : List Exchange) × L.told old.service.now new.service.now es)
        (λ _. new.service.now ≡ old.service.now) };

    fn run<S: Alter>(
        &mut self,
        alloc: Global,
        conn: Connection<S>,
    ) -> (Result<(), OpenFault>, Connection<S>) {
        run_good();
        match open_tables(alloc, conn) {
            Ok(store) => {
                let mut desk = Desk::new(store);
                self.service.serve(&mut desk);
                (Ok(()), close_tables(desk.into_keeper()))
            }
            Err((fault, conn)) => (Err(fault), conn),
        }
    }
}

/// Lets a service serve requests over a database file, and closes the file. `S` stands for what the
/// files held before. Gives the files back, as `Ok` unless copying the log failed; the promises
/// hold then, too, if the store still stood.
///
/// If the disk was clean, this was a process for each thing that a crash may leave of them,
/// whatever callers sent. The tables were opened or refused as `pipe_file` says. If they were
/// refused, or no file was opened, there is no request, and the service is as before.
pub fn serve_file<S: Start, L: Service>(
    rt: &HostRuntime,
    path: &str,
    start: S,
    service: &mut L,
) -> OverFile<S, (), OpenFault>
    ensures serves { IfOk result (λ r. OverClosed ⟦<FileFrom<S> as Disk>⟧ (image_at S.Start)
        (ServesRequests r.0 (L.told service.old service.new)) r.1) }
    ensures refused { IfOk result (λ r. IfErr r.0 (λ _. service.new ≡ service.old)) }
    ensures told { IfOk result (λ r. OnOk r.0 ((es : List Exchange)
        × L.told service.old service.new es)) }
    ensures closed { IfErr result (λ _. service.new ≡ service.old) }
{
    let mut job = ServeRequests {
        service: &mut *service,
    };
    over_file(rt, path, start, &mut job)
}
