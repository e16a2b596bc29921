//! Returns the office's report on the world that a database file holds.

ghost use Rattle.std.specs.Prelude.{◌≡◌, IfOk};
ghost use Rattle.sqlite_wal.specs.Files.{image_at};
ghost use Rattle.portal_rules.specs.Good.{Good};
ghost use Rattle.portal_rules.specs.Keeping.{AfterCall};
ghost use Rattle.portal_rules.specs.View.{office_sees};
ghost use Rattle.portal_serve.specs.Hall.{office_report};
ghost use Rattle.portal_store.specs.Kept.{IsCleanStore, kept_state, kept_world};
ghost use Rattle.portal_file.specs.Jobs.{ReportsWorld};
ghost use Rattle.portal_file.specs.Chain.{OverClosed};

use crate::job::{Job, OverFile, over_file};
use crate::tables::{close_tables, open_tables};
use portal_core::KeepFault;
use portal_core::laws::run_good;
use portal_serve::report;
use portal_store::{OpenFault, Store};
use sqlite::{Alter, Connection, FileFrom, Start};
use sqlite_disk::Disk;
use std::alloc::Global;

/// Gets the office's code from the store, and returns the office's report.
fn report_of<S: Alter>(alloc: Global, store: &mut Store<S>) -> Result<Vec<u8>, KeepFault>
    ensures uses { AfterCall result (kept_state S.Store store.old) (kept_state S.Store store.new)
        (λ _. ⊥) }
    ensures same { IsCleanStore S.Store store.new
        → kept_world S.Store store.new ≡ kept_world S.Store store.old }
    ensures text { IfOk result (λ text. IsCleanStore S.Store store.new
        → Good (kept_world S.Store store.old)
        → text.items ≡ office_report (office_sees (kept_world S.Store store.old))) }
{
    match store.office_code(alloc) {
        Ok(office) => report(alloc, store, &office),
        Err(fault) => Err(fault),
    }
}

/// Returns the office's report.
#[derive(Drop)]
struct ReportWorld;

impl Job for ReportWorld {
    type Done = Result<Vec<u8>, KeepFault>;

    type Fault = OpenFault;

    ghost does = { λ old new r. ReportsWorld r };

    fn run<S: Alter>(
        &mut self,
        alloc: Global,
        conn: Connection<S>,
    ) -> (Result<Result<Vec<u8>, KeepFault>, OpenFault>, Connection<S>) {
        run_good();
        match open_tables(alloc, conn) {
            Ok(mut store) => {
                let told = report_of(alloc, &mut store);
                (Ok(told), close_tables(store))
            }
            Err((fault, conn)) => (Err(fault), conn),
        }
    }
}

/// Returns the office's report on the world that a database file holds, and closes the file. `S`
/// stands for what the files held before. Gives the files back, as `Ok` unless copying the log
/// failed; the promises hold then, too, if the store still stood.
///
/// If the disk was clean, the report is of that world, and each thing that a crash may leave of the
/// files holds the same world, also without a report. The tables were opened or refused as
/// `pipe_file` says.
pub fn report_file<S: Start>(
    rt: &HostRuntime,
    path: &str,
    start: S,
) -> OverFile<S, Result<Vec<u8>, KeepFault>, OpenFault>
    ensures { IfOk result (λ r. OverClosed ⟦<FileFrom<S> as Disk>⟧ (image_at S.Start)
        (ReportsWorld r.0) r.1) }
{
    let mut job = ReportWorld;
    over_file(rt, path, start, &mut job)
}
