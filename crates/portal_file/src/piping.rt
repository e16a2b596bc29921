//! Serves a reader and a writer over a database file.

ghost use Rattle.std.specs.Prelude.{◌≡◌, IfErr, IfOk};
ghost use Rattle.sqlite_wal.specs.Files.{image_at};
ghost use Rattle.portal_desk.specs.Kept.{TakesAtMost, taken_limit};
ghost use Rattle.portal_file.specs.Jobs.{PipesStream};
ghost use Rattle.portal_file.specs.Chain.{OverClosed};

use crate::job::{Job, OverFile, over_file};
use crate::tables::{close_tables, open_tables};
use portal_core::laws::run_good;
use portal_desk::{Desk, ServeFault, Served, pipe};
use portal_store::OpenFault;
use sqlite::{Alter, Connection, FileFrom, Start};
use sqlite_disk::Disk;
use std::alloc::Global;
use std::io::{Read, Write};

/// Serves the reader and the writer as one connection.
#[derive(Drop)]
struct PipeStream<'r, 'w, R, W> {
    reader: &'r mut R,
    writer: &'w mut W,
}

impl<'r, 'w, R: Read, W: Write> Job for PipeStream<'r, 'w, R, W> {
    type Done = Result<Served, ServeFault>;

    type Fault = OpenFault;

    ghost does = { λ old new r. PipesStream r (record {
      remaining = R.remaining old.reader.now;
      left = R.remaining new.reader.now;
      before = W.contents old.writer.now;
      after = W.contents new.writer.now;
    }) };

    ghost becomes = { λ old new r. (new.reader.ghost_name ≡ old.reader.ghost_name)
        × (new.writer.ghost_name ≡ old.writer.ghost_name)
        × TakesAtMost taken_limit (R.remaining old.reader.now) (R.remaining new.reader.now)
        × IfErr r (λ _. new.writer.now ≡ old.writer.now) };

    #[tactic(auto, using(crate::proofs::Taken::same_left))]
    fn run<S: Alter>(
        &mut self,
        alloc: Global,
        conn: Connection<S>,
    ) -> (Result<Result<Served, ServeFault>, OpenFault>, Connection<S>) {
        run_good();
        match open_tables(alloc, conn) {
            Ok(store) => {
                let mut desk = Desk::new(store);
                let ended = pipe(alloc, &mut desk, &mut *self.reader, &mut *self.writer);
                (Ok(ended), close_tables(desk.into_keeper()))
            }
            Err((fault, conn)) => (Err(fault), conn),
        }
    }
}

/// Serves a reader and a writer as one connection, over a database file, and closes the file. `S`
/// stands for what the files held before. Gives the files back, as `Ok` unless copying the log
/// failed; the promises hold then, too, if the store still stood.
///
/// If the disk was clean, this was a process for each thing that a crash may leave of them. If the
/// disk failed in a request, then this says what a stop in that request leaves. If the bytes of
/// reader and writer are known, the process has them, and the result counts its requests and says
/// how it ended. Own tables that were opened held a good world of version 2, and the work begins
/// with it; of other ones `AreOpened` says that they answer the eleven queries, and show version 2.
///
/// # Errors
///
/// If the tables are refused, there is no request, none of these bytes is read or written, and any
/// tables keep their rows. Other than `Store` and `Memory`, such a fault means that the files held
/// no good world of version 2, and `AreRefused` says why.
#[tactic(auto, using(crate::proofs::Taken::same_left))]
pub fn pipe_file<S: Start, R: Read, W: Write>(
    rt: &HostRuntime,
    path: &str,
    start: S,
    reader: &mut R,
    writer: &mut W,
) -> OverFile<S, Result<Served, ServeFault>, OpenFault>
    ensures taken { TakesAtMost taken_limit (R.remaining reader.old) (R.remaining reader.new) }
    ensures pipes { IfOk result (λ r. OverClosed ⟦<FileFrom<S> as Disk>⟧
        (image_at S.Start) (PipesStream r.0 (record {
          remaining = R.remaining reader.old;
          left = R.remaining reader.new;
          before = W.contents writer.old;
          after = W.contents writer.new;
        })) r.1) }
    ensures refused { IfOk result (λ r. IfErr r.0 (λ _. writer.new ≡ writer.old)) }
    ensures closed { IfErr result (λ _. writer.new ≡ writer.old) }
{
    let mut job = PipeStream {
        reader: &mut *reader,
        writer: &mut *writer,
    };
    over_file(rt, path, start, &mut job)
}
