//! Runs `serve`, `pipe` and `report` over a database.

ghost use Rattle.std.specs.Prelude.{◌≡◌, ◌≤◌};
ghost use Rattle.portal_desk.specs.Kept.{TakesAtMost, Worked, taken_limit};
ghost use Rattle.portal_run.specs.Databases.{Listens, Performs, known};
ghost use Rattle.portal_run.specs.Databases.{piping, report_said, reporting, serving, stream_said};
ghost use Rattle.portal_run.specs.Lines.{Says, listening_line};
ghost use Rattle.portal_run.specs.inner.Input.{SaysEnd, Writes};

use crate::databases::Databases;
use crate::expecting::{expect_database, outcome};
use crate::output::{refuse, say, say_fault, write_flushed};
use portal_core::{KeepFault, Keeper};
use portal_desk::{Cause, Desk, ServeFault, Served};
use portal_serve::{Ended, Hall, Service, serve_on};
use std::alloc::Global;
use std::io::{Read, Write};
use std::net::{Ipv4Addr, SocketAddr, SocketAddrV4, TcpListener};

/// Writes a line and flushes the output.
fn write_line<W: Write>(writer: &mut W, line: &[u8]) -> Result<(), Cause>
    ensures { Writes result (W.contents writer.old) (W.contents writer.new) line.now }
{
    if write_flushed(writer, line) {
        Ok(())
    } else {
        Err(Cause::Write)
    }
}

/// Writes the port that the portal listens on. An error says why not all of that was written.
#[tactic(auto, using(crate::proofs::Written::none_front))]
fn tell_port<W: Write>(alloc: Global, port: u16, writer: &mut W) -> Result<(), Cause>
    ensures { Writes result (W.contents writer.old) (W.contents writer.new)
        (listening_line port) }
{
    match format!(in alloc; "listening 127.0.0.1:{port}\n") {
        Ok(text) => write_line(writer, text.as_bytes()),
        Err(_) => Err(Cause::Memory),
    }
}

/// Listens on a port of 127.0.0.1, tells it, and serves the connections. An error says why none was
/// served.
fn listen<K: Keeper, W: Write>(
    rt: &HostRuntime,
    desk: &mut Desk<K>,
    port: u16,
    connections: u32,
    writer: &mut W,
) -> Result<Hall, Cause>
    ensures worked { Worked K.state desk.old desk.new }
    ensures listens { Listens port connections (W.contents writer.old) (W.contents writer.new)
        result }
{
    let address = SocketAddr::V4(SocketAddrV4::new(Ipv4Addr::new(127, 0, 0, 1), port));
    let Ok(listener) = TcpListener::bind(rt, address) else {
        return Err(Cause::Read);
    };
    match tell_port(rt.alloc(), port, writer) {
        Ok(()) => Ok(serve_on(rt, &listener, connections, desk)),
        Err(cause) => Err(cause),
    }
}

/// The service of `serve`: a listener on a port, and where it tells that.
#[derive(Drop)]
struct PortListener<'r, 'w, W> {
    rt: &'r HostRuntime,
    port: u16,
    connections: u32,
    writer: &'w mut W,
    /// What was served, or why nothing was.
    ended: Result<Hall, Cause>,
}

impl<'r, 'w, W: Write> Service for PortListener<'r, 'w, W> {
    ghost told = { λ old new es. (new.writer.ghost_name ≡ old.writer.ghost_name)
        × Listens old.port old.connections (W.contents old.writer.now)
        (W.contents new.writer.now) new.ended };

    fn serve<K: Keeper>(&mut self, desk: &mut Desk<K>) {
        let (port, connections) = (self.port, self.connections);
        self.ended = listen(self.rt, desk, port, connections, &mut *self.writer);
    }
}

/// Reports how many connections were served, or why serving stopped early.
fn say_hall<W: Write>(alloc: Global, hall: Hall, writer: &mut W) -> u8
    ensures bound { result ≤ 3 }
    ensures says { SaysEnd (Ok hall) result (W.contents writer.old) (W.contents writer.new) }
{
    match hall.ended {
        Ended::Full => {}
        Ended::StoreFault => return say_fault(writer, Cause::Store),
        Ended::ListenFault => return say_fault(writer, Cause::Read),
    }
    match format!(in alloc; "served {} faults {}\n", hall.accepted, hall.faults) {
        Ok(text) => say(writer, text.as_bytes(), 0),
        Err(_) => say_fault(writer, Cause::Memory),
    }
}

/// Reports how listening ended.
fn say_end<W: Write>(alloc: Global, ended: Result<Hall, Cause>, writer: &mut W) -> u8
    ensures bound { result ≤ 3 }
    ensures says { SaysEnd ended result (W.contents writer.old) (W.contents writer.new) }
{
    match ended {
        Ok(hall) => say_hall(alloc, hall, writer),
        Err(cause) => say_fault(writer, cause),
    }
}

/// Serves up to `connections` connections on a port, over the database at a path. Returns the exit
/// status.
pub(crate) fn serve_over<F: Databases, W: Write>(
    rt: &HostRuntime,
    files: F,
    path: &str,
    port: u16,
    connections: u32,
    writer: &mut W,
) -> u8
    ensures bound { result ≤ 3 }
    ensures performs { Performs (known F.stands F.over files) path.now
        (serving port connections (W.contents writer.old)) result
        (W.contents writer.old) (W.contents writer.new) }
{
    if let Err(why) = expect_database(rt, &files, path) {
        return refuse(writer, why);
    }
    let mut listener = PortListener {
        rt,
        port,
        connections,
        writer: &mut *writer,
        ended: Err(Cause::Memory),
    };
    let done = outcome(files.serve(rt, path, &mut listener));
    let ended = listener.ended;
    match done {
        Ok(()) => say_end(rt.alloc(), ended, writer),
        Err(why) => refuse(writer, why),
    }
}

/// Flushes the output, or reports why the connection ended early. Returns the exit status.
fn say_ended<W: Write>(writer: &mut W, ended: Result<Served, ServeFault>) -> u8
    ensures says { Says (stream_said ended) result (W.contents writer.old)
        (W.contents writer.new) }
    ensures bound { result ≤ 3 }
{
    match ended {
        Ok(_) => say(writer, b"", 0),
        Err(fault) => say_fault(writer, fault.cause),
    }
}

/// Serves the input and the output as one connection, over the database at a path. Returns the exit
/// status.
#[tactic(auto, using(crate::proofs::Taken::same_left))]
pub(crate) fn pipe_over<F: Databases, R: Read, W: Write>(
    rt: &HostRuntime,
    files: F,
    path: &str,
    reader: &mut R,
    writer: &mut W,
) -> u8
    ensures bound { result ≤ 3 }
    ensures takes { TakesAtMost taken_limit (R.remaining reader.old) (R.remaining reader.new) }
    ensures performs { Performs (known F.stands F.over files) path.now (piping W.contents (record {
      remaining = R.remaining reader.old;
      left = R.remaining reader.new;
      before = W.contents writer.old;
      after = W.contents writer.new;
    })) result (W.contents writer.old) (W.contents writer.new) }
{
    if let Err(why) = expect_database(rt, &files, path) {
        return refuse(writer, why);
    }
    match outcome(files.pipe(rt, path, reader, writer)) {
        Ok(ended) => say_ended(writer, ended),
        Err(why) => refuse(writer, why),
    }
}

/// Prints the office's report, or reports why there is none. Returns the exit status.
fn say_report<W: Write>(writer: &mut W, told: Result<Vec<u8>, KeepFault>) -> u8
    ensures says { Says (report_said told) result (W.contents writer.old)
        (W.contents writer.new) }
    ensures bound { result ≤ 3 }
{
    match told {
        Ok(text) => say(writer, text.as_slice(), 0),
        Err(KeepFault::Store) => say_fault(writer, Cause::Store),
        Err(KeepFault::Memory) => say_fault(writer, Cause::Memory),
    }
}

/// Prints the office's report on the database at a path: the status of the round, then the result
/// if there is one. Returns the exit status.
pub(crate) fn report_over<F: Databases, W: Write>(
    rt: &HostRuntime,
    files: F,
    path: &str,
    writer: &mut W,
) -> u8
    ensures bound { result ≤ 3 }
    ensures performs { Performs (known F.stands F.over files) path.now
        (reporting (W.contents writer.old)) result
        (W.contents writer.old) (W.contents writer.new) }
{
    if let Err(why) = expect_database(rt, &files, path) {
        return refuse(writer, why);
    }
    match outcome(files.report(rt, path)) {
        Ok(told) => say_report(writer, told),
        Err(why) => refuse(writer, why),
    }
}
