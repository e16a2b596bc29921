//! `serve_stream` serves one stream within timeouts; `serve_on` serves a listener's connections.

ghost use Rattle.std.specs.Prelude.{◌≡◌, List, [], ◌∷◌, None};
ghost use Rattle.portal_serve.specs.Hall.{ServesHall, CountsOutcomes};
ghost use Rattle.portal_serve.specs.Streams.{ServesStream, ServesInTurn};
ghost use Rattle.portal_serve.specs.declared.server.Outcome.{Outcome};

use crate::server::{Connections, Hall, Outcome, serve_each};
use crate::timeouts::{
    ConnectionReader, ConnectionWriter, TimedRead, TimedWrite, Times, close_after,
};
use portal_core::Keeper;
use portal_desk::{Desk, ServeFault, Served};
use std::alloc::Global;
use std::net::TcpListener;
use std::time::Clock;

/// Serves one stream on a desk within timeouts; a missed timeout ends it with a fault. The client
/// may be silent for 30 seconds, and has 60 seconds to take a reply. A request has 60 seconds from
/// its first byte, or from the first reply since the last read: its first byte may have come before
/// that reply. The connection reads no request after 300 seconds.
///
/// If the bytes of the reader are known, the requests and what is written are those of
/// `Desk::serve`; then at most 1,064,960 further bytes are dropped, unless the connection or memory
/// failed. Whatever the bytes are, some requests with replies lead from the world before to the
/// world after.
///
/// # Errors
///
/// The stream failed or missed a timeout, memory ran out, or the store failed.
pub fn serve_stream<T: Clock + AllocGlobal, R: TimedRead, W: TimedWrite, K: Keeper>(
    rt: &T,
    reader: &mut R,
    writer: &mut W,
    desk: &mut Desk<K>,
) -> Result<Served, ServeFault>
    ensures { ServesStream K.state result desk.old desk.new (R.remaining reader.old)
        (R.remaining reader.new) (W.contents writer.old) (W.contents writer.new) }
{
    let times = Times::new(rt);
    serve_timed(rt.alloc(), &times, reader, writer, desk)
}

/// Serves one stream on a desk within timeouts that count from these times.
fn serve_timed<'a, T: Clock, R: TimedRead, W: TimedWrite, K: Keeper>(
    alloc: Global,
    times: &'a Times<'a, T>,
    reader: &'a mut R,
    writer: &'a mut W,
    desk: &mut Desk<K>,
) -> Result<Served, ServeFault>
    ensures { ServesStream K.state result desk.old desk.new (R.remaining reader.old)
        (R.remaining reader.new) (W.contents writer.old) (W.contents writer.new) }
{
    let mut source = ConnectionReader {
        times: &*times,
        stream: &mut *reader,
        closing: None,
        failures: 0,
    };
    let mut sink = ConnectionWriter {
        times: &*times,
        stream: &mut *writer,
        failures: 0,
    };
    let ended = desk.serve(alloc, &mut source, &mut sink);
    close_after(&ended, &mut source, &mut sink);
    ended
}

/// Serves one stream as `serve_stream` does, as the only connection of a series of which nothing is
/// known, and returns the outcome.
pub fn serve_one<T: Clock + AllocGlobal, R: TimedRead, W: TimedWrite, K: Keeper>(
    rt: &T,
    reader: &mut R,
    writer: &mut W,
    desk: &mut Desk<K>,
) -> Outcome
    ensures stream { ServesStream K.state result.ended desk.old desk.new (R.remaining reader.old)
        (R.remaining reader.new) (W.contents writer.old) (W.contents writer.new) }
    ensures failed { result.failed ≡ desk.new.failed }
    ensures turn { ServesInTurn K.state desk.old desk.new None None (result ∷ []) }
{
    let ended = serve_stream(rt, reader, writer, desk);
    let failed = desk.failed();
    Outcome { ended, failed }
}

/// The connections of a listener, of which nothing is known.
#[derive(Drop)]
struct Listening<'a, T> {
    rt: &'a T,
    listener: &'a TcpListener,
}

impl<'a, T: Clock + AllocGlobal> Connections for Listening<'a, T> {
    fn serve_next<K: Keeper>(&mut self, desk: &mut Desk<K>) -> Option<Outcome> {
        let (stream, _) = self.listener.accept().ok()?;
        let _ = stream.set_nodelay(true);
        Some(serve_one(self.rt, &mut &stream, &mut &stream, desk))
    }
}

/// Serves up to `connections` connections of a listener in turn, each within the timeouts of
/// `serve_stream`. Stops early if the desk or the listener fails. Whatever the bytes are, some
/// requests with replies lead from the world before to the world after. No contract records a
/// listener's connections; tests compare the counts.
pub fn serve_on<T: Clock + AllocGlobal, K: Keeper>(
    rt: &T,
    listener: &TcpListener,
    connections: u32,
    desk: &mut Desk<K>,
) -> Hall
    ensures told { (outcomes : List Outcome)
        × ServesInTurn K.state desk.old desk.new None None outcomes
        × CountsOutcomes result outcomes }
    ensures serves { ServesHall K.state result connections desk.old desk.new }
{
    let mut listening = Listening { rt, listener };
    serve_each(&mut listening, connections, desk)
}
