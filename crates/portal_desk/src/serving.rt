//! Serves streams of requests on a desk, from a source to a sink, or a reader to a writer.

ghost use Rattle.std.specs.Prelude.{◌≡◌, ◌≢◌, ◌-◌, ◌<◌, true, false, map, IfSome, OnOk, IfErr};
ghost use Rattle.std.specs.Io.KnownBytes.{Appends};
ghost use Rattle.portal_frame.specs.Stream.{request_content, is_head};
ghost use Rattle.portal_wire.specs.Conversation.{connection_limit, request_of, closes_at, last};
ghost use Rattle.portal_wire.specs.Conversation.{reply_text};
ghost use Rattle.portal_wire.specs.inner.Calls.{last_for};
ghost use Rattle.portal_desk.specs.Kept.{Blames, FailsByCount};
ghost use Rattle.portal_desk.specs.Session.{ServesOne};
ghost use Rattle.portal_desk.specs.Served.{ServesEach};
ghost use Rattle.portal_desk.specs.inner.Turns.{Broke, CountsFor, Replied};
ghost use Rattle.portal_desk.specs.declared.served.Cause.TheVariants.{Read as ReadFailed};
ghost use Rattle.portal_desk.specs.declared.served.Cause.TheVariants.{Write as WriteFailed};

use crate::desk::Desk;
use crate::devices::{Borrowed, Sink, Source};
use crate::reading::{cut_front, next_frame};
use crate::sending::{send_refusal, send_reply};
use crate::served::{Cause, ServeFault, Served};
use portal_core::Keeper;
use portal_frame::{Frame, Request};
use portal_wire::{Ending, MOST_REQUESTS};
use std::alloc::Global;
use std::io::{Read, Write};

impl<K: Keeper> Desk<K> {
    /// Acts on one request, and then writes the whole reply.
    fn answer<W: Sink>(
        &mut self,
        alloc: Global,
        request: &Request,
        closes: bool,
        sink: &mut W,
    ) -> Result<(), Cause>
        ensures ok { OnOk result (Replied (K.state self.old.keeper) (K.state self.new.keeper)
            (request_of closes (request_content request.now)) (λ reply. (self.new.failed ≡ false)
            × Appends (W.contents sink.old) (W.contents sink.new)
            (reply_text reply (is_head request.now.method.items) closes))) }
        ensures err { IfErr result (λ cause.
            Replied (K.state self.old.keeper) (K.state self.new.keeper)
            (request_of closes (request_content request.now))
            (λ reply. Broke cause self.new.failed reply (is_head request.now.method.items) closes
            (W.contents sink.old) (W.contents sink.new))) }
        ensures stays { self.old.failed ≡ true → self.new ≡ self.old }
        ensures failures { CountsFor WriteFailed result (W.failed sink.old) (W.failed sink.new) }
        ensures counts { FailsByCount self.old.failed self.new.failed
            (K.state self.old.keeper).faults (K.state self.new.keeper).faults }
        ensures same_device { W.name sink.new ≡ W.name sink.old }
    {
        let reply = self.respond(alloc, request);
        let lost = self.failed();
        let shut = closes || lost;
        match send_reply(alloc, reply, asks_head(request), shut, sink) {
            Ok(()) => {}
            Err(cause) => return Err(cause),
        }
        if lost {
            return Err(Cause::Store);
        }
        Ok(())
    }

    /// Serves the requests of a stream in order, at most 256. It acts on a request and writes the
    /// whole reply before it reads on. The world of a clean keeper is good. A desk that had failed
    /// stays as it is.
    ///
    /// If the bytes of the source are known, it takes at most 272,629,760 of them, and the requests
    /// are those of the stream: they are a run from the world before to the world after, over a
    /// keeper that is clean afterwards. It writes their replies, then any refusal that ends the
    /// stream, and returns how many requests there were and how the stream ended. If the bytes are
    /// not known, some requests with replies are such a run. A stop after the call leaves the world
    /// after the requests, or that with the request of one reply 503 carried out, if the keeper was
    /// clean and settled and the disk is clean.
    ///
    /// # Errors
    ///
    /// The source or the sink failed, memory ran out, or the store failed. Then all this holds of
    /// the first requests of the stream, as many as the error says; the definition `Wrote` says
    /// which bytes are written. The device that the error blames has failed in this call (its count
    /// rose or is at its maximum), and no other has. After `Ok`, nothing is said of these counts.
    pub fn serve<R: Source, W: Sink>(
        &mut self,
        alloc: Global,
        source: &mut R,
        sink: &mut W,
    ) -> Result<Served, ServeFault>
        ensures serves { ServesOne K.state result self.old self.new (R.remaining source.old)
            (R.remaining source.new) (W.contents sink.old) (W.contents sink.new) }
        ensures blames { IfErr result (λ fault. Blames fault.cause (R.failed source.old)
            (R.failed source.new) (W.failed sink.old) (W.failed sink.new)) }
        ensures spared_source { IfErr result (λ fault. fault.cause ≢ ReadFailed
            → R.failed source.new ≡ R.failed source.old) }
        ensures spared_sink { IfErr result (λ fault. fault.cause ≢ WriteFailed
            → W.failed sink.new ≡ W.failed sink.old) }
        ensures same_source { R.name source.new ≡ R.name source.old }
        ensures same_sink { W.name sink.new ≡ W.name sink.old }
    {
        let mut buffer = Vec::new(alloc);
        let mut done = 0u32;
        loop {
            let found = match next_frame(alloc, source, &mut buffer) {
                Ok(found) => found,
                Err(cause) => return Err(serve_fault(cause, done)),
            };
            match found {
                Frame::Need => unreachable!(),
                Frame::End => return Ok(served_result(done, Ending::End)),
                Frame::Bad { refusal, head_only } => {
                    match send_refusal(alloc, &refusal, head_only, sink) {
                        Ok(()) => {}
                        Err(cause) => return Err(serve_fault(cause, done)),
                    }
                    return Ok(served_result(done, Ending::Refused(refusal.word)));
                }
                Frame::Request(request, used) => {
                    let closes = closes_now(&request, done);
                    match self.answer(alloc, &request, closes, sink) {
                        Ok(()) => {}
                        Err(cause) => return Err(serve_fault(cause, done + 1)),
                    }
                    done += 1;
                    if closes {
                        return Ok(served_result(done, ending_of(request.close)));
                    }
                    cut_front(&mut buffer, used);
                }
            }
        }
    }
}

/// Returns whether the desk has to omit the reply's body: the method is HEAD.
fn asks_head(request: &Request) -> bool
    ensures { result ≡ is_head request.now.method.items }
{
    request.method.as_slice() == b"HEAD".as_slice()
}

/// Returns whether the desk stops after this request: it asks to close, or is the last that is
/// answered. `done` requests came before it.
fn closes_now(request: &Request, done: u32) -> bool
    requires { done < connection_limit }
    ensures { result ≡ closes_at (connection_limit - done) (request_content request.now) }
{
    request.close || MOST_REQUESTS - done <= 1
}

/// Returns the ending after the desk's last reply to a stream: `Closed` or `Limit`. `close` says
/// that the request closes the connection.
fn ending_of(close: bool) -> Ending
    ensures { last result ≡ last_for close }
{
    if close { Ending::Closed } else { Ending::Limit }
}

/// Makes the desk's result for a stream that it served to its end.
fn served_result(requests: u32, ending: Ending) -> Served
    ensures requests { result.requests ≡ requests }
    ensures ending { result.ending ≡ ending }
{
    Served { requests, ending }
}

/// Makes the desk's fault for a stream that it served in part.
fn serve_fault(cause: Cause, requests: u32) -> ServeFault
    ensures cause { result.cause ≡ cause }
    ensures requests { result.requests ≡ requests }
{
    ServeFault { cause, requests }
}

/// Serves a reader and a writer as one connection: reads requests, and writes replies.
///
/// # Errors
///
/// The reader or the writer failed, memory ran out, or the store failed.
pub fn pipe<K: Keeper, R: Read, W: Write>(
    alloc: Global,
    desk: &mut Desk<K>,
    reader: &mut R,
    writer: &mut W,
) -> Result<Served, ServeFault>
    ensures serves { ServesOne K.state result desk.old desk.new (R.remaining reader.old)
        (R.remaining reader.new) (W.contents writer.old) (W.contents writer.new) }
{
    let mut source = Borrowed::new(reader);
    let mut sink = Borrowed::new(writer);
    desk.serve(alloc, &mut source, &mut sink)
}

/// Serves a list of streams on a desk, one after another, and returns what was written for each.
/// Returns `None` if serving a stream fails or memory runs out.
pub fn serve_streams<K: Keeper>(
    alloc: Global,
    desk: &mut Desk<K>,
    streams: &[&[u8]],
) -> Option<Vec<Vec<u8>>>
    ensures served { IfSome result (λ texts. ServesEach K.state desk.old.keeper desk.new.keeper
        (map (λ stream. stream.now) streams.now) (map (λ text. text.items) texts.items)) }
{
    let mut texts = Vec::new(alloc);
    for stream in streams {
        let mut rest = *stream;
        let mut text = Vec::new(alloc);
        let Ok(_) = pipe(alloc, desk, &mut rest, &mut text) else {
            return None;
        };
        let Ok(()) = texts.push(text) else {
            return None;
        };
    }
    Some(texts)
}
