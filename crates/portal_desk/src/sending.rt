//! Writes replies to a sink.

ghost use Rattle.std.specs.Prelude.{◌≡◌, true};
ghost use Rattle.portal_rules.specs.Answer.{HasWholeNumbers};
ghost use Rattle.portal_rules.specs.Meaning.{reply_model, body_model};
ghost use Rattle.portal_frame.specs.Stream.{refusal_content};
ghost use Rattle.portal_wire.specs.Wish.{answer_to};
ghost use Rattle.portal_wire.specs.Conversation.{reply_text};
ghost use Rattle.portal_desk.specs.inner.Turns.{CountsFor, Writes};
ghost use Rattle.portal_desk.specs.declared.served.Cause.TheVariants.{Write as WriteFailed};

use crate::devices::{Sink, write_whole};
use crate::served::Cause;
use portal_core::Reply;
use portal_frame::Refusal;
use portal_wire::{reply_bytes, reply_of};
use std::alloc::Global;

/// Writes all the bytes of a reply to a sink, or returns the cause `Write`.
fn send<W: Sink>(bytes: &[u8], sink: &mut W) -> Result<(), Cause>
    ensures writes { Writes result (W.contents sink.old) (W.contents sink.new) bytes.now }
    ensures failures { CountsFor WriteFailed result (W.failed sink.old) (W.failed sink.new) }
    ensures same_device { W.name sink.new ≡ W.name sink.old }
{
    match write_whole(sink, bytes) {
        Ok(()) => Ok(()),
        Err(_) => Err(Cause::Write),
    }
}

/// Writes a whole reply to a sink.
pub(crate) fn send_reply<W: Sink>(
    alloc: Global,
    reply: Reply,
    head_only: bool,
    close: bool,
    sink: &mut W,
) -> Result<(), Cause>
    requires { HasWholeNumbers (body_model reply.body) }
    ensures writes { Writes result (W.contents sink.old) (W.contents sink.new)
        (reply_text (reply_model reply) head_only close) }
    ensures failures { CountsFor WriteFailed result (W.failed sink.old) (W.failed sink.new) }
    ensures same_device { W.name sink.new ≡ W.name sink.old }
{
    let Ok(bytes) = reply_bytes(alloc, &reply, head_only, close) else {
        return Err(Cause::Memory);
    };
    send(bytes.as_slice(), sink)
}

/// Writes to a sink the reply for the refusal that ends a stream.
pub(crate) fn send_refusal<W: Sink>(
    alloc: Global,
    refusal: &Refusal,
    head_only: bool,
    sink: &mut W,
) -> Result<(), Cause>
    ensures writes { Writes result (W.contents sink.old) (W.contents sink.new)
        (reply_text (answer_to (refusal_content refusal.now)) head_only true) }
    ensures failures { CountsFor WriteFailed result (W.failed sink.old) (W.failed sink.new) }
    ensures same_device { W.name sink.new ≡ W.name sink.old }
{
    let Ok(reply) = reply_of(alloc, refusal) else {
        return Err(Cause::Memory);
    };
    send_reply(alloc, reply, head_only, true, sink)
}
