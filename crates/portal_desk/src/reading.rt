//! Buffers a stream until its next request is complete; removes answered requests.

ghost use Rattle.std.specs.Prelude.{◌≡◌, ◌<◌, ◌≤◌, length, drop, IfOk, IfErr, OnErr};
ghost use Rattle.portal_frame.specs.Stream.{request_limit};
ghost use Rattle.portal_desk.specs.inner.Turns.{CountsFor};
ghost use Rattle.portal_desk.specs.inner.Reading.{Follows, IsFailedRead, IsPieceRead, NoneWhole};
ghost use Rattle.portal_desk.specs.declared.served.Cause.TheVariants.{Read as ReadFailed};

use crate::devices::Source;
use crate::served::Cause;
use portal_frame::{Frame, LONGEST_REQUEST, frame};
use std::alloc::Global;

/// Reads a stream's next bytes into the buffer, and returns whether the source has ended.
fn read_piece<R: Source>(source: &mut R, buffer: &mut Vec<u8>) -> Result<bool, Cause>
    requires { length buffer.old.items < request_limit }
    ensures ok { IfOk result (IsPieceRead (R.remaining source.old)
        (R.remaining source.new) buffer.old.items buffer.new.items) }
    ensures err { IfErr result (IsFailedRead (R.remaining source.old)
        (R.remaining source.new) buffer.old.items buffer.new.items) }
    ensures none_lost { OnErr result (buffer.new.items ≡ buffer.old.items) }
    ensures held { length buffer.new.items ≤ request_limit }
    ensures failures { CountsFor ReadFailed result (R.failed source.old) (R.failed source.new) }
    ensures same_device { R.name source.new ≡ R.name source.old }
{
    let mut piece = [0u8; 4096];
    let room = (LONGEST_REQUEST - buffer.len()).min(4096);
    let Ok(n) = source.read(&mut piece[..room]) else {
        return Err(Cause::Read);
    };
    if n == 0 {
        return Ok(true);
    }
    let Ok(()) = buffer.extend_from_slice(&piece[..n]) else {
        return Err(Cause::Memory);
    };
    Ok(false)
}

/// Reads from a source until the buffer begins with a request, a fault or the stream's end.
pub(crate) fn next_frame<R: Source>(
    alloc: Global,
    source: &mut R,
    buffer: &mut Vec<u8>,
) -> Result<Frame, Cause>
    requires { length buffer.old.items ≤ request_limit }
    ensures follows { IfOk result (Follows (R.remaining source.old)
        (R.remaining source.new) buffer.old.items buffer.new.items) }
    ensures err { IfErr result (IsFailedRead (R.remaining source.old)
        (R.remaining source.new) buffer.old.items buffer.new.items) }
    ensures none { IfErr result (λ cause. cause ≡ ReadFailed → NoneWhole buffer.new.items) }
    ensures held { length buffer.new.items ≤ request_limit }
    ensures failures { CountsFor ReadFailed result (R.failed source.old) (R.failed source.new) }
    ensures same_device { R.name source.new ≡ R.name source.old }
{
    let mut ended = false;
    loop {
        let Ok(found) = frame(alloc, buffer.as_slice(), ended) else {
            return Err(Cause::Memory);
        };
        match found {
            Frame::Need => {}
            found => return Ok(found),
        }
        ended = read_piece(source, buffer)?;
    }
}

/// Removes the first `used` bytes of the buffer: the request that was answered.
pub(crate) fn cut_front(buffer: &mut Vec<u8>, used: usize)
    requires { used ≤ length buffer.old.items }
    ensures { buffer.new.items ≡ drop used buffer.old.items }
{
    let kept = buffer.len() - used;
    buffer.rotate_left(used);
    buffer.truncate(kept);
}
