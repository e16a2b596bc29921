//! `frame` recognises what comes next in a stream: a request, a fault or the stream's end.
#![tactic(auto)]

ghost use Rattle.std.specs.Prelude.{◌≡◌, ℕ, ◌<◌, ◌≤◌, ◌⊎◌, List, ◌++◌, length, IfOk};
ghost use Rattle.httparse.specs.Grammar.{MayBecomeRequest, RequestHead};
ghost use Rattle.httparse.specs.Spans.{RequestExceeds};
ghost use Rattle.portal_frame.specs.Stream.{Framed, IsDue, IsWithinLimits, HasNoHead, is_blank};
ghost use Rattle.portal_frame.specs.inner.Counting.{IsHead};

mod closing;
mod counting;
pub mod laws;
mod types;
mod values;

use crate::closing::ends_after;
use crate::counting::is_overlong_head;
use crate::types::FramingFault;
pub use crate::types::{Frame, LONGEST_BODY, LONGEST_HEAD, LONGEST_REQUEST, Refusal, Request};
use crate::values::{check_lines, code_of, up_to};
use httparse::spans::{EMPTY_HEADER_SPAN, HeaderSpan, RequestSpans, parse_request};
use httparse::{Error, Status};
use std::alloc::{AllocError, Global};

/// Returns whether the bytes are only empty lines, as they may be at the end of a stream. The
/// last one may lack its LF.
fn is_all_blank(bytes: &[u8]) -> bool
    ensures { result ≡ is_blank bytes.now }
{
    let mut rest = bytes;
    while !rest.is_empty() {
        match rest {
            [b'\n', after @ ..] => rest = after,
            [b'\r', b'\n', after @ ..] => rest = after,
            [b'\r'] => return true,
            _ => return false,
        }
    }
    true
}

/// Returns the frame for bytes that begin with no complete head within the limits.
fn frame_open(bytes: &[u8], ended: bool) -> Frame
    requires none { HasNoHead bytes.now }
    requires full { LONGEST_HEAD ≤ length bytes.now → (more : List ℕ) → HasNoHead (bytes.now ++ more) }
    requires may { length bytes.now < LONGEST_HEAD
        → MayBecomeRequest bytes.now ⊎ RequestExceeds 32 bytes.now }
    ensures framed { Framed bytes.now ended result }
    ensures due { IsDue bytes.now ended result }
    ensures limits { IsWithinLimits bytes.now result }
{
    if bytes.len() < LONGEST_HEAD && !is_overlong_head(bytes) {
        if !ended {
            return Frame::Need;
        }
        if is_all_blank(bytes) {
            return Frame::End;
        }
    }
    Frame::Bad {
        refusal: FramingFault::BadHead.refusal(),
        head_only: false,
    }
}

/// Returns the frame for bytes that begin with a complete head.
fn frame_head(
    alloc: Global,
    bytes: &[u8],
    front: &[u8],
    spans: RequestSpans,
    headers: &[HeaderSpan],
    ended: bool,
) -> Result<Frame, AllocError>
    requires { (h : RequestHead) × IsHead bytes.now front.now spans headers.now h }
    ensures framed { IfOk result (Framed bytes.now ended) }
    ensures due { IfOk result (IsDue bytes.now ended) }
    ensures limits { IfOk result (IsWithinLimits bytes.now) }
{
    let method = spans.method.of(front);
    let head_only = method == b"HEAD".as_slice();
    let n = match check_lines(front, headers, spans.version) {
        Ok(n) => n,
        Err(fault) => return Ok(Frame::Bad {
            refusal: fault.refusal(),
            head_only,
        }),
    };
    let (_, rest) = bytes.split_at(spans.len);
    if rest.len() < n {
        if ended {
            return Ok(Frame::Bad {
                refusal: FramingFault::BadLength.refusal(),
                head_only,
            });
        }
        return Ok(Frame::Need);
    }
    let (body, _) = rest.split_at(n);
    let request = Request {
        method: Vec::from_slice(alloc, method)?,
        path: Vec::from_slice(alloc, up_to(spans.path.of(front), b'?'))?,
        code: code_of(alloc, front, headers)?,
        close: ends_after(spans.version, front, headers),
        body: Vec::from_slice(alloc, body)?,
    };
    Ok(Frame::Request(request, spans.len + n))
}

/// Returns what the bytes of a stream begin with; `ended` says that no more bytes follow.
///
/// Returns `Need` while a head or a body is incomplete, and `End` if the stream ended between
/// requests. Otherwise returns a request with its length in bytes, or the refusal of the first
/// fault. Further bytes change no answer but `Need`, which is not given once the stream has ended,
/// or `LONGEST_REQUEST` bytes have come; no request has more. The only error is a memory shortage.
pub fn frame(alloc: Global, bytes: &[u8], ended: bool) -> Result<Frame, AllocError>
    ensures framed { IfOk result (Framed bytes.now ended) }
    ensures due { IfOk result (IsDue bytes.now ended) }
    ensures limits { IfOk result (IsWithinLimits bytes.now) }
{
    let mut headers = [EMPTY_HEADER_SPAN; 32];
    let front = &bytes[..bytes.len().min(LONGEST_HEAD)];
    match parse_request(front, &mut headers) {
        Ok(Status::Complete(spans)) => {
            frame_head(alloc, bytes, front, spans, &headers[..spans.headers], ended)
        }
        Ok(Status::Partial) => Ok(frame_open(bytes, ended)),
        Err(error) => match error {
            Error::TooManyHeaders => Ok(frame_open(bytes, ended)),
            _ => Ok(Frame::Bad {
                refusal: FramingFault::BadHead.refusal(),
                head_only: false,
            }),
        },
    }
}
