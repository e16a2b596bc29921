//! Turns requests into calls, and replies into bytes.
#![tactic(auto)]

mod bodies;
mod calls;
pub mod laws;
mod replies;
mod routes;

pub use crate::calls::call_of;
pub use crate::replies::{reply_bytes, reply_of};
pub use portal_frame::{Frame, LONGEST_REQUEST, Refusal, Request, frame};

/// The most requests of a stream that are answered.
pub const MOST_REQUESTS: u32 = 256;

/// How the requests of a stream end.
#[derive(Clone, Copy, Debug, PartialEq, Eq, Drop)]
pub enum Ending {
    /// The input ended between requests.
    End,
    /// A request in HTTP/1.0 or with `Connection: close` was answered.
    Closed,
    /// A fault of framing ended the stream; the field is the word of its refusal.
    Refused(&'static str),
    /// As many requests as `MOST_REQUESTS` were answered.
    Limit,
}
