//! Types for how a stream ended, and why serving stopped early.

use portal_wire::Ending;

/// Why serving stopped early.
#[derive(Clone, Copy, Debug, PartialEq, Eq, Drop)]
pub enum Cause {
    /// The source failed.
    Read,
    /// The sink failed.
    Write,
    /// Memory ran out while a request was read or the bytes of a reply were made. Where it runs
    /// out in acting on a request, the reply is 503, and serving goes on.
    Memory,
    /// The store failed; a 503 reply was written before serving stopped.
    Store,
}

/// A stream that was served to its end.
#[derive(Clone, Copy, Debug, PartialEq, Eq, Drop)]
pub struct Served {
    /// How many requests were answered.
    pub requests: u32,
    pub ending: Ending,
}

/// A stream that was served in part.
#[derive(Clone, Copy, Debug, PartialEq, Eq, Drop)]
pub struct ServeFault {
    pub cause: Cause,
    /// How many requests the desk took. The reply to the last one may be missing or incomplete.
    pub requests: u32,
}
