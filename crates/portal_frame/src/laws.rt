//! Laws: a stream begins with exactly one of request, fault and end.

ghost use Rattle.std.specs.Prelude.{◌≡◌, ℕ, List};
ghost use Rattle.portal_frame.specs.Stream.{Item, Opens};
ghost use Rattle.portal_frame.specs.Stream.{body_limit, head_limit, request_limit};

use crate::types::{LONGEST_BODY, LONGEST_HEAD, LONGEST_REQUEST};
use httparse::Status;
use httparse::spans::{EMPTY_HEADER_SPAN, parse_request};

/// Law: the limits of the code are those of the definitions.
pub fn limits_are()
    ensures head { LONGEST_HEAD ≡ head_limit }
    ensures body { LONGEST_BODY ≡ body_limit }
    ensures request { LONGEST_REQUEST ≡ request_limit }
{}

/// Law: the rest of a stream begins with at most one item: a request, a fault or the end.
pub fn opens_once()
    ensures { (bytes : List ℕ) (one other : Item) → Opens bytes one → Opens bytes other
        → one ≡ other }
{}

/// Law: the rest of a stream begins with some item: a request, a fault or the end.
pub fn opens_some(bytes: &[u8])
    ensures { (item : Item) × Opens bytes.now item }
{
    let mut headers = [EMPTY_HEADER_SPAN; 32];
    let front = &bytes[..bytes.len().min(LONGEST_HEAD)];
    match parse_request(front, &mut headers) {
        Ok(Status::Complete(_)) => {}
        Ok(Status::Partial) => {}
        Err(_) => {}
    }
}
