//! Makes desks over a keeper in lists, and checks their output.

ghost use Rattle.portal_rules.specs.Good.{Good};

use crate::tests::devices::{ended, is_text, served_by};
use portal_core::Keeper;
use portal_desk::{Counted, Desk, Ending};
use portal_fixtures::worked::{ENROLLED, FIRST_ROUND, LISTS, REOPENED};
use portal_fixtures::{Line, office_code, play};
use portal_list::ListKeeper;
use std::process::Abort;

/// The reply to an unknown caller.
pub(crate) const NO_CALLER: &str =
    "HTTP/1.1 403 Forbidden\r\ncontent-type: application/json\r\ncontent-length: 21\r\n\r\n{\"error\":\"no_caller\"}";

/// The reply to bytes that are not a head.
pub(crate) const BAD_HEAD: &str =
    "HTTP/1.1 400 Bad Request\r\ncontent-type: application/json\r\ncontent-length: 20\r\nconnection: close\r\n\r\n{\"error\":\"bad_head\"}";

/// The reply to a body that ends too early.
pub(crate) const BAD_LENGTH: &str =
    "HTTP/1.1 400 Bad Request\r\ncontent-type: application/json\r\ncontent-length: 22\r\nconnection: close\r\n\r\n{\"error\":\"bad_length\"}";

/// Makes a keeper of the empty world in setup.
pub(crate) fn fresh_keeper(rt: &(impl Abort + AllocGlobal)) -> ListKeeper
    ensures { Good result }
{
    let office = office_code(rt.alloc()).expect(rt, "a code");
    ListKeeper::new(rt.alloc(), office)
}

/// Makes a desk over the empty world in setup.
pub(crate) fn fresh(rt: &(impl Abort + AllocGlobal)) -> Desk<ListKeeper> {
    Desk::new(fresh_keeper(rt))
}

/// Serves one connection, checks its ending and number of requests, and returns the output.
pub(crate) fn written<K: Keeper>(
    rt: &(impl Abort + AllocGlobal),
    desk: &mut Desk<K>,
    bytes: &[u8],
    ending: Ending,
    requests: usize,
) -> Vec<u8> {
    let mut source = Counted::new(bytes);
    served_by(rt, desk, &mut source, ended(ending, requests), bytes.len())
}

/// Checks that a connection with these bytes has this ending, number of requests and output.
pub(crate) fn gives<K: Keeper>(
    rt: &(impl Abort + AllocGlobal),
    desk: &mut Desk<K>,
    bytes: &str,
    ending: Ending,
    requests: usize,
    output: &str,
) {
    let text = written(rt, desk, bytes.as_bytes(), ending, requests);
    is_text(rt, text.as_slice(), output.as_bytes());
}

/// Returns the request of a line.
pub(crate) fn request(rt: &(impl Abort + AllocGlobal), line: &str) -> String {
    Line::new(line).request(rt.alloc()).expect(rt, "memory")
}

/// Returns the reply of a line.
pub(crate) fn reply(rt: &(impl Abort + AllocGlobal), line: &str) -> String {
    Line::new(line).reply(rt.alloc()).expect(rt, "memory")
}

/// Returns the opening, then the text this many times, and then the end.
pub(crate) fn filled(
    rt: &(impl Abort + AllocGlobal),
    opening: &str,
    text: &str,
    times: usize,
    end: &str,
) -> String {
    let middle = text.repeat(rt.alloc(), times).expect(rt, "memory");
    format!(in rt.alloc(); "{opening}{middle}{end}").expect(rt, "memory")
}

/// Checks a text.
pub(crate) fn says(rt: &impl Abort, found: &str, wanted: &str) {
    assert_eq!(rt; found, wanted);
}

/// Checks how many bytes there are.
pub(crate) fn has_length(rt: &impl Abort, bytes: &[u8], length: usize) {
    assert_eq!(rt; bytes.len(), length);
}

/// Checks that each line of the script gets its reply, each on a new connection.
pub(crate) fn plays<K: Keeper>(rt: &(impl Abort + AllocGlobal), desk: &mut Desk<K>, script: &str) {
    play_all(rt, desk, &[script]);
}

/// Checks that each line of the scripts gets its reply, each on a new connection.
fn play_all<K: Keeper>(rt: &(impl Abort + AllocGlobal), desk: &mut Desk<K>, scripts: &[&str]) {
    let wrong = play(rt.alloc(), desk, scripts).expect(rt, "memory");
    says(rt, wrong.as_str(), "");
}

/// Makes a desk, and plays these scripts on it.
pub(crate) fn after(rt: &(impl Abort + AllocGlobal), scripts: &[&str]) -> Desk<ListKeeper> {
    let mut desk = fresh(rt);
    play_all(rt, &mut desk, scripts);
    desk
}

/// Returns a desk in setup, with the worked rolls.
pub(crate) fn with_rolls(rt: &(impl Abort + AllocGlobal)) -> Desk<ListKeeper> {
    after(rt, &[ENROLLED])
}

/// Returns a desk in choosing, with the worked lists.
pub(crate) fn choosing(rt: &(impl Abort + AllocGlobal)) -> Desk<ListKeeper> {
    after(rt, &[ENROLLED, LISTS])
}

/// Returns a desk over the published worked world: S1 has P2, S2 has P1 and S3 nothing.
pub(crate) fn published(rt: &(impl Abort + AllocGlobal)) -> Desk<ListKeeper> {
    after(rt, FIRST_ROUND)
}

/// Returns a desk in the second round, in choosing.
pub(crate) fn reopened(rt: &(impl Abort + AllocGlobal)) -> Desk<ListKeeper> {
    after(rt, REOPENED)
}
