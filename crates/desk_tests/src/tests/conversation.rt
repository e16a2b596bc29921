//! Describes a stream of requests and its expected output.

use crate::tests::portal::{BAD_HEAD, BAD_LENGTH};
use portal_desk::Ending;
use std::process::Abort;

/// The head and the body of a request, and its reply.
pub(crate) type Asked = (&'static str, &'static str, &'static str);

/// A stream of requests and its expected output. Framing may refuse the last request.
#[derive(Drop)]
pub(crate) struct Stream {
    /// The requests and the replies to them.
    pub asked: &'static [Asked],
    /// The head of the refused request, or an empty text. `body` is what follows it.
    pub head: &'static str,
    pub body: &'static str,
    /// The word of the refusal. `closing` is the reply to it.
    pub word: &'static str,
    pub closing: &'static str,
    /// Whether the desk reads until the input ends.
    pub waits: bool,
}

impl Stream {
    pub(crate) fn ending(&self) -> Ending {
        if self.head.is_empty() {
            Ending::End
        } else {
            Ending::Refused(self.word)
        }
    }

    /// Returns the bytes of the requests after the first `many`.
    pub(crate) fn behind(&self, rt: &(impl Abort + AllocGlobal), many: usize) -> Vec<u8> {
        let mut bytes = Vec::new(rt.alloc());
        for asked in &self.asked[many.min(self.asked.len())..] {
            put(rt, &mut bytes, asked.0);
            put(rt, &mut bytes, asked.1);
        }
        bytes
    }

    pub(crate) fn bytes(&self, rt: &(impl Abort + AllocGlobal)) -> Vec<u8> {
        let mut bytes = self.behind(rt, 0);
        put(rt, &mut bytes, self.head);
        put(rt, &mut bytes, self.body);
        bytes
    }

    /// Returns the replies to the first `many` requests.
    pub(crate) fn replies(&self, rt: &(impl Abort + AllocGlobal), many: usize) -> Vec<u8> {
        replies_to(rt, &self.asked[..many.min(self.asked.len())])
    }

    /// Returns the replies to the requests after the first `many`.
    pub(crate) fn replies_behind(&self, rt: &(impl Abort + AllocGlobal), many: usize) -> Vec<u8> {
        replies_to(rt, &self.asked[many.min(self.asked.len())..])
    }

    pub(crate) fn output(&self, rt: &(impl Abort + AllocGlobal)) -> Vec<u8> {
        let mut text = replies_to(rt, self.asked);
        put(rt, &mut text, self.closing);
        text
    }

    pub(crate) fn requests(&self) -> usize {
        self.asked.len()
    }

    /// Returns how many requests are complete in `many` bytes, and how many bytes follow them.
    pub(crate) fn whole_in(&self, many: usize) -> (usize, usize) {
        let mut left = many;
        for (at, (head, body, _)) in self.asked.iter().enumerate() {
            let length = head.len().saturating_add(body.len());
            if left < length {
                return (at, left);
            }
            left -= length;
        }
        (self.requests(), left)
    }

    /// Returns how many requests have acted when a writer fails after `many` bytes.
    pub(crate) fn acted_at(&self, many: usize) -> usize {
        let mut left = many;
        for (at, (_, _, reply)) in self.asked.iter().enumerate() {
            if left < reply.len() {
                return at + 1;
            }
            left -= reply.len();
        }
        self.requests()
    }

    /// Returns the ending and the last reply if the input ends `left` bytes after `whole` requests.
    pub(crate) fn cut_off(&self, whole: usize, left: usize) -> (Ending, &'static str) {
        if left == 0 {
            return (Ending::End, "");
        }
        let (head, is_whole) = match self.asked.get(whole) {
            Some((head, _, _)) => (*head, false),
            None => (self.head, true),
        };
        if left < head.len() {
            (Ending::Refused("bad_head"), BAD_HEAD)
        } else if is_whole {
            (self.ending(), self.closing)
        } else {
            (Ending::Refused("bad_length"), BAD_LENGTH)
        }
    }
}

fn replies_to(rt: &(impl Abort + AllocGlobal), all: &[Asked]) -> Vec<u8> {
    let mut text = Vec::new(rt.alloc());
    for asked in all {
        put(rt, &mut text, asked.2);
    }
    text
}

/// Appends a text.
pub(crate) fn put(rt: &impl Abort, bytes: &mut Vec<u8>, text: &str) {
    let text = text.as_bytes();
    bytes.extend_from_slice(text).expect(rt, "memory");
}
