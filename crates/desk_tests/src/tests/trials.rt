//! Checks how a stream is served that is cut twice, ends early, or meets a failing device.

use crate::tests::conversation::{Stream, put};
use crate::tests::devices::{
    Feeder, ended, is_first, is_text, served_by, served_failing, stopped, taken,
};
use portal_core::Keeper;
use portal_desk::{Cause, Desk};
use std::process::Abort;

/// Checks a stream that arrives in pieces: `first` bytes, then `second` bytes, then the rest.
pub(crate) fn served_cut<K: Keeper>(
    rt: &(impl Abort + AllocGlobal),
    desk: &mut Desk<K>,
    stream: &Stream,
    first: usize,
    second: usize,
) {
    let bytes = stream.bytes(rt);
    let mut source = Feeder::cut(bytes.as_slice(), first, second);
    let wanted = ended(stream.ending(), stream.requests());
    let output = served_by(rt, desk, &mut source, wanted, bytes.len());
    is_text(rt, output.as_slice(), stream.output(rt).as_slice());
}

/// Checks a stream whose input ends after `many` bytes.
pub(crate) fn ended_at<K: Keeper>(
    rt: &(impl Abort + AllocGlobal),
    desk: &mut Desk<K>,
    stream: &Stream,
    many: usize,
) {
    let bytes = stream.bytes(rt);
    let (whole, left) = stream.whole_in(many);
    let (ending, closing) = stream.cut_off(whole, left);
    let mut source = Feeder::new(&bytes.as_slice()[..many.min(bytes.len())], 4_096);
    let output = served_by(rt, desk, &mut source, ended(ending, whole), many);
    are_replies(rt, output.as_slice(), stream, whole, closing);
}

/// Checks that the output is the replies to the first `whole` requests, and then `closing`.
fn are_replies(
    rt: &(impl Abort + AllocGlobal),
    output: &[u8],
    stream: &Stream,
    whole: usize,
    closing: &str,
) {
    let mut wanted = stream.replies(rt, whole);
    put(rt, &mut wanted, closing);
    is_text(rt, output, wanted.as_slice());
}

/// Checks a reader that returns up to `step` bytes a call and fails after `many` bytes. Requests
/// that are complete by then are answered, and nothing else is written.
pub(crate) fn reader_fails_at<K: Keeper>(
    rt: &(impl Abort + AllocGlobal),
    desk: &mut Desk<K>,
    stream: &Stream,
    step: usize,
    many: usize,
) {
    let bytes = stream.bytes(rt);
    let given = &bytes.as_slice()[..many.min(bytes.len())];
    if many == bytes.len() && !stream.waits {
        let wanted = ended(stream.ending(), stream.requests());
        let output = served_failing(rt, desk, given, step, wanted);
        is_text(rt, output.as_slice(), stream.output(rt).as_slice());
    } else {
        let (whole, _) = stream.whole_in(many);
        let output = served_failing(rt, desk, given, step, stopped(Cause::Read, whole));
        are_replies(rt, output.as_slice(), stream, whole, "");
    }
}

/// Checks a writer that accepts up to `step` bytes a call and fails after `many` bytes. The request
/// of the failed reply has acted, and no later one.
pub(crate) fn writer_fails_at<K: Keeper>(
    rt: &(impl Abort + AllocGlobal),
    desk: &mut Desk<K>,
    stream: &Stream,
    step: usize,
    many: usize,
) {
    let bytes = stream.bytes(rt);
    let requests = stream.acted_at(many);
    let held = taken(rt, desk, bytes.as_slice(), step, many, requests);
    is_first(rt, held.as_slice(), stream.output(rt).as_slice(), many);
}
