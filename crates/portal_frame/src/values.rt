//! Checks headers; reads body length and caller's code; cuts values.

ghost use Rattle.std.specs.Prelude.{◌≡◌, length, map, All, IfOk, codes, ◌∷◌, []};
ghost use Rattle.httparse.specs.Spans.{IsHeaderWithin, header_bytes};
ghost use Rattle.portal_frame.specs.Stream.{same_name, values_of, only, length_of};
ghost use Rattle.portal_frame.specs.Stream.{body_length, up_to as bytes_up_to};
ghost use Rattle.portal_frame.specs.inner.Counting.{IsFound};

use crate::types::{FramingFault, LONGEST_BODY};
use httparse::spans::HeaderSpan;
use std::alloc::{AllocError, Global};

/// The values of the headers with one name: none, one, or several.
#[derive(Clone, Copy, Drop)]
pub(crate) enum Found<'b> {
    Nothing,
    One(&'b [u8]),
    Many,
}

/// Returns whether two header names are equal, ignoring case.
pub(crate) fn is_named(name: &[u8], wanted: &[u8]) -> bool
    ensures { result ≡ same_name name.now wanted.now }
{
    name.eq_ignore_ascii_case(wanted)
}

/// Returns the bytes before the first one that equals `end`, or all if none does.
pub(crate) fn up_to(bytes: &[u8], end: u8) -> &[u8]
    ensures { result.now ≡ bytes_up_to end bytes.now }
{
    let mut at = 0;
    while at < bytes.len() && bytes[at] != end {
        at += 1;
    }
    let (front, _) = bytes.split_at(at);
    front
}

/// Finds the values of the headers with this name.
pub(crate) fn found_value<'b>(bytes: &'b [u8], headers: &[HeaderSpan], name: &[u8]) -> Found<'b>
    requires { All (IsHeaderWithin (length bytes.now)) headers.now }
    ensures { IsFound result (values_of name.now (map (header_bytes bytes.now) headers.now)) }
{
    let mut found = Found::Nothing;
    for header in headers {
        if is_named(header.name.of(bytes), name) {
            found = match found {
                Found::Nothing => Found::One(header.value.of(bytes)),
                Found::One(_) => Found::Many,
                Found::Many => Found::Many,
            };
        }
    }
    found
}

/// Parses the value of `Content-Length`, which may be at most 1,048,576.
fn number_of(value: &[u8]) -> Result<usize, FramingFault>
    ensures { result ≡ length_of (value.now ∷ []) }
{
    if value.is_empty() || value.len() > 18 {
        return Err(FramingFault::BadLength);
    }
    let mut number = 0u64;
    for digit in value {
        if !digit.is_ascii_digit() {
            return Err(FramingFault::BadLength);
        }
        number = number * 10 + (*digit - b'0') as u64;
    }
    if number > LONGEST_BODY as u64 {
        return Err(FramingFault::TooLarge);
    }
    Ok(number as usize)
}

/// Returns the length of the body, or the first fault of the headers.
pub(crate) fn check_lines(
    bytes: &[u8],
    headers: &[HeaderSpan],
    minor: u8,
) -> Result<usize, FramingFault>
    requires { All (IsHeaderWithin (length bytes.now)) headers.now }
    ensures { result ≡ body_length minor (map (header_bytes bytes.now) headers.now) }
{
    match found_value(bytes, headers, b"host") {
        Found::Nothing => {
            if minor == 1 {
                return Err(FramingFault::BadHost);
            }
        }
        Found::One(_) => {}
        Found::Many => return Err(FramingFault::BadHost),
    }
    match found_value(bytes, headers, b"transfer-encoding") {
        Found::Nothing => {}
        _ => return Err(FramingFault::CodedBody),
    }
    match found_value(bytes, headers, b"content-length") {
        Found::Nothing => Ok(0),
        Found::One(value) => number_of(value),
        Found::Many => Err(FramingFault::BadLength),
    }
}

/// Copies the value of the `portal-code` header; returns no bytes unless there is exactly one.
pub(crate) fn code_of(
    alloc: Global,
    bytes: &[u8],
    headers: &[HeaderSpan],
) -> Result<Vec<u8>, AllocError>
    requires { All (IsHeaderWithin (length bytes.now)) headers.now }
    ensures { IfOk result (λ code. code.items
        ≡ only (values_of (codes "portal-code") (map (header_bytes bytes.now) headers.now))) }
{
    match found_value(bytes, headers, b"portal-code") {
        Found::One(value) => Vec::from_slice(alloc, value),
        _ => Ok(Vec::new(alloc)),
    }
}
