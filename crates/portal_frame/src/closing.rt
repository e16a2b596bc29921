//! Tests whether a request's version or `Connection` header closes the connection.

ghost use Rattle.std.specs.Prelude.{◌≡◌, length, map, All, codes};
ghost use Rattle.httparse.specs.Grammar.{skip_ows};
ghost use Rattle.httparse.specs.Spans.{IsHeaderWithin, header_bytes};
ghost use Rattle.portal_frame.specs.Stream.{values_of, is_close, has_close, asks_close};
ghost use Rattle.portal_frame.specs.Stream.{closes_after};

use crate::values::{is_named, up_to};
use httparse::spans::HeaderSpan;

/// Skips leading spaces and tabs, to find the word `close` in a header.
fn skip(bytes: &[u8]) -> &[u8]
    ensures { result.now ≡ skip_ows bytes.now }
{
    let mut rest = bytes;
    while let [byte, after @ ..] = rest {
        if *byte != b' ' && *byte != b'\t' {
            return rest;
        }
        rest = after;
    }
    rest
}

/// Returns whether a part is the word `close` in any case, with spaces and tabs around it.
fn is_close_part(part: &[u8]) -> bool
    ensures { result ≡ is_close part.now }
{
    let rest = skip(part);
    if rest.len() < 5 {
        return false;
    }
    let (word, after) = rest.split_at(5);
    word.eq_ignore_ascii_case(b"close") && skip(after).is_empty()
}

/// Returns whether some comma-separated part of a header's value is the word `close`.
fn has_close_part(value: &[u8]) -> bool
    ensures { result ≡ has_close value.now }
{
    if is_close_part(up_to(value, b',')) {
        return true;
    }
    let mut rest = value;
    while let [byte, after @ ..] = rest {
        if *byte == b',' && is_close_part(up_to(after, b',')) {
            return true;
        }
        rest = after;
    }
    false
}

/// Returns whether a `Connection` header asks to close the connection.
fn asks_to_close(bytes: &[u8], headers: &[HeaderSpan]) -> bool
    requires { All (IsHeaderWithin (length bytes.now)) headers.now }
    ensures { result ≡ asks_close
        (values_of (codes "connection") (map (header_bytes bytes.now) headers.now)) }
{
    for header in headers {
        if is_named(header.name.of(bytes), b"connection")
            && has_close_part(header.value.of(bytes))
        {
            return true;
        }
    }
    false
}

/// Returns whether the connection closes after a request: in HTTP/1.0, or if a header asks for it.
pub(crate) fn ends_after(minor: u8, bytes: &[u8], headers: &[HeaderSpan]) -> bool
    requires { All (IsHeaderWithin (length bytes.now)) headers.now }
    ensures { result ≡ closes_after minor (map (header_bytes bytes.now) headers.now) }
{
    if minor == 0 {
        return true;
    }
    asks_to_close(bytes, headers)
}
