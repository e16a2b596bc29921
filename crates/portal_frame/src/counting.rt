//! Counts a request head's lines, to detect a head with too many lines.

ghost use Rattle.std.specs.Prelude.{◌≡◌, ◌≤◌};
ghost use Rattle.portal_frame.specs.inner.Counting.{lines_from, step, stops};
ghost use Rattle.portal_frame.specs.inner.Counting.{counts};
ghost use Rattle.portal_frame.specs.Stream.{is_overlong};

/// A position in the lines of a head.
#[derive(Clone, Copy, Debug, PartialEq, Eq, Drop)]
pub(crate) enum At {
    /// At the start of a line, after empty lines only.
    Leading,
    /// After a CR at `Leading`.
    LeadingCr,
    /// At the start of a line that follows a non-empty line.
    Fresh,
    /// After a CR at `Fresh`.
    FreshCr,
    /// Inside a non-empty line.
    Inside,
}

/// Returns the position in the lines of a head after one more byte.
fn position_after(at: At, byte: u8) -> At
    ensures { result ≡ step at byte }
{
    match (at, byte) {
        (At::Leading, b'\n') | (At::LeadingCr, b'\n') => At::Leading,
        (At::Leading, b'\r') => At::LeadingCr,
        (At::Fresh, b'\r') => At::FreshCr,
        (At::Inside, b'\n') => At::Fresh,
        _ => At::Inside,
    }
}

/// Returns whether the byte ends an empty line after a non-empty one; counting stops there.
fn ends_head(at: At, byte: u8) -> bool
    ensures { result ≡ stops at byte }
{
    matches!(at, At::Fresh | At::FreshCr) && byte == b'\n'
}

/// Returns how many non-empty lines of a head the byte ends: 0 or 1.
fn lines_ended(at: At, byte: u8) -> usize
    ensures exact { result ≡ counts at byte }
    ensures few { result ≤ 1 }
{
    usize::from(at == At::Inside && byte == b'\n')
}

/// Counts the complete lines of a head, from its first non-empty line to the next empty one.
fn lines_in(bytes: &[u8]) -> usize
    ensures { result ≡ lines_from At.Leading bytes.now }
{
    let mut at = At::Leading;
    let mut lines = 0usize;
    for byte in bytes {
        if ends_head(at, *byte) {
            return lines;
        }
        lines += lines_ended(at, *byte);
        at = position_after(at, *byte);
    }
    lines
}

/// Returns whether a head has 34 lines or more; the limit is a start line and 32 headers.
pub(crate) fn is_overlong_head(bytes: &[u8]) -> bool
    ensures { result ≡ is_overlong bytes.now }
{
    lines_in(bytes) >= 34
}
