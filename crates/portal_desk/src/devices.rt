//! Sources and sinks that count failed calls, over any reader or writer of std.

ghost use Rattle.std.specs.Prelude.{◌≡◌, ◌≢◌, ℕ, ◌<◌, List, Option, take, length};
ghost use Rattle.std.specs.Prelude.{OnOk, OnErr, IfOk, IfErr};
ghost use Rattle.std.specs.Io.KnownBytes.{ReadConsumes, WriteAppends, Appends};
ghost use Rattle.std.specs.Io.{ReadsAtMost, WritesAtMost};
ghost use Rattle.std.specs.IoError.{error_kind};
ghost use Rattle.portal_desk.specs.Kept.{Counts, FailsAfter};

use std::io;
use std::io::{ErrorKind, Read, Write};
use std::marker::Model;

/// The error of a failed read or write.
#[derive(Clone, Copy, Debug, PartialEq, Eq, Drop)]
pub struct Failed;

/// A source of bytes that counts its failed calls.
pub trait Source {
    /// The bytes that are left, if they are known.
    ghost remaining: { Self → Option (List ℕ) };

    /// The identity of a borrowed device, which no call changes.
    ghost name: { Self → ℕ } = { λ _. 0 };

    /// The number of failed calls, up to `u64::MAX`.
    ghost failed: { Self → ℕ };

    /// Reads some bytes, and none only at the end or into an empty buffer. A failed call counts
    /// once and consumes no bytes.
    fn read(&mut self, buf: &mut [u8]) -> Result<usize, Failed>
        ensures bound { ReadsAtMost result buf.new }
        ensures bytes { ReadConsumes (remaining self.old) (remaining self.new) result buf.new }
        ensures counts { Counts result (failed self.old) (failed self.new) }
        ensures same_device { name self.new ≡ name self.old };

    /// Returns the number of failed calls, up to `u64::MAX`.
    fn failures(&self) -> u64
        ensures { result ≡ failed self.now };
}

/// A sink of bytes that counts its failed calls.
pub trait Sink {
    /// The bytes that the sink holds, if they are known.
    ghost contents: { Self → Option (List ℕ) };

    /// The identity of a borrowed device, which no call changes.
    ghost name: { Self → ℕ } = { λ _. 0 };

    /// The number of failed calls, up to `u64::MAX`.
    ghost failed: { Self → ℕ };

    /// Writes some bytes, and at least one unless the buffer is empty. A failed call counts once
    /// and writes no bytes.
    fn write(&mut self, buf: &[u8]) -> Result<usize, Failed>
        ensures bound { WritesAtMost result buf.now }
        ensures some { IfOk result (λ n. 0 < length buf.now → 0 < n) }
        ensures bytes { WriteAppends (contents self.old) (contents self.new) result buf.now }
        ensures counts { Counts result (failed self.old) (failed self.new) }
        ensures same_device { name self.new ≡ name self.old };

    /// Returns the number of failed calls, up to `u64::MAX`.
    fn failures(&self) -> u64
        ensures { result ≡ failed self.now };
}

/// Reads once, and retries if a signal interrupts the read.
///
/// # Errors
///
/// The reader returned an error other than `Interrupted`.
pub fn read_again<R: Read>(reader: &mut R, buf: &mut [u8]) -> io::Result<usize>
    ensures bound { ReadsAtMost result buf.new }
    ensures bytes { ReadConsumes (R.remaining reader.old) (R.remaining reader.new) result buf.new }
    ensures retried { IfErr result (λ e. error_kind e ≢ ErrorKind.Interrupted) }
{
    // a bound, so that the function is proved to return
    for _ in 0..u64::MAX {
        match reader.read(buf) {
            Ok(n) => return Ok(n),
            Err(e) => {
                if e.kind() != ErrorKind::Interrupted {
                    return Err(e);
                }
            }
        }
    }
    Err(io::Error::from(ErrorKind::Other))
}

/// Writes once, and retries if a signal interrupts the write.
///
/// # Errors
///
/// The writer returned an error other than `Interrupted`.
pub fn write_again<W: Write>(writer: &mut W, buf: &[u8]) -> io::Result<usize>
    ensures bound { WritesAtMost result buf.now }
    ensures bytes { WriteAppends (W.contents writer.old) (W.contents writer.new) result buf.now }
    ensures retried { IfErr result (λ e. error_kind e ≢ ErrorKind.Interrupted) }
{
    // a bound, so that the function is proved to return
    for _ in 0..u64::MAX {
        match writer.write(buf) {
            Ok(n) => return Ok(n),
            Err(e) => {
                if e.kind() != ErrorKind::Interrupted {
                    return Err(e);
                }
            }
        }
    }
    Err(io::Error::from(ErrorKind::Other))
}

/// Reads once, and adds 1 to the count if the read fails.
fn read_counted<R: Read>(
    reader: &mut R,
    failures: &mut u64,
    buf: &mut [u8],
) -> Result<usize, Failed>
    ensures bound { ReadsAtMost result buf.new }
    ensures bytes { ReadConsumes (R.remaining reader.old) (R.remaining reader.new) result buf.new }
    ensures counts { Counts result failures.old failures.new }
{
    match read_again(reader, buf) {
        Ok(n) => Ok(n),
        Err(_) => {
            *failures = failures.saturating_add(1);
            Err(Failed)
        }
    }
}

/// Writes once, and adds 1 to the count if the write fails or takes no byte of a non-empty buffer.
fn write_counted<W: Write>(writer: &mut W, failures: &mut u64, buf: &[u8]) -> Result<usize, Failed>
    ensures bound { WritesAtMost result buf.now }
    ensures some { IfOk result (λ n. 0 < length buf.now → 0 < n) }
    ensures bytes { WriteAppends (W.contents writer.old) (W.contents writer.new) result buf.now }
    ensures counts { Counts result failures.old failures.new }
{
    match write_again(writer, buf) {
        Ok(n) if n > 0 || buf.is_empty() => Ok(n),
        _ => {
            *failures = failures.saturating_add(1);
            Err(Failed)
        }
    }
}

/// A reader or writer of std that counts its failed calls. It retries a call that a signal
/// interrupts. Any other error is `Failed`, and so is a write that takes no byte of a non-empty
/// buffer.
#[derive(Drop)]
pub struct Counted<T> {
    inner: T,
    failures: u64,
}

impl<T> Model for Counted<T> {
    ghost use Rattle.portal_desk.specs.Kept.{Metered};

    ghost Value = { Metered T };

    ghost view = { λ counted. record { inner = counted.inner; failures = counted.failures } };
}

impl<T> Counted<T> {
    /// Wraps a reader or writer, and starts the count at 0.
    pub fn new(inner: T) -> Counted<T>
        ensures inner { result.inner ≡ inner }
        ensures none { result.failures ≡ 0 }
    {
        Counted { inner, failures: 0 }
    }

    /// Returns the reader or writer.
    pub fn into_inner(self) -> T
        ensures { result ≡ self.inner }
    {
        let Counted { inner, failures: _ } = self;
        inner
    }
}

impl<T: Read> Source for Counted<T> {
    ghost remaining = { λ c. T.remaining c.inner };

    ghost failed = { λ c. c.failures };

    fn read(&mut self, buf: &mut [u8]) -> Result<usize, Failed> {
        read_counted(&mut self.inner, &mut self.failures, buf)
    }

    fn failures(&self) -> u64 {
        self.failures
    }
}

impl<T: Write> Sink for Counted<T> {
    ghost contents = { λ c. T.contents c.inner };

    ghost failed = { λ c. c.failures };

    fn write(&mut self, buf: &[u8]) -> Result<usize, Failed> {
        write_counted(&mut self.inner, &mut self.failures, buf)
    }

    fn failures(&self) -> u64 {
        self.failures
    }
}

/// A `Counted` over a borrowed reader or writer, of which contracts say that it stays the same one.
#[derive(Drop)]
pub(crate) struct Borrowed<'a, T> {
    device: &'a mut T,
    failures: u64,
}

impl<'a, T> Borrowed<'a, T> {
    /// Borrows a reader or writer, and starts the count of failed calls at 0.
    pub(crate) fn new(device: &'a mut T) -> Borrowed<'a, T>
        ensures same_device { result.device.ghost_name ≡ device.entry.ghost_name }
        ensures device { result.device.now ≡ device.old }
    {
        Borrowed {
            device,
            failures: 0,
        }
    }
}

impl<'a, T: Read> Source for Borrowed<'a, T> {
    ghost remaining = { λ borrowed. T.remaining borrowed.device.now };

    ghost name = { λ borrowed. borrowed.device.ghost_name };

    ghost failed = { λ borrowed. borrowed.failures };

    fn read(&mut self, buf: &mut [u8]) -> Result<usize, Failed> {
        read_counted(&mut *self.device, &mut self.failures, buf)
    }

    fn failures(&self) -> u64 {
        self.failures
    }
}

impl<'a, T: Write> Sink for Borrowed<'a, T> {
    ghost contents = { λ borrowed. T.contents borrowed.device.now };

    ghost name = { λ borrowed. borrowed.device.ghost_name };

    ghost failed = { λ borrowed. borrowed.failures };

    fn write(&mut self, buf: &[u8]) -> Result<usize, Failed> {
        write_counted(&mut *self.device, &mut self.failures, buf)
    }

    fn failures(&self) -> u64 {
        self.failures
    }
}

/// Writes all the bytes to a sink, by calls of `Sink::write`. On failure it has written a proper
/// prefix of them.
pub(crate) fn write_whole<W: Sink>(sink: &mut W, bytes: &[u8]) -> Result<(), Failed>
    ensures whole { OnOk result (Appends (W.contents sink.old) (W.contents sink.new) bytes.now) }
    ensures part { OnErr result ((k : ℕ) × (k < length bytes.now)
        × Appends (W.contents sink.old) (W.contents sink.new) (take k bytes.now)) }
    ensures counts { OnErr result (FailsAfter (W.failed sink.old) (W.failed sink.new)) }
    ensures calm { OnOk result (W.failed sink.new ≡ W.failed sink.old) }
    ensures same_device { W.name sink.new ≡ W.name sink.old }
{
    let mut at = 0;
    while at < bytes.len() {
        let (_, rest) = bytes.split_at(at);
        at += sink.write(rest)?;
    }
    Ok(())
}
