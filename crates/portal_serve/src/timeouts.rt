//! Reads and writes a connection within timeouts, and closes it gracefully.

ghost use Rattle.std.specs.Prelude.{◌≡◌, ℕ, List, Option, None};
ghost use Rattle.std.specs.Io.{ReadsAtMost, WritesAtMost};
ghost use Rattle.std.specs.Io.KnownBytes.{Keeps, ReadConsumes, WriteAppends};
ghost use Rattle.portal_serve.specs.Streams.{Drops, dropped_after, dropped_limit};

use crate::server::has_own_fault;
use portal_desk::{Failed, ServeFault, Served, Sink, Source};
use portal_wire::LONGEST_REQUEST;
use std::cell::Cell;
use std::io;
use std::io::{ErrorKind, Read, Write};
use std::net::{Shutdown, TcpStream};
use std::time::{Clock, Duration, Instant};

/// How many seconds a connection may be silent.
const SILENCE: u64 = 30;

/// How many seconds a request may take from its first byte on, and how many its reply may take.
const WHOLE: u64 = 60;

/// How many seconds after its first read a connection still reads requests.
const LONGEST: u64 = 300;

/// How many seconds a client may be silent while its last bytes are dropped.
const CLOSING_SILENCE: u64 = 5;

/// The number of dropped bytes after which a connection closes.
const DROPPED: usize = LONGEST_REQUEST;

/// The most bytes that one read drops.
const PIECE: usize = 4096;

/// The reading half of a stream, whose reads have timeouts.
pub trait TimedRead {
    /// The bytes that are left, if they are known.
    ghost remaining: { Self → Option (List ℕ) } = { λ _. None };

    /// Reads some bytes, and none only at the end or into an empty buffer. A failed call consumes
    /// no bytes.
    ///
    /// # Errors
    ///
    /// No byte came within the timeout, a signal interrupted the wait, or the stream failed.
    fn read_within(&mut self, buf: &mut [u8], timeout: Duration) -> io::Result<usize>
        ensures bound { ReadsAtMost result buf.new }
        ensures bytes { ReadConsumes (remaining self.old) (remaining self.new) result buf.new };
}

/// The writing half of a stream, whose writes have timeouts.
pub trait TimedWrite {
    /// The bytes that the stream holds, if they are known.
    ghost contents: { Self → Option (List ℕ) } = { λ _. None };

    /// Writes some bytes. A failed call writes none.
    ///
    /// # Errors
    ///
    /// No byte was taken within the timeout, a signal interrupted the wait, or the stream failed.
    fn write_within(&mut self, buf: &[u8], timeout: Duration) -> io::Result<usize>
        ensures bound { WritesAtMost result buf.now }
        ensures bytes { WriteAppends (contents self.old) (contents self.new) result buf.now };

    /// Shuts down this half of the stream.
    ///
    /// # Errors
    ///
    /// The stream failed.
    fn end_writing(&mut self) -> io::Result<()>
        ensures { Keeps (contents self.old) (contents self.new) };
}

impl TimedRead for &TcpStream {
    fn read_within(&mut self, buf: &mut [u8], timeout: Duration) -> io::Result<usize> {
        self.set_read_timeout(Some(timeout))?;
        let mut stream = *self;
        stream.read(buf)
    }
}

impl TimedWrite for &TcpStream {
    fn write_within(&mut self, buf: &[u8], timeout: Duration) -> io::Result<usize> {
        self.set_write_timeout(Some(timeout))?;
        let mut stream = *self;
        stream.write(buf)
    }

    fn end_writing(&mut self) -> io::Result<()> {
        self.shutdown(Shutdown::Write)
    }
}

/// The times from which a connection's timeouts count, for its reader and its writer.
#[derive(Drop)]
pub(crate) struct Times<'a, T: Clock> {
    clock: &'a T,
    /// When the connection was first read from.
    began: Cell<Option<Instant>>,
    /// When the first byte of the unanswered request came, or the earliest time when it may have.
    asked: Cell<Option<Instant>>,
    /// When writing began after the last byte was read; `None` if nothing was written since.
    told: Cell<Option<Instant>>,
}

/// Makes the error for a read or write of a connection whose time is over.
fn too_late() -> io::Error {
    io::Error::from(ErrorKind::TimedOut)
}

/// Returns what is left of `seconds` since `began`, or all of them if `began` is `None`.
fn time_left(began: Option<Instant>, now: Instant, seconds: u64) -> io::Result<Duration> {
    let Some(began) = began else {
        return Ok(Duration::from_secs(seconds));
    };
    match Duration::from_secs(seconds).checked_sub(now.duration_since(began)) {
        Some(left) if !left.is_zero() => Ok(left),
        _ => Err(too_late()),
    }
}

impl<'a, T: Clock> Times<'a, T> {
    /// Makes the times of a connection, none of which has begun.
    pub(crate) fn new(clock: &'a T) -> Times<'a, T> {
        Times {
            clock,
            began: Cell::new(None),
            asked: Cell::new(None),
            told: Cell::new(None),
        }
    }

    /// Reads the clock.
    fn now(&self) -> io::Result<Instant> {
        Instant::now(self.clock)
    }

    /// Returns how long a read that begins now may wait. It is the shortest of the allowed silence,
    /// the request's remaining time and the connection's remaining time.
    fn patience(&self, now: Instant) -> io::Result<Duration> {
        if self.began.get().is_none() {
            self.began.set(Some(now));
        }
        let whole = time_left(self.asked.get(), now, WHOLE)?;
        let longest = time_left(self.began.get(), now, LONGEST)?;
        Ok(whole.min(longest).min(Duration::from_secs(SILENCE)))
    }

    /// Records that bytes of a request came, in a read that began at `earliest`. If a reply was
    /// written since the read before, the request's first bytes may have come before it. The
    /// request's time then starts with that reply.
    fn note_asked(&self, earliest: Instant) {
        let replied = self.told.get();
        self.told.set(None);
        if self.asked.get().is_none() {
            let began = match replied {
                Some(then) => then,
                None => self.now().unwrap_or(earliest),
            };
            self.asked.set(Some(began));
        }
    }

    /// Records that bytes of a reply are about to be written, and returns how long that may take.
    fn reply_patience(&self) -> io::Result<Duration> {
        let now = self.now()?;
        self.asked.set(None);
        if self.told.get().is_none() {
            self.told.set(Some(now));
        }
        time_left(self.told.get(), now, WHOLE)
    }

    /// Returns how long a read of dropped bytes may wait; dropping started at `closing`.
    fn closing_patience(&self, closing: Instant, now: Instant) -> io::Result<Duration> {
        let whole = time_left(Some(closing), now, WHOLE)?;
        let longest = time_left(self.began.get(), now, LONGEST)?;
        Ok(whole.min(longest).min(Duration::from_secs(CLOSING_SILENCE)))
    }
}

/// The reader of a connection; each read waits no longer than the times allow.
#[derive(Drop)]
pub(crate) struct ConnectionReader<'a, T: Clock, R> {
    pub(crate) times: &'a Times<'a, T>,
    pub(crate) stream: &'a mut R,
    /// When the connection began to close; `None` if it is open.
    pub(crate) closing: Option<Instant>,
    pub(crate) failures: u64,
}

impl<'a, T: Clock, R: TimedRead> ConnectionReader<'a, T, R> {
    /// Reads once.
    fn read_once(&mut self, buf: &mut [u8]) -> io::Result<usize>
        ensures bound { ReadsAtMost result buf.new }
        ensures bytes { ReadConsumes (R.remaining self.old.stream.now)
            (R.remaining self.new.stream.now) result buf.new }
        ensures same_device { self.new.stream.ghost_name ≡ self.old.stream.ghost_name }
        ensures counts { self.new.failures ≡ self.old.failures }
    {
        let now = self.times.now()?;
        let most = match self.closing {
            None => self.times.patience(now)?,
            Some(closing) => self.times.closing_patience(closing, now)?,
        };
        let n = self.stream.read_within(buf, most)?;
        if n > 0 {
            self.times.note_asked(now);
        }
        Ok(n)
    }

    /// Reads once, and retries if a signal interrupts the read.
    fn read_again(&mut self, buf: &mut [u8]) -> io::Result<usize>
        ensures bound { ReadsAtMost result buf.new }
        ensures bytes { ReadConsumes (R.remaining self.old.stream.now)
            (R.remaining self.new.stream.now) result buf.new }
        ensures same_device { self.new.stream.ghost_name ≡ self.old.stream.ghost_name }
        ensures counts { self.new.failures ≡ self.old.failures }
    {
        // a bound, so that the function is proved to return
        for _ in 0..u64::MAX {
            match self.read_once(buf) {
                Ok(n) => return Ok(n),
                Err(e) => {
                    if e.kind() != ErrorKind::Interrupted {
                        return Err(e);
                    }
                }
            }
        }
        Err(io::Error::from(ErrorKind::Other))
    }

    /// Drops what arrives. Stops when the client closes or is silent for 5 seconds, after 60
    /// seconds or 1,064,960 bytes, or when the connection's time is over.
    fn drop_rest(&mut self) -> io::Result<()>
        ensures drops { Drops dropped_limit (R.remaining self.old.stream.now)
            (R.remaining self.new.stream.now) }
        ensures same_device { self.new.stream.ghost_name ≡ self.old.stream.ghost_name }
    {
        self.closing = Some(self.times.now()?);
        let mut piece = [0u8; PIECE];
        let mut room = DROPPED;
        while room > 0 {
            let most = room.min(PIECE);
            let n = self.read_again(&mut piece[..most])?;
            if n == 0 {
                return Ok(());
            }
            room -= n;
        }
        Ok(())
    }
}

impl<'a, T: Clock, R: TimedRead> Source for ConnectionReader<'a, T, R> {
    ghost remaining = { λ reader. R.remaining reader.stream.now };

    ghost name = { λ reader. reader.stream.ghost_name };

    ghost failed = { λ reader. reader.failures };

    fn read(&mut self, buf: &mut [u8]) -> Result<usize, Failed> {
        match self.read_again(buf) {
            Ok(n) => Ok(n),
            Err(_) => {
                self.failures = self.failures.saturating_add(1);
                Err(Failed)
            }
        }
    }

    fn failures(&self) -> u64 {
        self.failures
    }
}

/// The writer of a connection; each write waits no longer than the reply may take.
#[derive(Drop)]
pub(crate) struct ConnectionWriter<'a, T: Clock, W> {
    pub(crate) times: &'a Times<'a, T>,
    pub(crate) stream: &'a mut W,
    pub(crate) failures: u64,
}

impl<'a, T: Clock, W: TimedWrite> ConnectionWriter<'a, T, W> {
    /// Writes once, and retries if a signal interrupts the write.
    fn write_again(&mut self, buf: &[u8]) -> io::Result<usize>
        ensures bound { WritesAtMost result buf.now }
        ensures bytes { WriteAppends (W.contents self.old.stream.now)
            (W.contents self.new.stream.now) result buf.now }
        ensures same_device { self.new.stream.ghost_name ≡ self.old.stream.ghost_name }
        ensures counts { self.new.failures ≡ self.old.failures }
    {
        // a bound, so that the function is proved to return
        for _ in 0..u64::MAX {
            let most = self.times.reply_patience()?;
            match self.stream.write_within(buf, most) {
                Ok(n) => return Ok(n),
                Err(e) => {
                    if e.kind() != ErrorKind::Interrupted {
                        return Err(e);
                    }
                }
            }
        }
        Err(io::Error::from(ErrorKind::Other))
    }
}

impl<'a, T: Clock, W: TimedWrite> Sink for ConnectionWriter<'a, T, W> {
    ghost contents = { λ writer. W.contents writer.stream.now };

    ghost name = { λ writer. writer.stream.ghost_name };

    ghost failed = { λ writer. writer.failures };

    fn write(&mut self, buf: &[u8]) -> Result<usize, Failed> {
        match self.write_again(buf) {
            Ok(n) if n > 0 || buf.is_empty() => Ok(n),
            _ => {
                self.failures = self.failures.saturating_add(1);
                Err(Failed)
            }
        }
    }

    fn failures(&self) -> u64 {
        self.failures
    }
}

/// Closes a connection so that the last reply reaches the client. Closing it with unread bytes
/// would reset it, and a reply could be lost. So this shuts down writing and drops what arrives.
fn close<T: Clock, R: TimedRead, W: TimedWrite>(
    reader: &mut ConnectionReader<T, R>,
    writer: &mut ConnectionWriter<T, W>,
) -> io::Result<()>
    ensures drops { Drops dropped_limit (R.remaining reader.old.stream.now)
        (R.remaining reader.new.stream.now) }
    ensures keeps { Keeps (W.contents writer.old.stream.now) (W.contents writer.new.stream.now) }
    ensures same_reader { reader.new.stream.ghost_name ≡ reader.old.stream.ghost_name }
    ensures same_writer { writer.new.stream.ghost_name ≡ writer.old.stream.ghost_name }
{
    writer.stream.end_writing()?;
    reader.drop_rest()
}

/// Closes a connection that ended like this, unless by a fault of its own: else every reply was
/// written whole, also the 503 of a store fault.
pub(crate) fn close_after<T: Clock, R: TimedRead, W: TimedWrite>(
    ended: &Result<Served, ServeFault>,
    reader: &mut ConnectionReader<T, R>,
    writer: &mut ConnectionWriter<T, W>,
)
    ensures drops { Drops (dropped_after ended.now) (R.remaining reader.old.stream.now)
        (R.remaining reader.new.stream.now) }
    ensures keeps { Keeps (W.contents writer.old.stream.now) (W.contents writer.new.stream.now) }
    ensures same_reader { reader.new.stream.ghost_name ≡ reader.old.stream.ghost_name }
    ensures same_writer { writer.new.stream.ghost_name ≡ writer.old.stream.ghost_name }
{
    if has_own_fault(ended) {
        return;
    }
    let _ = close(reader, writer);
}
