//! Simulates a clock, and a caller who acts by it.

ghost use Rattle.std.specs.Prelude.{[], ◌∷◌, None};
ghost use Rattle.portal_serve.specs.Streams.{ServesInTurn};

use portal_core::Keeper;
use portal_desk::Desk;
use portal_serve::{Outcome, TimedRead, TimedWrite, serve_one};
use std::alloc::Global;
use std::cell::Cell;
use std::io;
use std::io::{ErrorKind, Read};
use std::time::{Clock, Duration};

/// A request of an unknown caller, whose reply has 99 bytes.
pub(crate) const ME: &str = "GET /me HTTP/1.1\r\nHost: h\r\n\r\n";

/// A clock that moves only during waits.
#[derive(Drop)]
pub(crate) struct TestClock {
    seconds: Cell<u64>,
}

impl TestClock {
    pub(crate) fn new() -> TestClock {
        TestClock {
            seconds: Cell::new(0),
        }
    }

    /// Returns how many seconds have passed.
    pub(crate) fn seconds(&self) -> u64 {
        self.seconds.get()
    }

    /// Waits this many seconds. If the timeout is shorter, waits for it and returns an error.
    fn wait(&self, seconds: u64, timeout: Duration) -> io::Result<()> {
        let most = timeout.as_secs();
        let waited = seconds.min(most);
        self.seconds.set(self.seconds.get().saturating_add(waited));
        if seconds > most {
            return Err(io::Error::from(ErrorKind::WouldBlock));
        }
        Ok(())
    }
}

impl Clock for TestClock {
    fn monotonic(&self) -> io::Result<Duration> {
        Ok(Duration::from_secs(self.seconds.get()))
    }

    fn since_1970(&self) -> io::Result<Duration> {
        self.monotonic()
    }
}

/// An event that the server meets when it reads.
#[derive(Clone, Copy)]
pub(crate) enum Act {
    /// The caller sends this.
    Sends(&'static str),
    /// A signal interrupts the wait.
    Signal,
    /// The caller sends no more.
    Ends,
}

/// How a caller reads replies.
#[derive(Clone, Copy)]
pub(crate) struct Pace {
    /// How many bytes at a time.
    pub(crate) bytes: usize,
    /// How many seconds each read takes.
    pub(crate) seconds: u64,
    /// How many signals interrupt the first write, each after this time.
    pub(crate) signals: u64,
}

/// The pace of a caller who reads everything at once.
pub(crate) const PROMPT: Pace = Pace {
    bytes: 4_096,
    seconds: 0,
    signals: 0,
};

/// Returns the pace of these numbers.
pub(crate) fn pace_of(bytes: usize, seconds: u64, signals: u64) -> Pace {
    Pace {
        bytes,
        seconds,
        signals,
    }
}

/// A caller whose acts come each after some seconds of waiting, followed by silence.
#[derive(Drop)]
pub(crate) struct Caller<'a> {
    clock: &'a TestClock,
    acts: &'a [(u64, Act)],
    pace: Pace,
    /// How many acts the server has met. `Ends` is not counted.
    met: Cell<usize>,
    /// How many signals are still to come.
    signals: Cell<u64>,
    /// How many bytes of replies the caller has read.
    taken: Cell<usize>,
}

impl<'a> Caller<'a> {
    pub(crate) fn new(clock: &'a TestClock, acts: &'a [(u64, Act)], pace: Pace) -> Caller<'a> {
        Caller {
            clock,
            acts,
            pace,
            met: Cell::new(0),
            signals: Cell::new(pace.signals),
            taken: Cell::new(0),
        }
    }

    /// How many bytes of replies the caller has read.
    pub(crate) fn taken(&self) -> usize {
        self.taken.get()
    }

    /// Returns the next act, and the seconds until it. Silence is an end that never comes.
    fn next_act(&self) -> (u64, Act) {
        match self.acts.get(self.met.get()) {
            Some(act) => *act,
            None => (u64::MAX, Act::Ends),
        }
    }

    /// Counts an act as met.
    fn meet(&self) {
        self.met.set(self.met.get().saturating_add(1));
    }
}

/// What a caller sends.
#[derive(Drop)]
struct Mouth<'a> {
    caller: &'a Caller<'a>,
}

impl<'a> TimedRead for Mouth<'a> {
    fn read_within(&mut self, buf: &mut [u8], timeout: Duration) -> io::Result<usize> {
        let caller = self.caller;
        let (seconds, act) = caller.next_act();
        caller.clock.wait(seconds, timeout)?;
        match act {
            Act::Sends(text) => {
                caller.meet();
                let mut bytes = text.as_bytes();
                bytes.read(buf)
            }
            Act::Signal => {
                caller.meet();
                Err(io::Error::from(ErrorKind::Interrupted))
            }
            Act::Ends => Ok(0),
        }
    }
}

/// What a caller takes.
#[derive(Drop)]
struct Ear<'a> {
    caller: &'a Caller<'a>,
}

impl<'a> TimedWrite for Ear<'a> {
    fn write_within(&mut self, buf: &[u8], timeout: Duration) -> io::Result<usize> {
        let caller = self.caller;
        caller.clock.wait(caller.pace.seconds, timeout)?;
        let signals = caller.signals.get();
        if signals > 0 {
            caller.signals.set(signals.saturating_sub(1));
            return Err(io::Error::from(ErrorKind::Interrupted));
        }
        let n = buf.len().min(caller.pace.bytes);
        caller.taken.set(caller.taken.get().saturating_add(n));
        Ok(n)
    }

    fn end_writing(&mut self) -> io::Result<()> {
        Ok(())
    }
}

/// Serves a caller on a desk, and returns the outcome.
pub(crate) fn serve<'a, K: Keeper>(
    alloc: Global,
    caller: &'a Caller<'a>,
    desk: &mut Desk<K>,
) -> Outcome
    ensures { ServesInTurn K.state desk.old desk.new None None (result ∷ []) }
{
    let mut mouth = Mouth { caller: &*caller };
    let mut ear = Ear { caller: &*caller };
    serve_one(&(caller.clock, alloc), &mut mouth, &mut ear, desk)
}
