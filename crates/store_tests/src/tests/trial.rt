//! Simulates disks that stop at a write, or fail once.

ghost use Rattle.std.specs.Prelude.{◌≡◌, ◌+◌, ◌&&◌, not, false};
ghost use Rattle.sqlite_disk.specs.Disk.{CountsFault};
ghost use Rattle.sqlite_disk.specs.Refusal.{finds_no_room};

use sqlite_disk::{Disk, Tally};
use std::cell::Cell;
use std::io;

/// A kind of fault.
#[derive(Clone, Copy, Debug, PartialEq, Eq)]
pub(crate) enum Fault {
    /// The machine stops at a write, so all later calls fail.
    Stop,
    /// One write fails, and has no effect.
    Refusal,
    /// One write reports an error although its bytes are written. `set_len` and `sync` just fail.
    Doubt,
    /// One read fails.
    Read,
}

/// A plan of when the two files of a database fail. Their calls are counted together.
#[derive(Drop)]
pub(crate) struct Plan {
    fault: Fault,
    /// How many calls of the kind succeed before the one that fails. For `u64::MAX` none fails.
    left: Cell<u64>,
    came: Cell<bool>,
}

impl Plan {
    /// Makes a plan that causes no fault until it is armed.
    pub(crate) fn new(fault: Fault) -> Plan {
        Plan {
            fault,
            left: Cell::new(u64::MAX),
            came: Cell::new(false),
        }
    }

    /// Plans the fault after this many calls of its kind.
    pub(crate) fn arm(&self, calls: u64) {
        self.left.set(calls);
        self.came.set(false);
    }

    /// Returns whether the fault occurred.
    pub(crate) fn came(&self) -> bool {
        self.came.get()
    }

    /// Counts a call, and returns whether it fails.
    fn meets(&self, is_read: bool) -> bool {
        let stands = self.fault == Fault::Stop && self.came.get();
        let left = self.left.get();
        if stands || is_read != (self.fault == Fault::Read) || left == u64::MAX {
            return stands;
        }
        self.left.set(left.checked_sub(1).unwrap_or(u64::MAX));
        self.came.set(left == 0);
        left == 0
    }
}

/// A disk that fails as its plan says.
#[derive(Drop)]
pub(crate) struct Trial<'a, D: Disk> {
    inner: D,
    plan: &'a Plan,
    failures: u64,
    sync_failed: bool,
}

impl<'a, D: Disk> Trial<'a, D> {
    pub(crate) fn new(inner: D, plan: &'a Plan) -> Trial<'a, D> {
        Trial {
            inner,
            plan,
            failures: 0,
            sync_failed: false,
        }
    }

    /// Returns the disk inside, which does not fail by the plan.
    pub(crate) fn into_inner(self) -> D {
        let Trial {
            inner,
            plan: _,
            failures: _,
            sync_failed: _,
        } = self;
        inner
    }
}

/// Returns an error, and counts it, if the plan makes this call fail.
fn pass(plan: &Plan, is_read: bool, failures: &mut u64) -> io::Result<()>
    ensures faults { CountsFault result failures.old failures.new }
    ensures kind { finds_no_room result ≡ false }
{
    if plan.meets(is_read) {
        *failures = failures.saturating_add(1);
        return Err(io::Error::other("a fault"));
    }
    Ok(())
}

impl<'a, D: Disk> Disk for Trial<'a, D> {
    ghost seen = { λ t. D.Disk.seen t.inner };

    ghost may_leave = { λ t. D.Disk.may_leave t.inner };

    ghost is_usable = { λ t. D.Disk.is_usable t.inner && not t.sync_failed };

    ghost faults = { λ t. D.Disk.faults t.inner + t.failures };

    ghost tally_of = { λ t. D.Disk.tally_of t.inner };

    ghost is_rotten = { λ t. D.Disk.is_rotten t.inner };

    ghost key_of = { λ t. D.Disk.key_of t.inner };

    ghost is_clean = { λ t. D.Disk.is_clean t.inner };

    ghost is_fair = { λ t. D.Disk.is_fair t.inner };

    ghost fair_if_clean = { λ t. D.Disk.fair_if_clean t.inner };

    ghost seen_may_stay = { λ t. D.Disk.seen_may_stay t.inner };

    ghost is_mixing = { λ t. D.Disk.is_mixing t.inner };

    fn mixes(&self) -> bool {
        self.inner.mixes()
    }

    fn key(&self) -> u64 {
        self.inner.key()
    }

    fn tally(&self) -> Tally {
        self.inner.tally()
    }

    fn may_be_used(&self) -> bool {
        self.inner.may_be_used() && !self.sync_failed
    }

    fn len(&mut self) -> io::Result<usize> {
        pass(self.plan, true, &mut self.failures)?;
        self.inner.len()
    }

    fn read_at(&mut self, at: usize, buf: &mut [u8]) -> io::Result<()> {
        pass(self.plan, true, &mut self.failures)?;
        self.inner.read_at(at, buf)
    }

    fn read_checked(&mut self, key: u64, want: u64, at: usize, buf: &mut [u8]) -> io::Result<()> {
        pass(self.plan, true, &mut self.failures)?;
        self.inner.read_checked(key, want, at, buf)
    }

    fn write_at(&mut self, at: usize, bytes: &[u8]) -> io::Result<()> {
        if self.plan.fault == Fault::Doubt {
            self.inner.write_at(at, bytes)?;
            return pass(self.plan, false, &mut self.failures);
        }
        pass(self.plan, false, &mut self.failures)?;
        self.inner.write_at(at, bytes)
    }

    fn set_len(&mut self, len: usize) -> io::Result<()> {
        pass(self.plan, false, &mut self.failures)?;
        self.inner.set_len(len)
    }

    fn sync(&mut self) -> io::Result<()> {
        if let Err(error) = pass(self.plan, false, &mut self.failures) {
            self.sync_failed = true;
            return Err(error);
        }
        self.inner.sync()
    }
}
