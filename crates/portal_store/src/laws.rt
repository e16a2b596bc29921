//! Laws: tables after a crash can be opened or upgraded; stores in memory stay clean.

ghost use Rattle.portal_store.specs.Kept.{DiskInMemory, LastsInMemory, UnbrokenInMemory};
ghost use Rattle.portal_store.specs.Crash.{OpensAgain, OpensFresh, UpgradesAgain};

/// Law: a crash in a change leaves the portal's own tables with a good world. It is the world
/// before or after the change. `Store::open` then fails only for a fault of the store or memory
/// shortage.
pub fn opens_again()
    ensures { OpensAgain }
{}

/// Law: what `Store::create` makes opens with the empty world in setup. So does what a crash in it
/// leaves, once the tables exist.
pub fn opens_fresh()
    ensures { OpensFresh }
{}

/// Law: a crash in `Store::upgrade` leaves tables of version 1 or 2 with the same good world as
/// before. `upgrade` or `open`, respectively, then fails only for a fault of the store or memory
/// shortage.
pub fn upgrades_again()
    ensures { UpgradesAgain }
{}

/// Law: a call that ensures `Lasts` keeps a clean store in memory clean.
pub fn lasts_in_memory()
    ensures { LastsInMemory }
{}

/// Law: the disk of a store in memory is always clean, because there is none.
pub fn disk_in_memory()
    ensures { DiskInMemory }
{}

/// Law: a store in memory is never broken.
pub fn unbroken_in_memory()
    ensures { UnbrokenInMemory }
{}
