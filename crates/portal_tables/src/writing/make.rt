//! Makes the portal's tables, and upgrades those of version 1.

ghost use Rattle.std.specs.Prelude.{◌≡◌};
ghost use Rattle.portal_tables.specs.inner.Base.{false, map, Err, OnOk, OnErr, IsTrue, HasCleanDisk};
ghost use Rattle.portal_tables.specs.inner.Base.{Survives, state};
ghost use Rattle.portal_tables.specs.Steps.{Commits, IsAfter, LeavesOnly, Stays};
ghost use Rattle.portal_tables.specs.Running.{Does, GoesOn};
ghost use Rattle.portal_tables.specs.Making.{Creates, Upgrades};
ghost use Rattle.portal_tables.specs.inner.MakingSteps.{Makes, MakesEach};

use crate::fault::TableFault;
use crate::reading::office::VERSION;
use crate::sql::insert::{add_portal, add_second};
use crate::sql::run::write;
use crate::sql::step::{TableChange, commit};
use crate::sql::update::set_version;
use sqlite::{Alter, Connection, Error, Transaction};
use std::alloc::Global;

/// The text that creates a table of lists; the columns of owner and item have the names of the rolls
/// that they refer to.
macro_rules! lists_text {
    ($name:literal, $owner:literal, $item:literal) => {
        concat!(
            "CREATE TABLE ",
            $name,
            " (",
            $owner,
            " TEXT NOT NULL REFERENCES ",
            $owner,
            " (key), place INTEGER NOT NULL, ",
            $item,
            " TEXT NOT NULL REFERENCES ",
            $item,
            " (key), PRIMARY KEY (",
            $owner,
            ", place), UNIQUE (",
            $item,
            ", ",
            $owner,
            ")) STRICT"
        )
    };
}

/// The texts that create the tables of the first round, in this order.
const FIRST: [&str; 6] = [
    "CREATE TABLE portal (id INTEGER NOT NULL PRIMARY KEY CHECK (id = 1), \
     version INTEGER NOT NULL, phase INTEGER NOT NULL, office TEXT NOT NULL) STRICT",
    "CREATE TABLE lecturer (key TEXT NOT NULL PRIMARY KEY, name TEXT NOT NULL, \
     code TEXT NOT NULL UNIQUE, \
     capacity INTEGER NOT NULL CHECK (capacity >= 1 AND capacity <= 200), \
     ranked INTEGER NOT NULL CHECK (ranked = 0 OR ranked = 1)) STRICT",
    "CREATE TABLE project (key TEXT NOT NULL PRIMARY KEY, \
     lecturer TEXT NOT NULL REFERENCES lecturer (key), title TEXT NOT NULL, \
     capacity INTEGER NOT NULL CHECK (capacity >= 1 AND capacity <= 200)) STRICT",
    "CREATE TABLE student (key TEXT NOT NULL PRIMARY KEY, name TEXT NOT NULL, \
     code TEXT NOT NULL UNIQUE, assigned TEXT REFERENCES project (key)) STRICT",
    lists_text!("choice", "student", "project"),
    lists_text!("ranking", "lecturer", "student"),
];

/// Those of the second round.
const SECOND: [&str; 5] = [
    "CREATE TABLE second (id INTEGER NOT NULL PRIMARY KEY CHECK (id = 1), \
     phase INTEGER NOT NULL CHECK (phase >= 0 AND phase <= 3)) STRICT",
    lists_text!("choice2", "student", "project"),
    "CREATE TABLE ranked2 (lecturer TEXT NOT NULL PRIMARY KEY REFERENCES lecturer (key)) STRICT",
    lists_text!("ranking2", "lecturer", "student"),
    "CREATE TABLE assigned2 (student TEXT NOT NULL PRIMARY KEY REFERENCES student (key), \
     project TEXT NOT NULL REFERENCES project (key)) STRICT",
];

/// Executes texts that create tables, one after another. The tables are empty.
fn make_each<S: Alter>(tx: &mut Transaction<'_, S>, texts: &[&str]) -> Result<(), Error>
    ensures { Does S.Store (GoesOn (MakesEach (map (λ t. t.now) texts.now))) result tx.old tx.new }
{
    for text in texts {
        write(tx, *text, &[])?;
    }
    Ok(())
}

/// Creates all the portal's tables, empty, in a database with an empty schema. After an error the
/// caller should drop the transaction to roll it back.
pub(crate) fn make_tables<S: Alter>(tx: &mut Transaction<'_, S>) -> Result<(), Error>
    ensures { Does S.Store (GoesOn Makes) result tx.old tx.new }
{
    make_each(tx, &FIRST)?;
    make_each(tx, &SECOND)
}

/// The step that creates the tables. Only `portal` and `second` get a row: the first holds this
/// office code, and the second says that there is no second round.
struct MakePortal<'a> {
    office: &'a [u8],
}

impl TableChange for MakePortal<'_> {
    ghost makes = { λ s. Creates s.office.now };

    fn take<S: Alter>(self, _alloc: Global, tx: &mut Transaction<'_, S>) -> Result<(), Error> {
        let MakePortal { office } = self;
        make_tables(tx)?;
        add_portal(tx, office)?;
        add_second(tx)
    }
}

/// Creates the portal's tables, with their rows in `portal` and `second`, in one transaction. After
/// an error nothing has changed, if the disk is clean and the connection still open. The fault is
/// never `Damaged`. After `Ok`, a crash leaves the new tables, if the disk is clean.
pub fn create_portal<S: Alter>(
    alloc: Global,
    conn: &mut Connection<S>,
    office: &[u8],
) -> Result<(), TableFault>
    requires idle { conn.old.in_transaction ≡ false }
    ensures idle { conn.new.in_transaction ≡ false }
    ensures ok { HasCleanDisk (state S.Store conn.new)
        → OnOk result (Commits (Creates office.now) (state S.Store conn.old)
        (state S.Store conn.new)) }
    ensures err { HasCleanDisk (state S.Store conn.new) → IsTrue (state S.Store conn.new).is_open
        → OnErr result (Stays (state S.Store conn.old) (state S.Store conn.new)) }
    ensures durable { HasCleanDisk (state S.Store conn.new)
        → OnOk result (LeavesOnly (state S.Store conn.new)) }
    ensures fault { result ≡ Err TableFault.Damaged → ⊥ }
    ensures crash { Survives (state S.Store conn.old) (state S.Store conn.new)
        (IsAfter (Creates office.now) (state S.Store conn.old)) }
{
    commit(alloc, conn, MakePortal { office })
}

/// The step that adds the second round's tables and the row of `second`, and sets the version.
#[derive(Drop)]
struct Upgrade;

impl TableChange for Upgrade {
    ghost makes = { λ _. Upgrades };

    fn take<S: Alter>(self, _alloc: Global, tx: &mut Transaction<'_, S>) -> Result<(), Error> {
        make_each(tx, &SECOND)?;
        add_second(tx)?;
        set_version(tx, VERSION)
    }
}

/// Adds the second round's tables to the six of version 1, in one transaction. In their rows only
/// the version changes. After an error nothing has changed, if the disk is clean and the connection
/// still open. The fault is never `Damaged`. If the disk is clean, a crash leaves version 1 or the
/// upgraded tables, and after `Ok` always the latter.
pub fn upgrade_tables<S: Alter>(alloc: Global, conn: &mut Connection<S>) -> Result<(), TableFault>
    requires idle { conn.old.in_transaction ≡ false }
    ensures idle { conn.new.in_transaction ≡ false }
    ensures ok { HasCleanDisk (state S.Store conn.new)
        → OnOk result (Commits Upgrades (state S.Store conn.old) (state S.Store conn.new)) }
    ensures err { HasCleanDisk (state S.Store conn.new) → IsTrue (state S.Store conn.new).is_open
        → OnErr result (Stays (state S.Store conn.old) (state S.Store conn.new)) }
    ensures durable { HasCleanDisk (state S.Store conn.new)
        → OnOk result (LeavesOnly (state S.Store conn.new)) }
    ensures fault { result ≡ Err TableFault.Damaged → ⊥ }
    ensures crash { Survives (state S.Store conn.old) (state S.Store conn.new)
        (IsAfter Upgrades (state S.Store conn.old)) }
{
    commit(alloc, conn, Upgrade)
}
