//! Fills the missing rankings in the database, in one transaction.

ghost use Rattle.std.specs.Prelude.{◌≡◌, false, List, map};
ghost use Rattle.sqlite.specs.Held.{state};
ghost use Rattle.portal_rules.specs.Words as words;
ghost use Rattle.portal_rules.specs.World.{Fill};
ghost use Rattle.portal_tables.specs.Tables.{IsCurrentSchema};
ghost use Rattle.portal_store.specs.inner.Keeping.{IsTransitionIn};
ghost use Rattle.portal_store.specs.inner.Ending.{CommitsChange};
ghost use Rattle.portal_store.specs.inner.Putting.{TurnsAll};
ghost use Rattle.portal_store.specs.inner.Reading.{KeepsEntries};

use crate::changing::lists::PutRanking;
use crate::reading::load::load_entries;
use portal_list::Entries;
use portal_rules::Round;
use portal_tables::{TableChange, TableFault, commit, outside_transaction};
use spa_rows::Key;
use sqlite::{Alter, Connection, Error, Transaction};
use std::alloc::Global;

/// The step that stores each of these rankings as its lecturer's.
struct PutRankings<'a> {
    round: Round,
    rankings: &'a [(Key, Vec<Key>)],
}

impl TableChange for PutRankings<'_> {
    ghost makes = { λ s. TurnsAll s.round
        (map {B = words.Key × List words.Key} (λ f. (f.0, f.1.items)) s.rankings.now) };

    fn take<S: Alter>(self, alloc: Global, tx: &mut Transaction<'_, S>) -> Result<(), Error> {
        let PutRankings { round, rankings } = self;
        for ranking in rankings {
            let put = PutRanking {
                round,
                lecturer: &ranking.0,
                students: &ranking.1,
            };
            put.take(alloc, tx)?;
        }
        Ok(())
    }
}

/// Fills the missing rankings in the database, in one transaction. Each lecturer who is still to
/// rank gets a ranking of the applicants in key order. Caches the entries that it reads. `Damaged`
/// means that the rows it read represent no good world.
pub(crate) fn fill_rankings<S: Alter>(
    alloc: Global,
    conn: &mut Connection<S>,
    entries: &mut Option<Entries>,
    round: Round,
) -> Result<(), TableFault>
    requires idle { conn.old.in_transaction ≡ false }
    ensures ends { CommitsChange (IsTransitionIn round Fill) result (state S.Store conn.old)
        (state S.Store conn.new) }
    ensures entries { IsCurrentSchema conn.old.schema
        → KeepsEntries entries.old entries.new (state S.Store conn.old) (state S.Store conn.new) }
{
    outside_transaction(conn);
    let read = load_entries(alloc, conn)?;
    let rankings = read.fills(alloc)?;
    *entries = Some(read);
    commit(
        alloc,
        conn,
        PutRankings {
            round,
            rankings: &rankings,
        },
    )
}
