//! Defines all queries, and runs them. Each query reads one table.

ghost use Rattle.std.specs.Prelude.{◌≡◌, ◌⊎◌, IfErr};
ghost use Rattle.portal_tables.specs.inner.Base.{Err, HasCleanDisk, IfOk, List};
ghost use Rattle.portal_tables.specs.inner.Base.{AllByRecursion, Cells, bound, state};
ghost use Rattle.portal_tables.specs.inner.Decoding.{ShowsAs, FindsAny};
ghost use Rattle.portal_tables.specs.inner.Queries.{QueryShows, round_asked};
ghost use Rattle.portal_tables.specs.QueryTexts.{query_text, given};
ghost use Rattle.portal_tables.specs.QueryTexts as texts;
ghost use Rattle.portal_tables.specs.Steps.{HasAnswer, HasRefusal, IsStoreError};
ghost use Rattle.portal_tables.specs.Reads.{Always, GivesOrFails, Blames, Reads, ReadsOr, Gives};
ghost use Rattle.portal_tables.specs.Reads.{IsOtherError};
ghost use Rattle.portal_tables.specs.inner.Shown.{as_list};

use crate::fault::TableFault;
use crate::reading::decode::FromCells;
use crate::sql::list_table::Lists;
use crate::sql::run;
use portal_rules::Round;
use sqlite::types::ValueRef;
use sqlite::{Alter, Connection, Error, Row};
use std::alloc::Global;
use std::slice;

/// The rolls, each with the columns that a query of it returns.
#[derive(Clone, Copy, Drop)]
pub enum RollTable {
    /// Key, name, code, capacity, and 1 if there is a ranking in the first round, otherwise 0.
    Lecturers,
    /// Key, lecturer, title and capacity.
    Projects,
    /// Key, name, code and assigned project.
    Students,
}

impl RollTable {
    /// Returns the query of the whole roll.
    fn whole_text(self) -> &'static str
        ensures { result.now ≡ texts.whole_text self }
    {
        match self {
            RollTable::Lecturers => {
                "SELECT key, name, code, capacity, ranked FROM lecturer ORDER BY key"
            }
            RollTable::Projects =>
                "SELECT key, lecturer, title, capacity FROM project ORDER BY key",
            RollTable::Students => "SELECT key, name, code, assigned FROM student ORDER BY key",
        }
    }
}

/// The tables that can have many rows.
#[derive(Clone, Copy, Drop)]
pub enum Table {
    OfRoll(RollTable),
    OfLists(Lists),
    /// The lecturers with a ranking in the second round.
    OfRanked,
    /// The result of the second round.
    OfPlaces,
}

impl Table {
    /// Returns the query of the table's rowids.
    fn numbers_text(self) -> &'static str
        ensures { result.now ≡ texts.numbers_text self }
    {
        match self {
            Table::OfRoll(RollTable::Lecturers) => "SELECT rowid FROM lecturer ORDER BY rowid",
            Table::OfRoll(RollTable::Projects) => "SELECT rowid FROM project ORDER BY rowid",
            Table::OfRoll(RollTable::Students) => "SELECT rowid FROM student ORDER BY rowid",
            Table::OfLists(Lists::Choices(Round::First)) => {
                "SELECT rowid FROM choice ORDER BY rowid"
            }
            Table::OfLists(Lists::Rankings(Round::First)) => {
                "SELECT rowid FROM ranking ORDER BY rowid"
            }
            Table::OfLists(Lists::Choices(Round::Second)) => {
                "SELECT rowid FROM choice2 ORDER BY rowid"
            }
            Table::OfLists(Lists::Rankings(Round::Second)) => {
                "SELECT rowid FROM ranking2 ORDER BY rowid"
            }
            Table::OfRanked => "SELECT rowid FROM ranked2 ORDER BY rowid",
            Table::OfPlaces => "SELECT rowid FROM assigned2 ORDER BY rowid",
        }
    }
}

/// The queries. Each reads one table and returns the columns that its doc names.
#[derive(Clone, Copy, Drop)]
pub enum Query<'a> {
    /// The row of the office: id, version, phase and code.
    Office,
    /// A whole roll, sorted by key, with all its columns.
    Whole(RollTable),
    /// The lecturers with this code, with all columns.
    LecturerByCode(&'a [u8]),
    /// The students with this code, with all columns.
    StudentByCode(&'a [u8]),
    /// The key of the lecturer with this key, if there is one.
    LecturerByKey(&'a [u8]),
    /// What a lecturer may see of the student with this key, if there is one: key, name and
    /// assigned project.
    StudentTold(&'a [u8]),
    /// All rows of a table of lists, in any order: owner, place and item.
    AllLists(Lists),
    /// One owner's list, sorted by place: place and item.
    ListOf(Lists, &'a [u8]),
    /// The keys of the students who list this project in a round, sorted.
    Choosers(Round, &'a [u8]),
    /// The keys of the students who have a list in a round, sorted: those with an item at place 1.
    Listed(Round),
    /// The keys of a lecturer's projects, sorted.
    ProjectsOf(&'a [u8]),
    /// The first round's result, sorted by student: key and assigned project, which is NULL if
    /// there is none.
    FirstPlacements,
    /// The row of the second round: id and phase.
    Second,
    /// The keys of the lecturers with a ranking in the second round, sorted.
    SecondRanked,
    /// The key of this lecturer, if the lecturer has a ranking in the second round.
    SecondRankedBy(&'a [u8]),
    /// The second round's result, sorted by student: student and project.
    SecondPlacements,
    /// The second round's result for this student, if there is one: student and project.
    SecondPlaceOf(&'a [u8]),
    /// The rowids of a table, sorted.
    Numbers(Table),
}

impl<'a> Query<'a> {
    /// Returns the SQL text of the query.
    fn text(self) -> &'static str
        ensures { result.now ≡ query_text self.entry }
    {
        match self {
            Query::Office => "SELECT id, version, phase, office FROM portal ORDER BY id",
            Query::Whole(roll) => roll.whole_text(),
            Query::LecturerByCode(_) => {
                "SELECT key, name, code, capacity, ranked FROM lecturer WHERE code = ?1 ORDER BY key"
            }
            Query::StudentByCode(_) => {
                "SELECT key, name, code, assigned FROM student WHERE code = ?1 ORDER BY key"
            }
            Query::LecturerByKey(_) => "SELECT key FROM lecturer WHERE key = ?1 ORDER BY key",
            Query::StudentTold(_) => {
                "SELECT key, name, assigned FROM student WHERE key = ?1 ORDER BY key"
            }
            Query::AllLists(lists) => lists.all_text(),
            Query::ListOf(lists, _) => lists.list_text(),
            Query::Choosers(Round::First, _) => {
                "SELECT student FROM choice WHERE project = ?1 ORDER BY student"
            }
            Query::Choosers(Round::Second, _) => {
                "SELECT student FROM choice2 WHERE project = ?1 ORDER BY student"
            }
            Query::Listed(Round::First) => {
                "SELECT student FROM choice WHERE place = 1 ORDER BY student"
            }
            Query::Listed(Round::Second) => {
                "SELECT student FROM choice2 WHERE place = 1 ORDER BY student"
            }
            Query::ProjectsOf(_) => "SELECT key FROM project WHERE lecturer = ?1 ORDER BY key",
            Query::FirstPlacements => "SELECT key, assigned FROM student ORDER BY key",
            Query::Second => "SELECT id, phase FROM second ORDER BY id",
            Query::SecondRanked => "SELECT lecturer FROM ranked2 ORDER BY lecturer",
            Query::SecondRankedBy(_) => {
                "SELECT lecturer FROM ranked2 WHERE lecturer = ?1 ORDER BY lecturer"
            }
            Query::SecondPlacements => "SELECT student, project FROM assigned2 ORDER BY student",
            Query::SecondPlaceOf(_) => {
                "SELECT student, project FROM assigned2 WHERE student = ?1 ORDER BY student"
            }
            Query::Numbers(table) => table.numbers_text(),
        }
    }

    /// Returns the parameter of the query, if it has one.
    fn value(self) -> Option<ValueRef<'a>>
        ensures { bound (as_list result) ≡ given self.entry }
    {
        match self {
            Query::LecturerByCode(key)
            | Query::StudentByCode(key)
            | Query::LecturerByKey(key)
            | Query::StudentTold(key)
            | Query::ListOf(_, key)
            | Query::Choosers(_, key)
            | Query::ProjectsOf(key)
            | Query::SecondRankedBy(key)
            | Query::SecondPlaceOf(key) => Some(ValueRef::Text(key)),
            _ => None,
        }
    }
}

/// Returns the parameter of a query as a slice, which is empty without a parameter.
fn values<'a>(value: &'a Option<ValueRef<'a>>) -> &'a [ValueRef<'a>]
    ensures { result.now ≡ as_list value.now }
{
    match value {
        Some(value) => slice::from_ref(value),
        None => &[],
    }
}

/// Runs one of the queries and returns its rows, or the connection's own error. Under any schema,
/// the rows are what the query's text shows there, and an error that is not the store's is the
/// text's: in the same state, the query would show them, or fail with it, again.
pub fn read<S: Alter>(conn: &mut Connection<S>, query: Query<'_>) -> Result<Vec<Row>, Error>
    ensures reads { ReadsOr IsOtherError (round_asked query.entry) S.Store Always
        (Gives (λ db rows. QueryShows query.entry db.trees rows.items)) result conn.old conn.new }
    ensures answers { HasCleanDisk (state S.Store conn.new)
        → IfOk result (λ rows. HasAnswer query.entry (state S.Store conn.old) rows.items) }
    ensures fails { HasCleanDisk (state S.Store conn.new)
        → IfErr result (λ e. IsStoreError e ⊎ HasRefusal query.entry (state S.Store conn.old) e) }
{
    conn.query_all(query.text(), values(&query.value()))
}

/// Runs one of the queries and decodes each row as it is read. Stops at the first fault: an error
/// of the store, or a row that decoding refuses.
pub fn read_each<S: Alter, T: FromCells>(
    alloc: Global,
    conn: &mut Connection<S>,
    query: Query<'_>,
) -> Result<Vec<T>, TableFault>
    ensures reads { Reads (round_asked query.entry) S.Store Always
        (GivesOrFails (λ db v. ShowsAs T.shown (QueryShows query.entry db.trees) v.items)
        (λ db fault. Blames fault ((rows : List Cells) → QueryShows query.entry db.trees rows
        → AllByRecursion T.is_fine rows))) result conn.old conn.new }
    ensures undamaged { result ≡ Err TableFault.Damaged → ((c : Cells) → T.is_fine c) → ⊥ }
{
    run::query_each(alloc, conn, query.text(), values(&query.value()))
}

/// Runs one of the queries and returns copies of its rows. Never fails with `Damaged`.
pub fn read_rows<S: Alter>(
    alloc: Global,
    conn: &mut Connection<S>,
    query: Query<'_>,
) -> Result<Vec<Row>, TableFault>
    ensures reads { Reads (round_asked query.entry) S.Store Always
        (Gives (λ db rows. QueryShows query.entry db.trees rows.items)) result conn.old conn.new }
    ensures undamaged { result ≡ Err TableFault.Damaged → ⊥ }
{
    read_each(alloc, conn, query)
}

/// Runs one of the queries and returns whether it finds any row. Reads at most one row.
pub fn finds_any<S: Alter>(conn: &mut Connection<S>, query: Query<'_>) -> Result<bool, Error>
    ensures { ReadsOr IsOtherError (round_asked query.entry) S.Store Always
        (Gives (λ db. FindsAny (QueryShows query.entry db.trees))) result conn.old conn.new }
{
    run::query_any(conn, query.text(), values(&query.value()))
}
