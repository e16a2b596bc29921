//! Tests the tables of the second round, and the upgrade of databases that lack them.

use crate::tests::tables::{
    CHOICES, Changes, Database, STUDENTS, are_apart, change, code, created, department, is_text,
    key, opened, put_key, put_keys, put_place, put_slash, reads, reads_rows, tells, value_of,
    write_list,
};
use portal_core::{LecturerView, Listing, OfficeView, Person, Phase, Round};
use portal_tables::sql::list_table::Lists;
use portal_tables::sql::names::{Names, is_there};
use portal_tables::sql::select::{Query, Table, read};
use portal_tables::{
    FIRST_VERSION, Office, PortalSchema, TableFault, VERSION, office_in, put_placements,
    rank_second, result_in, second_in, set_phase, upgrade_tables,
};
use portal_views::{catalogue_in, lecturer_view, office_view};
use spa_rows::Key;
use sqlite::Row;
use std::process::Abort;
use std::rc::Rc;

/// The first four tables of version 1, as a program of that version makes them.
const ROLLS: &str =
    "CREATE TABLE portal (id INTEGER NOT NULL PRIMARY KEY CHECK (id = 1), version INTEGER NOT NULL, phase INTEGER NOT NULL, office TEXT NOT NULL) STRICT; CREATE TABLE lecturer (key TEXT NOT NULL PRIMARY KEY, name TEXT NOT NULL, code TEXT NOT NULL UNIQUE, capacity INTEGER NOT NULL CHECK (capacity >= 1 AND capacity <= 200), ranked INTEGER NOT NULL CHECK (ranked = 0 OR ranked = 1)) STRICT; CREATE TABLE project (key TEXT NOT NULL PRIMARY KEY, lecturer TEXT NOT NULL REFERENCES lecturer (key), title TEXT NOT NULL, capacity INTEGER NOT NULL CHECK (capacity >= 1 AND capacity <= 200)) STRICT; CREATE TABLE student (key TEXT NOT NULL PRIMARY KEY, name TEXT NOT NULL, code TEXT NOT NULL UNIQUE, assigned TEXT REFERENCES project (key)) STRICT;";

/// The last table, which follows that of choices, and the rows of a small department.
const ROWS: &str =
    "CREATE TABLE ranking (lecturer TEXT NOT NULL REFERENCES lecturer (key), place INTEGER NOT NULL, student TEXT NOT NULL REFERENCES student (key), PRIMARY KEY (lecturer, place), UNIQUE (student, lecturer)) STRICT; INSERT INTO portal VALUES (1, 1, 2, 'office-code-1'); INSERT INTO lecturer VALUES ('L1', 'Lee', 'lee-code-1', 2, 0); INSERT INTO project VALUES ('P1', 'L1', 'Tides', 1); INSERT INTO student VALUES ('S1', 'Ann', 'ann-code-1', NULL); INSERT INTO choice VALUES ('S1', 1, 'P1');";

/// Makes a database of version 1. The text creates its table of choices.
fn of_version_1(rt: &(impl Abort + AllocGlobal), choices: &str) -> Database {
    let mut conn = opened(rt);
    conn.execute_batch(ROLLS).expect(rt, "tables");
    conn.execute(choices, &[]).expect(rt, "a table");
    conn.execute_batch(ROWS).expect(rt, "rows");
    conn
}

/// Upgrades the database, and checks rows of the old tables and the new ones.
fn is_upgraded(rt: &(impl Abort + AllocGlobal), conn: &mut Database) {
    assert!(rt; is_of_version(rt, conn, FIRST_VERSION));
    assert!(rt; conn.is_autocommit());
    assert!(rt; upgrade_tables(rt.alloc(), conn).is_ok());
    assert!(rt; !is_of_version(rt, conn, FIRST_VERSION));
    assert!(rt; is_of_version(rt, conn, VERSION));
    shows_upgraded(rt, conn);
}

fn is_of_version(rt: &impl AllocGlobal, conn: &mut Database, version: u32) -> bool {
    office_in(rt.alloc(), conn, version).is_ok()
}

/// Checks rows of the old tables and the new ones.
fn shows_upgraded(rt: &(impl Abort + AllocGlobal), conn: &mut Database) {
    reads(rt, conn, Query::Office, "1 2 2 office-code-1 /");
    reads(rt, conn, Query::Second, "1 0 /");
    reads(rt, conn, STUDENTS, "S1 Ann ann-code-1 - /");
    reads(rt, conn, CHOICES, "S1 1 P1 /");
    reads(rt, conn, Query::AllLists(Lists::Choices(Round::Second)), "");
}

#[test]
fn version_1_is_upgraded(rt: HostRuntime) {
    let pattern = PortalSchema::new(rt.alloc()).expect(&rt, "memory");
    let mut conn = of_version_1(
        &rt,
        "CREATE TABLE choice (student TEXT NOT NULL REFERENCES student (key), place INTEGER NOT NULL, project TEXT NOT NULL REFERENCES project (key), PRIMARY KEY (student, place), UNIQUE (project, student)) STRICT",
    );
    assert!(rt; pattern.fits_first(&conn));
    is_upgraded(&rt, &mut conn);
    assert!(rt; pattern.fits(&conn));
}

#[test]
fn the_order_in_a_rule_is_free(rt: HostRuntime) {
    let pattern = PortalSchema::new(rt.alloc()).expect(&rt, "memory");
    let mut conn = of_version_1(
        &rt,
        "CREATE TABLE choice (student TEXT NOT NULL REFERENCES student (key), place INTEGER NOT NULL, project TEXT NOT NULL REFERENCES project (key), PRIMARY KEY (student, place), UNIQUE (student, project)) STRICT",
    );
    assert!(rt; !pattern.fits_first(&conn));
    is_upgraded(&rt, &mut conn);
    assert!(rt; !pattern.fits(&conn));
}

#[test]
fn a_name_is_taken(rt: HostRuntime) {
    let mut conn = opened(&rt);
    assert!(rt; !is_there(conn.schema(), Names::All));
    conn.execute("CREATE TABLE Portal (a)", &[])
        .expect(&rt, "a table");
    assert!(rt; is_there(conn.schema(), Names::All));
    assert!(rt; !is_there(conn.schema(), Names::OfSecond));
    conn.execute("CREATE TABLE RANKED2 (a)", &[])
        .expect(&rt, "a table");
    assert!(rt; is_there(conn.schema(), Names::OfSecond));
}

/// Writes rows of the second round: a list, a ranking, who has one, and the phase.
fn write_second(rt: &(impl Abort + AllocGlobal), conn: &mut Database) {
    assert!(rt; conn.is_autocommit());
    let mut tx = conn.transaction();
    put_second(rt, &mut tx);
    tx.commit().expect(rt, "a commit");
}

fn put_second(rt: &(impl Abort + AllocGlobal), tx: &mut Changes<'_>) {
    write_list(rt, tx, Lists::Choices(Round::Second), b"S1", &[b"P1"]);
    write_list(
        rt,
        tx,
        Lists::Rankings(Round::Second),
        b"L1",
        &[b"S2", b"S1"],
    );
    rank_second(tx, b"L1").expect(rt, "a row");
    rank_second(tx, b"L1").expect(rt, "a row that is there");
    set_phase(tx, Round::Second, Phase::Ranking).expect(rt, "a phase");
}

#[test]
fn the_second_round_is_written(rt: HostRuntime) {
    let mut conn = department(&rt);
    write_second(&rt, &mut conn);
    reads(&rt, &mut conn, CHOICES, "S2 1 P1 /S1 1 P2 /S1 2 P1 /");
    let wanted = "S1 P1 /S2 /";
    tells(
        &rt,
        &mut conn,
        Lists::Choices(Round::Second),
        STUDENTS,
        wanted,
    );
    let (lists, owners) = (Lists::Rankings(Round::Second), Query::SecondRanked);
    tells(&rt, &mut conn, lists, owners, "L1 S2 S1 /");
    let phase = second_in(rt.alloc(), &mut conn);
    assert!(rt; matches!(phase, Ok(Phase::Ranking)));
    for lists in [
        Lists::Choices(Round::Second),
        Lists::Rankings(Round::Second),
    ] {
        are_apart(&rt, &mut conn, Table::OfLists(lists));
    }
    are_apart(&rt, &mut conn, Table::OfRanked);
    are_apart(&rt, &mut conn, Table::OfPlaces);
}

#[test]
fn no_second_round_is_told(rt: HostRuntime) {
    let mut conn = created(&rt);
    let phase = second_in(rt.alloc(), &mut conn);
    assert!(rt; matches!(phase, Ok(Phase::Setup)));
    conn.execute("DELETE FROM second", &[])
        .expect(&rt, "no row");
    let phase = second_in(rt.alloc(), &mut conn);
    assert!(rt; matches!(phase, Err(TableFault::Damaged)));
}

fn write_places(rt: &(impl Abort + AllocGlobal), conn: &mut Database, pairs: &[(Key, Key)]) {
    assert!(rt; conn.is_autocommit());
    let mut tx = conn.transaction();
    put_placements(rt.alloc(), &mut tx, pairs).expect(rt, "rows");
    tx.commit().expect(rt, "a commit");
}

#[test]
fn the_second_result_is_put(rt: HostRuntime) {
    let mut conn = department(&rt);
    let ann = (key(&rt, b"S1"), key(&rt, b"P1"));
    let bea = (key(&rt, b"S2"), key(&rt, b"P2"));
    write_places(&rt, &mut conn, &[ann, bea]);
    reads(&rt, &mut conn, Query::SecondPlacements, "S1 P1 /S2 P2 /");
    let one = [(key(&rt, b"S2"), key(&rt, b"P2"))];
    write_places(&rt, &mut conn, &one);
    reads_rows(&rt, &mut conn, Query::SecondPlaceOf(b"S1"), "");
    reads(&rt, &mut conn, Query::SecondPlacements, "S2 P2 /");
}

/// Returns the catalogue of the first round.
fn catalogue(rt: &(impl Abort + AllocGlobal), conn: &mut Database) -> Rc<Vec<Listing>> {
    let catalogue = catalogue_in(rt.alloc(), conn, Round::First);
    value_of(rt, catalogue, "no catalogue")
}

/// Returns Lee's view of the published round, with the catalogue of the first.
fn seen_by_lee(rt: &(impl Abort + AllocGlobal), conn: &mut Database, round: Round) -> LecturerView {
    let rows = read(conn, Query::LecturerByCode(b"lee-code-1")).expect(rt, "a row");
    let lee = rows.first().expect(rt, "a row");
    assert_eq!(rt; rows.len(), 1);
    let catalogue = catalogue(rt, conn);
    let view = lecturer_view(rt.alloc(), conn, round, Phase::Published, lee, catalogue);
    value_of(rt, view, "no view")
}

/// Checks the projects of Lee's view and their persons, with a slash after each project's persons:
/// the applicants, and those who are placed.
fn is_seen_by_lee(
    rt: &(impl Abort + AllocGlobal),
    conn: &mut Database,
    round: Round,
    applicants: &str,
    placed: &str,
) {
    let view = seen_by_lee(rt, conn, round);
    are_at(rt, &view.applicants, applicants);
    are_at(rt, &view.placed, placed);
}

/// Checks the projects and their persons, with a slash after each project's persons.
fn are_at(rt: &(impl Abort + AllocGlobal), projects: &[(Key, Vec<Person>)], wanted: &str) {
    let mut text = String::new(rt.alloc());
    for (project, persons) in projects {
        put_key(rt, &mut text, project);
        put_persons(rt, &mut text, persons);
    }
    is_text(rt, &text, wanted);
}

/// Appends the keys of the persons, and a slash after the last.
fn put_persons(rt: &impl Abort, text: &mut String, persons: &[Person]) {
    for person in persons {
        put_key(rt, text, &person.key);
    }
    put_slash(rt, text);
}

#[test]
fn the_second_round_is_seen(rt: HostRuntime) {
    let mut conn = department(&rt);
    change(&rt, &mut conn);
    write_second(&rt, &mut conn);
    let one = [(key(&rt, b"S1"), key(&rt, b"P1"))];
    write_places(&rt, &mut conn, &one);
    reads(&rt, &mut conn, Query::ProjectsOf(b"L1"), "P1 /P2 /");
    reads(&rt, &mut conn, Query::ProjectsOf(b"S1"), "");
    reads(&rt, &mut conn, Query::Listed(Round::Second), "S1 /");
    is_seen_by_lee(
        &rt,
        &mut conn,
        Round::Second,
        "P1 S1 /P2 /",
        "P1 S1 S2 /P2 /",
    );
}

#[test]
fn the_first_round_is_seen(rt: HostRuntime) {
    let mut conn = department(&rt);
    change(&rt, &mut conn);
    is_seen_by_lee(&rt, &mut conn, Round::First, "P1 S2 /P2 /", "P1 S2 /P2 /");
}

/// Returns the office's view of the round in this phase.
fn seen_by_office(
    rt: &(impl Abort + AllocGlobal),
    conn: &mut Database,
    round: Round,
    phase: Phase,
) -> OfficeView {
    let catalogue = catalogue(rt, conn);
    let code = code(rt, b"office-code-1");
    let view = office_view(rt.alloc(), conn, round, Office { phase, code }, catalogue);
    value_of(rt, view, "no view")
}

/// Checks the office's view of the round in this phase: the students without a list, the lecturers
/// still to rank, and the pairs.
fn is_seen_by_office(
    rt: &(impl Abort + AllocGlobal),
    conn: &mut Database,
    round: Round,
    phase: Phase,
    wanted: &str,
) {
    let view = seen_by_office(rt, conn, round, phase);
    assert!(rt; view.phase == phase && view.catalogue.len() == 2 && view.lecturers.len() == 1);
    assert!(rt; view.projects.len() == 2 && view.students.len() == 2);
    is_text(rt, &office_text(rt, &view), wanted);
}

/// Returns the keys of the students without a list, of the lecturers still to rank, and the pairs.
fn office_text(rt: &(impl Abort + AllocGlobal), view: &OfficeView) -> String {
    let mut text = String::new(rt.alloc());
    put_keys(rt, &mut text, &view.without_list);
    put_keys(rt, &mut text, &view.still_to_rank);
    for (student, project) in &view.pairs {
        put_key(rt, &mut text, student);
        put_key(rt, &mut text, project);
    }
    text
}

#[test]
fn the_office_sees_the_first_round(rt: HostRuntime) {
    let mut conn = department(&rt);
    is_seen_by_office(&rt, &mut conn, Round::First, Phase::Choosing, "//");
    is_seen_by_office(&rt, &mut conn, Round::First, Phase::Ranking, "/L1 /");
    change(&rt, &mut conn);
    let (phase, wanted) = (Phase::Published, "S1 //S2 P1 ");
    is_seen_by_office(&rt, &mut conn, Round::First, phase, wanted);
}

#[test]
fn the_office_sees_the_second_round(rt: HostRuntime) {
    let mut conn = department(&rt);
    change(&rt, &mut conn);
    let (phase, wanted) = (Phase::Choosing, "S1 //S2 P1 ");
    is_seen_by_office(&rt, &mut conn, Round::Second, phase, wanted);
    write_second(&rt, &mut conn);
    let one = [(key(&rt, b"S1"), key(&rt, b"P1"))];
    write_places(&rt, &mut conn, &one);
    let (phase, wanted) = (Phase::Published, "//S1 P1 S2 P1 ");
    is_seen_by_office(&rt, &mut conn, Round::Second, phase, wanted);
}

#[test]
fn the_place_shown_is_the_first(rt: HostRuntime) {
    let mut conn = department(&rt);
    change(&rt, &mut conn);
    let one = [(key(&rt, b"S1"), key(&rt, b"P2"))];
    write_places(&rt, &mut conn, &one);
    let rows = read(&mut conn, STUDENTS).expect(&rt, "rows");
    places_are(&rt, &mut conn, &rows, Phase::Ranking, "- P1 ");
    places_are(&rt, &mut conn, &rows, Phase::Published, "P2 P1 ");
}

/// Checks the place that each student of these rows sees in this phase of the second round.
fn places_are(
    rt: &(impl Abort + AllocGlobal),
    conn: &mut Database,
    rows: &[Row],
    phase: Phase,
    wanted: &str,
) {
    let mut text = String::new(rt.alloc());
    for row in rows {
        let place = result_in(rt.alloc(), conn, Round::Second, phase, row);
        put_place(rt, &mut text, &value_of(rt, place, "no place"));
    }
    is_text(rt, &text, wanted);
}
