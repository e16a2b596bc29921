//! Tests each statement and each query, over a small department.

use portal_core::{Code, LecturerRow, Name, Phase, ProjectRow, Round, StudentRow};
use portal_tables::sql::insert::{Lecturers, NewPlace, Projects, Students, add_all};
use portal_tables::sql::list_table::Lists;
use portal_tables::sql::select::{Query, RollTable, Table, finds_any, read, read_each, read_rows};
use portal_tables::sql::update::{set_phase, set_ranked};
use portal_tables::{
    Assignment, PortalSchema, TableFault, assign_all, clear_list, create_portal, entries_in,
    put_list, row_numbers_differ,
};
use portal_views::ApplicantLine;
use spa_rows::Key;
use sqlite::types::ValueRef;
use sqlite::{Connection, Error, MemStore, Row, Transaction};
use std::process::Abort;

pub(crate) type Database = Connection<MemStore>;

pub(crate) type Changes<'a> = Transaction<'a, MemStore>;

/// Appends a value as a text, with a space after it.
fn put_value(rt: &(impl Abort + AllocGlobal), text: &mut String, row: &Row, at: usize) {
    match row.get_ref(at).expect(rt, "a column") {
        ValueRef::Text(bytes) => put_word(rt, text, str::from_utf8(bytes).expect(rt, "a text")),
        ValueRef::Int(number) => {
            let word = format!(in rt.alloc(); "{number}").expect(rt, "memory");
            put_word(rt, text, word.as_str());
        }
        _ => put_word(rt, text, "-"),
    }
}

/// Appends a row's first columns, and a slash after them.
fn put_row(rt: &(impl Abort + AllocGlobal), text: &mut String, row: &Row, columns: usize) {
    for at in 0..columns {
        put_value(rt, text, row, at);
    }
    put_slash(rt, text);
}

/// Returns the number of spaces before the first slash.
fn columns_in(wanted: &str) -> usize {
    let first = wanted.split_once('/').unwrap_or((wanted, "")).0;
    first.bytes().filter(|byte| *byte == b' ').count()
}

/// Checks the rows, with a slash after each. It compares as many columns as the first wanted row
/// has spaces.
fn shows<E: Drop>(rt: &(impl Abort + AllocGlobal), rows: Result<Vec<Row>, E>, wanted: &str) {
    let columns = columns_in(wanted);
    let mut text = String::new(rt.alloc());
    for row in &value_of(rt, rows, "no rows") {
        put_row(rt, &mut text, row, columns);
    }
    is_text(rt, &text, wanted);
}

/// Checks the rows of a query that is read as a whole.
pub(crate) fn reads(
    rt: &(impl Abort + AllocGlobal),
    conn: &mut Database,
    query: Query<'_>,
    wanted: &str,
) {
    shows(rt, read(conn, query), wanted);
}

/// Checks the rows of a query that is read row by row.
pub(crate) fn reads_rows(
    rt: &(impl Abort + AllocGlobal),
    conn: &mut Database,
    query: Query<'_>,
    wanted: &str,
) {
    shows(rt, read_rows(rt.alloc(), conn, query), wanted);
}

pub(crate) const LECTURERS: Query<'static> = Query::Whole(RollTable::Lecturers);

pub(crate) const PROJECTS: Query<'static> = Query::Whole(RollTable::Projects);

pub(crate) const STUDENTS: Query<'static> = Query::Whole(RollTable::Students);

pub(crate) const CHOICES: Query<'static> = Query::AllLists(Lists::Choices(Round::First));

pub(crate) const RANKINGS: Query<'static> = Query::AllLists(Lists::Rankings(Round::First));

/// Checks the key, name and assigned project of the student with this key.
fn are_told(rt: &(impl Abort + AllocGlobal), conn: &mut Database, key: &[u8], wanted: &str) {
    let lines = read_each(rt.alloc(), conn, Query::StudentTold(key));
    let mut text = String::new(rt.alloc());
    for line in &value_of(rt, lines, "no lines") {
        put_line(rt, &mut text, line);
    }
    is_text(rt, &text, wanted);
}

/// Appends a student's key, name and assigned project, and a slash after them.
fn put_line(rt: &impl Abort, text: &mut String, line: &ApplicantLine) {
    put_key(rt, text, &line.person.key);
    put_word(rt, text, line.person.name.as_str());
    put_place(rt, text, &line.placed);
    put_slash(rt, text);
}

/// Appends the key of a project, or a dash if there is none.
pub(crate) fn put_place(rt: &impl Abort, text: &mut String, place: &Option<Key>) {
    match place {
        Some(project) => put_key(rt, text, project),
        None => put_word(rt, text, "-"),
    }
}

fn put_word(rt: &impl Abort, text: &mut String, word: &str) {
    text.push_str(word).expect(rt, "memory");
    text.push(' ').expect(rt, "memory");
}

pub(crate) fn put_slash(rt: &impl Abort, text: &mut String) {
    text.push('/').expect(rt, "memory");
}

pub(crate) fn put_key(rt: &impl Abort, text: &mut String, key: &Key) {
    put_word(rt, text, key.as_str());
}

/// Appends keys, and a slash after the last.
pub(crate) fn put_keys(rt: &impl Abort, text: &mut String, keys: &[Key]) {
    for key in keys {
        put_key(rt, text, key);
    }
    put_slash(rt, text);
}

/// Checks a text.
pub(crate) fn is_text(rt: &impl Abort, text: &String, wanted: &str) {
    assert_eq!(rt; text.as_str(), wanted);
}

/// Returns the value, or stops the test with the message if there is none.
pub(crate) fn value_of<T, E: Drop>(rt: &impl Abort, value: Result<T, E>, message: &str) -> T {
    match value {
        Ok(value) => value,
        Err(_) => panic!(rt; "{message}"),
    }
}

/// Checks the lists of the owners: each owner and the entries, with a slash after each list.
pub(crate) fn tells(
    rt: &(impl Abort + AllocGlobal),
    conn: &mut Database,
    lists: Lists,
    owners: Query<'_>,
    wanted: &str,
) {
    let owners = read(conn, owners).expect(rt, "owners");
    let entries = entries_in(rt.alloc(), conn, lists, &owners);
    let mut text = String::new(rt.alloc());
    for (owner, list) in &value_of(rt, entries, "no lists") {
        put_key(rt, &mut text, owner);
        put_keys(rt, &mut text, list);
    }
    is_text(rt, &text, wanted);
}

/// Creates the tables, and returns whether that succeeded.
fn creates(rt: &impl AllocGlobal, conn: &mut Database) -> bool {
    if !conn.is_autocommit() {
        return false;
    }
    create_portal(rt.alloc(), conn, b"office-code-1").is_ok()
}

pub(crate) fn key(rt: &(impl Abort + AllocGlobal), text: &[u8]) -> Key {
    Key::parse(rt.alloc(), text).expect(rt, "a key")
}

fn name(rt: &(impl Abort + AllocGlobal), text: &[u8]) -> Name {
    Name::parse(rt.alloc(), text).expect(rt, "a name")
}

pub(crate) fn code(rt: &(impl Abort + AllocGlobal), text: &[u8]) -> Code {
    Code::parse(rt.alloc(), text).expect(rt, "a code")
}

fn lecturer(
    rt: &(impl Abort + AllocGlobal),
    own: &[u8],
    called: &[u8],
    with: &[u8],
    capacity: u32,
) -> LecturerRow {
    LecturerRow {
        key: key(rt, own),
        name: name(rt, called),
        code: code(rt, with),
        capacity,
    }
}

fn project(
    rt: &(impl Abort + AllocGlobal),
    own: &[u8],
    lecturer: &[u8],
    title: &[u8],
    capacity: u32,
) -> ProjectRow {
    ProjectRow {
        key: key(rt, own),
        lecturer: key(rt, lecturer),
        title: name(rt, title),
        capacity,
    }
}

fn student(rt: &(impl Abort + AllocGlobal), own: &[u8], called: &[u8], with: &[u8]) -> StudentRow {
    StudentRow {
        key: key(rt, own),
        name: name(rt, called),
        code: code(rt, with),
    }
}

fn add_rolls(rt: &(impl Abort + AllocGlobal), tx: &mut Changes<'_>) -> Result<(), Error> {
    let lee = lecturer(rt, b"L1", b"Lee", b"lee-code-1", 2);
    add_all(rt.alloc(), tx, &Lecturers, &[lee])?;
    add_projects(rt, tx)?;
    let ann = student(rt, b"S1", b"Ann", b"ann-code-1");
    let bea = student(rt, b"S2", b"Bea", b"bea-code-1");
    add_all(rt.alloc(), tx, &Students, &[ann, bea])
}

fn add_projects(rt: &(impl Abort + AllocGlobal), tx: &mut Changes<'_>) -> Result<(), Error> {
    let tides = project(rt, b"P1", b"L1", b"Tides", 1);
    let kites = project(rt, b"P2", b"L1", b"Kites", 200);
    add_all(rt.alloc(), tx, &Projects, &[tides, kites])
}

fn place<'a>(owner: &'a [u8], place: u32, item: &'a [u8]) -> NewPlace<'a> {
    NewPlace { owner, place, item }
}

/// Writes the owner's list of these entries.
pub(crate) fn write_list(
    rt: &(impl Abort + AllocGlobal),
    tx: &mut Changes<'_>,
    lists: Lists,
    owner: &[u8],
    entries: &[&[u8]],
) {
    let mut keys = Vec::new(rt.alloc());
    for entry in entries {
        keys.push(key(rt, entry)).expect(rt, "memory");
    }
    put_list(rt.alloc(), tx, lists, &key(rt, owner), &keys).expect(rt, "a list");
}

fn add_lists(rt: &(impl Abort + AllocGlobal), tx: &mut Changes<'_>) {
    write_list(rt, tx, Lists::Choices(Round::First), b"S2", &[b"P1"]);
    write_list(rt, tx, Lists::Choices(Round::First), b"S1", &[b"P2", b"P1"]);
    write_list(
        rt,
        tx,
        Lists::Rankings(Round::First),
        b"L1",
        &[b"S2", b"S1"],
    );
}

fn fill(rt: &(impl Abort + AllocGlobal), conn: &mut Database) -> Result<(), Error> {
    assert!(rt; conn.is_autocommit());
    let mut tx = conn.transaction();
    add_rolls(rt, &mut tx)?;
    add_lists(rt, &mut tx);
    tx.commit()
}

fn assignment<'a>(student: &'a [u8], project: Option<&'a [u8]>) -> Assignment<'a> {
    Assignment { student, project }
}

fn set_all(tx: &mut Changes<'_>) -> Result<(), Error> {
    set_phase(tx, Round::First, Phase::Published)?;
    set_ranked(tx, b"L1")?;
    assign_all(tx, &[assignment(b"S2", Some(b"P1".as_slice()))])?;
    clear_list(tx, Lists::Choices(Round::First), b"S1")?;
    clear_list(tx, Lists::Rankings(Round::First), b"L1")?;
    Ok(())
}

/// Publishes a result of the first round, and clears a list and a ranking.
pub(crate) fn change(rt: &impl Abort, conn: &mut Database) {
    assert!(rt; conn.is_autocommit());
    let mut tx = conn.transaction();
    set_all(&mut tx).expect(rt, "changes");
    tx.commit().expect(rt, "a commit");
}

/// Checks that the rowids of the rolls, lists and rankings of the first round are distinct.
fn have_numbers(rt: &impl Abort, conn: &mut Database) {
    for roll in [
        RollTable::Lecturers,
        RollTable::Projects,
        RollTable::Students,
    ] {
        are_apart(rt, conn, Table::OfRoll(roll));
    }
    for lists in [Lists::Choices(Round::First), Lists::Rankings(Round::First)] {
        are_apart(rt, conn, Table::OfLists(lists));
    }
}

/// Checks that the rowids of a table are distinct.
pub(crate) fn are_apart(rt: &impl Abort, conn: &mut Database, table: Table) {
    assert!(rt; row_numbers_differ(conn, table).expect(rt, "numbers"));
}

/// Makes a database in memory with the portal's tables and the small department.
pub(crate) fn department(rt: &(impl Abort + AllocGlobal)) -> Database {
    let mut conn = created(rt);
    fill(rt, &mut conn).expect(rt, "rows");
    conn
}

/// Makes an empty database in memory.
pub(crate) fn opened(rt: &(impl Abort + AllocGlobal)) -> Database {
    Connection::open_in_memory(rt.alloc()).expect(rt, "memory")
}

/// Makes a database in memory with the portal's tables.
pub(crate) fn created(rt: &(impl Abort + AllocGlobal)) -> Database {
    let mut conn = opened(rt);
    assert!(rt; creates(rt, &mut conn));
    conn
}

/// Adds the same lists, with rows ordered neither by owner nor by place, and marks the ranking.
fn add_mixed(rt: &(impl Abort + AllocGlobal), tx: &mut Changes<'_>) -> Result<(), Error> {
    let choices = [
        place(b"S1", 2, b"P1"),
        place(b"S2", 1, b"P1"),
        place(b"S1", 1, b"P2"),
    ];
    let rankings = [place(b"L1", 2, b"S1"), place(b"L1", 1, b"S2")];
    add_all(rt.alloc(), tx, &Lists::Choices(Round::First), &choices)?;
    add_all(rt.alloc(), tx, &Lists::Rankings(Round::First), &rankings)?;
    set_ranked(tx, b"L1")
}

fn fill_mixed(rt: &(impl Abort + AllocGlobal), conn: &mut Database) {
    assert!(rt; conn.is_autocommit());
    let mut tx = conn.transaction();
    add_rolls(rt, &mut tx).expect(rt, "rows");
    add_mixed(rt, &mut tx).expect(rt, "rows");
    tx.commit().expect(rt, "a commit");
}

/// Returns nine keys. Their rows take a statement of eight rows and one of one row.
fn nine() -> [&'static [u8]; 9] {
    [
        b"K1", b"K2", b"K3", b"K4", b"K5", b"K6", b"K7", b"K8", b"K9",
    ]
}

/// Returns the text of a code for a key.
fn code_of(rt: &(impl Abort + AllocGlobal), key: &[u8]) -> String {
    let word = str::from_utf8(key).expect(rt, "a text");
    format!(in rt.alloc(); "code-of-{word}").expect(rt, "memory")
}

/// Adds nine rows to each roll, a list of all nine projects and a ranking of all nine students.
fn add_nine(rt: &(impl Abort + AllocGlobal), tx: &mut Changes<'_>) -> Result<(), Error> {
    add_nine_lecturers(rt, tx)?;
    add_nine_projects(rt, tx)?;
    add_nine_students(rt, tx)?;
    write_list(rt, tx, Lists::Choices(Round::First), b"K1", &nine());
    write_list(rt, tx, Lists::Rankings(Round::First), b"K1", &nine());
    Ok(())
}

fn add_nine_lecturers(rt: &(impl Abort + AllocGlobal), tx: &mut Changes<'_>) -> Result<(), Error> {
    let mut lecturers = Vec::new(rt.alloc());
    for word in nine() {
        lecturers
            .push(lecturer(rt, word, word, code_of(rt, word).as_bytes(), 1))
            .expect(rt, "memory");
    }
    add_all(rt.alloc(), tx, &Lecturers, &lecturers)
}

fn add_nine_projects(rt: &(impl Abort + AllocGlobal), tx: &mut Changes<'_>) -> Result<(), Error> {
    let mut projects = Vec::new(rt.alloc());
    for word in nine() {
        projects
            .push(project(rt, word, b"K1", word, 1))
            .expect(rt, "memory");
    }
    add_all(rt.alloc(), tx, &Projects, &projects)
}

fn add_nine_students(rt: &(impl Abort + AllocGlobal), tx: &mut Changes<'_>) -> Result<(), Error> {
    let mut students = Vec::new(rt.alloc());
    for word in nine() {
        students
            .push(student(rt, word, word, code_of(rt, word).as_bytes()))
            .expect(rt, "memory");
    }
    add_all(rt.alloc(), tx, &Students, &students)
}

fn fill_nine(rt: &(impl Abort + AllocGlobal), conn: &mut Database) {
    assert!(rt; conn.is_autocommit());
    let mut tx = conn.transaction();
    add_nine(rt, &mut tx).expect(rt, "rows");
    tx.commit().expect(rt, "a commit");
}

#[test]
fn rows_come_by_the_eight(rt: HostRuntime) {
    let mut conn = created(&rt);
    fill_nine(&rt, &mut conn);
    let wanted =
        "K1 K1 code-of-K1 1 0 /K2 K2 code-of-K2 1 0 /K3 K3 code-of-K3 1 0 /K4 K4 code-of-K4 1 0 /K5 K5 code-of-K5 1 0 /K6 K6 code-of-K6 1 0 /K7 K7 code-of-K7 1 0 /K8 K8 code-of-K8 1 0 /K9 K9 code-of-K9 1 0 /";
    reads(&rt, &mut conn, LECTURERS, wanted);
    let wanted =
        "K1 K1 K1 1 /K2 K1 K2 1 /K3 K1 K3 1 /K4 K1 K4 1 /K5 K1 K5 1 /K6 K1 K6 1 /K7 K1 K7 1 /K8 K1 K8 1 /K9 K1 K9 1 /";
    reads(&rt, &mut conn, PROJECTS, wanted);
    let wanted =
        "K1 K1 code-of-K1 - /K2 K2 code-of-K2 - /K3 K3 code-of-K3 - /K4 K4 code-of-K4 - /K5 K5 code-of-K5 - /K6 K6 code-of-K6 - /K7 K7 code-of-K7 - /K8 K8 code-of-K8 - /K9 K9 code-of-K9 - /";
    reads(&rt, &mut conn, STUDENTS, wanted);
    let wanted = "1 K1 /2 K2 /3 K3 /4 K4 /5 K5 /6 K6 /7 K7 /8 K8 /9 K9 /";
    for lists in [Lists::Choices(Round::First), Lists::Rankings(Round::First)] {
        reads_rows(&rt, &mut conn, Query::ListOf(lists, b"K1"), wanted);
    }
    have_numbers(&rt, &mut conn);
}

/// Assigns each of the nine students, except the fifth, to the project of the same key.
fn assign_nine(rt: &(impl Abort + AllocGlobal), conn: &mut Database) {
    assert!(rt; conn.is_autocommit());
    let all = nine_assignments(rt);
    let mut tx = conn.transaction();
    assign_all(&mut tx, &all).expect(rt, "rows");
    tx.commit().expect(rt, "a commit");
}

fn nine_assignments(rt: &(impl Abort + AllocGlobal)) -> Vec<Assignment<'static>> {
    let mut all = Vec::new(rt.alloc());
    for key in nine() {
        let project = (key != b"K5".as_slice()).then_some(key);
        all.push(assignment(key, project)).expect(rt, "memory");
    }
    all
}

#[test]
fn students_are_assigned(rt: HostRuntime) {
    let mut conn = created(&rt);
    fill_nine(&rt, &mut conn);
    assign_nine(&rt, &mut conn);
    let wanted =
        "K1 K1 code-of-K1 K1 /K2 K2 code-of-K2 K2 /K3 K3 code-of-K3 K3 /K4 K4 code-of-K4 K4 /K5 K5 code-of-K5 - /K6 K6 code-of-K6 K6 /K7 K7 code-of-K7 K7 /K8 K8 code-of-K8 K8 /K9 K9 code-of-K9 K9 /";
    reads(&rt, &mut conn, STUDENTS, wanted);
    have_numbers(&rt, &mut conn);
}

#[test]
fn own_tables_are_told(rt: HostRuntime) {
    let mut conn = opened(&rt);
    let pattern = PortalSchema::new(rt.alloc()).expect(&rt, "memory");
    assert!(rt; !pattern.fits(&conn));
    assert!(rt; creates(&rt, &mut conn));
    assert!(rt; pattern.fits(&conn));
    assert!(rt; !pattern.fits_first(&conn));
    assert!(rt; !creates(&rt, &mut conn));
}

#[test]
fn rows_are_there_once(rt: HostRuntime) {
    let mut conn = department(&rt);
    assert!(rt; fill(&rt, &mut conn).is_err());
    have_numbers(&rt, &mut conn);
}

#[test]
fn rolls_are_shown(rt: HostRuntime) {
    let mut conn = department(&rt);
    reads(&rt, &mut conn, Query::Office, "1 2 0 office-code-1 /");
    reads(&rt, &mut conn, LECTURERS, "L1 Lee lee-code-1 2 0 /");
    reads(&rt, &mut conn, PROJECTS, "P1 L1 Tides 1 /P2 L1 Kites 200 /");
    let wanted = "S1 Ann ann-code-1 - /S2 Bea bea-code-1 - /";
    reads(&rt, &mut conn, STUDENTS, wanted);
}

#[test]
fn lists_are_shown(rt: HostRuntime) {
    let mut conn = department(&rt);
    reads(&rt, &mut conn, CHOICES, "S2 1 P1 /S1 1 P2 /S1 2 P1 /");
    reads(&rt, &mut conn, RANKINGS, "L1 1 S2 /L1 2 S1 /");
    let query = Query::ListOf(Lists::Choices(Round::First), b"S1");
    reads_rows(&rt, &mut conn, query, "1 P2 /2 P1 /");
    let query = Query::ListOf(Lists::Rankings(Round::First), b"L1");
    reads_rows(&rt, &mut conn, query, "1 S2 /2 S1 /");
}

#[test]
fn lists_are_told(rt: HostRuntime) {
    let mut conn = department(&rt);
    let wanted = "S1 P2 P1 /S2 P1 /";
    tells(
        &rt,
        &mut conn,
        Lists::Choices(Round::First),
        STUDENTS,
        wanted,
    );
}

#[test]
fn lists_are_told_of_rows_in_any_order(rt: HostRuntime) {
    let mut conn = created(&rt);
    fill_mixed(&rt, &mut conn);
    let wanted = "S1 P2 P1 /S2 P1 /";
    tells(
        &rt,
        &mut conn,
        Lists::Choices(Round::First),
        STUDENTS,
        wanted,
    );
    tells(
        &rt,
        &mut conn,
        Lists::Rankings(Round::First),
        LECTURERS,
        "L1 S2 S1 /",
    );
}

#[test]
fn rows_of_nobody_are_damage(rt: HostRuntime) {
    let mut conn = department(&rt);
    let ann = read(&mut conn, Query::StudentByCode(b"ann-code-1")).expect(&rt, "a row");
    let lists = entries_in(rt.alloc(), &mut conn, Lists::Choices(Round::First), &ann);
    assert!(rt; matches!(lists, Err(TableFault::Damaged)));
}

#[test]
fn rows_are_found(rt: HostRuntime) {
    let mut conn = department(&rt);
    let query = Query::Choosers(Round::First, b"P1");
    reads_rows(&rt, &mut conn, query, "S1 /S2 /");
    reads_rows(&rt, &mut conn, Query::Listed(Round::First), "S1 /S2 /");
    let query = Query::LecturerByCode(b"lee-code-1");
    reads_rows(&rt, &mut conn, query, "L1 Lee /");
    let query = Query::StudentByCode(b"bea-code-1");
    reads_rows(&rt, &mut conn, query, "S2 Bea /");
    reads_rows(&rt, &mut conn, Query::StudentByCode(b"lee-code-1"), "");
    are_told(&rt, &mut conn, b"S2", "S2 Bea - /");
    are_told(&rt, &mut conn, b"L1", "");
    assert!(rt; has_choosers(&rt, &mut conn, b"P1"));
    assert!(rt; !has_choosers(&rt, &mut conn, b"P3"));
}

fn has_choosers(rt: &impl Abort, conn: &mut Database, project: &[u8]) -> bool {
    finds_any(conn, Query::Choosers(Round::First, project)).expect(rt, "an answer")
}

#[test]
fn changes_are_shown(rt: HostRuntime) {
    let mut conn = department(&rt);
    change(&rt, &mut conn);
    reads(&rt, &mut conn, Query::Office, "1 2 3 office-code-1 /");
    reads(&rt, &mut conn, LECTURERS, "L1 Lee lee-code-1 2 1 /");
    let wanted = "S1 Ann ann-code-1 - /S2 Bea bea-code-1 P1 /";
    reads(&rt, &mut conn, STUDENTS, wanted);
    reads(&rt, &mut conn, CHOICES, "S2 1 P1 /");
    reads_rows(&rt, &mut conn, Query::Listed(Round::First), "S2 /");
    are_told(&rt, &mut conn, b"S2", "S2 Bea P1 /");
    have_numbers(&rt, &mut conn);
}
