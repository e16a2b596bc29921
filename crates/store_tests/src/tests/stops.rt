//! Tests databases that are opened again after their disk stopped at a write, or failed once at a
//! write or a read.

use crate::tests::failed_reads::{code_fails, instance_fails, request_fails};
use crate::tests::steps::{new_office_code, run_all};
use crate::tests::trial::{Fault, Plan, Trial};
use portal_core::Keeper;
use portal_desk::{Cause, Counted, Desk};
use portal_fixtures::changes::{CHOOSING, PUBLICATION, RANKING, SETUP};
use portal_fixtures::version1::IN_PUBLISHED;
use portal_fixtures::{Line, SEEN, ask, lines, world_output};
use portal_store::{CreateFault, NotOpened, OpenFault, Store, UpgradeFault};
use sqlite::{Alter, Connection, FileStore, Files, Options};
use sqlite_disk::{Crash, Disk, Memory};
use std::process::Abort;

/// A connection to two files that fail as a plan says.
pub(crate) type TrialConnection<'a> = Connection<FileStore<Trial<'a, Memory>>>;

/// The bytes of the two files of a database.
#[derive(Drop)]
pub(crate) struct Image {
    log: Vec<u8>,
    db: Vec<u8>,
}

/// Makes a file in memory with these bytes, synced.
fn memory(rt: &(impl Abort + AllocGlobal), bytes: &[u8]) -> Memory {
    let mut file = Memory::new(rt.alloc());
    file.write_at(0, bytes).expect(rt, "a write");
    file.sync().expect(rt, "a sync");
    file
}

/// Little memory for pages, so that a change writes before its end and reads pages again. A short
/// log, so that it is copied into the database in between.
pub(crate) const TIGHT: Options = Options {
    cache_pages: 4,
    spill_pages: 4,
    checkpoint_frames: 12,
    seed: 7,
};

/// Opens a connection to files with these bytes.
pub(crate) fn connected<'a>(
    rt: &(impl Abort + AllocGlobal),
    image: &Image,
    plan: &'a Plan,
    options: Options,
) -> TrialConnection<'a> {
    let log = Trial::new(memory(rt, &image.log), plan);
    let db = Trial::new(memory(rt, &image.db), plan);
    assert!(rt; log.may_be_used());
    assert!(rt; db.may_be_used());
    match Connection::open_files(rt.alloc(), Files { log, db }, options) {
        Ok(conn) => conn,
        Err(_) => panic!(rt; "a connection"),
    }
}

/// Closes the connection. Returns the files as written, and as last synced.
pub(crate) fn left_of(
    rt: &(impl Abort + AllocGlobal),
    conn: TrialConnection<'_>,
) -> (Image, Image) {
    let files = match conn.close_files() {
        Ok(files) => files,
        Err((_, store)) => store.close(),
    };
    let (log, safe_log) = contents(rt, files.log.into_inner());
    let (db, safe_db) = contents(rt, files.db.into_inner());
    (
        Image { log, db },
        Image {
            log: safe_log,
            db: safe_db,
        },
    )
}

/// Returns the bytes of a file as written, and as last synced.
fn contents(rt: &(impl Abort + AllocGlobal), mut file: Memory) -> (Vec<u8>, Vec<u8>) {
    let written = Vec::from_slice(rt.alloc(), file.bytes()).expect(rt, "memory");
    file.crash();
    let safe = Vec::from_slice(rt.alloc(), file.bytes()).expect(rt, "memory");
    (written, safe)
}

/// Chooses the byte that a crash leaves, from the written byte and the synced one.
fn left_byte(way: usize, at: usize, written: u8, safe: u8) -> u8 {
    let is_new = match way {
        5 => true,
        1 => false,
        2 => at / 512 % 2 == 0,
        3 => at / 512 % 2 == 1,
        _ => at % 2 == 0,
    };
    if way == 6 && written != safe {
        return b'Z';
    }
    if is_new { written } else { safe }
}

/// Returns what a crash may leave of a file: the synced bytes (1), the writes to every other sector
/// (2 and 3) or byte (4), or a part of the growth (5). Way 6 leaves garbage where bytes differ.
fn left_file(rt: &(impl Abort + AllocGlobal), way: usize, written: &[u8], safe: &[u8]) -> Vec<u8> {
    let length = match way {
        1 | 3 => safe.len(),
        5 => safe.len() / 2 + written.len() / 2,
        _ => written.len(),
    };
    let mut file = Vec::new(rt.alloc());
    for at in 0..length {
        let new = written.get(at).copied().unwrap_or(0);
        let old = safe.get(at).copied().unwrap_or(0);
        file.push(left_byte(way, at, new, old)).expect(rt, "memory");
    }
    file
}

fn left_image(rt: &(impl Abort + AllocGlobal), way: usize, written: &Image, safe: &Image) -> Image {
    Image {
        log: left_file(rt, way, &written.log, &safe.log),
        db: left_file(rt, way, &written.db, &safe.db),
    }
}

/// What files show: whether their tables are of version 2, and the output of the portal in them, if
/// there is one.
#[derive(PartialEq, Drop)]
struct Sight {
    is_current: bool,
    text: Option<Vec<u8>>,
}

/// Returns what the portal shows, and its connection.
fn shown_by<S: Alter + Drop>(
    rt: &(impl Abort + AllocGlobal),
    mut desk: Desk<Store<S>>,
) -> (Vec<u8>, Connection<S>) {
    let text = world_output(rt.alloc(), &mut desk).expect(rt, "memory");
    (text, desk.into_keeper().into_connection())
}

/// Upgrades tables of version 1. Returns what the portal then shows, and the connection.
fn shown_upgraded<S: Alter + Drop>(
    rt: &(impl Abort + AllocGlobal),
    conn: Connection<S>,
) -> (Vec<u8>, Connection<S>) {
    assert!(rt; conn.is_autocommit());
    match Store::upgrade(rt.alloc(), conn) {
        Ok(store) => shown_by(rt, Desk::new(store)),
        Err(NotOpened { .. }) => panic!(rt; "an upgrade"),
    }
}

/// Returns what the tables show, and the connection. Tables of version 1 are upgraded first.
fn shown_over<S: Alter + Drop>(
    rt: &(impl Abort + AllocGlobal),
    conn: Connection<S>,
) -> (Sight, Connection<S>) {
    assert!(rt; conn.is_autocommit());
    match Store::open(rt.alloc(), conn) {
        Ok(store) => {
            let (text, conn) = shown_by(rt, Desk::new(store));
            (sight_of(true, Some(text)), conn)
        }
        Err(NotOpened { fault, connection }) => {
            if fault == OpenFault::OtherVersion {
                let (text, conn) = shown_upgraded(rt, connection);
                return (sight_of(false, Some(text)), conn);
            }
            assert_eq!(rt; fault, OpenFault::NotPortal);
            (sight_of(false, None), connection)
        }
    }
}

fn sight_of(is_current: bool, text: Option<Vec<u8>>) -> Sight {
    Sight { is_current, text }
}

/// Returns what these files show. Tables of version 1 are upgraded first.
fn shown(rt: &(impl Abort + AllocGlobal), image: &Image) -> Sight {
    let plan = Plan::new(Fault::Stop);
    let (sight, conn) = shown_over(rt, connected(rt, image, &plan, Options::new(7)));
    let _left = left_of(rt, conn);
    sight
}

/// Creates a portal. Returns whether that succeeded, and the connection.
fn makes<S: Alter + Drop>(
    rt: &(impl Abort + AllocGlobal),
    conn: Connection<S>,
) -> (bool, Connection<S>) {
    assert!(rt; conn.is_autocommit());
    match Store::create(rt.alloc(), conn, new_office_code(rt)) {
        Ok(store) => (true, store.into_connection()),
        Err(NotOpened { fault, connection }) => {
            assert!(rt; fault == CreateFault::Store);
            (false, connection)
        }
    }
}

/// Upgrades tables of version 1. Returns whether that succeeded, and the connection.
fn upgrades<S: Alter + Drop>(
    rt: &(impl Abort + AllocGlobal),
    conn: Connection<S>,
) -> (bool, Connection<S>) {
    assert!(rt; conn.is_autocommit());
    match Store::upgrade(rt.alloc(), conn) {
        Ok(store) => (true, store.into_connection()),
        Err(NotOpened { fault, connection }) => {
            assert!(rt; fault == UpgradeFault::Store);
            (false, connection)
        }
    }
}

/// Opens the portal, and returns a desk over it. Generic, as all functions here that have a store,
/// because proofs over `FileStore` are slow.
pub(crate) fn desk_over<S: Alter + Drop>(
    rt: &(impl Abort + AllocGlobal),
    conn: Connection<S>,
) -> Desk<Store<S>> {
    assert!(rt; conn.is_autocommit());
    match Store::open(rt.alloc(), conn) {
        Ok(store) => Desk::new(store),
        Err(NotOpened { .. }) => panic!(rt; "a portal"),
    }
}

/// The line that creates the portal.
pub(crate) const INIT: &str = "office  init";

/// The line that upgrades tables of version 1.
const UPGRADE: &str = "office  upgrade";

/// A change of files, and what they show before and after it.
#[derive(Drop)]
struct Case {
    before: Image,
    /// The line of the change.
    text: String,
    shown_before: Sight,
    shown_after: Sight,
}

/// Sends the request, with a fault after `calls` calls. Returns whether it succeeded, and the
/// connection.
fn asked<S: Alter + Drop>(
    rt: &(impl Abort + AllocGlobal),
    conn: Connection<S>,
    line: &Line,
    plan: &Plan,
    calls: u64,
) -> (bool, Connection<S>) {
    let mut desk = desk_over(rt, conn);
    plan.arm(calls);
    let reply = ask(rt.alloc(), &mut desk, line).expect(rt, "memory");
    let is_done = reply.starts_with(b"HTTP/1.1 200");
    assert!(rt; is_done || reply.starts_with(b"HTTP/1.1 503"));
    (is_done, desk.into_keeper().into_connection())
}

/// What is tried over files while a fault may occur.
#[derive(Clone, Copy)]
pub(crate) enum Attempt<'a> {
    /// The change of a line.
    Change(&'a Line<'a>),
    /// The request of a line, while a read may fail.
    Request(&'a Line<'a>),
    /// The instance of a new portal, while a read may fail.
    Instance,
    /// The code of the office, while a read may fail.
    Code,
    /// The changes of a script, after the disk has failed at the first.
    Death(&'a str),
    /// The tables of version 1, with a published result.
    Earlier,
}

/// Tries the change, with a fault after `calls` calls. Returns whether the change was reported as
/// done, and the connection.
fn changed_over<S: Alter + Drop>(
    rt: &(impl Abort + AllocGlobal),
    conn: Connection<S>,
    line: &Line,
    plan: &Plan,
    calls: u64,
) -> (bool, Connection<S>) {
    match line.method {
        "init" => {
            plan.arm(calls);
            makes(rt, conn)
        }
        "upgrade" => {
            plan.arm(calls);
            upgrades(rt, conn)
        }
        _ => asked(rt, conn, line, plan, calls),
    }
}

/// Makes the attempt, with a fault after `calls` calls. Returns whether it was reported as done,
/// and the connection.
fn tried_over<S: Alter + Drop>(
    rt: &(impl Abort + AllocGlobal),
    conn: Connection<S>,
    attempt: &Attempt,
    plan: &Plan,
    calls: u64,
) -> (bool, Connection<S>) {
    match attempt {
        Attempt::Change(line) => changed_over(rt, conn, line, plan, calls),
        Attempt::Request(line) => request_fails(rt, conn, line, plan, calls),
        Attempt::Instance => instance_fails(rt, conn, plan, calls),
        Attempt::Code => code_fails(rt, conn, plan, calls),
        Attempt::Death(script) => (false, dies_over(rt, conn, plan, script)),
        Attempt::Earlier => (true, earlier_over(rt, conn)),
    }
}

/// Makes the attempt over these files. Returns whether it was reported as done, and the connection.
pub(crate) fn tried<'a>(
    rt: &(impl Abort + AllocGlobal),
    before: &Image,
    attempt: &Attempt,
    plan: &'a Plan,
    calls: u64,
) -> (bool, TrialConnection<'a>) {
    tried_over(rt, connected(rt, before, plan, TIGHT), attempt, plan, calls)
}

/// Makes the change without a fault. Returns the files as they are before closing writes to them.
fn done(rt: &(impl Abort + AllocGlobal), before: &Image, line: &Line) -> Image {
    let plan = Plan::new(Fault::Stop);
    let (is_done, conn) = tried(rt, before, &Attempt::Change(line), &plan, u64::MAX);
    assert!(rt; is_done);
    plan.arm(0);
    left_of(rt, conn).0
}

/// Checks that the files show the portal before or after the change. If the change was reported as
/// done, they show the one after.
fn is_one_of_two(rt: &(impl Abort + AllocGlobal), case: &Case, image: &Image, is_done: bool) {
    let found = shown(rt, image);
    let is_after = found == case.shown_after;
    assert!(rt; is_after || (!is_done && found == case.shown_before));
}

/// Opens the files again in each of the ways that a crash may leave them.
fn survives_crashes(
    rt: &(impl Abort + AllocGlobal),
    case: &Case,
    written: &Image,
    safe: &Image,
    is_done: bool,
) {
    for way in 1..7 {
        let image = left_image(rt, way, written, safe);
        is_one_of_two(rt, case, &image, is_done);
    }
}

/// Tries the change, with a fault after `calls` calls. Opens the files again as they are, and as a
/// crash may leave them. Returns whether the fault occurred.
fn survives(rt: &(impl Abort + AllocGlobal), case: &Case, fault: Fault, calls: u64) -> bool {
    let plan = Plan::new(fault);
    let line = Line::new(case.text.as_str());
    let (is_done, conn) = tried(rt, &case.before, &Attempt::Change(&line), &plan, calls);
    let came = plan.came();
    if !came {
        plan.arm(if fault == Fault::Stop { 0 } else { u64::MAX });
    }
    let (written, safe) = left_of(rt, conn);
    is_one_of_two(rt, case, &written, is_done);
    if written.log != safe.log || written.db != safe.db {
        survives_crashes(rt, case, &written, &safe, is_done);
    }
    came
}

/// Lets the fault occur at each call in turn, and returns how often it occurred.
fn faults_of(rt: &(impl Abort + AllocGlobal), case: &Case, fault: Fault) -> u64 {
    for calls in 0..10_000 {
        if !survives(rt, case, fault, calls) {
            return calls;
        }
    }
    10_000
}

/// Returns the files of an empty database.
pub(crate) fn blank(rt: &(impl Abort + AllocGlobal)) -> Image {
    let empty = Image {
        log: Vec::new(rt.alloc()),
        db: Vec::new(rt.alloc()),
    };
    let plan = Plan::new(Fault::Stop);
    left_of(rt, connected(rt, &empty, &plan, TIGHT)).0
}

/// Returns the files after these changes.
fn after(rt: &(impl Abort + AllocGlobal), before: Image, script: &str) -> Image {
    let mut image = before;
    for line in lines(rt.alloc(), script).expect(rt, "memory") {
        image = done(rt, &image, &line);
    }
    image
}

/// Returns the files after these scripts, which begin with an empty database.
pub(crate) fn files_after(rt: &(impl Abort + AllocGlobal), played: &[&str]) -> Image {
    let mut image = blank(rt);
    for script in played {
        image = after(rt, image, script);
    }
    image
}

/// Returns the case of a change of these files, and the files after it.
fn case_of(
    rt: &(impl Abort + AllocGlobal),
    before: Image,
    shown_before: Sight,
    line: &Line,
) -> (Case, Image) {
    let after = done(rt, &before, line);
    let shown_after = shown(rt, &after);
    assert!(rt; shown_after != shown_before);
    let case = Case {
        before,
        text: line.text.to_string(rt.alloc()).expect(rt, "memory"),
        shown_before,
        shown_after,
    };
    (case, after)
}

/// Lets the fault occur at each call of each change, and returns how often it occurred in all.
fn meets(rt: &(impl Abort + AllocGlobal), fault: Fault, before: Image, scripts: &[&str]) -> u64 {
    let mut shown_before = shown(rt, &before);
    let mut image = before;
    let mut count = 0u64;
    let script = scripts.concat(rt.alloc()).expect(rt, "memory");
    for line in lines(rt.alloc(), script.as_str()).expect(rt, "memory") {
        let (case, after) = case_of(rt, image, shown_before, &line);
        count = count.saturating_add(faults_of(rt, &case, fault));
        shown_before = case.shown_after;
        image = after;
    }
    count
}

/// Checks that the fault occurs at least `least` times in these changes, after the played ones.
pub(crate) fn comes(
    rt: &(impl Abort + AllocGlobal),
    fault: Fault,
    played: &[&str],
    scripts: &[&str],
    least: u64,
) {
    let count = meets(rt, fault, files_after(rt, played), scripts);
    assert!(rt; count >= least, "{count} times");
}

/// Checks that the fault occurs at least `least` times in setup.
fn comes_in_setup(rt: &(impl Abort + AllocGlobal), fault: Fault, least: u64) {
    comes(rt, fault, &[], &[INIT, "\n", SETUP], least);
}

/// Checks that the fault occurs at least `least` times in choosing.
fn comes_in_choosing(rt: &(impl Abort + AllocGlobal), fault: Fault, least: u64) {
    comes(rt, fault, &[INIT, SETUP], &[CHOOSING], least);
}

/// Checks that the fault occurs at least `least` times in ranking and in the publication.
fn comes_in_ranking(rt: &(impl Abort + AllocGlobal), fault: Fault, least: u64) {
    let played = [INIT, SETUP, CHOOSING];
    comes(rt, fault, &played, &[RANKING, PUBLICATION], least);
}

#[test]
fn the_disk_stops_in_setup(rt: HostRuntime) {
    comes_in_setup(&rt, Fault::Stop, 60);
}

#[test]
fn a_write_is_refused_in_setup(rt: HostRuntime) {
    comes_in_setup(&rt, Fault::Refusal, 60);
}

#[test]
fn a_write_is_in_doubt_in_setup(rt: HostRuntime) {
    comes_in_setup(&rt, Fault::Doubt, 60);
}

#[test]
fn a_read_fails_in_setup(rt: HostRuntime) {
    comes_in_setup(&rt, Fault::Read, 40);
}

#[test]
fn the_disk_stops_in_choosing(rt: HostRuntime) {
    comes_in_choosing(&rt, Fault::Stop, 50);
}

#[test]
fn a_write_is_refused_in_choosing(rt: HostRuntime) {
    comes_in_choosing(&rt, Fault::Refusal, 50);
}

#[test]
fn a_write_is_in_doubt_in_choosing(rt: HostRuntime) {
    comes_in_choosing(&rt, Fault::Doubt, 50);
}

#[test]
fn a_read_fails_in_choosing(rt: HostRuntime) {
    comes_in_choosing(&rt, Fault::Read, 60);
}

#[test]
fn the_disk_stops_in_ranking(rt: HostRuntime) {
    comes_in_ranking(&rt, Fault::Stop, 50);
}

#[test]
fn a_write_is_refused_in_ranking(rt: HostRuntime) {
    comes_in_ranking(&rt, Fault::Refusal, 50);
}

#[test]
fn a_write_is_in_doubt_in_ranking(rt: HostRuntime) {
    comes_in_ranking(&rt, Fault::Doubt, 50);
}

#[test]
fn a_read_fails_in_ranking(rt: HostRuntime) {
    comes_in_ranking(&rt, Fault::Read, 60);
}

/// Makes the tables of version 1 with a published result, and returns the connection.
fn earlier_over<S: Alter + Drop>(
    rt: &(impl Abort + AllocGlobal),
    conn: Connection<S>,
) -> Connection<S> {
    let mut conn = conn;
    run_all(&mut conn, IN_PUBLISHED).expect(rt, "statements");
    conn
}

/// Returns files of version 1 with a published result.
fn earlier(rt: &(impl Abort + AllocGlobal)) -> Image {
    let plan = Plan::new(Fault::Stop);
    let (_, conn) = tried(rt, &blank(rt), &Attempt::Earlier, &plan, u64::MAX);
    left_of(rt, conn).0
}

/// Checks that the fault occurs at least `least` times in an upgrade, which keeps the world.
fn comes_in_an_upgrade(rt: &(impl Abort + AllocGlobal), fault: Fault, least: u64) {
    let before = earlier(rt);
    let found = shown(rt, &before);
    let after = shown(rt, &done(rt, &before, &Line::new(UPGRADE)));
    assert!(rt; !found.is_current && after.is_current && found.text == after.text);
    let count = meets(rt, fault, before, &[UPGRADE]);
    assert!(rt; count >= least, "{count} times");
}

#[test]
fn the_disk_stops_in_an_upgrade(rt: HostRuntime) {
    comes_in_an_upgrade(&rt, Fault::Stop, 15);
}

#[test]
fn a_write_is_refused_in_an_upgrade(rt: HostRuntime) {
    comes_in_an_upgrade(&rt, Fault::Refusal, 15);
}

#[test]
fn a_write_is_in_doubt_in_an_upgrade(rt: HostRuntime) {
    comes_in_an_upgrade(&rt, Fault::Doubt, 15);
}

#[test]
fn a_read_fails_in_an_upgrade(rt: HostRuntime) {
    comes_in_an_upgrade(&rt, Fault::Read, 15);
}

/// Serves a line's request. Returns why serving stopped early, if it did, and the output.
pub(crate) fn stopped<K: Keeper>(
    rt: &(impl Abort + AllocGlobal),
    desk: &mut Desk<K>,
    line: &Line,
) -> (Option<Cause>, Vec<u8>) {
    let request = line.request(rt.alloc()).expect(rt, "memory");
    let mut source = Counted::new(request.as_bytes());
    let mut sink = Counted::new(Vec::new(rt.alloc()));
    let cause = match desk.serve(rt.alloc(), &mut source, &mut sink) {
        Ok(_) => None,
        Err(fault) => Some(fault.cause),
    };
    (cause, sink.into_inner())
}

/// Checks that the reply to each line is 503, that serving stops with a fault of the store, and
/// that the desk has failed.
fn is_dead<K: Keeper>(rt: &(impl Abort + AllocGlobal), desk: &mut Desk<K>, script: &str) {
    for line in lines(rt.alloc(), script).expect(rt, "memory") {
        let (cause, reply) = stopped(rt, desk, &line);
        assert_eq!(rt; cause, Some(Cause::Store));
        assert!(rt; reply.starts_with(b"HTTP/1.1 503"));
        assert!(rt; desk.failed());
    }
}

/// Lets the disk fail at a change, checks that the desk then serves nobody, and returns the
/// connection.
fn dies_over<S: Alter + Drop>(
    rt: &(impl Abort + AllocGlobal),
    conn: Connection<S>,
    plan: &Plan,
    change: &str,
) -> Connection<S> {
    let mut desk = desk_over(rt, conn);
    let (cause, _) = stopped(rt, &mut desk, &Line::new("office  GET /status"));
    assert_eq!(rt; cause, None);
    assert!(rt; !desk.failed());
    plan.arm(0);
    is_dead(rt, &mut desk, change);
    is_dead(rt, &mut desk, SEEN);
    is_dead(rt, &mut desk, change);
    desk.into_keeper().into_connection()
}

/// Lets the disk fail at a change after these scripts, and checks that the desk then serves nobody.
pub(crate) fn dies(rt: &(impl Abort + AllocGlobal), fault: Fault, played: &[&str], change: &str) {
    let image = files_after(rt, played);
    let plan = Plan::new(fault);
    let (_, conn) = tried(rt, &image, &Attempt::Death(change), &plan, 0);
    let _left = left_of(rt, conn);
}

#[test]
fn a_store_that_failed_is_served_no_more(rt: HostRuntime) {
    let change = r#"office  POST /phase {"phase":"choosing"}"#;
    dies(&rt, Fault::Stop, &[INIT, SETUP], change);
    dies(&rt, Fault::Refusal, &[INIT, SETUP], change);
}
