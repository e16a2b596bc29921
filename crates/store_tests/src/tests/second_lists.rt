//! Tests the replies to each role in each phase of the second round, with equal bytes from a
//! database in memory and from lists.

use crate::tests::steps::{new_desk, new_lists, plays};
use portal_core::Keeper;
use portal_desk::Desk;
use portal_fixtures::worked::FIRST_ROUND;
use portal_fixtures::{ANN, CYR, LEE, Line, MOE, OFFICE, ask, cut, lines};
use std::process::Abort;

/// The callers: an unknown one, a student with a project and one without, a lecturer without room
/// and one with room, and the office.
const CALLERS: [&str; 6] = ["nobody-here", ANN, CYR, LEE, MOE, OFFICE];

/// Returns the beginning of the replies that have this mark.
fn status_of(mark: u8) -> &'static str {
    match mark {
        b'2' => "HTTP/1.1 200",
        b'3' => "HTTP/1.1 403",
        b'4' => "HTTP/1.1 422",
        _ => "HTTP/1.1 409",
    }
}

/// Sends the request of a line to both desks. Checks the status, and that both desks return equal
/// bytes.
fn are_alike<K: Keeper, L: Keeper>(
    rt: &(impl Abort + AllocGlobal),
    desk: &mut Desk<K>,
    lists: &mut Desk<L>,
    text: &str,
    wanted: &str,
) {
    let line = Line::new(text);
    let reply = ask(rt.alloc(), desk, &line).expect(rt, "memory");
    let other = ask(rt.alloc(), lists, &line).expect(rt, "memory");
    assert!(rt; reply.starts_with(wanted.as_bytes()), "{text}");
    assert!(rt; reply.as_slice() == other.as_slice(), "{text}");
}

/// Sends the row's request from each caller to both desks. Checks the statuses by the marks, and
/// that both desks return equal bytes.
fn is_answered<K: Keeper, L: Keeper>(
    rt: &(impl Abort + AllocGlobal),
    desk: &mut Desk<K>,
    lists: &mut Desk<L>,
    row: &Line,
) {
    assert_eq!(rt; row.status.len(), CALLERS.len());
    let (_, request) = cut(row.text, "  ");
    for (code, mark) in CALLERS.iter().zip(row.status.as_bytes()) {
        let text = format!(in rt.alloc(); "{code}  {request}").expect(rt, "memory");
        are_alike(rt, desk, lists, text.as_str(), status_of(*mark));
    }
}

/// Checks these rows in order.
fn are_answered<K: Keeper, L: Keeper>(
    rt: &(impl Abort + AllocGlobal),
    desk: &mut Desk<K>,
    lists: &mut Desk<L>,
    rows: &str,
) {
    for row in lines(rt.alloc(), rows).expect(rt, "memory") {
        is_answered(rt, desk, lists, &row);
    }
}

/// Requests that get the same statuses in each phase. Each row has a request, and a mark for the
/// status that each caller in turn gets. The last rows are refused: rolls, and moves to setup or to
/// the first round.
const ALWAYS: &str = r#"
each  GET /me                                            322222
each  GET /catalogue                                     322222
each  GET /choices                                       322333
each  GET /result                                        322223
each  GET /status                                        333332
each  GET /allocation                                    333332
each  GET /allocation.csv                                333332
each  GET /report                                        333332
each  POST /rolls/students id,name,code\n                333339
each  POST /rolls/projects id,lecturer,title,capacity\n  333339
each  POST /rolls/lecturers id,name,code,capacity\n      333339
each  POST /phase {"phase":"setup"}                      333339
each  POST /phase {"phase":"published","round":1}        333339
each  POST /phase {"phase":"choosing","round":1}         333339
"#;

/// Requests in choosing.
const CHOOSING: &str = r#"
each  PUT /choices {"projects":["P1"]}            394333
each  PUT /choices {"projects":["P3"]}            392333
each  GET /applicants                             333993
each  GET /ranking                                333993
each  PUT /ranking {"students":["S3"]}            333993
each  POST /ranking/fill {}                       333339
each  POST /phase {"phase":"published"}           333339
each  POST /phase {"phase":"choosing","round":2}  333332
"#;

/// The move to ranking.
const TO_RANKING: &str = r#"
each  POST /phase {"phase":"ranking"}  333332
"#;

/// Requests in ranking, where one lecturer has an applicant.
const RANKING: &str = r#"
each  PUT /choices {"projects":["P3"]}   399333
each  GET /applicants                    333223
each  GET /ranking                       333223
each  POST /phase {"phase":"choosing"}   333339
each  POST /phase {"phase":"published"}  333339
each  PUT /ranking {"students":["S2"]}   333443
each  PUT /ranking {"students":["S3"]}   333423
each  POST /ranking/fill {}              333332
"#;

/// The move to published.
const TO_PUBLISHED: &str = r#"
each  POST /phase {"phase":"published"}  333332
"#;

/// Requests in published, the last phase.
const PUBLISHED: &str = r#"
each  PUT /choices {"projects":["P3"]}             399333
each  GET /applicants                              333223
each  GET /ranking                                 333223
each  PUT /ranking {"students":["S3"]}             333993
each  POST /ranking/fill {}                        333339
each  POST /phase {"phase":"choosing","round":2}   333339
each  POST /phase {"phase":"ranking"}              333339
each  POST /phase {"phase":"published","round":2}  333332
"#;

/// The phases in order, with `ALWAYS` before and after the rows of each.
const PHASES: &[&str] = &[
    ALWAYS,
    CHOOSING,
    ALWAYS,
    TO_RANKING,
    ALWAYS,
    RANKING,
    ALWAYS,
    TO_PUBLISHED,
    ALWAYS,
    PUBLISHED,
    ALWAYS,
];

/// Plays the first round on both desks, and checks all rows. Generic, because proofs over
/// `MemStore` are slow.
fn all_are_answered<K: Keeper + Drop, L: Keeper + Drop>(
    rt: &(impl Abort + AllocGlobal),
    desk: Desk<K>,
    lists: Desk<L>,
) {
    let mut desk = desk;
    let mut lists = lists;
    plays(rt, &mut desk, FIRST_ROUND);
    plays(rt, &mut lists, FIRST_ROUND);
    let opening = r#"each  POST /phase {"phase":"choosing","round":2}  333332"#;
    are_answered(rt, &mut desk, &mut lists, opening);
    for rows in PHASES {
        are_answered(rt, &mut desk, &mut lists, rows);
    }
}

#[test]
fn each_role_in_each_phase(rt: HostRuntime) {
    all_are_answered(&rt, new_desk(&rt), new_lists(&rt));
}
