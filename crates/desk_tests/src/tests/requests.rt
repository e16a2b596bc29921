//! Tests how bytes become requests and calls, and how replies become bytes.

use crate::tests::devices::is_text;
use crate::tests::frames::{finds, framed, owned};
use crate::tests::portal::{BAD_HEAD, filled, has_length, reply, says};
use portal_core::{Body, Call, Reply, Round, StudentRow};
use portal_fixtures::{Line, without_escapes};
use portal_wire::{Frame, Refusal, Request, call_of, reply_bytes, reply_of};
use serde_json::{Value, json};
use std::alloc::AllocError;
use std::process::Abort;

/// A request of 29 bytes.
const ME: &[u8] = b"GET /me HTTP/1.1\r\nHost: h\r\n\r\n";

/// Returns the request that these bytes are.
fn request(rt: &(impl Abort + AllocGlobal), bytes: &[u8]) -> Request {
    match framed(rt, bytes, false) {
        Frame::Request(request, used) => {
            has_length(rt, bytes, used);
            request
        }
        _ => panic!(rt; "no request"),
    }
}

/// Returns the refusal of these bytes. `ended` says whether the input ends after them.
fn refusal(rt: &(impl Abort + AllocGlobal), bytes: &[u8], ended: bool) -> Refusal {
    match framed(rt, bytes, ended) {
        Frame::Bad { refusal, .. } => refusal,
        _ => panic!(rt; "no refusal"),
    }
}

/// Checks the status and the word of a refusal.
fn is_refused(rt: &impl Abort, refusal: &Refusal, status: u16, word: &str) {
    assert!(rt; refusal.status == status);
    says(rt, refusal.word, word);
}

/// Builds the request of a line.
fn asked(rt: &(impl Abort + AllocGlobal), line: &Line) -> Request {
    let body = without_escapes(rt.alloc(), line.body).expect(rt, "memory");
    Request {
        method: bytes_of(rt, line.method),
        path: bytes_of(rt, line.path),
        code: bytes_of(rt, line.code),
        close: false,
        body: body.into_bytes(),
    }
}

/// Copies the bytes of a text.
fn bytes_of(rt: &(impl Abort + AllocGlobal), text: &str) -> Vec<u8> {
    Vec::from_slice(rt.alloc(), text.as_bytes()).expect(rt, "memory")
}

/// Returns the code and the call of a request.
fn called(rt: &(impl Abort + AllocGlobal), request: &Request) -> (Vec<u8>, Call) {
    match call_of(rt.alloc(), request) {
        Ok(found) => found,
        Err(_) => panic!(rt; "no call"),
    }
}

/// Returns the refusal of a line's request, which makes no call.
fn no_call(rt: &(impl Abort + AllocGlobal), line: &str) -> Refusal {
    match call_of(rt.alloc(), &asked(rt, &Line::new(line))) {
        Ok(_) => panic!(rt; "a call"),
        Err(refusal) => refusal,
    }
}

fn replied(status: u16, body: Body) -> Reply {
    Reply {
        status,
        allow: "",
        body,
    }
}

/// Checks the bytes of a reply.
fn writes(
    rt: &(impl Abort + AllocGlobal),
    reply: &Reply,
    head_only: bool,
    close: bool,
    text: &str,
) {
    let bytes = reply_bytes(rt.alloc(), reply, head_only, close).expect(rt, "memory");
    is_text(rt, bytes.as_slice(), text.as_bytes());
}

/// Checks that this body makes the reply of a line.
fn is_reply(rt: &(impl Abort + AllocGlobal), body: Body, line: &str) {
    let wanted = reply(rt, line);
    writes(rt, &replied(200, body), false, false, wanted.as_str());
}

/// Checks the bytes of the reply to a refusal.
fn refuses(rt: &(impl Abort + AllocGlobal), refusal: &Refusal, close: bool, text: &str) {
    let reply = reply_of(rt.alloc(), refusal).expect(rt, "memory");
    writes(rt, &reply, false, close, text);
}

/// Checks that a request is GET /me without a body, with this code, and whether it closes.
fn is_me(rt: &impl Abort, found: &Request, code: &[u8], close: bool) {
    is_text(rt, found.method.as_slice(), b"GET");
    is_text(rt, found.path.as_slice(), b"/me");
    is_text(rt, found.code.as_slice(), code);
    assert_eq!(rt; found.close, close);
    is_text(rt, found.body.as_slice(), b"");
}

#[test]
fn a_request_and_its_beginnings(rt: HostRuntime) {
    assert!(rt; ME.len() == 29);
    is_me(&rt, &request(&rt, ME), b"", false);
    for length in 0..29usize {
        finds(&rt, &ME[..length], false, "need");
    }
}

#[test]
fn the_end_of_the_input(rt: HostRuntime) {
    finds(&rt, b"", true, "end");
    for length in 1..29usize {
        finds(&rt, &ME[..length], true, "400 bad_head false");
    }
}

#[test]
fn what_a_head_says(rt: HostRuntime) {
    let query = b"GET /me?x=1 HTTP/1.1\r\nHost: h\r\n\r\n";
    is_me(&rt, &request(&rt, query), b"", false);
    let closes = b"GET /me HTTP/1.1\r\nHost: h\r\nConnection: keep-alive, Close\r\n\r\n";
    is_me(&rt, &request(&rt, closes), b"", true);
    let by_ann = b"GET /me HTTP/1.1\r\nHost: h\r\nPortal-Code: ann-code-1\r\n\r\n";
    is_me(&rt, &request(&rt, by_ann), b"ann-code-1", false);
}

#[test]
fn closing_refusals(rt: HostRuntime) {
    let half = b"GET /me HTTP/1.1\r\nHost: h\r\n";
    refuses(&rt, &refusal(&rt, half, true), true, BAD_HEAD);
    let long = b"PUT /choices HTTP/1.1\r\nHost: h\r\nContent-Length: 1048577\r\n\r\n";
    let wanted =
        "HTTP/1.1 413 Content Too Large\r\ncontent-type: application/json\r\ncontent-length: 21\r\nconnection: close\r\n\r\n{\"error\":\"too_large\"}";
    refuses(&rt, &refusal(&rt, long, false), true, wanted);
}

#[test]
fn the_longest_body(rt: HostRuntime) {
    let text =
        "PUT /choices HTTP/1.1\r\nHost: h\r\nContent-Length: 1048576\r\n\r\n{\"projects\":[]}";
    let bytes = filled(&rt, text, " ", 1_048_561, "");
    makes(&rt, &request(&rt, bytes.as_bytes()), "set choices");
}

/// Returns the word for a call.
fn word_of(call: &Call) -> &'static str {
    match call {
        Call::Me => "me",
        Call::Catalogue => "catalogue",
        Call::ShowChoices => "show choices",
        Call::SetChoices(_) => "set choices",
        Call::Applicants => "applicants",
        Call::ShowRanking => "show ranking",
        Call::SetRanking(_) => "set ranking",
        Call::Result => "result",
        Call::AddLecturers(_) => "add lecturers",
        Call::AddProjects(_) => "add projects",
        Call::AddStudents(_) => "add students",
        Call::Move { phase, .. } => phase.word(),
        Call::Status => "status",
        Call::Allocation => "allocation",
        Call::AllocationCsv => "allocation as csv",
        Call::Report => "report",
        Call::FillRankings => "fill rankings",
    }
}

/// Appends a word, with a space before it.
fn put_word(rt: &impl Abort, text: &mut String, word: &str) {
    text.push(' ').expect(rt, "memory");
    text.push_str(word).expect(rt, "memory");
}

fn put_keys(rt: &impl Abort, text: &mut String, list: &[Vec<u8>]) {
    for key in list {
        let key = str::from_utf8(key.as_slice()).expect(rt, "a text");
        put_word(rt, text, key);
    }
}

fn put_names(rt: &impl Abort, text: &mut String, rows: &[StudentRow]) {
    for row in rows {
        put_word(rt, text, row.name.as_str());
    }
}

/// Returns a call as a text.
fn told(rt: &(impl Abort + AllocGlobal), call: &Call) -> String {
    let mut text = owned(rt, word_of(call));
    match call {
        Call::SetChoices(list) => put_keys(rt, &mut text, list.as_slice()),
        Call::SetRanking(list) => put_keys(rt, &mut text, list.as_slice()),
        Call::AddStudents(rows) => put_names(rt, &mut text, rows.as_slice()),
        Call::Move { round, .. } => match round {
            Some(Round::First) => put_word(rt, &mut text, "of 1"),
            Some(Round::Second) => put_word(rt, &mut text, "of 2"),
            None => {}
        },
        _ => {}
    }
    text
}

/// Requests, and after `200` the calls that they make.
const CALLS: &str = r#"
ann  GET /me                          200 me
ann  HEAD /catalogue not looked at    200 catalogue
ann  GET /choices                     200 show choices
ann  GET /applicants                  200 applicants
ann  GET /ranking                     200 show ranking
ann  GET /result                      200 result
ann  GET /status                      200 status
ann  GET /allocation                  200 allocation
ann  GET /allocation.csv              200 allocation as csv
ann  GET /report                      200 report
"#;

const CALLS_WITH_BODIES: &str = r#"
ann  PUT /choices {"projects":["P2","P1"]}       200 set choices P2 P1
ann  POST /phase {"phase":"choosing"}            200 choosing
ann  POST /phase {"phase":"choosing","round":2}  200 choosing of 2
ann  POST /phase {"round":1,"phase":"ranking"}   200 ranking of 1
ann  POST /ranking/fill {}                       200 fill rankings
ann  POST /rolls/students id,name,code\nS1,Ann,ann-code-1\n  200 add students Ann
"#;

/// Checks that the requests of these lines make the calls that the lines name.
fn make_calls(rt: &(impl Abort + AllocGlobal), rows: &str) {
    for row in rows.lines().skip(1) {
        let line = Line::new(row);
        makes(rt, &asked(rt, &line), line.answer);
    }
}

/// Checks which call a request makes.
fn makes(rt: &(impl Abort + AllocGlobal), request: &Request, wanted: &str) {
    let (_, call) = called(rt, request);
    says(rt, told(rt, &call).as_str(), wanted);
}

#[test]
fn calls_that_show_and_calls_with_bodies(rt: HostRuntime) {
    make_calls(&rt, CALLS);
    make_calls(&rt, CALLS_WITH_BODIES);
    let mut blanks = Line::new("ann  PUT /ranking");
    blanks.body = r#" { "students" : [] } "#;
    makes(&rt, &asked(&rt, &blanks), "set ranking");
}

#[test]
fn the_code_goes_with_the_call(rt: HostRuntime) {
    let (code, _) = called(&rt, &asked(&rt, &Line::new("ann  GET /me")));
    is_text(&rt, code.as_slice(), b"ann-code-1");
}

/// Requests that are refused with 400 `bad_body`.
const BAD_BODIES: &str = r#"
ann  PUT /choices {"projects":[],"x":1}
ann  PUT /choices {"projects":[1]}
ann  PUT /ranking {"projects":[]}
ann  POST /phase {"phase":"closed"}
ann  POST /ranking/fill
ann  POST /ranking/fill {"x":1}
ann  POST /rolls/students
ann  POST /rolls/students id,name\n
"#;

/// Moves that are refused with 400 `bad_body`.
const BAD_MOVES: &str = r#"
ann  POST /phase {"phase":"choosing","round":0}
ann  POST /phase {"phase":"choosing","round":3}
ann  POST /phase {"phase":"choosing","round":-1}
ann  POST /phase {"phase":"choosing","round":2.0}
ann  POST /phase {"phase":"choosing","round":"2"}
ann  POST /phase {"phase":"choosing","round":null}
ann  POST /phase {"phase":"choosing","round":2,"x":1}
ann  POST /phase {"phase":"choosing","x":2}
ann  POST /phase {"phase":"closed","round":2}
ann  POST /phase {"phase":1}
ann  POST /phase {"round":2}
ann  POST /phase {}
"#;

/// Checks that the bodies of these lines' requests are refused.
fn are_bad_bodies(rt: &(impl Abort + AllocGlobal), rows: &str) {
    for row in rows.lines().skip(1) {
        is_refused(rt, &no_call(rt, row), 400, "bad_body");
    }
}

#[test]
fn bodies_and_moves_that_are_refused(rt: HostRuntime) {
    are_bad_bodies(&rt, BAD_BODIES);
    are_bad_bodies(&rt, BAD_MOVES);
}

#[test]
fn rolls_that_are_refused(rt: HostRuntime) {
    let short =
        r#"ann  POST /rolls/students id,name,code\nS1,Ann,short\n  422 {"error":"bad_row","row":1}"#;
    is_refused(&rt, &no_call(&rt, short), 422, "bad_row");
    is_told(&rt, short);
    let two = r"ann  POST /rolls/students id,name,code\nS1,Ann,ann-code-1\nS2,Bea\n";
    assert!(rt; no_call(&rt, two).row == Some(2));
}

#[test]
fn a_roll_too_long(rt: HostRuntime) {
    let opening = r"ann  POST /rolls/students id,name,code\n";
    let line = filled(&rt, opening, r"S1,Ann,ann-code-1\n", 2001, "");
    is_refused(&rt, &no_call(&rt, line.as_str()), 422, "roll_full");
}

#[test]
fn routes_and_methods(rt: HostRuntime) {
    is_told(&rt, r#"ann  GET /nowhere  404 {"error":"no_route"}"#);
    is_refused(&rt, &no_call(&rt, "ann  GET /ranking/"), 404, "no_route");
    let wanted =
        "HTTP/1.1 405 Method Not Allowed\r\ncontent-type: application/json\r\ncontent-length: 22\r\nallow: GET, HEAD\r\n\r\n{\"error\":\"bad_method\"}";
    refuses(&rt, &no_call(&rt, "ann  DELETE /catalogue"), false, wanted);
    allows(&rt, "ann  POST /choices", "GET, HEAD, PUT");
    allows(&rt, "ann  GET /ranking/fill", "POST");
}

/// Checks that the refusal of a line's request makes the reply of the line.
fn is_told(rt: &(impl Abort + AllocGlobal), line: &str) {
    refuses(rt, &no_call(rt, line), false, reply(rt, line).as_str());
}

/// Checks the methods that a refusal allows.
fn allows(rt: &(impl Abort + AllocGlobal), line: &str, methods: &str) {
    says(rt, no_call(rt, line).allow, methods);
}

/// Returns a body of this JSON.
fn json_body(rt: &impl Abort, made: Result<Value, AllocError>) -> Body {
    Body::Json(made.expect(rt, "memory"))
}

#[test]
fn replies_of_the_wire(rt: HostRuntime) {
    let ann =
        json!(in rt.alloc(); {"key": "S1", "name": "Ann", "phase": "setup", "role": "student"});
    let line = r#"ann  GET /me  200 {"key":"S1","name":"Ann","phase":"setup","role":"student"}"#;
    is_reply(&rt, json_body(&rt, ann), line);
    let nobody = json!(in rt.alloc(); {"error": "no_caller"});
    let wanted =
        "HTTP/1.1 403 Forbidden\r\ncontent-type: application/json\r\ncontent-length: 21\r\nconnection: close\r\n\r\n{\"error\":\"no_caller\"}";
    let body = json_body(&rt, nobody);
    writes(&rt, &replied(403, body), false, true, wanted);
}

#[test]
fn a_reply_to_head(rt: HostRuntime) {
    let none = Value::Array(Vec::new(rt.alloc()));
    let catalogue = json!(in rt.alloc(); {"projects": none});
    let wanted = "HTTP/1.1 200 OK\r\ncontent-type: application/json\r\ncontent-length: 15\r\n\r\n";
    let body = json_body(&rt, catalogue);
    writes(&rt, &replied(200, body), true, false, wanted);
}

#[test]
fn sheets_and_want_of_memory(rt: HostRuntime) {
    let csv = Body::Csv(bytes_of(&rt, "student,name\n"));
    is_reply(&rt, csv, r"office  GET /allocation.csv  200 student,name\n");
    let plain = Body::Plain(bytes_of(&rt, "assigned 2 of 3\n"));
    is_reply(&rt, plain, r"office  GET /report  200 assigned 2 of 3\n");
    let wanted =
        "HTTP/1.1 503 Service Unavailable\r\ncontent-type: application/json\r\ncontent-length: 23\r\n\r\n{\"error\":\"unavailable\"}";
    writes(&rt, &Reply::unavailable(), false, false, wanted);
}
