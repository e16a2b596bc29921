//! Tests streams that one desk serves one after another.

use crate::tests::devices::is_text;
use crate::tests::portal::{NO_CALLER, fresh, reply, request};
use portal_desk::serve_streams;
use std::process::Abort;

/// The second stream adds a lecturer, who is unknown in the first and known in the third.
#[test]
fn each_stream_finds_what_the_one_before_left(rt: HostRuntime) {
    let me =
        r#"lee  GET /me  200 {"capacity":2,"key":"L1","name":"Lee","phase":"setup","role":"lecturer"}"#;
    let roll =
        r#"office  POST /rolls/lecturers id,name,code,capacity\nL1,Lee,lee-code-01,2\n  200 {"added":1,"same":0}"#;
    let (asks, enrols) = (request(&rt, me), request(&rt, roll));
    let (known, added) = (reply(&rt, me), reply(&rt, roll));
    let streams = [asks.as_bytes(), enrols.as_bytes(), asks.as_bytes()];
    let wanted = [NO_CALLER.as_bytes(), added.as_bytes(), known.as_bytes()];
    gets(&rt, streams.as_slice(), &wanted);
}

/// Checks what a fresh desk writes for three streams.
fn gets(rt: &(impl Abort + AllocGlobal), streams: &[&[u8]], wanted: &[&[u8]; 3]) {
    let mut desk = fresh(rt);
    let texts = serve_streams(rt.alloc(), &mut desk, streams).expect(rt, "served");
    are_texts(rt, &texts, wanted);
}

/// Checks three texts.
fn are_texts(rt: &impl Abort, texts: &[Vec<u8>], wanted: &[&[u8]; 3]) {
    assert_eq!(rt; texts.len(), 3);
    is_text(rt, texts[0].as_slice(), wanted[0]);
    is_text(rt, texts[1].as_slice(), wanted[1]);
    is_text(rt, texts[2].as_slice(), wanted[2]);
}
