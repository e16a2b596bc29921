//! Tests that a second stream over a portal in memory finds what the first one stored.

use crate::tests::steps::new_office_code;
use portal_whole::replies_in_memory;

/// The office's request to add a lecturer.
const ENROLS: &[u8] =
    b"POST /rolls/lecturers HTTP/1.1\r\nHost: h\r\nPortal-Code: office-code-0\r\nContent-Length: 43\r\n\r\nid,name,code,capacity\nL1,Lee,lee-code-01,2\n";

const ENROLLED: &[u8] =
    b"HTTP/1.1 200 OK\r\ncontent-type: application/json\r\ncontent-length: 20\r\n\r\n{\"added\":1,\"same\":0}";

/// The lecturer's request for `/me`.
const ASKS: &[u8] =
    b"GET /me HTTP/1.1\r\nHost: h\r\nPortal-Code: lee-code-01\r\nContent-Length: 0\r\n\r\n";

const TOLD: &[u8] =
    b"HTTP/1.1 200 OK\r\ncontent-type: application/json\r\ncontent-length: 72\r\n\r\n{\"capacity\":2,\"key\":\"L1\",\"name\":\"Lee\",\"phase\":\"setup\",\"role\":\"lecturer\"}";

#[test]
fn the_second_stream_finds_what_the_first_left(rt: HostRuntime) {
    let office = new_office_code(&rt);
    let streams = [ENROLS, ASKS];
    let texts = replies_in_memory(rt.alloc(), office, streams.as_slice()).expect(&rt, "served");
    assert_eq!(rt; texts.len(), 2);
    assert_eq!(rt; texts[0].as_slice(), ENROLLED);
    assert_eq!(rt; texts[1].as_slice(), TOLD);
}
