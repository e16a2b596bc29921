//! Tests the output of connections, to the byte.

use crate::tests::portal::{fresh, gives, plays};
use portal_desk::Ending;

#[test]
fn no_body_where_only_the_head_is_asked(rt: HostRuntime) {
    let mut desk = fresh(&rt);
    let asked = "HEAD /catalogue HTTP/1.1\r\nHost: h\r\nportal-code: office-code-0\r\n\r\n";
    let wanted = "HTTP/1.1 200 OK\r\ncontent-type: application/json\r\ncontent-length: 15\r\n\r\n";
    gives(&rt, &mut desk, asked, Ending::End, 1, wanted);
}

#[test]
fn what_asks_to_close_closes(rt: HostRuntime) {
    let mut desk = fresh(&rt);
    let asked =
        "GET /me HTTP/1.1\r\nHost: h\r\nConnection: keep-alive, Close\r\n\r\nGET /me HTTP/1.1\r\n";
    let wanted =
        "HTTP/1.1 403 Forbidden\r\ncontent-type: application/json\r\ncontent-length: 21\r\nconnection: close\r\n\r\n{\"error\":\"no_caller\"}";
    gives(&rt, &mut desk, asked, Ending::Closed, 1, wanted);
}

const NO_LIST: &str = r#"
office  GET /choices     403 {"error":"not_yours"}
office  GET /ranking     403 {"error":"not_yours"}
office  GET /applicants  403 {"error":"not_yours"}
"#;

#[test]
fn the_office_has_no_list(rt: HostRuntime) {
    let mut desk = fresh(&rt);
    plays(&rt, &mut desk, NO_LIST);
}
