//! Tests the sheets of the second round, to the byte.

use crate::tests::portal::{after, gives};
use portal_desk::Ending;
use portal_fixtures::worked::{PUBLISHED_AGAIN, RANKING_AGAIN, REOPENED};
use std::process::Abort;

/// The office asks for both sheets.
const SHEETS: &str =
    "GET /allocation.csv HTTP/1.1\r\nHost: h\r\nportal-code: office-code-0\r\n\r\nGET /report HTTP/1.1\r\nHost: h\r\nportal-code: office-code-0\r\n\r\n";

/// The replies with the sheets of the first result.
const FIRST_SHEETS: &str =
    "HTTP/1.1 200 OK\r\ncontent-type: text/csv; charset=utf-8\r\ncontent-length: 91\r\n\r\nstudent,name,project,title,lecturer\nS1,Ann,P2,Kites,L1\nS2,\"Roe, Bea\",P1,Tides,L1\nS3,Cyr,,,\nHTTP/1.1 200 OK\r\ncontent-type: text/plain; charset=utf-8\r\ncontent-length: 208\r\n\r\nS1                P2                L1\nS2                P1                L1\nS3                (none)\n\nP1                 1 of    1\nP2                 1 of    1\nP3                 0 of    1\n\nassigned 2 of 3\n";

/// The replies with the sheets of both results.
const BOTH_SHEETS: &str =
    "HTTP/1.1 200 OK\r\ncontent-type: text/csv; charset=utf-8\r\ncontent-length: 100\r\n\r\nstudent,name,project,title,lecturer\nS1,Ann,P2,Kites,L1\nS2,\"Roe, Bea\",P1,Tides,L1\nS3,Cyr,P3,Bells,L2\nHTTP/1.1 200 OK\r\ncontent-type: text/plain; charset=utf-8\r\ncontent-length: 222\r\n\r\nS1                P2                L1\nS2                P1                L1\nS3                P3                L2\n\nP1                 1 of    1\nP2                 1 of    1\nP3                 1 of    1\n\nassigned 3 of 3\n";

/// The sheets show the first result alone until the second is published.
#[test]
fn the_sheets_are_there_in_each_phase(rt: HostRuntime) {
    are_sheets(&rt, REOPENED, FIRST_SHEETS);
    are_sheets(&rt, RANKING_AGAIN, FIRST_SHEETS);
    are_sheets(&rt, PUBLISHED_AGAIN, BOTH_SHEETS);
}

/// Checks both sheets after these scripts.
fn are_sheets(rt: &(impl Abort + AllocGlobal), scripts: &[&str], sheets: &str) {
    let mut desk = after(rt, scripts);
    gives(rt, &mut desk, SHEETS, Ending::End, 2, sheets);
}
