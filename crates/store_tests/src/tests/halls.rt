//! Tests a socket connection on this machine, served over a database in memory.

use crate::tests::steps::{MemDesk, new_desk, plays};
use portal_fixtures::worked::ROLLS;
use portal_serve::{Ended, Hall, serve_on};
use std::io;
use std::io::{Read, Write};
use std::net::{Shutdown, TcpListener, TcpStream};
use std::process::Abort;

const FOUR: &str =
    "GET /me HTTP/1.1\r\nHost: h\r\nPortal-Code: office-code-0\r\n\r\nGET /me HTTP/1.1\r\nHost: h\r\nPortal-Code: ann-code-1\r\n\r\nGET /me HTTP/1.1\r\nHost: h\r\nPortal-Code: lee-code-01\r\n\r\nGET /me HTTP/1.1\r\nHost: h\r\n\r\n";

const FOUR_REPLIES: &str =
    "HTTP/1.1 200 OK\r\ncontent-type: application/json\r\ncontent-length: 33\r\n\r\n{\"phase\":\"setup\",\"role\":\"office\"}HTTP/1.1 200 OK\r\ncontent-type: application/json\r\ncontent-length: 58\r\n\r\n{\"key\":\"S1\",\"name\":\"Ann\",\"phase\":\"setup\",\"role\":\"student\"}HTTP/1.1 200 OK\r\ncontent-type: application/json\r\ncontent-length: 72\r\n\r\n{\"capacity\":2,\"key\":\"L1\",\"name\":\"Lee\",\"phase\":\"setup\",\"role\":\"lecturer\"}HTTP/1.1 403 Forbidden\r\ncontent-type: application/json\r\ncontent-length: 21\r\n\r\n{\"error\":\"no_caller\"}";

/// Connects, sends four requests, and shuts down the writing side.
fn caller(rt: &HostRuntime, listener: &TcpListener) -> io::Result<TcpStream> {
    let address = listener.local_addr()?;
    let mut stream = TcpStream::connect(rt, address)?;
    stream.write_all(FOUR.as_bytes())?;
    stream.shutdown(Shutdown::Write)?;
    Ok(stream)
}

/// Serves one connection. Returns the server's counts and the replies.
fn serve_one(rt: &HostRuntime, desk: &mut MemDesk) -> io::Result<(Hall, Vec<u8>)> {
    let listener = TcpListener::bind(rt, "127.0.0.1:0")?;
    let mut stream = caller(rt, &listener)?;
    let hall = serve_on(rt, &listener, 1, desk);
    let mut text = Vec::new(rt.alloc());
    stream.read_to_end(&mut text)?;
    Ok((hall, text))
}

#[test]
fn a_connection_of_a_socket(rt: HostRuntime) {
    let mut desk = new_desk(&rt);
    plays(&rt, &mut desk, &[ROLLS]);
    let (hall, text) = serve_one(&rt, &mut desk).expect(&rt, "a socket");
    assert_eq!(rt; text.as_slice(), FOUR_REPLIES.as_bytes());
    let wanted = Hall {
        accepted: 1,
        faults: 0,
        ended: Ended::Full,
    };
    assert_eq!(rt; hall, wanted);
}
