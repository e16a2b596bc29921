//! Parses and plays scripts, which have one request a line:
//!
//! ```text
//! # A list that names a project twice is refused.
//! ann  PUT /choices {"projects":["P1","P1"]}  422 {"at":2,"error":"bad_list","fault":"repeated"}
//! ann  GET /me                                200
//! ```
//!
//! - The fields are the caller, the request and the reply, separated by two or more spaces.
//! - The caller is a name of `callers`, or a code.
//! - The request is a method, a path and, after one space, a body. No body has two spaces in a row.
//! - The reply is a status and, after one space, a body. A line without a body accepts any body.
//! - In a body `\n`, `\r` and `\t` mean a line feed, a carriage return and a tab, and `\u{feff}`
//!   means a byte-order mark.
//! - Blank lines, and lines that begin with `#`, are comments.
//! - If the first line of a script is `among`, its other lines are played three times before each
//!   line of the scripts after it.
//!
//! `checks/years` plays the same texts through the program.

use crate::callers::code_of;
use crate::desks::output_for;
use portal_core::Keeper;
use portal_desk::{Counted, Desk, Ending, ServeFault, Served};
use portal_frame::{Frame, frame};
use portal_wire::reply_bytes;
use std::alloc::{AllocError, Global};

/// A line of a script.
#[derive(Clone, Copy)]
pub struct Line<'a> {
    pub text: &'a str,
    pub code: &'a str,
    pub method: &'a str,
    pub path: &'a str,
    pub body: &'a str,
    pub status: &'a str,
    pub answer: &'a str,
}

/// Returns the texts before and after the first gap. Without a gap, the second one is empty.
pub fn cut<'a>(text: &'a str, gap: &str) -> (&'a str, &'a str) {
    text.split_once(gap).unwrap_or((text, ""))
}

impl<'a> Line<'a> {
    /// Parses a line. Missing fields are empty.
    pub fn new(text: &'a str) -> Line<'a> {
        let (caller, rest) = cut(text, "  ");
        let (request, reply) = cut(rest.trim_start(), "  ");
        let (method, rest) = cut(request, " ");
        let (path, body) = cut(rest, " ");
        let (status, answer) = cut(reply.trim_start(), " ");
        let code = code_of(caller);
        Line {
            text,
            code,
            method,
            path,
            body,
            status,
            answer,
        }
    }

    /// Returns the text of the HTTP request.
    pub fn request(&self, alloc: Global) -> Result<String, AllocError> {
        let body = without_escapes(alloc, self.body)?;
        let length = body.len();
        format!(in alloc;
            "{} {} HTTP/1.1\r\nHost: h\r\nPortal-Code: {}\r\nContent-Length: {}\r\n\r\n{}",
            self.method,
            self.path,
            self.code,
            length,
            body.as_str()
        )
    }

    /// Returns the whole expected reply, or only its status line if the line has no reply body.
    pub fn reply(&self, alloc: Global) -> Result<String, AllocError> {
        let reason = reason_of(self.status);
        if self.answer.is_empty() {
            return format!(in alloc; "HTTP/1.1 {} {}\r\n", self.status, reason);
        }
        let body = without_escapes(alloc, self.answer)?;
        let length = body.len();
        format!(in alloc;
            "HTTP/1.1 {} {}\r\ncontent-type: {}\r\ncontent-length: {}\r\n\r\n{}",
            self.status,
            reason,
            self.kind(),
            length,
            body.as_str()
        )
    }

    /// Returns the content type of the reply.
    fn kind(&self) -> &'static str {
        if self.answer.starts_with('{') {
            "application/json"
        } else if self.path == "/report" {
            "text/plain; charset=utf-8"
        } else {
            "text/csv; charset=utf-8"
        }
    }

    /// Returns whether the bytes found match the wanted reply.
    fn is_answered(&self, wanted: &str, found: &[u8]) -> bool {
        if self.answer.is_empty() {
            found.starts_with(wanted.as_bytes())
        } else {
            found == wanted.as_bytes()
        }
    }
}

/// Replaces the escapes of a body by their characters.
pub fn without_escapes(alloc: Global, body: &str) -> Result<String, AllocError> {
    let text = body.replace(alloc, "\\n", "\n")?;
    let text = text.replace(alloc, "\\r", "\r")?;
    let text = text.replace(alloc, "\\t", "\t")?;
    text.replace(alloc, "\\u{feff}", "\u{feff}")
}

/// Returns the reason phrase of a status.
fn reason_of(status: &str) -> &'static str {
    match status {
        "200" => "OK",
        "400" => "Bad Request",
        "403" => "Forbidden",
        "404" => "Not Found",
        "409" => "Conflict",
        "422" => "Unprocessable Content",
        _ => "",
    }
}

/// Parses the lines of a script, without comments.
pub fn lines<'a>(alloc: Global, script: &'a str) -> Result<Vec<Line<'a>>, AllocError> {
    let mut lines = Vec::new(alloc);
    for text in script.lines() {
        if !text.is_empty() && !text.starts_with('#') {
            lines.push(Line::new(text))?;
        }
    }
    Ok(lines)
}

/// Sends the request of a line on a new connection, and returns the output.
pub fn ask<K: Keeper>(
    alloc: Global,
    desk: &mut Desk<K>,
    line: &Line,
) -> Result<Vec<u8>, AllocError> {
    let request = line.request(alloc)?;
    Ok(output_for(alloc, desk, request.as_bytes()))
}

/// Passes the request of a line to `Desk::respond`, and returns the text of the reply.
pub fn reply_to_line<K: Keeper>(
    alloc: Global,
    desk: &mut Desk<K>,
    line: &Line,
) -> Result<Vec<u8>, AllocError> {
    let text = line.request(alloc)?;
    match frame(alloc, text.as_bytes(), true)? {
        Frame::Request(request, _) => {
            let reply = desk.respond(alloc, &request);
            reply_bytes(alloc, &reply, false, request.close)
        }
        _ => Ok(Vec::new(alloc)),
    }
}

/// Plays a line on a new connection. If the reply is wrong, or the connection is not served to its
/// end, appends the line and both replies to `wrong`.
fn play_line<K: Keeper>(
    alloc: Global,
    desk: &mut Desk<K>,
    line: &Line,
    wrong: &mut String,
) -> Result<(), AllocError> {
    let request = line.request(alloc)?;
    let mut source = Counted::new(request.as_bytes());
    let mut sink = Counted::new(Vec::new(alloc));
    let is_served = is_whole(desk.serve(alloc, &mut source, &mut sink));
    let found = sink.into_inner();
    let wanted = line.reply(alloc)?;
    if is_served && line.is_answered(wanted.as_str(), found.as_slice()) {
        return Ok(());
    }
    let found = str::from_utf8(found.as_slice()).unwrap_or("no text");
    let told = format!(in alloc;
        "{}\nwanted {}\nfound  {}\n",
        line.text,
        wanted.as_str(),
        found
    )?;
    wrong.push_str(told.as_str())
}

/// Returns whether a connection with one request was served to its end.
fn is_whole(served: Result<Served, ServeFault>) -> bool {
    match served {
        Ok(served) => served.requests == 1 && served.ending == Ending::End,
        Err(_) => false,
    }
}

/// Plays the lines of a script in order.
fn play_script<K: Keeper>(
    alloc: Global,
    desk: &mut Desk<K>,
    script: &str,
    wrong: &mut String,
) -> Result<(), AllocError> {
    let lines = lines(alloc, script)?;
    for line in &lines {
        play_line(alloc, desk, line, wrong)?;
    }
    Ok(())
}

/// Plays the lines of a script in order, and the script `others` three times before each line.
fn play_among<K: Keeper>(
    alloc: Global,
    desk: &mut Desk<K>,
    script: &str,
    others: &str,
    wrong: &mut String,
) -> Result<(), AllocError> {
    let lines = lines(alloc, script)?;
    for line in &lines {
        play_script(alloc, desk, others, wrong)?;
        play_script(alloc, desk, others, wrong)?;
        play_script(alloc, desk, others, wrong)?;
        play_line(alloc, desk, line, wrong)?;
    }
    Ok(())
}

/// Plays scripts in order. Returns a description of the wrong replies, empty if there are none.
pub fn play<K: Keeper>(
    alloc: Global,
    desk: &mut Desk<K>,
    scripts: &[&str],
) -> Result<String, AllocError> {
    let mut wrong = String::new(alloc);
    let mut others = String::new(alloc);
    for script in scripts {
        match script.strip_prefix("among\n") {
            Some(more) => others = more.to_string(alloc)?,
            None => play_among(alloc, desk, script, others.as_str(), &mut wrong)?,
        }
    }
    Ok(wrong)
}
