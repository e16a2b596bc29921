//! Makes the reply to a refusal, and writes replies as bytes.

ghost use Rattle.std.specs.Prelude.{◌≡◌, IfOk, OnOk, ◌++◌, string_bytes};
ghost use Rattle.serde_json.specs.View.{view};
ghost use Rattle.portal_rules.specs.Answer.{HasWholeNumbers};
ghost use Rattle.portal_rules.specs.Meaning.{reply_model, body_model};
ghost use Rattle.portal_frame.specs.Stream.{refusal_content};
ghost use Rattle.portal_rules.specs.Bodies.{fault_body};
ghost use Rattle.portal_wire.specs.Wish.{answer_to};
ghost use Rattle.portal_wire.specs.Conversation.{reply_text, phrase_of, type_of, body_bytes};
ghost use Rattle.portal_wire.specs.Conversation.{reply_lines, common_lines, allow_line, close_line};

use portal_frame::Refusal;
use portal_rules::{Body, Reply};
use serde_json::{Map, Value, put};
use std::alloc::{AllocError, Global};

/// Makes the JSON body for the refusal of a stream or of a request that makes no call.
fn told_fault(alloc: Global, word: &str, row: Option<u32>) -> Result<Value, AllocError>
    ensures { IfOk result (λ body. view body ≡ fault_body word.now row) }
{
    let mut body = Map::new(alloc);
    put(&mut body, alloc, "error", Value::try_from_str(alloc, word)?)?;
    match row {
        Some(row) => {
            put(&mut body, alloc, "row", Value::from(row))?;
            Ok(Value::Object(body))
        }
        None => Ok(Value::Object(body)),
    }
}

/// Makes the reply for the refusal of a stream or of a request that makes no call.
///
/// # Errors
///
/// Memory ran out.
pub fn reply_of(alloc: Global, refusal: &Refusal) -> Result<Reply, AllocError>
    ensures reply { IfOk result (λ reply. reply_model reply
        ≡ answer_to (refusal_content refusal.now)) }
    ensures whole { IfOk result (λ reply. HasWholeNumbers (body_model reply.body)) }
{
    if refusal.status == 503 {
        return Ok(Reply::unavailable());
    }
    let body = told_fault(alloc, refusal.word, refusal.row)?;
    Ok(Reply {
        status: refusal.status,
        allow: refusal.allow,
        body: Body::Json(body),
    })
}

/// Returns the reason phrase of a status, for the status line of a reply.
fn phrase(status: u16) -> &'static str
    ensures { result.now ≡ phrase_of status }
{
    match status {
        200 => "OK",
        400 => "Bad Request",
        403 => "Forbidden",
        404 => "Not Found",
        405 => "Method Not Allowed",
        409 => "Conflict",
        413 => "Content Too Large",
        422 => "Unprocessable Content",
        501 => "Not Implemented",
        _ => "Service Unavailable",
    }
}

/// Returns the content type of a body, for the headers of a reply.
fn content_type(body: &Body) -> &'static str
    ensures { result.now ≡ type_of (body_model body.now) }
{
    match body {
        Body::Json(_) | Body::Unavailable => "application/json",
        Body::Csv(_) => "text/csv; charset=utf-8",
        Body::Plain(_) => "text/plain; charset=utf-8",
    }
}

/// Writes the body of a 503 reply as bytes.
fn unavailable_bytes(alloc: Global) -> Result<Vec<u8>, AllocError>
    ensures { IfOk result (λ bytes. bytes.items ≡ body_bytes (body_model Body.Unavailable)) }
{
    Vec::from_slice(alloc, b"{\"error\":\"unavailable\"}")
}

/// Writes the body of a reply as bytes.
fn bytes_of(alloc: Global, body: &Body) -> Result<Vec<u8>, AllocError>
    ensures { IfOk result (λ bytes. HasWholeNumbers (body_model body.now)
        → bytes.items ≡ body_bytes (body_model body.now)) }
{
    match body {
        Body::Json(value) => value.to_vec(alloc),
        Body::Csv(bytes) => Vec::from_slice(alloc, bytes.as_slice()),
        Body::Plain(bytes) => Vec::from_slice(alloc, bytes.as_slice()),
        Body::Unavailable => unavailable_bytes(alloc),
    }
}

/// Writes the status line and the headers that every reply has.
fn first_lines(alloc: Global, reply: &Reply, length: usize) -> Result<String, AllocError>
    ensures { IfOk result (λ text. string_bytes text
        ≡ common_lines reply.now.status (body_model reply.now.body) length) }
{
    let phrase = phrase(reply.status);
    let kind = content_type(&reply.body);
    format!(in alloc;
        "HTTP/1.1 {} {}\r\ncontent-type: {}\r\ncontent-length: {}\r\n",
        reply.status, phrase, kind, length
    )
}

/// Appends the header `allow` to a reply's headers, unless no methods are given.
fn push_allow(text: &mut String, allow: &str) -> Result<(), AllocError>
    ensures { OnOk result (string_bytes text.new ≡ string_bytes text.old ++ allow_line allow.now) }
{
    if allow.is_empty() {
        return Ok(());
    }
    text.push_str("allow: ")?;
    text.push_str(allow)?;
    text.push_str("\r\n")
}

/// Appends `connection: close` to a reply's headers if the connection closes.
fn push_close(text: &mut String, close: bool) -> Result<(), AllocError>
    ensures { OnOk result (string_bytes text.new ≡ string_bytes text.old ++ close_line close) }
{
    if close {
        return text.push_str("connection: close\r\n");
    }
    Ok(())
}

/// Writes the status line, the headers and the empty line after them.
fn head_text(alloc: Global, reply: &Reply, length: usize, close: bool) -> Result<String, AllocError>
    ensures { IfOk result (λ text. string_bytes text
        ≡ reply_lines (reply_model reply.now) length close) }
{
    let mut text = first_lines(alloc, reply, length)?;
    push_allow(&mut text, reply.allow)?;
    push_close(&mut text, close)?;
    text.push_str("\r\n")?;
    Ok(text)
}

/// Writes a reply as bytes. With `head_only` the body is omitted, but `content-length` gives its
/// length. `close` adds the header that closes the connection.
///
/// # Errors
///
/// Memory ran out.
pub fn reply_bytes(
    alloc: Global,
    reply: &Reply,
    head_only: bool,
    close: bool,
) -> Result<Vec<u8>, AllocError>
    ensures { IfOk result (λ bytes. HasWholeNumbers (body_model reply.now.body)
        → bytes.items ≡ reply_text (reply_model reply.now) head_only close) }
{
    let body = bytes_of(alloc, &reply.body)?;
    let mut bytes = head_text(alloc, reply, body.len(), close)?.into_bytes();
    if !head_only {
        bytes.extend_from_slice(body.as_slice())?;
    }
    Ok(bytes)
}
