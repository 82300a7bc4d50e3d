//! The bytes of a response, line by line (RFC 9112).
ghost use Rattle.std.specs.Prelude.{◌≡◌, ◌++◌, IfOk, OnOk, decimal, codes, length};
ghost use Rattle.desk_wire.specs.Responses.{line_end, field_line, status_line, first_lines, allow_line, close_line, sent_body, response_text, phrase, kind_name, method_name};

use crate::responses::{Allow, BodyKind, Response};
use desk_io::{Bytes, NoMemory};
use std::alloc::{AllocError, Global};

fn phrase_of(status: u16) -> &'static str
    ensures { result.now ≡ phrase status }
{
    match status {
        200 => "OK",
        400 => "Bad Request",
        404 => "Not Found",
        405 => "Method Not Allowed",
        409 => "Conflict",
        413 => "Content Too Large",
        422 => "Unprocessable Content",
        431 => "Request Header Fields Too Large",
        501 => "Not Implemented",
        503 => "Service Unavailable",
        507 => "Insufficient Storage",
        _ => "",
    }
}

fn kind_text(kind: BodyKind) -> &'static str
    ensures { result.now ≡ kind_name kind }
{
    match kind {
        BodyKind::Json => "application/json",
        BodyKind::Text => "text/plain; charset=utf-8",
    }
}

fn method_text(method: Allow) -> &'static str
    ensures { result.now ≡ method_name method }
{
    match method {
        Allow::Get => "GET",
        Allow::Post => "POST",
    }
}

fn push(text: &mut Vec<u8>, piece: &[u8]) -> Result<(), AllocError>
    ensures { OnOk result (text.new.items ≡ text.old.items ++ piece.now) }
{
    text.extend_from_slice(piece)
}

// The piece, and the end of its line.
fn push_ended(text: &mut Vec<u8>, piece: &[u8]) -> Result<(), AllocError>
    ensures { OnOk result (text.new.items ≡ text.old.items ++ piece.now ++ line_end) }
{
    push(text, piece)?;
    push(text, b"\r\n")?;
    Ok(())
}

fn push_field(text: &mut Vec<u8>, name: &[u8], value: &[u8]) -> Result<(), AllocError>
    ensures { OnOk result (text.new.items ≡ text.old.items ++ field_line name.now value.now) }
{
    push(text, name)?;
    push(text, b": ")?;
    push_ended(text, value)?;
    Ok(())
}

fn push_status(text: &mut Vec<u8>, alloc: Global, status: u16) -> Result<(), AllocError>
    ensures { OnOk result (text.new.items ≡ text.old.items ++ status_line status) }
{
    let digits = status.to_string(alloc)?;
    push(text, b"HTTP/1.1 ")?;
    push(text, digits.as_bytes())?;
    push(text, b" ")?;
    push_ended(text, phrase_of(status).as_bytes())?;
    Ok(())
}

fn push_kind(text: &mut Vec<u8>, kind: BodyKind) -> Result<(), AllocError>
    ensures { OnOk result (text.new.items ≡ text.old.items ++ field_line (codes "content-type") (kind_name kind)) }
{
    push_field(text, b"content-type", kind_text(kind).as_bytes())
}

fn push_length(text: &mut Vec<u8>, alloc: Global, len: usize) -> Result<(), AllocError>
    ensures { OnOk result (text.new.items ≡ text.old.items ++ field_line (codes "content-length") (decimal len)) }
{
    let digits = len.to_string(alloc)?;
    push_field(text, b"content-length", digits.as_bytes())
}

// The lines that each response has.
fn push_first_lines(
    text: &mut Vec<u8>,
    alloc: Global,
    response: &Response,
) -> Result<(), AllocError>
    ensures { OnOk result (text.new.items ≡ text.old.items ++ first_lines response.now) }
{
    push_status(text, alloc, response.status)?;
    push_kind(text, response.kind)?;
    push_length(text, alloc, response.body.len())?;
    Ok(())
}

fn push_allow(text: &mut Vec<u8>, allow: Option<Allow>) -> Result<(), AllocError>
    ensures { OnOk result (text.new.items ≡ text.old.items ++ allow_line allow) }
{
    match allow {
        None => Ok(()),
        Some(method) => push_field(text, b"allow", method_text(method).as_bytes()),
    }
}

fn push_close(text: &mut Vec<u8>, close: bool) -> Result<(), AllocError>
    ensures { OnOk result (text.new.items ≡ text.old.items ++ close_line close) }
{
    if close {
        push_field(text, b"connection", b"close")
    } else {
        Ok(())
    }
}

// The part of the body that is sent.
fn sent(response: &Response) -> &[u8]
    ensures { result.now ≡ sent_body response.now.bare response.now.body }
{
    if response.bare {
        &[]
    } else {
        response.body.as_slice()
    }
}

/// The bytes of a response, head and body.
pub fn response_bytes(alloc: Global, response: &Response) -> Result<Bytes, NoMemory>
    ensures { IfOk result (λ bytes. bytes ≡ response_text response.now) }
{
    let mut text = Vec::new(alloc);
    push_first_lines(&mut text, alloc, response)?;
    push_allow(&mut text, response.allow)?;
    push_close(&mut text, response.close)?;
    push_ended(&mut text, b"")?;
    push(&mut text, sent(response))?;
    Ok(Bytes::from_vec(text))
}
