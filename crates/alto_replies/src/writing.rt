ghost use Rattle.std.specs.Prelude.{◌≡◌, ◌≢◌, true, [], ◌++◌, codes, decimal, length, is_some, unwrap_or, Some, IfOk};
ghost use Rattle.std.specs.Prelude.{OnOk, IsTrue};
ghost use Rattle.alto_replies.specs.Reply.{IsReply, bytes_of, head_of, phrase_of, status_line, type_field};
ghost use Rattle.alto_replies.specs.Reply.{length_field, line, verb_text, allow_field, close_field};
ghost use Rattle.alto_http.specs.declared.request.Verb.TheVariants as verb;

use crate::body::Body;
use crate::reply::Reply;
use alto_http::Verb;
use std::alloc::{AllocError, Global};
use text_buffer::TextBuffer;

/// Room for a head, which few are longer than.
const HEAD_BYTES: usize = 256;

/// A body of more bytes isn't copied behind its head.
const LONGEST_COPIED: usize = 32768;

/// The bytes of a reply (RFC 9112, sections 4 to 6), after which the connection closes or not. Copies the body once.
/// Takes memory once, where the head isn't uncommonly long.
#[tactic(auto, unfolding(crate::specs::Reply::bytes_of))]
pub fn reply_bytes(alloc: Global, reply: &Reply, close: bool) -> Result<Vec<u8>, AllocError>
    requires { IsReply reply.now }
    ensures { IfOk result (λ bytes. bytes.items ≡ bytes_of reply.now close) }
{
    let size = reply.body.len()?;
    let mut text = TextBuffer::with_room(alloc, HEAD_BYTES.saturating_add(size))?;
    write_head(&mut text, reply, size, close)?;
    reply.body.append_to(&mut text)?;
    Ok(text.into_bytes())
}

/// Writes the bytes of a reply into a text, in place of what it had. A long body isn't copied: the text is the head
/// then, and the body is given, to be written behind it. So a short reply is one text, which one write puts out, and
/// takes no memory where the text has room for it.
#[tactic(auto, unfolding(crate::specs::Reply::bytes_of))]
pub fn write_reply(
    text: &mut TextBuffer,
    reply: Reply,
    close: bool,
) -> Result<Option<Body>, AllocError>
    requires { IsReply reply }
    ensures { IfOk result (λ rest. text.new ++ unwrap_or rest [] ≡ bytes_of reply close) }
{
    let size = reply.body.len()?;
    text.clear();
    if size > LONGEST_COPIED {
        write_head(text, &reply, size, close)?;
        return Ok(Some(reply.body));
    }
    text.make_room(HEAD_BYTES + size)?;
    write_head(text, &reply, size, close)?;
    reply.body.append_to(text)?;
    Ok(None)
}

/// Writes the status line and the fields, with the empty line after them.
fn write_head(
    text: &mut TextBuffer,
    reply: &Reply,
    size: usize,
    close: bool,
) -> Result<(), AllocError>
    requires reply { IsReply reply.now }
    requires size { size ≡ length reply.now.body }
    ensures { OnOk result (text.new ≡ text.old ++ head_of reply.now close) }
{
    write_first_lines(text, reply.status, reply.content_type, size)?;
    write_allow(text, reply.allow)?;
    write_close(text, close)?;
    text.push(b"\r\n")
}

/// Writes the status line, and the fields that each reply has. Most replies have the status 200.
fn write_first_lines(
    head: &mut TextBuffer,
    status: u16,
    media_type: &str,
    size: usize,
) -> Result<(), AllocError>
    requires { is_some (phrase_of status) ≡ true }
    ensures { OnOk result (head.new
        ≡ head.old ++ (status_line status ++ type_field media_type.now ++ length_field size)) }
{
    if status == 200 {
        return write_ok(head, media_type, size);
    }
    write_status(head, status)?;
    write_type(head, media_type)?;
    write_length(head, size)
}

/// The same of the status 200, in few calls.
fn write_ok(head: &mut TextBuffer, media_type: &str, size: usize) -> Result<(), AllocError>
    ensures { OnOk result (head.new
        ≡ head.old ++ (status_line 200 ++ type_field media_type.now ++ length_field size)) }
{
    write_texts(head, "HTTP/1.1 200 OK\r\nContent-Type: ", media_type)?;
    write_number(head, "\r\nContent-Length: ", size)
}

#[tactic(auto, unfolding(crate::specs::Reply::status_line))]
fn write_status(head: &mut TextBuffer, status: u16) -> Result<(), AllocError>
    requires { is_some (phrase_of status) ≡ true }
    ensures { OnOk result (head.new ≡ head.old ++ status_line status) }
{
    head.push(b"HTTP/1.1 ")?;
    head.push_number(status.into())?;
    write_line(head, " ", phrase(status))
}

#[tactic(auto, unfolding(crate::specs::Reply::type_field))]
fn write_type(head: &mut TextBuffer, media_type: &str) -> Result<(), AllocError>
    ensures { OnOk result (head.new ≡ head.old ++ type_field media_type.now) }
{
    write_line(head, "Content-Type: ", media_type)
}

#[tactic(auto, unfolding(crate::specs::Reply::length_field))]
fn write_length(head: &mut TextBuffer, size: usize) -> Result<(), AllocError>
    ensures { OnOk result (head.new ≡ head.old ++ length_field size) }
{
    write_number(head, "Content-Length: ", size)
}

#[tactic(auto, unfolding(crate::specs::Reply::allow_field))]
fn write_allow(head: &mut TextBuffer, allow: Option<Verb>) -> Result<(), AllocError>
    requires { allow ≢ Some verb.Other }
    ensures { OnOk result (head.new ≡ head.old ++ allow_field allow) }
{
    match allow {
        Some(method) => write_line(head, "Allow: ", method_text(method)),
        None => Ok(()),
    }
}

/// Writes a text, and one behind it.
fn write_texts(head: &mut TextBuffer, first: &str, second: &str) -> Result<(), AllocError>
    ensures { OnOk result (head.new ≡ head.old ++ (first.now ++ second.now)) }
{
    head.push(first.as_bytes())?;
    head.push(second.as_bytes())
}

/// Writes the rest of a line: a text, and a number behind it.
fn write_number(head: &mut TextBuffer, text: &str, number: usize) -> Result<(), AllocError>
    ensures { OnOk result (head.new ≡ head.old ++ line (text.now ++ decimal number)) }
{
    head.push(text.as_bytes())?;
    head.push_number(number as u64)?;
    head.push(b"\r\n")
}

/// Writes a line, or the rest of one: a text, and one behind it.
fn write_line(head: &mut TextBuffer, first: &str, second: &str) -> Result<(), AllocError>
    ensures { OnOk result (head.new ≡ head.old ++ line (first.now ++ second.now)) }
{
    head.push(first.as_bytes())?;
    head.push(second.as_bytes())?;
    head.push(b"\r\n")
}

#[tactic(auto, unfolding(crate::specs::Reply::close_field))]
fn write_close(head: &mut TextBuffer, close: bool) -> Result<(), AllocError>
    ensures { OnOk result (head.new ≡ head.old ++ close_field close) }
{
    if !close {
        return Ok(());
    }
    head.push(b"Connection: close\r\n")
}

fn phrase(status: u16) -> &'static str
    requires { is_some (phrase_of status) ≡ true }
    ensures { phrase_of status ≡ Some result.now }
{
    match status {
        200 => "OK",
        400 => "Bad Request",
        404 => "Not Found",
        405 => "Method Not Allowed",
        409 => "Conflict",
        410 => "Gone",
        411 => "Length Required",
        413 => "Content Too Large",
        415 => "Unsupported Media Type",
        422 => "Unprocessable Content",
        425 => "Too Early",
        431 => "Request Header Fields Too Large",
        501 => "Not Implemented",
        503 => "Service Unavailable",
        _ => unreachable!(),
    }
}

fn method_text(method: Verb) -> &'static str
    requires { method ≢ verb.Other }
    ensures { result.now ≡ verb_text method }
{
    match method {
        Verb::Get => "GET",
        Verb::Post => "POST",
        Verb::Other => unreachable!(),
    }
}
