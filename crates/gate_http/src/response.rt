//! The text of a response, and its writing.
ghost use Rattle.std.specs.Prelude.{◌≡◌, ◌≤◌, ◌+◌, ◌++◌, [], false, true, OnOk, OnErr, length, vec_len, vec_capacity};
ghost use Rattle.gate_types.specs.Tap.{has_failed, Took, TookFront};
ghost use Rattle.gate_http.specs.Response.{phrase, head_line, status_line, head_text, allow_line, stream_head};
ghost use Rattle.gate_http.specs.Response.{front_in};
ghost use Rattle.gate_http.specs.Response.{head_in, head_room, written_in};

use crate::fault::HttpFault;
use gate_types::tap::{Failed, Tap};
use http::StatusCode;
use itoa::Buffer;
use std::io::Write;

/// The room that the head of a response needs at most.
pub(crate) const HEAD_ROOM: usize = 256;

/// The statuses that are answered.
const STATUSES: [u16; 11] = [200, 400, 404, 405, 409, 411, 413, 422, 431, 503, 507];

/// How an answer is written.
#[derive(Clone, Copy)]
pub enum Form {
    /// A response: its head, and the content.
    Response,
    /// The content alone.
    Content,
}

/// How much of an answer is written: one to `HEAD` has no content (RFC 9110, section 9.3.2).
#[derive(Clone, Copy)]
pub enum Extent {
    /// The head and the content.
    Whole,
    /// The head alone.
    Head,
}

/// The type of an answer's content.
#[derive(Clone, Copy)]
pub enum Media {
    Json,
    /// Plain text, where it is there; a refusal is JSON.
    Plain,
}

/// The phrase of a status that is answered. Any other has none here, whatever the crate has for it.
fn phrase_of(status: u16) -> &'static str
    ensures value { result.now ≡ phrase status }
    ensures short { length result.now ≤ 31 }
{
    if !STATUSES.contains(&status) {
        return "";
    }
    match StatusCode::from_u16(status) {
        Ok(code) => code.canonical_reason().unwrap_or(""),
        Err(_) => "",
    }
}

/// The line of the method that a route takes.
pub(crate) fn allow_of(fault: HttpFault) -> &'static str
    ensures value { result.now ≡ allow_line fault }
    ensures short { length result.now ≤ 13 }
{
    match fault {
        HttpFault::NotPost => "Allow: POST\r\n",
        HttpFault::NotGet => "Allow: GET\r\n",
        _ => "",
    }
}

/// Appends the text where there is room for it.
fn put(room: &mut Vec<u8>, text: &str)
    requires { vec_len room.old + length text.now ≤ vec_capacity room.old }
    ensures items { room.new.items ≡ room.old.items ++ text.now }
    ensures len { vec_len room.new ≡ vec_len room.old + length text.now }
    ensures capacity { vec_capacity room.old ≤ vec_capacity room.new }
{
    room.extend_from_slice(text.as_bytes()).unwrap();
}

/// Appends the line of a status.
fn put_status_line(room: &mut Vec<u8>, status: u16)
    requires { vec_len room.old + 83 ≤ vec_capacity room.old }
    ensures items { room.new.items ≡ room.old.items ++ status_line status }
    ensures len { vec_len room.new ≤ vec_len room.old + 83 }
    ensures capacity { vec_capacity room.old ≤ vec_capacity room.new }
{
    let mut digits = Buffer::new();
    put(room, "HTTP/1.1 ");
    put(room, digits.format(status));
    put(room, " ");
    put(room, phrase_of(status));
    put(room, "\r\n");
}

/// Appends a line.
fn put_line(room: &mut Vec<u8>, name: &str, value: &str)
    requires { vec_len room.old + length name.now + length value.now + 2 ≤ vec_capacity room.old }
    ensures items { room.new.items ≡ room.old.items ++ head_line name.now value.now }
    ensures len { vec_len room.new ≡ vec_len room.old + length name.now + length value.now + 2 }
    ensures capacity { vec_capacity room.old ≤ vec_capacity room.new }
{
    put(room, name);
    put(room, value);
    put(room, "\r\n");
}

/// The head of a response. It takes no memory but the room.
fn put_head(room: &mut Vec<u8>, status: u16, kind: &str, len: usize, allow: &str)
    requires empty { room.old.items ≡ [] }
    requires room { head_room ≤ vec_capacity room.old }
    requires kind { length kind.now ≤ 16 }
    requires allow { length allow.now ≤ 13 }
    ensures { room.new.items ≡ head_text status kind.now len allow.now }
{
    let mut digits = Buffer::new();
    put_status_line(room, status);
    put_line(room, "Content-Type: ", kind);
    put_line(room, "Content-Length: ", digits.format(len));
    put(room, allow);
    put(room, "Connection: close\r\n\r\n");
}

/// The head of an answer, which has one if it is a response.
fn put_head_in(room: &mut Vec<u8>, form: Form, status: u16, kind: &str, len: usize, allow: &str)
    requires empty { room.old.items ≡ [] }
    requires room { head_room ≤ vec_capacity room.old }
    requires kind { length kind.now ≤ 16 }
    requires allow { length allow.now ≤ 13 }
    ensures { room.new.items ≡ head_in form (head_text status kind.now len allow.now) }
{
    match form {
        Form::Response => put_head(room, status, kind, len, allow),
        Form::Content => {}
    }
}

/// The head of a response that is written line by line.
fn stream_head() -> &'static str
    ensures { result.now ≡ stream_head }
{
    "HTTP/1.1 200 OK\r\nContent-Type: text/plain\r\nConnection: close\r\n\r\n"
}

/// What stands before the lines of an answer.
pub(crate) fn front_of(form: Form) -> &'static str
    ensures { result.now ≡ front_in form }
{
    match form {
        Form::Response => stream_head(),
        Form::Content => "",
    }
}

/// Writes an answer: if it is a response, a head for a content of `len` bytes; then the content, or nothing. The room
/// is that for the head.
pub(crate) fn write_answer<W: Write>(
    writer: &mut Tap<W>,
    room: &mut Vec<u8>,
    form: Form,
    status: u16,
    kind: &str,
    len: usize,
    allow: &str,
    content: &str,
) -> Result<(), Failed>
    requires writer { has_failed writer.old ≡ false }
    requires empty { room.old.items ≡ [] }
    requires room { head_room ≤ vec_capacity room.old }
    requires kind { length kind.now ≤ 16 }
    requires allow { length allow.now ≤ 13 }
    ensures ok { OnOk result (Took W.contents writer.old writer.new
        (written_in form (head_text status kind.now len allow.now) content.now)) }
    ensures err { OnErr result (TookFront W.contents writer.old writer.new
        (written_in form (head_text status kind.now len allow.now) content.now)) }
    ensures unfailed { OnOk result (has_failed writer.new ≡ false) }
    ensures failed { OnErr result (has_failed writer.new ≡ true) }
{
    put_head_in(room, form, status, kind, len, allow);
    writer.write_all(room.as_slice())?;
    writer.write_all(content.as_bytes())?;
    Ok(())
}
