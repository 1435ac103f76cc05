//! What the fields of a head say of the body's length.
ghost use Rattle.std.specs.Prelude.{◌≡◌, length, map, All};
ghost use Rattle.std.specs.Str.{str_eq_ignore_ascii_case};
ghost use Rattle.httparse.specs.Spans.{IsHeaderWithin, header_bytes};
ghost use Rattle.gate_http.specs.Fields.{named, length_of, length_said};
ghost use Rattle.gate_http.specs.Parts.{ShowsNamed};

use crate::digits::number_of;
use gate_types::limits::MOST_BYTES;
use httparse::spans::{HeaderSpan, Span};

/// The length of a body.
#[derive(Clone, Copy)]
pub(crate) enum BodyLength {
    /// It isn't said.
    Missing,
    /// It is no number, or said twice.
    Bad,
    /// Over 65,536.
    Long,
    Bytes(usize),
}

/// The fields of a name: none, one with this value, or several.
#[derive(Clone, Copy)]
pub(crate) enum NamedField {
    None,
    One(Span),
    Several,
}

fn same_name(a: &[u8], b: &[u8]) -> bool
    ensures { result ≡ str_eq_ignore_ascii_case a.now b.now }
{
    a.eq_ignore_ascii_case(b)
}

fn find_named(head: &[u8], headers: &[HeaderSpan], name: &[u8]) -> NamedField
    requires { All (IsHeaderWithin (length head.now)) headers.now }
    ensures { ShowsNamed head.now result (named name.now (map (header_bytes head.now) headers.now)) }
{
    let mut found = NamedField::None;
    for header in headers {
        if same_name(header.name.of(head), name) {
            match found {
                NamedField::None => found = NamedField::One(header.value),
                _ => return NamedField::Several,
            }
        }
    }
    found
}

/// The length that a value says.
fn length_said(value: &[u8]) -> BodyLength
    ensures { result ≡ length_said value.now }
{
    match number_of(value, MOST_BYTES) {
        None => BodyLength::Bad,
        Some(n) if n > MOST_BYTES => BodyLength::Long,
        Some(n) => BodyLength::Bytes(n),
    }
}

/// The length of the body that follows a head.
pub(crate) fn body_length(head: &[u8], headers: &[HeaderSpan]) -> BodyLength
    requires { All (IsHeaderWithin (length head.now)) headers.now }
    ensures { result ≡ length_of (map (header_bytes head.now) headers.now) }
{
    match find_named(head, headers, b"transfer-encoding") {
        NamedField::None => match find_named(head, headers, b"content-length") {
            NamedField::None => BodyLength::Missing,
            NamedField::One(value) => length_said(value.of(head)),
            NamedField::Several => BodyLength::Bad,
        },
        _ => BodyLength::Missing,
    }
}
