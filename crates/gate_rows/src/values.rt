//! Values of rows, as parameters of statements.
ghost use Rattle.std.specs.Prelude.{◌≡◌, ◌<◌, ◌≤◌, ◌^◌, pos, MatchOption};
ghost use Rattle.sqlite.specs.Value.{owned};
ghost use Rattle.sqlite.specs.declared.types.Value.TheVariants.{Int, Text, Blob};
ghost use Rattle.gate_schema.specs.Rows.{bit, number_or_null};
ghost use Rattle.gate_types.specs.History.{landing_place};

use gate_types::numbers::{BuildNo, ChangeNo, Revision, Serial};
use gate_types::records::Verdict;
use sqlite::types::ValueRef;
use sqlite::{Error, ErrorCode};

/// A number as a parameter: a column can hold it below 2^63.
pub fn number<'a>(n: u64) -> ValueRef<'a>
    requires { n < 2 ^ 63 }
    ensures { owned result ≡ Int (pos n) }
{
    ValueRef::Int(n as i64)
}

/// None where a column can't hold the number.
pub(crate) fn any_number<'a>(n: u64) -> Option<ValueRef<'a>>
    ensures { MatchOption result (2 ^ 63 ≤ n) (λ v. owned v ≡ Int (pos n)) }
{
    if n < 9_223_372_036_854_775_808 {
        Some(ValueRef::Int(n as i64))
    } else {
        None
    }
}

/// A number or NULL; None where a column can't hold the number.
pub(crate) fn number_if_any<'a>(n: Option<u64>) -> Option<ValueRef<'a>>
    ensures { MatchOption result (MatchOption n ⊥ (λ m. 2 ^ 63 ≤ m)) (λ v. owned v ≡ number_or_null n) }
{
    match n {
        Some(n) if n < 9_223_372_036_854_775_808 => Some(ValueRef::Int(n as i64)),
        Some(_) => None,
        None => Some(ValueRef::Null),
    }
}

/// The place of the landing, where it landed; None where a column can't hold that.
pub(crate) fn landing_place<'a>(verdict: Verdict) -> Option<ValueRef<'a>>
    ensures { MatchOption result (MatchOption (landing_place verdict) ⊥ (λ m. 2 ^ 63 ≤ m)) (λ v.
        owned v ≡ number_or_null (landing_place verdict)) }
{
    match verdict {
        Verdict::Landed(n) if n < 9_223_372_036_854_775_808 => Some(ValueRef::Int(n as i64)),
        Verdict::Landed(_) => None,
        _ => Some(ValueRef::Null),
    }
}

/// The error for a number that a column can't hold.
pub(crate) fn too_large() -> Error {
    Error::SqliteFailure(ErrorCode::TooBig)
}

/// A serial as a parameter.
pub fn serial<'a>(n: Serial) -> ValueRef<'a>
    ensures { owned result ≡ Int (pos n) }
{
    number(n.get())
}

/// A serial or NULL.
pub(crate) fn serial_if_any<'a>(n: Option<Serial>) -> ValueRef<'a>
    ensures { owned result ≡ number_or_null n }
{
    match n {
        Some(n) => serial(n),
        None => ValueRef::Null,
    }
}

/// The number of a change as a parameter.
pub fn change<'a>(n: ChangeNo) -> ValueRef<'a>
    ensures { owned result ≡ Int (pos n) }
{
    number(n.get())
}

pub(crate) fn revision<'a>(n: Revision) -> ValueRef<'a>
    ensures { owned result ≡ Int (pos n) }
{
    number(n.get())
}

/// The number of a build as a parameter.
pub fn build<'a>(n: BuildNo) -> ValueRef<'a>
    ensures { owned result ≡ Int (pos n) }
{
    number(n.get())
}

/// A text as a parameter.
pub fn text<'a>(s: &'a str) -> ValueRef<'a>
    ensures { owned result ≡ Text s.now }
{
    ValueRef::Text(s.as_bytes())
}

/// A blob as a parameter.
pub fn bytes<'a>(b: &'a [u8]) -> ValueRef<'a>
    ensures { owned result ≡ Blob b.now }
{
    ValueRef::Blob(b)
}

/// 1 for true, 0 for false.
pub(crate) fn flag<'a>(b: bool) -> ValueRef<'a>
    ensures { owned result ≡ Int (pos (bit b)) }
{
    ValueRef::Int(if b { 1 } else { 0 })
}
