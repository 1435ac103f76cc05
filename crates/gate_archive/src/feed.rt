//! The text of accepted deliveries, line by line.
ghost use Rattle.std.specs.Prelude.{◌≡◌, [], ◌∷◌, ◌++◌, codes, decimal, IfOk, string_bytes};
ghost use Rattle.std.specs.List.{before_first, after_first};
ghost use Rattle.gate_types.specs.Columns.{row};
ghost use Rattle.gate_archive.specs.Feed.{is_k, with_id, id_named};

use gate_types::names::NoMemory;
use gate_types::records::Id;
use std::alloc::Global;
use uuid::Uuid;

/// A text before its first `k`, and behind it.
fn split_at_kind(said: &str) -> (&str, &str)
    ensures before { result.0.now ≡ before_first is_k said.now }
    ensures behind { result.1.now ≡ after_first is_k said.now }
{
    match said.split_once('k') {
        Some((before, behind)) => (before, behind),
        None => (said, ""),
    }
}

/// A text in two parts, with the id's digits between.
fn line_between(alloc: Global, before: &str, digits: &str, behind: &str) -> Result<String, NoMemory>
    ensures { IfOk result (λ s. string_bytes s ≡ before.now
        ++ (codes "id\":\"" ++ (digits.now ++ (codes "\",\"k" ++ (behind.now ++ 10 ∷ []))))) }
{
    format!(in alloc; "{before}id\":\"{digits}\",\"k{behind}\n")
}

/// The line of a delivery of this canonical text under this id. Memory is asked for once, for the line.
pub fn feed_line(alloc: Global, id: Id, said: &str) -> Result<String, NoMemory>
    ensures { IfOk result (λ s. string_bytes s ≡ with_id id said.now (10 ∷ [])) }
{
    let mut buffer = Uuid::encode_buffer();
    let id = Uuid::from_bytes(id.0);
    let digits = id.simple().encode_lower(&mut buffer);
    let (before, behind) = split_at_kind(said);
    line_between(alloc, before, digits, behind)
}

/// The last line of an answer, with how many lines stand before it.
pub fn feed_end(alloc: Global, count: u64) -> Result<String, NoMemory>
    ensures { IfOk result (λ s. string_bytes s ≡ row (codes "end" ∷ decimal count ∷ [])) }
{
    format!(in alloc; "end {count}\n")
}

/// The id that a text writes, in any of a UUID's forms that a delivery may have; None of any other text.
pub fn id_of(text: &str) -> Option<Id>
    ensures { result ≡ id_named text.now }
{
    match Uuid::parse_str(text) {
        Ok(id) => Some(Id(*id.as_bytes())),
        Err(_) => None,
    }
}
