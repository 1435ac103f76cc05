//! Values in JSON, and lists of them.
ghost use Rattle.std.specs.Prelude.{◌≡◌, IfOk, OnOk, string_bytes};
ghost use Rattle.gate_texts.specs.Listed.{comma_behind, with_entry};
ghost use Rattle.gate_texts.specs.Values.{in_quotes, number_text};

use gate_types::names::NoMemory;
use std::alloc::Global;

/// A number, or null.
pub(crate) fn number_text(alloc: Global, number: Option<u64>) -> Result<String, NoMemory>
    ensures { IfOk result (λ s. string_bytes s ≡ number_text number) }
{
    match number {
        Some(number) => format!(in alloc; "{number}"),
        None => String::from_str(alloc, "null"),
    }
}

/// A name in quotes: none needs an escape.
pub(crate) fn in_quotes(alloc: Global, name: &str) -> Result<String, NoMemory>
    ensures { IfOk result (λ s. string_bytes s ≡ in_quotes name.now) }
{
    format!(in alloc; "\"{name}\"")
}

/// What stands between a list and its next element.
fn comma_behind(list: &str) -> &'static str
    ensures { result.now ≡ comma_behind list.now }
{
    if list.is_empty() { "" } else { "," }
}

/// One more element of a list.
pub(crate) fn push_entry(list: &mut String, entry: &str) -> Result<(), NoMemory>
    ensures { OnOk result (string_bytes list.new ≡ with_entry (string_bytes list.old) entry.now) }
{
    let comma = comma_behind(list.as_str());
    list.push_str(comma)?;
    list.push_str(entry)?;
    Ok(())
}
