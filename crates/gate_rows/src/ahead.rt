//! What is ahead of a build, as the text of its column.
ghost use Rattle.std.specs.Prelude.{◌≡◌, IfOk, string_bytes};
ghost use Rattle.gate_schema.specs.AheadText.{ahead_text};

use gate_types::entries::{push_entry, separator};
use gate_types::records::Entry;
use std::alloc::{AllocError, Global};

/// The entries' text.
pub fn write_ahead(alloc: Global, ahead: &[Entry]) -> Result<String, AllocError>
    ensures { IfOk result (λ text. string_bytes text ≡ ahead_text ahead.now) }
{
    let mut text = String::from_str(alloc, "[")?;
    for (place, entry) in ahead.iter().enumerate() {
        push_entry(alloc, &mut text, separator(place), *entry)?;
    }
    text.push_str("]")?;
    Ok(text)
}
