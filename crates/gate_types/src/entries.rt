//! Lists of entries as texts, written entry by entry.
ghost use Rattle.std.specs.Prelude.{◌≡◌, ◌==◌, if◌then◌else◌, [], ◌++◌, codes, OnOk, string_bytes};
ghost use Rattle.gate_types.specs.JsonText.{entry as entry_piece};

use crate::names::NoMemory;
use crate::records::Entry;
use std::alloc::Global;

/// Adds a separator, and a change at its revision.
pub fn push_entry(
    alloc: Global,
    text: &mut String,
    separator: &str,
    entry: Entry,
) -> Result<(), NoMemory>
    ensures { OnOk result (string_bytes text.new ≡ string_bytes text.old ++ (separator.now ++ entry_piece entry [])) }
{
    let change = entry.change.get();
    let revision = entry.revision.get();
    let piece = format!(in alloc; "{separator}[{change},{revision}]")?;
    text.push_str(piece.as_str())?;
    Ok(())
}

/// What stands before the entry at an index.
pub fn separator(index: usize) -> &'static str
    ensures { result.now ≡ if index == 0 then [] else codes "," }
{
    if index == 0 { "" } else { "," }
}
