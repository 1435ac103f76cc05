//! Edits, one after another.
ghost use Rattle.std.specs.Prelude.{◌≡◌, ◌++◌, IfOk};
ghost use Rattle.gate_queue_rules.specs.Edits.{window_edits};

use gate_types::edits::Edit;
use gate_types::lists::with_one;
use gate_types::names::{Name, NoMemory};

/// Edits, and one more that sets the window of a queue, where it changes.
pub(crate) fn with_window(
    edits: Vec<Edit>,
    queue: &Name,
    old: u32,
    new: u32,
) -> Result<Vec<Edit>, NoMemory>
    ensures { IfOk result (λ all. all.items ≡ edits.items ++ window_edits queue.now old new) }
{
    if old == new {
        return Ok(edits);
    }
    let queue = queue.copy()?;
    with_one(edits, Edit::SetWindow { queue, window: new })
}
