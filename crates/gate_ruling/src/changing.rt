//! A change is recorded anew.
ghost use Rattle.std.specs.Prelude.{◌≡◌, map, IfOk, Some};
ghost use Rattle.std.specs.List.Sorted.{IsStrictlyIncreasing};
ghost use Rattle.gate_types.specs.State.{State, put_change, is_open, known_change};
ghost use Rattle.gate_types.specs.Admit.{without_ready};
ghost use Rattle.gate_types.specs.Once.{Content};
ghost use Rattle.gate_reads.specs.Moves.{Moves};

use gate_types::edits::Edit;
use gate_types::names::NoMemory;
use gate_types::records::{Change, Stage};

/// Whether a change is open.
pub(crate) fn is_open(change: &Change) -> bool
    ensures { result ≡ is_open change.now }
{
    matches!(change.stage, Stage::Open)
}

/// Edits, and then the change's row anew, with its needs: it is ready no longer.
pub(crate) fn put_anew(edits: Vec<Edit>, change: Change) -> Result<Vec<Edit>, NoMemory>
    ensures { IfOk result (λ all. (x : Content) (t : State) →
        IsStrictlyIncreasing (map (λ k. k.number) t.changes) → Moves x edits.items t →
        Moves x all.items (put_change change (without_ready change.number t))) }
{
    let mut edits = edits;
    edits.push(Edit::PutChange {
        change,
        approval: None,
    })?;
    Ok(edits)
}

/// Edits, and then a known change at a stage: it is ready no longer, and the rest of its row stays.
pub(crate) fn set_at(edits: Vec<Edit>, known: &Change, stage: Stage) -> Result<Vec<Edit>, NoMemory>
    ensures { IfOk result (λ all. (x : Content) (t : State) →
        IsStrictlyIncreasing (map (λ k. k.number) t.changes) → known_change t known.now.number ≡ Some known.now →
        Moves x edits.items t →
        Moves x all.items (put_change (record known.now { stage = stage }) (without_ready known.now.number t))) }
{
    let mut edits = edits;
    edits.push(Edit::SetStage {
        change: known.number,
        stage,
    })?;
    Ok(edits)
}
