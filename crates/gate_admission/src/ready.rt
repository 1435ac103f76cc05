//! The ready list, as it is after edits.
ghost use Rattle.std.specs.Prelude.{◌≡◌, ◌++◌, not, nat_lt, fold, filter, IfOk};
ghost use Rattle.gate_types.specs.State.{State};
ghost use Rattle.gate_book_trait.specs.Faults.{MayAnswer};
ghost use Rattle.gate_book_trait.specs.Reading.{IsRead};
ghost use Rattle.gate_admission.specs.Led.{IsLed};
ghost use Rattle.gate_admission.specs.Seen.{ready_without, with_approval, ready_after};
ghost use Rattle.gate_admission.specs.Candidates.{put_ready};

use gate_book_trait::{Book, BookFault};
use gate_types::edits::Edit;
use gate_types::names::NoMemory;
use gate_types::numbers::ChangeNo;
use gate_types::records::Ready;
use std::alloc::Global;

fn without(alloc: Global, ready: &[Ready], change: ChangeNo) -> Result<Vec<Ready>, NoMemory>
    ensures { IfOk result (λ found. found.items ≡ ready_without change ready.now) }
{
    let mut found = Vec::new(alloc);
    for row in ready {
        if row.change != change {
            found.push(*row)?;
        }
    }
    Ok(found)
}

fn push_before(found: Vec<Ready>, ready: &[Ready], approval: u64) -> Result<Vec<Ready>, NoMemory>
    ensures { IfOk result (λ all. all.items ≡ found.items ++ filter (λ r. nat_lt r.approval approval) ready.now) }
{
    let mut found = found;
    for row in ready {
        if row.approval < approval {
            found.push(*row)?;
        }
    }
    Ok(found)
}

fn push_behind(found: Vec<Ready>, ready: &[Ready], approval: u64) -> Result<Vec<Ready>, NoMemory>
    ensures { IfOk result (λ all. all.items ≡ found.items ++ filter (λ r. not (nat_lt r.approval approval)) ready.now) }
{
    let mut found = found;
    for row in ready {
        if approval <= row.approval {
            found.push(*row)?;
        }
    }
    Ok(found)
}

fn with_approval(
    alloc: Global,
    approval: Option<u64>,
    change: ChangeNo,
    ready: Vec<Ready>,
) -> Result<Vec<Ready>, NoMemory>
    ensures { IfOk result (λ all. all.items ≡ with_approval approval change ready.items) }
{
    let Some(approval) = approval else {
        return Ok(ready);
    };
    let mut all = push_before(Vec::new(alloc), ready.as_slice(), approval)?;
    all.push(Ready { approval, change })?;
    push_behind(all, ready.as_slice(), approval)
}

fn after(alloc: Global, ready: Vec<Ready>, edit: &Edit) -> Result<Vec<Ready>, NoMemory>
    ensures { IfOk result (λ all. all.items ≡ ready_after ready.items edit.now) }
{
    match edit {
        Edit::PutChange { change, approval } => {
            let others = without(alloc, ready.as_slice(), change.number)?;
            with_approval(alloc, *approval, change.number, others)
        }
        Edit::SetStage { change, .. } => without(alloc, ready.as_slice(), *change),
        _ => Ok(ready),
    }
}

fn after_all(alloc: Global, ready: Vec<Ready>, edits: &[Edit]) -> Result<Vec<Ready>, NoMemory>
    ensures { IfOk result (λ all. all.items ≡ fold ready_after ready.items edits.now) }
{
    let mut ready = ready;
    for edit in edits {
        ready = after(alloc, ready, edit)?;
    }
    Ok(ready)
}

/// The ready changes that the edits put.
pub(crate) fn ready_put(alloc: Global, edits: &[Edit]) -> Result<Vec<Ready>, NoMemory>
    ensures { IfOk result (λ found. found.items ≡ put_ready edits.now) }
{
    after_all(alloc, Vec::new(alloc), edits)
}

/// The ready list after the edits.
pub(crate) fn ready_list<B: Book>(
    alloc: Global,
    book: &mut B,
    edits: &[Edit],
) -> Result<Vec<Ready>, BookFault>
    ensures { IsRead B.IsTrusted B.Holds B.LeavesOneOf (MayAnswer B.MayFault) book.old book.new (λ c x.
        (v : State) → IsLed c x edits.now v → IfOk result (λ found. found.items ≡ v.ready)) result }
{
    let stored = book.ready()?.into_vec();
    Ok(after_all(alloc, stored, edits)?)
}
