//! Drops the held changes that edits left neither ready nor queued.
ghost use Rattle.std.specs.Prelude.{◌≡◌, ◌==◌, map, find, fold, is_some};
ghost use Rattle.std.specs.List.{AllByRecursion};
ghost use Rattle.gate_live.specs.Held.{IsKeptQueue, queue_of};
ghost use Rattle.gate_live.specs.HeldChanges.{AreKeptChanges, changes_held, is_queued_in, without_left};

use crate::held_changes::{HeldChanges, change_touched};
use crate::held_queue::HeldQueue;
use gate_types::edits::Edit;
use gate_types::numbers::ChangeNo;

fn has_change(queue: &HeldQueue, change: ChangeNo) -> bool
    requires { IsKeptQueue queue.now }
    ensures { result ≡ is_some (find (λ i. i.change == change) (queue_of queue.now).rows.items) }
{
    queue.table().item_of(change).is_some()
}

/// Whether an item of these queues has this change.
pub(crate) fn is_queued(queues: &[HeldQueue], change: ChangeNo) -> bool
    requires { AllByRecursion IsKeptQueue queues.now }
    ensures { result ≡ is_queued_in (map queue_of queues.now) change }
{
    for queue in queues {
        if has_change(queue, change) {
            return true;
        }
    }
    false
}

/// Drops the row of the change that an edit puts or sets, or whose item an edit reports as left, unless the change is
/// ready or an item of these queues has it.
fn forget_touched(held: &mut HeldChanges, queues: &[HeldQueue], edit: &Edit)
    requires queues { AllByRecursion IsKeptQueue queues.now }
    requires kept { AreKeptChanges held.old }
    ensures rows { changes_held held.new ≡ without_left (map queue_of queues.now) (changes_held held.old) edit.now }
    ensures kept { AreKeptChanges held.new }
{
    if let Some(number) = change_touched(edit) {
        if !is_queued(queues, number) {
            held.forget(number);
        }
    }
}

/// Drops the changes that these edits left neither ready nor queued; the queues already contain the edits. So memory
/// grows with the changes that are ready or queued, not with the history.
pub(crate) fn forget_left(held: &mut HeldChanges, queues: &[HeldQueue], edits: &[Edit])
    requires queues { AllByRecursion IsKeptQueue queues.now }
    requires kept { AreKeptChanges held.old }
    ensures rows { changes_held held.new
        ≡ fold (without_left (map queue_of queues.now)) (changes_held held.old) edits.now }
    ensures kept { AreKeptChanges held.new }
{
    for edit in edits {
        forget_touched(held, queues, edit);
    }
}
