//! The queues of a book in memory, however each is held: changed one by one, and looked through.
ghost use Rattle.std.specs.Prelude.{◌≡◌, ◌==◌, ℕ, suc, find, map, option_map, IfOk, IfSome, OnOk};
ghost use Rattle.std.specs.List.{AllByRecursion};
ghost use Rattle.std.specs.Option.{option_copied};
ghost use Rattle.gate_types.specs.Names.{same_name};
ghost use Rattle.gate_memory.specs.HeldQueues.{live_queued};

use crate::queues::QueueTable;
use gate_book_trait::QueuedItem;
use gate_types::edits::Edit;
use gate_types::names::NoMemory;
use gate_types::numbers::{ChangeNo, Serial};
use gate_types::records::Item;
use std::alloc::AllocError;

/// A queue as a book in memory holds it.
pub trait HoldsQueue {
    ghost use Rattle.std.specs.Prelude.{◌≡◌, ◌==◌, ℕ, suc, find, option_map, IfOk, OnOk};
    ghost use Rattle.std.specs.Option.{option_copied};
    ghost use Rattle.gate_types.specs.Names.{same_name};
    ghost use Rattle.gate_types.specs.declared.edits.Edit.{Edit};
    ghost use Rattle.gate_memory.specs.HeldQueues.{LiveQueue};

    // What it holds.
    ghost holds: { Self → LiveQueue };

    // What an edit makes of that.
    ghost edited: { Edit → LiveQueue → LiveQueue };

    // Its rows stand as they are to be.
    ghost IsKept: { Self → Type 0 };

    // It has room for so many more rows of each kind.
    ghost HasRoom: { ℕ → Self → Type 0 };

    /// Makes room for `n` more rows. Fails if memory is refused. Either way, the queue holds what it held.
    fn make_room(&mut self, n: usize) -> Result<(), AllocError>
        requires { IsKept self.old }
        ensures rows { holds self.new ≡ holds self.old }
        ensures kept { IsKept self.new }
        ensures room { OnOk result (HasRoom n self.new) };

    /// One edit, where there is room. An edit of other rows changes nothing.
    fn apply(&mut self, edit: &Edit)
        requires kept { IsKept self.old }
        requires room { HasRoom 1 self.old }
        ensures rows { holds self.new ≡ edited edit.now (holds self.old) }
        ensures kept { IsKept self.new }
        ensures room { (n : ℕ) → HasRoom (suc n) self.old → HasRoom n self.new };

    fn has_name(&self, name: &str) -> bool
        ensures { result ≡ same_name (holds self.now).rows.name name.now };

    /// The item of a serial.
    fn item(&self, serial: Serial) -> Option<&Item>
        requires { IsKept self.now }
        ensures { option_copied result ≡ find (λ i. i.serial == serial) (holds self.now).rows.items };

    /// The item of a change, with the name of the queue. Fails if memory for the name is refused.
    fn queued(&self, change: ChangeNo) -> Result<Option<QueuedItem>, NoMemory>
        requires { IsKept self.now }
        ensures { IfOk result (λ found. found
            ≡ option_map (λ i. record { queue = (holds self.now).rows.name; item = i })
            (find (λ i. i.change == change) (holds self.now).rows.items)) };
}

impl HoldsQueue for QueueTable {
    ghost use Rattle.gate_memory.specs.HeldQueues as held;
    ghost use Rattle.gate_memory.specs.Queues as queue;

    ghost holds = { held.whole_queue };

    ghost edited = { held.edited_whole };

    ghost IsKept = { queue.IsKeptQueueTable };

    ghost HasRoom = { queue.HasRoomForRows };

    fn make_room(&mut self, n: usize) -> Result<(), AllocError> {
        QueueTable::make_room(self, n)
    }

    fn apply(&mut self, edit: &Edit) {
        QueueTable::apply(self, edit)
    }

    fn has_name(&self, name: &str) -> bool {
        QueueTable::has_name(self, name)
    }

    fn item(&self, serial: Serial) -> Option<&Item> {
        QueueTable::item(self, serial)
    }

    fn queued(&self, change: ChangeNo) -> Result<Option<QueuedItem>, NoMemory> {
        QueueTable::queued(self, change)
    }
}

/// Makes room for `n` more rows in each queue. Fails if memory is refused. Either way, they hold what they held.
pub fn make_queues_room<Q: HoldsQueue>(queues: &mut Vec<Q>, n: usize) -> Result<(), AllocError>
    requires { AllByRecursion Q.IsKept queues.old.items }
    ensures rows { map Q.holds queues.new.items ≡ map Q.holds queues.old.items }
    ensures kept { AllByRecursion Q.IsKept queues.new.items }
    ensures room { OnOk result (AllByRecursion (Q.HasRoom n) queues.new.items) }
{
    for queue in queues.iter_mut() {
        queue.make_room(n)?;
    }
    Ok(())
}

/// One edit of each queue, where there is room.
pub fn apply_to_queues<Q: HoldsQueue>(queues: &mut Vec<Q>, edit: &Edit)
    requires kept { AllByRecursion Q.IsKept queues.old.items }
    requires room { AllByRecursion (Q.HasRoom 1) queues.old.items }
    ensures rows { map Q.holds queues.new.items ≡ map (Q.edited edit.now) (map Q.holds queues.old.items) }
    ensures kept { AllByRecursion Q.IsKept queues.new.items }
    ensures room { (n : ℕ) → AllByRecursion (Q.HasRoom (suc n)) queues.old.items
        → AllByRecursion (Q.HasRoom n) queues.new.items }
{
    for queue in queues.iter_mut() {
        queue.apply(edit);
    }
}

/// The queue of a name.
pub fn queue_in<'a, Q: HoldsQueue>(queues: &'a [Q], name: &str) -> Option<&'a Q>
    requires { AllByRecursion Q.IsKept queues.now }
    ensures found { option_copied result ≡ find (λ q. same_name (Q.holds q).rows.name name.now) queues.now }
    ensures kept { IfSome result (λ q. Q.IsKept q.now) }
{
    queues.iter().find(|queue| queue.has_name(name))
}

/// The item of a serial, in whichever queue it stands.
pub fn item_in<Q: HoldsQueue>(queues: &[Q], serial: Serial) -> Option<&Item>
    requires { AllByRecursion Q.IsKept queues.now }
    ensures { option_copied result ≡ option_map (λ k. k.item)
        (find (λ k. k.item.serial == serial) (live_queued (map Q.holds queues.now))) }
{
    for queue in queues {
        if let Some(item) = queue.item(serial) {
            return Some(item);
        }
    }
    None
}

/// The item of a change, with the name of its queue. Fails if memory for the name is refused.
pub fn queued_in<Q: HoldsQueue>(
    queues: &[Q],
    change: ChangeNo,
) -> Result<Option<QueuedItem>, NoMemory>
    requires { AllByRecursion Q.IsKept queues.now }
    ensures { IfOk result (λ found. found
        ≡ find (λ k. k.item.change == change) (live_queued (map Q.holds queues.now))) }
{
    for queue in queues {
        if let Some(found) = queue.queued(change)? {
            return Ok(Some(found));
        }
    }
    Ok(None)
}
