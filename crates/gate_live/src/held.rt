//! The live rows of all queues, and the counters, held in memory.
ghost use Rattle.std.specs.Prelude.{◌≡◌, ◌==◌, ℕ, suc, find, length, map, option_map, IfOk, IfSome, OnOk};
ghost use Rattle.std.specs.List.{AllByRecursion};
ghost use Rattle.std.specs.Option.{option_copied, option_map_or};
ghost use Rattle.gate_types.specs.Counters.{capped};
ghost use Rattle.gate_book_trait.specs.Reads as read;
ghost use Rattle.gate_memory.specs.Queues as queue_table;
ghost use Rattle.gate_memory.specs.HeldQueues.{live_queued};
ghost use Rattle.gate_memory.specs.Named.{items_found};
ghost use Rattle.gate_live.specs.Live.{edited_live, fold_live, live_named, live_items};
ghost use Rattle.gate_live.specs.Held.{HasRoomInEach, AreKeptQueues, IsKeptQueue, live_of, queue_of};

use crate::held_queue::HeldQueue;
use gate_book_trait::QueuedItem;
use gate_memory::{
    LastNumbers, QueueTable, apply_to_queues, item_in, make_queues_room, queue_in, queued_in,
};
use gate_types::edits::Edit;
use gate_types::names::{Name, NoMemory};
use gate_types::numbers::{ChangeNo, Serial};
use gate_types::records::{Counters, Item};
use gate_types::sequence::Sequence;
use std::alloc::{AllocError, Global};

/// The held queues, in the order of the settings, and the last numbers drawn.
#[derive(Drop)]
pub struct Held {
    queues: Vec<HeldQueue>,
    drawn: LastNumbers,
}

impl Held {
    pub(crate) fn new(queues: Vec<HeldQueue>, counters: Counters) -> Held
        requires { AllByRecursion IsKeptQueue queues.items }
        ensures rows { live_of result ≡ record { queues = map queue_of queues.items; counters = counters } }
        ensures kept { AreKeptQueues result }
    {
        Held {
            queues,
            drawn: LastNumbers::from_counters(counters),
        }
    }

    /// Allocates room for `n` edits. Fails if memory is refused. Either way, the held rows stay unchanged.
    pub(crate) fn make_room(&mut self, n: usize) -> Result<(), AllocError>
        requires { AreKeptQueues self.old }
        ensures rows { live_of self.new ≡ live_of self.old }
        ensures kept { AreKeptQueues self.new }
        ensures room { OnOk result (HasRoomInEach n self.new) }
    {
        make_queues_room(&mut self.queues, n)?;
        Ok(())
    }

    /// Applies an edit. Each queue must have room for one more item.
    fn apply(&mut self, edit: &Edit)
        requires kept { AreKeptQueues self.old }
        requires room { HasRoomInEach 1 self.old }
        ensures rows { live_of self.new ≡ edited_live (live_of self.old) edit.now }
        ensures kept { AreKeptQueues self.new }
        ensures room { (n : ℕ) → HasRoomInEach (suc n) self.old → HasRoomInEach n self.new }
    {
        apply_to_queues(&mut self.queues, edit);
        self.drawn.apply(edit);
    }

    /// Applies all edits. Each queue must have room for one more item per edit, so this can't fail.
    pub(crate) fn apply_all(&mut self, edits: &[Edit])
        requires kept { AreKeptQueues self.old }
        requires room { HasRoomInEach (length edits.now) self.old }
        ensures rows { live_of self.new ≡ fold_live (live_of self.old) edits.now }
        ensures kept { AreKeptQueues self.new }
    {
        for edit in edits {
            self.apply(edit);
        }
    }

    /// Finds the queue of this name, given as text.
    fn queue_called(&self, name: &str) -> Option<&HeldQueue>
        requires { AreKeptQueues self.now }
        ensures found { option_map queue_of (option_copied result) ≡ live_named (live_of self.now).queues name.now }
        ensures kept { IfSome result (λ q. IsKeptQueue q.now) }
    {
        queue_in(&self.queues, name)
    }

    /// Finds the queue of this name.
    fn queue_named(&self, name: &Name) -> Option<&HeldQueue>
        requires { AreKeptQueues self.now }
        ensures found { option_map queue_of (option_copied result) ≡ live_named (live_of self.now).queues name.now }
        ensures kept { IfSome result (λ q. IsKeptQueue q.now) }
    {
        self.queue_called(name.as_str())
    }

    pub(crate) fn queues(&self) -> &[HeldQueue]
        requires { AreKeptQueues self.now }
        ensures rows { map queue_of result.now ≡ (live_of self.now).queues }
        ensures kept { AllByRecursion IsKeptQueue result.now }
    {
        &self.queues
    }

    /// The table of a queue: its window and its items. `None` if no queue has the name.
    pub(crate) fn table_of(&self, queue: &Name) -> Option<&QueueTable>
        requires { AreKeptQueues self.now }
        ensures items { IfSome result (λ table. (queue_table.rows_of_table table.now).items
            ≡ live_items (live_of self.now).queues queue.now) }
        ensures found { items_found (option_copied result) ≡ live_items (live_of self.now).queues queue.now }
        ensures window { option_map (λ q. q.window) (option_map queue_table.rows_of_table (option_copied result))
            ≡ option_map (λ l. l.rows.window) (live_named (live_of self.now).queues queue.now) }
        ensures kept { IfSome result (λ table. queue_table.IsKeptQueueTable table.now) }
    {
        match self.queue_named(queue) {
            Some(queue) => Some(queue.table()),
            None => None,
        }
    }

    pub(crate) fn landing_count(&self, queue: &Name) -> u64
        requires { AreKeptQueues self.now }
        ensures { result ≡ option_map_or (λ l. l.landings) (live_named (live_of self.now).queues queue.now) 0 }
    {
        match self.queue_named(queue) {
            Some(queue) => queue.landing_count(),
            None => 0,
        }
    }

    pub(crate) fn report_count(&self, queue: &Name) -> u64
        requires { AreKeptQueues self.now }
        ensures { result ≡ option_map_or (λ l. l.reports) (live_named (live_of self.now).queues queue.now) 0 }
    {
        match self.queue_named(queue) {
            Some(queue) => queue.report_count(),
            None => 0,
        }
    }

    pub(crate) fn item(&self, serial: Serial) -> Option<Item>
        requires { AreKeptQueues self.now }
        ensures { result ≡ option_map (λ k. k.item)
            (find (λ k. k.item.serial == serial) (live_queued (live_of self.now).queues)) }
    {
        item_in(&self.queues, serial).copied()
    }

    pub(crate) fn queued(&self, change: ChangeNo) -> Result<Option<QueuedItem>, NoMemory>
        requires { AreKeptQueues self.now }
        ensures { IfOk result (λ found. found
            ≡ find (λ k. k.item.change == change) (live_queued (live_of self.now).queues)) }
    {
        queued_in(&self.queues, change)
    }

    /// The items of a queue with serials above `above`, up to and including `last`. Fails if memory is refused.
    pub(crate) fn items_between(
        &self,
        alloc: Global,
        queue: &Name,
        above: u64,
        last: Serial,
    ) -> Result<Sequence<Item>, NoMemory>
        requires { AreKeptQueues self.now }
        ensures { IfOk result (λ found. found
            ≡ read.items_between above last (live_items (live_of self.now).queues queue.now)) }
    {
        match self.queue_named(queue) {
            Some(queue) => {
                let items = Vec::from_slice(alloc, queue.table().items_between(above, last))?;
                Ok(Sequence::from_vec(items))
            }
            None => Ok(Sequence::new(alloc)),
        }
    }

    /// The last numbers drawn, each capped at `LAST_NUMBER`.
    pub(crate) fn counters(&self) -> Counters
        ensures { result ≡ capped (live_of self.now).counters }
    {
        self.drawn.counters()
    }
}
