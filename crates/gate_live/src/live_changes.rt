//! The held changes, if any are held: applies edits to them, holds changes that were read, and finds the items that
//! need one.
ghost use Rattle.std.specs.Prelude.{◌≡◌, ℕ, List, filter, length, map, option_map, IfOk, IfSome, OnOk};
ghost use Rattle.std.specs.List.{AllByRecursion};
ghost use Rattle.gate_types.specs.Once.{Content};
ghost use Rattle.gate_types.specs.Settings.{Settings};
ghost use Rattle.gate_types.specs.declared.rows.ChangeRow.{ChangeRow};
ghost use Rattle.gate_types.specs.Tables.{change_in};
ghost use Rattle.gate_memory.specs.Needs.{needs_of_all};
ghost use Rattle.gate_memory.specs.Queues as queue_table;
ghost use Rattle.gate_book_trait.specs.Faults.{MayAnswer};
ghost use Rattle.gate_book_trait.specs.Kept.{OfHeld};
ghost use Rattle.gate_book_trait.specs.Reading.{IsRead};
ghost use Rattle.gate_book_trait.specs.Reads as read;
ghost use Rattle.gate_live.specs.Held.{AreKeptQueues, IsKeptQueue, IsLiveOf, live_of, queue_of};
ghost use Rattle.gate_live.specs.HeldChanges.{AnyAreHeldOf, AreChangesOf, AreRowsOf, AreKeptChanges, HasRoomFor};
ghost use Rattle.gate_live.specs.HeldChanges.{changes_held, is_of_changes, queues_held, rows_edited};

use crate::change_reads::needing;
use crate::forgetting::{forget_left, is_queued};
use crate::held::Held;
use crate::held_changes::{HeldChanges, change_copies};
use crate::held_queue::HeldQueue;
use gate_book_trait::{Book, BookFault};
use gate_memory::QueueTable;
use gate_types::edits::Edit;
use gate_types::names::{Name, NoMemory};
use gate_types::numbers::ChangeNo;
use gate_types::records::{Change, Item};
use gate_types::sequence::Sequence;
use std::alloc::Global;

/// Allocates room for these edits, if changes are held. Fails if memory is refused. Either way, the held rows stay
/// unchanged.
fn make_room(changes: &mut Option<HeldChanges>, edits: &[Edit]) -> Result<(), NoMemory>
    requires { IfSome changes.old AreKeptChanges }
    ensures rows { option_map changes_held changes.new ≡ option_map changes_held changes.old }
    ensures kept { IfSome changes.new AreKeptChanges }
    ensures room { OnOk result (IfSome changes.new (HasRoomFor (length edits.now) (needs_of_all edits.now))) }
{
    match changes {
        Some(changes) => changes.make_room(edits),
        None => Ok(()),
    }
}

/// Copies the edits that concern changes, and allocates room for them if changes are held. Fails if memory is refused.
/// Either way, the held rows stay unchanged.
pub(crate) fn prepare(
    alloc: Global,
    changes: &mut Option<HeldChanges>,
    edits: &[Edit],
) -> Result<Vec<Edit>, NoMemory>
    requires { IfSome changes.old AreKeptChanges }
    ensures told { IfOk result (λ copies. copies.items ≡ filter is_of_changes edits.now) }
    ensures rows { option_map changes_held changes.new ≡ option_map changes_held changes.old }
    ensures kept { IfSome changes.new AreKeptChanges }
    ensures room { IfOk result (λ copies. IfSome changes.new
        (HasRoomFor (length copies.items) (needs_of_all copies.items))) }
{
    let copies = change_copies(alloc, edits)?;
    make_room(changes, copies.as_slice())?;
    Ok(copies)
}

/// The held queues, or an empty slice if none are held.
fn queues_of(held: &Option<Held>) -> &[HeldQueue]
    requires { IfSome held.now AreKeptQueues }
    ensures rows { map queue_of result.now ≡ queues_held held.now }
    ensures kept { AllByRecursion IsKeptQueue result.now }
{
    match held {
        Some(held) => held.queues(),
        None => &[],
    }
}

/// Applies these edits, of which `copies` has those of changes, to the held changes, then drops the changes that the
/// edits left neither ready nor queued. There must be room for the copies and their needs.
pub(crate) fn edit(
    changes: &mut Option<HeldChanges>,
    held: &Option<Held>,
    copies: Vec<Edit>,
    edits: &[Edit],
)
    requires held { IfSome held.now AreKeptQueues }
    requires kept { IfSome changes.old AreKeptChanges }
    requires copies { copies.items ≡ filter is_of_changes edits.now }
    requires room { IfSome changes.old (HasRoomFor (length copies.items) (needs_of_all copies.items)) }
    ensures rows { option_map changes_held changes.new
        ≡ option_map (rows_edited (queues_held held.now) edits.now) (option_map changes_held changes.old) }
    ensures kept { IfSome changes.new AreKeptChanges }
{
    if let Some(changes) = changes {
        changes.apply_all(copies);
        forget_left(changes, queues_of(held), edits);
    }
}

/// Holds a copy of a change, if an item of the held queues has it. If memory is refused, nothing changes.
fn hold_known(changes: &mut HeldChanges, held: &Option<Held>, change: &Change)
    requires held { IfSome held.now AreKeptQueues }
    requires kept { AreKeptChanges changes.old }
    ensures held { (all : List ChangeRow) → Some change.now ≡ change_in all change.now.number →
        AreRowsOf (changes_held changes.old) all → AreRowsOf (changes_held changes.new) all }
    ensures kept { AreKeptChanges changes.new }
{
    if is_queued(queues_of(held), change.number) {
        changes.hold_known(change);
    }
}

/// Holds a copy of the change that was read, if one was found, changes are held, and an item of the held queues has it.
/// If memory is refused, nothing changes.
pub(crate) fn hold_found(
    changes: &mut Option<HeldChanges>,
    held: &Option<Held>,
    found: &Option<Change>,
)
    requires held { IfSome held.now AreKeptQueues }
    requires kept { IfSome changes.old AreKeptChanges }
    ensures held { (number : ℕ) (all : List ChangeRow) → found.now ≡ change_in all number →
        AnyAreHeldOf (option_map changes_held changes.old) all →
        AnyAreHeldOf (option_map changes_held changes.new) all }
    ensures kept { IfSome changes.new AreKeptChanges }
{
    if let Some(changes) = changes {
        if let Some(change) = found {
            hold_known(changes, held, change);
        }
    }
}

/// The table of a queue. `None` if the queue isn't held.
fn table_of<'a>(held: &'a Option<Held>, queue: &Name) -> Option<&'a QueueTable>
    requires { IfSome held.now AreKeptQueues }
    ensures items { IfSome result (λ table. (c : Settings) (x : Content) →
        IsLiveOf (option_map live_of held.now) c x →
        (queue_table.rows_of_table table.now).items ≡ read.items_in c x.state queue.now) }
    ensures kept { IfSome result (λ table. queue_table.IsKeptQueueTable table.now) }
{
    match held {
        Some(held) => held.table_of(queue),
        None => None,
    }
}

/// The items of a queue above a serial whose changes need this one. Reads and holds the changes of the items above the
/// serial that aren't held yet, then answers from memory. If the queue or the changes aren't held, the book answers.
/// Fails with the book's fault, or with `NoMemory` if memory is refused.
pub(crate) fn needing_over<B: Book>(
    alloc: Global,
    book: &mut B,
    held: &Option<Held>,
    changes: &mut Option<HeldChanges>,
    queue: &Name,
    change: ChangeNo,
    above: u64,
) -> Result<Sequence<Item>, BookFault>
    requires held { IfSome held.now AreKeptQueues }
    requires kept { IfSome changes.old AreKeptChanges }
    ensures reads { IsRead B.IsTrusted B.Holds B.LeavesOneOf (MayAnswer B.MayFault) book.old book.new (λ c x.
        IsLiveOf (option_map live_of held.now) c x →
        AreChangesOf (option_map changes_held changes.old) c x →
        read.Answers (read.items_needing x.state change above (read.items_in c x.state queue.now)) result) result }
    ensures rows { OfHeld B.IsTrusted B.Holds book.old book.new (λ c x.
        AreChangesOf (option_map changes_held changes.old) c x →
        AreChangesOf (option_map changes_held changes.new) c x) }
    ensures sound { IfSome changes.new AreKeptChanges }
{
    let Some(table) = table_of(held, queue) else {
        return Ok(book.needing(queue, change, above)?);
    };
    match changes {
        Some(changes) => needing(alloc, book, changes, table, queue, change, above),
        None => Ok(book.needing(queue, change, above)?),
    }
}
