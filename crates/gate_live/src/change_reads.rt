//! Reads changes from the book below and holds them in memory.
ghost use Rattle.std.specs.Prelude.{◌≡◌, ◌≢◌, List, IfErr, IfOk, IfSome, IsSomeAnd};
ghost use Rattle.gate_types.specs.Tables.{tables};
ghost use Rattle.gate_types.specs.declared.rows.ChangeRow.{ChangeRow};
ghost use Rattle.gate_memory.specs.Queues as queue_table;
ghost use Rattle.gate_book_trait.specs.declared.fault.BookFault.TheVariants as fault;
ghost use Rattle.gate_book_trait.specs.Faults.{MayAnswer};
ghost use Rattle.gate_book_trait.specs.Kept.{OfHeld};
ghost use Rattle.gate_book_trait.specs.Reading.{IsRead};
ghost use Rattle.gate_book_trait.specs.Reads as read;
ghost use Rattle.gate_book_trait.specs.RowReads.{needing_in};
ghost use Rattle.gate_live.specs.HeldChanges.{AreRowsOf, AreKeptChanges, changes_held};

use crate::held_changes::HeldChanges;
use gate_book_trait::{Book, BookFault};
use gate_memory::QueueTable;
use gate_types::names::Name;
use gate_types::numbers::ChangeNo;
use gate_types::records::{Item, Ready};
use gate_types::rows::ChangeRow;
use gate_types::sequence::Sequence;
use std::alloc::Global;

/// Reads the changes of a ready list one by one. `None` if the book lacks one of them. Fails if the book does or memory
/// is refused.
fn read_listed<B: Book>(
    alloc: Global,
    book: &mut B,
    list: &[Ready],
) -> Result<Option<HeldChanges>, BookFault>
    ensures reads { IsRead B.IsTrusted B.Holds B.LeavesOneOf (MayAnswer B.MayFault) book.old book.new (λ c x.
        list.now ≡ x.state.ready →
        IfOk result (λ found. IsSomeAnd found (λ held. AreRowsOf (changes_held held) (tables c x).changes))) result }
    ensures sound { IfOk result (λ found. IfSome found AreKeptChanges) }
{
    let mut held = HeldChanges::new(alloc);
    for ready in list {
        let Some(change) = book.change(ready.change)? else {
            return Ok(None);
        };
        held.hold(ChangeRow {
            change,
            approval: Some(ready.approval),
        })?;
    }
    Ok(Some(held))
}

/// Reads all ready changes of the book. `None` if the book lacks a change of its own ready list (possible only with an
/// untrusted book). Fails with the book's fault, or with `NoMemory` if memory is refused.
pub(crate) fn read_ready<B: Book>(
    alloc: Global,
    book: &mut B,
) -> Result<Option<HeldChanges>, BookFault>
    ensures reads { IsRead B.IsTrusted B.Holds B.LeavesOneOf (MayAnswer B.MayFault) book.old book.new (λ c x.
        IfOk result (λ found. IsSomeAnd found (λ held. AreRowsOf (changes_held held) (tables c x).changes))) result }
    ensures sound { IfOk result (λ found. IfSome found AreKeptChanges) }
{
    let list = book.ready()?;
    let held = read_listed(alloc, book, list.as_slice())?;
    Ok(held)
}

/// Reads a change and holds it, unless it is held already. `false` if the book lacks the change or memory to hold it is
/// refused. Fails if the book does.
fn hold_change<B: Book>(
    book: &mut B,
    held: &mut HeldChanges,
    number: ChangeNo,
) -> Result<bool, BookFault>
    requires { AreKeptChanges held.old }
    ensures rows { OfHeld B.IsTrusted B.Holds book.old book.new (λ c x.
        AreRowsOf (changes_held held.old) (tables c x).changes →
        AreRowsOf (changes_held held.new) (tables c x).changes) }
    ensures reads { IsRead B.IsTrusted B.Holds B.LeavesOneOf (MayAnswer B.MayFault) book.old book.new (λ c x.
        IfErr result (λ f. f ≢ fault.Damaged)) result }
    ensures sound { AreKeptChanges held.new }
{
    if held.has(number) {
        return Ok(true);
    }
    let Some(change) = book.change(number)? else {
        return Ok(false);
    };
    let row = ChangeRow {
        change,
        approval: None,
    };
    Ok(held.hold(row).is_ok())
}

/// Reads and holds the changes of these items that aren't held yet. Stops at the first one that the book lacks or that
/// there is no memory for. Fails if the book does.
fn hold_changes<B: Book>(
    book: &mut B,
    held: &mut HeldChanges,
    items: &[Item],
) -> Result<(), BookFault>
    requires { AreKeptChanges held.old }
    ensures rows { OfHeld B.IsTrusted B.Holds book.old book.new (λ c x.
        AreRowsOf (changes_held held.old) (tables c x).changes →
        AreRowsOf (changes_held held.new) (tables c x).changes) }
    ensures reads { IsRead B.IsTrusted B.Holds B.LeavesOneOf (MayAnswer B.MayFault) book.old book.new (λ c x.
        IfErr result (λ f. f ≢ fault.Damaged)) result }
    ensures sound { AreKeptChanges held.new }
{
    for item in items {
        if !hold_change(book, held, item.change)? {
            return Ok(());
        }
    }
    Ok(())
}

/// Looks up, in memory only, the items of a queue above a serial whose changes need this one. `None` if the change of
/// an item above the serial isn't held or memory for the answer is refused.
fn needing_held(
    alloc: Global,
    held: &HeldChanges,
    queue: &QueueTable,
    change: ChangeNo,
    above: u64,
) -> Option<Sequence<Item>>
    requires kept { AreKeptChanges held.now }
    requires queue { queue_table.IsKeptQueueTable queue.now }
    ensures { IfSome result (λ found. (all : List ChangeRow) → AreRowsOf (changes_held held.now) all →
        found ≡ needing_in all change above (queue_table.rows_of_table queue.now).items) }
{
    match held.needing(alloc, queue, change, above) {
        Ok(found) => found,
        Err(_) => None,
    }
}

/// The items of a queue above a serial whose changes need this one; `rows` is the held table of the queue. Reads and
/// holds the changes of the items above the serial that aren't held yet, then answers from memory. If they can't all be
/// held, the book answers. Fails with the book's fault, or with `NoMemory` if memory is refused.
pub(crate) fn needing<B: Book>(
    alloc: Global,
    book: &mut B,
    held: &mut HeldChanges,
    rows: &QueueTable,
    queue: &Name,
    change: ChangeNo,
    above: u64,
) -> Result<Sequence<Item>, BookFault>
    requires kept { AreKeptChanges held.old }
    requires queue { queue_table.IsKeptQueueTable rows.now }
    ensures reads { IsRead B.IsTrusted B.Holds B.LeavesOneOf (MayAnswer B.MayFault) book.old book.new (λ c x.
        AreRowsOf (changes_held held.old) (tables c x).changes →
        (queue_table.rows_of_table rows.now).items ≡ read.items_in c x.state queue.now →
        read.Answers (read.items_needing x.state change above (read.items_in c x.state queue.now)) result) result }
    ensures rows { OfHeld B.IsTrusted B.Holds book.old book.new (λ c x.
        AreRowsOf (changes_held held.old) (tables c x).changes →
        AreRowsOf (changes_held held.new) (tables c x).changes) }
    ensures sound { AreKeptChanges held.new }
{
    if let Some(found) = needing_held(alloc, held, rows, change, above) {
        return Ok(found);
    }
    hold_changes(book, held, rows.items_behind(above))?;
    if let Some(found) = needing_held(alloc, held, rows, change, above) {
        return Ok(found);
    }
    Ok(book.needing(queue, change, above)?)
}
