//! The row that a walk reads next.
ghost use Rattle.std.specs.Prelude.{◌≡◌, ◌≤◌, ℕ, IfOk, IfSome, OnOk, IfErr};
ghost use Rattle.gate_book_trait.specs.Kept.{OfHeld, IsKept};
ghost use Rattle.gate_book_trait.specs.Reading.{IsRead};
ghost use Rattle.gate_book_trait.specs.Reads as read;
ghost use Rattle.gate_settling.specs.Rows as rows;
ghost use Rattle.gate_settling.specs.Touching.{Touching};
ghost use Rattle.gate_book_trait.specs.Faults.{MayAnswer};

use crate::needing::Needing;
use crate::rows::is_out;
use gate_book_trait::{Book, BookFault};
use gate_reads::TouchedItem;
use gate_types::names::Name;
use gate_types::numbers::ChangeNo;
use gate_types::records::Item;
use gate_walk::Next;
use std::alloc::Global;

/// The first row that a walk reads: that of the touched item, which is told, or the one behind it.
pub(crate) fn first_wanted<B: Book>(
    book: &mut B,
    touched: &TouchedItem,
) -> Result<Option<Item>, BookFault>
    ensures reads { IsRead B.IsTrusted B.Holds B.LeavesOneOf (MayAnswer B.MayFault) book.old book.new (λ c x.
        (h : Touching c x touched.now) → IfOk result (λ row.
        row ≡ read.first_above (rows.first_behind touched.now) (read.items_in c x.state touched.now.queue))) result }
    ensures rises { IfOk result (λ row. IfSome row (λ r. touched.now.item.serial ≤ r.serial)) }
{
    if !is_out(touched.event) {
        return Ok(Some(touched.item));
    }
    let row = book.next_item(&touched.queue, touched.item.serial.get())?;
    Ok(row)
}

/// The row that a walk reads next, if it is there.
pub(crate) fn wanted<B: Book>(
    alloc: Global,
    book: &mut B,
    queue: &Name,
    gone: &[ChangeNo],
    next: Next,
    needing: &mut Needing,
) -> Result<Option<Item>, BookFault>
    ensures row { OfHeld B.IsTrusted B.Holds book.old book.new (λ c x. (n : ℕ) → rows.IsFrom n next →
        rows.AreKept x.state gone.now n (read.items_in c x.state queue.now) needing.old.rows.items needing.old.asked →
        IfOk result (λ row. row ≡ rows.row_for c x.state queue.now gone.now next)) }
    ensures rises { IfOk result (λ row. IfSome row (λ r. rows.IsAbove r.serial next)) }
    ensures needing { OfHeld B.IsTrusted B.Holds book.old book.new (λ c x. (n : ℕ) → rows.IsFrom n next →
        rows.AreKept x.state gone.now n (read.items_in c x.state queue.now) needing.old.rows.items needing.old.asked →
        OnOk result (rows.AreKept x.state gone.now n (read.items_in c x.state queue.now)
        needing.new.rows.items needing.new.asked)) }
    ensures kept { IsKept B.IsTrusted B.Holds B.LeavesOneOf book.old book.new }
    ensures fault { IfErr result (MayAnswer B.MayFault) }
{
    match next {
        Next::Go(serial) => book.next_item(queue, serial.get()),
        Next::Need(serial) => needing.first(alloc, book, queue, gone, serial.get()),
        Next::Stop => Ok(None),
    }
}
