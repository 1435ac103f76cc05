//! Whether an item is blocked, asked by key: no queue is gone through.
ghost use Rattle.std.specs.Prelude.{◌≡◌, IfOk};
ghost use Rattle.std.specs.List.{list_all};
ghost use Rattle.gate_book_trait.specs.Faults.{MayAnswer};
ghost use Rattle.gate_book_trait.specs.Reading.{IsRead};
ghost use Rattle.gate_texts.specs.Ahead as told;

use gate_book_trait::{Book, BookFault, QueuedItem};
use gate_types::names::{Name, same_name};
use gate_types::numbers::{ChangeNo, Serial};
use gate_types::records::Change;

/// Whether an item, if there is one, stands in a queue before a serial, and isn't failing.
fn is_ahead(other: &Option<QueuedItem>, queue: &Name, serial: Serial) -> bool
    ensures { result ≡ told.is_ahead queue.now serial other.now }
{
    match other {
        Some(other) => {
            same_name(&other.queue, queue)
                && other.item.serial.get() < serial.get()
                && !other.item.failing
        }
        None => false,
    }
}

/// Whether a need has landed, or its item is ahead.
fn is_met<B: Book>(
    book: &mut B,
    queue: &Name,
    serial: Serial,
    need: ChangeNo,
) -> Result<bool, BookFault>
    ensures { IsRead B.IsTrusted B.Holds B.LeavesOneOf (MayAnswer B.MayFault) book.old book.new (λ c x.
        IfOk result (λ met. met ≡ told.is_met c x.state queue.now serial need)) result }
{
    let known = book.change(need)?;
    let other = book.queued(need)?;
    Ok(Change::has_landed(&known) || is_ahead(&other, queue, serial))
}

/// Whether each of them is.
fn are_met<B: Book>(
    book: &mut B,
    queue: &Name,
    serial: Serial,
    needs: &[ChangeNo],
) -> Result<bool, BookFault>
    ensures { IsRead B.IsTrusted B.Holds B.LeavesOneOf (MayAnswer B.MayFault) book.old book.new (λ c x.
        IfOk result (λ met. met ≡ list_all (told.is_met c x.state queue.now serial) needs.now)) result }
{
    let mut met = true;
    for need in needs {
        met = met && is_met(book, queue, serial, *need)?;
    }
    Ok(met)
}

/// Whether an item is blocked: a need of its change has neither landed nor is an item ahead.
pub(crate) fn is_blocked<B: Book>(book: &mut B, queued: &QueuedItem) -> Result<bool, BookFault>
    ensures { IsRead B.IsTrusted B.Holds B.LeavesOneOf (MayAnswer B.MayFault) book.old book.new (λ c x.
        IfOk result (λ blocked. blocked ≡ told.is_blocked_by_key c x.state queued.now)) result }
{
    let Some(change) = book.change(queued.item.change)? else {
        return Ok(false);
    };
    let needs = change.needs.as_slice();
    Ok(!are_met(book, &queued.queue, queued.item.serial, needs)?)
}
