//! What is known of a change: its needs, each with whether it has landed.
ghost use Rattle.std.specs.Prelude.{◌≡◌, IfOk, map};
ghost use Rattle.gate_types.specs.State.{known_or_closed, need_of};
ghost use Rattle.gate_book_trait.specs.Faults.{MayAnswer};
ghost use Rattle.gate_book_trait.specs.Reading.{IsRead};

use gate_book_trait::{Book, BookFault};
use gate_types::lists::with_one;
use gate_types::numbers::ChangeNo;
use gate_types::records::{Change, Need};
use std::alloc::Global;

fn need<B: Book>(book: &mut B, number: ChangeNo) -> Result<Need, BookFault>
    ensures { IsRead B.IsTrusted B.Holds B.LeavesOneOf (MayAnswer B.MayFault) book.old book.new (λ c x.
        IfOk result (λ need. need ≡ need_of x.state number)) result }
{
    let known = book.change(number)?;
    Ok(Need {
        change: number,
        landed: Change::has_landed(&known),
    })
}

fn needs_with<B: Book>(
    alloc: Global,
    book: &mut B,
    numbers: &[ChangeNo],
) -> Result<Vec<Need>, BookFault>
    ensures { IsRead B.IsTrusted B.Holds B.LeavesOneOf (MayAnswer B.MayFault) book.old book.new (λ c x.
        IfOk result (λ needs. needs.items ≡ map (need_of x.state) numbers.now)) result }
{
    let mut needs = Vec::new(alloc);
    for number in numbers {
        let next = need(book, *number)?;
        needs = with_one(needs, next)?;
    }
    Ok(needs)
}

/// The needs of a change; none where it isn't known.
pub fn needs_of<B: Book>(
    alloc: Global,
    book: &mut B,
    change: &Option<Change>,
) -> Result<Vec<Need>, BookFault>
    ensures { IsRead B.IsTrusted B.Holds B.LeavesOneOf (MayAnswer B.MayFault) book.old book.new (λ c x.
        IfOk result (λ needs. needs.items ≡ map (need_of x.state) (known_or_closed change.now).needs)) result }
{
    match change {
        Some(change) => needs_with(alloc, book, change.needs.as_slice()),
        None => Ok(Vec::new(alloc)),
    }
}
