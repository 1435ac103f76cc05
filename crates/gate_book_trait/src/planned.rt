//! What an item was admitted with, asked of a book.
ghost use Rattle.std.specs.Prelude.{◌≡◌, IfOk};
ghost use Rattle.gate_types.specs.State.{plan_of};
ghost use Rattle.gate_book_trait.specs.Faults.{MayAnswer};
ghost use Rattle.gate_book_trait.specs.Reading.{IsRead};

use crate::book::Book;
use crate::fault::BookFault;
use gate_types::numbers::Serial;
use gate_types::records::Plan;
use gate_types::sequence::Sequence;
use std::alloc::Global;

/// The plan of the item or the landing of a serial; one without jobs where there is none.
pub fn plan_of<B: Book>(alloc: Global, book: &mut B, serial: Serial) -> Result<Plan, BookFault>
    ensures { IsRead B.IsTrusted B.Holds B.LeavesOneOf (MayAnswer B.MayFault) book.old book.new (λ c x.
        IfOk result (λ plan. plan ≡ plan_of x.state serial)) result }
{
    match book.plan(serial)? {
        Some(plan) => Ok(plan),
        None => Ok(Plan {
            serial,
            jobs: Sequence::new(alloc),
            fast: false,
        }),
    }
}
