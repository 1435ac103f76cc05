//! The one item that a delivery touches.
ghost use Rattle.std.specs.Prelude.{IfOk};
ghost use Rattle.gate_book_trait.specs.Faults.{MayAnswer};
ghost use Rattle.gate_book_trait.specs.Reading.{IsRead};
ghost use Rattle.gate_reads.specs.Touches.{AreFigures};

use gate_book_trait::{Book, BookFault};
use gate_types::deliveries::Ending;
use gate_types::names::Name;
use gate_types::numbers::BuildNo;
use gate_types::records::{Item, Verdict};

/// What befell an item: a running build of it has ended; it was taken out of its queue, for another reason than a
/// landing; or it has landed.
#[derive(Clone, Copy, PartialEq, Eq)]
pub enum Event {
    Ended { build: BuildNo, ending: Ending },
    Left(Verdict),
    Landed,
}

/// How many items of a queue may be tested at once, which is none where there is no such queue, and how many reports it
/// has made.
#[derive(Clone, Copy)]
pub struct QueueFigures {
    pub window: Option<u32>,
    pub reports: u64,
}

/// The figures of a queue.
pub fn figures_of<B: Book>(book: &mut B, queue: &Name) -> Result<QueueFigures, BookFault>
    ensures { IsRead B.IsTrusted B.Holds B.LeavesOneOf (MayAnswer B.MayFault) book.old book.new (λ c x.
        IfOk result (AreFigures x.state queue.now)) result }
{
    let window = book.window(queue)?;
    let reports = book.reports(queue)?;
    Ok(QueueFigures { window, reports })
}

/// An item that a delivery touched: its queue, its row and the queue's figures as they were stored before, and what
/// befell it.
#[derive(Drop)]
pub struct TouchedItem {
    pub queue: Name,
    pub item: Item,
    pub event: Event,
    pub figures: QueueFigures,
}
