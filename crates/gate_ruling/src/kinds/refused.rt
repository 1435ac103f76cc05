//! `refused`: the forge did not land an order.
ghost use Rattle.std.specs.Prelude.{IfOk, IfErr};
ghost use Rattle.gate_types.specs.declared.deliveries.Delivery.TheVariants as delivery;
ghost use Rattle.gate_book_trait.specs.Faults.{MayAnswer};
ghost use Rattle.gate_book_trait.specs.Kept.{OfHeldUnder};
ghost use Rattle.gate_book_trait.specs.Reading.{IsReadUnder};
ghost use Rattle.gate_reads.specs.Raw.{IsRaw};
ghost use Rattle.gate_ruling.specs.Faults.{MayRule};

use crate::edits::with_window;
use crate::guards::ordered;
use crate::leaving::{leaving, touched};
use gate_book_trait::{Book, BookFault};
use gate_reads::{Event, Moved, PendingReply, Raw, ShownItem, figures_of, window_now};
use gate_types::config::Config;
use gate_types::deliveries::Reply;
use gate_types::numbers::Serial;
use gate_types::records::Verdict;
use std::alloc::Global;

/// The item of a shown order leaves its queue, and the window shrinks.
pub(crate) fn refused<B: Book>(
    alloc: Global,
    book: &mut B,
    config: &Config,
    order: Serial,
) -> Result<Raw, BookFault>
    ensures reads { IsReadUnder B.IsTrusted B.Holds B.LeavesOneOf (MayRule B.MayFault) book.old book.new config.now
        (λ x. IfOk result (IsRaw config.now x (delivery.Refused order))) result }
    ensures undamaged { OfHeldUnder B.IsTrusted B.Holds book.old book.new config.now (λ x.
        IfErr result (MayAnswer B.MayFault)) }
{
    config.show_sound();
    let shown = match ordered(alloc, book, config, order)? {
        Ok(shown) => shown,
        Err(raw) => return Ok(raw),
    };
    let ShownItem { queued, builds, .. } = shown;
    let figures = figures_of(book, &queued.queue)?;
    let Some(window) = figures.window else {
        return Err(BookFault::Damaged);
    };
    let verdict = Verdict::Refused;
    let edits = leaving(
        alloc,
        config,
        &queued,
        figures.reports,
        builds.as_slice(),
        verdict,
    )?;
    let left = Event::Left(verdict);
    let settings = config.queue(queued.queue.as_str());
    let resized = window_now(left, settings, window);
    Ok(Raw::Moved(Moved {
        reply: PendingReply::Now(Reply::Removed),
        edits: with_window(edits, &queued.queue, window, resized)?,
        touched: Some(touched(queued, figures, left)),
    }))
}
