//! `landed`: the forge landed an order.
ghost use Rattle.std.specs.Prelude.{◌≡◌, ◌++◌, IfOk, IfErr};
ghost use Rattle.gate_types.specs.declared.deliveries.Delivery.TheVariants as delivery;
ghost use Rattle.gate_book_trait.specs.Faults.{MayAnswer};
ghost use Rattle.gate_book_trait.specs.Kept.{OfHeldUnder};
ghost use Rattle.gate_book_trait.specs.Reading.{IsReadUnder};
ghost use Rattle.gate_reads.specs.Raw.{IsRaw};
ghost use Rattle.gate_ruling.specs.Landing.{landing_edits};
ghost use Rattle.gate_ruling.specs.Faults.{MayRule};

use crate::changing::set_at;
use crate::edits::with_window;
use crate::guards::ordered;
use crate::leaving::{landing, touched};
use gate_book_trait::{Book, BookFault, QueuedItem};
use gate_reads::{Event, Moved, PendingReply, Raw, ShownItem, figures_of, window_now};
use gate_types::config::Config;
use gate_types::deliveries::Reply;
use gate_types::edits::Edit;
use gate_types::lists::with_one;
use gate_types::names::NoMemory;
use gate_types::numbers::Serial;
use gate_types::records::{Landing, Stage, Verdict};
use std::alloc::Global;

/// The item's landing at a place of its queue, and the window that follows the old one.
fn with_landing(
    edits: Vec<Edit>,
    queued: &QueuedItem,
    place: u64,
    old: u32,
    window: u32,
) -> Result<Vec<Edit>, NoMemory>
    ensures { IfOk result (λ all. all.items ≡ edits.items ++ landing_edits queued.now place old window) }
{
    let item = queued.item;
    let queue = queued.queue.copy()?;
    let landing = Landing {
        serial: item.serial,
        change: item.change,
        revision: item.revision,
    };
    let landed = Edit::PutLanding {
        queue,
        place,
        landing,
    };
    with_window(with_one(edits, landed)?, &queued.queue, old, window)
}

/// The item of a shown order leaves its queue as the last of the landings, which keeps its jobs, and the window grows.
pub(crate) fn landed<B: Book>(
    alloc: Global,
    book: &mut B,
    config: &Config,
    order: Serial,
) -> Result<Raw, BookFault>
    ensures reads { IsReadUnder B.IsTrusted B.Holds B.LeavesOneOf (MayRule B.MayFault) book.old book.new config.now
        (λ x. IfOk result (IsRaw config.now x (delivery.Landed order))) result }
    ensures undamaged { OfHeldUnder B.IsTrusted B.Holds book.old book.new config.now (λ x.
        IfErr result (MayAnswer B.MayFault)) }
{
    config.show_sound();
    let shown = match ordered(alloc, book, config, order)? {
        Ok(shown) => shown,
        Err(raw) => return Ok(raw),
    };
    let ShownItem { queued, builds, .. } = shown;
    let item = queued.item;
    let figures = figures_of(book, &queued.queue)?;
    let Some(window) = figures.window else {
        return Err(BookFault::Damaged);
    };
    let place = book.landing_count(&queued.queue)?.saturating_add(1);
    let verdict = Verdict::Landed(place);
    let edits = landing(
        alloc,
        config,
        &queued,
        figures.reports,
        builds.as_slice(),
        verdict,
    )?;
    let settings = config.queue(queued.queue.as_str());
    let resized = window_now(Event::Landed, settings, window);
    let edits = with_landing(edits, &queued, place, window, resized)?;
    let Some(known) = book.change(item.change)? else {
        return Err(BookFault::Damaged);
    };
    let edits = set_at(edits, &known, Stage::Landed)?;
    Ok(Raw::Moved(Moved {
        reply: PendingReply::Now(Reply::Landed(place)),
        edits,
        touched: Some(touched(queued, figures, Event::Landed)),
    }))
}
