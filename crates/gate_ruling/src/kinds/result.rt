//! `result`: a build has ended.
ghost use Rattle.std.specs.Prelude.{◌≡◌, ◌&&◌, ◌∷◌, [], Some, IfOk, IfErr};
ghost use Rattle.gate_types.specs.Slot.{is_running};
ghost use Rattle.gate_types.specs.Step.{outcome_of_ending};
ghost use Rattle.gate_types.specs.declared.deliveries.Delivery.TheVariants as delivery;
ghost use Rattle.gate_types.specs.declared.edits.Edit.TheVariants as edit;
ghost use Rattle.gate_book_trait.specs.Faults.{MayAnswer};
ghost use Rattle.gate_book_trait.specs.Kept.{OfHeldUnder};
ghost use Rattle.gate_book_trait.specs.Reading.{IsReadUnder};
ghost use Rattle.gate_reads.specs.Raw.{IsRaw};
ghost use Rattle.gate_reads.specs.declared.touched.Event.TheVariants as event;
ghost use Rattle.gate_ruling.specs.Faults.{MayRule};

use crate::leaving::Left;
use gate_book_trait::{Book, BookFault};
use gate_reads::{
    Event, Moved, PendingReply, QueueFigures, Raw, TouchedItem, figures_of, is_running,
};
use gate_types::config::Config;
use gate_types::deliveries::{Ending, Refusal, Reply};
use gate_types::edits::Edit;
use gate_types::lists::with_one;
use gate_types::names::NoMemory;
use gate_types::numbers::BuildNo;
use gate_types::records::{Build, Item};
use std::alloc::Global;

/// Whether a build runs and its outcome still counts.
fn is_under_way(build: &Build) -> bool
    ensures { result ≡ (build.now.live && is_running build.now.outcome) }
{
    build.live && is_running(build)
}

/// The edit that notes how a build ended, and its item, which that befell, in a queue with these figures.
fn noted(
    alloc: Global,
    known: Build,
    item: Item,
    figures: QueueFigures,
    build: BuildNo,
    ending: Ending,
) -> Result<Left, NoMemory>
    ensures edits { IfOk result (λ left. left.edits.items ≡
        edit.SetOutcome build (outcome_of_ending ending) ∷ []) }
    ensures touched { IfOk result (λ left. left.touched ≡
        Some (record { queue = known.queue; item = item; event = event.Ended build ending; figures = figures })) }
{
    let outcome = Edit::SetOutcome {
        build,
        outcome: ending.into(),
    };
    let edits = with_one(Vec::new(alloc), outcome)?;
    Ok(Left {
        edits,
        touched: Some(TouchedItem {
            queue: known.queue,
            item,
            event: Event::Ended { build, ending },
            figures,
        }),
    })
}

/// The outcome of a live running build is noted; any other result comes too late.
pub(crate) fn result<B: Book>(
    alloc: Global,
    book: &mut B,
    config: &Config,
    build: BuildNo,
    ending: Ending,
) -> Result<Raw, BookFault>
    ensures reads { IsReadUnder B.IsTrusted B.Holds B.LeavesOneOf (MayRule B.MayFault) book.old book.new config.now
        (λ x. IfOk result (IsRaw config.now x (delivery.Result build ending))) result }
    ensures undamaged { OfHeldUnder B.IsTrusted B.Holds book.old book.new config.now (λ x.
        IfErr result (MayAnswer B.MayFault)) }
{
    config.show_sound();
    let Some(known) = book.build(build)? else {
        return Ok(Raw::Refused(Refusal::UnknownBuild));
    };
    if !is_under_way(&known) {
        return Ok(Raw::Stands(Reply::Stale));
    }
    let Some(item) = book.item(known.serial)? else {
        return Err(BookFault::Damaged);
    };
    let figures = figures_of(book, &known.queue)?;
    let left = noted(alloc, known, item, figures, build, ending)?;
    Ok(Raw::Moved(Moved {
        reply: PendingReply::Now(Reply::Noted),
        edits: left.edits,
        touched: left.touched,
    }))
}
