//! An item leaves its queue.
ghost use Rattle.std.specs.Prelude.{◌≡◌, ℕ, false, ◌++◌, map, filter, IfOk, IfErr, Contains};
ghost use Rattle.gate_types.specs.Slot.{is_running};
ghost use Rattle.gate_types.specs.SubmitOrder.{is_submitting};
ghost use Rattle.gate_types.specs.State.{put_plan};
ghost use Rattle.gate_types.specs.Step.{leave, landed_plan};
ghost use Rattle.gate_types.specs.Once.{Content};
ghost use Rattle.gate_types.specs.Forms.{IsLawfulContent};
ghost use Rattle.gate_book_trait.specs.Faults.{MayAnswer};
ghost use Rattle.gate_book_trait.specs.Kept.{OfHeldUnder, IsKept};
ghost use Rattle.gate_book_trait.specs.Reads.{items_in, live_builds, reports_in};
ghost use Rattle.gate_reads.specs.Moves.{Moves};
ghost use Rattle.gate_reads.specs.Stands.{IsLiveAs, QueuesSo};
ghost use Rattle.gate_ruling.specs.Leaving.{stop_of, out_of_queue, GivesUp, is_submitting_at};

use gate_book_trait::{Book, BookFault, QueuedItem};
use gate_reads::{Event, LiveItem, QueueFigures, QueuePlace, TouchedItem, figures_of, is_running};
use gate_types::config::Config;
use gate_types::edits::Edit;
use gate_types::names::NoMemory;
use gate_types::records::{Build, Report, Verdict};
use std::alloc::Global;

/// Edits, and the item that they touch, if they touch one.
#[derive(Drop)]
pub(crate) struct Left {
    pub edits: Vec<Edit>,
    pub touched: Option<TouchedItem>,
}

/// The item's report, at a place of its queue, and the edit that ends its row.
fn out_of_queue(
    alloc: Global,
    queued: &QueuedItem,
    gone: Edit,
    place: u64,
    verdict: Verdict,
) -> Result<Vec<Edit>, NoMemory>
    ensures { IfOk result (λ edits. edits.items ≡ out_of_queue queued.now gone place verdict) }
{
    let item = queued.item;
    let queue = queued.queue.copy()?;
    let report = Report {
        serial: item.serial,
        change: item.change,
        revision: item.revision,
        verdict,
    };
    let mut edits = Vec::new(alloc);
    edits.push(Edit::PutReport {
        queue,
        place,
        report,
    })?;
    edits.push(gone)?;
    Ok(edits)
}

/// Each of some builds that is running stops.
fn with_stops(edits: Vec<Edit>, builds: &[Build]) -> Result<Vec<Edit>, NoMemory>
    ensures { IfOk result (λ all. all.items
        ≡ edits.items ++ map stop_of (filter (λ b. is_running b.outcome) builds.now)) }
{
    let mut edits = edits;
    for build in builds {
        if is_running(build) {
            edits.push(Edit::StopBuild(build.number))?;
        }
    }
    Ok(edits)
}

/// The item leaves its queue, which has made so many reports, with one more, and those of its live builds that run
/// stop. A change stands in one queue, and a live running build with the item's serial is the item's, so nothing else
/// is looked for.
pub(crate) fn leaving(
    alloc: Global,
    config: &Config,
    queued: &QueuedItem,
    reports: u64,
    builds: &[Build],
    verdict: Verdict,
) -> Result<Vec<Edit>, NoMemory>
    ensures { IfOk result (λ edits. (x : Content) → IsLawfulContent config.now x →
        Contains (items_in config.now x.state queued.now.queue) queued.now.item →
        reports ≡ reports_in x.state queued.now.queue → builds.now ≡ live_builds x.state queued.now.item.serial →
        Moves x edits.items (leave verdict queued.now.item.change x.state)) }
{
    config.show_sound();
    let gone = Edit::DropItem(queued.item.serial);
    let edits = out_of_queue(alloc, queued, gone, reports.saturating_add(1), verdict)?;
    with_stops(edits, builds)
}

/// The same of an item that lands: the jobs of its plan stay.
pub(crate) fn landing(
    alloc: Global,
    config: &Config,
    queued: &QueuedItem,
    reports: u64,
    builds: &[Build],
    verdict: Verdict,
) -> Result<Vec<Edit>, NoMemory>
    ensures { IfOk result (λ edits. (x : Content) → IsLawfulContent config.now x →
        Contains (items_in config.now x.state queued.now.queue) queued.now.item →
        reports ≡ reports_in x.state queued.now.queue → builds.now ≡ live_builds x.state queued.now.item.serial →
        Moves x edits.items (put_plan (landed_plan x.state queued.now.item.serial)
        (leave verdict queued.now.item.change x.state))) }
{
    config.show_sound();
    let gone = Edit::LandItem(queued.item.serial);
    let edits = out_of_queue(alloc, queued, gone, reports.saturating_add(1), verdict)?;
    with_stops(edits, builds)
}

/// What befell an item of a queue with these figures.
pub(crate) fn touched(queued: QueuedItem, figures: QueueFigures, event: Event) -> TouchedItem
    ensures { result ≡ record { queue = queued.queue; item = queued.item; event = event; figures = figures } }
{
    TouchedItem {
        queue: queued.queue,
        item: queued.item,
        event,
        figures,
    }
}

/// A change is taken out of its queue.
pub(crate) fn leave_queue<B: Book>(
    alloc: Global,
    book: &mut B,
    config: &Config,
    item: LiveItem,
    verdict: Verdict,
) -> Result<Left, BookFault>
    ensures moves { OfHeldUnder B.IsTrusted B.Holds book.old book.new config.now (λ x. (n : ℕ) →
        IsLiveAs config.now x.state n item →
        IfOk result (λ left. Moves x left.edits.items (leave verdict n x.state))) }
    ensures touched { OfHeldUnder B.IsTrusted B.Holds book.old book.new config.now (λ x. (n : ℕ) →
        IsLiveAs config.now x.state n item →
        IfOk result (λ left. GivesUp config.now x.state n verdict left.touched)) }
    ensures kept { IsKept B.IsTrusted B.Holds B.LeavesOneOf book.old book.new }
    ensures fault { IfErr result (MayAnswer B.MayFault) }
{
    let LiveItem { queued, builds } = item;
    let figures = figures_of(book, &queued.queue)?;
    let edits = leaving(
        alloc,
        config,
        &queued,
        figures.reports,
        builds.as_slice(),
        verdict,
    )?;
    Ok(Left {
        edits,
        touched: Some(touched(queued, figures, Event::Left(verdict))),
    })
}

/// Whether an order for a change is shown, by where it stands.
pub(crate) fn is_submitting(place: &QueuePlace) -> bool
    ensures { result ≡ is_submitting_at place.now }
{
    matches!(place, QueuePlace::Submitting)
}

/// A change gives up its place in a queue, if it has one.
pub(crate) fn give_up_place<B: Book>(
    alloc: Global,
    book: &mut B,
    config: &Config,
    place: QueuePlace,
    verdict: Verdict,
) -> Result<Left, BookFault>
    ensures moves { OfHeldUnder B.IsTrusted B.Holds book.old book.new config.now (λ x. (n : ℕ) →
        QueuesSo config.now x.state n place → is_submitting config.now x.state n ≡ false →
        IfOk result (λ left. Moves x left.edits.items (leave verdict n x.state))) }
    ensures touched { OfHeldUnder B.IsTrusted B.Holds book.old book.new config.now (λ x. (n : ℕ) →
        QueuesSo config.now x.state n place → is_submitting config.now x.state n ≡ false →
        IfOk result (λ left. GivesUp config.now x.state n verdict left.touched)) }
    ensures kept { IsKept B.IsTrusted B.Holds B.LeavesOneOf book.old book.new }
    ensures fault { IfErr result (MayAnswer B.MayFault) }
{
    let QueuePlace::Item(item) = place else {
        return Ok(Left {
            edits: Vec::new(alloc),
            touched: None,
        });
    };
    leave_queue(alloc, book, config, item, verdict)
}
