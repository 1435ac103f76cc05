//! Where a change stands.
ghost use Rattle.std.specs.Prelude.{IfOk};
ghost use Rattle.gate_book_trait.specs.Faults.{MayAnswer};
ghost use Rattle.gate_book_trait.specs.Reading.{IsReadUnder};
ghost use Rattle.gate_reads.specs.Stands.{StandsSo, QueuesSo};

use crate::shown::plan_if_shown;
use gate_book_trait::{Book, BookFault, QueuedItem};
use gate_types::config::Config;
use gate_types::numbers::ChangeNo;
use gate_types::records::Build;
use gate_types::sequence::Sequence;
use std::alloc::Global;

/// Where a change stands.
#[derive(Drop)]
pub enum Stand {
    /// It is an item of a queue.
    Queued(QueuedItem),
    /// It is approved and stands in no queue.
    Ready,
    /// Neither.
    Nowhere,
}

/// Where a change stands. Its approval is asked for only where it is no item.
pub fn stand_of<B: Book>(
    alloc: Global,
    book: &mut B,
    config: &Config,
    change: ChangeNo,
) -> Result<Stand, BookFault>
    ensures { IsReadUnder B.IsTrusted B.Holds B.LeavesOneOf (MayAnswer B.MayFault) book.old book.new config.now (λ x.
        IfOk result (StandsSo config.now x.state change)) result }
{
    config.show_sound();
    if let Some(queued) = book.queued(change)? {
        return Ok(Stand::Queued(queued));
    }
    match book.approval(change)? {
        Some(_) => Ok(Stand::Ready),
        None => Ok(Stand::Nowhere),
    }
}

/// An item as a book tells of it: its row and its queue, and its live builds.
#[derive(Drop)]
pub struct LiveItem {
    pub queued: QueuedItem,
    pub builds: Sequence<Build>,
}

/// Where a change stands in the queues.
#[derive(Drop)]
pub enum QueuePlace {
    /// It is an item, and its order is shown.
    Submitting,
    /// It is an item, and its order isn't shown.
    Item(LiveItem),
    /// It is in no queue.
    Outside,
}

/// Where a change stands in the queues. What is read on the way is told, so that nothing is asked twice.
pub fn queue_place<B: Book>(
    alloc: Global,
    book: &mut B,
    config: &Config,
    change: ChangeNo,
) -> Result<QueuePlace, BookFault>
    ensures { IsReadUnder B.IsTrusted B.Holds B.LeavesOneOf (MayAnswer B.MayFault) book.old book.new config.now (λ x.
        IfOk result (QueuesSo config.now x.state change)) result }
{
    config.show_sound();
    let Some(queued) = book.queued(change)? else {
        return Ok(QueuePlace::Outside);
    };
    let item = queued.item;
    let builds = book.live_builds(item.serial)?;
    let plan = plan_if_shown(alloc, book, config, &item, builds.as_slice())?;
    if plan.is_some() {
        return Ok(QueuePlace::Submitting);
    }
    Ok(QueuePlace::Item(LiveItem { queued, builds }))
}
