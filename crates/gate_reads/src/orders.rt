//! The orders that are shown.
ghost use Rattle.std.specs.Prelude.{IfOk};
ghost use Rattle.gate_types.specs.SubmitOrder.{shown_order};
ghost use Rattle.gate_book_trait.specs.Faults.{MayAnswer};
ghost use Rattle.gate_book_trait.specs.Reading.{IsReadUnder};
ghost use Rattle.gate_reads.specs.Orders.{order_in, TellsOrder, TellsShown};

use crate::shown::{have_jobs_ended, plan_if_shown};
use gate_book_trait::{Book, BookFault, QueuedItem};
use gate_types::config::Config;
use gate_types::names::Name;
use gate_types::numbers::Serial;
use gate_types::records::{Build, Item, Plan};
use gate_types::sequence::Sequence;
use std::alloc::Global;

/// The row of the item whose order a queue shows: the first that isn't failing, if each of its jobs has ended.
pub fn order_of_queue<B: Book>(
    alloc: Global,
    book: &mut B,
    config: &Config,
    queue: &Name,
) -> Result<Option<Item>, BookFault>
    ensures { IsReadUnder B.IsTrusted B.Holds B.LeavesOneOf (MayAnswer B.MayFault) book.old book.new config.now (λ x.
        IfOk result (λ found. TellsOrder config.now x.state queue.now found
        (order_in config.now x.state queue.now))) result }
{
    let mut above = 0;
    while let Some(item) = book.next_item(queue, above)? {
        if !item.failing {
            let ended = have_jobs_ended(alloc, book, config, &item)?;
            return Ok(ended.then_some(item));
        }
        above = item.serial.get();
    }
    Ok(None)
}

/// The item of a shown order, as a book tells of it: its row and its queue, its plan, and its live builds.
#[derive(Drop)]
pub struct ShownItem {
    pub queued: QueuedItem,
    pub plan: Plan,
    pub builds: Sequence<Build>,
}

/// The item whose order is shown under a number. What is read on the way is told, so that nothing is asked twice.
pub fn shown_order<B: Book>(
    alloc: Global,
    book: &mut B,
    config: &Config,
    number: Serial,
) -> Result<Option<ShownItem>, BookFault>
    ensures { IsReadUnder B.IsTrusted B.Holds B.LeavesOneOf (MayAnswer B.MayFault) book.old book.new config.now (λ x.
        IfOk result (λ found. TellsShown config.now x.state found (shown_order config.now x.state number))) result }
{
    config.show_sound();
    let Some(item) = book.item(number)? else {
        return Ok(None);
    };
    let builds = book.live_builds(item.serial)?;
    let Some(plan) = plan_if_shown(alloc, book, config, &item, builds.as_slice())? else {
        return Ok(None);
    };
    let Some(queued) = book.queued(item.change)? else {
        return Ok(None);
    };
    Ok(Some(ShownItem {
        queued,
        plan,
        builds,
    }))
}
