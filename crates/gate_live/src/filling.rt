//! Reads the live rows of the book below into memory.
ghost use Rattle.std.specs.Prelude.{◌≡◌, [], map, option_map, Some, IfErr, IfOk, IfSome, OnErr};
ghost use Rattle.std.specs.List.{AllByRecursion};
ghost use Rattle.gate_types.specs.Tables.{tables};
ghost use Rattle.gate_types.specs.Keys.{serial_of_item};
ghost use Rattle.gate_types.specs.Rising.{RisesFrom};
ghost use Rattle.gate_book_trait.specs.Faults.{MayAnswer};
ghost use Rattle.gate_book_trait.specs.Reading.{IsRead, IsReadUnder};
ghost use Rattle.gate_book_trait.specs.RowReads.{rows_named};
ghost use Rattle.gate_live.specs.Live.{live_queue};
ghost use Rattle.gate_live.specs.Held.{AreKeptQueues, IsKeptQueue, IsLiveOf, live_of, queue_of};
ghost use Rattle.gate_live.specs.Both.{HoldsNothing, IsKeptUnder};

use crate::change_reads::read_ready;
use crate::held::Held;
use crate::held_queue::HeldQueue;
use crate::live::Live;
use crate::live_book::LiveBook;
use gate_book_trait::{Book, BookFault};
use gate_memory::HoldsQueue;
use gate_types::config::{Config, Queue};
use gate_types::edits::Edit;
use gate_types::names::{Name, NoMemory};
use gate_types::records::Item;
use std::alloc::Global;

/// Collects the live rows of a queue from these items, which are sorted by serial. Fails if memory is refused.
fn queue_with(
    alloc: Global,
    name: &Name,
    window: u32,
    items: &[Item],
    landings: u64,
    reports: u64,
) -> Result<HeldQueue, NoMemory>
    ensures rows { IfOk result (λ queue. RisesFrom serial_of_item 0 items.now → queue_of queue ≡ record {
      rows = record { name = name.now; window = window; items = items.now; landings = []; reports = [] };
      landings = landings;
      reports = reports;
    }) }
    ensures kept { IfOk result IsKeptQueue }
{
    let held = name.copy()?;
    let mut queue = HeldQueue::new(alloc, held, window, landings, reports);
    queue.make_room(items.len())?;
    for item in items {
        let told = name.copy()?;
        queue.apply(&Edit::PutItem {
            queue: told,
            item: *item,
        });
    }
    Ok(queue)
}

/// Reads the live rows of a queue. `None` if the book has no queue of this name. Fails if the book does or memory is
/// refused.
fn read_queue<B: Book>(
    alloc: Global,
    book: &mut B,
    name: &Name,
) -> Result<Option<HeldQueue>, BookFault>
    ensures reads { IsRead B.IsTrusted B.Holds B.LeavesOneOf (MayAnswer B.MayFault) book.old book.new (λ c x.
        IfOk result (λ found. option_map queue_of found
        ≡ option_map live_queue (rows_named (tables c x).queues name.now))) result }
    ensures sound { IfOk result (λ found. IfSome found IsKeptQueue) }
{
    let Some(window) = book.window(name)? else {
        return Ok(None);
    };
    let items = book.items(name)?;
    let landings = book.landing_count(name)?;
    let reports = book.reports(name)?;
    let queue = queue_with(alloc, name, window, items.as_slice(), landings, reports)?;
    Ok(Some(queue))
}

/// Reads the live rows of all queues in the settings. `None` if the book lacks one of them. Fails if the book does or
/// memory is refused.
fn read_queues<B: Book>(
    alloc: Global,
    book: &mut B,
    settings: &[Queue],
) -> Result<Option<Vec<HeldQueue>>, BookFault>
    ensures reads { IsRead B.IsTrusted B.Holds B.LeavesOneOf (MayAnswer B.MayFault) book.old book.new (λ c x.
        IfOk result (λ found. IfSome found (λ queues. map Some (map queue_of queues.items)
        ≡ map (λ r. option_map live_queue (rows_named (tables c x).queues r.name)) settings.now))) result }
    ensures sound { IfOk result (λ found. IfSome found (λ queues. AllByRecursion IsKeptQueue queues.items)) }
{
    let mut queues = Vec::new(alloc);
    for setting in settings {
        let Some(queue) = read_queue(alloc, book, &setting.name)? else {
            return Ok(None);
        };
        queues.reserve(1)?;
        queues.push_reserved(queue);
    }
    Ok(Some(queues))
}

/// Reads the live rows of all queues, and the counters. `None` if the book lacks a queue of these settings. Fails if
/// the book does or memory is refused.
fn read_all<B: Book>(
    alloc: Global,
    book: &mut B,
    config: &Config,
) -> Result<Option<Held>, BookFault>
    ensures reads { IsReadUnder B.IsTrusted B.Holds B.LeavesOneOf (MayAnswer B.MayFault) book.old book.new config.now
        (λ x. IfOk result (λ held. IsLiveOf (option_map live_of held) config.now x)) result }
    ensures sound { IfOk result (λ held. IfSome held AreKeptQueues) }
{
    let Some(queues) = read_queues(alloc, book, config.queues.as_slice())? else {
        return Ok(None);
    };
    let counters = book.counters()?;
    Ok(Some(Held::new(queues, counters)))
}

impl<B: Book> LiveBook<B> {
    /// Reads the live rows under the settings in force and holds them from then on. Drops all that was held before, so
    /// after a fault nothing is held. If the book lacks a queue of the settings, no queue is held; if it lacks a change
    /// of its own ready list, no change is held. Fails with the book's fault (`Store` if its store fails, `Damaged` if
    /// a row isn't of its form), or with `NoMemory` if memory is refused.
    pub fn fill(&mut self, config: &Config) -> Result<(), BookFault>
        ensures kept { IsKeptUnder B.IsTrusted B.Holds B.LeavesOneOf config.now self.old self.new }
        ensures drops { OnErr result (HoldsNothing self.new) }
        ensures fault { IfErr result (MayAnswer B.MayFault) }
    {
        self.live = Live::new(self.alloc);
        let held = read_all(self.alloc, &mut self.book, config)?;
        let changes = read_ready(self.alloc, &mut self.book)?;
        self.live = Live::of(self.alloc, held, changes);
        Ok(())
    }
}
