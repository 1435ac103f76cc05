//! The build that a worker is given next.
ghost use Rattle.std.specs.Prelude.{◌≡◌, ◌==◌, ◌||◌, ◌++◌, ◌∷◌, [], nat_lt, IfOk, OnOk, Some, if◌then◌else◌};
ghost use Rattle.std.specs.Prelude.{option_map, slice_get, length};
ghost use Rattle.gate_types.specs.State.{Queue};
ghost use Rattle.gate_types.specs.Choice.{choices, choose};
ghost use Rattle.gate_book_trait.specs.Faults.{MayAnswer};
ghost use Rattle.gate_book_trait.specs.Reading.{IsReadUnder};
ghost use Rattle.gate_book_trait.specs.Reads.{queue_named};
ghost use Rattle.gate_reads.specs.NextBuild.{under_number};

use crate::part::{Part, build_of_part, read_part, size_of_part};
use gate_book_trait::{Book, BookFault};
use gate_types::config::Config;
use gate_types::names::{Name, NoMemory};
use gate_types::numbers::BuildNo;
use gate_types::records::{Build, Entry, Item};
use gate_types::sequence::Sequence;
use std::alloc::Global;

/// Whether one more item may be tested.
fn is_open(window: u32, left: u32) -> bool
    ensures { result ≡ (window == 0 || nat_lt 0 left) }
{
    window == 0 || 0 < left
}

/// What is ahead of the next item: an item that is failing stands in no line.
pub fn push_unless_failing(ahead: &mut Sequence<Entry>, item: &Item) -> Result<(), NoMemory>
    ensures { OnOk result (ahead.new ≡ (if item.now.failing then ahead.old else ahead.old ++
        record { change = item.now.change; revision = item.now.revision } ∷ [])) }
{
    if item.failing {
        return Ok(());
    }
    ahead.push(Entry {
        change: item.change,
        revision: item.revision,
    })?;
    Ok(())
}

/// Whether the queue has no item behind a part, since more than it has were asked for.
fn is_short(part: &Part, most: u32) -> bool
    ensures { result ≡ nat_lt (length part.now.items) most }
{
    (part.items.as_slice().len() as u64) < most as u64
}

/// The first build that is due in a queue of this window.
fn first_build<B: Book>(
    alloc: Global,
    book: &mut B,
    config: &Config,
    queue: &Name,
    window: u32,
    number: BuildNo,
) -> Result<Option<Build>, BookFault>
    ensures { IsReadUnder B.IsTrusted B.Holds B.LeavesOneOf (MayAnswer B.MayFault) book.old book.new config.now (λ x.
        (q : Queue) → queue_named x.state queue.now ≡ Some q → window ≡ q.window →
        IfOk result (λ found. found
        ≡ option_map (under_number number) (slice_get (choices config.now x.state q) 0))) result }
{
    let mut ahead = Sequence::new(alloc);
    let mut above = 0;
    let mut left = window;
    'along: while is_open(window, left) {
        let most = size_of_part(window, left);
        let Some(part) = read_part(book, queue, above, most)? else {
            return Ok(None);
        };
        if let Some(build) = build_of_part(alloc, book, config, queue, number, &mut ahead, &part)? {
            return Ok(Some(build));
        }
        if is_short(&part, most) {
            return Ok(None);
        }
        above = part.last.get();
        left = left.saturating_sub(most);
    }
    Ok(None)
}

fn build_of_queue<B: Book>(
    alloc: Global,
    book: &mut B,
    config: &Config,
    queue: &Name,
    number: BuildNo,
) -> Result<Option<Build>, BookFault>
    ensures { IsReadUnder B.IsTrusted B.Holds B.LeavesOneOf (MayAnswer B.MayFault) book.old book.new config.now (λ x.
        (q : Queue) → queue_named x.state queue.now ≡ Some q →
        IfOk result (λ found. found
        ≡ option_map (under_number number) (slice_get (choices config.now x.state q) 0))) result }
{
    match book.window(queue)? {
        Some(window) => first_build(alloc, book, config, queue, window, number),
        None => Ok(None),
    }
}

/// The build that a worker is given next, under this number: of the first queue, item and job such that the item's
/// place is within the window, the item isn't blocked, and the job waits. None where there is no such job.
pub fn next_build<B: Book>(
    alloc: Global,
    book: &mut B,
    config: &Config,
    number: BuildNo,
) -> Result<Option<Build>, BookFault>
    ensures { IsReadUnder B.IsTrusted B.Holds B.LeavesOneOf (MayAnswer B.MayFault) book.old book.new config.now (λ x.
        IfOk result (λ found. found ≡ option_map (under_number number) (choose config.now x.state))) result }
{
    for queue in config.queues.as_slice() {
        if let Some(build) = build_of_queue(alloc, book, config, &queue.name, number)? {
            return Ok(Some(build));
        }
    }
    Ok(None)
}
