//! The status text.
ghost use Rattle.std.specs.Prelude.{◌≡◌, ℕ, List, Some, IfOk, string_bytes, flat_map};
ghost use Rattle.gate_types.specs.State.{Queue, known_or_closed};
ghost use Rattle.gate_types.specs.Line.{Place};
ghost use Rattle.gate_types.specs.Standing.{places};
ghost use Rattle.gate_types.specs.Status.{item_row, status_rows, waiting_row, status_text};
ghost use Rattle.gate_book_trait.specs.Faults.{MayAnswer};
ghost use Rattle.gate_book_trait.specs.Reading.{IsRead, IsReadUnder};
ghost use Rattle.gate_book_trait.specs.Reads.{queue_named};
ghost use Rattle.gate_reads.specs.Places.{IsBehind};

use crate::lines::{item_line, queue_line, waiting_line};
use gate_book_trait::{Book, BookFault, plan_of};
use gate_queue_rules::is_cut;
use gate_reads::{are_met_among, needs_of, push_unless_failing};
use gate_types::config::Config;
use gate_types::names::{Name, Text};
use gate_types::records::{Change, Entry, Item, Ready};
use gate_types::sequence::Sequence;
use std::alloc::Global;

/// The line of an item with these changes ahead.
fn item_text<B: Book>(
    alloc: Global,
    book: &mut B,
    config: &Config,
    ahead: &[Entry],
    item: &Item,
) -> Result<String, BookFault>
    ensures { IsReadUnder B.IsTrusted B.Holds B.LeavesOneOf (MayAnswer B.MayFault) book.old book.new config.now (λ x.
        (name : List ℕ) (q : Queue) (p : Place) → IsBehind config.now x.state name ahead.now item.now q p →
        IfOk result (λ text. string_bytes text ≡ item_row x.state.builds p)) result }
{
    let known = book.change(item.change)?;
    let needs = needs_of(alloc, book, &known)?;
    let plan = plan_of(alloc, book, item.serial)?;
    let builds = book.live_builds(item.serial)?;
    let blocked = !are_met_among(ahead, &needs);
    let cut = is_cut(plan.fast, blocked, item.failing);
    let jobs = plan.jobs.as_slice();
    Ok(item_line(alloc, item, blocked, cut, builds.as_slice(), jobs)?)
}

/// The lines of the items of a queue, gone through one after another.
fn items_text<B: Book>(
    alloc: Global,
    book: &mut B,
    config: &Config,
    queue: &Name,
) -> Result<String, BookFault>
    ensures { IsReadUnder B.IsTrusted B.Holds B.LeavesOneOf (MayAnswer B.MayFault) book.old book.new config.now (λ x.
        (q : Queue) → queue_named x.state queue.now ≡ Some q → IfOk result (λ text.
        string_bytes text ≡ flat_map (item_row x.state.builds) (places config.now x.state q))) result }
{
    let mut text = String::new(alloc);
    let mut ahead = Sequence::new(alloc);
    let mut above = 0;
    'along: while let Some(item) = book.next_item(queue, above)? {
        let line = item_text(alloc, book, config, ahead.as_slice(), &item)?;
        text.push_str(line.as_str())?;
        push_unless_failing(&mut ahead, &item)?;
        above = item.serial.get();
    }
    Ok(text)
}

/// The line of a queue, and those of its items.
fn queue_text<B: Book>(
    alloc: Global,
    book: &mut B,
    config: &Config,
    queue: &Name,
) -> Result<String, BookFault>
    ensures { IsReadUnder B.IsTrusted B.Holds B.LeavesOneOf (MayAnswer B.MayFault) book.old book.new config.now (λ x.
        (q : Queue) → queue_named x.state queue.now ≡ Some q →
        IfOk result (λ text. string_bytes text ≡ status_rows config.now x.state q)) result }
{
    let Some(window) = book.window(queue)? else {
        return Ok(String::new(alloc));
    };
    let landings = book.landing_count(queue)?;
    let line = queue_line(alloc, queue.as_str(), window, landings)?;
    let items = items_text(alloc, book, config, queue)?;
    let text = format!(in alloc; "{line}{items}")?;
    Ok(text)
}

/// The queues, in the order of the settings.
fn queues_text<B: Book>(alloc: Global, book: &mut B, config: &Config) -> Result<String, BookFault>
    ensures { IsReadUnder B.IsTrusted B.Holds B.LeavesOneOf (MayAnswer B.MayFault) book.old book.new config.now (λ x.
        IfOk result (λ text. string_bytes text ≡ flat_map (status_rows config.now x.state) x.state.queues)) result }
{
    let mut text = String::new(alloc);
    for queue in config.queues.as_slice() {
        let rows = queue_text(alloc, book, config, &queue.name)?;
        text.push_str(rows.as_str())?;
    }
    Ok(text)
}

fn revision_of(change: &Option<Change>) -> u64
    ensures { result ≡ (known_or_closed change.now).revision }
{
    match change {
        Some(change) => change.revision.get(),
        None => 0,
    }
}

fn ready_line<B: Book>(alloc: Global, book: &mut B, ready: &Ready) -> Result<String, BookFault>
    ensures { IsRead B.IsTrusted B.Holds B.LeavesOneOf (MayAnswer B.MayFault) book.old book.new (λ c x.
        IfOk result (λ text. string_bytes text ≡ waiting_row x.state ready.now)) result }
{
    let known = book.change(ready.change)?;
    Ok(waiting_line(alloc, ready.change, revision_of(&known))?)
}

/// The lines of ready changes.
fn ready_text<B: Book>(alloc: Global, book: &mut B, ready: &[Ready]) -> Result<String, BookFault>
    ensures { IsRead B.IsTrusted B.Holds B.LeavesOneOf (MayAnswer B.MayFault) book.old book.new (λ c x.
        IfOk result (λ text. string_bytes text ≡ flat_map (waiting_row x.state) ready.now)) result }
{
    let mut text = String::new(alloc);
    for waiting in ready {
        let line = ready_line(alloc, book, waiting)?;
        text.push_str(line.as_str())?;
    }
    Ok(text)
}

/// The status text.
pub fn status<B: Book>(alloc: Global, book: &mut B, config: &Config) -> Result<Text, BookFault>
    ensures { IsReadUnder B.IsTrusted B.Holds B.LeavesOneOf (MayAnswer B.MayFault) book.old book.new config.now (λ x.
        IfOk result (λ text. text ≡ status_text config.now x.state)) result }
{
    let queues = queues_text(alloc, book, config)?;
    let ready = book.ready()?;
    let waiting = ready_text(alloc, book, ready.as_slice())?;
    let text = format!(in alloc; "{queues}{waiting}end\n")?;
    Ok(Text::new(text))
}
