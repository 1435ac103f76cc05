//! The build that is due of one item.
ghost use Rattle.std.specs.Prelude.{◌≡◌, ◌==◌, IfOk, option_map, slice_get};
ghost use Rattle.std.specs.List.{list_any};
ghost use Rattle.gate_types.specs.State.{Queue};
ghost use Rattle.gate_types.specs.Line.{Place};
ghost use Rattle.gate_types.specs.Slot.{is_blocked};
ghost use Rattle.gate_types.specs.Choice.{builds_for};
ghost use Rattle.gate_book_trait.specs.Faults.{MayAnswer};
ghost use Rattle.gate_book_trait.specs.Reading.{IsRead, IsReadUnder};
ghost use Rattle.gate_book_trait.specs.Reads.{landings_before};
ghost use Rattle.gate_reads.specs.NextBuild.{under_number};
ghost use Rattle.gate_reads.specs.Parts.{IsTold};
ghost use Rattle.gate_reads.specs.Places.{IsBehind, are_met_among, build_on};

use crate::jobs::first_waiting;
use crate::known::needs_of;
use gate_book_trait::{Book, BookFault};
use gate_queue_rules::is_cut;
use gate_types::config::{Config, Job};
use gate_types::names::Name;
use gate_types::numbers::{BuildNo, ChangeNo};
use gate_types::records::{Build, Entry, Item, Need, Outcome};
use gate_types::sequence::Sequence;
use std::alloc::Global;

/// An item as a book tells of it: its row, the jobs of its plan, whether one failure ends them all, its live builds.
#[derive(Clone, Copy)]
pub(crate) struct BookItem<'a> {
    pub row: Item,
    pub jobs: &'a [Job],
    pub fast: bool,
    pub builds: &'a [Build],
}

fn has_change(ahead: &[Entry], change: ChangeNo) -> bool
    ensures { result ≡ list_any (λ e. e.change == change) ahead.now }
{
    ahead.iter().any(|entry| entry.change == change)
}

/// Whether each need has landed or is ahead.
pub fn are_met_among(ahead: &[Entry], needs: &[Need]) -> bool
    ensures { result ≡ are_met_among ahead.now needs.now }
{
    needs
        .iter()
        .all(|need| need.landed || has_change(ahead, need.change))
}

/// A build of a job of an item, on what is ahead of it.
fn build_on<B: Book>(
    book: &mut B,
    queue: &Name,
    number: BuildNo,
    ahead: &Sequence<Entry>,
    item: &Item,
    job: &Job,
) -> Result<Build, BookFault>
    ensures { IsRead B.IsTrusted B.Holds B.LeavesOneOf (MayAnswer B.MayFault) book.old book.new (λ c x.
        let after = landings_before x.state queue.now item.now.serial in
        IfOk result (λ build. build ≡ build_on number queue.now ahead.now item.now after job.now.name)) result }
{
    let after = book.landing_before(queue, item.serial)?;
    let queue = queue.copy()?;
    let job = job.name.copy()?;
    let ahead = ahead.copy()?;
    Ok(Build {
        number,
        queue,
        serial: item.serial,
        change: item.change,
        revision: item.revision,
        job,
        after,
        ahead,
        outcome: Outcome::Running,
        live: true,
    })
}

/// Whether an item with these changes ahead is blocked. Only a failing one can be: the needs of others aren't read.
fn is_blocked<B: Book>(
    alloc: Global,
    book: &mut B,
    config: &Config,
    queue: &Name,
    ahead: &Sequence<Entry>,
    item: &Item,
) -> Result<bool, BookFault>
    ensures { IsReadUnder B.IsTrusted B.Holds B.LeavesOneOf (MayAnswer B.MayFault) book.old book.new config.now (λ x.
        (q : Queue) (p : Place) → IsBehind config.now x.state queue.now ahead.now item.now q p →
        IfOk result (λ blocked. blocked ≡ is_blocked p)) result }
{
    if !item.failing {
        return Ok(false);
    }
    let known = book.change(item.change)?;
    let needs = needs_of(alloc, book, &known)?;
    Ok(!are_met_among(ahead.as_slice(), &needs))
}

/// The build of the first waiting job of an item with these changes ahead, unless it is blocked or cut.
pub(crate) fn build_of_item<B: Book>(
    alloc: Global,
    book: &mut B,
    config: &Config,
    queue: &Name,
    number: BuildNo,
    ahead: &Sequence<Entry>,
    told: &BookItem,
) -> Result<Option<Build>, BookFault>
    ensures { IsReadUnder B.IsTrusted B.Holds B.LeavesOneOf (MayAnswer B.MayFault) book.old book.new config.now (λ x.
        (q : Queue) (p : Place) →
        IsBehind config.now x.state queue.now ahead.now told.now.row q p → IsTold x.state told.now →
        IfOk result (λ found. found ≡ option_map (under_number number) (slice_get (builds_for x.state q p) 0))) result }
{
    if is_cut(told.fast, false, told.row.failing) {
        return Ok(None);
    }
    let Some(job) = first_waiting(alloc, told.builds, told.jobs)? else {
        return Ok(None);
    };
    if is_blocked(alloc, book, config, queue, ahead, &told.row)? {
        return Ok(None);
    }
    Ok(Some(build_on(book, queue, number, ahead, &told.row, job)?))
}
