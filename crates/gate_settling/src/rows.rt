//! What a visit is given of a row: as it is stored, with what the delivery makes of it.
ghost use Rattle.std.specs.Prelude.{◌≡◌, ◌++◌, ◌∷◌, [], IfOk, map, IfErr};
ghost use Rattle.gate_types.specs.State.{known_change, plan_of};
ghost use Rattle.gate_book_trait.specs.Kept.{OfHeld, IsKept};
ghost use Rattle.gate_book_trait.specs.Reading.{IsRead};
ghost use Rattle.gate_book_trait.specs.Reads as read;
ghost use Rattle.gate_settling.specs.Rows as rows;
ghost use Rattle.gate_book_trait.specs.Faults.{MayAnswer};

use gate_book_trait::{Book, BookFault, QueuedItem, plan_of};
use gate_reads::{Event, TouchedItem};
use gate_types::lists::with_one;
use gate_types::names::{NoMemory, same_name};
use gate_types::numbers::{ChangeNo, Serial};
use gate_types::records::{Build, Change, Plan};
use gate_walk::SeenNeed;
use std::alloc::Global;

/// Whether the item left its queue.
pub(crate) fn is_out(event: Event) -> bool
    ensures { result ≡ rows.is_out event }
{
    match event {
        Event::Ended { .. } => false,
        Event::Left(_) => true,
        Event::Landed => true,
    }
}

/// Whether the item has landed.
pub(crate) fn has_landed(event: Event) -> bool
    ensures { result ≡ rows.has_landed event }
{
    match event {
        Event::Ended { .. } => false,
        Event::Left(_) => false,
        Event::Landed => true,
    }
}

/// Whether an item stands in the touched queue still.
fn stands_still(touched: &TouchedItem, queued: &QueuedItem) -> bool
    ensures { result ≡ rows.stands_still touched.now queued.now }
{
    same_name(&queued.queue, &touched.queue)
        && !(is_out(touched.event) && queued.item.serial == touched.item.serial)
}

fn standing_by(touched: &TouchedItem, queued: &Option<QueuedItem>) -> Option<bool>
    ensures { result ≡ rows.standing_by touched.now queued.now }
{
    match queued {
        Some(queued) => {
            if stands_still(touched, queued) {
                Some(queued.item.failing)
            } else {
                None
            }
        }
        None => None,
    }
}

/// A need of an item in the touched queue.
fn need_now<B: Book>(
    book: &mut B,
    touched: &TouchedItem,
    change: ChangeNo,
) -> Result<SeenNeed, BookFault>
    ensures { IsRead B.IsTrusted B.Holds B.LeavesOneOf (MayAnswer B.MayFault) book.old book.new (λ c x.
        IfOk result (λ need. need ≡ rows.need_now c x.state touched.now change)) result }
{
    let known = book.change(change)?;
    let queued = book.queued(change)?;
    Ok(SeenNeed {
        change,
        landed: Change::has_landed(&known)
            || has_landed(touched.event) && touched.item.change == change,
        standing: standing_by(touched, &queued),
    })
}

/// Needs of an item in the touched queue.
fn needs_now<B: Book>(
    alloc: Global,
    book: &mut B,
    touched: &TouchedItem,
    changes: &[ChangeNo],
) -> Result<Vec<SeenNeed>, BookFault>
    ensures { IsRead B.IsTrusted B.Holds B.LeavesOneOf (MayAnswer B.MayFault) book.old book.new (λ c x.
        IfOk result (λ needs. needs.items ≡ map (rows.need_now c x.state touched.now) changes.now)) result }
{
    let mut needs = Vec::new(alloc);
    for change in changes {
        let need = need_now(book, touched, *change)?;
        needs = with_one(needs, need)?;
    }
    Ok(needs)
}

fn needs_known(known: &Option<Change>) -> &[ChangeNo]
    ensures { result.now ≡ rows.needs_known known.now }
{
    match known {
        Some(change) => change.needs.as_slice(),
        None => &[],
    }
}

/// A build once the delivery is done: the one that ended has its outcome.
fn build_now(event: Event, build: Build) -> Build
    ensures { result ≡ rows.build_now event build }
{
    match event {
        Event::Ended {
            build: number,
            ending,
        } => {
            if build.number == number {
                Build {
                    outcome: ending.into(),
                    ..build
                }
            } else {
                build
            }
        }
        _ => build,
    }
}

fn with_build(builds: Vec<Build>, build: Build) -> Result<Vec<Build>, NoMemory>
    ensures { IfOk result (λ all. all.items ≡ builds.items ++ build ∷ []) }
{
    let mut builds = builds;
    builds.push(build)?;
    Ok(builds)
}

fn builds_after(alloc: Global, event: Event, live: &[Build]) -> Result<Vec<Build>, NoMemory>
    ensures { IfOk result (λ builds. builds.items ≡ map (rows.build_now event) live.now) }
{
    let mut builds = Vec::new(alloc);
    for build in live {
        builds = with_build(builds, build_now(event, build.copy()?))?;
    }
    Ok(builds)
}

/// The live builds of a row.
fn builds_now<B: Book>(
    alloc: Global,
    book: &mut B,
    event: Event,
    serial: Serial,
) -> Result<Vec<Build>, BookFault>
    ensures { IsRead B.IsTrusted B.Holds B.LeavesOneOf (MayAnswer B.MayFault) book.old book.new (λ c x.
        IfOk result (λ builds. builds.items ≡ map (rows.build_now event) (read.live_builds x.state serial))) result }
{
    let live = book.live_builds(serial)?;
    Ok(builds_after(alloc, event, live.as_slice())?)
}

/// What stands beside a row.
#[derive(Drop)]
pub struct RowFacts {
    pub needs: Vec<SeenNeed>,
    pub plan: Plan,
    pub builds: Vec<Build>,
}

/// What stands beside the row of a change and a serial in the touched queue.
pub(crate) fn facts_now<B: Book>(
    alloc: Global,
    book: &mut B,
    touched: &TouchedItem,
    change: ChangeNo,
    serial: Serial,
) -> Result<RowFacts, BookFault>
    ensures needs { OfHeld B.IsTrusted B.Holds book.old book.new (λ c x. IfOk result (λ f.
        f.needs.items ≡ map (rows.need_now c x.state touched.now) (rows.needs_known (known_change x.state change)))) }
    ensures plan { OfHeld B.IsTrusted B.Holds book.old book.new (λ c x. IfOk result (λ f.
        f.plan ≡ plan_of x.state serial)) }
    ensures builds { OfHeld B.IsTrusted B.Holds book.old book.new (λ c x. IfOk result (λ f.
        f.builds.items ≡ map (rows.build_now touched.now.event) (read.live_builds x.state serial))) }
    ensures kept { IsKept B.IsTrusted B.Holds B.LeavesOneOf book.old book.new }
    ensures fault { IfErr result (MayAnswer B.MayFault) }
{
    let known = book.change(change)?;
    let needs = needs_now(alloc, book, touched, needs_known(&known))?;
    let plan = plan_of(alloc, book, serial)?;
    let builds = builds_now(alloc, book, touched.event, serial)?;
    Ok(RowFacts {
        needs,
        plan,
        builds,
    })
}
