//! Whether the order of an item is shown.
ghost use Rattle.std.specs.Prelude.{◌≡◌, false, is_some, IfOk, IfErr, IfSome};
ghost use Rattle.gate_types.specs.State.{plan_of};
ghost use Rattle.gate_types.specs.Line.{Place};
ghost use Rattle.gate_types.specs.Standing.{are_finished};
ghost use Rattle.gate_book_trait.specs.Faults.{MayAnswer};
ghost use Rattle.gate_book_trait.specs.Kept.{OfHeld, OfHeldUnder, IsKept};
ghost use Rattle.gate_book_trait.specs.Reading.{IsReadUnder};
ghost use Rattle.gate_book_trait.specs.Reads.{live_builds};
ghost use Rattle.gate_reads.specs.Places.{IsAt, is_shown};

use crate::jobs::have_ended;
use gate_book_trait::{Book, BookFault, plan_of};
use gate_types::config::Config;
use gate_types::records::{Build, Item, Plan};
use std::alloc::Global;

/// The plan of an item that isn't failing, where these are its live builds, if each job has ended.
fn plan_if_ended<B: Book>(
    alloc: Global,
    book: &mut B,
    config: &Config,
    item: &Item,
    builds: &[Build],
) -> Result<Option<Plan>, BookFault>
    ensures ended { OfHeldUnder B.IsTrusted B.Holds book.old book.new config.now (λ x. (p : Place) →
        IsAt config.now x.state item.now p → item.now.failing ≡ false →
        builds.now ≡ live_builds x.state item.now.serial →
        IfOk result (λ found. is_some found ≡ are_finished x.state.builds p)) }
    ensures plan { OfHeld B.IsTrusted B.Holds book.old book.new (λ c x.
        IfOk result (λ found. IfSome found (λ plan. plan ≡ plan_of x.state item.now.serial))) }
    ensures kept { IsKept B.IsTrusted B.Holds B.LeavesOneOf book.old book.new }
    ensures fault { IfErr result (MayAnswer B.MayFault) }
{
    let plan = plan_of(alloc, book, item.serial)?;
    if have_ended(alloc, builds, plan.jobs.as_slice())? {
        Ok(Some(plan))
    } else {
        Ok(None)
    }
}

/// Whether each job of an item that isn't failing has ended.
pub(crate) fn have_jobs_ended<B: Book>(
    alloc: Global,
    book: &mut B,
    config: &Config,
    item: &Item,
) -> Result<bool, BookFault>
    ensures { IsReadUnder B.IsTrusted B.Holds B.LeavesOneOf (MayAnswer B.MayFault) book.old book.new config.now (λ x.
        (p : Place) → IsAt config.now x.state item.now p → item.now.failing ≡ false →
        IfOk result (λ ended. ended ≡ are_finished x.state.builds p)) result }
{
    let builds = book.live_builds(item.serial)?;
    let plan = plan_if_ended(alloc, book, config, item, builds.as_slice())?;
    Ok(plan.is_some())
}

/// The plan of an item, where these are its live builds, if its order is shown: its row tells whether it fails and
/// whether something is ahead of it.
pub(crate) fn plan_if_shown<B: Book>(
    alloc: Global,
    book: &mut B,
    config: &Config,
    item: &Item,
    builds: &[Build],
) -> Result<Option<Plan>, BookFault>
    ensures shown { OfHeldUnder B.IsTrusted B.Holds book.old book.new config.now (λ x. (p : Place) →
        IsAt config.now x.state item.now p → builds.now ≡ live_builds x.state item.now.serial →
        IfOk result (λ found. is_some found ≡ is_shown x.state.builds p)) }
    ensures plan { OfHeld B.IsTrusted B.Holds book.old book.new (λ c x.
        IfOk result (λ found. IfSome found (λ plan. plan ≡ plan_of x.state item.now.serial))) }
    ensures kept { IsKept B.IsTrusted B.Holds B.LeavesOneOf book.old book.new }
    ensures fault { IfErr result (MayAnswer B.MayFault) }
{
    if item.failing || item.ahead.is_some() {
        return Ok(None);
    }
    plan_if_ended(alloc, book, config, item, builds)
}
