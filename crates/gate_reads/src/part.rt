//! A queue is read in parts, so that what is asked of a book grows with parts and not with items.
ghost use Rattle.std.specs.Prelude.{◌≡◌, ◌==◌, ◌<◌, ◌≤◌, nat_lt, drop, length, min, if◌then◌else◌, find, IfOk};
ghost use Rattle.std.specs.Prelude.{IfSome, List, Some, None, option_copied, option_map, slice_get};
ghost use Rattle.std.specs.List.{prefix_len, take_while, flat_map};
ghost use Rattle.gate_types.specs.State.{Queue, plan_in};
ghost use Rattle.gate_types.specs.Line.{Place};
ghost use Rattle.gate_types.specs.Choice.{builds_for};
ghost use Rattle.gate_book_trait.specs.Faults.{MayAnswer};
ghost use Rattle.gate_book_trait.specs.Reading.{IsRead, IsReadUnder};
ghost use Rattle.gate_reads.specs.NextBuild.{under_number};
ghost use Rattle.gate_reads.specs.Parts.{last_serial, ahead_behind, most_at_once, AreBehind, AreTold, TellsPart};

use crate::choosing::push_unless_failing;
use crate::due::{BookItem, build_of_item};
use gate_book_trait::{Book, BookFault};
use gate_types::config::Config;
use gate_types::names::Name;
use gate_types::numbers::{BuildNo, Serial};
use gate_types::records::{Build, Entry, Item, Plan};
use gate_types::sequence::Sequence;
use std::alloc::Global;

/// The most items that are read at once.
const PART: u32 = 32;

/// Some items of a queue one behind another, the plan of each, and the live builds of each.
#[derive(Drop)]
pub(crate) struct Part {
    pub items: Sequence<Item>,
    pub plans: Sequence<Plan>,
    pub builds: Sequence<Build>,
    pub last: Serial,
}

/// How many items are read next, in a queue of this window of which so many are left.
pub(crate) fn size_of_part(window: u32, left: u32) -> u32
    ensures { result ≡ (if window == 0 then most_at_once else min left most_at_once) }
{
    if window == 0 { PART } else { left.min(PART) }
}

/// The serial of the last item, if it is above this one.
fn last_above(items: &[Item], above: u64) -> Option<Serial>
    ensures { result ≡ (if nat_lt above (last_serial above items.now)
        then Some (last_serial above items.now) else None) }
{
    let last = items.last()?.serial;
    (above < last.get()).then_some(last)
}

/// The items of a queue above a serial, no more than `most`, with all that is told of them; none where there are none.
/// A book that isn't trusted might return lower ones: it has none above.
pub(crate) fn read_part<B: Book>(
    book: &mut B,
    queue: &Name,
    above: u64,
    most: u32,
) -> Result<Option<Part>, BookFault>
    ensures reads { IsRead B.IsTrusted B.Holds B.LeavesOneOf (MayAnswer B.MayFault) book.old book.new (λ c x.
        IfOk result (TellsPart c x.state queue.now above most)) result }
    ensures rises { IfOk result (λ found. IfSome found (λ p. above < p.last)) }
{
    let items = book.next_items(queue, above, most)?;
    let Some(last) = last_above(items.as_slice(), above) else {
        return Ok(None);
    };
    let plans = book.plans_between(queue, above, last)?;
    let builds = book.builds_between(queue, above, last)?;
    Ok(Some(Part {
        items,
        plans,
        builds,
        last,
    }))
}

/// How many builds of a serial stand first.
fn count_own(builds: &[Build], serial: Serial) -> usize
    ensures count { result ≡ prefix_len (λ b. b.serial == serial) builds.now }
    ensures bound { result ≤ length builds.now }
{
    builds
        .iter()
        .take_while(|build| build.serial == serial)
        .count()
}

/// The builds of a serial that stand first, and the builds behind them.
fn split_own<'b>(builds: &'b [Build], serial: Serial) -> (&'b [Build], &'b [Build])
    ensures own { result.0.now ≡ take_while (λ b. b.serial == serial) builds.now }
    ensures behind { result.1.now ≡ drop (prefix_len (λ b. b.serial == serial) builds.now) builds.now }
{
    let count = count_own(builds, serial);
    builds.split_at(count)
}

fn planned(plans: &[Plan], serial: Serial) -> Option<&Plan>
    ensures { option_copied result ≡ find (λ p. p.serial == serial) plans.now }
{
    plans.iter().find(|plan| plan.serial == serial)
}

/// An item with the jobs of its plan and its builds; without jobs where it has no plan.
fn told<'p>(plans: &'p [Plan], builds: &'p [Build], item: &Item) -> BookItem<'p>
    ensures row { result.row ≡ item.now }
    ensures jobs { result.jobs.now ≡ (plan_in plans.now item.now.serial).jobs }
    ensures fast { result.fast ≡ (plan_in plans.now item.now.serial).fast }
    ensures builds { result.builds.now ≡ builds.now }
{
    match planned(plans, item.serial) {
        Some(plan) => BookItem {
            row: *item,
            jobs: plan.jobs.as_slice(),
            fast: plan.fast,
            builds,
        },
        None => BookItem {
            row: *item,
            jobs: &[],
            fast: false,
            builds,
        },
    }
}

/// The first build that is due in a part. Where none is, `ahead` then has what is ahead of the item behind the part.
pub(crate) fn build_of_part<B: Book>(
    alloc: Global,
    book: &mut B,
    config: &Config,
    queue: &Name,
    number: BuildNo,
    ahead: &mut Sequence<Entry>,
    part: &Part,
) -> Result<Option<Build>, BookFault>
    ensures reads { IsReadUnder B.IsTrusted B.Holds B.LeavesOneOf (MayAnswer B.MayFault) book.old book.new config.now
        (λ x. (q : Queue) (ps : List Place) →
        AreBehind config.now x.state queue.now ahead.old part.now.items q ps → AreTold x.state part.now →
        IfOk result (λ found. found
        ≡ option_map (under_number number) (slice_get (flat_map (builds_for x.state q) ps) 0))) result }
    ensures ahead { IfOk result (λ found. found ≡ None → ahead.new ≡ ahead_behind ahead.old part.now.items) }
{
    let mut left = part.builds.as_slice();
    for item in part.items.as_slice() {
        let (builds, behind) = split_own(left, item.serial);
        let told = told(part.plans.as_slice(), builds, item);
        if let Some(build) = build_of_item(alloc, book, config, queue, number, ahead, &told)? {
            return Ok(Some(build));
        }
        push_unless_failing(ahead, item)?;
        left = behind;
    }
    Ok(None)
}
