//! The edits of one item, by its context and all builds.
ghost use Rattle.std.specs.Prelude.{◌≡◌, ◌<◌, ◌+◌, ◌-◌, ◌^◌, ◌++◌, option_map, slice_get, length, OnOk, IfOk};
ghost use Rattle.gate_types.specs.Slot as rules;
ghost use Rattle.gate_types.specs.Standing.{is_failing};
ghost use Rattle.gate_types.specs.Sweep as sweep;
ghost use Rattle.gate_queue_rules.specs.Edits as edits_of;
ghost use Rattle.gate_queue.specs.WholeQueue.Facts.{place_in_context};

use crate::whole_queue::context::{BareItem, ItemContext};
use crate::whole_queue::judge::{Ruling, judge};
use crate::whole_queue::line::ran_on_line;
use gate_queue_rules::push_item;
use gate_types::edits::Edit;
use gate_types::names::{Name, NoMemory};
use gate_types::numbers::Serial;
use gate_types::records::{Build, Item, Outcome};
use gate_types::sequence::Sequence;
use std::alloc::Global;

/// Whether a build of the item stops being live: it doesn't count, or it runs though the item is over.
fn is_stopped(context: &ItemContext, blocked: bool, over: bool, build: &Build) -> bool
    requires { blocked ≡ rules.is_blocked (place_in_context context.now) }
    ensures { result ≡ edits_of.stops (place_in_context context.now) over build.now }
{
    if !build.live || build.serial != context.item.serial {
        return false;
    }
    if over && matches!(build.outcome, Outcome::Running) {
        return true;
    }
    blocked || !ran_on_line(context, build)
}

/// Stops the builds of an item that don't count, and those that run though it is over.
fn push_stops(
    edits: &mut Sequence<Edit>,
    context: &ItemContext,
    blocked: bool,
    over: bool,
    builds: &[Build],
) -> Result<(), NoMemory>
    requires { blocked ≡ rules.is_blocked (place_in_context context.now) }
    ensures { OnOk result
        (edits.new ≡ edits.old ++ edits_of.stop_edits builds.now (place_in_context context.now) over) }
{
    for build in builds {
        if is_stopped(context, blocked, over, build) {
            edits.push(Edit::StopBuild(build.number))?;
        }
    }
    Ok(())
}

/// The serial of the last of some items.
fn last_serial(items: &[BareItem]) -> Option<Serial>
    ensures { result ≡ option_map (λ i. i.serial) (slice_get items.now (length items.now - 1)) }
{
    match items.last() {
        Some(item) => Some(item.serial),
        None => None,
    }
}

/// Adds the edits of an item, behind that many reports of its queue, and says what the rules say of it.
pub(crate) fn push_edits(
    alloc: Global,
    edits: &mut Sequence<Edit>,
    name: &Name,
    reports: u64,
    context: &ItemContext,
    staying: &[BareItem],
    builds: &[Build],
) -> Result<Ruling, NoMemory>
    requires { reports + 1 < 2 ^ 64 }
    ensures edits { let place = place_in_context context.now in
        let more = edits_of.edits_at name.now builds.now reports staying.now place in
        OnOk result (edits.new ≡ edits.old ++ more) }
    ensures failing { IfOk result (λ j. j.failing ≡ is_failing builds.now (place_in_context context.now)) }
    ensures verdict { IfOk result (λ j.
        j.verdict ≡ sweep.verdict_of builds.now staying.now (place_in_context context.now)) }
{
    let ruling = judge(alloc, context, staying, builds)?;
    let over = ruling.verdict.is_some() || ruling.cut;
    push_stops(edits, context, ruling.blocked, over, builds)?;
    let row = Item {
        serial: context.item.serial,
        change: context.item.change,
        revision: context.item.revision,
        ahead: last_serial(context.ahead),
        failing: ruling.failing,
    };
    push_item(edits, name, reports, row, ruling.verdict)?;
    Ok(ruling)
}
