//! The edits of one visit.
ghost use Rattle.std.specs.Prelude.{◌≡◌, ◌<◌, ◌+◌, ◌^◌, ◌++◌, ◌||◌, ◌&&◌, is_some, OnOk, IfOk};
ghost use Rattle.gate_types.specs.Slot as rules;
ghost use Rattle.gate_walk.specs.Walk as walk;

use gate_queue_rules::{push_item, push_window, window_behind};
use gate_types::config::WindowRule;
use gate_types::edits::Edit;
use gate_types::names::{Name, NoMemory};
use gate_types::records::{Build, Item, Outcome, Verdict};
use gate_types::sequence::Sequence;
use std::alloc::Global;

fn is_stopped(resets: bool, over: bool, build: &Build) -> bool
    ensures { result ≡ (resets || over && rules.is_running build.now.outcome) }
{
    resets || over && matches!(build.outcome, Outcome::Running)
}

/// Stops the builds of an item: all of them, or the running ones where no more of it is to be run.
fn push_stops(
    edits: &mut Sequence<Edit>,
    resets: bool,
    over: bool,
    builds: &[Build],
) -> Result<(), NoMemory>
    ensures { OnOk result (edits.new ≡ edits.old ++ walk.stops_of resets over builds.now) }
{
    for build in builds {
        if is_stopped(resets, over, build) {
            edits.push(Edit::StopBuild(build.number))?;
        }
    }
    Ok(())
}

/// Takes an item out, or puts its row where it isn't what is stored.
fn push_row(
    edits: &mut Sequence<Edit>,
    name: &Name,
    reports: u64,
    stored: Item,
    row: Item,
    verdict: Option<Verdict>,
) -> Result<(), NoMemory>
    requires { reports + 1 < 2 ^ 64 }
    ensures { OnOk result (edits.new ≡ edits.old ++ walk.row_edits name.now reports stored row verdict) }
{
    if verdict.is_none() && stored == row {
        return Ok(());
    }
    push_item(edits, name, reports, row, verdict)
}

/// What stands beside an item's row for its edits: the row as it is stored, and the walk's queue.
#[derive(Clone, Copy)]
pub struct Beside {
    pub stored: Item,
    pub floor: u32,
    pub rule: WindowRule,
    pub window: u32,
    pub reports: u64,
    pub resets: bool,
    ghost reports_in_range: { reports + 1 < 2 ^ 64 },
}

/// The edits of a visit.
pub(crate) fn edits_of_visit(
    alloc: Global,
    name: &Name,
    beside: Beside,
    row: Item,
    cut: bool,
    verdict: Option<Verdict>,
    builds: &[Build],
) -> Result<Sequence<Edit>, NoMemory>
    ensures { IfOk result (λ edits. edits ≡
        (walk.stops_of beside.resets (is_some verdict || cut) builds.now
        ++ walk.row_edits name.now beside.reports beside.stored row verdict)
        ++ walk.window_edits_by name.now (record { floor = beside.floor; rule = beside.rule }) beside.window verdict) }
{
    let mut edits = Sequence::new(alloc);
    let over = verdict.is_some() || cut;
    push_stops(&mut edits, beside.resets, over, builds)?;
    push_row(
        &mut edits,
        name,
        beside.reports,
        beside.stored,
        row,
        verdict,
    )?;
    let window = window_behind(beside.window, beside.floor, beside.rule, verdict);
    push_window(&mut edits, name, beside.window, window)?;
    Ok(edits)
}
