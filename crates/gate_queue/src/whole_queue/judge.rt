//! Whether an item is failing, and whether it goes.
ghost use Rattle.std.specs.Prelude.{◌≡◌, ◌&&◌, ◌||◌, IfOk};
ghost use Rattle.gate_types.specs.Slot as rules;
ghost use Rattle.gate_types.specs.Standing.{is_failing};
ghost use Rattle.gate_types.specs.Sweep as sweep;
ghost use Rattle.gate_queue.specs.WholeQueue.Facts.{place_in_context};

use crate::whole_queue::context::{BareItem, ItemContext, are_met_by};
use crate::whole_queue::slots::marks_of;
use gate_queue_rules::{Marks, is_cut, verdict_of};
use gate_types::names::NoMemory;
use gate_types::records::{Build, Verdict};
use std::alloc::Global;

/// What the rules say of an item.
#[derive(Clone, Copy)]
pub(crate) struct Ruling {
    pub blocked: bool,
    pub failing: bool,
    pub cut: bool,
    pub verdict: Option<Verdict>,
}

/// Whether an item that isn't blocked has failed, where it is first or not.
fn has_failed(first: bool, cut: bool, marks: Marks) -> bool
    ensures { result ≡ marks.failed && first && (cut || marks.decided) }
{
    marks.failed && first && (cut || marks.decided)
}

/// Judges an item by the builds and by the items before it that stay.
pub(crate) fn judge(
    alloc: Global,
    context: &ItemContext,
    staying: &[BareItem],
    builds: &[Build],
) -> Result<Ruling, NoMemory>
    ensures blocked { IfOk result (λ j. j.blocked ≡ rules.is_blocked (place_in_context context.now)) }
    ensures failing { IfOk result (λ j. j.failing ≡ is_failing builds.now (place_in_context context.now)) }
    ensures cut { IfOk result (λ j. j.cut ≡ rules.is_cut builds.now (place_in_context context.now)) }
    ensures verdict { IfOk result (λ j.
        j.verdict ≡ sweep.verdict_of builds.now staying.now (place_in_context context.now)) }
{
    let met = are_met_by(staying, context.needs);
    if !are_met_by(context.ahead, context.needs) {
        return Ok(Ruling {
            blocked: true,
            failing: true,
            cut: false,
            verdict: verdict_of(met, false),
        });
    }
    let marks = marks_of(alloc, context, builds)?;
    let cut = is_cut(context.fast, false, marks.failed);
    let failed = has_failed(context.ahead.is_empty(), cut, marks);
    Ok(Ruling {
        blocked: false,
        failing: marks.failed,
        cut,
        verdict: verdict_of(met, failed),
    })
}
