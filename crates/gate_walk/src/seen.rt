//! What a walk sees of a row, and what it makes of it.
ghost use Rattle.std.specs.Prelude.{◌≡◌, ◌||◌, IfOk};
ghost use Rattle.std.specs.List.{list_all};
ghost use Rattle.gate_types.specs.Slot as rules;
ghost use Rattle.gate_queue_rules.specs.Outcomes.{slot_among};
ghost use Rattle.gate_walk.specs.Walk as walk;

use gate_queue_rules::{Marks, is_cut, is_failed, is_finished, slot_among, verdict_of};
use gate_types::config::Job;
use gate_types::names::NoMemory;
use gate_types::numbers::ChangeNo;
use gate_types::records::{Build, Verdict};
use std::alloc::Global;
use std::marker::Model;

/// A need of an item, whether it has landed, and where an item of this change stands in the queue, whether its
/// stored row says that it is failing. What the walk has changed of it, the walk knows by itself.
#[derive(Clone, Copy)]
pub struct SeenNeed {
    pub change: ChangeNo,
    pub landed: bool,
    pub standing: Option<bool>,
}

impl Model for SeenNeed {
    ghost use Rattle.gate_walk.specs.Walk.{SeenNeed};

    ghost Value = { SeenNeed };

    ghost view = { λ n. record { change = n.change; landed = n.landed; standing = n.standing } };

    ghost inverse = { λ n. record { change = n.change; landed = n.landed; standing = n.standing } };
}

/// Whether an item that was visited is failing now.
#[derive(Clone, Copy)]
pub struct Mark {
    pub change: ChangeNo,
    pub failing: bool,
}

impl Model for Mark {
    ghost use Rattle.gate_walk.specs.Walk.{Mark};

    ghost Value = { Mark };

    ghost view = { λ m. record { change = m.change; failing = m.failing } };

    ghost inverse = { λ m. record { change = m.change; failing = m.failing } };
}

/// Whether a change has gone.
pub(crate) fn is_gone(gone: &[ChangeNo], change: ChangeNo) -> bool
    ensures { result ≡ walk.is_gone gone.now change }
{
    gone.iter().any(|c| *c == change)
}

/// The mark of a needed item: that of its visit, else that of its row.
pub(crate) fn mark_of(marks: &[Mark], change: ChangeNo, standing: Option<bool>) -> Option<bool>
    ensures { result ≡ walk.mark_of marks.now change standing }
{
    for mark in marks {
        if mark.change == change {
            return Some(mark.failing);
        }
    }
    standing
}

/// Whether a needed item stands in the queue and isn't failing.
pub(crate) fn is_fine(standing: Option<bool>) -> bool
    ensures { result ≡ walk.is_fine standing }
{
    match standing {
        Some(failing) => !failing,
        None => false,
    }
}

/// Whether a need is a non-failing item.
fn stands_fine(marks: &[Mark], need: &SeenNeed) -> bool
    ensures { result ≡ walk.is_fine (walk.mark_of marks.now need.now.change need.now.standing) }
{
    is_fine(mark_of(marks, need.change, need.standing))
}

/// Whether each need has landed or is a non-failing item.
fn are_met(marks: &[Mark], needs: &[SeenNeed]) -> bool
    ensures { result ≡
        list_all (λ n. n.landed || walk.is_fine (walk.mark_of marks.now n.change n.standing)) needs.now }
{
    needs
        .iter()
        .all(|need| need.landed || stands_fine(marks, need))
}

/// Whether some need has neither landed nor is a non-failing item.
pub(crate) fn is_blocked_by(marks: &[Mark], needs: &[SeenNeed]) -> bool
    ensures { result ≡ walk.is_blocked_by marks.now needs.now }
{
    !are_met(marks, needs)
}

/// Whether each need has landed or stands in the queue and hasn't gone.
pub(crate) fn are_met_without(gone: &[ChangeNo], needs: &[SeenNeed]) -> bool
    ensures { result ≡ walk.are_met_without gone.now needs.now }
{
    needs.iter().all(|n| n.landed || n.standing.is_some() && !is_gone(gone, n.change))
}

/// What a walk makes of an item.
#[derive(Clone, Copy)]
pub struct Judged {
    pub failing: bool,
    pub cut: bool,
    pub verdict: Option<Verdict>,
}

/// What the jobs say by builds that all count.
fn marks_among(alloc: Global, builds: &[Build], jobs: &[Job]) -> Result<Marks, NoMemory>
    ensures failed { IfOk result (λ m. m.failed ≡ walk.has_failed_among jobs.now builds.now) }
    ensures decided { IfOk result (λ m. m.decided ≡
        list_all (λ j. rules.is_finished (slot_among builds.now j)) jobs.now) }
{
    let mut failed = false;
    let mut decided = true;
    for job in jobs {
        let slot = slot_among(alloc, builds, job)?;
        failed = failed || job.voting && is_failed(slot);
        decided = decided && is_finished(slot);
    }
    Ok(Marks { failed, decided })
}

fn is_done(cut: bool, jobs: Marks) -> bool
    ensures { result ≡ cut || jobs.decided }
{
    cut || jobs.decided
}

/// Judges an item that a visit sees, by the builds of it that count still.
pub(crate) fn judge(
    alloc: Global,
    first: bool,
    fast: bool,
    gone: &[ChangeNo],
    marks: &[Mark],
    needs: &[SeenNeed],
    jobs: &[Job],
    counting: &[Build],
) -> Result<Judged, NoMemory>
    ensures failing { IfOk result (λ j. j.failing ≡ walk.fails_by marks.now needs.now jobs.now counting.now) }
    ensures cut { IfOk result (λ j. j.cut ≡ walk.is_cut_by fast marks.now needs.now jobs.now counting.now) }
    ensures verdict { IfOk result (λ j. j.verdict ≡
        walk.verdict_among first fast gone.now marks.now needs.now jobs.now counting.now) }
{
    let met = are_met_without(gone, needs);
    let blocked = is_blocked_by(marks, needs);
    let jobs = marks_among(alloc, counting, jobs)?;
    let failing = blocked || jobs.failed;
    let cut = is_cut(fast, blocked, jobs.failed);
    let failed = failing && !blocked && first && is_done(cut, jobs);
    Ok(Judged {
        failing,
        cut,
        verdict: verdict_of(met, failed),
    })
}
