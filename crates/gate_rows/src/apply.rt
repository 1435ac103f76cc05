//! One edit, within a transaction.
ghost use Rattle.std.specs.Prelude.{◌≡◌};
ghost use Rattle.sqlite.specs.Held.{state};
ghost use Rattle.gate_schema.specs.Edits as edits;
ghost use Rattle.gate_rows.specs.Matches.{FitsBeside};
ghost use Rattle.gate_rows.specs.Writes.{Found, Keeps, LeavesNothing, Makes};

use crate::builds::{put_build, set_outcome, stop_build};
use crate::changes::{put_change, set_stage};
use crate::history::{keep, put_landing, put_report};
use crate::items::put_item;
use crate::numbers::{set_counter, set_window};
use crate::plans::{drop_planned, land_item, put_plan};
use gate_types::edits::Edit;
use sqlite::{Alter, Error, Transaction};
use std::alloc::Global;

/// Makes an edit. Any Err is of the store, of memory, of a number that no column can hold, of a plan without
/// jobs, or of a row whose key is taken: a landing, a report, a build, a plan or a delivery that is there, or an
/// item of another queue.
pub fn apply_one<S: Alter>(
    alloc: Global,
    tx: &mut Transaction<'_, S>,
    edit: &Edit,
) -> Result<(), Error>
    ensures same_reference { tx.new.conn.ghost_name ≡ tx.old.conn.ghost_name }
    ensures changes { Makes (state S.Store tx.old.conn.now) (state S.Store tx.new.conn.now) result
        (edits.after_edit edit.now) }
    ensures fits { Found (state S.Store tx.old.conn.now) (state S.Store tx.new.conn.now) result (FitsBeside edit.now) }
    ensures kept { Keeps (state S.Store tx.old.conn.now) (state S.Store tx.new.conn.now) }
    ensures crash { LeavesNothing (state S.Store tx.old.conn.now) (state S.Store tx.new.conn.now) }
{
    match edit {
        Edit::PutChange { change, approval } => put_change(tx, change, *approval),
        Edit::SetStage { change, stage } => set_stage(tx, *change, *stage),
        Edit::PutItem { queue, item } => put_item(tx, queue, item),
        Edit::DropItem(serial) => drop_planned(tx, *serial),
        Edit::LandItem(serial) => land_item(tx, *serial),
        Edit::PutPlan(plan) => put_plan(tx, plan),
        Edit::PutLanding {
            queue,
            place,
            landing,
        } => put_landing(tx, queue, *place, landing),
        Edit::PutReport {
            queue,
            place,
            report,
        } => put_report(tx, queue, *place, report),
        Edit::PutBuild(build) => put_build(alloc, tx, build),
        Edit::SetOutcome { build, outcome } => set_outcome(tx, *build, *outcome),
        Edit::StopBuild(build) => stop_build(tx, *build),
        Edit::SetWindow { queue, window } => set_window(tx, queue, *window),
        Edit::SetCounter { counter, drawn } => set_counter(tx, *counter, *drawn),
        Edit::Keep(kept) => keep(tx, kept),
    }
}
