//! Applies edits to the held builds and plans of items. The edits are copied first, so that applying them can't fail.
ghost use Rattle.std.specs.Prelude.{◌≡◌, ℕ, suc, [], ◌∷◌, ◌++◌, filter, length, option_map, IfOk, IfSome, OnOk};
ghost use Rattle.gate_live.specs.Held.{AreKeptQueues, live_of};
ghost use Rattle.gate_live.specs.HeldBuilds.{AreBuildsKept, HaveBuildRoom, edited_held, fold_held, known_of};
ghost use Rattle.gate_live.specs.HeldPlans.{ArePlansKept, HavePlanRoom, edited_held_plans, fold_held_plans, plans_held};
ghost use Rattle.gate_live.specs.Parts.{holds_item, is_of_items};

use crate::held::Held;
use crate::held_builds::HeldBuilds;
use crate::held_plans::HeldPlans;
use gate_types::edits::Edit;
use gate_types::names::NoMemory;
use gate_types::numbers::Serial;
use std::alloc::Global;

/// Whether an edit concerns builds or plans.
fn is_of_items(edit: &Edit) -> bool
    ensures { result ≡ is_of_items edit.now }
{
    match edit {
        Edit::DropItem(_)
        | Edit::LandItem(_)
        | Edit::PutPlan(_)
        | Edit::PutBuild(_)
        | Edit::SetOutcome { .. }
        | Edit::StopBuild(_) => true,
        Edit::PutChange { .. }
        | Edit::SetStage { .. }
        | Edit::PutItem { .. }
        | Edit::PutLanding { .. }
        | Edit::PutReport { .. }
        | Edit::SetWindow { .. }
        | Edit::SetCounter { .. }
        | Edit::Keep(_) => false,
    }
}

/// Appends a copy of an edit, if the edit concerns builds or plans. Fails if memory is refused.
fn push_copy(copies: &mut Vec<Edit>, edit: &Edit) -> Result<(), NoMemory>
    ensures { OnOk result (copies.new.items ≡ copies.old.items ++ filter is_of_items (edit.now ∷ [])) }
{
    if !is_of_items(edit) {
        return Ok(());
    }
    copies.push(edit.copy()?)?;
    Ok(())
}

/// Copies the edits that concern builds or plans. Fails if memory is refused.
pub(crate) fn copies(alloc: Global, edits: &[Edit]) -> Result<Vec<Edit>, NoMemory>
    ensures { IfOk result (λ copies. copies.items ≡ filter is_of_items edits.now) }
{
    let mut copies = Vec::new(alloc);
    for edit in edits {
        push_copy(&mut copies, edit)?;
    }
    Ok(copies)
}

/// Whether the item with this serial is held.
pub(crate) fn holds_item(held: &Option<Held>, serial: Serial) -> bool
    requires { IfSome held.now AreKeptQueues }
    ensures { result ≡ holds_item (option_map live_of held.now) serial }
{
    match held {
        Some(held) => held.item(serial).is_some(),
        None => false,
    }
}

/// Applies an edit to the held builds and plans. There must be room for one more build and one more plan.
#[tactic(auto, using(crate::proofs::RoomLemmas::build_room_less))]
fn apply(builds: &mut HeldBuilds, plans: &mut HeldPlans, held: &Option<Held>, edit: Edit)
    requires held { IfSome held.now AreKeptQueues }
    requires builds { AreBuildsKept builds.old }
    requires plans { ArePlansKept plans.old }
    requires build_room { HaveBuildRoom 1 builds.old }
    requires plan_room { HavePlanRoom 1 plans.old }
    ensures builds { known_of builds.new ≡ edited_held (known_of builds.old) edit }
    ensures plans { plans_held plans.new
        ≡ edited_held_plans (holds_item (option_map live_of held.now)) (plans_held plans.old) edit }
    ensures builds_kept { AreBuildsKept builds.new }
    ensures plans_kept { ArePlansKept plans.new }
    ensures build_room { (n : ℕ) → HaveBuildRoom (suc n) builds.old → HaveBuildRoom n builds.new }
    ensures plan_room { (n : ℕ) → HavePlanRoom (suc n) plans.old → HavePlanRoom n plans.new }
{
    match edit {
        Edit::PutPlan(plan) => {
            let is_item = holds_item(held, plan.serial);
            plans.put(plan, is_item);
        }
        Edit::DropItem(serial) | Edit::LandItem(serial) => {
            plans.forget(serial);
            builds.forget(serial);
        }
        Edit::PutBuild(build) => builds.put(build),
        Edit::SetOutcome { build, outcome } => builds.set_outcome(build, outcome),
        Edit::StopBuild(build) => builds.stop(build),
        Edit::PutChange { .. }
        | Edit::SetStage { .. }
        | Edit::PutItem { .. }
        | Edit::PutLanding { .. }
        | Edit::PutReport { .. }
        | Edit::SetWindow { .. }
        | Edit::SetCounter { .. }
        | Edit::Keep(_) => {}
    }
}

/// Applies all edits to the held builds and plans. There must be room for one more build and one more plan per edit, so
/// this can't fail.
pub(crate) fn apply_to_items(
    builds: &mut HeldBuilds,
    plans: &mut HeldPlans,
    held: &Option<Held>,
    edits: Vec<Edit>,
)
    requires held { IfSome held.now AreKeptQueues }
    requires builds { AreBuildsKept builds.old }
    requires plans { ArePlansKept plans.old }
    requires build_room { HaveBuildRoom (length edits.items) builds.old }
    requires plan_room { HavePlanRoom (length edits.items) plans.old }
    ensures builds { known_of builds.new ≡ fold_held (known_of builds.old) edits.items }
    ensures plans { plans_held plans.new
        ≡ fold_held_plans (holds_item (option_map live_of held.now)) (plans_held plans.old) edits.items }
    ensures builds_kept { AreBuildsKept builds.new }
    ensures plans_kept { ArePlansKept plans.new }
{
    for edit in edits {
        apply(builds, plans, held, edit);
    }
}
