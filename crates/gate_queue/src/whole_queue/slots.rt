//! What the jobs of an item have come to.
ghost use Rattle.std.specs.Prelude.{◌≡◌, false, IfOk};
ghost use Rattle.std.specs.List.{list_all};
ghost use Rattle.gate_types.specs.Slot as rules;
ghost use Rattle.gate_queue.specs.WholeQueue.Facts.{place_in_context};

use crate::whole_queue::context::ItemContext;
use crate::whole_queue::line::ran_on_line;
use gate_queue_rules::{Marks, is_failed, is_finished, slot_of_outcomes};
use gate_types::config::Job;
use gate_types::names::{NoMemory, same_name};
use gate_types::records::{Build, Outcome, Slot};
use std::alloc::Global;

/// Whether a build counts for an item that isn't blocked.
pub(crate) fn counts(context: &ItemContext, build: &Build) -> bool
    requires { rules.is_blocked (place_in_context context.now) ≡ false }
    ensures { result ≡ rules.counts (place_in_context context.now) build.now }
{
    build.live && build.serial == context.item.serial && ran_on_line(context, build)
}

/// The outcomes of the job's builds that count.
fn outcomes_of(
    alloc: Global,
    context: &ItemContext,
    builds: &[Build],
    job: &Job,
) -> Result<Vec<Outcome>, NoMemory>
    requires { rules.is_blocked (place_in_context context.now) ≡ false }
    ensures { IfOk result (λ found. found.items ≡ rules.outcomes_of builds.now (place_in_context context.now) job.now) }
{
    let mut found: Vec<Outcome> = Vec::new(alloc);
    for build in builds {
        if counts(context, build) && same_name(&build.job, &job.name) {
            found.push(build.outcome)?;
        }
    }
    Ok(found)
}

fn raw_slot_of(
    alloc: Global,
    context: &ItemContext,
    builds: &[Build],
    job: &Job,
) -> Result<Slot, NoMemory>
    requires { rules.is_blocked (place_in_context context.now) ≡ false }
    ensures { IfOk result (λ slot. slot ≡ rules.raw_slot_of builds.now (place_in_context context.now) job.now) }
{
    let outcomes = outcomes_of(alloc, context, builds, job)?;
    Ok(slot_of_outcomes(&outcomes))
}

/// What the jobs say of an item that isn't blocked.
pub(crate) fn marks_of(
    alloc: Global,
    context: &ItemContext,
    builds: &[Build],
) -> Result<Marks, NoMemory>
    requires { rules.is_blocked (place_in_context context.now) ≡ false }
    ensures failed { IfOk result (λ marks. marks.failed ≡ rules.has_failure builds.now (place_in_context context.now)) }
    ensures decided { let slot = rules.raw_slot_of builds.now (place_in_context context.now) in
        let jobs = context.now.jobs.now in
        IfOk result (λ marks. marks.decided ≡ list_all (λ j. rules.is_finished (slot j)) jobs) }
{
    let mut failed = false;
    let mut decided = true;
    for job in context.jobs {
        let slot = raw_slot_of(alloc, context, builds, job)?;
        failed = failed || job.voting && is_failed(slot);
        decided = decided && is_finished(slot);
    }
    Ok(Marks { failed, decided })
}
