//! What the jobs of an item have come to, by its live builds.
ghost use Rattle.std.specs.Prelude.{◌≡◌, find, option_copied, IfOk};
ghost use Rattle.std.specs.List.{list_all};
ghost use Rattle.gate_types.specs.Slot.{is_waiting_slot, is_finished, is_running};
ghost use Rattle.gate_queue_rules.specs.Outcomes.{slot_among};

use gate_queue_rules::{is_finished, slot_among};
use gate_types::config::Job;
use gate_types::names::NoMemory;
use gate_types::records::{Build, Outcome, Slot};
use std::alloc::Global;

/// Whether a build hasn't ended.
pub fn is_running(build: &Build) -> bool
    ensures { result ≡ is_running build.now.outcome }
{
    matches!(build.outcome, Outcome::Running)
}

fn is_waiting(slot: Slot) -> bool
    ensures { result ≡ is_waiting_slot slot }
{
    matches!(slot, Slot::Waiting)
}

/// The first waiting job.
pub(crate) fn first_waiting<'j>(
    alloc: Global,
    builds: &[Build],
    jobs: &'j [Job],
) -> Result<Option<&'j Job>, NoMemory>
    ensures { IfOk result (λ found. option_copied found
        ≡ find (λ j. is_waiting_slot (slot_among builds.now j)) jobs.now) }
{
    for job in jobs {
        if is_waiting(slot_among(alloc, builds, job)?) {
            return Ok(Some(job));
        }
    }
    Ok(None)
}

/// Whether each job has ended.
pub(crate) fn have_ended(alloc: Global, builds: &[Build], jobs: &[Job]) -> Result<bool, NoMemory>
    ensures { IfOk result (λ ended. ended ≡ list_all (λ j. is_finished (slot_among builds.now j)) jobs.now) }
{
    let mut ended = true;
    for job in jobs {
        ended = ended && is_finished(slot_among(alloc, builds, job)?);
    }
    Ok(ended)
}
