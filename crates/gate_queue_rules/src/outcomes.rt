//! What a job has come to, by the outcomes of its builds.
ghost use Rattle.std.specs.Prelude.{◌≡◌, if◌then◌else◌, count_by, IfOk};
ghost use Rattle.std.specs.List.{list_any};
ghost use Rattle.gate_types.specs.Slot as rules;
ghost use Rattle.gate_queue_rules.specs.Outcomes.{outcomes_among, slot_among};

use gate_types::config::Job;
use gate_types::limits::MOST_TRIES;
use gate_types::names::{NoMemory, same_name};
use gate_types::records::{Build, Outcome, Slot};
use std::alloc::Global;

fn has_success(outcomes: &[Outcome]) -> bool
    ensures { result ≡ list_any rules.is_success outcomes.now }
{
    outcomes.iter().any(|o| matches!(o, Outcome::Success))
}

fn has_failure(outcomes: &[Outcome]) -> bool
    ensures { result ≡ list_any rules.is_failure outcomes.now }
{
    outcomes.iter().any(|o| matches!(o, Outcome::Failure))
}

fn has_running(outcomes: &[Outcome]) -> bool
    ensures { result ≡ list_any rules.is_running outcomes.now }
{
    outcomes.iter().any(|o| matches!(o, Outcome::Running))
}

fn count_lost(outcomes: &[Outcome]) -> usize
    ensures { result ≡ count_by rules.is_lost outcomes.now }
{
    outcomes
        .iter()
        .filter(|o| matches!(o, Outcome::Lost))
        .count()
}

/// What a job has come to, by the outcomes of its builds that count.
pub fn slot_of_outcomes(outcomes: &[Outcome]) -> Slot
    ensures { result ≡ rules.slot_of_outcomes outcomes.now }
{
    if has_success(outcomes) {
        Slot::Success
    } else if has_failure(outcomes) || count_lost(outcomes) >= MOST_TRIES {
        Slot::Failure
    } else if has_running(outcomes) {
        Slot::Running
    } else {
        Slot::Waiting
    }
}

/// The outcomes of a job's builds.
fn outcomes_among(alloc: Global, builds: &[Build], job: &Job) -> Result<Vec<Outcome>, NoMemory>
    ensures { IfOk result (λ found. found.items ≡ outcomes_among builds.now job.now) }
{
    let mut found: Vec<Outcome> = Vec::new(alloc);
    for build in builds {
        if same_name(&build.job, &job.name) {
            found.push(build.outcome)?;
        }
    }
    Ok(found)
}

/// What a job has come to, by builds of its item that all count.
pub fn slot_among(alloc: Global, builds: &[Build], job: &Job) -> Result<Slot, NoMemory>
    ensures { IfOk result (λ slot. slot ≡ slot_among builds.now job.now) }
{
    let outcomes = outcomes_among(alloc, builds, job)?;
    Ok(slot_of_outcomes(&outcomes))
}

/// Whether a job has failed.
pub fn is_failed(slot: Slot) -> bool
    ensures { result ≡ rules.is_failed_slot slot }
{
    matches!(slot, Slot::Failure)
}

/// Whether nothing more is to come of a job.
pub fn is_finished(slot: Slot) -> bool
    ensures { result ≡ rules.is_finished slot }
{
    matches!(slot, Slot::Success | Slot::Failure | Slot::Skipped)
}

/// What is left of a job, by what its builds have come to and whether its item is cut.
pub fn slot_where(cut: bool, slot: Slot) -> Slot
    ensures { result ≡ (if cut then rules.cut_slot slot else slot) }
{
    match slot {
        Slot::Waiting | Slot::Running if cut => Slot::Skipped,
        _ => slot,
    }
}
