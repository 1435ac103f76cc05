//! Which build of a queue is due.
ghost use Rattle.std.specs.Prelude.{◌≡◌, ◌&&◌, ◌≤◌, not, count_by, length};
ghost use Rattle.std.specs.List.{list_any, position};
ghost use Rattle.gate_types.specs.Slot.{is_success, is_failure, is_lost};
ghost use Rattle.gate_types.specs.Window.{within_window};
ghost use Rattle.gate_queue.specs.WholeQueue.Chooses.{Chooses};
ghost use Rattle.gate_queue.specs.WholeQueue.Waiting as waiting;

use crate::whole_queue::facts::{ItemJobs, Jobs};
use gate_types::config::Job;
use gate_types::limits::MOST_TRIES;
use gate_types::names::same_name;
use gate_types::numbers::Serial;
use gate_types::records::{Build, Item, Outcome};

fn is_lost(outcome: Outcome) -> bool
    ensures { result ≡ is_lost outcome }
{
    matches!(outcome, Outcome::Lost)
}

/// Whether a build is a live one of the job of an item.
fn is_of(serial: Serial, job: &Job, build: &Build) -> bool
    ensures { result ≡ waiting.is_running_of serial job.now build.now }
{
    build.live && build.serial == serial && same_name(&build.job, &job.name)
}

/// Whether some live build of the job isn't lost.
fn has_told(serial: Serial, builds: &[Build], job: &Job) -> bool
    ensures { result ≡ list_any (λ b. waiting.is_running_of serial job.now b && not (is_lost b.outcome)) builds.now }
{
    builds.iter().any(|build| is_of(serial, job, build) && !is_lost(build.outcome))
}

/// How many live builds of the job are lost.
fn count_lost(serial: Serial, builds: &[Build], job: &Job) -> usize
    ensures { result ≡ count_by (λ b. waiting.is_running_of serial job.now b && is_lost b.outcome) builds.now }
{
    builds
        .iter()
        .filter(|build| is_of(serial, job, build) && is_lost(build.outcome))
        .count()
}

/// Whether the job has no live build but lost ones, and another try is left.
fn waits(serial: Serial, builds: &[Build], job: &Job) -> bool
    ensures { result ≡ waiting.waits serial builds.now job.now }
{
    if has_told(serial, builds, job) {
        return false;
    }
    count_lost(serial, builds, job) < MOST_TRIES
}

fn is_success(outcome: Outcome) -> bool
    ensures { result ≡ is_success outcome }
{
    matches!(outcome, Outcome::Success)
}

fn is_failure(outcome: Outcome) -> bool
    ensures { result ≡ is_failure outcome }
{
    matches!(outcome, Outcome::Failure)
}

/// Whether some live build of the job has passed.
fn has_passed(serial: Serial, builds: &[Build], job: &Job) -> bool
    ensures { result ≡ list_any (λ b. waiting.is_running_of serial job.now b && is_success b.outcome) builds.now }
{
    builds.iter().any(|build| is_of(serial, job, build) && is_success(build.outcome))
}

/// Whether some live build of the job has failed.
fn has_failed(serial: Serial, builds: &[Build], job: &Job) -> bool
    ensures { result ≡ list_any (λ b. waiting.is_running_of serial job.now b && is_failure b.outcome) builds.now }
{
    builds.iter().any(|build| is_of(serial, job, build) && is_failure(build.outcome))
}

/// Whether the job has failed: none of its live builds has passed, and one has failed or all its tries are lost.
fn fails(serial: Serial, builds: &[Build], job: &Job) -> bool
    ensures { result ≡ waiting.job_fails serial builds.now job.now }
{
    if has_passed(serial, builds, job) {
        return false;
    }
    has_failed(serial, builds, job) || count_lost(serial, builds, job) >= MOST_TRIES
}

fn some_vote_fails(serial: Serial, builds: &[Build], jobs: &[Job]) -> bool
    ensures { result ≡ list_any (λ k. k.voting && waiting.job_fails serial builds.now k) jobs.now }
{
    jobs.iter()
        .any(|job| job.voting && fails(serial, builds, job))
}

/// Whether an item gets no more builds: it is blocked, or is to fail fast and a voting job has failed.
fn is_over(builds: &[Build], item: &Item, about: &ItemJobs) -> bool
    ensures { result ≡ waiting.gets_no_more builds.now item.now about.now }
{
    if about.blocked {
        return true;
    }
    about.fast && some_vote_fails(item.serial, builds, about.jobs)
}

/// The index of the first waiting job.
fn first_waiting(serial: Serial, builds: &[Build], jobs: &[Job]) -> Option<usize>
    ensures { result ≡ position (waiting.waits serial builds.now) jobs.now }
{
    jobs.iter().position(|job| waits(serial, builds, job))
}

/// The index of the first waiting job of an item, unless it gets no more builds.
fn waiting_job(builds: &[Build], item: &Item, about: &ItemJobs) -> Option<usize>
    ensures { result ≡ waiting.waiting_job builds.now item.now about.now }
{
    if is_over(builds, item, about) {
        return None;
    }
    first_waiting(item.serial, builds, about.jobs)
}

/// The items within the window, and all of them where it is 0.
fn open_items(items: &[Item], window: u32) -> &[Item]
    ensures { result.now ≡ within_window window items.now }
{
    let open = window as usize;
    if open == 0 || items.len() <= open {
        items
    } else {
        &items[..open]
    }
}

/// The first choice among items, with the jobs of at least these.
fn choose_among(items: &[Item], builds: &[Build], jobs: &[ItemJobs]) -> Option<(Serial, usize)>
    requires { length items.now ≤ length jobs.now }
    ensures { result ≡ waiting.choice_by builds.now items.now jobs.now }
{
    for (index, item) in items.iter().enumerate() {
        if let Some(job) = waiting_job(builds, item, &jobs[index]) {
            return Some((item.serial, job));
        }
    }
    None
}

/// The item and the index of its job, from 0, that the next build of the queue is for: of the items
/// within the window (of all items where it is 0), the first that is neither blocked nor cut and has a
/// waiting job, and the first such job. None where there is none. Each live build of an item
/// is to count for it, as after a settling; then the live builds of the items are all that `builds`
/// must hold.
pub fn choose(items: &[Item], builds: &[Build], window: u32, jobs: &Jobs) -> Option<(Serial, usize)>
    requires { length jobs.now.items.now ≡ length items.now }
    ensures { Chooses items.now builds.now window jobs.now.items.now result }
{
    choose_among(open_items(items, window), builds, jobs.items)
}
