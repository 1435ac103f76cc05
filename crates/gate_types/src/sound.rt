//! Whether settings are sound.
ghost use Rattle.std.specs.Prelude.{◌≡◌, map, List, ℕ};
ghost use Rattle.std.specs.List.{list_any, list_all};
ghost use Rattle.gate_types.specs.Names.{same_name};
ghost use Rattle.gate_types.specs.Settings.{are_distinct, has_queue, is_factor, is_sound_rule, is_window_over};
ghost use Rattle.gate_types.specs.Settings.{is_sound_window, are_sound_jobs, is_sound_project, are_sound};

use crate::config::{Job, Project, Queue, WindowRule};
use crate::limits::{MOST_FACTOR, MOST_JOBS, MOST_PROJECTS, MOST_QUEUES, MOST_WINDOW};

/// What has a name.
trait Named {
    ghost use Rattle.std.specs.Prelude.{◌≡◌, ℕ, List};

    ghost named: { Self → List ℕ };

    fn name(&self) -> &str
        ensures { result.now ≡ named self.now };
}

impl Named for Job {
    ghost named = { λ j. j.name };

    fn name(&self) -> &str {
        self.name.as_str()
    }
}

impl Named for Queue {
    ghost named = { λ q. q.name };

    fn name(&self) -> &str {
        self.name.as_str()
    }
}

impl Named for Project {
    ghost named = { λ p. p.name };

    fn name(&self) -> &str {
        self.name.as_str()
    }
}

fn any_is_named<T: Named>(name: &str, values: &[T]) -> bool
    ensures { result ≡ list_any (λ v. same_name name.now (T.named v)) values.now }
{
    values.iter().any(|value| name == value.name())
}

/// Whether no name stands twice.
fn are_distinct<T: Named>(values: &[T]) -> bool
    ensures { result ≡ are_distinct (map T.named values.now) }
{
    let mut rest = values;
    while let Some((first, later)) = rest.split_first() {
        if any_is_named(first.name(), later) {
            return false;
        }
        rest = later;
    }
    true
}

/// Whether a window may change by this number.
pub fn is_factor(number: u64) -> bool
    ensures { result ≡ is_factor number }
{
    1 <= number && number <= MOST_FACTOR
}

fn is_sound_rule(rule: &WindowRule) -> bool
    ensures { result ≡ is_sound_rule rule.now }
{
    is_factor(u64::from(rule.increase_by)) && is_factor(u64::from(rule.decrease_by))
}

/// Whether a window and its floor are in their ranges, and the floor isn't above a window other than 0.
pub fn is_window_over(window: u64, floor: u64) -> bool
    ensures { result ≡ is_window_over window floor }
{
    window <= MOST_WINDOW && 1 <= floor && floor <= MOST_WINDOW && (window == 0 || floor <= window)
}

fn is_sound_window(queue: &Queue) -> bool
    ensures { result ≡ is_sound_window queue.now }
{
    is_window_over(u64::from(queue.window), u64::from(queue.floor)) && is_sound_rule(&queue.rule)
}

fn are_sound_windows(queues: &[Queue]) -> bool
    ensures { result ≡ list_all is_sound_window queues.now }
{
    queues.iter().all(|queue| is_sound_window(queue))
}

fn has_vote(jobs: &[Job]) -> bool
    ensures { result ≡ list_any (λ j. j.voting) jobs.now }
{
    jobs.iter().any(|job| job.voting)
}

fn are_sound_jobs(jobs: &[Job]) -> bool
    ensures { result ≡ are_sound_jobs jobs.now }
{
    jobs.len() <= MOST_JOBS && are_distinct(jobs) && has_vote(jobs)
}

fn has_queue(queues: &[Queue], name: &str) -> bool
    ensures { result ≡ has_queue queues.now name.now }
{
    queues.iter().any(|queue| queue.name.as_str() == name)
}

fn is_sound_project(queues: &[Queue], project: &Project) -> bool
    ensures { result ≡ is_sound_project queues.now project.now }
{
    has_queue(queues, project.queue.as_str()) && are_sound_jobs(project.jobs.as_slice())
}

fn are_sound_projects(queues: &[Queue], projects: &[Project]) -> bool
    ensures { result ≡ list_all (λ p. is_sound_project queues.now p) projects.now }
{
    projects
        .iter()
        .all(|project| is_sound_project(queues, project))
}

/// Whether settings of these queues and projects are sound, whatever their base.
pub fn are_sound(queues: &[Queue], projects: &[Project]) -> bool
    ensures { (base : List ℕ) → result
        ≡ are_sound (record { base = base; queues = queues.now; projects = projects.now }) }
{
    1 <= queues.len()
        && queues.len() <= MOST_QUEUES
        && 1 <= projects.len()
        && projects.len() <= MOST_PROJECTS
        && are_distinct(queues)
        && are_distinct(projects)
        && are_sound_windows(queues)
        && are_sound_projects(queues, projects)
}
