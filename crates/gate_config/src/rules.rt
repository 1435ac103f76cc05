//! What names, windows, jobs and numbers of things have to be.
ghost use Rattle.std.specs.Prelude.{◌≡◌, ◌||◌, map, not, is_none};
ghost use Rattle.std.specs.List.{list_any};
ghost use Rattle.toml.specs.View.{view};
ghost use Rattle.gate_types.specs.Names.{same_name};
ghost use Rattle.gate_types.specs.Settings.{is_sound_rule};
ghost use Rattle.gate_config.specs.Document.{name_of, queue_named_by, jobs_of, is_voting, said_increase, said_decrease};
ghost use Rattle.gate_config.specs.Document.{said_rule};
ghost use Rattle.gate_config.specs.Rules.{has_bad_name, has_bad_name_in_project, has_bad_name_anywhere, has_double};
ghost use Rattle.gate_config.specs.Rules.{has_double_name, has_named, names_no_queue, is_bad_window, has_bad_window};
ghost use Rattle.gate_config.specs.Rules.{has_no_voting_job, are_some_up_to, has_too_many_jobs, is_beyond_limits};

use crate::document::{
    base_of, decrease_by_of, decrease_of, floor_of, increase_by_of, increase_of, is_same,
    is_voting, jobs_of, name_of, projects_of, queue_named_by, queues_of, window_of,
};
use gate_types::limits::{MOST_JOBS, MOST_PROJECTS, MOST_QUEUES};
use gate_types::names::{has_base_form, has_name_form, has_path_form};
use gate_types::sound::{is_factor, is_window_over};
use toml::Value;

fn any_has_bad_name(values: &[Value]) -> bool
    ensures { result ≡ list_any (λ v. has_bad_name (view v)) values.now }
{
    values.iter().any(|value| !has_name_form(name_of(value)))
}

#[tactic(auto, using(gate_types::proofs::PlainLemmas::list_any_map))]
fn has_bad_name_in_project(project: &Value) -> bool
    ensures { result ≡ has_bad_name_in_project (view project.now) }
{
    !has_path_form(name_of(project)) || any_has_bad_name(jobs_of(project))
}

fn any_has_bad_name_in_project(projects: &[Value]) -> bool
    ensures { result ≡ list_any (λ v. has_bad_name_in_project (view v)) projects.now }
{
    projects
        .iter()
        .any(|project| has_bad_name_in_project(project))
}

/// Whether a name or the base isn't of its form. The queue that a project names isn't judged here.
#[tactic(auto, using(gate_types::proofs::PlainLemmas::list_any_map))]
pub(crate) fn has_bad_name_anywhere(document: &Value) -> bool
    ensures { result ≡ has_bad_name_anywhere (view document.now) }
{
    !has_base_form(base_of(document))
        || any_has_bad_name(queues_of(document))
        || any_has_bad_name_in_project(projects_of(document))
}

fn repeats(name: &str, values: &[Value]) -> bool
    ensures { result ≡ list_any (λ v. same_name name.now (name_of (view v))) values.now }
{
    values.iter().any(|value| is_same(name, name_of(value)))
}

fn has_double(values: &[Value]) -> bool
    ensures { result ≡ has_double (map view values.now) }
{
    let mut rest = values;
    while let Some((first, later)) = rest.split_first() {
        if repeats(name_of(first), later) {
            return true;
        }
        rest = later;
    }
    false
}

fn any_has_double_job(projects: &[Value]) -> bool
    ensures { result ≡ list_any (λ v. has_double (jobs_of (view v))) projects.now }
{
    projects.iter().any(|project| has_double(jobs_of(project)))
}

/// Whether two queues, two projects, or two jobs of one project have one name.
#[tactic(auto, using(gate_types::proofs::PlainLemmas::list_any_map))]
pub(crate) fn has_double_name(document: &Value) -> bool
    ensures { result ≡ has_double_name (view document.now) }
{
    has_double(queues_of(document))
        || has_double(projects_of(document))
        || any_has_double_job(projects_of(document))
}

fn any_is_named(name: &str, values: &[Value]) -> bool
    ensures { result ≡ list_any (λ v. same_name (name_of (view v)) name.now) values.now }
{
    values.iter().any(|value| is_same(name_of(value), name))
}

#[tactic(auto, using(gate_types::proofs::PlainLemmas::list_any_map))]
fn has_named(name: &str, values: &[Value]) -> bool
    ensures { result ≡ has_named name.now (map view values.now) }
{
    any_is_named(name, values)
}

/// Whether a project names no queue of the document.
#[tactic(auto, using(gate_types::proofs::PlainLemmas::list_any_map))]
pub(crate) fn names_no_queue(document: &Value) -> bool
    ensures { result ≡ names_no_queue (view document.now) }
{
    any_names_none_of(projects_of(document), queues_of(document))
}

fn any_names_none_of(projects: &[Value], queues: &[Value]) -> bool
    ensures { result ≡ list_any (λ v. not (has_named (queue_named_by (view v)) (map view queues.now))) projects.now }
{
    projects
        .iter()
        .any(|project| !has_named(queue_named_by(project), queues))
}

/// Whether both numbers of the rule are in their range. A negative one counts as 0, which isn't.
fn has_sound_rule(queue: &Value) -> bool
    ensures { result ≡ is_sound_rule (said_rule (view queue.now)) }
{
    is_factor(increase_by_of(queue).unwrap_or(0)) && is_factor(decrease_by_of(queue).unwrap_or(0))
}

/// Whether how the window changes is no word for it.
fn has_no_pace(queue: &Value) -> bool
    ensures { result ≡ is_none (said_increase (view queue.now)) || is_none (said_decrease (view queue.now)) }
{
    increase_of(queue).is_none() || decrease_of(queue).is_none()
}

/// Whether the window or the floor is out of its range, the floor above a window that isn't 0, or the rule
/// no rule.
fn is_bad_window(queue: &Value) -> bool
    ensures { result ≡ is_bad_window (view queue.now) }
{
    match (window_of(queue), floor_of(queue)) {
        (Some(window), Some(floor)) => {
            has_no_pace(queue) || !(is_window_over(window, floor) && has_sound_rule(queue))
        }
        _ => true,
    }
}

fn any_is_bad_window(queues: &[Value]) -> bool
    ensures { result ≡ list_any (λ v. is_bad_window (view v)) queues.now }
{
    queues.iter().any(|queue| is_bad_window(queue))
}

/// Whether a queue has a window, a floor or a rule that can't be.
#[tactic(auto, using(gate_types::proofs::PlainLemmas::list_any_map))]
pub(crate) fn has_bad_window(document: &Value) -> bool
    ensures { result ≡ has_bad_window (view document.now) }
{
    any_is_bad_window(queues_of(document))
}

fn any_is_voting(jobs: &[Value]) -> bool
    ensures { result ≡ list_any (λ v. is_voting (view v)) jobs.now }
{
    jobs.iter().any(|job| is_voting(job))
}

#[tactic(auto, using(gate_types::proofs::PlainLemmas::list_any_map))]
fn has_vote(project: &Value) -> bool
    ensures { result ≡ list_any is_voting (jobs_of (view project.now)) }
{
    any_is_voting(jobs_of(project))
}

fn any_has_no_vote(projects: &[Value]) -> bool
    ensures { result ≡ list_any (λ v. not (list_any is_voting (jobs_of (view v)))) projects.now }
{
    projects.iter().any(|project| !has_vote(project))
}

/// Whether there is a project of which no job votes.
#[tactic(auto, using(gate_types::proofs::PlainLemmas::list_any_map))]
pub(crate) fn has_no_voting_job(document: &Value) -> bool
    ensures { result ≡ has_no_voting_job (view document.now) }
{
    any_has_no_vote(projects_of(document))
}

/// Whether there is one of these, or more, and at most so many.
#[tactic(auto, using(crate::proofs::DocumentLemmas::length_view))]
fn are_some_up_to(most: usize, values: &[Value]) -> bool
    ensures { result ≡ are_some_up_to most (map view values.now) }
{
    1 <= values.len() && values.len() <= most
}

#[tactic(auto, using(crate::proofs::DocumentLemmas::length_view))]
fn has_too_many_jobs(project: &Value) -> bool
    ensures { result ≡ has_too_many_jobs (view project.now) }
{
    MOST_JOBS < jobs_of(project).len()
}

fn any_has_too_many_jobs(projects: &[Value]) -> bool
    ensures { result ≡ list_any (λ v. has_too_many_jobs (view v)) projects.now }
{
    projects.iter().any(|project| has_too_many_jobs(project))
}

/// Whether there are too few or too many queues or projects, or too many jobs in a project.
#[tactic(auto, using(gate_types::proofs::PlainLemmas::list_any_map))]
pub(crate) fn is_beyond_limits(document: &Value) -> bool
    ensures { result ≡ is_beyond_limits (view document.now) }
{
    !are_some_up_to(MOST_QUEUES, queues_of(document))
        || !are_some_up_to(MOST_PROJECTS, projects_of(document))
        || any_has_too_many_jobs(projects_of(document))
}
