//! Settings read from a JSON value.
ghost use Rattle.std.specs.Prelude.{◌≡◌, [], ◌∷◌, ◌++◌, map, OnOk};
ghost use Rattle.serde_json.specs.View.{view};
ghost use Rattle.gate_kept_settings.specs.Reading.{GivesKept, each, job_at, rule_at, queue_at, project_at, settings_at};

use crate::fault::TextFault;
use crate::members::{
    base_of, factor_of, flag_of, list_of, name_of, number_of, pace_of, path_name_of, truth_of,
};
use gate_types::config::{Config, Job, Pace, Project, Queue, WindowRule};
use gate_types::sequence::Sequence;
use gate_types::sound::are_sound;
use serde_json::Value;
use std::alloc::{AllocError, Global};

/// One value more.
fn push<T>(values: &mut Vec<T>, value: T) -> Result<(), AllocError>
where
    T: Drop,
    ensures { OnOk result (values.new.items ≡ values.old.items ++ value ∷ []) }
{
    Ok(values.push(value)?)
}

#[tactic(auto, unfolding(crate::specs::Reading::job_at))]
fn job_of(alloc: Global, value: &Value) -> Result<Job, TextFault>
    ensures { GivesKept (λ j. j) result (job_at (view value.now)) }
{
    Ok(Job {
        name: name_of(alloc, value, "name")?,
        voting: truth_of(value, "voting")?,
    })
}

fn jobs_of(alloc: Global, values: &[Value]) -> Result<Vec<Job>, TextFault>
    ensures { GivesKept (λ jobs. jobs.items) result (each job_at (map view values.now)) }
{
    let mut jobs = Vec::new(alloc);
    for value in values {
        push(&mut jobs, job_of(alloc, value)?)?;
    }
    Ok(jobs)
}

#[tactic(auto, unfolding(crate::specs::Reading::rule_at))]
fn rule_of(value: &Value) -> Result<WindowRule, TextFault>
    ensures { GivesKept (λ r. r) result (rule_at (view value.now)) }
{
    Ok(WindowRule {
        increase: pace_of(value, "increase", Pace::Linear)?,
        increase_by: factor_of(value, "increase_by", 1)?,
        decrease: pace_of(value, "decrease", Pace::Exponential)?,
        decrease_by: factor_of(value, "decrease_by", 2)?,
    })
}

#[tactic(auto, unfolding(crate::specs::Reading::queue_at))]
fn queue_of(alloc: Global, value: &Value) -> Result<Queue, TextFault>
    ensures { GivesKept (λ q. q) result (queue_at (view value.now)) }
{
    Ok(Queue {
        name: name_of(alloc, value, "name")?,
        window: number_of(value, "window")?,
        floor: number_of(value, "floor")?,
        rule: rule_of(value)?,
    })
}

fn queues_of(alloc: Global, values: &[Value]) -> Result<Vec<Queue>, TextFault>
    ensures { GivesKept (λ queues. queues.items) result (each queue_at (map view values.now)) }
{
    let mut queues = Vec::new(alloc);
    for value in values {
        push(&mut queues, queue_of(alloc, value)?)?;
    }
    Ok(queues)
}

#[tactic(auto, unfolding(crate::specs::Reading::project_at))]
fn project_of(alloc: Global, value: &Value) -> Result<Project, TextFault>
    ensures { GivesKept (λ p. p) result (project_at (view value.now)) }
{
    let name = path_name_of(alloc, value, "name")?;
    let queue = name_of(alloc, value, "queue")?;
    let jobs = jobs_of(alloc, list_of(value, "jobs")?)?;
    let fail_fast = flag_of(value, "fail_fast")?;
    Ok(Project {
        name,
        queue,
        jobs: Sequence::from_vec(jobs),
        fail_fast,
    })
}

fn projects_of(alloc: Global, values: &[Value]) -> Result<Vec<Project>, TextFault>
    ensures { GivesKept (λ projects. projects.items) result (each project_at (map view values.now)) }
{
    let mut projects = Vec::new(alloc);
    for value in values {
        push(&mut projects, project_of(alloc, value)?)?;
    }
    Ok(projects)
}

/// The settings that a value says, if they are sound.
#[tactic(auto, unfolding(crate::specs::Reading::settings_at))]
pub(crate) fn settings_of(alloc: Global, value: &Value) -> Result<Config, TextFault>
    ensures { GivesKept (λ c. c) result (settings_at (view value.now)) }
{
    let base = base_of(alloc, value, "base")?;
    let queues = queues_of(alloc, list_of(value, "queues")?)?;
    let projects = projects_of(alloc, list_of(value, "projects")?)?;
    if !are_sound(queues.as_slice(), projects.as_slice()) {
        return Err(TextFault::NotSettings);
    }
    Ok(Config {
        base,
        queues: Sequence::from_vec(queues),
        projects: Sequence::from_vec(projects),
    })
}
