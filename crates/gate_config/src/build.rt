//! The settings that a document without a fault says.
ghost use Rattle.std.specs.Prelude.{◌≡◌, None, IfOk, map, false, true};
ghost use Rattle.std.specs.List.{list_any};
ghost use Rattle.toml.specs.View.{view};
ghost use Rattle.gate_types.specs.Names.{is_name, is_path_name, is_base};
ghost use Rattle.gate_config.specs.Document.{said_settings, said_rule, said_queue, said_job, said_project};
ghost use Rattle.gate_config.specs.Faults.{fault_of};
ghost use Rattle.gate_config.specs.Rules.{has_bad_name, is_bad_queue, is_bad_project};

use crate::document::{
    base_of, decrease_by_of, decrease_of, floor_of, increase_by_of, increase_of, is_fast,
    is_voting, jobs_of, name_of, projects_of, queue_named_by, queues_of, window_of,
};
use gate_types::config::{Config, Job, Pace, Project, Queue, WindowRule};
use gate_types::names::{Base, Name, PathName};
use gate_types::sequence::Sequence;
use std::alloc::{AllocError, Global};
use toml::Value;

/// The settings of a document.
pub(crate) fn config(alloc: Global, document: &Value) -> Result<Config, AllocError>
    requires { fault_of (view document.now) ≡ None }
    ensures { IfOk result (λ c. c ≡ said_settings (view document.now)) }
{
    let base = base(alloc, base_of(document))?;
    let queues = queues(alloc, queues_of(document))?;
    let projects = projects(alloc, projects_of(document))?;
    Ok(Config {
        base,
        queues: Sequence::from_vec(queues),
        projects: Sequence::from_vec(projects),
    })
}

fn base(alloc: Global, text: &str) -> Result<Base, AllocError>
    requires { is_base text.now ≡ true }
    ensures { IfOk result (λ b. b ≡ text.now) }
{
    Ok(Base::new(String::from_str(alloc, text)?).unwrap())
}

fn name(alloc: Global, text: &str) -> Result<Name, AllocError>
    requires { is_name text.now ≡ true }
    ensures { IfOk result (λ n. n ≡ text.now) }
{
    Ok(Name::new(String::from_str(alloc, text)?).unwrap())
}

fn path_name(alloc: Global, text: &str) -> Result<PathName, AllocError>
    requires { is_path_name text.now ≡ true }
    ensures { IfOk result (λ n. n ≡ text.now) }
{
    Ok(PathName::new(String::from_str(alloc, text)?).unwrap())
}

fn rule(value: &Value) -> WindowRule
    requires { is_bad_queue (view value.now) ≡ false }
    ensures { result ≡ said_rule (view value.now) }
{
    let increase_by = increase_by_of(value).unwrap_or(0);
    let decrease_by = decrease_by_of(value).unwrap_or(0);
    WindowRule {
        increase: increase_of(value).unwrap_or(Pace::Linear),
        increase_by: increase_by as u32,
        decrease: decrease_of(value).unwrap_or(Pace::Linear),
        decrease_by: decrease_by as u32,
    }
}

fn queue(alloc: Global, value: &Value) -> Result<Queue, AllocError>
    requires { is_bad_queue (view value.now) ≡ false }
    ensures { IfOk result (λ q. q ≡ said_queue (view value.now)) }
{
    let name = name(alloc, name_of(value))?;
    let window = window_of(value).unwrap_or(0);
    let floor = floor_of(value).unwrap_or(0);
    Ok(Queue {
        name,
        window: window as u32,
        floor: floor as u32,
        rule: rule(value),
    })
}

fn queues(alloc: Global, values: &[Value]) -> Result<Vec<Queue>, AllocError>
    requires { list_any (λ v. is_bad_queue (view v)) values.now ≡ false }
    ensures { IfOk result (λ qs. qs.items ≡ map (λ v. said_queue (view v)) values.now) }
{
    let mut queues = Vec::new(alloc);
    for value in values {
        queues.push(queue(alloc, value)?)?;
    }
    Ok(queues)
}

fn job(alloc: Global, value: &Value) -> Result<Job, AllocError>
    requires { has_bad_name (view value.now) ≡ false }
    ensures { IfOk result (λ j. j ≡ said_job (view value.now)) }
{
    let name = name(alloc, name_of(value))?;
    Ok(Job {
        name,
        voting: is_voting(value),
    })
}

fn jobs(alloc: Global, values: &[Value]) -> Result<Vec<Job>, AllocError>
    requires { list_any (λ v. has_bad_name (view v)) values.now ≡ false }
    ensures { IfOk result (λ js. js.items ≡ map (λ v. said_job (view v)) values.now) }
{
    let mut jobs = Vec::new(alloc);
    for value in values {
        jobs.push(job(alloc, value)?)?;
    }
    Ok(jobs)
}

fn project(alloc: Global, value: &Value) -> Result<Project, AllocError>
    requires { is_bad_project (view value.now) ≡ false }
    ensures { IfOk result (λ p. p ≡ said_project (view value.now)) }
{
    let path_name = path_name(alloc, name_of(value))?;
    let queue = name(alloc, queue_named_by(value))?;
    let jobs = jobs(alloc, jobs_of(value))?;
    Ok(Project {
        name: path_name,
        queue,
        jobs: Sequence::from_vec(jobs),
        fail_fast: is_fast(value),
    })
}

fn projects(alloc: Global, values: &[Value]) -> Result<Vec<Project>, AllocError>
    requires { list_any (λ v. is_bad_project (view v)) values.now ≡ false }
    ensures { IfOk result (λ ps. ps.items ≡ map (λ v. said_project (view v)) values.now) }
{
    let mut projects = Vec::new(alloc);
    for value in values {
        projects.push(project(alloc, value)?)?;
    }
    Ok(projects)
}
