//! What is printed of settings without a fault.
ghost use Rattle.std.specs.Prelude.{◌≡◌, ◌≤◌, ◌*◌, length, IfOk, string_bytes};
ghost use Rattle.std.specs.List.{sum_by};
ghost use Rattle.gate_types.specs.Limits.{most_jobs, most_projects};
ghost use Rattle.gated_cli.specs.Doing.{check_text};

use gate_types::config::{Config, Project};
use std::alloc::{AllocError, Global};

/// How many queues, projects and jobs there are.
pub(crate) fn check_text(alloc: Global, config: &Config) -> Result<String, AllocError>
    ensures { IfOk result (λ s. string_bytes s ≡ check_text config.now) }
{
    let queues = config.queues.as_slice().len();
    let projects = config.projects.as_slice().len();
    let jobs = job_count(config.projects.as_slice());
    format!(in alloc; "ok: {queues} queues, {projects} projects, {jobs} jobs")
}

fn job_count(projects: &[Project]) -> usize
    requires { sum_by (λ p. length p.jobs) projects.now ≤ most_jobs * most_projects }
    ensures { result ≡ sum_by (λ p. length p.jobs) projects.now }
{
    let mut count = 0;
    for project in projects {
        count += project.jobs.as_slice().len();
    }
    count
}
