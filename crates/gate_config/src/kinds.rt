//! The kind of each member.
ghost use Rattle.std.specs.Prelude.{◌≡◌, codes, false};
ghost use Rattle.std.specs.Option.{option_map_or};
ghost use Rattle.toml.specs.Data.{get};
ghost use Rattle.std.specs.List.{list_any, list_all};
ghost use Rattle.toml.specs.View.{view};
ghost use Rattle.gate_config.specs.Kinds.{is_table, is_of_kind, is_wrong, is_wrong_queue, is_wrong_job};
ghost use Rattle.gate_config.specs.Kinds.{is_wrong_project};
ghost use Rattle.gate_config.specs.Kinds.{has_wrong_kind};

use crate::document::{jobs_of, projects_of, queues_of};
use toml::Value;

/// What a member may be.
#[derive(Clone, Copy)]
enum ValueKind {
    Table,
    /// An array of tables.
    Tables,
    Text,
    WholeNumber,
    TruthValue,
}

fn are_tables(values: &[Value]) -> bool
    ensures { result ≡ list_all (λ v. is_table (view v)) values.now }
{
    values.iter().all(|value| value.is_table())
}

#[tactic(auto, using(crate::proofs::DocumentLemmas::list_of_view, crate::proofs::DocumentLemmas::list_all_map))]
fn is_array_of_tables(value: &Value) -> bool
    ensures { result ≡ is_of_kind ValueKind.Tables (view value.now) }
{
    match value.as_array() {
        Some(list) => are_tables(list.as_slice()),
        None => false,
    }
}

fn is_of(kind: ValueKind, value: &Value) -> bool
    ensures { result ≡ is_of_kind kind (view value.now) }
{
    match kind {
        ValueKind::Table => value.is_table(),
        ValueKind::Tables => is_array_of_tables(value),
        ValueKind::Text => value.is_str(),
        ValueKind::WholeNumber => value.is_integer(),
        ValueKind::TruthValue => value.is_bool(),
    }
}

/// Whether the member is there and of another kind.
fn is_wrong(kind: ValueKind, key: &str, value: &Value) -> bool
    ensures { result ≡ is_wrong kind key.now (view value.now) }
{
    match value.get(key) {
        Some(member) => !is_of(kind, member),
        None => false,
    }
}

fn is_wrong_queue(queue: &Value) -> bool
    ensures { result ≡ is_wrong_queue (view queue.now) }
{
    is_wrong(ValueKind::Text, "name", queue)
        || is_wrong(ValueKind::WholeNumber, "window", queue)
        || is_wrong(ValueKind::WholeNumber, "floor", queue)
        || is_wrong(ValueKind::Text, "increase", queue)
        || is_wrong(ValueKind::WholeNumber, "increase_by", queue)
        || is_wrong(ValueKind::Text, "decrease", queue)
        || is_wrong(ValueKind::WholeNumber, "decrease_by", queue)
}

fn any_is_wrong_queue(queues: &[Value]) -> bool
    ensures { result ≡ list_any (λ v. is_wrong_queue (view v)) queues.now }
{
    queues.iter().any(|queue| is_wrong_queue(queue))
}

fn is_wrong_job(job: &Value) -> bool
    ensures { result ≡ is_wrong_job (view job.now) }
{
    is_wrong(ValueKind::Text, "name", job) || is_wrong(ValueKind::TruthValue, "voting", job)
}

fn any_is_wrong_job(jobs: &[Value]) -> bool
    ensures { result ≡ list_any (λ v. is_wrong_job (view v)) jobs.now }
{
    jobs.iter().any(|job| is_wrong_job(job))
}

#[tactic(auto, using(gate_types::proofs::PlainLemmas::list_any_map))]
fn is_wrong_project(project: &Value) -> bool
    ensures { result ≡ is_wrong_project (view project.now) }
{
    is_wrong(ValueKind::Text, "name", project)
        || is_wrong(ValueKind::Text, "queue", project)
        || is_wrong(ValueKind::Tables, "job", project)
        || is_wrong(ValueKind::TruthValue, "fail_fast", project)
        || any_is_wrong_job(jobs_of(project))
}

fn any_is_wrong_project(projects: &[Value]) -> bool
    ensures { result ≡ list_any (λ v. is_wrong_project (view v)) projects.now }
{
    projects.iter().any(|project| is_wrong_project(project))
}

fn has_wrong_base(document: &Value) -> bool
    ensures { result
        ≡ option_map_or (is_wrong ValueKind.Text (codes "base")) (get (codes "forge") (view document.now)) false }
{
    match document.get("forge") {
        Some(forge) => is_wrong(ValueKind::Text, "base", forge),
        None => false,
    }
}

/// Whether a known member is of another kind, anywhere.
#[tactic(auto, using(gate_types::proofs::PlainLemmas::list_any_map))]
pub(crate) fn has_wrong_kind(document: &Value) -> bool
    ensures { result ≡ has_wrong_kind (view document.now) }
{
    is_wrong(ValueKind::Table, "forge", document)
        || is_wrong(ValueKind::Tables, "queue", document)
        || is_wrong(ValueKind::Tables, "project", document)
        || has_wrong_base(document)
        || any_is_wrong_queue(queues_of(document))
        || any_is_wrong_project(projects_of(document))
}
