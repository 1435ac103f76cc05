//! Members that have to be there, and members that may.
ghost use Rattle.std.specs.Prelude.{◌≡◌, ◌||◌, codes, false, not, string_bytes};
ghost use Rattle.std.specs.BTreeMap.{keys};
ghost use Rattle.std.specs.Option.{option_map_or};
ghost use Rattle.toml.specs.Data.{get};
ghost use Rattle.std.specs.List.{list_any};
ghost use Rattle.toml.specs.View.{view, table_view};
ghost use Rattle.gate_types.specs.Names.{same_name};
ghost use Rattle.gate_config.specs.Members.{lacks, lacks_in_project, misses_member, may_have, has_other_than};
ghost use Rattle.gate_config.specs.Members.{has_unknown, has_unknown_in_project, has_unknown_member};

use crate::document::{is_same, jobs_of, projects_of, queues_of};
use toml::{Table, Value};

fn lacks(value: &Value, key: &str) -> bool
    ensures { result ≡ lacks key.now (view value.now) }
{
    value.as_table().is_some() && value.get(key).is_none()
}

fn any_lacks_name(values: &[Value]) -> bool
    ensures { result ≡ list_any (λ v. lacks (codes "name") (view v)) values.now }
{
    values.iter().any(|value| lacks(value, "name"))
}

#[tactic(auto, using(gate_types::proofs::PlainLemmas::list_any_map))]
fn lacks_in_project(project: &Value) -> bool
    ensures { result ≡ lacks_in_project (view project.now) }
{
    lacks(project, "name") || lacks(project, "queue") || any_lacks_name(jobs_of(project))
}

fn any_lacks_in_project(projects: &[Value]) -> bool
    ensures { result ≡ list_any (λ v. lacks_in_project (view v)) projects.now }
{
    projects.iter().any(|project| lacks_in_project(project))
}

fn lacks_base(document: &Value) -> bool
    ensures { result ≡ option_map_or (lacks (codes "base")) (get (codes "forge") (view document.now)) false }
{
    match document.get("forge") {
        Some(forge) => lacks(forge, "base"),
        None => false,
    }
}

/// Whether a member that has to be there isn't.
#[tactic(auto, using(gate_types::proofs::PlainLemmas::list_any_map))]
pub(crate) fn misses_member(document: &Value) -> bool
    ensures { result ≡ misses_member (view document.now) }
{
    lacks(document, "forge")
        || lacks(document, "queue")
        || lacks(document, "project")
        || lacks_base(document)
        || any_lacks_name(queues_of(document))
        || any_lacks_in_project(projects_of(document))
}

/// The tables of a settings file.
#[derive(Clone, Copy)]
enum Section {
    Document,
    Forge,
    Queue,
    Project,
    Job,
}

fn knows_of_a_rule(key: &str) -> bool
    ensures { result ≡ same_name key.now (codes "increase") || same_name key.now (codes "increase_by")
        || same_name key.now (codes "decrease") || same_name key.now (codes "decrease_by") }
{
    is_same(key, "increase")
        || is_same(key, "increase_by")
        || is_same(key, "decrease")
        || is_same(key, "decrease_by")
}

fn knows_of_a_queue(key: &str) -> bool
    ensures { result ≡ may_have Section.Queue key.now }
{
    is_same(key, "name") || is_same(key, "window") || is_same(key, "floor") || knows_of_a_rule(key)
}

fn knows(section: Section, key: &str) -> bool
    ensures { result ≡ may_have section key.now }
{
    match section {
        Section::Document => is_same(key, "forge")
            || is_same(key, "queue")
            || is_same(key, "project"),
        Section::Forge => is_same(key, "base"),
        Section::Queue => knows_of_a_queue(key),
        Section::Project => is_same(key, "name")
            || is_same(key, "queue")
            || is_same(key, "job")
            || is_same(key, "fail_fast"),
        Section::Job => is_same(key, "name") || is_same(key, "voting"),
    }
}

fn any_key_is_unknown(section: Section, table: &Table) -> bool
    ensures { result ≡ list_any (λ k. not (may_have section (string_bytes k))) (keys table.now) }
{
    table.keys().any(|key| !knows(section, key.as_str()))
}

#[tactic(auto, using(crate::proofs::DocumentLemmas::has_other_than_view))]
fn has_other_than(section: Section, table: &Table) -> bool
    ensures { result ≡ has_other_than section (table_view table.now) }
{
    any_key_is_unknown(section, table)
}

fn has_unknown(section: Section, value: &Value) -> bool
    ensures { result ≡ has_unknown section (view value.now) }
{
    match value.as_table() {
        Some(table) => has_other_than(section, table),
        None => false,
    }
}

fn any_has_unknown(section: Section, values: &[Value]) -> bool
    ensures { result ≡ list_any (λ v. has_unknown section (view v)) values.now }
{
    values.iter().any(|value| has_unknown(section, value))
}

#[tactic(auto, using(gate_types::proofs::PlainLemmas::list_any_map))]
fn has_unknown_in_project(project: &Value) -> bool
    ensures { result ≡ has_unknown_in_project (view project.now) }
{
    has_unknown(Section::Project, project) || any_has_unknown(Section::Job, jobs_of(project))
}

fn any_has_unknown_in_project(projects: &[Value]) -> bool
    ensures { result ≡ list_any (λ v. has_unknown_in_project (view v)) projects.now }
{
    projects
        .iter()
        .any(|project| has_unknown_in_project(project))
}

fn has_unknown_in_forge(document: &Value) -> bool
    ensures { result ≡ option_map_or (has_unknown Section.Forge) (get (codes "forge") (view document.now)) false }
{
    match document.get("forge") {
        Some(forge) => has_unknown(Section::Forge, forge),
        None => false,
    }
}

/// Whether a member that has no meaning stands anywhere.
#[tactic(auto, using(gate_types::proofs::PlainLemmas::list_any_map))]
pub(crate) fn has_unknown_member(document: &Value) -> bool
    ensures { result ≡ has_unknown_member (view document.now) }
{
    has_unknown(Section::Document, document)
        || has_unknown_in_forge(document)
        || any_has_unknown(Section::Queue, queues_of(document))
        || any_has_unknown_in_project(projects_of(document))
}
