//! Other settings in place of those that a gate holds.
ghost use Rattle.std.specs.Prelude.{◌≡◌, ◌&&◌, ◌==◌};
ghost use Rattle.std.specs.List.{list_any, list_all};
ghost use Rattle.gate_types.specs.Names.{same_name};
ghost use Rattle.gate_types.specs.Settings.{has_queue};
ghost use Rattle.gate_types.specs.Adopt.{may_adopt, keeps_window};
ghost use Rattle.gate_types.specs.AdoptedTables.{adopted_window};

use crate::config::{Config, Project, Queue};
use crate::names::{Name, PathName, same_name};

fn same_path(name: &PathName, other: &PathName) -> bool
    ensures { result ≡ same_name name.now other.now }
{
    name.as_str() == other.as_str()
}

/// Whether a queue of this name is among these.
fn has_queue(queues: &[Queue], name: &Name) -> bool
    ensures { result ≡ has_queue queues.now name.now }
{
    queues.iter().any(|queue| same_name(&queue.name, name))
}

/// Whether the project is the other one, in the same queue.
fn is_at_home(project: &Project, other: &Project) -> bool
    ensures { result ≡ (same_name project.now.name other.now.name && same_name project.now.queue other.now.queue) }
{
    same_path(&project.name, &other.name) && same_name(&project.queue, &other.queue)
}

/// Whether the project is among these, in the same queue.
fn has_project(projects: &[Project], project: &Project) -> bool
    ensures { result ≡ list_any (λ r. same_name r.name project.now.name && same_name r.queue project.now.queue)
        projects.now }
{
    projects.iter().any(|other| is_at_home(other, project))
}

/// Whether all of some queues are among these.
fn have_queues(queues: &[Queue], held: &[Queue]) -> bool
    ensures { result ≡ list_all (λ q. has_queue queues.now q.name) held.now }
{
    held.iter().all(|queue| has_queue(queues, &queue.name))
}

/// Whether all of some projects are among these, each in the same queue.
fn have_projects(projects: &[Project], held: &[Project]) -> bool
    ensures { result ≡ list_all (λ p. list_any (λ r. same_name r.name p.name && same_name r.queue p.queue) projects.now)
        held.now }
{
    held.iter().all(|project| has_project(projects, project))
}

/// Whether a gate with the held settings may take these in their place: every held queue is in them,
/// and every held project with the same queue.
pub fn may_adopt(held: &Config, config: &Config) -> bool
    ensures { result ≡ may_adopt held.now config.now }
{
    have_queues(config.queues.as_slice(), held.queues.as_slice())
        && have_projects(config.projects.as_slice(), held.projects.as_slice())
}

/// Whether a queue has the name, the window and the floor of the other.
fn is_alike(queue: &Queue, other: &Queue) -> bool
    ensures { result ≡ (same_name queue.now.name other.now.name && queue.now.window == other.now.window &&
        queue.now.floor == other.now.floor) }
{
    same_name(&queue.name, &other.name)
        && queue.window == other.window
        && queue.floor == other.floor
}

/// Whether one of some queues has the name, the window and the floor of this one.
fn has_alike(queues: &[Queue], other: &Queue) -> bool
    ensures { result ≡ list_any (λ o. same_name o.name other.now.name && o.window == other.now.window &&
        o.floor == other.now.floor) queues.now }
{
    queues.iter().any(|queue| is_alike(queue, other))
}

/// Whether the held settings give a queue the same window and the same floor.
fn keeps_window(held: &Config, queue: &Queue) -> bool
    ensures { result ≡ keeps_window held.now queue.now }
{
    has_alike(held.queues.as_slice(), queue)
}

/// The window that a queue gets under its new setting: its present one, if it has one and the held settings give it
/// the same window and the same floor.
pub fn adopted_window(held: &Config, queue: &Queue, present: Option<u32>) -> u32
    ensures { result ≡ adopted_window held.now queue.now present }
{
    match present {
        None => queue.window,
        Some(window) => {
            if keeps_window(held, queue) {
                window
            } else {
                queue.window
            }
        }
    }
}
