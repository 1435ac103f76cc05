//! Typed deliveries, settings, counters and ids are of their forms.
ghost use Rattle.std.specs.Prelude.{◌≡◌, true, nat_lt};
ghost use Rattle.std.specs.List.{list_all};
ghost use Rattle.gate_types.specs.Names.{is_name};
ghost use Rattle.gate_types.specs.Forms.{is_delivery_in_form, is_project_in_form, are_settings_in_form};
ghost use Rattle.gate_types.specs.Forms.{are_counters_in_form, is_id_in_form};

use gate_types::config::{Config, Job, Project, Queue};
use gate_types::deliveries::Delivery;
use gate_types::records::{Counters, Id};

/// A typed delivery is of its form.
pub fn delivery_is_in_form(delivery: &Delivery)
    ensures { is_delivery_in_form delivery.now ≡ true }
{
    match delivery {
        Delivery::Revision {
            change,
            project,
            revision,
            message,
        } => {
            let _number = change.get();
            let _name = project.as_str();
            let _latest = revision.get();
            let _text = message.as_str();
        }
        Delivery::Approved { change, revision } => {
            let _number = change.get();
            let _latest = revision.get();
        }
        Delivery::Withdrawn { change, revision } => {
            let _number = change.get();
            let _latest = revision.get();
        }
        Delivery::Closed { change, revision } => {
            let _number = change.get();
            let _latest = revision.get();
        }
        Delivery::Landed { order } => {
            let _number = order.get();
        }
        Delivery::Refused { order } => {
            let _number = order.get();
        }
        Delivery::Take { worker } => {
            let _name = worker.as_str();
        }
        Delivery::Result { build, ending: _ } => {
            let _number = build.get();
        }
    }
}

/// Typed settings are of their form.
pub fn settings_are_in_form(config: &Config)
    ensures { are_settings_in_form config.now ≡ true }
{
    let _base = config.base.as_str();
    queues_are_named(config.queues.as_slice());
    projects_are_in_form(config.projects.as_slice());
}

fn queues_are_named(queues: &[Queue])
    ensures { list_all (λ q. is_name q.name) queues.now ≡ true }
{
    for queue in queues {
        let _name = queue.name.as_str();
    }
}

fn jobs_are_named(jobs: &[Job])
    ensures { list_all (λ j. is_name j.name) jobs.now ≡ true }
{
    for job in jobs {
        let _name = job.name.as_str();
    }
}

fn project_is_in_form(project: &Project)
    ensures { is_project_in_form project.now ≡ true }
{
    let _name = project.name.as_str();
    let _queue = project.queue.as_str();
    jobs_are_named(project.jobs.as_slice());
}

fn projects_are_in_form(projects: &[Project])
    ensures { list_all is_project_in_form projects.now ≡ true }
{
    for project in projects {
        project_is_in_form(project);
    }
}

/// Typed counters are of their form.
pub fn counters_are_in_form(counters: &Counters)
    ensures { are_counters_in_form counters.now ≡ true }
{
    let _order = counters.order;
}

/// An id is of its form.
pub fn id_is_in_form(id: &Id)
    ensures { is_id_in_form id.now ≡ true }
{
    let _count = id.0.len();
    are_bytes(&id.0);
}

fn are_bytes(bytes: &[u8])
    ensures { list_all (λ b. nat_lt b 256) bytes.now ≡ true }
{
    for byte in bytes {
        let _number = u64::from(*byte);
    }
}
