//! The one text of a delivery: its kind and members, without its id.
ghost use Rattle.std.specs.Prelude.{◌≡◌, [], IfOk, string_bytes};
ghost use Rattle.gate_types.specs.JsonText.{object};
ghost use Rattle.gate_types.specs.Canonical.{canonical_text, on_change, on_order_number};

use crate::deliveries::{Delivery, Ending};
use crate::json_text::quote;
use crate::names::{NoMemory, PathName};
use crate::numbers::{BuildNo, ChangeNo, Revision, Serial};
use std::alloc::Global;

fn revision_text(
    alloc: Global,
    change: ChangeNo,
    project: &str,
    revision: Revision,
    message: &str,
) -> Result<String, NoMemory>
    ensures { IfOk result (λ s. string_bytes s
        ≡ canonical_text (Delivery.Revision change project.now revision message.now)) }
{
    let change = change.get();
    let project = quote(alloc, project)?;
    let revision = revision.get();
    let message = quote(alloc, message)?;
    format!(in alloc;
        "{{\"change\":{change},\"kind\":\"revision\",\"message\":{message},\"project\":{project},\
         \"revision\":{revision}}}"
    )
}

/// The text of a kind that names a change and its revision.
fn change_text(
    alloc: Global,
    kind: &str,
    change: ChangeNo,
    revision: Revision,
) -> Result<String, NoMemory>
    ensures { IfOk result (λ s. string_bytes s ≡ object (on_change kind.now change revision) []) }
{
    let change = change.get();
    let revision = revision.get();
    format!(in alloc; "{{\"change\":{change},\"kind\":\"{kind}\",\"revision\":{revision}}}")
}

/// The text of a kind that names an order.
fn order_text(alloc: Global, kind: &str, order: Serial) -> Result<String, NoMemory>
    ensures { IfOk result (λ s. string_bytes s ≡ object (on_order_number kind.now order) []) }
{
    let order = order.get();
    format!(in alloc; "{{\"kind\":\"{kind}\",\"order\":{order}}}")
}

fn take_text(alloc: Global, worker: &PathName) -> Result<String, NoMemory>
    ensures { IfOk result (λ s. string_bytes s ≡ canonical_text (Delivery.Take worker.now)) }
{
    let worker = quote(alloc, worker.as_str())?;
    format!(in alloc; "{{\"kind\":\"take\",\"worker\":{worker}}}")
}

fn result_text(alloc: Global, build: BuildNo, ending: Ending) -> Result<String, NoMemory>
    ensures { IfOk result (λ s. string_bytes s ≡ canonical_text (Delivery.Result build ending)) }
{
    let build = build.get();
    let outcome = ending.word();
    format!(in alloc; "{{\"build\":{build},\"kind\":\"result\",\"outcome\":\"{outcome}\"}}")
}

/// The canonical text of a delivery.
pub fn canonical(alloc: Global, delivery: &Delivery) -> Result<String, NoMemory>
    ensures { IfOk result (λ s. string_bytes s ≡ canonical_text delivery.now) }
{
    match delivery {
        Delivery::Revision {
            change,
            project,
            revision,
            message,
        } => revision_text(
            alloc,
            *change,
            project.as_str(),
            *revision,
            message.as_str(),
        ),
        Delivery::Approved { change, revision } => {
            change_text(alloc, "approved", *change, *revision)
        }
        Delivery::Withdrawn { change, revision } => {
            change_text(alloc, "withdrawn", *change, *revision)
        }
        Delivery::Closed { change, revision } => change_text(alloc, "closed", *change, *revision),
        Delivery::Landed { order } => order_text(alloc, "landed", *order),
        Delivery::Refused { order } => order_text(alloc, "refused", *order),
        Delivery::Take { worker } => take_text(alloc, worker),
        Delivery::Result { build, ending } => result_text(alloc, *build, *ending),
    }
}
