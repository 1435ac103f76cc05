//! The members of a delivery, each read from its JSON value.
ghost use Rattle.std.specs.Prelude.{◌≡◌, string_bytes, Ok};
ghost use Rattle.serde_json.specs.View.{view};
ghost use Rattle.gate_types.specs.Reading.{text_at, whole_at};
ghost use Rattle.gate_wire.specs.Reading.{Gives, or_bad, id_at, kind_at, change_at, revision_at};
ghost use Rattle.gate_wire.specs.Reading.{order_at, build_at, project_name_at, worker_at, message_at, ending_at};
ghost use Rattle.gate_wire.specs.Reading.{ending_named, text_of_form};
ghost use Rattle.gate_types.specs.Names.{is_path_name};

use crate::door::Kind;
use gate_types::deliveries::{Ending, Refusal};
use gate_types::names::{Message, PathName};
use gate_types::numbers::{BuildNo, ChangeNo, Revision, Serial};
use gate_types::records::Id;
use serde_json::Value;
use std::alloc::Global;
use uuid::Uuid;

fn whole_of(value: &Value, name: &str) -> Result<u64, Refusal>
    ensures { result ≡ or_bad (whole_at name.now (view value.now)) }
{
    match value.get(name).and_then(Value::as_u64) {
        Some(number) => Ok(number),
        None => Err(Refusal::BadDelivery),
    }
}

fn text_of<'v>(value: &'v Value, name: &str) -> Result<&'v str, Refusal>
    ensures { Gives (λ s. s.now) result (or_bad (text_at name.now (view value.now))) }
{
    match value.get(name) {
        Some(member) => match member.as_str() {
            Some(text) => Ok(text),
            None => Err(Refusal::BadDelivery),
        },
        None => Err(Refusal::BadDelivery),
    }
}

fn copy_of(alloc: Global, text: &str) -> Result<String, Refusal>
    ensures { Gives string_bytes result (Ok text.now) }
{
    match String::from_str(alloc, text) {
        Ok(copy) => Ok(copy),
        Err(_) => Err(Refusal::Unavailable),
    }
}

#[tactic(auto, unfolding(crate::specs::Reading::id_at))]
pub(crate) fn id_of(value: &Value) -> Result<Id, Refusal>
    ensures { Gives (λ x. x) result (id_at (view value.now)) }
{
    let text = text_of(value, "id")?;
    match Uuid::parse_str(text) {
        Ok(id) => Ok(Id(*id.as_bytes())),
        Err(_) => Err(Refusal::BadDelivery),
    }
}

#[tactic(auto, unfolding(crate::specs::Reading::kind_at))]
pub(crate) fn kind_of(value: &Value) -> Result<Kind, Refusal>
    ensures { Gives (λ x. x) result (kind_at (view value.now)) }
{
    match Kind::named(text_of(value, "kind")?) {
        Some(kind) => Ok(kind),
        None => Err(Refusal::BadDelivery),
    }
}

#[tactic(auto, unfolding(crate::specs::Reading::change_at))]
pub(crate) fn change_of(value: &Value) -> Result<ChangeNo, Refusal>
    ensures { Gives (λ x. x) result (change_at (view value.now)) }
{
    match ChangeNo::new(whole_of(value, "change")?) {
        Some(change) => Ok(change),
        None => Err(Refusal::BadDelivery),
    }
}

#[tactic(auto, unfolding(crate::specs::Reading::revision_at))]
pub(crate) fn revision_of(value: &Value) -> Result<Revision, Refusal>
    ensures { Gives (λ x. x) result (revision_at (view value.now)) }
{
    match Revision::new(whole_of(value, "revision")?) {
        Some(revision) => Ok(revision),
        None => Err(Refusal::BadDelivery),
    }
}

#[tactic(auto, unfolding(crate::specs::Reading::order_at))]
pub(crate) fn order_of(value: &Value) -> Result<Serial, Refusal>
    ensures { Gives (λ x. x) result (order_at (view value.now)) }
{
    match Serial::new(whole_of(value, "order")?) {
        Some(order) => Ok(order),
        None => Err(Refusal::BadDelivery),
    }
}

#[tactic(auto, unfolding(crate::specs::Reading::build_at))]
pub(crate) fn build_of(value: &Value) -> Result<BuildNo, Refusal>
    ensures { Gives (λ x. x) result (build_at (view value.now)) }
{
    match BuildNo::new(whole_of(value, "build")?) {
        Some(build) => Ok(build),
        None => Err(Refusal::BadDelivery),
    }
}

/// A member that is a path name.
fn path_name_of(alloc: Global, value: &Value, name: &str) -> Result<PathName, Refusal>
    ensures { Gives (λ x. x) result (text_of_form is_path_name name.now (view value.now)) }
{
    match PathName::new(copy_of(alloc, text_of(value, name)?)?) {
        Some(path_name) => Ok(path_name),
        None => Err(Refusal::BadDelivery),
    }
}

#[tactic(auto, unfolding(crate::specs::Reading::project_name_at))]
pub(crate) fn project_of(alloc: Global, value: &Value) -> Result<PathName, Refusal>
    ensures { Gives (λ x. x) result (project_name_at (view value.now)) }
{
    path_name_of(alloc, value, "project")
}

#[tactic(auto, unfolding(crate::specs::Reading::worker_at))]
pub(crate) fn worker_of(alloc: Global, value: &Value) -> Result<PathName, Refusal>
    ensures { Gives (λ x. x) result (worker_at (view value.now)) }
{
    path_name_of(alloc, value, "worker")
}

#[tactic(auto, unfolding(crate::specs::Reading::message_at))]
pub(crate) fn message_of(alloc: Global, value: &Value) -> Result<Message, Refusal>
    ensures { Gives (λ x. x) result (message_at (view value.now)) }
{
    match Message::new(copy_of(alloc, text_of(value, "message")?)?) {
        Some(message) => Ok(message),
        None => Err(Refusal::BadDelivery),
    }
}

/// How a build ended, by its word.
fn ending_named(word: &str) -> Option<Ending>
    ensures { result ≡ ending_named word.now }
{
    Ending::of_word(word.as_bytes())
}

#[tactic(auto, unfolding(crate::specs::Reading::ending_at))]
pub(crate) fn ending_of(value: &Value) -> Result<Ending, Refusal>
    ensures { Gives (λ x. x) result (ending_at (view value.now)) }
{
    match ending_named(text_of(value, "outcome")?) {
        Some(ending) => Ok(ending),
        None => Err(Refusal::BadDelivery),
    }
}
