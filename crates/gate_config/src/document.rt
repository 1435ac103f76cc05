//! What a document says at a place, and what stands for it where nothing of the kind is there.
ghost use Rattle.std.specs.Prelude.{◌≡◌, map};
ghost use Rattle.toml.specs.View.{view};
ghost use Rattle.gate_types.specs.Names.{same_name};
ghost use Rattle.gate_config.specs.Document.{items_at, queues_of, projects_of, jobs_of, text_or_empty, name_of};
ghost use Rattle.gate_config.specs.Document.{queue_named_by, base_of, number_or_default, said_window, said_floor};
ghost use Rattle.gate_config.specs.Document.{pace_or_default};
ghost use Rattle.gate_config.specs.Document.{said_increase, said_increase_by, said_decrease, said_decrease_by, is_fast};
ghost use Rattle.gate_config.specs.Document.{is_voting};

use gate_types::config::Pace;
use toml::Value;

/// The values of the array at a key, or none.
#[tactic(auto, using(crate::proofs::DocumentLemmas::list_of_view))]
pub(crate) fn items_at<'v>(value: &'v Value, key: &str) -> &'v [Value]
    ensures { map view result.now ≡ items_at key.now (view value.now) }
{
    match value.get(key) {
        Some(member) => match member.as_array() {
            Some(list) => list.as_slice(),
            None => &[],
        },
        None => &[],
    }
}

pub(crate) fn queues_of(document: &Value) -> &[Value]
    ensures { map view result.now ≡ queues_of (view document.now) }
{
    items_at(document, "queue")
}

pub(crate) fn projects_of(document: &Value) -> &[Value]
    ensures { map view result.now ≡ projects_of (view document.now) }
{
    items_at(document, "project")
}

pub(crate) fn jobs_of(project: &Value) -> &[Value]
    ensures { map view result.now ≡ jobs_of (view project.now) }
{
    items_at(project, "job")
}

/// The text at a key, or the empty one.
pub(crate) fn text_at<'v>(value: &'v Value, key: &str) -> &'v str
    ensures { result.now ≡ text_or_empty key.now (view value.now) }
{
    match value.get(key) {
        Some(member) => match member.as_str() {
            Some(text) => text,
            None => "",
        },
        None => "",
    }
}

pub(crate) fn name_of(value: &Value) -> &str
    ensures { result.now ≡ name_of (view value.now) }
{
    text_at(value, "name")
}

pub(crate) fn queue_named_by(project: &Value) -> &str
    ensures { result.now ≡ queue_named_by (view project.now) }
{
    text_at(project, "queue")
}

pub(crate) fn base_of(document: &Value) -> &str
    ensures { result.now ≡ base_of (view document.now) }
{
    match document.get("forge") {
        Some(forge) => text_at(forge, "base"),
        None => "",
    }
}

/// The whole number at a key, or the default where it is left out. None where it is negative.
fn number_at(value: &Value, key: &str, default: u64) -> Option<u64>
    ensures { result ≡ number_or_default key.now default (view value.now) }
{
    match value.get(key) {
        Some(member) => match member.as_integer() {
            Some(number) => {
                if number < 0 {
                    None
                } else {
                    Some(number as u64)
                }
            }
            None => Some(default),
        },
        None => Some(default),
    }
}

pub(crate) fn window_of(queue: &Value) -> Option<u64>
    ensures { result ≡ said_window (view queue.now) }
{
    number_at(queue, "window", 20)
}

pub(crate) fn floor_of(queue: &Value) -> Option<u64>
    ensures { result ≡ said_floor (view queue.now) }
{
    number_at(queue, "floor", 3)
}

/// Whether two texts are the same. A call of this is proved sooner than `==` in a chain of tests.
pub(crate) fn is_same(text: &str, other: &str) -> bool
    ensures { result ≡ same_name text.now other.now }
{
    text == other
}

/// The pace at a key, or the default where it is left out. None where the word says none.
fn pace_at(value: &Value, key: &str, default: Pace) -> Option<Pace>
    ensures { result ≡ pace_or_default key.now default (view value.now) }
{
    match value.get(key) {
        Some(member) => match member.as_str() {
            Some(word) => Pace::of_word(word),
            None => Some(default),
        },
        None => Some(default),
    }
}

pub(crate) fn increase_of(queue: &Value) -> Option<Pace>
    ensures { result ≡ said_increase (view queue.now) }
{
    pace_at(queue, "increase", Pace::Linear)
}

pub(crate) fn increase_by_of(queue: &Value) -> Option<u64>
    ensures { result ≡ said_increase_by (view queue.now) }
{
    number_at(queue, "increase_by", 1)
}

pub(crate) fn decrease_of(queue: &Value) -> Option<Pace>
    ensures { result ≡ said_decrease (view queue.now) }
{
    pace_at(queue, "decrease", Pace::Exponential)
}

pub(crate) fn decrease_by_of(queue: &Value) -> Option<u64>
    ensures { result ≡ said_decrease_by (view queue.now) }
{
    number_at(queue, "decrease_by", 2)
}

/// A project isn't to fail fast unless it says so.
pub(crate) fn is_fast(project: &Value) -> bool
    ensures { result ≡ is_fast (view project.now) }
{
    match project.get("fail_fast") {
        Some(member) => match member.as_bool() {
            Some(fast) => fast,
            None => false,
        },
        None => false,
    }
}

/// A job votes unless it says otherwise.
pub(crate) fn is_voting(job: &Value) -> bool
    ensures { result ≡ is_voting (view job.now) }
{
    match job.get("voting") {
        Some(member) => match member.as_bool() {
            Some(voting) => voting,
            None => true,
        },
        None => true,
    }
}
