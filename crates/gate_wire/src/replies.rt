//! Writes the text of a reply.
ghost use Rattle.std.specs.Prelude.{◌≡◌, [], ◌++◌, map, codes, decimal, IfOk, string_bytes};
ghost use Rattle.gate_types.specs.JsonText.{array, entry as entry_piece};
ghost use Rattle.gate_types.specs.ReplyText.{reply_text};

use gate_types::deliveries::Reply;
use gate_types::entries::{push_entry, separator};
use gate_types::names::NoMemory;
use gate_types::numbers::Serial;
use gate_types::records::{Build, Entry};
use std::alloc::Global;

/// The changes ahead of a build's own, as an array.
pub fn ahead_text(alloc: Global, ahead: &[Entry]) -> Result<String, NoMemory>
    ensures { IfOk result (λ s. string_bytes s ≡ array (map entry_piece ahead.now) []) }
{
    let mut text = String::from_str(alloc, "[")?;
    for (place, entry) in ahead.iter().enumerate() {
        push_entry(alloc, &mut text, separator(place), *entry)?;
    }
    text.push_str("]")?;
    Ok(text)
}

/// The first members of the reply that gives a build.
pub fn build_front(alloc: Global, after: u64, ahead: &str, build: u64) -> Result<String, NoMemory>
    ensures { IfOk result (λ s. string_bytes s ≡ codes "{\"after\":"
        ++ (decimal after ++ (codes ",\"ahead\":" ++ (ahead.now ++ (codes ",\"build\":" ++ decimal build))))) }
{
    format!(in alloc; "{{\"after\":{after},\"ahead\":{ahead},\"build\":{build}")
}

fn build_text(alloc: Global, build: &Build) -> Result<String, NoMemory>
    ensures { IfOk result (λ s. string_bytes s ≡ reply_text (Reply.Build build.now)) }
{
    let ahead = ahead_text(alloc, build.ahead.as_slice())?;
    let front = build_front(alloc, build.after, ahead.as_str(), build.number.get())?;
    let change = build.change.get();
    let job = build.job.as_str();
    let queue = build.queue.as_str();
    let revision = build.revision.get();
    let text = format!(in alloc;
        "{front},\"change\":{change},\"job\":\"{job}\",\"queue\":\"{queue}\",\
         \"reply\":\"build\",\"revision\":{revision}}}"
    )?;
    Ok(text)
}

fn queued_text(alloc: Global, order: Serial) -> Result<String, NoMemory>
    ensures { IfOk result (λ s. string_bytes s ≡ reply_text (Reply.Queued order)) }
{
    let order = order.get();
    format!(in alloc; "{{\"order\":{order},\"reply\":\"queued\"}}")
}

fn landed_text(alloc: Global, place: u64) -> Result<String, NoMemory>
    ensures { IfOk result (λ s. string_bytes s ≡ reply_text (Reply.Landed place)) }
{
    format!(in alloc; "{{\"n\":{place},\"reply\":\"landed\"}}")
}

/// The text of a reply: compact JSON, members in byte order of their names, no line end.
///
/// # Errors
///
/// `NoMemory` where memory was refused.
pub fn write_reply(alloc: Global, reply: &Reply) -> Result<String, NoMemory>
    ensures { IfOk result (λ s. string_bytes s ≡ reply_text reply.now) }
{
    match reply {
        Reply::Recorded => String::from_str(alloc, "{\"reply\":\"recorded\"}"),
        Reply::Stale => String::from_str(alloc, "{\"reply\":\"stale\"}"),
        Reply::Waiting => String::from_str(alloc, "{\"reply\":\"waiting\"}"),
        Reply::Already => String::from_str(alloc, "{\"reply\":\"already\"}"),
        Reply::Removed => String::from_str(alloc, "{\"reply\":\"removed\"}"),
        Reply::Noted => String::from_str(alloc, "{\"reply\":\"noted\"}"),
        Reply::Queued(order) => queued_text(alloc, *order),
        Reply::Landed(place) => landed_text(alloc, *place),
        Reply::Build(build) => build_text(alloc, build),
    }
}
