//! The lines of the status text.
ghost use Rattle.std.specs.Prelude.{◌≡◌, ◌++◌, ◌∷◌, decimal, flat_map, IfOk, string_bytes};
ghost use Rattle.gate_types.specs.Columns.{right, left, number_or_dash};
ghost use Rattle.gate_types.specs.Status.{slot_word};
ghost use Rattle.gate_texts.specs.Lines as line;

use gate_queue_rules::{slot_among, slot_where};
use gate_types::config::Job;
use gate_types::names::NoMemory;
use gate_types::numbers::{ChangeNo, Serial};
use gate_types::records::{Build, Item, Slot};
use std::alloc::Global;

/// The line of a queue, with how many landings it has.
pub(crate) fn queue_line(
    alloc: Global,
    name: &str,
    window: u32,
    landings: u64,
) -> Result<String, NoMemory>
    ensures { IfOk result (λ s. string_bytes s ≡ line.queue_line name.now window landings) }
{
    let text = format!(in alloc; "queue {name} window {window} landed {landings}\n")?;
    Ok(text)
}

/// The line of a ready change.
pub(crate) fn waiting_line(
    alloc: Global,
    change: ChangeNo,
    revision: u64,
) -> Result<String, NoMemory>
    ensures { IfOk result (λ s. string_bytes s ≡ line.waiting_line change revision) }
{
    let change = change.get();
    let text = format!(in alloc; "waiting {change} {revision}\n")?;
    Ok(text)
}

/// Numbers right in 6, 9 and 4 places.
fn numbers_text(alloc: Global, item: &Item) -> Result<String, NoMemory>
    ensures { IfOk result (λ s. string_bytes s ≡ right 6 (decimal item.now.serial)
        ++ (32 ∷ (right 9 (decimal item.now.change) ++ (32 ∷ right 4 (decimal item.now.revision))))) }
{
    let serial = item.serial.get();
    let change = item.change.get();
    let revision = item.revision.get();
    format!(in alloc; "{serial:>6} {change:>9} {revision:>4}")
}

/// A serial right in 6 places, or `-`.
fn ahead_text(alloc: Global, ahead: Option<Serial>) -> Result<String, NoMemory>
    ensures { IfOk result (λ s. string_bytes s ≡ right 6 (number_or_dash ahead)) }
{
    match ahead {
        Some(serial) => {
            let serial = serial.get();
            format!(in alloc; "{serial:>6}")
        }
        None => String::from_str(alloc, "     -"),
    }
}

/// How an item stands, left in 7 places.
fn standing_text(blocked: bool, failing: bool) -> &'static str
    ensures { result.now ≡ left 7 (line.standing_word_by blocked failing) }
{
    if blocked {
        "blocked"
    } else if failing {
        "failing"
    } else {
        "ok     "
    }
}

pub(crate) fn slot_word(slot: Slot) -> &'static str
    ensures { result.now ≡ slot_word slot }
{
    match slot {
        Slot::Waiting => "waiting",
        Slot::Running => "running",
        Slot::Success => "success",
        Slot::Failure => "failure",
        Slot::Skipped => "skipped",
    }
}

/// A job behind a space.
fn job_text(alloc: Global, cut: bool, builds: &[Build], job: &Job) -> Result<String, NoMemory>
    ensures { IfOk result (λ s. string_bytes s ≡ 32 ∷ line.job_column_by cut builds.now job.now) }
{
    let name = job.name.as_str();
    let slot = slot_word(slot_where(cut, slot_among(alloc, builds, job)?));
    format!(in alloc; " {name}={slot}")
}

/// The jobs of an item, each behind a space.
fn jobs_text(alloc: Global, cut: bool, builds: &[Build], jobs: &[Job]) -> Result<String, NoMemory>
    ensures { IfOk result (λ s. string_bytes s ≡ flat_map (λ j. 32 ∷ line.job_column_by cut builds.now j) jobs.now) }
{
    let mut text = String::new(alloc);
    for job in jobs {
        let column = job_text(alloc, cut, builds, job)?;
        text.push_str(column.as_str())?;
    }
    Ok(text)
}

/// The line of an item; whether it is cut, its live builds and its jobs known.
pub(crate) fn item_line(
    alloc: Global,
    item: &Item,
    blocked: bool,
    cut: bool,
    builds: &[Build],
    jobs: &[Job],
) -> Result<String, NoMemory>
    ensures { IfOk result (λ s. string_bytes s ≡ line.item_line item.now blocked cut builds.now jobs.now) }
{
    let numbers = numbers_text(alloc, item)?;
    let ahead = ahead_text(alloc, item.ahead)?;
    let standing = standing_text(blocked, item.failing);
    let jobs = jobs_text(alloc, cut, builds, jobs)?;
    let text = format!(in alloc; "{numbers} {ahead} {standing}{jobs}\n")?;
    Ok(text)
}
