//! The edits of an item that stays or goes, and of the window.
ghost use Rattle.std.specs.Prelude.{◌≡◌, ◌<◌, ◌≤◌, ◌+◌, ◌^◌, ◌++◌, OnOk};
ghost use Rattle.gate_queue_rules.specs.Edits as edits_of;

use gate_types::edits::Edit;
use gate_types::names::{Name, NoMemory};
use gate_types::records::{Item, Report, Verdict};
use gate_types::sequence::Sequence;

/// Puts the row of an item that stays, or reports one that goes behind that many reports and drops it.
pub fn push_item(
    edits: &mut Sequence<Edit>,
    name: &Name,
    reports: u64,
    row: Item,
    verdict: Option<Verdict>,
) -> Result<(), NoMemory>
    requires { reports + 1 < 2 ^ 64 }
    ensures { OnOk result (edits.new ≡ edits.old ++ edits_of.item_edits name.now reports row verdict) }
{
    let queue = name.copy()?;
    let Some(verdict) = verdict else {
        edits.push(Edit::PutItem { queue, item: row })?;
        return Ok(());
    };
    edits.push(Edit::PutReport {
        queue,
        place: reports + 1,
        report: Report {
            serial: row.serial,
            change: row.change,
            revision: row.revision,
            verdict,
        },
    })?;
    edits.push(Edit::DropItem(row.serial))?;
    Ok(())
}

/// Sets the window of a queue, where it changes.
pub fn push_window(
    edits: &mut Sequence<Edit>,
    name: &Name,
    old: u32,
    new: u32,
) -> Result<(), NoMemory>
    ensures { OnOk result (edits.new ≡ edits.old ++ edits_of.window_edits name.now old new) }
{
    if old != new {
        let queue = name.copy()?;
        edits.push(Edit::SetWindow { queue, window: new })?;
    }
    Ok(())
}

/// The number of reports behind an item with a verdict.
pub fn reports_behind(reports: u64, verdict: Option<Verdict>) -> u64
    requires { reports + 1 < 2 ^ 64 }
    ensures value { result ≡ edits_of.next_reports reports verdict }
    ensures within { result ≤ reports + 1 }
{
    if verdict.is_some() {
        reports + 1
    } else {
        reports
    }
}
