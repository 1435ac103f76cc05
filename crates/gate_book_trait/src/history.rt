//! The lines of a queue's history text.
ghost use Rattle.std.specs.Prelude.{◌≡◌, [], ◌∷◌, ◌++◌, codes, decimal, IfOk, string_bytes};
ghost use Rattle.gate_types.specs.Columns.{right, left, row, number_or_dash};
ghost use Rattle.gate_types.specs.History.{verdict_word, landing_place, report_row};

use gate_types::names::NoMemory;
use gate_types::records::{Report, Verdict};
use std::alloc::Global;

/// The first line, with the queue's name.
pub fn history_head(alloc: Global, name: &str) -> Result<String, NoMemory>
    ensures { IfOk result (λ s. string_bytes s ≡ row (codes "history" ∷ name.now ∷ [])) }
{
    format!(in alloc; "history {name}\n")
}

/// The last line, with how many reports there are.
pub fn history_end(alloc: Global, count: u64) -> Result<String, NoMemory>
    ensures { IfOk result (λ s. string_bytes s ≡ row (codes "end" ∷ decimal count ∷ [])) }
{
    format!(in alloc; "end {count}\n")
}

/// The word of a verdict, left in 10 places.
fn verdict_text(verdict: Verdict) -> &'static str
    ensures { result.now ≡ left 10 (verdict_word verdict) }
{
    match verdict {
        Verdict::Landed(_) => "landed    ",
        Verdict::Failed => "failed    ",
        Verdict::Refused => "refused   ",
        Verdict::Needs => "needs     ",
        Verdict::Superseded => "superseded",
        Verdict::Withdrawn => "withdrawn ",
        Verdict::Closed => "closed    ",
    }
}

/// The place of a landing right in 6 places, or `-`.
fn landing_text(alloc: Global, verdict: Verdict) -> Result<String, NoMemory>
    ensures { IfOk result (λ s. string_bytes s ≡ right 6 (number_or_dash (landing_place verdict))) }
{
    match verdict {
        Verdict::Landed(n) => format!(in alloc; "{n:>6}"),
        _ => String::from_str(alloc, "     -"),
    }
}

/// Place and serial right in 6 places, change in 9, revision in 4.
fn numbers_text(alloc: Global, place: u64, report: &Report) -> Result<String, NoMemory>
    ensures { IfOk result (λ s. string_bytes s ≡ right 6 (decimal place) ++ (32 ∷ (right 6 (decimal report.now.serial)
        ++ (32 ∷ (right 9 (decimal report.now.change) ++ (32 ∷ right 4 (decimal report.now.revision))))))) }
{
    let serial = report.serial.get();
    let change = report.change.get();
    let revision = report.revision.get();
    format!(in alloc; "{place:>6} {serial:>6} {change:>9} {revision:>4}")
}

/// The line of a report at its place in the queue's history, from 1.
pub fn report_line(alloc: Global, place: u64, report: &Report) -> Result<String, NoMemory>
    ensures { IfOk result (λ s. string_bytes s ≡ report_row (place, report.now)) }
{
    let numbers = numbers_text(alloc, place, report)?;
    let verdict = verdict_text(report.verdict);
    let landing = landing_text(alloc, report.verdict)?;
    let text = format!(in alloc; "{numbers} {verdict} {landing}\n")?;
    Ok(text)
}
