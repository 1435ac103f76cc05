//! The texts of a gate, on the output.
ghost use Rattle.std.specs.Prelude.{◌≡◌, ℕ, List, Ok, OnOk, IfErr, None, option_map, false};
ghost use Rattle.gate_types.specs.Tap.{has_failed, Took};
ghost use Rattle.gate_core.specs.Held.{Goes};
ghost use Rattle.gate_core.specs.Holding.{IsKeptGate};
ghost use Rattle.gated_cli.specs.OverFile.{file_fault};
ghost use Rattle.gated_cli.specs.Showing.{WritesStatus, StopsStatus, WritesShownHistory, StopsHistory, cursor};
ghost use Rattle.gated_cli.specs.Showing.{lines_behind, lines_told, WritesShown, StopsLines, IsEndedBy};
ghost use Rattle.gated_cli.specs.Showing.{WritesContent, StopsContent, Writes, EndsWell, StopsShown, LeavesAsBefore};

use crate::run::fault::Fault;
use crate::run::shown::Shown;
use gate_archive::{Archive, id_of};
use gate_book_trait::Book;
use gate_core::Gate;
use gate_http::{Served, get_one};
use gate_types::records::Id;
use gate_types::tap::Tap;
use std::alloc::Global;
use std::io::Write;

/// Writes the status text of a gate.
///
/// # Errors
///
/// `Unavailable` where the book gave a fault or memory was refused: nothing is written. `Write` where the output
/// failed: a beginning is written.
pub(crate) fn write_status<B: Book, W: Write>(
    alloc: Global,
    gate: &mut Gate<B>,
    output: &mut Tap<W>,
) -> Result<(), Fault>
    requires { has_failed output.old ≡ false }
    ensures gate { Goes B.IsTrusted B.Holds gate.old gate.new
        (λ g after. (after ≡ g) × WritesStatus g W.contents output.old output.new result) }
    ensures kept { IsKeptGate B.IsTrusted B.Holds B.LeavesOneOf gate.old gate.new }
    ensures ok { OnOk result ((has_failed output.new ≡ false)
        × (text : List ℕ) × Took W.contents output.old output.new text) }
    ensures err { IfErr result (StopsStatus W.contents output.old output.new) }
    ensures opened { file_fault result ≡ None }
{
    let Ok(text) = gate.status(alloc) else {
        return Err(Fault::Unavailable);
    };
    output.write_all(text.as_bytes())?;
    Ok(())
}

/// Writes the history text of a queue.
///
/// # Errors
///
/// `NoQueue` where no queue has the name, and `Unavailable` where the book gave a fault or memory was refused: nothing
/// is written. `Store` where such a fault came later, and `Write` where the output failed: a beginning is written.
pub(crate) fn write_history<B: Book, W: Write>(
    gate: &mut Gate<B>,
    queue: &str,
    output: &mut Tap<W>,
) -> Result<(), Fault>
    requires { has_failed output.old ≡ false }
    ensures gate { Goes B.IsTrusted B.Holds gate.old gate.new
        (λ g after. (after ≡ g) × WritesShownHistory g queue.now W.contents output.old output.new result) }
    ensures kept { IsKeptGate B.IsTrusted B.Holds B.LeavesOneOf gate.old gate.new }
    ensures ok { OnOk result (has_failed output.new ≡ false) }
    ensures err { IfErr result (StopsHistory output.old output.new) }
    ensures opened { file_fault result ≡ None }
{
    match gate.history(queue, b"", output) {
        Ok(()) => Ok(()),
        Err(fault) => Err(Fault::from(fault)),
    }
}

/// The id behind which deliveries are asked for, None for all. `NoDelivery` where the text writes no id.
fn cursor_of(after: Option<&str>) -> Result<Option<Id>, Fault>
    ensures { result ≡ cursor (option_map (λ s. s.now) after.entry) }
{
    let Some(text) = after else {
        return Ok(None);
    };
    match id_of(text) {
        Some(id) => Ok(Some(id)),
        None => Err(Fault::NoDelivery),
    }
}

/// Writes a line for each delivery behind that of an id, or for each from the first on.
///
/// # Errors
///
/// Those of `write_deliveries`.
fn write_behind<B: Archive, W: Write>(
    gate: &mut Gate<B>,
    after: Option<Id>,
    output: &mut Tap<W>,
) -> Result<(), Fault>
    requires { has_failed output.old ≡ false }
    ensures gate { Goes B.IsTrusted B.Holds gate.old gate.new (λ g then. (then ≡ g)
        × WritesShown (lines_behind g (Ok after)) W.contents output.old output.new result) }
    ensures crash { LeavesAsBefore B.IsTrusted B.Holds B.LeavesOneOf gate.old gate.new }
    ensures ok { OnOk result (has_failed output.new ≡ false) }
    ensures err { IfErr result (StopsLines output.old output.new) }
    ensures opened { file_fault result ≡ None }
{
    match gate.deliveries(after, output) {
        Ok(_) => Ok(()),
        Err(fault) => Err(Fault::from(fault)),
    }
}

/// Writes a line for each accepted delivery, or for each behind that of an id.
///
/// # Errors
///
/// `NoDelivery` where the text writes no id, or no accepted delivery has it, and `Unavailable` where the book gave a
/// fault or memory was refused: nothing is written. `Store` where such a fault came later, and `Write` where the output
/// failed: some first bytes are written.
pub(crate) fn write_deliveries<B: Archive, W: Write>(
    gate: &mut Gate<B>,
    after: Option<&str>,
    output: &mut Tap<W>,
) -> Result<(), Fault>
    requires { has_failed output.old ≡ false }
    ensures gate { Goes B.IsTrusted B.Holds gate.old gate.new (λ g then. (then ≡ g)
        × WritesShown (lines_told g (option_map (λ s. s.now) after.entry)) W.contents output.old output.new result) }
    ensures crash { LeavesAsBefore B.IsTrusted B.Holds B.LeavesOneOf gate.old gate.new }
    ensures ok { OnOk result (has_failed output.new ≡ false) }
    ensures err { IfErr result (StopsLines output.old output.new) }
    ensures opened { file_fault result ≡ None }
{
    match cursor_of(after) {
        Ok(id) => write_behind(gate, id, output),
        Err(fault) => Err(fault),
    }
}

/// How asking ends by what was answered: well at the status 200 alone.
fn ended_by(served: Served) -> Result<(), Fault>
    ensures { IsEndedBy served result }
{
    match served {
        Served::Answered(200) => Ok(()),
        _ => Err(Fault::Refused),
    }
}

/// Writes the content of what a GET of this path would be answered.
///
/// # Errors
///
/// `Refused` where that has another status than 200; its content is written all the same. `Write` where the output
/// failed, and `Store` where lines broke off: a beginning is written. `NoMemory` before anything is asked or written.
pub(crate) fn write_content<B: Archive, W: Write>(
    alloc: Global,
    gate: &mut Gate<B>,
    path: &str,
    output: &mut Tap<W>,
) -> Result<(), Fault>
    requires { has_failed output.old ≡ false }
    ensures gate { Goes B.IsTrusted B.Holds gate.old gate.new (λ g then. (then ≡ g)
        × WritesContent g path.now W.contents output.old output.new result) }
    ensures crash { LeavesAsBefore B.IsTrusted B.Holds B.LeavesOneOf gate.old gate.new }
    ensures ok { OnOk result (has_failed output.new ≡ false) }
    ensures err { IfErr result (StopsContent output.old output.new) }
    ensures opened { file_fault result ≡ None }
{
    match get_one(alloc, gate, path, output) {
        Ok(served) => ended_by(served),
        Err(fault) => Err(Fault::from(fault)),
    }
}

/// Writes a text of a gate.
///
/// # Errors
///
/// Those of the function above that writes this text.
pub(crate) fn write_shown<B: Archive, W: Write>(
    alloc: Global,
    gate: &mut Gate<B>,
    shown: Shown<'_>,
    output: &mut Tap<W>,
) -> Result<(), Fault>
    requires { has_failed output.old ≡ false }
    ensures gate { Goes B.IsTrusted B.Holds gate.old gate.new (λ g then. (then ≡ g)
        × Writes shown.entry g W.contents output.old output.new result) }
    ensures crash { LeavesAsBefore B.IsTrusted B.Holds B.LeavesOneOf gate.old gate.new }
    ensures ok { OnOk result (EndsWell shown.entry W.contents output.old output.new) }
    ensures err { IfErr result (StopsShown shown.entry W.contents output.old output.new) }
    ensures opened { file_fault result ≡ None }
{
    match shown {
        Shown::Status => write_status(alloc, gate, output),
        Shown::History(queue) => write_history(gate, queue, output),
        Shown::Deliveries(after) => write_deliveries(gate, after, output),
        Shown::Content(path) => write_content(alloc, gate, path, output),
    }
}
