//! The edits that let ready changes enter their queues.
ghost use Rattle.std.specs.Prelude.{◌≡◌, true, false, MatchOption, IfOk};
ghost use Rattle.std.specs.List.{list_any};
ghost use Rattle.std.specs.BTreeMap.{IsEmpty};
ghost use Rattle.gate_types.specs.State.{State};
ghost use Rattle.gate_types.specs.Admit.{admit};
ghost use Rattle.gate_types.specs.Step.{is_exhausted};
ghost use Rattle.gate_types.specs.Lawful.{IsSound};
ghost use Rattle.gate_types.specs.Tables.{Leads};
ghost use Rattle.gate_book_trait.specs.Faults.{MayAnswer};
ghost use Rattle.gate_book_trait.specs.Reading.{IsReadUnder};
ghost use Rattle.gate_reads.specs.Moves.{in_state};
ghost use Rattle.gate_admission.specs.Candidates.{EntersByEdits};
ghost use Rattle.gate_admission.specs.Counted as counting;

use crate::candidates::{add_needing, candidates};
use crate::counted::{is_past, last_drawn, sets_past};
use crate::entering::enter;
use crate::passing::first_to_enter;
use gate_book_trait::{Book, BookFault};
use gate_types::config::Config;
use gate_types::edits::Edit;
use gate_types::numbers::{ChangeNo, Serial};
use std::alloc::Global;
use std::collections::BTreeMap;

/// Whether nobody might enter, and no counter passes 10^15.
fn is_idle(waiting: &BTreeMap<u64, ChangeNo>, edits: &[Edit]) -> bool
    ensures { result ≡ true → IsEmpty waiting.now × (list_any counting.sets_past edits.now ≡ false) }
{
    if waiting.is_empty() {
        !sets_past(edits)
    } else {
        false
    }
}

/// The edits so far, and behind them those that let ready changes enter; none where a counter would pass
/// 10^15. Before the edits nobody might enter. This only reads, by key: of those who are ready it asks about
/// those whom the edits put, and those who need a change that lands or enters; about all where a queue of
/// 1,000 items lost one.
pub fn admitting<B: Book>(
    alloc: Global,
    book: &mut B,
    config: &Config,
    edits: Vec<Edit>,
) -> Result<Option<Vec<Edit>>, BookFault>
    ensures { IsReadUnder B.IsTrusted B.Holds B.LeavesOneOf (MayAnswer B.MayFault) book.old book.new config.now (λ x.
        (v : State) → IsSound config.now v → Leads config.now x edits.items (in_state x v) →
        EntersByEdits config.now x.state edits.items v →
        IfOk result (λ found. MatchOption found (is_exhausted (admit config.now v) ≡ true)
        (λ all. Leads config.now x all.items (in_state x (admit config.now v)) ×
        (is_exhausted (admit config.now v) ≡ false)))) result }
{
    config.show_sound();
    let mut waiting = candidates(alloc, book, edits.as_slice())?;
    if is_idle(&waiting, edits.as_slice()) {
        return Ok(Some(edits));
    }
    let drawn = last_drawn(book, edits.as_slice())?;
    if is_past(drawn) {
        return Ok(None);
    }
    let mut edits = edits;
    for order in drawn.order..1_000_000_000_000_001 {
        let Some(entrant) = first_to_enter(alloc, book, config, edits.as_slice(), &mut waiting)?
        else {
            return Ok(Some(edits));
        };
        let Some(serial) = Serial::new(order + 1) else {
            return Ok(None);
        };
        let ready = entrant.ready;
        enter(book, config, &mut edits, entrant, serial)?;
        add_needing(alloc, book, edits.as_slice(), ready.change, &mut waiting)?;
    }
    Ok(None)
}
