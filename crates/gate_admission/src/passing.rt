//! The change that enters next: the first of the candidates that may.
ghost use Rattle.std.specs.Prelude.{◌≡◌, ◌<◌, None, find, IfOk, IfNone, IfSome, MatchOption};
ghost use Rattle.std.specs.Ordering.{nat_cmp};
ghost use Rattle.std.specs.BTreeMap.{IsEmpty, IsLowerBound, Updates, btree_map_len};
ghost use Rattle.gate_types.specs.Admit.{may_enter};
ghost use Rattle.gate_types.specs.State.{State};
ghost use Rattle.gate_book_trait.specs.Faults.{MayAnswer};
ghost use Rattle.gate_book_trait.specs.Reading.{IsReadUnder};
ghost use Rattle.gate_admission.specs.Led.{IsLed};
ghost use Rattle.gate_admission.specs.Candidates.{IsAmong, AreCandidates, EntersFirst};
ghost use Rattle.gate_admission.specs.Entrants.{IsEntrant};

use crate::entering::{Entrant, if_may_enter};
use gate_book_trait::{Book, BookFault};
use gate_types::config::Config;
use gate_types::edits::Edit;
use gate_types::numbers::ChangeNo;
use gate_types::records::Ready;
use std::alloc::Global;
use std::collections::BTreeMap;

/// The candidate of the least approval, taken out.
fn next(waiting: &mut BTreeMap<u64, ChangeNo>) -> Option<Ready>
    ensures none { IfNone result (IsEmpty waiting.old) }
    ensures found { IfSome result (λ r. IsAmong waiting.old r) }
    ensures least { IfSome result (λ r. IsLowerBound nat_cmp waiting.old r.approval) }
    ensures rest { IfSome result (λ r. Updates nat_cmp waiting.old waiting.new r.approval None) }
    ensures fewer { IfSome result (λ r. btree_map_len waiting.new < btree_map_len waiting.old) }
{
    match waiting.pop_first() {
        Some((approval, change)) => Some(Ready { approval, change }),
        None => None,
    }
}

/// The first ready change that may enter its queue, where each that may is among these. It is taken out of them, as are
/// those before it, who may not: each is asked about once.
pub(crate) fn first_to_enter<'c, B: Book>(
    alloc: Global,
    book: &mut B,
    config: &'c Config,
    edits: &[Edit],
    waiting: &mut BTreeMap<u64, ChangeNo>,
) -> Result<Option<Entrant<'c>>, BookFault>
    ensures { IsReadUnder B.IsTrusted B.Holds B.LeavesOneOf (MayAnswer B.MayFault) book.old book.new config.now (λ x.
        (v : State) → IsLed config.now x edits.now v → AreCandidates config.now v waiting.old →
        IfOk result (λ found. MatchOption found (find (may_enter config.now v) v.ready ≡ None)
        (λ e. IsEntrant config.now v e × EntersFirst config.now v e.ready waiting.new))) result }
{
    while let Some(ready) = next(waiting) {
        if let Some(found) = if_may_enter(alloc, book, config, edits, ready)? {
            return Ok(Some(found));
        }
    }
    Ok(None)
}
