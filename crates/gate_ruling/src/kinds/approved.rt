//! `approved`: a change may land.
ghost use Rattle.std.specs.Prelude.{◌≡◌, ◌∷◌, [], Some, IfOk};
ghost use Rattle.gate_types.specs.declared.deliveries.Delivery.TheVariants as delivery;
ghost use Rattle.gate_types.specs.declared.edits.Edit.TheVariants as edit;
ghost use Rattle.gate_types.specs.declared.edits.Counter.TheVariants as counter;
ghost use Rattle.gate_book_trait.specs.Faults.{MayAnswer};
ghost use Rattle.gate_book_trait.specs.Reading.{IsReadUnder};
ghost use Rattle.gate_reads.specs.Raw.{IsRaw};
ghost use Rattle.gate_ruling.specs.Approving.{is_nowhere};

use crate::changing::is_open;
use crate::guards::latest;
use gate_book_trait::{Book, BookFault};
use gate_reads::{Moved, PendingReply, Raw, Stand, stand_of};
use gate_types::config::Config;
use gate_types::deliveries::{Refusal, Reply};
use gate_types::edits::{Counter, Edit};
use gate_types::lists::with_one;
use gate_types::names::NoMemory;
use gate_types::numbers::{ChangeNo, LAST_NUMBER, Revision};
use gate_types::records::Change;
use std::alloc::Global;

fn is_nowhere(stand: &Stand) -> bool
    ensures { result ≡ is_nowhere stand.now }
{
    matches!(stand, Stand::Nowhere)
}

/// The change is ready under a new approval number.
fn made_ready(alloc: Global, known: Change, approval: u64) -> Result<Vec<Edit>, NoMemory>
    ensures { IfOk result (λ edits. edits.items ≡ edit.PutChange known (Some approval) ∷
        edit.SetCounter counter.Approval approval ∷ []) }
{
    let change = Edit::PutChange {
        change: known,
        approval: Some(approval),
    };
    let edits = with_one(Vec::new(alloc), change)?;
    let counter = Edit::SetCounter {
        counter: Counter::Approval,
        drawn: approval,
    };
    with_one(edits, counter)
}

/// An open change that waits nowhere becomes ready; where it stands once all is settled is the reply.
pub(crate) fn approved<B: Book>(
    alloc: Global,
    book: &mut B,
    config: &Config,
    change: ChangeNo,
    revision: Revision,
) -> Result<Raw, BookFault>
    ensures { IsReadUnder B.IsTrusted B.Holds B.LeavesOneOf (MayAnswer B.MayFault) book.old book.new config.now (λ x.
        IfOk result (IsRaw config.now x (delivery.Approved change revision))) result }
{
    let known = match latest(book, change, revision)? {
        Ok(known) => known,
        Err(raw) => return Ok(raw),
    };
    if !is_open(&known) {
        return Ok(Raw::Stands(Reply::Stale));
    }
    if !is_nowhere(&stand_of(alloc, book, config, change)?) {
        return Ok(Raw::Stands(Reply::Already));
    }
    let drawn = book.counters()?.approval;
    if LAST_NUMBER <= drawn {
        return Ok(Raw::Refused(Refusal::Exhausted));
    }
    Ok(Raw::Moved(Moved {
        reply: PendingReply::PlaceOf(change),
        edits: made_ready(alloc, known, drawn + 1)?,
        touched: None,
    }))
}
