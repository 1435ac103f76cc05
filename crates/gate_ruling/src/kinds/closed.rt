//! `closed`: a change is given up.
ghost use Rattle.std.specs.Prelude.{◌≡◌, if◌then◌else◌, is_some, IfOk};
ghost use Rattle.gate_types.specs.declared.deliveries.Reply.TheVariants as reply;
ghost use Rattle.gate_types.specs.declared.deliveries.Delivery.TheVariants as delivery;
ghost use Rattle.gate_book_trait.specs.Faults.{MayAnswer};
ghost use Rattle.gate_book_trait.specs.Reading.{IsReadUnder};
ghost use Rattle.gate_reads.specs.Raw.{IsRaw};

use crate::changing::{is_open, set_at};
use crate::guards::latest;
use crate::leaving::{Left, give_up_place, is_submitting};
use gate_book_trait::{Book, BookFault};
use gate_reads::{Moved, PendingReply, Raw, queue_place};
use gate_types::config::Config;
use gate_types::deliveries::{Refusal, Reply};
use gate_types::numbers::{ChangeNo, Revision};
use gate_types::records::{Stage, Verdict};
use std::alloc::Global;

/// An item is removed from its queue; of a change that is none this is recorded.
fn removed_or_recorded(left: &Left) -> Reply
    ensures { result ≡ (if is_some left.now.touched then reply.Removed else reply.Recorded) }
{
    if left.touched.is_some() {
        Reply::Removed
    } else {
        Reply::Recorded
    }
}

/// An open change is closed, and gives up its place; anything else is stale.
pub(crate) fn closed<B: Book>(
    alloc: Global,
    book: &mut B,
    config: &Config,
    change: ChangeNo,
    revision: Revision,
) -> Result<Raw, BookFault>
    ensures { IsReadUnder B.IsTrusted B.Holds B.LeavesOneOf (MayAnswer B.MayFault) book.old book.new config.now (λ x.
        IfOk result (IsRaw config.now x (delivery.Closed change revision))) result }
{
    let known = match latest(book, change, revision)? {
        Ok(known) => known,
        Err(raw) => return Ok(raw),
    };
    if !is_open(&known) {
        return Ok(Raw::Stands(Reply::Stale));
    }
    let place = queue_place(alloc, book, config, change)?;
    if is_submitting(&place) {
        return Ok(Raw::Refused(Refusal::Submitting));
    }
    let left = give_up_place(alloc, book, config, place, Verdict::Closed)?;
    let reply = removed_or_recorded(&left);
    let edits = set_at(left.edits, &known, Stage::Closed)?;
    Ok(Raw::Moved(Moved {
        reply: PendingReply::Now(reply),
        edits,
        touched: left.touched,
    }))
}
