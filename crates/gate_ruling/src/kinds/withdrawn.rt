//! `withdrawn`: a change gives up its place.
ghost use Rattle.std.specs.Prelude.{IfOk};
ghost use Rattle.gate_types.specs.declared.deliveries.Delivery.TheVariants as delivery;
ghost use Rattle.gate_book_trait.specs.Faults.{MayAnswer};
ghost use Rattle.gate_book_trait.specs.Reading.{IsReadUnder};
ghost use Rattle.gate_reads.specs.Raw.{IsRaw};

use crate::changing::set_at;
use crate::guards::latest;
use crate::leaving::leave_queue;
use gate_book_trait::{Book, BookFault};
use gate_reads::{Moved, PendingReply, QueuePlace, Raw, queue_place};
use gate_types::config::Config;
use gate_types::deliveries::{Refusal, Reply};
use gate_types::numbers::{ChangeNo, Revision};
use gate_types::records::Verdict;
use std::alloc::Global;

/// An item leaves its queue; a ready change is so no longer; anything else is stale.
pub(crate) fn withdrawn<B: Book>(
    alloc: Global,
    book: &mut B,
    config: &Config,
    change: ChangeNo,
    revision: Revision,
) -> Result<Raw, BookFault>
    ensures { IsReadUnder B.IsTrusted B.Holds B.LeavesOneOf (MayAnswer B.MayFault) book.old book.new config.now (λ x.
        IfOk result (IsRaw config.now x (delivery.Withdrawn change revision))) result }
{
    let known = match latest(book, change, revision)? {
        Ok(known) => known,
        Err(raw) => return Ok(raw),
    };
    match queue_place(alloc, book, config, change)? {
        QueuePlace::Submitting => Ok(Raw::Refused(Refusal::Submitting)),
        QueuePlace::Item(item) => {
            let left = leave_queue(alloc, book, config, item, Verdict::Withdrawn)?;
            Ok(Raw::Moved(Moved {
                reply: PendingReply::Now(Reply::Removed),
                edits: left.edits,
                touched: left.touched,
            }))
        }
        QueuePlace::Outside => match book.approval(change)? {
            Some(_) => Ok(Raw::Moved(Moved {
                reply: PendingReply::Now(Reply::Recorded),
                edits: set_at(Vec::new(alloc), &known, known.stage)?,
                touched: None,
            })),
            None => Ok(Raw::Stands(Reply::Stale)),
        },
    }
}
