//! What a delivery comes to, before settling.
ghost use Rattle.std.specs.Prelude.{IfOk, IfErr};
ghost use Rattle.gate_book_trait.specs.Faults.{MayAnswer};
ghost use Rattle.gate_book_trait.specs.Kept.{OfHeldUnder};
ghost use Rattle.gate_book_trait.specs.Reading.{IsReadUnder};
ghost use Rattle.gate_reads.specs.Raw.{IsRaw};
ghost use Rattle.gate_ruling.specs.Faults.{MayRule};

use crate::kinds::approved::approved;
use crate::kinds::closed::closed;
use crate::kinds::landed::landed;
use crate::kinds::refused::refused;
use crate::kinds::result::result;
use crate::kinds::revision::revision;
use crate::kinds::take::take;
use crate::kinds::withdrawn::withdrawn;
use gate_book_trait::{Book, BookFault};
use gate_reads::Raw;
use gate_types::config::Config;
use gate_types::deliveries::Delivery;
use std::alloc::Global;

/// What a delivery under a new id comes to, before settling. This only reads.
pub fn raw<B: Book>(
    alloc: Global,
    book: &mut B,
    config: &Config,
    delivery: &Delivery,
) -> Result<Raw, BookFault>
    ensures reads { IsReadUnder B.IsTrusted B.Holds B.LeavesOneOf (MayRule B.MayFault) book.old book.new config.now
        (λ x. IfOk result (IsRaw config.now x delivery.now)) result }
    ensures undamaged { OfHeldUnder B.IsTrusted B.Holds book.old book.new config.now (λ x.
        IfErr result (MayAnswer B.MayFault)) }
{
    match delivery {
        Delivery::Revision {
            change,
            project,
            revision: number,
            message,
        } => revision(alloc, book, config, *change, project, *number, message),
        Delivery::Approved { change, revision } => {
            approved(alloc, book, config, *change, *revision)
        }
        Delivery::Withdrawn { change, revision } => {
            withdrawn(alloc, book, config, *change, *revision)
        }
        Delivery::Closed { change, revision } => closed(alloc, book, config, *change, *revision),
        Delivery::Landed { order } => landed(alloc, book, config, *order),
        Delivery::Refused { order } => refused(alloc, book, config, *order),
        Delivery::Take { worker } => take(alloc, book, config, worker),
        Delivery::Result { build, ending } => result(alloc, book, config, *build, *ending),
    }
}
