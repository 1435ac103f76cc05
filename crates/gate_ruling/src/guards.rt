//! The lines that several kinds of deliveries begin with: what a delivery has to name before anything else is asked.
ghost use Rattle.std.specs.Prelude.{IfOk};
ghost use Rattle.gate_book_trait.specs.Faults.{MayAnswer};
ghost use Rattle.gate_book_trait.specs.Reading.{IsRead, IsReadUnder};
ghost use Rattle.gate_ruling.specs.Guards.{IsLatest, IsOrdered};

use gate_book_trait::{Book, BookFault};
use gate_reads::{Raw, ShownItem, shown_order};
use gate_types::config::Config;
use gate_types::deliveries::{Refusal, Reply};
use gate_types::numbers::{ChangeNo, Revision, Serial};
use gate_types::records::Change;
use std::alloc::Global;

/// The change of this number, if this is its latest revision; else what a delivery that names it comes to.
pub(crate) fn latest<B: Book>(
    book: &mut B,
    change: ChangeNo,
    revision: Revision,
) -> Result<Result<Change, Raw>, BookFault>
    ensures { IsRead B.IsTrusted B.Holds B.LeavesOneOf (MayAnswer B.MayFault) book.old book.new (λ c x.
        IfOk result (IsLatest c x change revision)) result }
{
    let Some(known) = book.change(change)? else {
        return Ok(Err(Raw::Refused(Refusal::UnknownChange)));
    };
    if known.revision.get() < revision.get() {
        return Ok(Err(Raw::Refused(Refusal::UnknownRevision)));
    }
    if revision.get() < known.revision.get() {
        return Ok(Err(Raw::Stands(Reply::Stale)));
    }
    Ok(Ok(known))
}

/// The item whose order is shown under this number; else what a delivery that names it comes to.
pub(crate) fn ordered<B: Book>(
    alloc: Global,
    book: &mut B,
    config: &Config,
    order: Serial,
) -> Result<Result<ShownItem, Raw>, BookFault>
    ensures { IsReadUnder B.IsTrusted B.Holds B.LeavesOneOf (MayAnswer B.MayFault) book.old book.new config.now (λ x.
        IfOk result (IsOrdered config.now x order)) result }
{
    match shown_order(alloc, book, config, order)? {
        Some(shown) => Ok(Ok(shown)),
        None => Ok(Err(Raw::Refused(Refusal::NoOrder))),
    }
}
