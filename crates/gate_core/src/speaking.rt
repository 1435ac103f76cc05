//! The reply to an accepted delivery.
ghost use Rattle.std.specs.Prelude.{◌≡◌, IfOk};
ghost use Rattle.gate_types.specs.State.{State};
ghost use Rattle.gate_types.specs.Step.{approval_reply};
ghost use Rattle.gate_types.specs.Lawful.{IsSound};
ghost use Rattle.gate_types.specs.Tables.{Leads};
ghost use Rattle.gate_book_trait.specs.Faults.{MayAnswer};
ghost use Rattle.gate_book_trait.specs.Reading.{IsReadUnder};
ghost use Rattle.gate_reads.specs.Moves.{in_state};
ghost use Rattle.gate_reads.specs.Raw.{reply_by};

use gate_admission::{item_in, project_after};
use gate_book_trait::{Book, BookFault};
use gate_reads::PendingReply;
use gate_types::config::Config;
use gate_types::deliveries::Reply;
use gate_types::edits::Edit;
use gate_types::numbers::ChangeNo;

/// The reply to an approval: the place of the change once the edits are applied.
fn place_of<B: Book>(
    book: &mut B,
    config: &Config,
    edits: &[Edit],
    change: ChangeNo,
) -> Result<Reply, BookFault>
    ensures { IsReadUnder B.IsTrusted B.Holds B.LeavesOneOf (MayAnswer B.MayFault) book.old book.new config.now (λ x.
        (u : State) → IsSound config.now u → Leads config.now x edits.now (in_state x u) →
        IfOk result (λ reply. reply ≡ approval_reply change u)) result }
{
    config.show_sound();
    let Some(project) = project_after(book, config, edits, change)? else {
        return Ok(Reply::Waiting);
    };
    match item_in(book, edits, &project.queue, change)? {
        Some(item) => Ok(Reply::Queued(item.serial)),
        None => Ok(Reply::Waiting),
    }
}

/// The reply; a change's place is read off the edits that lead to the settled state.
pub(crate) fn speak<B: Book>(
    book: &mut B,
    config: &Config,
    pending: PendingReply,
    edits: &[Edit],
) -> Result<Reply, BookFault>
    ensures { IsReadUnder B.IsTrusted B.Holds B.LeavesOneOf (MayAnswer B.MayFault) book.old book.new config.now (λ x.
        (u : State) → IsSound config.now u → Leads config.now x edits.now (in_state x u) →
        IfOk result (λ reply. reply ≡ reply_by pending u)) result }
{
    match pending {
        PendingReply::Now(reply) => Ok(reply),
        PendingReply::PlaceOf(change) => place_of(book, config, edits, change),
    }
}
