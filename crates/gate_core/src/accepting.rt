//! An accepted delivery: its reply is kept, and all edits are applied at once.
ghost use Rattle.std.specs.Prelude.{IfOk, IfErr, OnErr};
ghost use Rattle.gate_types.specs.State.{State};
ghost use Rattle.gate_types.specs.Forms.{IsLawfulContent};
ghost use Rattle.gate_types.specs.Tables.{Leads};
ghost use Rattle.gate_book_trait.specs.Faults.{MayAnswer};
ghost use Rattle.gate_book_trait.specs.Kept.{OfHeld};
ghost use Rattle.gate_reads.specs.Moves.{in_state};
ghost use Rattle.gate_core.specs.Ruled.{kept_on, IsAccepted, IsSpared};

use gate_book_trait::{Book, BookFault};
use gate_types::deliveries::{Answer, Reply};
use gate_types::edits::Edit;
use gate_types::lists::with_one;
use gate_types::names::Text;
use gate_types::records::{Id, Kept};
use gate_wire::write_reply;
use std::alloc::Global;

/// Keeps the reply, and applies all edits at once. No memory is taken once they are applied.
pub(crate) fn accept<B: Book>(
    alloc: Global,
    book: &mut B,
    id: Id,
    said: Text,
    reply: &Reply,
    edits: Vec<Edit>,
) -> Result<Answer, BookFault>
    ensures ok { OfHeld B.IsTrusted B.Holds book.old book.new (λ c x. (u : State) →
        IsLawfulContent c (kept_on x u id said reply.now) → Leads c x edits.items (in_state x u) →
        IfOk result (λ a. IsAccepted (kept_on x u id said reply.now) reply.now a (B.Holds book.new c)
        (B.LeavesOneOf book.new c))) }
    ensures err { OfHeld B.IsTrusted B.Holds book.old book.new (λ c x. (u : State) →
        IsLawfulContent c (kept_on x u id said reply.now) → Leads c x edits.items (in_state x u) →
        OnErr result (IsSpared x (kept_on x u id said reply.now) (B.Holds book.new c)
        (B.LeavesOneOf book.old c) (B.LeavesOneOf book.new c))) }
    ensures trusted { B.IsTrusted book.new → B.IsTrusted book.old }
    ensures fault { IfErr result (MayAnswer B.MayFault) }
{
    let text = Text::new(write_reply(alloc, reply)?);
    let reply = text.copy()?;
    let edits = with_one(edits, Edit::Keep(Kept { id, said, reply }))?;
    book.apply(&edits)?;
    Ok(Answer::Said(text))
}
