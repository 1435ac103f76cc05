//! Admission behind a delivery.
ghost use Rattle.std.specs.Prelude.{◌≡◌, false, true, IfOk, MatchOption};
ghost use Rattle.gate_types.specs.declared.deliveries.Reply.{Reply as ReplyOf};
ghost use Rattle.gate_types.specs.State.{State};
ghost use Rattle.gate_types.specs.Settle.{settle};
ghost use Rattle.gate_types.specs.Step.{accepted, is_exhausted, raw_step};
ghost use Rattle.gate_types.specs.Lawful.{IsSound};
ghost use Rattle.gate_types.specs.Tables.{Leads};
ghost use Rattle.gate_types.specs.declared.deliveries.Delivery.{Delivery as DeliveryOf};
ghost use Rattle.gate_book_trait.specs.Faults.{MayAnswer};
ghost use Rattle.gate_book_trait.specs.Reading.{IsReadUnder};
ghost use Rattle.gate_reads.specs.Moves.{in_state, swept};

use gate_admission::admitting;
use gate_book_trait::{Book, BookFault};
use gate_laws::rest;
use gate_types::config::Config;
use gate_types::edits::Edit;
use std::alloc::Global;

/// The edits so far, which settle what a delivery left but for admission, and behind them those that let ready
/// changes enter; none where a counter would pass 10^15. Before the delivery nobody might enter, so whoever may
/// now may by these edits.
pub(crate) fn admitted<B: Book>(
    alloc: Global,
    book: &mut B,
    config: &Config,
    edits: Vec<Edit>,
) -> Result<Option<Vec<Edit>>, BookFault>
    ensures { IsReadUnder B.IsTrusted B.Holds B.LeavesOneOf (MayAnswer B.MayFault) book.old book.new config.now (λ x.
        (d : DeliveryOf) (r : ReplyOf) (t : State) →
        raw_step config.now x.state d ≡ accepted r t → IsSound config.now (swept config.now t) →
        Leads config.now x edits.items (in_state x (swept config.now t)) →
        IfOk result (λ found. MatchOption found (is_exhausted (settle config.now t) ≡ true)
        (λ all. Leads config.now x all.items (in_state x (settle config.now t)) ×
        (is_exhausted (settle config.now t) ≡ false)))) result }
{
    config.show_sound();
    rest::settled_is_at_rest();
    admitting(alloc, book, config, edits)
}
