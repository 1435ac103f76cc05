//! What becomes of a delivery under a new id, before anything changes.
ghost use Rattle.std.specs.Prelude.{◌≡◌, ◌++◌, IfOk, IfErr};
ghost use Rattle.gate_types.specs.declared.deliveries.Delivery.{Delivery as DeliveryOf};
ghost use Rattle.gate_book_trait.specs.Faults.{MayAnswer};
ghost use Rattle.gate_book_trait.specs.Kept.{OfHeldUnder};
ghost use Rattle.gate_book_trait.specs.Reading.{IsReadUnder};
ghost use Rattle.gate_reads.specs.Raw.{IsMoved};
ghost use Rattle.gate_ruling.specs.Faults.{MayRule};
ghost use Rattle.gate_core.specs.Ruled.{IsRuled};

use crate::admitted::admitted;
use crate::speaking::speak;
use crate::thinned::{newly_ready, thinned};
use gate_book_trait::{Book, BookFault};
use gate_laws::{runs, settling as settling_laws};
use gate_reads::{Moved, Raw};
use gate_ruling::raw;
use gate_settling::settling;
use gate_types::config::Config;
use gate_types::deliveries::{Delivery, Refusal, Reply};
use gate_types::edits::Edit;
use gate_types::names::NoMemory;
use std::alloc::Global;

/// A delivery is refused; or it is accepted, with its reply, and these edits lead to its state.
#[derive(Drop)]
pub enum Ruled {
    Refused(Refusal),
    Accepted(Reply, Vec<Edit>),
}

/// Rules on a delivery under a new id. This only reads.
pub(crate) fn rule<B: Book>(
    alloc: Global,
    book: &mut B,
    config: &Config,
    delivery: &Delivery,
) -> Result<Ruled, BookFault>
    ensures reads { IsReadUnder B.IsTrusted B.Holds B.LeavesOneOf (MayRule B.MayFault) book.old book.new config.now
        (λ x. IfOk result (IsRuled config.now x delivery.now)) result }
    ensures undamaged { OfHeldUnder B.IsTrusted B.Holds book.old book.new config.now (λ x.
        IfErr result (MayAnswer B.MayFault)) }
{
    match raw(alloc, book, config, delivery)? {
        Raw::Refused(refusal) => Ok(Ruled::Refused(refusal)),
        Raw::Stands(reply) => Ok(Ruled::Accepted(reply, Vec::new(alloc))),
        Raw::Moved(moved) => settle(alloc, book, config, moved),
    }
}

/// Settles what was moved, and says the reply.
fn settle<B: Book>(
    alloc: Global,
    book: &mut B,
    config: &Config,
    moved: Moved,
) -> Result<Ruled, BookFault>
    ensures { IsReadUnder B.IsTrusted B.Holds B.LeavesOneOf (MayAnswer B.MayFault) book.old book.new config.now (λ x.
        (d : DeliveryOf) → IsMoved config.now x d moved → IfOk result (IsRuled config.now x d)) result }
{
    config.show_sound();
    runs::raw_step_is_sound();
    settling_laws::rebase_is_sound();
    settling_laws::sweep_is_sound();
    settling_laws::admit_is_sound();
    let Moved {
        reply: pending,
        edits,
        touched,
    } = moved;
    let settled = joined(edits, settling(alloc, book, config, &touched)?)?;
    match admitted(alloc, book, config, settled)? {
        Some(all) => {
            let ready = newly_ready(&pending, &all);
            let reply = speak(book, config, pending, &all)?;
            Ok(Ruled::Accepted(reply, thinned(alloc, &ready, all)?))
        }
        None => Ok(Ruled::Refused(Refusal::Exhausted)),
    }
}

/// The edits, and then these.
fn joined(edits: Vec<Edit>, more: Vec<Edit>) -> Result<Vec<Edit>, NoMemory>
    ensures { IfOk result (λ all. all.items ≡ edits.items ++ more.items) }
{
    let mut all = edits;
    let mut more = more;
    all.append(&mut more)?;
    Ok(all)
}
