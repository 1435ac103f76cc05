//! The edits that settle the queue of a touched item.
ghost use Rattle.std.specs.Prelude.{◌≡◌, ◌++◌, List, IfOk, false};
ghost use Rattle.gate_types.specs.State.{State};
ghost use Rattle.gate_types.specs.Step.{accepted, raw_step};
ghost use Rattle.gate_types.specs.declared.deliveries.Delivery.{Delivery};
ghost use Rattle.gate_types.specs.declared.deliveries.Reply.{Reply};
ghost use Rattle.gate_types.specs.declared.edits.Edit.{Edit as EditOf};
ghost use Rattle.gate_types.specs.Tables.{Leads};
ghost use Rattle.gate_laws.specs.Touch.{is_stale};
ghost use Rattle.gate_book_trait.specs.Reading.{IsReadUnder};
ghost use Rattle.gate_reads.specs.Moves.{Moves, in_state, swept};
ghost use Rattle.gate_reads.specs.Touches.{Touches};
ghost use Rattle.gate_settling.specs.Touching.{Touching, AreToldOf};
ghost use Rattle.gate_book_trait.specs.Faults.{MayAnswer};

use crate::begun::begun;
use crate::walking::walked;
use gate_book_trait::{Book, BookFault};
use gate_reads::TouchedItem;
use gate_types::config::Config;
use gate_types::edits::Edit;
use std::alloc::Global;

/// The edits that settle the queue of the touched item, behind those that the delivery makes: all of them lead to the
/// state after a rebase and a sweep of all queues. This only reads: the rows that the walk asks for, one after another.
pub fn settling<B: Book>(
    alloc: Global,
    book: &mut B,
    config: &Config,
    touched: &Option<TouchedItem>,
) -> Result<Vec<Edit>, BookFault>
    ensures { IsReadUnder B.IsTrusted B.Holds B.LeavesOneOf (MayAnswer B.MayFault) book.old book.new config.now (λ x.
        (d : Delivery) (r : Reply)
        (t : State) (raw : List EditOf) → raw_step config.now x.state d ≡ accepted r t → is_stale r ≡ false →
        Touches config.now x.state d touched.now → Moves x raw t →
        IfOk result (λ edits. Leads config.now x (raw ++ edits.items) (in_state x (swept config.now t)))) result }
{
    config.show_sound();
    match touched {
        Some(touched) => edits_of_walk(alloc, book, config, touched),
        None => Ok(Vec::new(alloc)),
    }
}

/// The edits of the walk behind a touched item; none where its queue isn't there.
fn edits_of_walk<B: Book>(
    alloc: Global,
    book: &mut B,
    config: &Config,
    touched: &TouchedItem,
) -> Result<Vec<Edit>, BookFault>
    ensures { IsReadUnder B.IsTrusted B.Holds B.LeavesOneOf (MayAnswer B.MayFault) book.old book.new config.now (λ x.
        (h : Touching config.now x touched.now) → IfOk result (λ edits. AreToldOf h edits.items)) result }
{
    match begun(alloc, config, touched)? {
        Some(walk) => Ok(walked(alloc, book, config, touched, walk)?.into_edits()),
        None => Ok(Vec::new(alloc)),
    }
}
