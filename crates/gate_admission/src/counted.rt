//! The counters, as they are after edits.
ghost use Rattle.std.specs.Prelude.{◌≡◌, ◌||◌, nat_lt, fold, IfOk};
ghost use Rattle.std.specs.List.{list_any};
ghost use Rattle.gate_types.specs.Counters.{Drawn, last_number};
ghost use Rattle.gate_types.specs.Tables.{edited_counters};
ghost use Rattle.gate_types.specs.State.{State};
ghost use Rattle.gate_book_trait.specs.Faults.{MayAnswer};
ghost use Rattle.gate_book_trait.specs.Reading.{IsRead};
ghost use Rattle.gate_admission.specs.Led.{IsLed};
ghost use Rattle.gate_admission.specs.Counted as counting;

use gate_book_trait::{Book, BookFault};
use gate_types::edits::{Counter, Edit};
use gate_types::numbers::LAST_NUMBER;
use std::marker::Model;

/// The last number drawn of each kind, which may be past 10^15.
#[derive(Clone, Copy)]
pub struct LastDrawn {
    pub approval: u64,
    pub build: u64,
    pub order: u64,
}

impl Model for LastDrawn {
    ghost use Rattle.gate_types.specs.Counters.{Drawn};

    ghost Value = { Drawn };

    ghost view = { λ d. record { approval = d.approval; build = d.build; order = d.order } };

    ghost inverse = { λ d. record { approval = d.approval; build = d.build; order = d.order } };
}

fn after(drawn: LastDrawn, edit: &Edit) -> LastDrawn
    ensures { result ≡ edited_counters drawn edit.now }
{
    match edit {
        Edit::SetCounter {
            counter,
            drawn: number,
        } => match counter {
            Counter::Approval => LastDrawn {
                approval: *number,
                ..drawn
            },
            Counter::Build => LastDrawn {
                build: *number,
                ..drawn
            },
            Counter::Order => LastDrawn {
                order: *number,
                ..drawn
            },
        },
        _ => drawn,
    }
}

fn after_all(drawn: LastDrawn, edits: &[Edit]) -> LastDrawn
    ensures { result ≡ fold edited_counters drawn edits.now }
{
    let mut drawn = drawn;
    for edit in edits {
        drawn = after(drawn, edit);
    }
    drawn
}

/// The last number drawn of each kind, after the edits.
pub(crate) fn last_drawn<B: Book>(book: &mut B, edits: &[Edit]) -> Result<LastDrawn, BookFault>
    ensures { IsRead B.IsTrusted B.Holds B.LeavesOneOf (MayAnswer B.MayFault) book.old book.new (λ c x.
        (v : State) → IsLed c x edits.now v → IfOk result (λ drawn. drawn ≡ v.counters)) result }
{
    let counters = book.counters()?;
    let drawn = LastDrawn {
        approval: counters.approval,
        build: counters.build,
        order: counters.order,
    };
    Ok(after_all(drawn, edits))
}

/// Whether one of them is past 10^15.
pub(crate) fn is_past(drawn: LastDrawn) -> bool
    ensures { result ≡ (nat_lt last_number drawn.approval || nat_lt last_number drawn.build ||
        nat_lt last_number drawn.order) }
{
    drawn.approval > LAST_NUMBER || drawn.build > LAST_NUMBER || drawn.order > LAST_NUMBER
}

fn passes(edit: &Edit) -> bool
    ensures { result ≡ counting.sets_past edit.now }
{
    match edit {
        Edit::SetCounter { drawn, .. } => *drawn > LAST_NUMBER,
        _ => false,
    }
}

/// Whether an edit sets a counter past 10^15.
pub(crate) fn sets_past(edits: &[Edit]) -> bool
    ensures { result ≡ list_any counting.sets_past edits.now }
{
    edits.iter().any(|edit| passes(edit))
}
