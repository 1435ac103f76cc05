//! The last numbers drawn, of a book in memory.
ghost use Rattle.std.specs.Prelude.{◌≡◌};
ghost use Rattle.gate_types.specs.Counters.{capped};
ghost use Rattle.gate_types.specs.Tables.{set_counter, edited_counters};
ghost use Rattle.gate_memory.specs.Drawn.{drawn_of};

use gate_types::edits::{Counter, Edit};
use gate_types::numbers::LAST_NUMBER;
use gate_types::records::Counters;

/// The last number drawn of each kind, as edits set it: it may exceed `LAST_NUMBER`.
#[derive(Clone, Copy)]
pub struct LastNumbers {
    approval: u64,
    build: u64,
    order: u64,
}

impl LastNumbers {
    pub fn from_counters(counters: Counters) -> LastNumbers
        ensures { drawn_of result ≡ counters }
    {
        LastNumbers {
            approval: counters.approval,
            build: counters.build,
            order: counters.order,
        }
    }

    pub fn set(&mut self, counter: Counter, number: u64)
        ensures { drawn_of self.new ≡ set_counter counter number (drawn_of self.old) }
    {
        match counter {
            Counter::Approval => self.approval = number,
            Counter::Build => self.build = number,
            Counter::Order => self.order = number,
        }
    }

    /// One edit. An edit that sets no counter changes nothing.
    pub fn apply(&mut self, edit: &Edit)
        ensures { drawn_of self.new ≡ edited_counters (drawn_of self.old) edit.now }
    {
        match edit {
            Edit::SetCounter { counter, drawn } => self.set(*counter, *drawn),
            _ => {}
        }
    }

    /// The numbers, none above the last that there is.
    pub fn counters(&self) -> Counters
        ensures { result ≡ capped (drawn_of self.now) }
    {
        Counters {
            approval: self.approval.min(LAST_NUMBER),
            build: self.build.min(LAST_NUMBER),
            order: self.order.min(LAST_NUMBER),
        }
    }
}
