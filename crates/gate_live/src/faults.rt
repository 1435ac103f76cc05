//! Drops all held rows after a fault of the store below.
ghost use Rattle.std.specs.Prelude.{◌≡◌, true, IfErr};
ghost use Rattle.gate_types.specs.Once.{Content};
ghost use Rattle.gate_types.specs.Settings.{Settings};
ghost use Rattle.gate_live.specs.Parts.{Agrees, nothing};

use crate::live::Live;
use gate_archive::FeedFault;
use gate_book_trait::{BookFault, HistoryFault};
use std::alloc::Global;

/// A fault that the book below returns.
pub(crate) trait FaultBelow {
    ghost use Rattle.std.specs.Prelude.{◌≡◌, Bool};

    // Whether the fault may come from the book's store.
    ghost is_of_store: { Self → Bool };

    fn is_of_store(&self) -> bool
        ensures { result ≡ is_of_store self.now };
}

impl FaultBelow for BookFault {
    ghost use Rattle.gate_live.specs.Faults as faults;

    ghost is_of_store = { faults.is_of_store };

    fn is_of_store(&self) -> bool {
        match self {
            BookFault::Store => true,
            BookFault::NoMemory | BookFault::Damaged => false,
        }
    }
}

impl FaultBelow for HistoryFault {
    ghost use Rattle.gate_live.specs.Faults as faults;

    ghost is_of_store = { faults.history_may_be_of_store };

    fn is_of_store(&self) -> bool {
        match self {
            HistoryFault::Unavailable | HistoryFault::Broken => true,
            HistoryFault::NoQueue | HistoryFault::Write => false,
        }
    }
}

impl FaultBelow for FeedFault {
    ghost use Rattle.gate_live.specs.Faults as faults;

    ghost is_of_store = { faults.feed_may_be_of_store };

    fn is_of_store(&self) -> bool {
        match self {
            FeedFault::Unavailable | FeedFault::Broken => true,
            FeedFault::NoDelivery | FeedFault::Write => false,
        }
    }
}

/// Drops all held rows if this fault may come from the store.
fn heed<F: FaultBelow>(live: &mut Live, alloc: Global, fault: &F)
    ensures forgets { F.is_of_store fault.now ≡ true → live.new ≡ nothing }
    ensures agrees { (c : Settings) (x : Content) → Agrees live.old c x → Agrees live.new c x }
{
    if fault.is_of_store() {
        *live = Live::new(alloc);
    }
}

/// Passes on an answer of the book below. If the answer is a fault that may come from the store, drops all held rows
/// first, since the store may no longer have them.
pub(crate) fn told<T, F: FaultBelow>(
    live: &mut Live,
    alloc: Global,
    answer: Result<T, F>,
) -> Result<T, F>
    ensures same { result ≡ answer }
    ensures forgets { IfErr result (λ f. F.is_of_store f ≡ true → live.new ≡ nothing) }
    ensures agrees { (c : Settings) (x : Content) → Agrees live.old c x → Agrees live.new c x }
{
    if let Err(fault) = &answer {
        heed(live, alloc, fault);
    }
    answer
}
