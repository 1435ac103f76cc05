//! An item with all that its rules ask for.
ghost use Rattle.std.specs.Prelude.{◌≡◌, true};
ghost use Rattle.gate_types.specs.State.{has_change};
ghost use Rattle.gate_types.specs.Slot.{are_met_by};
ghost use Rattle.gate_queue.specs.WholeQueue.Shared.{are_below};

use gate_types::config::Job;
use gate_types::numbers::{ChangeNo, Revision, Serial};
use gate_types::records::{Item, Landing, Need};
use std::marker::Model;

/// An item without what is worked out of it: what is ahead, and whether it fails.
#[derive(Clone, Copy, PartialEq, Eq)]
pub struct BareItem {
    pub serial: Serial,
    pub change: ChangeNo,
    pub revision: Revision,
}

impl Model for BareItem {
    ghost use Rattle.gate_types.specs.State.{Item};

    ghost Value = { Item };

    ghost view = { λ i. record { serial = i.serial; change = i.change; revision = i.revision } };

    ghost inverse = { λ i. record { serial = i.serial; change = i.change; revision = i.revision } };
}

impl BareItem {
    ghost use Rattle.gate_types.specs.Rows.{item_of};

    pub(crate) fn of(item: &Item) -> Self
        ensures { result ≡ item_of item.now }
    {
        BareItem {
            serial: item.serial,
            change: item.change,
            revision: item.revision,
        }
    }
}

/// An item, the landings of its queue, the items before it that aren't failing, the needs of its
/// change, the jobs of its plan, and whether one failure ends them all. The first `shared` landings have lower serials.
#[derive(Clone, Copy)]
pub struct ItemContext<'a> {
    pub landings: &'a [Landing],
    pub ahead: &'a [BareItem],
    pub item: BareItem,
    pub needs: &'a [Need],
    pub jobs: &'a [Job],
    pub fast: bool,
    pub shared: usize,
    ghost shared_is_below: { are_below shared landings.now item.serial ≡ true },
}

/// Whether a change is that of one of some items.
fn has_change(items: &[BareItem], change: ChangeNo) -> bool
    ensures { result ≡ has_change items.now change }
{
    items.iter().any(|item| item.change == change)
}

/// Whether each need has landed or is one of some items.
pub(crate) fn are_met_by(items: &[BareItem], needs: &[Need]) -> bool
    ensures { result ≡ are_met_by items.now needs.now }
{
    needs
        .iter()
        .all(|need| need.landed || has_change(items, need.change))
}
