//! All rows held in memory. A read returns `None` if the rows that it needs aren't held.
ghost use Rattle.std.specs.Prelude.{◌≡◌, ◌==◌, ◌<◌, ℕ, find, is_some, option_map, IfErr, IfSome, OnErr, OnOk};
ghost use Rattle.gate_types.specs.State.{known_change};
ghost use Rattle.gate_types.specs.Once.{Content};
ghost use Rattle.gate_types.specs.Settings.{Settings};
ghost use Rattle.gate_types.specs.Forms.{IsLawfulContent};
ghost use Rattle.gate_types.specs.Tables.{Leads, approval_of};
ghost use Rattle.gate_book_trait.specs.Faults.{MayAnswer};
ghost use Rattle.gate_book_trait.specs.Kept.{OfHeld, IsApplied};
ghost use Rattle.gate_book_trait.specs.Reading.{IsRead};
ghost use Rattle.gate_book_trait.specs.Reads as read;
ghost use Rattle.gate_live.specs.Live.{fold_live};
ghost use Rattle.gate_live.specs.Held.{AreKeptQueues, IsLiveOf, live_of};
ghost use Rattle.gate_live.specs.HeldBuilds.{knows};
ghost use Rattle.gate_live.specs.HeldChanges.{AreChangesOf, AreKeptChanges, changes_held};
ghost use Rattle.gate_live.specs.Parts.{Agrees, nothing};

use crate::held::Held;
use crate::held_builds::HeldBuilds;
use crate::held_changes::HeldChanges;
use crate::held_plans::HeldPlans;
use crate::items::{apply_to_items, copies, holds_item};
use crate::live_changes::{edit, hold_found, needing_over, prepare};
use gate_book_trait::{Book, BookFault, QueuedItem};
use gate_memory::named;
use gate_types::edits::Edit;
use gate_types::names::Name;
use gate_types::numbers::{ChangeNo, Serial};
use gate_types::records::{Build, Change, Counters, Item, Plan, Ready};
use gate_types::sequence::Sequence;
use std::alloc::Global;
use std::marker::Model;

/// The held rows: the queues and the counters, if they are held; the builds and plans of held items that have been
/// read; and, if changes are held, all ready ones and those of queued items that have been read.
#[derive(Drop)]
pub struct Live {
    held: Option<Held>,
    builds: HeldBuilds,
    plans: HeldPlans,
    changes: Option<HeldChanges>,
}

impl Model for Live {
    ghost use Rattle.std.specs.Prelude.{option_map, IfSome};
    ghost use Rattle.gate_live.specs.Parts.{Parts};

    ghost Value = { Parts };

    ghost use Rattle.gate_live.specs.Held.{live_of, AreKeptQueues};
    ghost use Rattle.gate_live.specs.HeldBuilds.{AreBuildsKept, known_of};
    ghost use Rattle.gate_live.specs.HeldChanges.{AreKeptChanges, changes_held};
    ghost use Rattle.gate_live.specs.HeldPlans.{ArePlansKept, plans_held};

    ghost view = { λ l. record {
      tables = option_map live_of l.held;
      builds = known_of l.builds;
      plans = plans_held l.plans;
      changes = option_map changes_held l.changes;
    } };

    ghost invariant = { λ l. IfSome l.held AreKeptQueues × AreBuildsKept l.builds × ArePlansKept l.plans
        × IfSome l.changes AreKeptChanges };
}

/// Applies the edits to the book below and then, if that succeeds, to the held queues and counters. Fails if the book
/// does or memory is refused; then the held rows stay unchanged.
fn apply_to_both<B: Book>(book: &mut B, held: &mut Held, edits: &[Edit]) -> Result<(), BookFault>
    requires { AreKeptQueues held.old }
    ensures applied { OfHeld B.IsTrusted B.Holds book.old book.new (λ c x. (y : Content) → IsLawfulContent c y →
        Leads c x edits.now y → IsApplied B.Holds B.LeavesOneOf book.old book.new c x edits.now y result) }
    ensures unchanged { OfHeld B.IsTrusted B.Holds book.old book.new (λ c x. OnErr result (B.Holds book.new c x)) }
    ensures trusted { B.IsTrusted book.new → B.IsTrusted book.old }
    ensures fault { IfErr result (MayAnswer B.MayFault) }
    ensures edited { OnOk result (live_of held.new ≡ fold_live (live_of held.old) edits.now) }
    ensures same { OnErr result (live_of held.new ≡ live_of held.old) }
    ensures kept { AreKeptQueues held.new }
{
    held.make_room(edits.len())?;
    book.apply(edits)?;
    held.apply_all(edits);
    Ok(())
}

/// Applies the edits to the book below and then, if that succeeds, to the queues and counters, if they are held. Fails
/// if the book does or memory is refused; then the held rows stay unchanged.
fn apply_to<B: Book>(book: &mut B, held: &mut Option<Held>, edits: &[Edit]) -> Result<(), BookFault>
    requires { IfSome held.old AreKeptQueues }
    ensures applied { OfHeld B.IsTrusted B.Holds book.old book.new (λ c x. (y : Content) → IsLawfulContent c y →
        Leads c x edits.now y → IsApplied B.Holds B.LeavesOneOf book.old book.new c x edits.now y result) }
    ensures unchanged { OfHeld B.IsTrusted B.Holds book.old book.new (λ c x. OnErr result (B.Holds book.new c x)) }
    ensures trusted { B.IsTrusted book.new → B.IsTrusted book.old }
    ensures fault { IfErr result (MayAnswer B.MayFault) }
    ensures edited { OnOk result (option_map live_of held.new
        ≡ option_map (λ l. fold_live l edits.now) (option_map live_of held.old)) }
    ensures same { OnErr result (option_map live_of held.new ≡ option_map live_of held.old) }
    ensures kept { IfSome held.new AreKeptQueues }
{
    match held {
        Some(held) => apply_to_both(book, held, edits),
        None => Ok(book.apply(edits)?),
    }
}

impl Live {
    /// Holds nothing.
    pub(crate) fn new(alloc: Global) -> Live
        ensures nothing { result ≡ nothing }
        ensures agrees { (c : Settings) (x : Content) → Agrees result c x }
    {
        Live::of(alloc, None, None)
    }

    /// Holds these queues and counters, if any, and these changes, if any, but no builds or plans.
    pub(crate) fn of(alloc: Global, held: Option<Held>, changes: Option<HeldChanges>) -> Live
        requires held { IfSome held AreKeptQueues }
        requires changes { IfSome changes AreKeptChanges }
        ensures held { result
            ≡ record nothing { tables = option_map live_of held; changes = option_map changes_held changes } }
        ensures agrees { (c : Settings) (x : Content) → IsLiveOf (option_map live_of held) c x →
            AreChangesOf (option_map changes_held changes) c x → Agrees result c x }
    {
        Live {
            held,
            builds: HeldBuilds::new(alloc),
            plans: HeldPlans::new(alloc),
            changes,
        }
    }

    /// Allocates all memory that the edits need, applies them to the book below and then, if that succeeds, to the held
    /// rows. Fails with the book's fault, or with `NoMemory` if memory is refused; then the held rows stay unchanged.
    pub(crate) fn apply_over<B: Book>(
        &mut self,
        alloc: Global,
        book: &mut B,
        edits: &[Edit],
    ) -> Result<(), BookFault>
        ensures applied { OfHeld B.IsTrusted B.Holds book.old book.new (λ c x. (y : Content) → IsLawfulContent c y →
            Leads c x edits.now y → IsApplied B.Holds B.LeavesOneOf book.old book.new c x edits.now y result) }
        ensures unchanged { OfHeld B.IsTrusted B.Holds book.old book.new (λ c x. OnErr result (B.Holds book.new c x)) }
        ensures trusted { B.IsTrusted book.new → B.IsTrusted book.old }
        ensures fault { IfErr result (MayAnswer B.MayFault) }
        ensures edited { (c : Settings) (x y : Content) → IsLawfulContent c x → Agrees self.old c x →
            Leads c x edits.now y → OnOk result (Agrees self.new c y) }
        ensures same { OnErr result (self.new ≡ self.old) }
    {
        let copies = copies(alloc, edits)?;
        self.builds.make_room(copies.len())?;
        self.plans.make_room(copies.len())?;
        let changes = prepare(alloc, &mut self.changes, edits)?;
        apply_to(book, &mut self.held, edits)?;
        apply_to_items(&mut self.builds, &mut self.plans, &self.held, copies);
        edit(&mut self.changes, &self.held, changes, edits);
        Ok(())
    }

    pub(crate) fn window(&self, queue: &Name) -> Option<Option<u32>>
        ensures { IfSome result (λ found. (c : Settings) (x : Content) → Agrees self.now c x →
            found ≡ read.window_of x.state queue.now) }
    {
        match &self.held {
            Some(held) => Some(named::window(held.table_of(queue))),
            None => None,
        }
    }

    pub(crate) fn item_count(&self, queue: &Name) -> Option<u64>
        ensures { IfSome result (λ found. (c : Settings) (x : Content) → Agrees self.now c x →
            found ≡ read.item_count c x.state queue.now) }
    {
        match &self.held {
            Some(held) => Some(named::item_count(held.table_of(queue))),
            None => None,
        }
    }

    pub(crate) fn landing_count(&self, queue: &Name) -> Option<u64>
        ensures { IfSome result (λ found. (c : Settings) (x : Content) → Agrees self.now c x →
            found ≡ read.landing_count x.state queue.now) }
    {
        match &self.held {
            Some(held) => Some(held.landing_count(queue)),
            None => None,
        }
    }

    pub(crate) fn reports(&self, queue: &Name) -> Option<u64>
        ensures { IfSome result (λ found. (c : Settings) (x : Content) → Agrees self.now c x →
            found ≡ read.reports_in x.state queue.now) }
    {
        match &self.held {
            Some(held) => Some(held.report_count(queue)),
            None => None,
        }
    }

    /// The items of a queue. `None` if the queues aren't held or memory is refused.
    pub(crate) fn items(&self, alloc: Global, queue: &Name) -> Option<Sequence<Item>>
        ensures { IfSome result (λ found. (c : Settings) (x : Content) → Agrees self.now c x →
            found ≡ read.items_in c x.state queue.now) }
    {
        let Some(held) = &self.held else {
            return None;
        };
        match named::items(alloc, held.table_of(queue)) {
            Ok(found) => Some(found),
            Err(_) => None,
        }
    }

    pub(crate) fn item(&self, serial: Serial) -> Option<Option<Item>>
        ensures { IfSome result (λ found. (c : Settings) (x : Content) → Agrees self.now c x →
            found ≡ read.item_at c x.state serial) }
    {
        match &self.held {
            Some(held) => Some(held.item(serial)),
            None => None,
        }
    }

    /// The item of a change, with the name of its queue. `None` if the queues aren't held or memory for the name is
    /// refused; `Some(None)` if no item has the change.
    pub(crate) fn queued(&self, change: ChangeNo) -> Option<Option<QueuedItem>>
        ensures { IfSome result (λ found. (c : Settings) (x : Content) → Agrees self.now c x →
            found ≡ read.queued_of c x.state change) }
    {
        let Some(held) = &self.held else {
            return None;
        };
        match held.queued(change) {
            Ok(found) => Some(found),
            Err(_) => None,
        }
    }

    pub(crate) fn next_item(&self, queue: &Name, above: u64) -> Option<Option<Item>>
        ensures found { IfSome result (λ found. (c : Settings) (x : Content) → Agrees self.now c x →
            found ≡ read.first_above above (read.items_in c x.state queue.now)) }
        ensures rises { IfSome result (λ found. IfSome found (λ i. above < i.serial)) }
    {
        match &self.held {
            Some(held) => Some(named::next_item(held.table_of(queue), above)),
            None => None,
        }
    }

    pub(crate) fn last_item(&self, queue: &Name, below: u64) -> Option<Option<Item>>
        ensures found { IfSome result (λ found. (c : Settings) (x : Content) → Agrees self.now c x →
            found ≡ read.last_item_below below (read.items_in c x.state queue.now)) }
        ensures falls { IfSome result (λ found. IfSome found (λ i. i.serial < below)) }
    {
        match &self.held {
            Some(held) => Some(named::last_item(held.table_of(queue), below)),
            None => None,
        }
    }

    /// The first items of a queue above a serial, at most `most`. `None` if the queues aren't held or memory is
    /// refused.
    pub(crate) fn next_items(
        &self,
        alloc: Global,
        queue: &Name,
        above: u64,
        most: u32,
    ) -> Option<Sequence<Item>>
        ensures { IfSome result (λ found. (c : Settings) (x : Content) → Agrees self.now c x →
            found ≡ read.first_items_above above most (read.items_in c x.state queue.now)) }
    {
        let Some(held) = &self.held else {
            return None;
        };
        match named::next_items(alloc, held.table_of(queue), above, most) {
            Ok(found) => Some(found),
            Err(_) => None,
        }
    }

    pub(crate) fn counters(&self) -> Option<Counters>
        ensures { IfSome result (λ found. (c : Settings) (x : Content) → IsLawfulContent c x → Agrees self.now c x →
            found ≡ x.state.counters) }
    {
        match &self.held {
            Some(held) => Some(held.counters()),
            None => None,
        }
    }

    /// The plan with this serial. `None` if it isn't held or memory is refused.
    pub(crate) fn plan(&self, serial: Serial) -> Option<Plan>
        ensures { IfSome result (λ plan. (c : Settings) (x : Content) → Agrees self.now c x →
            Some plan ≡ read.plan_at x.state serial) }
    {
        self.plans.plan(serial)
    }

    /// Whether the plan with this serial is held.
    pub(crate) fn has_plan(&self, serial: Serial) -> bool
        ensures { result ≡ is_some (find (λ p. p.serial == serial) self.now.plans) }
    {
        self.plans.has(serial)
    }

    /// Holds a copy of the plan that was read under this serial, if its item is held. If memory is refused, nothing
    /// changes.
    pub(crate) fn hold_plan(&mut self, serial: Serial, found: &Option<Plan>)
        ensures { (c : Settings) (x : Content) → found.now ≡ read.plan_at x.state serial →
            Agrees self.old c x → Agrees self.new c x }
    {
        if holds_item(&self.held, serial) {
            self.plans.hold(found);
        }
    }

    /// The plans of some items, item by item. `None` if one of them isn't held or memory is refused.
    pub(crate) fn plans_of(&self, alloc: Global, items: &[Item]) -> Option<Sequence<Plan>>
        ensures { IfSome result (λ found. (c : Settings) (x : Content) → Agrees self.now c x →
            found ≡ read.plans_of_items x.state items.now) }
    {
        self.plans.of_items(alloc, items)
    }

    /// The live builds of an item. `None` if the item isn't known or memory is refused.
    pub(crate) fn live_builds(&self, alloc: Global, serial: Serial) -> Option<Sequence<Build>>
        ensures { IfSome result (λ found. (c : Settings) (x : Content) → Agrees self.now c x →
            found ≡ read.live_builds x.state serial) }
    {
        self.builds.of_item(alloc, serial)
    }

    /// Whether the item with this serial is known: all its live builds are held.
    pub(crate) fn knows(&self, serial: Serial) -> bool
        ensures { result ≡ knows self.now.builds.known serial }
    {
        self.builds.knows(serial)
    }

    /// Holds copies of the live builds that were read under this serial, if their item is held; the item is known from
    /// then on. If memory is refused, nothing changes.
    pub(crate) fn hold_builds(&mut self, alloc: Global, serial: Serial, found: &[Build])
        ensures { (c : Settings) (x : Content) → IsLawfulContent c x → found.now ≡ read.live_builds x.state serial →
            Agrees self.old c x → Agrees self.new c x }
    {
        if holds_item(&self.held, serial) {
            self.builds.hold(alloc, serial, found);
        }
    }

    /// The live builds of some items, item by item. `None` if one of the items isn't known or memory is refused.
    pub(crate) fn builds_of(&self, alloc: Global, items: &[Item]) -> Option<Sequence<Build>>
        ensures { IfSome result (λ found. (c : Settings) (x : Content) → Agrees self.now c x →
            found ≡ read.builds_of_items x.state items.now) }
    {
        self.builds.of_items(alloc, items)
    }

    /// The items of a queue with serials above `above`, up to and including `last`. `None` if the queues aren't held or
    /// memory is refused.
    pub(crate) fn items_between(
        &self,
        alloc: Global,
        queue: &Name,
        above: u64,
        last: Serial,
    ) -> Option<Sequence<Item>>
        ensures { IfSome result (λ found. (c : Settings) (x : Content) → Agrees self.now c x →
            found ≡ read.items_between above last (read.items_in c x.state queue.now)) }
    {
        let Some(held) = &self.held else {
            return None;
        };
        match held.items_between(alloc, queue, above, last) {
            Ok(found) => Some(found),
            Err(_) => None,
        }
    }

    /// A copy of a change. `None` if it isn't held or memory is refused.
    pub(crate) fn change(&self, number: ChangeNo) -> Option<Change>
        ensures { IfSome result (λ change. (c : Settings) (x : Content) → Agrees self.now c x →
            Some change ≡ known_change x.state number) }
    {
        let Some(changes) = &self.changes else {
            return None;
        };
        match changes.change(number) {
            Ok(found) => found,
            Err(_) => None,
        }
    }

    /// Holds a copy of the change that was read, if an item has it and changes are held. If memory is refused, nothing
    /// changes.
    pub(crate) fn hold_change(&mut self, found: &Option<Change>)
        ensures { (number : ℕ) (c : Settings) (x : Content) → found.now ≡ known_change x.state number →
            Agrees self.old c x → Agrees self.new c x }
    {
        hold_found(&mut self.changes, &self.held, found);
    }

    /// The approval number of a change. `None` if the changes aren't held; `Some(None)` if the change isn't ready.
    pub(crate) fn approval(&self, change: ChangeNo) -> Option<Option<u64>>
        ensures { IfSome result (λ found. (c : Settings) (x : Content) → IsLawfulContent c x → Agrees self.now c x →
            found ≡ approval_of x.state.ready change) }
    {
        match &self.changes {
            Some(changes) => Some(changes.approval(change)),
            None => None,
        }
    }

    /// The ready list. `None` if the changes aren't held or memory is refused.
    pub(crate) fn ready(&self, alloc: Global) -> Option<Sequence<Ready>>
        ensures { IfSome result (λ found. (c : Settings) (x : Content) → IsLawfulContent c x → Agrees self.now c x →
            found ≡ x.state.ready) }
    {
        let Some(changes) = &self.changes else {
            return None;
        };
        match changes.ready(alloc) {
            Ok(found) => Some(found),
            Err(_) => None,
        }
    }

    /// The ready changes that need this one. `None` if the changes aren't held or memory is refused.
    pub(crate) fn ready_needing(&self, alloc: Global, change: ChangeNo) -> Option<Sequence<Ready>>
        ensures { IfSome result (λ found. (c : Settings) (x : Content) → IsLawfulContent c x → Agrees self.now c x →
            found ≡ read.ready_needing x.state change) }
    {
        let Some(changes) = &self.changes else {
            return None;
        };
        match changes.ready_needing(alloc, change) {
            Ok(found) => Some(found),
            Err(_) => None,
        }
    }

    /// The items of a queue above a serial whose changes need this one. Holds the changes that it reads from the book.
    /// Fails with the book's fault, or with `NoMemory` if memory is refused.
    pub(crate) fn needing_over<B: Book>(
        &mut self,
        alloc: Global,
        book: &mut B,
        queue: &Name,
        change: ChangeNo,
        above: u64,
    ) -> Result<Sequence<Item>, BookFault>
        ensures reads { IsRead B.IsTrusted B.Holds B.LeavesOneOf (MayAnswer B.MayFault) book.old book.new (λ c x.
            Agrees self.old c x →
            read.Answers (read.items_needing x.state change above (read.items_in c x.state queue.now)) result) result }
        ensures agrees { OfHeld B.IsTrusted B.Holds book.old book.new (λ c x.
            Agrees self.old c x → Agrees self.new c x) }
    {
        needing_over(
            alloc,
            book,
            &self.held,
            &mut self.changes,
            queue,
            change,
            above,
        )
    }
}
