//! What keeps a gate's content.
use crate::fault::{BookFault, HistoryFault};
use crate::rows::QueuedItem;
use gate_types::edits::Edit;
use gate_types::names::Name;
use gate_types::numbers::{BuildNo, ChangeNo, Serial};
use gate_types::records::{Build, Change, Counters, Id, Item, Kept, Plan, Ready};
use gate_types::sequence::Sequence;
use gate_types::tap::Tap;
use std::io::Write;

/// A book holds a content: the state of a gate, and what is kept of its deliveries. It is asked by
/// key, and changed by edits, all or none. After a fault it holds what it held.
pub trait Book {
    ghost use Rattle.std.specs.Prelude.{◌≡◌, ◌<◌, false, [], ◌∷◌, ◌++◌, List, IfOk, IfErr, IfSome, OnErr};
    ghost use Rattle.gate_types.specs.Settings.{Settings};
    ghost use Rattle.gate_types.specs.State.{known_change};
    ghost use Rattle.gate_types.specs.Step.{build_of};
    ghost use Rattle.gate_types.specs.Once.{Content, kept_for};
    ghost use Rattle.gate_types.specs.Forms.{IsLawfulContent};
    ghost use Rattle.gate_types.specs.Tables.{Leads, approval_of};
    ghost use Rattle.gate_book_trait.specs.declared.fault.BookFault.{BookFault};
    ghost use Rattle.gate_book_trait.specs.Reads as read;
    ghost use Rattle.gate_types.specs.Tap.{has_failed};
    ghost use Rattle.gate_book_trait.specs.Kept.{OfHeld, IsKept, IsApplied};
    ghost use Rattle.gate_book_trait.specs.Reading.{IsRead};
    ghost use Rattle.gate_book_trait.specs.Writes.{WritesHistory, StopsHistoryWriter};

    // While it answers at all, it answers by this content, under these settings.
    ghost Holds: { Self → Settings → Content → Type 0 };

    // So far the store has returned what was written.
    ghost IsTrusted: { Self → Type 0 };

    // Whatever a crash leaves now stands for one of these contents.
    ghost LeavesOneOf: { Self → Settings → List Content → Type 0 };

    // The faults that it may answer.
    ghost MayFault: { BookFault → Type 0 };

    /// What is kept under an id.
    fn delivery(&mut self, id: &Id) -> Result<Option<Kept>, BookFault>
        ensures { IsRead IsTrusted Holds LeavesOneOf MayFault self.old self.new (λ c x.
            read.Answers (kept_for id.now x.kept) result) result };

    /// What is known of a change.
    fn change(&mut self, number: ChangeNo) -> Result<Option<Change>, BookFault>
        ensures { IsRead IsTrusted Holds LeavesOneOf MayFault self.old self.new (λ c x.
            read.Answers (known_change x.state number) result) result };

    /// How many items of a queue may be tested at once, 0 where all may; None where there is no such queue.
    fn window(&mut self, queue: &Name) -> Result<Option<u32>, BookFault>
        ensures { IsRead IsTrusted Holds LeavesOneOf MayFault self.old self.new (λ c x.
            read.Answers (read.window_of x.state queue.now) result) result };

    /// How many items a queue has, 0 where there is no such queue.
    fn item_count(&mut self, queue: &Name) -> Result<u64, BookFault>
        ensures { IsRead IsTrusted Holds LeavesOneOf MayFault self.old self.new (λ c x.
            read.Answers (read.item_count c x.state queue.now) result) result };

    /// How many landings a queue has, 0 where there is no such queue.
    fn landing_count(&mut self, queue: &Name) -> Result<u64, BookFault>
        ensures { IsRead IsTrusted Holds LeavesOneOf MayFault self.old self.new (λ c x.
            read.Answers (read.landing_count x.state queue.now) result) result };

    /// How many reports a queue has made, 0 where there is no such queue.
    fn reports(&mut self, queue: &Name) -> Result<u64, BookFault>
        ensures { IsRead IsTrusted Holds LeavesOneOf MayFault self.old self.new (λ c x.
            read.Answers (read.reports_in x.state queue.now) result) result };

    /// The number of a queue's landings with a lower serial.
    fn landing_before(&mut self, queue: &Name, serial: Serial) -> Result<u64, BookFault>
        ensures { IsRead IsTrusted Holds LeavesOneOf MayFault self.old self.new (λ c x.
            read.Answers (read.landings_before x.state queue.now serial) result) result };

    /// The items of a queue, front to back.
    fn items(&mut self, queue: &Name) -> Result<Sequence<Item>, BookFault>
        ensures { IsRead IsTrusted Holds LeavesOneOf MayFault self.old self.new (λ c x.
            read.Answers (read.items_in c x.state queue.now) result) result };

    /// The item of a serial.
    fn item(&mut self, serial: Serial) -> Result<Option<Item>, BookFault>
        ensures { IsRead IsTrusted Holds LeavesOneOf MayFault self.old self.new (λ c x.
            read.Answers (read.item_at c x.state serial) result) result };

    /// The item of a change, and its queue.
    fn queued(&mut self, change: ChangeNo) -> Result<Option<QueuedItem>, BookFault>
        ensures { IsRead IsTrusted Holds LeavesOneOf MayFault self.old self.new (λ c x.
            read.Answers (read.queued_of c x.state change) result) result };

    /// The first item of a queue with a higher serial than `above`.
    fn next_item(&mut self, queue: &Name, above: u64) -> Result<Option<Item>, BookFault>
        ensures reads { IsRead IsTrusted Holds LeavesOneOf MayFault self.old self.new (λ c x.
            read.Answers (read.first_above above (read.items_in c x.state queue.now)) result) result }
        ensures rises { IfOk result (λ found. IfSome found (λ i. above < i.serial)) };

    /// The last item of a queue with a lower serial than `below`.
    fn last_item(&mut self, queue: &Name, below: u64) -> Result<Option<Item>, BookFault>
        ensures reads { IsRead IsTrusted Holds LeavesOneOf MayFault self.old self.new (λ c x.
            read.Answers (read.last_item_below below (read.items_in c x.state queue.now)) result) result }
        ensures falls { IfOk result (λ found. IfSome found (λ i. i.serial < below)) };

    /// The first items of a queue with higher serials than `above`, front to back, no more than `most`.
    fn next_items(
        &mut self,
        queue: &Name,
        above: u64,
        most: u32,
    ) -> Result<Sequence<Item>, BookFault>
        ensures { IsRead IsTrusted Holds LeavesOneOf MayFault self.old self.new (λ c x.
            read.Answers (read.first_items_above above most (read.items_in c x.state queue.now)) result) result };

    /// The items of a queue with higher serials than `above` whose changes need this one, front to back.
    fn needing(
        &mut self,
        queue: &Name,
        change: ChangeNo,
        above: u64,
    ) -> Result<Sequence<Item>, BookFault>
        ensures { IsRead IsTrusted Holds LeavesOneOf MayFault self.old self.new (λ c x.
            read.Answers (read.items_needing x.state change above (read.items_in c x.state queue.now)) result) result };

    /// The plan under a serial, of an item or of a landing.
    fn plan(&mut self, serial: Serial) -> Result<Option<Plan>, BookFault>
        ensures { IsRead IsTrusted Holds LeavesOneOf MayFault self.old self.new (λ c x.
            read.Answers (read.plan_at x.state serial) result) result };

    /// The live builds of a serial, by number.
    fn live_builds(&mut self, serial: Serial) -> Result<Sequence<Build>, BookFault>
        ensures { IsRead IsTrusted Holds LeavesOneOf MayFault self.old self.new (λ c x.
            read.Answers (read.live_builds x.state serial) result) result };

    /// The plans of a queue's items with serials above `above` up to `last`, front to back.
    fn plans_between(
        &mut self,
        queue: &Name,
        above: u64,
        last: Serial,
    ) -> Result<Sequence<Plan>, BookFault>
        ensures { IsRead IsTrusted Holds LeavesOneOf MayFault self.old self.new (λ c x.
            let items = read.items_between above last (read.items_in c x.state queue.now) in
            read.Answers (read.plans_of_items x.state items) result) result };

    /// The live builds of a queue's items with serials above `above` up to `last`, front to back, each item's
    /// by number.
    fn builds_between(
        &mut self,
        queue: &Name,
        above: u64,
        last: Serial,
    ) -> Result<Sequence<Build>, BookFault>
        ensures { IsRead IsTrusted Holds LeavesOneOf MayFault self.old self.new (λ c x.
            let items = read.items_between above last (read.items_in c x.state queue.now) in
            read.Answers (read.builds_of_items x.state items) result) result };

    /// The build of a number.
    fn build(&mut self, number: BuildNo) -> Result<Option<Build>, BookFault>
        ensures { IsRead IsTrusted Holds LeavesOneOf MayFault self.old self.new (λ c x.
            read.Answers (build_of x.state number) result) result };

    /// The ready list, in order of approval.
    fn ready(&mut self) -> Result<Sequence<Ready>, BookFault>
        ensures { IsRead IsTrusted Holds LeavesOneOf MayFault self.old self.new (λ c x.
            read.Answers x.state.ready result) result };

    /// The number of a change's approval, while it is ready.
    fn approval(&mut self, change: ChangeNo) -> Result<Option<u64>, BookFault>
        ensures { IsRead IsTrusted Holds LeavesOneOf MayFault self.old self.new (λ c x.
            read.Answers (approval_of x.state.ready change) result) result };

    /// The ready changes that need this one, in order of approval.
    fn ready_needing(&mut self, change: ChangeNo) -> Result<Sequence<Ready>, BookFault>
        ensures { IsRead IsTrusted Holds LeavesOneOf MayFault self.old self.new (λ c x.
            read.Answers (read.ready_needing x.state change) result) result };

    /// The last number drawn of each kind.
    fn counters(&mut self) -> Result<Counters, BookFault>
        ensures { IsRead IsTrusted Holds LeavesOneOf MayFault self.old self.new (λ c x.
            read.Answers x.state.counters result) result };

    /// Writes the front and then the history text of a queue, each line while its report is read, so that however long
    /// the history is, one line is held. The first report, or that there is none, is read before the first byte is
    /// written: so `NoQueue` and `Unavailable` mean that nothing was. `Broken` and `Write` leave a beginning.
    fn history<W: Write>(
        &mut self,
        queue: &str,
        front: &[u8],
        w: &mut Tap<W>,
    ) -> Result<(), HistoryFault>
        requires { has_failed w.old ≡ false }
        ensures found { OfHeld IsTrusted Holds self.old self.new (λ c x.
            WritesHistory x.state queue.now front.now W.contents w.old w.new result) }
        ensures stops { StopsHistoryWriter w.old w.new result }
        ensures kept { IsKept IsTrusted Holds LeavesOneOf self.old self.new };

    /// All edits or none: all if they lead from the content that is held to a lawful one, none after a fault.
    fn apply(&mut self, edits: &[Edit]) -> Result<(), BookFault>
        ensures applied { OfHeld IsTrusted Holds self.old self.new (λ c x. (y : Content) → IsLawfulContent c y →
            Leads c x edits.now y → IsApplied Holds LeavesOneOf self.old self.new c x edits.now y result) }
        ensures unchanged { OfHeld IsTrusted Holds self.old self.new (λ c x. OnErr result (Holds self.new c x)) }
        ensures trusted { IsTrusted self.new → IsTrusted self.old }
        ensures fault { IfErr result MayFault };

    // More contents may be named.
    ghost leaves_more: { (b : Self) (c : Settings) (ys : List Content) (y : Content) →
        LeavesOneOf b c ys → LeavesOneOf b c (ys ++ y ∷ []) };
}
