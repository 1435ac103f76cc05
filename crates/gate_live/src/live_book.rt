//! A book over another one that holds the live rows in memory.
ghost use Rattle.std.specs.Prelude.{◌≡◌, ◌<◌, false, true, IfErr, IfOk, IfSome, OnErr};
ghost use Rattle.gate_types.specs.Forms.{IsLawfulContent};
ghost use Rattle.gate_types.specs.Once.{Content, kept_for};
ghost use Rattle.gate_types.specs.Settings.{Settings};
ghost use Rattle.gate_types.specs.State.{known_change};
ghost use Rattle.gate_types.specs.Step.{build_of};
ghost use Rattle.gate_types.specs.Tables.{Leads, approval_of};
ghost use Rattle.gate_types.specs.Tap.{has_failed};
ghost use Rattle.gate_book_trait.specs.Faults.{MayAnswer};
ghost use Rattle.gate_book_trait.specs.Kept.{IsApplied};
ghost use Rattle.gate_book_trait.specs.Reads as read;
ghost use Rattle.gate_book_trait.specs.Writes.{StopsHistoryWriter, WritesHistory};
ghost use Rattle.gate_live.specs.Both.{AreBothKept, HoldsBoth, HoldsNothing, IsReadOfBoth, OfBoth};
ghost use Rattle.gate_live.specs.Faults.{history_may_be_of_store, is_of_store};
ghost use Rattle.gate_live.specs.Parts.{Agrees};

use crate::faults::told;
use crate::live::Live;
use crate::reading::{
    read_builds, read_builds_between, read_change, read_plan, read_plans_between,
};
use gate_book_trait::{Book, BookFault, HistoryFault, QueuedItem};
use gate_types::edits::Edit;
use gate_types::names::Name;
use gate_types::numbers::{BuildNo, ChangeNo, Serial};
use gate_types::records::{Build, Change, Counters, Id, Item, Kept, Plan, Ready};
use gate_types::sequence::Sequence;
use gate_types::tap::Tap;
use std::alloc::Global;
use std::io::Write;

/// Answers reads of live rows from memory if they are held, and passes all other reads to the book below. Applies edits
/// to the book below first and, once they stand there, to the held rows, which can't fail. After a fault that may come
/// from the store nothing is held until `fill` reads the live rows again, so each call goes to the book below and
/// returns that book's fault, if any.
#[derive(Drop)]
pub struct LiveBook<B> {
    pub(crate) alloc: Global,
    pub(crate) book: B,
    pub(crate) live: Live,
}

impl<B> LiveBook<B> {
    /// Creates a book over this one, with nothing held.
    pub fn new(alloc: Global, book: B) -> LiveBook<B>
        ensures book { result.book ≡ book }
        ensures empty { HoldsNothing result }
        ensures agrees { (c : Settings) (x : Content) → Agrees result.live c x }
    {
        LiveBook {
            alloc,
            book,
            live: Live::new(alloc),
        }
    }

    /// Drops all held rows and returns the book below.
    pub fn into_book(self) -> B
        ensures { result ≡ self.book }
    {
        let LiveBook {
            alloc: _,
            book,
            live: _,
        } = self;
        book
    }
}

impl<B: Book> Book for LiveBook<B> {
    ghost use Rattle.gate_live.specs.Both.{HoldsBoth};

    ghost Holds = { λ r c x. HoldsBoth B.Holds r c x };

    ghost IsTrusted = { λ r. B.IsTrusted r.book };

    ghost LeavesOneOf = { λ r c ys. B.LeavesOneOf r.book c ys };

    ghost MayFault = { MayAnswer B.MayFault };

    ghost leaves_more = { λ r c ys y leaves. B.leaves_more r.book c ys y leaves };

    fn delivery(&mut self, id: &Id) -> Result<Option<Kept>, BookFault>
        ensures reads { IsReadOfBoth B.IsTrusted B.Holds B.LeavesOneOf B.MayFault self.old self.new (λ _ x.
            kept_for id.now x.kept) result }
        ensures drops { IfErr result (λ f. is_of_store f ≡ true → HoldsNothing self.new) }
    {
        told(&mut self.live, self.alloc, self.book.delivery(id))
    }

    fn change(&mut self, number: ChangeNo) -> Result<Option<Change>, BookFault>
        ensures reads { IsReadOfBoth B.IsTrusted B.Holds B.LeavesOneOf B.MayFault self.old self.new (λ _ x.
            known_change x.state number) result }
        ensures drops { IfErr result (λ f. is_of_store f ≡ true → HoldsNothing self.new) }
    {
        if let Some(change) = self.live.change(number) {
            return Ok(Some(change));
        }
        Ok(read_change(self.alloc, &mut self.book, &mut self.live, number)?)
    }

    fn window(&mut self, queue: &Name) -> Result<Option<u32>, BookFault>
        ensures reads { IsReadOfBoth B.IsTrusted B.Holds B.LeavesOneOf B.MayFault self.old self.new (λ _ x.
            read.window_of x.state queue.now) result }
        ensures drops { IfErr result (λ f. is_of_store f ≡ true → HoldsNothing self.new) }
    {
        if let Some(found) = self.live.window(queue) {
            return Ok(found);
        }
        told(&mut self.live, self.alloc, self.book.window(queue))
    }

    fn item_count(&mut self, queue: &Name) -> Result<u64, BookFault>
        ensures reads { IsReadOfBoth B.IsTrusted B.Holds B.LeavesOneOf B.MayFault self.old self.new (λ c x.
            read.item_count c x.state queue.now) result }
        ensures drops { IfErr result (λ f. is_of_store f ≡ true → HoldsNothing self.new) }
    {
        if let Some(found) = self.live.item_count(queue) {
            return Ok(found);
        }
        told(&mut self.live, self.alloc, self.book.item_count(queue))
    }

    fn landing_count(&mut self, queue: &Name) -> Result<u64, BookFault>
        ensures reads { IsReadOfBoth B.IsTrusted B.Holds B.LeavesOneOf B.MayFault self.old self.new (λ _ x.
            read.landing_count x.state queue.now) result }
        ensures drops { IfErr result (λ f. is_of_store f ≡ true → HoldsNothing self.new) }
    {
        if let Some(found) = self.live.landing_count(queue) {
            return Ok(found);
        }
        told(&mut self.live, self.alloc, self.book.landing_count(queue))
    }

    fn reports(&mut self, queue: &Name) -> Result<u64, BookFault>
        ensures reads { IsReadOfBoth B.IsTrusted B.Holds B.LeavesOneOf B.MayFault self.old self.new (λ _ x.
            read.reports_in x.state queue.now) result }
        ensures drops { IfErr result (λ f. is_of_store f ≡ true → HoldsNothing self.new) }
    {
        if let Some(found) = self.live.reports(queue) {
            return Ok(found);
        }
        told(&mut self.live, self.alloc, self.book.reports(queue))
    }

    fn landing_before(&mut self, queue: &Name, serial: Serial) -> Result<u64, BookFault>
        ensures reads { IsReadOfBoth B.IsTrusted B.Holds B.LeavesOneOf B.MayFault self.old self.new (λ _ x.
            read.landings_before x.state queue.now serial) result }
        ensures drops { IfErr result (λ f. is_of_store f ≡ true → HoldsNothing self.new) }
    {
        told(
            &mut self.live,
            self.alloc,
            self.book.landing_before(queue, serial),
        )
    }

    fn items(&mut self, queue: &Name) -> Result<Sequence<Item>, BookFault>
        ensures reads { IsReadOfBoth B.IsTrusted B.Holds B.LeavesOneOf B.MayFault self.old self.new (λ c x.
            read.items_in c x.state queue.now) result }
        ensures drops { IfErr result (λ f. is_of_store f ≡ true → HoldsNothing self.new) }
    {
        if let Some(found) = self.live.items(self.alloc, queue) {
            return Ok(found);
        }
        told(&mut self.live, self.alloc, self.book.items(queue))
    }

    fn item(&mut self, serial: Serial) -> Result<Option<Item>, BookFault>
        ensures reads { IsReadOfBoth B.IsTrusted B.Holds B.LeavesOneOf B.MayFault self.old self.new (λ c x.
            read.item_at c x.state serial) result }
        ensures drops { IfErr result (λ f. is_of_store f ≡ true → HoldsNothing self.new) }
    {
        if let Some(found) = self.live.item(serial) {
            return Ok(found);
        }
        told(&mut self.live, self.alloc, self.book.item(serial))
    }

    fn queued(&mut self, change: ChangeNo) -> Result<Option<QueuedItem>, BookFault>
        ensures reads { IsReadOfBoth B.IsTrusted B.Holds B.LeavesOneOf B.MayFault self.old self.new (λ c x.
            read.queued_of c x.state change) result }
        ensures drops { IfErr result (λ f. is_of_store f ≡ true → HoldsNothing self.new) }
    {
        if let Some(found) = self.live.queued(change) {
            return Ok(found);
        }
        told(&mut self.live, self.alloc, self.book.queued(change))
    }

    fn next_item(&mut self, queue: &Name, above: u64) -> Result<Option<Item>, BookFault>
        ensures reads { IsReadOfBoth B.IsTrusted B.Holds B.LeavesOneOf B.MayFault self.old self.new (λ c x.
            read.first_above above (read.items_in c x.state queue.now)) result }
        ensures rises { IfOk result (λ found. IfSome found (λ i. above < i.serial)) }
        ensures drops { IfErr result (λ f. is_of_store f ≡ true → HoldsNothing self.new) }
    {
        if let Some(found) = self.live.next_item(queue, above) {
            return Ok(found);
        }
        told(
            &mut self.live,
            self.alloc,
            self.book.next_item(queue, above),
        )
    }

    fn last_item(&mut self, queue: &Name, below: u64) -> Result<Option<Item>, BookFault>
        ensures reads { IsReadOfBoth B.IsTrusted B.Holds B.LeavesOneOf B.MayFault self.old self.new (λ c x.
            read.last_item_below below (read.items_in c x.state queue.now)) result }
        ensures falls { IfOk result (λ found. IfSome found (λ i. i.serial < below)) }
        ensures drops { IfErr result (λ f. is_of_store f ≡ true → HoldsNothing self.new) }
    {
        if let Some(found) = self.live.last_item(queue, below) {
            return Ok(found);
        }
        told(
            &mut self.live,
            self.alloc,
            self.book.last_item(queue, below),
        )
    }

    fn next_items(
        &mut self,
        queue: &Name,
        above: u64,
        most: u32,
    ) -> Result<Sequence<Item>, BookFault>
        ensures reads { IsReadOfBoth B.IsTrusted B.Holds B.LeavesOneOf B.MayFault self.old self.new (λ c x.
            read.first_items_above above most (read.items_in c x.state queue.now)) result }
        ensures drops { IfErr result (λ f. is_of_store f ≡ true → HoldsNothing self.new) }
    {
        if let Some(found) = self.live.next_items(self.alloc, queue, above, most) {
            return Ok(found);
        }
        told(
            &mut self.live,
            self.alloc,
            self.book.next_items(queue, above, most),
        )
    }

    fn needing(
        &mut self,
        queue: &Name,
        change: ChangeNo,
        above: u64,
    ) -> Result<Sequence<Item>, BookFault>
        ensures reads { IsReadOfBoth B.IsTrusted B.Holds B.LeavesOneOf B.MayFault self.old self.new (λ c x.
            read.items_needing x.state change above (read.items_in c x.state queue.now)) result }
        ensures drops { IfErr result (λ f. is_of_store f ≡ true → HoldsNothing self.new) }
    {
        let found = self
            .live
            .needing_over(self.alloc, &mut self.book, queue, change, above);
        told(&mut self.live, self.alloc, found)
    }

    fn plan(&mut self, serial: Serial) -> Result<Option<Plan>, BookFault>
        ensures reads { IsReadOfBoth B.IsTrusted B.Holds B.LeavesOneOf B.MayFault self.old self.new (λ _ x.
            read.plan_at x.state serial) result }
        ensures drops { IfErr result (λ f. is_of_store f ≡ true → HoldsNothing self.new) }
    {
        if let Some(plan) = self.live.plan(serial) {
            return Ok(Some(plan));
        }
        Ok(read_plan(self.alloc, &mut self.book, &mut self.live, serial)?)
    }

    fn live_builds(&mut self, serial: Serial) -> Result<Sequence<Build>, BookFault>
        ensures reads { IsReadOfBoth B.IsTrusted B.Holds B.LeavesOneOf B.MayFault self.old self.new (λ _ x.
            read.live_builds x.state serial) result }
        ensures drops { IfErr result (λ f. is_of_store f ≡ true → HoldsNothing self.new) }
    {
        if let Some(found) = self.live.live_builds(self.alloc, serial) {
            return Ok(found);
        }
        Ok(read_builds(self.alloc, &mut self.book, &mut self.live, serial)?)
    }

    fn plans_between(
        &mut self,
        queue: &Name,
        above: u64,
        last: Serial,
    ) -> Result<Sequence<Plan>, BookFault>
        ensures reads { IsReadOfBoth B.IsTrusted B.Holds B.LeavesOneOf B.MayFault self.old self.new (λ c x.
            read.plans_of_items x.state (read.items_between above last (read.items_in c x.state queue.now))) result }
        ensures drops { IfErr result (λ f. is_of_store f ≡ true → HoldsNothing self.new) }
    {
        match self.live.items_between(self.alloc, queue, above, last) {
            Some(items) => read_plans_between(
                self.alloc,
                &mut self.book,
                &mut self.live,
                queue,
                above,
                last,
                items.as_slice(),
            ),
            None => told(
                &mut self.live,
                self.alloc,
                self.book.plans_between(queue, above, last),
            ),
        }
    }

    fn builds_between(
        &mut self,
        queue: &Name,
        above: u64,
        last: Serial,
    ) -> Result<Sequence<Build>, BookFault>
        ensures reads { IsReadOfBoth B.IsTrusted B.Holds B.LeavesOneOf B.MayFault self.old self.new (λ c x.
            read.builds_of_items x.state (read.items_between above last (read.items_in c x.state queue.now))) result }
        ensures drops { IfErr result (λ f. is_of_store f ≡ true → HoldsNothing self.new) }
    {
        match self.live.items_between(self.alloc, queue, above, last) {
            Some(items) => read_builds_between(
                self.alloc,
                &mut self.book,
                &mut self.live,
                queue,
                above,
                last,
                items.as_slice(),
            ),
            None => told(
                &mut self.live,
                self.alloc,
                self.book.builds_between(queue, above, last),
            ),
        }
    }

    fn build(&mut self, number: BuildNo) -> Result<Option<Build>, BookFault>
        ensures reads { IsReadOfBoth B.IsTrusted B.Holds B.LeavesOneOf B.MayFault self.old self.new (λ _ x.
            build_of x.state number) result }
        ensures drops { IfErr result (λ f. is_of_store f ≡ true → HoldsNothing self.new) }
    {
        told(&mut self.live, self.alloc, self.book.build(number))
    }

    fn ready(&mut self) -> Result<Sequence<Ready>, BookFault>
        ensures reads { IsReadOfBoth B.IsTrusted B.Holds B.LeavesOneOf B.MayFault self.old self.new (λ _ x.
            x.state.ready) result }
        ensures drops { IfErr result (λ f. is_of_store f ≡ true → HoldsNothing self.new) }
    {
        if let Some(found) = self.live.ready(self.alloc) {
            return Ok(found);
        }
        told(&mut self.live, self.alloc, self.book.ready())
    }

    fn approval(&mut self, change: ChangeNo) -> Result<Option<u64>, BookFault>
        ensures reads { IsReadOfBoth B.IsTrusted B.Holds B.LeavesOneOf B.MayFault self.old self.new (λ _ x.
            approval_of x.state.ready change) result }
        ensures drops { IfErr result (λ f. is_of_store f ≡ true → HoldsNothing self.new) }
    {
        if let Some(found) = self.live.approval(change) {
            return Ok(found);
        }
        told(&mut self.live, self.alloc, self.book.approval(change))
    }

    fn ready_needing(&mut self, change: ChangeNo) -> Result<Sequence<Ready>, BookFault>
        ensures reads { IsReadOfBoth B.IsTrusted B.Holds B.LeavesOneOf B.MayFault self.old self.new (λ _ x.
            read.ready_needing x.state change) result }
        ensures drops { IfErr result (λ f. is_of_store f ≡ true → HoldsNothing self.new) }
    {
        if let Some(found) = self.live.ready_needing(self.alloc, change) {
            return Ok(found);
        }
        told(&mut self.live, self.alloc, self.book.ready_needing(change))
    }

    fn counters(&mut self) -> Result<Counters, BookFault>
        ensures reads { IsReadOfBoth B.IsTrusted B.Holds B.LeavesOneOf B.MayFault self.old self.new (λ _ x.
            x.state.counters) result }
        ensures drops { IfErr result (λ f. is_of_store f ≡ true → HoldsNothing self.new) }
    {
        if let Some(found) = self.live.counters() {
            return Ok(found);
        }
        told(&mut self.live, self.alloc, self.book.counters())
    }

    fn history<W: Write>(
        &mut self,
        queue: &str,
        front: &[u8],
        w: &mut Tap<W>,
    ) -> Result<(), HistoryFault>
        requires { has_failed w.old ≡ false }
        ensures found { OfBoth B.IsTrusted B.Holds self.old self.new (λ _ x.
            WritesHistory x.state queue.now front.now W.contents w.old w.new result) }
        ensures stops { StopsHistoryWriter w.old w.new result }
        ensures kept { AreBothKept B.IsTrusted B.Holds B.LeavesOneOf self.old self.new }
        ensures drops { IfErr result (λ f. history_may_be_of_store f ≡ true → HoldsNothing self.new) }
    {
        told(
            &mut self.live,
            self.alloc,
            self.book.history(queue, front, w),
        )
    }

    fn apply(&mut self, edits: &[Edit]) -> Result<(), BookFault>
        ensures applied { OfBoth B.IsTrusted B.Holds self.old self.new (λ c x. (y : Content) → IsLawfulContent c y →
            Leads c x edits.now y → IsApplied (λ r k z. HoldsBoth B.Holds r k z) (λ r k ys. B.LeavesOneOf r.book k ys)
            self.old self.new c x edits.now y result) }
        ensures unchanged { OfBoth B.IsTrusted B.Holds self.old self.new (λ c x.
            OnErr result (HoldsBoth B.Holds self.new c x)) }
        ensures trusted { B.IsTrusted self.new.book → B.IsTrusted self.old.book }
        ensures fault { IfErr result (MayAnswer B.MayFault) }
        ensures drops { IfErr result (λ f. is_of_store f ≡ true → HoldsNothing self.new) }
    {
        let applied = self.live.apply_over(self.alloc, &mut self.book, edits);
        told(&mut self.live, self.alloc, applied)
    }
}
