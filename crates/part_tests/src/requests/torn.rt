//! A book whose histories break off.
use gate_archive::{Archive, BuildSummary, FeedFault, LeftItem};
use gate_book::{Book, BookFault, HistoryFault, QueuedItem};
use gate_types::edits::Edit;
use gate_types::names::Name;
use gate_types::numbers::{BuildNo, ChangeNo, Serial};
use gate_types::records::{Build, Change, Counters, Id, Item, Kept, Plan, Ready};
use gate_types::sequence::Sequence;
use gate_types::tap::Tap;
use std::io::Write;

/// Answers as the book in it, but that a history ends behind its first line.
#[derive(Drop)]
pub(crate) struct Torn<B>(pub B);

impl<B: Book> Book for Torn<B> {
    ghost Holds = { λ _ _ _. ⊥ };

    ghost IsTrusted = { λ _. ⊥ };

    ghost LeavesOneOf = { λ _ _ _. Unit {0} };

    ghost MayFault = { λ _. Unit {0} };

    ghost leaves_more = { λ _ _ _ _ h. h };

    fn delivery(&mut self, id: &Id) -> Result<Option<Kept>, BookFault> {
        self.0.delivery(id)
    }

    fn change(&mut self, number: ChangeNo) -> Result<Option<Change>, BookFault> {
        self.0.change(number)
    }

    fn window(&mut self, queue: &Name) -> Result<Option<u32>, BookFault> {
        self.0.window(queue)
    }

    fn item_count(&mut self, queue: &Name) -> Result<u64, BookFault> {
        self.0.item_count(queue)
    }

    fn landing_count(&mut self, queue: &Name) -> Result<u64, BookFault> {
        self.0.landing_count(queue)
    }

    fn reports(&mut self, queue: &Name) -> Result<u64, BookFault> {
        self.0.reports(queue)
    }

    fn landing_before(&mut self, queue: &Name, serial: Serial) -> Result<u64, BookFault> {
        self.0.landing_before(queue, serial)
    }

    fn items(&mut self, queue: &Name) -> Result<Sequence<Item>, BookFault> {
        self.0.items(queue)
    }

    fn item(&mut self, serial: Serial) -> Result<Option<Item>, BookFault> {
        self.0.item(serial)
    }

    fn queued(&mut self, change: ChangeNo) -> Result<Option<QueuedItem>, BookFault> {
        self.0.queued(change)
    }

    fn next_item(&mut self, queue: &Name, above: u64) -> Result<Option<Item>, BookFault> {
        self.0.next_item(queue, above)
    }

    fn last_item(&mut self, queue: &Name, below: u64) -> Result<Option<Item>, BookFault> {
        self.0.last_item(queue, below)
    }

    fn next_items(
        &mut self,
        queue: &Name,
        above: u64,
        most: u32,
    ) -> Result<Sequence<Item>, BookFault> {
        self.0.next_items(queue, above, most)
    }

    fn needing(
        &mut self,
        queue: &Name,
        change: ChangeNo,
        above: u64,
    ) -> Result<Sequence<Item>, BookFault> {
        self.0.needing(queue, change, above)
    }

    fn plan(&mut self, serial: Serial) -> Result<Option<Plan>, BookFault> {
        self.0.plan(serial)
    }

    fn live_builds(&mut self, serial: Serial) -> Result<Sequence<Build>, BookFault> {
        self.0.live_builds(serial)
    }

    fn plans_between(
        &mut self,
        queue: &Name,
        above: u64,
        last: Serial,
    ) -> Result<Sequence<Plan>, BookFault> {
        self.0.plans_between(queue, above, last)
    }

    fn builds_between(
        &mut self,
        queue: &Name,
        above: u64,
        last: Serial,
    ) -> Result<Sequence<Build>, BookFault> {
        self.0.builds_between(queue, above, last)
    }

    fn build(&mut self, number: BuildNo) -> Result<Option<Build>, BookFault> {
        self.0.build(number)
    }

    fn ready(&mut self) -> Result<Sequence<Ready>, BookFault> {
        self.0.ready()
    }

    fn approval(&mut self, change: ChangeNo) -> Result<Option<u64>, BookFault> {
        self.0.approval(change)
    }

    fn ready_needing(&mut self, change: ChangeNo) -> Result<Sequence<Ready>, BookFault> {
        self.0.ready_needing(change)
    }

    fn counters(&mut self) -> Result<Counters, BookFault> {
        self.0.counters()
    }

    fn history<W: Write>(
        &mut self,
        _queue: &str,
        front: &[u8],
        w: &mut Tap<W>,
    ) -> Result<(), HistoryFault> {
        w.write_all(front)?;
        w.write_line("history core")?;
        Err(HistoryFault::Broken)
    }

    fn apply(&mut self, edits: &[Edit]) -> Result<(), BookFault> {
        self.0.apply(edits)
    }
}

impl<B: Archive> Archive for Torn<B> {
    fn left(&mut self, serial: Serial) -> Result<Option<LeftItem>, BookFault> {
        self.0.left(serial)
    }

    fn build_count(&mut self, serial: Serial) -> Result<u64, BookFault> {
        self.0.build_count(serial)
    }

    fn last_builds(
        &mut self,
        serial: Serial,
        most: u32,
    ) -> Result<Sequence<BuildSummary>, BookFault> {
        self.0.last_builds(serial, most)
    }

    fn history_from<W: Write>(
        &mut self,
        queue: &str,
        from: u64,
        front: &[u8],
        w: &mut Tap<W>,
    ) -> Result<(), HistoryFault> {
        self.0.history_from(queue, from, front, w)
    }

    fn deliveries<W: Write>(
        &mut self,
        after: Option<Id>,
        most: u64,
        front: &[u8],
        w: &mut Tap<W>,
    ) -> Result<u64, FeedFault> {
        self.0.deliveries(after, most, front, w)
    }
}
