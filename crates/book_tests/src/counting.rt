//! A book that counts what it is asked for, can refuse edits, or a read, once, and can lack a change.
use gate_archive::{Archive, BuildSummary, FeedFault, LeftItem};
use gate_book::{Book, BookFault, HistoryFault, QueuedItem};
use gate_types::edits::Edit;
use gate_types::names::Name;
use gate_types::numbers::{BuildNo, ChangeNo, Serial};
use gate_types::records::{Build, Change, Counters, Id, Item, Kept, Plan, Ready};
use gate_types::sequence::Sequence;
use gate_types::tap::Tap;
use std::io::Write;
use std::process::Abort;

/// Answers as the book in it; the first edits are refused by a fault, if one is set, and so is the read of this number,
/// from 1, by the store. If a change is set as lacking, reading it finds none.
#[derive(Drop)]
pub(crate) struct Counting<B> {
    pub(crate) book: B,
    pub(crate) reads: u32,
    pub(crate) refuses: Option<BookFault>,
    pub(crate) fails_at: Option<u32>,
    pub(crate) lacks: Option<u64>,
}

/// The number of the read that is refused, if one is.
fn refused(rt: &impl Abort, refuses: &str) -> Option<u32> {
    let number = refuses.strip_prefix("read ")?;
    Some(number.parse::<u32>().ok().expect(rt, refuses))
}

/// Over this book, asked for nothing yet, with what it refuses once.
pub(crate) fn refusing<B: Book>(rt: &impl Abort, book: B, refuses: &str) -> Counting<B> {
    let fails_at = refused(rt, refuses);
    let refuses = match refuses {
        "edits by the store" => Some(BookFault::Store),
        "edits for memory" => Some(BookFault::NoMemory),
        _ if refuses.is_empty() || fails_at.is_some() => None,
        _ => panic!(rt; "nothing is refused: {refuses}"),
    };
    Counting {
        book,
        reads: 0,
        refuses,
        fails_at,
        lacks: None,
    }
}

impl<B> Counting<B> {
    /// One read more, which fails where it is the one that is refused.
    fn count(&mut self) -> Result<(), BookFault> {
        self.reads = self.reads.saturating_add(1);
        if self.fails_at == Some(self.reads) {
            self.fails_at = None;
            return Err(BookFault::Store);
        }
        Ok(())
    }
}

impl<B: Book> Book for Counting<B> {
    ghost Holds = { λ _ _ _. ⊥ };

    ghost IsTrusted = { λ _. ⊥ };

    ghost LeavesOneOf = { λ _ _ _. Unit {0} };

    ghost MayFault = { λ _. Unit {0} };

    ghost leaves_more = { λ _ _ _ _ h. h };

    fn delivery(&mut self, id: &Id) -> Result<Option<Kept>, BookFault> {
        self.count()?;
        self.book.delivery(id)
    }

    fn change(&mut self, number: ChangeNo) -> Result<Option<Change>, BookFault> {
        self.count()?;
        if self.lacks == Some(number.get()) {
            return Ok(None);
        }
        self.book.change(number)
    }

    fn window(&mut self, queue: &Name) -> Result<Option<u32>, BookFault> {
        self.count()?;
        self.book.window(queue)
    }

    fn item_count(&mut self, queue: &Name) -> Result<u64, BookFault> {
        self.count()?;
        self.book.item_count(queue)
    }

    fn landing_count(&mut self, queue: &Name) -> Result<u64, BookFault> {
        self.count()?;
        self.book.landing_count(queue)
    }

    fn reports(&mut self, queue: &Name) -> Result<u64, BookFault> {
        self.count()?;
        self.book.reports(queue)
    }

    fn landing_before(&mut self, queue: &Name, serial: Serial) -> Result<u64, BookFault> {
        self.count()?;
        self.book.landing_before(queue, serial)
    }

    fn items(&mut self, queue: &Name) -> Result<Sequence<Item>, BookFault> {
        self.count()?;
        self.book.items(queue)
    }

    fn item(&mut self, serial: Serial) -> Result<Option<Item>, BookFault> {
        self.count()?;
        self.book.item(serial)
    }

    fn queued(&mut self, change: ChangeNo) -> Result<Option<QueuedItem>, BookFault> {
        self.count()?;
        self.book.queued(change)
    }

    fn next_item(&mut self, queue: &Name, above: u64) -> Result<Option<Item>, BookFault> {
        self.count()?;
        self.book.next_item(queue, above)
    }

    fn last_item(&mut self, queue: &Name, below: u64) -> Result<Option<Item>, BookFault> {
        self.count()?;
        self.book.last_item(queue, below)
    }

    fn next_items(
        &mut self,
        queue: &Name,
        above: u64,
        most: u32,
    ) -> Result<Sequence<Item>, BookFault> {
        self.count()?;
        self.book.next_items(queue, above, most)
    }

    fn needing(
        &mut self,
        queue: &Name,
        change: ChangeNo,
        above: u64,
    ) -> Result<Sequence<Item>, BookFault> {
        self.count()?;
        self.book.needing(queue, change, above)
    }

    fn plan(&mut self, serial: Serial) -> Result<Option<Plan>, BookFault> {
        self.count()?;
        self.book.plan(serial)
    }

    fn live_builds(&mut self, serial: Serial) -> Result<Sequence<Build>, BookFault> {
        self.count()?;
        self.book.live_builds(serial)
    }

    fn plans_between(
        &mut self,
        queue: &Name,
        above: u64,
        last: Serial,
    ) -> Result<Sequence<Plan>, BookFault> {
        self.count()?;
        self.book.plans_between(queue, above, last)
    }

    fn builds_between(
        &mut self,
        queue: &Name,
        above: u64,
        last: Serial,
    ) -> Result<Sequence<Build>, BookFault> {
        self.count()?;
        self.book.builds_between(queue, above, last)
    }

    fn build(&mut self, number: BuildNo) -> Result<Option<Build>, BookFault> {
        self.count()?;
        self.book.build(number)
    }

    fn ready(&mut self) -> Result<Sequence<Ready>, BookFault> {
        self.count()?;
        self.book.ready()
    }

    fn approval(&mut self, change: ChangeNo) -> Result<Option<u64>, BookFault> {
        self.count()?;
        self.book.approval(change)
    }

    fn ready_needing(&mut self, change: ChangeNo) -> Result<Sequence<Ready>, BookFault> {
        self.count()?;
        self.book.ready_needing(change)
    }

    fn counters(&mut self) -> Result<Counters, BookFault> {
        self.count()?;
        self.book.counters()
    }

    fn history<W: Write>(
        &mut self,
        queue: &str,
        front: &[u8],
        w: &mut Tap<W>,
    ) -> Result<(), HistoryFault> {
        if self.count().is_err() {
            return Err(HistoryFault::Unavailable);
        }
        self.book.history(queue, front, w)
    }

    fn apply(&mut self, edits: &[Edit]) -> Result<(), BookFault> {
        match self.refuses.take() {
            Some(fault) => Err(fault),
            None => self.book.apply(edits),
        }
    }
}

impl<B: Archive> Archive for Counting<B> {
    fn left(&mut self, serial: Serial) -> Result<Option<LeftItem>, BookFault> {
        self.count()?;
        self.book.left(serial)
    }

    fn build_count(&mut self, serial: Serial) -> Result<u64, BookFault> {
        self.count()?;
        self.book.build_count(serial)
    }

    fn last_builds(
        &mut self,
        serial: Serial,
        most: u32,
    ) -> Result<Sequence<BuildSummary>, BookFault> {
        self.count()?;
        self.book.last_builds(serial, most)
    }

    fn history_from<W: Write>(
        &mut self,
        queue: &str,
        from: u64,
        front: &[u8],
        w: &mut Tap<W>,
    ) -> Result<(), HistoryFault> {
        if self.count().is_err() {
            return Err(HistoryFault::Unavailable);
        }
        self.book.history_from(queue, from, front, w)
    }

    fn deliveries<W: Write>(
        &mut self,
        after: Option<Id>,
        most: u64,
        front: &[u8],
        w: &mut Tap<W>,
    ) -> Result<u64, FeedFault> {
        if self.count().is_err() {
            return Err(FeedFault::Unavailable);
        }
        self.book.deliveries(after, most, front, w)
    }
}
