//! What a gate's book keeps of the past.
use crate::fault::FeedFault;
use crate::rows::{BuildSummary, LeftItem};
use gate_book_trait::{Book, BookFault, HistoryFault};
use gate_types::numbers::Serial;
use gate_types::records::Id;
use gate_types::sequence::Sequence;
use gate_types::tap::Tap;
use std::io::Write;

/// A book that also answers what is past. No rule of the gate needs that: the queries to a running gate do. Each read
/// is by key, and touches only the rows that it returns.
pub trait Archive: Book {
    ghost use Rattle.std.specs.Prelude.{◌≡◌, false, length};
    ghost use Rattle.gate_types.specs.Tap.{has_failed};
    ghost use Rattle.gate_book_trait.specs.Kept.{OfHeld, IsKept};
    ghost use Rattle.gate_book_trait.specs.Reading.{IsRead};
    ghost use Rattle.gate_book_trait.specs.Reads.{Answers};
    ghost use Rattle.gate_book_trait.specs.Writes.{StopsHistoryWriter};
    ghost use Rattle.gate_archive.specs.ItemText.{left_at, builds_of, last_builds};
    ghost use Rattle.gate_archive.specs.Writes.{WritesHistoryFrom, WritesFeed, StopsFeed};

    /// The report of the item of a serial that left its queue, and the queue's name.
    fn left(&mut self, serial: Serial) -> Result<Option<LeftItem>, BookFault>
        ensures { IsRead Self.IsTrusted Self.Holds Self.LeavesOneOf Self.MayFault self.old self.new (λ c x.
            Answers (left_at x.state serial) result) result };

    /// How many builds of a serial there are, live or not.
    fn build_count(&mut self, serial: Serial) -> Result<u64, BookFault>
        ensures { IsRead Self.IsTrusted Self.Holds Self.LeavesOneOf Self.MayFault self.old self.new (λ c x.
            Answers (length (builds_of x.state serial)) result) result };

    /// The last builds of a serial, live or not, by number, no more than `most`.
    fn last_builds(
        &mut self,
        serial: Serial,
        most: u32,
    ) -> Result<Sequence<BuildSummary>, BookFault>
        ensures { IsRead Self.IsTrusted Self.Holds Self.LeavesOneOf Self.MayFault self.old self.new (λ c x.
            Answers (last_builds x.state serial most) result) result };

    /// Writes the front and then the history text of a queue from place `from` on, at most 1,000 reports, each line
    /// while its report is read. The first of them, or that there is none, is read before the first byte is written: so
    /// `NoQueue` and `Unavailable` mean that nothing was. `Broken` and `Write` leave a beginning.
    fn history_from<W: Write>(
        &mut self,
        queue: &str,
        from: u64,
        front: &[u8],
        w: &mut Tap<W>,
    ) -> Result<(), HistoryFault>
        requires { has_failed w.old ≡ false }
        ensures found { OfHeld Self.IsTrusted Self.Holds self.old self.new (λ c x.
            WritesHistoryFrom x.state queue.now from front.now W.contents w.old w.new result) }
        ensures stops { StopsHistoryWriter w.old w.new result }
        ensures kept { IsKept Self.IsTrusted Self.Holds Self.LeavesOneOf self.old self.new };

    /// Writes the front and then a line for each accepted delivery, from the first on or behind that of an id, no more
    /// than `most`, each while it is read; and tells how many lines these are. The first of them, or that there is
    /// none, is read before the first byte is written: so `NoDelivery` and `Unavailable` mean that nothing was.
    /// `Broken` and `Write` leave some first bytes.
    fn deliveries<W: Write>(
        &mut self,
        after: Option<Id>,
        most: u64,
        front: &[u8],
        w: &mut Tap<W>,
    ) -> Result<u64, FeedFault>
        requires { has_failed w.old ≡ false }
        ensures found { OfHeld Self.IsTrusted Self.Holds self.old self.new (λ c x.
            WritesFeed x.kept after most front.now W.contents w.old w.new result) }
        ensures stops { StopsFeed w.old w.new result }
        ensures kept { IsKept Self.IsTrusted Self.Holds Self.LeavesOneOf self.old self.new };
}
