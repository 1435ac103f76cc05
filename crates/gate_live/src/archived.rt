//! Reads of past rows (`Archive`). The book below answers them all, since only live rows are held in memory.
ghost use Rattle.std.specs.Prelude.{◌≡◌, false, true, length, IfErr};
ghost use Rattle.gate_types.specs.Tap.{has_failed};
ghost use Rattle.gate_book_trait.specs.Writes.{StopsHistoryWriter};
ghost use Rattle.gate_archive.specs.ItemText.{builds_of, last_builds, left_at};
ghost use Rattle.gate_archive.specs.Writes.{StopsFeed, WritesFeed, WritesHistoryFrom};
ghost use Rattle.gate_live.specs.Both.{AreBothKept, HoldsNothing, IsReadOfBoth, OfBoth};
ghost use Rattle.gate_live.specs.Faults.{feed_may_be_of_store, history_may_be_of_store, is_of_store};

use crate::faults::told;
use crate::live_book::LiveBook;
use gate_archive::{Archive, BuildSummary, FeedFault, LeftItem};
use gate_book_trait::{BookFault, HistoryFault};
use gate_types::numbers::Serial;
use gate_types::records::Id;
use gate_types::sequence::Sequence;
use gate_types::tap::Tap;
use std::io::Write;

impl<B: Archive> Archive for LiveBook<B> {
    fn left(&mut self, serial: Serial) -> Result<Option<LeftItem>, BookFault>
        ensures reads { IsReadOfBoth B.IsTrusted B.Holds B.LeavesOneOf B.MayFault self.old self.new (λ _ x.
            left_at x.state serial) result }
        ensures drops { IfErr result (λ f. is_of_store f ≡ true → HoldsNothing self.new) }
    {
        told(&mut self.live, self.alloc, self.book.left(serial))
    }

    fn build_count(&mut self, serial: Serial) -> Result<u64, BookFault>
        ensures reads { IsReadOfBoth B.IsTrusted B.Holds B.LeavesOneOf B.MayFault self.old self.new (λ _ x.
            length (builds_of x.state serial)) result }
        ensures drops { IfErr result (λ f. is_of_store f ≡ true → HoldsNothing self.new) }
    {
        told(&mut self.live, self.alloc, self.book.build_count(serial))
    }

    fn last_builds(
        &mut self,
        serial: Serial,
        most: u32,
    ) -> Result<Sequence<BuildSummary>, BookFault>
        ensures reads { IsReadOfBoth B.IsTrusted B.Holds B.LeavesOneOf B.MayFault self.old self.new (λ _ x.
            last_builds x.state serial most) result }
        ensures drops { IfErr result (λ f. is_of_store f ≡ true → HoldsNothing self.new) }
    {
        told(
            &mut self.live,
            self.alloc,
            self.book.last_builds(serial, most),
        )
    }

    fn history_from<W: Write>(
        &mut self,
        queue: &str,
        from: u64,
        front: &[u8],
        w: &mut Tap<W>,
    ) -> Result<(), HistoryFault>
        requires { has_failed w.old ≡ false }
        ensures found { OfBoth B.IsTrusted B.Holds self.old self.new (λ _ x.
            WritesHistoryFrom x.state queue.now from front.now W.contents w.old w.new result) }
        ensures stops { StopsHistoryWriter w.old w.new result }
        ensures kept { AreBothKept B.IsTrusted B.Holds B.LeavesOneOf self.old self.new }
        ensures drops { IfErr result (λ f. history_may_be_of_store f ≡ true → HoldsNothing self.new) }
    {
        told(
            &mut self.live,
            self.alloc,
            self.book.history_from(queue, from, front, w),
        )
    }

    fn deliveries<W: Write>(
        &mut self,
        after: Option<Id>,
        most: u64,
        front: &[u8],
        w: &mut Tap<W>,
    ) -> Result<u64, FeedFault>
        requires { has_failed w.old ≡ false }
        ensures found { OfBoth B.IsTrusted B.Holds self.old self.new (λ _ x.
            WritesFeed x.kept after most front.now W.contents w.old w.new result) }
        ensures stops { StopsFeed w.old w.new result }
        ensures kept { AreBothKept B.IsTrusted B.Holds B.LeavesOneOf self.old self.new }
        ensures drops { IfErr result (λ f. feed_may_be_of_store f ≡ true → HoldsNothing self.new) }
    {
        told(
            &mut self.live,
            self.alloc,
            self.book.deliveries(after, most, front, w),
        )
    }
}
