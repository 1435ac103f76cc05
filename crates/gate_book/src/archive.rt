//! What a book in memory is asked for of the past.
use crate::feeding::write_feed;
use crate::memory::MemBook;
use crate::writing::write_rows;
use gate_archive::{Archive, BuildSummary, FeedFault, LeftItem};
use gate_book_trait::{BookFault, HistoryFault};
use gate_types::numbers::Serial;
use gate_types::records::Id;
use gate_types::sequence::Sequence;
use gate_types::tap::Tap;
use std::io::Write;

impl Archive for MemBook {
    fn left(&mut self, serial: Serial) -> Result<Option<LeftItem>, BookFault> {
        Ok(self.tables.left(serial)?)
    }

    fn build_count(&mut self, serial: Serial) -> Result<u64, BookFault> {
        Ok(self.tables.build_count(serial))
    }

    fn last_builds(
        &mut self,
        serial: Serial,
        most: u32,
    ) -> Result<Sequence<BuildSummary>, BookFault> {
        Ok(self.tables.last_builds(self.alloc, serial, most)?)
    }

    fn history_from<W: Write>(
        &mut self,
        queue: &str,
        from: u64,
        front: &[u8],
        w: &mut Tap<W>,
    ) -> Result<(), HistoryFault> {
        match self.tables.queue_called(queue) {
            Some(found) => write_rows(
                self.alloc,
                found.name(),
                found.reports_from(from),
                found.report_count(),
                front,
                w,
            ),
            None => Err(HistoryFault::NoQueue),
        }
    }

    fn deliveries<W: Write>(
        &mut self,
        after: Option<Id>,
        most: u64,
        front: &[u8],
        w: &mut Tap<W>,
    ) -> Result<u64, FeedFault> {
        match self.tables.behind(after) {
            Some(kept) => write_feed(self.alloc, kept, most, front, w),
            None => Err(FeedFault::NoDelivery),
        }
    }
}
