//! What a book has of the past, from the tables of a file.
ghost use Rattle.std.specs.Prelude.{◌≡◌, find, option_copied};
ghost use Rattle.gate_types.specs.Names.{same_name};

use crate::book::SqlBook;
use gate_archive::{Archive, BuildSummary, FeedFault, LeftItem};
use gate_book_trait::{BookFault, HistoryFault};
use gate_types::names::Name;
use gate_types::numbers::Serial;
use gate_types::records::Id;
use gate_types::sequence::Sequence;
use gate_types::tap::Tap;
use sqlite::Alter;
use std::io::Write;

/// The queue of a name among these.
fn queue_named<'n>(queues: &'n [Name], name: &str) -> Option<&'n Name>
    ensures { option_copied result ≡ find (λ other. same_name other name.now) queues.now }
{
    queues.iter().find(|queue| queue.as_str() == name)
}

impl<S: Alter> Archive for SqlBook<S> {
    fn left(&mut self, serial: Serial) -> Result<Option<LeftItem>, BookFault> {
        gate_archive_queries::left(&mut self.conn, serial)
    }

    fn build_count(&mut self, serial: Serial) -> Result<u64, BookFault> {
        gate_archive_queries::build_count(&mut self.conn, serial)
    }

    fn last_builds(
        &mut self,
        serial: Serial,
        most: u32,
    ) -> Result<Sequence<BuildSummary>, BookFault> {
        gate_archive_queries::last_builds(&mut self.conn, serial, most)
    }

    fn history_from<W: Write>(
        &mut self,
        queue: &str,
        from: u64,
        front: &[u8],
        w: &mut Tap<W>,
    ) -> Result<(), HistoryFault> {
        let Some(queue) = queue_named(self.queues.as_slice(), queue) else {
            return Err(HistoryFault::NoQueue);
        };
        gate_archive_queries::history_from(self.alloc, &mut self.conn, queue, from, front, w)
    }

    fn deliveries<W: Write>(
        &mut self,
        after: Option<Id>,
        most: u64,
        front: &[u8],
        w: &mut Tap<W>,
    ) -> Result<u64, FeedFault> {
        gate_archive_queries::deliveries(self.alloc, &mut self.conn, after, most, front, w)
    }
}
