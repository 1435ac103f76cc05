//! What the tables of a book in memory have of the past.
ghost use Rattle.std.specs.Prelude.{◌≡◌, ◌==◌, find, filter, length, map, Some, None, IfOk, IfSome, IfNone};
ghost use Rattle.std.specs.List.{AllByRecursion};
ghost use Rattle.gate_archive.specs.Feed.{behind};
ghost use Rattle.gate_archive.specs.ItemText.{last_of, summary_of};
ghost use Rattle.gate_memory.specs.Builds.{is_build_of};
ghost use Rattle.gate_memory.specs.Queues as queue;
ghost use Rattle.gate_book.specs.Memory.{tables_of, AreKeptTables};
ghost use Rattle.gate_book.specs.Past.{all_left};

use crate::tables::MemTables;
use gate_archive::{BuildSummary, LeftItem};
use gate_memory::QueueTable;
use gate_types::names::NoMemory;
use gate_types::numbers::Serial;
use gate_types::records::{Id, Kept};
use gate_types::sequence::Sequence;
use std::alloc::Global;

/// The report of the item of a serial that left, with the name of its queue.
fn left_in(queues: &[QueueTable], serial: Serial) -> Result<Option<LeftItem>, NoMemory>
    requires { AllByRecursion queue.IsKeptQueueTable queues.now }
    ensures { IfOk result (λ found. found
        ≡ find (λ l. l.report.serial == serial) (all_left (map queue.rows_of_table queues.now))) }
{
    for queue in queues {
        if let Some(found) = queue.left(serial)? {
            return Ok(Some(found));
        }
    }
    Ok(None)
}

impl MemTables {
    /// The report of the item of a serial that left, with the name of its queue.
    pub(crate) fn left(&self, serial: Serial) -> Result<Option<LeftItem>, NoMemory>
        requires { AreKeptTables self.now }
        ensures { IfOk result (λ found. found
            ≡ find (λ l. l.report.serial == serial) (all_left (tables_of self.now).queues)) }
    {
        left_in(&self.queues, serial)
    }

    /// How many builds of a serial there are, live or not.
    pub(crate) fn build_count(&self, serial: Serial) -> u64
        requires { AreKeptTables self.now }
        ensures { result ≡ length (filter (is_build_of serial) (tables_of self.now).builds) }
    {
        self.builds.count_of(serial)
    }

    /// The last builds of a serial, live or not, by number, no more than `most`.
    pub(crate) fn last_builds(
        &self,
        alloc: Global,
        serial: Serial,
        most: u32,
    ) -> Result<Sequence<BuildSummary>, NoMemory>
        requires { AreKeptTables self.now }
        ensures { IfOk result (λ found. found
            ≡ map summary_of (last_of most (filter (is_build_of serial) (tables_of self.now).builds))) }
    {
        self.builds.last_of(alloc, serial, most)
    }

    /// All deliveries, or those behind that of an id, if there is one.
    pub(crate) fn behind(&self, after: Option<Id>) -> Option<&[Kept]>
        requires { AreKeptTables self.now }
        ensures there { IfSome result (λ ks. behind after (tables_of self.now).kept ≡ Some ks.now) }
        ensures missing { IfNone result (behind after (tables_of self.now).kept ≡ None) }
    {
        match after {
            Some(id) => self.replies.behind(&id),
            None => Some(self.replies.rows()),
        }
    }
}
