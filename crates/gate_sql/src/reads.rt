//! A book's reads and edits, from the tables of a file.
use crate::book::SqlBook;
use gate_book_trait::{Book, BookFault, HistoryFault, QueuedItem};
use gate_file_changes::{apply, is_among};
use gate_types::edits::Edit;
use gate_types::names::Name;
use gate_types::numbers::{BuildNo, ChangeNo, Serial};
use gate_types::records::{Build, Change, Counters, Id, Item, Kept, Plan, Ready};
use gate_types::sequence::Sequence;
use gate_types::tap::Tap;
use sqlite::Alter;
use std::io::Write;

impl<S: Alter> Book for SqlBook<S> {
    ghost use Rattle.std.specs.Prelude.{⊤};
    ghost use Rattle.sqlite.specs.Held.{state};
    ghost use Rattle.sqlite.specs.State.{HasCleanDisk};
    ghost use Rattle.gate_table_laws.specs.Held.{HoldsFor, LeavesFor, one_more};

    ghost Holds = { λ book c x. HoldsFor (state S.Store book.conn) book.queues.items c x };

    ghost IsTrusted = { λ book. HasCleanDisk (state S.Store book.conn) };

    ghost LeavesOneOf = { λ book c xs. LeavesFor (state S.Store book.conn) c xs };

    ghost MayFault = { λ _. ⊤ };

    ghost leaves_more = { λ book c xs x leaves db may. one_more db c xs x (leaves db may) };

    fn delivery(&mut self, id: &Id) -> Result<Option<Kept>, BookFault> {
        gate_change_queries::delivery(&mut self.conn, id)
    }

    fn change(&mut self, number: ChangeNo) -> Result<Option<Change>, BookFault> {
        gate_change_queries::change(&mut self.conn, number)
    }

    fn window(&mut self, queue: &Name) -> Result<Option<u32>, BookFault> {
        gate_queue_queries::window(&mut self.conn, queue)
    }

    fn item_count(&mut self, queue: &Name) -> Result<u64, BookFault> {
        gate_queue_queries::item_count(&mut self.conn, queue)
    }

    fn landing_count(&mut self, queue: &Name) -> Result<u64, BookFault> {
        gate_queue_queries::landing_count(&mut self.conn, queue)
    }

    fn reports(&mut self, queue: &Name) -> Result<u64, BookFault> {
        gate_queue_queries::reports(&mut self.conn, queue)
    }

    fn landing_before(&mut self, queue: &Name, serial: Serial) -> Result<u64, BookFault> {
        gate_queue_queries::landing_before(&mut self.conn, queue, serial)
    }

    fn items(&mut self, queue: &Name) -> Result<Sequence<Item>, BookFault> {
        gate_item_queries::items(&mut self.conn, queue)
    }

    fn item(&mut self, serial: Serial) -> Result<Option<Item>, BookFault> {
        gate_item_queries::item(&mut self.conn, serial)
    }

    fn queued(&mut self, change: ChangeNo) -> Result<Option<QueuedItem>, BookFault> {
        gate_item_queries::queued(&mut self.conn, change)
    }

    fn next_item(&mut self, queue: &Name, above: u64) -> Result<Option<Item>, BookFault> {
        gate_item_queries::next_item(&mut self.conn, queue, above)
    }

    fn last_item(&mut self, queue: &Name, below: u64) -> Result<Option<Item>, BookFault> {
        gate_item_queries::last_item(&mut self.conn, queue, below)
    }

    fn next_items(
        &mut self,
        queue: &Name,
        above: u64,
        most: u32,
    ) -> Result<Sequence<Item>, BookFault> {
        gate_item_queries::next_items(&mut self.conn, queue, above, most)
    }

    fn needing(
        &mut self,
        queue: &Name,
        change: ChangeNo,
        above: u64,
    ) -> Result<Sequence<Item>, BookFault> {
        gate_item_queries::needing(&mut self.conn, queue, change, above)
    }

    fn plan(&mut self, serial: Serial) -> Result<Option<Plan>, BookFault> {
        gate_build_queries::plan(&mut self.conn, serial)
    }

    fn live_builds(&mut self, serial: Serial) -> Result<Sequence<Build>, BookFault> {
        gate_build_queries::live_builds(&mut self.conn, serial)
    }

    fn plans_between(
        &mut self,
        queue: &Name,
        above: u64,
        last: Serial,
    ) -> Result<Sequence<Plan>, BookFault> {
        gate_build_queries::plans_between(&mut self.conn, queue, above, last)
    }

    fn builds_between(
        &mut self,
        queue: &Name,
        above: u64,
        last: Serial,
    ) -> Result<Sequence<Build>, BookFault> {
        gate_build_queries::builds_between(&mut self.conn, queue, above, last)
    }

    fn build(&mut self, number: BuildNo) -> Result<Option<Build>, BookFault> {
        gate_build_queries::build(&mut self.conn, number)
    }

    fn ready(&mut self) -> Result<Sequence<Ready>, BookFault> {
        gate_change_queries::ready(&mut self.conn)
    }

    fn approval(&mut self, change: ChangeNo) -> Result<Option<u64>, BookFault> {
        gate_change_queries::approval(&mut self.conn, change)
    }

    fn ready_needing(&mut self, change: ChangeNo) -> Result<Sequence<Ready>, BookFault> {
        gate_change_queries::ready_needing(&mut self.conn, change)
    }

    fn counters(&mut self) -> Result<Counters, BookFault> {
        gate_queue_queries::counters(&mut self.conn)
    }

    fn history<W: Write>(
        &mut self,
        queue: &str,
        front: &[u8],
        w: &mut Tap<W>,
    ) -> Result<(), HistoryFault> {
        if !is_among(self.queues.as_slice(), queue) {
            return Err(HistoryFault::NoQueue);
        }
        gate_queue_queries::history(self.alloc, &mut self.conn, queue, front, w)
    }

    fn apply(&mut self, edits: &[Edit]) -> Result<(), BookFault> {
        apply(self.alloc, &mut self.conn, self.queues.as_slice(), edits)
    }
}
