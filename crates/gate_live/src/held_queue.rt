//! The live rows of one queue, held in memory.
ghost use Rattle.std.specs.Prelude.{◌≡◌, [], max, if◌then◌else◌};
ghost use Rattle.gate_types.specs.Names.{same_name};
ghost use Rattle.gate_memory.specs.Queues as queue;
ghost use Rattle.gate_live.specs.Held.{IsKeptQueue, queue_of};

use gate_book_trait::QueuedItem;
use gate_memory::{HoldsQueue, QueueTable};
use gate_types::edits::Edit;
use gate_types::names::{Name, NoMemory};
use gate_types::numbers::{ChangeNo, Serial};
use gate_types::records::Item;
use std::alloc::{AllocError, Global};

/// The window and the items of a queue, and its numbers of landings and reports.
#[derive(Drop)]
pub struct HeldQueue {
    table: QueueTable,
    landings: u64,
    reports: u64,
}

/// The larger of `place` and `last` if an edit of `queue` concerns the queue called `name`; otherwise `last`.
fn last_place(queue: &Name, name: &str, place: u64, last: u64) -> u64
    ensures { result ≡ (if same_name queue.now name.now then max place last else last) }
{
    if queue.as_str() == name {
        place.max(last)
    } else {
        last
    }
}

impl HeldQueue {
    /// Creates a queue without items.
    pub(crate) fn new(
        alloc: Global,
        name: Name,
        window: u32,
        landings: u64,
        reports: u64,
    ) -> HeldQueue
        ensures rows { queue_of result ≡ record {
          rows = record { name = name; window = window; items = []; landings = []; reports = [] };
          landings = landings;
          reports = reports;
        } }
        ensures kept { IsKeptQueue result }
    {
        HeldQueue {
            table: QueueTable::new(alloc, name, window),
            landings,
            reports,
        }
    }

    /// The table of this queue: its window and its items.
    pub(crate) fn table(&self) -> &QueueTable
        requires { IsKeptQueue self.now }
        ensures table { result.now ≡ self.now.table }
        ensures kept { queue.IsKeptQueueTable result.now }
    {
        &self.table
    }

    pub(crate) fn landing_count(&self) -> u64
        ensures { result ≡ self.now.landings }
    {
        self.landings
    }

    pub(crate) fn report_count(&self) -> u64
        ensures { result ≡ self.now.reports }
    {
        self.reports
    }
}

impl HoldsQueue for HeldQueue {
    ghost use Rattle.gate_live.specs.Live as live;
    ghost use Rattle.gate_live.specs.Held as held;

    ghost holds = { held.queue_of };

    ghost edited = { live.edited_live_queue };

    ghost IsKept = { held.IsKeptQueue };

    ghost HasRoom = { held.HasRoomIn };

    fn make_room(&mut self, n: usize) -> Result<(), AllocError> {
        self.table.make_room(n)
    }

    fn apply(&mut self, edit: &Edit) {
        match edit {
            Edit::PutLanding { queue, place, .. } => {
                self.landings = last_place(queue, self.table.name(), *place, self.landings)
            }
            Edit::PutReport { queue, place, .. } => {
                self.reports = last_place(queue, self.table.name(), *place, self.reports)
            }
            _ => self.table.apply(edit),
        }
    }

    fn has_name(&self, name: &str) -> bool {
        self.table.has_name(name)
    }

    fn item(&self, serial: Serial) -> Option<&Item> {
        self.table.item(serial)
    }

    fn queued(&self, change: ChangeNo) -> Result<Option<QueuedItem>, NoMemory> {
        self.table.queued(change)
    }
}
