//! One queue of a book in memory.
ghost use Rattle.std.specs.Prelude.{◌≡◌, ◌==◌, ℕ, suc, [], find, filter, length, take, drop, option_map, ◌<◌, ◌≤◌};
ghost use Rattle.std.specs.Prelude.{◌+◌, ◌-◌, ◌^◌, nat_lt, IfOk, OnOk, vec_len, vec_capacity};
ghost use Rattle.std.specs.List.{filter_map};
ghost use Rattle.std.specs.Option.{option_copied};
ghost use Rattle.gate_types.specs.Names.{same_name};
ghost use Rattle.gate_types.specs.State.{put_by};
ghost use Rattle.gate_types.specs.Tables.{edited_queue};
ghost use Rattle.gate_memory.specs.Sorted.{passing_at, first_of, without};
ghost use Rattle.gate_memory.specs.Pairs.{IsFit};
ghost use Rattle.gate_memory.specs.Needs.{IsRising, TellsSerials};
ghost use Rattle.gate_memory.specs.Queues as entries;
ghost use Rattle.gate_memory.specs.Queues.{IsKeptQueueTable, HasRoomForRows, rows_of_table, is_item_of};
ghost use Rattle.gate_book_trait.specs.RowReads.{landing_serial};
ghost use Rattle.gate_book_trait.specs.Reads as read;
ghost use Rattle.gate_types.specs.Limits.{most_listed};
ghost use Rattle.gate_types.specs.Keys.{serial_of_item};
ghost use Rattle.gate_types.specs.Rising.{RisesFrom, In};

use crate::needs::add_seconds;
use crate::pairs::{Pair, of_first};
use crate::reports::ReportTable;
use crate::sorted;
use crate::sorted::Keyed;
use gate_archive::LeftItem;
use gate_book_trait::QueuedItem;
use gate_types::edits::Edit;
use gate_types::names::{Name, NoMemory, same_name};
use gate_types::numbers::{ChangeNo, Serial};
use gate_types::records::Item;
use gate_types::rows::{LandingRow, ReportRow};
use gate_types::sequence::Sequence;
use std::alloc::{AllocError, Global};

/// The items of a queue by serial, an index of them (pairs of change and serial), its landings and
/// reports by place.
#[derive(Drop)]
pub struct QueueTable {
    name: Name,
    window: u32,
    items: Vec<Item>,
    entries: Vec<Pair>,
    landings: Vec<LandingRow>,
    reports: ReportTable,
}

impl Keyed for Item {
    ghost use Rattle.gate_types.specs.Keys.{serial_of_item};

    ghost key = { serial_of_item };

    fn key(&self) -> u128 {
        self.serial.get() as u128
    }
}

impl Keyed for LandingRow {
    ghost use Rattle.gate_types.specs.Keys.{place_of_landing};

    ghost key = { place_of_landing };

    fn key(&self) -> u128 {
        self.place as u128
    }
}

fn entry_of(item: &Item) -> Pair
    ensures entry { result ≡ entries.indexed_item item.now }
    ensures fit { IsFit result }
{
    Pair {
        first: item.change.get(),
        second: item.serial.get(),
    }
}

fn put_row(items: &mut Vec<Item>, item: &Item)
    requires room { vec_len items.old < vec_capacity items.old }
    requires rising { RisesFrom serial_of_item 0 items.old.items }
    ensures rows { items.new.items ≡ put_by serial_of_item item.now items.old.items }
    ensures rising { RisesFrom serial_of_item 0 items.new.items }
    ensures len { vec_len items.new ≤ vec_len items.old + 1 }
    ensures capacity { vec_capacity items.new ≡ vec_capacity items.old }
{
    let Item {
        serial,
        change,
        revision,
        ahead,
        failing,
    } = *item;
    sorted::put(
        items,
        Item {
            serial,
            change,
            revision,
            ahead,
            failing,
        },
    );
}

impl QueueTable {
    pub fn new(alloc: Global, name: Name, window: u32) -> Self
        ensures rows { rows_of_table result
            ≡ record { name = name; window = window; items = []; landings = []; reports = [] } }
        ensures kept { IsKeptQueueTable result }
    {
        QueueTable {
            name,
            window,
            items: Vec::new(alloc),
            entries: Vec::new(alloc),
            landings: Vec::new(alloc),
            reports: ReportTable::new(alloc),
        }
    }

    /// Makes room for `n` more rows of each kind. The rows stay, whatever the result.
    pub fn make_room(&mut self, n: usize) -> Result<(), AllocError>
        requires { IsKeptQueueTable self.old }
        ensures rows { rows_of_table self.new ≡ rows_of_table self.old }
        ensures kept { IsKeptQueueTable self.new }
        ensures room { OnOk result (HasRoomForRows n self.new) }
    {
        self.items.reserve(n)?;
        self.entries.reserve(n)?;
        self.landings.reserve(n)?;
        self.reports.make_room(n)?;
        Ok(())
    }

    /// Puts an item where there is room, in place of one with its serial.
    pub fn put_item(&mut self, item: &Item)
        requires kept { IsKeptQueueTable self.old }
        requires room { HasRoomForRows 1 self.old }
        ensures rows { rows_of_table self.new
            ≡ record (rows_of_table self.old) { items = put_by serial_of_item item.now self.old.items.items } }
        ensures kept { IsKeptQueueTable self.new }
        ensures room { (n : ℕ) → HasRoomForRows (suc n) self.old → HasRoomForRows n self.new }
    {
        put_row(&mut self.items, item);
        sorted::put(&mut self.entries, entry_of(item));
    }

    fn drop_item(&mut self, serial: Serial)
        requires kept { IsKeptQueueTable self.old }
        ensures rows { rows_of_table self.new
            ≡ record (rows_of_table self.old) { items = without serial_of_item serial self.old.items.items } }
        ensures kept { IsKeptQueueTable self.new }
        ensures room { (n : ℕ) → HasRoomForRows (suc n) self.old → HasRoomForRows n self.new }
    {
        let key = serial.get() as u128;
        if let Some(item) = sorted::at(&self.items, key) {
            let entry = entry_of(item);
            sorted::remove(&mut self.entries, entry.key());
            sorted::remove(&mut self.items, key);
        }
    }

    /// One edit, where there is room; it leaves the queue if it isn't of its rows.
    pub fn apply(&mut self, edit: &Edit)
        requires kept { IsKeptQueueTable self.old }
        requires room { HasRoomForRows 1 self.old }
        ensures rows { rows_of_table self.new ≡ edited_queue edit.now (rows_of_table self.old) }
        ensures kept { IsKeptQueueTable self.new }
        ensures room { (n : ℕ) → HasRoomForRows (suc n) self.old → HasRoomForRows n self.new }
    {
        match edit {
            Edit::PutItem { queue, item } if same_name(queue, &self.name) => self.put_item(item),
            Edit::DropItem(serial) | Edit::LandItem(serial) => self.drop_item(*serial),
            Edit::PutLanding {
                queue,
                place,
                landing,
            } if same_name(queue, &self.name) => sorted::put(
                &mut self.landings,
                LandingRow {
                    place: *place,
                    landing: *landing,
                },
            ),
            Edit::PutReport {
                queue,
                place,
                report,
            } if same_name(queue, &self.name) => self.reports.put(ReportRow {
                place: *place,
                report: *report,
            }),
            Edit::SetWindow { queue, window } if same_name(queue, &self.name) => {
                self.window = *window
            }
            _ => {}
        }
    }

    pub fn item(&self, serial: Serial) -> Option<&Item>
        requires { IsKeptQueueTable self.now }
        ensures { option_copied result ≡ find (λ i. i.serial == serial) (rows_of_table self.now).items }
    {
        sorted::at(&self.items, serial.get() as u128)
    }

    /// The item of a change.
    pub fn item_of(&self, change: ChangeNo) -> Option<&Item>
        requires { IsKeptQueueTable self.now }
        ensures { option_copied result ≡ find (λ i. i.change == change) (rows_of_table self.now).items }
    {
        first_item(&self.items, of_first(&self.entries, change.get()), change)
    }

    /// Adds the serials of the items of a change.
    pub fn add_serials(&self, serials: &mut Vec<u64>, change: u64) -> Result<(), NoMemory>
        requires kept { IsKeptQueueTable self.now }
        requires rising { IsRising serials.old.items }
        requires next { change + 1 < 2 ^ 64 }
        ensures rising { OnOk result (IsRising serials.new.items) }
        ensures told { OnOk result (TellsSerials change serials.new.items (rows_of_table self.now).items) }
        ensures others { OnOk result ((n : ℕ) → In n serials.old.items → In n serials.new.items) }
    {
        add_seconds(serials, of_first(&self.entries, change))?;
        Ok(())
    }

    /// The item of a change, with the name of this queue.
    pub fn queued(&self, change: ChangeNo) -> Result<Option<QueuedItem>, NoMemory>
        requires { IsKeptQueueTable self.now }
        ensures { IfOk result (λ found. found
            ≡ option_map (λ i. record { queue = (rows_of_table self.now).name; item = i })
            (find (λ i. i.change == change) (rows_of_table self.now).items)) }
    {
        match self.item_of(change) {
            Some(item) => Ok(Some(QueuedItem {
                queue: self.name.copy()?,
                item: *item,
            })),
            None => Ok(None),
        }
    }

    pub fn name(&self) -> &str
        ensures { result.now ≡ (rows_of_table self.now).name }
    {
        self.name.as_str()
    }

    pub fn has_name(&self, name: &str) -> bool
        ensures { result ≡ same_name self.now.name name.now }
    {
        self.name.as_str() == name
    }

    pub fn window(&self) -> u32
        ensures { result ≡ (rows_of_table self.now).window }
    {
        self.window
    }

    /// The same queue with another window.
    pub fn resized(self, window: u32) -> QueueTable
        requires { IsKeptQueueTable self }
        ensures rows { rows_of_table result ≡ record (rows_of_table self) { window = window } }
        ensures kept { IsKeptQueueTable result }
    {
        let mut queue = self;
        queue.window = window;
        queue
    }

    pub fn item_count(&self) -> u64
        ensures { result ≡ length (rows_of_table self.now).items }
    {
        self.items.len() as u64
    }

    pub fn landing_count(&self) -> u64
        ensures { result ≡ length (rows_of_table self.now).landings }
    {
        self.landings.len() as u64
    }

    pub fn report_count(&self) -> u64
        ensures { result ≡ length (rows_of_table self.now).reports }
    {
        self.reports.rows().len() as u64
    }

    pub fn items(&self, alloc: Global) -> Result<Sequence<Item>, NoMemory>
        ensures { IfOk result (λ found. found ≡ (rows_of_table self.now).items) }
    {
        let items = Vec::from_slice(alloc, &self.items)?;
        Ok(Sequence::from_vec(items))
    }

    pub fn item_rows(&self) -> &[Item]
        requires { IsKeptQueueTable self.now }
        ensures rows { result.now ≡ (rows_of_table self.now).items }
        ensures rising { RisesFrom serial_of_item 0 result.now }
    {
        &self.items
    }

    pub fn report_rows(&self) -> &[ReportRow]
        ensures { result.now ≡ (rows_of_table self.now).reports }
    {
        self.reports.rows()
    }

    /// The reports from the `from`th on, from 1, no more than 1,000.
    pub fn reports_from(&self, from: u64) -> &[ReportRow]
        ensures { result.now ≡ take most_listed (drop (from - 1) (rows_of_table self.now).reports) }
    {
        self.reports.page(from)
    }

    /// The report of the item of a serial that left, with the name of this queue.
    pub fn left(&self, serial: Serial) -> Result<Option<LeftItem>, NoMemory>
        requires { IsKeptQueueTable self.now }
        ensures { IfOk result (λ found. found
            ≡ option_map (λ r. record { queue = (rows_of_table self.now).name; report = r.report })
            (find (λ r. r.report.serial == serial) (rows_of_table self.now).reports)) }
    {
        match self.reports.of_serial(serial) {
            Some(row) => Ok(Some(LeftItem {
                queue: self.name.copy()?,
                report: row.report,
            })),
            None => Ok(None),
        }
    }

    /// The first item above a serial.
    pub fn next_item(&self, above: u64) -> Option<Item>
        requires { IsKeptQueueTable self.now }
        ensures { result ≡ read.first_above above (rows_of_table self.now).items }
    {
        sorted::above(&self.items, above).copied()
    }

    /// The last item below a serial.
    pub fn last_item(&self, below: u64) -> Option<Item>
        requires { IsKeptQueueTable self.now }
        ensures { result ≡ read.last_item_below below (rows_of_table self.now).items }
    {
        sorted::last_below(&self.items, below).copied()
    }

    /// The items above a serial.
    pub fn items_behind(&self, above: u64) -> &[Item]
        requires { IsKeptQueueTable self.now }
        ensures rows { result.now ≡ filter (λ i. nat_lt above i.serial) (rows_of_table self.now).items }
        ensures rising { RisesFrom serial_of_item 0 result.now }
    {
        sorted::behind(&self.items, above)
    }

    /// The items above one serial, up to another.
    pub fn items_between(&self, above: u64, last: Serial) -> &[Item]
        requires { IsKeptQueueTable self.now }
        ensures { result.now ≡ read.items_between above last (rows_of_table self.now).items }
    {
        sorted::up_to(self.items_behind(above), last.get())
    }

    /// The first items above a serial, no more than `most`.
    pub fn next_items(
        &self,
        alloc: Global,
        above: u64,
        most: u32,
    ) -> Result<Sequence<Item>, NoMemory>
        requires { IsKeptQueueTable self.now }
        ensures { IfOk result (λ found. found ≡ read.first_items_above above most (rows_of_table self.now).items) }
    {
        let items = Vec::from_slice(alloc, sorted::first(self.items_behind(above), most))?;
        Ok(Sequence::from_vec(items))
    }

    /// How many landings have a lower serial, where these rise.
    pub fn landings_before(&self, serial: Serial) -> u64
        ensures { RisesFrom landing_serial 0 (rows_of_table self.now).landings
            → result ≡ length (filter (λ r. nat_lt (landing_serial r) serial) (rows_of_table self.now).landings) }
    {
        count_below(&self.landings, serial) as u64
    }
}

fn count_below(landings: &[LandingRow], serial: Serial) -> usize
    ensures { RisesFrom landing_serial 0 landings.now
        → result ≡ length (filter (λ r. nat_lt (landing_serial r) serial) landings.now) }
{
    landings.partition_point(|row| row.landing.serial.get() < serial.get())
}

/// The item of a serial, if it is of this change.
fn item_if(items: &[Item], serial: u64, change: ChangeNo) -> Option<&Item>
    requires { RisesFrom serial_of_item 0 items.now }
    ensures { option_copied result ≡ passing_at serial_of_item (is_item_of change) items.now serial }
{
    let item = sorted::at(items, serial as u128)?;
    if item.change == change {
        Some(item)
    } else {
        None
    }
}

/// The first item of a change, of the serials that the entries tell.
fn first_item<'a>(items: &'a [Item], entries: &[Pair], change: ChangeNo) -> Option<&'a Item>
    requires { RisesFrom serial_of_item 0 items.now }
    ensures { option_copied result
        ≡ first_of (filter_map (λ p. passing_at serial_of_item (is_item_of change) items.now p.second) entries.now) }
{
    for entry in entries {
        if let Some(item) = item_if(items, entry.second, change) {
            return Some(item);
        }
    }
    None
}
