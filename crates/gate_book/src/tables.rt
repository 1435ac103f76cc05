//! All tables of a book in memory.
ghost use Rattle.std.specs.Prelude.{◌≡◌, ◌==◌, ◌+◌, ℕ, suc, length, find, filter, map, option_map, IfOk, OnErr, OnOk};
ghost use Rattle.std.specs.Prelude.{IfSome};
ghost use Rattle.std.specs.List.{AllByRecursion};
ghost use Rattle.std.specs.Option.{option_copied, option_map_or};
ghost use Rattle.gate_types.specs.Once.{kept_for};
ghost use Rattle.gate_types.specs.Tables.{edited_queue, edited_tables, fold_all, tables, change_in};
ghost use Rattle.gate_memory.specs.Changes as change_table;
ghost use Rattle.gate_memory.specs.Queues as queue;
ghost use Rattle.gate_memory.specs.Builds.{is_live_of};
ghost use Rattle.gate_memory.specs.Needs.{needs_brought, needs_of_all};
ghost use Rattle.gate_book_trait.specs.Reads as read;
ghost use Rattle.gate_book_trait.specs.RowReads.{approval_in, rows_named, items_named, needing_in};
ghost use Rattle.gate_book_trait.specs.RowReads.{plans_of_rows, all_queued, count_landings_below, LandingsRise};
ghost use Rattle.gate_memory.specs.TableReads.{IsWhatRowsTellOf, builds_of_rows};
ghost use Rattle.gate_book.specs.Memory.{tables_of, AreKeptTables, HasRoomInAll, HasRoomBeside, start_with};
ghost use Rattle.gate_types.specs.AdoptedTables.{adopted_tables, empty_rows};
ghost use Rattle.gate_types.specs.Counters.{capped};

use crate::adopting::adopt_queues;
use gate_book_trait::QueuedItem;
use gate_memory::{
    BuildTable, ChangeTable, LastNumbers, PlanTable, QueueTable, ReplyTable, apply_to_queues,
    builds_of, item_in, make_queues_room, needing_of, plans_of, queue_in, queued_in,
};
use gate_types::config::{Config, Queue};
use gate_types::edits::Edit;
use gate_types::names::{Name, NoMemory};
use gate_types::numbers::{BuildNo, ChangeNo, Serial};
use gate_types::records::{Build, Change, Counters, Id, Item, Kept, Plan, Ready};
use gate_types::rows::ChangeRow;
use gate_types::sequence::Sequence;
use std::alloc::{AllocError, Global};

/// The tables: the queues stand in the order of the settings.
#[derive(Drop)]
pub struct MemTables {
    changes: ChangeTable,
    pub(crate) queues: Vec<QueueTable>,
    plans: PlanTable,
    pub(crate) builds: BuildTable,
    drawn: LastNumbers,
    pub(crate) replies: ReplyTable,
}

/// The queues of the settings, with nothing in them.
fn empty_queues(alloc: Global, settings: &[Queue]) -> Result<Vec<QueueTable>, NoMemory>
    ensures rows { IfOk result (λ queues. map queue.rows_of_table queues.items ≡ map empty_rows settings.now) }
    ensures kept { IfOk result (λ queues. AllByRecursion queue.IsKeptQueueTable queues.items) }
{
    let mut queues = Vec::new(alloc);
    for setting in settings {
        queues.push(QueueTable::new(alloc, setting.name.copy()?, setting.window))?;
    }
    Ok(queues)
}

/// Makes room for `n` more rows in each queue.
fn make_room_in(queues: &mut Vec<QueueTable>, n: usize) -> Result<(), AllocError>
    requires { AllByRecursion queue.IsKeptQueueTable queues.old.items }
    ensures rows { map queue.rows_of_table queues.new.items ≡ map queue.rows_of_table queues.old.items }
    ensures kept { AllByRecursion queue.IsKeptQueueTable queues.new.items }
    ensures room { OnOk result (AllByRecursion (queue.HasRoomForRows n) queues.new.items) }
{
    make_queues_room(queues, n)
}

/// One edit of each queue, where there is room.
fn apply_in(queues: &mut Vec<QueueTable>, edit: &Edit)
    requires kept { AllByRecursion queue.IsKeptQueueTable queues.old.items }
    requires room { AllByRecursion (queue.HasRoomForRows 1) queues.old.items }
    ensures rows { map queue.rows_of_table queues.new.items
        ≡ map (edited_queue edit.now) (map queue.rows_of_table queues.old.items) }
    ensures kept { AllByRecursion queue.IsKeptQueueTable queues.new.items }
    ensures room { (n : ℕ) → AllByRecursion (queue.HasRoomForRows (suc n)) queues.old.items
        → AllByRecursion (queue.HasRoomForRows n) queues.new.items }
{
    apply_to_queues(queues, edit);
}

impl MemTables {
    pub(crate) fn new(alloc: Global, config: &Config, counters: Counters) -> Result<Self, NoMemory>
        ensures rows { IfOk result (λ t. tables_of t ≡ tables config.now (start_with config.now counters)) }
        ensures kept { IfOk result AreKeptTables }
    {
        Ok(MemTables {
            changes: ChangeTable::new(alloc),
            queues: empty_queues(alloc, config.queues.as_slice())?,
            plans: PlanTable::new(alloc),
            builds: BuildTable::new(alloc),
            drawn: LastNumbers::from_counters(counters),
            replies: ReplyTable::new(alloc),
        })
    }

    /// Other settings taken in place of the held ones: their queues in their order, each that is there under its new
    /// window. The tables stay where memory is refused.
    pub(crate) fn adopt(
        &mut self,
        alloc: Global,
        held: &Config,
        config: &Config,
    ) -> Result<(), NoMemory>
        requires { AreKeptTables self.old }
        ensures ok { OnOk result (tables_of self.new ≡ adopted_tables held.now config.now (tables_of self.old)) }
        ensures err { OnErr result (self.new ≡ self.old) }
        ensures kept { AreKeptTables self.new }
    {
        let mut queues = empty_queues(alloc, config.queues.as_slice())?;
        adopt_queues(
            held,
            config.queues.as_slice(),
            &mut self.queues,
            &mut queues,
        );
        self.queues = queues;
        Ok(())
    }

    /// Makes room for `n` edits, of which the changes have so many needs. The tables stay, whatever the result.
    pub(crate) fn make_room(&mut self, n: usize, needs: usize) -> Result<(), AllocError>
        requires { AreKeptTables self.old }
        ensures rows { tables_of self.new ≡ tables_of self.old }
        ensures kept { AreKeptTables self.new }
        ensures room { OnOk result (HasRoomInAll n needs self.new) }
    {
        self.changes.make_room(n, needs)?;
        make_room_in(&mut self.queues, n)?;
        self.plans.make_room(n)?;
        self.builds.make_room(n)?;
        self.replies.make_room(n)?;
        Ok(())
    }

    /// One edit, where there is room.
    fn apply(&mut self, edit: Edit)
        requires kept { AreKeptTables self.old }
        requires room { HasRoomInAll 1 (needs_brought edit) self.old }
        ensures rows { tables_of self.new ≡ edited_tables (tables_of self.old) edit }
        ensures kept { AreKeptTables self.new }
        ensures room { (n m : ℕ) → HasRoomInAll (suc n) (needs_brought edit + m) self.old → HasRoomInAll n m self.new }
    {
        apply_in(&mut self.queues, &edit);
        self.apply_to_others(edit);
    }

    /// One edit of what isn't in a queue.
    fn apply_to_others(&mut self, edit: Edit)
        requires kept { AreKeptTables self.old }
        requires room { HasRoomBeside 1 (needs_brought edit) self.old }
        ensures rows { tables_of self.new
            ≡ record (edited_tables (tables_of self.old) edit) { queues = (tables_of self.old).queues } }
        ensures queues { self.new.queues ≡ self.old.queues }
        ensures kept { AreKeptTables self.new }
        ensures room { (n m : ℕ) →
            HasRoomBeside (suc n) (needs_brought edit + m) self.old → HasRoomBeside n m self.new }
    {
        match edit {
            Edit::PutChange { change, approval } => {
                self.changes.put(ChangeRow { change, approval })
            }
            Edit::SetStage { change, stage } => self.changes.set_stage(change, stage),
            Edit::DropItem(serial) => self.plans.remove(serial),
            Edit::LandItem(serial) => self.plans.unmark(serial),
            Edit::PutPlan(plan) => self.plans.put(plan),
            Edit::PutBuild(build) => self.builds.put(build),
            Edit::SetOutcome { build, outcome } => self.builds.set_outcome(build, outcome),
            Edit::StopBuild(build) => self.builds.stop(build),
            Edit::SetCounter { counter, drawn } => self.drawn.set(counter, drawn),
            Edit::Keep(kept) => self.replies.keep(kept),
            _ => {}
        }
    }

    /// All edits, where there is room.
    pub(crate) fn apply_all(&mut self, edits: Vec<Edit>)
        requires kept { AreKeptTables self.old }
        requires room { HasRoomInAll (length edits.items) (needs_of_all edits.items) self.old }
        ensures rows { tables_of self.new ≡ fold_all (tables_of self.old) edits.items }
        ensures kept { AreKeptTables self.new }
    {
        for edit in edits {
            self.apply(edit);
        }
    }

    /// The queue that is called so, if one is.
    pub(crate) fn queue_called(&self, name: &str) -> Option<&QueueTable>
        requires { AreKeptTables self.now }
        ensures found { option_map queue.rows_of_table (option_copied result)
            ≡ rows_named (tables_of self.now).queues name.now }
        ensures kept { IfSome result (λ q. queue.IsKeptQueueTable q.now) }
    {
        queue_in(&self.queues, name)
    }

    /// The queue of a name.
    pub(crate) fn queue_named(&self, name: &Name) -> Option<&QueueTable>
        requires { AreKeptTables self.now }
        ensures found { option_map queue.rows_of_table (option_copied result)
            ≡ rows_named (tables_of self.now).queues name.now }
        ensures kept { IfSome result (λ q. queue.IsKeptQueueTable q.now) }
    {
        self.queue_called(name.as_str())
    }

    pub(crate) fn delivery(&self, id: &Id) -> Result<Option<Kept>, NoMemory>
        requires { AreKeptTables self.now }
        ensures { IfOk result (λ found. found ≡ kept_for id.now (tables_of self.now).kept) }
    {
        self.replies.get(id)
    }

    pub(crate) fn change(&self, number: ChangeNo) -> Result<Option<Change>, NoMemory>
        requires { AreKeptTables self.now }
        ensures { IfOk result (λ found. found ≡ change_in (tables_of self.now).changes number) }
    {
        self.changes.get(number)
    }

    pub(crate) fn landing_count(&self, queue: &Name) -> u64
        requires { AreKeptTables self.now }
        ensures { result ≡ option_map_or (λ q. length q.landings) (rows_named (tables_of self.now).queues queue.now) 0 }
    {
        match self.queue_named(queue) {
            Some(queue) => queue.landing_count(),
            None => 0,
        }
    }

    pub(crate) fn reports(&self, queue: &Name) -> u64
        requires { AreKeptTables self.now }
        ensures { result ≡ option_map_or (λ q. length q.reports) (rows_named (tables_of self.now).queues queue.now) 0 }
    {
        match self.queue_named(queue) {
            Some(queue) => queue.report_count(),
            None => 0,
        }
    }

    /// How many landings of a queue have a lower serial, where these rise.
    pub(crate) fn landing_before(&self, queue: &Name, serial: Serial) -> u64
        requires { AreKeptTables self.now }
        ensures { AllByRecursion LandingsRise (tables_of self.now).queues
            → result ≡
            option_map_or (count_landings_below serial) (rows_named (tables_of self.now).queues queue.now) 0 }
    {
        match self.queue_named(queue) {
            Some(queue) => queue.landings_before(serial),
            None => 0,
        }
    }

    pub(crate) fn item(&self, serial: Serial) -> Option<Item>
        requires { AreKeptTables self.now }
        ensures { result
            ≡ option_map (λ k. k.item) (find (λ k. k.item.serial == serial) (all_queued (tables_of self.now).queues)) }
    {
        item_in(&self.queues, serial).copied()
    }

    pub(crate) fn queued(&self, change: ChangeNo) -> Result<Option<QueuedItem>, NoMemory>
        requires { AreKeptTables self.now }
        ensures { IfOk result (λ found. found
            ≡ find (λ k. k.item.change == change) (all_queued (tables_of self.now).queues)) }
    {
        queued_in(&self.queues, change)
    }

    pub(crate) fn needing(
        &self,
        alloc: Global,
        queue: &Name,
        change: ChangeNo,
        above: u64,
    ) -> Result<Sequence<Item>, NoMemory>
        requires { AreKeptTables self.now }
        ensures { let tables = tables_of self.now in IfOk result (λ found. found
            ≡ needing_in tables.changes change above (items_named tables.queues queue.now)) }
    {
        match self.queue_named(queue) {
            Some(queue) => {
                let found = needing_of(alloc, queue, &self.changes, change, above)?;
                Ok(found)
            }
            None => Ok(Sequence::new(alloc)),
        }
    }

    pub(crate) fn plan(&self, serial: Serial) -> Result<Option<Plan>, NoMemory>
        requires { AreKeptTables self.now }
        ensures { IfOk result (λ found. found ≡ find (λ p. p.serial == serial) (tables_of self.now).plans) }
    {
        self.plans.get(serial)
    }

    pub(crate) fn live_builds(
        &self,
        alloc: Global,
        serial: Serial,
    ) -> Result<Sequence<Build>, NoMemory>
        requires { AreKeptTables self.now }
        ensures { IfOk result (λ found. found ≡ filter (is_live_of serial) (tables_of self.now).builds) }
    {
        self.builds.live_of(alloc, serial)
    }

    /// The items of a queue above one serial, up to another; none where there is no such queue.
    fn items_between(&self, queue: &Name, above: u64, last: Serial) -> &[Item]
        requires { AreKeptTables self.now }
        ensures { result.now ≡ read.items_between above last (items_named (tables_of self.now).queues queue.now) }
    {
        match self.queue_named(queue) {
            Some(queue) => queue.items_between(above, last),
            None => &[],
        }
    }

    pub(crate) fn plans_between(
        &self,
        alloc: Global,
        queue: &Name,
        above: u64,
        last: Serial,
    ) -> Result<Sequence<Plan>, NoMemory>
        requires { AreKeptTables self.now }
        ensures { IfOk result (λ found. found ≡ plans_of_rows (tables_of self.now).plans
            (read.items_between above last (items_named (tables_of self.now).queues queue.now))) }
    {
        plans_of(alloc, &self.plans, self.items_between(queue, above, last))
    }

    pub(crate) fn builds_between(
        &self,
        alloc: Global,
        queue: &Name,
        above: u64,
        last: Serial,
    ) -> Result<Sequence<Build>, NoMemory>
        requires { AreKeptTables self.now }
        ensures { IfOk result (λ found. found ≡ builds_of_rows (tables_of self.now).builds
            (read.items_between above last (items_named (tables_of self.now).queues queue.now))) }
    {
        builds_of(alloc, &self.builds, self.items_between(queue, above, last))
    }

    pub(crate) fn build(&self, number: BuildNo) -> Result<Option<Build>, NoMemory>
        requires { AreKeptTables self.now }
        ensures { IfOk result (λ found. found ≡ find (λ b. b.number == number) (tables_of self.now).builds) }
    {
        self.builds.get(number)
    }

    /// The ready changes in order of approval: exact for any list that the rows tell.
    pub(crate) fn ready(&self, alloc: Global) -> Result<Sequence<Ready>, NoMemory>
        requires { AreKeptTables self.now }
        ensures { IfOk result (change_table.IsWhatRowsTell (tables_of self.now).changes) }
    {
        self.changes.ready(alloc)
    }

    /// The ready changes that need this one, in order of approval: exact for any list that the rows tell.
    pub(crate) fn ready_needing(
        &self,
        alloc: Global,
        change: ChangeNo,
    ) -> Result<Sequence<Ready>, NoMemory>
        requires { AreKeptTables self.now }
        ensures { IfOk result (IsWhatRowsTellOf (tables_of self.now).changes change) }
    {
        self.changes.ready_needing(alloc, change)
    }

    /// The number of a change's approval, while it is ready.
    pub(crate) fn approval(&self, change: ChangeNo) -> Option<u64>
        requires { AreKeptTables self.now }
        ensures { result ≡ approval_in (tables_of self.now).changes change }
    {
        self.changes.approval(change)
    }

    /// The last numbers drawn, none above the last that there is.
    pub(crate) fn counters(&self) -> Counters
        ensures { result ≡ capped (tables_of self.now).counters }
    {
        self.drawn.counters()
    }
}
