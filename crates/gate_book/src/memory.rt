//! A book in memory.
ghost use Rattle.std.specs.Prelude.{◌≡◌, true, IfErr, IfOk, OnErr, OnOk};
ghost use Rattle.gate_types.specs.Once.{Content, empty};
ghost use Rattle.gate_types.specs.Adopt.{may_adopt, adopted_content};
ghost use Rattle.gate_types.specs.Settings.{Settings};
ghost use Rattle.gate_book.specs.Memory.{RefusesSettings, adopted_held, held, start_with};

use crate::tables::MemTables;
use crate::writing::write_history;
use gate_book_trait::{Book, BookFault, HistoryFault, QueuedItem};
use gate_memory::{count_needs, named};
use gate_types::adopting::may_adopt;
use gate_types::config::Config;
use gate_types::edits::Edit;
use gate_types::names::{Name, NoMemory};
use gate_types::numbers::{BuildNo, ChangeNo, Serial};
use gate_types::open_fault::OpenFault;
use gate_types::records::{Build, Change, Counters, Id, Item, Kept, Plan, Ready};
use gate_types::sequence::Sequence;
use gate_types::tap::Tap;
use std::alloc::Global;
use std::io::Write;
use std::marker::Model;

/// A book that keeps all in memory. A read by key takes the steps of a search for each row that it looks at. So does
/// an edit, and it moves the rows behind its own in a sorted table: mostly few, but many behind a need of a change from
/// long ago. Now and then a table moves to a larger place.
#[derive(Drop)]
pub struct MemBook {
    pub(crate) alloc: Global,
    // The settings in force: those that come are compared with them.
    config: Config,
    pub(crate) tables: MemTables,
}

impl Model for MemBook {
    ghost use Rattle.gate_book.specs.Memory.{Held};

    ghost Value = { Held };

    ghost use Rattle.gate_book.specs.Memory.{tables_of, AreKeptTables};

    ghost view = { λ m. record { settings = m.config; tables = tables_of m.tables } };

    ghost invariant = { λ m. AreKeptTables m.tables };
}

/// Edits as values of their own.
fn copies(alloc: Global, edits: &[Edit]) -> Result<Vec<Edit>, NoMemory>
    ensures { IfOk result (λ copies. copies.items ≡ edits.now) }
{
    let mut copies = Vec::new(alloc);
    for edit in edits {
        copies.push(edit.copy()?)?;
    }
    Ok(copies)
}

impl MemBook {
    /// The book of a gate that has seen no delivery.
    pub fn new(alloc: Global, config: &Config) -> Result<MemBook, NoMemory>
        ensures { IfOk result (λ book. book ≡ held config.now (empty config.now)) }
    {
        let counters = Counters {
            approval: 0,
            build: 0,
            order: 0,
        };
        MemBook::with_counters(alloc, config, counters)
    }

    /// The same, where these numbers were drawn before.
    pub fn with_counters(
        alloc: Global,
        config: &Config,
        counters: Counters,
    ) -> Result<MemBook, NoMemory>
        ensures { IfOk result (λ book. book ≡ held config.now (start_with config.now counters)) }
    {
        let tables = MemTables::new(alloc, config, counters)?;
        let config = config.copy()?;
        Ok(MemBook {
            alloc,
            config,
            tables,
        })
    }

    /// Takes other settings in place of those in force, all or none: every queue of these must be in them, and every
    /// project with the same queue, else `OtherSettings`. `Unavailable` where memory is refused.
    pub fn adopt(&mut self, config: &Config) -> Result<(), OpenFault>
        ensures adopted { OnOk result ((may_adopt self.old.settings config.now ≡ true) ×
            (self.new ≡ adopted_held config.now self.old)) }
        ensures holds { (c : Settings) (x : Content) → self.old ≡ held c x →
            OnOk result (self.new ≡ held config.now (adopted_content c config.now x)) }
        ensures refused { OnErr result (self.new ≡ self.old) }
        ensures fault { IfErr result (λ f. RefusesSettings f (may_adopt self.old.settings config.now)) }
    {
        if !may_adopt(&self.config, config) {
            return Err(OpenFault::OtherSettings);
        }
        let Ok(copy) = config.copy() else {
            return Err(OpenFault::Unavailable);
        };
        match self.tables.adopt(self.alloc, &self.config, config) {
            Ok(()) => {
                self.config = copy;
                Ok(())
            }
            Err(_) => Err(OpenFault::Unavailable),
        }
    }
}

impl Book for MemBook {
    ghost use Rattle.std.specs.Prelude.{◌≡◌};
    ghost use Rattle.gate_book.specs.Memory.{held};
    ghost use Rattle.gate_book_trait.specs.declared.fault.BookFault.TheVariants as fault;

    ghost Holds = { λ m c x. m ≡ held c x };

    ghost IsTrusted = { λ _. Unit {0} };

    ghost LeavesOneOf = { λ _ _ _. Unit {0} };

    ghost MayFault = { λ f. f ≡ fault.NoMemory };

    ghost leaves_more = { λ _ _ _ _ h. h };

    fn delivery(&mut self, id: &Id) -> Result<Option<Kept>, BookFault> {
        Ok(self.tables.delivery(id)?)
    }

    fn change(&mut self, number: ChangeNo) -> Result<Option<Change>, BookFault> {
        Ok(self.tables.change(number)?)
    }

    fn window(&mut self, queue: &Name) -> Result<Option<u32>, BookFault> {
        Ok(named::window(self.tables.queue_named(queue)))
    }

    fn item_count(&mut self, queue: &Name) -> Result<u64, BookFault> {
        Ok(named::item_count(self.tables.queue_named(queue)))
    }

    fn landing_count(&mut self, queue: &Name) -> Result<u64, BookFault> {
        Ok(self.tables.landing_count(queue))
    }

    fn reports(&mut self, queue: &Name) -> Result<u64, BookFault> {
        Ok(self.tables.reports(queue))
    }

    fn landing_before(&mut self, queue: &Name, serial: Serial) -> Result<u64, BookFault> {
        Ok(self.tables.landing_before(queue, serial))
    }

    fn items(&mut self, queue: &Name) -> Result<Sequence<Item>, BookFault> {
        let table = self.tables.queue_named(queue);
        Ok(named::items(self.alloc, table)?)
    }

    fn item(&mut self, serial: Serial) -> Result<Option<Item>, BookFault> {
        Ok(self.tables.item(serial))
    }

    fn queued(&mut self, change: ChangeNo) -> Result<Option<QueuedItem>, BookFault> {
        Ok(self.tables.queued(change)?)
    }

    fn next_item(&mut self, queue: &Name, above: u64) -> Result<Option<Item>, BookFault> {
        Ok(named::next_item(self.tables.queue_named(queue), above))
    }

    fn last_item(&mut self, queue: &Name, below: u64) -> Result<Option<Item>, BookFault> {
        Ok(named::last_item(self.tables.queue_named(queue), below))
    }

    fn next_items(
        &mut self,
        queue: &Name,
        above: u64,
        most: u32,
    ) -> Result<Sequence<Item>, BookFault> {
        let table = self.tables.queue_named(queue);
        Ok(named::next_items(self.alloc, table, above, most)?)
    }

    fn needing(
        &mut self,
        queue: &Name,
        change: ChangeNo,
        above: u64,
    ) -> Result<Sequence<Item>, BookFault> {
        Ok(self.tables.needing(self.alloc, queue, change, above)?)
    }

    fn plan(&mut self, serial: Serial) -> Result<Option<Plan>, BookFault> {
        Ok(self.tables.plan(serial)?)
    }

    fn live_builds(&mut self, serial: Serial) -> Result<Sequence<Build>, BookFault> {
        Ok(self.tables.live_builds(self.alloc, serial)?)
    }

    fn plans_between(
        &mut self,
        queue: &Name,
        above: u64,
        last: Serial,
    ) -> Result<Sequence<Plan>, BookFault> {
        Ok(self.tables.plans_between(self.alloc, queue, above, last)?)
    }

    fn builds_between(
        &mut self,
        queue: &Name,
        above: u64,
        last: Serial,
    ) -> Result<Sequence<Build>, BookFault> {
        Ok(self.tables.builds_between(self.alloc, queue, above, last)?)
    }

    fn build(&mut self, number: BuildNo) -> Result<Option<Build>, BookFault> {
        Ok(self.tables.build(number)?)
    }

    fn ready(&mut self) -> Result<Sequence<Ready>, BookFault> {
        Ok(self.tables.ready(self.alloc)?)
    }

    fn approval(&mut self, change: ChangeNo) -> Result<Option<u64>, BookFault> {
        Ok(self.tables.approval(change))
    }

    fn ready_needing(&mut self, change: ChangeNo) -> Result<Sequence<Ready>, BookFault> {
        Ok(self.tables.ready_needing(self.alloc, change)?)
    }

    fn counters(&mut self) -> Result<Counters, BookFault> {
        Ok(self.tables.counters())
    }

    fn history<W: Write>(
        &mut self,
        queue: &str,
        front: &[u8],
        w: &mut Tap<W>,
    ) -> Result<(), HistoryFault> {
        match self.tables.queue_called(queue) {
            Some(found) => {
                write_history(self.alloc, found.name(), found.report_rows(), front, w)
            }
            None => Err(HistoryFault::NoQueue),
        }
    }

    fn apply(&mut self, edits: &[Edit]) -> Result<(), BookFault> {
        let copies = copies(self.alloc, edits)?;
        let Some(needs) = count_needs(edits) else {
            return Err(BookFault::NoMemory);
        };
        self.tables.make_room(edits.len(), needs)?;
        self.tables.apply_all(copies);
        Ok(())
    }
}
