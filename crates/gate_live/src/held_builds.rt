//! The builds held in memory: all live builds of each known item. So memory grows with the queued items, never with the
//! history.
ghost use Rattle.std.specs.Prelude.{◌≡◌, ◌<◌, ℕ, suc, List, [], filter, length, true, IfOk, IfSome, OnOk, vec_len};
ghost use Rattle.std.specs.Prelude.{vec_capacity};
ghost use Rattle.std.specs.List.{AllByRecursion};
ghost use Rattle.gate_types.specs.declared.edits.Edit.TheVariants as edit;
ghost use Rattle.gate_types.specs.State.{put_by};
ghost use Rattle.gate_types.specs.Rising.{RisesFrom};
ghost use Rattle.gate_memory.specs.Builds as build_table;
ghost use Rattle.gate_memory.specs.Builds.{is_live_of, number_of_build};
ghost use Rattle.gate_memory.specs.TableReads.{builds_of_rows};
ghost use Rattle.gate_live.specs.HeldBuilds.{AreBuildsKept, AreBuildsOf, HaveBuildRoom, edited_held, is_live_known};
ghost use Rattle.gate_live.specs.HeldBuilds.{known_of, knows, put_in_turn, serial_of};

use gate_memory::{BuildTable, Keyed, at, builds_of, put, remove};
use gate_types::names::NoMemory;
use gate_types::numbers::{BuildNo, Serial};
use gate_types::records::{Build, Item, Outcome};
use gate_types::sequence::Sequence;
use std::alloc::{AllocError, Global};

/// A known item: all its live builds are held.
#[derive(Clone, Copy)]
pub struct Known {
    serial: Serial,
}

impl Keyed for Known {
    ghost use Rattle.gate_live.specs.HeldBuilds.{serial_of};

    ghost key = { serial_of };

    fn key(&self) -> u128 {
        self.serial.get() as u128
    }
}

/// The held builds, which are all live builds of the known items and no others.
#[derive(Drop)]
pub struct HeldBuilds {
    table: BuildTable,
    known: Vec<Known>,
}

/// Copies builds. Fails if memory is refused.
fn copies(alloc: Global, builds: &[Build]) -> Result<Vec<Build>, NoMemory>
    ensures { IfOk result (λ copies. copies.items ≡ builds.now) }
{
    let mut copies = Vec::new(alloc);
    for build in builds {
        copies.push(build.copy()?)?;
    }
    Ok(copies)
}

/// Puts builds one after another. There must be room for all of them.
fn put_builds(builds: &mut BuildTable, found: Vec<Build>)
    requires kept { build_table.IsKeptBuildTable builds.old }
    requires room { build_table.HaveRoom (length found.items) builds.old }
    ensures rows { builds.new.rows.items ≡ put_in_turn found.items builds.old.rows.items }
    ensures kept { build_table.IsKeptBuildTable builds.new }
{
    for build in found {
        builds.put(build);
    }
}

impl HeldBuilds {
    /// Holds no build and knows no item.
    pub(crate) fn new(alloc: Global) -> HeldBuilds
        ensures rows { known_of result ≡ record { rows = []; known = [] } }
        ensures kept { AreBuildsKept result }
    {
        HeldBuilds {
            table: BuildTable::new(alloc),
            known: Vec::new(alloc),
        }
    }

    /// Whether the item with this serial is known.
    pub(crate) fn knows(&self, serial: Serial) -> bool
        requires { AreBuildsKept self.now }
        ensures { result ≡ knows (known_of self.now).known serial }
    {
        match at(&self.known, serial.get() as u128) {
            Some(_) => true,
            None => false,
        }
    }

    /// Allocates room for `n` more builds. Fails if memory is refused. Either way, the held builds stay unchanged.
    pub(crate) fn make_room(&mut self, n: usize) -> Result<(), AllocError>
        requires { AreBuildsKept self.old }
        ensures rows { known_of self.new ≡ known_of self.old }
        ensures kept { AreBuildsKept self.new }
        ensures room { OnOk result (HaveBuildRoom n self.new) }
    {
        self.table.make_room(n)?;
        Ok(())
    }

    /// Whether a build is live and its item is known.
    fn is_live_known(&self, build: &Build) -> bool
        requires { AreBuildsKept self.now }
        ensures { result ≡ is_live_known (known_of self.now).known build.now }
    {
        build.live && self.knows(build.serial)
    }

    /// Puts a build if it is live and its item is known; otherwise drops the build held under its number, if any. There
    /// must be room for one build.
    pub(crate) fn put(&mut self, build: Build)
        requires kept { AreBuildsKept self.old }
        requires room { HaveBuildRoom 1 self.old }
        ensures rows { known_of self.new ≡ edited_held (known_of self.old) (edit.PutBuild build) }
        ensures kept { AreBuildsKept self.new }
        ensures room { (n : ℕ) → HaveBuildRoom (suc n) self.old → HaveBuildRoom n self.new }
    {
        if self.is_live_known(&build) {
            self.table.put(build);
        } else {
            self.table.remove(build.number);
        }
    }

    /// Drops the held builds of an item, which is then no longer known.
    pub(crate) fn forget(&mut self, serial: Serial)
        requires { AreBuildsKept self.old }
        ensures rows { known_of self.new ≡ edited_held (known_of self.old) (edit.DropItem serial) }
        ensures kept { AreBuildsKept self.new }
        ensures room { (n : ℕ) → HaveBuildRoom n self.old → HaveBuildRoom n self.new }
    {
        remove(&mut self.known, serial.get() as u128);
        self.table.drop_of(serial);
    }

    /// Sets the outcome of a build, if the build is held.
    pub(crate) fn set_outcome(&mut self, number: BuildNo, outcome: Outcome)
        requires { AreBuildsKept self.old }
        ensures rows { known_of self.new ≡ edited_held (known_of self.old)
            (edit.SetOutcome number outcome) }
        ensures kept { AreBuildsKept self.new }
        ensures room { (n : ℕ) → HaveBuildRoom n self.old → HaveBuildRoom n self.new }
    {
        self.table.set_outcome(number, outcome);
    }

    /// Drops a build that is no longer live, if the build is held.
    pub(crate) fn stop(&mut self, number: BuildNo)
        requires { AreBuildsKept self.old }
        ensures rows { known_of self.new ≡ edited_held (known_of self.old) (edit.StopBuild number) }
        ensures kept { AreBuildsKept self.new }
        ensures room { (n : ℕ) → HaveBuildRoom n self.old → HaveBuildRoom n self.new }
    {
        self.table.remove(number);
    }

    /// Copies these builds, and allocates room for them and for one more known item. Fails if memory is refused. Either
    /// way, the held builds stay unchanged.
    fn copies_for(&mut self, alloc: Global, found: &[Build]) -> Result<Vec<Build>, NoMemory>
        requires { AreBuildsKept self.old }
        ensures copies { IfOk result (λ copies. copies.items ≡ found.now) }
        ensures rows { known_of self.new ≡ known_of self.old }
        ensures kept { AreBuildsKept self.new }
        ensures room { IfOk result (λ copies. HaveBuildRoom (length copies.items) self.new) }
        ensures one { OnOk result (vec_len self.new.known < vec_capacity self.new.known) }
    {
        let copies = copies(alloc, found)?;
        self.table.make_room(copies.len())?;
        self.known.reserve(1)?;
        Ok(copies)
    }

    /// Holds copies of all live builds of an item, which is known from then on. If memory is refused, nothing changes.
    pub(crate) fn hold(&mut self, alloc: Global, serial: Serial, found: &[Build])
        requires { AreBuildsKept self.old }
        ensures held { (all : List Build) → RisesFrom number_of_build 0 all →
            found.now ≡ filter (is_live_of serial) all →
            AreBuildsOf (known_of self.old) all → AreBuildsOf (known_of self.new) all }
        ensures kept { AreBuildsKept self.new }
    {
        match self.copies_for(alloc, found) {
            Ok(copies) => self.put_known(serial, copies),
            Err(_) => {}
        }
    }

    /// Puts all live builds of an item, which is known from then on. There must be room for them and for one more known
    /// item.
    fn put_known(&mut self, serial: Serial, found: Vec<Build>)
        requires kept { AreBuildsKept self.old }
        requires room { HaveBuildRoom (length found.items) self.old }
        requires one { vec_len self.old.known < vec_capacity self.old.known }
        ensures rows { known_of self.new ≡ record {
          rows = put_in_turn found.items (known_of self.old).rows;
          known = put_by serial_of (record { serial = serial }) (known_of self.old).known;
        } }
        ensures kept { AreBuildsKept self.new }
    {
        put_builds(&mut self.table, found);
        put(&mut self.known, Known { serial });
    }

    /// The live builds of an item. `None` if the item isn't known or memory is refused.
    pub(crate) fn of_item(&self, alloc: Global, serial: Serial) -> Option<Sequence<Build>>
        requires { AreBuildsKept self.now }
        ensures { IfSome result (λ found. (all : List Build) → AreBuildsOf (known_of self.now) all →
            found ≡ filter (is_live_of serial) all) }
    {
        if !self.knows(serial) {
            return None;
        }
        match self.table.live_of(alloc, serial) {
            Ok(found) => Some(found),
            Err(_) => None,
        }
    }

    /// The live builds of some items, item by item. `None` if one of the items isn't known or memory is refused.
    pub(crate) fn of_items(&self, alloc: Global, items: &[Item]) -> Option<Sequence<Build>>
        requires { AreBuildsKept self.now }
        ensures { IfSome result (λ found. (all : List Build) → AreBuildsOf (known_of self.now) all →
            found ≡ builds_of_rows all items.now) }
    {
        if !self.know_all(items) {
            return None;
        }
        match builds_of(alloc, &self.table, items) {
            Ok(found) => Some(found),
            Err(_) => None,
        }
    }

    /// Whether all these items are known.
    fn know_all(&self, items: &[Item]) -> bool
        requires { AreBuildsKept self.now }
        ensures { result ≡ true → AllByRecursion (λ i. knows (known_of self.now).known i.serial ≡ true) items.now }
    {
        for item in items {
            if !self.knows(item.serial) {
                return false;
            }
        }
        true
    }
}
