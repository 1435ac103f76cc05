//! The plans held in memory: those of queued items that have been read, each as it is in the book below.
ghost use Rattle.std.specs.Prelude.{◌≡◌, ◌==◌, ℕ, suc, List, [], if◌then◌else◌, find, is_some, true, IfOk, IfSome};
ghost use Rattle.std.specs.Prelude.{OnOk};
ghost use Rattle.std.specs.List.{AllByRecursion};
ghost use Rattle.gate_types.specs.State.{put_by};
ghost use Rattle.gate_types.specs.Keys.{serial_of_plan};
ghost use Rattle.gate_book_trait.specs.RowReads.{plans_of_rows};
ghost use Rattle.gate_memory.specs.Sorted.{without};
ghost use Rattle.gate_live.specs.HeldPlans.{ArePlansKept, ArePlansOf, HavePlanRoom, plans_held};

use gate_memory::{PlanTable, plans_of};
use gate_types::names::NoMemory;
use gate_types::numbers::Serial;
use gate_types::records::{Item, Plan};
use gate_types::sequence::Sequence;
use std::alloc::{AllocError, Global};

/// The held plans.
#[derive(Drop)]
pub struct HeldPlans {
    table: PlanTable,
}

impl HeldPlans {
    /// Holds no plan.
    pub(crate) fn new(alloc: Global) -> HeldPlans
        ensures rows { plans_held result ≡ [] }
        ensures kept { ArePlansKept result }
    {
        HeldPlans {
            table: PlanTable::new(alloc),
        }
    }

    /// Allocates room for `n` more plans. Fails if memory is refused. Either way, the held plans stay unchanged.
    pub(crate) fn make_room(&mut self, n: usize) -> Result<(), AllocError>
        requires { ArePlansKept self.old }
        ensures rows { plans_held self.new ≡ plans_held self.old }
        ensures kept { ArePlansKept self.new }
        ensures room { OnOk result (HavePlanRoom n self.new) }
    {
        self.table.make_room(n)?;
        Ok(())
    }

    /// Puts a plan if its item is held (`is_item`); otherwise drops the plan held under its serial, if any. There must
    /// be room for one plan.
    pub(crate) fn put(&mut self, plan: Plan, is_item: bool)
        requires kept { ArePlansKept self.old }
        requires room { HavePlanRoom 1 self.old }
        ensures rows { plans_held self.new ≡ (if is_item then put_by serial_of_plan plan (plans_held self.old)
            else without serial_of_plan plan.serial (plans_held self.old)) }
        ensures kept { ArePlansKept self.new }
        ensures room { (n : ℕ) → HavePlanRoom (suc n) self.old → HavePlanRoom n self.new }
    {
        if is_item {
            self.table.put(plan);
        } else {
            self.table.remove(plan.serial);
        }
    }

    /// Drops the plan with this serial, if it is held.
    pub(crate) fn forget(&mut self, serial: Serial)
        requires { ArePlansKept self.old }
        ensures rows { plans_held self.new ≡ without serial_of_plan serial (plans_held self.old) }
        ensures kept { ArePlansKept self.new }
        ensures room { (n : ℕ) → HavePlanRoom n self.old → HavePlanRoom n self.new }
    {
        self.table.remove(serial);
    }

    /// Holds a copy of the plan that was read, if one was found. If memory is refused, nothing changes.
    pub(crate) fn hold(&mut self, found: &Option<Plan>)
        requires { ArePlansKept self.old }
        ensures held { (all : List Plan) (n : ℕ) → found.now ≡ find (λ p. p.serial == n) all →
            ArePlansOf (plans_held self.old) all → ArePlansOf (plans_held self.new) all }
        ensures kept { ArePlansKept self.new }
    {
        match found {
            Some(plan) => self.hold_one(plan),
            None => {}
        }
    }

    /// Holds a copy of this plan. If memory is refused, nothing changes.
    fn hold_one(&mut self, plan: &Plan)
        requires { ArePlansKept self.old }
        ensures held { (all : List Plan) (n : ℕ) → Some plan.now ≡ find (λ p. p.serial == n) all →
            ArePlansOf (plans_held self.old) all → ArePlansOf (plans_held self.new) all }
        ensures kept { ArePlansKept self.new }
    {
        match self.copy_for(plan) {
            Ok(copy) => self.table.put(copy),
            Err(_) => {}
        }
    }

    /// Copies this plan and allocates room for it. Fails if memory is refused. Either way, the held plans stay
    /// unchanged.
    fn copy_for(&mut self, plan: &Plan) -> Result<Plan, NoMemory>
        requires { ArePlansKept self.old }
        ensures copy { IfOk result (λ copy. copy ≡ plan.now) }
        ensures rows { plans_held self.new ≡ plans_held self.old }
        ensures kept { ArePlansKept self.new }
        ensures room { OnOk result (HavePlanRoom 1 self.new) }
    {
        let copy = plan.copy()?;
        self.table.make_room(1)?;
        Ok(copy)
    }

    /// Whether the plan with this serial is held.
    pub(crate) fn has(&self, serial: Serial) -> bool
        requires { ArePlansKept self.now }
        ensures { result ≡ is_some (find (λ p. p.serial == serial) (plans_held self.now)) }
    {
        self.table.has(serial)
    }

    /// Copies the plan with this serial. `None` if it isn't held or memory is refused.
    pub(crate) fn plan(&self, serial: Serial) -> Option<Plan>
        requires { ArePlansKept self.now }
        ensures { IfSome result (λ plan. (all : List Plan) → ArePlansOf (plans_held self.now) all →
            Some plan ≡ find (λ p. p.serial == serial) all) }
    {
        match self.table.get(serial) {
            Ok(found) => found,
            Err(_) => None,
        }
    }

    /// The plans of some items, item by item. `None` if one of them isn't held or memory is refused.
    pub(crate) fn of_items(&self, alloc: Global, items: &[Item]) -> Option<Sequence<Plan>>
        requires { ArePlansKept self.now }
        ensures { IfSome result (λ found. (all : List Plan) → ArePlansOf (plans_held self.now) all →
            found ≡ plans_of_rows all items.now) }
    {
        if !self.has_all(items) {
            return None;
        }
        match plans_of(alloc, &self.table, items) {
            Ok(found) => Some(found),
            Err(_) => None,
        }
    }

    /// Whether the plans of all these items are held.
    fn has_all(&self, items: &[Item]) -> bool
        requires { ArePlansKept self.now }
        ensures { result ≡ true → AllByRecursion
            (λ i. is_some (find (λ p. p.serial == i.serial) (plans_held self.now)) ≡ true) items.now }
    {
        for item in items {
            if !self.has(item.serial) {
                return false;
            }
        }
        true
    }
}
