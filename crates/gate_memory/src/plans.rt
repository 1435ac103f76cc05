//! The plans of a book in memory.
ghost use Rattle.std.specs.Prelude.{◌≡◌, ◌==◌, ℕ, suc, [], find, is_some, vec_capacity, vec_len, IfOk, OnOk};
ghost use Rattle.gate_types.specs.State.{put_by};
ghost use Rattle.gate_types.specs.Keys.{serial_of_plan};
ghost use Rattle.gate_types.specs.Rising.{RisesFrom};
ghost use Rattle.gate_types.specs.Tables.{unmark};
ghost use Rattle.gate_memory.specs.Sorted.{without};
ghost use Rattle.gate_memory.specs.Plans.{IsKeptPlanTable, HasRoomForPlans};

use crate::sorted;
use crate::sorted::Keyed;
use gate_types::names::NoMemory;
use gate_types::numbers::Serial;
use gate_types::records::Plan;
use std::alloc::{AllocError, Global};

/// The plans of all items and landings, by serial.
#[derive(Drop)]
pub struct PlanTable {
    rows: Vec<Plan>,
}

impl Keyed for Plan {
    ghost use Rattle.gate_types.specs.Keys.{serial_of_plan};

    ghost key = { serial_of_plan };

    fn key(&self) -> u128 {
        self.serial.get() as u128
    }
}

/// The plan under a serial fails fast no longer.
fn unmark(rows: &mut Vec<Plan>, serial: Serial)
    requires { RisesFrom serial_of_plan 0 rows.old.items }
    ensures rows { rows.new.items ≡ unmark serial rows.old.items }
    ensures len { vec_len rows.new ≡ vec_len rows.old }
    ensures capacity { vec_capacity rows.new ≡ vec_capacity rows.old }
{
    if let Some(position) = sorted::position_at(rows, serial.get() as u128) {
        rows[position].fast = false;
    }
}

impl PlanTable {
    pub fn new(alloc: Global) -> Self
        ensures rows { result.rows.items ≡ [] }
        ensures kept { IsKeptPlanTable result }
    {
        PlanTable {
            rows: Vec::new(alloc),
        }
    }

    /// Makes room for `n` more plans. The plans stay, whatever the result.
    pub fn make_room(&mut self, n: usize) -> Result<(), AllocError>
        requires { IsKeptPlanTable self.old }
        ensures rows { self.new.rows.items ≡ self.old.rows.items }
        ensures kept { IsKeptPlanTable self.new }
        ensures room { OnOk result (HasRoomForPlans n self.new) }
    {
        self.rows.reserve(n)?;
        Ok(())
    }

    /// Puts a plan where there is room, in place of one under its serial.
    pub fn put(&mut self, plan: Plan)
        requires kept { IsKeptPlanTable self.old }
        requires room { HasRoomForPlans 1 self.old }
        ensures rows { self.new.rows.items ≡ put_by serial_of_plan plan self.old.rows.items }
        ensures kept { IsKeptPlanTable self.new }
        ensures room { (n : ℕ) → HasRoomForPlans (suc n) self.old → HasRoomForPlans n self.new }
    {
        sorted::put(&mut self.rows, plan);
    }

    /// Drops the plan under a serial, if there is one.
    pub fn remove(&mut self, serial: Serial)
        requires { IsKeptPlanTable self.old }
        ensures rows { self.new.rows.items ≡ without serial_of_plan serial self.old.rows.items }
        ensures kept { IsKeptPlanTable self.new }
        ensures room { (n : ℕ) → HasRoomForPlans n self.old → HasRoomForPlans n self.new }
    {
        sorted::remove(&mut self.rows, serial.get() as u128);
    }

    /// The plan under a serial fails fast no longer, if there is one.
    pub fn unmark(&mut self, serial: Serial)
        requires { IsKeptPlanTable self.old }
        ensures rows { self.new.rows.items ≡ unmark serial self.old.rows.items }
        ensures kept { IsKeptPlanTable self.new }
        ensures room { (n : ℕ) → HasRoomForPlans n self.old → HasRoomForPlans n self.new }
    {
        unmark(&mut self.rows, serial);
    }

    pub fn get(&self, serial: Serial) -> Result<Option<Plan>, NoMemory>
        requires { IsKeptPlanTable self.now }
        ensures { IfOk result (λ found. found ≡ find (λ p. p.serial == serial) self.now.rows.items) }
    {
        match sorted::at(&self.rows, serial.get() as u128) {
            Some(plan) => Ok(Some(plan.copy()?)),
            None => Ok(None),
        }
    }

    /// Whether there is a plan under a serial.
    pub fn has(&self, serial: Serial) -> bool
        requires { IsKeptPlanTable self.now }
        ensures { result ≡ is_some (find (λ p. p.serial == serial) self.now.rows.items) }
    {
        match sorted::at(&self.rows, serial.get() as u128) {
            Some(_) => true,
            None => false,
        }
    }
}
