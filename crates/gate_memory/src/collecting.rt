//! What a book in memory knows of some items, collected item by item.
ghost use Rattle.std.specs.Prelude.{◌≡◌, ◌++◌, [], option_to_list, IfOk, OnOk};
ghost use Rattle.std.specs.List.{AllByRecursion, cons_option, filter_map};
ghost use Rattle.std.specs.Option.{option_copied};
ghost use Rattle.gate_types.specs.Keys.{serial_of_item};
ghost use Rattle.gate_types.specs.Rising.{RisesFrom};
ghost use Rattle.gate_memory.specs.Builds.{IsKeptBuildTable};
ghost use Rattle.gate_memory.specs.Changes as change_table;
ghost use Rattle.gate_memory.specs.Plans as plan_table;
ghost use Rattle.gate_memory.specs.Needs.{IsRising, IsSmall, TellsSerials};
ghost use Rattle.gate_memory.specs.Queues as queue_table;
ghost use Rattle.gate_memory.specs.Sorted.{passing_at};
ghost use Rattle.gate_book_trait.specs.RowReads.{is_needing_in, needing_in, plans_of_rows};
ghost use Rattle.gate_memory.specs.TableReads.{builds_of_rows};

use crate::builds::BuildTable;
use crate::changes::ChangeTable;
use crate::pairs::Pair;
use crate::plans::PlanTable;
use crate::queues::QueueTable;
use crate::sorted;
use gate_types::names::NoMemory;
use gate_types::numbers::ChangeNo;
use gate_types::records::{Build, Item, Plan};
use gate_types::sequence::Sequence;
use std::alloc::Global;

fn push_plan(found: &mut Sequence<Plan>, plan: Option<Plan>) -> Result<(), NoMemory>
    ensures { OnOk result (found.new ≡ found.old ++ option_to_list plan) }
{
    if let Some(plan) = plan {
        found.push(plan)?;
    }
    Ok(())
}

/// The plans of some items.
pub fn plans_of(
    alloc: Global,
    plans: &PlanTable,
    items: &[Item],
) -> Result<Sequence<Plan>, NoMemory>
    requires { plan_table.IsKeptPlanTable plans.now }
    ensures { IfOk result (λ found. found ≡ plans_of_rows plans.now.rows.items items.now) }
{
    let mut found = Sequence::new(alloc);
    for item in items {
        push_plan(&mut found, plans.get(item.serial)?)?;
    }
    Ok(found)
}

/// The live builds of some items, each item's by number.
pub fn builds_of(
    alloc: Global,
    builds: &BuildTable,
    items: &[Item],
) -> Result<Sequence<Build>, NoMemory>
    requires { IsKeptBuildTable builds.now }
    ensures { IfOk result (λ found. found ≡ builds_of_rows builds.now.rows.items items.now) }
{
    let mut found = Sequence::new(alloc);
    for item in items {
        builds.add_live(&mut found, item.serial)?;
    }
    Ok(found)
}

fn push_item(found: &mut Sequence<Item>, item: Option<&Item>) -> Result<(), NoMemory>
    ensures { OnOk result (found.new ≡ found.old ++ cons_option (option_copied item.entry) []) }
{
    if let Some(item) = item {
        found.push(*item)?;
    }
    Ok(())
}

/// The item of a serial, if it is above another and its change needs this one.
fn if_needing<'a>(
    items: &'a [Item],
    serial: u64,
    changes: &ChangeTable,
    change: ChangeNo,
    above: u64,
) -> Option<&'a Item>
    requires kept { change_table.IsKeptChangeTable changes.now }
    requires rising { RisesFrom serial_of_item 0 items.now }
    ensures { option_copied result
        ≡ passing_at serial_of_item
        (is_needing_in (change_table.changes_of changes.now) change above) items.now serial }
{
    let item = sorted::at(items, serial as u128)?;
    if item.serial.get() > above && changes.needs(item.change, change) {
        Some(item)
    } else {
        None
    }
}

/// Those items of these serials that are above another and whose changes need this one.
fn needing_at(
    alloc: Global,
    items: &[Item],
    serials: &[u64],
    changes: &ChangeTable,
    change: ChangeNo,
    above: u64,
) -> Result<Sequence<Item>, NoMemory>
    requires kept { change_table.IsKeptChangeTable changes.now }
    requires rising { RisesFrom serial_of_item 0 items.now }
    ensures { IfOk result (λ found. found ≡ filter_map
        (passing_at serial_of_item (is_needing_in (change_table.changes_of changes.now) change above) items.now)
        serials.now) }
{
    let mut found = Sequence::new(alloc);
    for serial in serials {
        push_item(
            &mut found,
            if_needing(items, *serial, changes, change, above),
        )?;
    }
    Ok(found)
}

/// The serials of a queue's items of the changes that these pairs name second.
fn serials_of(alloc: Global, queue: &QueueTable, pairs: &[Pair]) -> Result<Vec<u64>, NoMemory>
    requires kept { queue_table.IsKeptQueueTable queue.now }
    requires small { AllByRecursion IsSmall pairs.now }
    ensures rising { IfOk result (λ serials. IsRising serials.items) }
    ensures told { IfOk result (λ serials.
        AllByRecursion
        (λ p. TellsSerials p.second serials.items (queue_table.rows_of_table queue.now).items) pairs.now) }
{
    let mut serials = Vec::new(alloc);
    for pair in pairs {
        queue.add_serials(&mut serials, pair.second)?;
    }
    Ok(serials)
}

/// A queue's items above a serial whose changes need this one: found by the changes that need it.
pub fn needing_of(
    alloc: Global,
    queue: &QueueTable,
    changes: &ChangeTable,
    change: ChangeNo,
    above: u64,
) -> Result<Sequence<Item>, NoMemory>
    requires queue { queue_table.IsKeptQueueTable queue.now }
    requires changes { change_table.IsKeptChangeTable changes.now }
    ensures { IfOk result (λ found. found ≡ needing_in (change_table.changes_of changes.now) change above
        (queue_table.rows_of_table queue.now).items) }
{
    let serials = serials_of(alloc, queue, changes.needing(change))?;
    let found = needing_at(alloc, queue.item_rows(), &serials, changes, change, above)?;
    Ok(found)
}
