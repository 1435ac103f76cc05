//! What is read of the queue of a name, where there may be none.
ghost use Rattle.std.specs.Prelude.{◌≡◌, length, option_map, IfOk, IfSome};
ghost use Rattle.std.specs.Option.{option_copied};
ghost use Rattle.gate_book_trait.specs.Reads as read;
ghost use Rattle.gate_memory.specs.Named.{items_found};
ghost use Rattle.gate_memory.specs.Queues.{IsKeptQueueTable, rows_of_table};

use crate::queues::QueueTable;
use gate_types::names::NoMemory;
use gate_types::records::Item;
use gate_types::sequence::Sequence;
use std::alloc::Global;

pub fn window(table: Option<&QueueTable>) -> Option<u32>
    ensures { result ≡ option_map (λ q. q.window) (option_map rows_of_table (option_copied table.entry)) }
{
    match table {
        Some(table) => Some(table.window()),
        None => None,
    }
}

pub fn item_count(table: Option<&QueueTable>) -> u64
    ensures { result ≡ length (items_found (option_copied table.entry)) }
{
    match table {
        Some(table) => table.item_count(),
        None => 0,
    }
}

/// All items, by serial. Fails if memory is refused.
pub fn items(alloc: Global, table: Option<&QueueTable>) -> Result<Sequence<Item>, NoMemory>
    ensures { IfOk result (λ found. found ≡ items_found (option_copied table.entry)) }
{
    match table {
        Some(table) => table.items(alloc),
        None => Ok(Sequence::new(alloc)),
    }
}

/// The first item above a serial.
pub fn next_item(table: Option<&QueueTable>, above: u64) -> Option<Item>
    requires { IfSome table (λ t. IsKeptQueueTable t.now) }
    ensures { result ≡ read.first_above above (items_found (option_copied table.entry)) }
{
    match table {
        Some(table) => table.next_item(above),
        None => None,
    }
}

/// The last item below a serial.
pub fn last_item(table: Option<&QueueTable>, below: u64) -> Option<Item>
    requires { IfSome table (λ t. IsKeptQueueTable t.now) }
    ensures { result ≡ read.last_item_below below (items_found (option_copied table.entry)) }
{
    match table {
        Some(table) => table.last_item(below),
        None => None,
    }
}

/// The first items above a serial, at most `most`. Fails if memory is refused.
pub fn next_items(
    alloc: Global,
    table: Option<&QueueTable>,
    above: u64,
    most: u32,
) -> Result<Sequence<Item>, NoMemory>
    requires { IfSome table (λ t. IsKeptQueueTable t.now) }
    ensures { IfOk result (λ found. found
        ≡ read.first_items_above above most (items_found (option_copied table.entry))) }
{
    match table {
        Some(table) => table.next_items(alloc, above, most),
        None => Ok(Sequence::new(alloc)),
    }
}
