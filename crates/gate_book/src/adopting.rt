//! The queues of other settings in place of those of a book in memory.
ghost use Rattle.std.specs.Prelude.{◌≡◌, ℕ, List, true, false, map, option_map, IfSome};
ghost use Rattle.std.specs.List.{AllByRecursion, position};
ghost use Rattle.gate_types.specs.Names.{same_name};
ghost use Rattle.gate_types.specs.Settings.{are_distinct};
ghost use Rattle.gate_types.specs.AdoptedTables.{adopted_rows, empty_rows, resized_rows};
ghost use Rattle.gate_memory.specs.Queues as queue;
ghost use Rattle.gate_book_trait.specs.RowReads.{rows_named};

use gate_memory::{QueueTable, put_at};
use gate_types::adopting::adopted_window;
use gate_types::config::{Config, Queue};

/// Where the queue of a name stands, if there is one.
fn index_of(queues: &[QueueTable], name: &str) -> Option<usize>
    requires { AllByRecursion queue.IsKeptQueueTable queues.now }
    ensures { result ≡ position (λ q. same_name q.name name.now) queues.now }
{
    queues.iter().position(|queue| queue.has_name(name))
}

/// Takes the queue of a name out, if there is one.
fn take_named(queues: &mut Vec<QueueTable>, name: &str) -> Option<QueueTable>
    requires { AllByRecursion queue.IsKeptQueueTable queues.old.items }
    ensures found { option_map queue.rows_of_table result
        ≡ rows_named (map queue.rows_of_table queues.old.items) name.now }
    ensures others { (other : List ℕ) → same_name name.now other ≡ false →
        rows_named (map queue.rows_of_table queues.new.items) other
        ≡ rows_named (map queue.rows_of_table queues.old.items) other }
    ensures kept { AllByRecursion queue.IsKeptQueueTable queues.new.items }
    ensures one { IfSome result queue.IsKeptQueueTable }
{
    match index_of(queues, name) {
        None => None,
        Some(index) => Some(queues.remove(index)),
    }
}

/// A queue under its new setting.
fn resized(held: &Config, setting: &Queue, table: QueueTable) -> QueueTable
    requires { queue.IsKeptQueueTable table }
    ensures rows { queue.rows_of_table result ≡ resized_rows held.now setting.now (queue.rows_of_table table) }
    ensures kept { queue.IsKeptQueueTable result }
{
    let window = adopted_window(held, setting, Some(table.window()));
    table.resized(window)
}

/// Puts the queues that are there in the places of the new ones of their names, each under its new setting.
pub(crate) fn adopt_queues(
    held: &Config,
    settings: &[Queue],
    queues: &mut Vec<QueueTable>,
    new_queues: &mut Vec<QueueTable>,
)
    requires differ { are_distinct (map (λ q. q.name) settings.now) ≡ true }
    requires kept { AllByRecursion queue.IsKeptQueueTable queues.old.items }
    requires new_rows { map queue.rows_of_table new_queues.old.items ≡ map empty_rows settings.now }
    requires new_kept { AllByRecursion queue.IsKeptQueueTable new_queues.old.items }
    ensures rows { map queue.rows_of_table new_queues.new.items
        ≡ map (adopted_rows held.now (map queue.rows_of_table queues.old.items)) settings.now }
    ensures kept { AllByRecursion queue.IsKeptQueueTable new_queues.new.items }
{
    for (index, setting) in settings.iter().enumerate() {
        if let Some(table) = take_named(queues, setting.name.as_str()) {
            put_at(new_queues, index, resized(held, setting, table));
        }
    }
}
