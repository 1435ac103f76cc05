//! What a book answers beside the records of the gate.
use gate_types::names::Name;
use gate_types::records::Item;

/// An item, and the name of its queue.
#[derive(Drop)]
pub struct QueuedItem {
    pub queue: Name,
    pub item: Item,
}
