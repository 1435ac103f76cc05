//! A book over another one that holds the live rows in memory: the queues with their windows, items and numbers of
//! landings and reports; the counters; the ready changes; and the plans, live builds and changes of queued items, once
//! they have been read. Past rows are read from the book below, by key.
//!
//! ```text
//! let mut book = LiveBook::new(alloc, book);
//! book.fill(&config)?; // reads the live rows once
//! let items = book.items(&queue)?; // answers from memory
//! book.apply(&edits)?; // applies them to the book below first, then to the held rows
//! ```
#![tactic(auto)]

mod archived;
mod change_reads;
mod faults;
mod filling;
mod forgetting;
mod held;
mod held_builds;
mod held_changes;
mod held_plans;
mod held_queue;
mod items;
pub mod laws;
mod live;
mod live_book;
mod live_changes;
mod reading;

pub use live_book::LiveBook;
