//! What keeps a gate's content: the trait `Book`, and a book in memory, which is an `Archive` too.
//!
//! ```text
//! let mut book = MemBook::new(alloc, &config)?;
//! let item = book.next_item(&queue, above)?;
//! book.apply(&edits)?;
//! ```
#![tactic(auto)]

mod adopting;
mod archive;
mod feeding;
mod memory;
mod past;
mod tables;
mod writing;

pub use gate_book_trait::{Book, BookFault, HistoryFault, QueuedItem};
pub use memory::MemBook;
