//! The trait `Book`: what keeps a gate's content, asked by key and changed by edits; with its faults, and the lines of
//! a history.
//!
//! ```text
//! let item = book.next_item(&queue, above)?;
//! book.apply(&edits)?; // all of them, or none
//! ```
#![tactic(auto)]

mod book;
mod fault;
mod history;
mod planned;
mod rows;

pub use book::Book;
pub use fault::{BookFault, HistoryFault};
pub use history::{history_end, history_head, report_line};
pub use planned::plan_of;
pub use rows::QueuedItem;
