//! The rules of one queue of a speculative merge gate: what a job has come to (`slot_among`), how many items may be
//! tested at once (`grow`, `shrink`), whether an item is cut (`is_cut`), why it goes (`verdict_of`), and the edits of
//! an item (`push_item`) and of the window (`push_window`). Nothing is stored here, and nothing is kept between calls.
//!
//! The program goes through a queue row by row, as `gate_walk` and `gate_reads` do, and applies the rules to each row.
//! `gate_queue` hands them out, and applies them to a queue whose items and builds are all in memory.
//!
//! ```text
//! let slot = slot_among(alloc, &builds, &job)?;
//! let verdict = verdict_of(met, failed);
//! let window = shrink(window, floor, rule);
//! ```
#![tactic(auto)]

mod edits;
mod outcomes;
mod verdict;
mod window;

pub use edits::{push_item, push_window, reports_behind};
pub use outcomes::{is_failed, is_finished, slot_among, slot_of_outcomes, slot_where};
pub use verdict::{Marks, is_cut, verdict_of};
pub use window::{grow, shrink, window_behind};
