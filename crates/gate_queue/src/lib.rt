//! The rules of one queue, which this crate hands out from `gate_queue_rules`; laws of these rules (`laws`); and
//! `whole_queue`, which applies the rules to a queue whose items and builds are all in memory. The program calls none
//! of the two: it goes through a queue row by row, as `gate_walk` and `gate_reads` do, with the rules themselves.
//!
//! ```text
//! let window = shrink(window, floor, rule);
//! let edits = whole_queue::settle(alloc, &items, &builds, &facts)?;
//! ```
#![tactic(auto)]

pub mod laws;
pub mod whole_queue;

pub use gate_queue_rules::{
    Marks, grow, is_cut, is_failed, is_finished, push_item, push_window, reports_behind, shrink,
    slot_among, slot_where, verdict_of, window_behind,
};
