//! Settles, over a book, the queue of the one item that a delivery touched: a walk over the rows that can change, each
//! read by its key.
//!
//! - `settling::settling` is what the gate calls: its edits, behind those of the delivery, lead to the state after a
//!   rebase and a sweep of all queues.
//! - `begun` begins the walk; `walking` makes its visits, one after another; `wanted` finds the row that it asks for,
//!   and `needing` keeps who needs what has gone; `rows` reads what a visit is given.
//!
//! ```text
//! let edits = settling(alloc, book, &config, &touched)?;
//! // behind the delivery's own edits they lead to the state after a rebase and a sweep of all queues,
//! // and ask for no row but those that can change
//! ```
#![tactic(auto)]

mod begun;
mod needing;
mod rows;
mod settle;
mod walking;
mod wanted;

pub use settle::settling;
