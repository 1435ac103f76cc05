//! The reads of items as queries of the tables. `items`, `next_items` and `needing` go through the rows that they give,
//! the others search for one by a key.
//!
//! ```text
//! let items = items(&mut conn, &queue)?;
//! let item = item(&mut conn, serial)?;
//! ```
#![tactic(auto)]

mod item_reads;
mod item_rows;

pub use item_reads::{capped, item, items, last_item, needing, next_item, next_items, queued};
