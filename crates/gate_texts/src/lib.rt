//! The texts that a gate shows: its status, its orders, a build; and what a gate that runs is asked: a change and its
//! needs, an item and its builds, the builds that run. Each reads by key, and no queue is loaded.
//!
//! ```text
//! let text = status(alloc, book, &config)?;
//! let text = order_list(alloc, book, &config)?;
//! let text = build_text(alloc, book, number)?;
//! let text = change_text(alloc, book, &config, number)?; // why it waits
//! let text = item_text(alloc, book, &config, serial)?; // which job failed
//! let text = running_text(alloc, book, &config)?;
//! ```
#![tactic(auto)]

mod ahead;
mod build;
mod change;
mod item;
mod lines;
mod orders;
mod running;
mod status_text;
mod values;

pub use build::build_text;
pub use change::change_text;
pub use item::item_text;
pub use orders::order_list;
pub use running::running_text;
pub use status_text::status;
