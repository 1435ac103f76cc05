//! Lets ready changes enter their queues, over a book and the edits of a delivery.
//!
//! ```text
//! let all = admitting(alloc, book, &config, edits)?;
//! // the edits that came, and behind them an item for each change that enters; None where the numbers ran out.
//! // The book is asked as if it had made the edits
//! ```
#![tactic(auto)]

mod admit;
mod candidates;
mod counted;
mod entering;
mod items;
mod known_changes;
mod passing;
mod ready;
mod room;

pub use admit::admitting;
pub use items::item_in;
pub use known_changes::project_after;
