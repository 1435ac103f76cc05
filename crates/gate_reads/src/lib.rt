//! What a gate asks of a book by key: the build that is due, the orders that are shown, where a change stands. No queue
//! is loaded: items are gone through one after another or part by part, no further than the rule needs.
//!
//! ```text
//! let build = next_build(alloc, book, &config, number)?;
//! let order = order_of_queue(alloc, book, &config, &queue)?;
//! let stand = stand_of(alloc, book, &config, change)?;
//! ```
#![tactic(auto)]

mod choosing;
mod due;
mod jobs;
mod known;
mod orders;
mod part;
mod raw;
mod shown;
mod stands;
mod touched;
mod windows;

pub use choosing::{next_build, push_unless_failing};
pub use due::are_met_among;
pub use jobs::is_running;
pub use known::needs_of;
pub use orders::{ShownItem, order_of_queue, shown_order};
pub use raw::{Moved, PendingReply, Raw};
pub use stands::{LiveItem, QueuePlace, Stand, queue_place, stand_of};
pub use touched::{Event, QueueFigures, TouchedItem, figures_of};
pub use windows::window_now;
