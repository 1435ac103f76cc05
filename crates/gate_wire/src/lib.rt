//! What the forge and the workers say, and what they are told: bytes become deliveries, commit
//! messages the changes that they need, replies their texts. `docs/FORMATS.md` has the formats.
//!
//! ```text
//! let (id, delivery) = read_delivery(alloc, line, Door::Any)?;
//! let needed = needs(alloc, base, message)?;
//! let text = write_reply(alloc, &reply)?;
//! ```
#![tactic(auto)]

mod door;
mod footers;
mod members;
mod reading;
mod replies;

pub use door::Door;
pub use footers::needs;
pub use reading::read_delivery;
pub use replies::{ahead_text, build_front, write_reply};
