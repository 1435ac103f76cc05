//! A queue whose items and builds are all in memory: the edits that settle it (`settle`), and the build that is due
//! (`choose`). The program calls neither. Tests compare its walks with `settle`.
//!
//! ```text
//! let edits = settle(alloc, &items, &builds, &facts)?;
//! let due = choose(&items, &builds, window, &jobs);
//! ```
mod choice;
mod context;
mod edits;
mod facts;
mod judge;
pub mod laws;
mod line;
mod settling;
mod shared;
mod slots;

pub use choice::choose;
pub use facts::{Facts, ItemFacts, ItemJobs, Jobs};
pub use settling::settle;
