//! What a book answers of the past: the trait `Archive`, beside `Book`; and the definitions of the texts by which a
//! running gate answers queries: a change, an item with its builds, the running builds, a history from a place on, and
//! the deliveries that it accepted.
//!
//! ```text
//! let left = book.left(serial)?; // why an item left
//! let told = book.deliveries(Some(&id), 1000, front, &mut tap)?; // what was accepted behind an id
//! ```
#![tactic(auto)]

mod archive;
mod fault;
mod feed;
mod feeding;
pub mod laws;
mod rows;

pub use archive::Archive;
pub use fault::FeedFault;
pub use feed::{feed_line, id_of};
pub use feeding::write_feed;
pub use rows::{BuildSummary, LeftItem};
