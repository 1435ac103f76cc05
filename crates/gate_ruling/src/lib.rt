//! What each kind of delivery comes to, before anything is settled. A book is asked by key and is left as it is.
//!
//! ```text
//! let raw = raw(alloc, book, &config, &delivery)?;
//! // a refusal, a reply alone, or edits and the item that they touch:
//! // what settling and admission go on from
//! ```
#![tactic(auto)]

mod changing;
mod dispatch;
mod edits;
mod guards;
mod kinds;
mod leaving;

pub use dispatch::raw;
