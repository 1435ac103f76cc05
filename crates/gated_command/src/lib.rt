//! What the words of `gated`'s command line ask for.
//!
//! ```text
//! let words = ["gated", "check", "gate.toml"];
//! let cmd = command(alloc, &words)?;
//! // Cmd::Check { settings: "gate.toml" }
//! ```
#![tactic(auto)]

mod commands;
mod reading;
mod words;

pub use words::{Cmd, Usage, command};
