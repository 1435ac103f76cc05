//! The gate over any book: deliveries in, replies out, each exactly one step of the plain gate.
//!
//! ```text
//! let mut gate = Gate::new(config, book);
//! let answer = gate.deliver(alloc, id, delivery);
//! let text = gate.status(alloc)?;
//! ```
#![tactic(auto)]

mod accepting;
mod admitted;
mod asking;
mod delivering;
mod engine;
mod fault;
mod gate;
pub mod laws;
mod line;
mod recent;
mod replaying;
mod respond;
mod ruled;
mod speaking;
mod thinned;

pub use fault::ReplayFault;
pub use gate::Gate;
pub use replaying::replay;
