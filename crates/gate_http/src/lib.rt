//! The gate over HTTP: one request of a connection is read, acted on, and answered. `docs/FORMATS.md` has the routes.
//!
//! ```text
//! let served = serve_one(alloc, &mut gate, reader, writer)?;
//! // or one connection after another, `count` of them:
//! serve(alloc, &listener, &mut gate, count, errors)?;
//! // or what a GET would answer, its content alone:
//! let served = get(alloc, &mut gate, "/status", writer)?;
//! ```
#![tactic(auto)]

mod answering;
mod body;
mod connections;
mod digits;
mod engine;
mod fault;
mod fields;
mod gate;
mod getting;
mod head;
pub mod laws;
mod request;
mod request_fault;
mod respond;
mod response;
mod routes;
mod served;
mod serving;

pub use connections::{NotListening, serve, write_fault};
pub use engine::answer_request;
pub use getting::{get, get_one};
pub use request_fault::RequestFault;
pub use respond::{AnswerIfAny, Page, Respond, Stream, StreamFault};
pub use served::Served;
pub use serving::serve_one;
