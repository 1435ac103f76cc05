//! Settings files, deliveries, commit messages and replies, read and written as texts.
mod answers;
mod broken;
mod errors;
mod faults;
mod footers;
mod formats;
mod ids;
mod members;
mod refusals;
mod replied;
mod replies;
mod rows;
mod taps;
mod values;
