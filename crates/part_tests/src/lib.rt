//! What is below the gate's file, and the way over HTTP: tests that cross crates, side by side, since a crate of tests
//! is read with all that it calls before its first test is proved.
#![tactic(auto)]

#[cfg(test)]
mod claims;
#[cfg(test)]
mod queues;
#[cfg(test)]
mod requests;
#[cfg(test)]
mod texts;
