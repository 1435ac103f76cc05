//! A book in memory, a book over it that holds what is live, and a gate over a book that counts what it is asked for.
#![tactic(auto)]

#[cfg(test)]
mod adopting;
#[cfg(test)]
mod asked;
#[cfg(test)]
mod claims;
#[cfg(test)]
mod counting;
#[cfg(test)]
mod edits;
#[cfg(test)]
mod forgetting;
#[cfg(test)]
mod live;
#[cfg(test)]
mod live_changes;
#[cfg(test)]
mod live_items;
#[cfg(test)]
mod long_polls;
#[cfg(test)]
mod memory;
#[cfg(test)]
mod needing;
#[cfg(test)]
mod polling;
#[cfg(test)]
mod scenes;
#[cfg(test)]
mod settings;
#[cfg(test)]
mod starved;
#[cfg(test)]
mod told;
#[cfg(test)]
mod words;
