//! Conversations with the gate over settings files: tests that cross crates.
#![tactic(auto)]

#[cfg(test)]
mod adopting;
#[cfg(test)]
mod asked;
#[cfg(test)]
mod asking;
#[cfg(test)]
mod beginnings;
#[cfg(test)]
mod chapters;
#[cfg(test)]
mod claims;
#[cfg(test)]
mod conversations;
#[cfg(test)]
mod counters;
#[cfg(test)]
mod dependents;
#[cfg(test)]
mod failures;
#[cfg(test)]
mod fast;
#[cfg(test)]
mod faults;
#[cfg(test)]
mod landings;
#[cfg(test)]
mod limits;
#[cfg(test)]
mod lines;
#[cfg(test)]
mod losses;
#[cfg(test)]
mod needs;
#[cfg(test)]
mod orders;
#[cfg(test)]
mod paces;
#[cfg(test)]
mod queues;
#[cfg(test)]
mod refusals;
#[cfg(test)]
mod refused;
#[cfg(test)]
mod repeats;
#[cfg(test)]
mod rulings;
#[cfg(test)]
mod scenes;
#[cfg(test)]
mod settings;
#[cfg(test)]
mod standing;
#[cfg(test)]
mod stored;
#[cfg(test)]
mod streams;
#[cfg(test)]
mod talks;
#[cfg(test)]
mod taps;
#[cfg(test)]
mod turns;
#[cfg(test)]
mod watched;
#[cfg(test)]
mod windows;
#[cfg(test)]
mod wrong_gates;
