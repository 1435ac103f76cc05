//! The gate at the limits of its settings, and with numbers, texts and counts of calls above those of the other tests.
//! A function that gives up from some size on meets every contract, and fails here.
#![tactic(auto)]

#[cfg(test)]
mod claims;
#[cfg(test)]
mod connections;
#[cfg(test)]
mod exchanges;
#[cfg(test)]
mod feeds;
#[cfg(test)]
mod gates;
#[cfg(test)]
mod histories;
#[cfg(test)]
mod landings;
#[cfg(test)]
mod numbers;
#[cfg(test)]
mod scenes;
#[cfg(test)]
mod settings;
#[cfg(test)]
mod sizes;
#[cfg(test)]
mod statuses;
#[cfg(test)]
mod streams;
#[cfg(test)]
mod talks;
#[cfg(test)]
mod taps;
