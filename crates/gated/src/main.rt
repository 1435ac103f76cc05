//! `gated`: the gate of a code forge.
#![tactic(auto)]

mod process;
#[cfg(test)]
mod tests;

use process::started;
use std::process::ExitCode;

fn main(rt: HostRuntime) -> ExitCode {
    started(&rt)
}
