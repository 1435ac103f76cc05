//! What ends a replay before its end.
use std::fmt;

/// Why a replay ended early.
#[derive(Clone, Copy, Debug, PartialEq, Eq)]
pub enum ReplayFault {
    /// The reader answered an error.
    Read,
    /// The writer answered an error, or took 0 bytes.
    Write,
    /// Memory was refused before anything was read.
    NoMemory,
}

impl fmt::Display for ReplayFault {
    ghost use Rattle.std.specs.Prelude.{Some};
    ghost use Rattle.gate_core.specs.Messages.{replay_fault_message};

    ghost output = { λ f. Some (replay_fault_message f) };

    fn fmt<W: fmt::Write>(&self, f: &mut fmt::Formatter<W>) -> fmt::Result {
        match self {
            ReplayFault::Read => f.write_str("the reader failed"),
            ReplayFault::Write => f.write_str("the writer failed"),
            ReplayFault::NoMemory => f.write_str("memory was refused before anything was read"),
        }
    }
}

impl std::error::Error for ReplayFault {}
