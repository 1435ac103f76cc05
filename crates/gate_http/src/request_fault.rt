//! What ends a request before its answer is written.
ghost use Rattle.std.specs.Prelude.{◌≡◌};

use std::fmt;

/// Why a request ended early.
#[derive(Clone, Copy, Debug, PartialEq, Eq)]
pub enum RequestFault {
    /// The reader answered an error.
    Read,
    /// The writer answered an error, or took 0 bytes.
    Write,
    /// Memory was refused before anything was read.
    NoMemory,
    /// A history or the deliveries broke off: the store failed, or memory was refused.
    Store,
}

impl RequestFault {
    ghost use Rattle.gate_http.specs.RequestFaults.{request_fault_text};

    /// The fault's number, a space and its word, as it is printed.
    pub fn text(self) -> &'static str
        ensures { result.now ≡ request_fault_text self }
    {
        match self {
            RequestFault::Read => "I1 read",
            RequestFault::Write => "I2 write",
            RequestFault::NoMemory => "I3 no-memory",
            RequestFault::Store => "I7 store",
        }
    }
}

impl fmt::Display for RequestFault {
    ghost use Rattle.std.specs.Prelude.{Some};
    ghost use Rattle.gate_http.specs.RequestFaults.{request_fault_text};

    ghost output = { λ f. Some (request_fault_text f) };

    fn fmt<W: fmt::Write>(&self, f: &mut fmt::Formatter<W>) -> fmt::Result {
        f.write_str(self.text())
    }
}

impl std::error::Error for RequestFault {}
