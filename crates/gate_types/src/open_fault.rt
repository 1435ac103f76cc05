//! Why a book isn't opened, made or given other settings.
ghost use Rattle.std.specs.Prelude.{◌≡◌};
ghost use Rattle.gate_types.specs.OpenFaults.{open_fault_text};

use std::fmt;

/// What the book holds is as it was.
#[derive(Clone, Copy, Debug, PartialEq, Eq)]
pub enum OpenFault {
    /// O1: it is no gate's file; or, where one is made, it holds a table, an index or a view of a name that a gate's
    /// file uses.
    WrongFile,
    /// O2: a gate's file of another version of the tables.
    OtherSchema,
    /// O3: the settings that it keeps are others.
    OtherSettings,
    /// O4: memory, the disk or its size failed.
    Unavailable,
}

impl OpenFault {
    /// The fault's number, a space and its word, as it is printed.
    pub fn text(self) -> &'static str
        ensures { result.now ≡ open_fault_text self }
    {
        match self {
            OpenFault::WrongFile => "O1 wrong-file",
            OpenFault::OtherSchema => "O2 other-schema",
            OpenFault::OtherSettings => "O3 other-settings",
            OpenFault::Unavailable => "O4 unavailable",
        }
    }
}

impl fmt::Display for OpenFault {
    ghost use Rattle.std.specs.Prelude.{Some};

    ghost output = { λ f. Some (open_fault_text f) };

    fn fmt<W: fmt::Write>(&self, f: &mut fmt::Formatter<W>) -> fmt::Result {
        f.write_str(self.text())
    }
}

impl std::error::Error for OpenFault {}
