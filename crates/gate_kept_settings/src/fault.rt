//! Why a text isn't read.
ghost use Rattle.std.specs.Prelude.{◌≡◌};

use std::alloc::AllocError;
use std::fmt;

/// What `read_text` answers in place of settings.
#[derive(Clone, Copy, Debug, PartialEq, Eq)]
pub enum TextFault {
    /// The bytes are the text of no settings.
    NotSettings,
    /// Memory was refused, which says nothing of the text.
    NoMemory,
}

impl fmt::Display for TextFault {
    ghost use Rattle.std.specs.Prelude.{Some};
    ghost use Rattle.gate_kept_settings.specs.Messages.{text_fault_message};

    ghost output = { λ f. Some (text_fault_message f) };

    fn fmt<W: fmt::Write>(&self, f: &mut fmt::Formatter<W>) -> fmt::Result {
        match self {
            TextFault::NotSettings => f.write_str("the text is of no settings"),
            TextFault::NoMemory => f.write_str("memory was refused"),
        }
    }
}

impl std::error::Error for TextFault {}

impl From<AllocError> for TextFault {
    ghost use Rattle.gate_kept_settings.specs.declared.fault.TextFault.TheVariants.{NoMemory};

    ghost from_gives = { λ _ e. e ≡ NoMemory };

    fn from(_: AllocError) -> TextFault {
        TextFault::NoMemory
    }
}
