//! Why a book doesn't answer.
use gate_types::tap::Failed;
use std::alloc::AllocError;
use std::fmt;

/// Whichever it is, nothing has changed.
#[derive(Clone, Copy, Debug, PartialEq, Eq)]
pub enum BookFault {
    /// Memory was refused.
    NoMemory,
    /// The store failed.
    Store,
    /// A row isn't of its form: somebody else wrote the store.
    Damaged,
}

impl fmt::Display for BookFault {
    ghost use Rattle.std.specs.Prelude.{Some};
    ghost use Rattle.gate_book_trait.specs.Messages.{book_fault_message};

    ghost output = { λ f. Some (book_fault_message f) };

    fn fmt<W: fmt::Write>(&self, f: &mut fmt::Formatter<W>) -> fmt::Result {
        match self {
            BookFault::NoMemory => f.write_str("memory was refused"),
            BookFault::Store => f.write_str("the store failed"),
            BookFault::Damaged => f.write_str(
                "a row isn't of its form: somebody else wrote the store",
            ),
        }
    }
}

impl std::error::Error for BookFault {}

impl From<AllocError> for BookFault {
    ghost use Rattle.std.specs.Prelude.{◌≡◌};
    ghost use Rattle.gate_book_trait.specs.declared.fault.BookFault.TheVariants as fault;

    ghost from_gives = { λ _ f. f ≡ fault.NoMemory };

    fn from(_error: AllocError) -> BookFault {
        BookFault::NoMemory
    }
}

/// Why the history of a queue was not written whole.
#[derive(Clone, Copy, Debug, PartialEq, Eq)]
pub enum HistoryFault {
    /// No queue has the name; nothing was written.
    NoQueue,
    /// The store failed or memory was refused; nothing was written.
    Unavailable,
    /// The store failed or memory was refused later; a beginning was written.
    Broken,
    /// The writer failed; a beginning was written.
    Write,
}

impl fmt::Display for HistoryFault {
    ghost use Rattle.std.specs.Prelude.{Some};
    ghost use Rattle.gate_book_trait.specs.Messages.{history_fault_message};

    ghost output = { λ f. Some (history_fault_message f) };

    fn fmt<W: fmt::Write>(&self, f: &mut fmt::Formatter<W>) -> fmt::Result {
        match self {
            HistoryFault::NoQueue => f.write_str("no queue has the name"),
            HistoryFault::Unavailable => {
                f.write_str("the store failed or memory was refused, and nothing was written")
            }
            HistoryFault::Broken => {
                f.write_str("the store failed or memory was refused, and a beginning was written")
            }
            HistoryFault::Write => f.write_str("the writer failed, and a beginning was written"),
        }
    }
}

impl std::error::Error for HistoryFault {}

impl From<Failed> for HistoryFault {
    ghost use Rattle.std.specs.Prelude.{◌≡◌};
    ghost use Rattle.gate_book_trait.specs.declared.fault.HistoryFault.TheVariants as fault;

    ghost from_gives = { λ _ f. f ≡ fault.Write };

    fn from(_failed: Failed) -> HistoryFault {
        HistoryFault::Write
    }
}
