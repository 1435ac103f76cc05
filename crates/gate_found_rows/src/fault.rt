//! Why a statement on the tables failed, as a fault of a book.
ghost use Rattle.std.specs.Prelude.{◌≡◌, ◌≢◌};
ghost use Rattle.gate_found_rows.specs.Causes.{book_fault_of};

use gate_book_trait::BookFault;
use sqlite::{Error, ErrorCode};

/// Memory where memory was refused, else the store: an error of a statement never blames a row.
pub fn book_fault(error: &Error) -> BookFault
    ensures named { result ≡ book_fault_of error.now }
    ensures row { result ≢ BookFault.Damaged }
{
    match error {
        Error::SqliteFailure(ErrorCode::OutOfMemory) => BookFault::NoMemory,
        _ => BookFault::Store,
    }
}
