//! What is true of reads by their contract alone: each function proves laws, by its contract, and does nothing when it
//! runs.
ghost use Rattle.gate_live.specs.Laws.{FailsBetweenTwo, HoldsWhatIsBelow};

use gate_book_trait::Book;

/// Once nothing is held in memory, the book holds each content that the book below holds. If these are many, as over a
/// connection that is shut, a read whose answers differ between two of them fails, and so does the next.
pub fn reads_fail_between_two_contents<B: Book, T>()
    ensures below { HoldsWhatIsBelow B.Holds }
    ensures fails { FailsBetweenTwo T B.IsTrusted B.Holds B.LeavesOneOf B.MayFault }
{}
