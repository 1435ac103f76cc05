//! An answer with accepted deliveries.
ghost use Rattle.std.specs.Prelude.{◌≡◌, false};
ghost use Rattle.gate_types.specs.Tap.{has_failed};
ghost use Rattle.gate_book_trait.specs.Kept.{OfHeld, IsKept};
ghost use Rattle.gate_archive.specs.Writes.{WritesFeedText, StopsText};

use crate::archive::Archive;
use crate::fault::FeedFault;
use crate::feed::feed_end;
use gate_types::limits::MOST_LISTED;
use gate_types::records::Id;
use gate_types::tap::Tap;
use std::alloc::Global;
use std::io::Write;

/// Writes the front, a line for each of at most 1,000 accepted deliveries, from the first on or behind that of an id,
/// and a last line with how many these are.
///
/// # Errors
///
/// `NoDelivery` where no accepted delivery has the id, and `Unavailable` where the book gave a fault or memory was
/// refused: nothing was written. `Broken` where such a fault came later, and `Write` where the writer failed: a
/// beginning was written.
pub fn write_feed<B: Archive, W: Write>(
    alloc: Global,
    book: &mut B,
    after: Option<Id>,
    front: &[u8],
    w: &mut Tap<W>,
) -> Result<(), FeedFault>
    requires { has_failed w.old ≡ false }
    ensures found { OfHeld B.IsTrusted B.Holds book.old book.new (λ c x.
        WritesFeedText x.kept after front.now W.contents w.old w.new result) }
    ensures stops { StopsText w.old w.new result }
    ensures kept { IsKept B.IsTrusted B.Holds B.LeavesOneOf book.old book.new }
{
    let count = match book.deliveries(after, MOST_LISTED, front, w) {
        Ok(count) => count,
        Err(fault) => return Err(fault),
    };
    let Ok(end) = feed_end(alloc, count) else {
        return Err(FeedFault::Broken);
    };
    match w.write_all(end.as_bytes()) {
        Ok(()) => Ok(()),
        Err(_) => Err(FeedFault::Write),
    }
}
