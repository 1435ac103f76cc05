//! Why deliveries were not written whole.
use gate_types::tap::Failed;
use std::fmt;

/// Why accepted deliveries were not written whole.
#[derive(Clone, Copy, Debug, PartialEq, Eq)]
pub enum FeedFault {
    /// No accepted delivery has the id; nothing was written.
    NoDelivery,
    /// The store failed or memory was refused; nothing was written.
    Unavailable,
    /// The store failed or memory was refused later; some first bytes were written.
    Broken,
    /// The writer failed; a beginning was written.
    Write,
}

impl fmt::Display for FeedFault {
    ghost use Rattle.std.specs.Prelude.{Some};
    ghost use Rattle.gate_archive.specs.Messages.{feed_fault_message};

    ghost output = { λ f. Some (feed_fault_message f) };

    fn fmt<W: fmt::Write>(&self, f: &mut fmt::Formatter<W>) -> fmt::Result {
        match self {
            FeedFault::NoDelivery => f.write_str("no accepted delivery has the id"),
            FeedFault::Unavailable => {
                f.write_str("the store failed or memory was refused, and nothing was written")
            }
            FeedFault::Broken => {
                f.write_str("the store failed or memory was refused, and a beginning was written")
            }
            FeedFault::Write => f.write_str("the writer failed, and a beginning was written"),
        }
    }
}

impl std::error::Error for FeedFault {}

impl From<Failed> for FeedFault {
    ghost use Rattle.std.specs.Prelude.{◌≡◌};
    ghost use Rattle.gate_archive.specs.declared.fault.FeedFault.TheVariants as fault;

    ghost from_gives = { λ _ f. f ≡ fault.Write };

    fn from(_failed: Failed) -> FeedFault {
        FeedFault::Write
    }
}
