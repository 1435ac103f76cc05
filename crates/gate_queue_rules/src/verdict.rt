//! What the jobs of an item say of it, whether it is cut, and why it goes.
ghost use Rattle.std.specs.Prelude.{◌≡◌, ◌&&◌, Option, not, if◌then◌else◌};

use gate_types::records::Verdict;

/// What the jobs of an item say of it.
#[derive(Clone, Copy)]
pub struct Marks {
    /// A voting job has failed.
    pub failed: bool,
    /// The builds of each job have decided it.
    pub decided: bool,
}

/// Whether an item is cut, so that none of its jobs runs on: it is to fail fast, isn't blocked, and has failed.
pub fn is_cut(fast: bool, blocked: bool, failed: bool) -> bool
    ensures { result ≡ fast && not blocked && failed }
{
    fast && !blocked && failed
}

/// Why an item goes, if it goes: a need that isn't met decides before a failure.
pub fn verdict_of(met: bool, failed: bool) -> Option<Verdict>
    ensures { let unless_needs = (if failed then Option.Some Verdict.Failed else Option.None) in
        result ≡ (if not met then Option.Some Verdict.Needs else unless_needs) }
{
    if !met {
        Some(Verdict::Needs)
    } else if failed {
        Some(Verdict::Failed)
    } else {
        None
    }
}
