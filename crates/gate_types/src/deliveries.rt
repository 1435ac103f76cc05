//! Deliveries, and what the gate answers.
use crate::names::{Message, PathName, Text};
use crate::numbers::{BuildNo, ChangeNo, Revision, Serial};
use crate::records::{Build, Outcome};

/// How a build ended, as a worker reports it.
#[derive(Clone, Copy, PartialEq, Eq)]
pub enum Ending {
    Success,
    Failure,
    Lost,
}

impl From<Ending> for Outcome {
    ghost use Rattle.std.specs.Prelude.{◌≡◌};
    ghost use Rattle.gate_types.specs.Step.{outcome_of_ending};

    ghost from_gives = { λ e o. o ≡ outcome_of_ending e };

    fn from(ending: Ending) -> Outcome {
        match ending {
            Ending::Success => Outcome::Success,
            Ending::Failure => Outcome::Failure,
            Ending::Lost => Outcome::Lost,
        }
    }
}

/// What the forge or a worker tells the gate.
#[derive(Drop)]
pub enum Delivery {
    Revision {
        change: ChangeNo,
        project: PathName,
        revision: Revision,
        message: Message,
    },
    Approved {
        change: ChangeNo,
        revision: Revision,
    },
    Withdrawn {
        change: ChangeNo,
        revision: Revision,
    },
    Closed {
        change: ChangeNo,
        revision: Revision,
    },
    Landed {
        order: Serial,
    },
    Refused {
        order: Serial,
    },
    Take {
        worker: PathName,
    },
    Result {
        build: BuildNo,
        ending: Ending,
    },
}

/// The reply to an accepted delivery. `Landed` holds the landing's place among those of its
/// queue, from 1.
#[derive(Drop)]
pub enum Reply {
    Recorded,
    Stale,
    Waiting,
    Already,
    Removed,
    Noted,
    Queued(Serial),
    Landed(u64),
    Build(Build),
}

/// Why a delivery is refused. It changes nothing.
#[derive(Clone, Copy, Debug, PartialEq, Eq)]
pub enum Refusal {
    /// The bytes are no JSON.
    BadJson,
    /// A member is missing, or isn't of its form.
    BadDelivery,
    /// The kind belongs to the other door.
    WrongDoor,
    /// The id was spent on another delivery.
    IdReused,
    /// No revision of the change was recorded.
    UnknownChange,
    /// The revision is above the one that was recorded.
    UnknownRevision,
    /// The settings have no such project.
    UnknownProject,
    /// The change is known under another project.
    ProjectChanged,
    /// The change's order is shown to the forge.
    Submitting,
    /// No such order is shown.
    NoOrder,
    /// There is no such build.
    UnknownBuild,
    /// No job waits for a build.
    Idle,
    /// The message names more than 32 changes.
    TooManyNeeds,
    /// A counter would pass 10^15.
    Exhausted,
    /// Memory or the store failed.
    Unavailable,
}

/// What the gate answers to a delivery: a reply's text, or a refusal.
#[derive(Drop)]
pub enum Answer {
    Said(Text),
    Refused(Refusal),
}
