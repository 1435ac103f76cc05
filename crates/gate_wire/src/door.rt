//! The kinds of deliveries, and the doors that they come in by.
ghost use Rattle.std.specs.Prelude.{◌≡◌};
ghost use Rattle.gate_wire.specs.Kinds.{kind_named, opens_to};

/// Where a delivery comes in.
#[derive(Clone, Copy, PartialEq, Eq)]
pub enum Door {
    /// Open to what the forge says: `revision`, `approved`, `withdrawn`, `closed`, `landed` and
    /// `refused`.
    Forge,
    /// Open to what a worker says: `take` and `result`.
    Worker,
    /// Open to all kinds.
    Any,
}

/// What a delivery says, by its word.
#[derive(Clone, Copy, PartialEq, Eq)]
pub(crate) enum Kind {
    Revision,
    Approved,
    Withdrawn,
    Closed,
    Landed,
    Refused,
    Take,
    Result,
}

impl Door {
    pub(crate) fn opens(self, kind: Kind) -> bool
        ensures { result ≡ opens_to self kind }
    {
        let is_forge = match kind {
            Kind::Take | Kind::Result => false,
            _ => true,
        };
        match self {
            Door::Forge => is_forge,
            Door::Worker => !is_forge,
            Door::Any => true,
        }
    }
}

impl Kind {
    pub(crate) fn named(word: &str) -> Option<Kind>
        ensures { result ≡ kind_named word.now }
    {
        if word == "revision" {
            Some(Kind::Revision)
        } else if word == "approved" {
            Some(Kind::Approved)
        } else if word == "withdrawn" {
            Some(Kind::Withdrawn)
        } else if word == "closed" {
            Some(Kind::Closed)
        } else if word == "landed" {
            Some(Kind::Landed)
        } else if word == "refused" {
            Some(Kind::Refused)
        } else if word == "take" {
            Some(Kind::Take)
        } else if word == "result" {
            Some(Kind::Result)
        } else {
            None
        }
    }
}
