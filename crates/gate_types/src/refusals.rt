//! What is said of each refusal.
ghost use Rattle.std.specs.Prelude.{◌≡◌};

use crate::deliveries::Refusal;
use crate::names::NoMemory;
use std::fmt;

impl Refusal {
    ghost use Rattle.gate_types.specs.Refusals.{refusal_row, refusal_text};

    /// The status of the HTTP answer.
    pub fn status(&self) -> u16
        ensures { result ≡ (refusal_row self.now).status }
    {
        match self {
            Refusal::BadJson => 400,
            Refusal::WrongDoor
            | Refusal::UnknownChange
            | Refusal::UnknownRevision
            | Refusal::NoOrder
            | Refusal::UnknownBuild
            | Refusal::Idle => 404,
            Refusal::IdReused | Refusal::ProjectChanged | Refusal::Submitting => 409,
            Refusal::BadDelivery | Refusal::UnknownProject | Refusal::TooManyNeeds => 422,
            Refusal::Unavailable => 503,
            Refusal::Exhausted => 507,
        }
    }

    pub fn word(&self) -> &'static str
        ensures { result.now ≡ (refusal_row self.now).word }
    {
        match self {
            Refusal::BadJson => "bad-json",
            Refusal::BadDelivery => "bad-delivery",
            Refusal::WrongDoor => "wrong-door",
            Refusal::IdReused => "id-reused",
            Refusal::UnknownChange => "unknown-change",
            Refusal::UnknownRevision => "unknown-revision",
            Refusal::UnknownProject => "unknown-project",
            Refusal::ProjectChanged => "project-changed",
            Refusal::Submitting => "submitting",
            Refusal::NoOrder => "no-order",
            Refusal::UnknownBuild => "unknown-build",
            Refusal::Idle => "idle",
            Refusal::TooManyNeeds => "too-many-needs",
            Refusal::Exhausted => "exhausted",
            Refusal::Unavailable => "unavailable",
        }
    }

    /// The text of the answer, with the refusal's number and word.
    pub fn text(&self) -> &'static str
        ensures { result.now ≡ refusal_text self.now }
    {
        match self {
            Refusal::BadJson => "{\"code\":\"E1\",\"error\":\"bad-json\"}",
            Refusal::BadDelivery => "{\"code\":\"E2\",\"error\":\"bad-delivery\"}",
            Refusal::WrongDoor => "{\"code\":\"E3\",\"error\":\"wrong-door\"}",
            Refusal::IdReused => "{\"code\":\"E4\",\"error\":\"id-reused\"}",
            Refusal::UnknownChange => "{\"code\":\"E5\",\"error\":\"unknown-change\"}",
            Refusal::UnknownRevision => "{\"code\":\"E6\",\"error\":\"unknown-revision\"}",
            Refusal::UnknownProject => "{\"code\":\"E7\",\"error\":\"unknown-project\"}",
            Refusal::ProjectChanged => "{\"code\":\"E8\",\"error\":\"project-changed\"}",
            Refusal::Submitting => "{\"code\":\"E9\",\"error\":\"submitting\"}",
            Refusal::NoOrder => "{\"code\":\"E10\",\"error\":\"no-order\"}",
            Refusal::UnknownBuild => "{\"code\":\"E11\",\"error\":\"unknown-build\"}",
            Refusal::Idle => "{\"code\":\"E12\",\"error\":\"idle\"}",
            Refusal::TooManyNeeds => "{\"code\":\"E13\",\"error\":\"too-many-needs\"}",
            Refusal::Exhausted => "{\"code\":\"E14\",\"error\":\"exhausted\"}",
            Refusal::Unavailable => "{\"code\":\"E15\",\"error\":\"unavailable\"}",
        }
    }
}

impl fmt::Display for Refusal {
    ghost use Rattle.std.specs.Prelude.{Some};
    ghost use Rattle.gate_types.specs.Refusals.{refusal_row};

    ghost output = { λ r. Some (refusal_row r).word };

    fn fmt<W: fmt::Write>(&self, f: &mut fmt::Formatter<W>) -> fmt::Result {
        f.write_str(self.word())
    }
}

impl std::error::Error for Refusal {}

impl From<NoMemory> for Refusal {
    ghost use Rattle.gate_types.specs.declared.deliveries.Refusal.TheVariants.{Unavailable};

    ghost from_gives = { λ _ r. r ≡ Unavailable };

    fn from(_: NoMemory) -> Refusal {
        Refusal::Unavailable
    }
}
