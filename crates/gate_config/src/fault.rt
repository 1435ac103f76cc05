//! Why a settings file is refused.
ghost use Rattle.std.specs.Prelude.{◌≡◌};
ghost use Rattle.gate_config.specs.Words.{fault_number, word_of, config_fault_text};

use std::alloc::AllocError;
use std::fmt;

/// A fault of a settings file. If the file has several, the one with the least number is answered.
#[derive(Clone, Copy, Debug, PartialEq, Eq)]
pub enum ConfigFault {
    /// The bytes are no TOML.
    NotToml,
    /// `forge`, `queue` or `project` isn't there; or the base, a name, or a project's queue.
    MissingMember,
    /// A member isn't of its kind: a table, an array of tables, a text, a whole number, or a truth value.
    WrongKind,
    /// A member that has no meaning stands somewhere.
    UnknownMember,
    /// A name, or the base, isn't of its form.
    BadName,
    /// Two queues, two projects, or two jobs of one project have the same name.
    DoubleName,
    /// A project names a queue that isn't there.
    UnknownQueue,
    /// A window isn't 0 to 1,000, a floor isn't 1 to 1,000, or a floor is above a window that isn't 0.
    BadWindow,
    /// No job of a project votes.
    NoVotingJob,
    /// Too few or too many queues or projects, or too many jobs in a project.
    Limit,
    /// Memory was refused, which says nothing of the file.
    NoMemory,
}

impl ConfigFault {
    /// The number of the fault, 1 to 11.
    pub fn number(self) -> u8
        ensures { result ≡ fault_number self }
    {
        match self {
            ConfigFault::NotToml => 1,
            ConfigFault::MissingMember => 2,
            ConfigFault::WrongKind => 3,
            ConfigFault::UnknownMember => 4,
            ConfigFault::BadName => 5,
            ConfigFault::DoubleName => 6,
            ConfigFault::UnknownQueue => 7,
            ConfigFault::BadWindow => 8,
            ConfigFault::NoVotingJob => 9,
            ConfigFault::Limit => 10,
            ConfigFault::NoMemory => 11,
        }
    }

    /// The word of the fault.
    pub fn word(self) -> &'static str
        ensures { result.now ≡ word_of self }
    {
        match self {
            ConfigFault::NotToml => "not-toml",
            ConfigFault::MissingMember => "missing-member",
            ConfigFault::WrongKind => "wrong-kind",
            ConfigFault::UnknownMember => "unknown-member",
            ConfigFault::BadName => "bad-name",
            ConfigFault::DoubleName => "double-name",
            ConfigFault::UnknownQueue => "unknown-queue",
            ConfigFault::BadWindow => "bad-window",
            ConfigFault::NoVotingJob => "no-voting-job",
            ConfigFault::Limit => "limit",
            ConfigFault::NoMemory => "no-memory",
        }
    }

    /// The fault's number, a space and its word, as it is printed.
    pub fn text(self) -> &'static str
        ensures { result.now ≡ config_fault_text self }
    {
        match self {
            ConfigFault::NotToml => "C1 not-toml",
            ConfigFault::MissingMember => "C2 missing-member",
            ConfigFault::WrongKind => "C3 wrong-kind",
            ConfigFault::UnknownMember => "C4 unknown-member",
            ConfigFault::BadName => "C5 bad-name",
            ConfigFault::DoubleName => "C6 double-name",
            ConfigFault::UnknownQueue => "C7 unknown-queue",
            ConfigFault::BadWindow => "C8 bad-window",
            ConfigFault::NoVotingJob => "C9 no-voting-job",
            ConfigFault::Limit => "C10 limit",
            ConfigFault::NoMemory => "C11 no-memory",
        }
    }
}

impl fmt::Display for ConfigFault {
    ghost use Rattle.std.specs.Prelude.{Some};

    ghost output = { λ f. Some (config_fault_text f) };

    fn fmt<W: fmt::Write>(&self, f: &mut fmt::Formatter<W>) -> fmt::Result {
        f.write_str(self.text())
    }
}

impl std::error::Error for ConfigFault {}

impl From<AllocError> for ConfigFault {
    ghost use Rattle.gate_config.specs.declared.fault.ConfigFault.TheVariants.{NoMemory};

    ghost from_gives = { λ _ e. e ≡ NoMemory };

    fn from(_: AllocError) -> ConfigFault {
        ConfigFault::NoMemory
    }
}
