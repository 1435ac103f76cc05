//! The faults that end a command.
ghost use Rattle.std.specs.Prelude.{◌≡◌};
ghost use Rattle.gated_cli.specs.Faults.{command_fault_text};

use gate_archive::FeedFault;
use gate_book_trait::HistoryFault;
use gate_config::ConfigFault;
use gate_core::ReplayFault;
use gate_http::RequestFault;
use gate_types::open_fault::OpenFault;
use gate_types::tap::Failed;
use std::alloc::AllocError;
use std::fmt;

/// Why a command ended before it was done.
#[derive(Clone, Copy, Debug, PartialEq, Eq)]
pub enum Fault {
    /// The settings file has this fault.
    Settings(ConfigFault),
    /// The gate's file has this fault, or can't be opened.
    File(OpenFault),
    /// What was asked for couldn't be read from the gate's book, or memory was refused for it; nothing was printed.
    Unavailable,
    /// The input answered an error.
    Read,
    /// The output answered an error, or took 0 bytes.
    Write,
    /// Memory was refused before anything was done.
    NoMemory,
    /// The port can't be listened at, or a connection there can't be accepted.
    Listener,
    /// The settings file can't be read, or is over the limit.
    SettingsFile,
    /// No queue has the name.
    NoQueue,
    /// The store failed.
    Store,
    /// No accepted delivery has the id.
    NoDelivery,
    /// What was asked for is answered by another status than 200.
    Refused,
}

impl Fault {
    /// The fault's number, a space and its word.
    pub fn text(self) -> &'static str
        ensures { result.now ≡ command_fault_text self }
    {
        match self {
            Fault::Settings(fault) => fault.text(),
            Fault::File(fault) => fault.text(),
            Fault::Unavailable => "E15 unavailable",
            Fault::Read => RequestFault::Read.text(),
            Fault::Write => RequestFault::Write.text(),
            Fault::NoMemory => RequestFault::NoMemory.text(),
            Fault::Listener => "I4 listen",
            Fault::SettingsFile => "I5 settings-file",
            Fault::NoQueue => "I6 no-queue",
            Fault::Store => RequestFault::Store.text(),
            Fault::NoDelivery => "I8 no-delivery",
            Fault::Refused => "I9 refused",
        }
    }
}

impl fmt::Display for Fault {
    ghost use Rattle.std.specs.Prelude.{Some};

    ghost output = { λ f. Some (command_fault_text f) };

    fn fmt<W: fmt::Write>(&self, f: &mut fmt::Formatter<W>) -> fmt::Result {
        f.write_str(self.text())
    }
}

impl std::error::Error for Fault {}

impl From<ConfigFault> for Fault {
    ghost use Rattle.gated_cli.specs.declared.run.fault.Fault.TheVariants.{Settings};

    ghost from_gives = { λ fault f. f ≡ Settings fault };

    fn from(fault: ConfigFault) -> Fault {
        Fault::Settings(fault)
    }
}

impl From<ReplayFault> for Fault {
    ghost use Rattle.gated_cli.specs.Faults.{of_replay};

    ghost from_gives = { λ fault f. f ≡ of_replay fault };

    fn from(fault: ReplayFault) -> Fault {
        match fault {
            ReplayFault::Read => Fault::Read,
            ReplayFault::Write => Fault::Write,
            ReplayFault::NoMemory => Fault::NoMemory,
        }
    }
}

impl From<RequestFault> for Fault {
    ghost use Rattle.gated_cli.specs.Faults.{of_request};

    ghost from_gives = { λ fault f. f ≡ of_request fault };

    fn from(fault: RequestFault) -> Fault {
        match fault {
            RequestFault::Read => Fault::Read,
            RequestFault::Write => Fault::Write,
            RequestFault::NoMemory => Fault::NoMemory,
            RequestFault::Store => Fault::Store,
        }
    }
}

impl From<HistoryFault> for Fault {
    ghost use Rattle.gated_cli.specs.Faults.{of_history};

    ghost from_gives = { λ fault f. f ≡ of_history fault };

    fn from(fault: HistoryFault) -> Fault {
        match fault {
            HistoryFault::NoQueue => Fault::NoQueue,
            HistoryFault::Unavailable => Fault::Unavailable,
            HistoryFault::Broken => Fault::Store,
            HistoryFault::Write => Fault::Write,
        }
    }
}

impl From<FeedFault> for Fault {
    ghost use Rattle.gated_cli.specs.Faults.{of_feed};

    ghost from_gives = { λ fault f. f ≡ of_feed fault };

    fn from(fault: FeedFault) -> Fault {
        match fault {
            FeedFault::NoDelivery => Fault::NoDelivery,
            FeedFault::Unavailable => Fault::Unavailable,
            FeedFault::Broken => Fault::Store,
            FeedFault::Write => Fault::Write,
        }
    }
}

impl From<AllocError> for Fault {
    ghost use Rattle.gated_cli.specs.declared.run.fault.Fault.TheVariants.{NoMemory};

    ghost from_gives = { λ _ f. f ≡ NoMemory };

    fn from(_: AllocError) -> Fault {
        Fault::NoMemory
    }
}

impl From<Failed> for Fault {
    ghost use Rattle.gated_cli.specs.declared.run.fault.Fault.TheVariants.{Write};

    ghost from_gives = { λ _ f. f ≡ Write };

    fn from(_: Failed) -> Fault {
        Fault::Write
    }
}
