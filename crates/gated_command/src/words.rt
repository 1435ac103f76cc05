//! The command line, and what it asks for.
ghost use Rattle.std.specs.Prelude.{◌≡◌, IfOk, IfErr, map, is_some, true};
ghost use Rattle.clap.specs.Words.{kind_of, takes};
ghost use Rattle.gated_command.specs.CommandLine.{gated, asked, Names, IsExplained};

use crate::commands::app;
use crate::reading::read;
use clap::Error;
use clap::error::ErrorKind;
use std::alloc::Global;
use std::convert::AsStr;

/// What the program is asked to do.
#[derive(Clone, Copy, Debug, PartialEq, Eq)]
pub enum Cmd<'a> {
    /// Reads the settings of a file, and prints how many queues, projects and jobs they have.
    Check {
        settings: &'a str,
    },
    /// Makes the tables of a gate that has seen no delivery, in a file.
    Init {
        settings: &'a str,
        file: &'a str,
    },
    /// Answers the deliveries of standard input over the settings of a file, then prints the
    /// status if that is asked for.
    Replay {
        settings: &'a str,
        status: bool,
    },
    /// Answers the deliveries of standard input over the gate that a file keeps.
    Deliver {
        settings: &'a str,
        file: &'a str,
    },
    /// Prints the status of the gate that a file keeps.
    Status {
        settings: &'a str,
        file: &'a str,
    },
    /// Prints the history of a queue of the gate that a file keeps.
    History {
        settings: &'a str,
        file: &'a str,
        queue: &'a str,
    },
    /// Prints the deliveries that the gate of a file accepted, in order, each as a line that `Deliver` takes: all of
    /// them, or those behind the one of this id.
    Deliveries {
        settings: &'a str,
        file: &'a str,
        after: Option<&'a str>,
    },
    /// Prints what a `GET` of this path would be answered of the gate that a file keeps.
    Get {
        settings: &'a str,
        file: &'a str,
        path: &'a str,
    },
    /// Serves so many connections over HTTP at this port of loopback, over the gate that a file keeps.
    /// Port 0 takes a free one.
    Serve {
        settings: &'a str,
        file: &'a str,
        port: u16,
        count: u64,
    },
    /// Makes a file of schema 1 one of schema 2.
    Migrate {
        settings: &'a str,
        file: &'a str,
    },
}

/// Why a command line asks for nothing to be done: it is refused, or it asks for help or the version. It prints as the
/// text for the user.
pub type Usage = Error;

/// Reads a command line, of which the first word is the program's name.
///
/// # Errors
///
/// Where the line is refused, asks for help or the version, or memory is refused; and never where `clap` takes the
/// line and it names a command, but for want of memory.
pub fn command<'a, S: AsStr>(alloc: Global, words: &'a [S]) -> Result<Cmd<'a>, Usage>
    ensures ok { IfOk result (Names (map S.text words.entry.now)) }
    ensures kinds { IfErr result (IsExplained (map S.text words.entry.now)) }
    ensures err { IfErr result (λ usage. takes gated (map S.text words.entry.now) ≡ true
        → is_some (asked (map S.text words.entry.now)) ≡ true → kind_of usage ≡ ErrorKind.OutOfMemory) }
{
    let asked = read(&app(alloc)?.try_get_matches_from(words)?);
    match asked {
        Some(cmd) => Ok(cmd),
        None => Err(app(alloc)?.error(ErrorKind::MissingSubcommand, "a command is missing")?),
    }
}
