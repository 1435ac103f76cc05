//! What the matches of a command line ask for.
ghost use Rattle.std.specs.Prelude.{◌≡◌, ◌≤◌, codes, IfSome, option_map, option_and_then};
ghost use Rattle.clap.specs.Words.{subcommand_rows_of, rows_of, found_of, first_of};
ghost use Rattle.gated_command.specs.CommandLine.{is_set, asks_for, IsSaidBy, said_of, number_in, files_of};

use crate::commands::{MOST_COUNT, MOST_PORT};
use crate::words::Cmd;
use clap::ArgMatches;

/// What the matches ask for, if they name a command.
pub(crate) fn read<'a>(matches: &ArgMatches<'a>) -> Option<Cmd<'a>>
    ensures { IsSaidBy result (subcommand_rows_of matches.now) }
{
    match matches.subcommand() {
        None => None,
        Some((name, inner)) => entered(name, inner),
    }
}

fn entered<'a>(name: &str, inner: &ArgMatches<'a>) -> Option<Cmd<'a>>
    ensures { asks_for result ≡ said_of (name.now, rows_of (found_of inner.now)) }
{
    if name == "check" {
        checking(inner)
    } else if name == "init" {
        initing(inner)
    } else if name == "replay" {
        replaying(inner)
    } else if name == "deliver" {
        delivering(inner)
    } else if name == "status" {
        showing(inner)
    } else if name == "history" {
        telling(inner)
    } else if name == "deliveries" {
        feeding(inner)
    } else if name == "get" {
        getting(inner)
    } else if name == "serve" {
        serving(inner)
    } else if name == "migrate" {
        migrating(inner)
    } else {
        None
    }
}

fn checking<'a>(inner: &ArgMatches<'a>) -> Option<Cmd<'a>>
    ensures { asks_for result ≡ said_of (codes "check", rows_of (found_of inner.now)) }
{
    match value(inner, "settings") {
        Some(settings) => Some(Cmd::Check { settings }),
        None => None,
    }
}

fn replaying<'a>(inner: &ArgMatches<'a>) -> Option<Cmd<'a>>
    ensures { asks_for result ≡ said_of (codes "replay", rows_of (found_of inner.now)) }
{
    match value(inner, "settings") {
        Some(settings) => Some(Cmd::Replay {
            settings,
            status: is_set(inner, "status"),
        }),
        None => None,
    }
}

fn initing<'a>(inner: &ArgMatches<'a>) -> Option<Cmd<'a>>
    ensures { asks_for result ≡ said_of (codes "init", rows_of (found_of inner.now)) }
{
    let (settings, file) = files(inner)?;
    Some(Cmd::Init { settings, file })
}

fn delivering<'a>(inner: &ArgMatches<'a>) -> Option<Cmd<'a>>
    ensures { asks_for result ≡ said_of (codes "deliver", rows_of (found_of inner.now)) }
{
    let (settings, file) = files(inner)?;
    Some(Cmd::Deliver { settings, file })
}

fn showing<'a>(inner: &ArgMatches<'a>) -> Option<Cmd<'a>>
    ensures { asks_for result ≡ said_of (codes "status", rows_of (found_of inner.now)) }
{
    let (settings, file) = files(inner)?;
    Some(Cmd::Status { settings, file })
}

fn telling<'a>(inner: &ArgMatches<'a>) -> Option<Cmd<'a>>
    ensures { asks_for result ≡ said_of (codes "history", rows_of (found_of inner.now)) }
{
    let (settings, file) = files(inner)?;
    let queue = value(inner, "queue")?;
    Some(Cmd::History {
        settings,
        file,
        queue,
    })
}

fn feeding<'a>(inner: &ArgMatches<'a>) -> Option<Cmd<'a>>
    ensures { asks_for result ≡ said_of (codes "deliveries", rows_of (found_of inner.now)) }
{
    let (settings, file) = files(inner)?;
    Some(Cmd::Deliveries {
        settings,
        file,
        after: value(inner, "after"),
    })
}

fn getting<'a>(inner: &ArgMatches<'a>) -> Option<Cmd<'a>>
    ensures { asks_for result ≡ said_of (codes "get", rows_of (found_of inner.now)) }
{
    let (settings, file) = files(inner)?;
    let path = value(inner, "path")?;
    Some(Cmd::Get {
        settings,
        file,
        path,
    })
}

fn serving<'a>(inner: &ArgMatches<'a>) -> Option<Cmd<'a>>
    ensures { asks_for result ≡ said_of (codes "serve", rows_of (found_of inner.now)) }
{
    let (settings, file) = files(inner)?;
    let port = number(inner, "port", 0, MOST_PORT)?;
    let count = number(inner, "count", 1, MOST_COUNT)?;
    Some(Cmd::Serve {
        settings,
        file,
        port: port as u16,
        count,
    })
}

fn migrating<'a>(inner: &ArgMatches<'a>) -> Option<Cmd<'a>>
    ensures { asks_for result ≡ said_of (codes "migrate", rows_of (found_of inner.now)) }
{
    let (settings, file) = files(inner)?;
    Some(Cmd::Migrate { settings, file })
}

/// The settings file, and the gate's file.
fn files<'a>(inner: &ArgMatches<'a>) -> Option<(&'a str, &'a str)>
    ensures { option_map (λ p. (p.0.now, p.1.now)) result ≡ files_of (rows_of (found_of inner.now)) }
{
    Some((value(inner, "settings")?, value(inner, "file")?))
}

/// The value of an argument.
#[tactic(auto, using(crate::proofs::CommandLemmas::first_rows))]
fn value<'a>(inner: &ArgMatches<'a>, id: &str) -> Option<&'a str>
    ensures { option_map (λ s. s.now) result ≡ first_of id.now (rows_of (found_of inner.now)) }
{
    inner.get_str(id)
}

/// Whether a flag was given.
fn is_set(inner: &ArgMatches<'_>, id: &str) -> bool
    ensures { result ≡ is_set (first_of id.now (rows_of (found_of inner.now))) }
{
    match value(inner, id) {
        Some(text) => text == "true",
        None => false,
    }
}

/// The number that an option was given, if it lies in its range.
fn number(inner: &ArgMatches<'_>, id: &str, least: u64, most: u64) -> Option<u64>
    ensures value { result ≡ option_and_then (number_in least most) (first_of id.now (rows_of (found_of inner.now))) }
    ensures range { IfSome result (λ n. n ≤ most) }
{
    match value(inner, id) {
        Some(text) => number_of(text, least, most),
        None => None,
    }
}

/// The number that a text writes, if it lies in a range.
fn number_of(text: &str, least: u64, most: u64) -> Option<u64>
    ensures value { result ≡ number_in least most text.now }
    ensures range { IfSome result (λ n. n ≤ most) }
{
    match text.parse::<u64>() {
        Ok(number) if least <= number && number <= most => Some(number),
        _ => None,
    }
}
