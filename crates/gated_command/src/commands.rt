//! The commands, as `clap` is told of them.
ghost use Rattle.std.specs.Prelude.{◌≡◌, codes, IfOk, false};
ghost use Rattle.clap.specs.Words.{App, app_of, rule_of, with_subcommand};
ghost use Rattle.gated_command.specs.CommandLine.{gated, check, init, replay, deliver, status, over_file, history};
ghost use Rattle.gated_command.specs.CommandLine.{deliveries, get, serve, migrate, IsCommand};
ghost use Rattle.gated_command.specs.CommandLine.{settings_rule, file_rule, queue_rule, after_rule, path_rule};
ghost use Rattle.gated_command.specs.CommandLine.{status_rule, number_rule, most_port, most_count};

use clap::builder::ValueParser;
use clap::{Arg, ArgAction, Command};
use std::alloc::{AllocError, Global};

/// What `--version` tells behind the name: the program, the schema of the tables that it makes, and the kit whose
/// libraries it is built with.
const VERSION: &str = "1.0.0, tables of schema 2, rattle-kit-13f";

/// The highest port.
pub(crate) const MOST_PORT: u64 = 65_535;

/// The most connections that a command serves.
pub(crate) const MOST_COUNT: u64 = 1_000_000_000;

/// The program's command line.
pub(crate) fn app<'a>(alloc: Global) -> Result<Command<'a>, AllocError>
    ensures { IfOk result (λ c. app_of c ≡ gated) }
{
    let bare = Command::new(alloc, "gated")
        .about(
            "The gate of a code forge: decides which approved changes may land, and in which order.",
        )
        .version(VERSION)
        .subcommand_required(true);
    let whole = with(Ok(bare), check(alloc));
    let whole = with(whole, init(alloc));
    let whole = with(whole, replay(alloc));
    let whole = with(whole, deliver(alloc));
    let whole = with(whole, status(alloc));
    let whole = with(whole, history(alloc));
    let whole = with(whole, deliveries(alloc));
    let whole = with(whole, get(alloc));
    let whole = with(whole, serve(alloc));
    with(whole, migrate(alloc))
}

/// The commands of `whole` and then this one, if memory was there for all.
fn with<'a>(
    whole: Result<Command<'a>, AllocError>,
    one: Result<Command<'a>, AllocError>,
) -> Result<Command<'a>, AllocError>
    ensures { (apps app : App) → IfOk whole.entry (λ c. app_of c ≡ apps) → IfOk one.entry (IsCommand app)
        → IfOk result (λ c. app_of c ≡ with_subcommand apps app.top) }
{
    whole?.subcommand(one?)
}

/// The settings file, which each command names.
fn settings<'a>(alloc: Global) -> Arg<'a>
    ensures rule { rule_of result ≡ settings_rule }
    ensures local { result.global ≡ false }
{
    Arg::new(alloc, "settings")
        .value_name("SETTINGS")
        .help("The settings file, a TOML document")
        .required(true)
}

/// The gate's file, the word behind.
fn file<'a>(alloc: Global) -> Arg<'a>
    ensures rule { rule_of result ≡ file_rule }
    ensures local { result.global ≡ false }
{
    Arg::new(alloc, "file")
        .value_name("FILE")
        .help("The gate's file, a SQLite database that `gated init` made")
        .required(true)
}

/// The queue's name, the word behind.
fn queue<'a>(alloc: Global) -> Arg<'a>
    ensures rule { rule_of result ≡ queue_rule }
    ensures local { result.global ≡ false }
{
    Arg::new(alloc, "queue")
        .value_name("QUEUE")
        .help("The name of a queue of the settings")
        .required(true)
}

/// The id of the delivery behind which the deliveries begin; without it they are all.
fn after<'a>(alloc: Global) -> Arg<'a>
    ensures rule { rule_of result ≡ after_rule }
    ensures local { result.global ≡ false }
{
    Arg::new(alloc, "after")
        .long("after")
        .value_name("ID")
        .help("Only those behind the one of this id")
}

/// The path of a request, the word behind.
fn path<'a>(alloc: Global) -> Arg<'a>
    ensures rule { rule_of result ≡ path_rule }
    ensures local { result.global ≡ false }
{
    Arg::new(alloc, "path")
        .value_name("PATH")
        .help("The path of a request, with its query")
        .required(true)
}

/// Whether the status is printed too.
fn status_flag<'a>(alloc: Global) -> Arg<'a>
    ensures rule { rule_of result ≡ status_rule }
    ensures local { result.global ≡ false }
{
    Arg::new(alloc, "status")
        .long("status")
        .help("Print the status text after the last reply")
        .action(ArgAction::SetTrue)
}

/// An option whose value is a number in a range, which has to be given.
fn number_option<'a>(
    alloc: Global,
    name: &'static str,
    value_name: &'static str,
    help: &'static str,
    least: u64,
    most: u64,
) -> Arg<'a>
    ensures rule { rule_of result ≡ number_rule name.now least most }
    ensures local { result.global ≡ false }
{
    Arg::new(alloc, name)
        .long(name)
        .value_name(value_name)
        .help(help)
        .value_parser(ValueParser::unsigned(least, most))
        .required(true)
}

fn port<'a>(alloc: Global) -> Arg<'a>
    ensures rule { rule_of result ≡ number_rule (codes "port") 0 most_port }
    ensures local { result.global ≡ false }
{
    number_option(
        alloc,
        "port",
        "P",
        "The port of 127.0.0.1; 0 takes a free one",
        0,
        MOST_PORT,
    )
}

fn count<'a>(alloc: Global) -> Arg<'a>
    ensures rule { rule_of result ≡ number_rule (codes "count") 1 most_count }
    ensures local { result.global ≡ false }
{
    number_option(
        alloc,
        "count",
        "N",
        "How many connections are served, one after another",
        1,
        MOST_COUNT,
    )
}

fn check<'a>(alloc: Global) -> Result<Command<'a>, AllocError>
    ensures { IfOk result (IsCommand check) }
{
    Command::new(alloc, "check")
        .about("Reads the settings file, and prints how many queues, projects and jobs it has.")
        .arg(settings(alloc))
}

/// A command over the gate that a file keeps.
fn over_file<'a>(
    alloc: Global,
    name: &'static str,
    about: &'static str,
) -> Result<Command<'a>, AllocError>
    ensures { IfOk result (IsCommand (over_file name.now)) }
{
    Command::new(alloc, name)
        .about(about)
        .arg(settings(alloc))?
        .arg(file(alloc))
}

fn init<'a>(alloc: Global) -> Result<Command<'a>, AllocError>
    ensures { IfOk result (IsCommand init) }
{
    over_file(
        alloc,
        "init",
        "Makes the tables of a new gate in FILE. Run it once, before the first delivery.",
    )
}

fn replay<'a>(alloc: Global) -> Result<Command<'a>, AllocError>
    ensures { IfOk result (IsCommand replay) }
{
    Command::new(alloc, "replay")
        .about("Answers each line of standard input, a delivery, by a line on standard output.")
        .arg(settings(alloc))?
        .arg(status_flag(alloc))
}

fn deliver<'a>(alloc: Global) -> Result<Command<'a>, AllocError>
    ensures { IfOk result (IsCommand deliver) }
{
    over_file(
        alloc,
        "deliver",
        "Answers each line of standard input, a delivery, over the gate that FILE keeps.",
    )
}

fn status<'a>(alloc: Global) -> Result<Command<'a>, AllocError>
    ensures { IfOk result (IsCommand status) }
{
    over_file(
        alloc,
        "status",
        "Prints the queues of the gate that FILE keeps, their items, and the changes that wait. Use it to look, while no other `gated` has FILE.",
    )
}

fn history<'a>(alloc: Global) -> Result<Command<'a>, AllocError>
    ensures { IfOk result (IsCommand history) }
{
    over_file(
        alloc,
        "history",
        "Prints what left QUEUE of the gate that FILE keeps, in order, and why. Use it to see what became of a change, while no other `gated` has FILE.",
    )?
    .arg(queue(alloc))
}

fn deliveries<'a>(alloc: Global) -> Result<Command<'a>, AllocError>
    ensures { IfOk result (IsCommand deliveries) }
{
    over_file(
        alloc,
        "deliveries",
        "Prints the deliveries that the gate of FILE accepted, in order, each as a line that `gated deliver` takes. Use it for a backup, or for a second gate, while no other `gated` has FILE.",
    )?
    .arg(after(alloc))
}

fn get<'a>(alloc: Global) -> Result<Command<'a>, AllocError>
    ensures { IfOk result (IsCommand get) }
{
    over_file(
        alloc,
        "get",
        "Prints what `GET PATH` would answer of the gate that FILE keeps, and ends with 0 where that is 200. Use it to ask as over HTTP, while no other `gated` has FILE.",
    )?
    .arg(path(alloc))
}

fn serve<'a>(alloc: Global) -> Result<Command<'a>, AllocError>
    ensures { IfOk result (IsCommand serve) }
{
    over_file(
        alloc,
        "serve",
        "Answers requests over HTTP, one a connection, over the gate that FILE keeps.",
    )?
    .arg(port(alloc))?
    .arg(count(alloc))
}

fn migrate<'a>(alloc: Global) -> Result<Command<'a>, AllocError>
    ensures { IfOk result (IsCommand migrate) }
{
    over_file(
        alloc,
        "migrate",
        "Makes FILE, which a `gated` of schema 1 made, one of schema 2. Run it once, with the settings that FILE keeps.",
    )
}
