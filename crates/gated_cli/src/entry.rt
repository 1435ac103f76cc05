//! The program over the words of its command line and three streams.
ghost use Rattle.std.specs.Prelude.{◌≡◌, ◌⊎◌, ◌≤◌, IfErr, map, true, false};
ghost use Rattle.clap.specs.Words.{kind_of};
ghost use Rattle.gate_types.specs.Tap.{has_failed};
ghost use Rattle.gated_command.specs.CommandLine.{is_help, is_refused, may_be_refused};
ghost use Rattle.gated_cli.specs.Doing.{streams};
ghost use Rattle.gated_cli.specs.Ending.{TellsText};
ghost use Rattle.gated_cli.specs.Faults.{line_of};
ghost use Rattle.gated_cli.specs.Program.{Obeys, FailsBy, HelpFails, out_of_memory};

use crate::machine::GateFiles;
use crate::run::{Fault, ended, run};
use clap::error::ErrorKind;
use gate_types::tap::{Failed, Tap};
use gated_command::{Usage, command};
use std::alloc::Global;
use std::convert::AsStr;
use std::io;
use std::io::{Read, Write};
use std::rt::Files;

/// The words can't be read, or say nothing that could be done.
const REFUSED: u8 = 2;

/// Does what the words ask for, of which the first is the program's name, and gives the status
/// that the program ends with: 0 where it is done, or help or the version is given; 1 after a fault; 2 where the
/// words are refused, which `errors` is told. A fault is told on `errors` too, and so are those of the
/// connections of a server.
pub fn program<F: Files + GateFiles + AllocGlobal, S: AsStr, R: Read, W: Write, E: Write>(
    rt: &F,
    words: &[S],
    input: &mut Tap<R>,
    output: &mut Tap<W>,
    errors: &mut Tap<E>,
) -> u8
    requires reader { has_failed input.old ≡ false }
    requires writer { has_failed output.old ≡ false }
    requires teller { has_failed errors.old ≡ false }
    ensures status { result ≤ 2 }
    ensures done { result ≡ 0 → Obeys F.Led E.contents (map S.text words.now)
        (streams R.remaining W.contents input.old output.old)
        (streams R.remaining W.contents input.new output.new) errors.old errors.new }
    ensures fault { result ≡ 1 → (fault : Fault) × FailsBy F.Left E.contents W.contents fault (map S.text words.now)
        (streams R.remaining W.contents input.old output.old)
        (streams R.remaining W.contents input.new output.new) errors.old errors.new output.old output.new }
    ensures refused { is_refused (map S.text words.now) ≡ true → result ≡ 2 }
    ensures untouched { result ≡ 2 → (input.new ≡ input.old) × (output.new ≡ output.old) }
    ensures told { result ≡ 2 → may_be_refused (map S.text words.now) ≡ false
        → TellsText E.contents errors.old errors.new out_of_memory }
{
    match command(rt.alloc(), words) {
        Ok(cmd) => run(rt, cmd, input, output, errors),
        Err(usage) => explained(rt.alloc(), &usage, output, errors),
    }
}

/// Tells that the words of the command line can't be read, and gives the status.
pub fn unread<E: Write>(alloc: Global, error: &io::Error, errors: &mut Tap<E>) -> u8
    requires { has_failed errors.old ≡ false }
    ensures { result ≡ 2 }
{
    let _ = match format!(in alloc; "error: {error}\n") {
        Ok(text) => errors.write_all(text.as_bytes()),
        Err(_) => out_of_memory(errors),
    };
    REFUSED
}

/// Gives the help or the version that was asked for, or tells why nothing is done; and gives the status.
fn explained<W: Write, E: Write>(
    alloc: Global,
    usage: &Usage,
    output: &mut Tap<W>,
    errors: &mut Tap<E>,
) -> u8
    requires writer { has_failed output.old ≡ false }
    requires teller { has_failed errors.old ≡ false }
    ensures help { is_help (kind_of usage.now) ≡ true →
        ((result ≡ 0) × (errors.new ≡ errors.old)) ⊎ ((result ≡ 1) × (fault : Fault)
        × TellsText E.contents errors.old errors.new (line_of fault)
        × HelpFails fault output.old output.new) }
    ensures refused { is_help (kind_of usage.now) ≡ false → (result ≡ 2) × (output.new ≡ output.old) }
    ensures memory { kind_of usage.now ≡ ErrorKind.OutOfMemory →
        TellsText E.contents errors.old errors.new out_of_memory }
{
    match usage.kind() {
        ErrorKind::DisplayHelp | ErrorKind::DisplayVersion => ended(
            help(alloc, usage, output),
            errors,
        ),
        ErrorKind::OutOfMemory => {
            let _ = out_of_memory(errors);
            REFUSED
        }
        _ => {
            let _ = mistake(alloc, usage, errors);
            REFUSED
        }
    }
}

fn help<W: Write>(alloc: Global, usage: &Usage, output: &mut Tap<W>) -> Result<(), Fault>
    requires { has_failed output.old ≡ false }
    ensures { IfErr result (λ fault. HelpFails fault output.old output.new) }
{
    let text = format!(in alloc; "{usage}")?;
    output.write_all(text.as_bytes())?;
    Ok(())
}

/// Tells what is wrong with the words.
fn mistake<E: Write>(alloc: Global, usage: &Usage, errors: &mut Tap<E>) -> Result<(), Failed>
    requires { has_failed errors.old ≡ false }
{
    match format!(in alloc; "{usage}") {
        Ok(text) => errors.write_all(text.as_bytes()),
        Err(_) => out_of_memory(errors),
    }
}

fn out_of_memory<E: Write>(errors: &mut Tap<E>) -> Result<(), Failed>
    requires { has_failed errors.old ≡ false }
    ensures { TellsText E.contents errors.old errors.new out_of_memory }
{
    errors.write_all(b"error: out of memory\n")
}
