//! Does what a command line asks for.
ghost use Rattle.std.specs.Prelude.{◌≡◌, ◌⊎◌, ◌≤◌, ℕ, List, [], ◌∷◌, ◌++◌, Option, Bool, false, true, length};
ghost use Rattle.std.specs.Prelude.{Err, OnOk, IfOk, IfErr};
ghost use Rattle.std.specs.Io.KnownBytes.{Appends};
ghost use Rattle.gate_types.specs.Settings.{Settings};
ghost use Rattle.gate_types.specs.Tap.{has_failed, inside};
ghost use Rattle.gate_types.specs.Gated.{new_gate};
ghost use Rattle.gate_migration.specs.declared.migrating.Migrated.{Migrated};
ghost use Rattle.gated_cli.specs.Blame.{Blames, BreaksTo, Fails, FileFails, IsNotShown, MakingFails, MigratingFails};
ghost use Rattle.gated_cli.specs.Doing.{Does, Announces, Checks, Delivers, Migrates, Replays, PrintsShown};
ghost use Rattle.gated_cli.specs.Doing.{HasSettings, beside, streams, settings_limit, migrated_text};
ghost use Rattle.gated_cli.specs.Ending.{EndsBy, CheckEnds, DeliveryEnds, MigrationEnds, ReplayEnds, ServingEnds};
ghost use Rattle.gated_cli.specs.Ending.{ShowingEnds, IsEarly, IsOfMaking, IsOfSettings, most_served};
ghost use Rattle.gated_cli.specs.Ending.{TellsText};
ghost use Rattle.gated_cli.specs.Faults.{line_of};
ghost use Rattle.gated_cli.specs.InMemory.{IsGate};
ghost use Rattle.gated_cli.specs.OfFile.{Made, MakesGate, PrintsOf, RepliesTo, TextOf, Upgrades};
ghost use Rattle.gated_cli.specs.OverFile.{GoesOver, ServesOver};
ghost use Rattle.gated_cli.specs.Telling.{ToldBy, TellsBy, TellsUpTo};

mod check;
mod fault;
mod listening;
pub mod over_file;
mod showing;
mod shown;

use crate::machine::GateFiles;
use crate::run::check::check_text;
use crate::run::showing::write_status;
pub use fault::Fault;
use gate_book::MemBook;
use gate_core::{Gate, replay};
use gate_http::write_fault;
use gate_laws::forms::empty_is_in_form;
use gate_laws::runs::start_is_lawful;
use gate_laws::typed::settings_are_in_form;
use gate_sql::Migrated;
use gate_types::config::Config;
use gate_types::names::NoMemory;
use gate_types::tap::Tap;
use gated_command::Cmd;
pub use shown::Shown;
use std::alloc::Global;
use std::fs;
use std::io::{ErrorKind, Read, Write};
use std::rt::Files;

/// The longest settings file, in bytes.
const SETTINGS_LIMIT: usize = 1_048_576;

/// Does a command over this input and output, and gives the status that the program ends with: 0 where it is done,
/// refused deliveries included; 1 after a fault, which is told on `errors` by one line: `gated: ` and the fault's text.
/// A fault of the settings leaves input and output as they were. A server tells the faults of its connections before
/// that, a line each.
pub fn run<F: Files + GateFiles + AllocGlobal, R: Read, W: Write, E: Write>(
    rt: &F,
    cmd: Cmd<'_>,
    input: &mut Tap<R>,
    output: &mut Tap<W>,
    errors: &mut Tap<E>,
) -> u8
    requires reader { has_failed input.old ≡ false }
    requires writer { has_failed output.old ≡ false }
    requires teller { has_failed errors.old ≡ false }
    ensures status { (result ≡ 0) ⊎ (result ≡ 1) }
    ensures done { result ≡ 0 → ToldBy E.contents cmd.entry errors.old errors.new × Does cmd.entry
        (streams R.remaining W.contents input.old output.old)
        (streams R.remaining W.contents input.new output.new) }
    ensures made { result ≡ 0 → Made F.Led cmd.entry
        (streams R.remaining W.contents input.old output.old)
        (streams R.remaining W.contents input.new output.new) }
    // all of the fault's line, or a beginning where the writer has failed
    ensures fault { result ≡ 1 → (fault : Fault)
        × TellsBy E.contents fault cmd.entry errors.old errors.new
        × EndsBy fault cmd.entry
        (streams R.remaining W.contents input.old output.old)
        (streams R.remaining W.contents input.new output.new)
        × Blames F.Left W.contents fault cmd.entry output.old output.new
        (streams R.remaining W.contents input.old output.old)
        (streams R.remaining W.contents input.new output.new) }
{
    ended(perform(rt, cmd, input, output, errors), errors)
}

/// Tells the fault, if there is one and the errors haven't failed, and gives the status.
pub fn ended<E: Write>(done: Result<(), Fault>, errors: &mut Tap<E>) -> u8
    ensures done { OnOk done ((result ≡ 0) × (errors.new ≡ errors.old)) }
    ensures fault { IfErr done (λ fault. (result ≡ 1)
        × (has_failed errors.old ≡ false → TellsText E.contents errors.old errors.new (line_of fault))) }
    ensures silent { has_failed errors.old ≡ true → errors.new ≡ errors.old }
{
    match done {
        Ok(()) => 0,
        Err(fault) => {
            tell(fault, errors);
            1
        }
    }
}

/// Tells the fault, unless one before it couldn't be told.
#[tactic(auto, using(crate::proofs::TellLemmas::told_either))]
fn tell<E: Write>(fault: Fault, errors: &mut Tap<E>)
    ensures told { has_failed errors.old ≡ false → TellsText E.contents errors.old errors.new (line_of fault) }
    ensures silent { has_failed errors.old ≡ true → errors.new ≡ errors.old }
{
    if !errors.failed() {
        let _ = write_fault(fault.text(), errors);
    }
}

fn perform<F: Files + GateFiles + AllocGlobal, R: Read, W: Write, E: Write>(
    rt: &F,
    cmd: Cmd<'_>,
    input: &mut Tap<R>,
    output: &mut Tap<W>,
    errors: &mut Tap<E>,
) -> Result<(), Fault>
    requires reader { has_failed input.old ≡ false }
    requires writer { has_failed output.old ≡ false }
    requires teller { has_failed errors.old ≡ false }
    ensures told { ToldBy E.contents cmd.entry errors.old errors.new }
    ensures ok { OnOk result (Does cmd.entry
        (streams R.remaining W.contents input.old output.old)
        (streams R.remaining W.contents input.new output.new)) }
    ensures made { OnOk result (Made F.Led cmd.entry
        (streams R.remaining W.contents input.old output.old)
        (streams R.remaining W.contents input.new output.new)) }
    ensures err { IfErr result (λ fault. EndsBy fault cmd.entry
        (streams R.remaining W.contents input.old output.old)
        (streams R.remaining W.contents input.new output.new)) }
    ensures why { IfErr result (λ fault. Blames F.Left W.contents fault cmd.entry output.old output.new
        (streams R.remaining W.contents input.old output.old)
        (streams R.remaining W.contents input.new output.new)) }
{
    match cmd {
        Cmd::Check { settings } => run_check(rt, settings, output)?,
        Cmd::Init { settings, file } => run_init(rt, settings, file)?,
        Cmd::Replay { settings, status } => run_replay(rt, settings, status, input, output)?,
        Cmd::Deliver { settings, file } => run_deliver(rt, settings, file, input, output)?,
        Cmd::Status { settings, file } => run_show(rt, settings, file, Shown::Status, output)?,
        Cmd::History {
            settings,
            file,
            queue,
        } => run_show(rt, settings, file, Shown::History(queue), output)?,
        Cmd::Deliveries {
            settings,
            file,
            after,
        } => run_show(rt, settings, file, Shown::Deliveries(after), output)?,
        Cmd::Get {
            settings,
            file,
            path,
        } => run_show(rt, settings, file, Shown::Content(path), output)?,
        Cmd::Serve {
            settings,
            file,
            port,
            count,
        } => run_serve(rt, settings, file, port, count, output, errors)?,
        Cmd::Migrate { settings, file } => run_migrate(rt, settings, file, output)?,
    }
    Ok(())
}

fn run_check<F: Files + GateFiles + AllocGlobal, W: Write>(
    rt: &F,
    path: &str,
    output: &mut Tap<W>,
) -> Result<(), Fault>
    requires { has_failed output.old ≡ false }
    ensures ok { OnOk result ((left : Option (List ℕ)) → (failed : Bool) → Checks
        (beside W.contents left failed output.old) (beside W.contents left failed output.new)) }
    ensures err { IfErr result (λ fault. (left : Option (List ℕ)) → (failed : Bool) → CheckEnds fault
        (beside W.contents left failed output.old) (beside W.contents left failed output.new)) }
{
    let config = settings_of(rt, path)?;
    let text = check_text(rt.alloc(), &config)?;
    output.write_line(text.as_str())?;
    Ok(())
}

fn run_replay<F: Files + GateFiles + AllocGlobal, R: Read, W: Write>(
    rt: &F,
    settings: &str,
    status: bool,
    input: &mut Tap<R>,
    output: &mut Tap<W>,
) -> Result<(), Fault>
    requires reader { has_failed input.old ≡ false }
    requires writer { has_failed output.old ≡ false }
    ensures ok { OnOk result (Replays status
        (streams R.remaining W.contents input.old output.old)
        (streams R.remaining W.contents input.new output.new)) }
    ensures err { IfErr result (λ fault. ReplayEnds status fault
        (streams R.remaining W.contents input.old output.old)
        (streams R.remaining W.contents input.new output.new)) }
{
    let config = settings_of(rt, settings)?;
    let mut gate = opened(rt.alloc(), config)?;
    replay(rt.alloc(), &mut gate, input, output)?;
    if status {
        write_status(rt.alloc(), &mut gate, output)?;
    }
    Ok(())
}

/// A gate in memory that has seen no delivery.
fn opened(alloc: Global, config: Config) -> Result<Gate<MemBook>, NoMemory>
    ensures { IfOk result (λ gate. IsGate gate (new_gate config)) }
{
    config.show_sound();
    settings_are_in_form(&config);
    start_is_lawful();
    empty_is_in_form();
    let book = MemBook::new(alloc, &config)?;
    Ok(Gate::new(config, book))
}

/// Makes the tables of a new gate in a file.
fn run_init<F: Files + GateFiles + AllocGlobal>(
    rt: &F,
    settings: &str,
    file: &str,
) -> Result<(), Fault>
    ensures made { OnOk result ((c : Settings) × HasSettings c × F.Led file.now (MakesGate c)) }
    ensures fault { IfErr result IsOfMaking }
    ensures why { IfErr result (λ fault. Fails fault (λ c. MakingFails F.Left file.now c fault)) }
{
    let config = settings_of(rt, settings)?;
    rt.make(file, &config)
}

/// Answers the input over the gate that a file keeps.
fn run_deliver<F: Files + GateFiles + AllocGlobal, R: Read, W: Write>(
    rt: &F,
    settings: &str,
    file: &str,
    input: &mut Tap<R>,
    output: &mut Tap<W>,
) -> Result<(), Fault>
    requires reader { has_failed input.old ≡ false }
    requires writer { has_failed output.old ≡ false }
    ensures ok { OnOk result (Delivers
        (streams R.remaining W.contents input.old output.old)
        (streams R.remaining W.contents input.new output.new)) }
    ensures made { OnOk result ((c : Settings) × HasSettings c × F.Led file.now (RepliesTo c
        (streams R.remaining W.contents input.old output.old)
        (streams R.remaining W.contents input.new output.new))) }
    ensures err { IfErr result (λ fault. DeliveryEnds fault
        (streams R.remaining W.contents input.old output.old)
        (streams R.remaining W.contents input.new output.new)) }
    ensures why { IfErr result (λ fault. Fails fault (λ c. FileFails F.Left file.now c fault (BreaksTo c fault
        (streams R.remaining W.contents input.old output.old)
        (streams R.remaining W.contents input.new output.new)))) }
{
    let config = settings_of(rt, settings)?;
    rt.deliver(file, config, input, output)
}

/// Prints a text of the gate that a file keeps.
fn run_show<F: Files + GateFiles + AllocGlobal, W: Write>(
    rt: &F,
    settings: &str,
    file: &str,
    shown: Shown<'_>,
    output: &mut Tap<W>,
) -> Result<(), Fault>
    requires { has_failed output.old ≡ false }
    ensures ok { OnOk result ((left : Option (List ℕ)) → (failed : Bool) → PrintsShown shown.entry
        (beside W.contents left failed output.old) (beside W.contents left failed output.new)) }
    ensures made { OnOk result ((c : Settings) × HasSettings c × F.Led file.now (PrintsOf c (TextOf shown.entry)
        (W.contents (inside output.old)) (W.contents (inside output.new)))) }
    ensures err { IfErr result (λ fault. (left : Option (List ℕ)) → (failed : Bool) → ShowingEnds shown.entry fault
        (beside W.contents left failed output.old) (beside W.contents left failed output.new)) }
    ensures why { IfErr result (λ fault. Fails fault (λ c. FileFails F.Left file.now c fault
        (IsNotShown c shown.entry W.contents output.old output.new fault))) }
{
    let config = settings_of(rt, settings)?;
    rt.show(file, config, shown, output)
}

/// Serves connections over the gate that a file keeps.
fn run_serve<F: Files + GateFiles + AllocGlobal, W: Write, E: Write>(
    rt: &F,
    settings: &str,
    file: &str,
    port: u16,
    count: u64,
    output: &mut Tap<W>,
    errors: &mut Tap<E>,
) -> Result<(), Fault>
    requires writer { has_failed output.old ≡ false }
    requires teller { has_failed errors.old ≡ false }
    ensures told { TellsUpTo E.contents count errors.old errors.new }
    ensures ok { OnOk result ((left : Option (List ℕ)) → (failed : Bool) → Announces port
        (beside W.contents left failed output.old) (beside W.contents left failed output.new)) }
    ensures made { OnOk result ((c : Settings) × HasSettings c × F.Led file.now (λ old new.
        GoesOver old new c (ServesOver new c count))) }
    ensures err { IfErr result (λ fault. (left : Option (List ℕ)) → (failed : Bool) → ServingEnds port fault
        (beside W.contents left failed output.old) (beside W.contents left failed output.new)) }
    ensures why { IfErr result (λ fault. Fails fault (λ c. FileFails F.Left file.now c fault
        (λ old new. GoesOver old new c (ServesOver new c (most_served (Err fault) count))))) }
{
    let config = settings_of(rt, settings)?;
    rt.serve(file, config, port, count, output, errors)
}

/// Makes a file of schema 1 one of schema 2, and tells which it was.
fn run_migrate<F: Files + GateFiles + AllocGlobal, W: Write>(
    rt: &F,
    settings: &str,
    file: &str,
    output: &mut Tap<W>,
) -> Result<(), Fault>
    requires { has_failed output.old ≡ false }
    ensures ok { OnOk result ((left : Option (List ℕ)) → (failed : Bool) → Migrates
        (beside W.contents left failed output.old) (beside W.contents left failed output.new)) }
    ensures made { OnOk result ((c : Settings) × HasSettings c × (done : Migrated)
        × Appends (W.contents (inside output.old)) (W.contents (inside output.new)) (migrated_text done ++ 10 ∷ [])
        × F.Led file.now (Upgrades c done)) }
    ensures err { IfErr result (λ fault. (left : Option (List ℕ)) → (failed : Bool) → MigrationEnds fault
        (beside W.contents left failed output.old) (beside W.contents left failed output.new)) }
    ensures why { IfErr result (λ fault. Fails fault (λ c. (fault ≡ Fault.Write)
        ⊎ MigratingFails F.Left file.now c fault)) }
{
    let config = settings_of(rt, settings)?;
    let done = rt.migrate(file, &config)?;
    output.write_line(migrated_text(done))?;
    Ok(())
}

fn migrated_text(done: Migrated) -> &'static str
    ensures { result.now ≡ migrated_text done }
{
    match done {
        Migrated::Done => "migrated 1 2",
        Migrated::Already => "schema 2",
    }
}

fn settings_of<F: Files + GateFiles + AllocGlobal>(rt: &F, path: &str) -> Result<Config, Fault>
    ensures ok { IfOk result (λ config. HasSettings config) }
    ensures err { IfErr result IsEarly }
    ensures why { IfErr result IsOfSettings }
{
    let bytes = bytes_of(rt, path)?;
    Ok(gate_config::read(rt.alloc(), bytes.as_slice())?)
}

/// The bytes of a settings file, of which no more than one past the limit is read.
fn bytes_of<F: Files + GateFiles + AllocGlobal>(rt: &F, path: &str) -> Result<Vec<u8>, Fault>
    ensures ok { IfOk result (λ bytes. length bytes.items ≤ settings_limit) }
    ensures err { IfErr result IsEarly }
    ensures why { IfErr result IsOfSettings }
{
    let Ok(file) = fs::open(rt, path) else {
        return Err(Fault::SettingsFile);
    };
    let mut bytes = Vec::new(rt.alloc());
    match file.take(SETTINGS_LIMIT as u64 + 1).read_to_end(&mut bytes) {
        Ok(_) if bytes.len() <= SETTINGS_LIMIT => Ok(bytes),
        Err(error) if error.kind() == ErrorKind::OutOfMemory => Err(Fault::NoMemory),
        _ => Err(Fault::SettingsFile),
    }
}
