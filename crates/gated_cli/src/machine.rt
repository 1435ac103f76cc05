//! The gates' files of a machine.
ghost use Rattle.std.specs.Prelude.{◌≡◌, IfErr, IsErrOf, OnErr, OnOk};

use crate::new_file;
use crate::run::{Fault, Shown, over_file};
use gate_sql::Migrated;
use gate_types::config::Config;
use gate_types::open_fault::OpenFault;
use gate_types::tap::Tap;
use sqlite::{Alter, Connection, File, FileStore};
use std::fs;
use std::io::{Read, Write};
use std::net::Net;

/// The gates' files of a machine, by their paths.
pub trait GateFiles {
    ghost use Rattle.std.specs.Prelude.{◌≡◌, ℕ, Bool, List, Option, Err, IfErr, IfOk, OnOk, false};
    ghost use Rattle.sqlite.specs.State.{State};
    ghost use Rattle.gate_types.specs.Tap.{has_failed, inside};
    ghost use Rattle.gated_cli.specs.Blame.{BreaksTo, FileFails, IsNotShown, MakingFails, MigratingFails};
    ghost use Rattle.gated_cli.specs.Doing.{Announces, Delivers, PrintsShown, beside, streams};
    ghost use Rattle.gated_cli.specs.Ending.{DeliveryEnds, IsOfMaking, ServingEnds, ShowingEnds, most_served};
    ghost use Rattle.gated_cli.specs.OfFile.{MakesGate, PrintsOf, RepliesTo, TextOf, Upgrades};
    ghost use Rattle.gated_cli.specs.OverFile.{GoesOver, ServesOver};
    ghost use Rattle.gated_cli.specs.Telling.{TellsUpTo};

    // the file at this path was opened in one state and closed in another, and this is so of the two
    ghost Led: { List ℕ → (State → State → Type 0) → Type 0 };

    // the file at this path couldn't be opened, and this is so; or it was opened in one state and given back to be
    // closed in another, which succeeded or not, and this is so of the two
    ghost Left: { List ℕ → Type 0 → (State → State → Type 0) → Type 0 };

    /// Makes the tables of a new gate in a file, which is made where it isn't there. `File` as for `SqlBook::create`,
    /// and where it can't be opened; `Store` where it can't be closed.
    fn make(&self, file: &str, config: &Config) -> Result<(), Fault>
        ensures made { OnOk result (Led file.now (MakesGate config.now)) }
        ensures fault { IfErr result IsOfMaking }
        ensures why { IfErr result (λ fault. MakingFails Left file.now config.now fault) };

    /// Answers each line of the input over the gate that a file keeps. `File` where the file isn't there or can't be
    /// opened, and as for `SqlBook::open`; `Read`, `Write` and `NoMemory` as for `replay`; `Store` where all is
    /// answered and the file can't be closed.
    fn deliver<R: Read, W: Write>(
        &self,
        file: &str,
        config: Config,
        input: &mut Tap<R>,
        output: &mut Tap<W>,
    ) -> Result<(), Fault>
        requires reader { has_failed input.old ≡ false }
        requires writer { has_failed output.old ≡ false }
        ensures ok { OnOk result (Delivers
            (streams R.remaining W.contents input.old output.old)
            (streams R.remaining W.contents input.new output.new)) }
        ensures made { OnOk result (Led file.now (RepliesTo config
            (streams R.remaining W.contents input.old output.old)
            (streams R.remaining W.contents input.new output.new))) }
        ensures err { IfErr result (λ fault. DeliveryEnds fault
            (streams R.remaining W.contents input.old output.old)
            (streams R.remaining W.contents input.new output.new)) }
        ensures why { IfErr result (λ fault. FileFails Left file.now config fault (BreaksTo config fault
            (streams R.remaining W.contents input.old output.old)
            (streams R.remaining W.contents input.new output.new))) };

    /// Prints a text of the gate that a file keeps. `File` as for `deliver`; else as for `showing::write_shown`;
    /// `Store` also where all is printed and the file can't be closed.
    fn show<W: Write>(
        &self,
        file: &str,
        config: Config,
        shown: Shown<'_>,
        output: &mut Tap<W>,
    ) -> Result<(), Fault>
        requires { has_failed output.old ≡ false }
        ensures ok { OnOk result ((left : Option (List ℕ)) → (failed : Bool) → PrintsShown shown.entry
            (beside W.contents left failed output.old) (beside W.contents left failed output.new)) }
        ensures made { OnOk result (Led file.now (PrintsOf config (TextOf shown.entry)
            (W.contents (inside output.old)) (W.contents (inside output.new)))) }
        ensures err { IfErr result (λ fault. (left : Option (List ℕ)) → (failed : Bool) →
            ShowingEnds shown.entry fault
            (beside W.contents left failed output.old) (beside W.contents left failed output.new)) }
        ensures why { IfErr result (λ fault. FileFails Left file.now config fault
            (IsNotShown config shown.entry W.contents output.old output.new fault)) };

    /// Prints the line that names the port, then serves so many connections there over the gate that a file keeps.
    /// `File` as for `deliver`; `Listener` where the port can't be bound, and nothing is printed, or where a connection
    /// can't be accepted; `NoMemory` and `Write` where the line isn't printed whole; `Store` where all are served and
    /// the file can't be closed. A fault of a connection is told on `errors`, and the next is served.
    fn serve<W: Write, E: Write>(
        &self,
        file: &str,
        config: Config,
        port: u16,
        count: u64,
        output: &mut Tap<W>,
        errors: &mut Tap<E>,
    ) -> Result<(), Fault>
        requires writer { has_failed output.old ≡ false }
        requires teller { has_failed errors.old ≡ false }
        ensures told { TellsUpTo E.contents count errors.old errors.new }
        ensures ok { OnOk result ((left : Option (List ℕ)) → (failed : Bool) → Announces port
            (beside W.contents left failed output.old) (beside W.contents left failed output.new)) }
        ensures made { OnOk result (Led file.now (λ old new. GoesOver old new config (ServesOver new config count))) }
        ensures err { IfErr result (λ fault. (left : Option (List ℕ)) → (failed : Bool) → ServingEnds port fault
            (beside W.contents left failed output.old) (beside W.contents left failed output.new)) }
        ensures why { IfErr result (λ fault. FileFails Left file.now config fault
            (λ old new. GoesOver old new config (ServesOver new config (most_served (Err fault) count)))) };

    /// Makes a file of schema 1 one of schema 2. `File` where the file isn't there or can't be opened, and as for
    /// `gate_sql::migrate`; `Store` where it can't be closed.
    fn migrate(&self, file: &str, config: &Config) -> Result<Migrated, Fault>
        ensures made { IfOk result (λ done. Led file.now (Upgrades config.now done)) }
        ensures fault { IfErr result IsOfMaking }
        ensures why { IfErr result (λ fault. MigratingFails Left file.now config.now fault) };
}

impl<S: Alter + Drop, M: Databases<Database = Connection<S>> + Net + AllocGlobal> GateFiles for M {
    ghost use Rattle.std.specs.Prelude.{◌⊎◌};
    ghost use Rattle.sqlite.specs.Held.{Held, state};

    ghost Led = { λ path P. (old : Held S) × (new : Held S) × M.IsOf old path × M.IsClosed new
        × P (state S.Store old) (state S.Store new) };

    ghost Left = { λ path U P. (M.IsUnopened path × U) ⊎ ((old : Held S) × (new : Held S) × M.IsOf old path
        × M.IsGivenBack new × P (state S.Store old) (state S.Store new)) };

    fn make(&self, file: &str, config: &Config) -> Result<(), Fault> {
        let conn = self.fresh(file)?;
        let (conn, done) = over_file::make(self.alloc(), conn, config);
        closed(self.close(conn), done)
    }

    fn deliver<R: Read, W: Write>(
        &self,
        file: &str,
        config: Config,
        input: &mut Tap<R>,
        output: &mut Tap<W>,
    ) -> Result<(), Fault> {
        let conn = self.present(file)?;
        let (conn, done) = over_file::deliver(self.alloc(), conn, config, input, output);
        closed(self.close(conn), done)
    }

    fn show<W: Write>(
        &self,
        file: &str,
        config: Config,
        shown: Shown<'_>,
        output: &mut Tap<W>,
    ) -> Result<(), Fault> {
        let conn = self.present(file)?;
        let (conn, done) = over_file::show(self.alloc(), conn, config, shown, output);
        closed(self.close(conn), done)
    }

    fn serve<W: Write, E: Write>(
        &self,
        file: &str,
        config: Config,
        port: u16,
        count: u64,
        output: &mut Tap<W>,
        errors: &mut Tap<E>,
    ) -> Result<(), Fault> {
        let conn = self.present(file)?;
        let (conn, done) = over_file::serve(self, conn, config, port, count, output, errors);
        closed(self.close(conn), done)
    }

    fn migrate(&self, file: &str, config: &Config) -> Result<Migrated, Fault> {
        let conn = self.present(file)?;
        let (conn, done) = over_file::migrate(self.alloc(), conn, config);
        closed(self.close(conn), done)
    }
}

/// The databases of a machine, by the paths of their files.
pub trait Databases {
    ghost use Rattle.std.specs.Prelude.{◌≡◌, ◌⊎◌, ℕ, List, IfErr, IfOk, OnErr, OnOk};
    ghost use Rattle.gate_types.specs.declared.open_fault.OpenFault.{OpenFault};

    /// An open database.
    type Database;

    // this is the database of the file at that path, in the state in which it was opened
    ghost IsOf: { Self.Database → List ℕ → Type 0 };

    // the file at that path couldn't be opened
    ghost IsUnopened: { List ℕ → Type 0 };

    // this is a database in the state in which it was given back to be closed
    ghost IsGivenBack: { Self.Database → Type 0 };

    // and one that was closed then
    ghost IsClosed: { Self.Database → Type 0 };

    /// The database of a file, which is made where it isn't there. `File` where it can't be opened.
    fn database(&self, file: &str) -> Result<Self::Database, Fault>
        ensures of { IfOk result (λ conn. IsOf conn file.now) }
        ensures fault { IfErr result (λ f. f ≡ Fault.File OpenFault.Unavailable) }
        ensures unopened { OnErr result (IsUnopened file.now) };

    /// The database of a file for a new gate: one of small pages is made where there is none. `File` where it can't be
    /// opened, or where it isn't there and another one's log is.
    fn fresh(&self, file: &str) -> Result<Self::Database, Fault>
        ensures of { IfOk result (λ conn. IsOf conn file.now) }
        ensures fault { IfErr result (λ f.
            (f ≡ Fault.File OpenFault.Unavailable) ⊎ (f ≡ Fault.File OpenFault.WrongFile)) }
        ensures unopened { OnErr result (IsUnopened file.now) };

    /// The database of a file that is there. `File` where it isn't, or can't be opened.
    fn present(&self, file: &str) -> Result<Self::Database, Fault>
        ensures of { IfOk result (λ conn. IsOf conn file.now) }
        ensures fault { IfErr result (λ f. f ≡ Fault.File OpenFault.Unavailable) }
        ensures unopened { OnErr result (IsUnopened file.now) };

    /// Closes a database. `Store` where it can't be.
    fn close(&self, conn: Self::Database) -> Result<(), Fault>
        ensures given { IsGivenBack conn }
        ensures closed { OnOk result (IsClosed conn) }
        ensures fault { IfErr result (λ f. f ≡ Fault.Store) };
}

impl Databases for HostRuntime {
    ghost use Rattle.std.specs.Prelude.{⊤};

    type Database = Connection<FileStore<File>>;

    // the kit says nothing of paths
    ghost IsOf = { λ _ _. ⊤ };

    ghost IsUnopened = { λ _. ⊤ };

    ghost IsGivenBack = { λ _. ⊤ };

    ghost IsClosed = { λ _. ⊤ };

    fn database(&self, file: &str) -> Result<Connection<FileStore<File>>, Fault> {
        match Connection::open(self, file) {
            Ok(conn) => Ok(conn),
            Err(_) => Err(Fault::File(OpenFault::Unavailable)),
        }
    }

    fn fresh(&self, file: &str) -> Result<Connection<FileStore<File>>, Fault> {
        match new_file::made(self, file) {
            Ok(Some(conn)) => Ok(conn),
            Ok(None) => self.database(file),
            Err(fault) => Err(Fault::File(fault)),
        }
    }

    fn present(&self, file: &str) -> Result<Connection<FileStore<File>>, Fault> {
        match fs::open(self, file) {
            Ok(_) => self.database(file),
            Err(_) => Err(Fault::File(OpenFault::Unavailable)),
        }
    }

    fn close(&self, conn: Connection<FileStore<File>>) -> Result<(), Fault> {
        match conn.close() {
            Ok(()) => Ok(()),
            Err(_) => Err(Fault::Store),
        }
    }
}

/// What came of a command: its fault before one of closing.
fn closed<T: Drop>(closing: Result<(), Fault>, done: Result<T, Fault>) -> Result<T, Fault>
    requires { IfErr closing (λ f. f ≡ Fault.Store) }
    ensures fault { OnErr done (result ≡ done) }
    ensures well { OnOk done (OnOk closing (result ≡ done)) }
    ensures unclosed { OnOk done (OnErr closing (IsErrOf result Fault.Store)) }
    ensures store { OnOk done (IfErr result (λ f. f ≡ Fault.Store)) }
{
    match done {
        Ok(done) => match closing {
            Ok(()) => Ok(done),
            Err(fault) => Err(fault),
        },
        Err(fault) => Err(fault),
    }
}
