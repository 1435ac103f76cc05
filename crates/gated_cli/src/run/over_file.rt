//! The gate over a file.
ghost use Rattle.std.specs.Prelude.{◌≡◌, ◌≢◌, ℕ, Bool, List, [], Option, None, true, false, map};
ghost use Rattle.std.specs.Prelude.{OnOk, IfErr, IfSome, IsErrOf, IsTrue, MatchResult};
ghost use Rattle.sqlite.specs.Held.{state};
ghost use Rattle.sqlite.specs.State.{HasCleanDisk, Survives};
ghost use Rattle.sqlite.specs.Tree.{Trees};
ghost use Rattle.gate_types.specs.Migrate.{migrated_content};
ghost use Rattle.gate_types.specs.Once.{Content, empty};
ghost use Rattle.gate_types.specs.Settings.{Settings};
ghost use Rattle.gate_types.specs.State.{Queue as GateQueue};
ghost use Rattle.gate_types.specs.Tap.{inside, has_failed, Gave, IsReadOut, Took};
ghost use Rattle.gate_core.specs.Lines.{whole_lines, lines_of, ReadFor};
ghost use Rattle.gate_found_rows.specs.Finds.{Stays};
ghost use Rattle.gate_schema.specs.Schema.{schema_with};
ghost use Rattle.gate_rows.specs.Matches.{StandsFor};
ghost use Rattle.gate_file_changes.specs.Applies.{LeavesOrStands};
ghost use Rattle.gate_table_laws.specs.Held.{HoldsFor, IsShownFor, LeavesFor, ShowsFor, queue_names};
ghost use Rattle.gate_live.specs.Both.{HoldsBoth};
ghost use Rattle.gate_migration.specs.Migrates.{HasNoneToMigrate, IsLeft};
ghost use Rattle.gate_sql.specs.Refused.{IsRefused};
ghost use Rattle.gate_file_meta.specs.Opens.{IsJudged, IsMade, IsMeta, is_taken, with_meta};
ghost use Rattle.gate_migration.specs.Standing.{IsMigrated, is_newly_taken};
ghost use Rattle.gate_migration.specs.Upgrade.{StandsForFirst};
ghost use Rattle.gated_cli.specs.Doing.{Announces, beside};
ghost use Rattle.gated_cli.specs.Ending.{IsOfFile, ServingEnds, most_served};
ghost use Rattle.gated_cli.specs.OverFile.{BreaksOver, GoesOver, IsOfServingOver, LeavesAfter, RepliesOver};
ghost use Rattle.gated_cli.specs.OverFile.{ServesOver, StaysLawful, file_answer, file_fault};
ghost use Rattle.gated_cli.specs.Showing.{Writes, EndsWell, StopsShown};
ghost use Rattle.gated_cli.specs.Telling.{TellsUpTo};

use crate::run::fault::Fault;
use crate::run::listening;
use crate::run::showing::write_shown;
use crate::run::shown::Shown;
use gate_core::{Gate, replay};
use gate_laws::adoption::adopted_content_is_lawful;
use gate_laws::typed::settings_are_in_form;
use gate_live::LiveBook;
use gate_sql::{Migrated, SqlBook};
use gate_types::config::Config;
use gate_types::open_fault::OpenFault;
use gate_types::tap::Tap;
use sqlite::{Alter, Connection};
use std::alloc::Global;
use std::io::{Read, Write};
use std::net::Net;

/// Makes the tables of a gate that has seen no delivery, and hands the connection back.
pub fn make<S: Alter + Drop>(
    alloc: Global,
    conn: Connection<S>,
    config: &Config,
) -> (Connection<S>, Result<(), Fault>)
    // whether the tables are made is decided by the names that are there, and by a transaction under way
    ensures faults { IsMade (file_fault result.1) (is_taken (state S.Store conn).now.schema) conn.in_transaction }
    ensures made { (state S.Store conn).now.schema ≡ schema_with 0 0 → HasCleanDisk (state S.Store result.0) →
        OnOk result.1 (ShowsFor (state S.Store result.0) config.now (empty config.now)) }
    ensures settled { (state S.Store conn).now.schema ≡ schema_with 0 0 → HasCleanDisk (state S.Store result.0) →
        OnOk result.1 ((db : Trees) → S.Store.recovers result.0.store db → StandsFor db config.now (empty config.now)) }
    ensures none { HasCleanDisk (state S.Store result.0) →
        IfSome (file_fault result.1) (IsRefused (state S.Store conn) (state S.Store result.0)) }
    ensures mode { OnOk result.1 (result.0.in_transaction ≡ false) }
    ensures crash { (state S.Store conn).now.schema ≡ schema_with 0 0 →
        Survives (state S.Store conn) (state S.Store result.0) (λ db. StandsFor db config.now (empty config.now)) }
    ensures fault { IfErr result.1 IsOfFile }
{
    match SqlBook::create(alloc, conn, config) {
        Ok(book) => (book.into_conn(), Ok(())),
        Err((fault, conn)) => (conn, Err(Fault::File(fault))),
    }
}

/// Makes tables of schema 1 ones of schema 2, and hands the connection back.
pub fn migrate<S: Alter + Drop>(
    alloc: Global,
    conn: Connection<S>,
    config: &Config,
) -> (Connection<S>, Result<Migrated, Fault>)
    ensures done { HasCleanDisk (state S.Store result.0) → IsTrue (state S.Store conn).is_open → (x : Content) →
        StandsForFirst (state S.Store conn).now.trees config.now x →
        map (λ (q : GateQueue). q.name) x.state.queues ≡ queue_names config.now → MatchResult result.1
        (λ m. (m ≡ Migrated.Done) × IsShownFor (state S.Store result.0) config.now (migrated_content config.now x))
        (λ f. (f ≡ Fault.File OpenFault.Unavailable) × Stays (state S.Store conn) (state S.Store result.0)) }
    ensures settled { HasCleanDisk (state S.Store result.0) → IsTrue (state S.Store conn).is_open → (x : Content) →
        StandsForFirst (state S.Store conn).now.trees config.now x →
        map (λ (q : GateQueue). q.name) x.state.queues ≡ queue_names config.now →
        OnOk result.1 ((db : Trees) → S.Store.recovers result.0.store db →
        StandsFor db config.now (migrated_content config.now x)) }
    ensures already { HasCleanDisk (state S.Store result.0) → IsTrue (state S.Store conn).is_open →
        (c : Settings) (x : Content) → StandsFor (state S.Store conn).now.trees c x → MatchResult result.1
        (λ m. m ≡ Migrated.Already) (λ f. f ≡ Fault.File OpenFault.Unavailable)
        × IsLeft (state S.Store conn) (state S.Store result.0) }
    // whether the file is migrated is decided by the file alone
    ensures judged { HasCleanDisk (state S.Store result.0) → (tables : _) (indexes : _) (views : _) (version kept : _) →
        (state S.Store conn).now.schema ≡ with_meta tables indexes views →
        IsMeta (state S.Store conn).now.trees version kept →
        IsMigrated (file_answer result.1) (is_newly_taken (state S.Store conn).now.schema) version kept config.now }
    ensures refused { HasCleanDisk (state S.Store result.0) →
        IfErr result.1 (λ f. f ≢ Fault.File OpenFault.Unavailable →
        IsLeft (state S.Store conn) (state S.Store result.0)) }
    ensures mode { OnOk result.1 (result.0.in_transaction ≡ false) }
    ensures none { HasCleanDisk (state S.Store result.0) →
        HasNoneToMigrate (state S.Store conn).now config.now →
        IsLeft (state S.Store conn) (state S.Store result.0) }
    ensures crash { HasCleanDisk (state S.Store result.0) → IsTrue (state S.Store conn).is_open → (x : Content) →
        StandsForFirst (state S.Store conn).now.trees config.now x →
        map (λ (q : GateQueue). q.name) x.state.queues ≡ queue_names config.now →
        LeavesOrStands (state S.Store conn) (state S.Store result.0) config.now (migrated_content config.now x) }
    ensures fault { IfErr result.1 IsOfFile }
{
    let mut conn = conn;
    match gate_sql::migrate(alloc, &mut conn, config) {
        Ok(done) => (conn, Ok(done)),
        Err(fault) => (conn, Err(Fault::File(fault))),
    }
}

/// A lawful content stays lawful where these settings are taken.
pub(crate) fn stays_lawful(config: &Config)
    ensures { StaysLawful config.now }
{
    config.show_sound();
    settings_are_in_form(config);
    adopted_content_is_lawful();
}

/// The book, with what is live of it in memory. If that can't be read, nothing is held, and the book answers each call.
fn filled<S: Alter + Drop>(alloc: Global, book: SqlBook<S>, config: &Config) -> LiveBook<SqlBook<S>>
    ensures trusted { HasCleanDisk (state S.Store result.book.conn) → HasCleanDisk (state S.Store book.conn) }
    ensures holds { HasCleanDisk (state S.Store result.book.conn) → (x : Content) →
        HoldsFor (state S.Store book.conn) book.queues.items config.now x →
        HoldsBoth (λ b k y. HoldsFor (state S.Store b.conn) b.queues.items k y) result config.now x }
    ensures leaves { HasCleanDisk (state S.Store result.book.conn) → (x : Content) →
        HoldsFor (state S.Store book.conn) book.queues.items config.now x → (ys : List Content) →
        LeavesFor (state S.Store book.conn) config.now ys →
        LeavesFor (state S.Store result.book.conn) config.now ys }
{
    let mut live = LiveBook::new(alloc, book);
    let _filled = live.fill(config);
    live
}

/// Answers each line of the input over the gate of the file, as `replay` does, and hands the connection back.
pub fn deliver<S: Alter + Drop, R: Read, W: Write>(
    alloc: Global,
    conn: Connection<S>,
    config: Config,
    input: &mut Tap<R>,
    output: &mut Tap<W>,
) -> (Connection<S>, Result<(), Fault>)
    requires reader { has_failed input.old ≡ false }
    requires writer { has_failed output.old ≡ false }
    ensures ok { OnOk result.1 ((read : List ℕ)
        × Gave R.remaining input.old input.new read × IsReadOut R.remaining input.new
        × (text : List ℕ) × Took W.contents output.old output.new text
        × GoesOver (state S.Store conn) (state S.Store result.0) config
        (RepliesOver (state S.Store result.0) config (lines_of read) text)) }
    // the lines before the one that the error cut
    ensures read { IsErrOf result.1 Fault.Read → (front : List ℕ)
        × Gave R.remaining input.old input.new front
        × (text : List ℕ) × Took W.contents output.old output.new text
        × GoesOver (state S.Store conn) (state S.Store result.0) config
        (RepliesOver (state S.Store result.0) config (whole_lines front) text) }
    // the lines up to the one whose answer was cut, and no read beyond the one that ended it
    ensures write { IsErrOf result.1 Fault.Write → (lines : List (List ℕ))
        × (text : List ℕ) × Took W.contents output.old output.new text
        × (done : ℕ) × ReadFor (R.remaining (inside input.old)) (R.remaining (inside input.new)) lines done
        × GoesOver (state S.Store conn) (state S.Store result.0) config
        (BreaksOver (state S.Store result.0) config lines text done) }
    // nothing is answered, and the gate is as it was
    ensures memory { IsErrOf result.1 Fault.NoMemory →
        GoesOver (state S.Store conn) (state S.Store result.0) config
        (λ g after. (after ≡ g) × LeavesAfter (state S.Store result.0) config g []) }
    // whether the file is opened is decided by the file alone
    ensures judged { (tables : _) (indexes : _) (views : _) (version kept : _) →
        (state S.Store conn).now.schema ≡ with_meta tables indexes views →
        IsMeta (state S.Store conn).now.trees version kept → HasCleanDisk (state S.Store result.0) →
        IsJudged (file_fault result.1) version kept config }
    ensures none { HasCleanDisk (state S.Store result.0) →
        IfSome (file_fault result.1) (IsRefused (state S.Store conn) (state S.Store result.0)) }
    ensures fault { IfErr result.1 (λ f. f ≢ Fault.Read → f ≢ Fault.Write →
        IsOfFile f × (input.new ≡ input.old) × (output.new ≡ output.old)) }
    ensures unfailed { OnOk result.1 (has_failed output.new ≡ false) }
    ensures reader_failed { IsErrOf result.1 Fault.Read →
        (has_failed input.new ≡ true) × (has_failed output.new ≡ false) }
    ensures writer_failed { IsErrOf result.1 Fault.Write →
        (has_failed input.new ≡ false) × (has_failed output.new ≡ true) }
{
    stays_lawful(&config);
    let book = match SqlBook::open(alloc, conn, &config) {
        Ok(book) => book,
        Err((fault, conn)) => return (conn, Err(Fault::File(fault))),
    };
    let live = filled(alloc, book, &config);
    let mut gate = Gate::new(config, live);
    let done = replay(alloc, &mut gate, input, output);
    let conn = gate.into_book().into_book().into_conn();
    match done {
        Ok(_) => (conn, Ok(())),
        Err(fault) => (conn, Err(Fault::from(fault))),
    }
}

/// Prints a text of the gate of the file, and hands the connection back.
pub fn show<S: Alter + Drop, W: Write>(
    alloc: Global,
    conn: Connection<S>,
    config: Config,
    shown: Shown<'_>,
    output: &mut Tap<W>,
) -> (Connection<S>, Result<(), Fault>)
    requires { has_failed output.old ≡ false }
    ensures gate { file_fault result.1 ≡ None →
        GoesOver (state S.Store conn) (state S.Store result.0) config
        (λ g after. (after ≡ g) × Writes shown.entry g W.contents output.old output.new result.1
        × LeavesAfter (state S.Store result.0) config g []) }
    // whether the file is opened is decided by the file alone
    ensures judged { (tables : _) (indexes : _) (views : _) (version kept : _) →
        (state S.Store conn).now.schema ≡ with_meta tables indexes views →
        IsMeta (state S.Store conn).now.trees version kept → HasCleanDisk (state S.Store result.0) →
        IsJudged (file_fault result.1) version kept config }
    ensures none { HasCleanDisk (state S.Store result.0) →
        IfSome (file_fault result.1) (IsRefused (state S.Store conn) (state S.Store result.0)) }
    ensures ok { OnOk result.1 (EndsWell shown.entry W.contents output.old output.new) }
    ensures err { IfErr result.1 (StopsShown shown.entry W.contents output.old output.new) }
{
    stays_lawful(&config);
    let book = match SqlBook::open(alloc, conn, &config) {
        Ok(book) => book,
        Err((fault, conn)) => return (conn, Err(Fault::File(fault))),
    };
    let mut gate = Gate::new(config, book);
    let done = write_shown(alloc, &mut gate, shown, output);
    (gate.into_book().into_conn(), done)
}

/// Serves so many connections at this port of loopback over the gate of the file, once the line that names the port is
/// printed, and hands the connection back. The gate is opened before the port is bound.
pub fn serve<M: Net + AllocGlobal, S: Alter + Drop, W: Write, E: Write>(
    rt: &M,
    conn: Connection<S>,
    config: Config,
    port: u16,
    count: u64,
    output: &mut Tap<W>,
    errors: &mut Tap<E>,
) -> (Connection<S>, Result<(), Fault>)
    requires writer { has_failed output.old ≡ false }
    requires teller { has_failed errors.old ≡ false }
    // each connection is at most one call; there is none before the line is printed
    ensures gate { file_fault result.1 ≡ None →
        GoesOver (state S.Store conn) (state S.Store result.0) config
        (ServesOver (state S.Store result.0) config (most_served result.1 count)) }
    // whether the file is opened is decided by the file alone, and not by the port
    ensures judged { (tables : _) (indexes : _) (views : _) (version kept : _) →
        (state S.Store conn).now.schema ≡ with_meta tables indexes views →
        IsMeta (state S.Store conn).now.trees version kept → HasCleanDisk (state S.Store result.0) →
        IsJudged (file_fault result.1) version kept config }
    ensures none { HasCleanDisk (state S.Store result.0) →
        IfSome (file_fault result.1) (IsRefused (state S.Store conn) (state S.Store result.0)) }
    ensures told { TellsUpTo E.contents count errors.old errors.new }
    ensures ok { OnOk result.1 ((left : Option (List ℕ)) → (failed : Bool) → Announces port
        (beside W.contents left failed output.old) (beside W.contents left failed output.new)) }
    ensures err { IfErr result.1 (λ fault. IsOfServingOver fault
        × ((left : Option (List ℕ)) → (failed : Bool) → ServingEnds port fault
        (beside W.contents left failed output.old) (beside W.contents left failed output.new))) }
{
    stays_lawful(&config);
    let book = match SqlBook::open(rt.alloc(), conn, &config) {
        Ok(book) => book,
        Err((fault, conn)) => return (conn, Err(Fault::File(fault))),
    };
    let live = filled(rt.alloc(), book, &config);
    let mut gate = Gate::new(config, live);
    let done = listening::serve(rt, &mut gate, port, count, output, errors);
    (gate.into_book().into_book().into_conn(), done)
}
