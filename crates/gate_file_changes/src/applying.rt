//! Edits of a gate's tables, all or none.
ghost use Rattle.std.specs.Prelude.{◌≡◌, ◌≢◌, IsTrue, false, IfErr, OnErr, OnOk};
ghost use Rattle.sqlite.specs.Held.{state};
ghost use Rattle.sqlite.specs.State.{HasCleanDisk, Survives};
ghost use Rattle.gate_types.specs.Names.{same_name};
ghost use Rattle.gate_types.specs.Once.{Content};
ghost use Rattle.gate_types.specs.Settings.{Settings};
ghost use Rattle.gate_schema.specs.Rows.{IsReady};
ghost use Rattle.gate_schema.specs.Schema.{gate_schema};
ghost use Rattle.gate_rows.specs.Matches.{StandsFor};
ghost use Rattle.gate_rows.specs.Writes.{Keeps, LeavesNothing};
ghost use Rattle.gate_found_rows.specs.Finds.{Stays};
ghost use Rattle.gate_file_changes.specs.Applies.{CanLead, LeavesOrStands, OfLawful, OfLed, LeavesTurned, Steps};
ghost use Rattle.gate_file_changes.specs.Applies.{TurnsInto};
ghost use Rattle.gate_file_changes.specs.Applies.{are_known, is_among, is_known};
ghost use Rattle.gate_table_laws.specs.Held.{IsShownFor, ShowsFor};

use gate_book_trait::BookFault;
use gate_found_rows::fault::book_fault;
use gate_found_rows::read::check_open;
use gate_rows::apply_one;
use gate_rows::laws::every_edit_is_told;
use gate_types::edits::Edit;
use gate_types::names::Name;
use sqlite::{Alter, Connection, Error, Transaction};
use std::alloc::Global;

/// Whether the two are the same bytes.
fn same_name(name: &Name, other: &str) -> bool
    ensures { result ≡ same_name name.now other.now }
{
    name.as_str() == other
}

/// Whether one of these queues has this name.
pub fn is_among(queues: &[Name], name: &str) -> bool
    ensures { result ≡ is_among queues.now name.now }
{
    queues.iter().any(|queue| same_name(queue, name))
}

/// Whether the queue that an edit names, if any, is one of these.
fn is_known(queues: &[Name], edit: &Edit) -> bool
    ensures { result ≡ is_known queues.now edit.now }
{
    match edit {
        Edit::PutItem { queue, .. }
        | Edit::PutLanding { queue, .. }
        | Edit::PutReport { queue, .. }
        | Edit::SetWindow { queue, .. } => is_among(queues, queue.as_str()),
        _ => true,
    }
}

/// Whether each edit that names a queue names one of these.
fn names_known_queues(queues: &[Name], edits: &[Edit]) -> bool
    ensures { result ≡ are_known queues.now edits.now }
{
    edits.iter().all(|edit| is_known(queues, edit))
}

/// The edits in turn, up to the first that fails.
pub fn apply_all<S: Alter>(
    alloc: Global,
    tx: &mut Transaction<'_, S>,
    edits: &[Edit],
) -> Result<(), Error>
    ensures same_reference { tx.new.conn.ghost_name ≡ tx.old.conn.ghost_name }
    ensures turns { HasCleanDisk (state S.Store tx.new.conn.now) → IsReady (state S.Store tx.old.conn.now) →
        OnOk result (TurnsInto (state S.Store tx.old.conn.now) (state S.Store tx.new.conn.now) edits.now) }
    ensures steps { HasCleanDisk (state S.Store tx.new.conn.now) → IsReady (state S.Store tx.old.conn.now) →
        OnOk result (Steps (state S.Store tx.old.conn.now) (state S.Store tx.new.conn.now) edits.now) }
    ensures kept { Keeps (state S.Store tx.old.conn.now) (state S.Store tx.new.conn.now) }
    ensures crash { LeavesNothing (state S.Store tx.old.conn.now) (state S.Store tx.new.conn.now) }
{
    every_edit_is_told();
    for edit in edits {
        apply_one(alloc, tx, edit)?;
    }
    Ok(())
}

/// All edits or none, in a transaction of their own.
fn commit_all<S: Alter>(
    alloc: Global,
    conn: &mut Connection<S>,
    edits: &[Edit],
) -> Result<(), Error>
    requires { conn.old.in_transaction ≡ false }
    ensures all { HasCleanDisk (state S.Store conn.new) → (c : Settings) (x y : Content) →
        (state S.Store conn.old).now.schema ≡ gate_schema →
        CanLead (state S.Store conn.old).now.trees c x edits.now y →
        OnOk result (IsShownFor (state S.Store conn.new) c y) }
    ensures shown { HasCleanDisk (state S.Store conn.new) → (state S.Store conn.old).now.schema ≡ gate_schema →
        OnOk result (IsTrue (state S.Store conn.new).is_open ×
        ((state S.Store conn.new).committed ≡ (state S.Store conn.new).now)) }
    ensures none { HasCleanDisk (state S.Store conn.new) → (state S.Store conn.old).now.schema ≡ gate_schema →
        OnErr result (Stays (state S.Store conn.old) (state S.Store conn.new)) }
    ensures clean { HasCleanDisk (state S.Store conn.new) → HasCleanDisk (state S.Store conn.old) }
    ensures mode { conn.new.in_transaction ≡ false }
    ensures crash { (c : Settings) (x y : Content) → (state S.Store conn.old).now.schema ≡ gate_schema →
        CanLead (state S.Store conn.old).now.trees c x edits.now y →
        Survives (state S.Store conn.old) (state S.Store conn.new) (λ db. StandsFor db c y) }
{
    // Outside a transaction it shows what is committed.
    let _ = conn.is_autocommit();
    let mut tx = conn.transaction();
    apply_all(alloc, &mut tx, edits)?;
    tx.commit()
}

/// All edits or none, of queues that are there; with no edits, whether the connection is open. An Err where a
/// failure has shut it, or where an edit fails.
fn apply_known<S: Alter>(
    alloc: Global,
    conn: &mut Connection<S>,
    edits: &[Edit],
) -> Result<(), Error>
    requires { conn.old.in_transaction ≡ false }
    ensures ok { OfLed (state S.Store conn.old) (state S.Store conn.new) edits.now (λ c y.
        OnOk result (ShowsFor (state S.Store conn.new) c y)) }
    ensures err { HasCleanDisk (state S.Store conn.new) → (c : Settings) (x : Content) →
        ShowsFor (state S.Store conn.old) c x → OnErr result (ShowsFor (state S.Store conn.new) c x) }
    ensures settled { OfLed (state S.Store conn.old) (state S.Store conn.new) edits.now (λ c y.
        OnOk result (LeavesTurned edits.now (state S.Store conn.new) c y)) }
    ensures crash { OfLed (state S.Store conn.old) (state S.Store conn.new) edits.now (λ c y.
        LeavesOrStands (state S.Store conn.old) (state S.Store conn.new) c y) }
    ensures clean { HasCleanDisk (state S.Store conn.new) → HasCleanDisk (state S.Store conn.old) }
    ensures mode { conn.new.in_transaction ≡ false }
{
    check_open(conn)?;
    if edits.is_empty() {
        return Ok(());
    }
    // What it shows keeps the rules of its schema.
    let _ = conn.schema();
    commit_all(alloc, conn, edits)
}

/// All edits or none, where each names queues that are there. `NoMemory` where memory is refused; `Store` where
/// an edit names another queue, where a transaction is under way, and for any other failure. After an Err the file
/// is as it was.
pub fn apply<S: Alter>(
    alloc: Global,
    conn: &mut Connection<S>,
    queues: &[Name],
    edits: &[Edit],
) -> Result<(), BookFault>
    ensures ok { OfLawful (state S.Store conn.old) (state S.Store conn.new) queues.now edits.now (λ c y.
        OnOk result (ShowsFor (state S.Store conn.new) c y)) }
    ensures err { HasCleanDisk (state S.Store conn.new) → (c : Settings) (x : Content) →
        ShowsFor (state S.Store conn.old) c x → OnErr result (ShowsFor (state S.Store conn.new) c x) }
    ensures settled { OfLawful (state S.Store conn.old) (state S.Store conn.new) queues.now edits.now (λ c y.
        OnOk result (LeavesTurned edits.now (state S.Store conn.new) c y)) }
    ensures crash { OfLawful (state S.Store conn.old) (state S.Store conn.new) queues.now edits.now (λ c y.
        LeavesOrStands (state S.Store conn.old) (state S.Store conn.new) c y) }
    ensures fault { IfErr result (λ f. f ≢ BookFault.Damaged) }
    ensures clean { HasCleanDisk (state S.Store conn.new) → HasCleanDisk (state S.Store conn.old) }
    ensures mode { conn.old.in_transaction ≡ false → conn.new.in_transaction ≡ false }
{
    if !conn.is_autocommit() {
        return Err(BookFault::Store);
    }
    if !names_known_queues(queues, edits) {
        return Err(BookFault::Store);
    }
    match apply_known(alloc, conn, edits) {
        Ok(()) => Ok(()),
        Err(error) => Err(book_fault(&error)),
    }
}
