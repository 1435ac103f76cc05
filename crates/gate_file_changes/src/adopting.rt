//! Other settings taken by a gate's file: the rows of its queues, and the text of its settings, written anew.
ghost use Rattle.std.specs.Prelude.{◌≡◌, ◌⊎◌, [], false, map, IfErr, IfOk, OnErr, OnOk};
ghost use Rattle.sqlite.specs.Held.{state};
ghost use Rattle.sqlite.specs.State.{HasCleanDisk, Survives};
ghost use Rattle.sqlite.specs.Tree.{Trees};
ghost use Rattle.gate_types.specs.Adopt.{adopted_content};
ghost use Rattle.gate_types.specs.AdoptedTables.{adopted_window};
ghost use Rattle.gate_types.specs.Once.{Content};
ghost use Rattle.gate_types.specs.SettingsText.{settings_text};
ghost use Rattle.gate_rows.specs.Matches.{StandsFor};
ghost use Rattle.gate_rows.specs.Writes.{LeavesNothing};
ghost use Rattle.gate_schema.specs.Rows.{Stands};
ghost use Rattle.gate_schema.specs.Schema.{gate_schema};
ghost use Rattle.gate_found_rows.specs.Finds.{Stays};
ghost use Rattle.gate_found_rows.specs.Reads.{IsOnlyRead, IsStoredIn, Shows, Tells};
ghost use Rattle.gate_file_changes.specs.Adopts.{CanAdopt, resized_setting, rewritten, with_settings};
ghost use Rattle.gate_table_laws.specs.Held.{IsShownFor};
ghost use Rattle.gate_file_changes.specs.Making.{IsFilled, IsInside, IsUpAndCommitted, KeepsInside, Turns, with_rows};

use crate::filling::add_queues;
use gate_book_trait::BookFault;
use gate_found_rows::read::check_open;
use gate_queue_queries::window;
use gate_rows::values::text;
use gate_types::adopting::adopted_window;
use gate_types::config::{Config, Queue};
use gate_types::names::NoMemory;
use gate_types::open_fault::OpenFault;
use gate_types::sequence::Sequence;
use sqlite::{Alter, Connection, Error, Transaction};
use std::alloc::Global;

/// The setting of a queue, with the window that it gets.
fn with_window(held: &Config, queue: &Queue, present: Option<u32>) -> Result<Queue, NoMemory>
    ensures { IfOk result (λ q. q ≡ record queue.now { window = adopted_window held.now queue.now present }) }
{
    let window = adopted_window(held, queue, present);
    let name = queue.name.copy()?;
    Ok(Queue {
        name,
        window,
        floor: queue.floor,
        rule: queue.rule,
    })
}

/// The setting of a queue, with the window that it gets beside the rows that the file keeps.
fn resized_queue<S: Alter>(
    conn: &mut Connection<S>,
    held: &Config,
    queue: &Queue,
) -> Result<Queue, BookFault>
    ensures found { Tells (state S.Store conn.old) (state S.Store conn.new) result (λ b.
        resized_setting held.now b.queues queue.now) }
    ensures only_reads { IsOnlyRead (state S.Store conn.old) (state S.Store conn.new) }
{
    let present = window(conn, &queue.name)?;
    Ok(with_window(held, queue, present)?)
}

/// The settings of the queues, each with the window that it gets beside the rows that the file keeps.
fn resized_queues<S: Alter>(
    alloc: Global,
    conn: &mut Connection<S>,
    held: &Config,
    queues: &[Queue],
) -> Result<Sequence<Queue>, BookFault>
    ensures found { Tells (state S.Store conn.old) (state S.Store conn.new) result (λ b.
        map (resized_setting held.now b.queues) queues.now) }
    ensures only_reads { IsOnlyRead (state S.Store conn.old) (state S.Store conn.new) }
{
    let mut found = Vec::with_capacity(alloc, queues.len())?;
    for queue in queues {
        let next = resized_queue(conn, held, queue)?;
        found.push_reserved(next);
    }
    Ok(Sequence::from_vec(found))
}

/// Takes the rows of all queues out.
fn drop_queues<S: Alter>(tx: &mut Transaction<'_, S>) -> Result<(), Error>
    ensures same_reference { tx.new.conn.ghost_name ≡ tx.old.conn.ghost_name }
    ensures made { (b : _) → Turns (state S.Store tx.old.conn.now) (state S.Store tx.new.conn.now) result
        (IsFilled b) (IsFilled (with_rows [] b)) }
    ensures inside { Turns (state S.Store tx.old.conn.now) (state S.Store tx.new.conn.now) result IsInside IsInside }
    ensures kept { KeepsInside (state S.Store tx.old.conn.now) (state S.Store tx.new.conn.now) }
    ensures crash { LeavesNothing (state S.Store tx.old.conn.now) (state S.Store tx.new.conn.now) }
{
    tx.execute("DELETE FROM queue", &[])?;
    Ok(())
}

/// The text of the settings, in place of the one that is kept.
fn set_settings<S: Alter>(tx: &mut Transaction<'_, S>, settings: &str) -> Result<(), Error>
    ensures same_reference { tx.new.conn.ghost_name ≡ tx.old.conn.ghost_name }
    ensures made { (b : _) → Turns (state S.Store tx.old.conn.now) (state S.Store tx.new.conn.now) result
        (IsFilled b) (IsFilled (with_settings settings.now b)) }
    ensures inside { Turns (state S.Store tx.old.conn.now) (state S.Store tx.new.conn.now) result IsInside IsInside }
    ensures kept { KeepsInside (state S.Store tx.old.conn.now) (state S.Store tx.new.conn.now) }
    ensures crash { LeavesNothing (state S.Store tx.old.conn.now) (state S.Store tx.new.conn.now) }
{
    tx.execute(
        "UPDATE meta SET v = ?2 WHERE k = ?1",
        &[text("settings"), text(settings)],
    )?;
    Ok(())
}

/// The rows of these queues in place of those that are there, and the text of the settings.
fn rewrite<S: Alter>(
    tx: &mut Transaction<'_, S>,
    settings: &str,
    queues: &[Queue],
) -> Result<(), Error>
    ensures same_reference { tx.new.conn.ghost_name ≡ tx.old.conn.ghost_name }
    ensures made { (b : _) → Turns (state S.Store tx.old.conn.now) (state S.Store tx.new.conn.now) result
        (IsFilled b) (IsFilled (rewritten settings.now queues.now b)) }
    ensures inside { Turns (state S.Store tx.old.conn.now) (state S.Store tx.new.conn.now) result IsInside IsInside }
    ensures kept { KeepsInside (state S.Store tx.old.conn.now) (state S.Store tx.new.conn.now) }
    ensures crash { LeavesNothing (state S.Store tx.old.conn.now) (state S.Store tx.new.conn.now) }
{
    drop_queues(tx)?;
    add_queues(tx, queues)?;
    set_settings(tx, settings)
}

/// The same, all or none, in a transaction of its own.
fn commit_rewritten<S: Alter>(
    conn: &mut Connection<S>,
    settings: &str,
    queues: &[Queue],
) -> Result<(), Error>
    requires { conn.old.in_transaction ≡ false }
    ensures all { HasCleanDisk (state S.Store conn.new) → (state S.Store conn.old).now.schema ≡ gate_schema →
        (b : _) → Stands (state S.Store conn.old).now.trees b →
        OnOk result (IsStoredIn (state S.Store conn.new) (rewritten settings.now queues.now b)) }
    ensures settled { HasCleanDisk (state S.Store conn.new) → OnOk result (IsUpAndCommitted (state S.Store conn.new)) }
    ensures none { HasCleanDisk (state S.Store conn.new) →
        OnErr result (Stays (state S.Store conn.old) (state S.Store conn.new)) }
    ensures clean { HasCleanDisk (state S.Store conn.new) → HasCleanDisk (state S.Store conn.old) }
    ensures mode { conn.new.in_transaction ≡ false }
    ensures crash { (state S.Store conn.old).now.schema ≡ gate_schema →
        (b : _) → Stands (state S.Store conn.old).now.trees b →
        Survives (state S.Store conn.old) (state S.Store conn.new)
        (λ db. Stands db (rewritten settings.now queues.now b)) }
{
    let _ = conn.is_autocommit();
    let mut tx = conn.transaction();
    rewrite(&mut tx, settings, queues)?;
    tx.commit()
}

/// The same; an Err where a failure has shut the connection.
fn write_rows<S: Alter>(
    conn: &mut Connection<S>,
    settings: &str,
    queues: &[Queue],
) -> Result<(), Error>
    requires { conn.old.in_transaction ≡ false }
    ensures all { HasCleanDisk (state S.Store conn.new) → (b : _) → Shows (state S.Store conn.old) b →
        OnOk result (IsStoredIn (state S.Store conn.new) (rewritten settings.now queues.now b)) }
    ensures settled { HasCleanDisk (state S.Store conn.new) → OnOk result (IsUpAndCommitted (state S.Store conn.new)) }
    ensures none { HasCleanDisk (state S.Store conn.new) →
        OnErr result (Stays (state S.Store conn.old) (state S.Store conn.new)) }
    ensures clean { HasCleanDisk (state S.Store conn.new) → HasCleanDisk (state S.Store conn.old) }
    ensures mode { conn.new.in_transaction ≡ false }
    ensures crash { HasCleanDisk (state S.Store conn.new) → (b : _) → Shows (state S.Store conn.old) b → (db : Trees) →
        (state S.Store conn.new).may_leave db →
        (state S.Store conn.old).may_leave db ⊎ Stands db (rewritten settings.now queues.now b) }
{
    check_open(conn)?;
    commit_rewritten(conn, settings, queues)
}

/// The other settings in place of those that the file holds, all or none. `Unavailable` where a transaction is under
/// way, or memory, the disk or its size failed; what the file holds is then as it was.
pub fn adopt<S: Alter>(
    alloc: Global,
    conn: &mut Connection<S>,
    held: &Config,
    config: &Config,
    settings: &str,
) -> Result<(), OpenFault>
    ensures made { HasCleanDisk (state S.Store conn.new) → settings.now ≡ settings_text config.now → (x : Content) →
        (state S.Store conn.old).now.schema ≡ gate_schema →
        CanAdopt (state S.Store conn.old).now.trees held.now config.now x →
        OnOk result (IsShownFor (state S.Store conn.new) config.now (adopted_content held.now config.now x)) }
    ensures settled { HasCleanDisk (state S.Store conn.new) → OnOk result (IsUpAndCommitted (state S.Store conn.new)) }
    ensures none { HasCleanDisk (state S.Store conn.new) →
        OnErr result (Stays (state S.Store conn.old) (state S.Store conn.new)) }
    ensures fault { IfErr result (λ f. f ≡ OpenFault.Unavailable) }
    ensures clean { HasCleanDisk (state S.Store conn.new) → HasCleanDisk (state S.Store conn.old) }
    ensures mode { OnOk result (conn.new.in_transaction ≡ false) }
    ensures crash { HasCleanDisk (state S.Store conn.new) → settings.now ≡ settings_text config.now → (x : Content) →
        (state S.Store conn.old).now.schema ≡ gate_schema →
        CanAdopt (state S.Store conn.old).now.trees held.now config.now x → (db : Trees) →
        (state S.Store conn.new).may_leave db →
        (state S.Store conn.old).may_leave db ⊎ StandsFor db config.now (adopted_content held.now config.now x) }
{
    let Ok(queues) = resized_queues(alloc, conn, held, config.queues.as_slice()) else {
        return Err(OpenFault::Unavailable);
    };
    if !conn.is_autocommit() {
        return Err(OpenFault::Unavailable);
    }
    match write_rows(conn, settings, queues.as_slice()) {
        Ok(()) => Ok(()),
        Err(_) => Err(OpenFault::Unavailable),
    }
}
