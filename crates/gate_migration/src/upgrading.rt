//! A gate's file of schema 1 made one of schema 2, within a transaction.
ghost use Rattle.std.specs.Prelude.{◌≡◌, ◌⊎◌, false, IsTrue, OnErr, OnOk};
ghost use Rattle.sqlite.specs.Held.{state};
ghost use Rattle.sqlite.specs.State.{HasCleanDisk, KeepsCommit, Survives};
ghost use Rattle.sqlite.specs.Tree.{Trees};
ghost use Rattle.gate_rows.specs.Writes.{LeavesNothing};
ghost use Rattle.gate_schema.specs.Rows.{IsReady};
ghost use Rattle.gate_schema.specs.Schema.{gate_schema};
ghost use Rattle.gate_found_rows.specs.Finds.{Stays};
ghost use Rattle.gate_file_changes.specs.Making.{IsFilled, IsInside, IsUpAndCommitted, KeepsInside, Turns};
ghost use Rattle.gate_migration.specs.Upgrade.{CanPlan, CanUpgrade, HasJobTable, HasUpgraded, IsFirst, IsWidened};
ghost use Rattle.gate_migration.specs.Upgrade.{stored_without_plans};

use gate_file_changes::apply_all;
use gate_found_rows::read::check_open;
use gate_types::edits::Edit;
use sqlite::{Alter, Connection, Error, Transaction};
use std::alloc::Global;

/// The table of jobs.
fn make_job_table<S: Alter>(tx: &mut Transaction<'_, S>) -> Result<(), Error>
    ensures same_reference { tx.new.conn.ghost_name ≡ tx.old.conn.ghost_name }
    ensures made { (b : _) → Turns (state S.Store tx.old.conn.now) (state S.Store tx.new.conn.now) result
        (IsFirst b) (HasJobTable b) }
    ensures inside { Turns (state S.Store tx.old.conn.now) (state S.Store tx.new.conn.now) result IsInside IsInside }
    ensures kept { KeepsInside (state S.Store tx.old.conn.now) (state S.Store tx.new.conn.now) }
    ensures crash { LeavesNothing (state S.Store tx.old.conn.now) (state S.Store tx.new.conn.now) }
{
    tx.execute(
        "CREATE TABLE item_job (serial INTEGER NOT NULL, place INTEGER NOT NULL, name TEXT NOT NULL, voting INTEGER NOT NULL CHECK(voting IN (0,1)), PRIMARY KEY(serial, place)) STRICT",
        &[],
    )?;
    Ok(())
}

/// The table of the items that fail fast.
fn make_fast_table<S: Alter>(tx: &mut Transaction<'_, S>) -> Result<(), Error>
    ensures same_reference { tx.new.conn.ghost_name ≡ tx.old.conn.ghost_name }
    ensures made { (b : _) → Turns (state S.Store tx.old.conn.now) (state S.Store tx.new.conn.now) result
        (HasJobTable b) (IsWidened b) }
    ensures inside { Turns (state S.Store tx.old.conn.now) (state S.Store tx.new.conn.now) result IsInside IsInside }
    ensures kept { KeepsInside (state S.Store tx.old.conn.now) (state S.Store tx.new.conn.now) }
    ensures crash { LeavesNothing (state S.Store tx.old.conn.now) (state S.Store tx.new.conn.now) }
{
    tx.execute(
        "CREATE TABLE item_fast (serial INTEGER PRIMARY KEY) STRICT",
        &[],
    )?;
    Ok(())
}

/// The version in `meta`.
fn set_version<S: Alter>(tx: &mut Transaction<'_, S>) -> Result<(), Error>
    ensures same_reference { tx.new.conn.ghost_name ≡ tx.old.conn.ghost_name }
    ensures made { (b : _) → Turns (state S.Store tx.old.conn.now) (state S.Store tx.new.conn.now) result
        (IsWidened b) (IsFilled (stored_without_plans b)) }
    ensures inside { Turns (state S.Store tx.old.conn.now) (state S.Store tx.new.conn.now) result IsInside IsInside }
    ensures kept { KeepsInside (state S.Store tx.old.conn.now) (state S.Store tx.new.conn.now) }
    ensures crash { LeavesNothing (state S.Store tx.old.conn.now) (state S.Store tx.new.conn.now) }
{
    tx.execute("UPDATE meta SET v = '2' WHERE k = 'schema'", &[])?;
    Ok(())
}

/// A file of schema 1 becomes one of schema 2 that has no plan yet.
pub(crate) fn widen<S: Alter>(tx: &mut Transaction<'_, S>) -> Result<(), Error>
    ensures same_reference { tx.new.conn.ghost_name ≡ tx.old.conn.ghost_name }
    ensures made { (b : _) → Turns (state S.Store tx.old.conn.now) (state S.Store tx.new.conn.now) result
        (IsFirst b) (IsFilled (stored_without_plans b)) }
    ensures inside { Turns (state S.Store tx.old.conn.now) (state S.Store tx.new.conn.now) result IsInside IsInside }
    ensures kept { KeepsInside (state S.Store tx.old.conn.now) (state S.Store tx.new.conn.now) }
    ensures crash { LeavesNothing (state S.Store tx.old.conn.now) (state S.Store tx.new.conn.now) }
{
    make_job_table(tx)?;
    make_fast_table(tx)?;
    set_version(tx)
}

/// The same, and then these edits are made.
fn widen_with<S: Alter>(
    alloc: Global,
    tx: &mut Transaction<'_, S>,
    edits: &[Edit],
) -> Result<(), Error>
    ensures same_reference { tx.new.conn.ghost_name ≡ tx.old.conn.ghost_name }
    ensures made { HasCleanDisk (state S.Store tx.new.conn.now) → (b : _) (t : _) →
        IsFirst b (state S.Store tx.old.conn.now) → CanPlan b edits.now t →
        OnOk result (IsReady (state S.Store tx.new.conn.now) ×
        HasUpgraded (state S.Store tx.new.conn.now).now.trees b edits.now t) }
    ensures kept { HasCleanDisk (state S.Store tx.new.conn.now) → (b : _) → IsFirst b (state S.Store tx.old.conn.now) →
        KeepsCommit (state S.Store tx.old.conn.now) (state S.Store tx.new.conn.now) }
    ensures crash { LeavesNothing (state S.Store tx.old.conn.now) (state S.Store tx.new.conn.now) }
{
    widen(tx)?;
    apply_all(alloc, tx, edits)
}

/// A file of schema 1 becomes one of schema 2, and these edits are made, all or none.
fn upgrade<S: Alter>(alloc: Global, conn: &mut Connection<S>, edits: &[Edit]) -> Result<(), Error>
    requires { conn.old.in_transaction ≡ false }
    ensures all { HasCleanDisk (state S.Store conn.new) → (b : _) (t : _) →
        CanUpgrade (state S.Store conn.old) b edits.now t →
        OnOk result (((state S.Store conn.new).now.schema ≡ gate_schema) ×
        HasUpgraded (state S.Store conn.new).now.trees b edits.now t) }
    ensures settled { HasCleanDisk (state S.Store conn.new) → OnOk result (IsUpAndCommitted (state S.Store conn.new)) }
    ensures none { HasCleanDisk (state S.Store conn.new) → (b : _) (t : _) →
        CanUpgrade (state S.Store conn.old) b edits.now t →
        OnErr result (Stays (state S.Store conn.old) (state S.Store conn.new)) }
    ensures clean { HasCleanDisk (state S.Store conn.new) → HasCleanDisk (state S.Store conn.old) }
    ensures mode { conn.new.in_transaction ≡ false }
    ensures crash { (b : _) (t : _) → CanUpgrade (state S.Store conn.old) b edits.now t →
        Survives (state S.Store conn.old) (state S.Store conn.new) (λ db. HasUpgraded db b edits.now t) }
{
    // Outside a transaction it shows what is committed.
    let _ = conn.is_autocommit();
    let mut tx = conn.transaction();
    widen_with(alloc, &mut tx, edits)?;
    tx.commit()
}

/// The same where the connection is open; an Err where a failure has shut it.
pub(crate) fn upgrade_if_open<S: Alter>(
    alloc: Global,
    conn: &mut Connection<S>,
    edits: &[Edit],
) -> Result<(), Error>
    requires { conn.old.in_transaction ≡ false }
    ensures all { HasCleanDisk (state S.Store conn.new) → (b : _) (t : _) →
        (IsTrue (state S.Store conn.old).is_open → CanUpgrade (state S.Store conn.old) b edits.now t) →
        OnOk result (((state S.Store conn.new).now.schema ≡ gate_schema) ×
        HasUpgraded (state S.Store conn.new).now.trees b edits.now t) }
    ensures settled { HasCleanDisk (state S.Store conn.new) → OnOk result (IsUpAndCommitted (state S.Store conn.new)) }
    ensures none { HasCleanDisk (state S.Store conn.new) → (b : _) (t : _) →
        (IsTrue (state S.Store conn.old).is_open → CanUpgrade (state S.Store conn.old) b edits.now t) →
        OnErr result (Stays (state S.Store conn.old) (state S.Store conn.new)) }
    ensures crash { HasCleanDisk (state S.Store conn.new) → (b : _) (t : _) →
        (IsTrue (state S.Store conn.old).is_open → CanUpgrade (state S.Store conn.old) b edits.now t) → (db : Trees) →
        (state S.Store conn.new).may_leave db → (state S.Store conn.old).may_leave db ⊎ HasUpgraded db b edits.now t }
    ensures mode { OnOk result (conn.new.in_transaction ≡ false) }
    ensures clean { HasCleanDisk (state S.Store conn.new) → HasCleanDisk (state S.Store conn.old) }
{
    check_open(conn)?;
    upgrade(alloc, conn, edits)
}
