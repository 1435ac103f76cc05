//! The first rows of a gate's file, written within a transaction.
ghost use Rattle.std.specs.Prelude.{◌≡◌, ◌<◌, ◌^◌, pos, []};
ghost use Rattle.sqlite.specs.Held.{state};
ghost use Rattle.sqlite.specs.Value.{owned};
ghost use Rattle.sqlite.specs.declared.types.Value.TheVariants.{Int};
ghost use Rattle.gate_rows.specs.Writes.{LeavesNothing};
ghost use Rattle.gate_schema.specs.Schema.{gate_schema};
ghost use Rattle.gate_file_changes.specs.Making.{HasMeta, IsBare, IsFilled, IsInside, KeepsInside, Turns};
ghost use Rattle.gate_file_changes.specs.Making.{first_stored, queue_row_at, first_queue_rows, with_queue, with_rows};

use gate_types::config::Queue;
use sqlite::types::{ToSql, ValueRef};
use sqlite::{Alter, Error, Transaction};

/// The rows of `meta`: the form of the file, its version, and the text of the settings.
fn fill_meta<S: Alter>(tx: &mut Transaction<'_, S>, settings: &str) -> Result<(), Error>
    ensures same_reference { tx.new.conn.ghost_name ≡ tx.old.conn.ghost_name }
    ensures made { Turns (state S.Store tx.old.conn.now) (state S.Store tx.new.conn.now) result
        (IsBare gate_schema) (HasMeta settings.now) }
    ensures inside { Turns (state S.Store tx.old.conn.now) (state S.Store tx.new.conn.now) result IsInside IsInside }
    ensures kept { KeepsInside (state S.Store tx.old.conn.now) (state S.Store tx.new.conn.now) }
    ensures crash { LeavesNothing (state S.Store tx.old.conn.now) (state S.Store tx.new.conn.now) }
{
    tx.execute(
        "INSERT INTO meta (k, v) VALUES ('format', 'gate'), ('schema', '2'), ('settings', ?1)",
        &[settings.to_sql()],
    )?;
    Ok(())
}

/// The counters, each at 0.
fn fill_counter<S: Alter>(tx: &mut Transaction<'_, S>) -> Result<(), Error>
    ensures same_reference { tx.new.conn.ghost_name ≡ tx.old.conn.ghost_name }
    ensures made { (settings : _) → Turns (state S.Store tx.old.conn.now) (state S.Store tx.new.conn.now) result
        (HasMeta settings) (IsFilled (first_stored settings [])) }
    ensures inside { Turns (state S.Store tx.old.conn.now) (state S.Store tx.new.conn.now) result IsInside IsInside }
    ensures kept { KeepsInside (state S.Store tx.old.conn.now) (state S.Store tx.new.conn.now) }
    ensures crash { LeavesNothing (state S.Store tx.old.conn.now) (state S.Store tx.new.conn.now) }
{
    tx.execute(
        "INSERT INTO counter (name, drawn) VALUES ('approval', 0), ('build', 0), ('order', 0)",
        &[],
    )?;
    Ok(())
}

/// An index as a parameter.
fn at_index<'a>(index: usize) -> ValueRef<'a>
    requires { index < 2 ^ 63 }
    ensures { owned result ≡ Int (pos index) }
{
    ValueRef::Int(index as i64)
}

/// The row of a queue, at its index in the settings.
fn add_queue<S: Alter>(
    tx: &mut Transaction<'_, S>,
    queue: &Queue,
    index: usize,
) -> Result<(), Error>
    requires { index < 2 ^ 63 }
    ensures same_reference { tx.new.conn.ghost_name ≡ tx.old.conn.ghost_name }
    ensures made { (b : _) → Turns (state S.Store tx.old.conn.now) (state S.Store tx.new.conn.now) result
        (IsFilled b) (IsFilled (with_queue (queue_row_at index queue.now) b)) }
    ensures inside { Turns (state S.Store tx.old.conn.now) (state S.Store tx.new.conn.now) result IsInside IsInside }
    ensures kept { KeepsInside (state S.Store tx.old.conn.now) (state S.Store tx.new.conn.now) }
    ensures crash { LeavesNothing (state S.Store tx.old.conn.now) (state S.Store tx.new.conn.now) }
{
    tx.execute(
        "INSERT INTO queue (name, place, win) VALUES (?1, ?2, ?3)",
        &[
            queue.name.as_str().to_sql(),
            at_index(index),
            queue.window.to_sql(),
        ],
    )?;
    Ok(())
}

/// The rows of the queues, by their indexes from 0, where there are none.
pub fn add_queues<S: Alter>(tx: &mut Transaction<'_, S>, queues: &[Queue]) -> Result<(), Error>
    ensures same_reference { tx.new.conn.ghost_name ≡ tx.old.conn.ghost_name }
    ensures made { (b : _) → Turns (state S.Store tx.old.conn.now) (state S.Store tx.new.conn.now) result
        (IsFilled (with_rows [] b)) (IsFilled (with_rows (first_queue_rows 0 queues.now) b)) }
    ensures inside { Turns (state S.Store tx.old.conn.now) (state S.Store tx.new.conn.now) result IsInside IsInside }
    ensures kept { KeepsInside (state S.Store tx.old.conn.now) (state S.Store tx.new.conn.now) }
    ensures crash { LeavesNothing (state S.Store tx.old.conn.now) (state S.Store tx.new.conn.now) }
{
    for (index, queue) in queues.iter().enumerate() {
        add_queue(tx, queue, index)?;
    }
    Ok(())
}

/// The rows of a gate before its first delivery, in tables with no row.
pub fn write_first<S: Alter>(
    tx: &mut Transaction<'_, S>,
    settings: &str,
    queues: &[Queue],
) -> Result<(), Error>
    ensures same_reference { tx.new.conn.ghost_name ≡ tx.old.conn.ghost_name }
    ensures made { Turns (state S.Store tx.old.conn.now) (state S.Store tx.new.conn.now) result
        (IsBare gate_schema) (IsFilled (first_stored settings.now (first_queue_rows 0 queues.now))) }
    ensures inside { Turns (state S.Store tx.old.conn.now) (state S.Store tx.new.conn.now) result IsInside IsInside }
    ensures kept { KeepsInside (state S.Store tx.old.conn.now) (state S.Store tx.new.conn.now) }
    ensures crash { LeavesNothing (state S.Store tx.old.conn.now) (state S.Store tx.new.conn.now) }
{
    fill_meta(tx, settings)?;
    fill_counter(tx)?;
    add_queues(tx, queues)
}
