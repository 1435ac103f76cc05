//! The tables and indexes of a gate's file, made within a transaction.
ghost use Rattle.std.specs.Prelude.{◌≡◌, map};
ghost use Rattle.sqlite.specs.Held.{state};
ghost use Rattle.gate_rows.specs.Writes.{LeavesNothing};
ghost use Rattle.gate_schema.specs.Made.{MakeInTurn as LeadsTo, MakesOf};
ghost use Rattle.gate_schema.specs.Schema.{gate_schema, schema_with};
ghost use Rattle.gate_file_changes.specs.Making.{IsBare, IsInside, KeepsInside, Turns};

use sqlite::{Alter, Error, Transaction};

/// One table or index.
fn make_one<S: Alter>(tx: &mut Transaction<'_, S>, text: &str) -> Result<(), Error>
    ensures same_reference { tx.new.conn.ghost_name ≡ tx.old.conn.ghost_name }
    ensures made { (s t : _) → MakesOf text.now s t →
        Turns (state S.Store tx.old.conn.now) (state S.Store tx.new.conn.now) result
        (IsBare s) (IsBare t) }
    ensures inside { Turns (state S.Store tx.old.conn.now) (state S.Store tx.new.conn.now) result IsInside IsInside }
    ensures kept { KeepsInside (state S.Store tx.old.conn.now) (state S.Store tx.new.conn.now) }
    ensures crash { LeavesNothing (state S.Store tx.old.conn.now) (state S.Store tx.new.conn.now) }
{
    tx.execute(text, &[])?;
    Ok(())
}

/// The tables and indexes of these texts.
fn make_all<S: Alter>(tx: &mut Transaction<'_, S>, texts: &[&str]) -> Result<(), Error>
    ensures same_reference { tx.new.conn.ghost_name ≡ tx.old.conn.ghost_name }
    ensures made { (s t : _) → LeadsTo (map (λ x. x.now) texts.now) s t →
        Turns (state S.Store tx.old.conn.now) (state S.Store tx.new.conn.now) result
        (IsBare s) (IsBare t) }
    ensures inside { Turns (state S.Store tx.old.conn.now) (state S.Store tx.new.conn.now) result IsInside IsInside }
    ensures kept { KeepsInside (state S.Store tx.old.conn.now) (state S.Store tx.new.conn.now) }
    ensures crash { LeavesNothing (state S.Store tx.old.conn.now) (state S.Store tx.new.conn.now) }
{
    for text in texts {
        make_one(tx, *text)?;
    }
    Ok(())
}

/// All tables and indexes, where none is.
pub fn make_tables<S: Alter>(tx: &mut Transaction<'_, S>) -> Result<(), Error>
    ensures same_reference { tx.new.conn.ghost_name ≡ tx.old.conn.ghost_name }
    ensures made { Turns (state S.Store tx.old.conn.now) (state S.Store tx.new.conn.now) result
        (IsBare (schema_with 0 0)) (IsBare gate_schema) }
    ensures inside { Turns (state S.Store tx.old.conn.now) (state S.Store tx.new.conn.now) result IsInside IsInside }
    ensures kept { KeepsInside (state S.Store tx.old.conn.now) (state S.Store tx.new.conn.now) }
    ensures crash { LeavesNothing (state S.Store tx.old.conn.now) (state S.Store tx.new.conn.now) }
{
    make_all(
        tx,
        &[
            "CREATE TABLE meta (k TEXT PRIMARY KEY NOT NULL, v TEXT NOT NULL) STRICT",
            "CREATE TABLE counter (name TEXT PRIMARY KEY NOT NULL, drawn INTEGER NOT NULL CHECK(drawn >= 0)) STRICT",
            "CREATE TABLE queue (name TEXT PRIMARY KEY NOT NULL, place INTEGER NOT NULL UNIQUE, win INTEGER NOT NULL) STRICT",
            "CREATE TABLE change (num INTEGER PRIMARY KEY, project TEXT NOT NULL, revision INTEGER NOT NULL, state TEXT NOT NULL CHECK(state IN ('open','landed','closed')), approval INTEGER) STRICT",
            "CREATE INDEX change_approval ON change(approval)",
            "CREATE TABLE need (change INTEGER NOT NULL, place INTEGER NOT NULL, needed INTEGER NOT NULL, PRIMARY KEY(change, place)) STRICT",
            "CREATE TABLE item (serial INTEGER PRIMARY KEY, queue TEXT NOT NULL, change INTEGER NOT NULL UNIQUE, revision INTEGER NOT NULL, ahead INTEGER, failing INTEGER NOT NULL CHECK(failing IN (0,1))) STRICT",
            "CREATE TABLE build (num INTEGER PRIMARY KEY, queue TEXT NOT NULL, serial INTEGER NOT NULL, change INTEGER NOT NULL, revision INTEGER NOT NULL, job TEXT NOT NULL, base INTEGER NOT NULL, ahead TEXT NOT NULL, outcome TEXT NOT NULL CHECK(outcome IN ('running','success','failure','lost')), live INTEGER NOT NULL CHECK(live IN (0,1))) STRICT",
            "CREATE TABLE landing (queue TEXT NOT NULL, n INTEGER NOT NULL, serial INTEGER NOT NULL UNIQUE, change INTEGER NOT NULL UNIQUE, revision INTEGER NOT NULL, PRIMARY KEY(queue, n)) STRICT",
            "CREATE TABLE report (queue TEXT NOT NULL, place INTEGER NOT NULL, serial INTEGER NOT NULL UNIQUE, change INTEGER NOT NULL, revision INTEGER NOT NULL, verdict TEXT NOT NULL, n INTEGER, PRIMARY KEY(queue, place)) STRICT",
            "CREATE TABLE delivery (id BLOB PRIMARY KEY NOT NULL, said TEXT NOT NULL, reply TEXT NOT NULL) STRICT",
            "CREATE INDEX need_needed ON need(needed)",
            "CREATE INDEX item_queue ON item(queue, serial)",
            "CREATE INDEX build_serial ON build(serial)",
            "CREATE TABLE item_job (serial INTEGER NOT NULL, place INTEGER NOT NULL, name TEXT NOT NULL, voting INTEGER NOT NULL CHECK(voting IN (0,1)), PRIMARY KEY(serial, place)) STRICT",
            "CREATE TABLE item_fast (serial INTEGER PRIMARY KEY) STRICT",
        ],
    )
}
