//! A gate's file made: the tables of an empty gate, all or none.
ghost use Rattle.std.specs.Prelude.{◌≡◌, false, IfErr, IfOk, OnErr, OnOk};
ghost use Rattle.sqlite.specs.Held.{state};
ghost use Rattle.sqlite.specs.State.{HasCleanDisk, Survives};
ghost use Rattle.sqlite.specs.Tree.{Trees};
ghost use Rattle.gate_types.specs.Once.{empty};
ghost use Rattle.gate_rows.specs.Matches.{StandsFor};
ghost use Rattle.gate_schema.specs.Rows.{Stands};
ghost use Rattle.gate_schema.specs.Schema.{schema_with};
ghost use Rattle.gate_found_rows.specs.Finds.{Stays};
ghost use Rattle.gate_found_rows.specs.Reads.{IsStoredIn};
ghost use Rattle.gate_sql.specs.Handed.{answered, handed};
ghost use Rattle.gate_table_laws.specs.Held.{HoldsFor};
ghost use Rattle.gate_sql.specs.Handed.{names_of};
ghost use Rattle.gate_sql.specs.Refused.{IsRefused};
ghost use Rattle.gate_file_changes.specs.Making.{IsUpAndCommitted, first_stored, first_queue_rows};
ghost use Rattle.gate_file_meta.specs.Opens.{IsMade, is_taken};

use crate::book::{SqlBook, texts_of};
use gate_file_changes::{make_tables, write_first};
use gate_file_meta::is_any_used;
use gate_types::config::{Config, Queue};
use gate_types::open_fault::OpenFault;
use sqlite::{Alter, Connection, Error};
use sqlite_schema::schema::Schema;
use std::alloc::Global;

/// Whether the name of one of the gate's tables and indexes is there already.
fn has_names(schema: &Schema) -> bool
    ensures { result ≡ is_taken schema.now }
{
    is_any_used(
        schema,
        &[
            "meta",
            "counter",
            "queue",
            "change",
            "need",
            "item",
            "build",
            "landing",
            "report",
            "delivery",
            "change_approval",
            "need_needed",
            "item_queue",
            "build_serial",
            "item_job",
            "item_fast",
        ],
    )
}

/// The tables of an empty gate, all or none.
fn fill<S: Alter>(conn: &mut Connection<S>, settings: &str, queues: &[Queue]) -> Result<(), Error>
    requires { conn.old.in_transaction ≡ false }
    ensures all { HasCleanDisk (state S.Store conn.new) → (state S.Store conn.old).now.schema ≡ schema_with 0 0 →
        OnOk result (IsStoredIn (state S.Store conn.new) (first_stored settings.now (first_queue_rows 0 queues.now))) }
    ensures settled { HasCleanDisk (state S.Store conn.new) → OnOk result (IsUpAndCommitted (state S.Store conn.new)) }
    ensures none { HasCleanDisk (state S.Store conn.new) →
        OnErr result (Stays (state S.Store conn.old) (state S.Store conn.new)) }
    ensures clean { HasCleanDisk (state S.Store conn.new) → HasCleanDisk (state S.Store conn.old) }
    ensures mode { conn.new.in_transaction ≡ false }
    ensures crash { (state S.Store conn.old).now.schema ≡ schema_with 0 0 →
        Survives (state S.Store conn.old) (state S.Store conn.new)
        (λ db. Stands db (first_stored settings.now (first_queue_rows 0 queues.now))) }
{
    let _ = conn.is_autocommit();
    let mut tx = conn.transaction();
    make_tables(&mut tx)?;
    write_first(&mut tx, settings, queues)?;
    tx.commit()
}

impl<S: Alter> SqlBook<S> {
    /// The book of a gate that has seen no delivery: makes its tables, all or none, and hands the
    /// connection back with a fault. `WrongFile` where a table, an index or a view has one of their
    /// names; `Unavailable` where a transaction is under way, or memory, the disk or its size failed.
    pub fn create(
        alloc: Global,
        mut conn: Connection<S>,
        config: &Config,
    ) -> Result<SqlBook<S>, (OpenFault, Connection<S>)>
        ensures faults { IsMade (answered result) (is_taken (state S.Store conn).now.schema) conn.in_transaction }
        ensures made { (state S.Store conn).now.schema ≡ schema_with 0 0 →
            IfOk result (λ book. HasCleanDisk (state S.Store book.conn) →
            HoldsFor (state S.Store book.conn) (names_of book) config.now (empty config.now)) }
        ensures none { IfErr result (λ e. HasCleanDisk (state S.Store e.1) →
            IsRefused (state S.Store conn) (state S.Store e.1) e.0) }
        ensures crash { (state S.Store conn).now.schema ≡ schema_with 0 0 →
            Survives (state S.Store conn) (handed S.Store result)
            (λ db. StandsFor db config.now (empty config.now)) }
        ensures settled { (state S.Store conn).now.schema ≡ schema_with 0 0 →
            IfOk result (λ book. HasCleanDisk (state S.Store book.conn) → (db : Trees) →
            S.Store.recovers book.conn.store db → StandsFor db config.now (empty config.now)) }
        ensures clean { HasCleanDisk (handed S.Store result) → HasCleanDisk (state S.Store conn) }
        ensures mode { IfOk result (λ book. book.conn.in_transaction ≡ false) }
    {
        if !conn.is_autocommit() {
            return Err((OpenFault::Unavailable, conn));
        }
        if has_names(conn.schema()) {
            return Err((OpenFault::WrongFile, conn));
        }
        // Once the tables are there no more memory is asked for.
        let Ok((settings, queues)) = texts_of(alloc, config) else {
            return Err((OpenFault::Unavailable, conn));
        };
        match fill(&mut conn, settings.as_str(), config.queues.as_slice()) {
            Ok(()) => Ok(SqlBook {
                alloc,
                conn,
                queues,
            }),
            Err(_) => Err((OpenFault::Unavailable, conn)),
        }
    }
}
