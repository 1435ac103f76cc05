//! Reads outside a transaction, which change nothing.
ghost use Rattle.std.specs.Prelude.{◌≡◌, ◌≢◌, OnOk, IfErr, IfOk, IsTrue, false};
ghost use Rattle.sqlite.specs.State.{HasCleanDisk, IsUnchanged, Survives};
ghost use Rattle.sqlite.specs.Held.{state};
ghost use Rattle.sqlite.specs.Values.{bound};
ghost use Rattle.sqlite.specs.Given.{IsPlain};
ghost use Rattle.sqlite.specs.Listing.{understood};
ghost use Rattle.sqlite.specs.Schema.{Schema};
ghost use Rattle.gate_found_rows.specs.Finds.{Finds, OnlyReads, Stays};
ghost use Rattle.gate_found_rows.specs.Reads.{IsOnlyRead};

use crate::fault::book_fault;
use gate_book_trait::BookFault;
use sqlite::types::ValueRef;
use sqlite::{Alter, Connection, Error, Row};

/// An Err where a failure has shut the connection, or where memory is refused.
pub fn check_open<S: Alter>(conn: &mut Connection<S>) -> Result<(), Error>
    requires { conn.old.in_transaction ≡ false }
    ensures ok { HasCleanDisk (state S.Store conn.new) →
        OnOk result (IsUnchanged (state S.Store conn.old) (state S.Store conn.new)) }
    ensures stays { HasCleanDisk (state S.Store conn.new) → Stays (state S.Store conn.old) (state S.Store conn.new) }
    ensures mode { conn.new.in_transaction ≡ false }
    ensures crash { Survives (state S.Store conn.old) (state S.Store conn.new) (λ _. ⊥) }
{
    let _ = conn.is_autocommit();
    let _ = conn.prepare("COMMIT")?;
    Ok(())
}

/// The rows that a query of the tables finds. An Err is one of SQL, or that the connection is shut.
pub fn read_all<S: Alter>(
    conn: &mut Connection<S>,
    sql: &str,
    params: &[ValueRef<'_>],
) -> Result<Vec<Row>, Error>
    requires { conn.old.in_transaction ≡ false }
    ensures finds { HasCleanDisk (state S.Store conn.new) → IfOk result (λ rows.
        IsTrue (state S.Store conn.old).is_open ×
        Finds sql.now (bound params.now) (state S.Store conn.old).now rows.items) }
    ensures stays { HasCleanDisk (state S.Store conn.new) → OnlyReads sql.now →
        Stays (state S.Store conn.old) (state S.Store conn.new) }
    ensures mode { conn.new.in_transaction ≡ false }
    ensures crash { HasCleanDisk (state S.Store conn.new) → OnlyReads sql.now →
        Survives (state S.Store conn.old) (state S.Store conn.new) (λ _. ⊥) }
    ensures clean { HasCleanDisk (state S.Store conn.new) → HasCleanDisk (state S.Store conn.old) }
{
    check_open(conn)?;
    let _ = conn.is_autocommit();
    conn.query_all(sql, params)
}

/// The same rows, or why there are none, as a fault of a book: `Store` within a transaction too.
pub fn read_rows<S: Alter>(
    conn: &mut Connection<S>,
    sql: &str,
    params: &[ValueRef<'_>],
) -> Result<Vec<Row>, BookFault>
    ensures finds { HasCleanDisk (state S.Store conn.new) → IfOk result (λ rows.
        IsTrue (state S.Store conn.old).is_open ×
        Finds sql.now (bound params.now) (state S.Store conn.old).now rows.items) }
    ensures fault { IfErr result (λ f. f ≢ BookFault.Damaged) }
    ensures only_reads { (schema : Schema) → IsPlain (understood schema sql.now) →
        IsOnlyRead (state S.Store conn.old) (state S.Store conn.new) }
{
    if !conn.is_autocommit() {
        return Err(BookFault::Store);
    }
    match read_all(conn, sql, params) {
        Ok(rows) => Ok(rows),
        Err(error) => Err(book_fault(&error)),
    }
}
