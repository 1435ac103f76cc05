//! The read of the counters.
ghost use Rattle.std.specs.Prelude.{◌≡◌, pos, true, IfOk, OnErr};
ghost use Rattle.sqlite.specs.Held.{state};
ghost use Rattle.sqlite.specs.declared.types.Value.TheVariants.{Int, Text};
ghost use Rattle.sqlite_value.specs.Order.{column};
ghost use Rattle.gate_types.specs.Counters.{Drawn};
ghost use Rattle.gate_types.specs.Forms.{are_counters_in_form};
ghost use Rattle.gate_types.specs.Words.{counter_word};
ghost use Rattle.gate_book_trait.specs.Reads.{Answers};
ghost use Rattle.gate_schema.specs.Rows.{counter_columns};
ghost use Rattle.gate_found_rows.specs.Reads.{IsOnlyRead, Opened, Tells};

use gate_book_trait::BookFault;
use gate_found_rows::columns::number_in;
use gate_found_rows::read::read_rows;
use gate_types::edits::Counter;
use gate_types::numbers::LAST_NUMBER;
use gate_types::records::Counters;
use sqlite::types::ValueRef;
use sqlite::{Alter, Connection, Row};

/// Whether the row is of the counter of this name.
fn is_named(row: &Row, name: &str) -> bool
    ensures { column row.now 0 ≡ Text name.now → result ≡ true }
{
    match row.get_ref(0) {
        Ok(ValueRef::Text(bytes)) => bytes == name.as_bytes(),
        _ => false,
    }
}

/// The number in the row of this counter; `Damaged` where the row is another's.
fn drawn_in(row: &Row, counter: Counter) -> Result<u64, BookFault>
    ensures ok { (n : _) → column row.now 1 ≡ Int (pos n) → IfOk result (λ x. x ≡ n) }
    ensures err { (n : _) → column row.now 0 ≡ Text (counter_word counter) → column row.now 1 ≡ Int (pos n) →
        OnErr result ⊥ }
{
    if is_named(row, counter.word()) {
        number_in(row, 1)
    } else {
        Err(BookFault::Damaged)
    }
}

/// The counters; `Damaged` where one is too great.
fn counters_of(approval: u64, build: u64, order: u64) -> Result<Counters, BookFault>
    ensures { (d : Drawn) → d ≡ record { approval = approval; build = build; order = order } →
        are_counters_in_form d ≡ true → Answers d result }
{
    if approval <= LAST_NUMBER && build <= LAST_NUMBER && order <= LAST_NUMBER {
        Ok(Counters {
            approval,
            build,
            order,
        })
    } else {
        Err(BookFault::Damaged)
    }
}

/// The counters of their rows, in the order of their names.
fn counters_in(rows: &[Row]) -> Result<Counters, BookFault>
    ensures { (d : Drawn) → rows.now ≡ counter_columns d → are_counters_in_form d ≡ true → Answers d result }
{
    match rows {
        [approval, build, order] => counters_of(
            drawn_in(approval, Counter::Approval)?,
            drawn_in(build, Counter::Build)?,
            drawn_in(order, Counter::Order)?,
        ),
        _ => Err(BookFault::Damaged),
    }
}

/// The last number drawn of each kind.
///
/// `NoMemory` where memory is refused, `Store` where the query fails, `Damaged` where a row isn't in form.
pub fn counters<S: Alter>(conn: &mut Connection<S>) -> Result<Counters, BookFault>
    ensures found { Tells (state S.Store conn.old) (state S.Store conn.new) result (λ b. b.counters) }
    ensures opened { Opened (state S.Store conn.old) (state S.Store conn.new) result }
    ensures only_reads { IsOnlyRead (state S.Store conn.old) (state S.Store conn.new) }
{
    let rows = read_rows(conn, "SELECT name, drawn FROM counter ORDER BY name", &[])?;
    counters_in(&rows)
}
