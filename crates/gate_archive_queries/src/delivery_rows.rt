//! The row of an accepted delivery.
ghost use Rattle.std.specs.Prelude.{◌≡◌, IfOk};
ghost use Rattle.sqlite.specs.Value.{owned};
ghost use Rattle.sqlite.specs.declared.types.Value.TheVariants.{Blob, Int};
ghost use Rattle.sqlite_value.specs.Order.{column};
ghost use Rattle.gate_types.specs.declared.records.Id.{Id as IdOf};
ghost use Rattle.gate_archive_queries.specs.Deliveries.{IsFirstOf, accepted_shown};
ghost use Rattle.gate_archive_queries.specs.declared.delivery_rows.Accepted.{Accepted as Told};

use gate_book_trait::BookFault;
use gate_found_rows::columns::text_in;
use gate_types::names::Text;
use gate_types::records::Id;
use sqlite::Row;
use sqlite::types::ValueRef;

/// What the feed has of an accepted delivery: its id, and its canonical text.
#[derive(Drop)]
pub(crate) struct Accepted {
    pub id: Id,
    pub said: Text,
}

/// Where a delivery stands among all: deliveries are accepted in the order of their rowids.
#[derive(Clone, Copy)]
pub(crate) struct FeedPlace {
    pub rowid: i64,
}

/// An id; `Damaged` where the column holds no 16 bytes.
fn id_in(row: &Row, at: usize) -> Result<Id, BookFault>
    ensures { (id : IdOf) → column row.now at ≡ Blob id.0 → IfOk result (λ found. found ≡ id) }
{
    match row.get_ref(at) {
        Ok(ValueRef::Blob(bytes)) => match <[u8; 16]>::try_from(bytes) {
            Ok(bytes) => Ok(Id(bytes)),
            Err(_) => Err(BookFault::Damaged),
        },
        _ => Err(BookFault::Damaged),
    }
}

/// The delivery of a row; `Damaged` where a column isn't in form, `NoMemory` where memory is refused.
pub(crate) fn accepted_in(row: &Row) -> Result<Accepted, BookFault>
    ensures { (a : Told) → row.now ≡ accepted_shown a → IfOk result (λ found. found ≡ a) }
{
    Ok(Accepted {
        id: id_in(row, 0)?,
        said: Text::new(text_in(row, 1)?),
    })
}

/// A place as a parameter.
pub(crate) fn place_value<'a>(place: &FeedPlace) -> ValueRef<'a>
    ensures { owned result ≡ Int place.now.rowid }
{
    ValueRef::Int(place.rowid)
}

/// The place in the first row, if there is one; `Damaged` where the column holds no integer.
pub(crate) fn first_place(rows: &[Row]) -> Result<Option<FeedPlace>, BookFault>
    ensures { IfOk result (IsFirstOf rows.now) }
{
    match rows {
        [] => Ok(None),
        [row, ..] => match row.get_ref(0) {
            Ok(ValueRef::Int(rowid)) => Ok(Some(FeedPlace { rowid })),
            _ => Err(BookFault::Damaged),
        },
    }
}
