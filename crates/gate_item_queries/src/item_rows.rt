//! Items from the rows that a query shows.
ghost use Rattle.std.specs.Prelude.{◌≡◌, ◌<◌, true, List, map, option_map, slice_get, IfOk, IfSome};
ghost use Rattle.std.specs.List.{AllPass};
ghost use Rattle.gate_book_trait.specs.Reads.{Answers};
ghost use Rattle.gate_schema.specs.Rows.{ItemRow};
ghost use Rattle.gate_schema.specs.Shown.{item_shown};
ghost use Rattle.gate_found_rows.specs.Asked.{queued_item_of};
ghost use Rattle.gate_found_rows.specs.Whole.{is_item_row_in_form};

use gate_book_trait::{BookFault, QueuedItem};
use gate_found_rows::columns::{
    change_in, flag_in, name_in, revision_in, serial_if_any_in, serial_in,
};
use gate_types::records::Item;
use gate_types::sequence::Sequence;
use sqlite::Row;
use std::alloc::Global;

/// The item of a row; `Damaged` where a column isn't in form.
fn item_in(row: &Row) -> Result<Item, BookFault>
    ensures { (i : ItemRow) → row.now ≡ item_shown i → is_item_row_in_form i ≡ true → Answers i.item result }
{
    Ok(Item {
        serial: serial_in(row, 0)?,
        change: change_in(row, 2)?,
        revision: revision_in(row, 3)?,
        ahead: serial_if_any_in(row, 4)?,
        failing: flag_in(row, 5)?,
    })
}

/// The item of a row, and its queue's name.
fn queued_in(row: &Row) -> Result<QueuedItem, BookFault>
    ensures { (i : ItemRow) → row.now ≡ item_shown i → is_item_row_in_form i ≡ true →
        Answers (queued_item_of i) result }
{
    Ok(QueuedItem {
        queue: name_in(row, 1)?,
        item: item_in(row)?,
    })
}

/// The item of the first row, if there is one.
pub(crate) fn first_item(rows: &[Row]) -> Result<Option<Item>, BookFault>
    ensures { (is : List ItemRow) → rows.now ≡ map item_shown is → AllPass is_item_row_in_form is →
        Answers (option_map (λ (i : ItemRow). i.item) (slice_get is 0)) result }
{
    match rows {
        [] => Ok(None),
        [row, ..] => Ok(Some(item_in(row)?)),
    }
}

/// The item of the first row, and its queue's name, if there is one.
pub(crate) fn first_queued(rows: &[Row]) -> Result<Option<QueuedItem>, BookFault>
    ensures { (is : List ItemRow) → rows.now ≡ map item_shown is → AllPass is_item_row_in_form is →
        Answers (option_map queued_item_of (slice_get is 0)) result }
{
    match rows {
        [] => Ok(None),
        [row, ..] => Ok(Some(queued_in(row)?)),
    }
}

/// The items of all rows, in their order.
pub(crate) fn all_items(alloc: Global, rows: &[Row]) -> Result<Sequence<Item>, BookFault>
    ensures { (is : List ItemRow) → rows.now ≡ map item_shown is → AllPass is_item_row_in_form is →
        Answers (map (λ (i : ItemRow). i.item) is) result }
{
    let mut items = Vec::with_capacity(alloc, rows.len())?;
    for row in rows {
        let item = item_in(row)?;
        // The borrow checker has to see the type of the optional field.
        let _ahead = item.ahead;
        items.push_reserved(item);
    }
    Ok(Sequence::from_vec(items))
}

/// The item of the first row, if there is one; `Damaged` where its serial isn't above `above`.
pub(crate) fn first_above(rows: &[Row], above: u64) -> Result<Option<Item>, BookFault>
    ensures found { (is : List ItemRow) → rows.now ≡ map item_shown is → AllPass is_item_row_in_form is →
        IfSome (slice_get is 0) (λ (i : ItemRow). above < i.item.serial) →
        Answers (option_map (λ (i : ItemRow). i.item) (slice_get is 0)) result }
    ensures rises { IfOk result (λ found. IfSome found (λ i. above < i.serial)) }
{
    let found = first_item(rows)?;
    let fits = match &found {
        Some(item) => above < item.serial.get(),
        None => true,
    };
    if fits {
        Ok(found)
    } else {
        Err(BookFault::Damaged)
    }
}

/// The item of the first row, if there is one; `Damaged` where its serial isn't below `below`.
pub(crate) fn first_below(rows: &[Row], below: u64) -> Result<Option<Item>, BookFault>
    ensures found { (is : List ItemRow) → rows.now ≡ map item_shown is → AllPass is_item_row_in_form is →
        IfSome (slice_get is 0) (λ (i : ItemRow). i.item.serial < below) →
        Answers (option_map (λ (i : ItemRow). i.item) (slice_get is 0)) result }
    ensures falls { IfOk result (λ found. IfSome found (λ i. i.serial < below)) }
{
    let found = first_item(rows)?;
    let fits = match &found {
        Some(item) => item.serial.get() < below,
        None => true,
    };
    if fits {
        Ok(found)
    } else {
        Err(BookFault::Damaged)
    }
}
