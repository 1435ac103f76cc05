//! The items of a queue, as they are after edits.
ghost use Rattle.std.specs.Prelude.{◌≡◌, ◌<◌, ◌+◌, fold, IfOk, IfErr, IfSome, option_map, option_and_then};
ghost use Rattle.gate_types.specs.State.{State};
ghost use Rattle.gate_book_trait.specs.Faults.{MayAnswer};
ghost use Rattle.gate_book_trait.specs.Kept.{OfHeld, IsKept};
ghost use Rattle.gate_book_trait.specs.Reading.{IsRead};
ghost use Rattle.gate_book_trait.specs.Reads.{items_in, last_item_below, queued_of};
ghost use Rattle.gate_admission.specs.Led.{IsLed};
ghost use Rattle.gate_admission.specs.Seen as seen;
ghost use Rattle.gate_admission.specs.declared.items.Fate.TheVariants as fate;
ghost use Rattle.gate_admission.specs.Known.{IsQueue};
ghost use Rattle.gate_admission.specs.Enters.{row_of_change, last_row};

use gate_book_trait::{Book, BookFault};
use gate_types::edits::Edit;
use gate_types::names::{Name, same_name};
use gate_types::numbers::{ChangeNo, Serial};
use gate_types::records::Item;

fn at_serial(item: Option<Item>, serial: Serial) -> Option<Item>
    ensures { result ≡ option_and_then (seen.if_at serial) item }
{
    match item {
        Some(item) => (item.serial == serial).then_some(item),
        None => None,
    }
}

/// The item of a serial in a queue, as it is stored.
fn stored_item<B: Book>(
    book: &mut B,
    queue: &Name,
    serial: Serial,
) -> Result<Option<Item>, BookFault>
    ensures { IsRead B.IsTrusted B.Holds B.LeavesOneOf (MayAnswer B.MayFault) book.old book.new (λ c x.
        IfOk result (λ found. found ≡ seen.row_of_serial serial (items_in c x.state queue.now))) result }
{
    Ok(at_serial(book.next_item(queue, serial.get() - 1)?, serial))
}

/// What edits make of the item of a serial in a queue.
#[derive(Clone, Copy)]
pub enum Fate {
    Stays,
    Put(Item),
    Dropped,
}

fn after(queue: &Name, serial: Serial, before: Fate, edit: &Edit) -> Fate
    ensures { result ≡ seen.fate_after queue.now serial before edit.now }
{
    match edit {
        Edit::PutItem {
            queue: name,
            item: put,
        } if same_name(name, queue) && put.serial == serial => Fate::Put(*put),
        Edit::DropItem(dropped) if *dropped == serial => Fate::Dropped,
        Edit::LandItem(landed) if *landed == serial => Fate::Dropped,
        _ => before,
    }
}

fn made_of(queue: &Name, serial: Serial, edits: &[Edit]) -> Fate
    ensures { result ≡ fold (seen.fate_after queue.now serial) fate.Stays edits.now }
{
    let mut found = Fate::Stays;
    for edit in edits {
        found = after(queue, serial, found, edit);
    }
    found
}

fn by_fate(stored: Option<Item>, fate: Fate) -> Option<Item>
    ensures { result ≡ seen.by_fate stored fate }
{
    match fate {
        Fate::Stays => stored,
        Fate::Put(item) => Some(item),
        Fate::Dropped => None,
    }
}

/// The item of a serial in a queue, after the edits. The store is asked where no edit decides.
pub(crate) fn item_at<B: Book>(
    book: &mut B,
    edits: &[Edit],
    queue: &Name,
    serial: Serial,
) -> Result<Option<Item>, BookFault>
    ensures { IsRead B.IsTrusted B.Holds B.LeavesOneOf (MayAnswer B.MayFault) book.old book.new (λ c x.
        IfOk result (λ found.
        let items = seen.items_after queue.now (items_in c x.state queue.now) edits.now in
        found ≡ seen.row_of_serial serial items)) result }
{
    match made_of(queue, serial, edits) {
        Fate::Stays => stored_item(book, queue, serial),
        Fate::Put(item) => Ok(Some(item)),
        Fate::Dropped => Ok(None),
    }
}

fn of_change(item: Option<Item>, change: ChangeNo) -> Option<Item>
    ensures { result ≡ option_and_then (seen.if_of change) item }
{
    match item {
        Some(item) => (item.change == change).then_some(item),
        None => None,
    }
}

/// The same, if it is of this change.
fn item_if<B: Book>(
    book: &mut B,
    edits: &[Edit],
    queue: &Name,
    serial: Serial,
    change: ChangeNo,
) -> Result<Option<Item>, BookFault>
    ensures { IsRead B.IsTrusted B.Holds B.LeavesOneOf (MayAnswer B.MayFault) book.old book.new (λ c x.
        IfOk result (λ found. found ≡ seen.item_if change serial (seen.items_after queue.now
        (items_in c x.state queue.now) edits.now))) result }
{
    Ok(of_change(item_at(book, edits, queue, serial)?, change))
}

/// The serial under which an edit puts a change, if it puts this one.
fn serial_put(edit: &Edit, change: ChangeNo) -> Option<Serial>
    ensures { result ≡ seen.serial_put change edit.now }
{
    match edit {
        Edit::PutItem { item, .. } if item.change == change => Some(item.serial),
        _ => None,
    }
}

/// The first item of a change among those whose serials edits put under it.
fn item_put<B: Book>(
    book: &mut B,
    edits: &[Edit],
    queue: &Name,
    change: ChangeNo,
) -> Result<Option<Item>, BookFault>
    ensures { IsRead B.IsTrusted B.Holds B.LeavesOneOf (MayAnswer B.MayFault) book.old book.new (λ c x.
        IfOk result (λ found. found ≡
        seen.item_put change (seen.items_after queue.now (items_in c x.state queue.now) edits.now) edits.now)) result }
{
    for edit in edits {
        if let Some(serial) = serial_put(edit, change) {
            if let Some(item) = item_if(book, edits, queue, serial, change)? {
                return Ok(Some(item));
            }
        }
    }
    Ok(None)
}

/// The item of a change where it was stored, if it still stands there.
fn item_left<B: Book>(
    book: &mut B,
    edits: &[Edit],
    queue: &Name,
    change: ChangeNo,
) -> Result<Option<Item>, BookFault>
    ensures { IsRead B.IsTrusted B.Holds B.LeavesOneOf (MayAnswer B.MayFault) book.old book.new (λ c x.
        IfOk result (λ found. found ≡ seen.item_left change (queued_of c x.state change)
        (seen.items_after queue.now (items_in c x.state queue.now) edits.now))) result }
{
    match book.queued(change)? {
        Some(stored) => item_if(book, edits, queue, stored.item.serial, change),
        None => Ok(None),
    }
}

/// The item of a change in a queue, after the edits. The store is asked where they don't put it.
pub fn item_in<B: Book>(
    book: &mut B,
    edits: &[Edit],
    queue: &Name,
    change: ChangeNo,
) -> Result<Option<Item>, BookFault>
    ensures { IsRead B.IsTrusted B.Holds B.LeavesOneOf (MayAnswer B.MayFault) book.old book.new (λ c x.
        (v : State) → IsLed c x edits.now v →
        IsQueue v queue.now → IfOk result (λ found. found ≡ row_of_change change (items_in c v queue.now))) result }
{
    match item_put(book, edits, queue, change)? {
        Some(item) => Ok(Some(item)),
        None => item_left(book, edits, queue, change),
    }
}

fn put_below(queue: &Name, below: u64, edit: &Edit) -> Option<Serial>
    ensures value { result ≡ seen.put_below queue.now below edit.now }
{
    match edit {
        Edit::PutItem { queue: name, item }
            if same_name(name, queue) && item.serial.get() < below => Some(item.serial),
        _ => None,
    }
}

fn later(a: Option<Serial>, b: Option<Serial>) -> Option<Serial>
    ensures value { result ≡ seen.later a b }
{
    match (a, b) {
        (None, b) => b,
        (a, None) => a,
        (Some(a), Some(b)) => Some(if a < b { b } else { a }),
    }
}

fn last_put_below(queue: &Name, below: u64, edits: &[Edit]) -> Option<Serial>
    ensures value { result ≡ seen.last_put_below queue.now below edits.now }
{
    let mut last = None;
    for edit in edits {
        last = later(last, put_below(queue, below, edit));
    }
    last
}

fn serial_of(item: &Option<Item>) -> Option<Serial>
    ensures { result ≡ option_map (λ i. i.serial) item.now }
{
    match item {
        Some(item) => Some(item.serial),
        None => None,
    }
}

/// A serial of a queue, and its item after edits: none where they drop it.
#[derive(Clone, Copy)]
struct Below {
    serial: Serial,
    item: Option<Item>,
}

/// The greatest serial below one that is stored in a queue or put into it by the edits, with its item after them.
fn next_below<B: Book>(
    book: &mut B,
    edits: &[Edit],
    queue: &Name,
    below: u64,
) -> Result<Option<Below>, BookFault>
    ensures serial { OfHeld B.IsTrusted B.Holds book.old book.new (λ c x. IfOk result (λ found.
        option_map (λ b. b.serial) found ≡ seen.later (seen.last_put_below queue.now below edits.now)
        (option_map (λ i. i.serial) (last_item_below below (items_in c x.state queue.now))))) }
    ensures item { OfHeld B.IsTrusted B.Holds book.old book.new (λ c x. IfOk result (λ found. IfSome found (λ b. b.item
        ≡ seen.row_of_serial b.serial (seen.items_after queue.now (items_in c x.state queue.now) edits.now)))) }
    ensures falls { IfOk result (λ found. IfSome found (λ b. b.serial < below)) }
    ensures kept { IsKept B.IsTrusted B.Holds B.LeavesOneOf book.old book.new }
    ensures fault { IfErr result (MayAnswer B.MayFault) }
{
    let stored = book.last_item(queue, below)?;
    let put = last_put_below(queue, below, edits);
    let Some(serial) = later(put, serial_of(&stored)) else {
        return Ok(None);
    };
    let before = at_serial(stored, serial);
    let fate = made_of(queue, serial, edits);
    let item = by_fate(before, fate);
    Ok(Some(Below { serial, item }))
}

/// The last item of a queue with a lower serial than `below`, after the edits.
fn last_below<B: Book>(
    book: &mut B,
    edits: &[Edit],
    queue: &Name,
    below: u64,
) -> Result<Option<Item>, BookFault>
    ensures { IsRead B.IsTrusted B.Holds B.LeavesOneOf (MayAnswer B.MayFault) book.old book.new (λ c x.
        IfOk result (λ found. found ≡
        last_item_below below (seen.items_after queue.now (items_in c x.state queue.now) edits.now))) result }
{
    let mut end = below;
    while let Some(next) = next_below(book, edits, queue, end)? {
        let item = next.item;
        if item.is_some() {
            return Ok(item);
        }
        end = next.serial.get();
    }
    Ok(None)
}

/// The last item of a queue after the edits, where `next` is above all serials.
pub(crate) fn last_item<B: Book>(
    book: &mut B,
    edits: &[Edit],
    queue: &Name,
    next: Serial,
) -> Result<Option<Item>, BookFault>
    ensures { IsRead B.IsTrusted B.Holds B.LeavesOneOf (MayAnswer B.MayFault) book.old book.new (λ c x.
        (v : State) → IsLed c x edits.now v → IsQueue v queue.now → next ≡ v.counters.order + 1 →
        IfOk result (λ found. found ≡ last_row (items_in c v queue.now))) result }
{
    last_below(book, edits, queue, next.get())
}
