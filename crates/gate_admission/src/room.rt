//! Whether a queue has room, after edits.
ghost use Rattle.std.specs.Prelude.{◌≡◌, ◌≤◌, ◌<◌, ◌+◌, true, false, length, IfOk, MatchOption};
ghost use Rattle.std.specs.List.{list_any};
ghost use Rattle.std.specs.Option.{option_copied};
ghost use Rattle.gate_types.specs.State.{State};
ghost use Rattle.gate_book_trait.specs.Faults.{MayAnswer};
ghost use Rattle.gate_book_trait.specs.Reading.{IsRead};
ghost use Rattle.gate_book_trait.specs.Reads.{items_in, item_count};
ghost use Rattle.gate_admission.specs.Led.{IsLed};
ghost use Rattle.gate_admission.specs.Seen as seen;
ghost use Rattle.gate_admission.specs.Known.{IsQueue, has_room};
ghost use Rattle.gate_admission.specs.Candidates as candidate;

use crate::items::item_at;
use gate_book_trait::{Book, BookFault};
use gate_types::edits::Edit;
use gate_types::limits::MOST_ITEMS;
use gate_types::names::{Name, same_name};
use gate_types::numbers::Serial;

/// Whether an edit after others puts an item into a queue where none had its serial.
fn grows<B: Book>(
    book: &mut B,
    before: &[Edit],
    queue: &Name,
    edit: &Edit,
) -> Result<bool, BookFault>
    ensures { IsRead B.IsTrusted B.Holds B.LeavesOneOf (MayAnswer B.MayFault) book.old book.new (λ c x.
        IfOk result (λ grows. grows ≡
        seen.grows queue.now (seen.items_after queue.now (items_in c x.state queue.now) before.now) edit.now)) result }
{
    match edit {
        Edit::PutItem { queue: name, item } if same_name(name, queue) => {
            Ok(item_at(book, before, queue, item.serial)?.is_none())
        }
        _ => Ok(false),
    }
}

/// Whether an edit after others drops an item of a queue, or lands it.
fn shrinks<B: Book>(
    book: &mut B,
    before: &[Edit],
    queue: &Name,
    edit: &Edit,
) -> Result<bool, BookFault>
    ensures { IsRead B.IsTrusted B.Holds B.LeavesOneOf (MayAnswer B.MayFault) book.old book.new (λ c x.
        IfOk result (λ shrinks. shrinks ≡
        seen.shrinks (seen.items_after queue.now (items_in c x.state queue.now) before.now) edit.now)) result }
{
    match edit {
        Edit::DropItem(serial) | Edit::LandItem(serial) => {
            Ok(item_at(book, before, queue, *serial)?.is_some())
        }
        _ => Ok(false),
    }
}

fn one_more_if(is_more: bool, count: usize) -> usize
    requires { count < 18446744073709551615 }
    ensures { result ≡ count + seen.one_if is_more }
{
    if is_more { count + 1 } else { count }
}

/// How many items edits add to a queue, and how many they drop from it.
#[derive(Clone, Copy)]
struct Moves {
    added: usize,
    dropped: usize,
}

fn count_moves<B: Book>(book: &mut B, edits: &[Edit], queue: &Name) -> Result<Moves, BookFault>
    ensures reads { IsRead B.IsTrusted B.Holds B.LeavesOneOf (MayAnswer B.MayFault) book.old book.new (λ c x.
        IfOk result (λ moves.
        length (seen.items_after queue.now (items_in c x.state queue.now) edits.now) + moves.dropped ≡
        length (items_in c x.state queue.now) + moves.added)) result }
    ensures few { IfOk result (λ moves. (moves.added ≤ length edits.now) × (moves.dropped ≤ length edits.now)) }
{
    let mut added = 0;
    let mut dropped = 0;
    for index in 0..edits.len() {
        let before = &edits[..index];
        let edit = &edits[index];
        let is_more = grows(book, before, queue, edit)?;
        let is_less = shrinks(book, before, queue, edit)?;
        added = one_more_if(is_more, added);
        dropped = one_more_if(is_less, dropped);
    }
    Ok(Moves { added, dropped })
}

/// How many serials there are from one to another.
fn serials_between(first: Serial, last: Serial) -> u64
    ensures { last < first + result }
{
    if last < first {
        1
    } else {
        last.get() - first.get() + 1
    }
}

/// No fewer than a queue has items, by its first and its last serial: 0 where there is none.
fn most_items<B: Book>(book: &mut B, queue: &Name) -> Result<u64, BookFault>
    ensures { IsRead B.IsTrusted B.Holds B.LeavesOneOf (MayAnswer B.MayFault) book.old book.new (λ c x.
        IfOk result (λ most. item_count c x.state queue.now ≤ most)) result }
{
    let Some(first) = book.next_item(queue, 0)? else {
        return Ok(0);
    };
    let Some(last) = book.last_item(queue, u64::MAX)? else {
        return Ok(0);
    };
    Ok(serials_between(first.serial, last.serial))
}

/// Whether a queue has its 1,000 items. They are counted only where its serials allow so many.
fn is_full<B: Book>(book: &mut B, queue: &Name) -> Result<bool, BookFault>
    ensures { IsRead B.IsTrusted B.Holds B.LeavesOneOf (MayAnswer B.MayFault) book.old book.new (λ c x.
        IfOk result (λ is. is ≡ candidate.is_full x.state queue.now)) result }
{
    if most_items(book, queue)? < MOST_ITEMS {
        return Ok(false);
    }
    Ok(book.item_count(queue)? >= MOST_ITEMS)
}

/// The queue that an edit reports a leaving item of.
fn reported(edit: &Edit) -> Option<&Name>
    ensures { option_copied result ≡ candidate.reported edit.now }
{
    match edit {
        Edit::PutReport { queue, .. } => Some(queue),
        _ => None,
    }
}

/// The first queue that edits report a leaving item of.
fn first_reported(edits: &[Edit]) -> Option<&Name>
    ensures { (s : State) → MatchOption result (list_any (candidate.makes_room s) edits.now ≡ false)
        (λ queue. candidate.is_full s queue.now ≡ true → list_any (candidate.makes_room s) edits.now ≡ true) }
{
    for edit in edits {
        let queue = reported(edit);
        if queue.is_some() {
            return queue;
        }
    }
    None
}

/// Whether an edit reports that an item leaves a full queue, where this one isn't full.
fn makes_room<B: Book>(book: &mut B, edit: &Edit, queue: &Name) -> Result<bool, BookFault>
    ensures { IsRead B.IsTrusted B.Holds B.LeavesOneOf (MayAnswer B.MayFault) book.old book.new (λ c x.
        candidate.is_full x.state queue.now ≡ false →
        IfOk result (λ makes. makes ≡ candidate.makes_room x.state edit.now)) result }
{
    let Some(other) = reported(edit) else {
        return Ok(false);
    };
    if same_name(other, queue) {
        return Ok(false);
    }
    is_full(book, other)
}

/// The same of some edits. It asks about no queue but others: by a delivery one queue loses items.
fn others_make_room<B: Book>(book: &mut B, edits: &[Edit], queue: &Name) -> Result<bool, BookFault>
    ensures { IsRead B.IsTrusted B.Holds B.LeavesOneOf (MayAnswer B.MayFault) book.old book.new (λ c x.
        candidate.is_full x.state queue.now ≡ false →
        IfOk result (λ make. make ≡ list_any (candidate.makes_room x.state) edits.now)) result }
{
    for edit in edits {
        if makes_room(book, edit, queue)? {
            return Ok(true);
        }
    }
    Ok(false)
}

/// Whether an item leaves a queue that was full.
pub(crate) fn make_room<B: Book>(book: &mut B, edits: &[Edit]) -> Result<bool, BookFault>
    ensures { IsRead B.IsTrusted B.Holds B.LeavesOneOf (MayAnswer B.MayFault) book.old book.new (λ c x.
        IfOk result (λ make. make ≡ list_any (candidate.makes_room x.state) edits.now)) result }
{
    let Some(queue) = first_reported(edits) else {
        return Ok(false);
    };
    if is_full(book, queue)? {
        return Ok(true);
    }
    others_make_room(book, edits, queue)
}

/// Whether a queue has fewer than 1,000 items after the edits.
pub(crate) fn has_room<B: Book>(
    book: &mut B,
    edits: &[Edit],
    queue: &Name,
) -> Result<bool, BookFault>
    ensures { IsRead B.IsTrusted B.Holds B.LeavesOneOf (MayAnswer B.MayFault) book.old book.new (λ c x.
        (v : State) → IsLed c x edits.now v →
        IsQueue v queue.now → IfOk result (λ has. has ≡ has_room v queue.now)) result }
{
    let most = most_items(book, queue)?;
    if u128::from(most) + (edits.len() as u128) < (MOST_ITEMS as u128) {
        return Ok(true);
    }
    let items = book.item_count(queue)?;
    let moves = count_moves(book, edits, queue)?;
    Ok(u128::from(items) + (moves.added as u128) < (MOST_ITEMS as u128) + (moves.dropped as u128))
}
