//! A ready change enters its queue: whether it may, and the edits that stand for it.
ghost use Rattle.std.specs.Prelude.{◌≡◌, ◌&&◌, ◌+◌, ◌++◌, not, find, Some, is_some, option_map, option_and_then, IfOk};
ghost use Rattle.std.specs.Prelude.{OnOk};
ghost use Rattle.std.specs.List.{list_all};
ghost use Rattle.gate_types.specs.State.{State, known_change};
ghost use Rattle.gate_types.specs.Standing.{needs_of};
ghost use Rattle.gate_types.specs.Admit.{may_enter, entered};
ghost use Rattle.gate_book_trait.specs.Faults.{MayAnswer};
ghost use Rattle.gate_book_trait.specs.Reading.{IsRead, IsReadUnder};
ghost use Rattle.gate_book_trait.specs.Reads.{items_in};
ghost use Rattle.gate_admission.specs.Led.{IsLed};
ghost use Rattle.gate_admission.specs.Known.{IsQueue};
ghost use Rattle.gate_admission.specs.Enters.{is_met_by_rows, met_by_rows, AreMetBy, AreMetWithRoom, ahead_after};
ghost use Rattle.gate_admission.specs.Enters.{ahead_of_next, entering_row, entering_edits, unready};
ghost use Rattle.gate_admission.specs.Seen.{last_put};
ghost use Rattle.gate_admission.specs.Entrants.{IsEntrant, TellsEntrant};

use crate::items::{item_in, last_item};
use crate::known_changes::{known, last_put, needs_with};
use crate::room::has_room;
use gate_book_trait::{Book, BookFault};
use gate_types::config::{Config, Project};
use gate_types::edits::{Counter, Edit};
use gate_types::names::{Name, NoMemory};
use gate_types::numbers::Serial;
use gate_types::records::{Change, Item, Need, Plan, Ready};
use std::alloc::Global;

/// A ready change that may enter its queue, and what was found out on the way: what is known of the change, its
/// project, and whether one of its needs is a failing item.
#[derive(Drop)]
pub(crate) struct Entrant<'c> {
    pub ready: Ready,
    pub change: Change,
    pub project: &'c Project,
    pub failing: bool,
}

fn is_fine(row: Option<Item>) -> Option<bool>
    ensures { result ≡ option_map (λ r. not r.failing) row }
{
    match row {
        Some(row) => Some(!row.failing),
        None => None,
    }
}

/// Whether a need has landed or its item isn't failing; none where it neither has landed nor is an item of the queue.
fn met<B: Book>(
    book: &mut B,
    edits: &[Edit],
    queue: &Name,
    need: &Need,
) -> Result<Option<bool>, BookFault>
    ensures { IsRead B.IsTrusted B.Holds B.LeavesOneOf (MayAnswer B.MayFault) book.old book.new (λ c x.
        (v : State) → IsLed c x edits.now v →
        IsQueue v queue.now → IfOk result (λ met. met ≡ met_by_rows (items_in c v queue.now) need.now)) result }
{
    if need.landed {
        return Ok(Some(true));
    }
    Ok(is_fine(item_in(book, edits, queue, need.change)?))
}

/// `&&` as a function, for the proof's sake: in the loop itself it would split the turn into two cases.
fn conjunction(first: bool, second: bool) -> bool
    ensures { result ≡ (first && second) }
{
    first && second
}

/// The same of each need: none where that of one is none.
fn all_met<B: Book>(
    book: &mut B,
    edits: &[Edit],
    queue: &Name,
    needs: &[Need],
) -> Result<Option<bool>, BookFault>
    ensures { IsRead B.IsTrusted B.Holds B.LeavesOneOf (MayAnswer B.MayFault) book.old book.new (λ c x.
        (v : State) → IsLed c x edits.now v →
        IsQueue v queue.now → IfOk result (AreMetBy (items_in c v queue.now) needs.now)) result }
{
    let mut all_fine = true;
    for need in needs {
        let Some(fine) = met(book, edits, queue, need)? else {
            return Ok(None);
        };
        all_fine = conjunction(all_fine, fine);
    }
    Ok(Some(all_fine))
}

/// The same, and none where the queue has no room.
fn all_met_with_room<B: Book>(
    book: &mut B,
    edits: &[Edit],
    queue: &Name,
    needs: &[Need],
) -> Result<Option<bool>, BookFault>
    ensures { IsRead B.IsTrusted B.Holds B.LeavesOneOf (MayAnswer B.MayFault) book.old book.new (λ c x.
        (v : State) → IsLed c x edits.now v →
        IsQueue v queue.now → IfOk result (AreMetWithRoom c v queue.now needs.now)) result }
{
    let Some(fine) = all_met(book, edits, queue, needs)? else {
        return Ok(None);
    };
    if !has_room(book, edits, queue)? {
        return Ok(None);
    }
    Ok(Some(fine))
}

/// A ready change with what it enters by; none where it may not enter its queue.
pub(crate) fn if_may_enter<'c, B: Book>(
    alloc: Global,
    book: &mut B,
    config: &'c Config,
    edits: &[Edit],
    ready: Ready,
) -> Result<Option<Entrant<'c>>, BookFault>
    ensures { IsReadUnder B.IsTrusted B.Holds B.LeavesOneOf (MayAnswer B.MayFault) book.old book.new config.now (λ x.
        (v : State) → IsLed config.now x edits.now v → IfOk result (TellsEntrant config.now v ready)) result }
{
    config.show_sound();
    let Some(change) = known(book, edits, ready.change)? else {
        return Ok(None);
    };
    let Some(project) = config.project(change.project.as_str()) else {
        return Ok(None);
    };
    let needs = needs_with(alloc, book, edits, change.needs.as_slice())?;
    let Some(fine) = all_met_with_room(book, edits, &project.queue, needs.as_slice())? else {
        return Ok(None);
    };
    Ok(Some(Entrant {
        ready,
        change,
        project,
        failing: !fine,
    }))
}

fn ahead_after(row: Option<Item>) -> Option<Serial>
    ensures { result ≡ option_and_then ahead_after row }
{
    match row {
        Some(row) => {
            if row.failing {
                row.ahead
            } else {
                Some(row.serial)
            }
        }
        None => None,
    }
}

/// The serial of the last item that isn't failing, where `next` is above all serials.
fn ahead_behind<B: Book>(
    book: &mut B,
    edits: &[Edit],
    queue: &Name,
    next: Serial,
) -> Result<Option<Serial>, BookFault>
    ensures { IsRead B.IsTrusted B.Holds B.LeavesOneOf (MayAnswer B.MayFault) book.old book.new (λ c x.
        (v : State) → IsLed c x edits.now v → IsQueue v queue.now → next ≡ v.counters.order + 1 →
        IfOk result (λ ahead. ahead ≡ ahead_of_next (items_in c v queue.now))) result }
{
    Ok(ahead_after(last_item(book, edits, queue, next)?))
}

/// The row of a change that enters a queue under the next serial, where it is known whether a need is a failing item.
fn entering_row<B: Book>(
    book: &mut B,
    edits: &[Edit],
    queue: &Name,
    change: &Change,
    failing: bool,
    serial: Serial,
) -> Result<Item, BookFault>
    ensures { IsRead B.IsTrusted B.Holds B.LeavesOneOf (MayAnswer B.MayFault) book.old book.new (λ c x.
        (v : State) → IsLed c x edits.now v → known_change v change.now.number ≡ Some change.now →
        failing ≡ not (list_all (is_met_by_rows (items_in c v queue.now)) (needs_of v change.now.number)) →
        IsQueue v queue.now → serial ≡ v.counters.order + 1 →
        IfOk result (λ row. row ≡ entering_row v (items_in c v queue.now) change.now.number)) result }
{
    let ahead = ahead_behind(book, edits, queue, serial)?;
    Ok(Item {
        serial,
        change: change.number,
        revision: change.revision,
        ahead,
        failing,
    })
}

/// The edit by which a change is ready no longer. Where the edits put its row, it is put once more: of two puts only
/// the later one is made, but a stage would be set beside a put.
fn unready(edits: &[Edit], change: Change) -> Edit
    ensures { result ≡ unready (is_some (last_put change.number edits.now)) change }
{
    match last_put(edits, change.number) {
        Some(_) => Edit::PutChange {
            change,
            approval: None,
        },
        None => Edit::SetStage {
            change: change.number,
            stage: change.stage,
        },
    }
}

fn push_entering(
    edits: &mut Vec<Edit>,
    queue: Name,
    change: Change,
    row: Item,
    plan: Plan,
) -> Result<(), NoMemory>
    ensures { OnOk result (edits.new.items ≡ edits.old.items
        ++ entering_edits queue (is_some (last_put change.number edits.old.items)) change row plan) }
{
    let Item { serial, .. } = row;
    let unready = unready(edits.as_slice(), change);
    edits.push(Edit::PutItem { queue, item: row })?;
    edits.push(Edit::PutPlan(plan))?;
    edits.push(unready)?;
    edits.push(Edit::SetCounter {
        counter: Counter::Order,
        drawn: serial.get(),
    })?;
    Ok(())
}

/// Puts the edits of a ready change that enters its queue under the next serial behind the others.
pub(crate) fn enter<B: Book>(
    book: &mut B,
    config: &Config,
    edits: &mut Vec<Edit>,
    entrant: Entrant<'_>,
    serial: Serial,
) -> Result<(), BookFault>
    ensures { IsReadUnder B.IsTrusted B.Holds B.LeavesOneOf (MayAnswer B.MayFault) book.old book.new config.now (λ x.
        (v : State) →
        IsLed config.now x edits.old.items v → find (may_enter config.now v) v.ready ≡ Some entrant.entry.ready →
        IsEntrant config.now v entrant.entry → serial ≡ v.counters.order + 1 →
        OnOk result (IsLed config.now x edits.new.items (entered config.now v entrant.entry.ready))) result }
{
    config.show_sound();
    let Entrant {
        change,
        project,
        failing,
        ..
    } = entrant;
    let row = entering_row(
        book,
        edits.as_slice(),
        &project.queue,
        &change,
        failing,
        serial,
    )?;
    let queue = project.queue.copy()?;
    let plan = Plan::of_project(project, serial)?;
    push_entering(edits, queue, change, row, plan)?;
    Ok(())
}
