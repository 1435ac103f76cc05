//! The candidates after a delivery: changes that might enter by what it did, so that the others aren't looked up.
ghost use Rattle.std.specs.Prelude.{◌≡◌, ◌++◌, not, fold, filter, IfOk, OnOk, ℕ};
ghost use Rattle.std.specs.List.{list_any};
ghost use Rattle.std.specs.Ordering.{nat_cmp};
ghost use Rattle.std.specs.BTreeMap.{get};
ghost use Rattle.gate_types.specs.State.{State};
ghost use Rattle.gate_book_trait.specs.Faults.{MayAnswer};
ghost use Rattle.gate_book_trait.specs.Reading.{IsRead};
ghost use Rattle.gate_admission.specs.Led.{IsLed};
ghost use Rattle.gate_admission.specs.Candidates as candidate;
ghost use Rattle.gate_admission.specs.Candidates.{AreCandidates, AreOthers, EntersByEdits, change_under};

use crate::ready::{ready_list, ready_put};
use crate::room::make_room;
use gate_book_trait::{Book, BookFault};
use gate_types::edits::Edit;
use gate_types::names::NoMemory;
use gate_types::numbers::ChangeNo;
use gate_types::records::{Ready, Stage};
use std::alloc::Global;
use std::collections::BTreeMap;

fn puts(edit: &Edit, number: ChangeNo) -> bool
    ensures { result ≡ candidate.puts_or_sets number edit.now }
{
    match edit {
        Edit::PutChange { change, .. } => change.number == number,
        Edit::SetStage { change, .. } => *change == number,
        _ => false,
    }
}

fn are_putting(edits: &[Edit], number: ChangeNo) -> bool
    ensures { result ≡ list_any (candidate.puts_or_sets number) edits.now }
{
    edits.iter().any(|edit| puts(edit, number))
}

fn with_left(left: Vec<Ready>, edits: &[Edit], row: Ready) -> Result<Vec<Ready>, NoMemory>
    ensures { IfOk result (λ all. all.items
        ≡ left.items ++ candidate.if_left (list_any (candidate.puts_or_sets row.change) edits.now) row) }
{
    let mut all = left;
    if !are_putting(edits, row.change) {
        all.push(row)?;
    }
    Ok(all)
}

fn without_put(alloc: Global, rows: &[Ready], edits: &[Edit]) -> Result<Vec<Ready>, NoMemory>
    ensures { IfOk result (λ left. left.items
        ≡ filter (λ r. not (list_any (candidate.puts_or_sets r.change) edits.now)) rows.now) }
{
    let mut left = Vec::new(alloc);
    for row in rows {
        left = with_left(left, edits, *row)?;
    }
    Ok(left)
}

/// The ready changes that need one, but for those that the edits put or set.
fn left_needing<B: Book>(
    alloc: Global,
    book: &mut B,
    edits: &[Edit],
    change: ChangeNo,
) -> Result<Vec<Ready>, BookFault>
    ensures { IsRead B.IsTrusted B.Holds B.LeavesOneOf (MayAnswer B.MayFault) book.old book.new (λ c x.
        IfOk result (λ rows. rows.items ≡ candidate.left_needing x.state edits.now change)) result }
{
    let rows = book.ready_needing(change)?;
    Ok(without_put(alloc, rows.as_slice(), edits)?)
}

fn is_landing(stage: Stage) -> bool
    ensures { result ≡ candidate.is_landing stage }
{
    matches!(stage, Stage::Landed)
}

/// Those that need a change that an edit puts or sets as landed.
fn let_in_by<B: Book>(
    alloc: Global,
    book: &mut B,
    edits: &[Edit],
    edit: &Edit,
) -> Result<Vec<Ready>, BookFault>
    ensures { IsRead B.IsTrusted B.Holds B.LeavesOneOf (MayAnswer B.MayFault) book.old book.new (λ c x.
        IfOk result (λ rows. rows.items ≡ candidate.let_in_by x.state edits.now edit.now)) result }
{
    match edit {
        Edit::PutChange { change, .. } => {
            if change.is_landed() {
                left_needing(alloc, book, edits, change.number)
            } else {
                Ok(Vec::new(alloc))
            }
        }
        Edit::SetStage { change, stage } => {
            if is_landing(*stage) {
                left_needing(alloc, book, edits, *change)
            } else {
                Ok(Vec::new(alloc))
            }
        }
        _ => Ok(Vec::new(alloc)),
    }
}

fn with_rows(front: Vec<Ready>, back: &[Ready]) -> Result<Vec<Ready>, NoMemory>
    ensures { IfOk result (λ all. all.items ≡ front.items ++ back.now) }
{
    let mut all = front;
    for row in back {
        all.push(*row)?;
    }
    Ok(all)
}

/// The ready changes that the edits put, and those that need a change that they put or set as landed.
fn let_in<B: Book>(alloc: Global, book: &mut B, edits: &[Edit]) -> Result<Vec<Ready>, BookFault>
    ensures { IsRead B.IsTrusted B.Holds B.LeavesOneOf (MayAnswer B.MayFault) book.old book.new (λ c x.
        IfOk result (λ rows. rows.items ≡ candidate.let_in x.state edits.now)) result }
{
    let mut all = ready_put(alloc, edits)?;
    for edit in edits {
        let more = let_in_by(alloc, book, edits, edit)?;
        all = with_rows(all, more.as_slice())?;
    }
    Ok(all)
}

fn add(waiting: &mut BTreeMap<u64, ChangeNo>, row: Ready) -> Result<(), NoMemory>
    ensures { OnOk result ((a : ℕ) → get nat_cmp waiting.new a ≡ change_under a (get nat_cmp waiting.old a) row) }
{
    waiting.insert(row.approval, row.change)?;
    Ok(())
}

fn add_all(waiting: &mut BTreeMap<u64, ChangeNo>, rows: &[Ready]) -> Result<(), NoMemory>
    ensures { OnOk result ((a : ℕ) →
        get nat_cmp waiting.new a ≡ fold (change_under a) (get nat_cmp waiting.old a) rows.now) }
{
    for row in rows {
        add(waiting, *row)?;
    }
    Ok(())
}

/// All who are ready, where a full queue lost an item; else those whom the edits let in.
fn to_look_at<B: Book>(alloc: Global, book: &mut B, edits: &[Edit]) -> Result<Vec<Ready>, BookFault>
    ensures { IsRead B.IsTrusted B.Holds B.LeavesOneOf (MayAnswer B.MayFault) book.old book.new (λ c x.
        (v : State) → IsLed c x edits.now v →
        EntersByEdits c x.state edits.now v → IfOk result (λ rows. candidate.AreToLookAt c v rows.items)) result }
{
    if make_room(book, edits)? {
        ready_list(alloc, book, edits)
    } else {
        let_in(alloc, book, edits)
    }
}

/// The candidates, each under the number of its approval: every change that may enter is among them.
pub(crate) fn candidates<B: Book>(
    alloc: Global,
    book: &mut B,
    edits: &[Edit],
) -> Result<BTreeMap<u64, ChangeNo>, BookFault>
    ensures { IsRead B.IsTrusted B.Holds B.LeavesOneOf (MayAnswer B.MayFault) book.old book.new (λ c x.
        (v : State) → IsLed c x edits.now v →
        EntersByEdits c x.state edits.now v → IfOk result (AreCandidates c v)) result }
{
    let rows = to_look_at(alloc, book, edits)?;
    let mut waiting = BTreeMap::new(alloc);
    add_all(&mut waiting, rows.as_slice())?;
    Ok(waiting)
}

/// Adds those who need a change: once it has entered, they might too.
pub(crate) fn add_needing<B: Book>(
    alloc: Global,
    book: &mut B,
    edits: &[Edit],
    change: ChangeNo,
    waiting: &mut BTreeMap<u64, ChangeNo>,
) -> Result<(), BookFault>
    ensures { IsRead B.IsTrusted B.Holds B.LeavesOneOf (MayAnswer B.MayFault) book.old book.new (λ c x.
        (v : State) → IsLed c x edits.now v →
        AreOthers c v change waiting.old → OnOk result (AreCandidates c v waiting.new)) result }
{
    let put = ready_put(alloc, edits)?;
    let left = left_needing(alloc, book, edits, change)?;
    add_all(waiting, put.as_slice())?;
    add_all(waiting, left.as_slice())?;
    Ok(())
}
