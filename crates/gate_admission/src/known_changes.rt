//! What is known of a change after edits: its needs, and its project.
ghost use Rattle.std.specs.Prelude.{◌≡◌, IfOk, map, find, option_copied};
ghost use Rattle.gate_types.specs.Names.{same_name};
ghost use Rattle.gate_types.specs.State.{State, known_change, known_or_closed, need_of};
ghost use Rattle.gate_book_trait.specs.Faults.{MayAnswer};
ghost use Rattle.gate_book_trait.specs.Reading.{IsRead, IsReadUnder};
ghost use Rattle.gate_admission.specs.Led.{IsLed};
ghost use Rattle.gate_admission.specs.Seen.{at_last, last_put, last_stage, stage_put};

use gate_book_trait::{Book, BookFault};
use gate_types::config::{Config, Project};
use gate_types::edits::Edit;
use gate_types::lists::with_one;
use gate_types::numbers::ChangeNo;
use gate_types::records::{Change, Need, Stage};
use std::alloc::Global;

pub(crate) fn last_put(edits: &[Edit], number: ChangeNo) -> Option<&Change>
    ensures { option_copied result ≡ last_put number edits.now }
{
    let mut found = None;
    for edit in edits {
        if let Edit::PutChange { change, .. } = edit {
            if change.number == number {
                found = Some(change);
            }
        }
    }
    found
}

/// The stage that a change was set to, after one edit more.
fn stage_put(before: Option<Stage>, edit: &Edit, number: ChangeNo) -> Option<Stage>
    ensures { result ≡ stage_put number before edit.now }
{
    match edit {
        Edit::PutChange { change, .. } if change.number == number => None,
        Edit::SetStage { change, stage } if *change == number => Some(*stage),
        _ => before,
    }
}

/// The stage that the edits set a change to, behind its last put.
fn last_stage(edits: &[Edit], number: ChangeNo) -> Option<Stage>
    ensures { result ≡ last_stage number edits.now }
{
    let mut found = None;
    for edit in edits {
        found = stage_put(found, edit, number);
    }
    found
}

/// What is known of a change, at a stage if it was set to one.
fn at_last(stage: Option<Stage>, known: Option<Change>) -> Option<Change>
    ensures { result ≡ at_last stage known }
{
    match stage {
        Some(stage) => match known {
            Some(change) => Some(Change { stage, ..change }),
            None => None,
        },
        None => known,
    }
}

/// What is known of a change after the edits.
pub(crate) fn known<B: Book>(
    book: &mut B,
    edits: &[Edit],
    number: ChangeNo,
) -> Result<Option<Change>, BookFault>
    ensures { IsRead B.IsTrusted B.Holds B.LeavesOneOf (MayAnswer B.MayFault) book.old book.new (λ c x.
        (v : State) → IsLed c x edits.now v → IfOk result (λ found. found ≡ known_change v number)) result }
{
    let stage = last_stage(edits, number);
    match last_put(edits, number) {
        Some(change) => Ok(at_last(stage, Some(change.copy()?))),
        None => {
            let stored = book.change(number)?;
            Ok(at_last(stage, stored))
        }
    }
}

/// The project of a change; none where the change isn't known.
fn project_of<'c>(config: &'c Config, change: &Option<Change>) -> Option<&'c Project>
    ensures { option_copied result ≡
        find (λ p. same_name p.name (known_or_closed change.now).project) config.now.projects }
{
    match change {
        Some(change) => config.project(change.project.as_str()),
        None => config.project(""),
    }
}

/// The project of a change after the edits; none where the change isn't known. The change is looked at where it stands,
/// in the edits or the book.
pub fn project_after<'c, B: Book>(
    book: &mut B,
    config: &'c Config,
    edits: &[Edit],
    number: ChangeNo,
) -> Result<Option<&'c Project>, BookFault>
    ensures { IsReadUnder B.IsTrusted B.Holds B.LeavesOneOf (MayAnswer B.MayFault) book.old book.new config.now (λ x.
        (v : State) → IsLed config.now x edits.now v → IfOk result (λ found. option_copied found ≡
        find (λ p. same_name p.name (known_or_closed (known_change v number)).project) config.now.projects)) result }
{
    match last_put(edits, number) {
        Some(change) => Ok(config.project(change.project.as_str())),
        None => {
            let known = book.change(number)?;
            Ok(project_of(config, &known))
        }
    }
}

fn need<B: Book>(book: &mut B, edits: &[Edit], number: ChangeNo) -> Result<Need, BookFault>
    ensures { IsRead B.IsTrusted B.Holds B.LeavesOneOf (MayAnswer B.MayFault) book.old book.new (λ c x.
        (v : State) → IsLed c x edits.now v → IfOk result (λ need. need ≡ need_of v number)) result }
{
    let known = known(book, edits, number)?;
    Ok(Need {
        change: number,
        landed: Change::has_landed(&known),
    })
}

/// The changes of these numbers as needs: each with whether it has landed.
pub(crate) fn needs_with<B: Book>(
    alloc: Global,
    book: &mut B,
    edits: &[Edit],
    numbers: &[ChangeNo],
) -> Result<Vec<Need>, BookFault>
    ensures { IsRead B.IsTrusted B.Holds B.LeavesOneOf (MayAnswer B.MayFault) book.old book.new (λ c x.
        (v : State) → IsLed c x edits.now v → IfOk result (λ needs. needs.items ≡ map (need_of v) numbers.now)) result }
{
    let mut needs = Vec::new(alloc);
    for number in numbers {
        let next = need(book, edits, *number)?;
        needs = with_one(needs, next)?;
    }
    Ok(needs)
}
