//! Edits that needn't be made: a later one sets the same again, or they put the row that stands.
ghost use Rattle.std.specs.Prelude.{◌≡◌, ◌∷◌, [], ◌++◌, ◌||◌, if◌then◌else◌, List, ℕ, Option, not, IfOk, OnOk};
ghost use Rattle.std.specs.List.{list_any};
ghost use Rattle.gate_types.specs.declared.edits.Edit.{Edit as EditOf};
ghost use Rattle.gate_types.specs.declared.edits.Edit.TheVariants as edit;
ghost use Rattle.gate_core.specs.Thinned as thinning;
ghost use Rattle.gate_core.specs.Thinned.{is_replaced, puts_back, puts_row, AreNumbersOf, IsNotedOf};

use gate_reads::PendingReply;
use gate_types::edits::{Counter, Edit};
use gate_types::names::{Name, NoMemory, same_name};
use gate_types::numbers::ChangeNo;
use gate_types::records::Change;
use std::alloc::Global;
use std::collections::BTreeSet;

/// What the later edits of a delivery set: the rows of changes by their numbers, counters, and the windows of queues.
#[derive(Drop)]
struct Later {
    changes: BTreeSet<u64>,
    approval: bool,
    build: bool,
    order: bool,
    windows: Vec<Name>,
}

impl Later {
    ghost use Rattle.std.specs.Prelude.{◌≡◌, not, IfOk, OnOk};
    ghost use Rattle.gate_core.specs.Thinned.{has_drawn, is_among_names, drawn_noted, HasNoted};

    /// Whether no later edit draws from a counter; this one is noted.
    fn is_last_drawn(&mut self, counter: Counter) -> bool
        ensures last { result ≡ not (has_drawn self.old counter) }
        ensures noted { self.new ≡ drawn_noted counter self.old }
    {
        match counter {
            Counter::Approval => {
                let is_last = !self.approval;
                self.approval = true;
                is_last
            }
            Counter::Build => {
                let is_last = !self.build;
                self.build = true;
                is_last
            }
            Counter::Order => {
                let is_last = !self.order;
                self.order = true;
                is_last
            }
        }
    }

    /// Whether no later edit sets the window of a queue; this one is noted.
    fn is_last_window(&mut self, queue: &Name) -> Result<bool, NoMemory>
        ensures last { IfOk result (λ last. last ≡ not (is_among_names queue.now self.old.windows.items)) }
        ensures noted { OnOk result (HasNoted queue.now self.old self.new) }
    {
        let is_last = !is_named(self.windows.as_slice(), queue);
        self.windows.push(queue.copy()?)?;
        Ok(is_last)
    }
}

/// Whether a queue is one of these.
fn is_named(queues: &[Name], name: &Name) -> bool
    ensures { result ≡ thinning.is_among_names name.now queues.now }
{
    queues.iter().any(|queue| same_name(queue, name))
}

fn sets_stage(edit: &Edit, number: ChangeNo) -> bool
    ensures { result ≡ thinning.sets_stage number edit.now }
{
    match edit {
        Edit::SetStage { change, .. } => *change == number,
        _ => false,
    }
}

/// Whether an edit sets the stage of a change.
fn is_stage_set(edits: &[Edit], number: ChangeNo) -> bool
    ensures { result ≡ list_any (thinning.sets_stage number) edits.now }
{
    edits.iter().any(|edit| sets_stage(edit, number))
}

/// The change that a delivery makes ready, if it makes one so whose stage no edit sets: its reply tells where that
/// stands.
pub(crate) fn newly_ready(pending: &PendingReply, edits: &[Edit]) -> Option<ChangeNo>
    ensures { result ≡ thinning.newly_ready pending.now edits.now }
{
    match pending {
        PendingReply::Now(_) => None,
        PendingReply::PlaceOf(change) => {
            if is_stage_set(edits, *change) {
                None
            } else {
                Some(*change)
            }
        }
    }
}

/// Whether a put is that of the change that was made ready, as one that isn't.
fn puts_back(newly_ready: &Option<ChangeNo>, change: &Change, approval: Option<u64>) -> bool
    ensures { result ≡ puts_back newly_ready.now (edit.PutChange change.now approval) }
{
    match (newly_ready, approval) {
        (Some(number), None) => change.number == *number,
        _ => false,
    }
}

/// Whether no later edit puts a change, where they put those of these numbers; this one is noted.
fn is_last_put(change: &Change, numbers: &mut BTreeSet<u64>) -> Result<bool, NoMemory>
    ensures last { (edits : List EditOf) → AreNumbersOf edits numbers.old →
        IfOk result (λ last. last ≡ not (list_any (puts_row change.now.number) edits)) }
    ensures noted { (edits : List EditOf) → AreNumbersOf edits numbers.old → (approval : Option ℕ) →
        OnOk result (AreNumbersOf (edit.PutChange change.now approval ∷ edits) numbers.new) }
{
    Ok(numbers.insert(change.number.get())?)
}

/// Whether an edit stays, where the later ones set what is noted; what it sets is noted.
fn stays(newly_ready: &Option<ChangeNo>, edit: &Edit, later: &mut Later) -> Result<bool, NoMemory>
    ensures stays { (edits : List EditOf) → IsNotedOf edits later.old →
        IfOk result (λ stays. stays ≡ not (is_replaced edit.now edits || puts_back newly_ready.now edit.now)) }
    ensures noted { (edits : List EditOf) → IsNotedOf edits later.old →
        OnOk result (IsNotedOf (edit.now ∷ edits) later.new) }
{
    match edit {
        Edit::PutChange { change, approval } => {
            let is_last = is_last_put(change, &mut later.changes)?;
            Ok(is_last && !puts_back(newly_ready, change, *approval))
        }
        Edit::SetCounter { counter, .. } => Ok(later.is_last_drawn(*counter)),
        Edit::SetWindow { queue, .. } => later.is_last_window(queue),
        _ => Ok(true),
    }
}

/// Puts the edit behind the others, where it stays.
fn push_if(staying: bool, all: &mut Vec<Edit>, edit: Edit) -> Result<(), NoMemory>
    ensures { OnOk result (all.new.items ≡ (if staying then all.old.items ++ edit ∷ [] else all.old.items)) }
{
    if staying {
        all.push(edit)?;
    }
    Ok(())
}

/// The edits that a delivery makes, in their order; they lead to the same tables. Left out is an edit that a later one
/// replaces, but not a put after which only the stage of its change is set. So is the put of a change that was made
/// ready and entered at once, since its row stands. It goes from the back, so that each edit costs one look-up.
pub(crate) fn thinned(
    alloc: Global,
    newly_ready: &Option<ChangeNo>,
    edits: Vec<Edit>,
) -> Result<Vec<Edit>, NoMemory>
    ensures { IfOk result (λ all. all.items ≡ thinning.thinned newly_ready.now edits.items) }
{
    let mut rest = edits;
    let mut all = Vec::new(alloc);
    let mut later = Later {
        changes: BTreeSet::new(alloc),
        approval: false,
        build: false,
        order: false,
        windows: Vec::new(alloc),
    };
    while let Some(edit) = rest.pop() {
        let staying = stays(newly_ready, &edit, &mut later)?;
        push_if(staying, &mut all, edit)?;
    }
    all.reverse();
    Ok(all)
}
