//! The changes held in memory: all ready changes, and the changes of queued items once they have been read.
ghost use Rattle.std.specs.Prelude.{◌≡◌, ◌++◌, ◌||◌, ℕ, List, suc, [], ◌∷◌, ◌+◌, filter, length, is_some, Some, IfOk};
ghost use Rattle.std.specs.Prelude.{IfSome, OnErr, OnOk};
ghost use Rattle.gate_types.specs.State.{put_by};
ghost use Rattle.gate_types.specs.Keys.{number_of_change};
ghost use Rattle.gate_types.specs.declared.rows.ChangeRow.{ChangeRow};
ghost use Rattle.gate_types.specs.Tables.{change_in};
ghost use Rattle.gate_book_trait.specs.RowReads.{approval_in, needing_in};
ghost use Rattle.gate_memory.specs.Changes.{IsWhatRowsTell};
ghost use Rattle.gate_memory.specs.Needs.{needs_brought, needs_of_all};
ghost use Rattle.gate_memory.specs.Queues as queue_table;
ghost use Rattle.gate_memory.specs.TableReads.{IsWhatRowsTellOf};
ghost use Rattle.gate_live.specs.HeldChanges.{AreRowsOf, AreKeptChanges, HasRoomFor, change_touched, changes_held};
ghost use Rattle.gate_live.specs.HeldChanges.{edited_rows, fold_rows, has_row, has_rows_of, is_of_changes, items_above};
ghost use Rattle.gate_live.specs.HeldChanges.{unready_row, with_row, without_change};

use gate_memory::{ChangeTable, QueueTable, count_needs, needing_of};
use gate_types::edits::Edit;
use gate_types::names::NoMemory;
use gate_types::numbers::ChangeNo;
use gate_types::records::{Change, Item, Ready};
use gate_types::rows::ChangeRow;
use gate_types::sequence::Sequence;
use std::alloc::{AllocError, Global};

/// Some rows of changes, each as it is in the book below: all ready changes, and others that have been read. A ready
/// change stays held when it is admitted, so it isn't read again; once it is neither ready nor queued it is dropped.
#[derive(Drop)]
pub struct HeldChanges {
    table: ChangeTable,
}

/// Whether an edit concerns changes.
fn is_of_changes(edit: &Edit) -> bool
    ensures { result ≡ is_of_changes edit.now }
{
    match edit {
        Edit::PutChange { .. } | Edit::SetStage { .. } => true,
        _ => false,
    }
}

/// Appends a copy of an edit, if the edit concerns changes. Fails if memory is refused.
fn push_copy(copies: &mut Vec<Edit>, edit: &Edit) -> Result<(), NoMemory>
    ensures { OnOk result (copies.new.items ≡ copies.old.items ++ filter is_of_changes (edit.now ∷ [])) }
{
    if !is_of_changes(edit) {
        return Ok(());
    }
    copies.push(edit.copy()?)?;
    Ok(())
}

/// Copies the edits that concern changes. Fails if memory is refused.
pub(crate) fn change_copies(alloc: Global, edits: &[Edit]) -> Result<Vec<Edit>, NoMemory>
    ensures { IfOk result (λ copies. copies.items ≡ filter is_of_changes edits.now) }
{
    let mut copies = Vec::new(alloc);
    for edit in edits {
        push_copy(&mut copies, edit)?;
    }
    Ok(copies)
}

/// The change that may have no item after an edit: the one that the edit puts, sets or reports, if any.
pub(crate) fn change_touched(edit: &Edit) -> Option<ChangeNo>
    ensures { result ≡ change_touched edit.now }
{
    match edit {
        Edit::PutChange { change, .. } => Some(change.number),
        Edit::SetStage { change, .. } => Some(*change),
        Edit::PutReport { report, .. } => Some(report.change),
        _ => None,
    }
}

impl HeldChanges {
    /// Holds no change.
    pub(crate) fn new(alloc: Global) -> HeldChanges
        ensures rows { changes_held result ≡ [] }
        ensures kept { AreKeptChanges result }
    {
        HeldChanges {
            table: ChangeTable::new(alloc),
        }
    }

    /// Allocates room for these edits. Fails if memory is refused or the number of the needs that they put is too large
    /// to count. Either way, the held rows stay unchanged.
    pub(crate) fn make_room(&mut self, edits: &[Edit]) -> Result<(), NoMemory>
        requires { AreKeptChanges self.old }
        ensures rows { changes_held self.new ≡ changes_held self.old }
        ensures kept { AreKeptChanges self.new }
        ensures room { OnOk result (HasRoomFor (length edits.now) (needs_of_all edits.now) self.new) }
    {
        let Some(needs) = count_needs(edits) else {
            return Err(AllocError);
        };
        self.table.make_room(edits.len(), needs)?;
        Ok(())
    }

    /// Whether a change is held.
    pub(crate) fn has(&self, number: ChangeNo) -> bool
        requires { AreKeptChanges self.now }
        ensures { result ≡ has_row (changes_held self.now) number }
    {
        self.table.has(number)
    }

    /// Whether the changes of all these items are held.
    fn has_all(&self, items: &[Item]) -> bool
        requires { AreKeptChanges self.now }
        ensures { result ≡ has_rows_of (changes_held self.now) items.now }
    {
        items.iter().all(|item| self.has(item.change))
    }

    /// Whether to hold a row: its change is ready or already held.
    fn wants(&self, row: &ChangeRow) -> bool
        requires { AreKeptChanges self.now }
        ensures { result ≡ (is_some row.now.approval || has_row (changes_held self.now) row.now.change.number) }
    {
        row.approval.is_some() || self.table.has(row.change.number)
    }

    /// Puts a row if its change is ready or already held. There must be room for the row and its needs.
    fn put(&mut self, row: ChangeRow)
        requires kept { AreKeptChanges self.old }
        requires room { HasRoomFor 1 (length row.change.needs) self.old }
        ensures rows { changes_held self.new ≡ with_row (changes_held self.old) row }
        ensures kept { AreKeptChanges self.new }
        ensures room { (n m : ℕ) →
            HasRoomFor (suc n) (length row.change.needs + m) self.old → HasRoomFor n m self.new }
    {
        if self.wants(&row) {
            self.table.put(row);
        }
    }

    /// Applies an edit: puts a row, or sets the stage of a change that is held. There must be room for one row and its
    /// needs.
    fn apply(&mut self, edit: Edit)
        requires kept { AreKeptChanges self.old }
        requires room { HasRoomFor 1 (needs_brought edit) self.old }
        ensures rows { changes_held self.new ≡ edited_rows (changes_held self.old) edit }
        ensures kept { AreKeptChanges self.new }
        ensures room { (n m : ℕ) → HasRoomFor (suc n) (needs_brought edit + m) self.old → HasRoomFor n m self.new }
    {
        match edit {
            Edit::PutChange { change, approval } => self.put(ChangeRow { change, approval }),
            Edit::SetStage { change, stage } => self.table.set_stage(change, stage),
            _ => {}
        }
    }

    /// Applies all edits. There must be room for a row per edit, and for the needs of those that put one.
    pub(crate) fn apply_all(&mut self, edits: Vec<Edit>)
        requires kept { AreKeptChanges self.old }
        requires room { HasRoomFor (length edits.items) (needs_of_all edits.items) self.old }
        ensures rows { changes_held self.new ≡ fold_rows (changes_held self.old) edits.items }
        ensures kept { AreKeptChanges self.new }
    {
        for edit in edits {
            self.apply(edit);
        }
    }

    /// Holds a row from then on. Fails if memory is refused; then the held rows stay unchanged.
    pub(crate) fn hold(&mut self, row: ChangeRow) -> Result<(), NoMemory>
        requires { AreKeptChanges self.old }
        ensures rows { OnOk result (changes_held self.new ≡ put_by number_of_change row (changes_held self.old)) }
        ensures same { OnErr result (changes_held self.new ≡ changes_held self.old) }
        ensures kept { AreKeptChanges self.new }
    {
        self.table.make_room(1, row.change.needs.as_slice().len())?;
        self.table.put(row);
        Ok(())
    }

    /// Holds a copy of a change that isn't ready. Fails if memory is refused; then the held rows stay unchanged.
    fn hold_copy(&mut self, change: &Change) -> Result<(), NoMemory>
        requires { AreKeptChanges self.old }
        ensures rows { OnOk result
            (changes_held self.new ≡ put_by number_of_change (unready_row change.now) (changes_held self.old)) }
        ensures same { OnErr result (changes_held self.new ≡ changes_held self.old) }
        ensures kept { AreKeptChanges self.new }
    {
        let change = change.copy()?;
        self.hold(ChangeRow {
            change,
            approval: None,
        })
    }

    /// Holds a copy of a change, unless it is held already. Such a change isn't ready, since all ready ones are held.
    /// If memory is refused, nothing changes.
    pub(crate) fn hold_known(&mut self, change: &Change)
        requires { AreKeptChanges self.old }
        ensures held { (all : List ChangeRow) → Some change.now ≡ change_in all change.now.number →
            AreRowsOf (changes_held self.old) all → AreRowsOf (changes_held self.new) all }
        ensures kept { AreKeptChanges self.new }
    {
        if !self.has(change.number) {
            let _held = self.hold_copy(change);
        }
    }

    /// Drops the row of a change, unless the change is ready.
    pub(crate) fn forget(&mut self, number: ChangeNo)
        requires { AreKeptChanges self.old }
        ensures rows { changes_held self.new ≡ without_change (changes_held self.old) number }
        ensures kept { AreKeptChanges self.new }
    {
        if self.table.approval(number).is_none() {
            self.table.remove(number);
        }
    }

    /// Copies a change. `None` if it isn't held. Fails if memory is refused.
    pub(crate) fn change(&self, number: ChangeNo) -> Result<Option<Change>, NoMemory>
        requires { AreKeptChanges self.now }
        ensures held { IfOk result (λ found. is_some found ≡ has_row (changes_held self.now) number) }
        ensures found { IfOk result (λ found. IfSome found (λ change. (all : List ChangeRow) →
            AreRowsOf (changes_held self.now) all → Some change ≡ change_in all number)) }
    {
        self.table.get(number)
    }

    /// The approval number of a change. `None` if the change isn't ready.
    pub(crate) fn approval(&self, number: ChangeNo) -> Option<u64>
        requires { AreKeptChanges self.now }
        ensures { (all : List ChangeRow) → AreRowsOf (changes_held self.now) all →
            result ≡ approval_in all number }
    {
        self.table.approval(number)
    }

    /// The ready changes in order of approval: the ready list of the book, if that list matches the rows of all
    /// changes. Fails if memory is refused.
    pub(crate) fn ready(&self, alloc: Global) -> Result<Sequence<Ready>, NoMemory>
        requires { AreKeptChanges self.now }
        ensures { IfOk result (λ found. (all : List ChangeRow) → AreRowsOf (changes_held self.now) all →
            IsWhatRowsTell all found) }
    {
        self.table.ready(alloc)
    }

    /// The ready changes that need this one, in order of approval: those of the book's ready list, if that list matches
    /// the rows of all changes. Fails if memory is refused.
    pub(crate) fn ready_needing(
        &self,
        alloc: Global,
        change: ChangeNo,
    ) -> Result<Sequence<Ready>, NoMemory>
        requires { AreKeptChanges self.now }
        ensures { IfOk result (λ found. (all : List ChangeRow) → AreRowsOf (changes_held self.now) all →
            IsWhatRowsTellOf all change found) }
    {
        self.table.ready_needing(alloc, change)
    }

    /// The items of a queue above a serial whose changes need this one, found through the index of changes that need
    /// it. `None` if the change of an item above the serial isn't held. Fails if memory is refused.
    pub(crate) fn needing(
        &self,
        alloc: Global,
        queue: &QueueTable,
        change: ChangeNo,
        above: u64,
    ) -> Result<Option<Sequence<Item>>, NoMemory>
        requires kept { AreKeptChanges self.now }
        requires queue { queue_table.IsKeptQueueTable queue.now }
        ensures held { IfOk result (λ found. is_some found
            ≡ has_rows_of (changes_held self.now) (items_above above (queue_table.rows_of_table queue.now).items)) }
        ensures found { IfOk result (λ found. IfSome found (λ found. (all : List ChangeRow) →
            AreRowsOf (changes_held self.now) all →
            found ≡ needing_in all change above (queue_table.rows_of_table queue.now).items)) }
    {
        if !self.has_all(queue.items_behind(above)) {
            return Ok(None);
        }
        let found = needing_of(alloc, queue, &self.table, change, above)?;
        Ok(Some(found))
    }
}
