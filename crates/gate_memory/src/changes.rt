//! The changes of a book in memory.
ghost use Rattle.std.specs.Prelude.{◌≡◌, ◌≢◌, ◌==◌, ◌<◌, ◌≤◌, ◌+◌, ◌++◌, ◌⊎◌, ℕ, suc, [], true, if◌then◌else◌, Some};
ghost use Rattle.std.specs.Prelude.{None, IsSome, length, map, find, slice_get, nat_eq, is_some, IfOk, OnOk, vec_len};
ghost use Rattle.std.specs.Prelude.{vec_capacity};
ghost use Rattle.std.specs.List.{list_any, filter_map, cons_option, AllByRecursion};
ghost use Rattle.std.specs.List.Sorted.{IsNonDecreasingBy, IsPermutation};
ghost use Rattle.std.specs.Option.{option_copied, option_map_or};
ghost use Rattle.std.specs.HashMap.{get, spare};
ghost use Rattle.gate_types.specs.State.{put_by};
ghost use Rattle.gate_types.specs.Keys.{number_of_change};
ghost use Rattle.gate_types.specs.Rising.{RisesFrom, In};
ghost use Rattle.gate_types.specs.Tables.{at_stage, change_known, change_in, needs_in};
ghost use Rattle.gate_memory.specs.Sorted.{without};
ghost use Rattle.gate_book_trait.specs.RowReads.{approval_in};
ghost use Rattle.gate_memory.specs.TableReads.{needing_by, IsWhatRowsTellOf};
ghost use Rattle.gate_memory.specs.Pairs.{pair_key};
ghost use Rattle.gate_memory.specs.declared.pairs.Pair.{Pair};
ghost use Rattle.gate_memory.specs.Needs.{AreInOrder, IsRising, IsSmall, TellsNeedsOf, TellsNoneOf, pair_of_need};
ghost use Rattle.gate_memory.specs.Changes.{AreApart, FindsNumbers, IsKeptChangeTable, HasRoomForChanges};
ghost use Rattle.gate_memory.specs.Changes.{IsWhatRowsTell, ready_by};
ghost use Rattle.gate_memory.specs.Changes.{in_order, changes_of, indexed_ready};

use crate::needs::{forget_needs, note_needs};
use crate::pairs::{Pair, of_first};
use crate::sorted;
use crate::sorted::Keyed;
use gate_types::names::NoMemory;
use gate_types::numbers::ChangeNo;
use gate_types::records::{Change, Ready, Stage};
use gate_types::rows::ChangeRow;
use gate_types::sequence::Sequence;
use std::alloc::{AllocError, Global};
use std::collections::HashMap;

/// All changes, the position of each number, and two indexes: of the ready ones (pairs of the number of the approval
/// and the change's own), and of needs (pairs of the needed change and one that needs it). Both indexes have what
/// stands, and nothing of an earlier revision, so that they grow with the changes and not with what is put.
///
/// The changes stand in the order in which they came first, until one is removed: the last one takes its place.
#[derive(Drop)]
pub struct ChangeTable {
    rows: Vec<ChangeRow>,
    positions: HashMap<u64, usize>,
    ready: Vec<Pair>,
    needs: Vec<Pair>,
}

fn position_of(positions: &HashMap<u64, usize>, number: u64) -> Option<usize>
    ensures { result ≡ get nat_eq positions.now number }
{
    match positions.get(&number) {
        Some(position) => Some(*position),
        None => None,
    }
}

/// Takes the position of a number out.
fn take_position(positions: &mut HashMap<u64, usize>, number: u64) -> Option<usize>
    ensures value { result ≡ get nat_eq positions.old number }
    ensures gone { (q : ℕ) → get nat_eq positions.new q ≡ if number == q then None else get nat_eq positions.old q }
    ensures room { spare positions.old ≤ spare positions.new }
{
    positions.remove(&number)
}

/// Writes over the position of a number that has one, which takes no memory.
fn move_position(positions: &mut HashMap<u64, usize>, number: u64, position: usize)
    requires { IsSome (get nat_eq positions.old number) }
    ensures moved { (q : ℕ) → get nat_eq positions.new q
        ≡ if number == q then Some position else get nat_eq positions.old q }
    ensures room { spare positions.new ≡ spare positions.old }
{
    if let Some(held) = positions.get_mut(&number) {
        *held = position;
    }
}

/// Puts a row where there is room, in place of one with its number.
fn put_row(rows: &mut Vec<ChangeRow>, positions: &mut HashMap<u64, usize>, row: ChangeRow)
    requires room { vec_len rows.old < vec_capacity rows.old }
    requires spare { 0 < spare positions.old }
    requires finds { FindsNumbers positions.old rows.old.items }
    requires apart { AreApart number_of_change rows.old.items }
    ensures rows { in_order number_of_change rows.new.items
        ≡ put_by number_of_change row (in_order number_of_change rows.old.items) }
    ensures finds { FindsNumbers positions.new rows.new.items }
    ensures apart { AreApart number_of_change rows.new.items }
    ensures len { vec_len rows.new ≤ vec_len rows.old + 1 }
    ensures capacity { vec_capacity rows.new ≡ vec_capacity rows.old }
    ensures room { spare positions.old ≤ spare positions.new + 1 }
{
    let number = number_of_row(&row);
    match position_of(positions, number) {
        Some(position) => sorted::put_at(rows, position, row),
        None => {
            let inserted: Result<_, _> = positions.insert(number, rows.len());
            let _old = inserted.unwrap();
            rows.push_reserved(row);
        }
    }
}

/// Sets the stage of a change, if it is there: it is ready no longer.
fn set_row(rows: &mut Vec<ChangeRow>, positions: &HashMap<u64, usize>, number: u64, stage: Stage)
    requires finds { FindsNumbers positions.now rows.old.items }
    requires apart { AreApart number_of_change rows.old.items }
    ensures rows { in_order number_of_change rows.new.items
        ≡ change_known number (at_stage stage) (in_order number_of_change rows.old.items) }
    ensures finds { FindsNumbers positions.now rows.new.items }
    ensures apart { AreApart number_of_change rows.new.items }
    ensures len { vec_len rows.new ≡ vec_len rows.old }
    ensures capacity { vec_capacity rows.new ≡ vec_capacity rows.old }
{
    if let Some(position) = position_of(positions, number) {
        let row = &mut rows[position];
        row.change.stage = stage;
        row.approval = None;
    }
}

/// Drops the row of a number, if there is one. The last row takes its place.
fn remove_row(rows: &mut Vec<ChangeRow>, positions: &mut HashMap<u64, usize>, number: u64)
    requires finds { FindsNumbers positions.old rows.old.items }
    requires apart { AreApart number_of_change rows.old.items }
    ensures rows { in_order number_of_change rows.new.items
        ≡ without number_of_change number (in_order number_of_change rows.old.items) }
    ensures finds { FindsNumbers positions.new rows.new.items }
    ensures apart { AreApart number_of_change rows.new.items }
    ensures len { vec_len rows.new ≤ vec_len rows.old }
    ensures capacity { vec_capacity rows.new ≡ vec_capacity rows.old }
    ensures room { spare positions.old ≤ spare positions.new }
{
    let Some(position) = take_position(positions, number) else {
        return;
    };
    let last = rows.pop().unwrap();
    if position < rows.len() {
        move_position(positions, number_of_row(&last), position);
        sorted::put_at(rows, position, last);
    }
}

fn number_of_row(row: &ChangeRow) -> u64
    ensures { result ≡ number_of_change row.now }
{
    row.change.number.get()
}

fn row_in(rows: &[ChangeRow], position: usize) -> Option<&ChangeRow>
    ensures { option_copied result ≡ slice_get rows.now position }
{
    rows.get(position)
}

/// The row of a number.
fn row_of<'a>(
    rows: &'a [ChangeRow],
    positions: &HashMap<u64, usize>,
    number: u64,
) -> Option<&'a ChangeRow>
    requires { FindsNumbers positions.now rows.now }
    ensures { option_copied result ≡ find (λ r. r.change.number == number) (in_order number_of_change rows.now) }
{
    match position_of(positions, number) {
        Some(position) => row_in(rows, position),
        None => None,
    }
}

/// The approval number of a change, while it is ready.
fn approval_of(rows: &[ChangeRow], positions: &HashMap<u64, usize>, number: u64) -> Option<u64>
    requires { FindsNumbers positions.now rows.now }
    ensures { result ≡ approval_in (in_order number_of_change rows.now) number }
{
    match row_of(rows, positions, number) {
        Some(row) => row.approval,
        None => None,
    }
}

fn drop_ready(ready: &mut Vec<Pair>, approval: Option<u64>, number: u64)
    requires { RisesFrom pair_key 0 ready.old.items }
    ensures ready { ready.new.items
        ≡ option_map_or (λ a. without pair_key (pair_key (indexed_ready number a)) ready.old.items)
        approval ready.old.items }
    ensures rising { RisesFrom pair_key 0 ready.new.items }
    ensures len { vec_len ready.new ≤ vec_len ready.old }
    ensures capacity { vec_capacity ready.new ≡ vec_capacity ready.old }
{
    if let Some(first) = approval {
        let entry = Pair {
            first,
            second: number,
        };
        sorted::remove(ready, entry.key());
    }
}

fn note_ready(ready: &mut Vec<Pair>, approval: Option<u64>, number: u64)
    requires room { vec_len ready.old < vec_capacity ready.old }
    requires rising { RisesFrom pair_key 0 ready.old.items }
    ensures ready { ready.new.items
        ≡ option_map_or (λ a. put_by pair_key (indexed_ready number a) ready.old.items) approval ready.old.items }
    ensures rising { RisesFrom pair_key 0 ready.new.items }
    ensures len { vec_len ready.new ≤ vec_len ready.old + 1 }
    ensures capacity { vec_capacity ready.new ≡ vec_capacity ready.old }
{
    if let Some(first) = approval {
        let entry = Pair {
            first,
            second: number,
        };
        sorted::put(ready, entry);
    }
}

/// Adds the needs of a change to the index, where there is room.
fn note_row(index: &mut Vec<Pair>, row: &ChangeRow)
    requires room { vec_len index.old + length row.now.change.needs ≤ vec_capacity index.old }
    requires order { AreInOrder index.old.items }
    ensures order { AreInOrder index.new.items }
    ensures told { TellsNeedsOf index.new.items row.now.change.number row.now.change.needs }
    ensures others { (p : Pair) → In p index.old.items → In p index.new.items }
    ensures back { (p : Pair) → In p index.new.items →
        In p index.old.items ⊎ ((p.second ≡ row.now.change.number) × In p.first row.now.change.needs) }
    ensures len { vec_len index.new ≤ vec_len index.old + length row.now.change.needs }
    ensures capacity { vec_capacity index.new ≡ vec_capacity index.old }
{
    note_needs(index, row.change.number, row.change.needs.as_slice());
}

/// Drops what the index keeps of the needs of a change.
fn forget_row(
    index: &mut Vec<Pair>,
    rows: &[ChangeRow],
    positions: &HashMap<u64, usize>,
    number: u64,
)
    requires finds { FindsNumbers positions.now rows.now }
    requires order { AreInOrder index.old.items }
    ensures order { AreInOrder index.new.items }
    ensures gone { TellsNoneOf index.new.items number (needs_in (in_order number_of_change rows.now) number) }
    ensures others { (p : Pair) → p.second ≢ number → In p index.old.items → In p index.new.items }
    ensures back { (p : Pair) → In p index.new.items → In p index.old.items }
    ensures len { vec_len index.new ≤ vec_len index.old }
    ensures capacity { vec_capacity index.new ≡ vec_capacity index.old }
{
    if let Some(row) = row_of(rows, positions, number) {
        forget_needs(index, row.change.number, row.change.needs.as_slice());
    }
}

/// What a pair of the index tells, if it is still so.
fn ready_at(rows: &[ChangeRow], positions: &HashMap<u64, usize>, pair: Pair) -> Option<Ready>
    requires { FindsNumbers positions.now rows.now }
    ensures { result ≡ ready_by (in_order number_of_change rows.now) pair }
{
    let row = row_of(rows, positions, pair.second)?;
    if row.approval == Some(pair.first) {
        Some(Ready {
            approval: pair.first,
            change: row.change.number,
        })
    } else {
        None
    }
}

fn push_ready(found: &mut Sequence<Ready>, ready: Option<Ready>) -> Result<(), NoMemory>
    ensures { OnOk result (found.new ≡ found.old ++ cons_option ready []) }
{
    if let Some(ready) = ready {
        found.push(ready)?;
    }
    Ok(())
}

/// What the pairs of the index tell, those that are still so.
fn collect_ready(
    alloc: Global,
    rows: &[ChangeRow],
    positions: &HashMap<u64, usize>,
    pairs: &[Pair],
) -> Result<Sequence<Ready>, NoMemory>
    requires { FindsNumbers positions.now rows.now }
    ensures { IfOk result (λ found. found ≡ filter_map (ready_by (in_order number_of_change rows.now)) pairs.now) }
{
    let mut found = Sequence::new(alloc);
    for pair in pairs {
        push_ready(&mut found, ready_at(rows, positions, *pair))?;
    }
    Ok(found)
}

/// Whether a change needs another.
fn row_needs(row: &ChangeRow, other: ChangeNo) -> bool
    ensures { result ≡ list_any (λ m. m == other) row.now.change.needs }
{
    row.change
        .needs
        .as_slice()
        .iter()
        .any(|need| *need == other)
}

/// The change that a pair names second, if it is ready and needs this one.
fn ready_if_needing(
    rows: &[ChangeRow],
    positions: &HashMap<u64, usize>,
    pair: Pair,
    change: ChangeNo,
) -> Option<Ready>
    requires { FindsNumbers positions.now rows.now }
    ensures { result ≡ needing_by (in_order number_of_change rows.now) change pair }
{
    let row = row_of(rows, positions, pair.second)?;
    let approval = row.approval?;
    if row_needs(row, change) {
        Some(Ready {
            approval,
            change: row.change.number,
        })
    } else {
        None
    }
}

/// Those of the changes that some pairs name second which are ready and need this one.
fn collect_needing(
    alloc: Global,
    rows: &[ChangeRow],
    positions: &HashMap<u64, usize>,
    pairs: &[Pair],
    change: ChangeNo,
) -> Result<Sequence<Ready>, NoMemory>
    requires { FindsNumbers positions.now rows.now }
    ensures { IfOk result (λ found. found
        ≡ filter_map (needing_by (in_order number_of_change rows.now) change) pairs.now) }
{
    let mut found = Sequence::new(alloc);
    for pair in pairs {
        push_ready(&mut found, ready_if_needing(rows, positions, *pair, change))?;
    }
    Ok(found)
}

/// The same in order of approval.
fn by_approval(ready: Sequence<Ready>) -> Sequence<Ready>
    ensures same { IsPermutation ready result }
    ensures order { IsNonDecreasingBy (λ r. r.approval) result }
{
    let mut ready = ready.into_vec();
    ready.sort_unstable_by_key(|one| one.approval);
    Sequence::from_vec(ready)
}

impl ChangeTable {
    pub fn new(alloc: Global) -> Self
        ensures rows { changes_of result ≡ [] }
        ensures kept { IsKeptChangeTable result }
    {
        ChangeTable {
            rows: Vec::new(alloc),
            positions: HashMap::new(alloc),
            ready: Vec::new(alloc),
            needs: Vec::new(alloc),
        }
    }

    /// Makes room for `n` more changes, which have so many needs. The changes stay, whatever the result.
    pub fn make_room(&mut self, n: usize, needs: usize) -> Result<(), AllocError>
        requires { IsKeptChangeTable self.old }
        ensures rows { changes_of self.new ≡ changes_of self.old }
        ensures kept { IsKeptChangeTable self.new }
        ensures room { OnOk result (HasRoomForChanges n needs self.new) }
    {
        self.rows.reserve(n)?;
        self.positions.reserve(n)?;
        self.ready.reserve(n)?;
        self.needs.reserve(needs)?;
        Ok(())
    }

    /// Puts a row where there is room, in place of one with its number.
    pub fn put(&mut self, row: ChangeRow)
        requires kept { IsKeptChangeTable self.old }
        requires room { HasRoomForChanges 1 (length row.change.needs) self.old }
        ensures rows { changes_of self.new ≡ put_by number_of_change row (changes_of self.old) }
        ensures kept { IsKeptChangeTable self.new }
        ensures room { (n m : ℕ) →
            HasRoomForChanges (suc n) (length row.change.needs + m) self.old → HasRoomForChanges n m self.new }
    {
        let number = number_of_row(&row);
        let approval = row.approval;
        forget_row(&mut self.needs, &self.rows, &self.positions, number);
        note_row(&mut self.needs, &row);
        drop_ready(
            &mut self.ready,
            approval_of(&self.rows, &self.positions, number),
            number,
        );
        note_ready(&mut self.ready, approval, number);
        put_row(&mut self.rows, &mut self.positions, row);
    }

    /// Sets the stage of a change, if it is there: it is ready no longer.
    pub fn set_stage(&mut self, number: ChangeNo, stage: Stage)
        requires { IsKeptChangeTable self.old }
        ensures rows { changes_of self.new ≡ change_known number (at_stage stage) (changes_of self.old) }
        ensures kept { IsKeptChangeTable self.new }
        ensures room { (n m : ℕ) → HasRoomForChanges n m self.old → HasRoomForChanges n m self.new }
    {
        let number = number.get();
        drop_ready(
            &mut self.ready,
            approval_of(&self.rows, &self.positions, number),
            number,
        );
        set_row(&mut self.rows, &self.positions, number, stage);
    }

    /// The change is no longer there, if it was.
    pub fn remove(&mut self, number: ChangeNo)
        requires kept { IsKeptChangeTable self.old }
        ensures rows { changes_of self.new ≡ without number_of_change number (changes_of self.old) }
        ensures kept { IsKeptChangeTable self.new }
        ensures room { (n m : ℕ) → HasRoomForChanges n m self.old → HasRoomForChanges n m self.new }
    {
        let number = number.get();
        forget_row(&mut self.needs, &self.rows, &self.positions, number);
        drop_ready(
            &mut self.ready,
            approval_of(&self.rows, &self.positions, number),
            number,
        );
        remove_row(&mut self.rows, &mut self.positions, number);
    }

    fn row(&self, number: ChangeNo) -> Option<&ChangeRow>
        requires { IsKeptChangeTable self.now }
        ensures { option_copied result ≡ find (λ r. r.change.number == number) (changes_of self.now) }
    {
        row_of(&self.rows, &self.positions, number.get())
    }

    /// Whether a change is there.
    pub fn has(&self, number: ChangeNo) -> bool
        requires { IsKeptChangeTable self.now }
        ensures { result ≡ is_some (find (λ r. r.change.number == number) (changes_of self.now)) }
    {
        self.row(number).is_some()
    }

    pub fn get(&self, number: ChangeNo) -> Result<Option<Change>, NoMemory>
        requires { IsKeptChangeTable self.now }
        ensures { IfOk result (λ found. found ≡ change_in (changes_of self.now) number) }
    {
        match self.row(number) {
            Some(row) => Ok(Some(row.change.copy()?)),
            None => Ok(None),
        }
    }

    /// The number of a change's approval, while it is ready.
    pub fn approval(&self, number: ChangeNo) -> Option<u64>
        requires { IsKeptChangeTable self.now }
        ensures { result ≡ approval_in (changes_of self.now) number }
    {
        approval_of(&self.rows, &self.positions, number.get())
    }

    /// Pairs of which the second numbers tell the changes that need this one.
    pub fn needing(&self, change: ChangeNo) -> &[Pair]
        requires { IsKeptChangeTable self.now }
        ensures rising { IsRising (map (λ p. p.second) result.now) }
        ensures small { AllByRecursion IsSmall result.now }
        ensures told { (n : ℕ) → list_any (λ m. m == change) (needs_in (changes_of self.now) n) ≡ true →
            In (pair_of_need change n) result.now }
        ensures back { AllByRecursion (λ p. In change (needs_in (changes_of self.now) p.second)) result.now }
    {
        of_first(&self.needs, change.get())
    }

    /// Whether a change needs another.
    pub fn needs(&self, number: ChangeNo, other: ChangeNo) -> bool
        requires { IsKeptChangeTable self.now }
        ensures { result ≡ list_any (λ m. m == other) (needs_in (changes_of self.now) number) }
    {
        match self.row(number) {
            Some(row) => row_needs(row, other),
            None => false,
        }
    }

    /// The ready changes in order of approval: exact for any list that the rows tell.
    pub fn ready(&self, alloc: Global) -> Result<Sequence<Ready>, NoMemory>
        requires { IsKeptChangeTable self.now }
        ensures { IfOk result (IsWhatRowsTell (changes_of self.now)) }
    {
        let found = collect_ready(alloc, &self.rows, &self.positions, &self.ready)?;
        Ok(found)
    }

    /// The ready changes that need this one, in order of approval: exact for any list that the rows tell. Found by the
    /// changes that need it.
    pub fn ready_needing(
        &self,
        alloc: Global,
        change: ChangeNo,
    ) -> Result<Sequence<Ready>, NoMemory>
        requires { IsKeptChangeTable self.now }
        ensures { IfOk result (IsWhatRowsTellOf (changes_of self.now) change) }
    {
        let pairs = self.needing(change);
        let found = collect_needing(alloc, &self.rows, &self.positions, pairs, change)?;
        Ok(by_approval(found))
    }
}
