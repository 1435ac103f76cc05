//! An index of which change needs which.
ghost use Rattle.std.specs.Prelude.{◌≡◌, ◌≢◌, ◌≤◌, ◌+◌, ◌⊎◌, ℕ, length, OnOk, IfSome, vec_len, vec_capacity};
ghost use Rattle.std.specs.List.{AllByRecursion};
ghost use Rattle.gate_types.specs.Rising.{In};
ghost use Rattle.gate_memory.specs.Needs.{AreInOrder, IsRising, TellsNeedsOf, TellsNoneOf, needs_brought, needs_of_all};
ghost use Rattle.gate_memory.specs.declared.pairs.Pair.{Pair};

use crate::pairs::{Pair, paired};
use crate::sorted;
use crate::sorted::Keyed;
use gate_types::edits::Edit;
use gate_types::names::NoMemory;
use gate_types::numbers::ChangeNo;

impl Keyed for u64 {
    ghost key = { λ n. n };

    fn key(&self) -> u128 {
        *self as u128
    }
}

/// Adds the needs of a change, where there is room.
pub fn note_needs(index: &mut Vec<Pair>, number: ChangeNo, needs: &[ChangeNo])
    requires room { vec_len index.old + length needs.now ≤ vec_capacity index.old }
    requires order { AreInOrder index.old.items }
    ensures order { AreInOrder index.new.items }
    ensures told { TellsNeedsOf index.new.items number needs.now }
    ensures others { (p : Pair) → In p index.old.items → In p index.new.items }
    ensures back { (p : Pair) → In p index.new.items →
        In p index.old.items ⊎ ((p.second ≡ number) × In p.first needs.now) }
    ensures len { vec_len index.new ≤ vec_len index.old + length needs.now }
    ensures capacity { vec_capacity index.new ≡ vec_capacity index.old }
{
    for need in needs {
        sorted::put(
            index,
            Pair {
                first: need.get(),
                second: number.get(),
            },
        );
    }
}

/// Drops the needs of a change.
pub fn forget_needs(index: &mut Vec<Pair>, number: ChangeNo, needs: &[ChangeNo])
    requires { AreInOrder index.old.items }
    ensures order { AreInOrder index.new.items }
    ensures gone { TellsNoneOf index.new.items number needs.now }
    ensures others { (p : Pair) → p.second ≢ number → In p index.old.items → In p index.new.items }
    ensures back { (p : Pair) → In p index.new.items → In p index.old.items }
    ensures len { vec_len index.new ≤ vec_len index.old }
    ensures capacity { vec_capacity index.new ≡ vec_capacity index.old }
{
    for need in needs {
        sorted::remove(index, paired(need.get(), number.get()).key());
    }
}

/// Adds the second numbers of these pairs.
pub fn add_seconds(numbers: &mut Vec<u64>, pairs: &[Pair]) -> Result<(), NoMemory>
    requires { IsRising numbers.old.items }
    ensures rising { OnOk result (IsRising numbers.new.items) }
    ensures told { OnOk result (AllByRecursion (λ p. In p.second numbers.new.items) pairs.now) }
    ensures others { OnOk result ((n : ℕ) → In n numbers.old.items → In n numbers.new.items) }
{
    for pair in pairs {
        numbers.reserve(1)?;
        sorted::put(numbers, pair.second);
    }
    Ok(())
}

fn needs_of(edit: &Edit) -> usize
    ensures { result ≡ needs_brought edit.now }
{
    match edit {
        Edit::PutChange { change, .. } => change.needs.as_slice().len(),
        _ => 0,
    }
}

/// How many needs the changes have that some edits put; None where that is more than can be kept.
pub fn count_needs(edits: &[Edit]) -> Option<usize>
    ensures { IfSome result (λ count. count ≡ needs_of_all edits.now) }
{
    let mut count: usize = 0;
    for edit in edits {
        match count.checked_add(needs_of(edit)) {
            Some(sum) => count = sum,
            None => return None,
        }
    }
    Some(count)
}
