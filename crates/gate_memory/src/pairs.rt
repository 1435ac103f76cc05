//! Pairs of numbers: what an index keeps.
ghost use Rattle.std.specs.Prelude.{◌≡◌, ◌==◌, ◌+◌, ◌<◌, ◌≤◌, ◌^◌, not, filter, vec_len, vec_capacity};
ghost use Rattle.std.specs.List.{AllByRecursion, remove_range};
ghost use Rattle.gate_types.specs.Rising.{RisesFrom};
ghost use Rattle.gate_memory.specs.Pairs.{pair_key, IsFit};

use crate::sorted::{Keyed, between, position_of};

/// Two numbers, the first of which decides the order before the second.
#[derive(Clone, Copy, PartialEq, Eq)]
pub struct Pair {
    pub first: u64,
    pub second: u64,
}

impl Keyed for Pair {
    ghost use Rattle.gate_memory.specs.Pairs.{pair_key};

    ghost key = { pair_key };

    fn key(&self) -> u128 {
        self.first as u128 * (1 << 64) + self.second as u128
    }
}

/// Two numbers as a pair.
pub fn paired(first: u64, second: u64) -> Pair
    ensures pair { result ≡ record { first = first; second = second } }
    ensures fit { IsFit result }
{
    Pair { first, second }
}

/// The pairs with a first number.
pub fn of_first(pairs: &[Pair], first: u64) -> &[Pair]
    requires rising { RisesFrom pair_key 0 pairs.now }
    requires fit { AllByRecursion IsFit pairs.now }
    requires next { first + 1 < 2 ^ 64 }
    ensures { result.now ≡ filter (λ p. p.first == first) pairs.now }
{
    let least = Pair { first, second: 0 };
    let next = Pair {
        first: first + 1,
        second: 0,
    };
    between(pairs, least.key(), next.key())
}

/// Drops the pairs from a position on, up to and without another.
fn drop_positions(pairs: &mut Vec<Pair>, start: usize, end: usize)
    requires ordered { start ≤ end }
    requires within { end ≤ vec_len pairs.old }
    ensures pairs { pairs.new.items ≡ remove_range pairs.old.items start end }
    ensures len { vec_len pairs.new ≤ vec_len pairs.old }
    ensures capacity { vec_capacity pairs.new ≡ vec_capacity pairs.old }
{
    let left = pairs.len() - (end - start);
    pairs.copy_within(end.., start);
    pairs.truncate(left);
}

/// Drops the pairs with a first number: what stands behind them moves once.
pub fn remove_first(pairs: &mut Vec<Pair>, first: u64)
    requires rising { RisesFrom pair_key 0 pairs.old.items }
    requires fit { AllByRecursion IsFit pairs.old.items }
    requires next { first + 1 < 2 ^ 64 }
    ensures pairs { pairs.new.items ≡ filter (λ p. not (p.first == first)) pairs.old.items }
    ensures len { vec_len pairs.new ≤ vec_len pairs.old }
    ensures capacity { vec_capacity pairs.new ≡ vec_capacity pairs.old }
{
    let least = Pair { first, second: 0 };
    let next = Pair {
        first: first + 1,
        second: 0,
    };
    let start = position_of(pairs, least.key());
    let end = position_of(pairs, next.key());
    drop_positions(pairs, start, end);
}
