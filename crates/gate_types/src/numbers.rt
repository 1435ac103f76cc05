//! Numbers in their ranges.
ghost use Rattle.std.specs.Prelude.{◌≡◌, ℕ, ◌≤◌, ◌↔◌, IsSome, IfSome};
ghost use Rattle.gate_types.specs.Counters.{last_number};

use std::marker::Model;

/// The last number that is drawn of orders, builds and approvals: 10^15.
pub const LAST_NUMBER: u64 = 1_000_000_000_000_000;

/// The number of a change: 1 to 999,999,999.
#[derive(Clone, Copy, PartialEq, Eq, PartialOrd, Ord)]
pub struct ChangeNo {
    number: u32,
}

impl Model for ChangeNo {
    ghost Value = { ℕ };

    ghost view = { λ c. c.number };

    ghost invariant = { λ c. (1 ≤ c.number) × (c.number ≤ 999999999) };

    ghost inverse = { λ n. record { number = n } };
}

impl ChangeNo {
    /// None where the number is out of range.
    pub fn new(number: u64) -> Option<Self>
        ensures range { IsSome result ↔ ((1 ≤ number) × (number ≤ 999999999)) }
        ensures value { IfSome result (λ c. c ≡ number) }
    {
        if 1 <= number && number <= 999_999_999 {
            Some(ChangeNo {
                number: number as u32,
            })
        } else {
            None
        }
    }

    pub fn get(self) -> u64
        ensures value { result ≡ self }
        ensures range { (1 ≤ self) × (self ≤ 999999999) }
    {
        let ChangeNo { number } = self;
        u64::from(number)
    }
}

/// The revision of a change: 1 to 9,999.
#[derive(Clone, Copy, PartialEq, Eq, PartialOrd, Ord)]
pub struct Revision {
    number: u16,
}

impl Model for Revision {
    ghost Value = { ℕ };

    ghost view = { λ r. r.number };

    ghost invariant = { λ r. (1 ≤ r.number) × (r.number ≤ 9999) };

    ghost inverse = { λ n. record { number = n } };
}

impl Revision {
    /// None where the number is out of range.
    pub fn new(number: u64) -> Option<Self>
        ensures range { IsSome result ↔ ((1 ≤ number) × (number ≤ 9999)) }
        ensures value { IfSome result (λ r. r ≡ number) }
    {
        if 1 <= number && number <= 9_999 {
            Some(Revision {
                number: number as u16,
            })
        } else {
            None
        }
    }

    pub fn get(self) -> u64
        ensures value { result ≡ self }
        ensures range { (1 ≤ self) × (self ≤ 9999) }
    {
        let Revision { number } = self;
        u64::from(number)
    }
}

/// The serial of an item, which is also the number of its order: 1 to 10^15.
#[derive(Clone, Copy, PartialEq, Eq, PartialOrd, Ord)]
pub struct Serial {
    number: u64,
}

impl Model for Serial {
    ghost Value = { ℕ };

    ghost view = { λ s. s.number };

    ghost invariant = { λ s. (1 ≤ s.number) × (s.number ≤ last_number) };

    ghost inverse = { λ n. record { number = n } };
}

impl Serial {
    /// None where the number is out of range.
    pub fn new(number: u64) -> Option<Self>
        ensures range { IsSome result ↔ ((1 ≤ number) × (number ≤ last_number)) }
        ensures value { IfSome result (λ s. s ≡ number) }
    {
        if 1 <= number && number <= LAST_NUMBER {
            Some(Serial { number })
        } else {
            None
        }
    }

    pub fn get(self) -> u64
        ensures value { result ≡ self }
        ensures range { (1 ≤ self) × (self ≤ last_number) }
    {
        let Serial { number } = self;
        number
    }
}

/// The number of a build: 1 to 10^15.
#[derive(Clone, Copy, PartialEq, Eq, PartialOrd, Ord)]
pub struct BuildNo {
    number: u64,
}

impl Model for BuildNo {
    ghost Value = { ℕ };

    ghost view = { λ b. b.number };

    ghost invariant = { λ b. (1 ≤ b.number) × (b.number ≤ last_number) };

    ghost inverse = { λ n. record { number = n } };
}

impl BuildNo {
    /// None where the number is out of range.
    pub fn new(number: u64) -> Option<Self>
        ensures range { IsSome result ↔ ((1 ≤ number) × (number ≤ last_number)) }
        ensures value { IfSome result (λ b. b ≡ number) }
    {
        if 1 <= number && number <= LAST_NUMBER {
            Some(BuildNo { number })
        } else {
            None
        }
    }

    pub fn get(self) -> u64
        ensures value { result ≡ self }
        ensures range { (1 ≤ self) × (self ≤ last_number) }
    {
        let BuildNo { number } = self;
        number
    }
}
