//! What the rules of a queue ask for beside its items and builds.
ghost use Rattle.std.specs.Prelude.{◌≤◌};
ghost use Rattle.gate_types.specs.Counters.{last_number};

use gate_types::config::{Job, Queue};
use gate_types::records::{Landing, Need};

/// What is known of an item beside its row: the needs of its change, each with whether it has landed,
/// the jobs of its plan, and whether one failure ends them all.
#[derive(Clone, Copy)]
pub struct ItemFacts<'a> {
    pub needs: &'a [Need],
    pub jobs: &'a [Job],
    pub fast: bool,
}

/// What is known of a queue: its settings, its window, what has landed in it, and how many reports
/// it has made, at most 10^15. `items` has those of each of the queue's items, in order.
#[derive(Clone, Copy)]
pub struct Facts<'a> {
    pub settings: &'a Queue,
    pub window: u32,
    pub landings: &'a [Landing],
    pub items: &'a [ItemFacts<'a>],
    pub reports: u64,
    pub ghost reports_in_range: { reports ≤ last_number },
}

/// The jobs of an item's plan, whether one failure ends them all, and whether the item is blocked.
#[derive(Clone, Copy)]
pub struct ItemJobs<'a> {
    pub jobs: &'a [Job],
    pub fast: bool,
    pub blocked: bool,
}

/// What a choice asks for: `items` has the jobs of each of the queue's items, in order.
#[derive(Clone, Copy)]
pub struct Jobs<'a> {
    pub items: &'a [ItemJobs<'a>],
}
