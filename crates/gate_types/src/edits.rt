//! Edits: each puts, changes or drops one keyed row of the gate's tables.
use crate::names::{Name, NoMemory};
use crate::numbers::{BuildNo, ChangeNo, Serial};
use crate::records::{Build, Change, Item, Kept, Landing, Outcome, Plan, Report, Stage};

/// One of the three counters.
#[derive(Clone, Copy, PartialEq, Eq)]
pub enum Counter {
    Approval,
    Build,
    Order,
}

/// A change of one row. Nothing is ever dropped but items, each with its plan.
#[derive(Drop)]
pub enum Edit {
    /// The change's row, its approval number while it is ready, and its needs in place of the old ones.
    PutChange {
        change: Change,
        approval: Option<u64>,
    },
    /// The change's stage; it is ready no longer, and its other columns and its needs stay. Where no such
    /// change stands, nothing is set.
    SetStage {
        change: ChangeNo,
        stage: Stage,
    },
    PutItem {
        queue: Name,
        item: Item,
    },
    /// The item's row, and the plan under its serial.
    DropItem(Serial),
    /// The item's row, and the mark of its plan; its jobs stay, under its serial.
    LandItem(Serial),
    /// What an item is admitted with, or what a landing keeps of that.
    PutPlan(Plan),
    /// The n-th landing of its queue, from 1.
    PutLanding {
        queue: Name,
        place: u64,
        landing: Landing,
    },
    /// The report at a place of its queue, from 1.
    PutReport {
        queue: Name,
        place: u64,
        report: Report,
    },
    PutBuild(Build),
    SetOutcome {
        build: BuildNo,
        outcome: Outcome,
    },
    /// The build stops being live.
    StopBuild(BuildNo),
    SetWindow {
        queue: Name,
        window: u32,
    },
    SetCounter {
        counter: Counter,
        drawn: u64,
    },
    /// An accepted delivery, with its reply.
    Keep(Kept),
}

impl Edit {
    ghost use Rattle.std.specs.Prelude.{◌≡◌, IfOk};

    pub fn copy(&self) -> Result<Edit, NoMemory>
        ensures { IfOk result (λ edit. edit ≡ self.now) }
    {
        match self {
            Edit::PutChange { change, approval } => Ok(Edit::PutChange {
                change: change.copy()?,
                approval: *approval,
            }),
            Edit::SetStage { change, stage } => Ok(Edit::SetStage {
                change: *change,
                stage: *stage,
            }),
            Edit::PutItem { queue, item } => Ok(Edit::PutItem {
                queue: queue.copy()?,
                item: *item,
            }),
            Edit::DropItem(serial) => Ok(Edit::DropItem(*serial)),
            Edit::LandItem(serial) => Ok(Edit::LandItem(*serial)),
            Edit::PutPlan(plan) => Ok(Edit::PutPlan(plan.copy()?)),
            Edit::PutLanding {
                queue,
                place,
                landing,
            } => Ok(Edit::PutLanding {
                queue: queue.copy()?,
                place: *place,
                landing: *landing,
            }),
            Edit::PutReport {
                queue,
                place,
                report,
            } => Ok(Edit::PutReport {
                queue: queue.copy()?,
                place: *place,
                report: *report,
            }),
            Edit::PutBuild(build) => Ok(Edit::PutBuild(build.copy()?)),
            Edit::SetOutcome { build, outcome } => Ok(Edit::SetOutcome {
                build: *build,
                outcome: *outcome,
            }),
            Edit::StopBuild(number) => Ok(Edit::StopBuild(*number)),
            Edit::SetWindow { queue, window } => Ok(Edit::SetWindow {
                queue: queue.copy()?,
                window: *window,
            }),
            Edit::SetCounter { counter, drawn } => Ok(Edit::SetCounter {
                counter: *counter,
                drawn: *drawn,
            }),
            Edit::Keep(kept) => Ok(Edit::Keep(kept.copy()?)),
        }
    }
}
