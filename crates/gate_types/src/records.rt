//! The records of the gate's state.
ghost use Rattle.std.specs.Prelude.{◌≡◌, IfOk};

use crate::config::{Job, Project, copied_jobs};
use crate::names::{Name, NoMemory, PathName, Text};
use crate::numbers::{BuildNo, ChangeNo, Revision, Serial};
use crate::sequence::Sequence;
use std::marker::Model;

/// A change at a revision.
#[derive(Clone, Copy, PartialEq, Eq)]
pub struct Entry {
    pub change: ChangeNo,
    pub revision: Revision,
}

/// How far a build has come.
#[derive(Clone, Copy, PartialEq, Eq)]
pub enum Outcome {
    Running,
    Success,
    Failure,
    Lost,
}

/// What a job of an item has come to. A skipped one gets no more builds, since another has failed.
#[derive(Clone, Copy, PartialEq, Eq)]
pub enum Slot {
    Waiting,
    Running,
    Success,
    Failure,
    Skipped,
}

/// Why an item left its queue. `Landed` holds the landing's place among those of its queue, from 1.
#[derive(Clone, Copy, PartialEq, Eq)]
pub enum Verdict {
    Landed(u64),
    Failed,
    Refused,
    Needs,
    Superseded,
    Withdrawn,
    Closed,
}

/// What has become of a change.
#[derive(Clone, Copy, PartialEq, Eq)]
pub enum Stage {
    Open,
    Landed,
    Closed,
}

/// A change at its latest revision, with the changes that this revision needs (at most 32).
#[derive(Drop)]
pub struct Change {
    pub number: ChangeNo,
    pub project: PathName,
    pub revision: Revision,
    pub stage: Stage,
    pub needs: Sequence<ChangeNo>,
}

impl Change {
    ghost use Rattle.std.specs.Prelude.{◌≡◌, IfOk};
    ghost use Rattle.gate_types.specs.State.{is_landed, known_or_closed};

    pub fn is_landed(&self) -> bool
        ensures { result ≡ is_landed self.now }
    {
        matches!(self.stage, Stage::Landed)
    }

    /// Whether it is known that a change has landed.
    pub fn has_landed(known: &Option<Change>) -> bool
        ensures { result ≡ is_landed (known_or_closed known.now) }
    {
        match known {
            Some(change) => change.is_landed(),
            None => false,
        }
    }

    pub fn copy(&self) -> Result<Change, NoMemory>
        ensures { IfOk result (λ change. change ≡ self.now) }
    {
        Ok(Change {
            number: self.number,
            project: self.project.copy()?,
            revision: self.revision,
            stage: self.stage,
            needs: self.needs.copy()?,
        })
    }
}

/// A change in a queue, with the serial of the last item before it that isn't failing.
#[derive(Clone, Copy, PartialEq, Eq)]
pub struct Item {
    pub serial: Serial,
    pub change: ChangeNo,
    pub revision: Revision,
    pub ahead: Option<Serial>,
    pub failing: bool,
}

/// A change that landed.
#[derive(Clone, Copy, PartialEq, Eq)]
pub struct Landing {
    pub serial: Serial,
    pub change: ChangeNo,
    pub revision: Revision,
}

/// What an item was admitted with: the jobs of its project then, and whether it fails fast. A landing
/// keeps its jobs.
#[derive(Drop)]
pub struct Plan {
    pub serial: Serial,
    pub jobs: Sequence<Job>,
    pub fast: bool,
}

impl Plan {
    ghost use Rattle.std.specs.Prelude.{◌≡◌, IfOk};

    /// What an item of a project is admitted with under a serial.
    pub fn of_project(project: &Project, serial: Serial) -> Result<Plan, NoMemory>
        ensures { IfOk result (λ plan. plan
            ≡ record { serial = serial; jobs = project.now.jobs; fast = project.now.fail_fast }) }
    {
        Ok(Plan {
            serial,
            jobs: copied_jobs(project.jobs.allocator(), project.jobs.as_slice())?,
            fast: project.fail_fast,
        })
    }

    pub fn copy(&self) -> Result<Plan, NoMemory>
        ensures { IfOk result (λ plan. plan ≡ self.now) }
    {
        Ok(Plan {
            serial: self.serial,
            jobs: copied_jobs(self.jobs.allocator(), self.jobs.as_slice())?,
            fast: self.fast,
        })
    }
}

/// An approved change that stands in no queue, under the number of its approval (1 to 10^15).
#[derive(Clone, Copy, PartialEq, Eq)]
pub struct Ready {
    pub approval: u64,
    pub change: ChangeNo,
}

/// A build of a job of an item. It runs on the first `after` landings of its queue, then on
/// `ahead`, then on its own change. Once it isn't `live`, its outcome decides nothing.
#[derive(Drop)]
pub struct Build {
    pub number: BuildNo,
    pub queue: Name,
    pub serial: Serial,
    pub change: ChangeNo,
    pub revision: Revision,
    pub job: Name,
    pub after: u64,
    pub ahead: Sequence<Entry>,
    pub outcome: Outcome,
    pub live: bool,
}

impl Build {
    ghost use Rattle.std.specs.Prelude.{◌≡◌, IfOk};

    pub fn copy(&self) -> Result<Build, NoMemory>
        ensures { IfOk result (λ build. build ≡ self.now) }
    {
        Ok(Build {
            number: self.number,
            queue: self.queue.copy()?,
            serial: self.serial,
            change: self.change,
            revision: self.revision,
            job: self.job.copy()?,
            after: self.after,
            ahead: self.ahead.copy()?,
            outcome: self.outcome,
            live: self.live,
        })
    }
}

/// That an item left its queue, and why.
#[derive(Clone, Copy, PartialEq, Eq)]
pub struct Report {
    pub serial: Serial,
    pub change: ChangeNo,
    pub revision: Revision,
    pub verdict: Verdict,
}

/// The last number drawn of each kind, 0 at first: at most 10^15 each.
#[derive(Clone, Copy, PartialEq, Eq)]
pub struct Counters {
    pub approval: u64,
    pub build: u64,
    pub order: u64,
}

impl Model for Counters {
    ghost use Rattle.std.specs.Prelude.{◌≤◌};
    ghost use Rattle.gate_types.specs.Counters.{Drawn, last_number};

    ghost Value = { Drawn };

    ghost view = { λ c. record { approval = c.approval; build = c.build; order = c.order } };

    ghost invariant = { λ c.
        (c.approval ≤ last_number) × (c.build ≤ last_number) × (c.order ≤ last_number) };

    ghost inverse = { λ d. record { approval = d.approval; build = d.build; order = d.order } };
}

/// A need of an item's change, and whether that change has landed.
#[derive(Clone, Copy, PartialEq, Eq)]
pub struct Need {
    pub change: ChangeNo,
    pub landed: bool,
}

/// The id of a delivery: a UUID.
#[derive(Clone, Copy, PartialEq, Eq)]
pub struct Id(pub [u8; 16]);

/// What is kept of an accepted delivery: its canonical text and its reply's text.
#[derive(Drop)]
pub struct Kept {
    pub id: Id,
    pub said: Text,
    pub reply: Text,
}

impl Kept {
    ghost use Rattle.std.specs.Prelude.{◌≡◌, IfOk};

    pub fn copy(&self) -> Result<Kept, NoMemory>
        ensures { IfOk result (λ kept. kept ≡ self.now) }
    {
        Ok(Kept {
            id: self.id,
            said: self.said.copy()?,
            reply: self.reply.copy()?,
        })
    }
}
