//! The settings.
ghost use Rattle.std.specs.Prelude.{◌≡◌, IfOk};

use crate::names::{Base, Name, NoMemory, PathName};
use crate::sequence::Sequence;
use std::alloc::Global;
use std::marker::Model;

/// A job of a project. One that doesn't vote is waited for, and doesn't decide.
#[derive(Drop)]
pub struct Job {
    pub name: Name,
    pub voting: bool,
}

impl Job {
    ghost use Rattle.std.specs.Prelude.{◌≡◌, IfOk};

    pub fn copy(&self) -> Result<Job, NoMemory>
        ensures { IfOk result (λ job. job ≡ self.now) }
    {
        Ok(Job {
            name: self.name.copy()?,
            voting: self.voting,
        })
    }
}

/// Whether a window changes by a number of items, or by a factor.
#[derive(Clone, Copy, PartialEq, Eq)]
pub enum Pace {
    Linear,
    Exponential,
}

impl Pace {
    ghost use Rattle.std.specs.Prelude.{◌≡◌};
    ghost use Rattle.gate_types.specs.Settings.{pace_word, pace_named};

    /// The word that settings have for it.
    pub fn word(self) -> &'static str
        ensures { result.now ≡ pace_word self }
    {
        match self {
            Pace::Linear => "linear",
            Pace::Exponential => "exponential",
        }
    }

    /// The pace of a word, if it is one.
    pub fn of_word(word: &str) -> Option<Pace>
        ensures { result ≡ pace_named word.now }
    {
        if word == "linear" {
            Some(Pace::Linear)
        } else if word == "exponential" {
            Some(Pace::Exponential)
        } else {
            None
        }
    }
}

/// How a window changes: with each landing it grows by `increase_by`, with each failure it shrinks by
/// `decrease_by` (1 to 1,000 each).
#[derive(Clone, Copy, PartialEq, Eq)]
pub struct WindowRule {
    pub increase: Pace,
    pub increase_by: u32,
    pub decrease: Pace,
    pub decrease_by: u32,
}

impl Default for WindowRule {
    ghost use Rattle.std.specs.Prelude.{◌≡◌};
    ghost use Rattle.gate_types.specs.Settings.{default_rule};

    ghost is_default = { λ rule. rule ≡ default_rule };

    fn default() -> WindowRule {
        WindowRule {
            increase: Pace::Linear,
            increase_by: 1,
            decrease: Pace::Exponential,
            decrease_by: 2,
        }
    }
}

/// A queue: `window` is how many items may be tested at once (0 sets no bound, at most 1,000),
/// `floor` the least that failures leave of it (1 to 1,000), and `rule` how it changes.
#[derive(Drop)]
pub struct Queue {
    pub name: Name,
    pub window: u32,
    pub floor: u32,
    pub rule: WindowRule,
}

impl Queue {
    ghost use Rattle.std.specs.Prelude.{◌≡◌, IfOk};

    fn copy(&self) -> Result<Queue, NoMemory>
        ensures { IfOk result (λ queue. queue ≡ self.now) }
    {
        Ok(Queue {
            name: self.name.copy()?,
            window: self.window,
            floor: self.floor,
            rule: self.rule,
        })
    }
}

/// A project, and the queue that its changes stand in. Where it says `fail_fast`, the failure of one voting
/// job ends the other jobs of an item.
#[derive(Drop)]
pub struct Project {
    pub name: PathName,
    pub queue: Name,
    pub jobs: Sequence<Job>,
    pub fail_fast: bool,
}

impl Project {
    ghost use Rattle.std.specs.Prelude.{◌≡◌, IfOk};

    fn copy(&self) -> Result<Project, NoMemory>
        ensures { IfOk result (λ project. project ≡ self.now) }
    {
        Ok(Project {
            name: self.name.copy()?,
            queue: self.queue.copy()?,
            jobs: copied_jobs(self.jobs.allocator(), self.jobs.as_slice())?,
            fail_fast: self.fail_fast,
        })
    }
}

/// The jobs, copied one by one.
pub(crate) fn copied_jobs(alloc: Global, jobs: &[Job]) -> Result<Sequence<Job>, NoMemory>
    ensures { IfOk result (λ copies. copies ≡ jobs.now) }
{
    let mut copies = Vec::new(alloc);
    for job in jobs {
        copies.push(job.copy()?)?;
    }
    Ok(Sequence::from_vec(copies))
}

/// The queues, copied one by one.
fn copied_queues(alloc: Global, queues: &[Queue]) -> Result<Sequence<Queue>, NoMemory>
    ensures { IfOk result (λ copies. copies ≡ queues.now) }
{
    let mut copies = Vec::new(alloc);
    for queue in queues {
        copies.push(queue.copy()?)?;
    }
    Ok(Sequence::from_vec(copies))
}

/// The projects, copied one by one.
fn copied_projects(alloc: Global, projects: &[Project]) -> Result<Sequence<Project>, NoMemory>
    ensures { IfOk result (λ copies. copies ≡ projects.now) }
{
    let mut copies = Vec::new(alloc);
    for project in projects {
        copies.push(project.copy()?)?;
    }
    Ok(Sequence::from_vec(copies))
}

/// The settings of a gate. No `Config` has a fault that reading a settings file answers.
#[derive(Drop)]
pub struct Config {
    pub base: Base,
    pub queues: Sequence<Queue>,
    pub projects: Sequence<Project>,
}

impl Model for Config {
    ghost use Rattle.std.specs.Prelude.{IsTrue};
    ghost use Rattle.gate_types.specs.Settings.{Settings, are_sound};

    ghost Value = { Settings };

    ghost view = { λ c. record { base = c.base; queues = c.queues; projects = c.projects } };

    ghost invariant = { λ c. IsTrue (are_sound (record { base = c.base; queues = c.queues; projects = c.projects })) };
}

impl Config {
    ghost use Rattle.std.specs.Prelude.{◌≡◌, find, option_copied, true, IfOk};
    ghost use Rattle.gate_types.specs.Names.{same_name};
    ghost use Rattle.gate_types.specs.Settings.{are_sound};

    /// Shows a proof that the settings are sound. It does nothing when it runs.
    pub fn show_sound(&self)
        ensures { are_sound self.now ≡ true }
    {
        let _base = &self.base;
    }

    /// The queue of a name.
    pub fn queue(&self, name: &str) -> Option<&Queue>
        ensures { option_copied result ≡ find (λ q. same_name q.name name.now) self.now.queues }
    {
        self.queues
            .as_slice()
            .iter()
            .find(|queue| queue.name.as_str() == name)
    }

    /// The project of a name.
    pub fn project(&self, name: &str) -> Option<&Project>
        ensures { option_copied result ≡ find (λ p. same_name p.name name.now) self.now.projects }
    {
        self.projects
            .as_slice()
            .iter()
            .find(|project| project.name.as_str() == name)
    }

    pub fn copy(&self) -> Result<Config, NoMemory>
        ensures { IfOk result (λ config. config ≡ self.now) }
    {
        let queues = copied_queues(self.queues.allocator(), self.queues.as_slice())?;
        let projects = copied_projects(self.projects.allocator(), self.projects.as_slice())?;
        Ok(Config {
            base: self.base.copy()?,
            queues,
            projects,
        })
    }
}
