//! The settings as one text.
ghost use Rattle.std.specs.Prelude.{◌≡◌, [], codes, if◌then◌else◌, IfOk, string_bytes};
ghost use Rattle.std.specs.List.{join_by};
ghost use Rattle.gate_types.specs.Settings.{is_linear, pace_word};
ghost use Rattle.gate_types.specs.JsonText.{number as number_piece, plain, member, leading};
ghost use Rattle.gate_types.specs.SettingsText.{job_text, project_text, unless, queue_text};

use crate::config::{Config, Job, Pace, Project, Queue};
use crate::json_text::quote;
use crate::names::NoMemory;
use crate::words::truth_word;
use std::alloc::Global;

impl Config {
    ghost use Rattle.gate_types.specs.SettingsText.{settings_text};

    /// Compact JSON with all settings, members in byte order of their names, lists in their order. A queue's rule and
    /// `fail_fast` are told only where they aren't the default.
    pub fn text(&self, alloc: Global) -> Result<String, NoMemory>
        ensures { IfOk result (λ s. string_bytes s ≡ settings_text self.now) }
    {
        let base = quote(alloc, self.base.as_str())?;
        let projects = project_texts(alloc, self.projects.as_slice())?;
        let queues = queue_texts(alloc, self.queues.as_slice())?;
        format!(in alloc; "{{\"base\":{base},\"projects\":[{projects}],\"queues\":[{queues}]}}")
    }
}

fn job_text(alloc: Global, job: &Job) -> Result<String, NoMemory>
    ensures { IfOk result (λ s. string_bytes s ≡ job_text job.now) }
{
    let name = job.name.as_str();
    let voting = truth_word(job.voting);
    format!(in alloc; "{{\"name\":\"{name}\",\"voting\":{voting}}}")
}

fn is_linear(pace: Pace) -> bool
    ensures { result ≡ is_linear pace }
{
    matches!(pace, Pace::Linear)
}

/// The member of a pace with the comma behind it, and nothing where it is the default.
fn pace_text(alloc: Global, name: &str, pace: Pace, is_default: bool) -> Result<String, NoMemory>
    ensures { IfOk result (λ s. string_bytes s
        ≡ leading (unless is_default (member name.now (plain (pace_word pace)))) []) }
{
    if is_default {
        return Ok(String::new(alloc));
    }
    let word = pace.word();
    format!(in alloc; "\"{name}\":\"{word}\",")
}

/// The member of a number with the comma behind it, and nothing where it is the default.
fn number_text(alloc: Global, name: &str, number: u32, is_default: bool) -> Result<String, NoMemory>
    ensures { IfOk result (λ s. string_bytes s
        ≡ leading (unless is_default (member name.now (number_piece number))) []) }
{
    if is_default {
        return Ok(String::new(alloc));
    }
    format!(in alloc; "\"{name}\":{number},")
}

fn queue_text(alloc: Global, queue: &Queue) -> Result<String, NoMemory>
    ensures { IfOk result (λ s. string_bytes s ≡ queue_text queue.now) }
{
    let rule = queue.rule;
    let decrease = pace_text(alloc, "decrease", rule.decrease, !is_linear(rule.decrease))?;
    let decrease_by = number_text(
        alloc,
        "decrease_by",
        rule.decrease_by,
        rule.decrease_by == 2,
    )?;
    let floor = queue.floor;
    let increase = pace_text(alloc, "increase", rule.increase, is_linear(rule.increase))?;
    let increase_by = number_text(
        alloc,
        "increase_by",
        rule.increase_by,
        rule.increase_by == 1,
    )?;
    let name = queue.name.as_str();
    let window = queue.window;
    let text = format!(in alloc;
        "{{{decrease}{decrease_by}\"floor\":{floor},{increase}{increase_by}\"name\":\"{name}\",\"window\":{window}}}"
    )?;
    Ok(text)
}

/// The member of `fail_fast` with the comma behind it, and nothing where it is false.
fn fast_text(fail_fast: bool) -> &'static str
    ensures { result.now ≡ (if fail_fast then codes "\"fail_fast\":true," else []) }
{
    if fail_fast { "\"fail_fast\":true," } else { "" }
}

fn project_text(alloc: Global, project: &Project) -> Result<String, NoMemory>
    ensures { IfOk result (λ s. string_bytes s ≡ project_text project.now) }
{
    let fail_fast = fast_text(project.fail_fast);
    let jobs = job_texts(alloc, project.jobs.as_slice())?;
    let name = project.name.as_str();
    let queue = project.queue.as_str();
    let text = format!(in alloc;
        "{{{fail_fast}\"jobs\":[{jobs}],\"name\":\"{name}\",\"queue\":\"{queue}\"}}"
    )?;
    Ok(text)
}

/// The jobs, with commas between.
fn job_texts(alloc: Global, jobs: &[Job]) -> Result<String, NoMemory>
    ensures { IfOk result (λ s. string_bytes s ≡ join_by job_text (codes ",") jobs.now) }
{
    let mut texts = Vec::new(alloc);
    for job in jobs {
        texts.push(job_text(alloc, job)?)?;
    }
    Ok(texts.join(alloc, ",")?)
}

/// The queues, with commas between.
fn queue_texts(alloc: Global, queues: &[Queue]) -> Result<String, NoMemory>
    ensures { IfOk result (λ s. string_bytes s ≡ join_by queue_text (codes ",") queues.now) }
{
    let mut texts = Vec::new(alloc);
    for queue in queues {
        texts.push(queue_text(alloc, queue)?)?;
    }
    Ok(texts.join(alloc, ",")?)
}

/// The projects, with commas between.
fn project_texts(alloc: Global, projects: &[Project]) -> Result<String, NoMemory>
    ensures { IfOk result (λ s. string_bytes s ≡ join_by project_text (codes ",") projects.now) }
{
    let mut texts = Vec::new(alloc);
    for project in projects {
        texts.push(project_text(alloc, project)?)?;
    }
    Ok(texts.join(alloc, ",")?)
}
