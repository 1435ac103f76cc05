//! Settings with as many queues, projects and jobs as there may be.
use gate_config::read;
use gate_types::config::Config;
use std::alloc::{AllocError, Global};
use std::process::Abort;

/// As many queues as there may be.
pub(crate) const QUEUES: u32 = 32;

/// With this many projects in each queue there are 256, as many as there may be.
pub(crate) const PROJECTS_OF_A_QUEUE: u32 = 8;

/// As many jobs as a project may have.
pub(crate) const JOBS: u32 = 32;

/// The first lines of settings.
const FORGE: &str = "[forge]\nbase = \"https://forge/c/\"\n";

/// Adds a project with all its jobs.
fn push_project(text: &mut String, name: &str, queue: &str) -> Result<(), AllocError> {
    write!(
        text,
        "[[project]]\nname = \"{name}\"\nqueue = \"{queue}\"\n"
    )?;
    for job in 1..=JOBS {
        write!(text, "[[project.job]]\nname = \"job-{job}\"\n")?;
    }
    Ok(())
}

/// As large as settings may be: the projects of `queue-7` are `queue-7/1` to `queue-7/8`, and their jobs `job-1` to
/// `job-32`.
fn largest_text(alloc: Global) -> Result<String, AllocError> {
    let mut text = String::from_str(alloc, FORGE)?;
    for n in 1..=QUEUES {
        write!(
            text,
            "[[queue]]\nname = \"queue-{n}\"\nwindow = 2\nfloor = 1\n"
        )?;
    }
    for n in 1..=QUEUES {
        let queue = format!(in alloc; "queue-{n}")?;
        for project in 1..=PROJECTS_OF_A_QUEUE {
            let name = format!(in alloc; "queue-{n}/{project}")?;
            push_project(&mut text, name.as_str(), queue.as_str())?;
        }
    }
    Ok(text)
}

/// A name of 64 bytes, as long as one may be.
pub(crate) fn long_name(alloc: Global, kind: &str, n: u32) -> Result<String, AllocError> {
    format!(in alloc; "{kind}-{n:059}")
}

/// Adds a queue in which nothing is as by default.
fn push_long_queue(alloc: Global, text: &mut String, n: u32) -> Result<(), AllocError> {
    let name = long_name(alloc, "line", n)?;
    write!(
        text,
        "[[queue]]\nname = \"{name}\"\nwindow = 1000\nfloor = 1000\n\
         increase = \"exponential\"\nincrease_by = 1000\ndecrease = \"linear\"\ndecrease_by = 1000\n"
    )
}

/// Adds a project with all its jobs, of which the first one alone votes.
fn push_long_project(
    alloc: Global,
    text: &mut String,
    n: u32,
    queue: u32,
) -> Result<(), AllocError> {
    let name = long_name(alloc, "proj", n)?;
    let queue = long_name(alloc, "line", queue)?;
    write!(
        text,
        "[[project]]\nname = \"{name}\"\nqueue = \"{queue}\"\nfail_fast = true\n"
    )?;
    for job in 1..=JOBS {
        let name = long_name(alloc, "work", job)?;
        let voting = if job == 1 { "true" } else { "false" };
        write!(
            text,
            "[[project.job]]\nname = \"{name}\"\nvoting = {voting}\n"
        )?;
    }
    Ok(())
}

/// So many queues, with their projects, all under names of 64 bytes.
pub(crate) fn longest_text(alloc: Global, queues: u32) -> Result<String, AllocError> {
    let base = "b".repeat(alloc, 200)?;
    let mut text = format!(in alloc; "[forge]\nbase = \"{base}\"\n")?;
    for n in 1..queues.saturating_add(1) {
        push_long_queue(alloc, &mut text, n)?;
    }
    for n in 0..queues.saturating_mul(PROJECTS_OF_A_QUEUE) {
        let queue = (n / PROJECTS_OF_A_QUEUE).saturating_add(1);
        push_long_project(alloc, &mut text, n.saturating_add(1), queue)?;
    }
    Ok(text)
}

/// The queues `core` and `web` without a bound, each with a project of all its jobs, `lib` and `site`, and in the first
/// one `app` with the job `unit`.
pub(crate) fn unbounded_text(alloc: Global) -> Result<String, AllocError> {
    let mut text = String::from_str(alloc, FORGE)?;
    text.push_str(
        "[[queue]]\nname = \"core\"\nwindow = 0\nfloor = 1\n[[queue]]\nname = \"web\"\nwindow = 0\nfloor = 1\n\
         [[project]]\nname = \"app\"\nqueue = \"core\"\n[[project.job]]\nname = \"unit\"\n",
    )?;
    push_project(&mut text, "lib", "core")?;
    push_project(&mut text, "site", "web")?;
    Ok(text)
}

fn many_jobs_text(alloc: Global) -> Result<String, AllocError> {
    let mut text = String::from_str(alloc, FORGE)?;
    text.push_str("[[queue]]\nname = \"core\"\nwindow = 2\nfloor = 1\n")?;
    push_project(&mut text, "lib", "core")?;
    Ok(text)
}

/// The queue `core`, with a project `lib` that has one job.
pub(crate) const ONE_JOB: &str = r#"
forge = { base = "https://forge/c/" }
queue = [{ name = "core", window = 2, floor = 1 }]
project = [{ name = "lib", queue = "core", job = [{ name = "unit" }] }]
"#;

/// The queues `core` and `web`, with a project each, `lib` and `site`, that has one job.
pub(crate) const TWO_QUEUES: &str = r#"
forge = { base = "https://forge/c/" }
queue = [{ name = "core", window = 2, floor = 1 }, { name = "web", window = 2, floor = 1 }]
project = [{ name = "lib", queue = "core", job = [{ name = "unit" }] }, { name = "site", queue = "web", job = [{ name = "unit" }] }]
"#;

/// The settings of a file.
pub(crate) fn config(rt: &(impl Abort + AllocGlobal), text: &str) -> Config {
    read(rt.alloc(), text.as_bytes()).expect(rt, "settings")
}

/// The largest settings.
pub(crate) fn largest(rt: &(impl Abort + AllocGlobal)) -> Config {
    let text = largest_text(rt.alloc()).expect(rt, "memory");
    config(rt, text.as_str())
}

/// The queue `core`, with a project `lib` that has as many jobs as there may be.
pub(crate) fn many_jobs(rt: &(impl Abort + AllocGlobal)) -> Config {
    let text = many_jobs_text(rt.alloc()).expect(rt, "memory");
    config(rt, text.as_str())
}

/// The queue `core`, with a project `lib` that has one job.
pub(crate) fn one_job(rt: &(impl Abort + AllocGlobal)) -> Config {
    config(rt, ONE_JOB)
}
