//! An item, there or gone, with its builds.
ghost use Rattle.std.specs.Prelude.{◌≡◌, [], Some, None, IfOk, map, string_bytes};
ghost use Rattle.gate_types.specs.JsonText.{joined};
ghost use Rattle.gate_archive.specs.ItemText.{queued_at, summary_piece, item_text};
ghost use Rattle.gate_book_trait.specs.Faults.{MayAnswer};
ghost use Rattle.gate_book_trait.specs.Reading.{IsRead, IsReadUnder};
ghost use Rattle.gate_texts.specs.Items as told;

use crate::ahead::is_blocked;
use crate::lines::slot_word;
use crate::values::{in_quotes, push_entry};
use gate_archive::{Archive, BuildSummary, LeftItem};
use gate_book_trait::{Book, BookFault, QueuedItem, plan_of};
use gate_queue_rules::{is_cut, slot_among, slot_where};
use gate_types::config::{Config, Job};
use gate_types::limits::MOST_LISTED;
use gate_types::names::{Name, NoMemory, Text};
use gate_types::numbers::{ChangeNo, Revision, Serial};
use gate_types::records::{Build, Verdict};
use gate_types::words::truth_word;
use std::alloc::Global;

/// What is told of an item beside its builds. `jobs` is written already, null for one that left.
#[derive(Drop)]
struct WrittenItem {
    queue: Name,
    change: ChangeNo,
    revision: Revision,
    verdict: Option<Verdict>,
    jobs: String,
}

// ---- its jobs

fn job_text(alloc: Global, cut: bool, builds: &[Build], job: &Job) -> Result<String, NoMemory>
    ensures { IfOk result (λ s. string_bytes s ≡ told.job_told cut builds.now job.now []) }
{
    let name = job.name.as_str();
    let slot = slot_word(slot_where(cut, slot_among(alloc, builds, job)?));
    let voting = truth_word(job.voting);
    let text = format!(in alloc; "{{\"job\":\"{name}\",\"slot\":\"{slot}\",\"voting\":{voting}}}")?;
    Ok(text)
}

/// Jobs with commas between.
fn jobs_text(alloc: Global, cut: bool, builds: &[Build], jobs: &[Job]) -> Result<String, NoMemory>
    ensures { IfOk result (λ s. string_bytes s ≡ told.jobs_told cut builds.now jobs.now) }
{
    let mut list = String::new(alloc);
    for job in jobs {
        let entry = job_text(alloc, cut, builds, job)?;
        push_entry(&mut list, entry.as_str())?;
    }
    Ok(list)
}

/// The jobs of an item that is queued, each with what it has come to.
fn item_jobs<B: Book>(alloc: Global, book: &mut B, queued: &QueuedItem) -> Result<String, BookFault>
    ensures { IsRead B.IsTrusted B.Holds B.LeavesOneOf (MayAnswer B.MayFault) book.old book.new (λ c x.
        IfOk result (λ s. string_bytes s ≡ told.jobs_by_key c x.state queued.now [])) result }
{
    let blocked = is_blocked(book, queued)?;
    let plan = plan_of(alloc, book, queued.item.serial)?;
    let builds = book.live_builds(queued.item.serial)?;
    let cut = is_cut(plan.fast, blocked, queued.item.failing);
    let jobs = jobs_text(alloc, cut, builds.as_slice(), plan.jobs.as_slice())?;
    let text = format!(in alloc; "[{jobs}]")?;
    Ok(text)
}

// ---- what it is, or was

/// The item of a serial, and its queue. A change is that of one item alone, so this is the item of its change.
fn queued_at<B: Book>(book: &mut B, serial: Serial) -> Result<Option<QueuedItem>, BookFault>
    ensures { IsRead B.IsTrusted B.Holds B.LeavesOneOf (MayAnswer B.MayFault) book.old book.new (λ c x.
        IfOk result (λ found. found ≡ queued_at c x.state serial)) result }
{
    match book.item(serial)? {
        Some(item) => Ok(book.queued(item.change)?),
        None => Ok(None),
    }
}

fn of_queued(queued: QueuedItem, jobs: String) -> WrittenItem
    ensures { result ≡ record {
      queue = queued.queue;
      change = queued.item.change;
      revision = queued.item.revision;
      verdict = None;
      jobs = jobs;
    } }
{
    let QueuedItem { queue, item } = queued;
    WrittenItem {
        queue,
        change: item.change,
        revision: item.revision,
        verdict: None,
        jobs,
    }
}

fn of_left(left: LeftItem, jobs: String) -> WrittenItem
    ensures { result ≡ record {
      queue = left.queue;
      change = left.report.change;
      revision = left.report.revision;
      verdict = Some left.report.verdict;
      jobs = jobs;
    } }
{
    let LeftItem { queue, report } = left;
    WrittenItem {
        queue,
        change: report.change,
        revision: report.revision,
        verdict: Some(report.verdict),
        jobs,
    }
}

/// The item of a serial, queued or gone; none where no item had it.
fn told_item<B: Archive>(
    alloc: Global,
    book: &mut B,
    config: &Config,
    serial: Serial,
) -> Result<Option<WrittenItem>, BookFault>
    ensures { IsReadUnder B.IsTrusted B.Holds B.LeavesOneOf (MayAnswer B.MayFault) book.old book.new config.now (λ x.
        IfOk result (λ found. told.TellsItem config.now x.state serial found)) result }
{
    config.show_sound();
    if let Some(queued) = queued_at(book, serial)? {
        let jobs = item_jobs(alloc, book, &queued)?;
        return Ok(Some(of_queued(queued, jobs)));
    }
    match book.left(serial)? {
        Some(left) => Ok(Some(of_left(left, String::from_str(alloc, "null")?))),
        None => Ok(None),
    }
}

// ---- its builds

fn summary_text(alloc: Global, build: &BuildSummary) -> Result<String, NoMemory>
    ensures { IfOk result (λ s. string_bytes s ≡ summary_piece build.now []) }
{
    let number = build.number.get();
    let job = build.job.as_str();
    let live = truth_word(build.live);
    let outcome = build.outcome.word();
    let text = format!(in alloc;
        "{{\"build\":{number},\"job\":\"{job}\",\"live\":{live},\"outcome\":\"{outcome}\"}}"
    )?;
    Ok(text)
}

/// Builds with commas between.
fn builds_text(alloc: Global, builds: &[BuildSummary]) -> Result<String, NoMemory>
    ensures { IfOk result (λ s. string_bytes s ≡ joined (map summary_piece builds.now) []) }
{
    let mut list = String::new(alloc);
    for build in builds {
        let entry = summary_text(alloc, build)?;
        push_entry(&mut list, entry.as_str())?;
    }
    Ok(list)
}

// ---- the text

/// The word of a verdict, or null.
fn verdict_text(alloc: Global, verdict: Option<Verdict>) -> Result<String, NoMemory>
    ensures { IfOk result (λ s. string_bytes s ≡ told.verdict_text verdict) }
{
    match verdict {
        Some(verdict) => in_quotes(alloc, verdict.word()),
        None => String::from_str(alloc, "null"),
    }
}

/// The members stand in byte order of their names.
fn item_told(
    alloc: Global,
    serial: Serial,
    item: &WrittenItem,
    builds: &str,
    kept: u64,
) -> Result<String, NoMemory>
    ensures { IfOk result (λ s. string_bytes s ≡ told.item_told serial item.now builds.now kept []) }
{
    let verdict = verdict_text(alloc, item.verdict)?;
    let change = item.change.get();
    let jobs = item.jobs.as_str();
    let order = serial.get();
    let queue = item.queue.as_str();
    let revision = item.revision.get();
    let back = format!(in alloc;
        "\"order\":{order},\"queue\":\"{queue}\",\"revision\":{revision},\"verdict\":{verdict}}}"
    )?;
    let text = format!(in alloc;
        "{{\"builds\":[{builds}],\"change\":{change},\"jobs\":{jobs},\"kept\":{kept},{back}"
    )?;
    Ok(text)
}

/// The item of a serial, queued or gone, with the last 1,000 of its builds; none where no item had the serial.
pub fn item_text<B: Archive>(
    alloc: Global,
    book: &mut B,
    config: &Config,
    serial: Serial,
) -> Result<Option<Text>, BookFault>
    ensures { IsReadUnder B.IsTrusted B.Holds B.LeavesOneOf (MayAnswer B.MayFault) book.old book.new config.now (λ x.
        IfOk result (λ found. found ≡ item_text config.now x.state serial)) result }
{
    let Some(item) = told_item(alloc, book, config, serial)? else {
        return Ok(None);
    };
    let kept = book.build_count(serial)?;
    let last = book.last_builds(serial, MOST_LISTED as u32)?;
    let builds = builds_text(alloc, last.as_slice())?;
    let text = item_told(alloc, serial, &item, builds.as_str(), kept)?;
    Ok(Some(Text::new(text)))
}
