//! A build as a worker reads it.
ghost use Rattle.std.specs.Prelude.{◌≡◌, ◌++◌, if◌then◌else◌, codes, decimal, IfOk, option_map, string_bytes};
ghost use Rattle.gate_types.specs.BuildText.{build_text, outcome_word};
ghost use Rattle.gate_types.specs.Step.{build_of};
ghost use Rattle.gate_book_trait.specs.Faults.{MayAnswer};
ghost use Rattle.gate_book_trait.specs.Reading.{IsRead};

use gate_book_trait::{Book, BookFault};
use gate_types::names::{NoMemory, Text};
use gate_types::numbers::BuildNo;
use gate_types::records::{Build, Outcome};
use gate_types::words::truth_word;
use gate_wire::{ahead_text, build_front};
use std::alloc::Global;

/// The members behind the job.
fn build_back(
    alloc: Global,
    live: bool,
    outcome: Outcome,
    queue: &str,
    revision: u64,
) -> Result<String, NoMemory>
    ensures { IfOk result (λ s. string_bytes s ≡ codes ",\"live\":"
        ++ ((if live then codes "true" else codes "false") ++ (codes ",\"outcome\":\"" ++ (outcome_word outcome
        ++ (codes "\",\"queue\":\"" ++ (queue.now ++ (codes "\",\"revision\":"
        ++ (decimal revision ++ codes "}")))))))) }
{
    let live = truth_word(live);
    let outcome = outcome.word();
    let text = format!(in alloc;
        ",\"live\":{live},\"outcome\":\"{outcome}\",\"queue\":\"{queue}\",\"revision\":{revision}}}"
    )?;
    Ok(text)
}

/// The members stand in byte order of their names.
fn text_of(alloc: Global, build: &Build) -> Result<String, NoMemory>
    ensures { IfOk result (λ s. string_bytes s ≡ build_text build.now) }
{
    let ahead = ahead_text(alloc, build.ahead.as_slice())?;
    let front = build_front(alloc, build.after, ahead.as_str(), build.number.get())?;
    let queue = build.queue.as_str();
    let revision = build.revision.get();
    let back = build_back(alloc, build.live, build.outcome, queue, revision)?;
    let change = build.change.get();
    let job = build.job.as_str();
    let text = format!(in alloc; "{front},\"change\":{change},\"job\":\"{job}\"{back}")?;
    Ok(text)
}

/// The build of a number, none where there is no such build.
pub fn build_text<B: Book>(
    alloc: Global,
    book: &mut B,
    number: BuildNo,
) -> Result<Option<Text>, BookFault>
    ensures { IsRead B.IsTrusted B.Holds B.LeavesOneOf (MayAnswer B.MayFault) book.old book.new (λ c x.
        IfOk result (λ found. found ≡ option_map build_text (build_of x.state number))) result }
{
    match book.build(number)? {
        Some(build) => Ok(Some(Text::new(text_of(alloc, &build)?))),
        None => Ok(None),
    }
}
