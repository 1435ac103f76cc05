//! `take`: a worker asks for a build.
ghost use Rattle.std.specs.Prelude.{◌≡◌, ◌+◌, ◌-◌, ◌∷◌, [], min, Some, IfOk};
ghost use Rattle.gate_types.specs.Counters.{last_number};
ghost use Rattle.gate_types.specs.declared.deliveries.Delivery.TheVariants as delivery;
ghost use Rattle.gate_types.specs.declared.edits.Edit.TheVariants as edit;
ghost use Rattle.gate_types.specs.declared.edits.Counter.TheVariants as counter;
ghost use Rattle.gate_book_trait.specs.Faults.{MayAnswer};
ghost use Rattle.gate_book_trait.specs.Reading.{IsReadUnder};
ghost use Rattle.gate_reads.specs.Raw.{IsRaw};

use gate_book_trait::{Book, BookFault};
use gate_reads::{Moved, PendingReply, Raw, next_build};
use gate_types::config::Config;
use gate_types::deliveries::{Refusal, Reply};
use gate_types::edits::{Counter, Edit};
use gate_types::lists::with_one;
use gate_types::names::{NoMemory, PathName};
use gate_types::numbers::{BuildNo, LAST_NUMBER};
use gate_types::records::Build;
use std::alloc::Global;

/// The number after those that were drawn; the last one again where all were.
fn number_after(drawn: u64) -> Option<BuildNo>
    ensures { result ≡ Some (min drawn (last_number - 1) + 1) }
{
    BuildNo::new(drawn.min(LAST_NUMBER - 1) + 1)
}

/// The build starts, under a new number.
fn started(alloc: Global, build: &Build) -> Result<Vec<Edit>, NoMemory>
    ensures { IfOk result (λ edits. edits.items ≡ edit.PutBuild build.now ∷
        edit.SetCounter counter.Build build.now.number ∷ []) }
{
    let started = Edit::PutBuild(build.copy()?);
    let edits = with_one(Vec::new(alloc), started)?;
    let counter = Edit::SetCounter {
        counter: Counter::Build,
        drawn: build.number.get(),
    };
    with_one(edits, counter)
}

/// The next build starts, if a job waits for one.
pub(crate) fn take<B: Book>(
    alloc: Global,
    book: &mut B,
    config: &Config,
    worker: &PathName,
) -> Result<Raw, BookFault>
    ensures { IsReadUnder B.IsTrusted B.Holds B.LeavesOneOf (MayAnswer B.MayFault) book.old book.new config.now (λ x.
        IfOk result (IsRaw config.now x (delivery.Take worker.now))) result }
{
    let drawn = book.counters()?.build;
    let Some(number) = number_after(drawn) else {
        return Err(BookFault::Damaged);
    };
    let Some(build) = next_build(alloc, book, config, number)? else {
        return Ok(Raw::Refused(Refusal::Idle));
    };
    if LAST_NUMBER <= drawn {
        return Ok(Raw::Refused(Refusal::Exhausted));
    }
    let edits = started(alloc, &build)?;
    Ok(Raw::Moved(Moved {
        reply: PendingReply::Now(Reply::Build(build)),
        edits,
        touched: None,
    }))
}
