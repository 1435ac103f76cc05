//! The builds that run. However many they are, the first 1,000 are held as a text, and those of one item as builds.
ghost use Rattle.std.specs.Prelude.{◌≡◌, [], ◌∷◌, ◌++◌, List, Some, IfOk, OnOk, string_bytes};
ghost use Rattle.gate_types.specs.State.{Queue};
ghost use Rattle.gate_types.specs.declared.records.Build.{Build};
ghost use Rattle.gate_archive.specs.RunningBuilds.{running_builds, running_piece, running_text};
ghost use Rattle.gate_book_trait.specs.Faults.{MayAnswer};
ghost use Rattle.gate_book_trait.specs.Reading.{IsRead, IsReadUnder};
ghost use Rattle.gate_book_trait.specs.Reads.{queue_named};
ghost use Rattle.gate_texts.specs.Running as told;

use crate::values::push_entry;
use gate_book_trait::{Book, BookFault};
use gate_reads::is_running;
use gate_types::config::Config;
use gate_types::limits::MOST_LISTED;
use gate_types::names::{Name, NoMemory, Text};
use gate_types::records::Build;
use std::alloc::{AllocError, Global};

/// The builds that were told so far: the text of the first, and how many they are.
#[derive(Drop)]
struct Running {
    list: String,
    count: u64,
}

/// The members stand in byte order of their names.
fn entry_of(alloc: Global, build: &Build) -> Result<String, NoMemory>
    ensures { IfOk result (λ s. string_bytes s ≡ running_piece build.now []) }
{
    let number = build.number.get();
    let change = build.change.get();
    let job = build.job.as_str();
    let order = build.serial.get();
    let queue = build.queue.as_str();
    let revision = build.revision.get();
    let text = format!(in alloc;
        "{{\"build\":{number},\"change\":{change},\"job\":\"{job}\",\"order\":{order},\
         \"queue\":\"{queue}\",\"revision\":{revision}}}"
    )?;
    Ok(text)
}

/// One build more in the list, unless it is full.
fn push_listed(alloc: Global, running: &mut Running, build: &Build) -> Result<(), NoMemory>
    ensures count { running.new.count ≡ running.old.count }
    ensures list { OnOk result (string_bytes running.new.list
        ≡ told.listed_with running.old.count (string_bytes running.old.list) (running_piece build.now [])) }
{
    if running.count < MOST_LISTED {
        let entry = entry_of(alloc, build)?;
        push_entry(&mut running.list, entry.as_str())?;
    }
    Ok(())
}

/// One build more. No memory holds so many that they aren't to be counted.
fn push_running(alloc: Global, running: &mut Running, build: &Build) -> Result<(), NoMemory>
    ensures { OnOk result ((builds : List Build) →
        told.OfBuilds running.old builds → told.OfBuilds running.new (builds ++ build.now ∷ [])) }
{
    push_listed(alloc, running, build)?;
    let Some(count) = running.count.checked_add(1) else {
        return Err(AllocError);
    };
    running.count = count;
    Ok(())
}

/// Those of an item.
fn push_builds(alloc: Global, running: &mut Running, builds: &[Build]) -> Result<(), NoMemory>
    ensures { OnOk result ((before : List Build) →
        told.OfBuilds running.old before → told.OfBuilds running.new (before ++ told.running_among builds.now)) }
{
    for build in builds {
        if is_running(build) {
            push_running(alloc, running, build)?;
        }
    }
    Ok(())
}

/// Those of the items of a queue, gone through one after another.
fn push_queue<B: Book>(
    alloc: Global,
    book: &mut B,
    running: &mut Running,
    queue: &Name,
) -> Result<(), BookFault>
    ensures { IsRead B.IsTrusted B.Holds B.LeavesOneOf (MayAnswer B.MayFault) book.old book.new (λ c x. (q : Queue) →
        queue_named x.state queue.now ≡ Some q → OnOk result ((before : List Build) →
        told.OfBuilds running.old before → told.OfBuilds running.new (before ++ told.running_in x.state q))) result }
{
    let mut above = 0;
    'along: while let Some(item) = book.next_item(queue, above)? {
        let builds = book.live_builds(item.serial)?;
        push_builds(alloc, running, builds.as_slice())?;
        above = item.serial.get();
    }
    Ok(())
}

/// Those of all queues, in the order of the settings.
fn running_of<B: Book>(alloc: Global, book: &mut B, config: &Config) -> Result<Running, BookFault>
    ensures { IsReadUnder B.IsTrusted B.Holds B.LeavesOneOf (MayAnswer B.MayFault) book.old book.new config.now (λ x.
        IfOk result (λ running. told.OfBuilds running (running_builds x.state))) result }
{
    let mut running = Running {
        list: String::new(alloc),
        count: 0,
    };
    for queue in config.queues.as_slice() {
        push_queue(alloc, book, &mut running, &queue.name)?;
    }
    Ok(running)
}

fn text_of(alloc: Global, running: &Running) -> Result<String, NoMemory>
    ensures { IfOk result (λ s. string_bytes s
        ≡ told.running_told (string_bytes running.now.list) running.now.count []) }
{
    let list = running.list.as_str();
    let count = running.count;
    let text = format!(in alloc; "{{\"builds\":[{list}],\"running\":{count}}}")?;
    Ok(text)
}

/// The builds that run: queues in the order of the settings, items front to back, an item's builds by number. The
/// first 1,000 are told, and all are counted.
pub fn running_text<B: Book>(
    alloc: Global,
    book: &mut B,
    config: &Config,
) -> Result<Text, BookFault>
    ensures { IsReadUnder B.IsTrusted B.Holds B.LeavesOneOf (MayAnswer B.MayFault) book.old book.new config.now (λ x.
        IfOk result (λ text. text ≡ running_text x.state)) result }
{
    let running = running_of(alloc, book, config)?;
    Ok(Text::new(text_of(alloc, &running)?))
}
