//! What is known of a change: where it stands, its needs, what has become of it.
ghost use Rattle.std.specs.Prelude.{◌≡◌, [], IfOk, map, option_map, string_bytes};
ghost use Rattle.gate_types.specs.State.{known_change};
ghost use Rattle.gate_types.specs.JsonText.{joined};
ghost use Rattle.gate_archive.specs.ChangeText.{need_word, need_piece, change_text_in, change_text};
ghost use Rattle.gate_book_trait.specs.Faults.{MayAnswer};
ghost use Rattle.gate_book_trait.specs.Reading.{IsRead, IsReadUnder};
ghost use Rattle.gate_texts.specs.Changes as told;

use crate::values::{in_quotes, number_text, push_entry};
use gate_book_trait::{Book, BookFault, QueuedItem};
use gate_types::config::Config;
use gate_types::limits::MOST_ITEMS;
use gate_types::names::{Name, NoMemory, Text};
use gate_types::numbers::ChangeNo;
use gate_types::records::Change;
use gate_types::words::truth_word;
use std::alloc::Global;

/// Where a change stands: its approval while it is ready, and the item that it is.
#[derive(Drop)]
struct Standing {
    approval: Option<u64>,
    queued: Option<QueuedItem>,
}

fn standing_of<B: Book>(book: &mut B, change: ChangeNo) -> Result<Standing, BookFault>
    ensures { IsRead B.IsTrusted B.Holds B.LeavesOneOf (MayAnswer B.MayFault) book.old book.new (λ c x.
        IfOk result (λ standing. standing ≡ told.standing_of c x.state change)) result }
{
    let approval = book.approval(change)?;
    let queued = book.queued(change)?;
    Ok(Standing { approval, queued })
}

fn need_word(known: &Option<Change>) -> &'static str
    ensures { result.now ≡ need_word known.now }
{
    match known {
        Some(change) => change.stage.word(),
        None => "unknown",
    }
}

/// The name of the queue in which a change is an item, or null.
fn queue_text(alloc: Global, standing: &Standing) -> Result<String, NoMemory>
    ensures { IfOk result (λ s. string_bytes s ≡ told.queue_name_text standing.now) }
{
    match &standing.queued {
        Some(queued) => in_quotes(alloc, queued.queue.as_str()),
        None => String::from_str(alloc, "null"),
    }
}

/// The serial of its item, or null.
fn order_text(alloc: Global, standing: &Standing) -> Result<String, NoMemory>
    ensures { IfOk result (λ s. string_bytes s ≡ told.order_text standing.now) }
{
    match &standing.queued {
        Some(queued) => number_text(alloc, Some(queued.item.serial.get())),
        None => String::from_str(alloc, "null"),
    }
}

fn need_told(
    alloc: Global,
    change: ChangeNo,
    standing: &Standing,
    state: &str,
) -> Result<String, NoMemory>
    ensures { IfOk result (λ s. string_bytes s ≡ told.need_told change standing.now state.now []) }
{
    let change = change.get();
    let approval = number_text(alloc, standing.approval)?;
    let queue = queue_text(alloc, standing)?;
    let text = format!(in alloc;
        "{{\"approval\":{approval},\"change\":{change},\"stands\":{queue},\"state\":\"{state}\"}}"
    )?;
    Ok(text)
}

fn need_text<B: Book>(alloc: Global, book: &mut B, need: ChangeNo) -> Result<String, BookFault>
    ensures { IsRead B.IsTrusted B.Holds B.LeavesOneOf (MayAnswer B.MayFault) book.old book.new (λ c x.
        IfOk result (λ text. string_bytes text ≡ need_piece c x.state need [])) result }
{
    let standing = standing_of(book, need)?;
    let known = book.change(need)?;
    Ok(need_told(alloc, need, &standing, need_word(&known))?)
}

/// The needs of a change, with commas between.
fn needs_text<B: Book>(alloc: Global, book: &mut B, needs: &[ChangeNo]) -> Result<String, BookFault>
    ensures { IsRead B.IsTrusted B.Holds B.LeavesOneOf (MayAnswer B.MayFault) book.old book.new (λ c x.
        IfOk result (λ list. string_bytes list ≡ joined (map (need_piece c x.state) needs.now) [])) result }
{
    let mut list = String::new(alloc);
    for need in needs {
        let text = need_text(alloc, book, *need)?;
        push_entry(&mut list, text.as_str())?;
    }
    Ok(list)
}

/// The members stand in byte order of their names.
fn change_told(
    alloc: Global,
    change: &Change,
    standing: &Standing,
    queue: &str,
    full: bool,
    needs: &str,
) -> Result<String, NoMemory>
    ensures { IfOk result (λ s. string_bytes s
        ≡ told.change_told change.now standing.now queue.now full needs.now []) }
{
    let approval = number_text(alloc, standing.approval)?;
    let order = order_text(alloc, standing)?;
    let number = change.number.get();
    let full = truth_word(full);
    let project = change.project.as_str();
    let revision = change.revision.get();
    let state = change.stage.word();
    let back = format!(in alloc;
        "\"order\":{order},\"project\":\"{project}\",\"queue\":\"{queue}\",\
         \"revision\":{revision},\"state\":\"{state}\"}}"
    )?;
    let text = format!(in alloc;
        "{{\"approval\":{approval},\"change\":{number},\"full\":{full},\"needs\":[{needs}],{back}"
    )?;
    Ok(text)
}

/// The text of a change whose project has this queue.
fn text_in<B: Book>(
    alloc: Global,
    book: &mut B,
    change: &Change,
    queue: &Name,
) -> Result<Text, BookFault>
    ensures { IsRead B.IsTrusted B.Holds B.LeavesOneOf (MayAnswer B.MayFault) book.old book.new (λ c x.
        IfOk result (λ text. text ≡ change_text_in c x.state change.now queue.now)) result }
{
    let standing = standing_of(book, change.number)?;
    let full = MOST_ITEMS <= book.item_count(queue)?;
    let needs = needs_text(alloc, book, change.needs.as_slice())?;
    let queue = queue.as_str();
    let text = change_told(alloc, change, &standing, queue, full, needs.as_str())?;
    Ok(Text::new(text))
}

/// What is known of a change, none where no revision of it came. Its needs are read one by one.
pub fn change_text<B: Book>(
    alloc: Global,
    book: &mut B,
    config: &Config,
    number: ChangeNo,
) -> Result<Option<Text>, BookFault>
    ensures { IsReadUnder B.IsTrusted B.Holds B.LeavesOneOf (MayAnswer B.MayFault) book.old book.new config.now (λ x.
        IfOk result (λ found. found
        ≡ option_map (change_text config.now x.state) (known_change x.state number))) result }
{
    let Some(change) = book.change(number)? else {
        return Ok(None);
    };
    // A change that is known is of a project of the settings.
    let Some(project) = config.project(change.project.as_str()) else {
        return Ok(None);
    };
    Ok(Some(text_in(alloc, book, &change, &project.queue)?))
}
