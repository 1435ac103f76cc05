//! The orders that are shown, as a text.
ghost use Rattle.std.specs.Prelude.{◌≡◌, [], IfOk, OnOk, option_map, string_bytes};
ghost use Rattle.gate_types.specs.SubmitOrder.{Order};
ghost use Rattle.gate_types.specs.OrderList.{shown, order_list_text};
ghost use Rattle.gate_book_trait.specs.Faults.{MayAnswer};
ghost use Rattle.gate_book_trait.specs.Reading.{IsRead, IsReadUnder};
ghost use Rattle.gate_types.specs.State.{known_or_closed};
ghost use Rattle.gate_reads.specs.Orders.{order_in, IsRowOf};
ghost use Rattle.gate_texts.specs.Listed.{order_piece, with_order};

use crate::values::push_entry;
use gate_book_trait::{Book, BookFault};
use gate_reads::order_of_queue;
use gate_types::config::Config;
use gate_types::names::{Name, NoMemory, Text};
use gate_types::records::{Change, Item};
use std::alloc::Global;

fn project_of(change: &Option<Change>) -> &str
    ensures { result.now ≡ (known_or_closed change.now).project }
{
    match change {
        Some(change) => change.project.as_str(),
        None => "",
    }
}

/// The order of an item, its members in byte order of their names.
fn text_of(alloc: Global, item: &Item, project: &str, queue: &str) -> Result<String, NoMemory>
    ensures { IfOk result (λ s. string_bytes s ≡ order_piece item.now project.now queue.now []) }
{
    let change = item.change.get();
    let order = item.serial.get();
    let revision = item.revision.get();
    let text = format!(in alloc;
        "{{\"change\":{change},\"order\":{order},\"project\":\"{project}\",\"queue\":\"{queue}\",\
         \"revision\":{revision}}}"
    )?;
    Ok(text)
}

fn order_text<B: Book>(
    alloc: Global,
    book: &mut B,
    queue: &Name,
    item: &Item,
) -> Result<Text, BookFault>
    ensures { IsRead B.IsTrusted B.Holds B.LeavesOneOf (MayAnswer B.MayFault) book.old book.new (λ c x. (o : Order) →
        IsRowOf c x.state queue.now item.now o → IfOk result (λ text. text ≡ shown x.state o [])) result }
{
    let known = book.change(item.change)?;
    let text = text_of(alloc, item, project_of(&known), queue.as_str())?;
    Ok(Text::new(text))
}

/// The order of a queue, none where it shows none.
fn order_of<B: Book>(
    alloc: Global,
    book: &mut B,
    config: &Config,
    queue: &Name,
) -> Result<Option<Text>, BookFault>
    ensures { IsReadUnder B.IsTrusted B.Holds B.LeavesOneOf (MayAnswer B.MayFault) book.old book.new config.now (λ x.
        IfOk result (λ found. found
        ≡ option_map (λ o. shown x.state o []) (order_in config.now x.state queue.now))) result }
{
    match order_of_queue(alloc, book, config, queue)? {
        Some(item) => Ok(Some(order_text(alloc, book, queue, &item)?)),
        None => Ok(None),
    }
}

fn push_order(list: &mut String, order: &Option<Text>) -> Result<(), NoMemory>
    ensures { OnOk result (string_bytes list.new ≡ with_order (string_bytes list.old) order.now) }
{
    if let Some(order) = order {
        push_entry(list, order.as_str())?;
    }
    Ok(())
}

/// The orders that are shown.
pub fn order_list<B: Book>(alloc: Global, book: &mut B, config: &Config) -> Result<Text, BookFault>
    ensures { IsReadUnder B.IsTrusted B.Holds B.LeavesOneOf (MayAnswer B.MayFault) book.old book.new config.now (λ x.
        IfOk result (λ text. text ≡ order_list_text config.now x.state)) result }
{
    let mut list = String::new(alloc);
    for queue in config.queues.as_slice() {
        let order = order_of(alloc, book, config, &queue.name)?;
        push_order(&mut list, &order)?;
    }
    let text = format!(in alloc; "[{list}]")?;
    Ok(Text::new(text))
}
