//! Reads rows from the book below and holds them in memory.
ghost use Rattle.std.specs.Prelude.{◌≡◌, ◌≢◌, true, IfErr};
ghost use Rattle.gate_types.specs.State.{known_change};
ghost use Rattle.gate_book_trait.specs.Faults.{MayAnswer};
ghost use Rattle.gate_book_trait.specs.Kept.{OfHeld};
ghost use Rattle.gate_book_trait.specs.Reading.{IsRead};
ghost use Rattle.gate_book_trait.specs.Reads as read;
ghost use Rattle.gate_book_trait.specs.declared.fault.BookFault.TheVariants as fault;
ghost use Rattle.gate_live.specs.Faults.{is_of_store};
ghost use Rattle.gate_live.specs.Parts.{Agrees, nothing};

use crate::faults::told;
use crate::live::Live;
use gate_book_trait::{Book, BookFault};
use gate_types::names::Name;
use gate_types::numbers::{ChangeNo, Serial};
use gate_types::records::{Build, Change, Item, Plan};
use gate_types::sequence::Sequence;
use std::alloc::Global;

/// Reads a change and holds it, if an item has it. Fails if the book does; a fault that may come from the store drops
/// all held rows.
pub(crate) fn read_change<B: Book>(
    alloc: Global,
    book: &mut B,
    live: &mut Live,
    number: ChangeNo,
) -> Result<Option<Change>, BookFault>
    ensures reads { IsRead B.IsTrusted B.Holds B.LeavesOneOf (MayAnswer B.MayFault) book.old book.new (λ c x.
        read.Answers (known_change x.state number) result) result }
    ensures agrees { OfHeld B.IsTrusted B.Holds book.old book.new (λ c x. Agrees live.old c x → Agrees live.new c x) }
    ensures drops { IfErr result (λ f. is_of_store f ≡ true → live.new ≡ nothing) }
{
    let found = told(live, alloc, book.change(number))?;
    live.hold_change(&found);
    Ok(found)
}

/// Reads the plan with this serial and holds it, if its item is held. Fails if the book does; a fault that may come
/// from the store drops all held rows.
pub(crate) fn read_plan<B: Book>(
    alloc: Global,
    book: &mut B,
    live: &mut Live,
    serial: Serial,
) -> Result<Option<Plan>, BookFault>
    ensures reads { IsRead B.IsTrusted B.Holds B.LeavesOneOf (MayAnswer B.MayFault) book.old book.new (λ c x.
        read.Answers (read.plan_at x.state serial) result) result }
    ensures agrees { OfHeld B.IsTrusted B.Holds book.old book.new (λ c x. Agrees live.old c x → Agrees live.new c x) }
    ensures drops { IfErr result (λ f. is_of_store f ≡ true → live.new ≡ nothing) }
{
    let found = told(live, alloc, book.plan(serial))?;
    live.hold_plan(serial, &found);
    Ok(found)
}

/// Reads and holds the plan of an item, unless it is held already. Fails if the book does.
fn hold_plan<B: Book>(
    alloc: Global,
    book: &mut B,
    live: &mut Live,
    serial: Serial,
) -> Result<(), BookFault>
    ensures reads { IsRead B.IsTrusted B.Holds B.LeavesOneOf (MayAnswer B.MayFault) book.old book.new (λ c x.
        IfErr result (λ f. f ≢ fault.Damaged)) result }
    ensures agrees { OfHeld B.IsTrusted B.Holds book.old book.new (λ c x. Agrees live.old c x → Agrees live.new c x) }
    ensures drops { IfErr result (λ f. is_of_store f ≡ true → live.new ≡ nothing) }
{
    if live.has_plan(serial) {
        return Ok(());
    }
    let _found = read_plan(alloc, book, live, serial)?;
    Ok(())
}

/// Reads and holds the plans of these items that aren't held yet. Fails if the book does.
fn read_plans_of<B: Book>(
    alloc: Global,
    book: &mut B,
    live: &mut Live,
    items: &[Item],
) -> Result<(), BookFault>
    ensures reads { IsRead B.IsTrusted B.Holds B.LeavesOneOf (MayAnswer B.MayFault) book.old book.new (λ c x.
        IfErr result (λ f. f ≢ fault.Damaged)) result }
    ensures agrees { OfHeld B.IsTrusted B.Holds book.old book.new (λ c x. Agrees live.old c x → Agrees live.new c x) }
    ensures drops { IfErr result (λ f. is_of_store f ≡ true → live.new ≡ nothing) }
{
    for item in items {
        hold_plan(alloc, book, live, item.serial)?;
    }
    Ok(())
}

/// The plans of a queue's items with serials above `above`, up to and including `last`; `items` are those items. Reads
/// and holds the plans that aren't held yet, then answers from memory. If not all can be held, or memory for the answer
/// is refused, the book answers. Fails if the book does; a fault that may come from the store drops all held rows.
pub(crate) fn read_plans_between<B: Book>(
    alloc: Global,
    book: &mut B,
    live: &mut Live,
    queue: &Name,
    above: u64,
    last: Serial,
    items: &[Item],
) -> Result<Sequence<Plan>, BookFault>
    ensures reads { IsRead B.IsTrusted B.Holds B.LeavesOneOf (MayAnswer B.MayFault) book.old book.new (λ c x.
        Agrees live.old c x → items.now ≡ read.items_between above last (read.items_in c x.state queue.now) →
        read.Answers (read.plans_of_items x.state items.now) result) result }
    ensures agrees { OfHeld B.IsTrusted B.Holds book.old book.new (λ c x. Agrees live.old c x → Agrees live.new c x) }
    ensures drops { IfErr result (λ f. is_of_store f ≡ true → live.new ≡ nothing) }
{
    read_plans_of(alloc, book, live, items)?;
    if let Some(found) = live.plans_of(alloc, items) {
        return Ok(found);
    }
    told(live, alloc, book.plans_between(queue, above, last))
}

/// Reads the live builds of an item and holds them, if the item is held. Fails if the book does; a fault that may come
/// from the store drops all held rows.
pub(crate) fn read_builds<B: Book>(
    alloc: Global,
    book: &mut B,
    live: &mut Live,
    serial: Serial,
) -> Result<Sequence<Build>, BookFault>
    ensures reads { IsRead B.IsTrusted B.Holds B.LeavesOneOf (MayAnswer B.MayFault) book.old book.new (λ c x.
        read.Answers (read.live_builds x.state serial) result) result }
    ensures agrees { OfHeld B.IsTrusted B.Holds book.old book.new (λ c x. Agrees live.old c x → Agrees live.new c x) }
    ensures drops { IfErr result (λ f. is_of_store f ≡ true → live.new ≡ nothing) }
{
    let found = told(live, alloc, book.live_builds(serial))?;
    live.hold_builds(alloc, serial, found.as_slice());
    Ok(found)
}

/// Reads and holds the live builds of an item, unless the item is known. Fails if the book does.
fn hold_builds<B: Book>(
    alloc: Global,
    book: &mut B,
    live: &mut Live,
    serial: Serial,
) -> Result<(), BookFault>
    ensures reads { IsRead B.IsTrusted B.Holds B.LeavesOneOf (MayAnswer B.MayFault) book.old book.new (λ c x.
        IfErr result (λ f. f ≢ fault.Damaged)) result }
    ensures agrees { OfHeld B.IsTrusted B.Holds book.old book.new (λ c x. Agrees live.old c x → Agrees live.new c x) }
    ensures drops { IfErr result (λ f. is_of_store f ≡ true → live.new ≡ nothing) }
{
    if live.knows(serial) {
        return Ok(());
    }
    let _found = read_builds(alloc, book, live, serial)?;
    Ok(())
}

/// Reads and holds the live builds of these items that aren't known yet. Fails if the book does.
fn read_builds_of<B: Book>(
    alloc: Global,
    book: &mut B,
    live: &mut Live,
    items: &[Item],
) -> Result<(), BookFault>
    ensures reads { IsRead B.IsTrusted B.Holds B.LeavesOneOf (MayAnswer B.MayFault) book.old book.new (λ c x.
        IfErr result (λ f. f ≢ fault.Damaged)) result }
    ensures agrees { OfHeld B.IsTrusted B.Holds book.old book.new (λ c x. Agrees live.old c x → Agrees live.new c x) }
    ensures drops { IfErr result (λ f. is_of_store f ≡ true → live.new ≡ nothing) }
{
    for item in items {
        hold_builds(alloc, book, live, item.serial)?;
    }
    Ok(())
}

/// The live builds of a queue's items with serials above `above`, up to and including `last`; `items` are those items.
/// Reads and holds the builds of the items that aren't known yet, then answers from memory. If not all can be held, or
/// memory for the answer is refused, the book answers. Fails if the book does; a fault that may come from the store
/// drops all held rows.
pub(crate) fn read_builds_between<B: Book>(
    alloc: Global,
    book: &mut B,
    live: &mut Live,
    queue: &Name,
    above: u64,
    last: Serial,
    items: &[Item],
) -> Result<Sequence<Build>, BookFault>
    ensures reads { IsRead B.IsTrusted B.Holds B.LeavesOneOf (MayAnswer B.MayFault) book.old book.new (λ c x.
        Agrees live.old c x → items.now ≡ read.items_between above last (read.items_in c x.state queue.now) →
        read.Answers (read.builds_of_items x.state items.now) result) result }
    ensures agrees { OfHeld B.IsTrusted B.Holds book.old book.new (λ c x. Agrees live.old c x → Agrees live.new c x) }
    ensures drops { IfErr result (λ f. is_of_store f ≡ true → live.new ≡ nothing) }
{
    read_builds_of(alloc, book, live, items)?;
    if let Some(found) = live.builds_of(alloc, items) {
        return Ok(found);
    }
    told(live, alloc, book.builds_between(queue, above, last))
}
