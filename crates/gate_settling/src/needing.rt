//! The items that need a change that has gone: each such change is looked up once, and the rows found are kept.
ghost use Rattle.std.specs.Prelude.{◌≡◌, ◌<◌, ◌+◌, ◌∷◌, [], length, nat_lt, filter, option_copied, IfOk, OnOk, IfErr};
ghost use Rattle.std.specs.Prelude.{IfSome, IfNone};
ghost use Rattle.gate_book_trait.specs.Kept.{OfHeld, IsKept};
ghost use Rattle.gate_book_trait.specs.Reading.{IsRead};
ghost use Rattle.gate_book_trait.specs.Reads as read;
ghost use Rattle.gate_book_trait.specs.Faults.{MayAnswer};
ghost use Rattle.gate_settling.specs.Rows as rows;

use gate_book_trait::{Book, BookFault};
use gate_types::lists::with_one;
use gate_types::names::{Name, NoMemory};
use gate_types::numbers::ChangeNo;
use gate_types::records::Item;
use std::alloc::Global;

/// The first row of two lists, and the rest of each. A row of both lists is taken from both.
fn first_of<'a>(one: &'a [Item], other: &'a [Item]) -> Option<(Item, &'a [Item], &'a [Item])>
    ensures none { IfNone result (rows.merged one.now other.now ≡ []) }
    ensures first { IfSome result (λ f. rows.merged one.now other.now ≡ f.0 ∷ rows.merged f.1.now f.2.now) }
    ensures fewer { IfSome result (λ f. length f.1.now + length f.2.now < length one.now + length other.now) }
{
    match (one.split_first(), other.split_first()) {
        (Some((a, behind_a)), Some((b, behind_b))) => {
            if b.serial < a.serial {
                Some((*b, one, behind_b))
            } else if b.serial == a.serial {
                Some((*a, behind_a, behind_b))
            } else {
                Some((*a, behind_a, other))
            }
        }
        (Some((a, behind)), None) => Some((*a, behind, other)),
        (None, Some((b, behind))) => Some((*b, one, behind)),
        (None, None) => None,
    }
}

/// The rows of two lists in the order of the queue, each once.
fn merged(alloc: Global, one: &[Item], other: &[Item]) -> Result<Vec<Item>, NoMemory>
    ensures { IfOk result (λ all. all.items ≡ rows.merged one.now other.now) }
{
    let mut all = Vec::new(alloc);
    let mut one = one;
    let mut other = other;
    while let Some((row, behind_one, behind_other)) = first_of(one, other) {
        all = with_one(all, row)?;
        one = behind_one;
        other = behind_other;
    }
    Ok(all)
}

fn keep_above(rows: &mut Vec<Item>, serial: u64)
    ensures { rows.new.items ≡ filter (λ r. nat_lt serial r.serial) rows.old.items }
{
    rows.retain(|row| serial < row.serial.get());
}

fn first_above(rows: &[Item], serial: u64) -> Option<&Item>
    ensures { option_copied result ≡ read.first_above serial rows.now }
{
    rows.iter().find(|row| serial < row.serial.get())
}

/// The rows of a queue, behind the one that was taken last, whose changes need one of the first `asked` changes that
/// have gone, front to back.
#[derive(Drop)]
pub struct Needing {
    pub rows: Vec<Item>,
    pub asked: usize,
}

impl Needing {
    /// Before any change was asked about.
    pub(crate) fn none(alloc: Global) -> Self
        ensures rows { result.rows.items ≡ [] }
        ensures asked { result.asked ≡ 0 }
    {
        Needing {
            rows: Vec::new(alloc),
            asked: 0,
        }
    }

    /// Lets go the rows up to a serial, and asks about the changes that have gone since.
    fn ask<B: Book>(
        &mut self,
        alloc: Global,
        book: &mut B,
        queue: &Name,
        gone: &[ChangeNo],
        above: u64,
    ) -> Result<(), BookFault>
        ensures reads { IsRead B.IsTrusted B.Holds B.LeavesOneOf (MayAnswer B.MayFault) book.old book.new (λ c x.
            rows.AreKept x.state gone.now above (read.items_in c x.state queue.now) self.old.rows.items self.old.asked →
            OnOk result (self.new.rows.items ≡
            rows.needing_any x.state gone.now above (read.items_in c x.state queue.now))) result }
        ensures asked { OnOk result (self.new.asked ≡ length gone.now) }
    {
        keep_above(&mut self.rows, above);
        for index in self.asked..gone.len() {
            let found = book.needing(queue, gone[index], above)?;
            self.rows = merged(alloc, self.rows.as_slice(), found.as_slice())?;
        }
        self.asked = gone.len();
        Ok(())
    }

    /// The first row of a queue above a serial whose change needs one of those that have gone. Each of these is asked
    /// about once, whenever this is called.
    pub(crate) fn first<B: Book>(
        &mut self,
        alloc: Global,
        book: &mut B,
        queue: &Name,
        gone: &[ChangeNo],
        above: u64,
    ) -> Result<Option<Item>, BookFault>
        ensures row { OfHeld B.IsTrusted B.Holds book.old book.new (λ c x.
            rows.AreKept x.state gone.now above (read.items_in c x.state queue.now) self.old.rows.items self.old.asked →
            IfOk result (λ row. row ≡
            rows.first_needing_any x.state gone.now above (read.items_in c x.state queue.now))) }
        ensures rises { IfOk result (λ row. IfSome row (λ r. above < r.serial)) }
        ensures rows { OfHeld B.IsTrusted B.Holds book.old book.new (λ c x.
            rows.AreKept x.state gone.now above (read.items_in c x.state queue.now) self.old.rows.items self.old.asked →
            OnOk result (self.new.rows.items ≡
            rows.needing_any x.state gone.now above (read.items_in c x.state queue.now))) }
        ensures asked { OnOk result (self.new.asked ≡ length gone.now) }
        ensures kept { IsKept B.IsTrusted B.Holds B.LeavesOneOf book.old book.new }
        ensures fault { IfErr result (MayAnswer B.MayFault) }
    {
        self.ask(alloc, book, queue, gone, above)?;
        Ok(first_above(self.rows.as_slice(), above).copied())
    }
}
