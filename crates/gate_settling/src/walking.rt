//! The visits of a walk, one after another.
ghost use Rattle.std.specs.Prelude.{◌≡◌, Some, List, IfOk};
ghost use Rattle.gate_walk.specs.Walk as walks;
ghost use Rattle.gate_walk.specs.UnderWay.{HasVisited, GoesOn, Starts, row_wanted};
ghost use Rattle.gate_book_trait.specs.Reading.{IsReadUnder};
ghost use Rattle.gate_settling.specs.Rows as rows;
ghost use Rattle.gate_settling.specs.Touching.{Touching, delivered, sees, HasWalked};
ghost use Rattle.gate_book_trait.specs.Faults.{MayAnswer};

use crate::needing::Needing;
use crate::rows::facts_now;
use crate::wanted::{first_wanted, wanted};
use gate_book_trait::{Book, BookFault};
use gate_reads::TouchedItem;
use gate_types::config::Config;
use gate_types::records::Item;
use gate_walk::{Next, Seen, Walk};
use std::alloc::Global;

/// Visits the row that is wanted.
fn visited<B: Book>(
    alloc: Global,
    book: &mut B,
    config: &Config,
    touched: &TouchedItem,
    walk: &mut Walk,
    row: Item,
) -> Result<Next, BookFault>
    ensures reads { IsReadUnder B.IsTrusted B.Holds B.LeavesOneOf (MayAnswer B.MayFault) book.old book.new config.now
        (λ x. (h : Touching config.now x touched.now) (vs : List walks.Seen) → HasVisited (delivered h) walk.old vs →
        row_wanted (delivered h) vs ≡ Some (sees h row) →
        IfOk result (λ next. GoesOn (delivered h) walk.old walk.new (sees h row) vs next)) result }
    ensures from { IfOk result (λ next. rows.IsFrom row.serial next) }
{
    let facts = facts_now(alloc, book, touched, row.change, row.serial)?;
    let seen = Seen {
        row,
        needs: facts.needs.as_slice(),
        jobs: facts.plan.jobs.as_slice(),
        fast: facts.plan.fast,
        builds: facts.builds.as_slice(),
    };
    Ok(walk.visit(alloc, Some(&seen))?)
}

/// Visits rows until none is wanted.
pub(crate) fn walked<B: Book>(
    alloc: Global,
    book: &mut B,
    config: &Config,
    touched: &TouchedItem,
    begun: Walk,
) -> Result<Walk, BookFault>
    ensures { IsReadUnder B.IsTrusted B.Holds B.LeavesOneOf (MayAnswer B.MayFault) book.old book.new config.now (λ x.
        (h : Touching config.now x touched.now) → Starts (delivered h) begun →
        IfOk result (λ walk. HasWalked h walk)) result }
{
    let mut walk = begun;
    let mut needing = Needing::none(alloc);
    let mut next = first_wanted(book, touched)?;
    while let Some(row) = next {
        let asks = visited(alloc, book, config, touched, &mut walk, row)?;
        next = wanted(alloc, book, &touched.queue, walk.gone(), asks, &mut needing)?;
    }
    walk.visit(alloc, None)?;
    Ok(walk)
}
