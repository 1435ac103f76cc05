//! `revision`: a change at a new revision.
ghost use Rattle.std.specs.Prelude.{◌≡◌, ◌||◌, not, false, nat_le, IfOk};
ghost use Rattle.std.specs.Option.{option_map_or};
ghost use Rattle.gate_types.specs.declared.deliveries.Delivery.TheVariants as delivery;
ghost use Rattle.gate_types.specs.Names.{same_name};
ghost use Rattle.gate_types.specs.State.{is_landed};
ghost use Rattle.gate_types.specs.Step.{has_project};
ghost use Rattle.gate_book_trait.specs.Faults.{MayAnswer};
ghost use Rattle.gate_book_trait.specs.Reading.{IsReadUnder};
ghost use Rattle.gate_reads.specs.Raw.{IsRaw};

use crate::changing::put_anew;
use crate::leaving::{give_up_place, is_submitting};
use gate_book_trait::{Book, BookFault};
use gate_reads::{Moved, PendingReply, Raw, queue_place};
use gate_types::config::Config;
use gate_types::deliveries::{Refusal, Reply};
use gate_types::names::{Message, PathName};
use gate_types::numbers::{ChangeNo, Revision};
use gate_types::records::{Change, Stage, Verdict};
use gate_types::sequence::Sequence;
use gate_wire::needs;
use std::alloc::Global;

fn has_project(config: &Config, name: &PathName) -> bool
    ensures { result ≡ has_project config.now name.now }
{
    let projects = config.projects.as_slice();
    projects
        .iter()
        .any(|project| project.name.as_str() == name.as_str())
}

/// Whether a change is known in another project.
fn is_of_another(known: &Option<Change>, project: &PathName) -> bool
    ensures { result ≡ option_map_or (λ k. not (same_name k.project project.now)) known.now false }
{
    match known {
        Some(known) => known.project.as_str() != project.as_str(),
        None => false,
    }
}

/// Whether a change is known at this revision or a later one, or has landed.
fn is_late(known: &Option<Change>, revision: Revision) -> bool
    ensures { result ≡ option_map_or (λ k. nat_le revision k.revision || is_landed k) known.now false }
{
    match known {
        Some(known) => revision.get() <= known.revision.get() || known.is_landed(),
        None => false,
    }
}

/// A change's latest revision takes the place of its earlier one, and its approval is dropped.
pub(crate) fn revision<B: Book>(
    alloc: Global,
    book: &mut B,
    config: &Config,
    change: ChangeNo,
    project: &PathName,
    revision: Revision,
    message: &Message,
) -> Result<Raw, BookFault>
    ensures { IsReadUnder B.IsTrusted B.Holds B.LeavesOneOf (MayAnswer B.MayFault) book.old book.new config.now (λ x.
        IfOk result (IsRaw config.now x (delivery.Revision change project.now revision message.now))) result }
{
    if !has_project(config, project) {
        return Ok(Raw::Refused(Refusal::UnknownProject));
    }
    let known = book.change(change)?;
    if is_of_another(&known, project) {
        return Ok(Raw::Refused(Refusal::ProjectChanged));
    }
    if is_late(&known, revision) {
        return Ok(Raw::Stands(Reply::Stale));
    }
    // Ended here, so that none of the early returns below has to end it too.
    drop(known);
    let place = queue_place(alloc, book, config, change)?;
    if is_submitting(&place) {
        return Ok(Raw::Refused(Refusal::Submitting));
    }
    let needs = match needs(alloc, config.base.as_str(), message.as_str()) {
        Ok(needs) => needs,
        Err(Refusal::TooManyNeeds) => return Ok(Raw::Refused(Refusal::TooManyNeeds)),
        Err(_) => return Err(BookFault::NoMemory),
    };
    let left = give_up_place(alloc, book, config, place, Verdict::Superseded)?;
    let edits = put_anew(
        left.edits,
        Change {
            number: change,
            project: project.copy()?,
            revision,
            stage: Stage::Open,
            needs: Sequence::from_vec(needs),
        },
    )?;
    Ok(Raw::Moved(Moved {
        reply: PendingReply::Now(Reply::Recorded),
        edits,
        touched: left.touched,
    }))
}
