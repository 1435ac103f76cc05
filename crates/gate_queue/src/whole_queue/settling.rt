//! Settling one queue.
ghost use Rattle.std.specs.Prelude.{◌≡◌, ◌<◌, ◌+◌, ◌^◌, true, if◌then◌else◌, map, length, [], ◌∷◌, ◌++◌, OnOk, IfOk};
ghost use Rattle.std.specs.List.Sorted.{IsStrictlyIncreasing};
ghost use Rattle.gate_queue.specs.WholeQueue.Facts.{place_behind};
ghost use Rattle.gate_queue.specs.WholeQueue.Shared.{are_below};
ghost use Rattle.gate_queue.specs.WholeQueue.Visits.{AddsPlace, edits_by};
ghost use Rattle.gate_queue.specs.WholeQueue.Settles.{Settles};

use crate::whole_queue::context::{BareItem, ItemContext};
use crate::whole_queue::edits::push_edits;
use crate::whole_queue::facts::{Facts, ItemFacts};
use crate::whole_queue::shared::shared_with;
use gate_queue_rules::{push_window, reports_behind, window_behind};
use gate_types::edits::Edit;
use gate_types::names::NoMemory;
use gate_types::records::{Build, Item};
use gate_types::sequence::Sequence;
use std::alloc::Global;

fn push_unless<T: Drop>(items: &mut Vec<T>, item: T, skip: bool) -> Result<(), NoMemory>
    ensures { OnOk result (items.new.items ≡ (if skip then items.old.items else items.old.items ++ item ∷ [])) }
{
    if !skip {
        items.push(item)?;
    }
    Ok(())
}

/// What the pass over the items has come to: the non-failing ones, those that stay, the edits, the
/// window, the number of reports, and how many first landings have serials below `below`.
#[derive(Drop)]
struct Pass {
    ahead: Vec<BareItem>,
    staying: Vec<BareItem>,
    edits: Sequence<Edit>,
    window: u32,
    reports: u64,
    shared: usize,
    below: u64,
}

impl Pass {
    fn visit(
        &mut self,
        alloc: Global,
        facts: &Facts,
        builds: &[Build],
        item: &Item,
        about: &ItemFacts,
    ) -> Result<(), NoMemory>
        requires room { self.old.reports + 1 < 2 ^ 64 }
        requires shared { are_below self.old.shared facts.now.landings.now self.old.below ≡ true }
        ensures visited { let place = place_behind self.old.ahead.items facts.now.landings.now item.now about.now in
            OnOk result (AddsPlace facts.now builds.now place self.old self.new) }
        ensures shared { OnOk result (are_below self.new.shared facts.now.landings.now self.new.below ≡ true) }
    {
        let bare = BareItem::of(item);
        let shared = shared_with(facts.landings, self.shared, self.below, item.serial);
        let context = ItemContext {
            landings: facts.landings,
            ahead: &self.ahead,
            item: bare,
            needs: about.needs,
            jobs: about.jobs,
            fast: about.fast,
            shared,
        };
        let ruling = push_edits(
            alloc,
            &mut self.edits,
            &facts.settings.name,
            self.reports,
            &context,
            &self.staying,
            builds,
        )?;
        push_unless(&mut self.ahead, bare, ruling.failing)?;
        push_unless(&mut self.staying, bare, ruling.verdict.is_some())?;
        let settings = facts.settings;
        self.window = window_behind(self.window, settings.floor, settings.rule, ruling.verdict);
        self.reports = reports_behind(self.reports, ruling.verdict);
        self.shared = shared;
        self.below = item.serial.get();
        Ok(())
    }
}

/// The edits of the items, front to back, and then that of the window.
fn edits_for(
    alloc: Global,
    items: &[Item],
    builds: &[Build],
    facts: &Facts,
) -> Result<Sequence<Edit>, NoMemory>
    requires { length facts.now.items.now ≡ length items.now }
    ensures { IfOk result (λ edits. edits ≡ edits_by facts.now items.now builds.now) }
{
    let mut pass = Pass {
        ahead: Vec::new(alloc),
        staying: Vec::new(alloc),
        edits: Sequence::new(alloc),
        window: facts.window,
        reports: facts.reports,
        shared: 0,
        below: 0,
    };
    for (index, item) in items.iter().enumerate() {
        let about = &facts.items[index];
        pass.visit(alloc, facts, builds, item, about)?;
    }
    let Pass {
        ahead: _,
        staying: _,
        mut edits,
        window,
        reports: _,
        shared: _,
        below: _,
    } = pass;
    push_window(&mut edits, &facts.settings.name, facts.window, window)?;
    Ok(edits)
}

/// The edits that settle a queue: a rebase and then a sweep of it, each by one state. Whatever the
/// columns of the items say, they are written anew for each item that stays; one that goes is reported
/// and dropped, front to back; builds that don't count, and running builds of items that go or are cut,
/// are stopped; the window is set where it changed. No row but the queue's own is touched. `builds` holds
/// at least all live builds of the items. `NoMemory` where memory was refused.
pub fn settle(
    alloc: Global,
    items: &[Item],
    builds: &[Build],
    facts: &Facts,
) -> Result<Vec<Edit>, NoMemory>
    requires facts_of_each { length facts.now.items.now ≡ length items.now }
    requires items_rise { IsStrictlyIncreasing (map (λ i. i.serial) items.now) }
    requires builds_rise { IsStrictlyIncreasing (map (λ b. b.number) builds.now) }
    ensures { IfOk result (λ edits. Settles facts.now items.now builds.now edits.items) }
{
    let edits = edits_for(alloc, items, builds, facts)?;
    Ok(edits.into_vec())
}
