//! The walk over the rows behind a touched item.
ghost use Rattle.std.specs.Prelude.{◌≡◌, ◌≤◌, ◌+◌, ◌++◌, List, [], ◌∷◌, vec_len, Option, OnOk, OnErr, IfOk};
ghost use Rattle.std.specs.Prelude.{if◌then◌else◌, option_map};
ghost use Rattle.std.specs.Option.{option_map_or};
ghost use Rattle.gate_types.specs.Window.{bounds_by};
ghost use Rattle.gate_walk.specs.Walk as rules;
ghost use Rattle.gate_walk.specs.Rescan as law;
ghost use Rattle.gate_walk.specs.Next as next;
ghost use Rattle.gate_walk.specs.TakenOut.{out_of};
ghost use Rattle.gate_types.specs.Counters.{last_number};

use crate::seen::{Mark, SeenNeed, judge};
use crate::told::{Beside, edits_of_visit};
use gate_queue_rules::{reports_behind, window_behind};
use gate_types::config::{Job, Queue, WindowRule};
use gate_types::edits::Edit;
use gate_types::names::{Name, NoMemory};
use gate_types::numbers::{ChangeNo, Serial};
use gate_types::records::{Build, Item, Verdict};
use std::alloc::Global;
use std::marker::Model;

/// What a visit is given: a row as it is stored, the needs of its change, the jobs of its plan, whether one
/// failure ends them all, its live builds.
#[derive(Clone, Copy)]
pub struct Seen<'a> {
    pub row: Item,
    pub needs: &'a [SeenNeed],
    pub jobs: &'a [Job],
    pub fast: bool,
    pub builds: &'a [Build],
}

/// What was taken out of a queue.
#[derive(Clone, Copy)]
pub struct TakenOut {
    pub change: ChangeNo,
    pub failing: bool,
    pub landed: bool,
}

/// Where a delivery touched a queue: the serial of the item, that of the last non-failing item before it, and
/// what was taken out, unless the item stands.
#[derive(Clone, Copy)]
pub struct Touched {
    pub serial: Serial,
    pub ahead: Option<Serial>,
    pub out: Option<TakenOut>,
}

/// The queue as the delivery left it: its settings, its window, and how many reports it has made, that of the
/// delivery among them, at most 10^15.
#[derive(Clone, Copy)]
pub struct QueueFacts<'a> {
    pub settings: &'a Queue,
    pub window: u32,
    pub reports: u64,
    pub ghost reports_in_range: { reports ≤ last_number },
}

/// What a walk reads next: the queue's first item above a serial, its first item above it that needs a
/// change of `gone`, or nothing more.
#[derive(Clone, Copy, PartialEq, Eq)]
pub enum Next {
    Go(Serial),
    Need(Serial),
    Stop,
}

/// A walk over the rows behind a touched item, and what it has told so far.
#[derive(Drop)]
pub struct Walk {
    name: Name,
    floor: u32,
    rule: WindowRule,
    window: u32,
    reports: u64,
    touched: Serial,
    resets: bool,
    passes: bool,
    ahead: Option<Serial>,
    gone: Vec<ChangeNo>,
    marks: Vec<Mark>,
    edits: Vec<Edit>,
}

impl Model for Walk {
    ghost use Rattle.gate_types.specs.Counters.{last_number};
    ghost use Rattle.std.specs.Prelude.{◌≤◌, ◌+◌, vec_len};
    ghost use Rattle.gate_walk.specs.Walk.{Walk};

    ghost Value = { Walk };

    ghost view = { λ w. record {
      name = w.name;
      bounds = record { floor = w.floor; rule = w.rule };
      touched = w.touched;
      told = w.edits.items;
      carry = record {
        resets = w.resets;
        passes = w.passes;
        ahead = w.ahead;
        gone = w.gone.items;
        marks = w.marks.items;
        reports = w.reports;
        window = w.window;
      };
    } };

    // each visit adds a mark, and one report at most
    ghost invariant = { λ w. w.reports ≤ last_number + vec_len w.marks };
}

fn still_counting<'a>(resets: bool, builds: &'a [Build]) -> &'a [Build]
    ensures { result.now ≡ (if resets then [] else builds.now) }
{
    if resets { &builds[0..0] } else { builds }
}

fn ahead_behind(failing: bool, ahead: Option<Serial>, serial: Serial) -> Option<Serial>
    ensures { result ≡ (if failing then ahead else Option.Some serial) }
{
    if failing { ahead } else { Some(serial) }
}

/// Whether the lines behind have changed: a non-failing item was taken out that didn't land.
fn changes_lines(out: Option<TakenOut>) -> bool
    ensures { result ≡ law.changes_lines (option_map out_of out) }
{
    match out {
        Some(out) => !(out.landed || out.failing),
        None => false,
    }
}

fn passes_a_landing(out: Option<TakenOut>) -> bool
    ensures { result ≡ law.passes_a_landing (option_map out_of out) }
{
    match out {
        Some(out) => out.landed,
        None => false,
    }
}

/// The change that was taken out, unless it landed.
fn gone_at_first(alloc: Global, out: Option<TakenOut>) -> Result<Vec<ChangeNo>, NoMemory>
    ensures { IfOk result (λ gone. gone.items ≡ law.gone_at_first (option_map out_of out)) }
{
    let mut gone: Vec<ChangeNo> = Vec::new(alloc);
    if let Some(out) = out
        && !out.landed
    {
        gone.push(out.change)?;
    }
    Ok(gone)
}

/// Appends what a visit came to; where memory is refused, nothing.
fn append_all(
    edits: &mut Vec<Edit>,
    marks: &mut Vec<Mark>,
    gone: &mut Vec<ChangeNo>,
    told: Vec<Edit>,
    mark: Mark,
    going: bool,
) -> Result<(), NoMemory>
    ensures edits { OnOk result (edits.new.items ≡ edits.old.items ++ told.items) }
    ensures marks { OnOk result (marks.new.items ≡ marks.old.items ++ mark ∷ []) }
    ensures gone { OnOk result (gone.new.items ≡
        (if going then gone.old.items ++ mark.change ∷ [] else gone.old.items)) }
    ensures more { OnOk result (vec_len marks.new ≡ vec_len marks.old + 1) }
    ensures same_edits { OnErr result (edits.new.items ≡ edits.old.items) }
    ensures same_len { OnErr result (vec_len marks.new ≡ vec_len marks.old) }
    ensures same_marks { OnErr result (marks.new.items ≡ marks.old.items) }
    ensures same_gone { OnErr result (gone.new.items ≡ gone.old.items) }
{
    let mut told = told;
    gone.reserve(1)?;
    marks.reserve(1)?;
    edits.append(&mut told)?;
    marks.push(mark)?;
    if going {
        gone.push(mark.change)?;
    }
    Ok(())
}

/// What a visit comes to.
#[derive(Drop)]
struct VisitEnd {
    edits: Vec<Edit>,
    failing: bool,
    verdict: Option<Verdict>,
}

impl Walk {
    ghost use Rattle.gate_walk.specs.Views.{seen_of, next_is};
    ghost use Rattle.gate_walk.specs.UnderWay.{Delivered, HasVisited, row_wanted, IsFor, Starts, Visits};

    /// What a visit of this row comes to.
    fn told(&self, alloc: Global, seen: &Seen) -> Result<VisitEnd, NoMemory>
        ensures edits { IfOk result (λ t. t.edits.items ≡
            rules.visit_edits self.now.name self.now.bounds self.now.carry (seen_of seen.now)) }
        ensures failing { IfOk result (λ t. t.failing ≡ rules.fails self.now.carry (seen_of seen.now)) }
        ensures verdict { IfOk result (λ t. t.verdict ≡ rules.verdict_by self.now.carry (seen_of seen.now)) }
    {
        let counting = still_counting(self.resets, seen.builds);
        let judged = judge(
            alloc,
            !self.ahead.is_some(),
            seen.fast,
            self.gone.as_slice(),
            self.marks.as_slice(),
            seen.needs,
            seen.jobs,
            counting,
        )?;
        let row = Item {
            serial: seen.row.serial,
            change: seen.row.change,
            revision: seen.row.revision,
            ahead: self.ahead,
            failing: judged.failing,
        };
        let beside = Beside {
            stored: seen.row,
            floor: self.floor,
            rule: self.rule,
            window: self.window,
            reports: self.reports,
            resets: self.resets,
        };
        let edits = edits_of_visit(
            alloc,
            &self.name,
            beside,
            row,
            judged.cut,
            judged.verdict,
            seen.builds,
        )?;
        Ok(VisitEnd {
            edits: edits.into_vec(),
            failing: judged.failing,
            verdict: judged.verdict,
        })
    }

    /// The changes that have gone: a row that needs one of them is wanted.
    pub fn gone(&self) -> &[ChangeNo]
        ensures { result.now ≡ self.now.carry.gone }
    {
        self.gone.as_slice()
    }

    /// The edits of the visits so far.
    pub fn edits(&self) -> &[Edit]
        ensures { result.now ≡ self.now.told }
    {
        self.edits.as_slice()
    }

    /// The edits of all visits.
    pub fn into_edits(self) -> Vec<Edit>
        ensures { result.items ≡ self.told }
    {
        let Walk { edits, .. } = self;
        edits
    }

    /// The serial that was touched: the first row from it on is wanted first.
    pub fn touched(&self) -> Serial
        ensures { result ≡ self.now.touched }
    {
        self.touched
    }

    /// A walk before its first visit. The row that is wanted first is that of the touched item if nothing was
    /// taken out, else the next one.
    pub fn start(alloc: Global, queue: QueueFacts, touched: Touched) -> Result<Self, NoMemory>
        ensures for_a_delivery { IfOk result (λ w. (x : Delivered) → IsFor x queue.entry touched → Starts x w) }
        ensures begun { IfOk result (λ w. w ≡ record {
          name = queue.entry.settings.now.name;
          bounds = bounds_by queue.entry.settings.now;
          touched = touched.serial;
          told = [];
          carry = law.walk_start (option_map out_of touched.out) touched.ahead queue.entry.reports queue.entry.window;
        }) }
    {
        Ok(Walk {
            name: queue.settings.name.copy()?,
            floor: queue.settings.floor,
            rule: queue.settings.rule,
            window: queue.window,
            reports: queue.reports,
            touched: touched.serial,
            resets: changes_lines(touched.out),
            passes: passes_a_landing(touched.out),
            ahead: touched.ahead,
            gone: gone_at_first(alloc, touched.out)?,
            marks: Vec::new(alloc),
            edits: Vec::new(alloc),
        })
    }

    /// What is wanted behind the row of a serial.
    fn next(&self, serial: Serial) -> Next
        ensures { next_is result (next.next_of self.now.carry serial) }
    {
        if self.resets || self.passes {
            Next::Go(serial)
        } else if self.gone.is_empty() {
            Next::Stop
        } else {
            Next::Need(serial)
        }
    }

    fn visit_row(&mut self, alloc: Global, seen: &Seen) -> Result<Next, NoMemory>
        ensures visited { OnOk result (self.new ≡ rules.behind_visit self.old (seen_of seen.now)) }
        ensures next { IfOk result (λ n. next_is n (next.next_of self.new.carry seen.now.row.serial)) }
        ensures same { OnErr result (self.new ≡ self.old) }
    {
        let told = self.told(alloc, seen)?;
        let VisitEnd {
            edits,
            failing,
            verdict,
        } = told;
        let mark = Mark {
            change: seen.row.change,
            failing,
        };
        append_all(
            &mut self.edits,
            &mut self.marks,
            &mut self.gone,
            edits,
            mark,
            verdict.is_some(),
        )?;
        self.resets = self.resets || failing && !seen.row.failing;
        self.passes = self.passes && failing;
        self.ahead = ahead_behind(failing, self.ahead, seen.row.serial);
        self.reports = reports_behind(self.reports, verdict);
        self.window = window_behind(self.window, self.floor, self.rule, verdict);
        Ok(self.next(seen.row.serial))
    }

    /// Visits the row that was wanted, or learns that it isn't there. Where memory is refused the walk
    /// stays as it was.
    #[tactic(auto, using(crate::proofs::UnderWay::ends))]
    pub fn visit(&mut self, alloc: Global, seen: Option<&Seen>) -> Result<Next, NoMemory>
        ensures settles { IfOk result (λ n. (x : Delivered) (vs : List rules.Seen) → HasVisited x self.old vs →
            (let row = option_map (λ v. seen_of v.now) seen.entry in
            row_wanted x vs ≡ row → Visits x self.old self.new vs row n)) }
        ensures visited { OnOk result (self.new ≡
            option_map_or (λ v. rules.behind_visit self.old (seen_of v.now)) seen.entry self.old) }
        ensures next { IfOk result (λ n. next_is n
            (option_map_or (λ v. next.next_of self.new.carry v.now.row.serial) seen.entry next.stop)) }
        ensures same { OnErr result (self.new ≡ self.old) }
    {
        match seen {
            Some(seen) => self.visit_row(alloc, seen),
            None => Ok(Next::Stop),
        }
    }
}
