//! A thousand small queues, each made from a number by arithmetic alone and led through some deliveries:
//! behind each of them the walk leaves what a settling of the whole queue leaves. Items that fail fast are among them,
//! and windows by all kinds of rules.
use crate::claims::is;
use crate::queues::board::{Board, Row, is_blocked};
use gate_types::config::WindowRule;
use gate_types::numbers::Serial;
use gate_types::records::{Build, Outcome};
use gate_walk::Touched;
use std::process::Abort;

/// Numbers that look thrown, by a linear congruence; with the last serial and the last number of a build.
#[derive(Drop)]
struct Life {
    dice: u64,
    serial: u64,
    build: u64,
}

/// What walks have come to.
#[derive(Drop)]
struct Tally {
    walks: u32,
    /// Running builds that were stopped by a failure of their own item, which stays where it is.
    cut: u32,
    /// Running builds of items that have left by a failure of their own.
    hurried: u32,
    /// Walks that changed a window by a rule that isn't the default.
    by_rule: u32,
}

/// What the builds of a job have come to, unless it waits for one.
fn outcome_of(builds: &[Build], of: Serial, job: &str) -> Option<Outcome> {
    let mut lost = 0u32;
    for build in builds {
        if build.serial == of && build.job.as_str() == job {
            match build.outcome {
                Outcome::Lost => lost = lost.saturating_add(1),
                outcome => return Some(outcome),
            }
        }
    }
    if lost < 3 { None } else { Some(Outcome::Lost) }
}

/// Whether a job has failed, or was lost three times.
fn has_failed(board: &Board, of: Serial, job: &str) -> bool {
    matches!(
        outcome_of(&board.builds, of, job),
        Some(Outcome::Failure | Outcome::Lost)
    )
}

/// Whether a job has succeeded, has failed, or was lost three times.
fn has_ended(board: &Board, of: Serial, job: &str) -> bool {
    match outcome_of(&board.builds, of, job) {
        Some(outcome) => outcome != Outcome::Running,
        None => false,
    }
}

/// How many builds of an item run.
fn running(board: &Board, of: Serial) -> u32 {
    let mut running = 0u32;
    for build in board.builds.iter() {
        if build.serial == of && build.outcome == Outcome::Running {
            running = running.saturating_add(1);
        }
    }
    running
}

/// Whether a voting job has failed of an item that fails fast: then none of its jobs is to be built.
fn is_cut(board: &Board, row: &Row) -> bool {
    row.fast
        && row.jobs.iter().any(|job| job.voting
            && has_failed(board, row.item.serial, job.name.as_str()))
}

impl Tally {
    /// Counts what a walk behind a delivery about an item has left: `ran` of its builds ran before.
    fn count(&mut self, board: &Board, of: Serial, ran: u32, window: u32) {
        self.walks = self.walks.saturating_add(1);
        let stopped = ran.saturating_sub(running(board, of));
        if board.rows.iter().any(|row| row.item.serial == of) {
            self.cut = self.cut.saturating_add(stopped);
        } else {
            self.hurried = self.hurried.saturating_add(stopped);
        }
        if board.window != window && board.settings.rule != WindowRule::default() {
            self.by_rule = self.by_rule.saturating_add(1);
        }
    }
}

impl Life {
    /// A number below the number of sides.
    fn roll(&mut self, sides: u64) -> u64 {
        self.dice = self
            .dice
            .wrapping_mul(6_364_136_223_846_793_005)
            .wrapping_add(1_442_695_040_888_963_407);
        (self.dice >> 33) % sides.max(1)
    }

    fn some_row<'a>(&mut self, board: &'a Board) -> Option<&'a Row> {
        let index = self.roll(board.rows.len() as u64);
        board.rows.get(index as usize)
    }

    /// An item whose change needs some of those that stand, where there is room for it.
    fn item(&mut self, rt: &(impl Abort + AllocGlobal), board: &Board) -> Option<String> {
        if board.rows.len() >= 6 {
            return None;
        }
        self.serial = self.serial.saturating_add(1);
        let (serial, change) = (self.serial, self.serial.saturating_add(100));
        let project = match self.roll(8) {
            0 | 1 => "web!",
            2 | 3 => "lib!",
            4 => "web",
            _ => "lib",
        };
        let mut line = format!(in rt.alloc(); "item {serial} {change} {project}").expect(
            rt, "memory",
        );
        for row in board.rows.iter() {
            if self.roll(4) == 0 {
                write!(line, " {}", row.item.change.get()).expect(rt, "memory");
            }
        }
        Some(line)
    }

    /// A build of some item's job, where it waits for one.
    fn build(&mut self, rt: &(impl Abort + AllocGlobal), board: &Board) -> Option<String> {
        let row = self.some_row(board)?;
        let job = if self.roll(2) == 0 { "unit" } else { "docs" };
        let of = row.item.serial;
        if is_blocked(&board.rows, &row.needs) || is_cut(board, row) {
            return None;
        }
        if outcome_of(&board.builds, of, job).is_some() {
            return None;
        }
        self.build = self.build.saturating_add(1);
        Some(build_line(rt, board, row, job, self.build))
    }

    /// The end of some running build.
    fn end(&mut self, rt: &(impl Abort + AllocGlobal), board: &Board) -> Option<String> {
        let number = self.build.saturating_sub(self.roll(10));
        let outcome = match self.roll(5) {
            0 | 1 => "success",
            2 | 3 => "failure",
            _ => "lost",
        };
        let build = board
            .builds
            .iter()
            .find(|build| build.number.get() == number)?;
        if build.outcome != Outcome::Running {
            return None;
        }
        Some(format!(in rt.alloc(); "end {number} {outcome}").expect(rt, "memory"))
    }

    fn leave(&mut self, rt: &(impl Abort + AllocGlobal), board: &Board) -> Option<String> {
        let serial = self.some_row(board)?.item.serial.get();
        Some(format!(in rt.alloc(); "leave {serial}").expect(rt, "memory"))
    }

    /// What is delivered next, if there is something to deliver: most are results.
    fn line(&mut self, rt: &(impl Abort + AllocGlobal), board: &Board) -> Option<String> {
        match self.roll(16) {
            0 | 1 | 2 => self.item(rt, board),
            3 | 4 | 5 | 6 | 7 | 8 => self.build(rt, board),
            9 => self.leave(rt, board),
            10 | 11 => land_line(rt, board),
            _ => self.end(rt, board),
        }
    }
}

/// A build that runs behind the landings and the non-failing items before its own.
fn build_line(
    rt: &(impl Abort + AllocGlobal),
    board: &Board,
    of: &Row,
    job: &str,
    number: u64,
) -> String {
    let (serial, change) = (of.item.serial, of.item.change.get());
    let after = board
        .landings
        .iter()
        .filter(|landing| landing.serial < serial)
        .count();
    let own = serial.get();
    let mut line = format!(in rt.alloc();
        "build {number} {own} {change} {job} {after} running"
    ).expect(rt, "memory");
    for row in board.rows.iter() {
        if row.item.serial < serial && !row.item.failing {
            write!(line, " {}", row.item.change.get()).expect(rt, "memory");
        }
    }
    line
}

/// The first non-failing item lands, if each of its jobs has ended.
fn land_line(rt: &(impl Abort + AllocGlobal), board: &Board) -> Option<String> {
    let item = board.rows.iter().find(|row| !row.item.failing)?.item;
    if !has_ended(board, item.serial, "unit") || !has_ended(board, item.serial, "docs") {
        return None;
    }
    let (serial, change) = (item.serial.get(), item.change.get());
    Some(format!(in rt.alloc(); "land {serial} {change}").expect(rt, "memory"))
}

/// Behind a line that touches an item of two queues one is walked over and the other settled whole, and they are alike.
fn walks(
    rt: &(impl Abort + AllocGlobal),
    walked: &mut Board,
    settled: &mut Board,
    touched: Touched,
    line: &str,
    tally: &mut Tally,
) {
    let of = touched.serial;
    let ran = running(walked, of);
    let window = walked.window;
    let (walk, _visited) = walked.walk(rt, touched);
    walked.apply(rt, walk.edits());
    let edits = settled.settle(rt);
    settled.apply(rt, &edits);
    let wanted = settled.text(rt);
    is(rt, walked.text(rt).as_str(), wanted.as_str(), line);
    tally.count(walked, of, ran, window);
}

/// A line befalls two queues that are alike, and they are alike again.
fn befalls(
    rt: &(impl Abort + AllocGlobal),
    walked: &mut Board,
    settled: &mut Board,
    line: &str,
    tally: &mut Tally,
) {
    let _ = settled.deliver(rt, line);
    if let Some(touched) = walked.deliver(rt, line) {
        walks(rt, walked, settled, touched, line, tally);
    }
}

/// How a window begins.
fn begin(life: &mut Life) -> &'static str {
    match life.roll(4) {
        0 => "queue 0 3 0",
        1 => "queue 900 3 0",
        _ => "queue 20 3 0",
    }
}

fn rule(life: &mut Life) -> &'static str {
    match life.roll(6) {
        0 => "rule linear 1 linear 1",
        1 => "rule exponential 2 linear 5",
        2 => "rule linear 1000 exponential 3",
        3 => "rule exponential 1 linear 1000",
        4 => "rule exponential 1000 exponential 1",
        _ => "rule linear 1 exponential 2",
    }
}

/// Leads a queue through a life.
fn live(rt: &(impl Abort + AllocGlobal), life: &mut Life, tally: &mut Tally) {
    let mut walked = Board::new(rt);
    let mut settled = Board::new(rt);
    befalls(rt, &mut walked, &mut settled, begin(life), tally);
    befalls(rt, &mut walked, &mut settled, rule(life), tally);
    for _ in 0..100 {
        if let Some(line) = life.line(rt, &walked) {
            befalls(rt, &mut walked, &mut settled, line.as_str(), tally);
        }
    }
}

#[test]
fn a_thousand_walks_leave_what_settling_leaves(rt: HostRuntime) {
    let mut tally = Tally {
        walks: 0,
        cut: 0,
        hurried: 0,
        by_rule: 0,
    };
    for number in 0..1000 {
        let mut life = Life {
            dice: number,
            serial: 0,
            build: 0,
        };
        live(&rt, &mut life, &mut tally);
    }
    // most of the 100,000 draws find nothing to touch, or only admit or take
    assert!(rt; tally.walks > 10_000);
    assert!(rt; tally.cut > 100);
    assert!(rt; tally.hurried > 100);
    assert!(rt; tally.by_rule > 100);
}
