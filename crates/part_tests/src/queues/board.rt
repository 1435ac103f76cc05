//! A queue whose rows are changed by deliveries and by edits.
use crate::queues::told::{tell_edit, tell_item};
use crate::queues::words::{
    build, landing, name, needs, number, outcome, plan, rule, serial, size, word,
};
use gate_queue::grow;
use gate_types::config::{Job, Queue, WindowRule};
use gate_types::edits::Edit;
use gate_types::numbers::{ChangeNo, Serial};
use gate_types::records::{Build, Item, Landing, Need, Outcome};
use gate_walk::{TakenOut, Touched};
use std::process::Abort;
use std::str::SplitWhitespace;

/// An item's stored row, with the needs of its change, the jobs of its project, and whether it fails fast.
#[derive(Drop)]
pub(crate) struct Row {
    pub(crate) item: Item,
    pub(crate) needs: Vec<Need>,
    pub(crate) jobs: Vec<Job>,
    pub(crate) fast: bool,
}

/// The queue `core`: its settings, its window, how many reports it has made, what has landed, its items and the live
/// builds, by number.
#[derive(Drop)]
pub(crate) struct Board {
    pub(crate) settings: Queue,
    pub(crate) window: u32,
    pub(crate) reports: u64,
    pub(crate) landings: Vec<Landing>,
    pub(crate) rows: Vec<Row>,
    pub(crate) builds: Vec<Build>,
    /// The reports that edits have put, a line each.
    pub(crate) told: String,
}

fn item_at(rows: &[Row], serial: Serial) -> Option<Item> {
    for row in rows {
        if row.item.serial == serial {
            return Some(row.item);
        }
    }
    None
}

/// Whether the row of a change says that it is failing, where it stands.
pub(crate) fn standing(rows: &[Row], of: ChangeNo) -> Option<bool> {
    for row in rows {
        if row.item.change == of {
            return Some(row.item.failing);
        }
    }
    None
}

/// Whether some need has neither landed nor stands as a non-failing item.
pub(crate) fn is_blocked(rows: &[Row], needs: &[Need]) -> bool {
    needs.iter().any(|need| !need.landed && standing(rows, need.change) != Some(false))
}

/// The needs of a change that landed are met from now on.
fn meet(rows: &mut [Row], landed: ChangeNo) {
    for row in rows {
        meet_each(&mut row.needs, landed);
    }
}

fn meet_each(needs: &mut [Need], landed: ChangeNo) {
    for need in needs {
        need.landed = need.landed || need.change == landed;
    }
}

fn put(rows: &mut [Row], item: Item) {
    for row in rows {
        if row.item.serial == item.serial {
            row.item = item;
        }
    }
}

/// A build has ended. Its item is told.
fn set_outcome(builds: &mut [Build], number: u64, outcome: Outcome) -> Option<Serial> {
    for build in builds {
        if build.number.get() == number {
            build.outcome = outcome;
            return Some(build.serial);
        }
    }
    None
}

impl Board {
    /// A queue without items.
    pub(crate) fn new(rt: &(impl Abort + AllocGlobal)) -> Self {
        Board {
            settings: Queue {
                name: name(rt, "core"),
                window: 2,
                floor: 1,
                rule: WindowRule::default(),
            },
            window: 2,
            reports: 0,
            landings: Vec::new(rt.alloc()),
            rows: Vec::new(rt.alloc()),
            builds: Vec::new(rt.alloc()),
            told: String::new(rt.alloc()),
        }
    }

    /// The window, the floor and how many reports there are.
    fn begin(&mut self, rt: &impl Abort, words: &mut SplitWhitespace) {
        self.window = size(rt, words);
        self.settings.window = self.window;
        self.settings.floor = size(rt, words);
        self.reports = number(rt, word(rt, words));
    }

    /// The serial of the last non-failing item.
    fn last_ahead(&self) -> Option<Serial> {
        let mut ahead = None;
        for row in self.rows.iter() {
            if !row.item.failing {
                ahead = Some(row.item.serial);
            }
        }
        ahead
    }

    /// Adds an item behind the others: its serial, its change, its project and its needs.
    fn admit(&mut self, rt: &(impl Abort + AllocGlobal), words: &mut SplitWhitespace) {
        let item = landing(rt, words);
        let (jobs, fast) = plan(rt, word(rt, words));
        let needs = needs(rt, words);
        let item = Item {
            serial: item.serial,
            change: item.change,
            revision: item.revision,
            ahead: self.last_ahead(),
            failing: is_blocked(&self.rows, &needs),
        };
        self.rows
            .push(Row {
                item,
                needs,
                jobs,
                fast,
            })
            .expect(rt, "memory");
    }

    /// A build has ended: its number and its outcome.
    fn end(&mut self, rt: &impl Abort, words: &mut SplitWhitespace) -> Option<Touched> {
        let number = number(rt, word(rt, words));
        let outcome = outcome(rt, word(rt, words));
        let serial = set_outcome(&mut self.builds, number, outcome)?;
        let item = item_at(&self.rows, serial)?;
        Some(Touched {
            serial,
            ahead: item.ahead,
            out: None,
        })
    }

    /// Takes an item and its builds out.
    fn drop_item(&mut self, of: Serial) {
        self.rows.retain(|row| row.item.serial != of);
        self.builds.retain(|build| build.serial != of);
    }

    /// An item leaves, and its report is made.
    fn leave(&mut self, of: Serial, landed: bool) -> Option<Touched> {
        let item = item_at(&self.rows, of)?;
        self.drop_item(of);
        self.reports = self.reports.saturating_add(1);
        Some(Touched {
            serial: of,
            ahead: item.ahead,
            out: Some(TakenOut {
                change: item.change,
                failing: item.failing,
                landed,
            }),
        })
    }

    /// An item of a change lands: its serial and its change.
    fn land(&mut self, rt: &impl Abort, words: &mut SplitWhitespace) -> Option<Touched> {
        let landed = landing(rt, words);
        let (serial, change) = (landed.serial, landed.change);
        self.landings.push(landed).expect(rt, "memory");
        meet(&mut self.rows, change);
        self.window = grow(self.window, self.settings.rule);
        self.leave(serial, true)
    }

    /// Does what a line says, and tells which item it touched.
    pub(crate) fn deliver(
        &mut self,
        rt: &(impl Abort + AllocGlobal),
        line: &str,
    ) -> Option<Touched> {
        let mut words = line.split_whitespace();
        let mut touched = None;
        match word(rt, &mut words) {
            "queue" => self.begin(rt, &mut words),
            "rule" => self.settings.rule = rule(rt, &mut words),
            "landed" => self
                .landings
                .push(landing(rt, &mut words))
                .expect(rt, "memory"),
            "item" => self.admit(rt, &mut words),
            "build" => self.builds.push(build(rt, &mut words)).expect(rt, "memory"),
            "end" => touched = self.end(rt, &mut words),
            "leave" => touched = self.leave(serial(rt, &mut words), false),
            "land" => touched = self.land(rt, &mut words),
            _ => panic!(rt; "no delivery: {line}"),
        }
        assert!(rt; words.next().is_none(), "{line}");
        touched
    }

    fn apply_one(&mut self, rt: &impl Abort, edit: &Edit) {
        match edit {
            Edit::PutItem { queue: _, item } => put(&mut self.rows, *item),
            Edit::DropItem(serial) => self.drop_item(*serial),
            Edit::StopBuild(number) => self.builds.retain(|build| build.number != *number),
            Edit::SetWindow { queue: _, window } => self.window = *window,
            Edit::PutReport { .. } => {
                self.reports = self.reports.saturating_add(1);
                tell_edit(rt, &mut self.told, edit);
            }
            _ => panic!(rt; "no edit of a queue"),
        }
    }

    /// Does what edits say.
    pub(crate) fn apply(&mut self, rt: &impl Abort, edits: &[Edit]) {
        for edit in edits {
            self.apply_one(rt, edit);
        }
    }

    fn tell_builds(&self, rt: &impl Abort, text: &mut String) {
        for build in self.builds.iter() {
            write!(text, "build {}\n", build.number.get()).expect(rt, "memory");
        }
    }

    /// The window, the rows, the live builds, and the reports that edits have put.
    pub(crate) fn text(&self, rt: &(impl Abort + AllocGlobal)) -> String {
        let mut text = format!(in rt.alloc(); "window {}\n", self.window).expect(rt, "memory");
        for row in self.rows.iter() {
            tell_item(rt, &mut text, &row.item);
        }
        self.tell_builds(rt, &mut text);
        text.push_str(self.told.as_str()).expect(rt, "memory");
        text
    }
}
