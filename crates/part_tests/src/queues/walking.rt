//! Walks over the rows of a board.
use crate::queues::board::{Board, Row, standing};
use gate_types::numbers::{ChangeNo, Serial};
use gate_types::records::Build;
use gate_walk::{Next, QueueFacts, Seen, SeenNeed, Touched, Walk};
use std::process::Abort;

/// Whether a row needs one of these changes.
fn needs_one(row: &Row, gone: &[ChangeNo]) -> bool {
    row.needs.iter().any(|need| gone.contains(&need.change))
}

fn visit(rt: &(impl Abort + AllocGlobal), walk: &mut Walk, seen: Option<&Seen>) -> Next {
    walk.visit(rt.alloc(), seen).expect(rt, "memory")
}

impl Board {
    fn needs_seen(&self, rt: &(impl Abort + AllocGlobal), row: &Row) -> Vec<SeenNeed> {
        let mut seen = Vec::new(rt.alloc());
        for need in row.needs.iter() {
            let one = SeenNeed {
                change: need.change,
                landed: need.landed,
                standing: standing(&self.rows, need.change),
            };
            seen.push(one).expect(rt, "memory");
        }
        seen
    }

    fn builds_of(&self, rt: &(impl Abort + AllocGlobal), serial: Serial) -> Vec<Build> {
        let mut builds = Vec::new(rt.alloc());
        for build in self.builds.iter() {
            if build.serial == serial {
                let copy = build.copy().expect(rt, "memory");
                builds.push(copy).expect(rt, "memory");
            }
        }
        builds
    }

    fn visit(&self, rt: &(impl Abort + AllocGlobal), walk: &mut Walk, row: &Row) -> Next {
        let needs = self.needs_seen(rt, row);
        let builds = self.builds_of(rt, row.item.serial);
        let seen = Seen {
            row: row.item,
            needs: &needs,
            jobs: &row.jobs,
            fast: row.fast,
            builds: &builds,
        };
        visit(rt, walk, Some(&seen))
    }

    /// The row that a walk wants.
    fn wanted(&self, walk: &Walk, next: Next) -> Option<&Row> {
        let mut rows = self.rows.iter();
        match next {
            Next::Go(serial) => rows.find(|row| row.item.serial > serial),
            Next::Need(serial) => rows.find(|row| row.item.serial > serial
                && needs_one(row, walk.gone())),
            Next::Stop => None,
        }
    }

    /// A walk behind a delivery to its stop, and the serials of the rows that it visited.
    pub(crate) fn walk(&self, rt: &(impl Abort + AllocGlobal), touched: Touched) -> (Walk, String) {
        assert!(rt; self.reports <= 1_000_000_000_000_000);
        let facts = QueueFacts {
            settings: &self.settings,
            window: self.window,
            reports: self.reports,
        };
        let mut walk = Walk::start(rt.alloc(), facts, touched).expect(rt, "memory");
        let mut visited = String::new(rt.alloc());
        let mut wanted = self
            .rows
            .iter()
            .find(|row| row.item.serial >= touched.serial);
        for _ in 0..self.rows.len() {
            let Some(row) = wanted else {
                break;
            };
            write!(visited, " {}", row.item.serial.get()).expect(rt, "memory");
            let next = self.visit(rt, &mut walk, row);
            wanted = self.wanted(&walk, next);
        }
        assert!(rt; wanted.is_none());
        assert!(rt; visit(rt, &mut walk, None) == Next::Stop);
        (walk, visited)
    }
}
