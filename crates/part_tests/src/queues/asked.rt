//! What a whole queue is asked: its settling and its next build. What the items' columns say plays no part in either.
use crate::queues::board::{Board, is_blocked};
use crate::queues::rising::{builds_rise, items_rise};
use gate_queue::whole_queue::{Facts, ItemFacts, ItemJobs, Jobs, choose, settle};
use gate_types::edits::Edit;
use gate_types::numbers::Serial;
use gate_types::records::Item;
use std::process::Abort;

impl Board {
    /// The rows of the items, with wrong columns.
    fn items(&self, rt: &(impl Abort + AllocGlobal)) -> Vec<Item> {
        let mut items = Vec::new(rt.alloc());
        for row in self.rows.iter() {
            let item = Item {
                ahead: None,
                failing: row.item.serial.get() % 2 == 0,
                ..row.item
            };
            items.push(item).expect(rt, "memory");
        }
        items
    }

    fn facts(&self, rt: &(impl Abort + AllocGlobal)) -> Vec<ItemFacts<'_>> {
        let mut facts = Vec::new(rt.alloc());
        for row in self.rows.iter() {
            let one = ItemFacts {
                needs: &row.needs,
                jobs: &row.jobs,
                fast: row.fast,
            };
            facts.push(one).expect(rt, "memory");
        }
        facts
    }

    /// The edits that settle the whole queue.
    pub(crate) fn settle(&self, rt: &(impl Abort + AllocGlobal)) -> Vec<Edit> {
        let items = self.items(rt);
        let about = self.facts(rt);
        assert!(rt; items_rise(&items));
        assert!(rt; builds_rise(&self.builds));
        assert_eq!(rt; about.len(), items.len());
        assert!(rt; self.reports <= 1_000_000_000_000_000);
        let facts = Facts {
            settings: &self.settings,
            window: self.window,
            landings: &self.landings,
            items: &about,
            reports: self.reports,
        };
        settle(rt.alloc(), &items, &self.builds, &facts).expect(rt, "memory")
    }

    fn item_jobs(&self, rt: &(impl Abort + AllocGlobal)) -> Vec<ItemJobs<'_>> {
        let mut jobs = Vec::new(rt.alloc());
        for row in self.rows.iter() {
            let one = ItemJobs {
                jobs: &row.jobs,
                fast: row.fast,
                blocked: is_blocked(&self.rows, &row.needs),
            };
            jobs.push(one).expect(rt, "memory");
        }
        jobs
    }

    /// The serial and the place of the job that the next build is for.
    pub(crate) fn choose(
        &self,
        rt: &(impl Abort + AllocGlobal),
        window: u32,
    ) -> Option<(Serial, usize)> {
        let items = self.items(rt);
        let jobs = self.item_jobs(rt);
        assert_eq!(rt; jobs.len(), items.len());
        choose(&items, &self.builds, window, &Jobs { items: &jobs })
    }
}
