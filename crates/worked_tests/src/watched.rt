//! A book that counts the items, their plans and builds, and the ready changes that a delivery reads: no more of a long
//! queue than of a short one, and nothing of changes that wait for another one, in memory and over a file's tables.
use crate::claims::holds;
use crate::scenes::gate_in_memory;
use crate::stored::files::{gate_under, made_under};
use crate::talks::goes_on;
use gate_archive::{Archive, BuildSummary, FeedFault, LeftItem};
use gate_book::{Book, BookFault, HistoryFault, QueuedItem};
use gate_core::Gate;
use gate_types::edits::Edit;
use gate_types::names::Name;
use gate_types::numbers::{BuildNo, ChangeNo, Serial};
use gate_types::records::{Build, Change, Counters, Id, Item, Kept, Plan, Ready};
use gate_types::sequence::Sequence;
use gate_types::tap::Tap;
use sqlite::Connection;
use std::io::Write;
use std::process::Abort;

/// Answers as the book in it, and counts the items, plans, live builds and ready changes that it was asked for since
/// the last delivery came: one for each lookup by a key, and each that a list has.
#[derive(Drop)]
struct Watched<B> {
    book: B,
    asked: u64,
}

impl<B> Watched<B> {
    fn count(&mut self, items: usize) {
        self.asked = self.asked.saturating_add(items as u64);
    }
}

impl<B: Book> Book for Watched<B> {
    ghost Holds = { λ _ _ _. ⊥ };

    ghost IsTrusted = { λ _. ⊥ };

    ghost LeavesOneOf = { λ _ _ _. Unit {0} };

    ghost MayFault = { λ _. Unit {0} };

    ghost leaves_more = { λ _ _ _ _ h. h };

    /// Each delivery begins with this.
    fn delivery(&mut self, id: &Id) -> Result<Option<Kept>, BookFault> {
        self.asked = 0;
        self.book.delivery(id)
    }

    fn change(&mut self, number: ChangeNo) -> Result<Option<Change>, BookFault> {
        self.book.change(number)
    }

    fn window(&mut self, queue: &Name) -> Result<Option<u32>, BookFault> {
        self.book.window(queue)
    }

    fn item_count(&mut self, queue: &Name) -> Result<u64, BookFault> {
        self.book.item_count(queue)
    }

    fn landing_count(&mut self, queue: &Name) -> Result<u64, BookFault> {
        self.book.landing_count(queue)
    }

    fn reports(&mut self, queue: &Name) -> Result<u64, BookFault> {
        self.book.reports(queue)
    }

    fn landing_before(&mut self, queue: &Name, serial: Serial) -> Result<u64, BookFault> {
        self.book.landing_before(queue, serial)
    }

    fn items(&mut self, queue: &Name) -> Result<Sequence<Item>, BookFault> {
        let items = self.book.items(queue)?;
        self.count(items.as_slice().len());
        Ok(items)
    }

    fn item(&mut self, serial: Serial) -> Result<Option<Item>, BookFault> {
        self.count(1);
        self.book.item(serial)
    }

    fn queued(&mut self, change: ChangeNo) -> Result<Option<QueuedItem>, BookFault> {
        self.count(1);
        self.book.queued(change)
    }

    fn next_item(&mut self, queue: &Name, above: u64) -> Result<Option<Item>, BookFault> {
        self.count(1);
        self.book.next_item(queue, above)
    }

    fn last_item(&mut self, queue: &Name, below: u64) -> Result<Option<Item>, BookFault> {
        self.count(1);
        self.book.last_item(queue, below)
    }

    fn next_items(
        &mut self,
        queue: &Name,
        above: u64,
        most: u32,
    ) -> Result<Sequence<Item>, BookFault> {
        let items = self.book.next_items(queue, above, most)?;
        self.count(items.as_slice().len());
        Ok(items)
    }

    fn needing(
        &mut self,
        queue: &Name,
        change: ChangeNo,
        above: u64,
    ) -> Result<Sequence<Item>, BookFault> {
        let items = self.book.needing(queue, change, above)?;
        self.count(items.as_slice().len());
        Ok(items)
    }

    fn plan(&mut self, serial: Serial) -> Result<Option<Plan>, BookFault> {
        self.count(1);
        self.book.plan(serial)
    }

    fn live_builds(&mut self, serial: Serial) -> Result<Sequence<Build>, BookFault> {
        let builds = self.book.live_builds(serial)?;
        self.count(builds.as_slice().len());
        Ok(builds)
    }

    fn plans_between(
        &mut self,
        queue: &Name,
        above: u64,
        last: Serial,
    ) -> Result<Sequence<Plan>, BookFault> {
        let plans = self.book.plans_between(queue, above, last)?;
        self.count(plans.as_slice().len());
        Ok(plans)
    }

    fn builds_between(
        &mut self,
        queue: &Name,
        above: u64,
        last: Serial,
    ) -> Result<Sequence<Build>, BookFault> {
        let builds = self.book.builds_between(queue, above, last)?;
        self.count(builds.as_slice().len());
        Ok(builds)
    }

    fn build(&mut self, number: BuildNo) -> Result<Option<Build>, BookFault> {
        self.book.build(number)
    }

    fn ready(&mut self) -> Result<Sequence<Ready>, BookFault> {
        let ready = self.book.ready()?;
        self.count(ready.as_slice().len());
        Ok(ready)
    }

    fn approval(&mut self, change: ChangeNo) -> Result<Option<u64>, BookFault> {
        self.count(1);
        self.book.approval(change)
    }

    fn ready_needing(&mut self, change: ChangeNo) -> Result<Sequence<Ready>, BookFault> {
        let ready = self.book.ready_needing(change)?;
        self.count(ready.as_slice().len());
        Ok(ready)
    }

    fn counters(&mut self) -> Result<Counters, BookFault> {
        self.book.counters()
    }

    fn history<W: Write>(
        &mut self,
        queue: &str,
        front: &[u8],
        w: &mut Tap<W>,
    ) -> Result<(), HistoryFault> {
        self.book.history(queue, front, w)
    }

    fn apply(&mut self, edits: &[Edit]) -> Result<(), BookFault> {
        self.book.apply(edits)
    }
}

impl<B: Archive> Archive for Watched<B> {
    fn left(&mut self, serial: Serial) -> Result<Option<LeftItem>, BookFault> {
        self.book.left(serial)
    }

    fn build_count(&mut self, serial: Serial) -> Result<u64, BookFault> {
        self.book.build_count(serial)
    }

    fn last_builds(
        &mut self,
        serial: Serial,
        most: u32,
    ) -> Result<Sequence<BuildSummary>, BookFault> {
        self.book.last_builds(serial, most)
    }

    fn history_from<W: Write>(
        &mut self,
        queue: &str,
        from: u64,
        front: &[u8],
        w: &mut Tap<W>,
    ) -> Result<(), HistoryFault> {
        self.book.history_from(queue, from, front, w)
    }

    fn deliveries<W: Write>(
        &mut self,
        after: Option<Id>,
        most: u64,
        front: &[u8],
        w: &mut Tap<W>,
    ) -> Result<u64, FeedFault> {
        self.book.deliveries(after, most, front, w)
    }
}

/// The queue `web` is full, and its first two items have builds.
const FULL_WEB: &str = r#"for n from 1 to 1000
> {"id":"0a000000-0000-4000-8000-<000n>","kind":"revision","change":<n>,"project":"site","revision":1,"message":""}
< {"reply":"recorded"}
> {"id":"0b000000-0000-4000-8000-<000n>","kind":"approved","change":<n>,"revision":1}
< {"order":<n>,"reply":"queued"}

> {"id":"0c000000-0000-4000-8000-000000000001","kind":"take","worker":"w1"}
< {"after":0,"ahead":[],"build":1,"change":1,"job":"unit","queue":"web","reply":"build","revision":1}
> {"id":"0c000000-0000-4000-8000-000000000002","kind":"take","worker":"w1"}
< {"after":0,"ahead":[[1,1]],"build":2,"change":2,"job":"unit","queue":"web","reply":"build","revision":1}
"#;

const FIRST_ENDS: &str =
    r#"> {"id":"0c000000-0000-4000-8000-000000000003","kind":"result","build":1,"outcome":"success"}
< {"reply":"noted"}"#;

const FIRST_LANDS: &str =
    r#"> {"id":"0c000000-0000-4000-8000-000000000004","kind":"landed","order":1}
< {"n":1,"reply":"landed"}"#;

const TWO_MORE: &str =
    r#"> {"id":"0c000000-0000-4000-8000-000000000005","kind":"revision","change":1001,"project":"site","revision":1,"message":""}
< {"reply":"recorded"}
> {"id":"0c000000-0000-4000-8000-000000000006","kind":"revision","change":1002,"project":"site","revision":1,"message":""}
< {"reply":"recorded"}
> {"id":"0c000000-0000-4000-8000-000000000007","kind":"approved","change":1001,"revision":1}
< {"order":1001,"reply":"queued"}
> {"id":"0c000000-0000-4000-8000-000000000008","kind":"approved","change":1002,"revision":1}
< {"reply":"waiting"}
> {"id":"0c000000-0000-4000-8000-000000000009","kind":"withdrawn","change":500,"revision":1}
< {"reply":"removed"}

status
queue core window 2 landed 0
queue web window 3 landed 1
     2         2    1      - ok      unit=running
...
   999       999    1    998 ok      unit=waiting
  1000      1000    1    999 ok      unit=waiting
  1001      1001    1   1000 ok      unit=waiting
  1002      1002    1   1001 ok      unit=waiting
end
"#;

/// The gate, with what it reads counted.
fn counted<B: Archive + Drop>(rt: &(impl Abort + AllocGlobal), gate: Gate<B>) -> Gate<Watched<B>> {
    let config = gate.config().copy().expect(rt, "memory");
    let book = gate.into_book();
    Gate::new(config, Watched { book, asked: 0 })
}

/// The gate goes on by these parts, of which the last delivery asks for a few items, plans and builds.
fn reads_few<B: Archive>(
    rt: &(impl Abort + AllocGlobal),
    gate: &mut Gate<Watched<B>>,
    parts: &str,
) {
    goes_on(rt, gate, "a few items are read", parts);
    holds(rt, gate.book().asked <= 12, parts);
}

fn reads_no_more_of_a_long_queue<B: Archive + Drop>(
    rt: &(impl Abort + AllocGlobal),
    gate: Gate<B>,
) {
    let mut gate = counted(rt, gate);
    goes_on(rt, &mut gate, "a full queue", FULL_WEB);
    reads_few(rt, &mut gate, FIRST_ENDS);
    reads_few(rt, &mut gate, FIRST_LANDS);
    goes_on(rt, &mut gate, "two more changes", TWO_MORE);
}

#[test]
fn a_landing_reads_no_more_of_a_long_queue_than_of_a_short_one(rt: HostRuntime) {
    let gate = gate_in_memory(&rt, "core 2 1 and web", "");
    reads_no_more_of_a_long_queue(&rt, gate);
}

#[test]
fn a_landing_reads_no_more_of_a_long_queue_over_tables(rt: HostRuntime) {
    let conn = Connection::open_in_memory(rt.alloc()).expect(&rt, "memory");
    let conn = made_under(&rt, conn, "core 2 1 and web");
    let gate = gate_under(&rt, conn, "core 2 1 and web")
        .ok()
        .expect(&rt, "a gate in the file");
    reads_no_more_of_a_long_queue(&rt, gate);
}

/// 200 changes wait for one that nobody knows.
const MANY_WAIT: &str = r#"for n from 1 to 200
> {"id":"0a000000-0000-4000-8000-<000n>","kind":"revision","change":<n>,"project":"site","revision":1,"message":"Depends-On: https://forge/c/900"}
< {"reply":"recorded"}
> {"id":"0b000000-0000-4000-8000-<000n>","kind":"approved","change":<n>,"revision":1}
< {"reply":"waiting"}
"#;

const ANOTHER_COMES: &str =
    r#"> {"id":"0c000000-0000-4000-8000-000000000001","kind":"revision","change":901,"project":"site","revision":1,"message":""}
< {"reply":"recorded"}"#;

const ANOTHER_ENTERS: &str =
    r#"> {"id":"0c000000-0000-4000-8000-000000000002","kind":"approved","change":901,"revision":1}
< {"order":1,"reply":"queued"}"#;

const ANOTHER_LANDS: &str =
    r#"> {"id":"0c000000-0000-4000-8000-000000000003","kind":"take","worker":"w1"}
< {"after":0,"ahead":[],"build":1,"change":901,"job":"unit","queue":"web","reply":"build","revision":1}
> {"id":"0c000000-0000-4000-8000-000000000004","kind":"result","build":1,"outcome":"success"}
< {"reply":"noted"}
> {"id":"0c000000-0000-4000-8000-000000000005","kind":"landed","order":1}
< {"n":1,"reply":"landed"}"#;

const ALL_ENTER: &str =
    r#"> {"id":"0c000000-0000-4000-8000-000000000006","kind":"revision","change":900,"project":"site","revision":1,"message":""}
< {"reply":"recorded"}
> {"id":"0c000000-0000-4000-8000-000000000007","kind":"approved","change":900,"revision":1}
< {"order":2,"reply":"queued"}

status
queue core window 2 landed 0
queue web window 3 landed 1
     2       900    1      - ok      unit=waiting
     3         1    1      2 ok      unit=waiting
...
   201       199    1    200 ok      unit=waiting
   202       200    1    201 ok      unit=waiting
end
"#;

fn asks_about_nobody_else_who_waits<B: Archive + Drop>(
    rt: &(impl Abort + AllocGlobal),
    gate: Gate<B>,
) {
    let mut gate = counted(rt, gate);
    goes_on(rt, &mut gate, "many wait", MANY_WAIT);
    reads_few(rt, &mut gate, ANOTHER_COMES);
    reads_few(rt, &mut gate, ANOTHER_ENTERS);
    reads_few(rt, &mut gate, ANOTHER_LANDS);
    goes_on(rt, &mut gate, "all enter", ALL_ENTER);
}

#[test]
fn those_who_wait_for_something_else_are_not_asked_about(rt: HostRuntime) {
    let gate = gate_in_memory(&rt, "core 2 1 and web", "");
    asks_about_nobody_else_who_waits(&rt, gate);
}

#[test]
fn those_who_wait_for_something_else_are_not_asked_about_over_tables(rt: HostRuntime) {
    let conn = Connection::open_in_memory(rt.alloc()).expect(&rt, "memory");
    let conn = made_under(&rt, conn, "core 2 1 and web");
    let gate = gate_under(&rt, conn, "core 2 1 and web")
        .ok()
        .expect(&rt, "a gate in the file");
    asks_about_nobody_else_who_waits(&rt, gate);
}
