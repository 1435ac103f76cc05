//! A book in memory where one allocation is refused: what was asked leaves it as it was, and is done the next time.
//! Each test passes whichever allocation of its run that is, and where there is none.
use crate::claims::holds;
use gate_book::{Book, BookFault, MemBook};
use gate_config::read;
use gate_live::LiveBook;
use gate_types::config::Config;
use gate_types::edits::Edit;
use gate_types::names::Name;
use gate_types::numbers::{ChangeNo, Revision, Serial};
use gate_types::open_fault::OpenFault;
use gate_types::records::{Item, Plan};
use std::alloc::Global;
use std::process::Abort;

const FIRST: &[u8] = b"forge = {base = 'b'}
queue = [{name = 'core'}]
project = [{name = 'lib', queue = 'core', fail_fast = true, job = [{name = 'unit'}, {name = 'docs', voting = false}]}]
";

const SECOND: &[u8] = b"forge = {base = 'b'}
queue = [{name = 'new', window = 7}, {name = 'core', window = 5}]
project = [{name = 'lib', queue = 'core', job = [{name = 'site'}]}]
";

/// What a file says; it is read again where memory was refused.
fn settings(rt: &(impl Abort + AllocGlobal), file: &[u8]) -> Config {
    match read(rt.alloc(), file) {
        Ok(config) => config,
        Err(_) => read(rt.alloc(), file).expect(rt, "settings"),
    }
}

fn empty_book(rt: &(impl Abort + AllocGlobal), config: &Config) -> MemBook {
    match MemBook::new(rt.alloc(), config) {
        Ok(book) => book,
        Err(_) => MemBook::new(rt.alloc(), config).expect(rt, "memory"),
    }
}

/// Puts what an item of the only project is admitted with.
fn put_plan(rt: &impl Abort, config: &Config, serial: u64) -> Edit {
    let project = config.projects.as_slice().first().expect(rt, "a project");
    let serial = Serial::new(serial).expect(rt, "a serial");
    match Plan::of_project(project, serial) {
        Ok(plan) => Edit::PutPlan(plan),
        Err(_) => Edit::PutPlan(Plan::of_project(project, serial).expect(rt, "memory")),
    }
}

/// Edits that are done the next time where memory was refused.
fn apply<B: Book>(rt: &impl Abort, book: &mut B, edits: &[Edit]) {
    if book.apply(edits).is_err() {
        book.apply(edits).expect(rt, "memory");
    }
}

/// The plan under a serial; it is asked for again where memory was refused.
fn plan_at<B: Book>(rt: &impl Abort, book: &mut B, serial: u64) -> Option<Plan> {
    let serial = Serial::new(serial).expect(rt, "a serial");
    match book.plan(serial) {
        Ok(found) => found,
        Err(fault) => {
            holds(rt, fault == BookFault::NoMemory, "a plan");
            book.plan(serial).expect(rt, "memory")
        }
    }
}

/// Under a serial stands a plan with so many jobs, which fails fast or doesn't; with none, no plan stands there.
fn plan_is<B: Book>(rt: &impl Abort, book: &mut B, serial: u64, jobs: usize, fast: bool) {
    match plan_at(rt, book, serial) {
        Some(plan) => {
            let found = (plan.serial.get(), plan.jobs.as_slice().len(), plan.fast);
            holds(rt, found == (serial, jobs, fast), "a plan");
        }
        None => holds(rt, jobs == 0, "no plan"),
    }
}

#[test]
fn a_plan_is_read_the_next_time(rt: HostRuntime) {
    let config = settings(&rt, FIRST);
    let mut book = empty_book(&rt, &config);
    let edits = [put_plan(&rt, &config, 1)];
    apply(&rt, &mut book, &edits);
    plan_is(&rt, &mut book, 1, 2, true);
    plan_is(&rt, &mut book, 1, 2, true);
    plan_is(&rt, &mut book, 2, 0, false);
}

/// Of two plans, one in place of another, both are put or none.
fn puts_both(rt: &impl Abort, book: &mut MemBook, edits: &[Edit]) {
    if let Err(fault) = book.apply(edits) {
        holds(rt, fault == BookFault::NoMemory, "two plans");
        plan_is(rt, book, 1, 2, true);
        plan_is(rt, book, 2, 0, false);
        book.apply(edits).expect(rt, "memory");
    }
    plan_is(rt, book, 1, 1, false);
    plan_is(rt, book, 2, 2, true);
}

#[test]
fn plans_are_put_the_next_time(rt: HostRuntime) {
    let first = settings(&rt, FIRST);
    let second = settings(&rt, SECOND);
    let mut book = empty_book(&rt, &first);
    let edits = [put_plan(&rt, &first, 1)];
    apply(&rt, &mut book, &edits);
    let edits = [put_plan(&rt, &second, 1), put_plan(&rt, &first, 2)];
    puts_both(&rt, &mut book, &edits);
}

fn try_name(alloc: Global, text: &str) -> Option<Name> {
    Name::new(text.to_string(alloc).ok()?)
}

fn name(rt: &(impl Abort + AllocGlobal), text: &str) -> Name {
    match try_name(rt.alloc(), text) {
        Some(name) => name,
        None => try_name(rt.alloc(), text).expect(rt, "memory"),
    }
}

/// The window of a queue, if there is one.
fn window_of(rt: &(impl Abort + AllocGlobal), book: &mut MemBook, queue: &str) -> Option<u32> {
    let name = name(rt, queue);
    book.window(&name).expect(rt, "a read that takes no memory")
}

fn windows_are(
    rt: &(impl Abort + AllocGlobal),
    book: &mut MemBook,
    core: Option<u32>,
    new: Option<u32>,
) {
    holds(rt, window_of(rt, book, "core") == core, "core");
    holds(rt, window_of(rt, book, "new") == new, "new");
}

#[test]
fn other_settings_are_taken_the_next_time(rt: HostRuntime) {
    let first = settings(&rt, FIRST);
    let second = settings(&rt, SECOND);
    let mut book = empty_book(&rt, &first);
    if let Err(fault) = book.adopt(&second) {
        holds(&rt, fault == OpenFault::Unavailable, "other settings");
        windows_are(&rt, &mut book, Some(20), None);
        book.adopt(&second).expect(&rt, "memory");
    }
    windows_are(&rt, &mut book, Some(5), Some(7));
    holds(
        &rt,
        book.adopt(&first) == Err(OpenFault::OtherSettings),
        "the first settings",
    );
}

/// A book that holds what is live of this one.
fn live(rt: &(impl Abort + AllocGlobal), below: MemBook, config: &Config) -> LiveBook<MemBook> {
    let mut book = LiveBook::new(rt.alloc(), below);
    if let Err(fault) = book.fill(config) {
        holds(rt, fault == BookFault::NoMemory, "what is live");
        book.fill(config).expect(rt, "memory");
    }
    book
}

fn put_item(rt: &(impl Abort + AllocGlobal), queue: &str) -> Edit {
    Edit::PutItem {
        queue: name(rt, queue),
        item: Item {
            serial: Serial::new(1).expect(rt, "a serial"),
            change: ChangeNo::new(101).expect(rt, "a change"),
            revision: Revision::new(1).expect(rt, "a revision"),
            ahead: None,
            failing: false,
        },
    }
}

/// `core` has so many items in memory, and in the book below, which is handed on.
fn items_in_both(rt: &(impl Abort + AllocGlobal), book: LiveBook<MemBook>, wanted: u64) -> MemBook {
    let mut book = book;
    let core = name(rt, "core");
    holds(rt, book.item_count(&core) == Ok(wanted), "in memory");
    let mut below = book.into_book();
    holds(rt, below.item_count(&core) == Ok(wanted), "below");
    below
}

#[test]
fn what_is_live_changes_with_its_book_the_next_time(rt: HostRuntime) {
    let config = settings(&rt, FIRST);
    let edits = [put_item(&rt, "core")];
    let mut book = live(&rt, empty_book(&rt, &config), &config);
    if let Err(fault) = book.apply(&edits) {
        holds(&rt, fault == BookFault::NoMemory, "an item");
        let below = items_in_both(&rt, book, 0);
        book = live(&rt, below, &config);
        book.apply(&edits).expect(&rt, "memory");
    }
    let _below = items_in_both(&rt, book, 1);
}

/// What is held of item 1, once it is put with a plan, stands for what the book below has of it.
#[test]
fn what_an_item_has_is_told_the_next_time(rt: HostRuntime) {
    let config = settings(&rt, FIRST);
    let mut below = empty_book(&rt, &config);
    let edits = [put_item(&rt, "core"), put_plan(&rt, &config, 1)];
    apply(&rt, &mut below, &edits);
    let mut book = live(&rt, below, &config);
    plan_is(&rt, &mut book, 1, 2, true);
    plan_is(&rt, &mut book, 1, 2, true);
    let edits = [put_plan(&rt, &settings(&rt, SECOND), 1)];
    apply(&rt, &mut book, &edits);
    plan_is(&rt, &mut book, 1, 1, false);
}
