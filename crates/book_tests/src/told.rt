//! Rows of a book as text.
use gate_book::{BookFault, QueuedItem};
use gate_types::config::Job;
use gate_types::numbers::ChangeNo;
use gate_types::records::{Build, Change, Item, Kept, Plan, Ready, Stage};
use gate_types::sequence::Sequence;
use std::process::Abort;

/// A row that is told as text.
pub(crate) trait Told {
    fn tell(&self, rt: &impl Abort, told: &mut String);
}

pub(crate) fn push(rt: &impl Abort, told: &mut String, text: &str) {
    told.push_str(text).expect(rt, "memory");
}

impl Told for u64 {
    fn tell(&self, rt: &impl Abort, told: &mut String) {
        write!(told, "{self}").expect(rt, "memory");
    }
}

impl Told for u32 {
    fn tell(&self, rt: &impl Abort, told: &mut String) {
        write!(told, "{self}").expect(rt, "memory");
    }
}

/// Its serial, its change and the revision, what is ahead of it, and whether it fails.
impl Told for Item {
    fn tell(&self, rt: &impl Abort, told: &mut String) {
        let (serial, change, revision) = (
            self.serial.get(),
            self.change.get(),
            self.revision.get(),
        );
        write!(told, "{serial} {change} {revision} ").expect(rt, "memory");
        match self.ahead {
            Some(ahead) => ahead.get().tell(rt, told),
            None => push(rt, told, "-"),
        }
        push(rt, told, if self.failing { " failing" } else { " ok" });
    }
}

/// Behind the name of its queue.
impl Told for QueuedItem {
    fn tell(&self, rt: &impl Abort, told: &mut String) {
        push(rt, told, self.queue.as_str());
        push(rt, told, " ");
        self.item.tell(rt, told);
    }
}

/// What it needs.
fn tell_needs(rt: &impl Abort, told: &mut String, needs: &[ChangeNo]) {
    for need in needs {
        write!(told, " needs {}", need.get()).expect(rt, "memory");
    }
}

/// Its number and its revision, what it needs, and its stage unless it is open.
impl Told for Change {
    fn tell(&self, rt: &impl Abort, told: &mut String) {
        let (number, revision) = (self.number.get(), self.revision.get());
        write!(told, "{number} {revision}").expect(rt, "memory");
        tell_needs(rt, told, self.needs.as_slice());
        if self.stage != Stage::Open {
            write!(told, " {}", self.stage.word()).expect(rt, "memory");
        }
    }
}

/// The number of its approval, and its own.
impl Told for Ready {
    fn tell(&self, rt: &impl Abort, told: &mut String) {
        let (approval, change) = (self.approval, self.change.get());
        write!(told, "{approval} {change}").expect(rt, "memory");
    }
}

/// Those that don't vote stand behind a `-`.
fn tell_jobs(rt: &impl Abort, told: &mut String, jobs: &[Job]) {
    for job in jobs {
        let (mark, name) = (if job.voting { "" } else { "-" }, job.name.as_str());
        write!(told, " {mark}{name}").expect(rt, "memory");
    }
}

/// Its serial, whether it fails fast, and its jobs.
impl Told for Plan {
    fn tell(&self, rt: &impl Abort, told: &mut String) {
        self.serial.get().tell(rt, told);
        push(rt, told, if self.fast { " fast" } else { " slow" });
        tell_jobs(rt, told, self.jobs.as_slice());
    }
}

/// Its number and its outcome, and whether it has stopped.
impl Told for Build {
    fn tell(&self, rt: &impl Abort, told: &mut String) {
        let (number, outcome) = (self.number.get(), self.outcome.word());
        write!(told, "{number} {outcome}").expect(rt, "memory");
        push(rt, told, if self.live { "" } else { " stopped" });
    }
}

/// Its reply.
impl Told for Kept {
    fn tell(&self, rt: &impl Abort, told: &mut String) {
        push(rt, told, self.reply.as_str());
    }
}

pub(crate) fn fault_word(fault: BookFault) -> &'static str {
    match fault {
        BookFault::NoMemory => "no memory",
        BookFault::Store => "the store fails",
        BookFault::Damaged => "damaged",
    }
}

/// A row that was found, or none.
pub(crate) fn found<T: Told + Drop>(
    rt: &impl Abort,
    told: &mut String,
    row: Result<Option<T>, BookFault>,
) {
    match row {
        Ok(Some(row)) => row.tell(rt, told),
        Ok(None) => push(rt, told, "none"),
        Err(fault) => push(rt, told, fault_word(fault)),
    }
}

/// A number that was counted.
pub(crate) fn counted(rt: &impl Abort, told: &mut String, number: Result<u64, BookFault>) {
    match number {
        Ok(number) => number.tell(rt, told),
        Err(fault) => push(rt, told, fault_word(fault)),
    }
}

fn tell_rows<T: Told>(rt: &impl Abort, told: &mut String, rows: &[T]) {
    let mut mark = "";
    for row in rows {
        push(rt, told, mark);
        row.tell(rt, told);
        mark = ", ";
    }
}

/// Rows with a comma between two, or none.
pub(crate) fn listed<T: Told + Drop>(
    rt: &impl Abort,
    told: &mut String,
    rows: Result<Sequence<T>, BookFault>,
) {
    match rows {
        Ok(rows) if rows.as_slice().is_empty() => push(rt, told, "none"),
        Ok(rows) => tell_rows(rt, told, rows.as_slice()),
        Err(fault) => push(rt, told, fault_word(fault)),
    }
}
