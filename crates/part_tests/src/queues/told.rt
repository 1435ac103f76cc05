//! Rows and edits as text, a line each, with all that they say.
use gate_types::edits::Edit;
use gate_types::records::{Item, Report};
use std::process::Abort;

/// The row of an item; `-` stands for no item ahead.
pub(crate) fn tell_item(rt: &impl Abort, told: &mut String, item: &Item) {
    let (serial, change, revision) = (item.serial.get(), item.change.get(), item.revision.get());
    let state = if item.failing { "failing" } else { "ok" };
    match item.ahead {
        Some(ahead) => {
            let ahead = ahead.get();
            write!(
                told,
                "item {serial} {change},{revision} ahead {ahead} {state}\n"
            )
            .expect(rt, "memory")
        }
        None => write!(told, "item {serial} {change},{revision} ahead - {state}\n").expect(
            rt, "memory",
        ),
    }
}

fn tell_report(rt: &impl Abort, told: &mut String, place: u64, report: &Report) {
    let (serial, change, revision) = (
        report.serial.get(),
        report.change.get(),
        report.revision.get(),
    );
    let verdict = report.verdict.word();
    write!(
        told,
        "report {place}: {serial} {change},{revision} {verdict}\n"
    )
    .expect(rt, "memory");
}

/// An edit of a queue.
pub(crate) fn tell_edit(rt: &impl Abort, told: &mut String, edit: &Edit) {
    match edit {
        Edit::PutItem { queue, item } => {
            write!(told, "{} ", queue.as_str()).expect(rt, "memory");
            tell_item(rt, told, item);
        }
        Edit::DropItem(serial) => write!(told, "drop {}\n", serial.get()).expect(rt, "memory"),
        Edit::PutReport {
            queue,
            place,
            report,
        } => {
            write!(told, "{} ", queue.as_str()).expect(rt, "memory");
            tell_report(rt, told, *place, report);
        }
        Edit::StopBuild(number) => write!(told, "stop {}\n", number.get()).expect(rt, "memory"),
        Edit::SetWindow { queue, window } => {
            write!(told, "{} window {window}\n", queue.as_str()).expect(rt, "memory")
        }
        _ => panic!(rt; "no edit of a queue"),
    }
}
