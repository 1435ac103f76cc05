//! Texts of scenes: a title behind `# `, and below it what befalls a queue and what is asked of it, each on a line
//! behind `> `, with the answer below that. `each 1 9 TEXT` is this text nine times, with the number in place of `#`,
//! 1,000 more in place of `+#`, and one less in place of `-#`.
use crate::claims::is;
use crate::queues::board::Board;
use crate::queues::told::tell_edit;
use crate::queues::words::{number, size, word};
use gate_queue::{grow, shrink};
use gate_types::edits::Edit;
use std::process::Abort;

/// Adds a piece of a line and the number behind it: behind a `+` a thousand more, behind a `-` one less.
fn push_number(rt: &impl Abort, text: &mut String, piece: &str, number: u64) {
    let (front, number) = if let Some(front) = piece.strip_suffix('+') {
        (front, number.saturating_add(1000))
    } else if let Some(front) = piece.strip_suffix('-') {
        (front, number.saturating_sub(1))
    } else {
        (piece, number)
    };
    write!(text, "{front}{number}").expect(rt, "memory");
}

/// Adds a line with the number for each of its `#`.
fn push_numbered(rt: &impl Abort, text: &mut String, line: &str, number: u64) {
    let (front, last) = line.rsplit_once('#').expect(rt, line);
    for piece in front.split('#') {
        push_number(rt, text, piece, number);
    }
    write!(text, "{last}\n").expect(rt, "memory");
}

/// Two numbers, and a line for each from the first to the last.
fn push_each(rt: &(impl Abort + AllocGlobal), text: &mut String, each: &str) {
    let (first, rest) = each.split_once(' ').expect(rt, each);
    let (last, line) = rest.split_once(' ').expect(rt, each);
    for count in number(rt, first)..number(rt, last).saturating_add(1) {
        push_numbered(rt, text, line, count);
    }
}

fn push_line(rt: &(impl Abort + AllocGlobal), text: &mut String, line: &str) {
    match line.strip_prefix("each ") {
        Some(each) => push_each(rt, text, each),
        None => write!(text, "{line}\n").expect(rt, "memory"),
    }
}

/// A scene with its lines for each of several numbers written out.
fn written(rt: &(impl Abort + AllocGlobal), scene: &str) -> String {
    let mut text = String::new(rt.alloc());
    for line in scene.lines() {
        push_line(rt, &mut text, line);
    }
    text
}

fn tell_edits(rt: &impl Abort, told: &mut String, edits: &[Edit]) {
    for edit in edits {
        tell_edit(rt, told, edit);
    }
}

/// A delivery, with the rows that the walk behind it visits and its edits, which are done.
fn deliver(rt: &(impl Abort + AllocGlobal), board: &mut Board, line: &str, told: &mut String) {
    if let Some(touched) = board.deliver(rt, line) {
        let (walk, visited) = board.walk(rt, touched);
        write!(told, "visits{visited}\n").expect(rt, "memory");
        tell_edits(rt, told, walk.edits());
        board.apply(rt, walk.edits());
    }
}

fn choose(rt: &(impl Abort + AllocGlobal), board: &Board, window: u32, told: &mut String) {
    match board.choose(rt, window) {
        Some((serial, job)) => write!(told, "item {} job {job}\n", serial.get()).expect(
            rt, "memory",
        ),
        None => told.push_str("none\n").expect(rt, "memory"),
    }
}

/// What befalls a queue or is asked of it, and what is answered.
fn answer(rt: &(impl Abort + AllocGlobal), board: &mut Board, line: &str, told: &mut String) {
    let mut words = line.split_whitespace();
    match word(rt, &mut words) {
        "settle" => tell_edits(rt, told, &board.settle(rt)),
        "choose" => choose(rt, board, size(rt, &mut words), told),
        "grow" => {
            let window = grow(size(rt, &mut words), board.settings.rule);
            write!(told, "{window}\n").expect(rt, "memory");
        }
        "shrink" => {
            let (window, floor) = (size(rt, &mut words), size(rt, &mut words));
            let window = shrink(window, floor, board.settings.rule);
            write!(told, "{window}\n").expect(rt, "memory");
        }
        _ => deliver(rt, board, line, told),
    }
}

/// A line of a scene. One that isn't behind `> ` is told by the answer to another.
fn tell_line(rt: &(impl Abort + AllocGlobal), board: &mut Board, line: &str, told: &mut String) {
    if let Some(asked) = line.strip_prefix("> ") {
        write!(told, "{line}\n").expect(rt, "memory");
        answer(rt, board, asked, told);
    }
}

/// A scene is told as it stands: the lines behind `> `, with the answers to them.
fn scene_holds(rt: &(impl Abort + AllocGlobal), scene: &str) {
    let (title, lines) = scene.split_once('\n').expect(rt, "a title");
    assert!(rt; lines.contains("> "), "{title}: nothing is told");
    let scene = written(rt, lines);
    let mut board = Board::new(rt);
    let mut told = String::new(rt.alloc());
    for line in scene.as_str().lines() {
        tell_line(rt, &mut board, line, &mut told);
    }
    is(rt, told.as_str(), scene.as_str(), title);
}

/// Each scene of a text is told as it stands.
pub(crate) fn scenes_hold(rt: &(impl Abort + AllocGlobal), scenes: &str) {
    let scenes = scenes.strip_prefix("# ").expect(rt, "a scene");
    for scene in scenes.split("\n# ") {
        scene_holds(rt, scene);
    }
}
