//! Texts of cases: a title behind `# `, and below it rows of a way to ask, a text, an arrow and the answer.
//! `¶` ends a line within a text, and what stands between `<` and `>` is written out.
use crate::claims::is;
use crate::texts::answers::answer;
use std::process::Abort;

fn push_numbered(rt: &(impl Abort + AllocGlobal), text: &mut String, piece: &str, number: u32) {
    match piece.split_once('#') {
        Some((front, back)) => write!(text, "{front}{number}{back}").expect(rt, "memory"),
        None => text.push_str(piece).expect(rt, "memory"),
    }
}

/// `1-33 TEXT` is this text 33 times, the number of each in place of its `#`.
fn push_each(rt: &(impl Abort + AllocGlobal), text: &mut String, mark: &str) {
    let (range, piece) = mark.split_once(' ').expect(rt, mark);
    let (first, last) = range.split_once('-').expect(rt, mark);
    let first = first.parse::<u32>().expect(rt, mark);
    let last = last.parse::<u32>().expect(rt, mark);
    for number in first..last.saturating_add(1) {
        push_numbered(rt, text, piece, number);
    }
}

fn push_mark(rt: &(impl Abort + AllocGlobal), text: &mut String, mark: &str) {
    let words = match mark {
        "id" => "\"id\":\"6ba7b810-9dad-11d1-80b4-00c04fd430c8\"",
        "base" => "https://forge/c/",
        "forge" => "forge = {base = 'b'}\n",
        "queue" => "queue = [{name = 'q'}]\n",
        "project" => "project = [{name = 'p', queue = 'q', job = [{name = 'j'}]}]\n",
        "tab" => "\t",
        "cr" => "\r",
        "vt" => "\u{b}",
        "del" => "\u{7f}",
        "nbsp" => "\u{a0}",
        "bom" => "\u{feff}",
        _ => return push_each(rt, text, mark),
    };
    text.push_str(words).expect(rt, "memory");
}

/// A piece of a row: a mark and what stands behind its `>`, or a text before the first mark.
fn push_piece(rt: &(impl Abort + AllocGlobal), text: &mut String, piece: &str) {
    let Some((mark, rest)) = piece.split_once('>') else {
        return text.push_str(piece).expect(rt, "memory");
    };
    push_mark(rt, text, mark);
    text.push_str(rest).expect(rt, "memory");
}

/// A text with its marks written out.
fn written(rt: &(impl Abort + AllocGlobal), text: &str) -> String {
    let lines = text.replace(rt.alloc(), '¶', "\n").expect(rt, "memory");
    let mut text = String::new(rt.alloc());
    for piece in lines.as_str().split('<') {
        push_piece(rt, &mut text, piece);
    }
    text
}

fn row_holds(rt: &(impl Abort + AllocGlobal), row: &str) {
    let (asked, wanted) = row.split_once(" -> ").expect(rt, row);
    let (way, asked) = asked.split_once(' ').expect(rt, row);
    let asked = written(rt, asked);
    let wanted = written(rt, wanted);
    let found = answer(rt.alloc(), way, asked.as_str().as_bytes()).expect(rt, row);
    is(rt, found.as_str(), wanted.as_str(), row);
}

fn scene_holds(rt: &(impl Abort + AllocGlobal), scene: &str) {
    let (title, rows) = scene.split_once('\n').expect(rt, "a title and its rows");
    assert!(rt; rows.contains(" -> "), "{title}: nothing is asked");
    for row in rows.lines() {
        row_holds(rt, row);
    }
}

/// Each row of a text is answered as it says.
pub(crate) fn rows_hold(rt: &(impl Abort + AllocGlobal), text: &str) {
    let text = text.strip_prefix("# ").expect(rt, "a title");
    for scene in text.split("\n# ") {
        scene_holds(rt, scene);
    }
}
