//! Sessions at a shell: what is typed, and what comes of it.
use crate::tests::machine::Machine;
use crate::tests::streams::{Input, Output};
use crate::tests::texts::text_of;
use gate_types::tap::Tap;
use gated_cli::program;
use sqlite::Connection;
use std::fs;
use std::process::Abort;

/// What a run reads and writes.
#[derive(Drop)]
struct Streams<'a> {
    input: Input<'a>,
    output: Output,
    errors: Output,
}

/// Runs the program, and gives what it leaves and its status. All come here, since the proof of such a call takes long.
fn run<'a>(machine: &Machine<'_>, words: &[&str], streams: Streams<'a>) -> (Streams<'a>, u8) {
    let mut input = Tap::new(streams.input);
    let mut output = Tap::new(streams.output);
    let mut errors = Tap::new(streams.errors);
    let status = program(machine, words, &mut input, &mut output, &mut errors);
    let left = Streams {
        input: input.into_inner(),
        output: output.into_inner(),
        errors: errors.into_inner(),
    };
    (left, status)
}

/// What stands before a mark, and behind it, or else this.
fn parted<'a>(line: &'a str, mark: &str, other: &'a str) -> (&'a str, &'a str) {
    line.split_once(mark).unwrap_or((line, other))
}

/// The words of a line, of which the last may stand in quotes.
pub fn words_of<'a>(rt: &(impl Abort + AllocGlobal), line: &'a str) -> Vec<&'a str> {
    let (plain, quoted) = parted(line, " '", "");
    let words = plain.split_whitespace().collect::<Vec<&str>>(rt.alloc());
    let mut words = words.expect(rt, "memory");
    if let Some(word) = quoted.strip_suffix('\'') {
        words.push(word).expect(rt, "memory");
    }
    words
}

/// An output that has room for so many bytes, or for all.
fn output(rt: &(impl Abort + AllocGlobal), room: &str) -> Output {
    let room = match room {
        "all" => usize::MAX,
        _ => room.parse::<usize>().expect(rt, room),
    };
    Output::new(rt.alloc(), room)
}

/// The words of a line, and its streams.
fn typed<'a>(rt: &(impl Abort + AllocGlobal), line: &'a str) -> (Vec<&'a str>, Streams<'static>) {
    let (line, errors) = parted(line, " 2> ", "all");
    let (line, room) = parted(line, " > ", "all");
    let (line, input) = parted(line, " < ", "nothing");
    let streams = Streams {
        input: Input::new(text_of(input).expect(rt, input), input == "broken"),
        output: output(rt, room),
        errors: output(rt, errors),
    };
    (words_of(rt, line), streams)
}

/// What a run shows: the output, a bar and the errors, and behind them its status, and whether the input was read.
fn shown(rt: &(impl Abort + AllocGlobal), left: Streams<'_>, status: u8) -> String {
    let read = left.input.read();
    let output = String::from_utf8(left.output.bytes).expect(rt, "a text");
    let errors = String::from_utf8(left.errors.bytes).expect(rt, "a text");
    format!(in rt.alloc(); "{output}|{errors}= {status}\n{read}").expect(rt, "memory")
}

/// Whether this is what was wanted, where `...` stands for any text.
fn fits(came: &str, wanted: &str) -> bool {
    let Some(part) = wanted.strip_prefix("...") else {
        return came == wanted;
    };
    let (middle, end) = parted(part, "...", part);
    came.contains(middle) && came.ends_with(end)
}

/// What came is what was wanted.
fn has_come(rt: &impl Abort, came: &str, wanted: &str, title: &str, line: &str) {
    assert!(rt; fits(came, wanted), "{title}: {line}\n{came}");
}

/// The program is run, and shows what is wanted.
fn runs(
    rt: &(impl Abort + AllocGlobal),
    machine: &Machine<'_>,
    title: &str,
    line: &str,
    wanted: &str,
) {
    let (words, streams) = typed(rt, line);
    let (left, status) = run(machine, words.as_slice(), streams);
    let came = shown(rt, left, status);
    has_come(rt, came.as_str(), wanted, title, line);
}

fn write(rt: &impl Abort, machine: &Machine<'_>, line: &str) {
    let (file, name) = line.split_once(" < ").expect(rt, line);
    let text = text_of(name).expect(rt, name);
    fs::write(machine.host, file, text).expect(rt, line);
}

/// Runs the statements of a text over a database, which is made where it isn't there.
fn run_sql(rt: &impl Abort, machine: &Machine<'_>, line: &str) {
    let (file, name) = line.split_once(" < ").expect(rt, line);
    let text = text_of(name).expect(rt, name);
    let mut conn = Connection::open(machine.host, file).expect(rt, line);
    assert!(rt; conn.execute_batch(text).is_ok(), "{line}");
    assert!(rt; conn.close().is_ok(), "{line}");
}

/// Writes one comment of so many bytes into a file.
fn fill(rt: &(impl Abort + AllocGlobal), machine: &Machine<'_>, line: &str) {
    let (file, size) = line.split_once(' ').expect(rt, line);
    let size = size.parse::<usize>().expect(rt, line);
    let comment = "#".repeat(rt.alloc(), size).expect(rt, "memory");
    fs::write(machine.host, file, comment).expect(rt, line);
}

/// Removes files, of which any may be missing.
fn clear(machine: &Machine<'_>, files: &str) {
    for file in files.split_whitespace() {
        let _ = fs::remove_file(machine.host, file);
    }
}

/// Whether there is a file.
fn presence(machine: &Machine<'_>, file: &str) -> &'static str {
    match fs::open(machine.host, file) {
        Ok(_) => "present\n",
        Err(_) => "missing\n",
    }
}

/// The bytes of a page of a database, as its header says: two bytes at offset 16 (the SQLite file format, 1.3.2).
fn page_size(rt: &(impl Abort + AllocGlobal), machine: &Machine<'_>, file: &str) -> String {
    let bytes = fs::read(machine.host, file).expect(rt, file);
    let size = bytes.get(16..18).expect(rt, file);
    let size = u16::from_be_bytes([size[0], size[1]]);
    format!(in rt.alloc(); "{size}\n").expect(rt, "memory")
}

/// The bytes of a file.
fn size(rt: &(impl Abort + AllocGlobal), machine: &Machine<'_>, file: &str) -> String {
    let bytes = fs::read(machine.host, file).expect(rt, file);
    format!(in rt.alloc(); "{}\n", bytes.len()).expect(rt, "memory")
}

/// Does what stands behind `$ `, and finds below it what comes of it.
fn goes_on(rt: &(impl Abort + AllocGlobal), machine: &Machine<'_>, title: &str, part: &str) {
    let (line, wanted) = parted(part, "\n", "");
    let (verb, rest) = line.split_once(' ').expect(rt, title);
    match verb {
        "gated" => return runs(rt, machine, title, line, wanted),
        "look" => has_come(rt, presence(machine, rest), wanted, title, line),
        "page" => has_come(
            rt,
            page_size(rt, machine, rest).as_str(),
            wanted,
            title,
            line,
        ),
        "size" => has_come(rt, size(rt, machine, rest).as_str(), wanted, title, line),
        "write" => write(rt, machine, rest),
        "sql" => run_sql(rt, machine, rest),
        "fill" => fill(rt, machine, rest),
        "clear" => clear(machine, rest),
        _ => panic!(rt; "{title}: no such command: {line}"),
    }
}

/// Plays a scene, which has its title, and then commands behind `$ `, each with what comes of it:
///
/// - `gated WORDS < TEXT > ROOM 2> ROOM` shows what the program writes: its output, a bar and its errors, then its
///   status, and whether the input was read. Where no stream is named it is empty, and has room for all. `...` before
///   what is wanted stands for any text, and so it does once more in the middle;
/// - `write FILE < TEXT` writes a text of a name, `fill FILE SIZE` a comment of so many bytes, and `sql FILE < TEXT`
///   runs the statements of a text;
/// - `clear FILES` removes files, and `look FILE` tells whether one is there, `size FILE` its bytes, and `page FILE` the
///   bytes of a page of a database.
fn plays_scene(rt: &(impl Abort + AllocGlobal), machine: &Machine<'_>, scene: &str) {
    let (title, lines) = scene.split_once("\n$ ").expect(rt, scene);
    for part in lines.split("$ ") {
        goes_on(rt, machine, title, part);
    }
}

/// Plays the scenes of a text, which begin with `# ` each.
pub fn plays(rt: &(impl Abort + AllocGlobal), machine: &Machine<'_>, text: &str) {
    let scenes = text.strip_prefix("# ").expect(rt, text);
    for scene in scenes.split("# ") {
        plays_scene(rt, machine, scene);
    }
}
