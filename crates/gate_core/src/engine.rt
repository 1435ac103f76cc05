//! The engine: each line of a reader is answered by a line to a writer.
ghost use Rattle.std.specs.Prelude.{◌≡◌, ◌≤◌, ◌+◌, ◌++◌, ◌∷◌, [], ℕ, List, OnOk, OnErr, IfOk, IsErrOf, true, false};
ghost use Rattle.std.specs.Prelude.{length};
ghost use Rattle.std.specs.Io.Iter.{u64_saturate};
ghost use Rattle.gate_types.specs.Tap.{inside, has_failed, Gave, IsReadOut, Took, TookFront};
ghost use Rattle.gate_types.specs.Limits.{most_bytes};
ghost use Rattle.gate_core.specs.Line.{HoldsLine};
ghost use Rattle.gate_core.specs.Gathered.{whole_from, rest_from};
ghost use Rattle.gate_core.specs.Lines.{whole_lines, lines_of, ReadFor};
ghost use Rattle.gate_core.specs.Runs.{AnswersLine, FedTo, BrokeTo};
ghost use Rattle.gate_core.specs.LineAnswer.{text_of};

use crate::fault::ReplayFault;
use crate::line::Line;
use gate_types::tap::{Failed, Tap};
use std::alloc::Global;
use std::io::{Read, Write};

/// The most bytes that are read at once.
const LONGEST_READ: usize = 4096;

/// What a line is answered by.
#[derive(Drop)]
pub enum LineAnswer {
    Text(String),
    Refused(&'static str),
}

/// What answers lines, one after another.
pub trait AnswerLines {
    // the text for a line in a state, and the state after it
    ghost replies: { Self → List ℕ → List ℕ → Self → Type 0 };

    fn respond(&mut self, alloc: Global, line: &[u8]) -> LineAnswer
        requires { length line.now ≤ most_bytes }
        ensures { replies self.old line.now (text_of result) self.new };
}

fn answer<G: AnswerLines, W: Write>(
    alloc: Global,
    gate: &mut G,
    line: &Line,
    w: &mut Tap<W>,
) -> Result<(), Failed>
    requires { has_failed w.old ≡ false }
    ensures ok { OnOk result ((begun : List ℕ) → HoldsLine line.now begun → (said : List ℕ)
        × AnswersLine G.replies gate.old begun said gate.new
        × Took W.contents w.old w.new (said ++ 10 ∷ [])) }
    ensures unfailed { OnOk result (has_failed w.new ≡ false) }
    ensures err { OnErr result ((begun : List ℕ) → HoldsLine line.now begun → (said : List ℕ)
        × AnswersLine G.replies gate.old begun said gate.new
        × TookFront W.contents w.old w.new (said ++ 10 ∷ [])) }
    ensures failed { OnErr result (has_failed w.new ≡ true) }
{
    match line.get() {
        None => w.write_line("{\"error\":\"too-large\"}")?,
        Some(bytes) => match gate.respond(alloc, bytes) {
            LineAnswer::Text(text) => w.write_line(text.as_str())?,
            LineAnswer::Refused(text) => w.write_line(text)?,
        },
    }
    Ok(())
}

fn feed<G: AnswerLines, W: Write>(
    alloc: Global,
    gate: &mut G,
    line: &mut Line,
    bytes: &[u8],
    w: &mut Tap<W>,
    mut count: u64,
) -> Result<u64, Failed>
    requires { has_failed w.old ≡ false }
    ensures ok { IfOk result (λ n. (begun : List ℕ) → HoldsLine line.old begun →
        FedTo W.contents G.replies gate.old (whole_from begun bytes.now) gate.new w.old w.new
        × HoldsLine line.new (rest_from begun bytes.now)
        × (n ≡ u64_saturate (count + length (whole_from begun bytes.now)))) }
    ensures unfailed { OnOk result (has_failed w.new ≡ false) }
    ensures err { OnErr result ((begun : List ℕ) → HoldsLine line.old begun →
        BrokeTo W.contents G.replies gate.old (whole_from begun bytes.now) gate.new w.old w.new) }
    ensures failed { OnErr result (has_failed w.new ≡ true) }
{
    for byte in bytes {
        if *byte == b'\n' {
            answer(alloc, gate, line, w)?;
            line.clear();
            count = count.saturating_add(1);
        } else {
            line.push(*byte);
        }
    }
    Ok(count)
}

/// Answers each line of the reader by a line to the writer, and gives the number of lines.
/// Each answer is written before the next read.
pub(crate) fn answer_lines<G: AnswerLines, R: Read, W: Write>(
    alloc: Global,
    gate: &mut G,
    r: &mut Tap<R>,
    w: &mut Tap<W>,
) -> Result<u64, ReplayFault>
    requires reader { has_failed r.old ≡ false }
    requires writer { has_failed w.old ≡ false }
    ensures ok { IfOk result (λ n. (input : List ℕ)
        × Gave R.remaining r.old r.new input × IsReadOut R.remaining r.new
        × FedTo W.contents G.replies gate.old (lines_of input) gate.new w.old w.new
        × (n ≡ u64_saturate (length (lines_of input)))) }
    ensures read { IsErrOf result ReplayFault.Read → (front : List ℕ)
        × Gave R.remaining r.old r.new front
        × FedTo W.contents G.replies gate.old (whole_lines front) gate.new w.old w.new }
    ensures write { IsErrOf result ReplayFault.Write → (lines : List (List ℕ))
        × (broke : BrokeTo W.contents G.replies gate.old lines gate.new w.old w.new)
        × ReadFor (R.remaining (inside r.old)) (R.remaining (inside r.new)) lines (length broke.done) }
    ensures memory { IsErrOf result ReplayFault.NoMemory →
        (gate.new ≡ gate.old) × (r.new ≡ r.old) × (w.new ≡ w.old) }
    ensures unfailed { OnOk result (has_failed w.new ≡ false) }
    ensures reader_failed { IsErrOf result ReplayFault.Read →
        (has_failed r.new ≡ true) × (has_failed w.new ≡ false) }
    ensures writer_failed { IsErrOf result ReplayFault.Write →
        (has_failed r.new ≡ false) × (has_failed w.new ≡ true) }
{
    let mut line = match Line::new(alloc) {
        Ok(line) => line,
        Err(_) => return Err(ReplayFault::NoMemory),
    };
    let mut count = 0;
    let mut buf = [0u8; LONGEST_READ];
    loop {
        let n = match r.read(&mut buf) {
            Ok(n) => n,
            Err(_) => return Err(ReplayFault::Read),
        };
        if n == 0 {
            break;
        }
        match feed(alloc, gate, &mut line, &buf[..n], w, count) {
            Ok(n) => count = n,
            Err(_) => return Err(ReplayFault::Write),
        }
    }
    if !line.is_empty() {
        if let Err(_) = answer(alloc, gate, &line, w) {
            return Err(ReplayFault::Write);
        }
        count = count.saturating_add(1);
    }
    Ok(count)
}
