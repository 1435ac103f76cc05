//! A whole conversation: deliveries in, one a line, and replies out.
ghost use Rattle.std.specs.Prelude.{◌≡◌, ℕ, List, OnOk, IfOk, IsErrOf, true, false, length};
ghost use Rattle.std.specs.Io.Iter.{u64_saturate};
ghost use Rattle.gate_types.specs.Tap.{inside, has_failed, Gave, IsReadOut, Took};
ghost use Rattle.gate_types.specs.Gated.{Gated, new_gate};
ghost use Rattle.gate_core.specs.Holding.{IsNew, book_of, settings_of};
ghost use Rattle.gate_core.specs.Lines.{whole_lines, lines_of, ReadFor};
ghost use Rattle.gate_core.specs.Replies.{Marked, CallsAreAnswered, Replayed};
ghost use Rattle.gate_core.specs.Held.{Goes, CutOver, ReplayedOver};

use crate::engine::answer_lines;
use crate::fault::ReplayFault;
use crate::gate::Gate;
use gate_book_trait::Book;
use gate_laws::{forms, runs, typed};
use gate_types::tap::Tap;
use std::alloc::Global;
use std::io::{Read, Write};

/// Answers each line of the reader by one line to the writer: the reply to its delivery, a
/// refusal, or `{"error":"too-large"}` where it has over 65,536 bytes and is skipped. A line ends
/// at LF; a last line without LF counts if it isn't empty. Each answer is written before the next
/// read, so give a writer that holds nothing back. The number of lines is given, at most
/// `u64::MAX`. A crash leaves what the calls of these lines leave.
///
/// `Read`: the reader failed; a line that was cut by this isn't acted on. `Write`: the writer
/// failed within an answer, whose delivery stands, and nothing more was read. `NoMemory`: nothing
/// was read or written.
pub fn replay<B: Book, R: Read, W: Write>(
    alloc: Global,
    gate: &mut Gate<B>,
    r: &mut Tap<R>,
    w: &mut Tap<W>,
) -> Result<u64, ReplayFault>
    requires reader { has_failed r.old ≡ false }
    requires writer { has_failed w.old ≡ false }
    ensures ok { IfOk result (λ n. (input : List ℕ)
        × Gave R.remaining r.old r.new input × IsReadOut R.remaining r.new
        × (text : List ℕ) × Took W.contents w.old w.new text
        × Goes B.IsTrusted B.Holds gate.old gate.new
        (ReplayedOver B.LeavesOneOf gate.old gate.new (lines_of input) text)
        × (n ≡ u64_saturate (length (lines_of input)))) }
    // by a gate that was just made they are answered as by the plain gate
    ensures anew { IfOk result (λ n. IsNew B.Holds gate.old → B.IsTrusted (book_of gate.new) →
        (input : List ℕ) × Gave R.remaining r.old r.new input × IsReadOut R.remaining r.new
        × (text : List ℕ) × Took W.contents w.old w.new text
        × (after : Gated) × Replayed (new_gate (settings_of gate.old)) (lines_of input) text after
        × B.Holds (book_of gate.new) (settings_of gate.old) after.content) }
    // the lines before the one that the error cut
    ensures read { IsErrOf result ReplayFault.Read → (front : List ℕ)
        × Gave R.remaining r.old r.new front
        × (text : List ℕ) × Took W.contents w.old w.new text
        × Goes B.IsTrusted B.Holds gate.old gate.new
        (ReplayedOver B.LeavesOneOf gate.old gate.new (whole_lines front) text) }
    // the lines up to the one whose answer was cut, and no read beyond the one that ended it
    ensures write { IsErrOf result ReplayFault.Write → (lines : List (List ℕ))
        × (text : List ℕ) × Took W.contents w.old w.new text
        × (done : ℕ) × ReadFor (R.remaining (inside r.old)) (R.remaining (inside r.new)) lines done
        × Goes B.IsTrusted B.Holds gate.old gate.new (CutOver B.LeavesOneOf gate.old gate.new lines text done) }
    ensures memory { IsErrOf result ReplayFault.NoMemory →
        (gate.new ≡ gate.old) × (r.new ≡ r.old) × (w.new ≡ w.old) }
    ensures unfailed { OnOk result (has_failed w.new ≡ false) }
    ensures reader_failed { IsErrOf result ReplayFault.Read →
        (has_failed r.new ≡ true) × (has_failed w.new ≡ false) }
    ensures writer_failed { IsErrOf result ReplayFault.Write →
        (has_failed r.new ≡ false) × (has_failed w.new ≡ true) }
{
    gate.config.show_sound();
    runs::start_is_lawful();
    forms::empty_is_in_form();
    typed::settings_are_in_form(&gate.config);
    answer_lines(alloc, gate, r, w)
}

/// The replies to those lines that are calls are the answers to these calls, each id acting once:
/// repeats get the kept reply, and an id that was spent on another delivery is refused.
pub fn calls_are_answered()
    ensures { (g : Gated) (lines : List Marked) → CallsAreAnswered g lines }
{}
