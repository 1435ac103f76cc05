//! What answers the requests that reach it.
ghost use Rattle.std.specs.Prelude.{◌≡◌, ◌≤◌, ◌++◌, List, ℕ, Option, None, ⊤, false, length, OnOk, IsErrOf};
ghost use Rattle.gate_types.specs.Once.{answer_text};
ghost use Rattle.gate_types.specs.Tap.{has_failed, Took, TookFront};
ghost use Rattle.gate_http.specs.declared.respond.AnswerIfAny.{AnswerIfAny};
ghost use Rattle.gate_http.specs.Asked.{Asked, delivery, page, build, change, item, answer_status, told_status};
ghost use Rattle.gate_http.specs.Asked.{told_text};
ghost use Rattle.gate_http.specs.Asked.{Streamed, streamed_by};
ghost use Rattle.gate_http.specs.Exchange.{HasText, StopsStream};
ghost use Rattle.gate_types.specs.Limits.{most_bytes};

use crate::fault::HttpFault;
use gate_types::deliveries::Answer;
use gate_types::tap::{Failed, Tap};
use gate_wire::Door;
use std::alloc::Global;
use std::fmt;
use std::io::Write;

/// A page to be read.
#[derive(Clone, Copy)]
pub enum Page {
    /// The status text.
    Status,
    /// The orders that are shown.
    Orders,
    /// The builds that run.
    Running,
}

/// What is told to a question.
#[derive(Drop)]
pub enum AnswerIfAny {
    /// An answer of the gate.
    Answer(Answer),
    /// No item has the serial.
    NoItem,
}

/// What is written line by line.
#[derive(Clone, Copy)]
pub enum Stream<'a> {
    /// The history of the queue of this name.
    History(&'a str),
    /// The same, from a place on.
    HistoryFrom(&'a str, u64),
    /// The accepted deliveries.
    Deliveries,
    /// Those behind the one of the id that this text writes.
    DeliveriesAfter(&'a str),
}

/// Why lines were not written whole.
#[derive(Clone, Copy, Debug, PartialEq, Eq)]
pub enum StreamFault {
    /// There is no such queue, or no such delivery; nothing was written.
    Missing,
    /// The store failed or memory was refused; nothing was written.
    Unavailable,
    /// The store failed or memory was refused later; a beginning was written.
    Broken,
    /// The writer failed; a beginning was written.
    Write,
}

impl fmt::Display for StreamFault {
    ghost use Rattle.std.specs.Prelude.{Some};
    ghost use Rattle.gate_http.specs.Messages.{stream_fault_message};

    ghost output = { λ f. Some (stream_fault_message f) };

    fn fmt<W: fmt::Write>(&self, f: &mut fmt::Formatter<W>) -> fmt::Result {
        match self {
            StreamFault::Missing => f.write_str("there is no such queue, or no such delivery"),
            StreamFault::Unavailable => {
                f.write_str("the store failed or memory was refused, and nothing was written")
            }
            StreamFault::Broken => {
                f.write_str("the store failed or memory was refused, and a beginning was written")
            }
            StreamFault::Write => f.write_str("the writer failed, and a beginning was written"),
        }
    }
}

impl std::error::Error for StreamFault {}

impl From<Failed> for StreamFault {
    ghost use Rattle.std.specs.Prelude.{◌≡◌};
    ghost use Rattle.gate_http.specs.declared.respond.StreamFault.TheVariants as fault;

    ghost from_gives = { λ _ f. f ≡ fault.Write };

    fn from(_failed: Failed) -> StreamFault {
        StreamFault::Write
    }
}

/// The status that an answer has over HTTP.
fn answer_status(answer: &Answer) -> u16
    ensures { result ≡ answer_status answer.now }
{
    match answer {
        Answer::Said(_) => 200,
        Answer::Refused(refusal) => refusal.status(),
    }
}

fn answer_text(answer: &Answer) -> &str
    ensures { result.now ≡ answer_text answer.now }
{
    match answer {
        Answer::Said(text) => text.as_str(),
        Answer::Refused(refusal) => refusal.text(),
    }
}

/// The status of what is told.
pub(crate) fn status_of(told: &AnswerIfAny) -> u16
    ensures { result ≡ told_status told.now }
{
    match told {
        AnswerIfAny::Answer(answer) => answer_status(answer),
        AnswerIfAny::NoItem => HttpFault::NoItem.status(),
    }
}

/// The text of what is told.
pub(crate) fn text_of(told: &AnswerIfAny) -> &str
    ensures { result.now ≡ told_text told.now }
{
    match told {
        AnswerIfAny::Answer(answer) => answer_text(answer),
        AnswerIfAny::NoItem => HttpFault::NoItem.text(),
    }
}

/// What answers requests, one after another.
pub trait Respond {
    // what is told to what is asked in a state, and the state after it
    ghost responds: { Self → Asked → AnswerIfAny → Self → Type 0 };

    // what is so of the lines that are asked for in a state, if there are any, and the state after they were asked for
    ghost recalls: { Self → Streamed → (Option (List ℕ) → Type 0) → Self → Type 0 };

    /// The answer to a delivery's bytes, by the door that they came in by.
    fn hear(&mut self, alloc: Global, door: Door, body: &[u8]) -> Answer
        requires { length body.now ≤ most_bytes }
        ensures { responds self.old (delivery door body.now) (AnswerIfAny.Answer result) self.new };

    /// A page.
    fn show(&mut self, alloc: Global, wanted: Page) -> Answer
        ensures { responds self.old (page wanted) (AnswerIfAny.Answer result) self.new };

    /// A build, by what stands for its number in the path.
    fn show_build(&mut self, alloc: Global, number: &[u8]) -> Answer
        ensures { responds self.old (build number.now) (AnswerIfAny.Answer result) self.new };

    /// A change, by what stands for its number in the path.
    fn show_change(&mut self, alloc: Global, number: &[u8]) -> Answer
        ensures { responds self.old (change number.now) (AnswerIfAny.Answer result) self.new };

    /// An item, there or gone, by what stands for its serial in the path.
    fn show_item(&mut self, alloc: Global, number: &[u8]) -> AnswerIfAny
        ensures { responds self.old (item number.now) result self.new };

    /// Writes the front and then the lines.
    ///
    /// # Errors
    ///
    /// `Missing` where there is no such queue, or no such delivery, and `Unavailable`: nothing was written. `Broken`,
    /// and `Write` where the writer failed: a beginning was written.
    fn show_stream<W: Write>(
        &mut self,
        alloc: Global,
        wanted: Stream<'_>,
        front: &[u8],
        w: &mut Tap<W>,
    ) -> Result<(), StreamFault>
        requires { has_failed w.old ≡ false }
        ensures whole { OnOk result (recalls self.old (streamed_by wanted.entry)
            (HasText (λ text. Took W.contents w.old w.new (front.now ++ text))) self.new) }
        ensures missing { IsErrOf result StreamFault.Missing →
            recalls self.old (streamed_by wanted.entry) (λ text. text ≡ None) self.new }
        ensures unavailable { IsErrOf result StreamFault.Unavailable →
            recalls self.old (streamed_by wanted.entry) (λ text. ⊤) self.new }
        ensures broken { IsErrOf result StreamFault.Broken → recalls self.old (streamed_by wanted.entry)
            (HasText (λ text. TookFront W.contents w.old w.new (front.now ++ text))) self.new }
        ensures write { IsErrOf result StreamFault.Write → recalls self.old (streamed_by wanted.entry)
            (HasText (λ text. TookFront W.contents w.old w.new (front.now ++ text))) self.new }
        ensures stops { StopsStream w.old w.new result };
}
