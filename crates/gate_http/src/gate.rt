//! The gate as what answers requests.
ghost use Rattle.std.specs.Prelude.{◌≡◌, false, MatchResult, option_map, string_bytes};
ghost use Rattle.gate_types.specs.Tap.{has_failed};
ghost use Rattle.gate_core.specs.Holding.{IsKeptGate, OfBook, settings_of};
ghost use Rattle.gate_http.specs.Answer.{build_number, change_number, item_serial, told_item};
ghost use Rattle.gate_http.specs.Asked.{streamed_by};
ghost use Rattle.gate_http.specs.Exchange.{StopsStream};
ghost use Rattle.gate_http.specs.Parts.{lines_of_history, lines_of_feed, WritesLines};

use crate::digits::number_up_to;
use crate::respond::{AnswerIfAny, Page, Respond, Stream, StreamFault};
use gate_archive::{Archive, FeedFault, id_of};
use gate_book_trait::HistoryFault;
use gate_core::Gate;
use gate_types::deliveries::{Answer, Refusal};
use gate_types::names::Text;
use gate_types::numbers::{BuildNo, ChangeNo, LAST_NUMBER, Serial};
use gate_types::tap::Tap;
use gate_wire::{Door, read_delivery};
use std::alloc::Global;
use std::io::Write;

/// The number of a build, by what stands for it in a path.
fn build_named(text: &[u8]) -> Option<BuildNo>
    ensures { result ≡ build_number text.now }
{
    match number_up_to(text, LAST_NUMBER as usize) {
        Some(number) => BuildNo::new(number as u64),
        None => None,
    }
}

/// The number of a change, by what stands for it in a path.
fn change_named(text: &[u8]) -> Option<ChangeNo>
    ensures { result ≡ change_number text.now }
{
    match number_up_to(text, 999_999_999) {
        Some(number) => ChangeNo::new(number as u64),
        None => None,
    }
}

/// The serial of an item, by what stands for it in a path.
fn serial_named(text: &[u8]) -> Option<Serial>
    ensures { result ≡ item_serial text.now }
{
    match number_up_to(text, LAST_NUMBER as usize) {
        Some(number) => Serial::new(number as u64),
        None => None,
    }
}

/// The answer with a text, or with the refusal in its place.
fn answer_with(shown: Result<String, Refusal>) -> Answer
    ensures { MatchResult shown (λ text. result ≡ Answer.Said (string_bytes text)) (λ e. result ≡ Answer.Refused e) }
{
    match shown {
        Ok(text) => Answer::Said(Text::new(text)),
        Err(refusal) => Answer::Refused(refusal),
    }
}

/// What is told with the text of an item, or with the refusal in its place.
fn told_with(shown: Result<Option<String>, Refusal>) -> AnswerIfAny
    ensures { MatchResult shown (λ text. result ≡ told_item (option_map string_bytes text))
        (λ e. result ≡ AnswerIfAny.Answer (Answer.Refused e)) }
{
    match shown {
        Ok(Some(text)) => AnswerIfAny::Answer(Answer::Said(Text::new(text))),
        Ok(None) => AnswerIfAny::NoItem,
        Err(refusal) => AnswerIfAny::Answer(Answer::Refused(refusal)),
    }
}

/// How lines were written, by how a history was.
fn history_lines(written: Result<(), HistoryFault>) -> Result<(), StreamFault>
    ensures { result ≡ lines_of_history written }
{
    match written {
        Ok(()) => Ok(()),
        Err(HistoryFault::NoQueue) => Err(StreamFault::Missing),
        Err(HistoryFault::Unavailable) => Err(StreamFault::Unavailable),
        Err(HistoryFault::Broken) => Err(StreamFault::Broken),
        Err(HistoryFault::Write) => Err(StreamFault::Write),
    }
}

/// How lines were written, by how deliveries were.
fn feed_lines(written: Result<(), FeedFault>) -> Result<(), StreamFault>
    ensures { result ≡ lines_of_feed written }
{
    match written {
        Ok(()) => Ok(()),
        Err(FeedFault::NoDelivery) => Err(StreamFault::Missing),
        Err(FeedFault::Unavailable) => Err(StreamFault::Unavailable),
        Err(FeedFault::Broken) => Err(StreamFault::Broken),
        Err(FeedFault::Write) => Err(StreamFault::Write),
    }
}

/// Writes the front and then the lines of a gate that are asked for.
///
/// # Errors
///
/// Those of `show_stream`.
fn write_lines<B: Archive, W: Write>(
    alloc: Global,
    gate: &mut Gate<B>,
    wanted: Stream<'_>,
    front: &[u8],
    w: &mut Tap<W>,
) -> Result<(), StreamFault>
    requires { has_failed w.old ≡ false }
    ensures written { OfBook B.IsTrusted B.Holds gate.old gate.new (λ x.
        WritesLines x (streamed_by wanted.entry) front.now W.contents w.old w.new result) }
    ensures stops { StopsStream w.old w.new result }
    ensures kept { IsKeptGate B.IsTrusted B.Holds B.LeavesOneOf gate.old gate.new }
    ensures settings { settings_of gate.new ≡ settings_of gate.old }
{
    match wanted {
        Stream::History(queue) => history_lines(gate.history(queue, front, w)),
        Stream::HistoryFrom(queue, place) => {
            history_lines(gate.history_from(queue, place, front, w))
        }
        Stream::Deliveries => feed_lines(gate.feed(alloc, None, front, w)),
        Stream::DeliveriesAfter(text) => match id_of(text) {
            Some(id) => feed_lines(gate.feed(alloc, Some(id), front, w)),
            None => Err(StreamFault::Missing),
        },
    }
}

impl<B: Archive> Respond for Gate<B> {
    ghost use Rattle.gate_http.specs.Serving.{Responds, Recalls};

    ghost responds = { Responds B.IsTrusted B.Holds B.LeavesOneOf };

    ghost recalls = { Recalls B.IsTrusted B.Holds B.LeavesOneOf };

    fn hear(&mut self, alloc: Global, door: Door, body: &[u8]) -> Answer {
        match read_delivery(alloc, body, door) {
            Ok((id, delivery)) => self.deliver(alloc, id, delivery),
            Err(refusal) => Answer::Refused(refusal),
        }
    }

    fn show(&mut self, alloc: Global, wanted: Page) -> Answer {
        match wanted {
            Page::Status => answer_with(self.status(alloc)),
            Page::Orders => answer_with(self.orders(alloc)),
            Page::Running => answer_with(self.running(alloc)),
        }
    }

    fn show_build(&mut self, alloc: Global, number: &[u8]) -> Answer {
        match build_named(number) {
            Some(number) => answer_with(self.build(alloc, number)),
            None => Answer::Refused(Refusal::UnknownBuild),
        }
    }

    fn show_change(&mut self, alloc: Global, number: &[u8]) -> Answer {
        match change_named(number) {
            Some(number) => answer_with(self.change(alloc, number)),
            None => Answer::Refused(Refusal::UnknownChange),
        }
    }

    fn show_item(&mut self, alloc: Global, number: &[u8]) -> AnswerIfAny {
        match serial_named(number) {
            Some(serial) => told_with(self.item(alloc, serial)),
            None => AnswerIfAny::NoItem,
        }
    }

    fn show_stream<W: Write>(
        &mut self,
        alloc: Global,
        wanted: Stream<'_>,
        front: &[u8],
        w: &mut Tap<W>,
    ) -> Result<(), StreamFault> {
        write_lines(alloc, self, wanted, front, w)
    }
}
