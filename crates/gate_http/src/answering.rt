//! Answers are written: a refusal of HTTP's own, what is told at once, and what is written line by line.
ghost use Rattle.std.specs.Prelude.{◌≡◌, ◌≤◌, [], false, true, OnOk, OnErr, IfOk, IfErr, IsErrOf, vec_capacity, ◌⊎◌};
ghost use Rattle.gate_types.specs.Tap.{has_failed, Took, TookFront};
ghost use Rattle.gate_http.specs.Faults.{fault_status};
ghost use Rattle.gate_http.specs.Asked.{media_of, told_status, streamed_by, missing_of};
ghost use Rattle.gate_http.specs.Response.{fault_content, told_kind, fault_in, told_in, head_room};
ghost use Rattle.gate_http.specs.Exchange.{OfLines, Recalled};
ghost use Rattle.gate_http.specs.Parts.{asked_by, ReadsTo, BreaksOff};

use crate::fault::HttpFault;
use crate::request::{Question, Wanted};
use crate::request_fault::RequestFault;
use crate::respond::{AnswerIfAny, Page, Respond, Stream, StreamFault, status_of, text_of};
use crate::response::{Extent, Form, Media, allow_of, front_of, write_answer};
use crate::served::Served;
use gate_types::deliveries::{Answer, Refusal};
use gate_types::tap::Tap;
use std::alloc::Global;
use std::io::Write;

/// The content of an answer of HTTP's own, or nothing.
fn content_of(fault: HttpFault, extent: Extent) -> &'static str
    ensures { result.now ≡ fault_content fault extent }
{
    match extent {
        Extent::Whole => fault.text(),
        Extent::Head => "",
    }
}

/// The type of what is told.
fn kind_of(told: &AnswerIfAny, media: Media) -> &'static str
    ensures { result.now ≡ told_kind media told.now }
{
    match media {
        Media::Plain if status_of(told) == 200 => "text/plain",
        _ => "application/json",
    }
}

/// In which form the answer to a question is.
fn media_of(question: Question<'_>) -> Media
    ensures { result ≡ media_of (asked_by question.entry) }
{
    match question {
        Question::Page(Page::Status) => Media::Plain,
        _ => Media::Json,
    }
}

/// Writes an answer of HTTP's own.
pub(crate) fn refuse<W: Write>(
    writer: &mut Tap<W>,
    room: &mut Vec<u8>,
    form: Form,
    fault: HttpFault,
    extent: Extent,
) -> Result<Served, RequestFault>
    requires writer { has_failed writer.old ≡ false }
    requires empty { room.old.items ≡ [] }
    requires room { head_room ≤ vec_capacity room.old }
    ensures ok { IfOk result (λ served. (served ≡ Served.Answered (fault_status fault))
        × Took W.contents writer.old writer.new (fault_in form fault extent)) }
    ensures err { OnErr result (TookFront W.contents writer.old writer.new (fault_in form fault extent)) }
    ensures write { IfErr result (λ e. e ≡ RequestFault.Write) }
    ensures unfailed { OnOk result (has_failed writer.new ≡ false) }
    ensures failed { OnErr result (has_failed writer.new ≡ true) }
{
    let status = fault.status();
    let len = fault.text().len();
    let content = content_of(fault, extent);
    let kind = "application/json";
    match write_answer(
        writer,
        room,
        form,
        status,
        kind,
        len,
        allow_of(fault),
        content,
    ) {
        Ok(()) => Ok(Served::Answered(status)),
        Err(_) => Err(RequestFault::Write),
    }
}

/// Writes what is told.
pub(crate) fn tell<W: Write>(
    writer: &mut Tap<W>,
    room: &mut Vec<u8>,
    form: Form,
    told: &AnswerIfAny,
    media: Media,
) -> Result<Served, RequestFault>
    requires writer { has_failed writer.old ≡ false }
    requires empty { room.old.items ≡ [] }
    requires room { head_room ≤ vec_capacity room.old }
    ensures ok { IfOk result (λ served. (served ≡ Served.Answered (told_status told.now))
        × Took W.contents writer.old writer.new (told_in form media told.now)) }
    ensures err { OnErr result (TookFront W.contents writer.old writer.new (told_in form media told.now)) }
    ensures write { IfErr result (λ e. e ≡ RequestFault.Write) }
    ensures unfailed { OnOk result (has_failed writer.new ≡ false) }
    ensures failed { OnErr result (has_failed writer.new ≡ true) }
{
    let status = status_of(told);
    let text = text_of(told);
    let kind = kind_of(told, media);
    match write_answer(writer, room, form, status, kind, text.len(), "", text) {
        Ok(()) => Ok(Served::Answered(status)),
        Err(_) => Err(RequestFault::Write),
    }
}

/// What is told to a question.
fn ask<G: Respond>(alloc: Global, gate: &mut G, question: Question<'_>) -> AnswerIfAny
    ensures { G.responds gate.old (asked_by question.entry) result gate.new }
{
    match question {
        Question::Page(wanted) => AnswerIfAny::Answer(gate.show(alloc, wanted)),
        Question::Build(number) => AnswerIfAny::Answer(gate.show_build(alloc, number)),
        Question::Change(number) => AnswerIfAny::Answer(gate.show_change(alloc, number)),
        Question::Item(number) => gate.show_item(alloc, number),
    }
}

/// The answer where there is nothing of the kind.
fn missing_of(wanted: Stream<'_>) -> HttpFault
    ensures { result ≡ missing_of (streamed_by wanted.entry) }
{
    match wanted {
        Stream::History(_) | Stream::HistoryFrom(_, _) => HttpFault::NoQueue,
        Stream::Deliveries | Stream::DeliveriesAfter(_) => HttpFault::NoDelivery,
    }
}

/// Writes lines as they are read, or an answer in their place.
fn tell_lines<G: Respond, W: Write>(
    alloc: Global,
    gate: &mut G,
    writer: &mut Tap<W>,
    room: &mut Vec<u8>,
    form: Form,
    wanted: Stream<'_>,
) -> Result<Served, RequestFault>
    requires writer { has_failed writer.old ≡ false }
    requires empty { room.old.items ≡ [] }
    requires room { head_room ≤ vec_capacity room.old }
    ensures ok { IfOk result (λ served. Recalled G.recalls form gate.old (streamed_by wanted.entry)
        (Took W.contents writer.old writer.new) gate.new served) }
    ensures write { IsErrOf result RequestFault.Write → (served : Served) × Recalled G.recalls form gate.old
        (streamed_by wanted.entry) (TookFront W.contents writer.old writer.new) gate.new served }
    ensures store { IsErrOf result RequestFault.Store → G.recalls gate.old (streamed_by wanted.entry)
        (OfLines form (TookFront W.contents writer.old writer.new)) gate.new }
    ensures others { IfErr result (λ e. (e ≡ RequestFault.Write) ⊎ (e ≡ RequestFault.Store)) }
    ensures unfailed { OnOk result (has_failed writer.new ≡ false) }
    ensures store_unfailed { IsErrOf result RequestFault.Store → has_failed writer.new ≡ false }
    ensures failed { IsErrOf result RequestFault.Write → has_failed writer.new ≡ true }
{
    match gate.show_stream(alloc, wanted, front_of(form).as_bytes(), writer) {
        Ok(()) => Ok(Served::Answered(200)),
        Err(StreamFault::Missing) => refuse(writer, room, form, missing_of(wanted), Extent::Whole),
        Err(StreamFault::Unavailable) => {
            let said = AnswerIfAny::Answer(Answer::Refused(Refusal::Unavailable));
            tell(writer, room, form, &said, Media::Json)
        }
        Err(StreamFault::Broken) => Err(RequestFault::Store),
        Err(StreamFault::Write) => Err(RequestFault::Write),
    }
}

/// Reads of the gate, and writes the answer.
pub(crate) fn answer_wanted<G: Respond, W: Write>(
    alloc: Global,
    gate: &mut G,
    writer: &mut Tap<W>,
    room: &mut Vec<u8>,
    form: Form,
    wanted: Wanted<'_>,
) -> Result<Served, RequestFault>
    requires writer { has_failed writer.old ≡ false }
    requires empty { room.old.items ≡ [] }
    requires room { head_room ≤ vec_capacity room.old }
    ensures ok { IfOk result (ReadsTo G.responds G.recalls form wanted.entry gate.old
        (Took W.contents writer.old writer.new) gate.new) }
    ensures write { IsErrOf result RequestFault.Write → (served : Served)
        × ReadsTo G.responds G.recalls form wanted.entry
        gate.old (TookFront W.contents writer.old writer.new) gate.new served }
    ensures store { IsErrOf result RequestFault.Store → BreaksOff G.recalls form wanted.entry gate.old
        (TookFront W.contents writer.old writer.new) gate.new }
    ensures others { IfErr result (λ e. (e ≡ RequestFault.Write) ⊎ (e ≡ RequestFault.Store)) }
    ensures unfailed { OnOk result (has_failed writer.new ≡ false) }
    ensures store_unfailed { IsErrOf result RequestFault.Store → has_failed writer.new ≡ false }
    ensures failed { IsErrOf result RequestFault.Write → has_failed writer.new ≡ true }
{
    match wanted {
        Wanted::Ask(question) => {
            let said = ask(alloc, gate, question);
            tell(writer, room, form, &said, media_of(question))
        }
        Wanted::Lines(stream) => tell_lines(alloc, gate, writer, room, form, stream),
    }
}
