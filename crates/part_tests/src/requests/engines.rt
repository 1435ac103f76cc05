//! An engine with fixed answers, and scenes of what it is asked.
use crate::requests::scenes::{Fresh, each_plays};
use gate_http::{AnswerIfAny, Page, Respond, Stream, StreamFault};
use gate_types::deliveries::{Answer, Refusal};
use gate_types::names::Text;
use gate_types::tap::Tap;
use gate_wire::Door;
use std::alloc::Global;
use std::io::Write;
use std::process::Abort;

/// Remembers whether it took a delivery, which has to begin with a brace. The history of `torn` breaks off behind its
/// first line.
#[derive(Drop)]
pub(crate) struct Fixed {
    pub(crate) has_taken: bool,
}

fn said(alloc: Global, text: &str) -> Answer {
    match String::from_str(alloc, text) {
        Ok(text) => Answer::Said(Text::new(text)),
        Err(_) => Answer::Refused(Refusal::Unavailable),
    }
}

impl Respond for Fixed {
    ghost responds = { λ old asked answer new. Unit {0} };

    ghost recalls = { λ old wanted P new. Unit {0} };

    fn hear(&mut self, alloc: Global, door: Door, body: &[u8]) -> Answer {
        if !body.starts_with(b"{") {
            return Answer::Refused(Refusal::BadJson);
        }
        if body.len() == 89 {
            return Answer::Refused(Refusal::UnknownChange);
        }
        self.has_taken = true;
        match door {
            Door::Forge => said(alloc, "{\"reply\":\"recorded\"}"),
            _ => Answer::Refused(Refusal::WrongDoor),
        }
    }

    fn show(&mut self, alloc: Global, wanted: Page) -> Answer {
        match wanted {
            Page::Status => said(alloc, "end\n"),
            Page::Orders => said(alloc, if self.has_taken { "[{}]" } else { "[]" }),
            Page::Running => said(alloc, "{}"),
        }
    }

    fn show_build(&mut self, alloc: Global, number: &[u8]) -> Answer {
        if number == b"3".as_slice() {
            said(alloc, "{}")
        } else {
            Answer::Refused(Refusal::UnknownBuild)
        }
    }

    fn show_change(&mut self, alloc: Global, number: &[u8]) -> Answer {
        if number == b"3".as_slice() {
            said(alloc, "{}")
        } else {
            Answer::Refused(Refusal::UnknownChange)
        }
    }

    fn show_item(&mut self, alloc: Global, number: &[u8]) -> AnswerIfAny {
        if number == b"3".as_slice() {
            AnswerIfAny::Answer(said(alloc, "{}"))
        } else {
            AnswerIfAny::NoItem
        }
    }

    fn show_stream<W: Write>(
        &mut self,
        _alloc: Global,
        wanted: Stream<'_>,
        front: &[u8],
        w: &mut Tap<W>,
    ) -> Result<(), StreamFault> {
        let word = word_of(wanted);
        if word == "shut" {
            return Err(StreamFault::Unavailable);
        }
        if word != "core" && word != "torn" {
            return Err(StreamFault::Missing);
        }
        w.write_all(front)?;
        w.write_line("history core")?;
        if word == "torn" {
            return Err(StreamFault::Broken);
        }
        w.write_line("end 0")?;
        Ok(())
    }
}

/// The word by which lines are asked for. A place other than 3 is `gone`.
fn word_of(wanted: Stream<'_>) -> &str {
    match wanted {
        Stream::History(queue) | Stream::HistoryFrom(queue, 3) => queue,
        Stream::HistoryFrom(_, _) => "gone",
        Stream::Deliveries => "core",
        Stream::DeliveriesAfter(id) => id,
    }
}

impl Fresh for Fixed {
    fn fresh(_: &(impl Abort + AllocGlobal)) -> Self {
        Self { has_taken: false }
    }
}

const SCENES: &str = r#"= each route answers
200 orders GET /orders?x HTTP/1.1\n\r\n
404 unknown POST /forge HTTP/1.1\r\nHost: gate\r\nContent-Length: 89\r\n\r\n{"id":"00000000-0000-4000-8000-000000000001","kind":"approved","change":101,"revision":1}
404 wrong-door POST /worker HTTP/1.1\r\nContent-Length: 2\r\n\r\n{}
200+4 status GET /status?x HTTP/1.1\r\nContent-Length: 4\r\n\r\nrest
200 status \r\nGET /status HTTP/1.0\n\n
200 build GET /builds/3 HTTP/1.1\r\n\r\n
404 unknown-build GET /builds/0 HTTP/1.1\r\n\r\n
404 unknown-build GET /builds/%33 HTTP/1.1\r\n\r\n
200 build GET /changes/3 HTTP/1.1\r\n\r\n
404 unknown GET /changes/0 HTTP/1.1\r\n\r\n
200 build GET /items/3 HTTP/1.1\r\n\r\n
200+4 build GET /items/3?x HTTP/1.1\r\n\r\nrest
404 no-item GET /items/4 HTTP/1.1\r\n\r\n
200 build GET /running HTTP/1.1\r\n\r\n
200 history GET /deliveries HTTP/1.1\r\n\r\n
200 history GET /deliveries/core HTTP/1.1\r\n\r\n
200 history GET /history/core/3 HTTP/1.1\r\n\r\n
404 no-queue GET /history/core/9999999999999999 HTTP/1.1\r\n\r\n
= a delivery that is acted on is seen
200 recorded POST /forge HTTP/1.1\r\nContent-Length: 2\r\n\r\n{}
200 taken GET /orders HTTP/1.1\r\n\r\n
= other paths and methods are refused
404+4 no-route GET /nowhere HTTP/1.1\r\n\r\nrest
404 no-route GET /builds/ HTTP/1.1\r\n\r\n
404 no-route GET /builds/1/ HTTP/1.1\r\n\r\n
404 no-route GET http://gate/status HTTP/1.1\r\n\r\n
404 no-route GET /builds HTTP/1.1\r\n\r\n
404 no-route GET /changes HTTP/1.1\r\n\r\n
404 no-route GET /changes/ HTTP/1.1\r\n\r\n
404 no-route GET /changes/3/ HTTP/1.1\r\n\r\n
404 no-route GET /items/ HTTP/1.1\r\n\r\n
404 no-route GET /running/ HTTP/1.1\r\n\r\n
404 no-route GET /deliveries/ HTTP/1.1\r\n\r\n
404 no-route GET /deliveries/core/3 HTTP/1.1\r\n\r\n
404 no-route GET /history/core/0 HTTP/1.1\r\n\r\n
404 no-route GET /history/core/03 HTTP/1.1\r\n\r\n
404 no-route GET /history/core/+3 HTTP/1.1\r\n\r\n
404 no-route GET /history/core/3x HTTP/1.1\r\n\r\n
404 no-route GET /history/core/10000000000000000 HTTP/1.1\r\n\r\n
404 no-route GET /history/core/3/ HTTP/1.1\r\n\r\n
404 no-route GET /history//3 HTTP/1.1\r\n\r\n
404 no-route-to-head HEAD /history/core/0 HTTP/1.1\r\n\r\n
405 get-alone DELETE /items/3 HTTP/1.1\r\n\r\n
405+2 get-alone POST /changes/0 HTTP/1.1\r\nContent-Length: 2\r\n\r\n{}
405 get-alone-to-head HEAD /running HTTP/1.1\r\n\r\n
405 get-alone-to-head HEAD /history/none/3 HTTP/1.1\r\n\r\n
405 get-alone-to-head HEAD /deliveries/none HTTP/1.1\r\n\r\n
405 get-alone get /status HTTP/1.1\r\n\r\n
405 get-alone-to-head HEAD /status HTTP/1.1\r\n\r\n
405 post-alone GET /forge HTTP/1.1\r\n\r\n
= a bad head is refused
400 bad GET /status HTTP/2.0\r\n\r\n
400 bad GET /status HTTP/1.1\r\nHost : gate\r\n\r\n
400 bad GET /status HTTP/1.1\r\nA: b\r\n c\r\n\r\n
400+24 bad \n\nGET /status HTTP/1.1\r\n\r\n
400 bad \r\n\r\n
400 bad GET /ÿ HTTP/1.1\r\n\r\n
= a length is read
200+4 recorded POST /forge HTTP/1.1\r\ncontent-LENGTH:\t 0002 \r\n\r\n{}more
400+2 no-json POST /forge HTTP/1.1\r\nContent-Length: 0\r\n\r\n{}
413+2 large POST /forge HTTP/1.1\r\nContent-Length: 65537\r\n\r\n{}
413+2 large POST /forge HTTP/1.1\r\nContent-Length: 99999999999999999999\r\n\r\n{}
= a body without a length is refused
411+2 no-length POST /forge HTTP/1.1\r\n\r\n{}
411+2 no-length POST /forge HTTP/1.1\r\ncontent-length: 2\r\nTransfer-Encoding: chunked\r\n\r\n{}
411+2 no-length POST /forge HTTP/1.1\r\ncontent-length: 2\r\nTransfer-Encoding:\r\n\r\n{}
400+2 bad POST /forge HTTP/1.1\r\nContent-Length: 2\r\nContent-Length: 2\r\n\r\n{}
400+2 bad POST /forge HTTP/1.1\r\nContent-Length: 99999\r\nContent-Length: 2\r\n\r\n{}
400+2 bad POST /forge HTTP/1.1\r\nContent-Length: +5\r\n\r\n{}
400+2 bad POST /forge HTTP/1.1\r\nContent-Length: \r\n\r\n{}
= the longest body is taken
400 no-json POST /forge HTTP/1.1\r\nContent-Length: 65536\r\n\r\n< *65536>
= a head has to end in its 8192 bytes
400 cut <a*8191>
431 large-head <a*8192>
431+1 large-head <a*8193>
200 status GET /status HTTP/1.1\r\nX: <a*8163>\r\n\r\n
= a head has at most 64 fields
200 status GET /status HTTP/1.1\r\n<X: y\r\n*64>\r\n
431 large-head GET /status HTTP/1.1\r\n<X: y\r\n*65>\r\n
= an empty input gets nothing
nothing nothing <.*0>
= a cut request is not acted on
cut cut POST /forge HTTP/1.1\r\nContent-Length: 2\r\n\r\n{}
200 orders GET /orders HTTP/1.1\r\n\r\n
= a failing reader is told
unread nothing POST /forge HTTP/1.1\r\nContent-Length: 2\r\n\r\n{}
200 orders GET /orders HTTP/1.1\r\n\r\n
= a failing writer is told
stops recorded POST /forge HTTP/1.1\r\nContent-Length: 2\r\n\r\n{}
= a narrow writer gets all
drip recorded POST /forge HTTP/1.1\r\nContent-Length: 2\r\n\r\n{}
= a history is shown by its queue
200 history GET /history/core HTTP/1.1\r\n\r\n
200+4 history GET /history/core?x/y HTTP/1.1\r\n\r\nrest
404 no-queue GET /history/%63ore HTTP/1.1\r\n\r\n
503 unavailable GET /history/shut HTTP/1.1\r\n\r\n
404 no-route GET /history/ HTTP/1.1\r\n\r\n
404 no-route GET /history/core/ HTTP/1.1\r\n\r\n
405 get-alone-to-head HEAD /history/core HTTP/1.1\r\n\r\n
405+2 get-alone POST /history/core HTTP/1.1\r\nContent-Length: 2\r\n\r\n{}
= deliveries are shown behind an id
404 no-delivery GET /deliveries/xyz HTTP/1.1\r\n\r\n
503 unavailable GET /deliveries/shut HTTP/1.1\r\n\r\n
503 unavailable GET /history/shut/3 HTTP/1.1\r\n\r\n
store torn GET /deliveries/torn HTTP/1.1\r\n\r\n
store torn GET /history/torn/3 HTTP/1.1\r\n\r\n
stops history GET /deliveries HTTP/1.1\r\n\r\n
= a history that breaks off is told
store torn GET /history/torn HTTP/1.1\r\n\r\n
= a writer that fails in a history gets a beginning
stops history GET /history/core HTTP/1.1\r\n\r\n
stops no-queue GET /history/%63ore HTTP/1.1\r\n\r\n
"#;

#[test]
fn a_request_gets_its_response(rt: HostRuntime) {
    each_plays::<Fixed>(&rt, SCENES);
}
