//! Scenes of requests, and how they are played.
use crate::claims::holds;
use crate::requests::streams::{Pace, Stream};
use crate::requests::texts::{halves, request, response};
use gate_http::{RequestFault, Respond, Served, answer_request};
use gate_types::tap::Tap;
use gate_wire::Door;
use std::alloc::Global;
use std::process::Abort;

/// What can be made anew for each scene.
pub(crate) trait Fresh: Respond + Drop {
    fn fresh(rt: &(impl Abort + AllocGlobal)) -> Self;
}

/// What is done for a request at this pace, what is written, and how many of its bytes are left unread.
fn exchanged(
    alloc: Global,
    server: &mut impl Respond,
    pace: Pace,
    request: &[u8],
) -> (Result<Served, RequestFault>, Vec<u8>, usize) {
    let mut reader = Tap::new(Stream::new(alloc, request, pace));
    let mut writer = Tap::new(Stream::new(alloc, b"", pace));
    let served = answer_request(alloc, server, &mut reader, &mut writer);
    let left = reader.into_inner().input.len();
    (served, writer.into_inner().output, left)
}

/// At this pace so much is done for a request, and this is written: how many of its bytes are left unread.
fn left(
    rt: &(impl Abort + AllocGlobal),
    server: &mut impl Respond,
    pace: Pace,
    request: &[u8],
    done: Result<Served, RequestFault>,
    written: &[u8],
    case: &str,
) -> usize {
    let (served, output, left) = exchanged(rt.alloc(), server, pace, request);
    holds(rt, served == done && output.as_slice() == written, case);
    left
}

/// What a word says that is done.
fn done(rt: &impl Abort, word: &str, case: &str) -> Result<Served, RequestFault> {
    match word {
        "nothing" => Ok(Served::Nothing),
        "store" => Err(RequestFault::Store),
        _ => Ok(Served::Answered(word.parse::<u16>().expect(rt, case))),
    }
}

/// A request is answered so, by what is done and how much is left of it.
fn answers(
    rt: &(impl Abort + AllocGlobal),
    server: &mut impl Respond,
    verb: &str,
    request: &[u8],
    response: &[u8],
    case: &str,
) {
    let (word, rest) = verb.split_once('+').unwrap_or((verb, "0"));
    let rest = rest.parse::<usize>().expect(rt, case);
    let done = done(rt, word, case);
    let left = left(rt, server, Pace::WHOLE, request, done, response, case);
    holds(rt, left == rest, case);
}

/// Each beginning of a request is refused by this response.
fn each_cut(
    rt: &(impl Abort + AllocGlobal),
    server: &mut impl Respond,
    request: &[u8],
    response: &[u8],
    case: &str,
) {
    holds(rt, request.len() > 1, case);
    for n in 1..request.len() {
        let refused = Ok(Served::Answered(400));
        let front = &request[..n];
        let _left = left(rt, server, Pace::WHOLE, front, refused, response, case);
    }
}

/// A reader that fails at any byte of a request is told, and nothing is written.
fn each_unread(
    rt: &(impl Abort + AllocGlobal),
    server: &mut impl Respond,
    request: &[u8],
    case: &str,
) {
    holds(rt, !request.is_empty(), case);
    for n in 0..request.len() {
        let fault = Err(RequestFault::Read);
        let _left = left(rt, server, Pace::reading(n), request, fault, b"", case);
    }
}

/// A writer that fails once it has these bytes is told.
pub(crate) fn stops(
    rt: &(impl Abort + AllocGlobal),
    server: &mut impl Respond,
    request: &[u8],
    written: &[u8],
    case: &str,
) {
    let pace = Pace::writing(written.len());
    let _left = left(
        rt,
        server,
        pace,
        request,
        Err(RequestFault::Write),
        written,
        case,
    );
}

/// The same of a writer that fails at any byte of a response.
fn each_stops(
    rt: &(impl Abort + AllocGlobal),
    server: &mut impl Respond,
    request: &[u8],
    response: &[u8],
    case: &str,
) {
    holds(rt, !response.is_empty(), case);
    for n in 0..response.len() {
        stops(rt, server, request, &response[..n], case);
    }
}

/// A response is had over streams that give and take a byte a call.
pub(crate) fn drips(
    rt: &(impl Abort + AllocGlobal),
    server: &mut impl Respond,
    request: &[u8],
    response: &[u8],
    case: &str,
) {
    let answered = Ok(Served::Answered(200));
    let _left = left(rt, server, Pace::DRIP, request, answered, response, case);
}

/// A delivery is told, whatever is said to it.
pub(crate) fn tell(rt: &(impl Abort + AllocGlobal), server: &mut impl Respond, delivery: &str) {
    assert!(rt; delivery.len() <= 65_536, "{delivery}");
    let _said = server.hear(rt.alloc(), Door::Any, delivery.as_bytes());
}

fn takes(rt: &(impl Abort + AllocGlobal), server: &mut impl Respond, line: &str, case: &str) {
    let (verb, rest) = halves(rt, line);
    if verb == "tell" {
        return tell(rt, server, rest);
    }
    let (name, text) = halves(rt, rest);
    let request = request(rt, text);
    let response = response(rt, name);
    let (request, response) = (request.as_slice(), response.as_bytes());
    match verb {
        "drip" => drips(rt, server, request, response, case),
        "cut" => each_cut(rt, server, request, response, case),
        "unread" => each_unread(rt, server, request, case),
        "stop" => stops(rt, server, request, response, case),
        "stops" => each_stops(rt, server, request, response, case),
        _ => answers(rt, server, verb, request, response, case),
    }
}

/// Plays a scene, which has its title, and then a line each: `tell` and a delivery, which is told, or else a verb, the
/// name of a response, and a request. The verbs:
///
/// - `200`, or another status: the request is answered by it and the response; by `200+4` four bytes are left unread.
///   In the place of a status `nothing` is done, or the `store` fails;
/// - `drip`: it is answered by 200 and the response over streams that give and take a byte a call;
/// - `cut`: each beginning of it gets the response and 400;
/// - `unread`: a reader that fails at any byte of it is told, and nothing is written;
/// - `stop`: a writer that fails behind the response is told, and `stops`: one that fails at any byte of it.
fn plays(rt: &(impl Abort + AllocGlobal), server: &mut impl Respond, scene: &str) {
    let (title, lines) = scene.split_once('\n').expect(rt, scene);
    holds(rt, !lines.is_empty(), title);
    for line in lines.lines() {
        let case = format!(in rt.alloc(); "{title}: {line}").expect(rt, "memory");
        takes(rt, server, line, case.as_str());
    }
}

/// Plays each scene of a text, which begins with `= `, over a server that is made for it.
pub(crate) fn each_plays<S: Fresh>(rt: &(impl Abort + AllocGlobal), text: &str) {
    let scenes = text.strip_prefix("= ").expect(rt, "no scene");
    for scene in scenes.split("\n= ") {
        plays(rt, &mut S::fresh(rt), scene);
    }
}
