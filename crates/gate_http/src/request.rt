//! What a head asks for.
ghost use Rattle.std.specs.Prelude.{◌≡◌, ◌==◌, Option, Some, option_map, length, count_by, codes, IfSome, IfNone};
ghost use Rattle.std.specs.Str.{bytes_eq};
ghost use Rattle.httparse.specs.Grammar.{RequestHead};
ghost use Rattle.httparse.specs.Spans.{IsRequestAt, IsRequestWithin};
ghost use Rattle.gate_http.specs.Routes.{routes};
ghost use Rattle.gate_http.specs.Way.{IsRequest, FindsHead, decided, decided_of, posted_of, read_at, extent_of};
ghost use Rattle.gate_http.specs.Parts.{view, read_by, read_or, reading};

use crate::fault::HttpFault;
use crate::fields::{BodyLength, body_length};
use crate::respond::{Page, Stream};
use crate::response::Extent;
use crate::routes::{Route, cut_query, find_route, parameter, place, queue};
use gate_wire::Door;
use http::Method;
use httparse::Status;
use httparse::spans::{EMPTY_HEADER_SPAN, HeaderSpan, RequestSpans, parse_request};
use matchit::Router;
use std::str::from_utf8;

/// The most fields of a head.
const FIELDS: usize = 64;

/// The most lines of a head: the request line, the fields, and the empty line.
const LINES: usize = 66;

/// A question that is answered at once.
#[derive(Clone, Copy)]
pub(crate) enum Question<'a> {
    Page(Page),
    /// A build, by what stands for its number.
    Build(&'a [u8]),
    /// A change, by what stands for its number.
    Change(&'a [u8]),
    /// An item, by what stands for its serial.
    Item(&'a [u8]),
}

/// What is read of the gate.
#[derive(Clone, Copy)]
pub(crate) enum Wanted<'a> {
    Ask(Question<'a>),
    Lines(Stream<'a>),
}

/// What a head asks for.
pub(crate) enum Decision<'a> {
    /// An answer of HTTP's own.
    Refuse(HttpFault, Extent),
    /// A delivery of so many bytes.
    Post(Door, usize),
    Read(Wanted<'a>),
}

/// The head of a request, where these bytes are one of at most 64 fields.
fn parse(head: &[u8], headers: &mut [HeaderSpan; FIELDS]) -> Option<RequestSpans>
    ensures found { IfSome result (λ spans.
        (h : RequestHead) × IsRequestAt head.now headers.new spans h × IsRequest head.now h) }
    ensures within { IfSome result (λ spans. IsRequestWithin head.now headers.new spans) }
    ensures none { IfNone result ((h : RequestHead) → IsRequest head.now h → ⊥) }
{
    match parse_request(head, headers.as_mut_slice()) {
        Ok(Status::Complete(spans)) => Some(spans),
        _ => None,
    }
}

/// A delivery by a door, if its length is good.
fn posted<'a>(door: Door, length: BodyLength) -> Decision<'a>
    ensures { view result ≡ posted_of door length }
{
    match length {
        BodyLength::Missing => Decision::Refuse(HttpFault::NoLength, Extent::Whole),
        BodyLength::Bad => Decision::Refuse(HttpFault::BadRequest, Extent::Whole),
        BodyLength::Long => Decision::Refuse(HttpFault::TooLarge, Extent::Whole),
        BodyLength::Bytes(n) => Decision::Post(door, n),
    }
}

/// What is read at a path of a route, if there is something to read.
fn read_at<'a>(route: Route, path: &'a str) -> Option<Wanted<'a>>
    ensures { option_map read_by result ≡ read_at path.now route }
{
    let text = parameter(path);
    let number = text.as_bytes();
    match route {
        Route::Forge | Route::Worker => None,
        Route::Status => Some(Wanted::Ask(Question::Page(Page::Status))),
        Route::Orders => Some(Wanted::Ask(Question::Page(Page::Orders))),
        Route::Running => Some(Wanted::Ask(Question::Page(Page::Running))),
        Route::Builds => Some(Wanted::Ask(Question::Build(number))),
        Route::Changes => Some(Wanted::Ask(Question::Change(number))),
        Route::Items => Some(Wanted::Ask(Question::Item(number))),
        Route::History => Some(Wanted::Lines(Stream::History(text))),
        Route::HistoryFrom => match place(path) {
            Some(place) => Some(Wanted::Lines(Stream::HistoryFrom(queue(path), place))),
            None => None,
        },
        Route::Deliveries => Some(Wanted::Lines(Stream::Deliveries)),
        Route::DeliveriesAfter => Some(Wanted::Lines(Stream::DeliveriesAfter(text))),
    }
}

/// What who delivers nothing reads at a path, by its route.
///
/// # Errors
///
/// `NoRoute` where there is no such path; `NotPost` where it takes POST alone; `NotGet` where it takes GET alone, and
/// the method is another one.
pub(crate) fn read<'a>(
    route: Option<Route>,
    path: &'a str,
    is_get: bool,
) -> Result<Wanted<'a>, HttpFault>
    ensures { (h : RequestHead) → bytes_eq h.method (codes "GET") ≡ is_get →
        read_or (extent_of h.method) result ≡ reading h path.now route }
{
    match route {
        None => Err(HttpFault::NoRoute),
        Some(Route::Forge | Route::Worker) => Err(HttpFault::NotPost),
        Some(route) => match read_at(route, path) {
            None => Err(HttpFault::NoRoute),
            Some(wanted) if is_get => Ok(wanted),
            Some(_) => Err(HttpFault::NotGet),
        },
    }
}

/// How much is written of an answer to this method.
fn extent_of(method: &[u8]) -> Extent
    ensures { result ≡ extent_of method.now }
{
    if method == Method::HEAD.as_str().as_bytes() {
        Extent::Head
    } else {
        Extent::Whole
    }
}

/// What a request asks for.
fn ask<'a>(
    router: &Router<Route>,
    head: &'a [u8],
    headers: &[HeaderSpan; FIELDS],
    spans: RequestSpans,
) -> Decision<'a>
    requires router { router.now ≡ routes }
    requires within { IsRequestWithin head.now headers.now spans }
    requires target { (h : RequestHead) × IsRequestAt head.now headers.now spans h }
    ensures { (h : RequestHead) → IsRequestAt head.now headers.now spans h → view result ≡ decided_of (Some h) }
{
    let method = spans.method.of(head);
    let extent = extent_of(method);
    let Ok(target) = from_utf8(spans.path.of(head)) else {
        return Decision::Refuse(HttpFault::NoRoute, extent);
    };
    let path = cut_query(target);
    let route = find_route(router, path);
    let fields = &headers[..spans.headers];
    let is_post = method == Method::POST.as_str().as_bytes();
    match route {
        Some(Route::Forge) if is_post => posted(Door::Forge, body_length(head, fields)),
        Some(Route::Worker) if is_post => posted(Door::Worker, body_length(head, fields)),
        route => match read(route, path, method == Method::GET.as_str().as_bytes()) {
            Ok(wanted) => Decision::Read(wanted),
            Err(fault) => Decision::Refuse(fault, extent),
        },
    }
}

/// How many lines a head has.
fn line_ends(head: &[u8]) -> usize
    ensures { result ≡ count_by (λ b. b == 10) head.now }
{
    head.iter().filter(|b| **b == b'\n').count()
}

/// What a head asks for.
pub(crate) fn decide<'a>(router: &Router<Route>, head: &'a [u8]) -> Decision<'a>
    requires { router.now ≡ routes }
    ensures { (found : Option RequestHead) × FindsHead head.now found × (view result ≡ decided head.now found) }
{
    let mut headers = [EMPTY_HEADER_SPAN; FIELDS];
    let found = parse(head, &mut headers);
    if line_ends(head) > LINES {
        return Decision::Refuse(HttpFault::HeadTooLarge, Extent::Whole);
    }
    match found {
        Some(spans) => ask(router, head, &headers, spans),
        None => Decision::Refuse(HttpFault::BadRequest, Extent::Whole),
    }
}
