//! A gate over settings, and scenes of what it is sent.
use crate::requests::scenes::{Fresh, drips, each_plays, stops, tell};
use crate::requests::texts::{request, response};
use gate_archive::Archive;
use gate_book::MemBook;
use gate_config::read;
use gate_core::Gate;
use gate_http::{Served, serve_one};
use gate_types::tap::Tap;
use std::process::Abort;

/// The queue `core` with its projects `lib` and `app`, and `web` with `site`.
const SETTINGS: &str = r#"
[forge]
base = "https://forge/c/"

[[queue]]
name = "core"
window = 2
floor = 1

[[queue]]
name = "web"
window = 2
floor = 1

[[project]]
name = "lib"
queue = "core"
[[project.job]]
name = "unit"
[[project.job]]
name = "docs"
voting = false

[[project]]
name = "app"
queue = "core"
[[project.job]]
name = "unit"

[[project]]
name = "site"
queue = "web"
[[project.job]]
name = "unit"
"#;

/// An empty gate.
impl Fresh for Gate<MemBook> {
    fn fresh(rt: &(impl Abort + AllocGlobal)) -> Self {
        let config = read(rt.alloc(), SETTINGS.as_bytes()).expect(rt, "settings");
        let book = MemBook::new(rt.alloc(), &config).expect(rt, "memory");
        Gate::new(config, book)
    }
}

const SCENES: &str = r#"= an empty gate responds
404 unknown POST /forge HTTP/1.1\r\nHost: gate\r\nContent-Length: 89\r\n\r\n{"id":"00000000-0000-4000-8000-000000000001","kind":"approved","change":101,"revision":1}
404 unknown POST /forge HTTP/1.1\r\nHost: gate\r\nContent-Length: 00089\r\n\r\n{"id":"00000000-0000-4000-8000-000000000001","kind":"approved","change":101,"revision":1}
404 unknown-build GET /builds/0 HTTP/1.1\r\n\r\n
200 orders GET /orders?x HTTP/1.1\r\n\r\n
200 empty-status GET /status HTTP/1.1\r\n\r\n
= a door is for its kinds
404 wrong-door POST /forge HTTP/1.1\r\nHost: gate\r\nContent-Length: 73\r\n\r\n{"id":"0c000000-0000-4000-8000-000000000001","kind":"take","worker":"w1"}
404 idle POST /worker HTTP/1.1\r\nHost: gate\r\nContent-Length: 73\r\n\r\n{"id":"0c000000-0000-4000-8000-000000000001","kind":"take","worker":"w1"}
= a stopped build is shown, and a history has what left
tell {"id":"0b000000-0000-4000-8000-000000000001","kind":"revision","change":101,"project":"lib","revision":1,"message":""}
tell {"id":"0b000000-0000-4000-8000-000000000002","kind":"revision","change":102,"project":"app","revision":1,"message":""}
tell {"id":"0b000000-0000-4000-8000-000000000003","kind":"approved","change":101,"revision":1}
tell {"id":"0b000000-0000-4000-8000-000000000004","kind":"approved","change":102,"revision":1}
tell {"id":"0b000000-0000-4000-8000-000000000005","kind":"take","worker":"w1"}
tell {"id":"0b000000-0000-4000-8000-000000000006","kind":"take","worker":"w1"}
tell {"id":"0b000000-0000-4000-8000-000000000007","kind":"take","worker":"w1"}
tell {"id":"0b000000-0000-4000-8000-000000000008","kind":"result","build":1,"outcome":"failure"}
tell {"id":"0b000000-0000-4000-8000-000000000009","kind":"take","worker":"w1"}
tell {"id":"0b000000-0000-4000-8000-000000000010","kind":"result","build":3,"outcome":"success"}
200 stopped-build GET /builds/3 HTTP/1.1\r\n\r\n
200 stopped-item GET /items/2 HTTP/1.1\r\n\r\n
404 no-item GET /items/3 HTTP/1.1\r\n\r\n
404 no-item GET /items/02 HTTP/1.1\r\n\r\n
404 no-item GET /items/1000000000000001 HTTP/1.1\r\n\r\n
200 two-running GET /running HTTP/1.1\r\n\r\n
200 last-deliveries GET /deliveries/0b000000-0000-4000-8000-000000000007 HTTP/1.1\r\n\r\n
200 last-deliveries GET /deliveries/urn:uuid:0B000000-0000-4000-8000-000000000007?x HTTP/1.1\r\n\r\n
200 no-deliveries GET /deliveries/0b000000000040008000000000000010 HTTP/1.1\r\n\r\n
404 no-delivery GET /deliveries/0b000000-0000-4000-8000-000000000011 HTTP/1.1\r\n\r\n
404 no-delivery GET /deliveries/xyz HTTP/1.1\r\n\r\n
404 unknown GET /changes/0 HTTP/1.1\r\n\r\n
404 unknown GET /changes/0101 HTTP/1.1\r\n\r\n
404 unknown GET /changes/103 HTTP/1.1\r\n\r\n
404 unknown GET /changes/1000000101 HTTP/1.1\r\n\r\n
404 unknown-build GET /builds/03 HTTP/1.1\r\n\r\n
404 unknown-build GET /builds/5 HTTP/1.1\r\n\r\n
404 unknown-build GET /builds/1000000000000001 HTTP/1.1\r\n\r\n
tell {"id":"0b000000-0000-4000-8000-000000000011","kind":"result","build":4,"outcome":"success"}
tell {"id":"0b000000-0000-4000-8000-000000000012","kind":"landed","order":2}
tell {"id":"0b000000-0000-4000-8000-000000000013","kind":"result","build":2,"outcome":"success"}
200 core-history GET /history/core HTTP/1.1\r\n\r\n
200 core-history GET /history/core/1 HTTP/1.1\r\n\r\n
200 core-history-from-2 GET /history/core/2 HTTP/1.1\r\n\r\n
200 web-history GET /history/web/9999999999999999 HTTP/1.1\r\n\r\n
404 no-queue GET /history/cor/1 HTTP/1.1\r\n\r\n
200 web-history GET /history/web HTTP/1.1\r\n\r\n
404 no-queue GET /history/cor HTTP/1.1\r\n\r\n
404 no-queue GET /history/%63ore HTTP/1.1\r\n\r\n
= a change tells what it waits for
tell {"id":"0b000000-0000-4000-8000-000000000001","kind":"revision","change":101,"project":"lib","revision":1,"message":""}
tell {"id":"0b000000-0000-4000-8000-000000000002","kind":"revision","change":102,"project":"app","revision":1,"message":""}
tell {"id":"0b000000-0000-4000-8000-000000000003","kind":"revision","change":301,"project":"site","revision":1,"message":"Depends-On: https://forge/c/102"}
tell {"id":"0b000000-0000-4000-8000-000000000004","kind":"approved","change":101,"revision":1}
tell {"id":"0b000000-0000-4000-8000-000000000005","kind":"approved","change":102,"revision":1}
tell {"id":"0b000000-0000-4000-8000-000000000006","kind":"approved","change":301,"revision":1}
200 waiting-change GET /changes/301 HTTP/1.1\r\n\r\n
drip waiting-change GET /changes/301?why HTTP/1.1\r\n\r\n
= a cut delivery changes nothing
cut cut POST /forge HTTP/1.1\r\nHost: gate\r\nContent-Length: 89\r\n\r\n{"id":"00000000-0000-4000-8000-000000000001","kind":"approved","change":101,"revision":1}
200 empty-status GET /status HTTP/1.1\r\n\r\n
= hostile bodies are refused: none, brackets, blanks, and a byte that is none of UTF-8
400 no-json POST /forge HTTP/1.1\r\nHost: gate\r\nContent-Length: 0\r\n\r\n
400 no-json POST /forge HTTP/1.1\r\nHost: gate\r\nContent-Length: 128\r\n\r\n<[*128>
422 bad-delivery POST /forge HTTP/1.1\r\nHost: gate\r\nContent-Length: 254\r\n\r\n<[*127><]*127>
400 no-json POST /forge HTTP/1.1\r\nHost: gate\r\nContent-Length: 256\r\n\r\n<[*128><]*128>
400 no-json POST /forge HTTP/1.1\r\nHost: gate\r\nContent-Length: 65536\r\n\r\n< *65536>
400 no-json POST /forge HTTP/1.1\r\nContent-Length: 119\r\n\r\n{"id":"00000000-0000-4000-8000-000000000001","kind":"revision","change":101,"project":"lib","revision":1,"message":"ÿ"}
= a cut answer is given again, and then another one
tell {"id":"0b000000-0000-4000-8000-000000000001","kind":"revision","change":101,"project":"lib","revision":1,"message":""}
tell {"id":"0b000000-0000-4000-8000-000000000002","kind":"approved","change":101,"revision":1}
stop beginning POST /worker HTTP/1.1\r\nHost: gate\r\nContent-Length: 73\r\n\r\n{"id":"0b000000-0000-4000-8000-000000000003","kind":"take","worker":"w1"}
200 first-build POST /worker HTTP/1.1\r\nHost: gate\r\nContent-Length: 73\r\n\r\n{"id":"0b000000-0000-4000-8000-000000000003","kind":"take","worker":"w1"}
200 second-build POST /worker HTTP/1.1\r\nHost: gate\r\nContent-Length: 73\r\n\r\n{"id":"0b000000-0000-4000-8000-000000000004","kind":"take","worker":"w1"}
= a request that breaks off is not acted on
tell {"id":"0b000000-0000-4000-8000-000000000001","kind":"revision","change":101,"project":"lib","revision":1,"message":""}
unread nothing POST /forge HTTP/1.1\r\nHost: gate\r\nContent-Length: 89\r\n\r\n{"id":"0b000000-0000-4000-8000-000000000002","kind":"approved","change":101,"revision":1}
drip orders GET /orders HTTP/1.1\r\n\r\n
200 queued POST /forge HTTP/1.1\r\nHost: gate\r\nContent-Length: 89\r\n\r\n{"id":"0b000000-0000-4000-8000-000000000002","kind":"approved","change":101,"revision":1}
"#;

#[test]
fn a_gate_responds(rt: HostRuntime) {
    each_plays::<Gate<MemBook>>(&rt, SCENES);
}

/// Change 101 of `lib` is known.
pub(crate) const KNOWN: &str =
    r#"{"id":"0b000000-0000-4000-8000-000000000001","kind":"revision","change":101,"project":"lib","revision":1,"message":""}"#;

const APPROVAL: &str =
    r#"POST /forge HTTP/1.1\r\nHost: gate\r\nContent-Length: 89\r\n\r\n{"id":"0b000000-0000-4000-8000-000000000002","kind":"approved","change":101,"revision":1}"#;

/// A change is approved over a writer that fails at any byte of the response, and then again.
fn each_repeats<S: Fresh>(rt: &(impl Abort + AllocGlobal)) {
    let request = request(rt, APPROVAL);
    let response = response(rt, "queued");
    let (request, response) = (request.as_slice(), response.as_bytes());
    for n in 0..response.len() {
        let mut server = S::fresh(rt);
        tell(rt, &mut server, KNOWN);
        stops(rt, &mut server, request, &response[..n], "a first answer");
        drips(rt, &mut server, request, response, "a repeat");
    }
}

#[test]
fn a_repeat_after_a_cut_answer_gets_the_kept_reply(rt: HostRuntime) {
    each_repeats::<Gate<MemBook>>(&rt);
}

const ORDERS: &[u8] = b"GET /orders HTTP/1.1\r\n\r\n";

fn serves_a_reader<B: Archive>(rt: &(impl Abort + AllocGlobal), gate: &mut Gate<B>, orders: &[u8]) {
    let mut writer = Tap::new(Vec::new(rt.alloc()));
    let served = serve_one(rt.alloc(), gate, &mut Tap::new(ORDERS), &mut writer);
    let bytes = writer.into_inner();
    assert!(rt; served == Ok(Served::Answered(200)) && bytes.as_slice() == orders);
}

#[test]
fn a_reader_is_served(rt: HostRuntime) {
    let orders = response(&rt, "orders");
    serves_a_reader(&rt, &mut Gate::<MemBook>::fresh(&rt), orders.as_bytes());
}
