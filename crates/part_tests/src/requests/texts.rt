//! What the lines of scenes stand for.
use std::process::Abort;

/// Whole responses, each behind its name, typed from the formats. `\r` and `\n` stand for the bytes that they name.
const RESPONSES: &str = r#"
nothing 
beginning HTTP/
queued HTTP/1.1 200 OK\r\nContent-Type: application/json\r\nContent-Length: 28\r\nConnection: close\r\n\r\n{"order":1,"reply":"queued"}
unknown HTTP/1.1 404 Not Found\r\nContent-Type: application/json\r\nContent-Length: 38\r\nConnection: close\r\n\r\n{"code":"E5","error":"unknown-change"}
cut HTTP/1.1 400 Bad Request\r\nContent-Type: application/json\r\nContent-Length: 15\r\nConnection: close\r\n\r\n{"error":"cut"}
bad HTTP/1.1 400 Bad Request\r\nContent-Type: application/json\r\nContent-Length: 23\r\nConnection: close\r\n\r\n{"error":"bad-request"}
no-length HTTP/1.1 411 Length Required\r\nContent-Type: application/json\r\nContent-Length: 18\r\nConnection: close\r\n\r\n{"error":"length"}
large HTTP/1.1 413 Payload Too Large\r\nContent-Type: application/json\r\nContent-Length: 21\r\nConnection: close\r\n\r\n{"error":"too-large"}
large-head HTTP/1.1 431 Request Header Fields Too Large\r\nContent-Type: application/json\r\nContent-Length: 26\r\nConnection: close\r\n\r\n{"error":"head-too-large"}
no-json HTTP/1.1 400 Bad Request\r\nContent-Type: application/json\r\nContent-Length: 32\r\nConnection: close\r\n\r\n{"code":"E1","error":"bad-json"}
wrong-door HTTP/1.1 404 Not Found\r\nContent-Type: application/json\r\nContent-Length: 34\r\nConnection: close\r\n\r\n{"code":"E3","error":"wrong-door"}
unknown-build HTTP/1.1 404 Not Found\r\nContent-Type: application/json\r\nContent-Length: 38\r\nConnection: close\r\n\r\n{"code":"E11","error":"unknown-build"}
recorded HTTP/1.1 200 OK\r\nContent-Type: application/json\r\nContent-Length: 20\r\nConnection: close\r\n\r\n{"reply":"recorded"}
status HTTP/1.1 200 OK\r\nContent-Type: text/plain\r\nContent-Length: 4\r\nConnection: close\r\n\r\nend\n
orders HTTP/1.1 200 OK\r\nContent-Type: application/json\r\nContent-Length: 2\r\nConnection: close\r\n\r\n[]
taken HTTP/1.1 200 OK\r\nContent-Type: application/json\r\nContent-Length: 4\r\nConnection: close\r\n\r\n[{}]
build HTTP/1.1 200 OK\r\nContent-Type: application/json\r\nContent-Length: 2\r\nConnection: close\r\n\r\n{}
no-route HTTP/1.1 404 Not Found\r\nContent-Type: application/json\r\nContent-Length: 20\r\nConnection: close\r\n\r\n{"error":"no-route"}
post-alone HTTP/1.1 405 Method Not Allowed\r\nContent-Type: application/json\r\nContent-Length: 18\r\nAllow: POST\r\nConnection: close\r\n\r\n{"error":"method"}
get-alone HTTP/1.1 405 Method Not Allowed\r\nContent-Type: application/json\r\nContent-Length: 18\r\nAllow: GET\r\nConnection: close\r\n\r\n{"error":"method"}
get-alone-to-head HTTP/1.1 405 Method Not Allowed\r\nContent-Type: application/json\r\nContent-Length: 18\r\nAllow: GET\r\nConnection: close\r\n\r\n
history HTTP/1.1 200 OK\r\nContent-Type: text/plain\r\nConnection: close\r\n\r\nhistory core\nend 0\n
torn HTTP/1.1 200 OK\r\nContent-Type: text/plain\r\nConnection: close\r\n\r\nhistory core\n
no-item HTTP/1.1 404 Not Found\r\nContent-Type: application/json\r\nContent-Length: 19\r\nConnection: close\r\n\r\n{"error":"no-item"}
no-delivery HTTP/1.1 404 Not Found\r\nContent-Type: application/json\r\nContent-Length: 23\r\nConnection: close\r\n\r\n{"error":"no-delivery"}
no-route-to-head HTTP/1.1 404 Not Found\r\nContent-Type: application/json\r\nContent-Length: 20\r\nConnection: close\r\n\r\n
waiting-change HTTP/1.1 200 OK\r\nContent-Type: application/json\r\nContent-Length: 184\r\nConnection: close\r\n\r\n{"approval":3,"change":301,"full":false,"needs":[{"approval":null,"change":102,"stands":"core","state":"open"}],"order":null,"project":"site","queue":"web","revision":1,"state":"open"}
stopped-item HTTP/1.1 200 OK\r\nContent-Type: application/json\r\nContent-Length: 257\r\nConnection: close\r\n\r\n{"builds":[{"build":3,"job":"unit","live":false,"outcome":"running"},{"build":4,"job":"unit","live":true,"outcome":"running"}],"change":102,"jobs":[{"job":"unit","slot":"running","voting":true}],"kept":2,"order":2,"queue":"core","revision":1,"verdict":null}
two-running HTTP/1.1 200 OK\r\nContent-Type: application/json\r\nContent-Length: 176\r\nConnection: close\r\n\r\n{"builds":[{"build":2,"change":101,"job":"docs","order":1,"queue":"core","revision":1},{"build":4,"change":102,"job":"unit","order":2,"queue":"core","revision":1}],"running":2}
last-deliveries HTTP/1.1 200 OK\r\nContent-Type: text/plain\r\nConnection: close\r\n\r\n{"build":1,"id":"0b000000000040008000000000000008","kind":"result","outcome":"failure"}\n{"id":"0b000000000040008000000000000009","kind":"take","worker":"w1"}\n{"build":3,"id":"0b000000000040008000000000000010","kind":"result","outcome":"success"}\nend 3\n
no-deliveries HTTP/1.1 200 OK\r\nContent-Type: text/plain\r\nConnection: close\r\n\r\nend 0\n
core-history-from-2 HTTP/1.1 200 OK\r\nContent-Type: text/plain\r\nConnection: close\r\n\r\nhistory core\n     2      1       101    1 failed          -\nend 2\n
no-queue HTTP/1.1 404 Not Found\r\nContent-Type: application/json\r\nContent-Length: 20\r\nConnection: close\r\n\r\n{"error":"no-queue"}
unavailable HTTP/1.1 503 Service Unavailable\r\nContent-Type: application/json\r\nContent-Length: 36\r\nConnection: close\r\n\r\n{"code":"E15","error":"unavailable"}
empty-status HTTP/1.1 200 OK\r\nContent-Type: text/plain\r\nContent-Length: 61\r\nConnection: close\r\n\r\nqueue core window 2 landed 0\nqueue web window 2 landed 0\nend\n
stopped-build HTTP/1.1 200 OK\r\nContent-Type: application/json\r\nContent-Length: 126\r\nConnection: close\r\n\r\n{"after":0,"ahead":[[101,1]],"build":3,"change":102,"job":"unit","live":false,"outcome":"running","queue":"core","revision":1}
core-history HTTP/1.1 200 OK\r\nContent-Type: text/plain\r\nConnection: close\r\n\r\nhistory core\n     1      2       102    1 landed          1\n     2      1       101    1 failed          -\nend 2\n
web-history HTTP/1.1 200 OK\r\nContent-Type: text/plain\r\nConnection: close\r\n\r\nhistory web\nend 0\n
item-status HTTP/1.1 200 OK\r\nContent-Type: text/plain\r\nContent-Length: 124\r\nConnection: close\r\n\r\nqueue core window 2 landed 0\n     1       101    1      - ok      unit=waiting docs=waiting\nqueue web window 2 landed 0\nend\n
idle HTTP/1.1 404 Not Found\r\nContent-Type: application/json\r\nContent-Length: 29\r\nConnection: close\r\n\r\n{"code":"E12","error":"idle"}
bad-delivery HTTP/1.1 422 Unprocessable Entity\r\nContent-Type: application/json\r\nContent-Length: 36\r\nConnection: close\r\n\r\n{"code":"E2","error":"bad-delivery"}
first-build HTTP/1.1 200 OK\r\nContent-Type: application/json\r\nContent-Length: 102\r\nConnection: close\r\n\r\n{"after":0,"ahead":[],"build":1,"change":101,"job":"unit","queue":"core","reply":"build","revision":1}
second-build HTTP/1.1 200 OK\r\nContent-Type: application/json\r\nContent-Length: 102\r\nConnection: close\r\n\r\n{"after":0,"ahead":[],"build":2,"change":101,"job":"docs","queue":"core","reply":"build","revision":1}
"#;

/// What stands before the first blank, and behind it.
pub(crate) fn halves<'a>(rt: &impl Abort, line: &'a str) -> (&'a str, &'a str) {
    line.split_once(' ').expect(rt, line)
}

fn unescaped(rt: &(impl Abort + AllocGlobal), text: &str) -> String {
    let text = text.replace(rt.alloc(), "\\r", "\r").expect(rt, "memory");
    let text = text.replace(rt.alloc(), "\\n", "\n").expect(rt, "memory");
    text.replace(rt.alloc(), "\\t", "\t").expect(rt, "memory")
}

/// The response of a name.
pub(crate) fn response(rt: &(impl Abort + AllocGlobal), name: &str) -> String {
    let key = format!(in rt.alloc(); "\n{name} ").expect(rt, "memory");
    let (_, behind) = RESPONSES.split_once(key.as_str()).expect(rt, name);
    let (text, _) = behind.split_once('\n').expect(rt, name);
    unescaped(rt, text)
}

/// A part of a line that may begin with `TEXT*TIMES>`, with that text so many times.
fn repeated(rt: &(impl Abort + AllocGlobal), part: &str) -> String {
    let (repeated, rest) = part.split_once('>').unwrap_or(("*0", part));
    let (text, times) = repeated.split_once('*').expect(rt, part);
    let times = times.parse::<usize>().expect(rt, part);
    let mut text = text.repeat(rt.alloc(), times).expect(rt, "memory");
    text.push_str(rest).expect(rt, "memory");
    text
}

fn expanded(rt: &(impl Abort + AllocGlobal), text: &str) -> String {
    let mut whole = String::new(rt.alloc());
    for part in text.split('<') {
        let part = repeated(rt, part);
        whole.push_str(part.as_str()).expect(rt, "memory");
    }
    whole
}

/// The bytes of a request. In its line `\r`, `\n` and `\t` stand for the bytes that they name, `<TEXT*TIMES>` for a text
/// so many times, and each other character for the byte of its number.
pub(crate) fn request(rt: &(impl Abort + AllocGlobal), line: &str) -> Vec<u8> {
    let text = expanded(rt, unescaped(rt, line).as_str());
    let mut bytes = Vec::new(rt.alloc());
    for character in text.chars() {
        let byte = u8::try_from(character).expect(rt, line);
        bytes.push(byte).expect(rt, "memory");
    }
    bytes
}
