//! What several scenes begin with.
use std::process::Abort;

/// Each has its name behind `# `, what it comes to, and then what is told and answered.
const BEGINNINGS: &str = r#"
# two taken
Changes 101 of lib and 102 of app are queued, and each of their jobs is given to a worker.
> {"id":"0a000000-0000-4000-8000-000000000001","kind":"revision","change":101,"project":"lib","revision":1,"message":""}
< {"reply":"recorded"}
> {"id":"0a000000-0000-4000-8000-000000000002","kind":"revision","change":102,"project":"app","revision":1,"message":""}
< {"reply":"recorded"}
> {"id":"0a000000-0000-4000-8000-000000000003","kind":"approved","change":101,"revision":1}
< {"order":1,"reply":"queued"}
> {"id":"0a000000-0000-4000-8000-000000000004","kind":"approved","change":102,"revision":1}
< {"order":2,"reply":"queued"}
> {"id":"0a000000-0000-4000-8000-000000000005","kind":"take","worker":"w1"}
< {"after":0,"ahead":[],"build":1,"change":101,"job":"unit","queue":"core","reply":"build","revision":1}
> {"id":"0a000000-0000-4000-8000-000000000006","kind":"take","worker":"w1"}
< {"after":0,"ahead":[],"build":2,"change":101,"job":"docs","queue":"core","reply":"build","revision":1}
> {"id":"0a000000-0000-4000-8000-000000000007","kind":"take","worker":"w1"}
< {"after":0,"ahead":[[101,1]],"build":3,"change":102,"job":"unit","queue":"core","reply":"build","revision":1}

# three taken
The same, and 103 of lib is queued behind them, beyond a window of 2.
> {"id":"0a000000-0000-4000-8000-000000000001","kind":"revision","change":101,"project":"lib","revision":1,"message":""}
< {"reply":"recorded"}
> {"id":"0a000000-0000-4000-8000-000000000002","kind":"revision","change":102,"project":"app","revision":1,"message":""}
< {"reply":"recorded"}
> {"id":"0a000000-0000-4000-8000-000000000003","kind":"revision","change":103,"project":"lib","revision":1,"message":""}
< {"reply":"recorded"}
> {"id":"0a000000-0000-4000-8000-000000000004","kind":"approved","change":101,"revision":1}
< {"order":1,"reply":"queued"}
> {"id":"0a000000-0000-4000-8000-000000000005","kind":"approved","change":102,"revision":1}
< {"order":2,"reply":"queued"}
> {"id":"0a000000-0000-4000-8000-000000000006","kind":"approved","change":103,"revision":1}
< {"order":3,"reply":"queued"}
> {"id":"0a000000-0000-4000-8000-000000000007","kind":"take","worker":"w1"}
< {"after":0,"ahead":[],"build":1,"change":101,"job":"unit","queue":"core","reply":"build","revision":1}
> {"id":"0a000000-0000-4000-8000-000000000008","kind":"take","worker":"w1"}
< {"after":0,"ahead":[],"build":2,"change":101,"job":"docs","queue":"core","reply":"build","revision":1}
> {"id":"0a000000-0000-4000-8000-000000000009","kind":"take","worker":"w1"}
< {"after":0,"ahead":[[101,1]],"build":3,"change":102,"job":"unit","queue":"core","reply":"build","revision":1}
> {"id":"0a000000-0000-4000-8000-000000000010","kind":"take","worker":"w1"}
< {"code":"E12","error":"idle"}

# first failed
The first of three items fails, the second is built anew, and the result of its old build comes late.
> {"id":"0b000000-0000-4000-8000-000000000001","kind":"result","build":1,"outcome":"failure"}
< {"reply":"noted"}
> {"id":"0b000000-0000-4000-8000-000000000002","kind":"take","worker":"w1"}
< {"after":0,"ahead":[],"build":4,"change":102,"job":"unit","queue":"core","reply":"build","revision":1}
> {"id":"0b000000-0000-4000-8000-000000000003","kind":"result","build":3,"outcome":"success"}
< {"reply":"stale"}

# both landed
Behind two that are taken: both land, one after the other.
> {"id":"0b000000-0000-4000-8000-000000000001","kind":"result","build":1,"outcome":"success"}
< {"reply":"noted"}
> {"id":"0b000000-0000-4000-8000-000000000002","kind":"landed","order":1}
< {"code":"E10","error":"no-order"}
> {"id":"0b000000-0000-4000-8000-000000000003","kind":"result","build":2,"outcome":"failure"}
< {"reply":"noted"}
> {"id":"0b000000-0000-4000-8000-000000000004","kind":"landed","order":1}
< {"n":1,"reply":"landed"}
> {"id":"0b000000-0000-4000-8000-000000000005","kind":"result","build":3,"outcome":"success"}
< {"reply":"noted"}
> {"id":"0b000000-0000-4000-8000-000000000006","kind":"landed","order":2}
< {"n":2,"reply":"landed"}
> {"id":"0b000000-0000-4000-8000-000000000007","kind":"landed","order":2}
< {"code":"E10","error":"no-order"}
> {"id":"0b000000-0000-4000-8000-000000000004","kind":"landed","order":1}
< {"n":1,"reply":"landed"}
> {"id":"0b000000-0000-4000-8000-000000000008","kind":"take","worker":"w1"}
< {"code":"E12","error":"idle"}

# one landed
Change 102 of app is built and lands. Each build has one result, and each order one answer.
> {"id":"00000000-0000-4000-8000-000000000001","kind":"take","worker":"w1"}
< {"code":"E12","error":"idle"}
> {"id":"00000000-0000-4000-8000-000000000002","kind":"result","build":1,"outcome":"success"}
< {"code":"E11","error":"unknown-build"}
> {"id":"00000000-0000-4000-8000-000000000003","kind":"landed","order":1}
< {"code":"E10","error":"no-order"}
> {"id":"00000000-0000-4000-8000-000000000004","kind":"refused","order":1}
< {"code":"E10","error":"no-order"}
> {"id":"00000000-0000-4000-8000-000000000005","kind":"revision","change":102,"project":"app","revision":1,"message":""}
< {"reply":"recorded"}
> {"id":"00000000-0000-4000-8000-000000000006","kind":"approved","change":102,"revision":1}
< {"order":1,"reply":"queued"}
> {"id":"00000000-0000-4000-8000-000000000007","kind":"landed","order":1}
< {"code":"E10","error":"no-order"}
> {"id":"00000000-0000-4000-8000-000000000008","kind":"take","worker":"w1"}
< {"after":0,"ahead":[],"build":1,"change":102,"job":"unit","queue":"core","reply":"build","revision":1}
> {"id":"00000000-0000-4000-8000-000000000009","kind":"take","worker":"w1"}
< {"code":"E12","error":"idle"}
> {"id":"00000000-0000-4000-8000-000000000010","kind":"landed","order":1}
< {"code":"E10","error":"no-order"}
> {"id":"00000000-0000-4000-8000-000000000011","kind":"result","build":2,"outcome":"success"}
< {"code":"E11","error":"unknown-build"}
> {"id":"00000000-0000-4000-8000-000000000012","kind":"result","build":1,"outcome":"success"}
< {"reply":"noted"}
> {"id":"00000000-0000-4000-8000-000000000013","kind":"result","build":1,"outcome":"failure"}
< {"reply":"stale"}
> {"id":"00000000-0000-4000-8000-000000000014","kind":"landed","order":2}
< {"code":"E10","error":"no-order"}
> {"id":"00000000-0000-4000-8000-000000000015","kind":"refused","order":2}
< {"code":"E10","error":"no-order"}
> {"id":"00000000-0000-4000-8000-000000000016","kind":"landed","order":1}
< {"n":1,"reply":"landed"}
> {"id":"00000000-0000-4000-8000-000000000017","kind":"result","build":1,"outcome":"success"}
< {"reply":"stale"}
> {"id":"00000000-0000-4000-8000-000000000018","kind":"landed","order":1}
< {"code":"E10","error":"no-order"}
> {"id":"00000000-0000-4000-8000-000000000019","kind":"refused","order":1}
< {"code":"E10","error":"no-order"}
> {"id":"00000000-0000-4000-8000-000000000020","kind":"take","worker":"w1"}
< {"code":"E12","error":"idle"}

# four taken
Changes 101 to 104 are queued in a window of 4, and each of their jobs is given to a worker.
> {"id":"0a000000-0000-4000-8000-000000000001","kind":"revision","change":101,"project":"lib","revision":1,"message":""}
< {"reply":"recorded"}
> {"id":"0a000000-0000-4000-8000-000000000002","kind":"revision","change":102,"project":"app","revision":1,"message":""}
< {"reply":"recorded"}
> {"id":"0a000000-0000-4000-8000-000000000003","kind":"revision","change":103,"project":"lib","revision":1,"message":""}
< {"reply":"recorded"}
> {"id":"0a000000-0000-4000-8000-000000000004","kind":"revision","change":104,"project":"app","revision":1,"message":""}
< {"reply":"recorded"}
> {"id":"0a000000-0000-4000-8000-000000000005","kind":"approved","change":101,"revision":1}
< {"order":1,"reply":"queued"}
> {"id":"0a000000-0000-4000-8000-000000000006","kind":"approved","change":102,"revision":1}
< {"order":2,"reply":"queued"}
> {"id":"0a000000-0000-4000-8000-000000000007","kind":"approved","change":103,"revision":1}
< {"order":3,"reply":"queued"}
> {"id":"0a000000-0000-4000-8000-000000000008","kind":"approved","change":104,"revision":1}
< {"order":4,"reply":"queued"}
> {"id":"0a000000-0000-4000-8000-000000000009","kind":"take","worker":"w1"}
< {"after":0,"ahead":[],"build":1,"change":101,"job":"unit","queue":"core","reply":"build","revision":1}
> {"id":"0a000000-0000-4000-8000-000000000010","kind":"take","worker":"w1"}
< {"after":0,"ahead":[],"build":2,"change":101,"job":"docs","queue":"core","reply":"build","revision":1}
> {"id":"0a000000-0000-4000-8000-000000000011","kind":"take","worker":"w1"}
< {"after":0,"ahead":[[101,1]],"build":3,"change":102,"job":"unit","queue":"core","reply":"build","revision":1}
> {"id":"0a000000-0000-4000-8000-000000000012","kind":"take","worker":"w1"}
< {"after":0,"ahead":[[101,1],[102,1]],"build":4,"change":103,"job":"unit","queue":"core","reply":"build","revision":1}
> {"id":"0a000000-0000-4000-8000-000000000013","kind":"take","worker":"w1"}
< {"after":0,"ahead":[[101,1],[102,1]],"build":5,"change":103,"job":"docs","queue":"core","reply":"build","revision":1}
> {"id":"0a000000-0000-4000-8000-000000000014","kind":"take","worker":"w1"}
< {"after":0,"ahead":[[101,1],[102,1],[103,1]],"build":6,"change":104,"job":"unit","queue":"core","reply":"build","revision":1}

# three behind a landing
100 has landed, 101 has passed, 102 is built, and 105 waits for a worker; 103 needs 900, and 104 isn't approved.
> {"id":"0a000000-0000-4000-8000-000000000001","kind":"revision","change":100,"project":"app","revision":1,"message":""}
< {"reply":"recorded"}
> {"id":"0a000000-0000-4000-8000-000000000002","kind":"approved","change":100,"revision":1}
< {"order":1,"reply":"queued"}
> {"id":"0a000000-0000-4000-8000-000000000003","kind":"take","worker":"w1"}
< {"after":0,"ahead":[],"build":1,"change":100,"job":"unit","queue":"core","reply":"build","revision":1}
> {"id":"0a000000-0000-4000-8000-000000000004","kind":"result","build":1,"outcome":"success"}
< {"reply":"noted"}
> {"id":"0a000000-0000-4000-8000-000000000005","kind":"landed","order":1}
< {"n":1,"reply":"landed"}
> {"id":"0a000000-0000-4000-8000-000000000006","kind":"revision","change":101,"project":"app","revision":1,"message":""}
< {"reply":"recorded"}
> {"id":"0a000000-0000-4000-8000-000000000007","kind":"revision","change":102,"project":"app","revision":1,"message":""}
< {"reply":"recorded"}
> {"id":"0a000000-0000-4000-8000-000000000008","kind":"revision","change":103,"project":"app","revision":1,"message":"Depends-On: https://forge/c/900"}
< {"reply":"recorded"}
> {"id":"0a000000-0000-4000-8000-000000000009","kind":"revision","change":104,"project":"app","revision":1,"message":""}
< {"reply":"recorded"}
> {"id":"0a000000-0000-4000-8000-000000000010","kind":"revision","change":105,"project":"app","revision":1,"message":""}
< {"reply":"recorded"}
> {"id":"0a000000-0000-4000-8000-000000000011","kind":"approved","change":101,"revision":1}
< {"order":2,"reply":"queued"}
> {"id":"0a000000-0000-4000-8000-000000000012","kind":"approved","change":102,"revision":1}
< {"order":3,"reply":"queued"}
> {"id":"0a000000-0000-4000-8000-000000000013","kind":"approved","change":105,"revision":1}
< {"order":4,"reply":"queued"}
> {"id":"0a000000-0000-4000-8000-000000000014","kind":"approved","change":103,"revision":1}
< {"reply":"waiting"}
> {"id":"0a000000-0000-4000-8000-000000000015","kind":"take","worker":"w1"}
< {"after":1,"ahead":[],"build":2,"change":101,"job":"unit","queue":"core","reply":"build","revision":1}
> {"id":"0a000000-0000-4000-8000-000000000016","kind":"take","worker":"w1"}
< {"after":1,"ahead":[[101,1]],"build":3,"change":102,"job":"unit","queue":"core","reply":"build","revision":1}
> {"id":"0a000000-0000-4000-8000-000000000017","kind":"result","build":2,"outcome":"success"}
< {"reply":"noted"}

# one failing
100 has landed. 101 fails and runs docs, 102 has passed unit and runs docs; 103 is behind them, 201 and 202 in web.
> {"id":"0a000000-0000-4000-8000-000000000001","kind":"revision","change":100,"project":"lib","revision":1,"message":""}
< {"reply":"recorded"}
> {"id":"0a000000-0000-4000-8000-000000000002","kind":"approved","change":100,"revision":1}
< {"order":1,"reply":"queued"}
> {"id":"0a000000-0000-4000-8000-000000000003","kind":"take","worker":"w1"}
< {"after":0,"ahead":[],"build":1,"change":100,"job":"unit","queue":"core","reply":"build","revision":1}
> {"id":"0a000000-0000-4000-8000-000000000004","kind":"take","worker":"w1"}
< {"after":0,"ahead":[],"build":2,"change":100,"job":"docs","queue":"core","reply":"build","revision":1}
> {"id":"0a000000-0000-4000-8000-000000000005","kind":"result","build":1,"outcome":"success"}
< {"reply":"noted"}
> {"id":"0a000000-0000-4000-8000-000000000006","kind":"result","build":2,"outcome":"success"}
< {"reply":"noted"}
> {"id":"0a000000-0000-4000-8000-000000000007","kind":"landed","order":1}
< {"n":1,"reply":"landed"}
> {"id":"0a000000-0000-4000-8000-000000000008","kind":"revision","change":101,"project":"lib","revision":1,"message":""}
< {"reply":"recorded"}
> {"id":"0a000000-0000-4000-8000-000000000009","kind":"revision","change":102,"project":"lib","revision":1,"message":""}
< {"reply":"recorded"}
> {"id":"0a000000-0000-4000-8000-000000000010","kind":"revision","change":103,"project":"lib","revision":1,"message":""}
< {"reply":"recorded"}
> {"id":"0a000000-0000-4000-8000-000000000011","kind":"revision","change":104,"project":"lib","revision":1,"message":"Depends-On: https://forge/c/900"}
< {"reply":"recorded"}
> {"id":"0a000000-0000-4000-8000-000000000012","kind":"revision","change":201,"project":"site","revision":1,"message":""}
< {"reply":"recorded"}
> {"id":"0a000000-0000-4000-8000-000000000013","kind":"revision","change":202,"project":"site","revision":1,"message":""}
< {"reply":"recorded"}
> {"id":"0a000000-0000-4000-8000-000000000014","kind":"approved","change":101,"revision":1}
< {"order":2,"reply":"queued"}
> {"id":"0a000000-0000-4000-8000-000000000015","kind":"approved","change":102,"revision":1}
< {"order":3,"reply":"queued"}
> {"id":"0a000000-0000-4000-8000-000000000016","kind":"approved","change":201,"revision":1}
< {"order":4,"reply":"queued"}
> {"id":"0a000000-0000-4000-8000-000000000017","kind":"approved","change":103,"revision":1}
< {"order":5,"reply":"queued"}
> {"id":"0a000000-0000-4000-8000-000000000018","kind":"approved","change":202,"revision":1}
< {"order":6,"reply":"queued"}
> {"id":"0a000000-0000-4000-8000-000000000019","kind":"approved","change":104,"revision":1}
< {"reply":"waiting"}
> {"id":"0a000000-0000-4000-8000-000000000020","kind":"take","worker":"w1"}
< {"after":1,"ahead":[],"build":3,"change":101,"job":"unit","queue":"core","reply":"build","revision":1}
> {"id":"0a000000-0000-4000-8000-000000000021","kind":"take","worker":"w1"}
< {"after":1,"ahead":[],"build":4,"change":101,"job":"docs","queue":"core","reply":"build","revision":1}
> {"id":"0a000000-0000-4000-8000-000000000022","kind":"result","build":3,"outcome":"failure"}
< {"reply":"noted"}
> {"id":"0a000000-0000-4000-8000-000000000023","kind":"take","worker":"w1"}
< {"after":1,"ahead":[],"build":5,"change":102,"job":"unit","queue":"core","reply":"build","revision":1}
> {"id":"0a000000-0000-4000-8000-000000000024","kind":"take","worker":"w1"}
< {"after":1,"ahead":[],"build":6,"change":102,"job":"docs","queue":"core","reply":"build","revision":1}
> {"id":"0a000000-0000-4000-8000-000000000025","kind":"result","build":5,"outcome":"success"}
< {"reply":"noted"}
"#;

/// What is told and answered in the beginning of this name.
pub(crate) fn beginning(rt: &impl Abort, name: &str) -> &'static str {
    for beginning in BEGINNINGS.split("\n# ") {
        let (title, rest) = beginning.split_once('\n').unwrap_or((beginning, ""));
        let (_comes_to, talk) = rest.split_once('\n').unwrap_or((rest, ""));
        if title == name {
            return talk.trim_end();
        }
    }
    panic!(rt; "no beginning: {name}")
}
