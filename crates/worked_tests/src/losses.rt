//! Lost builds: a job is tried three times.
use crate::scenes::plays;

const SCENES: &str = r#"
# a lost build is tried three times
A job whose build is lost waits again; the third loss fails it. Only what runs stops being live when its item leaves:
the last build stays so.
gate core 2 1 and web

> {"id":"00000000-0000-4000-8000-000000000001","kind":"revision","change":102,"project":"app","revision":1,"message":""}
< {"reply":"recorded"}
> {"id":"00000000-0000-4000-8000-000000000002","kind":"approved","change":102,"revision":1}
< {"order":1,"reply":"queued"}
> {"id":"00000000-0000-4000-8000-000000000003","kind":"take","worker":"w1"}
< {"after":0,"ahead":[],"build":1,"change":102,"job":"unit","queue":"core","reply":"build","revision":1}
> {"id":"00000000-0000-4000-8000-000000000004","kind":"result","build":1,"outcome":"lost"}
< {"reply":"noted"}
> {"id":"00000000-0000-4000-8000-000000000005","kind":"take","worker":"w1"}
< {"after":0,"ahead":[],"build":2,"change":102,"job":"unit","queue":"core","reply":"build","revision":1}
> {"id":"00000000-0000-4000-8000-000000000006","kind":"result","build":2,"outcome":"lost"}
< {"reply":"noted"}
> {"id":"00000000-0000-4000-8000-000000000007","kind":"take","worker":"w1"}
< {"after":0,"ahead":[],"build":3,"change":102,"job":"unit","queue":"core","reply":"build","revision":1}

status
queue core window 2 landed 0
     1       102    1      - ok      unit=running
queue web window 2 landed 0
end

> {"id":"00000000-0000-4000-8000-000000000008","kind":"result","build":3,"outcome":"lost"}
< {"reply":"noted"}
> {"id":"00000000-0000-4000-8000-000000000009","kind":"take","worker":"w1"}
< {"code":"E12","error":"idle"}

status
queue core window 1 landed 0
queue web window 2 landed 0
end

build 3
{"after":0,"ahead":[],"build":3,"change":102,"job":"unit","live":true,"outcome":"lost","queue":"core","revision":1}

# losses with other changes ahead do not count
Two builds are lost behind a change, and one without it: the job is tried again.
gate core 2 1 and web

tells two taken

> {"id":"0b000000-0000-4000-8000-000000000001","kind":"result","build":3,"outcome":"lost"}
< {"reply":"noted"}
> {"id":"0b000000-0000-4000-8000-000000000002","kind":"take","worker":"w1"}
< {"after":0,"ahead":[[101,1]],"build":4,"change":102,"job":"unit","queue":"core","reply":"build","revision":1}
> {"id":"0b000000-0000-4000-8000-000000000003","kind":"result","build":4,"outcome":"lost"}
< {"reply":"noted"}
> {"id":"0b000000-0000-4000-8000-000000000004","kind":"result","build":1,"outcome":"failure"}
< {"reply":"noted"}
> {"id":"0b000000-0000-4000-8000-000000000005","kind":"take","worker":"w1"}
< {"after":0,"ahead":[],"build":5,"change":102,"job":"unit","queue":"core","reply":"build","revision":1}
> {"id":"0b000000-0000-4000-8000-000000000006","kind":"result","build":5,"outcome":"lost"}
< {"reply":"noted"}
> {"id":"0b000000-0000-4000-8000-000000000007","kind":"take","worker":"w1"}
< {"after":0,"ahead":[],"build":6,"change":102,"job":"unit","queue":"core","reply":"build","revision":1}

status
queue core window 2 landed 0
     1       101    1      - failing unit=failure docs=running
     2       102    1      - ok      unit=running
queue web window 2 landed 0
end
"#;

#[test]
fn losses(rt: HostRuntime) {
    plays(&rt, SCENES);
}
