//! Repeated deliveries, over two queues.
use crate::scenes::plays;

const SCENES: &str = r#"
# a refused delivery may be sent again
Its id is not spent: sent again, it is looked at anew.
gate core 2 1 and web

> {"id":"00000000-0000-4000-8000-000000000001","kind":"approved","change":101,"revision":1}
< {"code":"E5","error":"unknown-change"}
> {"id":"00000000-0000-4000-8000-000000000002","kind":"revision","change":101,"project":"lib","revision":1,"message":""}
< {"reply":"recorded"}
> {"id":"00000000-0000-4000-8000-000000000001","kind":"approved","change":101,"revision":1}
< {"order":1,"reply":"queued"}

status
queue core window 2 landed 0
     1       101    1      - ok      unit=waiting docs=waiting
queue web window 2 landed 0
end

# a repeat gets the kept reply
Ids are compared by value, and deliveries by what they say.
gate core 2 1 and web

> {"id":"00000000-0000-4000-8000-000000000001","kind":"revision","change":101,"project":"lib","revision":1,"message":""}
< {"reply":"recorded"}
> {"id":"00000000-0000-4000-8000-000000000002","kind":"revision","change":102,"project":"app","revision":1,"message":""}
< {"reply":"recorded"}
> {"id":"0a000000-0000-4000-8000-000000000002","kind":"approved","change":101,"revision":1}
< {"order":1,"reply":"queued"}
> {"id":"0A000000-0000-4000-8000-000000000002","kind":"approved","change":101,"revision":1}
< {"order":1,"reply":"queued"}
> {"id":"00000000-0000-4000-8000-000000000003","kind":"approved","change":102,"revision":1}
< {"order":2,"reply":"queued"}

status
queue core window 2 landed 0
     1       101    1      - ok      unit=waiting docs=waiting
     2       102    1      1 ok      unit=waiting
queue web window 2 landed 0
end

> {"id":"0a000000-0000-4000-8000-000000000002","kind":"approved","change":101,"revision":2}
< {"code":"E4","error":"id-reused"}
> {"id":"0a000000-0000-4000-8000-000000000002","kind":"approved","change":101,"revision":1,"x":1}
< {"order":1,"reply":"queued"}
> {"id":"{0a000000-0000-4000-8000-000000000002}","revision":1, "change":101, "kind":"approved"}
< {"order":1,"reply":"queued"}
> {"id":"0a000000-0000-4000-8000-000000000002","kind":"approved","change":103,"revision":1}
< {"code":"E4","error":"id-reused"}

status
queue core window 2 landed 0
     1       101    1      - ok      unit=waiting docs=waiting
     2       102    1      1 ok      unit=waiting
queue web window 2 landed 0
end

# a stale delivery stays stale
Its reply is kept too: the repeat takes nothing out, though a new delivery of the same would.
gate core 2 1 and web

> {"id":"00000000-0000-4000-8000-000000000001","kind":"revision","change":101,"project":"lib","revision":1,"message":""}
< {"reply":"recorded"}
> {"id":"00000000-0000-4000-8000-000000000002","kind":"withdrawn","change":101,"revision":1}
< {"reply":"stale"}
> {"id":"00000000-0000-4000-8000-000000000003","kind":"approved","change":101,"revision":1}
< {"order":1,"reply":"queued"}
> {"id":"00000000-0000-4000-8000-000000000002","kind":"withdrawn","change":101,"revision":1}
< {"reply":"stale"}

status
queue core window 2 landed 0
     1       101    1      - ok      unit=waiting docs=waiting
queue web window 2 landed 0
end

# a repeated take gives the same build
Under the same id and worker; another worker cannot use the id.
gate core 2 1 and web

> {"id":"00000000-0000-4000-8000-000000000001","kind":"revision","change":101,"project":"lib","revision":1,"message":""}
< {"reply":"recorded"}
> {"id":"00000000-0000-4000-8000-000000000002","kind":"approved","change":101,"revision":1}
< {"order":1,"reply":"queued"}
> {"id":"00000000-0000-4000-8000-000000000003","kind":"take","worker":"w1"}
< {"after":0,"ahead":[],"build":1,"change":101,"job":"unit","queue":"core","reply":"build","revision":1}
> {"id":"00000000-0000-4000-8000-000000000003","kind":"take","worker":"w1"}
< {"after":0,"ahead":[],"build":1,"change":101,"job":"unit","queue":"core","reply":"build","revision":1}
> {"id":"00000000-0000-4000-8000-000000000004","kind":"take","worker":"w1"}
< {"after":0,"ahead":[],"build":2,"change":101,"job":"docs","queue":"core","reply":"build","revision":1}
> {"id":"00000000-0000-4000-8000-000000000003","kind":"take","worker":"w1"}
< {"after":0,"ahead":[],"build":1,"change":101,"job":"unit","queue":"core","reply":"build","revision":1}
> {"id":"00000000-0000-4000-8000-000000000003","kind":"take","worker":"w2"}
< {"code":"E4","error":"id-reused"}
> {"id":"00000000-0000-4000-8000-000000000005","kind":"result","build":1,"outcome":"success"}
< {"reply":"noted"}
> {"id":"00000000-0000-4000-8000-000000000003","kind":"take","worker":"w1"}
< {"after":0,"ahead":[],"build":1,"change":101,"job":"unit","queue":"core","reply":"build","revision":1}

status
queue core window 2 landed 0
     1       101    1      - ok      unit=success docs=running
queue web window 2 landed 0
end
"#;

#[test]
fn repeats(rt: HostRuntime) {
    plays(&rt, SCENES);
}
