//! What leaves a queue with a change that it needs.
use crate::scenes::plays;

const SCENES: &str = r#"
# what needs a failed change leaves with it
It gets no more builds before, and the window is halved once, for the failed one.
gate core 4 1 and web

> {"id":"00000000-0000-4000-8000-000000000001","kind":"revision","change":101,"project":"lib","revision":1,"message":""}
< {"reply":"recorded"}
> {"id":"00000000-0000-4000-8000-000000000002","kind":"revision","change":102,"project":"app","revision":1,"message":"Depends-On: https://forge/c/101"}
< {"reply":"recorded"}
> {"id":"00000000-0000-4000-8000-000000000003","kind":"approved","change":101,"revision":1}
< {"order":1,"reply":"queued"}
> {"id":"00000000-0000-4000-8000-000000000004","kind":"approved","change":102,"revision":1}
< {"order":2,"reply":"queued"}
> {"id":"00000000-0000-4000-8000-000000000005","kind":"take","worker":"w1"}
< {"after":0,"ahead":[],"build":1,"change":101,"job":"unit","queue":"core","reply":"build","revision":1}
> {"id":"00000000-0000-4000-8000-000000000006","kind":"take","worker":"w1"}
< {"after":0,"ahead":[],"build":2,"change":101,"job":"docs","queue":"core","reply":"build","revision":1}
> {"id":"00000000-0000-4000-8000-000000000007","kind":"take","worker":"w1"}
< {"after":0,"ahead":[[101,1]],"build":3,"change":102,"job":"unit","queue":"core","reply":"build","revision":1}
> {"id":"00000000-0000-4000-8000-000000000008","kind":"result","build":1,"outcome":"failure"}
< {"reply":"noted"}

status
queue core window 4 landed 0
     1       101    1      - failing unit=failure docs=running
     2       102    1      - blocked unit=waiting
queue web window 2 landed 0
end

build 3
{"after":0,"ahead":[[101,1]],"build":3,"change":102,"job":"unit","live":false,"outcome":"running","queue":"core","revision":1}

> {"id":"00000000-0000-4000-8000-000000000009","kind":"take","worker":"w1"}
< {"code":"E12","error":"idle"}
> {"id":"00000000-0000-4000-8000-000000000010","kind":"result","build":2,"outcome":"success"}
< {"reply":"noted"}

status
queue core window 2 landed 0
queue web window 2 landed 0
end

> {"id":"00000000-0000-4000-8000-000000000011","kind":"approved","change":102,"revision":1}
< {"reply":"waiting"}

status
queue core window 2 landed 0
queue web window 2 landed 0
waiting 102 1
end

# a landing lets those behind it leave
The failed item leaves, and the last one that needs it; the one between them keeps its builds. Four changes are queued
in a window of 4, each of their jobs is given to a worker, and the last needs the second.
gate core 4 1 and web

> {"id":"0a000000-0000-4000-8000-000000000001","kind":"revision","change":101,"project":"lib","revision":1,"message":""}
< {"reply":"recorded"}
> {"id":"0a000000-0000-4000-8000-000000000002","kind":"revision","change":102,"project":"app","revision":1,"message":""}
< {"reply":"recorded"}
> {"id":"0a000000-0000-4000-8000-000000000003","kind":"revision","change":103,"project":"lib","revision":1,"message":""}
< {"reply":"recorded"}
> {"id":"0a000000-0000-4000-8000-000000000004","kind":"revision","change":104,"project":"app","revision":1,"message":"Depends-On: https://forge/c/102"}
< {"reply":"recorded"}
> {"id":"0a000000-0000-4000-8000-000000000005","kind":"approved","change":101,"revision":1}
< {"order":1,"reply":"queued"}
> {"id":"0a000000-0000-4000-8000-000000000006","kind":"approved","change":102,"revision":1}
< {"order":2,"reply":"queued"}
> {"id":"0a000000-0000-4000-8000-000000000007","kind":"approved","change":103,"revision":1}
< {"order":3,"reply":"queued"}
> {"id":"0a000000-0000-4000-8000-000000000008","kind":"approved","change":104,"revision":1}
< {"order":4,"reply":"queued"}
> {"id":"0a000000-0000-4000-8000-000000000009","kind":"take","worker":"w1"}
< {"after":0,"ahead":[],"build":1,"change":101,"job":"unit","queue":"core","reply":"build","revision":1}
> {"id":"0a000000-0000-4000-8000-000000000010","kind":"take","worker":"w1"}
< {"after":0,"ahead":[],"build":2,"change":101,"job":"docs","queue":"core","reply":"build","revision":1}
> {"id":"0a000000-0000-4000-8000-000000000011","kind":"take","worker":"w1"}
< {"after":0,"ahead":[[101,1]],"build":3,"change":102,"job":"unit","queue":"core","reply":"build","revision":1}
> {"id":"0a000000-0000-4000-8000-000000000012","kind":"take","worker":"w1"}
< {"after":0,"ahead":[[101,1],[102,1]],"build":4,"change":103,"job":"unit","queue":"core","reply":"build","revision":1}
> {"id":"0a000000-0000-4000-8000-000000000013","kind":"take","worker":"w1"}
< {"after":0,"ahead":[[101,1],[102,1]],"build":5,"change":103,"job":"docs","queue":"core","reply":"build","revision":1}
> {"id":"0a000000-0000-4000-8000-000000000014","kind":"take","worker":"w1"}
< {"after":0,"ahead":[[101,1],[102,1],[103,1]],"build":6,"change":104,"job":"unit","queue":"core","reply":"build","revision":1}

> {"id":"0b000000-0000-4000-8000-000000000001","kind":"result","build":3,"outcome":"failure"}
< {"reply":"noted"}

status
queue core window 4 landed 0
     1       101    1      - ok      unit=running docs=running
     2       102    1      1 failing unit=failure
     3       103    1      1 ok      unit=waiting docs=waiting
     4       104    1      3 blocked unit=waiting
queue web window 2 landed 0
end

> {"id":"0b000000-0000-4000-8000-000000000002","kind":"take","worker":"w1"}
< {"after":0,"ahead":[[101,1]],"build":7,"change":103,"job":"unit","queue":"core","reply":"build","revision":1}
> {"id":"0b000000-0000-4000-8000-000000000003","kind":"take","worker":"w1"}
< {"after":0,"ahead":[[101,1]],"build":8,"change":103,"job":"docs","queue":"core","reply":"build","revision":1}
> {"id":"0b000000-0000-4000-8000-000000000004","kind":"take","worker":"w1"}
< {"code":"E12","error":"idle"}
> {"id":"0b000000-0000-4000-8000-000000000005","kind":"result","build":1,"outcome":"success"}
< {"reply":"noted"}
> {"id":"0b000000-0000-4000-8000-000000000006","kind":"result","build":2,"outcome":"success"}
< {"reply":"noted"}

> {"id":"0b000000-0000-4000-8000-000000000007","kind":"landed","order":1}
< {"n":1,"reply":"landed"}

status
queue core window 2 landed 1
     3       103    1      - ok      unit=running docs=running
queue web window 2 landed 0
end

> {"id":"0b000000-0000-4000-8000-000000000008","kind":"result","build":7,"outcome":"success"}
< {"reply":"noted"}
> {"id":"0b000000-0000-4000-8000-000000000009","kind":"result","build":8,"outcome":"success"}
< {"reply":"noted"}

orders
[{"change":103,"order":3,"project":"lib","queue":"core","revision":1}]

history core
history core
     1      1       101    1 landed          1
     2      2       102    1 failed          -
     3      4       104    1 needs           -
end 3

# what needs a failing item fails as it enters
gate core 2 1 and web

> {"id":"00000000-0000-4000-8000-000000000001","kind":"revision","change":101,"project":"app","revision":1,"message":""}
< {"reply":"recorded"}
> {"id":"00000000-0000-4000-8000-000000000002","kind":"revision","change":102,"project":"app","revision":1,"message":""}
< {"reply":"recorded"}
> {"id":"00000000-0000-4000-8000-000000000003","kind":"revision","change":103,"project":"app","revision":1,"message":"Depends-On: https://forge/c/102"}
< {"reply":"recorded"}
> {"id":"00000000-0000-4000-8000-000000000004","kind":"revision","change":104,"project":"app","revision":1,"message":"Depends-On: https://forge/c/105"}
< {"reply":"recorded"}
> {"id":"00000000-0000-4000-8000-000000000005","kind":"approved","change":101,"revision":1}
< {"order":1,"reply":"queued"}
> {"id":"00000000-0000-4000-8000-000000000006","kind":"approved","change":102,"revision":1}
< {"order":2,"reply":"queued"}
> {"id":"00000000-0000-4000-8000-000000000007","kind":"take","worker":"w1"}
< {"after":0,"ahead":[],"build":1,"change":101,"job":"unit","queue":"core","reply":"build","revision":1}
> {"id":"00000000-0000-4000-8000-000000000008","kind":"take","worker":"w1"}
< {"after":0,"ahead":[[101,1]],"build":2,"change":102,"job":"unit","queue":"core","reply":"build","revision":1}
> {"id":"00000000-0000-4000-8000-000000000009","kind":"result","build":2,"outcome":"failure"}
< {"reply":"noted"}
> {"id":"00000000-0000-4000-8000-000000000010","kind":"approved","change":103,"revision":1}
< {"order":3,"reply":"queued"}
> {"id":"00000000-0000-4000-8000-000000000011","kind":"approved","change":104,"revision":1}
< {"reply":"waiting"}

status
queue core window 2 landed 0
     1       101    1      - ok      unit=running
     2       102    1      1 failing unit=failure
     3       103    1      1 blocked unit=waiting
queue web window 2 landed 0
waiting 104 1
end

# what needs a withdrawn change leaves with it
And what needs that in turn. They have to be approved again, and the window stays.
gate core 2 1 and web

> {"id":"00000000-0000-4000-8000-000000000001","kind":"revision","change":101,"project":"lib","revision":1,"message":""}
< {"reply":"recorded"}
> {"id":"00000000-0000-4000-8000-000000000002","kind":"revision","change":102,"project":"app","revision":1,"message":"Depends-On: https://forge/c/101"}
< {"reply":"recorded"}
> {"id":"00000000-0000-4000-8000-000000000003","kind":"revision","change":103,"project":"lib","revision":1,"message":"Depends-On: https://forge/c/102"}
< {"reply":"recorded"}
> {"id":"00000000-0000-4000-8000-000000000004","kind":"approved","change":101,"revision":1}
< {"order":1,"reply":"queued"}
> {"id":"00000000-0000-4000-8000-000000000005","kind":"approved","change":102,"revision":1}
< {"order":2,"reply":"queued"}
> {"id":"00000000-0000-4000-8000-000000000006","kind":"approved","change":103,"revision":1}
< {"order":3,"reply":"queued"}
> {"id":"00000000-0000-4000-8000-000000000007","kind":"withdrawn","change":101,"revision":1}
< {"reply":"removed"}
> {"id":"00000000-0000-4000-8000-000000000008","kind":"approved","change":101,"revision":1}
< {"order":4,"reply":"queued"}

status
queue core window 2 landed 0
     4       101    1      - ok      unit=waiting docs=waiting
queue web window 2 landed 0
end
"#;

#[test]
fn dependents(rt: HostRuntime) {
    plays(&rt, SCENES);
}
