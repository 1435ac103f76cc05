//! Landings: what lands, behind what, and what is kept behind it.
use crate::scenes::plays;

const SCENES: &str = r#"
# a change lands past a failing one
The failing item stays until its last job has ended; then it leaves, and the window is halved. After a writer failed
within the history the gate goes on.
gate core 2 1 and web

tells three taken

tells first failed

> {"id":"0c000000-0000-4000-8000-000000000001","kind":"result","build":4,"outcome":"success"}
< {"reply":"noted"}

orders
[{"change":102,"order":2,"project":"app","queue":"core","revision":1}]

> {"id":"0c000000-0000-4000-8000-000000000002","kind":"landed","order":2}
< {"n":1,"reply":"landed"}

status
queue core window 3 landed 1
     1       101    1      - failing unit=failure docs=running
     3       103    1      - ok      unit=waiting docs=waiting
queue web window 2 landed 0
end

> {"id":"0c000000-0000-4000-8000-000000000003","kind":"result","build":2,"outcome":"success"}
< {"reply":"noted"}

status
queue core window 1 landed 1
     3       103    1      - ok      unit=waiting docs=waiting
queue web window 2 landed 0
end

history core up to byte 20
history core
     1      2       102    1 landed          1

> {"id":"0c000000-0000-4000-8000-000000000004","kind":"take","worker":"w1"}
< {"after":1,"ahead":[],"build":5,"change":103,"job":"unit","queue":"core","reply":"build","revision":1}

history core
history core
     1      2       102    1 landed          1
     2      1       101    1 failed          -
end 2

history web
history web
end 0

history nope
none

# a change lands though a job that does not vote failed
It waits for its voting job all the same.
gate core 2 1 and web

> {"id":"00000000-0000-4000-8000-000000000001","kind":"revision","change":101,"project":"lib","revision":1,"message":""}
< {"reply":"recorded"}
> {"id":"00000000-0000-4000-8000-000000000002","kind":"approved","change":101,"revision":1}
< {"order":1,"reply":"queued"}
> {"id":"00000000-0000-4000-8000-000000000003","kind":"take","worker":"w1"}
< {"after":0,"ahead":[],"build":1,"change":101,"job":"unit","queue":"core","reply":"build","revision":1}
> {"id":"00000000-0000-4000-8000-000000000004","kind":"take","worker":"w1"}
< {"after":0,"ahead":[],"build":2,"change":101,"job":"docs","queue":"core","reply":"build","revision":1}
> {"id":"00000000-0000-4000-8000-000000000005","kind":"result","build":2,"outcome":"failure"}
< {"reply":"noted"}

orders
[]

> {"id":"00000000-0000-4000-8000-000000000006","kind":"result","build":1,"outcome":"success"}
< {"reply":"noted"}

orders
[{"change":101,"order":1,"project":"lib","queue":"core","revision":1}]

> {"id":"0d000000-0000-4000-8000-000000000001","kind":"landed","order":1}
< {"n":1,"reply":"landed"}

status
queue core window 3 landed 1
queue web window 2 landed 0
end

orders
[]

# a change waits for a job that does not vote
No order is shown, and none can be answered, while it runs.
gate core 2 1 and web

> {"id":"00000000-0000-4000-8000-000000000001","kind":"revision","change":101,"project":"lib","revision":1,"message":""}
< {"reply":"recorded"}
> {"id":"00000000-0000-4000-8000-000000000002","kind":"approved","change":101,"revision":1}
< {"order":1,"reply":"queued"}
> {"id":"00000000-0000-4000-8000-000000000003","kind":"take","worker":"w1"}
< {"after":0,"ahead":[],"build":1,"change":101,"job":"unit","queue":"core","reply":"build","revision":1}
> {"id":"00000000-0000-4000-8000-000000000004","kind":"take","worker":"w1"}
< {"after":0,"ahead":[],"build":2,"change":101,"job":"docs","queue":"core","reply":"build","revision":1}
> {"id":"00000000-0000-4000-8000-000000000005","kind":"result","build":1,"outcome":"success"}
< {"reply":"noted"}
> {"id":"00000000-0000-4000-8000-000000000006","kind":"landed","order":1}
< {"code":"E10","error":"no-order"}

orders
[]

> {"id":"00000000-0000-4000-8000-000000000007","kind":"result","build":2,"outcome":"success"}
< {"reply":"noted"}

orders
[{"change":101,"order":1,"project":"lib","queue":"core","revision":1}]

> {"id":"0d000000-0000-4000-8000-000000000001","kind":"landed","order":1}
< {"n":1,"reply":"landed"}

# a landing keeps the builds behind it
What was ahead has landed: the build ran on the same changes.
gate core 2 1 and web

tells two taken

> {"id":"0b000000-0000-4000-8000-000000000001","kind":"result","build":1,"outcome":"success"}
< {"reply":"noted"}
> {"id":"0b000000-0000-4000-8000-000000000002","kind":"result","build":2,"outcome":"success"}
< {"reply":"noted"}
> {"id":"0b000000-0000-4000-8000-000000000003","kind":"landed","order":1}
< {"n":1,"reply":"landed"}

status
queue core window 3 landed 1
     2       102    1      - ok      unit=running
queue web window 2 landed 0
end

> {"id":"0b000000-0000-4000-8000-000000000004","kind":"result","build":3,"outcome":"success"}
< {"reply":"noted"}

orders
[{"change":102,"order":2,"project":"app","queue":"core","revision":1}]

> {"id":"0b000000-0000-4000-8000-000000000005","kind":"landed","order":2}
< {"n":2,"reply":"landed"}

status
queue core window 4 landed 2
queue web window 2 landed 0
end

# changes land one after the other
A landing is told once; told again under its id it gets the kept reply, under another id it is refused.
gate core 2 1 and web

tells two taken

tells both landed

status
queue core window 4 landed 2
queue web window 2 landed 0
end

# a build counts the landings before it
A new item is built on all that has landed.
gate core 2 1 and web

tells two taken

tells both landed

> {"id":"0c000000-0000-4000-8000-000000000001","kind":"revision","change":103,"project":"lib","revision":1,"message":""}
< {"reply":"recorded"}
> {"id":"0c000000-0000-4000-8000-000000000002","kind":"approved","change":103,"revision":1}
< {"order":3,"reply":"queued"}
> {"id":"0c000000-0000-4000-8000-000000000003","kind":"take","worker":"w1"}
< {"after":2,"ahead":[],"build":4,"change":103,"job":"unit","queue":"core","reply":"build","revision":1}
"#;

#[test]
fn landings(rt: HostRuntime) {
    plays(&rt, SCENES);
}
