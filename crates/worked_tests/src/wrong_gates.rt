//! For some gates that are wrong in one thing, a scene that ends otherwise with them. Each has the name of the wrong
//! gate on which it fails.
use crate::scenes::plays;

const SCENES: &str = r#"
# a gate that lands on a success from before a failure
The second change succeeded behind the first one, which failed then: it has to succeed without it.
gate core 2 1 and web

tells two taken

> {"id":"0b000000-0000-4000-8000-000000000001","kind":"result","build":3,"outcome":"success"}
< {"reply":"noted"}
> {"id":"0b000000-0000-4000-8000-000000000002","kind":"result","build":1,"outcome":"failure"}
< {"reply":"noted"}
> {"id":"0b000000-0000-4000-8000-000000000003","kind":"result","build":2,"outcome":"success"}
< {"reply":"noted"}
> {"id":"0b000000-0000-4000-8000-000000000004","kind":"landed","order":2}
< {"code":"E10","error":"no-order"}
> {"id":"0b000000-0000-4000-8000-000000000005","kind":"take","worker":"w1"}
< {"after":0,"ahead":[],"build":4,"change":102,"job":"unit","queue":"core","reply":"build","revision":1}

orders
[]

status
queue core window 1 landed 0
     2       102    1      - ok      unit=running
queue web window 2 landed 0
end

# a gate that resets builds behind a landing
The build of the second change is wanted as before.
gate core 2 1 and web

tells two taken

> {"id":"0b000000-0000-4000-8000-000000000001","kind":"result","build":1,"outcome":"success"}
< {"reply":"noted"}
> {"id":"0b000000-0000-4000-8000-000000000002","kind":"result","build":2,"outcome":"success"}
< {"reply":"noted"}
> {"id":"0b000000-0000-4000-8000-000000000003","kind":"landed","order":1}
< {"n":1,"reply":"landed"}
> {"id":"0b000000-0000-4000-8000-000000000004","kind":"result","build":3,"outcome":"success"}
< {"reply":"noted"}

orders
[{"change":102,"order":2,"project":"app","queue":"core","revision":1}]

# a gate that is always idle
Each job within the window is given to a worker.
gate core 2 1 and web

tells two taken

# a gate that never lands
A change that has passed its jobs lands.
gate core 2 1 and web

> {"id":"00000000-0000-4000-8000-000000000001","kind":"revision","change":102,"project":"app","revision":1,"message":""}
< {"reply":"recorded"}
> {"id":"00000000-0000-4000-8000-000000000002","kind":"approved","change":102,"revision":1}
< {"order":1,"reply":"queued"}
> {"id":"00000000-0000-4000-8000-000000000003","kind":"take","worker":"w1"}
< {"after":0,"ahead":[],"build":1,"change":102,"job":"unit","queue":"core","reply":"build","revision":1}
> {"id":"00000000-0000-4000-8000-000000000004","kind":"result","build":1,"outcome":"success"}
< {"reply":"noted"}
> {"id":"00000000-0000-4000-8000-000000000005","kind":"landed","order":1}
< {"n":1,"reply":"landed"}

status
queue core window 3 landed 1
queue web window 2 landed 0
end

# a gate that is always unavailable
Deliveries of all eight kinds are accepted.
gate core 2 1 and web

> {"id":"00000000-0000-4000-8000-000000000001","kind":"revision","change":102,"project":"app","revision":1,"message":""}
< {"reply":"recorded"}
> {"id":"00000000-0000-4000-8000-000000000002","kind":"approved","change":102,"revision":1}
< {"order":1,"reply":"queued"}
> {"id":"00000000-0000-4000-8000-000000000003","kind":"take","worker":"w1"}
< {"after":0,"ahead":[],"build":1,"change":102,"job":"unit","queue":"core","reply":"build","revision":1}
> {"id":"00000000-0000-4000-8000-000000000004","kind":"result","build":1,"outcome":"success"}
< {"reply":"noted"}
> {"id":"00000000-0000-4000-8000-000000000005","kind":"landed","order":1}
< {"n":1,"reply":"landed"}
> {"id":"00000000-0000-4000-8000-000000000006","kind":"revision","change":104,"project":"app","revision":1,"message":""}
< {"reply":"recorded"}
> {"id":"00000000-0000-4000-8000-000000000007","kind":"approved","change":104,"revision":1}
< {"order":2,"reply":"queued"}
> {"id":"00000000-0000-4000-8000-000000000008","kind":"take","worker":"w1"}
< {"after":1,"ahead":[],"build":2,"change":104,"job":"unit","queue":"core","reply":"build","revision":1}
> {"id":"00000000-0000-4000-8000-000000000009","kind":"result","build":2,"outcome":"success"}
< {"reply":"noted"}
> {"id":"00000000-0000-4000-8000-000000000010","kind":"refused","order":2}
< {"reply":"removed"}
> {"id":"00000000-0000-4000-8000-000000000011","kind":"approved","change":104,"revision":1}
< {"order":3,"reply":"queued"}
> {"id":"00000000-0000-4000-8000-000000000012","kind":"withdrawn","change":104,"revision":1}
< {"reply":"removed"}
> {"id":"00000000-0000-4000-8000-000000000013","kind":"closed","change":104,"revision":1}
< {"reply":"recorded"}

orders
[]

status
queue core window 1 landed 1
queue web window 2 landed 0
end
"#;

#[test]
fn wrong_gates(rt: HostRuntime) {
    plays(&rt, SCENES);
}
