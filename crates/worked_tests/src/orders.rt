//! Orders: when they are shown, and how they are answered.
use crate::scenes::plays;

const SCENES: &str = r#"
# an order is shown until it is answered
The failing item before it leaves, and the order stays. It is answered once, under its own number.
gate core 2 1 and web

tells three taken

tells first failed

> {"id":"0c000000-0000-4000-8000-000000000001","kind":"result","build":4,"outcome":"success"}
< {"reply":"noted"}

orders
[{"change":102,"order":2,"project":"app","queue":"core","revision":1}]

> {"id":"0c000000-0000-4000-8000-000000000002","kind":"take","worker":"w1"}
< {"code":"E12","error":"idle"}
> {"id":"0c000000-0000-4000-8000-000000000003","kind":"result","build":2,"outcome":"success"}
< {"reply":"noted"}

status
queue core window 1 landed 0
     2       102    1      - ok      unit=success
     3       103    1      2 ok      unit=waiting docs=waiting
queue web window 2 landed 0
end

orders
[{"change":102,"order":2,"project":"app","queue":"core","revision":1}]

> {"id":"0c000000-0000-4000-8000-000000000004","kind":"landed","order":1}
< {"code":"E10","error":"no-order"}
> {"id":"0c000000-0000-4000-8000-000000000005","kind":"landed","order":2}
< {"n":1,"reply":"landed"}
> {"id":"0c000000-0000-4000-8000-000000000006","kind":"landed","order":2}
< {"code":"E10","error":"no-order"}
> {"id":"0c000000-0000-4000-8000-000000000007","kind":"approved","change":102,"revision":1}
< {"reply":"stale"}

orders
[]

status
queue core window 2 landed 1
     3       103    1      - ok      unit=waiting docs=waiting
queue web window 2 landed 0
end

# a change whose order is shown cannot be taken back
Not withdrawn, not closed, and no new revision, until the forge has answered. The refusals spend no id.
gate core 2 1 and web

> {"id":"00000000-0000-4000-8000-000000000001","kind":"revision","change":101,"project":"lib","revision":1,"message":""}
< {"reply":"recorded"}
> {"id":"00000000-0000-4000-8000-000000000002","kind":"approved","change":101,"revision":1}
< {"order":1,"reply":"queued"}
> {"id":"00000000-0000-4000-8000-000000000003","kind":"take","worker":"w1"}
< {"after":0,"ahead":[],"build":1,"change":101,"job":"unit","queue":"core","reply":"build","revision":1}
> {"id":"00000000-0000-4000-8000-000000000004","kind":"take","worker":"w1"}
< {"after":0,"ahead":[],"build":2,"change":101,"job":"docs","queue":"core","reply":"build","revision":1}
> {"id":"00000000-0000-4000-8000-000000000005","kind":"result","build":1,"outcome":"success"}
< {"reply":"noted"}
> {"id":"00000000-0000-4000-8000-000000000006","kind":"result","build":2,"outcome":"success"}
< {"reply":"noted"}

> {"id":"00000000-0000-4000-8000-000000000007","kind":"withdrawn","change":101,"revision":1}
< {"code":"E9","error":"submitting"}
> {"id":"00000000-0000-4000-8000-000000000008","kind":"revision","change":101,"project":"lib","revision":2,"message":""}
< {"code":"E9","error":"submitting"}
> {"id":"00000000-0000-4000-8000-000000000009","kind":"closed","change":101,"revision":1}
< {"code":"E9","error":"submitting"}
> {"id":"00000000-0000-4000-8000-000000000010","kind":"revision","change":101,"project":"lib","revision":1,"message":""}
< {"reply":"stale"}
> {"id":"00000000-0000-4000-8000-000000000011","kind":"approved","change":101,"revision":1}
< {"reply":"already"}

orders
[{"change":101,"order":1,"project":"lib","queue":"core","revision":1}]

> {"id":"00000000-0000-4000-8000-000000000012","kind":"refused","order":1}
< {"reply":"removed"}

orders
[]

status
queue core window 1 landed 0
queue web window 2 landed 0
end

> {"id":"00000000-0000-4000-8000-000000000008","kind":"revision","change":101,"project":"lib","revision":2,"message":""}
< {"reply":"recorded"}
> {"id":"00000000-0000-4000-8000-000000000007","kind":"withdrawn","change":101,"revision":1}
< {"reply":"stale"}
> {"id":"00000000-0000-4000-8000-000000000009","kind":"closed","change":101,"revision":1}
< {"reply":"stale"}

# no order is shown behind an undecided item
All jobs of the second item have ended, and it waits for the first one.
gate core 2 1 and web

tells two taken

> {"id":"0b000000-0000-4000-8000-000000000001","kind":"result","build":3,"outcome":"success"}
< {"reply":"noted"}
> {"id":"0b000000-0000-4000-8000-000000000002","kind":"landed","order":2}
< {"code":"E10","error":"no-order"}
> {"id":"0b000000-0000-4000-8000-000000000003","kind":"refused","order":2}
< {"code":"E10","error":"no-order"}

orders
[]

status
queue core window 2 landed 0
     1       101    1      - ok      unit=running docs=running
     2       102    1      1 ok      unit=success
queue web window 2 landed 0
end

# a refused order resets the items behind it
The second item succeeded behind a change that did not land.
gate core 2 1 and web

tells two taken

> {"id":"0b000000-0000-4000-8000-000000000001","kind":"result","build":1,"outcome":"success"}
< {"reply":"noted"}
> {"id":"0b000000-0000-4000-8000-000000000002","kind":"result","build":2,"outcome":"success"}
< {"reply":"noted"}
> {"id":"0b000000-0000-4000-8000-000000000003","kind":"result","build":3,"outcome":"success"}
< {"reply":"noted"}
> {"id":"0b000000-0000-4000-8000-000000000004","kind":"refused","order":1}
< {"reply":"removed"}
> {"id":"0b000000-0000-4000-8000-000000000005","kind":"landed","order":2}
< {"code":"E10","error":"no-order"}
> {"id":"0b000000-0000-4000-8000-000000000006","kind":"take","worker":"w1"}
< {"after":0,"ahead":[],"build":4,"change":102,"job":"unit","queue":"core","reply":"build","revision":1}

orders
[]

status
queue core window 1 landed 0
     2       102    1      - ok      unit=running
queue web window 2 landed 0
end

# each queue shows its order
In the order of the settings, and each queue counts its own landings.
gate core 2 1 and web

> {"id":"00000000-0000-4000-8000-000000000001","kind":"revision","change":301,"project":"site","revision":1,"message":""}
< {"reply":"recorded"}
> {"id":"00000000-0000-4000-8000-000000000002","kind":"revision","change":102,"project":"app","revision":1,"message":""}
< {"reply":"recorded"}
> {"id":"00000000-0000-4000-8000-000000000003","kind":"approved","change":301,"revision":1}
< {"order":1,"reply":"queued"}
> {"id":"00000000-0000-4000-8000-000000000004","kind":"approved","change":102,"revision":1}
< {"order":2,"reply":"queued"}
> {"id":"00000000-0000-4000-8000-000000000005","kind":"take","worker":"w1"}
< {"after":0,"ahead":[],"build":1,"change":102,"job":"unit","queue":"core","reply":"build","revision":1}
> {"id":"00000000-0000-4000-8000-000000000006","kind":"take","worker":"w1"}
< {"after":0,"ahead":[],"build":2,"change":301,"job":"unit","queue":"web","reply":"build","revision":1}
> {"id":"00000000-0000-4000-8000-000000000007","kind":"result","build":2,"outcome":"success"}
< {"reply":"noted"}
> {"id":"00000000-0000-4000-8000-000000000008","kind":"result","build":1,"outcome":"success"}
< {"reply":"noted"}

orders
[{"change":102,"order":2,"project":"app","queue":"core","revision":1},{"change":301,"order":1,"project":"site","queue":"web","revision":1}]

> {"id":"00000000-0000-4000-8000-000000000009","kind":"landed","order":1}
< {"n":1,"reply":"landed"}
> {"id":"00000000-0000-4000-8000-000000000010","kind":"landed","order":2}
< {"n":1,"reply":"landed"}

status
queue core window 3 landed 1
queue web window 3 landed 1
end
"#;

#[test]
fn orders(rt: HostRuntime) {
    plays(&rt, SCENES);
}
