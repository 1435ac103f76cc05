//! The last numbers: nothing is drawn past 10^15.
use crate::scenes::plays;

const SCENES: &str = r#"
# no order is drawn past the last
The approval is refused, and the change is not ready.
gate core 2 1 and web in memory after order 1000000000000000

> {"id":"00000000-0000-4000-8000-000000000001","kind":"revision","change":101,"project":"lib","revision":1,"message":""}
< {"reply":"recorded"}
> {"id":"00000000-0000-4000-8000-000000000002","kind":"approved","change":101,"revision":1}
< {"code":"E14","error":"exhausted"}
> {"id":"00000000-0000-4000-8000-000000000003","kind":"withdrawn","change":101,"revision":1}
< {"reply":"stale"}

status
queue core window 2 landed 0
queue web window 2 landed 0
end

# the last order is drawn
A number longer than its places takes what it needs.
gate core 2 1 and web in memory after order 999999999999999

> {"id":"00000000-0000-4000-8000-000000000001","kind":"revision","change":101,"project":"lib","revision":1,"message":""}
< {"reply":"recorded"}
> {"id":"00000000-0000-4000-8000-000000000002","kind":"approved","change":101,"revision":1}
< {"order":1000000000000000,"reply":"queued"}

status
queue core window 2 landed 0
1000000000000000       101    1      - ok      unit=waiting docs=waiting
queue web window 2 landed 0
end

# an approval that waits draws no order
A change that waits for another is accepted, though no order is left.
gate core 2 1 and web in memory after order 1000000000000000

> {"id":"00000000-0000-4000-8000-000000000001","kind":"revision","change":101,"project":"lib","revision":1,"message":""}
< {"reply":"recorded"}
> {"id":"00000000-0000-4000-8000-000000000002","kind":"revision","change":102,"project":"app","revision":1,"message":"Depends-On: https://forge/c/101"}
< {"reply":"recorded"}
> {"id":"00000000-0000-4000-8000-000000000003","kind":"approved","change":102,"revision":1}
< {"reply":"waiting"}
> {"id":"00000000-0000-4000-8000-000000000004","kind":"approved","change":101,"revision":1}
< {"code":"E14","error":"exhausted"}

status
queue core window 2 landed 0
queue web window 2 landed 0
waiting 102 1
end

# an approval is refused where another order would be drawn
One order is left, and the approval would let two changes in.
gate core 2 1 and web in memory after order 999999999999999

> {"id":"00000000-0000-4000-8000-000000000001","kind":"revision","change":101,"project":"lib","revision":1,"message":""}
< {"reply":"recorded"}
> {"id":"00000000-0000-4000-8000-000000000002","kind":"revision","change":102,"project":"app","revision":1,"message":"Depends-On: https://forge/c/101"}
< {"reply":"recorded"}
> {"id":"00000000-0000-4000-8000-000000000003","kind":"approved","change":102,"revision":1}
< {"reply":"waiting"}
> {"id":"00000000-0000-4000-8000-000000000004","kind":"approved","change":101,"revision":1}
< {"code":"E14","error":"exhausted"}

status
queue core window 2 landed 0
queue web window 2 landed 0
waiting 102 1
end

# a landing is refused where an order would be drawn
It would let a waiting change in. Once that is closed, the landing is accepted.
gate core 2 1 and web in memory after order 999999999999999

> {"id":"00000000-0000-4000-8000-000000000001","kind":"revision","change":101,"project":"lib","revision":1,"message":""}
< {"reply":"recorded"}
> {"id":"00000000-0000-4000-8000-000000000002","kind":"revision","change":301,"project":"site","revision":1,"message":"Depends-On: https://forge/c/101"}
< {"reply":"recorded"}
> {"id":"00000000-0000-4000-8000-000000000003","kind":"approved","change":301,"revision":1}
< {"reply":"waiting"}
> {"id":"00000000-0000-4000-8000-000000000004","kind":"approved","change":101,"revision":1}
< {"order":1000000000000000,"reply":"queued"}
> {"id":"00000000-0000-4000-8000-000000000005","kind":"take","worker":"w1"}
< {"after":0,"ahead":[],"build":1,"change":101,"job":"unit","queue":"core","reply":"build","revision":1}
> {"id":"00000000-0000-4000-8000-000000000006","kind":"take","worker":"w1"}
< {"after":0,"ahead":[],"build":2,"change":101,"job":"docs","queue":"core","reply":"build","revision":1}
> {"id":"00000000-0000-4000-8000-000000000007","kind":"result","build":1,"outcome":"success"}
< {"reply":"noted"}
> {"id":"00000000-0000-4000-8000-000000000008","kind":"result","build":2,"outcome":"success"}
< {"reply":"noted"}
> {"id":"00000000-0000-4000-8000-000000000009","kind":"landed","order":1000000000000000}
< {"code":"E14","error":"exhausted"}

orders
[{"change":101,"order":1000000000000000,"project":"lib","queue":"core","revision":1}]

status
queue core window 2 landed 0
1000000000000000       101    1      - ok      unit=success docs=success
queue web window 2 landed 0
waiting 301 1
end

> {"id":"00000000-0000-4000-8000-000000000010","kind":"closed","change":301,"revision":1}
< {"reply":"recorded"}
> {"id":"00000000-0000-4000-8000-000000000011","kind":"landed","order":1000000000000000}
< {"n":1,"reply":"landed"}

orders
[]

# no build is drawn past the last
The gate is idle where nothing waits, and exhausted where something does.
gate core 2 1 and web in memory after build 999999999999999

> {"id":"00000000-0000-4000-8000-000000000001","kind":"take","worker":"w1"}
< {"code":"E12","error":"idle"}
> {"id":"00000000-0000-4000-8000-000000000002","kind":"revision","change":101,"project":"lib","revision":1,"message":""}
< {"reply":"recorded"}
> {"id":"00000000-0000-4000-8000-000000000003","kind":"approved","change":101,"revision":1}
< {"order":1,"reply":"queued"}
> {"id":"00000000-0000-4000-8000-000000000004","kind":"take","worker":"w1"}
< {"after":0,"ahead":[],"build":1000000000000000,"change":101,"job":"unit","queue":"core","reply":"build","revision":1}
> {"id":"00000000-0000-4000-8000-000000000005","kind":"take","worker":"w1"}
< {"code":"E14","error":"exhausted"}
> {"id":"00000000-0000-4000-8000-000000000006","kind":"result","build":1000000000000000,"outcome":"success"}
< {"reply":"noted"}
> {"id":"00000000-0000-4000-8000-000000000007","kind":"take","worker":"w1"}
< {"code":"E14","error":"exhausted"}

build 1000000000000000
{"after":0,"ahead":[],"build":1000000000000000,"change":101,"job":"unit","live":true,"outcome":"success","queue":"core","revision":1}

status
queue core window 2 landed 0
     1       101    1      - ok      unit=success docs=waiting
queue web window 2 landed 0
end

# no approval is drawn past the last
What would draw none is answered as ever.
gate core 2 1 and web in memory after approval 999999999999999

> {"id":"00000000-0000-4000-8000-000000000001","kind":"revision","change":101,"project":"lib","revision":1,"message":""}
< {"reply":"recorded"}
> {"id":"00000000-0000-4000-8000-000000000002","kind":"revision","change":102,"project":"app","revision":1,"message":""}
< {"reply":"recorded"}
> {"id":"00000000-0000-4000-8000-000000000003","kind":"approved","change":101,"revision":1}
< {"order":1,"reply":"queued"}
> {"id":"00000000-0000-4000-8000-000000000004","kind":"approved","change":102,"revision":1}
< {"code":"E14","error":"exhausted"}
> {"id":"00000000-0000-4000-8000-000000000005","kind":"approved","change":101,"revision":1}
< {"reply":"already"}

status
queue core window 2 landed 0
     1       101    1      - ok      unit=waiting docs=waiting
queue web window 2 landed 0
end
"#;

#[test]
fn counters(rt: HostRuntime) {
    plays(&rt, SCENES);
}
