//! Who stands where in two queues: what is built next, which orders are shown, and what the texts say.
use crate::scenes::plays;

const SCENES: &str = r#"
# what stands in two queues is built, shown and told apart
The failing item takes up a place in a window of 2. An order is shown once each job has ended, also one that doesn't
vote; no other number is one of an order, and only what is shown can't be withdrawn.
gate core 1 1 and web

tells one failing

> {"id":"0b000000-0000-4000-8000-000000000001","kind":"take","worker":"w1"}
< {"after":0,"ahead":[],"build":7,"change":201,"job":"unit","queue":"web","reply":"build","revision":1}
> {"id":"0b000000-0000-4000-8000-000000000002","kind":"result","build":7,"outcome":"success"}
< {"reply":"noted"}

orders
[{"change":201,"order":4,"project":"site","queue":"web","revision":1}]

> {"id":"0b000000-0000-4000-8000-000000000003","kind":"landed","order":1}
< {"code":"E10","error":"no-order"}
> {"id":"0b000000-0000-4000-8000-000000000004","kind":"landed","order":2}
< {"code":"E10","error":"no-order"}
> {"id":"0b000000-0000-4000-8000-000000000005","kind":"landed","order":3}
< {"code":"E10","error":"no-order"}
> {"id":"0b000000-0000-4000-8000-000000000006","kind":"landed","order":5}
< {"code":"E10","error":"no-order"}
> {"id":"0b000000-0000-4000-8000-000000000007","kind":"landed","order":6}
< {"code":"E10","error":"no-order"}
> {"id":"0b000000-0000-4000-8000-000000000008","kind":"landed","order":7}
< {"code":"E10","error":"no-order"}
> {"id":"0b000000-0000-4000-8000-000000000009","kind":"withdrawn","change":201,"revision":1}
< {"code":"E9","error":"submitting"}
> {"id":"0b000000-0000-4000-8000-000000000010","kind":"approved","change":103,"revision":1}
< {"reply":"already"}
> {"id":"0b000000-0000-4000-8000-000000000011","kind":"approved","change":202,"revision":1}
< {"reply":"already"}
> {"id":"0b000000-0000-4000-8000-000000000012","kind":"approved","change":104,"revision":1}
< {"reply":"already"}
> {"id":"0b000000-0000-4000-8000-000000000013","kind":"approved","change":100,"revision":1}
< {"reply":"stale"}
> {"id":"0b000000-0000-4000-8000-000000000014","kind":"approved","change":999,"revision":1}
< {"code":"E5","error":"unknown-change"}
> {"id":"0b000000-0000-4000-8000-000000000015","kind":"revision","change":105,"project":"app","revision":12,"message":"Depends-On: https://forge/c/101"}
< {"reply":"recorded"}
> {"id":"0b000000-0000-4000-8000-000000000016","kind":"approved","change":105,"revision":12}
< {"order":7,"reply":"queued"}

status
queue core window 2 landed 1
     2       101    1      - failing unit=failure docs=running
     3       102    1      - ok      unit=success docs=running
     5       103    1      3 ok      unit=waiting docs=waiting
     7       105   12      5 blocked unit=waiting
queue web window 2 landed 0
     4       201    1      - ok      unit=success
     6       202    1      4 ok      unit=waiting
waiting 104 1
end

> {"id":"0b000000-0000-4000-8000-000000000017","kind":"result","build":6,"outcome":"failure"}
< {"reply":"noted"}

orders
[{"change":102,"order":3,"project":"lib","queue":"core","revision":1},{"change":201,"order":4,"project":"site","queue":"web","revision":1}]

build 5
{"after":1,"ahead":[],"build":5,"change":102,"job":"unit","live":true,"outcome":"success","queue":"core","revision":1}

build 8
none

> {"id":"0b000000-0000-4000-8000-000000000018","kind":"take","worker":"w1"}
< {"after":0,"ahead":[[201,1]],"build":8,"change":202,"job":"unit","queue":"web","reply":"build","revision":1}
> {"id":"0b000000-0000-4000-8000-000000000019","kind":"take","worker":"w1"}
< {"code":"E12","error":"idle"}
> {"id":"0b000000-0000-4000-8000-000000000020","kind":"withdrawn","change":102,"revision":1}
< {"code":"E9","error":"submitting"}
> {"id":"0b000000-0000-4000-8000-000000000021","kind":"withdrawn","change":101,"revision":1}
< {"reply":"removed"}
> {"id":"0b000000-0000-4000-8000-000000000022","kind":"withdrawn","change":202,"revision":1}
< {"reply":"removed"}
> {"id":"0b000000-0000-4000-8000-000000000023","kind":"withdrawn","change":104,"revision":1}
< {"reply":"recorded"}
> {"id":"0b000000-0000-4000-8000-000000000024","kind":"withdrawn","change":100,"revision":1}
< {"reply":"stale"}

status
queue core window 2 landed 1
     3       102    1      - ok      unit=success docs=failure
     5       103    1      3 ok      unit=waiting docs=waiting
queue web window 2 landed 0
     4       201    1      - ok      unit=success
end

history core
history core
     1      1       100    1 landed          1
     2      2       101    1 withdrawn       -
     3      7       105   12 needs           -
end 3

history web
history web
     1      6       202    1 withdrawn       -
end 1

# a failing item stands in no line
What is ahead of 103 is 102 alone, on the one landing of its queue. The window has no end.
gate core 0 1 and web

tells one failing

> {"id":"0b000000-0000-4000-8000-000000000001","kind":"take","worker":"w1"}
< {"after":1,"ahead":[[102,1]],"build":7,"change":103,"job":"unit","queue":"core","reply":"build","revision":1}

# a window of 3 ends behind the third item
While a job of 102 runs, its order isn't shown, and it can be withdrawn.
gate core 2 1 and web

tells one failing

> {"id":"0b000000-0000-4000-8000-000000000001","kind":"take","worker":"w1"}
< {"after":1,"ahead":[[102,1]],"build":7,"change":103,"job":"unit","queue":"core","reply":"build","revision":1}
> {"id":"0b000000-0000-4000-8000-000000000002","kind":"withdrawn","change":102,"revision":1}
< {"reply":"removed"}

status
queue core window 3 landed 1
     2       101    1      - failing unit=failure docs=running
     5       103    1      - ok      unit=waiting docs=waiting
queue web window 2 landed 0
     4       201    1      - ok      unit=waiting
     6       202    1      4 ok      unit=waiting
waiting 104 1
end
"#;

#[test]
fn standing(rt: HostRuntime) {
    plays(&rt, SCENES);
}
