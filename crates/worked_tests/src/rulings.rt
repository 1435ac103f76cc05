//! What one delivery of each kind does to a queue behind a landing.
use crate::scenes::plays;

const SCENES: &str = r#"
# a new revision takes an item out of its queue
Its build stops, and the revision is queued anew behind what it needs.
gate core 3 1 and web

tells three behind a landing

> {"id":"0b000000-0000-4000-8000-000000000001","kind":"revision","change":102,"project":"app","revision":2,"message":"Depends-On: https://forge/c/101"}
< {"reply":"recorded"}

build 3
{"after":1,"ahead":[[101,1]],"build":3,"change":102,"job":"unit","live":false,"outcome":"running","queue":"core","revision":1}

status
queue core window 4 landed 1
     2       101    1      - ok      unit=success
     4       105    1      2 ok      unit=waiting
queue web window 2 landed 0
waiting 103 1
end

history core
history core
     1      1       100    1 landed          1
     2      3       102    1 superseded      -
end 2

> {"id":"0b000000-0000-4000-8000-000000000002","kind":"approved","change":102,"revision":2}
< {"order":5,"reply":"queued"}

# a withdrawn change gives up its place
One is queued, one waits, one is neither, and the order of one is shown.
gate core 3 1 and web

tells three behind a landing

> {"id":"0b000000-0000-4000-8000-000000000001","kind":"withdrawn","change":102,"revision":1}
< {"reply":"removed"}
> {"id":"0b000000-0000-4000-8000-000000000002","kind":"withdrawn","change":103,"revision":1}
< {"reply":"recorded"}
> {"id":"0b000000-0000-4000-8000-000000000003","kind":"withdrawn","change":104,"revision":1}
< {"reply":"stale"}
> {"id":"0b000000-0000-4000-8000-000000000004","kind":"withdrawn","change":101,"revision":1}
< {"code":"E9","error":"submitting"}

build 3
{"after":1,"ahead":[[101,1]],"build":3,"change":102,"job":"unit","live":false,"outcome":"running","queue":"core","revision":1}

status
queue core window 4 landed 1
     2       101    1      - ok      unit=success
     4       105    1      2 ok      unit=waiting
queue web window 2 landed 0
end

history core
history core
     1      1       100    1 landed          1
     2      3       102    1 withdrawn       -
end 2

# a closed change gives up its place
One is queued, one waits, one has landed, and the order of one is shown.
gate core 3 1 and web

tells three behind a landing

> {"id":"0b000000-0000-4000-8000-000000000001","kind":"closed","change":105,"revision":1}
< {"reply":"removed"}
> {"id":"0b000000-0000-4000-8000-000000000002","kind":"closed","change":103,"revision":1}
< {"reply":"recorded"}
> {"id":"0b000000-0000-4000-8000-000000000003","kind":"closed","change":100,"revision":1}
< {"reply":"stale"}
> {"id":"0b000000-0000-4000-8000-000000000004","kind":"closed","change":101,"revision":1}
< {"code":"E9","error":"submitting"}

build 3
{"after":1,"ahead":[[101,1]],"build":3,"change":102,"job":"unit","live":true,"outcome":"running","queue":"core","revision":1}

status
queue core window 4 landed 1
     2       101    1      - ok      unit=success
     3       102    1      2 ok      unit=running
queue web window 2 landed 0
end

history core
history core
     1      1       100    1 landed          1
     2      4       105    1 closed          -
end 2

> {"id":"0b000000-0000-4000-8000-000000000005","kind":"approved","change":105,"revision":1}
< {"reply":"stale"}
> {"id":"0b000000-0000-4000-8000-000000000006","kind":"approved","change":103,"revision":1}
< {"reply":"stale"}

# a landed order grows the window
gate core 3 1 and web

tells three behind a landing

> {"id":"0b000000-0000-4000-8000-000000000001","kind":"landed","order":2}
< {"n":2,"reply":"landed"}

status
queue core window 5 landed 2
     3       102    1      - ok      unit=running
     4       105    1      3 ok      unit=waiting
queue web window 2 landed 0
waiting 103 1
end

history core
history core
     1      1       100    1 landed          1
     2      2       101    1 landed          2
end 2

# a refused order shrinks the window
gate core 3 1 and web

tells three behind a landing

> {"id":"0b000000-0000-4000-8000-000000000001","kind":"refused","order":2}
< {"reply":"removed"}

build 3
{"after":1,"ahead":[[101,1]],"build":3,"change":102,"job":"unit","live":false,"outcome":"running","queue":"core","revision":1}

status
queue core window 2 landed 1
     3       102    1      - ok      unit=waiting
     4       105    1      3 ok      unit=waiting
queue web window 2 landed 0
waiting 103 1
end

history core
history core
     1      1       100    1 landed          1
     2      2       101    1 refused         -
end 2

# a refused order leaves a window at its floor
gate core 1 1 and web

> {"id":"00000000-0000-4000-8000-000000000001","kind":"revision","change":101,"project":"app","revision":1,"message":""}
< {"reply":"recorded"}
> {"id":"00000000-0000-4000-8000-000000000002","kind":"approved","change":101,"revision":1}
< {"order":1,"reply":"queued"}
> {"id":"00000000-0000-4000-8000-000000000003","kind":"take","worker":"w1"}
< {"after":0,"ahead":[],"build":1,"change":101,"job":"unit","queue":"core","reply":"build","revision":1}
> {"id":"00000000-0000-4000-8000-000000000004","kind":"result","build":1,"outcome":"success"}
< {"reply":"noted"}
> {"id":"00000000-0000-4000-8000-000000000005","kind":"refused","order":1}
< {"reply":"removed"}

status
queue core window 1 landed 0
queue web window 2 landed 0
end

# what touches no item resets no build
A first revision, a known one, approvals, and answers to orders that are not shown.
gate core 3 1 and web

tells three behind a landing

> {"id":"0b000000-0000-4000-8000-000000000001","kind":"revision","change":106,"project":"app","revision":1,"message":""}
< {"reply":"recorded"}
> {"id":"0b000000-0000-4000-8000-000000000002","kind":"revision","change":101,"project":"app","revision":1,"message":""}
< {"reply":"stale"}
> {"id":"0b000000-0000-4000-8000-000000000003","kind":"approved","change":104,"revision":1}
< {"order":5,"reply":"queued"}
> {"id":"0b000000-0000-4000-8000-000000000004","kind":"approved","change":103,"revision":1}
< {"reply":"already"}
> {"id":"0b000000-0000-4000-8000-000000000005","kind":"approved","change":102,"revision":1}
< {"reply":"already"}
> {"id":"0b000000-0000-4000-8000-000000000006","kind":"approved","change":107,"revision":1}
< {"code":"E5","error":"unknown-change"}
> {"id":"0b000000-0000-4000-8000-000000000007","kind":"landed","order":3}
< {"code":"E10","error":"no-order"}
> {"id":"0b000000-0000-4000-8000-000000000008","kind":"refused","order":9}
< {"code":"E10","error":"no-order"}

status
queue core window 4 landed 1
     2       101    1      - ok      unit=success
     3       102    1      2 ok      unit=running
     4       105    1      3 ok      unit=waiting
     5       104    1      4 ok      unit=waiting
queue web window 2 landed 0
waiting 103 1
end

# a worker takes the next build, and a result is noted once
The build runs on what has landed and on all that is ahead.
gate core 3 1 and web

tells three behind a landing

> {"id":"0b000000-0000-4000-8000-000000000001","kind":"take","worker":"w1"}
< {"after":1,"ahead":[[101,1],[102,1]],"build":4,"change":105,"job":"unit","queue":"core","reply":"build","revision":1}
> {"id":"0b000000-0000-4000-8000-000000000002","kind":"result","build":3,"outcome":"failure"}
< {"reply":"noted"}
> {"id":"0b000000-0000-4000-8000-000000000003","kind":"result","build":2,"outcome":"failure"}
< {"reply":"stale"}
> {"id":"0b000000-0000-4000-8000-000000000004","kind":"result","build":5,"outcome":"lost"}
< {"code":"E11","error":"unknown-build"}

status
queue core window 4 landed 1
     2       101    1      - ok      unit=success
     3       102    1      2 failing unit=failure
     4       105    1      2 ok      unit=waiting
queue web window 2 landed 0
waiting 103 1
end
"#;

#[test]
fn rulings(rt: HostRuntime) {
    plays(&rt, SCENES);
}
