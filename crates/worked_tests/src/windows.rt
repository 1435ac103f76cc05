//! Windows: how many items of a queue are tested at once, what halves that, and what doesn't.
use crate::scenes::plays;

const SCENES: &str = r#"
# a failing item holds its place in the window
The third item is beyond a window of 2, though the first one fails.
gate core 2 1 and web

tells three taken

tells first failed

> {"id":"0c000000-0000-4000-8000-000000000001","kind":"take","worker":"w1"}
< {"code":"E12","error":"idle"}

# a window of 0 has no end
It stays 0, after failures and landings.
gate core 0 1 and web

> {"id":"00000000-0000-4000-8000-000000000001","kind":"revision","change":102,"project":"app","revision":1,"message":""}
< {"reply":"recorded"}
> {"id":"00000000-0000-4000-8000-000000000002","kind":"revision","change":104,"project":"app","revision":1,"message":""}
< {"reply":"recorded"}
> {"id":"00000000-0000-4000-8000-000000000003","kind":"revision","change":105,"project":"app","revision":1,"message":""}
< {"reply":"recorded"}
> {"id":"00000000-0000-4000-8000-000000000004","kind":"approved","change":102,"revision":1}
< {"order":1,"reply":"queued"}
> {"id":"00000000-0000-4000-8000-000000000005","kind":"approved","change":104,"revision":1}
< {"order":2,"reply":"queued"}
> {"id":"00000000-0000-4000-8000-000000000006","kind":"approved","change":105,"revision":1}
< {"order":3,"reply":"queued"}
> {"id":"00000000-0000-4000-8000-000000000007","kind":"take","worker":"w1"}
< {"after":0,"ahead":[],"build":1,"change":102,"job":"unit","queue":"core","reply":"build","revision":1}
> {"id":"00000000-0000-4000-8000-000000000008","kind":"take","worker":"w1"}
< {"after":0,"ahead":[[102,1]],"build":2,"change":104,"job":"unit","queue":"core","reply":"build","revision":1}
> {"id":"00000000-0000-4000-8000-000000000009","kind":"take","worker":"w1"}
< {"after":0,"ahead":[[102,1],[104,1]],"build":3,"change":105,"job":"unit","queue":"core","reply":"build","revision":1}
> {"id":"00000000-0000-4000-8000-000000000010","kind":"take","worker":"w1"}
< {"code":"E12","error":"idle"}
> {"id":"00000000-0000-4000-8000-000000000011","kind":"result","build":1,"outcome":"failure"}
< {"reply":"noted"}

status
queue core window 0 landed 0
     2       104    1      - ok      unit=waiting
     3       105    1      2 ok      unit=waiting
queue web window 2 landed 0
end

> {"id":"00000000-0000-4000-8000-000000000012","kind":"take","worker":"w1"}
< {"after":0,"ahead":[],"build":4,"change":104,"job":"unit","queue":"core","reply":"build","revision":1}
> {"id":"00000000-0000-4000-8000-000000000013","kind":"take","worker":"w1"}
< {"after":0,"ahead":[[104,1]],"build":5,"change":105,"job":"unit","queue":"core","reply":"build","revision":1}
> {"id":"00000000-0000-4000-8000-000000000014","kind":"result","build":4,"outcome":"success"}
< {"reply":"noted"}
> {"id":"00000000-0000-4000-8000-000000000015","kind":"landed","order":2}
< {"n":1,"reply":"landed"}

status
queue core window 0 landed 1
     3       105    1      - ok      unit=running
queue web window 2 landed 0
end

# a window is halved down to its floor
5 is halved to 3 where the floor is 3, and stays there.
gate core 5 3 and web

> {"id":"00000000-0000-4000-8000-000000000001","kind":"revision","change":102,"project":"app","revision":1,"message":""}
< {"reply":"recorded"}
> {"id":"00000000-0000-4000-8000-000000000002","kind":"revision","change":104,"project":"app","revision":1,"message":""}
< {"reply":"recorded"}
> {"id":"00000000-0000-4000-8000-000000000003","kind":"approved","change":102,"revision":1}
< {"order":1,"reply":"queued"}
> {"id":"00000000-0000-4000-8000-000000000004","kind":"approved","change":104,"revision":1}
< {"order":2,"reply":"queued"}
> {"id":"00000000-0000-4000-8000-000000000005","kind":"take","worker":"w1"}
< {"after":0,"ahead":[],"build":1,"change":102,"job":"unit","queue":"core","reply":"build","revision":1}
> {"id":"00000000-0000-4000-8000-000000000006","kind":"result","build":1,"outcome":"failure"}
< {"reply":"noted"}

status
queue core window 3 landed 0
     2       104    1      - ok      unit=waiting
queue web window 2 landed 0
end

> {"id":"00000000-0000-4000-8000-000000000007","kind":"take","worker":"w1"}
< {"after":0,"ahead":[],"build":2,"change":104,"job":"unit","queue":"core","reply":"build","revision":1}
> {"id":"00000000-0000-4000-8000-000000000008","kind":"result","build":2,"outcome":"failure"}
< {"reply":"noted"}

status
queue core window 3 landed 0
queue web window 2 landed 0
end

# a window grows up to 1000
By one for each landing.
gate core 999 1 and web

> {"id":"00000000-0000-4000-8000-000000000001","kind":"revision","change":102,"project":"app","revision":1,"message":""}
< {"reply":"recorded"}
> {"id":"00000000-0000-4000-8000-000000000002","kind":"revision","change":104,"project":"app","revision":1,"message":""}
< {"reply":"recorded"}
> {"id":"00000000-0000-4000-8000-000000000003","kind":"approved","change":102,"revision":1}
< {"order":1,"reply":"queued"}
> {"id":"00000000-0000-4000-8000-000000000004","kind":"approved","change":104,"revision":1}
< {"order":2,"reply":"queued"}
> {"id":"00000000-0000-4000-8000-000000000005","kind":"take","worker":"w1"}
< {"after":0,"ahead":[],"build":1,"change":102,"job":"unit","queue":"core","reply":"build","revision":1}
> {"id":"00000000-0000-4000-8000-000000000006","kind":"take","worker":"w1"}
< {"after":0,"ahead":[[102,1]],"build":2,"change":104,"job":"unit","queue":"core","reply":"build","revision":1}
> {"id":"00000000-0000-4000-8000-000000000007","kind":"result","build":1,"outcome":"success"}
< {"reply":"noted"}
> {"id":"00000000-0000-4000-8000-000000000008","kind":"landed","order":1}
< {"n":1,"reply":"landed"}

status
queue core window 1000 landed 1
     2       104    1      - ok      unit=running
queue web window 2 landed 0
end

> {"id":"00000000-0000-4000-8000-000000000009","kind":"result","build":2,"outcome":"success"}
< {"reply":"noted"}
> {"id":"00000000-0000-4000-8000-000000000010","kind":"landed","order":2}
< {"n":2,"reply":"landed"}

status
queue core window 1000 landed 2
queue web window 2 landed 0
end

# what is taken back leaves the window as it is
A refused order halves it; a withdrawal, a closing or a new revision does not.
gate core 4 1 and web

> {"id":"00000000-0000-4000-8000-000000000001","kind":"revision","change":102,"project":"app","revision":1,"message":""}
< {"reply":"recorded"}
> {"id":"00000000-0000-4000-8000-000000000002","kind":"revision","change":104,"project":"app","revision":1,"message":""}
< {"reply":"recorded"}
> {"id":"00000000-0000-4000-8000-000000000003","kind":"revision","change":105,"project":"app","revision":1,"message":""}
< {"reply":"recorded"}
> {"id":"00000000-0000-4000-8000-000000000004","kind":"revision","change":106,"project":"app","revision":1,"message":""}
< {"reply":"recorded"}
> {"id":"00000000-0000-4000-8000-000000000005","kind":"approved","change":102,"revision":1}
< {"order":1,"reply":"queued"}
> {"id":"00000000-0000-4000-8000-000000000006","kind":"approved","change":104,"revision":1}
< {"order":2,"reply":"queued"}
> {"id":"00000000-0000-4000-8000-000000000007","kind":"approved","change":105,"revision":1}
< {"order":3,"reply":"queued"}
> {"id":"00000000-0000-4000-8000-000000000008","kind":"approved","change":106,"revision":1}
< {"order":4,"reply":"queued"}
> {"id":"00000000-0000-4000-8000-000000000009","kind":"take","worker":"w1"}
< {"after":0,"ahead":[],"build":1,"change":102,"job":"unit","queue":"core","reply":"build","revision":1}
> {"id":"00000000-0000-4000-8000-000000000010","kind":"result","build":1,"outcome":"success"}
< {"reply":"noted"}
> {"id":"00000000-0000-4000-8000-000000000011","kind":"refused","order":1}
< {"reply":"removed"}

status
queue core window 2 landed 0
     2       104    1      - ok      unit=waiting
     3       105    1      2 ok      unit=waiting
     4       106    1      3 ok      unit=waiting
queue web window 2 landed 0
end

> {"id":"00000000-0000-4000-8000-000000000012","kind":"withdrawn","change":104,"revision":1}
< {"reply":"removed"}
> {"id":"00000000-0000-4000-8000-000000000013","kind":"closed","change":105,"revision":1}
< {"reply":"removed"}
> {"id":"00000000-0000-4000-8000-000000000014","kind":"revision","change":106,"project":"app","revision":2,"message":""}
< {"reply":"recorded"}

status
queue core window 2 landed 0
queue web window 2 landed 0
end

# a landing may halve the window twice
The window grows from 5 to 6 first, and is then halved for each failed item that leaves. The last item is beyond it
then, and keeps its build.
gate core 5 1 and web

> {"id":"00000000-0000-4000-8000-000000000001","kind":"revision","change":102,"project":"app","revision":1,"message":""}
< {"reply":"recorded"}
> {"id":"00000000-0000-4000-8000-000000000002","kind":"revision","change":104,"project":"app","revision":1,"message":""}
< {"reply":"recorded"}
> {"id":"00000000-0000-4000-8000-000000000003","kind":"revision","change":105,"project":"app","revision":1,"message":""}
< {"reply":"recorded"}
> {"id":"00000000-0000-4000-8000-000000000004","kind":"revision","change":106,"project":"app","revision":1,"message":""}
< {"reply":"recorded"}
> {"id":"00000000-0000-4000-8000-000000000005","kind":"revision","change":107,"project":"app","revision":1,"message":""}
< {"reply":"recorded"}
> {"id":"00000000-0000-4000-8000-000000000006","kind":"approved","change":102,"revision":1}
< {"order":1,"reply":"queued"}
> {"id":"00000000-0000-4000-8000-000000000007","kind":"approved","change":104,"revision":1}
< {"order":2,"reply":"queued"}
> {"id":"00000000-0000-4000-8000-000000000008","kind":"approved","change":105,"revision":1}
< {"order":3,"reply":"queued"}
> {"id":"00000000-0000-4000-8000-000000000009","kind":"approved","change":106,"revision":1}
< {"order":4,"reply":"queued"}
> {"id":"00000000-0000-4000-8000-000000000010","kind":"approved","change":107,"revision":1}
< {"order":5,"reply":"queued"}
> {"id":"00000000-0000-4000-8000-000000000011","kind":"take","worker":"w1"}
< {"after":0,"ahead":[],"build":1,"change":102,"job":"unit","queue":"core","reply":"build","revision":1}
> {"id":"00000000-0000-4000-8000-000000000012","kind":"take","worker":"w1"}
< {"after":0,"ahead":[[102,1]],"build":2,"change":104,"job":"unit","queue":"core","reply":"build","revision":1}
> {"id":"00000000-0000-4000-8000-000000000013","kind":"result","build":2,"outcome":"failure"}
< {"reply":"noted"}
> {"id":"00000000-0000-4000-8000-000000000014","kind":"take","worker":"w1"}
< {"after":0,"ahead":[[102,1]],"build":3,"change":105,"job":"unit","queue":"core","reply":"build","revision":1}
> {"id":"00000000-0000-4000-8000-000000000015","kind":"result","build":3,"outcome":"failure"}
< {"reply":"noted"}
> {"id":"00000000-0000-4000-8000-000000000016","kind":"take","worker":"w1"}
< {"after":0,"ahead":[[102,1]],"build":4,"change":106,"job":"unit","queue":"core","reply":"build","revision":1}
> {"id":"00000000-0000-4000-8000-000000000017","kind":"take","worker":"w1"}
< {"after":0,"ahead":[[102,1],[106,1]],"build":5,"change":107,"job":"unit","queue":"core","reply":"build","revision":1}

status
queue core window 5 landed 0
     1       102    1      - ok      unit=running
     2       104    1      1 failing unit=failure
     3       105    1      1 failing unit=failure
     4       106    1      1 ok      unit=running
     5       107    1      4 ok      unit=running
queue web window 2 landed 0
end

> {"id":"00000000-0000-4000-8000-000000000018","kind":"result","build":1,"outcome":"success"}
< {"reply":"noted"}
> {"id":"00000000-0000-4000-8000-000000000019","kind":"landed","order":1}
< {"n":1,"reply":"landed"}

status
queue core window 1 landed 1
     4       106    1      - ok      unit=running
     5       107    1      4 ok      unit=running
queue web window 2 landed 0
end
"#;

#[test]
fn windows(rt: HostRuntime) {
    plays(&rt, SCENES);
}
