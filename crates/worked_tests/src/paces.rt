//! Rules of windows: how a queue's window grows and shrinks.
use crate::scenes::plays;

const SCENES: &str = r#"
# a window doubles and loses five
A landing doubles it; a failed item and a refused order cost five each. The other queue grows by one.
gate core 20 3 and web, core doubles and loses five

> {"id":"0b000000-0000-4000-8000-000000000001","kind":"revision","change":102,"project":"app","revision":1,"message":""}
< {"reply":"recorded"}
> {"id":"0b000000-0000-4000-8000-000000000002","kind":"revision","change":104,"project":"app","revision":1,"message":""}
< {"reply":"recorded"}
> {"id":"0b000000-0000-4000-8000-000000000003","kind":"revision","change":105,"project":"app","revision":1,"message":""}
< {"reply":"recorded"}
> {"id":"0b000000-0000-4000-8000-000000000004","kind":"approved","change":102,"revision":1}
< {"order":1,"reply":"queued"}
> {"id":"0b000000-0000-4000-8000-000000000005","kind":"approved","change":104,"revision":1}
< {"order":2,"reply":"queued"}
> {"id":"0b000000-0000-4000-8000-000000000006","kind":"approved","change":105,"revision":1}
< {"order":3,"reply":"queued"}
> {"id":"0b000000-0000-4000-8000-000000000007","kind":"revision","change":301,"project":"site","revision":1,"message":""}
< {"reply":"recorded"}
> {"id":"0b000000-0000-4000-8000-000000000008","kind":"approved","change":301,"revision":1}
< {"order":4,"reply":"queued"}
> {"id":"0b000000-0000-4000-8000-000000000009","kind":"take","worker":"w1"}
< {"after":0,"ahead":[],"build":1,"change":102,"job":"unit","queue":"core","reply":"build","revision":1}
> {"id":"0b000000-0000-4000-8000-000000000010","kind":"take","worker":"w1"}
< {"after":0,"ahead":[[102,1]],"build":2,"change":104,"job":"unit","queue":"core","reply":"build","revision":1}
> {"id":"0b000000-0000-4000-8000-000000000011","kind":"take","worker":"w1"}
< {"after":0,"ahead":[[102,1],[104,1]],"build":3,"change":105,"job":"unit","queue":"core","reply":"build","revision":1}
> {"id":"0b000000-0000-4000-8000-000000000012","kind":"take","worker":"w1"}
< {"after":0,"ahead":[],"build":4,"change":301,"job":"unit","queue":"web","reply":"build","revision":1}
> {"id":"0b000000-0000-4000-8000-000000000013","kind":"result","build":1,"outcome":"success"}
< {"reply":"noted"}
> {"id":"0b000000-0000-4000-8000-000000000014","kind":"landed","order":1}
< {"n":1,"reply":"landed"}

status
queue core window 40 landed 1
     2       104    1      - ok      unit=running
     3       105    1      2 ok      unit=running
queue web window 2 landed 0
     4       301    1      - ok      unit=running
end

> {"id":"0b000000-0000-4000-8000-000000000015","kind":"result","build":2,"outcome":"failure"}
< {"reply":"noted"}

status
queue core window 35 landed 1
     3       105    1      - ok      unit=waiting
queue web window 2 landed 0
     4       301    1      - ok      unit=running
end

> {"id":"0b000000-0000-4000-8000-000000000016","kind":"take","worker":"w1"}
< {"after":1,"ahead":[],"build":5,"change":105,"job":"unit","queue":"core","reply":"build","revision":1}
> {"id":"0b000000-0000-4000-8000-000000000017","kind":"result","build":5,"outcome":"success"}
< {"reply":"noted"}
> {"id":"0b000000-0000-4000-8000-000000000018","kind":"refused","order":3}
< {"reply":"removed"}

status
queue core window 30 landed 1
queue web window 2 landed 0
     4       301    1      - ok      unit=running
end

> {"id":"0b000000-0000-4000-8000-000000000019","kind":"result","build":4,"outcome":"success"}
< {"reply":"noted"}
> {"id":"0b000000-0000-4000-8000-000000000020","kind":"landed","order":4}
< {"n":1,"reply":"landed"}

status
queue core window 30 landed 1
queue web window 3 landed 1
end

# a window that loses five stops at its floor
gate core 6 3 and web, core doubles and loses five

> {"id":"0b000000-0000-4000-8000-000000000001","kind":"revision","change":102,"project":"app","revision":1,"message":""}
< {"reply":"recorded"}
> {"id":"0b000000-0000-4000-8000-000000000002","kind":"revision","change":104,"project":"app","revision":1,"message":""}
< {"reply":"recorded"}
> {"id":"0b000000-0000-4000-8000-000000000003","kind":"revision","change":105,"project":"app","revision":1,"message":""}
< {"reply":"recorded"}
> {"id":"0b000000-0000-4000-8000-000000000004","kind":"approved","change":102,"revision":1}
< {"order":1,"reply":"queued"}
> {"id":"0b000000-0000-4000-8000-000000000005","kind":"approved","change":104,"revision":1}
< {"order":2,"reply":"queued"}
> {"id":"0b000000-0000-4000-8000-000000000006","kind":"approved","change":105,"revision":1}
< {"order":3,"reply":"queued"}
> {"id":"0b000000-0000-4000-8000-000000000007","kind":"take","worker":"w1"}
< {"after":0,"ahead":[],"build":1,"change":102,"job":"unit","queue":"core","reply":"build","revision":1}
> {"id":"0b000000-0000-4000-8000-000000000008","kind":"result","build":1,"outcome":"failure"}
< {"reply":"noted"}

status
queue core window 3 landed 0
     2       104    1      - ok      unit=waiting
     3       105    1      2 ok      unit=waiting
queue web window 2 landed 0
end

> {"id":"0b000000-0000-4000-8000-000000000009","kind":"take","worker":"w1"}
< {"after":0,"ahead":[],"build":2,"change":104,"job":"unit","queue":"core","reply":"build","revision":1}
> {"id":"0b000000-0000-4000-8000-000000000010","kind":"result","build":2,"outcome":"failure"}
< {"reply":"noted"}

status
queue core window 3 landed 0
     3       105    1      - ok      unit=waiting
queue web window 2 landed 0
end

> {"id":"0b000000-0000-4000-8000-000000000011","kind":"take","worker":"w1"}
< {"after":0,"ahead":[],"build":3,"change":105,"job":"unit","queue":"core","reply":"build","revision":1}
> {"id":"0b000000-0000-4000-8000-000000000012","kind":"result","build":3,"outcome":"success"}
< {"reply":"noted"}
> {"id":"0b000000-0000-4000-8000-000000000013","kind":"landed","order":3}
< {"n":1,"reply":"landed"}

status
queue core window 6 landed 1
queue web window 2 landed 0
end

# a window doubles up to 1000
gate core 600 3 and web, core doubles and loses five

> {"id":"0b000000-0000-4000-8000-000000000001","kind":"revision","change":102,"project":"app","revision":1,"message":""}
< {"reply":"recorded"}
> {"id":"0b000000-0000-4000-8000-000000000002","kind":"revision","change":104,"project":"app","revision":1,"message":""}
< {"reply":"recorded"}
> {"id":"0b000000-0000-4000-8000-000000000003","kind":"revision","change":105,"project":"app","revision":1,"message":""}
< {"reply":"recorded"}
> {"id":"0b000000-0000-4000-8000-000000000004","kind":"approved","change":102,"revision":1}
< {"order":1,"reply":"queued"}
> {"id":"0b000000-0000-4000-8000-000000000005","kind":"approved","change":104,"revision":1}
< {"order":2,"reply":"queued"}
> {"id":"0b000000-0000-4000-8000-000000000006","kind":"approved","change":105,"revision":1}
< {"order":3,"reply":"queued"}
> {"id":"0b000000-0000-4000-8000-000000000007","kind":"take","worker":"w1"}
< {"after":0,"ahead":[],"build":1,"change":102,"job":"unit","queue":"core","reply":"build","revision":1}
> {"id":"0b000000-0000-4000-8000-000000000008","kind":"result","build":1,"outcome":"success"}
< {"reply":"noted"}
> {"id":"0b000000-0000-4000-8000-000000000009","kind":"landed","order":1}
< {"n":1,"reply":"landed"}

status
queue core window 1000 landed 1
     2       104    1      - ok      unit=waiting
     3       105    1      2 ok      unit=waiting
queue web window 2 landed 0
end

> {"id":"0b000000-0000-4000-8000-000000000010","kind":"take","worker":"w1"}
< {"after":1,"ahead":[],"build":2,"change":104,"job":"unit","queue":"core","reply":"build","revision":1}
> {"id":"0b000000-0000-4000-8000-000000000011","kind":"result","build":2,"outcome":"failure"}
< {"reply":"noted"}

status
queue core window 995 landed 1
     3       105    1      - ok      unit=waiting
queue web window 2 landed 0
end

# a window of 0 has no end under any rule
gate core 0 3 and web, core doubles and loses five

> {"id":"0b000000-0000-4000-8000-000000000001","kind":"revision","change":102,"project":"app","revision":1,"message":""}
< {"reply":"recorded"}
> {"id":"0b000000-0000-4000-8000-000000000002","kind":"revision","change":104,"project":"app","revision":1,"message":""}
< {"reply":"recorded"}
> {"id":"0b000000-0000-4000-8000-000000000003","kind":"revision","change":105,"project":"app","revision":1,"message":""}
< {"reply":"recorded"}
> {"id":"0b000000-0000-4000-8000-000000000004","kind":"approved","change":102,"revision":1}
< {"order":1,"reply":"queued"}
> {"id":"0b000000-0000-4000-8000-000000000005","kind":"approved","change":104,"revision":1}
< {"order":2,"reply":"queued"}
> {"id":"0b000000-0000-4000-8000-000000000006","kind":"approved","change":105,"revision":1}
< {"order":3,"reply":"queued"}
> {"id":"0b000000-0000-4000-8000-000000000007","kind":"take","worker":"w1"}
< {"after":0,"ahead":[],"build":1,"change":102,"job":"unit","queue":"core","reply":"build","revision":1}
> {"id":"0b000000-0000-4000-8000-000000000008","kind":"result","build":1,"outcome":"success"}
< {"reply":"noted"}
> {"id":"0b000000-0000-4000-8000-000000000009","kind":"landed","order":1}
< {"n":1,"reply":"landed"}
> {"id":"0b000000-0000-4000-8000-000000000010","kind":"take","worker":"w1"}
< {"after":1,"ahead":[],"build":2,"change":104,"job":"unit","queue":"core","reply":"build","revision":1}
> {"id":"0b000000-0000-4000-8000-000000000011","kind":"result","build":2,"outcome":"failure"}
< {"reply":"noted"}

status
queue core window 0 landed 1
     3       105    1      - ok      unit=waiting
queue web window 2 landed 0
end

> {"id":"0b000000-0000-4000-8000-000000000012","kind":"take","worker":"w1"}
< {"after":1,"ahead":[],"build":3,"change":105,"job":"unit","queue":"core","reply":"build","revision":1}
> {"id":"0b000000-0000-4000-8000-000000000013","kind":"result","build":3,"outcome":"success"}
< {"reply":"noted"}
> {"id":"0b000000-0000-4000-8000-000000000014","kind":"refused","order":3}
< {"reply":"removed"}

status
queue core window 0 landed 1
queue web window 2 landed 0
end

# a window gains seven and keeps a third
17 and then 5 are divided by three, rounded down.
gate core 10 1 and web, core gains seven and keeps a third

> {"id":"0b000000-0000-4000-8000-000000000001","kind":"revision","change":102,"project":"app","revision":1,"message":""}
< {"reply":"recorded"}
> {"id":"0b000000-0000-4000-8000-000000000002","kind":"revision","change":104,"project":"app","revision":1,"message":""}
< {"reply":"recorded"}
> {"id":"0b000000-0000-4000-8000-000000000003","kind":"revision","change":105,"project":"app","revision":1,"message":""}
< {"reply":"recorded"}
> {"id":"0b000000-0000-4000-8000-000000000004","kind":"approved","change":102,"revision":1}
< {"order":1,"reply":"queued"}
> {"id":"0b000000-0000-4000-8000-000000000005","kind":"approved","change":104,"revision":1}
< {"order":2,"reply":"queued"}
> {"id":"0b000000-0000-4000-8000-000000000006","kind":"approved","change":105,"revision":1}
< {"order":3,"reply":"queued"}
> {"id":"0b000000-0000-4000-8000-000000000007","kind":"take","worker":"w1"}
< {"after":0,"ahead":[],"build":1,"change":102,"job":"unit","queue":"core","reply":"build","revision":1}
> {"id":"0b000000-0000-4000-8000-000000000008","kind":"result","build":1,"outcome":"success"}
< {"reply":"noted"}
> {"id":"0b000000-0000-4000-8000-000000000009","kind":"landed","order":1}
< {"n":1,"reply":"landed"}

status
queue core window 17 landed 1
     2       104    1      - ok      unit=waiting
     3       105    1      2 ok      unit=waiting
queue web window 2 landed 0
end

> {"id":"0b000000-0000-4000-8000-000000000010","kind":"take","worker":"w1"}
< {"after":1,"ahead":[],"build":2,"change":104,"job":"unit","queue":"core","reply":"build","revision":1}
> {"id":"0b000000-0000-4000-8000-000000000011","kind":"result","build":2,"outcome":"failure"}
< {"reply":"noted"}

status
queue core window 5 landed 1
     3       105    1      - ok      unit=waiting
queue web window 2 landed 0
end

> {"id":"0b000000-0000-4000-8000-000000000012","kind":"take","worker":"w1"}
< {"after":1,"ahead":[],"build":3,"change":105,"job":"unit","queue":"core","reply":"build","revision":1}
> {"id":"0b000000-0000-4000-8000-000000000013","kind":"result","build":3,"outcome":"failure"}
< {"reply":"noted"}

status
queue core window 1 landed 1
queue web window 2 landed 0
end

# what leaves behind a landing costs five each
8 doubles to 16 first.
gate core 8 1 and web, core doubles and loses five

> {"id":"0b000000-0000-4000-8000-000000000001","kind":"revision","change":102,"project":"app","revision":1,"message":""}
< {"reply":"recorded"}
> {"id":"0b000000-0000-4000-8000-000000000002","kind":"revision","change":104,"project":"app","revision":1,"message":""}
< {"reply":"recorded"}
> {"id":"0b000000-0000-4000-8000-000000000003","kind":"revision","change":105,"project":"app","revision":1,"message":""}
< {"reply":"recorded"}
> {"id":"0b000000-0000-4000-8000-000000000004","kind":"approved","change":102,"revision":1}
< {"order":1,"reply":"queued"}
> {"id":"0b000000-0000-4000-8000-000000000005","kind":"approved","change":104,"revision":1}
< {"order":2,"reply":"queued"}
> {"id":"0b000000-0000-4000-8000-000000000006","kind":"approved","change":105,"revision":1}
< {"order":3,"reply":"queued"}
> {"id":"0b000000-0000-4000-8000-000000000007","kind":"take","worker":"w1"}
< {"after":0,"ahead":[],"build":1,"change":102,"job":"unit","queue":"core","reply":"build","revision":1}
> {"id":"0b000000-0000-4000-8000-000000000008","kind":"take","worker":"w1"}
< {"after":0,"ahead":[[102,1]],"build":2,"change":104,"job":"unit","queue":"core","reply":"build","revision":1}
> {"id":"0b000000-0000-4000-8000-000000000009","kind":"take","worker":"w1"}
< {"after":0,"ahead":[[102,1],[104,1]],"build":3,"change":105,"job":"unit","queue":"core","reply":"build","revision":1}
> {"id":"0b000000-0000-4000-8000-000000000010","kind":"result","build":2,"outcome":"failure"}
< {"reply":"noted"}
> {"id":"0b000000-0000-4000-8000-000000000011","kind":"take","worker":"w1"}
< {"after":0,"ahead":[[102,1]],"build":4,"change":105,"job":"unit","queue":"core","reply":"build","revision":1}
> {"id":"0b000000-0000-4000-8000-000000000012","kind":"result","build":4,"outcome":"failure"}
< {"reply":"noted"}

status
queue core window 8 landed 0
     1       102    1      - ok      unit=running
     2       104    1      1 failing unit=failure
     3       105    1      1 failing unit=failure
queue web window 2 landed 0
end

> {"id":"0b000000-0000-4000-8000-000000000013","kind":"result","build":1,"outcome":"success"}
< {"reply":"noted"}
> {"id":"0b000000-0000-4000-8000-000000000014","kind":"landed","order":1}
< {"n":1,"reply":"landed"}

status
queue core window 6 landed 1
queue web window 2 landed 0
end

history core
history core
     1      1       102    1 landed          1
     2      2       104    1 failed          -
     3      3       105    1 failed          -
end 3
"#;

#[test]
fn paces(rt: HostRuntime) {
    plays(&rt, SCENES);
}
