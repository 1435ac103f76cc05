//! Projects that fail fast: what is skipped once a voting job has failed.
use crate::scenes::plays;

const SCENES: &str = r#"
# an item that fails fast leaves at once
Its other job stops with it: nobody waits for that.
gate core 2 1 and web, lib fails fast

tells two taken

> {"id":"0b000000-0000-4000-8000-000000000001","kind":"result","build":1,"outcome":"failure"}
< {"reply":"noted"}

status
queue core window 1 landed 0
     2       102    1      - ok      unit=waiting
queue web window 2 landed 0
end

history core
history core
     1      1       101    1 failed          -
end 1

build 1
{"after":0,"ahead":[],"build":1,"change":101,"job":"unit","live":true,"outcome":"failure","queue":"core","revision":1}

build 2
{"after":0,"ahead":[],"build":2,"change":101,"job":"docs","live":false,"outcome":"running","queue":"core","revision":1}

> {"id":"0b000000-0000-4000-8000-000000000002","kind":"result","build":2,"outcome":"success"}
< {"reply":"stale"}
> {"id":"0b000000-0000-4000-8000-000000000003","kind":"result","build":3,"outcome":"success"}
< {"reply":"stale"}
> {"id":"0b000000-0000-4000-8000-000000000004","kind":"take","worker":"w1"}
< {"after":0,"ahead":[],"build":4,"change":102,"job":"unit","queue":"core","reply":"build","revision":1}

# an item that fails fast waits for those before it
When one of those fails it is tested anew, all its jobs.
gate core 2 1 and web, lib fails fast

> {"id":"0b000000-0000-4000-8000-000000000001","kind":"revision","change":102,"project":"app","revision":1,"message":""}
< {"reply":"recorded"}
> {"id":"0b000000-0000-4000-8000-000000000002","kind":"revision","change":101,"project":"lib","revision":1,"message":""}
< {"reply":"recorded"}
> {"id":"0b000000-0000-4000-8000-000000000003","kind":"approved","change":102,"revision":1}
< {"order":1,"reply":"queued"}
> {"id":"0b000000-0000-4000-8000-000000000004","kind":"approved","change":101,"revision":1}
< {"order":2,"reply":"queued"}
> {"id":"0b000000-0000-4000-8000-000000000005","kind":"take","worker":"w1"}
< {"after":0,"ahead":[],"build":1,"change":102,"job":"unit","queue":"core","reply":"build","revision":1}
> {"id":"0b000000-0000-4000-8000-000000000006","kind":"take","worker":"w1"}
< {"after":0,"ahead":[[102,1]],"build":2,"change":101,"job":"unit","queue":"core","reply":"build","revision":1}
> {"id":"0b000000-0000-4000-8000-000000000007","kind":"take","worker":"w1"}
< {"after":0,"ahead":[[102,1]],"build":3,"change":101,"job":"docs","queue":"core","reply":"build","revision":1}

> {"id":"0b000000-0000-4000-8000-000000000008","kind":"result","build":2,"outcome":"failure"}
< {"reply":"noted"}

status
queue core window 2 landed 0
     1       102    1      - ok      unit=running
     2       101    1      1 failing unit=failure docs=skipped
queue web window 2 landed 0
end

build 3
{"after":0,"ahead":[[102,1]],"build":3,"change":101,"job":"docs","live":false,"outcome":"running","queue":"core","revision":1}

> {"id":"0b000000-0000-4000-8000-000000000009","kind":"result","build":3,"outcome":"success"}
< {"reply":"stale"}
> {"id":"0b000000-0000-4000-8000-000000000010","kind":"take","worker":"w1"}
< {"code":"E12","error":"idle"}
> {"id":"0b000000-0000-4000-8000-000000000011","kind":"result","build":1,"outcome":"failure"}
< {"reply":"noted"}

status
queue core window 1 landed 0
     2       101    1      - ok      unit=waiting docs=waiting
queue web window 2 landed 0
end

> {"id":"0b000000-0000-4000-8000-000000000012","kind":"take","worker":"w1"}
< {"after":0,"ahead":[],"build":4,"change":101,"job":"unit","queue":"core","reply":"build","revision":1}

# a job that does not vote skips nothing
The item lands all the same.
gate core 2 1 and web, lib fails fast

> {"id":"0b000000-0000-4000-8000-000000000001","kind":"revision","change":101,"project":"lib","revision":1,"message":""}
< {"reply":"recorded"}
> {"id":"0b000000-0000-4000-8000-000000000002","kind":"approved","change":101,"revision":1}
< {"order":1,"reply":"queued"}
> {"id":"0b000000-0000-4000-8000-000000000003","kind":"take","worker":"w1"}
< {"after":0,"ahead":[],"build":1,"change":101,"job":"unit","queue":"core","reply":"build","revision":1}
> {"id":"0b000000-0000-4000-8000-000000000004","kind":"take","worker":"w1"}
< {"after":0,"ahead":[],"build":2,"change":101,"job":"docs","queue":"core","reply":"build","revision":1}
> {"id":"0b000000-0000-4000-8000-000000000005","kind":"result","build":2,"outcome":"failure"}
< {"reply":"noted"}

status
queue core window 2 landed 0
     1       101    1      - ok      unit=running docs=failure
queue web window 2 landed 0
end

orders
[]

> {"id":"0b000000-0000-4000-8000-000000000006","kind":"result","build":1,"outcome":"success"}
< {"reply":"noted"}

orders
[{"change":101,"order":1,"project":"lib","queue":"core","revision":1}]

> {"id":"0b000000-0000-4000-8000-000000000007","kind":"landed","order":1}
< {"n":1,"reply":"landed"}

status
queue core window 3 landed 1
queue web window 2 landed 0
end

# an item fails fast on three losses
Its other job, which was lost too, isn't tried again. Once it is the first item it leaves, after the window grew.
gate core 2 1 and web, lib fails fast

> {"id":"0b000000-0000-4000-8000-000000000001","kind":"revision","change":102,"project":"app","revision":1,"message":""}
< {"reply":"recorded"}
> {"id":"0b000000-0000-4000-8000-000000000002","kind":"revision","change":101,"project":"lib","revision":1,"message":""}
< {"reply":"recorded"}
> {"id":"0b000000-0000-4000-8000-000000000003","kind":"approved","change":102,"revision":1}
< {"order":1,"reply":"queued"}
> {"id":"0b000000-0000-4000-8000-000000000004","kind":"approved","change":101,"revision":1}
< {"order":2,"reply":"queued"}
> {"id":"0b000000-0000-4000-8000-000000000005","kind":"take","worker":"w1"}
< {"after":0,"ahead":[],"build":1,"change":102,"job":"unit","queue":"core","reply":"build","revision":1}
> {"id":"0b000000-0000-4000-8000-000000000006","kind":"take","worker":"w1"}
< {"after":0,"ahead":[[102,1]],"build":2,"change":101,"job":"unit","queue":"core","reply":"build","revision":1}
> {"id":"0b000000-0000-4000-8000-000000000007","kind":"take","worker":"w1"}
< {"after":0,"ahead":[[102,1]],"build":3,"change":101,"job":"docs","queue":"core","reply":"build","revision":1}

> {"id":"0b000000-0000-4000-8000-000000000008","kind":"result","build":3,"outcome":"lost"}
< {"reply":"noted"}
> {"id":"0b000000-0000-4000-8000-000000000009","kind":"result","build":2,"outcome":"lost"}
< {"reply":"noted"}
> {"id":"0b000000-0000-4000-8000-000000000010","kind":"take","worker":"w1"}
< {"after":0,"ahead":[[102,1]],"build":4,"change":101,"job":"unit","queue":"core","reply":"build","revision":1}
> {"id":"0b000000-0000-4000-8000-000000000011","kind":"result","build":4,"outcome":"lost"}
< {"reply":"noted"}
> {"id":"0b000000-0000-4000-8000-000000000012","kind":"take","worker":"w1"}
< {"after":0,"ahead":[[102,1]],"build":5,"change":101,"job":"unit","queue":"core","reply":"build","revision":1}
> {"id":"0b000000-0000-4000-8000-000000000013","kind":"result","build":5,"outcome":"lost"}
< {"reply":"noted"}

status
queue core window 2 landed 0
     1       102    1      - ok      unit=running
     2       101    1      1 failing unit=failure docs=skipped
queue web window 2 landed 0
end

build 3
{"after":0,"ahead":[[102,1]],"build":3,"change":101,"job":"docs","live":true,"outcome":"lost","queue":"core","revision":1}

> {"id":"0b000000-0000-4000-8000-000000000014","kind":"take","worker":"w1"}
< {"code":"E12","error":"idle"}
> {"id":"0b000000-0000-4000-8000-000000000015","kind":"result","build":1,"outcome":"success"}
< {"reply":"noted"}
> {"id":"0b000000-0000-4000-8000-000000000016","kind":"landed","order":1}
< {"n":1,"reply":"landed"}

status
queue core window 1 landed 1
queue web window 2 landed 0
end

history core
history core
     1      1       102    1 landed          1
     2      2       101    1 failed          -
end 2

# a job that has passed is not skipped
gate core 2 1 and web, lib fails fast

> {"id":"0b000000-0000-4000-8000-000000000001","kind":"revision","change":102,"project":"app","revision":1,"message":""}
< {"reply":"recorded"}
> {"id":"0b000000-0000-4000-8000-000000000002","kind":"revision","change":101,"project":"lib","revision":1,"message":""}
< {"reply":"recorded"}
> {"id":"0b000000-0000-4000-8000-000000000003","kind":"approved","change":102,"revision":1}
< {"order":1,"reply":"queued"}
> {"id":"0b000000-0000-4000-8000-000000000004","kind":"approved","change":101,"revision":1}
< {"order":2,"reply":"queued"}
> {"id":"0b000000-0000-4000-8000-000000000005","kind":"take","worker":"w1"}
< {"after":0,"ahead":[],"build":1,"change":102,"job":"unit","queue":"core","reply":"build","revision":1}
> {"id":"0b000000-0000-4000-8000-000000000006","kind":"take","worker":"w1"}
< {"after":0,"ahead":[[102,1]],"build":2,"change":101,"job":"unit","queue":"core","reply":"build","revision":1}
> {"id":"0b000000-0000-4000-8000-000000000007","kind":"take","worker":"w1"}
< {"after":0,"ahead":[[102,1]],"build":3,"change":101,"job":"docs","queue":"core","reply":"build","revision":1}

> {"id":"0b000000-0000-4000-8000-000000000008","kind":"result","build":3,"outcome":"success"}
< {"reply":"noted"}
> {"id":"0b000000-0000-4000-8000-000000000009","kind":"result","build":2,"outcome":"failure"}
< {"reply":"noted"}

status
queue core window 2 landed 0
     1       102    1      - ok      unit=running
     2       101    1      1 failing unit=failure docs=success
queue web window 2 landed 0
end

# one project fails fast, another does not
gate core 2 1 and web, app fails fast

tells two taken

> {"id":"0b000000-0000-4000-8000-000000000001","kind":"result","build":1,"outcome":"failure"}
< {"reply":"noted"}

status
queue core window 2 landed 0
     1       101    1      - failing unit=failure docs=running
     2       102    1      - ok      unit=waiting
queue web window 2 landed 0
end

> {"id":"0b000000-0000-4000-8000-000000000002","kind":"result","build":2,"outcome":"success"}
< {"reply":"noted"}
> {"id":"0b000000-0000-4000-8000-000000000003","kind":"take","worker":"w1"}
< {"after":0,"ahead":[],"build":4,"change":102,"job":"unit","queue":"core","reply":"build","revision":1}
> {"id":"0b000000-0000-4000-8000-000000000004","kind":"result","build":4,"outcome":"failure"}
< {"reply":"noted"}

status
queue core window 1 landed 0
queue web window 2 landed 0
end

history core
history core
     1      1       101    1 failed          -
     2      2       102    1 failed          -
end 2

# what needs an item that fails fast leaves with it
The window is halved once.
gate core 4 1 and web, lib fails fast

> {"id":"0b000000-0000-4000-8000-000000000001","kind":"revision","change":101,"project":"lib","revision":1,"message":""}
< {"reply":"recorded"}
> {"id":"0b000000-0000-4000-8000-000000000002","kind":"revision","change":102,"project":"app","revision":1,"message":"Depends-On: https://forge/c/101"}
< {"reply":"recorded"}
> {"id":"0b000000-0000-4000-8000-000000000003","kind":"approved","change":101,"revision":1}
< {"order":1,"reply":"queued"}
> {"id":"0b000000-0000-4000-8000-000000000004","kind":"approved","change":102,"revision":1}
< {"order":2,"reply":"queued"}
> {"id":"0b000000-0000-4000-8000-000000000005","kind":"take","worker":"w1"}
< {"after":0,"ahead":[],"build":1,"change":101,"job":"unit","queue":"core","reply":"build","revision":1}
> {"id":"0b000000-0000-4000-8000-000000000006","kind":"take","worker":"w1"}
< {"after":0,"ahead":[],"build":2,"change":101,"job":"docs","queue":"core","reply":"build","revision":1}
> {"id":"0b000000-0000-4000-8000-000000000007","kind":"take","worker":"w1"}
< {"after":0,"ahead":[[101,1]],"build":3,"change":102,"job":"unit","queue":"core","reply":"build","revision":1}
> {"id":"0b000000-0000-4000-8000-000000000008","kind":"result","build":1,"outcome":"failure"}
< {"reply":"noted"}

status
queue core window 2 landed 0
queue web window 2 landed 0
end

history core
history core
     1      1       101    1 failed          -
     2      2       102    1 needs           -
end 2

> {"id":"0b000000-0000-4000-8000-000000000009","kind":"result","build":2,"outcome":"success"}
< {"reply":"stale"}
> {"id":"0b000000-0000-4000-8000-000000000010","kind":"approved","change":102,"revision":1}
< {"reply":"waiting"}
"#;

#[test]
fn fast(rt: HostRuntime) {
    plays(&rt, SCENES);
}
