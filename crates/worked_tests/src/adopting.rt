//! Settings that change between two runs of a gate.
use crate::scenes::plays;

const SCENES: &str = r#"
# a queued item keeps its jobs
What is admitted later has the new ones, and keeps these. A window that is set anew is taken; settings without a
project are refused.
gate core 2 1 and web

> {"id":"0b000000-0000-4000-8000-000000000001","kind":"revision","change":101,"project":"lib","revision":1,"message":""}
< {"reply":"recorded"}
> {"id":"0b000000-0000-4000-8000-000000000002","kind":"approved","change":101,"revision":1}
< {"order":1,"reply":"queued"}
> {"id":"0b000000-0000-4000-8000-000000000003","kind":"take","worker":"w1"}
< {"after":0,"ahead":[],"build":1,"change":101,"job":"unit","queue":"core","reply":"build","revision":1}
> {"id":"0b000000-0000-4000-8000-000000000004","kind":"take","worker":"w1"}
< {"after":0,"ahead":[],"build":2,"change":101,"job":"docs","queue":"core","reply":"build","revision":1}

then core 2 1 and web, docs votes

> {"id":"0b000000-0000-4000-8000-000000000005","kind":"result","build":2,"outcome":"failure"}
< {"reply":"noted"}

status
queue core window 2 landed 0
     1       101    1      - ok      unit=running docs=failure
queue web window 2 landed 0
end

> {"id":"0b000000-0000-4000-8000-000000000006","kind":"result","build":1,"outcome":"success"}
< {"reply":"noted"}

orders
[{"change":101,"order":1,"project":"lib","queue":"core","revision":1}]

> {"id":"0b000000-0000-4000-8000-000000000007","kind":"landed","order":1}
< {"n":1,"reply":"landed"}

status
queue core window 3 landed 1
queue web window 2 landed 0
end

> {"id":"0b000000-0000-4000-8000-000000000008","kind":"revision","change":103,"project":"lib","revision":1,"message":""}
< {"reply":"recorded"}
> {"id":"0b000000-0000-4000-8000-000000000009","kind":"approved","change":103,"revision":1}
< {"order":2,"reply":"queued"}
> {"id":"0b000000-0000-4000-8000-000000000010","kind":"take","worker":"w1"}
< {"after":1,"ahead":[],"build":3,"change":103,"job":"unit","queue":"core","reply":"build","revision":1}
> {"id":"0b000000-0000-4000-8000-000000000011","kind":"take","worker":"w1"}
< {"after":1,"ahead":[],"build":4,"change":103,"job":"docs","queue":"core","reply":"build","revision":1}
> {"id":"0b000000-0000-4000-8000-000000000012","kind":"result","build":4,"outcome":"failure"}
< {"reply":"noted"}

status
queue core window 3 landed 1
     2       103    1      - failing unit=running docs=failure
queue web window 2 landed 0
end

then core 5 1 and web, docs votes

status
queue core window 5 landed 1
     2       103    1      - failing unit=running docs=failure
queue web window 2 landed 0
end

then core 2 1 and web

status
queue core window 2 landed 1
     2       103    1      - failing unit=running docs=failure
queue web window 2 landed 0
end

then core 2 1 and web, without site
OtherSettings

status
queue core window 2 landed 1
     2       103    1      - failing unit=running docs=failure
queue web window 2 landed 0
end

> {"id":"0b000000-0000-4000-8000-000000000007","kind":"landed","order":1}
< {"n":1,"reply":"landed"}

history core
history core
     1      1       101    1 landed          1
end 1

# a window stays where none is set anew
It grows by a new rule from then on. A new floor sets it anew.
gate core 2 1 and web

> {"id":"0b000000-0000-4000-8000-000000000001","kind":"revision","change":102,"project":"app","revision":1,"message":""}
< {"reply":"recorded"}
> {"id":"0b000000-0000-4000-8000-000000000002","kind":"approved","change":102,"revision":1}
< {"order":1,"reply":"queued"}
> {"id":"0b000000-0000-4000-8000-000000000003","kind":"take","worker":"w1"}
< {"after":0,"ahead":[],"build":1,"change":102,"job":"unit","queue":"core","reply":"build","revision":1}
> {"id":"0b000000-0000-4000-8000-000000000004","kind":"result","build":1,"outcome":"success"}
< {"reply":"noted"}
> {"id":"0b000000-0000-4000-8000-000000000005","kind":"landed","order":1}
< {"n":1,"reply":"landed"}

then core 2 1 and web

status
queue core window 3 landed 1
queue web window 2 landed 0
end

then core 2 1 and web, another forge

status
queue core window 3 landed 1
queue web window 2 landed 0
end

then core 2 1 and web, core doubles and loses five

status
queue core window 3 landed 1
queue web window 2 landed 0
end

> {"id":"0b000000-0000-4000-8000-000000000006","kind":"revision","change":104,"project":"app","revision":1,"message":""}
< {"reply":"recorded"}
> {"id":"0b000000-0000-4000-8000-000000000007","kind":"approved","change":104,"revision":1}
< {"order":2,"reply":"queued"}
> {"id":"0b000000-0000-4000-8000-000000000008","kind":"take","worker":"w1"}
< {"after":1,"ahead":[],"build":2,"change":104,"job":"unit","queue":"core","reply":"build","revision":1}
> {"id":"0b000000-0000-4000-8000-000000000009","kind":"result","build":2,"outcome":"success"}
< {"reply":"noted"}
> {"id":"0b000000-0000-4000-8000-000000000010","kind":"landed","order":2}
< {"n":2,"reply":"landed"}

status
queue core window 6 landed 2
queue web window 2 landed 0
end

then core 2 2 and web

status
queue core window 2 landed 2
queue web window 2 landed 0
end

# needs that are known stay under another forge
Later messages are read by the new address.
gate core 2 1 and web

> {"id":"0b000000-0000-4000-8000-000000000001","kind":"revision","change":102,"project":"app","revision":1,"message":"Depends-On: https://forge/c/900"}
< {"reply":"recorded"}
> {"id":"0b000000-0000-4000-8000-000000000002","kind":"approved","change":102,"revision":1}
< {"reply":"waiting"}

then core 2 1 and web, another forge

status
queue core window 2 landed 0
queue web window 2 landed 0
waiting 102 1
end

> {"id":"0b000000-0000-4000-8000-000000000003","kind":"revision","change":104,"project":"app","revision":1,"message":"Depends-On: https://forge/c/901"}
< {"reply":"recorded"}
> {"id":"0b000000-0000-4000-8000-000000000004","kind":"approved","change":104,"revision":1}
< {"order":1,"reply":"queued"}
> {"id":"0b000000-0000-4000-8000-000000000005","kind":"revision","change":105,"project":"app","revision":1,"message":"Depends-On: https://other/c/901"}
< {"reply":"recorded"}
> {"id":"0b000000-0000-4000-8000-000000000006","kind":"approved","change":105,"revision":1}
< {"reply":"waiting"}
> {"id":"0b000000-0000-4000-8000-000000000007","kind":"revision","change":900,"project":"app","revision":1,"message":""}
< {"reply":"recorded"}
> {"id":"0b000000-0000-4000-8000-000000000008","kind":"approved","change":900,"revision":1}
< {"order":2,"reply":"queued"}

status
queue core window 2 landed 0
     1       104    1      - ok      unit=waiting
     2       900    1      1 ok      unit=waiting
     3       102    1      2 ok      unit=waiting
queue web window 2 landed 0
waiting 105 1
end

# queues take their new order
A new queue begins with its window, and is gone through first.
gate core 2 1

> {"id":"0b000000-0000-4000-8000-000000000001","kind":"revision","change":102,"project":"app","revision":1,"message":""}
< {"reply":"recorded"}
> {"id":"0b000000-0000-4000-8000-000000000002","kind":"approved","change":102,"revision":1}
< {"order":1,"reply":"queued"}

then core 2 1 behind web

status
queue web window 2 landed 0
queue core window 2 landed 0
     1       102    1      - ok      unit=waiting
end

> {"id":"0b000000-0000-4000-8000-000000000003","kind":"revision","change":301,"project":"site","revision":1,"message":""}
< {"reply":"recorded"}
> {"id":"0b000000-0000-4000-8000-000000000004","kind":"approved","change":301,"revision":1}
< {"order":2,"reply":"queued"}
> {"id":"0b000000-0000-4000-8000-000000000005","kind":"take","worker":"w1"}
< {"after":0,"ahead":[],"build":1,"change":301,"job":"unit","queue":"web","reply":"build","revision":1}
> {"id":"0b000000-0000-4000-8000-000000000006","kind":"take","worker":"w1"}
< {"after":0,"ahead":[],"build":2,"change":102,"job":"unit","queue":"core","reply":"build","revision":1}

then core 2 1 and web

status
queue core window 2 landed 0
     1       102    1      - ok      unit=running
queue web window 2 landed 0
     2       301    1      - ok      unit=running
end

# an item keeps that it fails fast
What is admitted later does not.
gate core 4 1 and web, lib fails fast

> {"id":"0b000000-0000-4000-8000-000000000001","kind":"revision","change":102,"project":"app","revision":1,"message":""}
< {"reply":"recorded"}
> {"id":"0b000000-0000-4000-8000-000000000002","kind":"revision","change":101,"project":"lib","revision":1,"message":""}
< {"reply":"recorded"}
> {"id":"0b000000-0000-4000-8000-000000000003","kind":"approved","change":102,"revision":1}
< {"order":1,"reply":"queued"}
> {"id":"0b000000-0000-4000-8000-000000000004","kind":"approved","change":101,"revision":1}
< {"order":2,"reply":"queued"}
> {"id":"0b000000-0000-4000-8000-000000000005","kind":"take","worker":"w1"}
< {"after":0,"ahead":[],"build":1,"change":102,"job":"unit","queue":"core","reply":"build","revision":1}
> {"id":"0b000000-0000-4000-8000-000000000006","kind":"take","worker":"w1"}
< {"after":0,"ahead":[[102,1]],"build":2,"change":101,"job":"unit","queue":"core","reply":"build","revision":1}
> {"id":"0b000000-0000-4000-8000-000000000007","kind":"take","worker":"w1"}
< {"after":0,"ahead":[[102,1]],"build":3,"change":101,"job":"docs","queue":"core","reply":"build","revision":1}

then core 4 1 and web

> {"id":"0b000000-0000-4000-8000-000000000008","kind":"result","build":2,"outcome":"failure"}
< {"reply":"noted"}
> {"id":"0b000000-0000-4000-8000-000000000009","kind":"revision","change":103,"project":"lib","revision":1,"message":""}
< {"reply":"recorded"}
> {"id":"0b000000-0000-4000-8000-000000000010","kind":"approved","change":103,"revision":1}
< {"order":3,"reply":"queued"}
> {"id":"0b000000-0000-4000-8000-000000000011","kind":"take","worker":"w1"}
< {"after":0,"ahead":[[102,1]],"build":4,"change":103,"job":"unit","queue":"core","reply":"build","revision":1}
> {"id":"0b000000-0000-4000-8000-000000000012","kind":"take","worker":"w1"}
< {"after":0,"ahead":[[102,1]],"build":5,"change":103,"job":"docs","queue":"core","reply":"build","revision":1}
> {"id":"0b000000-0000-4000-8000-000000000013","kind":"result","build":4,"outcome":"failure"}
< {"reply":"noted"}

status
queue core window 4 landed 0
     1       102    1      - ok      unit=running
     2       101    1      1 failing unit=failure docs=skipped
     3       103    1      1 failing unit=failure docs=running
queue web window 2 landed 0
end

# a waiting change gets the jobs of its admission
gate core 2 1 and web

> {"id":"0b000000-0000-4000-8000-000000000001","kind":"revision","change":101,"project":"lib","revision":1,"message":"Depends-On: https://forge/c/102"}
< {"reply":"recorded"}
> {"id":"0b000000-0000-4000-8000-000000000002","kind":"approved","change":101,"revision":1}
< {"reply":"waiting"}

then core 2 1 and web, docs votes, lib fails fast

> {"id":"0b000000-0000-4000-8000-000000000003","kind":"revision","change":102,"project":"app","revision":1,"message":""}
< {"reply":"recorded"}
> {"id":"0b000000-0000-4000-8000-000000000004","kind":"approved","change":102,"revision":1}
< {"order":1,"reply":"queued"}
> {"id":"0b000000-0000-4000-8000-000000000005","kind":"take","worker":"w1"}
< {"after":0,"ahead":[],"build":1,"change":102,"job":"unit","queue":"core","reply":"build","revision":1}
> {"id":"0b000000-0000-4000-8000-000000000006","kind":"take","worker":"w1"}
< {"after":0,"ahead":[[102,1]],"build":2,"change":101,"job":"unit","queue":"core","reply":"build","revision":1}
> {"id":"0b000000-0000-4000-8000-000000000007","kind":"take","worker":"w1"}
< {"after":0,"ahead":[[102,1]],"build":3,"change":101,"job":"docs","queue":"core","reply":"build","revision":1}
> {"id":"0b000000-0000-4000-8000-000000000008","kind":"result","build":3,"outcome":"failure"}
< {"reply":"noted"}

status
queue core window 2 landed 0
     1       102    1      - ok      unit=running
     2       101    1      1 failing unit=skipped docs=failure
queue web window 2 landed 0
end

# settings that lack what is kept are refused
A queue, a project, or a project in the same queue. The gate goes on with its settings.
gate core 2 1 and web

> {"id":"0b000000-0000-4000-8000-000000000001","kind":"revision","change":102,"project":"app","revision":1,"message":""}
< {"reply":"recorded"}
> {"id":"0b000000-0000-4000-8000-000000000002","kind":"approved","change":102,"revision":1}
< {"order":1,"reply":"queued"}

then core 5 1
OtherSettings

status
queue core window 2 landed 0
     1       102    1      - ok      unit=waiting
queue web window 2 landed 0
end

then core 5 1 and web, without site
OtherSettings

status
queue core window 2 landed 0
     1       102    1      - ok      unit=waiting
queue web window 2 landed 0
end

then core 5 1 and web, site in core
OtherSettings

status
queue core window 2 landed 0
     1       102    1      - ok      unit=waiting
queue web window 2 landed 0
end

> {"id":"0b000000-0000-4000-8000-000000000003","kind":"revision","change":301,"project":"site","revision":1,"message":""}
< {"reply":"recorded"}
> {"id":"0b000000-0000-4000-8000-000000000004","kind":"approved","change":301,"revision":1}
< {"order":2,"reply":"queued"}

then core 5 1 and web, docs votes

status
queue core window 5 landed 0
     1       102    1      - ok      unit=waiting
queue web window 2 landed 0
     2       301    1      - ok      unit=waiting
end
"#;

#[test]
fn adopting(rt: HostRuntime) {
    plays(&rt, SCENES);
}
