//! Failed builds, and items that leave: what is tested again, and without what.
use crate::scenes::plays;

const SCENES: &str = r#"
# jobs are given out within the window
An item beyond the window gets no build, and each build is told what is ahead of it.
gate core 2 1 and web

tells three taken

status
queue core window 2 landed 0
     1       101    1      - ok      unit=running docs=running
     2       102    1      1 ok      unit=running
     3       103    1      2 ok      unit=waiting docs=waiting
queue web window 2 landed 0
end

# a failure resets the items behind it
The item behind the failed one is tested without it, and a result of its old build is stale. The build that is shown
stopped being live while it ran.
gate core 2 1 and web

tells three taken

tells first failed

build 3
{"after":0,"ahead":[[101,1]],"build":3,"change":102,"job":"unit","live":false,"outcome":"running","queue":"core","revision":1}

status
queue core window 2 landed 0
     1       101    1      - failing unit=failure docs=running
     2       102    1      - ok      unit=running
     3       103    1      2 ok      unit=waiting docs=waiting
queue web window 2 landed 0
end

# a failed change comes back when it is approved again
A failed item leaves once all its jobs have ended, and the window is halved.
gate core 2 1 and web

tells two taken

> {"id":"0b000000-0000-4000-8000-000000000001","kind":"result","build":1,"outcome":"failure"}
< {"reply":"noted"}
> {"id":"0b000000-0000-4000-8000-000000000002","kind":"result","build":3,"outcome":"success"}
< {"reply":"stale"}
> {"id":"0b000000-0000-4000-8000-000000000003","kind":"take","worker":"w1"}
< {"after":0,"ahead":[],"build":4,"change":102,"job":"unit","queue":"core","reply":"build","revision":1}
> {"id":"0b000000-0000-4000-8000-000000000004","kind":"approved","change":101,"revision":1}
< {"reply":"already"}
> {"id":"0b000000-0000-4000-8000-000000000005","kind":"result","build":2,"outcome":"success"}
< {"reply":"noted"}
> {"id":"0b000000-0000-4000-8000-000000000006","kind":"approved","change":101,"revision":1}
< {"order":3,"reply":"queued"}

status
queue core window 1 landed 0
     2       102    1      - ok      unit=running
     3       101    1      2 ok      unit=waiting docs=waiting
queue web window 2 landed 0
end

# a withdrawal resets the items behind it
A failing item waits for those before it, and is tested anew when one of these is withdrawn, which leaves the window as
it was.
gate core 2 1 and web

tells two taken

> {"id":"0b000000-0000-4000-8000-000000000001","kind":"result","build":3,"outcome":"failure"}
< {"reply":"noted"}

status
queue core window 2 landed 0
     1       101    1      - ok      unit=running docs=running
     2       102    1      1 failing unit=failure
queue web window 2 landed 0
end

> {"id":"0b000000-0000-4000-8000-000000000002","kind":"withdrawn","change":101,"revision":1}
< {"reply":"removed"}
> {"id":"0b000000-0000-4000-8000-000000000003","kind":"take","worker":"w1"}
< {"after":0,"ahead":[],"build":4,"change":102,"job":"unit","queue":"core","reply":"build","revision":1}
> {"id":"0b000000-0000-4000-8000-000000000004","kind":"result","build":1,"outcome":"success"}
< {"reply":"stale"}

status
queue core window 2 landed 0
     2       102    1      - ok      unit=running
queue web window 2 landed 0
end

# a job that does not vote fails no item
The item behind keeps its build.
gate core 2 1 and web

tells two taken

> {"id":"0b000000-0000-4000-8000-000000000001","kind":"result","build":2,"outcome":"failure"}
< {"reply":"noted"}

status
queue core window 2 landed 0
     1       101    1      - ok      unit=running docs=failure
     2       102    1      1 ok      unit=running
queue web window 2 landed 0
end

# a failure in the middle resets all behind it
The last item is tested again too, though the one right ahead of it is the same as before.
gate core 4 1 and web

tells four taken

> {"id":"0b000000-0000-4000-8000-000000000001","kind":"result","build":3,"outcome":"failure"}
< {"reply":"noted"}

status
queue core window 4 landed 0
     1       101    1      - ok      unit=running docs=running
     2       102    1      1 failing unit=failure
     3       103    1      1 ok      unit=waiting docs=waiting
     4       104    1      3 ok      unit=waiting
queue web window 2 landed 0
end

build 6
{"after":0,"ahead":[[101,1],[102,1],[103,1]],"build":6,"change":104,"job":"unit","live":false,"outcome":"running","queue":"core","revision":1}

> {"id":"0b000000-0000-4000-8000-000000000002","kind":"take","worker":"w1"}
< {"after":0,"ahead":[[101,1]],"build":7,"change":103,"job":"unit","queue":"core","reply":"build","revision":1}
> {"id":"0b000000-0000-4000-8000-000000000003","kind":"take","worker":"w1"}
< {"after":0,"ahead":[[101,1]],"build":8,"change":103,"job":"docs","queue":"core","reply":"build","revision":1}
> {"id":"0b000000-0000-4000-8000-000000000004","kind":"take","worker":"w1"}
< {"after":0,"ahead":[[101,1],[103,1]],"build":9,"change":104,"job":"unit","queue":"core","reply":"build","revision":1}
> {"id":"0b000000-0000-4000-8000-000000000005","kind":"take","worker":"w1"}
< {"code":"E12","error":"idle"}

# a withdrawal in the middle resets all behind it
gate core 4 1 and web

tells four taken

> {"id":"0b000000-0000-4000-8000-000000000001","kind":"withdrawn","change":102,"revision":1}
< {"reply":"removed"}

status
queue core window 4 landed 0
     1       101    1      - ok      unit=running docs=running
     3       103    1      1 ok      unit=waiting docs=waiting
     4       104    1      3 ok      unit=waiting
queue web window 2 landed 0
end

build 4
{"after":0,"ahead":[[101,1],[102,1]],"build":4,"change":103,"job":"unit","live":false,"outcome":"running","queue":"core","revision":1}

build 5
{"after":0,"ahead":[[101,1],[102,1]],"build":5,"change":103,"job":"docs","live":false,"outcome":"running","queue":"core","revision":1}

build 6
{"after":0,"ahead":[[101,1],[102,1],[103,1]],"build":6,"change":104,"job":"unit","live":false,"outcome":"running","queue":"core","revision":1}

build 1
{"after":0,"ahead":[],"build":1,"change":101,"job":"unit","live":true,"outcome":"running","queue":"core","revision":1}

# what runs stops when its item leaves
A build that has ended stays as it is.
gate core 2 1 and web

tells two taken

> {"id":"0b000000-0000-4000-8000-000000000001","kind":"result","build":1,"outcome":"success"}
< {"reply":"noted"}
> {"id":"0b000000-0000-4000-8000-000000000002","kind":"withdrawn","change":101,"revision":1}
< {"reply":"removed"}

build 1
{"after":0,"ahead":[],"build":1,"change":101,"job":"unit","live":true,"outcome":"success","queue":"core","revision":1}

build 2
{"after":0,"ahead":[],"build":2,"change":101,"job":"docs","live":false,"outcome":"running","queue":"core","revision":1}
"#;

#[test]
fn failures(rt: HostRuntime) {
    plays(&rt, SCENES);
}
