//! Queues of 1,000 items, as many as one may have.
use crate::scenes::plays;

const SCENES: &str = r#"
# a failure resets 999 items behind it, and the front of 1,000 items lands
The second item lands past the failing first one, which leaves then.
gate core 100 1 and web in memory

> {"id":"0a000000-0000-4000-8000-000000000001","kind":"revision","change":1,"project":"lib","revision":1,"message":""}
< {"reply":"recorded"}
> {"id":"0b000000-0000-4000-8000-000000000001","kind":"approved","change":1,"revision":1}
< {"order":1,"reply":"queued"}

for n from 2 to 1000
> {"id":"0a000000-0000-4000-8000-<000n>","kind":"revision","change":<n>,"project":"app","revision":1,"message":""}
< {"reply":"recorded"}
> {"id":"0b000000-0000-4000-8000-<000n>","kind":"approved","change":<n>,"revision":1}
< {"order":<n>,"reply":"queued"}

> {"id":"0c000000-0000-4000-8000-000000000001","kind":"take","worker":"w1"}
< {"after":0,"ahead":[],"build":1,"change":1,"job":"unit","queue":"core","reply":"build","revision":1}
> {"id":"0c000000-0000-4000-8000-000000000002","kind":"take","worker":"w1"}
< {"after":0,"ahead":[],"build":2,"change":1,"job":"docs","queue":"core","reply":"build","revision":1}

for n from 2 to 100
> {"id":"0d000000-0000-4000-8000-<000n>","kind":"take","worker":"w1"}
< {"after":0,"ahead":[[1,1]<to n>],"build":<n+1>,"change":<n>,"job":"unit","queue":"core","reply":"build","revision":1}

> {"id":"0e000000-0000-4000-8000-000000000001","kind":"result","build":1,"outcome":"failure"}
< {"reply":"noted"}
> {"id":"0e000000-0000-4000-8000-000000000002","kind":"result","build":101,"outcome":"success"}
< {"reply":"stale"}

status without unit=running

status
queue core window 100 landed 0
     1         1    1      - failing unit=failure docs=running
     2         2    1      - ok      unit=waiting
     3         3    1      2 ok      unit=waiting
...
  1000      1000    1    999 ok      unit=waiting
queue web window 2 landed 0
end

> {"id":"0e000000-0000-4000-8000-000000000003","kind":"take","worker":"w1"}
< {"after":0,"ahead":[],"build":102,"change":2,"job":"unit","queue":"core","reply":"build","revision":1}
> {"id":"0e000000-0000-4000-8000-000000000004","kind":"take","worker":"w1"}
< {"after":0,"ahead":[[2,1]],"build":103,"change":3,"job":"unit","queue":"core","reply":"build","revision":1}
> {"id":"0e000000-0000-4000-8000-000000000005","kind":"result","build":102,"outcome":"success"}
< {"reply":"noted"}
> {"id":"0e000000-0000-4000-8000-000000000006","kind":"landed","order":2}
< {"n":1,"reply":"landed"}

> {"id":"0e000000-0000-4000-8000-000000000007","kind":"result","build":2,"outcome":"success"}
< {"reply":"noted"}

status
queue core window 50 landed 1
     3         3    1      - ok      unit=running
     4         4    1      3 ok      unit=waiting
...
  1000      1000    1    999 ok      unit=waiting
queue web window 2 landed 0
end

# a full queue lets nobody in until an item leaves, also where that is the last one
gate core 2 1 in memory

for n from 1 to 1000
> {"id":"0a000000-0000-4000-8000-<000n>","kind":"revision","change":<n>,"project":"app","revision":1,"message":""}
< {"reply":"recorded"}
> {"id":"0b000000-0000-4000-8000-<000n>","kind":"approved","change":<n>,"revision":1}
< {"order":<n>,"reply":"queued"}

> {"id":"0a000000-0000-4000-8000-000000001001","kind":"revision","change":1001,"project":"app","revision":1,"message":""}
< {"reply":"recorded"}
> {"id":"0b000000-0000-4000-8000-000000001001","kind":"approved","change":1001,"revision":1}
< {"reply":"waiting"}

> {"id":"0c000000-0000-4000-8000-000000000001","kind":"withdrawn","change":1000,"revision":1}
< {"reply":"removed"}

status
queue core window 2 landed 0
     1         1    1      - ok      unit=waiting
...
   999       999    1    998 ok      unit=waiting
  1001      1001    1    999 ok      unit=waiting
end
"#;

#[test]
fn limits(rt: HostRuntime) {
    plays(&rt, SCENES);
}

const FAR_BEHIND: &str = r#"
# a build far behind is found
In a window without end each item but the last has a build that has passed.
gate core 0 1 in memory

for n from 1 to 1000
> {"id":"0a000000-0000-4000-8000-<000n>","kind":"revision","change":<n>,"project":"app","revision":1,"message":""}
< {"reply":"recorded"}
> {"id":"0b000000-0000-4000-8000-<000n>","kind":"approved","change":<n>,"revision":1}
< {"order":<n>,"reply":"queued"}

> {"id":"0c000000-0000-4000-8000-000000000001","kind":"take","worker":"w1"}
< {"after":0,"ahead":[],"build":1,"change":1,"job":"unit","queue":"core","reply":"build","revision":1}
> {"id":"0d000000-0000-4000-8000-000000000001","kind":"result","build":1,"outcome":"success"}
< {"reply":"noted"}

for n from 2 to 1000
> {"id":"0c000000-0000-4000-8000-<000n>","kind":"take","worker":"w1"}
< {"after":0,"ahead":[[1,1]<to n>],"build":<n>,"change":<n>,"job":"unit","queue":"core","reply":"build","revision":1}
> {"id":"0d000000-0000-4000-8000-<000n>","kind":"result","build":<n>,"outcome":"success"}
< {"reply":"noted"}
"#;

/// Apart from the others, since each build is sought past all items that have one.
#[test]
fn a_build_far_behind_is_found(rt: HostRuntime) {
    plays(&rt, FAR_BEHIND);
}

const CHAIN: &str = r#"
# a chain of 200 changes leaves with the first one
Each needs the one before. All that leave are told at once, by more than 600 edits.
gate core 2 1

> {"id":"0a000000-0000-4000-8000-000000000001","kind":"revision","change":1,"project":"app","revision":1,"message":""}
< {"reply":"recorded"}
> {"id":"0b000000-0000-4000-8000-000000000001","kind":"approved","change":1,"revision":1}
< {"order":1,"reply":"queued"}

for n from 1 to 199
> {"id":"1a000000-0000-4000-8000-<000n>","kind":"revision","change":<n+1>,"project":"app","revision":1,"message":"Depends-On: https://forge/c/<n>"}
< {"reply":"recorded"}
> {"id":"1b000000-0000-4000-8000-<000n>","kind":"approved","change":<n+1>,"revision":1}
< {"order":<n+1>,"reply":"queued"}

> {"id":"0c000000-0000-4000-8000-000000000001","kind":"take","worker":"w1"}
< {"after":0,"ahead":[],"build":1,"change":1,"job":"unit","queue":"core","reply":"build","revision":1}
> {"id":"0c000000-0000-4000-8000-000000000002","kind":"take","worker":"w1"}
< {"after":0,"ahead":[[1,1]],"build":2,"change":2,"job":"unit","queue":"core","reply":"build","revision":1}

status
queue core window 2 landed 0
     1         1    1      - ok      unit=running
     2         2    1      1 ok      unit=running
...
   200       200    1    199 ok      unit=waiting
end

> {"id":"0d000000-0000-4000-8000-000000000001","kind":"result","build":1,"outcome":"failure"}
< {"reply":"noted"}

status
queue core window 1 landed 0
end
"#;

#[test]
fn a_chain_of_needs_leaves_at_once(rt: HostRuntime) {
    plays(&rt, CHAIN);
}
