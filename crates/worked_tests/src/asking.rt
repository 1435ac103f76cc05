//! What a gate that runs is asked: why a change waits, what became of an item and its builds, what runs, a history from
//! a place on, and the deliveries that were accepted.
use crate::scenes::plays;

const WAITING: &str = r#"
# a change tells why it waits
The first of its needs is queued, and lands; nobody has told of the second one, until it comes.
gate core 2 1 and web

> {"id":"0b000000-0000-4000-8000-000000000001","kind":"revision","change":101,"project":"app","revision":1,"message":""}
< {"reply":"recorded"}
> {"id":"0b000000-0000-4000-8000-000000000002","kind":"revision","change":301,"project":"site","revision":1,"message":"Depends-On: https://forge/c/101\nDepends-On: https://forge/c/102"}
< {"reply":"recorded"}
> {"id":"0b000000-0000-4000-8000-000000000003","kind":"approved","change":101,"revision":1}
< {"order":1,"reply":"queued"}
> {"id":"0b000000-0000-4000-8000-000000000004","kind":"approved","change":301,"revision":1}
< {"reply":"waiting"}

change 301
{"approval":2,"change":301,"full":false,"needs":[{"approval":null,"change":101,"stands":"core","state":"open"},{"approval":null,"change":102,"stands":null,"state":"unknown"}],"order":null,"project":"site","queue":"web","revision":1,"state":"open"}

change 101
{"approval":null,"change":101,"full":false,"needs":[],"order":1,"project":"app","queue":"core","revision":1,"state":"open"}

change 102
none

> {"id":"0b000000-0000-4000-8000-000000000005","kind":"take","worker":"w1"}
< {"after":0,"ahead":[],"build":1,"change":101,"job":"unit","queue":"core","reply":"build","revision":1}
> {"id":"0b000000-0000-4000-8000-000000000006","kind":"result","build":1,"outcome":"success"}
< {"reply":"noted"}
> {"id":"0b000000-0000-4000-8000-000000000007","kind":"landed","order":1}
< {"n":1,"reply":"landed"}
> {"id":"0b000000-0000-4000-8000-000000000008","kind":"revision","change":102,"project":"app","revision":3,"message":"Depends-On: https://forge/c/103"}
< {"reply":"recorded"}
> {"id":"0b000000-0000-4000-8000-000000000009","kind":"approved","change":102,"revision":3}
< {"reply":"waiting"}

change 301
{"approval":2,"change":301,"full":false,"needs":[{"approval":null,"change":101,"stands":null,"state":"landed"},{"approval":3,"change":102,"stands":null,"state":"open"}],"order":null,"project":"site","queue":"web","revision":1,"state":"open"}

change 101
{"approval":null,"change":101,"full":false,"needs":[],"order":null,"project":"app","queue":"core","revision":1,"state":"landed"}

> {"id":"0b000000-0000-4000-8000-000000000010","kind":"closed","change":102,"revision":3}
< {"reply":"recorded"}

change 102
{"approval":null,"change":102,"full":false,"needs":[{"approval":null,"change":103,"stands":null,"state":"unknown"}],"order":null,"project":"app","queue":"core","revision":3,"state":"closed"}

change 301
{"approval":2,"change":301,"full":false,"needs":[{"approval":null,"change":101,"stands":null,"state":"landed"},{"approval":null,"change":102,"stands":null,"state":"closed"}],"order":null,"project":"site","queue":"web","revision":1,"state":"open"}
"#;

#[test]
fn a_change_tells_why_it_waits(rt: HostRuntime) {
    plays(&rt, WAITING);
}

const ITEMS: &str = r#"
# an item tells its builds, there and gone
The first of two fails; the second one's build ran behind it, and counts no more.
gate core 2 1 and web

item 1
none

running
{"builds":[],"running":0}

tells two taken

item 1
{"builds":[{"build":1,"job":"unit","live":true,"outcome":"running"},{"build":2,"job":"docs","live":true,"outcome":"running"}],"change":101,"jobs":[{"job":"unit","slot":"running","voting":true},{"job":"docs","slot":"running","voting":false}],"kept":2,"order":1,"queue":"core","revision":1,"verdict":null}

running
{"builds":[{"build":1,"change":101,"job":"unit","order":1,"queue":"core","revision":1},{"build":2,"change":101,"job":"docs","order":1,"queue":"core","revision":1},{"build":3,"change":102,"job":"unit","order":2,"queue":"core","revision":1}],"running":3}

> {"id":"0b000000-0000-4000-8000-000000000001","kind":"result","build":1,"outcome":"failure"}
< {"reply":"noted"}

item 1
{"builds":[{"build":1,"job":"unit","live":true,"outcome":"failure"},{"build":2,"job":"docs","live":true,"outcome":"running"}],"change":101,"jobs":[{"job":"unit","slot":"failure","voting":true},{"job":"docs","slot":"running","voting":false}],"kept":2,"order":1,"queue":"core","revision":1,"verdict":null}

item 2
{"builds":[{"build":3,"job":"unit","live":false,"outcome":"running"}],"change":102,"jobs":[{"job":"unit","slot":"waiting","voting":true}],"kept":1,"order":2,"queue":"core","revision":1,"verdict":null}

running
{"builds":[{"build":2,"change":101,"job":"docs","order":1,"queue":"core","revision":1}],"running":1}

> {"id":"0b000000-0000-4000-8000-000000000002","kind":"take","worker":"w1"}
< {"after":0,"ahead":[],"build":4,"change":102,"job":"unit","queue":"core","reply":"build","revision":1}
> {"id":"0b000000-0000-4000-8000-000000000003","kind":"result","build":2,"outcome":"success"}
< {"reply":"noted"}

item 1
{"builds":[{"build":1,"job":"unit","live":true,"outcome":"failure"},{"build":2,"job":"docs","live":true,"outcome":"success"}],"change":101,"jobs":null,"kept":2,"order":1,"queue":"core","revision":1,"verdict":"failed"}

item 2
{"builds":[{"build":3,"job":"unit","live":false,"outcome":"running"},{"build":4,"job":"unit","live":true,"outcome":"running"}],"change":102,"jobs":[{"job":"unit","slot":"running","voting":true}],"kept":2,"order":2,"queue":"core","revision":1,"verdict":null}

item 3
none

> {"id":"0b000000-0000-4000-8000-000000000004","kind":"result","build":4,"outcome":"success"}
< {"reply":"noted"}
> {"id":"0b000000-0000-4000-8000-000000000005","kind":"landed","order":2}
< {"n":1,"reply":"landed"}

item 2
{"builds":[{"build":3,"job":"unit","live":false,"outcome":"running"},{"build":4,"job":"unit","live":true,"outcome":"success"}],"change":102,"jobs":null,"kept":2,"order":2,"queue":"core","revision":1,"verdict":"landed"}

history core from 1
history core
     1      1       101    1 failed          -
     2      2       102    1 landed          1
end 2

history core from 2
history core
     2      2       102    1 landed          1
end 2

history core from 3
history core
end 2

history core from 9999999999999999
history core
end 2

history core from 2 up to byte 20
history core
     2      2       102    1 landed          1

history cork from 2
none

# an item is blocked by one that fails, and cut by its own failure
It fails fast: what still ran for it is skipped.
gate core 3 1 and web, app fails fast

> {"id":"0b000000-0000-4000-8000-000000000001","kind":"revision","change":101,"project":"lib","revision":1,"message":""}
< {"reply":"recorded"}
> {"id":"0b000000-0000-4000-8000-000000000002","kind":"revision","change":102,"project":"app","revision":1,"message":"Depends-On: https://forge/c/101"}
< {"reply":"recorded"}
> {"id":"0b000000-0000-4000-8000-000000000003","kind":"approved","change":101,"revision":1}
< {"order":1,"reply":"queued"}
> {"id":"0b000000-0000-4000-8000-000000000004","kind":"approved","change":102,"revision":1}
< {"order":2,"reply":"queued"}
> {"id":"0b000000-0000-4000-8000-000000000005","kind":"take","worker":"w1"}
< {"after":0,"ahead":[],"build":1,"change":101,"job":"unit","queue":"core","reply":"build","revision":1}
> {"id":"0b000000-0000-4000-8000-000000000006","kind":"take","worker":"w1"}
< {"after":0,"ahead":[],"build":2,"change":101,"job":"docs","queue":"core","reply":"build","revision":1}
> {"id":"0b000000-0000-4000-8000-000000000007","kind":"take","worker":"w1"}
< {"after":0,"ahead":[[101,1]],"build":3,"change":102,"job":"unit","queue":"core","reply":"build","revision":1}
> {"id":"0b000000-0000-4000-8000-000000000008","kind":"result","build":3,"outcome":"failure"}
< {"reply":"noted"}

item 2
{"builds":[{"build":3,"job":"unit","live":true,"outcome":"failure"}],"change":102,"jobs":[{"job":"unit","slot":"failure","voting":true}],"kept":1,"order":2,"queue":"core","revision":1,"verdict":null}

> {"id":"0b000000-0000-4000-8000-000000000009","kind":"result","build":1,"outcome":"failure"}
< {"reply":"noted"}

item 2
{"builds":[{"build":3,"job":"unit","live":false,"outcome":"failure"}],"change":102,"jobs":[{"job":"unit","slot":"waiting","voting":true}],"kept":1,"order":2,"queue":"core","revision":1,"verdict":null}

# what runs is told queue by queue
gate core 2 1 behind web

> {"id":"0b000000-0000-4000-8000-000000000001","kind":"revision","change":101,"project":"app","revision":1,"message":""}
< {"reply":"recorded"}
> {"id":"0b000000-0000-4000-8000-000000000002","kind":"revision","change":301,"project":"site","revision":1,"message":""}
< {"reply":"recorded"}
> {"id":"0b000000-0000-4000-8000-000000000003","kind":"approved","change":101,"revision":1}
< {"order":1,"reply":"queued"}
> {"id":"0b000000-0000-4000-8000-000000000004","kind":"take","worker":"w1"}
< {"after":0,"ahead":[],"build":1,"change":101,"job":"unit","queue":"core","reply":"build","revision":1}
> {"id":"0b000000-0000-4000-8000-000000000005","kind":"approved","change":301,"revision":1}
< {"order":2,"reply":"queued"}
> {"id":"0b000000-0000-4000-8000-000000000006","kind":"take","worker":"w1"}
< {"after":0,"ahead":[],"build":2,"change":301,"job":"unit","queue":"web","reply":"build","revision":1}

running
{"builds":[{"build":2,"change":301,"job":"unit","order":2,"queue":"web","revision":1},{"build":1,"change":101,"job":"unit","order":1,"queue":"core","revision":1}],"running":2}
"#;

#[test]
fn an_item_tells_its_builds(rt: HostRuntime) {
    plays(&rt, ITEMS);
}

const FEEDS: &str = r#"
# accepted deliveries are told in their order, each under its id
A refused one is none of them, nor a repeat; what was `stale` or `already` is.
gate core 2 1 and web

deliveries
end 0

deliveries behind 0b000000-0000-4000-8000-000000000001
none

> {"id":"0b000000-0000-4000-8000-000000000009","kind":"revision","change":101,"project":"app","revision":2,"message":"\"k\" \u0001 ü\nkind"}
< {"reply":"recorded"}
> {"id":"0b000000-0000-4000-8000-000000000002","kind":"approved","change":101,"revision":1}
< {"reply":"stale"}
> {"id":"0b000000-0000-4000-8000-000000000003","kind":"approved","change":101,"revision":3}
< {"code":"E6","error":"unknown-revision"}
> {"kind":"approved","revision":2,"change":101,"id":"urn:uuid:0B000000-0000-4000-8000-00000000000A","more":1}
< {"order":1,"reply":"queued"}
> {"id":"0b000000-0000-4000-8000-00000000000a","kind":"approved","change":101,"revision":2}
< {"order":1,"reply":"queued"}
> {"id":"0b000000-0000-4000-8000-000000000008","kind":"approved","change":101,"revision":2}
< {"reply":"already"}
> {"id":"0b000000-0000-4000-8000-000000000005","kind":"take","worker":"k1"}
< {"after":0,"ahead":[],"build":1,"change":101,"job":"unit","queue":"core","reply":"build","revision":2}
> {"id":"0b000000-0000-4000-8000-000000000006","kind":"result","build":1,"outcome":"success"}
< {"reply":"noted"}
> {"id":"0b000000-0000-4000-8000-000000000007","kind":"landed","order":1}
< {"n":1,"reply":"landed"}

deliveries
{"change":101,"id":"0b000000000040008000000000000009","kind":"revision","message":"\"k\" \u0001 ü\nkind","project":"app","revision":2}
{"change":101,"id":"0b000000000040008000000000000002","kind":"approved","revision":1}
{"change":101,"id":"0b00000000004000800000000000000a","kind":"approved","revision":2}
{"change":101,"id":"0b000000000040008000000000000008","kind":"approved","revision":2}
{"id":"0b000000000040008000000000000005","kind":"take","worker":"k1"}
{"build":1,"id":"0b000000000040008000000000000006","kind":"result","outcome":"success"}
{"id":"0b000000000040008000000000000007","kind":"landed","order":1}
end 7

deliveries behind {0b000000-0000-4000-8000-000000000008}
{"id":"0b000000000040008000000000000005","kind":"take","worker":"k1"}
{"build":1,"id":"0b000000000040008000000000000006","kind":"result","outcome":"success"}
{"id":"0b000000000040008000000000000007","kind":"landed","order":1}
end 3

deliveries behind 0b000000000040008000000000000007
end 0

deliveries behind 0b000000000040008000000000000003
none

deliveries up to byte 5
{"cha

deliveries behind 0b000000000040008000000000000006 up to byte 64
{"id":"0b000000000040008000000000000007","kind":"landed","order":1}
end 1

# the kinds that end an item are told too
gate core 2 1 and web

> {"id":"0b000000-0000-4000-8000-000000000001","kind":"revision","change":101,"project":"app","revision":1,"message":""}
< {"reply":"recorded"}
> {"id":"0b000000-0000-4000-8000-000000000002","kind":"approved","change":101,"revision":1}
< {"order":1,"reply":"queued"}
> {"id":"0b000000-0000-4000-8000-000000000003","kind":"withdrawn","change":101,"revision":1}
< {"reply":"removed"}
> {"id":"0b000000-0000-4000-8000-000000000004","kind":"closed","change":101,"revision":1}
< {"reply":"recorded"}

deliveries
{"change":101,"id":"0b000000000040008000000000000001","kind":"revision","message":"","project":"app","revision":1}
{"change":101,"id":"0b000000000040008000000000000002","kind":"approved","revision":1}
{"change":101,"id":"0b000000000040008000000000000003","kind":"withdrawn","revision":1}
{"change":101,"id":"0b000000000040008000000000000004","kind":"closed","revision":1}
end 4
"#;

#[test]
fn accepted_deliveries_are_told_in_their_order(rt: HostRuntime) {
    plays(&rt, FEEDS);
}
