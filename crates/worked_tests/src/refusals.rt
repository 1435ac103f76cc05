//! Each refusal of a delivery, and what is stale.
use crate::scenes::plays;

const SCENES: &str = r#"
# withdrawing and closing a queued change
A closed change is opened by its next revision alone.
gate core 2 1 and web

> {"id":"00000000-0000-4000-8000-000000000001","kind":"withdrawn","change":101,"revision":1}
< {"code":"E5","error":"unknown-change"}
> {"id":"00000000-0000-4000-8000-000000000002","kind":"closed","change":101,"revision":1}
< {"code":"E5","error":"unknown-change"}
> {"id":"00000000-0000-4000-8000-000000000003","kind":"revision","change":101,"project":"lib","revision":2,"message":""}
< {"reply":"recorded"}
> {"id":"00000000-0000-4000-8000-000000000004","kind":"withdrawn","change":101,"revision":3}
< {"code":"E6","error":"unknown-revision"}
> {"id":"00000000-0000-4000-8000-000000000005","kind":"closed","change":101,"revision":3}
< {"code":"E6","error":"unknown-revision"}
> {"id":"00000000-0000-4000-8000-000000000006","kind":"withdrawn","change":101,"revision":1}
< {"reply":"stale"}
> {"id":"00000000-0000-4000-8000-000000000007","kind":"closed","change":101,"revision":1}
< {"reply":"stale"}
> {"id":"00000000-0000-4000-8000-000000000008","kind":"withdrawn","change":101,"revision":2}
< {"reply":"stale"}
> {"id":"00000000-0000-4000-8000-000000000009","kind":"approved","change":101,"revision":2}
< {"order":1,"reply":"queued"}
> {"id":"00000000-0000-4000-8000-000000000010","kind":"withdrawn","change":101,"revision":2}
< {"reply":"removed"}
> {"id":"00000000-0000-4000-8000-000000000011","kind":"approved","change":101,"revision":2}
< {"order":2,"reply":"queued"}
> {"id":"00000000-0000-4000-8000-000000000012","kind":"closed","change":101,"revision":2}
< {"reply":"removed"}
> {"id":"00000000-0000-4000-8000-000000000013","kind":"closed","change":101,"revision":2}
< {"reply":"stale"}
> {"id":"00000000-0000-4000-8000-000000000014","kind":"withdrawn","change":101,"revision":2}
< {"reply":"stale"}
> {"id":"00000000-0000-4000-8000-000000000015","kind":"approved","change":101,"revision":2}
< {"reply":"stale"}
> {"id":"00000000-0000-4000-8000-000000000016","kind":"revision","change":101,"project":"lib","revision":2,"message":""}
< {"reply":"stale"}
> {"id":"00000000-0000-4000-8000-000000000017","kind":"revision","change":101,"project":"lib","revision":3,"message":""}
< {"reply":"recorded"}
> {"id":"00000000-0000-4000-8000-000000000018","kind":"approved","change":101,"revision":3}
< {"order":3,"reply":"queued"}

status
queue core window 2 landed 0
     3       101    3      - ok      unit=waiting docs=waiting
queue web window 2 landed 0
end

# withdrawing and closing a waiting change
A change that stands nowhere can be closed, and not withdrawn; a new revision waits nowhere.
gate core 2 1 and web

> {"id":"00000000-0000-4000-8000-000000000001","kind":"revision","change":102,"project":"app","revision":1,"message":"Depends-On: https://forge/c/900"}
< {"reply":"recorded"}
> {"id":"00000000-0000-4000-8000-000000000002","kind":"approved","change":102,"revision":1}
< {"reply":"waiting"}
> {"id":"00000000-0000-4000-8000-000000000003","kind":"withdrawn","change":102,"revision":1}
< {"reply":"recorded"}
> {"id":"00000000-0000-4000-8000-000000000004","kind":"withdrawn","change":102,"revision":1}
< {"reply":"stale"}
> {"id":"00000000-0000-4000-8000-000000000005","kind":"approved","change":102,"revision":1}
< {"reply":"waiting"}
> {"id":"00000000-0000-4000-8000-000000000006","kind":"closed","change":102,"revision":1}
< {"reply":"recorded"}
> {"id":"00000000-0000-4000-8000-000000000007","kind":"approved","change":102,"revision":1}
< {"reply":"stale"}
> {"id":"00000000-0000-4000-8000-000000000008","kind":"revision","change":103,"project":"app","revision":1,"message":""}
< {"reply":"recorded"}
> {"id":"00000000-0000-4000-8000-000000000009","kind":"closed","change":103,"revision":1}
< {"reply":"recorded"}
> {"id":"00000000-0000-4000-8000-000000000010","kind":"closed","change":103,"revision":1}
< {"reply":"stale"}
> {"id":"00000000-0000-4000-8000-000000000011","kind":"revision","change":104,"project":"app","revision":1,"message":"Depends-On: https://forge/c/900"}
< {"reply":"recorded"}
> {"id":"00000000-0000-4000-8000-000000000012","kind":"approved","change":104,"revision":1}
< {"reply":"waiting"}
> {"id":"00000000-0000-4000-8000-000000000013","kind":"revision","change":104,"project":"app","revision":2,"message":""}
< {"reply":"recorded"}

status
queue core window 2 landed 0
queue web window 2 landed 0
end

# building and landing a change
Each build has one result, and each order one answer.
gate core 2 1 and web

tells one landed

orders
[]

status
queue core window 3 landed 1
queue web window 2 landed 0
end

# a landed change has landed for good
Whatever is said of it is stale or refused.
gate core 2 1 and web

tells one landed

> {"id":"00000000-0000-4000-8000-000000000021","kind":"revision","change":102,"project":"app","revision":2,"message":""}
< {"reply":"stale"}
> {"id":"00000000-0000-4000-8000-000000000022","kind":"approved","change":102,"revision":1}
< {"reply":"stale"}
> {"id":"00000000-0000-4000-8000-000000000023","kind":"withdrawn","change":102,"revision":1}
< {"reply":"stale"}
> {"id":"00000000-0000-4000-8000-000000000024","kind":"closed","change":102,"revision":1}
< {"reply":"stale"}
> {"id":"00000000-0000-4000-8000-000000000025","kind":"revision","change":102,"project":"lib","revision":2,"message":""}
< {"code":"E8","error":"project-changed"}
> {"id":"00000000-0000-4000-8000-000000000026","kind":"revision","change":102,"project":"none","revision":2,"message":""}
< {"code":"E7","error":"unknown-project"}
> {"id":"00000000-0000-4000-8000-000000000027","kind":"approved","change":102,"revision":2}
< {"code":"E6","error":"unknown-revision"}
> {"id":"00000000-0000-4000-8000-000000000028","kind":"withdrawn","change":102,"revision":2}
< {"code":"E6","error":"unknown-revision"}
> {"id":"00000000-0000-4000-8000-000000000029","kind":"closed","change":102,"revision":2}
< {"code":"E6","error":"unknown-revision"}

status
queue core window 3 landed 1
queue web window 2 landed 0
end
"#;

#[test]
fn refusals(rt: HostRuntime) {
    plays(&rt, SCENES);
}
