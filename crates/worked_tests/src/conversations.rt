//! Conversations with a gate of one queue, with the answers typed from its rules.
use crate::scenes::plays;

const SCENES: &str = r#"
# the empty gate has a queue
gate core 2 1

status
queue core window 2 landed 0
end

# what is no delivery is refused
gate core 2 1

> nul
< {"code":"E1","error":"bad-json"}
>
< {"code":"E1","error":"bad-json"}
> {}
< {"code":"E2","error":"bad-delivery"}
>> []
< {"code":"E2","error":"bad-delivery"}

status
queue core window 2 landed 0
end

# a refused delivery does not spend its id
gate core 2 1

> {"id":"00000000-0000-4000-8000-000000000001","kind":"approved","change":101,"revision":1}
< {"code":"E5","error":"unknown-change"}
> {"id":"00000000-0000-4000-8000-000000000002","kind":"revision","change":101,"project":"lib","revision":1,"message":""}
< {"reply":"recorded"}
> {"id":"00000000-0000-4000-8000-000000000001","kind":"approved","change":101,"revision":1}
< {"order":1,"reply":"queued"}

status
queue core window 2 landed 0
     1       101    1      - ok      unit=waiting docs=waiting
end

# a repeat gets the kept reply
gate core 2 1

> {"id":"00000000-0000-4000-8000-000000000001","kind":"revision","change":101,"project":"lib","revision":1,"message":""}
< {"reply":"recorded"}
> {"id":"00000000-0000-4000-8000-000000000002","kind":"revision","change":102,"project":"app","revision":1,"message":""}
< {"reply":"recorded"}
> {"id":"0a000000-0000-4000-8000-000000000002","kind":"approved","change":101,"revision":1}
< {"order":1,"reply":"queued"}
> {"id":"0A000000-0000-4000-8000-000000000002","kind":"approved","change":101,"revision":1}
< {"order":1,"reply":"queued"}
> {"id":"00000000-0000-4000-8000-000000000003","kind":"approved","change":102,"revision":1}
< {"order":2,"reply":"queued"}

status
queue core window 2 landed 0
     1       101    1      - ok      unit=waiting docs=waiting
     2       102    1      1 ok      unit=waiting
end

# an id serves one delivery
gate core 2 1

> {"id":"00000000-0000-4000-8000-000000000001","kind":"revision","change":101,"project":"lib","revision":1,"message":""}
< {"reply":"recorded"}
> {"id":"0a000000-0000-4000-8000-000000000002","kind":"approved","change":101,"revision":1}
< {"order":1,"reply":"queued"}
> {"id":"0a000000-0000-4000-8000-000000000002","kind":"approved","change":101,"revision":2}
< {"code":"E4","error":"id-reused"}
> {"revision":1,"id":"0A000000000040008000000000000002","x":1,"change":101,"kind":"approved"}
< {"order":1,"reply":"queued"}
> {"id":"00000000-0000-4000-8000-000000000001","kind":"approved","change":101,"revision":1}
< {"code":"E4","error":"id-reused"}

status
queue core window 2 landed 0
     1       101    1      - ok      unit=waiting docs=waiting
end

# a new revision supersedes the item
gate core 2 1

> {"id":"00000000-0000-4000-8000-000000000001","kind":"revision","change":101,"project":"lib","revision":1,"message":""}
< {"reply":"recorded"}
> {"id":"00000000-0000-4000-8000-000000000002","kind":"revision","change":102,"project":"app","revision":1,"message":""}
< {"reply":"recorded"}
> {"id":"00000000-0000-4000-8000-000000000003","kind":"approved","change":101,"revision":1}
< {"order":1,"reply":"queued"}
> {"id":"00000000-0000-4000-8000-000000000004","kind":"approved","change":102,"revision":1}
< {"order":2,"reply":"queued"}
> {"id":"00000000-0000-4000-8000-000000000005","kind":"revision","change":101,"project":"lib","revision":2,"message":""}
< {"reply":"recorded"}
> {"id":"00000000-0000-4000-8000-000000000006","kind":"approved","change":101,"revision":1}
< {"reply":"stale"}

status
queue core window 2 landed 0
     2       102    1      - ok      unit=waiting
end

>> {"id":"00000000-0000-4000-8000-000000000007","kind":"approved","change":101,"revision":2}
< {"order":3,"reply":"queued"}

# each refusal of a revision and an approval
gate core 2 1

> {"id":"00000000-0000-4000-8000-000000000001","kind":"revision","change":101,"project":"site","revision":2,"message":""}
< {"code":"E7","error":"unknown-project"}
> {"id":"00000000-0000-4000-8000-000000000002","kind":"revision","change":101,"project":"lib","revision":2,"message":""}
< {"reply":"recorded"}
> {"id":"00000000-0000-4000-8000-000000000003","kind":"revision","change":101,"project":"app","revision":3,"message":""}
< {"code":"E8","error":"project-changed"}
> {"id":"00000000-0000-4000-8000-000000000004","kind":"revision","change":101,"project":"lib","revision":1,"message":""}
< {"reply":"stale"}
> {"id":"00000000-0000-4000-8000-000000000005","kind":"revision","change":101,"project":"lib","revision":2,"message":""}
< {"reply":"stale"}
> {"id":"00000000-0000-4000-8000-000000000006","kind":"approved","change":101,"revision":3}
< {"code":"E6","error":"unknown-revision"}
> {"id":"00000000-0000-4000-8000-000000000007","kind":"approved","change":101,"revision":1}
< {"reply":"stale"}
> {"id":"00000000-0000-4000-8000-000000000008","kind":"approved","change":103,"revision":1}
< {"code":"E5","error":"unknown-change"}
> {"id":"00000000-0000-4000-8000-000000000009","kind":"withdrawn","change":101,"revision":2}
< {"reply":"stale"}
> {"id":"00000000-0000-4000-8000-00000000000a","kind":"approved","change":101,"revision":2}
< {"order":1,"reply":"queued"}
> {"id":"00000000-0000-4000-8000-00000000000b","kind":"approved","change":101,"revision":2}
< {"reply":"already"}
> {"id":"00000000-0000-4000-8000-00000000000c","kind":"revision","change":102,"project":"app","revision":1,"message":"a\n\nDepends-On: https://forge/c/103"}
< {"reply":"recorded"}
> {"id":"00000000-0000-4000-8000-00000000000d","kind":"approved","change":102,"revision":1}
< {"reply":"waiting"}

status
queue core window 2 landed 0
     1       101    2      - ok      unit=waiting docs=waiting
waiting 102 1
end

# a full queue lets the next change wait
gate core 2 1 in memory

for n from 1 to 1000
> {"id":"0a000000-0000-4000-8000-<000n>","kind":"revision","change":<n>,"project":"lib","revision":1,"message":""}
< {"reply":"recorded"}
> {"id":"0b000000-0000-4000-8000-<000n>","kind":"approved","change":<n>,"revision":1}
< {"order":<n>,"reply":"queued"}

> {"id":"0a000000-0000-4000-8000-000000001001","kind":"revision","change":1001,"project":"lib","revision":1,"message":""}
< {"reply":"recorded"}
> {"id":"0b000000-0000-4000-8000-000000001001","kind":"approved","change":1001,"revision":1}
< {"reply":"waiting"}

status
queue core window 2 landed 0
     1         1    1      - ok      unit=waiting docs=waiting
     2         2    1      1 ok      unit=waiting docs=waiting
...
  1000      1000    1    999 ok      unit=waiting docs=waiting
waiting 1001 1
end

> {"id":"0c000000-0000-4000-8000-000000000001","kind":"approved","change":1001,"revision":1}
< {"reply":"already"}
> {"id":"0c000000-0000-4000-8000-000000000002","kind":"revision","change":1,"project":"lib","revision":2,"message":""}
< {"reply":"recorded"}
> {"id":"0c000000-0000-4000-8000-000000000003","kind":"approved","change":1,"revision":2}
< {"reply":"waiting"}

status
queue core window 2 landed 0
     2         2    1      - ok      unit=waiting docs=waiting
     3         3    1      2 ok      unit=waiting docs=waiting
...
  1001      1001    1   1000 ok      unit=waiting docs=waiting
waiting 1 2
end
"#;

#[test]
fn conversations(rt: HostRuntime) {
    plays(&rt, SCENES);
}
