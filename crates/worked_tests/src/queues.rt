//! Conversations over two queues.
use crate::scenes::plays;

const SCENES: &str = r#"
# each queue has a line
gate core 2 1 and web

status
queue core window 2 landed 0
queue web window 2 landed 0
end

# a change stands in its project's queue
gate core 2 1 and web

> {"id":"00000000-0000-4000-8000-000000000001","kind":"revision","change":101,"project":"lib","revision":1,"message":""}
< {"reply":"recorded"}
> {"id":"00000000-0000-4000-8000-000000000002","kind":"revision","change":201,"project":"site","revision":1,"message":""}
< {"reply":"recorded"}
> {"id":"00000000-0000-4000-8000-000000000003","kind":"revision","change":102,"project":"app","revision":1,"message":""}
< {"reply":"recorded"}
> {"id":"00000000-0000-4000-8000-000000000004","kind":"approved","change":101,"revision":1}
< {"order":1,"reply":"queued"}
> {"id":"00000000-0000-4000-8000-000000000005","kind":"approved","change":201,"revision":1}
< {"order":2,"reply":"queued"}
> {"id":"00000000-0000-4000-8000-000000000006","kind":"approved","change":102,"revision":1}
< {"order":3,"reply":"queued"}

status
queue core window 2 landed 0
     1       101    1      - ok      unit=waiting docs=waiting
     3       102    1      1 ok      unit=waiting
queue web window 2 landed 0
     2       201    1      - ok      unit=waiting
end

# a revision leaves the other queue alone
gate core 2 1 and web

> {"id":"00000000-0000-4000-8000-000000000001","kind":"revision","change":101,"project":"lib","revision":1,"message":""}
< {"reply":"recorded"}
> {"id":"00000000-0000-4000-8000-000000000002","kind":"revision","change":201,"project":"site","revision":1,"message":""}
< {"reply":"recorded"}
> {"id":"00000000-0000-4000-8000-000000000003","kind":"approved","change":101,"revision":1}
< {"order":1,"reply":"queued"}
> {"id":"00000000-0000-4000-8000-000000000004","kind":"approved","change":201,"revision":1}
< {"order":2,"reply":"queued"}
> {"id":"00000000-0000-4000-8000-000000000005","kind":"revision","change":101,"project":"lib","revision":2,"message":""}
< {"reply":"recorded"}
> {"id":"00000000-0000-4000-8000-000000000006","kind":"revision","change":201,"project":"lib","revision":2,"message":""}
< {"code":"E8","error":"project-changed"}

status
queue core window 2 landed 0
queue web window 2 landed 0
     2       201    1      - ok      unit=waiting
end

# a full queue keeps no other from filling
gate core 2 1 and web in memory

for n from 1 to 1000
> {"id":"0a000000-0000-4000-8000-<000n>","kind":"revision","change":<n>,"project":"lib","revision":1,"message":""}
< {"reply":"recorded"}
> {"id":"0b000000-0000-4000-8000-<000n>","kind":"approved","change":<n>,"revision":1}
< {"order":<n>,"reply":"queued"}

> {"id":"0a000000-0000-4000-8000-000000002001","kind":"revision","change":2001,"project":"app","revision":1,"message":""}
< {"reply":"recorded"}
> {"id":"0b000000-0000-4000-8000-000000002001","kind":"approved","change":2001,"revision":1}
< {"reply":"waiting"}

for n from 1001 to 1002
> {"id":"0a000000-0000-4000-8000-<000n>","kind":"revision","change":<n>,"project":"site","revision":1,"message":""}
< {"reply":"recorded"}
> {"id":"0b000000-0000-4000-8000-<000n>","kind":"approved","change":<n>,"revision":1}
< {"order":<n>,"reply":"queued"}

status
queue core window 2 landed 0
     1         1    1      - ok      unit=waiting docs=waiting
...
  1000      1000    1    999 ok      unit=waiting docs=waiting
queue web window 2 landed 0
  1001      1001    1      - ok      unit=waiting
  1002      1002    1   1001 ok      unit=waiting
waiting 2001 1
end

# a place goes to the first of its queue
gate core 2 1 and web in memory

for n from 1 to 1000
> {"id":"0a000000-0000-4000-8000-<000n>","kind":"revision","change":<n>,"project":"lib","revision":1,"message":""}
< {"reply":"recorded"}
> {"id":"0b000000-0000-4000-8000-<000n>","kind":"approved","change":<n>,"revision":1}
< {"order":<n>,"reply":"queued"}

for n from 1001 to 2000
> {"id":"0a000000-0000-4000-8000-<000n>","kind":"revision","change":<n>,"project":"site","revision":1,"message":""}
< {"reply":"recorded"}
> {"id":"0b000000-0000-4000-8000-<000n>","kind":"approved","change":<n>,"revision":1}
< {"order":<n>,"reply":"queued"}

> {"id":"0a000000-0000-4000-8000-000000003001","kind":"revision","change":3001,"project":"site","revision":1,"message":""}
< {"reply":"recorded"}
> {"id":"0b000000-0000-4000-8000-000000003001","kind":"approved","change":3001,"revision":1}
< {"reply":"waiting"}

> {"id":"0a000000-0000-4000-8000-000000003002","kind":"revision","change":3002,"project":"app","revision":1,"message":""}
< {"reply":"recorded"}
> {"id":"0b000000-0000-4000-8000-000000003002","kind":"approved","change":3002,"revision":1}
< {"reply":"waiting"}

> {"id":"0a000000-0000-4000-8000-000000003003","kind":"revision","change":3003,"project":"lib","revision":1,"message":""}
< {"reply":"recorded"}
> {"id":"0b000000-0000-4000-8000-000000003003","kind":"approved","change":3003,"revision":1}
< {"reply":"waiting"}

> {"id":"0c000000-0000-4000-8000-000000000001","kind":"revision","change":1,"project":"lib","revision":2,"message":""}
< {"reply":"recorded"}

status
queue core window 2 landed 0
     2         2    1      - ok      unit=waiting docs=waiting
...
  2000      2000    1   1999 ok      unit=waiting
waiting 3001 1
waiting 3003 1
end
"#;

#[test]
fn queues(rt: HostRuntime) {
    plays(&rt, SCENES);
}
