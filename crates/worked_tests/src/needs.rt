//! Changes that need others: which lines of a message name these, and when the change enters its queue.
use crate::scenes::plays;

const SCENES: &str = r#"
# a message names what a change needs
A line counts whatever its case and the white space at its end; no other form does. The message needs 101 and 7: two
lines name 101, one number begins with 0, and one line with a space.
gate core 2 1 and web

> {"id":"00000000-0000-4000-8000-000000000001","kind":"revision","change":101,"project":"lib","revision":1,"message":""}
< {"reply":"recorded"}
> {"id":"00000000-0000-4000-8000-000000000002","kind":"revision","change":7,"project":"app","revision":1,"message":""}
< {"reply":"recorded"}
> {"id":"00000000-0000-4000-8000-000000000003","kind":"revision","change":103,"project":"lib","revision":1,"message":"Depends-On: https://forge/c/101\r\ndepends-on:https://forge/c/0102\nDEPENDS-ON:\thttps://forge/c/101 \n Depends-On: https://forge/c/5\nDepends-On: https://forge/c/7"}
< {"reply":"recorded"}
> {"id":"00000000-0000-4000-8000-000000000004","kind":"approved","change":103,"revision":1}
< {"reply":"waiting"}
> {"id":"00000000-0000-4000-8000-000000000005","kind":"approved","change":101,"revision":1}
< {"order":1,"reply":"queued"}

status
queue core window 2 landed 0
     1       101    1      - ok      unit=waiting docs=waiting
queue web window 2 landed 0
waiting 103 1
end

> {"id":"00000000-0000-4000-8000-000000000006","kind":"approved","change":7,"revision":1}
< {"order":2,"reply":"queued"}

status
queue core window 2 landed 0
     1       101    1      - ok      unit=waiting docs=waiting
     2         7    1      1 ok      unit=waiting
     3       103    1      2 ok      unit=waiting docs=waiting
queue web window 2 landed 0
end

# a change waits for each of its needs
The same message, and the other need comes first.
gate core 2 1 and web

> {"id":"00000000-0000-4000-8000-000000000001","kind":"revision","change":101,"project":"lib","revision":1,"message":""}
< {"reply":"recorded"}
> {"id":"00000000-0000-4000-8000-000000000002","kind":"revision","change":7,"project":"app","revision":1,"message":""}
< {"reply":"recorded"}
> {"id":"00000000-0000-4000-8000-000000000003","kind":"revision","change":103,"project":"lib","revision":1,"message":"Depends-On: https://forge/c/101\r\ndepends-on:https://forge/c/0102\nDEPENDS-ON:\thttps://forge/c/101 \n Depends-On: https://forge/c/5\nDepends-On: https://forge/c/7"}
< {"reply":"recorded"}
> {"id":"00000000-0000-4000-8000-000000000004","kind":"approved","change":103,"revision":1}
< {"reply":"waiting"}
> {"id":"00000000-0000-4000-8000-000000000005","kind":"approved","change":7,"revision":1}
< {"order":1,"reply":"queued"}

status
queue core window 2 landed 0
     1         7    1      - ok      unit=waiting
queue web window 2 landed 0
waiting 103 1
end

> {"id":"00000000-0000-4000-8000-000000000006","kind":"approved","change":101,"revision":1}
< {"order":2,"reply":"queued"}

status
queue core window 2 landed 0
     1         7    1      - ok      unit=waiting
     2       101    1      1 ok      unit=waiting docs=waiting
     3       103    1      2 ok      unit=waiting docs=waiting
queue web window 2 landed 0
end

# a revision needs at most 32 changes
A message that names 33 is refused; 33 lines that name 32 are read.
gate core 2 1 in memory

> {"id":"0a000000-0000-4000-8000-000000000101","kind":"revision","change":101,"project":"lib","revision":1,"message":"Depends-On: https://forge/c/1\nDepends-On: https://forge/c/2\nDepends-On: https://forge/c/3\nDepends-On: https://forge/c/4\nDepends-On: https://forge/c/5\nDepends-On: https://forge/c/6\nDepends-On: https://forge/c/7\nDepends-On: https://forge/c/8\nDepends-On: https://forge/c/9\nDepends-On: https://forge/c/10\nDepends-On: https://forge/c/11\nDepends-On: https://forge/c/12\nDepends-On: https://forge/c/13\nDepends-On: https://forge/c/14\nDepends-On: https://forge/c/15\nDepends-On: https://forge/c/16\nDepends-On: https://forge/c/17\nDepends-On: https://forge/c/18\nDepends-On: https://forge/c/19\nDepends-On: https://forge/c/20\nDepends-On: https://forge/c/21\nDepends-On: https://forge/c/22\nDepends-On: https://forge/c/23\nDepends-On: https://forge/c/24\nDepends-On: https://forge/c/25\nDepends-On: https://forge/c/26\nDepends-On: https://forge/c/27\nDepends-On: https://forge/c/28\nDepends-On: https://forge/c/29\nDepends-On: https://forge/c/30\nDepends-On: https://forge/c/31\nDepends-On: https://forge/c/32\nDepends-On: https://forge/c/33\nDepends-On: https://forge/c/1"}
< {"code":"E13","error":"too-many-needs"}
> {"id":"0a000000-0000-4000-8000-000000000101","kind":"revision","change":101,"project":"lib","revision":1,"message":"Depends-On: https://forge/c/1\nDepends-On: https://forge/c/2\nDepends-On: https://forge/c/3\nDepends-On: https://forge/c/4\nDepends-On: https://forge/c/5\nDepends-On: https://forge/c/6\nDepends-On: https://forge/c/7\nDepends-On: https://forge/c/8\nDepends-On: https://forge/c/9\nDepends-On: https://forge/c/10\nDepends-On: https://forge/c/11\nDepends-On: https://forge/c/12\nDepends-On: https://forge/c/13\nDepends-On: https://forge/c/14\nDepends-On: https://forge/c/15\nDepends-On: https://forge/c/16\nDepends-On: https://forge/c/17\nDepends-On: https://forge/c/18\nDepends-On: https://forge/c/19\nDepends-On: https://forge/c/20\nDepends-On: https://forge/c/21\nDepends-On: https://forge/c/22\nDepends-On: https://forge/c/23\nDepends-On: https://forge/c/24\nDepends-On: https://forge/c/25\nDepends-On: https://forge/c/26\nDepends-On: https://forge/c/27\nDepends-On: https://forge/c/28\nDepends-On: https://forge/c/29\nDepends-On: https://forge/c/30\nDepends-On: https://forge/c/31\nDepends-On: https://forge/c/32\nDepends-On: https://forge/c/1"}
< {"reply":"recorded"}

# a change waits for what it needs
It follows what it needs into the queue. Its first reply is kept: it waited then.
gate core 2 1 and web

> {"id":"00000000-0000-4000-8000-000000000001","kind":"revision","change":101,"project":"lib","revision":1,"message":""}
< {"reply":"recorded"}
> {"id":"00000000-0000-4000-8000-000000000002","kind":"revision","change":102,"project":"app","revision":1,"message":"Depends-On: https://forge/c/101"}
< {"reply":"recorded"}
> {"id":"00000000-0000-4000-8000-000000000003","kind":"approved","change":102,"revision":1}
< {"reply":"waiting"}
> {"id":"00000000-0000-4000-8000-000000000004","kind":"approved","change":101,"revision":1}
< {"order":1,"reply":"queued"}
> {"id":"00000000-0000-4000-8000-000000000003","kind":"approved","change":102,"revision":1}
< {"reply":"waiting"}
> {"id":"00000000-0000-4000-8000-000000000005","kind":"approved","change":102,"revision":1}
< {"reply":"already"}

status
queue core window 2 landed 0
     1       101    1      - ok      unit=waiting docs=waiting
     2       102    1      1 ok      unit=waiting
queue web window 2 landed 0
end

# one approval may let many in
Again and again the first change that may enters, in order of approval.
gate core 2 1 and web

> {"id":"00000000-0000-4000-8000-000000000001","kind":"revision","change":101,"project":"lib","revision":1,"message":""}
< {"reply":"recorded"}
> {"id":"00000000-0000-4000-8000-000000000002","kind":"revision","change":102,"project":"app","revision":1,"message":"Depends-On: https://forge/c/101"}
< {"reply":"recorded"}
> {"id":"00000000-0000-4000-8000-000000000003","kind":"revision","change":103,"project":"lib","revision":1,"message":"Depends-On: https://forge/c/101"}
< {"reply":"recorded"}
> {"id":"00000000-0000-4000-8000-000000000004","kind":"revision","change":104,"project":"app","revision":1,"message":"Depends-On: https://forge/c/103\nDepends-On: https://forge/c/102"}
< {"reply":"recorded"}
> {"id":"00000000-0000-4000-8000-000000000005","kind":"approved","change":104,"revision":1}
< {"reply":"waiting"}
> {"id":"00000000-0000-4000-8000-000000000006","kind":"approved","change":103,"revision":1}
< {"reply":"waiting"}
> {"id":"00000000-0000-4000-8000-000000000007","kind":"approved","change":102,"revision":1}
< {"reply":"waiting"}
> {"id":"00000000-0000-4000-8000-000000000008","kind":"approved","change":101,"revision":1}
< {"order":1,"reply":"queued"}

status
queue core window 2 landed 0
     1       101    1      - ok      unit=waiting docs=waiting
     2       103    1      1 ok      unit=waiting docs=waiting
     3       102    1      2 ok      unit=waiting
     4       104    1      3 ok      unit=waiting
queue web window 2 landed 0
end

# a need enters before the change that needs it
101 was approved first, so it follows at once, before 103.
gate core 2 1 and web

> {"id":"00000000-0000-4000-8000-000000000001","kind":"revision","change":100,"project":"app","revision":1,"message":""}
< {"reply":"recorded"}
> {"id":"00000000-0000-4000-8000-000000000002","kind":"revision","change":101,"project":"app","revision":1,"message":"Depends-On: https://forge/c/102"}
< {"reply":"recorded"}
> {"id":"00000000-0000-4000-8000-000000000003","kind":"revision","change":102,"project":"app","revision":1,"message":"Depends-On: https://forge/c/100"}
< {"reply":"recorded"}
> {"id":"00000000-0000-4000-8000-000000000004","kind":"revision","change":103,"project":"app","revision":1,"message":"Depends-On: https://forge/c/100"}
< {"reply":"recorded"}
> {"id":"00000000-0000-4000-8000-000000000005","kind":"approved","change":101,"revision":1}
< {"reply":"waiting"}
> {"id":"00000000-0000-4000-8000-000000000006","kind":"approved","change":102,"revision":1}
< {"reply":"waiting"}
> {"id":"00000000-0000-4000-8000-000000000007","kind":"approved","change":103,"revision":1}
< {"reply":"waiting"}
> {"id":"00000000-0000-4000-8000-000000000008","kind":"approved","change":100,"revision":1}
< {"order":1,"reply":"queued"}

status
queue core window 2 landed 0
     1       100    1      - ok      unit=waiting
     2       102    1      1 ok      unit=waiting
     3       101    1      2 ok      unit=waiting
     4       103    1      3 ok      unit=waiting
queue web window 2 landed 0
end

# changes that need each other wait for good
So does one that needs itself; others land meanwhile.
gate core 2 1 and web

> {"id":"00000000-0000-4000-8000-000000000001","kind":"revision","change":201,"project":"lib","revision":1,"message":"Depends-On: https://forge/c/202"}
< {"reply":"recorded"}
> {"id":"00000000-0000-4000-8000-000000000002","kind":"revision","change":202,"project":"lib","revision":1,"message":"Depends-On: https://forge/c/201"}
< {"reply":"recorded"}
> {"id":"00000000-0000-4000-8000-000000000003","kind":"revision","change":203,"project":"lib","revision":1,"message":"Depends-On: https://forge/c/203"}
< {"reply":"recorded"}
> {"id":"00000000-0000-4000-8000-000000000004","kind":"approved","change":201,"revision":1}
< {"reply":"waiting"}
> {"id":"00000000-0000-4000-8000-000000000005","kind":"approved","change":202,"revision":1}
< {"reply":"waiting"}
> {"id":"00000000-0000-4000-8000-000000000006","kind":"approved","change":203,"revision":1}
< {"reply":"waiting"}
> {"id":"00000000-0000-4000-8000-000000000007","kind":"revision","change":102,"project":"app","revision":1,"message":""}
< {"reply":"recorded"}
> {"id":"00000000-0000-4000-8000-000000000008","kind":"approved","change":102,"revision":1}
< {"order":1,"reply":"queued"}
> {"id":"00000000-0000-4000-8000-000000000009","kind":"take","worker":"w1"}
< {"after":0,"ahead":[],"build":1,"change":102,"job":"unit","queue":"core","reply":"build","revision":1}
> {"id":"00000000-0000-4000-8000-000000000010","kind":"result","build":1,"outcome":"success"}
< {"reply":"noted"}
> {"id":"00000000-0000-4000-8000-000000000011","kind":"landed","order":1}
< {"n":1,"reply":"landed"}
> {"id":"00000000-0000-4000-8000-000000000012","kind":"approved","change":201,"revision":1}
< {"reply":"already"}
> {"id":"00000000-0000-4000-8000-000000000013","kind":"approved","change":203,"revision":1}
< {"reply":"already"}

status
queue core window 3 landed 1
queue web window 2 landed 0
waiting 201 1
waiting 202 1
waiting 203 1
end

# a need in another queue lands first
That it stands in its own queue is not enough.
gate core 2 1 and web

> {"id":"00000000-0000-4000-8000-000000000001","kind":"revision","change":101,"project":"lib","revision":1,"message":""}
< {"reply":"recorded"}
> {"id":"00000000-0000-4000-8000-000000000002","kind":"revision","change":301,"project":"site","revision":1,"message":"Depends-On: https://forge/c/101"}
< {"reply":"recorded"}
> {"id":"00000000-0000-4000-8000-000000000003","kind":"approved","change":301,"revision":1}
< {"reply":"waiting"}
> {"id":"00000000-0000-4000-8000-000000000004","kind":"approved","change":101,"revision":1}
< {"order":1,"reply":"queued"}
> {"id":"00000000-0000-4000-8000-000000000005","kind":"take","worker":"w1"}
< {"after":0,"ahead":[],"build":1,"change":101,"job":"unit","queue":"core","reply":"build","revision":1}
> {"id":"00000000-0000-4000-8000-000000000006","kind":"take","worker":"w1"}
< {"after":0,"ahead":[],"build":2,"change":101,"job":"docs","queue":"core","reply":"build","revision":1}
> {"id":"00000000-0000-4000-8000-000000000007","kind":"result","build":1,"outcome":"success"}
< {"reply":"noted"}
> {"id":"00000000-0000-4000-8000-000000000008","kind":"result","build":2,"outcome":"success"}
< {"reply":"noted"}

status
queue core window 2 landed 0
     1       101    1      - ok      unit=success docs=success
queue web window 2 landed 0
waiting 301 1
end

> {"id":"00000000-0000-4000-8000-000000000009","kind":"landed","order":1}
< {"n":1,"reply":"landed"}

status
queue core window 3 landed 1
queue web window 2 landed 0
     2       301    1      - ok      unit=waiting
end
"#;

#[test]
fn needs(rt: HostRuntime) {
    plays(&rt, SCENES);
}
