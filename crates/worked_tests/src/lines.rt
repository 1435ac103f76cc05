//! How the input is cut into lines, and lines, messages and conversations as large as the limits allow: a body that
//! gives up from some size on fails here.
use crate::scenes::plays;

const SCENES: &str = r#"
# each line is answered
gate core 2 1 in memory

> 1
>
> {}
>> [1]
< {"code":"E2","error":"bad-delivery"}
< {"code":"E1","error":"bad-json"}
< {"code":"E2","error":"bad-delivery"}
< {"code":"E2","error":"bad-delivery"}

# no input is no line
gate core 2 1 in memory

>>

# an empty line is no JSON
gate core 2 1 in memory

>
< {"code":"E1","error":"bad-json"}

# a line of 65,536 bytes is read
gate core 2 1 in memory

> < *65536>
>> nul
< {"code":"E1","error":"bad-json"}
< {"code":"E1","error":"bad-json"}

# a line of 65,537 bytes is skipped
gate core 2 1 in memory

> < *65537>
>> nul
< {"error":"too-large"}
< {"code":"E1","error":"bad-json"}

# a last line may be too long
gate core 2 1 in memory

>> <{*70000>
< {"error":"too-large"}

# a delivery of 65,536 bytes is taken, and one of 65,537 isn't
The deliveries have 116 bytes without the spaces behind them.
gate core 2 1 in memory

>> {"id":"0a000000-0000-4000-8000-000000000001","kind":"revision","change":1,"project":"lib","revision":1,"message":""}< *65420>
< {"reply":"recorded"}

> {"id":"0a000000-0000-4000-8000-000000000002","kind":"revision","change":2,"project":"lib","revision":1,"message":""}< *65421>
> {"id":"0a000000-0000-4000-8000-000000000003","kind":"revision","change":3,"project":"lib","revision":1,"message":""}
< {"error":"too-large"}
< {"reply":"recorded"}

# a message of 16,384 bytes is taken, and its repeat, and one of 16,385 isn't
gate core 2 1 in memory

>> {"id":"0a000000-0000-4000-8000-000000000001","kind":"revision","change":1,"project":"lib","revision":1,"message":"<a*16384>"}
< {"reply":"recorded"}

>> {"id":"0a000000-0000-4000-8000-000000000001","kind":"revision","change":1,"project":"lib","revision":1,"message":"<a*16384>"}
< {"reply":"recorded"}

>> {"id":"0a000000-0000-4000-8000-000000000002","kind":"revision","change":2,"project":"lib","revision":1,"message":"<a*16385>"}
< {"code":"E2","error":"bad-delivery"}
"#;

#[test]
fn lines(rt: HostRuntime) {
    plays(&rt, SCENES);
}

const MANY: &str = r#"
# each of 20,000 replies is kept
Acted on anew, the first revision of a known change would be stale.
gate core 2 1

for n from 1 to 20000
> {"id":"0a000000-0000-4000-8000-<000n>","kind":"revision","change":<n>,"project":"lib","revision":1,"message":""}
< {"reply":"recorded"}

> {"id":"0a000000-0000-4000-8000-000000000001","kind":"revision","change":1,"project":"lib","revision":1,"message":""}
< {"reply":"recorded"}
> {"id":"0a000000-0000-4000-8000-000000000002","kind":"revision","change":2,"project":"lib","revision":1,"message":""}
< {"reply":"recorded"}
> {"id":"0a000000-0000-4000-8000-000000010000","kind":"revision","change":10000,"project":"lib","revision":1,"message":""}
< {"reply":"recorded"}
> {"id":"0a000000-0000-4000-8000-000000020000","kind":"revision","change":20000,"project":"lib","revision":1,"message":""}
< {"reply":"recorded"}
"#;

/// Apart from the others, since the tables of a file keep as many.
#[test]
fn each_of_many_replies_is_kept(rt: HostRuntime) {
    plays(&rt, MANY);
}
