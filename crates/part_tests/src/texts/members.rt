//! Which members a delivery has, with answers worked out by hand.
use crate::texts::rows::rows_hold;

const ROWS: &str = r#"# a revision has four members
forge {<id>,"kind":"revision","change":101,"project":"lib/x","revision":2,"message":"a\nb \"c\""} -> {"change":101,"kind":"revision","message":"a\nb \"c\"","project":"lib/x","revision":2}
forge {<id>,"message":"","revision":9999,"project":"A","change":999999999,"kind":"revision"} -> {"change":999999999,"kind":"revision","message":"","project":"A","revision":9999}
forge {<id>,"kind":"revision","project":"a","revision":1,"message":""} -> E2
forge {<id>,"kind":"revision","change":1,"revision":1,"message":""} -> E2
forge {<id>,"kind":"revision","change":1,"project":"a","message":""} -> E2
forge {<id>,"kind":"revision","change":1,"project":"a","revision":1} -> E2
forge {<id>,"kind":"revision","change":"1","project":"a","revision":1,"message":""} -> E2
forge {<id>,"kind":"revision","change":1,"project":1,"revision":1,"message":""} -> E2
forge {<id>,"kind":"revision","change":1,"project":"a","revision":[1],"message":""} -> E2
forge {<id>,"kind":"revision","change":1,"project":"a","revision":1,"message":null} -> E2
forge {<id>,"kind":"revision","change":1,"project":"","revision":1,"message":""} -> E2
forge {<id>,"kind":"revision","change":1,"project":"/a","revision":1,"message":""} -> E2
forge {<id>,"kind":"revision","change":1,"project":"a b","revision":1,"message":""} -> E2
forge {<id>,"kind":"revision","change":1,"project":"é","revision":1,"message":""} -> E2
# a change and its revision have limits
forge {<id>,"kind":"approved","change":1,"revision":1} -> {"change":1,"kind":"approved","revision":1}
forge {<id>,"kind":"withdrawn","change":999999999,"revision":9999} -> {"change":999999999,"kind":"withdrawn","revision":9999}
forge {<id>,"kind":"closed","change":12,"revision":3} -> {"change":12,"kind":"closed","revision":3}
forge {<id>,"kind":"approved","revision":1} -> E2
forge {<id>,"kind":"approved","change":1} -> E2
forge {<id>,"kind":"approved","change":0,"revision":1} -> E2
forge {<id>,"kind":"approved","change":1000000000,"revision":1} -> E2
forge {<id>,"kind":"approved","change":1,"revision":0} -> E2
forge {<id>,"kind":"approved","change":1,"revision":10000} -> E2
forge {<id>,"kind":"withdrawn","change":1000000000,"revision":1} -> E2
forge {<id>,"kind":"withdrawn","change":1,"revision":"1"} -> E2
forge {<id>,"kind":"closed","change":true,"revision":1} -> E2
forge {<id>,"kind":"closed","change":1,"revision":10000} -> E2
# an order has limits
forge {<id>,"kind":"landed","order":1} -> {"kind":"landed","order":1}
forge {<id>,"kind":"refused","order":1000000000000000} -> {"kind":"refused","order":1000000000000000}
forge {<id>,"kind":"landed"} -> E2
forge {<id>,"kind":"landed","order":0} -> E2
forge {<id>,"kind":"landed","order":1000000000000001} -> E2
forge {<id>,"kind":"refused","order":"1"} -> E2
forge {<id>,"kind":"refused","order":{}} -> E2
forge {<id>,"kind":"refused","change":1,"revision":1} -> E2
# a worker asks and reports
worker {<id>,"kind":"take","worker":"rack-3/w_1.a"} -> {"kind":"take","worker":"rack-3/w_1.a"}
worker {<id>,"kind":"take"} -> E2
worker {<id>,"kind":"take","worker":""} -> E2
worker {<id>,"kind":"take","worker":".w"} -> E2
worker {<id>,"kind":"take","worker":7} -> E2
worker {<id>,"kind":"result","build":1,"outcome":"success"} -> {"build":1,"kind":"result","outcome":"success"}
worker {<id>,"kind":"result","build":1000000000000000,"outcome":"failure"} -> {"build":1000000000000000,"kind":"result","outcome":"failure"}
worker {<id>,"kind":"result","build":7,"outcome":"lost"} -> {"build":7,"kind":"result","outcome":"lost"}
worker {<id>,"kind":"result","build":0,"outcome":"lost"} -> E2
worker {<id>,"kind":"result","build":1000000000000001,"outcome":"lost"} -> E2
worker {<id>,"kind":"result","outcome":"lost"} -> E2
worker {<id>,"kind":"result","build":7} -> E2
worker {<id>,"kind":"result","build":7,"outcome":"Success"} -> E2
worker {<id>,"kind":"result","build":7,"outcome":"running"} -> E2
worker {<id>,"kind":"result","build":7,"outcome":null} -> E2
# a whole number is digits alone
forge {<id>,"kind":"approved","change":101.0,"revision":1} -> E2
forge {<id>,"kind":"approved","change":1e2,"revision":1} -> E2
forge {<id>,"kind":"approved","change":1E0,"revision":1} -> E2
forge {<id>,"kind":"approved","change":-0,"revision":1} -> E2
forge {<id>,"kind":"approved","change":-1,"revision":1} -> E2
forge {<id>,"kind":"approved","change":18446744073709551616,"revision":1} -> E2
forge {<id>,"kind":"approved","change":18446744073709551617,"revision":1} -> E2
forge {<id>,"kind":"landed","order":1.0} -> E2
forge {<id>,"kind":"landed","order":1e15} -> E2
forge {<id>,"kind":"approved","change":01,"revision":1} -> E1
forge {<id>,"kind":"approved","change":+1,"revision":1} -> E1
forge {<id>,"kind":"approved","change":1.,"revision":1} -> E1
forge {<id>,"kind":"landed","order":1,"x":1e400} -> E1
forge {<id>,"kind":"landed","order":1,"x":1e-400} -> {"kind":"landed","order":1}
# the last of double members counts
forge {<id>,"kind":"approved","change":1,"revision":1,"change":2} -> {"change":2,"kind":"approved","revision":1}
forge {<id>,"change":"no","kind":7,"revision":0,"kind":"approved","change":2,"revision":3} -> {"change":2,"kind":"approved","revision":3}
forge {<id>,"kind":"take","kind":"landed","order":5} -> {"kind":"landed","order":5}
forge {<id>,"kind":"landed","order":5,"kind":"take"} -> E3
forge {<id>,"kind":"landed","order":5,"order":0} -> E2
forge {<id>,"kind":"landed","order":5,"id":null} -> E2
forge {<id>,"kind":"landed","order":5,"id":"","id":"00000000000000000000000000000000"} -> {"kind":"landed","order":5}
# unknown members and escapes play no part
forge {<id>,"kind":"landed","order":1,"x":[{"id":1}],"message":7,"worker":null} -> {"kind":"landed","order":1}
forge {<id>,"kind":"landed","order":1,"x":"\ud800"} -> E1
forge {<id>,"kind":"landed","order":1,"x":"\u12"} -> E1
forge {<id>,"kind":"landed","order":1,"x":"\q"} -> E1
forge {<id>, "k\u0069nd" : "\u006canded" ,<tab>"\u006frder":1 } -> {"kind":"landed","order":1}
forge {<id>,"kind":"revision","change":1,"project":"a","revision":1,"message":"\ud83d\ude00\u00e9\/\u0001\u007f"} -> {"change":1,"kind":"revision","message":"😀é/\u0001<del>","project":"a","revision":1}
forge {<id>,"kind":"landed","order":1,"x":"<tab>"} -> E1
# the door comes before other members
forge {<id>,"kind":"take","worker":"w"} -> E3
forge {<id>,"kind":"take"} -> E3
forge {<id>,"kind":"result","build":0} -> E3
forge {<id>,"id":"x","kind":"take","worker":"w"} -> E2
forge {<id>,"kind":"merge","worker":"w"} -> E2
forge {<id>,"kind":"Take","worker":"w"} -> E2
forge {<id>,"kind":null} -> E2
forge {<id>,"worker":"w"} -> E2
worker {<id>,"kind":"revision"} -> E3
worker {<id>,"kind":"approved","change":1,"revision":1} -> E3
worker {<id>,"kind":"withdrawn"} -> E3
worker {<id>,"kind":"closed","change":0} -> E3
worker {<id>,"kind":"landed","order":1} -> E3
worker {<id>,"kind":"refused"} -> E3
worker {<id>,"kind":"merge"} -> E2
worker {<id>,"id":7,"kind":"landed","order":1} -> E2
# a path name has at most 64 bytes
worker {<id>,"kind":"take","worker":"<1-63 a>"} -> {"kind":"take","worker":"<1-63 a>"}
worker {<id>,"kind":"take","worker":"<1-64 a>"} -> {"kind":"take","worker":"<1-64 a>"}
worker {<id>,"kind":"take","worker":"<1-65 a>"} -> E2
# a message has at most 16384 bytes
any {<id>,"change":1,"kind":"revision","message":"<1-16383 a>","project":"a","revision":1} -> {"change":1,"kind":"revision","message":"<1-16383 a>","project":"a","revision":1}
any {<id>,"change":1,"kind":"revision","message":"<1-16383 a>a","project":"a","revision":1} -> {"change":1,"kind":"revision","message":"<1-16383 a>a","project":"a","revision":1}
any {<id>,"change":1,"kind":"revision","message":"<1-16383 a>\n","project":"a","revision":1} -> {"change":1,"kind":"revision","message":"<1-16383 a>\n","project":"a","revision":1}
any {<id>,"change":1,"kind":"revision","message":"<1-16383 a>\u0001","project":"a","revision":1} -> {"change":1,"kind":"revision","message":"<1-16383 a>\u0001","project":"a","revision":1}
any {<id>,"change":1,"kind":"revision","message":"<1-16383 a>aa","project":"a","revision":1} -> E2
any {<id>,"change":1,"kind":"revision","message":"<1-16383 a>é","project":"a","revision":1} -> E2
any {<id>,"change":1,"kind":"revision","message":"<1-16383 a>\u00e9","project":"a","revision":1} -> E2"#;

#[test]
fn a_delivery_says_what_its_members_say(rt: HostRuntime) {
    rows_hold(&rt, ROWS);
}
