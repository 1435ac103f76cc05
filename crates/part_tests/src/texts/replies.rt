//! The texts of replies, byte for byte.
use crate::texts::rows::rows_hold;

const ROWS: &str = r#"# a reply has its word
reply recorded -> {"reply":"recorded"}
reply stale -> {"reply":"stale"}
reply waiting -> {"reply":"waiting"}
reply already -> {"reply":"already"}
reply removed -> {"reply":"removed"}
reply noted -> {"reply":"noted"}
# a reply has its number
reply queued 1 -> {"order":1,"reply":"queued"}
reply queued 1000000000000000 -> {"order":1000000000000000,"reply":"queued"}
reply landed 1 -> {"n":1,"reply":"landed"}
reply landed 0 -> {"n":0,"reply":"landed"}
reply landed 18446744073709551615 -> {"n":18446744073709551615,"reply":"landed"}
# a build has what it runs on
reply build 0 -> {"after":0,"ahead":[],"build":3,"change":102,"job":"unit","queue":"core","reply":"build","revision":1}
reply build 0 101,1 -> {"after":0,"ahead":[[101,1]],"build":3,"change":102,"job":"unit","queue":"core","reply":"build","revision":1}
reply build 12 1,9999 999999999,2 7,3 -> {"after":12,"ahead":[[1,9999],[999999999,2],[7,3]],"build":3,"change":102,"job":"unit","queue":"core","reply":"build","revision":1}"#;

#[test]
fn a_reply_has_one_text(rt: HostRuntime) {
    rows_hold(&rt, ROWS);
}
