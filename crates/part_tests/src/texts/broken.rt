//! Texts that are no JSON, or no delivery.
use crate::claims::is;
use crate::texts::answers::answer;
use crate::texts::rows::rows_hold;
use std::process::Abort;

const ROWS: &str = r#"# four hundred digits are no JSON
any <1-400 9> -> E1
any {<id>,"kind":"landed","order":<1-400 9>} -> E1
any {<id>,"kind":"landed","x":<1-400 9>} -> E1
# what is no object is no delivery
any null -> E2
any true -> E2
any 1 -> E2
any [] -> E2
any "id" -> E2
any {"kind":"landed","order":1} -> E2
any [{"id":"6ba7b810-9dad-11d1-80b4-00c04fd430c8","kind":"landed","order":1}] -> E2
any  {} <cr>¶ -> E2
# what is no JSON is refused
any  -> E1
any   -> E1
any { -> E1
any {}x -> E1
any {} {} -> E1
any nul -> E1
any 'a' -> E1
any {"id":} -> E1
any {"id"} -> E1
any [1,] -> E1
any 1. -> E1
any "\u12" -> E1
any NaN -> E1
any <cr> -> E1
any <bom>{} -> E1
any "<tab>" -> E1
any // a¶{} -> E1
# brackets nest to 127
any <1-126 [><1-126 ]> -> E2
any <1-127 [><1-127 ]> -> E2
any <1-128 [><1-128 ]> -> E1"#;

#[test]
fn what_is_no_delivery_is_refused(rt: HostRuntime) {
    rows_hold(&rt, ROWS);
}

/// A way to ask, bytes, and the answer.
const NO_TEXTS: &[(&str, &[u8], &str)] = &[
    ("any", b"\"\xff\"", "E1"),
    ("any", b"\"\x80\"", "E1"),
    ("any", b"\xc3\"\"", "E1"),
    ("any", b"\"\xc3\"", "E1"),
    ("any", b"{}\xfe", "E1"),
    ("fault", b"forge = {base = '\xff'}", "1 not-toml"),
];

fn is_refused(rt: &(impl Abort + AllocGlobal), way: &str, bytes: &[u8], wanted: &str) {
    let found = answer(rt.alloc(), way, bytes).expect(rt, way);
    is(rt, found.as_str(), wanted, "bytes that are no text");
}

#[test]
fn bytes_that_are_no_text_are_refused(rt: HostRuntime) {
    for (way, bytes, wanted) in NO_TEXTS {
        is_refused(&rt, way, bytes, wanted);
    }
}
