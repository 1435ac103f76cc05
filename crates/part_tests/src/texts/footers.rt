//! Which changes messages need, with answers worked out by hand: a base, `|` and a message.
use crate::texts::rows::rows_hold;

const ROWS: &str = r#"# a footer names a change
needs <base>| -> []
needs <base>|Fix a thing -> []
needs <base>|Depends-On: <base>101 -> [101]
needs <base>|Depends-On: <base>101¶ -> [101]
needs <base>|Fix¶¶Depends-On: <base>101<cr>¶Depends-On: <base>7<cr>¶ -> [101, 7]
needs <base>|Depends-On:<base>1 -> [1]
needs <base>|depends-on:  <tab> <base>999999999 -> [999999999]
needs <base>|dEPENDS-oN:<tab><base>12 <tab><cr><cr>  -> [12]
needs <base>|¶¶¶Depends-On: <base>3¶¶ -> [3]
needs <base>|Depends-On: <base>5¶Depends-On: <base>4 -> [5, 4]
# any other line is ignored
needs <base>| Depends-On: <base>5 -> []
needs <base>|Depends-On : <base>5 -> []
needs <base>|Depends-On <base>5 -> []
needs <base>|Depends-On: <base> -> []
needs <base>|Depends-On: <base>0 -> []
needs <base>|Depends-On: <base>0102 -> []
needs <base>|Depends-On: <base>1000000000 -> []
needs <base>|Depends-On: <base>+5 -> []
needs <base>|Depends-On: <base>5/ -> []
needs <base>|Depends-On: <base>5 6 -> []
needs <base>|Depends-On: <base> 5 -> []
needs <base>|Depends-On: https://forge/C/5 -> []
needs <base>|Depends-On: HTTPS://forge/c/5 -> []
needs <base>|Depends-On: https://other/c/5 -> []
needs <base>|Depends-On: 5 -> []
needs <base>|Depends-On: <cr><base>5 -> []
needs <base>|Depends-On: <base>5<cr>6 -> []
needs <base>|Dependſ-On: <base>5 -> []
needs <base>|Depends-On:<nbsp><base>5 -> []
needs <base>|Depends-On: <base>٥ -> []
needs <base>|See Depends-On: <base>5 -> []
needs <base>|Depends-On: <base>5<vt> -> []
# a double need is kept at its first place
needs <base>|Depends-On: <base>101<cr>¶depends-on:<base>0102¶DEPENDS-ON:<tab><base>101 ¶ Depends-On: <base>5¶Depends-On: <base>7 -> [101, 7]
needs <base>|Depends-On: <base>2¶Depends-On: <base>1¶Depends-On: <base>2¶Depends-On: <base>1 -> [2, 1]
# a base is compared byte for byte
needs c/1|Depends-On: c/12 -> [2]
needs c/1|Depends-On: c/1 -> []
needs |Depends-On: 12 -> [12]
needs  a|Depends-On:  a12 -> []
needs a |Depends-On: a 12 -> [12]
needs é|Depends-On: é12 -> [12]
needs ¶|Depends-On: ¶12 -> []
# thirty-two needs are the most
needs <base>|<1-1 Depends-On: https://forge/c/#¶><1-1 Depends-On: https://forge/c/#¶> -> [1]
needs <base>|<1-31 Depends-On: https://forge/c/#¶><1-31 Depends-On: https://forge/c/#¶> -> [1<2-31 , #>]
needs <base>|<1-32 Depends-On: https://forge/c/#¶><1-32 Depends-On: https://forge/c/#¶> -> [1<2-32 , #>]
needs <base>|<1-33 Depends-On: https://forge/c/#¶><1-33 Depends-On: https://forge/c/#¶> -> E13
needs <base>|<1-40 Depends-On: https://forge/c/#¶><1-40 Depends-On: https://forge/c/#¶> -> E13"#;

#[test]
fn a_message_names_its_needs(rt: HostRuntime) {
    rows_hold(&rt, ROWS);
}
