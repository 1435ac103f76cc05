//! Which texts are ids.
use crate::texts::rows::rows_hold;

const ROWS: &str = r#"# an id is read in each form
id {"id":"6ba7b8109dad11d180b400c04fd430c8","kind":"landed","order":1} -> 6ba7b8109dad11d180b400c04fd430c8
forge {"id":"6ba7b8109dad11d180b400c04fd430c8","kind":"landed","order":1} -> {"kind":"landed","order":1}
id {"id":"6BA7B8109DAD11D180B400C04FD430C8","kind":"landed","order":1} -> 6ba7b8109dad11d180b400c04fd430c8
forge {"id":"6BA7B8109DAD11D180B400C04FD430C8","kind":"landed","order":1} -> {"kind":"landed","order":1}
id {"id":"6ba7b810-9dad-11d1-80b4-00c04fd430c8","kind":"landed","order":1} -> 6ba7b8109dad11d180b400c04fd430c8
forge {"id":"6ba7b810-9dad-11d1-80b4-00c04fd430c8","kind":"landed","order":1} -> {"kind":"landed","order":1}
id {"id":"6BA7b810-9dAD-11d1-80b4-00C04fd430C8","kind":"landed","order":1} -> 6ba7b8109dad11d180b400c04fd430c8
forge {"id":"6BA7b810-9dAD-11d1-80b4-00C04fd430C8","kind":"landed","order":1} -> {"kind":"landed","order":1}
id {"id":"{6ba7b810-9dad-11d1-80b4-00c04fd430c8}","kind":"landed","order":1} -> 6ba7b8109dad11d180b400c04fd430c8
forge {"id":"{6ba7b810-9dad-11d1-80b4-00c04fd430c8}","kind":"landed","order":1} -> {"kind":"landed","order":1}
id {"id":"urn:uuid:6ba7b810-9dad-11d1-80b4-00c04fd430c8","kind":"landed","order":1} -> 6ba7b8109dad11d180b400c04fd430c8
forge {"id":"urn:uuid:6ba7b810-9dad-11d1-80b4-00c04fd430c8","kind":"landed","order":1} -> {"kind":"landed","order":1}
id {"id":"URN:UUID:6BA7B810-9DAD-11D1-80B4-00C04FD430C8","kind":"landed","order":1} -> 6ba7b8109dad11d180b400c04fd430c8
forge {"id":"URN:UUID:6BA7B810-9DAD-11D1-80B4-00C04FD430C8","kind":"landed","order":1} -> {"kind":"landed","order":1}
id {"id":"00000000-0000-0000-0000-000000000000","kind":"landed","order":1} -> 00000000000000000000000000000000
forge {"id":"00000000-0000-0000-0000-000000000000","kind":"landed","order":1} -> {"kind":"landed","order":1}
# what is no id is refused
forge {"id":"","kind":"landed","order":1} -> E2
forge {"id":"6ba7b8109dad11d180b400c04fd430c","kind":"landed","order":1} -> E2
forge {"id":"6ba7b8109dad11d180b400c04fd430c8a","kind":"landed","order":1} -> E2
forge {"id":"6ba7b8109dad11d180b400c04fd430cg","kind":"landed","order":1} -> E2
forge {"id":"6ba7b81-09dad-11d1-80b4-00c04fd430c8","kind":"landed","order":1} -> E2
forge {"id":"6ba7b810-9dad-11d1-80b4-00c04fd430c","kind":"landed","order":1} -> E2
forge {"id":"{6ba7b8109dad11d180b400c04fd430c8}","kind":"landed","order":1} -> E2
forge {"id":"{6ba7b810-9dad-11d1-80b4-00c04fd430c8","kind":"landed","order":1} -> E2
forge {"id":"urn:uuid:6ba7b8109dad11d180b400c04fd430c8","kind":"landed","order":1} -> E2
forge {"id":"uuid:6ba7b810-9dad-11d1-80b4-00c04fd430c8","kind":"landed","order":1} -> E2
forge {"id":" 6ba7b8109dad11d180b400c04fd430c8","kind":"landed","order":1} -> E2
forge {"id":"6ba7b810-9dad-11d1-80b4-00c04fd430c8\n","kind":"landed","order":1} -> E2"#;

#[test]
fn an_id_is_read_in_each_form(rt: HostRuntime) {
    rows_hold(&rt, ROWS);
}
