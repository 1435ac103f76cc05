//! The needs of a change that is put again, as the tables of a file keep them.
use crate::stored::files::{SETTINGS, made_under};
use crate::stored::tables::{empty, has_then};
use sqlite::{Alter, Connection};
use std::process::Abort;

/// 102 needs what 101 needs.
const TWO_NEED: &str =
    r#"> {"id":"0e000000-0000-4000-8000-000000000001","kind":"revision","change":101,"project":"lib","revision":1,"message":"Depends-On: https://forge/c/1\nDepends-On: https://forge/c/2\nDepends-On: https://forge/c/3"}
< {"reply":"recorded"}
> {"id":"0e000000-0000-4000-8000-000000000002","kind":"revision","change":102,"project":"lib","revision":1,"message":"Depends-On: https://forge/c/1\nDepends-On: https://forge/c/2\nDepends-On: https://forge/c/3"}
< {"reply":"recorded"}"#;

const THE_SAME: &str =
    r#"> {"id":"0e000000-0000-4000-8000-000000000003","kind":"revision","change":101,"project":"lib","revision":2,"message":"Depends-On: https://forge/c/1\nDepends-On: https://forge/c/2\nDepends-On: https://forge/c/3"}
< {"reply":"recorded"}"#;

const ANOTHER_ORDER: &str =
    r#"> {"id":"0e000000-0000-4000-8000-000000000004","kind":"revision","change":101,"project":"lib","revision":3,"message":"Depends-On: https://forge/c/3\nDepends-On: https://forge/c/1\nDepends-On: https://forge/c/2"}
< {"reply":"recorded"}"#;

const FEWER: &str =
    r#"> {"id":"0e000000-0000-4000-8000-000000000005","kind":"revision","change":101,"project":"lib","revision":4,"message":"Depends-On: https://forge/c/3\nDepends-On: https://forge/c/1"}
< {"reply":"recorded"}"#;

const MORE: &str =
    r#"> {"id":"0e000000-0000-4000-8000-000000000006","kind":"revision","change":101,"project":"lib","revision":5,"message":"Depends-On: https://forge/c/3\nDepends-On: https://forge/c/1\nDepends-On: https://forge/c/4"}
< {"reply":"recorded"}"#;

const OTHERS: &str =
    r#"> {"id":"0e000000-0000-4000-8000-000000000007","kind":"revision","change":101,"project":"lib","revision":6,"message":"Depends-On: https://forge/c/5\nDepends-On: https://forge/c/6\nDepends-On: https://forge/c/7"}
< {"reply":"recorded"}"#;

const ROWS_OF_TWO: &str = "6 is SELECT count(*) FROM need
1 is SELECT needed FROM need WHERE change = 101 AND place = 0
2 is SELECT needed FROM need WHERE change = 101 AND place = 1
3 is SELECT needed FROM need WHERE change = 101 AND place = 2";

/// The rows are those that were written first: none was written anew.
const ROWS_OF_THE_SAME: &str = "6 is SELECT count(*) FROM need
3 is SELECT count(*) FROM need WHERE change = 101 AND rowid <= 3
1 is SELECT needed FROM need WHERE change = 101 AND place = 0
2 is SELECT needed FROM need WHERE change = 101 AND place = 1
3 is SELECT needed FROM need WHERE change = 101 AND place = 2";

const ROWS_OF_ANOTHER_ORDER: &str = "6 is SELECT count(*) FROM need
3 is SELECT needed FROM need WHERE change = 101 AND place = 0
1 is SELECT needed FROM need WHERE change = 101 AND place = 1
2 is SELECT needed FROM need WHERE change = 101 AND place = 2";

const ROWS_OF_FEWER: &str = "5 is SELECT count(*) FROM need
3 is SELECT needed FROM need WHERE change = 101 AND place = 0
1 is SELECT needed FROM need WHERE change = 101 AND place = 1";

const ROWS_OF_MORE: &str = "6 is SELECT count(*) FROM need
3 is SELECT needed FROM need WHERE change = 101 AND place = 0
1 is SELECT needed FROM need WHERE change = 101 AND place = 1
4 is SELECT needed FROM need WHERE change = 101 AND place = 2";

/// Those of 102 have stayed all along.
const ROWS_OF_OTHERS: &str = "6 is SELECT count(*) FROM need
5 is SELECT needed FROM need WHERE change = 101 AND place = 0
6 is SELECT needed FROM need WHERE change = 101 AND place = 1
7 is SELECT needed FROM need WHERE change = 101 AND place = 2
1 is SELECT needed FROM need WHERE change = 102 AND place = 0
2 is SELECT needed FROM need WHERE change = 102 AND place = 1
3 is SELECT needed FROM need WHERE change = 102 AND place = 2";

/// What is told, and the rows then.
const STEPS: [(&str, &str); 6] = [
    (TWO_NEED, ROWS_OF_TWO),
    (THE_SAME, ROWS_OF_THE_SAME),
    (ANOTHER_ORDER, ROWS_OF_ANOTHER_ORDER),
    (FEWER, ROWS_OF_FEWER),
    (MORE, ROWS_OF_MORE),
    (OTHERS, ROWS_OF_OTHERS),
];

fn steps<S: Alter + Drop>(rt: &(impl Abort + AllocGlobal), mut conn: Connection<S>) {
    conn = made_under(rt, conn, SETTINGS);
    for (told, rows) in STEPS {
        conn = has_then(rt, conn, SETTINGS, told, rows);
    }
}

#[test]
fn a_change_put_again_has_the_needs_that_it_was_put_with(rt: HostRuntime) {
    steps(&rt, empty(&rt));
}
