//! Whole texts, each with its answer: the examples of docs/FORMATS.md, which no test can read from there, and others.
use crate::claims::is;
use crate::texts::answers::answer;
use std::process::Abort;

/// A title behind `# `, the way to ask, what is asked, and the answer behind an arrow.
const CASES: &str = r#"# a revision
any
{"id":"0a000000-0000-4000-8000-000000000001","kind":"revision","change":101,"project":"lib","revision":1,"message":"Add a thing\n\nDepends-On: https://forge/c/100"}
-> {"change":101,"kind":"revision","message":"Add a thing\n\nDepends-On: https://forge/c/100","project":"lib","revision":1}
# an approval
any
{"id":"0a000000-0000-4000-8000-000000000002","kind":"approved","change":101,"revision":1}
-> {"change":101,"kind":"approved","revision":1}
# a withdrawal
any
{"id":"0a000000-0000-4000-8000-000000000003","kind":"withdrawn","change":101,"revision":1}
-> {"change":101,"kind":"withdrawn","revision":1}
# a closing
any
{"id":"0a000000-0000-4000-8000-000000000004","kind":"closed","change":101,"revision":1}
-> {"change":101,"kind":"closed","revision":1}
# a landing
any
{"id":"0a000000-0000-4000-8000-000000000005","kind":"landed","order":1}
-> {"kind":"landed","order":1}
# a refusal
any
{"id":"0a000000-0000-4000-8000-000000000006","kind":"refused","order":1}
-> {"kind":"refused","order":1}
# a worker asks
any
{"id":"0a000000-0000-4000-8000-000000000007","kind":"take","worker":"w1"}
-> {"kind":"take","worker":"w1"}
# a result
any
{"id":"0a000000-0000-4000-8000-000000000008","kind":"result","build":1,"outcome":"success"}
-> {"build":1,"kind":"result","outcome":"success"}
# a message of no bytes
any
{"id":"6ba7b810-9dad-11d1-80b4-00c04fd430c8","kind":"revision","change":101,"project":"lib","revision":1,"message":""}
-> {"change":101,"kind":"revision","message":"","project":"lib","revision":1}
# a failure
any
{"id":"6ba7b810-9dad-11d1-80b4-00c04fd430c8","kind":"result","build":1,"outcome":"failure"}
-> {"build":1,"kind":"result","outcome":"failure"}
# a loss
any
{"id":"6ba7b810-9dad-11d1-80b4-00c04fd430c8","kind":"result","build":1,"outcome":"lost"}
-> {"build":1,"kind":"result","outcome":"lost"}
# a message is escaped
any
{"id":"6ba7b810-9dad-11d1-80b4-00c04fd430c8","kind":"revision","change":999999999,"project":"team/lib","revision":9999,"message":"Say \"hi\" \\\n\u0001/é"}
-> {"change":999999999,"kind":"revision","message":"Say \"hi\" \\\n\u0001/é","project":"team/lib","revision":9999}
# a file says its queues and projects
settings

[forge]
base = "https://forge/c/"

[[queue]]
name = "core"
window = 2
floor = 1

[[queue]]
name = "web"
window = 2
floor = 1

[[project]]
name = "lib"
queue = "core"
[[project.job]]
name = "unit"
[[project.job]]
name = "docs"
voting = false

[[project]]
name = "app"
queue = "core"
[[project.job]]
name = "unit"

[[project]]
name = "site"
queue = "web"
[[project.job]]
name = "unit"

-> {"base":"https://forge/c/","projects":[{"jobs":[{"name":"unit","voting":true},{"name":"docs","voting":false}],"name":"lib","queue":"core"},{"jobs":[{"name":"unit","voting":true}],"name":"app","queue":"core"},{"jobs":[{"name":"unit","voting":true}],"name":"site","queue":"web"}],"queues":[{"floor":1,"name":"core","window":2},{"floor":1,"name":"web","window":2}]}
# a queue has defaults
settings
forge = {base = '!'}
queue = [{name = 'q'}]
project = [{name = 'p/1', queue = 'q', job = [{name = 'j'}]}]
-> {"base":"!","projects":[{"jobs":[{"name":"j","voting":true}],"name":"p/1","queue":"q"}],"queues":[{"floor":3,"name":"q","window":20}]}
# settings have one text
settings
forge = {base = "https://forge/c/"}
queue = [{floor = 1, window = 2, name = "core"}]
project = [{queue = "core", name = "app", job = [{name = "unit"}]}]
-> {"base":"https://forge/c/","projects":[{"jobs":[{"name":"unit","voting":true}],"name":"app","queue":"core"}],"queues":[{"floor":1,"name":"core","window":2}]}
# the text keeps the order of the file
settings
forge = {base = '"\'}
queue = [{name = "z"}, {name = "a", window = 0}]
project = [{queue = "a", name = "b/c", job = [{name = "y", voting = false}, {name = "x"}]}, {queue = "z", name = "a", job = [{name = "x"}]}]
-> {"base":"\"\\","projects":[{"jobs":[{"name":"y","voting":false},{"name":"x","voting":true}],"name":"b/c","queue":"a"},{"jobs":[{"name":"x","voting":true}],"name":"a","queue":"z"}],"queues":[{"floor":3,"name":"z","window":20},{"floor":3,"name":"a","window":0}]}
# the least settings
settings
forge = {base = 'b'}
queue = [{name = 'q'}]
project = [{name = 'p', queue = 'q', job = [{name = 'j'}]}]
-> {"base":"b","projects":[{"jobs":[{"name":"j","voting":true}],"name":"p","queue":"q"}],"queues":[{"floor":3,"name":"q","window":20}]}
# a file says a rule and fail_fast
settings
forge = {base = 'b'}
queue = [{name = 'core', increase = 'exponential', increase_by = 2, decrease = 'linear', decrease_by = 5}]
project = [{name = 'p', queue = 'core', fail_fast = true, job = [{name = 'j'}]}]
-> {"base":"b","projects":[{"fail_fast":true,"jobs":[{"name":"j","voting":true}],"name":"p","queue":"core"}],"queues":[{"decrease":"linear","decrease_by":5,"floor":3,"increase":"exponential","increase_by":2,"name":"core","window":20}]}
# only what isn't the default of a rule is told
settings
forge = {base = 'b'}
queue = [{name = 'a', decrease = 'linear'}, {name = 'b', decrease_by = 3}, {name = 'c', increase = 'exponential'}, {name = 'd', increase_by = 2}, {name = 'e', decrease = 'exponential', decrease_by = 2, increase = 'linear', increase_by = 1}]
project = [{name = 'p', queue = 'a', fail_fast = false, job = [{name = 'j'}]}]
-> {"base":"b","projects":[{"jobs":[{"name":"j","voting":true}],"name":"p","queue":"a"}],"queues":[{"decrease":"linear","floor":3,"name":"a","window":20},{"decrease_by":3,"floor":3,"name":"b","window":20},{"floor":3,"increase":"exponential","name":"c","window":20},{"floor":3,"increase_by":2,"name":"d","window":20},{"floor":3,"name":"e","window":20}]}
# kept settings
kept
{"base":"https://forge/c/","projects":[{"jobs":[{"name":"unit","voting":true},{"name":"docs","voting":false}],"name":"lib","queue":"core"},{"jobs":[{"name":"unit","voting":true}],"name":"app","queue":"core"},{"jobs":[{"name":"unit","voting":true}],"name":"site","queue":"web"}],"queues":[{"floor":1,"name":"core","window":2},{"floor":1,"name":"web","window":2}]}
-> {"base":"https://forge/c/","projects":[{"jobs":[{"name":"unit","voting":true},{"name":"docs","voting":false}],"name":"lib","queue":"core"},{"jobs":[{"name":"unit","voting":true}],"name":"app","queue":"core"},{"jobs":[{"name":"unit","voting":true}],"name":"site","queue":"web"}],"queues":[{"floor":1,"name":"core","window":2},{"floor":1,"name":"web","window":2}]}
# the least kept settings
kept
{"base":"b","projects":[{"jobs":[{"name":"j","voting":true}],"name":"p","queue":"q"}],"queues":[{"floor":3,"name":"q","window":20}]}
-> {"base":"b","projects":[{"jobs":[{"name":"j","voting":true}],"name":"p","queue":"q"}],"queues":[{"floor":3,"name":"q","window":20}]}
# large kept settings
kept
{"base":"\"\\!~/[]{},:","projects":[{"jobs":[{"name":"unit","voting":true},{"name":"0","voting":false},{"name":"a.b_c-d","voting":true},{"name":"Z","voting":false}],"name":"team/lib","queue":"a"},{"jobs":[{"name":"x","voting":true}],"name":"9/8/7","queue":"z.z"},{"jobs":[{"name":"unit","voting":true},{"name":"0","voting":false},{"name":"a.b_c-d","voting":true},{"name":"Z","voting":false}],"name":"p","queue":"a"},{"jobs":[{"name":"x","voting":true}],"name":"q_-.","queue":"0"},{"jobs":[{"name":"unit","voting":true},{"name":"0","voting":false},{"name":"a.b_c-d","voting":true},{"name":"Z","voting":false}],"name":"P","queue":"z.z"}],"queues":[{"floor":1,"name":"z.z","window":0},{"floor":1000,"name":"a","window":1000},{"floor":999,"name":"0","window":1000}]}
-> {"base":"\"\\!~/[]{},:","projects":[{"jobs":[{"name":"unit","voting":true},{"name":"0","voting":false},{"name":"a.b_c-d","voting":true},{"name":"Z","voting":false}],"name":"team/lib","queue":"a"},{"jobs":[{"name":"x","voting":true}],"name":"9/8/7","queue":"z.z"},{"jobs":[{"name":"unit","voting":true},{"name":"0","voting":false},{"name":"a.b_c-d","voting":true},{"name":"Z","voting":false}],"name":"p","queue":"a"},{"jobs":[{"name":"x","voting":true}],"name":"q_-.","queue":"0"},{"jobs":[{"name":"unit","voting":true},{"name":"0","voting":false},{"name":"a.b_c-d","voting":true},{"name":"Z","voting":false}],"name":"P","queue":"z.z"}],"queues":[{"floor":1,"name":"z.z","window":0},{"floor":1000,"name":"a","window":1000},{"floor":999,"name":"0","window":1000}]}
# a space in a kept text
kept
{"base":"b", "projects":[{"jobs":[{"name":"j","voting":true}],"name":"p","queue":"q"}],"queues":[{"floor":3,"name":"q","window":20}]}
-> no settings
# a line end behind a kept text
kept
{"base":"b","projects":[{"jobs":[{"name":"j","voting":true}],"name":"p","queue":"q"}],"queues":[{"floor":3,"name":"q","window":20}]}

-> no settings
# a kept text that is cut
kept
{"base":"b","projects":[{"jobs":[{"name":"j","voting":true}],"name":"p","queue":"q"}],"queues":[{"floor":3,"name":"q","window":20}]
-> no settings
# no kept text
kept

-> no settings
# members of a kept queue in another order
kept
{"base":"b","projects":[{"jobs":[{"name":"j","voting":true}],"name":"p","queue":"q"}],"queues":[{"name":"q","floor":3,"window":20}]}
-> no settings
# members of kept settings in another order
kept
{"queues":[{"floor":3,"name":"q","window":20}],"base":"b","projects":[{"jobs":[{"name":"j","voting":true}],"name":"p","queue":"q"}]}
-> no settings
# a member more in a kept text
kept
{"base":"b","projects":[{"jobs":[{"name":"j","voting":true}],"name":"p","queue":"q"}],"queues":[{"floor":3,"name":"q","window":20,"x":1}]}
-> no settings
# a double member in a kept text
kept
{"base":"b","base":"b","projects":[{"jobs":[{"name":"j","voting":true}],"name":"p","queue":"q"}],"queues":[{"floor":3,"name":"q","window":20}]}
-> no settings
# a kept number with a point
kept
{"base":"b","projects":[{"jobs":[{"name":"j","voting":true}],"name":"p","queue":"q"}],"queues":[{"floor":3,"name":"q","window":20.0}]}
-> no settings
# a kept window of 1,001
kept
{"base":"b","projects":[{"jobs":[{"name":"j","voting":true}],"name":"p","queue":"q"}],"queues":[{"floor":3,"name":"q","window":1001}]}
-> no settings
# a kept window below its floor
kept
{"base":"b","projects":[{"jobs":[{"name":"j","voting":true}],"name":"p","queue":"q"}],"queues":[{"floor":3,"name":"q","window":2}]}
-> no settings
# a kept text that escapes a letter
kept
{"base":"\u0062","projects":[{"jobs":[{"name":"j","voting":true}],"name":"p","queue":"q"}],"queues":[{"floor":3,"name":"q","window":20}]}
-> no settings
# a kept project without its queue
kept
{"base":"b","projects":[{"jobs":[{"name":"j","voting":true}],"name":"p","queue":"r"}],"queues":[{"floor":3,"name":"q","window":20}]}
-> no settings
# kept queues of one name
kept
{"base":"b","projects":[{"jobs":[{"name":"j","voting":true}],"name":"p","queue":"q"}],"queues":[{"floor":3,"name":"q","window":20},{"floor":3,"name":"q","window":20}]}
-> no settings
# kept jobs of which none votes
kept
{"base":"b","projects":[{"jobs":[{"name":"j","voting":false}],"name":"p","queue":"q"}],"queues":[{"floor":3,"name":"q","window":20}]}
-> no settings
# a kept truth value as a number
kept
{"base":"b","projects":[{"jobs":[{"name":"j","voting":1}],"name":"p","queue":"q"}],"queues":[{"floor":3,"name":"q","window":20}]}
-> no settings
# kept settings without projects
kept
{"base":"b","projects":[],"queues":[{"floor":3,"name":"q","window":20}]}
-> no settings
# a kept name with a space
kept
{"base":"b","projects":[{"jobs":[{"name":"j","voting":true}],"name":"p p","queue":"q"}],"queues":[{"floor":3,"name":"q","window":20}]}
-> no settings
# a kept rule and fail_fast
kept
{"base":"b","projects":[{"fail_fast":true,"jobs":[{"name":"j","voting":true}],"name":"p","queue":"core"}],"queues":[{"decrease":"linear","decrease_by":5,"floor":3,"increase":"exponential","increase_by":2,"name":"core","window":20}]}
-> {"base":"b","projects":[{"fail_fast":true,"jobs":[{"name":"j","voting":true}],"name":"p","queue":"core"}],"queues":[{"decrease":"linear","decrease_by":5,"floor":3,"increase":"exponential","increase_by":2,"name":"core","window":20}]}
# a kept factor alone
kept
{"base":"b","projects":[{"jobs":[{"name":"j","voting":true}],"name":"p","queue":"q"}],"queues":[{"decrease_by":1000,"floor":3,"name":"q","window":20}]}
-> {"base":"b","projects":[{"jobs":[{"name":"j","voting":true}],"name":"p","queue":"q"}],"queues":[{"decrease_by":1000,"floor":3,"name":"q","window":20}]}
# another one
kept
{"base":"b","projects":[{"jobs":[{"name":"j","voting":true}],"name":"p","queue":"q"}],"queues":[{"floor":3,"increase_by":1000,"name":"q","window":20}]}
-> {"base":"b","projects":[{"jobs":[{"name":"j","voting":true}],"name":"p","queue":"q"}],"queues":[{"floor":3,"increase_by":1000,"name":"q","window":20}]}
# kept rules, each with one part that isn't the default
kept
{"base":"b","projects":[{"jobs":[{"name":"j","voting":true}],"name":"p","queue":"a"}],"queues":[{"decrease":"linear","floor":3,"name":"a","window":20},{"decrease_by":3,"floor":3,"name":"b","window":20},{"floor":3,"increase":"exponential","name":"c","window":20},{"floor":3,"increase_by":2,"name":"d","window":20},{"floor":3,"name":"e","window":20}]}
-> {"base":"b","projects":[{"jobs":[{"name":"j","voting":true}],"name":"p","queue":"a"}],"queues":[{"decrease":"linear","floor":3,"name":"a","window":20},{"decrease_by":3,"floor":3,"name":"b","window":20},{"floor":3,"increase":"exponential","name":"c","window":20},{"floor":3,"increase_by":2,"name":"d","window":20},{"floor":3,"name":"e","window":20}]}
# a kept default written out
kept
{"base":"b","projects":[{"jobs":[{"name":"j","voting":true}],"name":"p","queue":"q"}],"queues":[{"decrease":"exponential","floor":3,"name":"q","window":20}]}
-> no settings
# a kept default number written out
kept
{"base":"b","projects":[{"jobs":[{"name":"j","voting":true}],"name":"p","queue":"q"}],"queues":[{"floor":3,"increase_by":1,"name":"q","window":20}]}
-> no settings
# a kept fail_fast that is false
kept
{"base":"b","projects":[{"fail_fast":false,"jobs":[{"name":"j","voting":true}],"name":"p","queue":"q"}],"queues":[{"floor":3,"name":"q","window":20}]}
-> no settings
# a kept pace of another word
kept
{"base":"b","projects":[{"fail_fast":true,"jobs":[{"name":"j","voting":true}],"name":"p","queue":"core"}],"queues":[{"decrease":"fast","decrease_by":5,"floor":3,"increase":"exponential","increase_by":2,"name":"core","window":20}]}
-> no settings
# a kept factor of 0
kept
{"base":"b","projects":[{"fail_fast":true,"jobs":[{"name":"j","voting":true}],"name":"p","queue":"core"}],"queues":[{"decrease":"linear","decrease_by":0,"floor":3,"increase":"exponential","increase_by":2,"name":"core","window":20}]}
-> no settings
# a kept factor of 1,001
kept
{"base":"b","projects":[{"fail_fast":true,"jobs":[{"name":"j","voting":true}],"name":"p","queue":"core"}],"queues":[{"decrease":"linear","decrease_by":1001,"floor":3,"increase":"exponential","increase_by":2,"name":"core","window":20}]}
-> no settings
# a kept factor as a text
kept
{"base":"b","projects":[{"fail_fast":true,"jobs":[{"name":"j","voting":true}],"name":"p","queue":"core"}],"queues":[{"decrease":"linear","decrease_by":"5","floor":3,"increase":"exponential","increase_by":2,"name":"core","window":20}]}
-> no settings
# a sound file
fault

[forge]
base = "https://forge/c/"

[[queue]]
name = "core"
window = 2
floor = 1

[[queue]]
name = "web"
window = 2
floor = 1

[[project]]
name = "lib"
queue = "core"
[[project.job]]
name = "unit"
[[project.job]]
name = "docs"
voting = false

[[project]]
name = "app"
queue = "core"
[[project.job]]
name = "unit"

[[project]]
name = "site"
queue = "web"
[[project.job]]
name = "unit"

-> sound
# a file that ends too early
fault
[forge
-> 1 not-toml
# a file of no bytes
fault

-> 2 missing-member
# five needs
needs
https://forge/c/|Depends-On: https://forge/c/1
Depends-On: https://forge/c/2
Depends-On: https://forge/c/3
Depends-On: https://forge/c/4
Depends-On: https://forge/c/5

-> [1, 2, 3, 4, 5]
# a build with two changes ahead
reply
build 0 101,1 103,2
-> {"after":0,"ahead":[[101,1],[103,2]],"build":3,"change":102,"job":"unit","queue":"core","reply":"build","revision":1}"#;

/// Whether a case has an answer, which is its own then.
fn is_answered(rt: &(impl Abort + AllocGlobal), case: &str) -> bool {
    let (title, rest) = case.split_once('\n').expect(rt, case);
    let (way, rest) = rest.split_once('\n').expect(rt, case);
    let (asked, wanted) = rest.split_once("\n-> ").expect(rt, case);
    match answer(rt.alloc(), way, asked.as_bytes()) {
        Some(found) => {
            is(rt, found.as_str(), wanted, title);
            true
        }
        None => false,
    }
}

/// How many cases have no answer.
fn unanswered(rt: &(impl Abort + AllocGlobal)) -> u32 {
    let mut count = 0u32;
    for case in CASES.split("\n# ") {
        if !is_answered(rt, case) {
            count = count.saturating_add(1);
        }
    }
    count
}

#[test]
fn each_text_has_its_answer(rt: HostRuntime) {
    assert_eq!(rt; unanswered(&rt), 0);
}

/// Passes whichever one allocation is refused: one case has no answer then.
#[test]
fn a_refused_allocation_is_told(rt: HostRuntime) {
    assert!(rt; unanswered(&rt) < 2);
}
