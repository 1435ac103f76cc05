//! The fault that is answered of a settings file, or that it is sound.
use crate::texts::rows::rows_hold;
use gate_config::ConfigFault;

const ROWS: &str = r#"# a fault of the forge
fault forge = {base = 'b'}¶<queue><project> -> sound
fault forge = {}¶<queue><project> -> 2 missing-member
fault forge = 1¶<queue><project> -> 3 wrong-kind
fault forge = [{base = 'b'}]¶<queue><project> -> 3 wrong-kind
fault forge = {base = 1}¶<queue><project> -> 3 wrong-kind
fault forge = {base = 'b', x = 1}¶<queue><project> -> 4 unknown-member
fault forge = {base = ''}¶<queue><project> -> 5 bad-name
fault forge = {base = 'a b'}¶<queue><project> -> 5 bad-name
# a fault of a queue
fault <forge>queue = [{}]¶<project> -> 2 missing-member
fault <forge>queue = [1, {}]¶<project> -> 2 missing-member
fault <forge>queue = 'q'¶<project> -> 3 wrong-kind
fault <forge>queue = {}¶<project> -> 3 wrong-kind
fault <forge>queue = {name = 'q'}¶<project> -> 3 wrong-kind
fault <forge>queue = [1, {name = 'q'}]¶<project> -> 3 wrong-kind
fault <forge>queue = [{name = 1}]¶<project> -> 3 wrong-kind
fault <forge>queue = [{name = 'q', window = '2'}]¶<project> -> 3 wrong-kind
fault <forge>queue = [{name = 'q', window = 4.0}]¶<project> -> 3 wrong-kind
fault <forge>queue = [{name = 'q', floor = true}]¶<project> -> 3 wrong-kind
fault <forge>queue = [{name = 'q', base = 'b'}]¶<project> -> 4 unknown-member
fault <forge>queue = [{name = ''}]¶<project> -> 5 bad-name
fault <forge>queue = [{name = 'q/q'}]¶<project> -> 5 bad-name
fault <forge>queue = [{name = '-q'}]¶<project> -> 5 bad-name
fault <forge>queue = [{name = 'q'}, {name = 'q'}]¶<project> -> 6 double-name
fault <forge>queue = []¶<project> -> 7 unknown-queue
fault <forge>queue = [{name = 'q', window = -1}]¶<project> -> 8 bad-window
fault <forge>queue = [{name = 'q', window = 0}]¶<project> -> sound
fault <forge>queue = [{name = 'q', window = 2}]¶<project> -> 8 bad-window
fault <forge>queue = [{name = 'q', window = 3}]¶<project> -> sound
fault <forge>queue = [{name = 'q', window = 1000}]¶<project> -> sound
fault <forge>queue = [{name = 'q', window = 1001}]¶<project> -> 8 bad-window
fault <forge>queue = [{name = 'q', window = 9223372036854775807}]¶<project> -> 8 bad-window
fault <forge>queue = [{name = 'q', floor = -3}]¶<project> -> 8 bad-window
fault <forge>queue = [{name = 'q', floor = 0}]¶<project> -> 8 bad-window
fault <forge>queue = [{name = 'q', floor = 1}]¶<project> -> sound
fault <forge>queue = [{name = 'q', floor = 20}]¶<project> -> sound
fault <forge>queue = [{name = 'q', floor = 21}]¶<project> -> 8 bad-window
fault <forge>queue = [{name = 'q', floor = 1000, window = 0}]¶<project> -> sound
fault <forge>queue = [{name = 'q', floor = 1001, window = 0}]¶<project> -> 8 bad-window
fault <forge>queue = [{name = 'q', floor = 0, window = 0}]¶<project> -> 8 bad-window
fault <forge>queue = [{name = 'q', floor = 6, window = 5}]¶<project> -> 8 bad-window
fault <forge>queue = [{name = 'q', floor = 5, window = 5}]¶<project> -> sound
fault <forge>queue = [{name = 'q'}, {name = 'r'}]¶<project> -> sound
fault <forge>queue = [{name = 'r'}, {name = 'r'}]¶<project> -> 6 double-name
fault <forge>queue = [{name = 'r', window = -1}]¶<project> -> 7 unknown-queue
fault <forge>queue = [{name = 'q', window = 5, floor = 4}, {name = 'r', floor = 30}]¶<project> -> 8 bad-window
# a fault of a project or a job
fault <forge><queue>project = [{queue = 'q', job = [{name = 'j'}]}]¶ -> 2 missing-member
fault <forge><queue>project = [{name = 'p', job = [{name = 'j'}]}]¶ -> 2 missing-member
fault <forge><queue>project = [{name = 'p', queue = 'q', job = [{}]}]¶ -> 2 missing-member
fault <forge><queue>project = [{name = 'p', queue = 'q', job = [1, {}]}]¶ -> 2 missing-member
fault <forge><queue>project = {name = 'p', queue = 'q', job = [{name = 'j'}]}¶ -> 3 wrong-kind
fault <forge><queue>project = [{name = ['p'], queue = 'q', job = [{name = 'j'}]}]¶ -> 3 wrong-kind
fault <forge><queue>project = [{name = 'p', queue = 1, job = [{name = 'j'}]}]¶ -> 3 wrong-kind
fault <forge><queue>project = [{name = 'p', queue = 'q', job = 'j'}]¶ -> 3 wrong-kind
fault <forge><queue>project = [{name = 'p', queue = 'q', job = {name = 'j'}}]¶ -> 3 wrong-kind
fault <forge><queue>project = [{name = 'p', queue = 'q', job = ['j']}]¶ -> 3 wrong-kind
fault <forge><queue>project = [{name = 'p', queue = 'q', job = [{name = 1}]}]¶ -> 3 wrong-kind
fault <forge><queue>project = [{name = 'p', queue = 'q', job = [{name = 'j', voting = 0}]}]¶ -> 3 wrong-kind
fault <forge><queue>project = [{name = 'p', queue = 'q', job = [{name = 'j'}], jobs = 1}]¶ -> 4 unknown-member
fault <forge><queue>project = [{name = 'p', queue = 'q', job = [{name = 'j', Voting = true}]}]¶ -> 4 unknown-member
fault <forge><queue>project = [{name = '/p', queue = 'q', job = [{name = 'j'}]}]¶ -> 5 bad-name
fault <forge><queue>project = [{name = 'p/r', queue = 'q', job = [{name = 'j'}]}]¶ -> sound
fault <forge><queue>project = [{name = 'p', queue = 'q', job = [{name = 'j/k'}]}]¶ -> 5 bad-name
fault <forge><queue>project = [{name = 'p', queue = 'q', job = [{name = 'j'}, {name = 'k'}, {name = 'j'}]}]¶ -> 6 double-name
fault <forge><queue>project = [{name = 'p', queue = 'q', job = [{name = 'j'}]}, {name = 'p', queue = 'q', job = [{name = 'k'}]}]¶ -> 6 double-name
fault <forge><queue>project = [{name = 'q', queue = 'q', job = [{name = 'q'}]}, {name = 'p', queue = 'q', job = [{name = 'q'}]}]¶ -> sound
fault <forge><queue>project = [{name = 'p', queue = 'p', job = [{name = 'j'}]}]¶ -> 7 unknown-queue
fault <forge><queue>project = [{name = 'p', queue = 'a b', job = [{name = 'j'}]}]¶ -> 7 unknown-queue
fault <forge><queue>project = [{name = 'p', queue = '', job = [{name = 'j'}]}]¶ -> 7 unknown-queue
fault <forge><queue>project = [{name = 'p', queue = 'q'}]¶ -> 9 no-voting-job
fault <forge><queue>project = [{name = 'p', queue = 'q', job = []}]¶ -> 9 no-voting-job
fault <forge><queue>project = [{name = 'p', queue = 'q', job = [{name = 'j', voting = false}]}]¶ -> 9 no-voting-job
fault <forge><queue>project = [{name = 'p', queue = 'q', job = [{name = 'j', voting = false}, {name = 'k', voting = true}]}]¶ -> sound
fault <forge><queue>project = []¶ -> 10 limit
# a fault of a queue's rule
fault <forge>queue = [{name = 'q', increase = 'fast'}]¶<project> -> 8 bad-window
fault <forge>queue = [{name = 'q', increase = ''}]¶<project> -> 8 bad-window
fault <forge>queue = [{name = 'q', increase = 'Linear'}]¶<project> -> 8 bad-window
fault <forge>queue = [{name = 'q', decrease = 'half'}]¶<project> -> 8 bad-window
fault <forge>queue = [{name = 'q', decrease = 'linear '}]¶<project> -> 8 bad-window
fault <forge>queue = [{name = 'q', increase = 'exponential', increase_by = 2, decrease = 'linear', decrease_by = 5}]¶<project> -> sound
fault <forge>queue = [{name = 'q', increase = 'linear', increase_by = 1, decrease = 'exponential', decrease_by = 2}]¶<project> -> sound
fault <forge>queue = [{name = 'q', increase = 5}]¶<project> -> 3 wrong-kind
fault <forge>queue = [{name = 'q', decrease = true}]¶<project> -> 3 wrong-kind
fault <forge>queue = [{name = 'q', increase_by = '1'}]¶<project> -> 3 wrong-kind
fault <forge>queue = [{name = 'q', decrease_by = '2'}]¶<project> -> 3 wrong-kind
fault <forge>queue = [{name = 'q', decrease_by = 2.0}]¶<project> -> 3 wrong-kind
fault <forge>queue = [{name = 'q', increase_by = 0}]¶<project> -> 8 bad-window
fault <forge>queue = [{name = 'q', increase_by = 1}]¶<project> -> sound
fault <forge>queue = [{name = 'q', increase_by = 1000}]¶<project> -> sound
fault <forge>queue = [{name = 'q', increase_by = 1001}]¶<project> -> 8 bad-window
fault <forge>queue = [{name = 'q', increase_by = -1}]¶<project> -> 8 bad-window
fault <forge>queue = [{name = 'q', decrease_by = 0}]¶<project> -> 8 bad-window
fault <forge>queue = [{name = 'q', decrease_by = 1}]¶<project> -> sound
fault <forge>queue = [{name = 'q', decrease_by = 1000}]¶<project> -> sound
fault <forge>queue = [{name = 'q', decrease_by = 1001}]¶<project> -> 8 bad-window
fault <forge>queue = [{name = 'q', decrease_by = 9223372036854775807}]¶<project> -> 8 bad-window
fault <forge>queue = [{name = 'q', increase-by = 1}]¶<project> -> 4 unknown-member
fault <forge>queue = [{name = 'q', fail_fast = true}]¶<project> -> 4 unknown-member
fault <forge>queue = [{name = 'q', increase = 'fast', decrease_by = '2'}]¶<project> -> 3 wrong-kind
fault <forge>queue = [{name = 'q', increase = 'fast'}]¶project = [{name = 'p', queue = 'r', job = [{name = 'j'}]}]¶ -> 7 unknown-queue
fault <forge>queue = [{name = 'q', increase_by = 0}]¶project = [{name = 'p', queue = 'q'}]¶ -> 8 bad-window
# a fault of failing fast
fault <forge><queue>project = [{name = 'p', queue = 'q', fail_fast = true, job = [{name = 'j'}]}]¶ -> sound
fault <forge><queue>project = [{name = 'p', queue = 'q', fail_fast = false, job = [{name = 'j'}]}]¶ -> sound
fault <forge><queue>project = [{name = 'p', queue = 'q', fail_fast = 1, job = [{name = 'j'}]}]¶ -> 3 wrong-kind
fault <forge><queue>project = [{name = 'p', queue = 'q', fail_fast = 'true', job = [{name = 'j'}]}]¶ -> 3 wrong-kind
fault <forge><queue>project = [{name = 'p', queue = 'q', job = [{name = 'j', fail_fast = true}]}]¶ -> 4 unknown-member
fault <forge><queue>project = [{name = 'p', queue = 'q', increase_by = 1, job = [{name = 'j'}]}]¶ -> 4 unknown-member
# of several faults the least is answered
fault forge = {base = 'b'}¶queue = []¶project = []¶ -> 10 limit
fault forge = {}¶queue = 'q'¶project = 'p'¶ -> 2 missing-member
fault forge = {base = 1}¶queue = [{}]¶project = [{name = 'p', queue = 'q', job = [{name = 'j'}]}]¶ -> 2 missing-member
fault forge = {base = ''}¶queue = [{name = 'q', x = 1}]¶project = [{name = 'p'}]¶ -> 2 missing-member
fault forge = {base = 1}¶queue = [{name = 'q', x = 1}]¶project = [{name = 'p', queue = 'q', job = [{name = 'j'}]}]¶ -> 3 wrong-kind
fault forge = {base = ''}¶queue = [{name = 'q', window = '2'}]¶project = [{name = 'p', queue = 'x', job = [{name = 'j', x = 1}]}]¶ -> 3 wrong-kind
fault forge = {base = ''}¶queue = [{name = 'q', x = 1}]¶project = [{name = 'p', queue = 'q', job = [{name = 'j'}]}]¶ -> 4 unknown-member
fault forge = {base = 'b'}¶queue = [{name = 'q', window = -1}]¶project = [{name = 'p', queue = 'q', job = [], x = 1}]¶ -> 4 unknown-member
fault forge = {base = ''}¶queue = [{name = 'q'}, {name = 'q'}]¶project = [{name = 'p', queue = 'q', job = [{name = 'j'}]}]¶ -> 5 bad-name
fault forge = {base = 'b'}¶queue = [{name = '.'}, {name = '.'}]¶project = [{name = 'p', queue = 'q', job = [{name = 'j'}]}]¶ -> 5 bad-name
fault forge = {base = 'b'}¶queue = [{name = 'r'}, {name = 'r'}]¶project = [{name = 'p', queue = 'q', job = [{name = 'j'}]}]¶ -> 6 double-name
fault forge = {base = 'b'}¶queue = [{name = 'q'}]¶project = [{name = 'p', queue = 'x'}, {name = 'p', queue = 'y'}]¶ -> 6 double-name
fault forge = {base = 'b'}¶queue = [{name = 'q', window = -1}]¶project = [{name = 'p', queue = 'r', job = [{name = 'j'}]}]¶ -> 7 unknown-queue
fault forge = {base = 'b'}¶queue = []¶project = [{name = 'p', queue = 'q', job = [{name = 'j'}]}]¶ -> 7 unknown-queue
fault forge = {base = 'b'}¶queue = [{name = 'q', window = -1}]¶project = [{name = 'p', queue = 'q'}]¶ -> 8 bad-window
fault forge = {base = 'b'}¶queue = [{name = 'q'}, {name = 'r', floor = 21}]¶project = []¶ -> 8 bad-window
fault forge = {base = 'b'}¶queue = [{name = 'q'}, {name = 'r'}]¶project = [{name = 'p', queue = 'q'}]¶ -> 9 no-voting-job
# whole files with faults
fault  -> 2 missing-member
fault [forge -> 1 not-toml
fault forge = 1¶forge = 1¶ -> 1 not-toml
fault queue = []¶project = []¶ -> 2 missing-member
fault forge = {base = 'b'}¶project = []¶ -> 2 missing-member
fault forge = {base = 'b'}¶queue = []¶ -> 2 missing-member
fault [forge]¶base = 'b'¶[queue]¶[[project]]¶name = 'p'¶queue = 'q'¶ -> 3 wrong-kind
fault [forge]¶base = 'b'¶[[queue]]¶name = 'q'¶[[project]]¶name = 'p'¶queue = 'q'¶[project.job]¶ -> 3 wrong-kind
fault x = 1¶forge = {base = 'b'}¶queue = []¶project = []¶ -> 4 unknown-member
# queues, projects and jobs have limits
fault forge = {base = 'b'}¶<0-31 [[queue]]¶name = 'q#'¶>[[project]]¶name = 'p'¶queue = 'q0'¶<0-0 [[project.job]]¶name = 'j#'¶> -> sound
fault forge = {base = 'b'}¶<0-32 [[queue]]¶name = 'q#'¶>[[project]]¶name = 'p'¶queue = 'q0'¶<0-0 [[project.job]]¶name = 'j#'¶> -> 10 limit
fault forge = {base = 'b'}¶<0-0 [[queue]]¶name = 'q#'¶>[[project]]¶name = 'p'¶queue = 'q0'¶<0-0 [[project.job]]¶name = 'j#'¶><1-255 [[project]]¶name = 'p#'¶queue = 'q0'¶[[project.job]]¶name = 'j'¶> -> sound
fault forge = {base = 'b'}¶<0-0 [[queue]]¶name = 'q#'¶>[[project]]¶name = 'p'¶queue = 'q0'¶<0-0 [[project.job]]¶name = 'j#'¶><1-256 [[project]]¶name = 'p#'¶queue = 'q0'¶[[project.job]]¶name = 'j'¶> -> 10 limit
fault forge = {base = 'b'}¶<0-0 [[queue]]¶name = 'q#'¶>[[project]]¶name = 'p'¶queue = 'q0'¶<0-31 [[project.job]]¶name = 'j#'¶> -> sound
fault forge = {base = 'b'}¶<0-0 [[queue]]¶name = 'q#'¶>[[project]]¶name = 'p'¶queue = 'q0'¶<0-32 [[project.job]]¶name = 'j#'¶> -> 10 limit
fault forge = {base = 'b'}¶<0-32 [[queue]]¶name = 'q#'¶>[[project]]¶name = 'p'¶queue = 'q0'¶ -> 9 no-voting-job"#;

#[test]
fn the_least_fault_is_answered(rt: HostRuntime) {
    rows_hold(&rt, ROWS);
}

#[test]
fn want_of_memory_has_a_number_and_a_word(rt: HostRuntime) {
    let fault = ConfigFault::NoMemory;
    assert_eq!(rt; fault.number(), 11);
    assert_eq!(rt; fault.word(), "no-memory");
}
