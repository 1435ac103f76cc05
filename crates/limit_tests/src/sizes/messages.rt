//! The longest message, as it is told again.
use crate::settings::ONE_JOB;
use crate::sizes::{Sized, are_answered, told};
use crate::talks::push_change;
use std::alloc::{AllocError, Global};

/// The bytes of the longest message.
const LONGEST: usize = 16_384;

fn sized(alloc: Global) -> Result<Sized, AllocError> {
    let message = "m".repeat(alloc, LONGEST)?;
    let mut talk = String::new(alloc);
    push_change(&mut talk, 101, "lib", message.as_str())?;
    let mut sized = told(alloc, ONE_JOB, talk.as_str())?;
    let line = format!(in alloc;
        "{{\"change\":101,\"id\":\"0a000000000040008000000000000101\",\"kind\":\"revision\",\"message\":\"{message}\",\"project\":\"lib\",\"revision\":1}}\nend 1\n"
    )?;
    sized.exchanges.stream("/deliveries", line.as_str())?;
    Ok(sized)
}

#[test]
fn the_longest_message_is_told_again(rt: HostRuntime) {
    are_answered(&rt, sized(rt.alloc()), "the longest message");
}
