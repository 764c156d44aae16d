// Many cases of stamps, ranks and faults: a line of the input names a call and its arguments, and the line that is printed ends with the answer.
#![tactic(auto)]

mod calls;

use calls::answer;
use std::io::{BufRead, BufReader};

// Each program of cases has this loop: no clause can say what an input gives, so a function for all would promise nothing.
fn main(rt: HostRuntime) -> anyhow::Result<()> {
    for line in BufReader::new(rt.alloc(), rt.stdin())?.lines(rt.alloc()) {
        let line = line?;
        answer(&rt, line.as_str())?;
    }
    Ok(())
}
