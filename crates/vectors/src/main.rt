// Many cases of texts: a line of the input makes a text and has it read, or has a message written, and the line that is printed ends with the answer.
#![tactic(auto)]

mod answers;
mod bases;
mod cases;
mod edits;
mod parts;

use cases::answer;
use std::io::{BufRead, BufReader};

// Each program of cases has this loop: no clause can say what an input gives, so a function for all would promise nothing.
fn main(rt: HostRuntime) -> anyhow::Result<()> {
    for line in BufReader::new(rt.alloc(), rt.stdin())?.lines(rt.alloc()) {
        let line = line?;
        answer(&rt, line.as_str())?;
    }
    Ok(())
}
