// Many cases of stores: a line of the input makes a store or calls one of its functions, and the line that is printed ends with the answer.
#![tactic(auto)]

mod calls;
mod made;

use std::io::{BufRead, BufReader};

// Each program of cases has this loop: no clause can say what an input gives, so a function for all would promise nothing.
fn main(rt: HostRuntime) -> anyhow::Result<()> {
    let mut made = None;
    for line in BufReader::new(rt.alloc(), rt.stdin())?.lines(rt.alloc()) {
        made::answer(&rt, &mut made, line?.as_str())?;
    }
    Ok(())
}
