// A floor's week, as far as it goes: revisions of one meeting travel to door 2 by mail that reorders, doubles and loses.
// The door keeps the newest in its log, and the statement says what was sent, what came, what was kept, and what was refused.
#![tactic(auto)]

mod arrivals;
mod door;

use anyhow::anyhow;
use carrier::{Fates, Plan, Ring, Stack};
use door::Door;
use fault::NotMade;
use store::Log;

const FIRST: &str = "0 20250127T100000Z";

const SECOND: &str = "1 20250129T120000Z";
// Its day is not on the calendar.
const DAMAGED: &str = "1 20250229T120000Z";

fn main(rt: HostRuntime) -> anyhow::Result<()> {
    let heap = rt.alloc();
    let mut stack = Stack::new(heap, 4).map_err(|_| anyhow!("the stack was not made"))?;
    let log = Log::new(heap, 8).map_err(|_| anyhow!("the log was not made"))?;
    let mut door = Door::new(heap, log)?;
    println!(rt; "Wednesday, by a relay that hands out the latest first:")?;
    door.send(&rt, &mut stack, FIRST)?;
    door.send(&rt, &mut stack, SECOND)?;
    door.take_all(&rt, &mut stack)?;
    let mut fates = lossy(&rt).map_err(|_| anyhow!("the fates layer was not made"))?;
    println!(rt;
        "Thursday, by a relay that doubles the first text, loses the second and carries the third:"
    )?;
    door.send(&rt, &mut fates, FIRST)?;
    door.send(&rt, &mut fates, SECOND)?;
    door.send(&rt, &mut fates, DAMAGED)?;
    door.take_all(&rt, &mut fates)?;
    door.report(&rt)
}

// A ring of 4 under a plan of three fates.
fn lossy(rt: &HostRuntime) -> Result<Fates<Ring>, NotMade> {
    let plan = Plan::read(rt.alloc(), b"201")?;
    let below = Ring::new(rt.alloc(), 4)?;
    Ok(Fates::new(below, plan))
}
