// The carrier that the calls are for, and how one is made.
use crate::calls::call;
use carrier::{Fates, Plan, Ring, Stack};
use casebook::Outcome;
use fault::NotMade;

// An enum and no `Box<dyn Countable>`, since a rule of the gate needs it: no function may make a dyn value and hand it out.
#[derive(Drop)]
pub enum Made {
    Ring(Ring),
    Stack(Stack),
    Fates(Fates<Ring>),
}

// Makes what a line asks for, or has the carrier that was made do it.
pub fn answer(rt: &HostRuntime, made: &mut Option<Made>, line: &str) -> anyhow::Result<()> {
    match line.split_once(' ') {
        Some(("ring", size)) => *made = report(rt, line, ring(rt, size))?,
        Some(("stack", size)) => *made = report(rt, line, stack(rt, size))?,
        Some(("fates", rest)) => *made = report(rt, line, fates(rt, rest))?,
        _ => used(rt, made, line)?,
    }
    Ok(())
}

// One line, in each table: what it says of a text is what `parse` says.
fn number(text: &str) -> usize {
    text.parse::<usize>().unwrap_or(0)
}

fn ring(rt: &HostRuntime, size: &str) -> Result<Made, NotMade> {
    Ok(Made::Ring(Ring::new(rt.alloc(), number(size))?))
}

fn stack(rt: &HostRuntime, size: &str) -> Result<Made, NotMade> {
    Ok(Made::Stack(Stack::new(rt.alloc(), number(size))?))
}

// A plan's digits and the size of the ring below it.
fn fates(rt: &HostRuntime, rest: &str) -> Result<Made, NotMade> {
    let (digits, size) = rest.split_once(' ').unwrap_or((rest, "1"));
    let plan = Plan::read(rt.alloc(), digits.as_bytes())?;
    let below = Ring::new(rt.alloc(), number(size))?;
    Ok(Made::Fates(Fates::new(below, plan)))
}

// Printed here, as what a call answered in calls.rt: no clause can say what is printed.
fn report(
    rt: &HostRuntime,
    line: &str,
    made: Result<Made, NotMade>,
) -> anyhow::Result<Option<Made>> {
    let outcome = Outcome {
        result: made.as_ref().map(|_| "made"),
    };
    println!(rt; "{line} = {outcome}")?;
    Ok(made.ok())
}

fn used(rt: &HostRuntime, made: &mut Option<Made>, line: &str) -> anyhow::Result<()> {
    match made {
        None => println!(rt; "{line}")?,
        Some(Made::Ring(ring)) => call(rt, ring, line)?,
        Some(Made::Stack(stack)) => call(rt, stack, line)?,
        Some(Made::Fates(fates)) => call(rt, fates, line)?,
    }
    Ok(())
}
