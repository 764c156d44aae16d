// The store that the calls are for, and how one is made.
use crate::calls::call;
use casebook::Outcome;
use fault::NotMade;
use store::{Log, Table};

// An enum and no `Box<dyn Store>`, since a rule of the gate needs it: no function may make a dyn value and hand it out.
#[derive(Drop)]
pub enum Made {
    Table(Table),
    Log(Log),
}

// Makes what a line asks for, or has the store that was made do it.
pub fn answer(rt: &HostRuntime, made: &mut Option<Made>, line: &str) -> anyhow::Result<()> {
    match line.split_once(' ') {
        Some(("table", size)) => *made = report(rt, line, table(rt, size))?,
        Some(("log", size)) => *made = report(rt, line, log(rt, size))?,
        _ => used(rt, made, line)?,
    }
    Ok(())
}

// One line, in each table: what it says of a text is what `parse` says.
fn number(text: &str) -> usize {
    text.parse::<usize>().unwrap_or(0)
}

fn table(rt: &HostRuntime, size: &str) -> Result<Made, NotMade> {
    Ok(Made::Table(Table::new(rt.alloc(), number(size))?))
}

fn log(rt: &HostRuntime, size: &str) -> Result<Made, NotMade> {
    Ok(Made::Log(Log::new(rt.alloc(), number(size))?))
}

// Printed here, as what a call answered in calls.rt: no clause can say what is printed.
fn report(
    rt: &HostRuntime,
    line: &str,
    made: Result<Made, NotMade>,
) -> anyhow::Result<Option<Made>> {
    let outcome = Outcome {
        result: made.as_ref().map(|_| "made"),
    };
    println!(rt; "{line} = {outcome}")?;
    Ok(made.ok())
}

fn used(rt: &HostRuntime, made: &mut Option<Made>, line: &str) -> anyhow::Result<()> {
    match made {
        None => println!(rt; "{line}")?,
        Some(Made::Table(table)) => call(rt, table, line)?,
        Some(Made::Log(log)) => call(rt, log, line)?,
    }
    Ok(())
}
