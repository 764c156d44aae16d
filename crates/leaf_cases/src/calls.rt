// One call a line.
use casebook::Outcome;
use fault::{Cause, Fault, Layer};
use rank::{Revision, Sequence, keep_newer};
use stamp::Stamp;
use std::io;

const CAUSES: [Cause; 20] = [
    Cause::Line,
    Cause::Frame,
    Cause::Method,
    Cause::Malformed,
    Cause::Misdirected,
    Cause::Unknown,
    Cause::Stale,
    Cause::Ahead,
    Cause::Dates,
    Cause::Range,
    Cause::Taken,
    Cause::Over,
    Cause::Spent,
    Cause::StoreFull,
    Cause::CarrierFull,
    Cause::Short,
    Cause::NoMail,
    Cause::Unfinished,
    Cause::NoAnswer,
    Cause::Unreadable,
];

pub fn answer(rt: &HostRuntime, line: &str) -> io::Result<()> {
    match line.split_once(' ') {
        Some(("read", text)) => read(rt, line, text),
        Some(("write", number)) => write(rt, line, number),
        Some(("fresh", numbers)) => fresh(rt, line, numbers),
        Some(("keep", revisions)) => keep(rt, line, revisions),
        Some(("faults", tester)) => faults(rt, tester),
        _ => println!(rt; "{line}"),
    }
}

fn read(rt: &HostRuntime, line: &str, text: &str) -> io::Result<()> {
    let result = Stamp::read(text.as_bytes())
        .map(|stamp| stamp.seconds)
        .ok_or("none");
    let outcome = Outcome { result };
    println!(rt; "{line} = {outcome}")
}

fn seconds(text: &str) -> Stamp {
    Stamp {
        seconds: text.parse::<u32>().unwrap_or(0),
    }
}

fn write(rt: &HostRuntime, line: &str, number: &str) -> io::Result<()> {
    let stamp = seconds(number);
    println!(rt; "{line} = {stamp}")
}

fn fresh(rt: &HostRuntime, line: &str, numbers: &str) -> io::Result<()> {
    let Some((clock, previous)) = numbers.split_once(' ') else {
        return println!(rt; "{line} = not two numbers");
    };
    let result = Stamp::fresh(seconds(clock), seconds(previous)).map(|stamp| stamp.seconds);
    let outcome = Outcome { result };
    println!(rt; "{line} = {outcome}")
}

// Revisions as SEQUENCE/DTSTAMP, one after another; the first is held, and each that follows comes in.
fn keep(rt: &HostRuntime, line: &str, revisions: &str) -> io::Result<()> {
    let kept = revisions
        .split(' ')
        .filter_map(|text| revision(text))
        .reduce(|held, came| keep_newer(held, came));
    match kept {
        Some(kept) => {
            let sequence = kept.sequence.number;
            let seconds = kept.dtstamp.seconds;
            println!(rt; "{line} = {sequence}/{seconds}")
        }
        None => println!(rt; "{line} = none"),
    }
}

fn revision(text: &str) -> Option<Revision> {
    let (sequence, dtstamp) = text.split_once('/')?;
    let number = sequence.parse::<u16>().ok()?;
    Some(Revision {
        sequence: Sequence { number },
        dtstamp: seconds(dtstamp),
    })
}

// Every cause, as found by the store or else by the writer of texts.
fn faults(rt: &HostRuntime, tester: &str) -> io::Result<()> {
    let tester = match tester {
        "store" => Layer::Store,
        _ => Layer::Framing,
    };
    for cause in CAUSES {
        let fault = Fault::new(tester, cause);
        println!(rt; "{fault}")?;
    }
    Ok(())
}
