// What reading a text and writing a message answer, in words.
use casebook::{Copied, trailing_dots};
use message::{Body, Message};
use property::{Door, Heard, Meeting, Period, partstat};
use rank::Sequence;
use stamp::Stamp;
use std::io;
use std::str::from_utf8;

// The longest text.
const LONGEST: usize = 768;

// Reads a text, and writes what was read.
pub fn read(rt: &HostRuntime, text: &[u8]) -> anyhow::Result<()> {
    match Message::read(text) {
        Ok(message) => {
            show(rt, &message)?;
            rewrite(rt, text, &message)
        }
        Err(fault) => {
            println!(rt; "{fault}")?;
            Ok(())
        }
    }
}

// Whether writing gives the text that was read, or how many bytes it gives instead.
fn rewrite(rt: &HostRuntime, text: &[u8], message: &Message) -> anyhow::Result<()> {
    let mut buffer = vec![in rt.alloc(); b'.'; LONGEST]?;
    match writer::write(message, buffer.as_mut_slice()) {
        Ok(length) => {
            let house = buffer.get(0..length).unwrap_or(b"?");
            if house == text {
                println!(rt; ", written back")?;
            } else {
                println!(rt; ", written as {length} bytes")?;
            }
        }
        Err(fault) => println!(rt; ", not written: {fault}")?,
    }
    Ok(())
}

// Reads a text, changes the message and writes it into a buffer that is all dots before.
pub fn write(rt: &HostRuntime, size: usize, text: &[u8], changes: &str) -> anyhow::Result<()> {
    let mut buffer = vec![in rt.alloc(); b'.'; size]?;
    let mut message = match Message::read(text) {
        Ok(message) => message,
        Err(fault) => {
            println!(rt; "not read: {fault}")?;
            return Ok(());
        }
    };
    for change in changes.split(' ') {
        let (field, value) = change.split_once('=').unwrap_or((change, ""));
        set(&mut message, field, value);
    }
    match writer::write(&message, buffer.as_mut_slice()) {
        Ok(length) => reread(rt, buffer.as_slice(), length),
        refused => {
            let copied = Copied {
                result: refused,
                buffer: buffer.as_slice(),
            };
            println!(rt; "{copied}")?;
            Ok(())
        }
    }
}

// What the text at a buffer's front says.
fn reread(rt: &HostRuntime, buffer: &[u8], length: usize) -> anyhow::Result<()> {
    let dots = trailing_dots(buffer);
    print!(rt; "{length} bytes, then {dots} dots: ")?;
    match Message::read(buffer.get(0..length).unwrap_or(b"")) {
        Ok(message) => show(rt, &message)?,
        Err(fault) => print!(rt; "{fault}")?,
    }
    println!(rt; "")?;
    Ok(())
}

// Stamps are given by their count of seconds.
fn set(message: &mut Message, field: &str, value: &str) {
    let small = value.parse::<u8>().unwrap_or(255);
    let at = Stamp {
        seconds: value.parse::<u32>().unwrap_or(0),
    };
    match field {
        "meeting" => message.meeting = Meeting { number: small },
        "door" => message.door = Door { number: small },
        "sequence" => {
            let number = value.parse::<u16>().unwrap_or(65_535);
            message.sequence = Sequence { number };
        }
        "dtstamp" => message.dtstamp = at,
        "heard" => message.body = with_heard(&message.body, at),
        "basis" => message.body = with_basis(&message.body, at),
        _ => {}
    }
}

fn with_heard(body: &Body, at: Stamp) -> Body {
    let heard = Some(Heard { shown: None, at });
    match *body {
        Body::Request { title, dates, .. } => Body::Request {
            heard,
            title,
            dates,
        },
        Body::Cancel { .. } => Body::Cancel { heard },
        other => other,
    }
}

fn with_basis(body: &Body, at: Stamp) -> Body {
    match *body {
        Body::Reply { answer, .. } => Body::Reply { answer, basis: at },
        other => other,
    }
}

fn show(rt: &HostRuntime, message: &Message) -> io::Result<()> {
    let method = message.method();
    let meeting = message.meeting.number;
    let door = message.door.number;
    let sequence = message.sequence.number;
    let dtstamp = message.dtstamp;
    print!(rt; "{method} {meeting} door {door} sequence {sequence} dtstamp {dtstamp}")?;
    show_body(rt, &message.body)
}

fn show_body(rt: &HostRuntime, body: &Body) -> io::Result<()> {
    match *body {
        Body::Request {
            heard,
            title,
            dates,
        } => {
            show_heard(rt, heard)?;
            let title = from_utf8(title.as_bytes()).unwrap_or("?");
            print!(rt; " title \"{title}\" dates")?;
            show_date(rt, dates.first())?;
            for date in dates.further() {
                show_date(rt, *date)?;
            }
            Ok(())
        }
        Body::Cancel { heard } => show_heard(rt, heard),
        Body::Reply { answer, basis } => { print!(rt; " answer {answer} basis {basis}") }
    }
}

fn show_date(rt: &HostRuntime, date: Period) -> io::Result<()> {
    let start = date.start;
    let end = date.end;
    print!(rt; " {start}/{end}")
}

fn show_heard(rt: &HostRuntime, heard: Option<Heard>) -> io::Result<()> {
    match heard {
        Some(heard) => {
            let shown = partstat(heard.shown);
            let at = heard.at;
            print!(rt; " heard {shown} at {at}")
        }
        None => print!(rt; " heard none"),
    }
}
