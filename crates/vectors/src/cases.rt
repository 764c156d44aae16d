// What a line of the input asks for.
//
// `BASE EDIT | EDIT ..` makes a text of a base and edits, `lines LINE | LINE ..` one of the lines as they stand; it is read.
// `write SIZE BASE FIELD=VALUE ..` reads a base, changes fields of the message and writes it into a buffer of SIZE bytes.
// A line that starts with `#` is a heading.
use crate::answers::{read, write};
use crate::bases::base;
use crate::edits::edited;
use crate::parts::{closed_line, first_word, number};
use std::alloc::{AllocError, Global};

pub fn answer(rt: &HostRuntime, line: &str) -> anyhow::Result<()> {
    if line.starts_with("#") {
        println!(rt; "{line}")?;
        return Ok(());
    }
    print!(rt; "{line} = ")?;
    match line.split_once(' ') {
        Some(("write", rest)) => written(rt, rest),
        _ => match made(rt.alloc(), line)? {
            Some(text) => read(rt, text.as_slice()),
            None => no_case(rt),
        },
    }
}

fn no_case(rt: &HostRuntime) -> anyhow::Result<()> {
    println!(rt; "no such case")?;
    Ok(())
}

fn written(rt: &HostRuntime, rest: &str) -> anyhow::Result<()> {
    let (size, rest) = first_word(rest);
    let (name, changes) = first_word(rest);
    match base(rt.alloc(), name)? {
        Some(text) => write(rt, number(size), text.as_slice(), changes),
        None => no_case(rt),
    }
}

// The text that a case makes, or none where there is no such base or edit.
fn made(heap: Global, case: &str) -> Result<Option<Vec<u8>>, AllocError> {
    let (name, rest) = first_word(case);
    if name == "lines" {
        return Ok(Some(lines(heap, rest)?));
    }
    let Some(mut text) = base(heap, name)? else {
        return Ok(None);
    };
    if rest.is_empty() {
        return Ok(Some(text));
    }
    for edit in rest.split(" | ") {
        let Some(next) = edited(heap, text.as_slice(), edit)? else {
            return Ok(None);
        };
        text = next;
    }
    Ok(Some(text))
}

// The text of lines as a case writes them, one after another.
fn lines(heap: Global, rest: &str) -> Result<Vec<u8>, AllocError> {
    let mut text = Vec::new(heap);
    for line in rest.split(" | ") {
        text.extend_from_slice(closed_line(heap, line)?.as_slice())?;
    }
    Ok(text)
}
