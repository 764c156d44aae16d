// Calls of any store.
use casebook::{Copied, Outcome};
use fault::Fault;
use std::fmt::Display;
use store::{Key, Store};

pub fn call<S: Store>(rt: &HostRuntime, store: &mut S, line: &str) -> anyhow::Result<()> {
    let (name, rest) = line.split_once(' ').unwrap_or((line, ""));
    match name {
        "put" => put(rt, store, line, rest),
        "get" => get(rt, store, line, rest),
        "rewrite" => rewrite(rt, store, line, rest),
        "held" => told(rt, line, Ok(store.held())),
        _ => Ok(println!(rt; "{line}")?),
    }
}

fn key(text: &str) -> Key {
    Key {
        number: text.parse::<u16>().unwrap_or(65_535),
    }
}

// Printed here, and in the other tables of calls: no clause can say what is printed, so a function for all would promise nothing.
fn told<A: Display + Drop>(
    rt: &HostRuntime,
    line: &str,
    answered: Result<A, Fault>,
) -> anyhow::Result<()> {
    let outcome = Outcome { result: answered };
    println!(rt; "{line} = {outcome}")?;
    Ok(())
}

// `put 3 words`, or `put 3 *n` for n bytes.
// Words or `*n`, here and in the other table: a function that made the bytes of either would say less than it does, since it may lack memory.
fn put<S: Store>(rt: &HostRuntime, store: &mut S, line: &str, rest: &str) -> anyhow::Result<()> {
    let (name, text) = rest.split_once(' ').unwrap_or((rest, ""));
    let answer = match text.strip_prefix("*") {
        Some(length) => {
            let many = vec![in rt.alloc(); b'x'; length.parse::<usize>().unwrap_or(0)]?;
            store.put(key(name), many.as_slice())
        }
        None => store.put(key(name), text.as_bytes()),
    };
    told(rt, line, answer.map(|()| "ok"))
}

// `rewrite 3 n`: puts n rows under one key, one over another.
fn rewrite<S: Store>(
    rt: &HostRuntime,
    store: &mut S,
    line: &str,
    rest: &str,
) -> anyhow::Result<()> {
    let (name, times) = rest.split_once(' ').unwrap_or((rest, "0"));
    let mut answer = Ok(());
    for i in 0..times.parse::<u32>().unwrap_or(0) {
        let row = format!(in rt.alloc(); "{i}")?;
        answer = store.put(key(name), row.as_str().as_bytes());
    }
    told(rt, line, answer.map(|()| "ok"))
}

// `get 3 n`, with a buffer of n bytes that are all dots before.
fn get<S: Store>(rt: &HostRuntime, store: &mut S, line: &str, rest: &str) -> anyhow::Result<()> {
    let (name, size) = rest.split_once(' ').unwrap_or((rest, "192"));
    let mut buffer = vec![in rt.alloc(); b'.'; size.parse::<usize>().unwrap_or(0)]?;
    let answered = store.get(key(name), buffer.as_mut_slice());
    let copied = Copied {
        result: answered,
        buffer: buffer.as_slice(),
    };
    println!(rt; "{line} = {copied}")?;
    Ok(())
}
