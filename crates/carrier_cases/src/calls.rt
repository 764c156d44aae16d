// Calls of any countable carrier.
use carrier::{Address, Countable};
use casebook::{Copied, Outcome};
use fault::Fault;
use std::fmt::Display;

pub fn call<C: Countable>(rt: &HostRuntime, carrier: &mut C, line: &str) -> anyhow::Result<()> {
    let (name, rest) = line.split_once(' ').unwrap_or((line, ""));
    match name {
        "post" => post(rt, carrier, line, rest),
        "fetch" => fetch(rt, carrier, line, rest),
        "count" => told(rt, line, carrier.count(address(rest))),
        "full" => told(rt, line, Ok(carrier.is_full())),
        _ => Ok(println!(rt; "{line}")?),
    }
}

fn address(text: &str) -> Address {
    Address {
        number: text.parse::<u8>().unwrap_or(255),
    }
}

// Printed here, and in the other tables of calls: no clause can say what is printed, so a function for all would promise nothing.
fn told<A: Display + Drop>(
    rt: &HostRuntime,
    line: &str,
    answered: Result<A, Fault>,
) -> anyhow::Result<()> {
    let outcome = Outcome { result: answered };
    println!(rt; "{line} = {outcome}")?;
    Ok(())
}

// `post 3 words`, or `post 3 *n` for n bytes.
// Words or `*n`, here and in the other table: a function that made the bytes of either would say less than it does, since it may lack memory.
fn post<C: Countable>(
    rt: &HostRuntime,
    carrier: &mut C,
    line: &str,
    rest: &str,
) -> anyhow::Result<()> {
    let (to, text) = rest.split_once(' ').unwrap_or((rest, ""));
    let answer = match text.strip_prefix("*") {
        Some(length) => {
            let many = vec![in rt.alloc(); b'x'; length.parse::<usize>().unwrap_or(0)]?;
            carrier.post(address(to), many.as_slice())
        }
        None => carrier.post(address(to), text.as_bytes()),
    };
    told(rt, line, answer.map(|()| "ok"))
}

// `fetch 3 n`, with a buffer of n bytes that are all dots before.
fn fetch<C: Countable>(
    rt: &HostRuntime,
    carrier: &mut C,
    line: &str,
    rest: &str,
) -> anyhow::Result<()> {
    let (to, size) = rest.split_once(' ').unwrap_or((rest, "768"));
    let mut buffer = vec![in rt.alloc(); b'.'; size.parse::<usize>().unwrap_or(0)]?;
    let answered = carrier.fetch(address(to), buffer.as_mut_slice());
    let copied = Copied {
        result: answered,
        buffer: buffer.as_slice(),
    };
    println!(rt; "{line} = {copied}")?;
    Ok(())
}
