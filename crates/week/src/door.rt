// Door 2: what it holds in its log, and what it makes of its mail.
use crate::arrivals::{read_revision, take};
use carrier::{Address, Carrier};
use fault::Fault;
use rank::Revision;
use std::alloc::{AllocError, Global};
use std::str::from_utf8;
use store::{Key, Log, Store};

const DOOR: Address = Address { number: 2 };

// The row of door 2 for meeting 7: 64 for each door, and the meeting.
const ROW: Key = Key { number: 135 };

#[derive(Drop)]
pub struct Door {
    log: Log,
    mail: Vec<u8>,
}

impl Door {
    pub fn new(heap: Global, log: Log) -> Result<Door, AllocError> {
        let mail = vec![in heap; 0; 768]?;
        Ok(Door { log, mail })
    }

    // Sends a text to the door.
    pub fn send<C: Carrier>(
        &self,
        rt: &HostRuntime,
        carrier: &mut C,
        text: &str,
    ) -> anyhow::Result<()> {
        match carrier.post(DOOR, text.as_bytes()) {
            Ok(()) => println!(rt; "  sent {text}")?,
            Err(fault) => println!(rt; "  not sent {text}: {fault}")?,
        }
        Ok(())
    }

    // Takes what waits for the door, until nothing does; at most as much as a relay holds.
    pub fn take_all<C: Carrier>(
        &mut self,
        rt: &HostRuntime,
        carrier: &mut C,
    ) -> anyhow::Result<()> {
        for _ in 0..64 {
            match carrier.fetch(DOOR, self.mail.as_mut_slice()) {
                Ok(length) => self.arrive(rt, length)?,
                Err(fault) => {
                    println!(rt; "  then {fault}")?;
                    return Ok(());
                }
            }
        }
        Ok(())
    }

    // Reads the text at the front of the mail, and keeps it if it is newer than the row.
    fn arrive(&mut self, rt: &HostRuntime, length: usize) -> anyhow::Result<()> {
        let held = self.held();
        let text = self.mail.get(0..length).unwrap_or(b"");
        let shown = from_utf8(text).unwrap_or("?");
        match read_revision(shown) {
            Err(fault) => println!(rt; "  came {shown}: refused, {fault}")?,
            Ok(came) => {
                let kept = take(held, came);
                if held == Some(kept) {
                    println!(rt; "  came {shown}: not newer than what is held")?;
                } else {
                    match self.log.put(ROW, text) {
                        Ok(()) => println!(rt; "  came {shown}: taken")?,
                        Err(fault) => println!(rt; "  came {shown}: not kept, {fault}")?,
                    }
                }
            }
        }
        Ok(())
    }

    // The revision that the log has, if it has one.
    fn held(&self) -> Option<Revision> {
        self.read_row().ok()
    }

    fn read_row(&self) -> Result<Revision, Fault> {
        let mut row = [0; 192];
        let length = self.log.get(ROW, &mut row)?;
        let text = row.get(0..length).unwrap_or(b"");
        read_revision(from_utf8(text).unwrap_or("?"))
    }

    // What the log has.
    pub fn report(&self, rt: &HostRuntime) -> anyhow::Result<()> {
        let rows = self.log.held();
        match self.held() {
            Some(revision) => {
                let sequence = revision.sequence.number;
                let dtstamp = revision.dtstamp;
                println!(rt;
                    "in the log of door 2, {rows} row: SEQUENCE {sequence}, DTSTAMP {dtstamp}"
                )?;
            }
            None => println!(rt; "in the log of door 2, {rows} rows: no revision")?,
        }
        Ok(())
    }
}
