// Messages (iTIP, RFC 5546): the record of a message, and the reader of texts.
#![tactic(auto)]

ghost use Rattle.message.specs.Grammar.{Reads, Alone};

mod events;
mod kinds;
mod methods;
mod names;
mod orders;
mod parts;
mod periods;
mod progress;
mod reading;

use fault::Fault;
pub use kinds::{Body, Message, Method, Periods};
use lines::Lines;
use progress::Reading;

impl Message {
    // The message that a text means. A refusal names the first line that breaks a rule, and the property that was wanted there.
    pub fn read(text: &[u8]) -> Result<Message, Fault>
        ensures reads { Reads text.now result }
        ensures alone { Alone text.now result }
    {
        let mut lines = Lines::new(text);
        let mut reading = Reading::new();
        while let Some(line) = lines.next()? {
            reading.take(&line)?;
        }
        reading.finish(lines.upcoming())
    }
}
