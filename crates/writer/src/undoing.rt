// Reading and writing undo each other.
ghost use Rattle.property.specs.Values.{part_of};
ghost use Rattle.writer.specs.Writing.{Rereads, Rewrites, RereadsValue, RewritesValue};

use crate::putting::WIDEST;
use crate::texts::write;
use crate::values::value_text;
use arrayvec::ArrayVec;
use fault::{Fault, Property};
use message::Message;
use property::Value;

// Writes a message and reads it back: what is written reads as the message that it came from.
pub fn reread(message: &Message, buffer: &mut [u8]) -> Result<Message, Fault>
    ensures { Rereads message.now buffer.old result }
{
    let length = write(message, buffer)?;
    Message::read(&buffer[..length])
}

// Reads a text and writes it back: a house text comes out as it was, and any other text as the house text of the same message.
pub fn rewrite(text: &[u8], buffer: &mut [u8]) -> Result<usize, Fault>
    ensures { Rewrites text.now buffer.old buffer.new result }
{
    let message = Message::read(text)?;
    write(&message, buffer)
}

// Writes the text of a property and reads it back: the same value, or none where it is out of its range.
#[tactic(auto, using(crate::proofs::Undone::value_read_back))]
pub fn reread_value(value: &Value) -> Option<Value>
    ensures { RereadsValue (part_of value.now) result }
{
    let text = value_text(value)?;
    Value::read(value.property(), &text)
}

// Reads the text of a property and writes it back: the same bytes, or none where the property never has this text.
#[tactic(auto, using(crate::proofs::Undone::value_written_back))]
pub fn rewrite_value(property: Property, text: &[u8]) -> Option<ArrayVec<u8, WIDEST>>
    ensures { RewritesValue property text.now result }
{
    let value = Value::read(property, text)?;
    value_text(&value)
}
