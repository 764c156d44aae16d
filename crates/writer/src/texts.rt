// Whole texts: the frame, and the properties of a message in their order.
ghost use Rattle.std.specs.Prelude.{◌≡◌, ◌+◌, ◌≤◌, ◌++◌, [], length, option_map};
ghost use Rattle.std.specs.List.{flat_map};
ghost use Rattle.lines.specs.Content.{closed};
ghost use Rattle.property.specs.Values.{part_of};
ghost use Rattle.writer.specs.Ranges.{Ranged};
ghost use Rattle.writer.specs.Writing.{head, foot, HouseText, LineOf, Puts, Writes};

use crate::putting::{put, put_all};
use crate::ranges::is_ranged;
use crate::values::{name_text, put_ranged};
use arrayvec::ArrayVec;
use fault::{Cause, Fault, Layer};
use message::{Message, Method};
use property::Value;

// The longest text, and the shortest buffer that is written to.
const LONGEST: usize = 768;

// The most properties that a message has.
const MOST: usize = 13;

// A text with room for the longest.
type House = ArrayVec<u8, LONGEST>;

// Writes the one house text of a message to the buffer's front, keeps the buffer's rest, and tells the length.
// Refused: a buffer under 768 bytes, then a message with a value out of its range.
pub fn write(message: &Message, buffer: &mut [u8]) -> Result<usize, Fault>
    ensures { Writes message.now buffer.old buffer.new result }
{
    if buffer.len() < LONGEST {
        return Err(Fault::new(Layer::Framing, Cause::Short));
    }
    let mut text = ArrayVec::new();
    put_house(&mut text, message).ok_or(Fault::new(Layer::Framing, Cause::Range))?;
    // Two lines, as for a letter and for a row: a function for all would be a crate for it.
    let length = text.len();
    buffer[..length].copy_from_slice(&text);
    Ok(length)
}

// Puts the one house text of a message into an empty text, or tells none where a value is out of its range.
fn put_house(text: &mut House, message: &Message) -> Option<()>
    requires { text.old.items ≡ [] }
    ensures { HouseText message.now (option_map (λ _. text.new) result) }
{
    put_head(text, message.method());
    for value in (0..MOST).map_while(|place| message.value(place)) {
        if !is_ranged(&value) {
            return None;
        }
        put_value(text, &value);
    }
    put_foot(text);
    Some(())
}

// Puts the lines before the properties.
fn put_head(text: &mut House, method: Method)
    requires { text.old.items ≡ [] }
    ensures value { text.new.items ≡ flat_map closed (head method) }
    ensures size { length text.new.items ≤ 89 }
{
    put_all(
        text,
        &[
            b"BEGIN:VCALENDAR\r\nVERSION:2.0\r\nPRODID:-//DOORS//ITIP 1//EN\r\nMETHOD:",
            method.name().as_bytes(),
            b"\r\nBEGIN:VEVENT\r\n",
        ],
    );
}

// Puts the lines behind them.
fn put_foot(text: &mut House)
    requires { length text.old.items + 27 ≤ 768 }
    ensures { text.new.items ≡ text.old.items ++ flat_map closed foot }
{
    put_all(text, &[b"END:VEVENT\r\n", b"END:VCALENDAR\r\n"]);
}

// Puts the line of a value: its property's name, its text, and CR LF.
fn put_value(text: &mut House, value: &Value)
    requires room { length text.old.items + 77 ≤ 768 }
    requires ranged { Ranged (part_of value.now) }
    ensures { Puts (LineOf (part_of value.now)) text.old.items text.new.items }
{
    put(text, name_text(value.property()));
    put_ranged(text, value);
    put(text, b"\r\n");
}
