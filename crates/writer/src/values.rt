// The lines of values: a property's name, and the text of its value.
ghost use Rattle.std.specs.Prelude.{◌≡◌, ◌+◌, ◌≤◌, length};
ghost use Rattle.property.specs.Values.{part_of, name_text, title_text, TitleText, Says, summary};
ghost use Rattle.writer.specs.Ranges.{Ranged};
ghost use Rattle.writer.specs.Writing.{TextOf, Puts};

use crate::attendees::attendee_text;
use crate::numbers::{meeting_text, sequence_text};
use crate::putting::{Text, joined, put};
use crate::ranges::is_ranged;
use crate::stamps::{put_moment, put_period};
use arrayvec::ArrayVec;
use fault::Property;
use property::{Title, Value};

// A property's name. Here, and no `Display` of `Property`: that is a type of faults, which print it by its number and know no texts.
pub(crate) fn name_text(property: Property) -> &'static [u8]
    ensures { result.now ≡ name_text property }
{
    match property {
        Property::Uid => b"UID",
        Property::Dtstamp => b"DTSTAMP",
        Property::Sequence => b"SEQUENCE",
        Property::Organizer => b"ORGANIZER",
        Property::Attendee => b"ATTENDEE",
        Property::Summary => b"SUMMARY",
        Property::Dtstart => b"DTSTART",
        Property::Dtend => b"DTEND",
        Property::Rdate => b"RDATE",
        Property::Status => b"STATUS",
        Property::Basis => b"X-BASIS",
    }
}

// The text of a value, from its separator on, or none where the value is out of its range.
pub(crate) fn value_text(value: &Value) -> Option<Text>
    ensures { TextOf (part_of value.now) result }
{
    is_ranged(value).then(|| ranged_text(value))
}

// The text of a value that is in its range.
fn ranged_text(value: &Value) -> Text
    requires { Ranged (part_of value.now) }
    ensures { Says (part_of value.now) result.items }
{
    let mut text = ArrayVec::new();
    put_ranged(&mut text, value);
    text
}

// Puts the text of a value that is in its range behind what stands in a text.
pub(crate) fn put_ranged<const N: usize>(text: &mut ArrayVec<u8, N>, value: &Value)
    requires room { length text.old.items + 64 ≤ N }
    requires ranged { Ranged (part_of value.now) }
    ensures { Puts (Says (part_of value.now)) text.old.items text.new.items }
{
    match *value {
        Value::Uid(meeting) => put(text, &meeting_text(meeting)),
        Value::Dtstamp(stamp) | Value::Dtstart(stamp) | Value::Dtend(stamp) | Value::Basis(stamp) =>
            put_moment(text, stamp),
        Value::Sequence(sequence) => put(text, &sequence_text(sequence)),
        Value::Organizer => put(text, b":mailto:site@doors"),
        Value::Attendee(attendee) => put(text, &attendee_text(attendee)),
        Value::Summary(title) => put(text, &summary_text(&title)),
        Value::Rdate(period) => put_period(text, period),
        Value::Status => put(text, b":CANCELLED"),
    }
}

// The text of SUMMARY.
fn summary_text(title: &Title) -> Text
    requires { TitleText (title_text title.now) }
    ensures { Says (summary (title_text title.now)) result.items }
{
    joined(&[b":", title.as_bytes()])
}
