// The numbered things: meetings, doors and SEQUENCE.
ghost use Rattle.std.specs.Prelude.{◌≡◌, ◌≤◌, codes};
ghost use Rattle.property.specs.Bytes.{four};
ghost use Rattle.property.specs.Values.{After, MeetingText, DoorText, SequenceText};
ghost use Rattle.writer.specs.Ranges.{DoorRanged};

use crate::putting::{Text, joined};
use itoa::Buffer;
use property::{Door, Meeting};
use rank::Sequence;
use stamp::write_two;

// Four digits with zeros in front.
fn four_digits(number: u16) -> [u8; 4]
    requires { number ≤ 9999 }
    ensures { result ≡ four number }
{
    let number = u32::from(number);
    let [a, b] = write_two(number / 100);
    let [c, d] = write_two(number);
    [a, b, c, d]
}

// The text of UID.
pub(crate) fn meeting_text(meeting: Meeting) -> Text
    requires { (1 ≤ meeting.number) × (meeting.number ≤ 32) }
    ensures { After (codes ":") (MeetingText meeting) result.items }
{
    let digits = four_digits(u16::from(meeting.number));
    joined(&[b":m", &digits, b"@doors"])
}

// A door's address.
pub(crate) fn door_text(door: Door) -> Text
    requires { DoorRanged door }
    ensures { DoorText door result.items }
{
    joined(&[b":mailto:d", &[b'0' + door.number], b"@doors"])
}

// The text of SEQUENCE.
pub(crate) fn sequence_text(sequence: Sequence) -> Text
    requires { sequence.number ≤ 9999 }
    ensures { After (codes ":") (SequenceText sequence) result.items }
{
    let mut digits = Buffer::new();
    joined(&[b":", digits.format(sequence.number).as_bytes()])
}
