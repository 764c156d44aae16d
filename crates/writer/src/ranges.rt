// Values that are in their ranges.
ghost use Rattle.std.specs.Prelude.{Decides};
ghost use Rattle.property.specs.Values.{part_of};
ghost use Rattle.writer.specs.Ranges.{Ranged, AttendeeRanged};

use property::{Attendee, Value};

// Whether an attendee's door is one, and what was heard of it has a stamp that is one.
fn is_attendee_ranged(attendee: Attendee) -> bool
    ensures { Decides result (AttendeeRanged attendee) }
{
    match attendee {
        Attendee::Invited { door, heard } => {
            door.is_real() && heard.is_none_or(|heard| heard.at.is_real())
        },
        Attendee::Answering { door, .. } => door.is_real(),
    }
}

// Whether a value is in its ranges, and so has a line.
pub(crate) fn is_ranged(value: &Value) -> bool
    ensures { Decides result (Ranged (part_of value.now)) }
{
    match *value {
        Value::Uid(meeting) => meeting.is_real(),
        Value::Dtstamp(stamp) | Value::Dtstart(stamp) | Value::Dtend(stamp) | Value::Basis(stamp) =>
            stamp.is_real(),
        Value::Sequence(sequence) => sequence.number <= 9999,
        Value::Organizer | Value::Status => true,
        Value::Attendee(attendee) => is_attendee_ranged(attendee),
        Value::Summary(title) => !title.is_empty(),
        Value::Rdate(period) => period.start.is_real() && period.end.is_real(),
    }
}
