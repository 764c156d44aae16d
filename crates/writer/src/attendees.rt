// ATTENDEE: a door's answer and its address.
ghost use Rattle.std.specs.Prelude.{◌≡◌, ◌≤◌, length};
ghost use Rattle.stamp.specs.Stamps.{Real};
ghost use Rattle.property.specs.Values.{AttendeeText, Partstat, door_of};
ghost use Rattle.writer.specs.Ranges.{AttendeeRanged};
ghost use Rattle.writer.specs.Writing.{HeardText};

use crate::numbers::door_text;
use crate::putting::{Text, joined};
use property::{Attendee, Door, Heard, partstat};

// What the site holds of a door's answer. It asks for a stamp that is one, as the texts of stamps do.
fn heard_text(heard: Heard) -> Text
    requires { Real heard.at.seconds }
    ensures { HeardText heard result.items }
{
    let stamp = heard.at.text();
    joined(&[partstat(heard.shown).as_bytes(), b";X-REPLY=", &stamp])
}

// What stands behind `PARTSTAT=`.
fn partstat_text(attendee: Attendee) -> Text
    requires { AttendeeRanged attendee }
    ensures { Partstat attendee result.items }
{
    match attendee {
        Attendee::Invited { heard, .. } => match heard {
            None => joined(&[partstat(None).as_bytes()]),
            Some(heard) => heard_text(heard),
        },
        Attendee::Answering { answer, .. } => joined(&[answer.name().as_bytes()]),
    }
}

// The door that an attendee is.
fn door_of(attendee: Attendee) -> Door
    ensures { result ≡ door_of attendee }
{
    match attendee {
        Attendee::Invited { door, .. } | Attendee::Answering { door, .. } => door,
    }
}

// The text of ATTENDEE.
pub(crate) fn attendee_text(attendee: Attendee) -> Text
    requires { AttendeeRanged attendee }
    ensures { AttendeeText attendee result.items }
{
    let status = partstat_text(attendee);
    let door = door_text(door_of(attendee));
    joined(&[b";PARTSTAT=", &status, &door])
}
