// The texts that the cases start from.
use crate::parts::text_of;
use std::alloc::{AllocError, Global};

const REQUEST: [&str; 15] = [
    "BEGIN:VCALENDAR",
    "VERSION:2.0",
    "PRODID:-//DOORS//ITIP 1//EN",
    "METHOD:REQUEST",
    "BEGIN:VEVENT",
    "UID:m0007@doors",
    "DTSTAMP:20250129T100000Z",
    "SEQUENCE:0",
    "ORGANIZER:mailto:site@doors",
    "ATTENDEE;PARTSTAT=NEEDS-ACTION:mailto:d2@doors",
    "SUMMARY:Lift talks",
    "DTSTART:20250131T080000Z",
    "DTEND:20250131T090000Z",
    "END:VEVENT",
    "END:VCALENDAR",
];

// A REQUEST of six dates, to a door that has answered.
const REQUEST6: [&str; 20] = [
    "BEGIN:VCALENDAR",
    "VERSION:2.0",
    "PRODID:-//DOORS//ITIP 1//EN",
    "METHOD:REQUEST",
    "BEGIN:VEVENT",
    "UID:m0032@doors",
    "DTSTAMP:20250203T091500Z",
    "SEQUENCE:12",
    "ORGANIZER:mailto:site@doors",
    "ATTENDEE;PARTSTAT=TENTATIVE;X-REPLY=20250202T173000Z:mailto:d8@doors",
    "SUMMARY:Weekly review",
    "DTSTART:20250210T130000Z",
    "DTEND:20250210T143000Z",
    "RDATE;VALUE=PERIOD:20250217T130000Z/20250217T143000Z",
    "RDATE;VALUE=PERIOD:20250224T130000Z/20250224T143000Z",
    "RDATE;VALUE=PERIOD:20250303T130000Z/20250303T143000Z",
    "RDATE;VALUE=PERIOD:20250310T130000Z/20250310T143000Z",
    "RDATE;VALUE=PERIOD:20250317T130000Z/20250317T143000Z",
    "END:VEVENT",
    "END:VCALENDAR",
];

const CANCEL: [&str; 13] = [
    "BEGIN:VCALENDAR",
    "VERSION:2.0",
    "PRODID:-//DOORS//ITIP 1//EN",
    "METHOD:CANCEL",
    "BEGIN:VEVENT",
    "UID:m0007@doors",
    "DTSTAMP:20250130T160000Z",
    "SEQUENCE:1",
    "ORGANIZER:mailto:site@doors",
    "ATTENDEE;PARTSTAT=ACCEPTED;X-REPLY=20250129T113000Z:mailto:d2@doors",
    "STATUS:CANCELLED",
    "END:VEVENT",
    "END:VCALENDAR",
];

const REPLY: [&str; 13] = [
    "BEGIN:VCALENDAR",
    "VERSION:2.0",
    "PRODID:-//DOORS//ITIP 1//EN",
    "METHOD:REPLY",
    "BEGIN:VEVENT",
    "UID:m0007@doors",
    "DTSTAMP:20250129T113000Z",
    "SEQUENCE:0",
    "ORGANIZER:mailto:site@doors",
    "ATTENDEE;PARTSTAT=ACCEPTED:mailto:d2@doors",
    "X-BASIS:20250129T100000Z",
    "END:VEVENT",
    "END:VCALENDAR",
];

// The text with this name, or none.
pub fn base(heap: Global, name: &str) -> Result<Option<Vec<u8>>, AllocError> {
    let Some(lines) = lines(name) else {
        return Ok(None);
    };
    Ok(Some(text_of(heap, lines)?))
}

fn lines(name: &str) -> Option<&'static [&'static str]> {
    match name {
        "empty" => Some(&[]),
        "request" => Some(&REQUEST),
        "request6" => Some(&REQUEST6),
        "cancel" => Some(&CANCEL),
        "reply" => Some(&REPLY),
        _ => None,
    }
}
