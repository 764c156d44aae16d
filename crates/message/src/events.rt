// The parts of an event: put in their places as they are read, and made a message at its end.
ghost use Rattle.std.specs.Prelude.{◌≡◌, ◌≤◌, true, [], take, Some, slice_set};
ghost use Rattle.property.specs.Values.{part_of, property_of, title_text};
ghost use Rattle.message.specs.Meaning.{wanted, required, belongs, parts_of, method_of, body_method, further_of};
ghost use Rattle.message.specs.Reader.{slots, parts_with};

use crate::kinds::{Body, Event, Message, Method, Periods};
use crate::periods::BLANK;
use property::{Answer, Attendee, Door, Meeting, Period, Title, Value};
use rank::Sequence;
use stamp::Stamp;

// The number of properties that stand before the further dates.
const DATES: usize = 8;

impl Event {
    // An event of which nothing was read.
    pub(crate) fn blank() -> Event
        ensures { title_text result.title ≡ [] }
    {
        let none = Stamp { seconds: 0 };
        Event {
            meeting: Meeting { number: 0 },
            dtstamp: none,
            sequence: Sequence { number: 0 },
            door: Door { number: 0 },
            heard: None,
            answer: Answer::Tentative,
            title: Title::none(),
            start: none,
            end: none,
            further: [BLANK; 5],
            basis: none,
        }
    }

    // Puts a value in its place, the one that is wanted after so many.
    // Method and count are two parameters, here and below: the stage has the one and the reading the other, and an event is put together from both.
    pub(crate) fn put(&mut self, method: Method, read: usize, value: &Value)
        requires { (wanted method read ≡ Some (property_of (part_of value.now))) × (belongs method (part_of value.now) ≡ true) }
        ensures { slots method self.new ≡ slice_set (slots method self.old) read (part_of value.now) }
    {
        match *value {
            Value::Uid(meeting) => self.meeting = meeting,
            Value::Dtstamp(stamp) => self.dtstamp = stamp,
            Value::Sequence(sequence) => self.sequence = sequence,
            Value::Organizer | Value::Status => {}
            Value::Attendee(Attendee::Invited { door, heard }) => {
                self.door = door;
                self.heard = heard;
            }
            Value::Attendee(Attendee::Answering { door, answer }) => {
                self.door = door;
                self.answer = answer;
            }
            Value::Summary(title) => self.title = title,
            Value::Dtstart(stamp) => self.start = stamp,
            Value::Dtend(stamp) => self.end = stamp,
            Value::Rdate(date) => self.further[read - DATES] = date,
            Value::Basis(stamp) => self.basis = stamp,
        }
    }

    // The message that an event is whose required properties were all read.
    pub(crate) fn message(&self, method: Method, read: usize) -> Message
        requires { (required method ≤ read) × (read ≤ 13) }
        ensures method { method_of result ≡ method }
        ensures parts { parts_of result ≡ take read (slots method self.now) }
    {
        Message {
            meeting: self.meeting,
            dtstamp: self.dtstamp,
            sequence: self.sequence,
            door: self.door,
            body: self.body(method, read),
        }
    }

    fn body(&self, method: Method, read: usize) -> Body
        requires { (required method ≤ read) × (read ≤ 13) }
        ensures method { body_method result ≡ method }
        ensures parts { parts_with self.now result ≡ take read (slots method self.now) }
    {
        match method {
            Method::Request => Body::Request {
                heard: self.heard,
                title: self.title,
                dates: self.dates(read - DATES),
            },
            Method::Cancel => Body::Cancel { heard: self.heard },
            Method::Reply => Body::Reply {
                answer: self.answer,
                basis: self.basis,
            },
        }
    }

    // The first date and so many of the further ones.
    fn dates(&self, count: usize) -> Periods
        requires { count ≤ 5 }
        ensures first { (result.first.start ≡ self.now.start) × (result.first.end ≡ self.now.end) }
        ensures further { further_of result ≡ take count self.now.further }
    {
        let first = Period {
            start: self.start,
            end: self.end,
        };
        Periods {
            first,
            count,
            further: self.further,
        }
    }
}
