// The reader's steps: one line at a time, from the stage it is in.
ghost use Rattle.std.specs.Prelude.{◌≡◌, ◌≤◌, true, false, length, Some, Decides, MatchOption};
ghost use Rattle.lines.specs.Steps.{content_of};
ghost use Rattle.property.specs.Values.{Part, part_of, property_of, Says};
ghost use Rattle.message.specs.Grammar.{calendar, frame_fault, part_fault, ProductText};
ghost use Rattle.message.specs.Meaning.{needed, belongs};
ghost use Rattle.message.specs.Reader.{state_of, Moves, Takes, Finishes, Goes, Produces, Chooses, Opens, Closes, Adds};

use crate::kinds::{Event, Kind, Message, Method, Stage};
use crate::progress::Reading;
use fault::{Cause, Fault, Layer, Property};
use lines::Line;
use property::{Attendee, Value};

// A line of the frame that is missing or out of its place.
pub(crate) fn frame_fault() -> Fault
    ensures { result ≡ frame_fault }
{
    Fault::new(Layer::Framing, Cause::Frame)
}

// A property that is missing, damaged or out of its place, and the one that was wanted.
fn part_fault(wanted: Option<Property>) -> Fault
    ensures { result ≡ part_fault wanted }
{
    Fault::new(Layer::Properties, Cause::Malformed).wanting(wanted)
}

// Whether a text names a product: a colon and at least one byte.
fn is_product(text: &[u8]) -> bool
    ensures { Decides result (ProductText false text.now) }
{
    text.len() >= 2 && text[0] == b':'
}

impl Reading {
    pub(crate) fn new() -> Reading
        ensures { state_of result ≡ calendar }
    {
        Reading {
            stage: Stage::Calendar,
            read: 0,
            event: Event::blank(),
        }
    }

    // Reads one line: moves on, or tells its number and why it may not stand here.
    // A `match`: by `map_err` the proof of the refusal did not close.
    pub(crate) fn take(&mut self, line: &Line) -> Result<(), Fault>
        ensures { Takes line.now (state_of self.old) (state_of self.new) result }
    {
        match self.step(line) {
            Ok(()) => Ok(()),
            Err(fault) => Err(fault.at_line(line.number)),
        }
    }

    // The message, at the end of a text; the fault names the line that is missing.
    pub(crate) fn finish(&self, missing: u32) -> Result<Message, Fault>
        ensures { Finishes missing (state_of self.now) result }
    {
        match self.stage {
            Stage::Done(method) => Ok(self.event.message(method, self.read)),
            _ => Err(frame_fault().at_line(missing)),
        }
    }

    // Moves on from its stage by a line, or tells why it may not stand there.
    fn step(&mut self, line: &Line) -> Result<(), Fault>
        ensures { Moves (content_of line.now) (state_of self.old) (state_of self.new) result }
    {
        let text = line.text;
        match (self.stage, Kind::of(line.name)) {
            (Stage::Calendar, Kind::Begin) => self.go(text, b":VCALENDAR", Stage::Version),
            (Stage::Version, Kind::Version) => self.go(text, b":2.0", Stage::Product),
            (Stage::Product, Kind::Product) => self.product(text),
            (Stage::Method, Kind::Method) => self.method(text),
            (Stage::Event(method), Kind::Begin) => self.begin(method, text),
            (Stage::Inside(_), Kind::Other) => Ok(()),
            (Stage::Inside(method), Kind::End) => self.close(method, text),
            (Stage::Inside(method), Kind::Listed(property)) => self.add(method, property, text),
            (Stage::Closing(method), Kind::End) => {
                self.go(text, b":VCALENDAR", Stage::Done(method))
            }
            _ => Err(frame_fault()),
        }
    }

    // Goes on to a stage, where a line has the text that is wanted.
    fn go(&mut self, text: &[u8], wanted: &[u8], next: Stage) -> Result<(), Fault>
        requires { needed next ≤ self.old.read }
        ensures { Goes text.now wanted.now next self.old self.new result }
    {
        if text != wanted {
            return Err(frame_fault());
        }
        self.stage = next;
        Ok(())
    }

    fn product(&mut self, text: &[u8]) -> Result<(), Fault>
        ensures { Produces text.now self.old self.new result }
    {
        if !is_product(text) {
            return Err(frame_fault());
        }
        self.stage = Stage::Method;
        Ok(())
    }

    fn method(&mut self, text: &[u8]) -> Result<(), Fault>
        ensures { Chooses text.now self.old self.new result }
    {
        self.stage = Stage::Event(Method::try_from(text)?);
        Ok(())
    }

    fn begin(&mut self, method: Method, text: &[u8]) -> Result<(), Fault>
        ensures { Opens text.now method self.new result }
    {
        if text != b":VEVENT".as_slice() {
            return Err(frame_fault());
        }
        self.stage = Stage::Inside(method);
        self.read = 0;
        Ok(())
    }

    // The end of an event, which comes too early where a required property is missing.
    fn close(&mut self, method: Method, text: &[u8]) -> Result<(), Fault>
        ensures { Closes text.now method self.old self.new result }
    {
        if text != b":VEVENT".as_slice() {
            return Err(frame_fault());
        }
        if self.read < method.required() {
            return Err(part_fault(method.wanted(self.read)));
        }
        self.stage = Stage::Closing(method);
        Ok(())
    }

    // A line of a property, which must be the one that is wanted and have a text of its own.
    fn add(&mut self, method: Method, property: Property, text: &[u8]) -> Result<(), Fault>
        ensures { Adds property text.now method self.old self.new result }
    {
        let wanted = method.wanted(self.read);
        let Some(value) = read_wanted(method, wanted, property, text) else {
            return Err(part_fault(wanted));
        };
        self.event.put(method, self.read, &value);
        self.read += 1;
        Ok(())
    }
}

// The value of a line, where it may stand next.
fn read_wanted(
    method: Method,
    wanted: Option<Property>,
    property: Property,
    text: &[u8],
) -> Option<Value>
    ensures { MatchOption result ((p : Part) → wanted ≡ Some (property_of p) → property_of p ≡ property → belongs method p ≡ true → Says p text.now → ⊥) (λ v. (wanted ≡ Some (property_of (part_of v))) × (property_of (part_of v) ≡ property) × (belongs method (part_of v) ≡ true) × Says (part_of v) text.now) }
{
    if wanted != Some(property) {
        return None;
    }
    let value = Value::read(property, text)?;
    is_of(method, &value).then_some(value)
}

// Whether a value may stand in a method: in a REPLY a door answers, in any other the site invites.
fn is_of(method: Method, value: &Value) -> bool
    ensures { result ≡ belongs method (part_of value.now) }
{
    match (method, *value) {
        (Method::Reply, Value::Attendee(Attendee::Invited { .. })) => false,
        (Method::Request | Method::Cancel, Value::Attendee(Attendee::Answering { .. })) => false,
        _ => true,
    }
}
