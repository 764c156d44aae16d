// The properties of a text: what each says, in types, and how it is read.
#![tactic(auto)]

mod answers;
mod attendees;
mod codecs;
mod digits;
mod kinds;
mod marks;
mod numbers;
mod periods;
mod titles;
mod values;

pub use answers::partstat;
pub use kinds::{Answer, Attendee, Door, Heard, Meeting, Period, Title, Value};
