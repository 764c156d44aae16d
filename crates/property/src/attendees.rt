// ATTENDEE: a door's answer and its address.
ghost use Rattle.std.specs.Prelude.{◌≡◌, ℕ, List, ◌++◌, Some, None, Option, MatchOption, ◌≢◌};
ghost use Rattle.stamp.specs.Stamps.{Stamped};
ghost use Rattle.stamp.specs.declared.civil.Stamp.{Stamp};
ghost use Rattle.property.specs.declared.kinds.Answer.{Answer};
ghost use Rattle.property.specs.declared.kinds.Attendee.{Attendee};
ghost use Rattle.property.specs.declared.kinds.Door.{Door};
ghost use Rattle.property.specs.Values.{AttendeeText, DoorText, shown_text, answer_text};

use crate::codecs::Text;
use crate::kinds::{Answer, Attendee, Door, Heard};
use crate::marks::strip;
use crate::periods::read_front;
use stamp::Stamp;

// The answer at the front of a text, or none where no answer stands there, and what follows it.
// Three tests in a row: a search through the three answers is no plainer, since its proof has to know that there are no others.
fn read_answer(text: &[u8]) -> Option<(Answer, &[u8])>
    ensures { MatchOption result ((a : Answer) (rest : List ℕ) → text.now ≢ answer_text a ++ rest) (λ p. text.now ≡ answer_text p.0 ++ p.1.now) }
{
    if let Some(rest) = strip(text, b"ACCEPTED") {
        return Some((Answer::Accepted, rest));
    }
    if let Some(rest) = strip(text, b"DECLINED") {
        return Some((Answer::Declined, rest));
    }
    if let Some(rest) = strip(text, b"TENTATIVE") {
        return Some((Answer::Tentative, rest));
    }
    None
}

// The answer shown at the front of a text, and what follows it.
fn read_shown(text: &[u8]) -> Option<(Option<Answer>, &[u8])>
    ensures { MatchOption result ((a : Option Answer) (rest : List ℕ) → text.now ≢ shown_text a ++ rest) (λ p. text.now ≡ shown_text p.0 ++ p.1.now) }
{
    if let Some(rest) = strip(text, b"NEEDS-ACTION") {
        return Some((None, rest));
    }
    let (answer, rest) = read_answer(text)?;
    Some((Some(answer), rest))
}

// The stamp of a REPLY and the door behind it, or none where the text is no such two.
fn read_reply(text: &[u8]) -> Option<(Stamp, Door)>
    ensures { MatchOption result ((s : Stamp) (d : Door) (at door : List ℕ) → Stamped s.seconds at → DoorText d door → text.now ≢ at ++ door) (λ p. (at : List ℕ) × (door : List ℕ) × Stamped p.0.seconds at × DoorText p.1 door × (text.now ≡ at ++ door)) }
{
    let (at, rest) = read_front(text)?;
    let door = Door::read(rest)?;
    Some((at, door))
}

// The attendee of whom the site has no stamped answer.
fn unheard(shown: Option<Answer>, door: Door) -> Attendee
    ensures { result ≡ elim shown [ None ↦ Attendee.Invited door None | Some a ↦ Attendee.Answering door a ] }
{
    match shown {
        None => Attendee::Invited { door, heard: None },
        Some(answer) => Attendee::Answering { door, answer },
    }
}

impl Text for Attendee {
    ghost says = { AttendeeText };

    // The attendee that a text names, with the answer there, or none.
    fn read(text: &[u8]) -> Option<Attendee> {
        let status = strip(text, b";PARTSTAT=")?;
        let (shown, rest) = read_shown(status)?;
        let Some(reply) = strip(rest, b";X-REPLY=") else {
            let door = Door::read(rest)?;
            return Some(unheard(shown, door));
        };
        let (at, door) = read_reply(reply)?;
        Some(Attendee::Invited {
            door,
            heard: Some(Heard { shown, at }),
        })
    }
}
