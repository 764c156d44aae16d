// What a door can answer, as PARTSTAT has it.
ghost use Rattle.std.specs.Prelude.{◌≡◌, ◌≤◌, length, Some};
ghost use Rattle.property.specs.Values.{answer_text, shown_text};

use crate::kinds::Answer;
use std::fmt;

impl Answer {
    pub fn name(self) -> &'static str
        ensures value { result.now ≡ answer_text self }
        ensures size { length result.now ≤ 9 }
    {
        match self {
            Answer::Accepted => "ACCEPTED",
            Answer::Declined => "DECLINED",
            Answer::Tentative => "TENTATIVE",
        }
    }
}

// The answer that the site shows, as PARTSTAT has it: NEEDS-ACTION where it shows none.
pub fn partstat(shown: Option<Answer>) -> &'static str
    ensures value { result.now ≡ shown_text shown }
    ensures size { length result.now ≤ 12 }
{
    shown.map_or("NEEDS-ACTION", Answer::name)
}

impl fmt::Display for Answer {
    ghost output = { λ a. Some (answer_text a) };

    fn fmt<W: fmt::Write>(&self, f: &mut fmt::Formatter<W>) -> fmt::Result {
        f.write_str(self.name())
    }
}
