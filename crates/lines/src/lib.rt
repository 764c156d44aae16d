// Content lines (RFC 5545, 3.1, unfolded): a text is stepped through line by line, and each line is a part of it.
#![tactic(auto)]

ghost use Rattle.std.specs.Prelude.{◌≡◌, ◌+◌, length};
ghost use Rattle.lines.specs.Steps.{Begins, Next};

mod kinds;
mod runs;

use fault::{Cause, Fault, Layer};
pub use kinds::{Line, Lines};
use runs::cut;

// The longest text.
const LONGEST: usize = 768;

impl<'a> Lines<'a> {
    // A text, from its first line on.
    pub fn new(text: &'a [u8]) -> Lines<'a>
        ensures { Begins text.now result }
    {
        Lines {
            text,
            at: 0,
            number: 0,
        }
    }

    // `next`, and no `Iterator`: what a step leaves is part of its contract, and the reader asks for the number of the line that is missing at the end.
    // The next line, or none at the end of the text. A text that has not 1 to 768 bytes is refused at line 0; where no content line stands, the fault names its number.
    pub fn next(&mut self) -> Result<Option<Line<'a>>, Fault>
        ensures { Next self.old self.new result }
    {
        let text = self.text;
        let at = self.at;
        if text.is_empty() || text.len() > LONGEST {
            return Err(Fault::new(Layer::Lines, Cause::Line));
        }
        let number = self.number + 1;
        if at == text.len() {
            return Ok(None);
        }
        let Some((colon, end)) = cut(text, at) else {
            return Err(Fault::new(Layer::Lines, Cause::Line).at_line(number));
        };
        *self = Lines {
            text,
            at: end + 2,
            number,
        };
        Ok(Some(Line {
            number,
            name_at: at,
            name: &text[at..colon],
            value_at: colon + 1,
            value: &text[colon + 1..end],
            text: &text[colon..end],
        }))
    }

    // The number of the line that would be read next.
    pub fn upcoming(&self) -> u32
        ensures { result ≡ self.now.number + 1 }
    {
        self.number + 1
    }
}
