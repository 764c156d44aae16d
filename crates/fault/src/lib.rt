// Faults: every refusal in the product is one value of one type, carried by `?` from where it was found to whoever prints it.
#![tactic(auto)]

ghost use Rattle.std.specs.Prelude.{◌≡◌, Some};
ghost use Rattle.fault.specs.Numbers.{told, at_line, wanting};
ghost use Rattle.fault.specs.Words.{printed, property_or0};

mod causes;
mod kinds;
mod layers;
mod made;
mod properties;

pub use kinds::{Cause, Fault, Layer, NotMade, Property};
use std::error::Error;
use std::fmt;

impl Fault {
    // The fault of a cause that `tester` found, with no line and no property.
    pub fn new(tester: Layer, cause: Cause) -> Fault
        ensures { result ≡ told tester cause }
    {
        Fault {
            cause,
            layer: cause.layer(tester),
            line: None,
            property: None,
        }
    }

    // The same fault, at a line of a text; lines count from 1, and 0 stands for none.
    pub fn at_line(self, line: u32) -> Fault
        ensures { result ≡ at_line self line }
    {
        Fault {
            line: (line != 0).then_some(line),
            ..self
        }
    }

    // The same fault, where a property was wanted, or where none might stand.
    pub fn wanting(self, property: Option<Property>) -> Fault
        ensures { result ≡ wanting self property }
    {
        Fault { property, ..self }
    }

    // The number of the property that this fault names; a rule of faults prints 0 where it names none.
    pub fn property_number(self) -> u8
        ensures { result ≡ property_or0 self.property }
    {
        self.property.map_or(0, Property::number)
    }
}

// A line or a property that a fault has not is printed as 0.
impl fmt::Display for Fault {
    ghost output = { λ f. Some (printed f) };

    fn fmt<W: fmt::Write>(&self, f: &mut fmt::Formatter<W>) -> fmt::Result {
        let number = self.cause.number();
        let layer = self.layer.number();
        let line = self.line.unwrap_or(0);
        let property = self.property_number();
        let words = self.cause;
        write!(f, "fault {number} {layer} {line} {property}: {words}")
    }
}

impl Error for Fault {}
