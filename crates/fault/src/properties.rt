// Properties: their numbers.
ghost use Rattle.std.specs.Prelude.{◌≡◌};
ghost use Rattle.fault.specs.Numbers.{property_number};

use crate::kinds::Property;

impl Property {
    // Written for each enum: a cast is of one type, and none is generic.
    pub fn number(self) -> u8
        ensures { result ≡ property_number self }
    {
        self as u8
    }
}
