// Layers: their numbers.
ghost use Rattle.std.specs.Prelude.{◌≡◌};
ghost use Rattle.fault.specs.Numbers.{layer_number};

use crate::kinds::Layer;

impl Layer {
    // Written for each enum: a cast is of one type, and none is generic.
    pub fn number(self) -> u8
        ensures { result ≡ layer_number self }
    {
        self as u8
    }
}
