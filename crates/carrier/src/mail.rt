// What a carrier is: mail that may lose, double and reorder, and what is known of it all the same.
ghost use Rattle.std.specs.Prelude.{◌≡◌, ℕ, length, Decides};
ghost use Rattle.carrier.specs.Mail.{Mail, Sound, letter};
ghost use Rattle.carrier.specs.Posts.{Posted, Fetched, Counted};

use crate::kinds::Address;
use fault::Fault;

// A carrier means the letters that wait in it, how many may wait, and whether it is faithful; the last two never change.
pub trait Carrier {
    ghost mail: { Self → Mail };

    // Sends a text of 1 to 768 bytes to an address from 0 to 8. Refused: out of range, then full, exactly when as many wait as may.
    fn post(&mut self, to: Address, text: &[u8]) -> Result<(), Fault>
        ensures { Posted (letter to.number text.now) (mail self.old) (mail self.new) result };

    // Takes a text for an address out, copies it to the buffer's front and tells its length. Refused: a buffer under 768 bytes, a bad address, then nothing waits.
    fn fetch(&mut self, to: Address, buffer: &mut [u8]) -> Result<usize, Fault>
        ensures { Fetched to.number buffer.old buffer.new (mail self.old) (mail self.new) result };

    // Whether as many letters wait as may.
    fn is_full(&self) -> bool
        ensures { Decides result (length (mail self.now).waiting ≡ (mail self.now).capacity) };

    ghost sound: { (c : Self) → Sound (mail c) };
}

// A carrier that can also tell how many letters wait for an address.
pub trait Countable: Carrier {
    fn count(&self, to: Address) -> Result<usize, Fault>
        ensures { Counted to.number (Self.Carrier.mail self.now) result };
}
