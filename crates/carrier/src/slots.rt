// One letter in its place: put in, copied out.
ghost use Rattle.std.specs.Prelude.{◌≡◌, ◌≤◌, length, take, drop};
ghost use Rattle.carrier.specs.Mail.{Fit, letter};
ghost use Rattle.carrier.specs.Queues.{letter_in};

use crate::kinds::{Address, Slot};
use arrayvec::ArrayVec;

impl Slot {
    pub(crate) fn new(to: Address, text: &[u8]) -> Slot
        requires { Fit (letter to.number text.now) }
        ensures { letter_in result ≡ letter to.number text.now }
    {
        let mut bytes = ArrayVec::new();
        bytes.try_extend_from_slice(text).unwrap();
        Slot { text: bytes, to }
    }

    // Copies the text to the front of the buffer, keeps the buffer's rest, and tells the length.
    // Three lines, as for a row of a store: a function for both would be a crate for both, and no plainer.
    pub(crate) fn copy_to(&self, buffer: &mut [u8]) -> usize
        requires { 768 ≤ length buffer.old }
        ensures size { result ≡ length (letter_in self.now).text }
        ensures front { take result buffer.new ≡ (letter_in self.now).text }
        ensures rest { drop result buffer.new ≡ drop result buffer.old }
    {
        let text = self.text.as_slice();
        buffer[..text.len()].copy_from_slice(text);
        text.len()
    }
}
