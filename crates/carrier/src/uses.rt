// What can be said of any carrier, and of any faithful one, from their rules alone.
ghost use Rattle.carrier.specs.Mail.{letter};
ghost use Rattle.carrier.specs.Posts.{Echoed};

use crate::kinds::Address;
use crate::mail::Carrier;
use fault::Fault;

// Posts a text, and fetches for the same address. In a faithful carrier in which nothing waits, the text comes back and nothing waits then.
// In any carrier in which nothing waits, what comes back is the text or nothing. Refused: as a post, which then changes nothing, and else as a fetch.
pub fn echo<C: Carrier>(
    carrier: &mut C,
    to: Address,
    text: &[u8],
    buffer: &mut [u8],
) -> Result<usize, Fault>
    ensures { Echoed (letter to.number text.now) buffer.old buffer.new (C.mail carrier.old) (C.mail carrier.new) result }
{
    carrier.post(to, text)?;
    carrier.fetch(to, buffer)
}
