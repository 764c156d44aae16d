// Stamps, and the two stamps of a period.
// Each asks for stamps that are ones, and has no type for them: it would be made at each call, of a value that was tested before.
ghost use Rattle.std.specs.Prelude.{codes, ◌+◌, ◌≤◌, length};
ghost use Rattle.stamp.specs.Stamps.{Stamped, Real};
ghost use Rattle.property.specs.Values.{After, PeriodText};
ghost use Rattle.writer.specs.Writing.{Puts};

use crate::putting::put_all;
use arrayvec::ArrayVec;
use property::Period;
use stamp::Stamp;

// Puts a stamp behind a colon.
pub(crate) fn put_moment<const N: usize>(text: &mut ArrayVec<u8, N>, stamp: Stamp)
    requires room { length text.old.items + 64 ≤ N }
    requires stamp { Real stamp.seconds }
    ensures { Puts (After (codes ":") (Stamped stamp.seconds)) text.old.items text.new.items }
{
    put_all(text, &[b":", &stamp.text()]);
}

// Puts the text of RDATE.
pub(crate) fn put_period<const N: usize>(text: &mut ArrayVec<u8, N>, period: Period)
    requires room { length text.old.items + 64 ≤ N }
    requires stamps { (Real period.start.seconds) × (Real period.end.seconds) }
    ensures { Puts (After (codes ";VALUE=PERIOD:") (PeriodText period)) text.old.items text.new.items }
{
    let start = period.start.text();
    let end = period.end.text();
    put_all(text, &[b";VALUE=PERIOD:", &start, b"/", &end]);
}
