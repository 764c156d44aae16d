// Revisions as they arrive at a door, in texts.
ghost use Rattle.std.specs.Prelude.{◌≡◌, MatchOption};
ghost use Rattle.rank.specs.Order.{Kept};
ghost use Rattle.week.specs.Arrivals.{ReadsRevision, rank_of};

use fault::{Cause, Fault, Layer, Property};
use rank::{Revision, Sequence, keep_newer};
use stamp::Stamp;

// The revision that a text `SEQUENCE DTSTAMP` writes. Where a part is no number from 0 to 9,999, or no stamp, the fault names the damaged property.
pub fn read_revision(text: &str) -> Result<Revision, Fault>
    ensures { ReadsRevision result }
{
    let damaged = Fault::new(Layer::Properties, Cause::Malformed);
    let (sequence, dtstamp) = text.split_once(' ').unwrap_or((text, ""));
    let Ok(number) = sequence.parse::<u16>() else {
        return Err(damaged.wanting(Some(Property::Sequence)));
    };
    if number > 9_999 {
        return Err(damaged.wanting(Some(Property::Sequence)));
    }
    let Some(dtstamp) = Stamp::read(dtstamp.as_bytes()) else {
        return Err(damaged.wanting(Some(Property::Dtstamp)));
    };
    Ok(Revision {
        sequence: Sequence { number },
        dtstamp,
    })
}

// What a door holds after a revision came: the newer of the two, and any where none was held.
pub fn take(held: Option<Revision>, came: Revision) -> Revision
    ensures { MatchOption held (result ≡ came) (λ h. Kept rank_of h came result) }
{
    held.map_or(came, |held| keep_newer(held, came))
}
