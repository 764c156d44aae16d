// Stamps: seconds of the years 2000 to 2099, and their texts YYYYMMDDTHHMMSSZ.
#![tactic(auto)]

ghost use Rattle.std.specs.Prelude.{◌≡◌, ℕ, ◌+◌, ◌<◌, ◌≤◌, max, replicate, Some, None, Decides, MatchOption};
ghost use Rattle.stamp.specs.Stamps.{Stamped, Real, Apart, seconds_at, Read, Written, Rewritten, Fresh};

mod civil;
mod days;
mod digits;
mod times;

pub use civil::Stamp;
use civil::{Day, Time};
pub use digits::{read_two, write_two};
use fault::{Cause, Fault, Layer};
use std::{fmt, str};
use times::DAY;

// The last stamp, 20991231T235959Z.
const LAST: u32 = 3_155_759_999;

impl Stamp {
    // Whether this count is a stamp, and not 0 or past the last second.
    pub fn is_real(self) -> bool
        ensures { Decides result (Real self.seconds) }
    {
        (1..=LAST).contains(&self.seconds)
    }

    // The stamp that a text writes, or none where no stamp has this text.
    // `read`, here and for what else has a text, and no `TryFrom`: of bytes that are none there is nothing to tell, so the error would say nothing and each caller drop it.
    pub fn read(text: &[u8]) -> Option<Stamp>
        ensures { Read text.now result }
    {
        let (date, clock) = take_apart(text)?;
        let day = Day::read(date)?;
        let time = Time::read(clock)?;
        Stamp::at(day, time)
    }

    // The stamp of a day and a time, which the very first second has not.
    fn at(day: Day, time: Time) -> Option<Stamp>
        ensures { MatchOption result (seconds_at day time ≡ 0) (λ s. (s.seconds ≡ seconds_at day time) × (1 ≤ s.seconds)) }
    {
        let seconds = DAY * day.count() + time.count();
        if seconds == 0 {
            return None;
        }
        Some(Stamp { seconds })
    }

    // The text of this stamp; `0` sixteen times where the count is none.
    pub fn text(self) -> [u8; 16]
        ensures { Written self.seconds result }
    {
        if !self.is_real() {
            return [b'0'; 16];
        }
        let (day, time) = self.civil();
        let [c1, c0, y1, y0, m1, m0, d1, d0] = day.text();
        let [h1, h0, n1, n0, s1, s0] = time.text();
        [
            c1, c0, y1, y0, m1, m0, d1, d0, b'T', h1, h0, n1, n0, s1, s0, b'Z',
        ]
    }

    // The day and the time of this stamp.
    fn civil(self) -> (Day, Time)
        requires { Real self.seconds }
        ensures { seconds_at result.0 result.1 ≡ self.seconds }
    {
        (
            Day::after(self.seconds / DAY),
            Time::after(self.seconds % DAY),
        )
    }

    // A fresh stamp: the greater of the clock and the previous stamp plus 1, where 0 stands for no previous stamp.
    // A clock that is no stamp is out of range, and after the last second no stamp is left.
    pub fn fresh(clock: Stamp, previous: Stamp) -> Result<Stamp, Fault>
        ensures { Fresh clock.seconds previous.seconds result }
    {
        if !clock.is_real() {
            return Err(Fault::new(Layer::Engine, Cause::Range));
        }
        if previous.seconds >= LAST {
            return Err(Fault::new(Layer::Engine, Cause::Spent));
        }
        let seconds = clock.seconds.max(previous.seconds + 1);
        Ok(Stamp { seconds })
    }
}

// A stamp is shown as its text.
impl fmt::Display for Stamp {
    fn fmt<W: fmt::Write>(&self, f: &mut fmt::Formatter<W>) -> fmt::Result {
        let text = self.text();
        f.write_str(str::from_utf8(&text).map_err(|_| fmt::Error)?)
    }
}

// The eight digits before the T and the six between T and Z, where a text has the shape of a stamp.
fn take_apart(text: &[u8]) -> Option<([u8; 8], [u8; 6])>
    ensures { Apart text.now result }
{
    let [
        c1,
        c0,
        y1,
        y0,
        m1,
        m0,
        d1,
        d0,
        b'T',
        h1,
        h0,
        n1,
        n0,
        s1,
        s0,
        b'Z',
    ] = text
    else {
        return None;
    };
    Some((
        [*c1, *c0, *y1, *y0, *m1, *m0, *d1, *d0],
        [*h1, *h0, *n1, *n0, *s1, *s0],
    ))
}

// Reading undoes writing: what is written of a stamp reads as that stamp, and what is written of any other count reads as none.
pub fn reread(stamp: Stamp) -> Option<Stamp>
    ensures { (Real stamp.seconds → result ≡ Some stamp) × ((Real stamp.seconds → ⊥) → result ≡ None) }
{
    Stamp::read(&stamp.text())
}

// Writing undoes reading: a stamp that was read is written as the bytes that it was read from. Other bytes are refused.
pub fn rewrite(text: &[u8]) -> Option<[u8; 16]>
    ensures { Rewritten text.now result }
{
    let stamp = Stamp::read(text)?;
    Some(stamp.text())
}
