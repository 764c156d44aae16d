// Times of the day: their count of seconds from midnight on, and their six digits.
ghost use Rattle.std.specs.Prelude.{◌≡◌, ℕ, ◌<◌, MatchOption, ◌≢◌};
ghost use Rattle.stamp.specs.Stamps.{seconds_to, time_text};
ghost use Rattle.stamp.specs.declared.civil.Time.{Time};

use crate::civil::Time;
use crate::digits::{read_two, write_two};

// The seconds of a day.
pub const DAY: u32 = 86_400;

impl Time {
    // The time with this hour, minute and second, where there is one.
    pub fn new(hour: u32, minute: u32, second: u32) -> Option<Time>
        ensures { MatchOption result ((t : Time) → t.hour ≡ hour → t.minute ≡ minute → t.second ≢ second) (λ t. (t.hour ≡ hour) × (t.minute ≡ minute) × (t.second ≡ second)) }
    {
        if hour > 23 || minute > 59 || second > 59 {
            return None;
        }
        Some(Time {
            hour,
            minute,
            second,
        })
    }

    // The seconds from midnight to this time.
    pub fn count(self) -> u32
        ensures value { result ≡ seconds_to self }
        ensures bound { result < 86400 }
    {
        3600 * self.hour + 60 * self.minute + self.second
    }

    // The time that so many seconds lead to from midnight.
    pub fn after(seconds: u32) -> Time
        requires { seconds < 86400 }
        ensures { seconds_to result ≡ seconds }
    {
        Time {
            hour: seconds / 3600,
            minute: seconds / 60 % 60,
            second: seconds % 60,
        }
    }

    // The time that six digits write, or none.
    pub fn read(digits: [u8; 6]) -> Option<Time>
        ensures { MatchOption result ((t : Time) → digits ≢ time_text t) (λ t. digits ≡ time_text t) }
    {
        let [h1, h0, m1, m0, s1, s0] = digits;
        let hour = read_two(h1, h0)?;
        let minute = read_two(m1, m0)?;
        let second = read_two(s1, s0)?;
        Time::new(hour, minute, second)
    }

    pub fn text(self) -> [u8; 6]
        ensures { result ≡ time_text self }
    {
        let [h1, h0] = write_two(self.hour);
        let [m1, m0] = write_two(self.minute);
        let [s1, s0] = write_two(self.second);
        [h1, h0, m1, m0, s1, s0]
    }
}
