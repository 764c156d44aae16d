// Days: their count from 2000-01-01 on, and their eight digits.
ghost use Rattle.std.specs.Prelude.{◌≡◌, ℕ, ◌+◌, ◌-◌, ◌<◌, ◌≤◌, MatchOption, ◌≢◌};
ghost use Rattle.stamp.specs.Calendar.{leap, month_length, year_length, days_of_years, days_of_months};
ghost use Rattle.stamp.specs.Stamps.{days_to, day_text};
ghost use Rattle.stamp.specs.declared.civil.Day.{Day};

use crate::civil::Day;
use crate::digits::{read_two, write_two};

// The days of the years 2000 to 2099.
pub const CENTURY: u32 = 36_525;

fn is_leap(year: u32) -> bool
    ensures { result ≡ leap year }
{
    year % 4 == 0
}

fn month_length(year: u32, month: u32) -> u32
    ensures { result ≡ month_length year month }
{
    match month {
        2 if is_leap(year) => 29,
        2 => 28,
        4 | 6 | 9 | 11 => 30,
        _ => 31,
    }
}

// The days of the first n years from 2000 on: every fourth, from the first, is a leap year.
#[tactic(auto, using(crate::proofs::Sums::years_closed))]
fn days_of_years(n: u32) -> u32
    requires { n ≤ 100 }
    ensures { result ≡ days_of_years n }
{
    365 * n + (n + 3) / 4
}

// The days of the first n months of a year.
// A `for`: as a sum over a range of months, the proof that it fits did not close.
fn days_of_months(year: u32, n: u32) -> u32
    requires { n ≤ 12 }
    ensures { result ≡ days_of_months year n }
{
    let mut days = 0;
    for month in 0..n {
        days += month_length(year, month + 1);
    }
    days
}

impl Day {
    // The day with this year, month and day of the month, where there is one.
    pub fn new(year: u32, month: u32, day: u32) -> Option<Day>
        ensures { MatchOption result ((d : Day) → d.year ≡ year → d.month ≡ month → d.day ≢ day) (λ d. (d.year ≡ year) × (d.month ≡ month) × (d.day ≡ day)) }
    {
        if !(2000..=2099).contains(&year) || !(1..=12).contains(&month) {
            return None;
        }
        if !(1..=month_length(year, month)).contains(&day) {
            return None;
        }
        Some(Day { year, month, day })
    }

    // The days from 2000-01-01 to this day.
    #[tactic(auto, using(crate::proofs::Sums::within_century))]
    pub fn count(self) -> u32
        ensures value { result ≡ days_to self }
        ensures bound { result < 36525 }
    {
        days_of_years(self.year - 2000) + days_of_months(self.year, self.month - 1) + self.day - 1
    }

    // The day that so many days lead to from 2000-01-01. Four years in a row have 1,461 days.
    #[tactic(auto, using(crate::proofs::Sums::year_found))]
    pub fn after(days: u32) -> Day
        requires { days < 36525 }
        ensures { days_to result ≡ days }
    {
        let years = 4 * days / 1461;
        Day::of_year(2000 + years, days - days_of_years(years))
    }

    // The day that so many days lead to from the first of a year.
    // A `for` that takes month by month from what is left: no method of a range does, and the day is what is left at the end.
    fn of_year(year: u32, days: u32) -> Day
        requires { (2000 ≤ year) × ((year ≤ 2099) × (days < year_length year)) }
        ensures { (result.year ≡ year) × (days_of_months result.year (result.month - 1) + (result.day - 1) ≡ days) }
    {
        let mut left = days;
        for month in 1..12 {
            let length = month_length(year, month);
            if left < length {
                return Day {
                    year,
                    month,
                    day: left + 1,
                };
            }
            left -= length;
        }
        Day {
            year,
            month: 12,
            day: left + 1,
        }
    }

    // The day that eight digits write, or none.
    pub fn read(digits: [u8; 8]) -> Option<Day>
        ensures { MatchOption result ((d : Day) → digits ≢ day_text d) (λ d. digits ≡ day_text d) }
    {
        let [c1, c0, y1, y0, m1, m0, d1, d0] = digits;
        let century = read_two(c1, c0)?;
        let year = read_two(y1, y0)?;
        let month = read_two(m1, m0)?;
        let day = read_two(d1, d0)?;
        Day::new(100 * century + year, month, day)
    }

    pub fn text(self) -> [u8; 8]
        ensures { result ≡ day_text self }
    {
        let [c1, c0] = write_two(self.year / 100);
        let [y1, y0] = write_two(self.year % 100);
        let [m1, m0] = write_two(self.month);
        let [d1, d0] = write_two(self.day);
        [c1, c0, y1, y0, m1, m0, d1, d0]
    }
}
