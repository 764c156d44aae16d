// The types of civil time: a stamp counts seconds, and a day and a time of day name the same second on a calendar and a clock.
ghost use Rattle.std.specs.Prelude.{◌≤◌};
ghost use Rattle.stamp.specs.Calendar.{month_length};

// Seconds from 2000-01-01T00:00:00Z on. A stamp is one from 1 to 3,155,759,999.
// That 0 stands for none, in a stamp and not by an Option, is the rule of stamps in records and texts.
#[derive(Clone, Copy, PartialEq, Eq, PartialOrd, Ord, Debug)]
pub struct Stamp {
    pub seconds: u32,
}

// A day of the years 2000 to 2099.
#[derive(Clone, Copy)]
pub struct Day {
    pub year: u32,
    pub month: u32,
    pub day: u32,
    ghost year_real: { (2000 ≤ year) × (year ≤ 2099) },
    ghost month_real: { (1 ≤ month) × (month ≤ 12) },
    ghost day_real: { (1 ≤ day) × (day ≤ month_length year month) },
}

// A time of day, without leap seconds.
#[derive(Clone, Copy)]
pub struct Time {
    pub hour: u32,
    pub minute: u32,
    pub second: u32,
    ghost hour_real: { hour ≤ 23 },
    ghost minute_real: { minute ≤ 59 },
    ghost second_real: { second ≤ 59 },
}
