// Causes: their numbers, their layers, their words.
ghost use Rattle.std.specs.Prelude.{◌≡◌, Some};
ghost use Rattle.fault.specs.Numbers.{cause_number, layer_for};
ghost use Rattle.fault.specs.Words.{wording};

use crate::kinds::{Cause, Layer};
use std::fmt;

impl Cause {
    // Written here, for layers and for properties: a cast is of one type, and none is generic.
    pub fn number(self) -> u8
        ensures { result ≡ cause_number self }
    {
        self as u8
    }

    // The layer that this cause belongs to: its own, or for Range and Short the one that tested.
    pub(crate) fn layer(self, tester: Layer) -> Layer
        ensures { result ≡ layer_for tester self }
    {
        match self {
            Cause::Range | Cause::Short => tester,
            Cause::Line => Layer::Lines,
            Cause::Frame | Cause::Method => Layer::Framing,
            Cause::Malformed => Layer::Properties,
            Cause::StoreFull => Layer::Store,
            Cause::CarrierFull | Cause::NoMail => Layer::Carrier,
            _ => Layer::Engine,
        }
    }
}

// What went wrong, in words for a fitter.
impl fmt::Display for Cause {
    ghost output = { λ c. Some (wording c) };

    fn fmt<W: fmt::Write>(&self, f: &mut fmt::Formatter<W>) -> fmt::Result {
        f.write_str(match self {
            Cause::Line => "not a content line",
            Cause::Frame => "frame line missing or out of place",
            Cause::Method => "unknown method",
            Cause::Malformed => "property missing, damaged or out of place",
            Cause::Misdirected => "not for this end",
            Cause::Unknown => "unknown meeting, door or copy",
            Cause::Stale => "stale",
            Cause::Ahead => "ahead of what was sent",
            Cause::Dates => "date rule broken",
            Cause::Range => "value out of range",
            Cause::Taken => "meeting number taken",
            Cause::Over => "meeting is over",
            Cause::Spent => "no stamp or SEQUENCE left",
            Cause::StoreFull => "store full",
            Cause::CarrierFull => "carrier full",
            Cause::Short => "buffer too short",
            Cause::NoMail => "nothing waits",
            Cause::Unfinished => "draft without door or date",
            Cause::NoAnswer => "nothing to say",
            Cause::Unreadable => "unreadable row",
        })
    }
}
