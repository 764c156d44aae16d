// A text being read.
ghost use Rattle.std.specs.Prelude.{◌≤◌};
ghost use Rattle.message.specs.Meaning.{needed};

use crate::kinds::{Event, Stage};

// The stage, how many properties of the event were read, and what they said.
// The event stands beside the stage and not in it: a stage is matched by value at each line, and reading is not to copy what was read.
#[derive(Clone, Copy)]
pub struct Reading {
    pub(crate) stage: Stage,
    pub(crate) read: usize,
    pub(crate) event: Event,
    ghost few: { read ≤ 13 },
    ghost enough: { needed stage ≤ read },
}
