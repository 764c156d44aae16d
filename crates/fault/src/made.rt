// Why a thing was not made: where the reasons come from, and how they are printed.
ghost use Rattle.std.specs.Prelude.{◌≡◌, Some};
ghost use Rattle.fault.specs.declared.kinds.NotMade.TheVariants.{Refused, Memory};
ghost use Rattle.fault.specs.Words.{printed_not_made};

use crate::kinds::{Fault, NotMade};
use std::alloc::AllocError;
use std::error::Error;
use std::fmt;

impl From<Fault> for NotMade {
    ghost from_gives = { λ f r. r ≡ Refused f };

    fn from(fault: Fault) -> NotMade {
        NotMade::Refused(fault)
    }
}

impl From<AllocError> for NotMade {
    ghost from_gives = { λ _ r. r ≡ Memory };

    fn from(_e: AllocError) -> NotMade {
        NotMade::Memory
    }
}

impl fmt::Display for NotMade {
    ghost output = { λ r. Some (printed_not_made r) };

    fn fmt<W: fmt::Write>(&self, f: &mut fmt::Formatter<W>) -> fmt::Result {
        match self {
            NotMade::Refused(refused) => write!(f, "{refused}"),
            NotMade::Memory => f.write_str("no memory"),
        }
    }
}

impl Error for NotMade {}
