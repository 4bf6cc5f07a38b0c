// Why a sheet gets no text.
ghost use Rattle.std.specs.Prelude.{◌≡◌, Some};
ghost use Rattle.answers.specs.declared.refusal.Refusal.TheVariants.{NoMemory};
ghost use Rattle.answers.specs.Reasons.{reason};

use std::alloc::AllocError;
use std::error::Error;
use std::fmt;

#[derive(Clone, Copy, PartialEq, Eq, Debug, Drop)]
pub enum Refusal {
    // there was not enough memory
    NoMemory,
    // the sheet asks for a full or a level directory, and only bare columns are answered
    NoDirectory,
}

impl From<AllocError> for Refusal {
    ghost from_gives = { λ _ r. r ≡ NoMemory };

    fn from(_why: AllocError) -> Refusal {
        Self::NoMemory
    }
}

impl fmt::Display for Refusal {
    ghost output = { λ r. Some (reason r) };

    fn fmt<W: fmt::Write>(&self, f: &mut fmt::Formatter<W>) -> fmt::Result {
        f.write_str(match self {
            Refusal::NoMemory => "not enough memory",
            Refusal::NoDirectory => "full and level directories are not answered yet",
        })
    }
}

impl Error for Refusal {}
