// The letter that a line begins with.
ghost use Rattle.std.specs.Prelude.{◌≡◌, [], ◌∷◌, Some};
ghost use Rattle.answers.specs.Letters.{code};
ghost use Rattle.answers.specs.Text.{letter_of};

use sheets::Request;
use std::fmt;

// A call's letter is its field's in the sheet, and so is a column's; but no line begins with D, and X is
// no field's, so it is no `Kind` of `sheets`.
#[derive(Clone, Copy, PartialEq, Eq, Debug)]
pub(crate) enum Letter {
    Malformed,
    Accounts,
    Labels,
    Strike,
    Restore,
    Place,
}

impl<K> From<&Request<K>> for Letter {
    ghost from_gives = { λ request letter. letter ≡ letter_of request.now };

    fn from(request: &Request<K>) -> Letter {
        match request {
            Request::Strike(_) => Letter::Strike,
            Request::Restore(_) => Letter::Restore,
            Request::Place(_, _) => Letter::Place,
        }
    }
}

impl fmt::Display for Letter {
    ghost output = { λ letter. Some (code letter ∷ []) };

    fn fmt<W: fmt::Write>(&self, f: &mut fmt::Formatter<W>) -> fmt::Result {
        f.write_str(match self {
            Letter::Malformed => "X",
            Letter::Accounts => "K",
            Letter::Labels => "T",
            Letter::Strike => "S",
            Letter::Restore => "R",
            Letter::Place => "Q",
        })
    }
}
