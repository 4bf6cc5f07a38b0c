// How many cases were tried, and how many came out otherwise than expected.
ghost use Rattle.std.specs.Prelude.{◌≡◌, ◌+◌, ◌-◌, ◌^◌, ◌++◌, min, if◌then◌else◌, Some, decimal, codes};
ghost use Rattle.trials.specs.Table.{none, sum_of};

use std::fmt;
use std::ops::AddAssign;

// Both stop at the largest number.
#[derive(Clone, Copy, PartialEq, Eq, Debug, Default)]
pub struct Tally {
    pub tried: u32,
    pub differ: u32,
}

impl Tally {
    pub fn new() -> Tally
        ensures { result ≡ none }
    {
        Tally::default()
    }

    pub fn note(&mut self, as_expected: bool)
        ensures tried { self.new.tried ≡ min (self.old.tried + 1) (2 ^ 32 - 1) }
        ensures differ { self.new.differ ≡ (if as_expected then self.old.differ else min (self.old.differ + 1) (2 ^ 32 - 1)) }
    {
        self.tried = self.tried.saturating_add(1);
        if !as_expected {
            self.differ = self.differ.saturating_add(1);
        }
    }
}

impl AddAssign for Tally {
    ghost add_assign_gives = { λ x y r. r ≡ sum_of x y };

    fn add_assign(&mut self, other: Tally) {
        self.tried = self.tried.saturating_add(other.tried);
        self.differ = self.differ.saturating_add(other.differ);
    }
}

impl fmt::Display for Tally {
    ghost output = { λ t. Some (decimal t.tried ++ codes " tried, " ++ decimal t.differ ++ codes " differ") };

    fn fmt<W: fmt::Write>(&self, f: &mut fmt::Formatter<W>) -> fmt::Result {
        let Tally { tried, differ } = *self;
        write!(f, "{tried} tried, {differ} differ")
    }
}
