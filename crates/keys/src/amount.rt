// A signed number of cents, ordered by size.
ghost use Rattle.std.specs.Prelude.{◌≡◌, int_lt};
ghost use Rattle.std.proofs.Common.{rules};

use crate::Key;

#[derive(Clone, Copy, PartialEq, Eq, Debug)]
pub struct Amount {
    pub cents: i64,
}

impl From<i64> for Amount {
    ghost from_gives = { λ cents key. key.cents ≡ cents };

    fn from(cents: i64) -> Amount {
        Amount { cents }
    }
}

impl Key for Amount {
    ghost before = { λ a b. int_lt a.cents b.cents };

    ghost lawful = { Prim.search rules };

    fn precedes(&self, other: &Amount) -> bool {
        self.cents < other.cents
    }
}
