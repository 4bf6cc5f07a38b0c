// An account number, ordered by size. (A type of its own beside `Amount`, so that neither is taken for the other.)
ghost use Rattle.std.specs.Prelude.{◌≡◌, nat_lt};
ghost use Rattle.std.proofs.Common.{rules};

use crate::Key;

#[derive(Clone, Copy, PartialEq, Eq, Debug)]
pub struct Account {
    pub number: u32,
}

impl From<u32> for Account {
    ghost from_gives = { λ number key. key.number ≡ number };

    fn from(number: u32) -> Account {
        Account { number }
    }
}

impl Key for Account {
    ghost before = { λ a b. nat_lt a.number b.number };

    ghost lawful = { Prim.search rules };

    fn precedes(&self, other: &Account) -> bool {
        self.number < other.number
    }
}
