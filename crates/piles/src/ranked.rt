// For each kind of key a plain number of the same order.
use keys::{Account, Amount, Pair, Reversed};

pub trait Ranked {
    fn rank(&self) -> i128;
}

impl Ranked for Account {
    fn rank(&self) -> i128 {
        i128::from(self.number)
    }
}

impl Ranked for Amount {
    fn rank(&self) -> i128 {
        i128::from(self.cents)
    }
}

// The amount decides where the accounts are the same: amounts have 64 bits.
impl Ranked for Pair<Account, Amount> {
    fn rank(&self) -> i128 {
        i128::from(self.first.number) * 0x1_0000_0000_0000_0000 + i128::from(self.second.cents)
    }
}

impl Ranked for Reversed<Account> {
    fn rank(&self) -> i128 {
        -i128::from(self.key.number)
    }
}
