// Keys and their order.
//
// A kind of key is a type with the trait `Key`: it answers whether one key comes before another.
// - `Account`: an account number, by size.
// - `Amount`: a signed number of cents, by size.
// - `Label`: sixteen bytes, by what they weigh (`weight`): a lowercase letter as its uppercase one.
// - `Pair`: two keys of any two kinds; the second decides where the first are equivalent.
// - `Reversed`: another kind's order reversed, for descending columns.
// Two keys are `equivalent` where neither comes before the other.
//
// Promised: `precedes` answers as the kind's order says; every kind's order is lawful (it goes one way
// only, and where a comes before b, every c comes after a or before b); and what follows from that for
// every kind stands in the contract of `equivalent` (`Laws` in specs/Order.antt).
// Stands on the standard library alone.

#![tactic(auto)]

ghost use Rattle.std.specs.Prelude.{◌≡◌, Bool};
ghost use Rattle.keys.specs.Order.{Lawful, equivalent_under, Laws};

mod account;
mod amount;
mod label;
mod pair;
mod reversed;

pub use account::Account;
pub use amount::Amount;
pub use label::{Label, weight};
pub use pair::Pair;
pub use reversed::Reversed;

pub trait Key: Copy {
    // does the first come before the second?
    ghost before: { Self → Self → Bool };

    fn precedes(&self, other: &Self) -> bool
        ensures { result ≡ before self.now other.now };

    ghost lawful: { Lawful before };
}

// Does neither of the two come before the other?
pub fn equivalent<K: Key>(a: &K, b: &K) -> bool
    ensures answers { result ≡ equivalent_under K.Key.before a.now b.now }
    ensures laws { Laws K.Key.before }
{
    !a.precedes(b) && !b.precedes(a)
}
