// Two keys of any two kinds: the second decides where the first are equivalent.
ghost use Rattle.keys.specs.Order.{before_or_then};
ghost use Rattle.keys.specs.Orders.{lawful_then};

use crate::Key;

#[derive(Clone, Copy, PartialEq, Eq, Debug)]
pub struct Pair<A, B> {
    pub first: A,
    pub second: B,
}

impl<A: Key, B: Key> Key for Pair<A, B> {
    ghost before = { λ a b. before_or_then A.Key.before a.first b.first (B.Key.before a.second b.second) };

    ghost lawful = { lawful_then (λ p. p.first) (λ p. p.second) A.Key.lawful B.Key.lawful };

    fn precedes(&self, other: &Pair<A, B>) -> bool {
        self.first.precedes(&other.first)
            || (!other.first.precedes(&self.first) && self.second.precedes(&other.second))
    }
}
