// Another kind's order reversed, for descending columns.
ghost use Rattle.std.proofs.Common.{rules};

use crate::Key;

#[derive(Clone, Copy, PartialEq, Eq, Debug)]
pub struct Reversed<K> {
    pub key: K,
}

impl<K: Key> Key for Reversed<K> {
    ghost before = { λ a b. K.Key.before b.key a.key };

    ghost lawful = { Prim.search rules };

    fn precedes(&self, other: &Reversed<K>) -> bool {
        other.key.precedes(&self.key)
    }
}
