// A reference to an index is an index.
use crate::{Counted, Decline, Index, Side};
use keys::Key;

impl<K: Key, I: Index<K>> Index<K> for &I {
    ghost means = { λ x. I.Index.means x.now };

    ghost opened = { λ x. I.Index.opened x.now };

    ghost meant = { λ x o. I.Index.meant x.now o };

    fn len(&self) -> usize {
        (**self).len()
    }

    fn ceiling(&self) -> u32 {
        (**self).ceiling()
    }

    fn row(&self, place: usize, held: &mut K) -> Result<(), Decline> {
        (**self).row(place, held)
    }

    fn place(&self, key: &K, side: Side) -> Counted<usize> {
        (**self).place(key, side)
    }
}
