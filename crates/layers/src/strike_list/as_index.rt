// A strike list is an index: its rows are those below that are not struck.
ghost use Rattle.layers.specs.Table.{has};
ghost use Rattle.layers.specs.Views.{list_means, out_of, Kept};
ghost use Rattle.layers.specs.Hiding.{meant_sighted};

use super::StrikeList;
use indexes::{Counted, Decline, Index, Side};
use keys::Key;

impl<K: Key, I: Index<K>> Index<K> for StrikeList<K, I> {
    ghost means = { list_means I.Index.means };

    ghost opened = { Kept I.Index.opened I.Index.means };

    ghost meant = { λ s o. meant_sighted K.Key.lawful (I.Index.meant s.below o.opens) (has (out_of s)) };

    fn len(&self) -> usize {
        self.struck.in_sight(self.below.len())
    }

    fn ceiling(&self) -> u32 {
        self.below.ceiling()
    }

    fn row(&self, place: usize, held: &mut K) -> Result<(), Decline> {
        if place >= self.len() {
            return Err(Decline::NoSuchRow);
        }
        self.below.row(self.struck.unstruck(place), held)
    }

    // Inlined: the place below is often in few rows, and then a call costs as much again.
    #[inline(always)]
    fn place(&self, key: &K, side: Side) -> Counted<usize> {
        let found = self.below.place(key, side);
        Counted {
            answer: self.struck.in_sight(found.answer),
            ..found
        }
    }
}
