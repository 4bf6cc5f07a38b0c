// Any call on a strike list, answered as by a plain set of row numbers.
ghost use Rattle.std.specs.Prelude.{◌≡◌};
ghost use Rattle.indexes.specs.Meaning.{place_of};
ghost use Rattle.layers.specs.Table.{has};
ghost use Rattle.layers.specs.Views.{out_of, list_means, Kept};
ghost use Rattle.layers.specs.Reference.{reply, as_answer, Step};
ghost use Rattle.layers.specs.declared.calls.Call.{Call};

use crate::calls::{Answer, Call};
use crate::strike_list::StrikeList;
use indexes::{Counted, Decline, Index, Side};
use keys::Key;

// A strike's or a restore's result, as an answer.
fn done<K: Key>(res: Result<(), Decline>) -> Result<Answer<K>, Decline>
    ensures { result ≡ as_answer res }
{
    res.map(|()| Answer::Done)
}

impl<K: Key, I: Index<K>> StrikeList<K, I> {
    // The key at a place, put over the one that the caller holds.
    fn read(&self, place: usize, key: K) -> Result<Answer<K>, Decline>
        requires { Kept I.Index.opened I.Index.means self.now }
        ensures { result ≡ reply K.Key.before (I.Index.means self.now.below) (has (out_of self.now)) (Call.Row place key) }
    {
        let mut held = key;
        self.row(place, &mut held)?;
        Ok(Answer::Key(held))
    }

    // The place of a key. Never inlined, so that the other calls do not carry the search.
    #[inline(never)]
    fn sought(&self, key: &K, side: Side) -> Counted<usize>
        requires { Kept I.Index.opened I.Index.means self.now }
        ensures place { result.answer ≡ place_of K.Key.before (list_means I.Index.means self.now).rows key.now side }
        ensures comparisons { result.comparisons ≡ (list_means I.Index.means self.now).comparisons key.now side }
    {
        self.place(key, side)
    }

    // Carries out one call, and answers it.
    pub fn answer(&mut self, call: &Call<K>) -> Result<Answer<K>, Decline>
        requires { Kept I.Index.opened I.Index.means self.old }
        ensures step { Step K.Key.before I.Index.means self.old call.now result self.new }
        ensures opened { Kept I.Index.opened I.Index.means self.new }
    {
        match call {
            Call::Strike(row) => done(self.strike(*row)),
            Call::Restore(row) => done(self.restore(*row)),
            Call::Length => Ok(Answer::Rows(self.len())),
            Call::Row(place, key) => self.read(*place, *key),
            Call::Place(key, side) => Ok(Answer::Place(self.sought(key, *side))),
        }
    }
}
