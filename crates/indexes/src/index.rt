// What every index answers, and what it means.
ghost use Rattle.std.specs.Prelude.{◌≡◌, length, slice_index_or};
ghost use Rattle.indexes.specs.Meaning.{Meaning, Meant, place_of, row_answer};

use crate::Decline;
use keys::Key;

// The rows that an index may have.
pub const MAX_ROWS: usize = 1_048_576;

// Which boundary of the rows equivalent to a key is sought.
#[derive(Clone, Copy, PartialEq, Eq, Debug)]
pub enum Side {
    // before the first of them: the rows that come before the key are passed
    At,
    // behind the last of them: the rows that the key does not come before are passed
    After,
}

// An answer, with the comparisons that it cost.
#[derive(Clone, Copy, PartialEq, Eq, Debug)]
pub struct Counted<A> {
    pub answer: A,
    pub comparisons: u32,
}

pub trait Index<K: Key> {
    // its rows, its comparisons for each key and side, and its ceiling
    ghost means: { Self → Meaning K };

    // what it needs to answer; holds from its opening on. A member, and not for each type to keep: the check lets no
    // generic struct hold a type that keeps a fact of a bound, where only a generic impl meets that bound
    ghost opened: { Self → Type 0 };

    // The number of rows.
    fn len(&self) -> usize
        requires { opened self.now }
        ensures { result ≡ length (means self.now).rows };

    // The most comparisons that one place can cost.
    fn ceiling(&self) -> u32
        requires { opened self.now }
        ensures { result ≡ (means self.now).ceiling };

    // Puts the row at a place into `held`; past the end it is declined, and `held` stays. The key is the caller's, and not
    // part of the result: a rule of the product, so that a caller who reads many rows holds one key.
    fn row(&self, place: usize, held: &mut K) -> Result<(), Decline>
        requires { opened self.now }
        ensures answers { result ≡ row_answer (means self.now).rows place }
        ensures puts { held.new ≡ slice_index_or (means self.now).rows place held.old };

    // The place of a key: how many rows are passed on that side. Key and side stand apart, as the rules name them: a
    // struct of the two would be built at each call and taken apart in it.
    fn place(&self, key: &K, side: Side) -> Counted<usize>
        requires { opened self.now }
        ensures place { result.answer ≡ place_of K.Key.before (means self.now).rows key.now side }
        ensures comparisons { result.comparisons ≡ (means self.now).comparisons key.now side };

    // what holds of every meaning
    ghost meant: { (x : Self) → opened x → Meant K.Key.before (means x) };
}
