// A place sought in one node: halving a range of keys in order, with its comparisons counted.
ghost use Rattle.std.specs.Prelude.{◌≡◌};
ghost use Rattle.indexes.specs.Meaning.{passed};
ghost use Rattle.indexes.specs.Seeking.{bits, Seeks};

use crate::{Counted, Side};
use keys::Key;

// Is the row passed when the key is sought on this side?
fn passes<K: Key>(row: &K, key: &K, side: Side) -> bool
    ensures { result ≡ passed K.Key.before key.now side row.now }
{
    match side {
        Side::At => row.precedes(key),
        Side::After => !key.precedes(row),
    }
}

// How many binary digits the number has; none for 0.
#[tactic(auto, using(crate::proofs::Halving::bits_beside_zeros))]
pub fn bits_of(n: usize) -> u32
    ensures { result ≡ bits n }
{
    usize::BITS - n.leading_zeros()
}

// Halves the range that is left until nothing is, one comparison for each round. Where the keys are in order, the
// answer is the number of keys passed; in any case a passed key stands before it and one not passed stands at it.
// The loop is written out since its rounds are promised: the library's `partition_point` leaves open which keys it reads.
pub fn seek<K: Key>(keys: &[K], key: &K, side: Side) -> Counted<usize>
    ensures { Seeks K.Key.before keys.now key.now side result }
{
    let mut lo = 0;
    let mut hi = keys.len();
    let mut comparisons: u32 = 0;
    while lo < hi {
        let mid = lo + (hi - lo) / 2;
        comparisons += 1;
        if passes(&keys[mid], key, side) {
            lo = mid + 1;
        } else {
            hi = mid;
        }
    }
    Counted {
        answer: lo,
        comparisons,
    }
}
