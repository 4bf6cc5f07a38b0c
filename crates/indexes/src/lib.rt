// Indexes over sorted columns: what an index means, and how a place is sought in a node.
//
// `Index<K>` is the trait that everything above is written against. An index means three things (its ghost member
// `means`): rows in order, a number of comparisons for each key and side, and a ceiling on these. Its methods `len`,
// `ceiling`, `row` and `place` answer exactly by that meaning. Its ghost member `opened` is what an implementation
// needs to answer at all; constructors and `open` establish it, and a call for which it is not shown is refused.
//
// `seek` seeks a key among keys in order by halving: its place, its comparisons, and how many they can be (`bits_of`) are
// exact. `Layout` names what may be built over a column; the frozen column itself is in crate `directories`.
// `Decline` lists every reason for which a call of the whole library is declined, with its number.
// `&I` is an index where `I` is.
//
// It stands on the order of keys (crate `keys`) alone.

#![tactic(auto)]

mod decline;
mod index;
mod layout;
mod lent;
mod node;

pub use decline::Decline;
pub use index::{Counted, Index, MAX_ROWS, Side};
pub use layout::Layout;
pub use node::{bits_of, seek};
