// A strike list above an index: the struct. What it keeps stands in `Kept` (specs/Views.antt) and not in ghost fields: the
// check refuses a struct that has them and a bound, in a field of a generic struct, where only a generic impl meets it.
mod as_index;
mod review;

use crate::table::StruckRows;
use std::marker::PhantomData;

// The index below, and the numbers of its rows that are out of sight.
#[derive(Drop)]
pub struct StrikeList<K, I> {
    below: I,
    struck: StruckRows,
    kind: PhantomData<K>,
}
