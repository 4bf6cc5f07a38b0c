// What may be asked of a strike list, and what it answers.
use indexes::{Counted, Side};

// Row numbers are those of the index below; places are among the rows in sight.
#[derive(Clone, Copy, PartialEq, Eq, Debug)]
pub enum Call<K> {
    Strike(u32),
    Restore(u32),
    Length,
    // a place, and the key that the caller holds
    Row(usize, K),
    Place(K, Side),
}

#[derive(Clone, Copy, PartialEq, Eq, Debug)]
pub enum Answer<K> {
    // struck or restored
    Done,
    // how many rows are in sight
    Rows(usize),
    Key(K),
    Place(Counted<usize>),
}
