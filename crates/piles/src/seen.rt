// The reader of every row: which rows are in sight, and how many of them a key has before it.
use crate::ranked::Ranked;
use indexes::{Decline, Index, Side};
use keys::Key;
use std::alloc::{AllocError, Global};
use trials::Tally;

// The numbers of all rows of a column.
pub fn ranks_of<K: Ranked>(heap: Global, column: &[K]) -> Result<Vec<i128>, AllocError> {
    column.iter().map(|key| key.rank()).collect(heap)
}

// The rows that are left without those struck, whose numbers are places in `rows`.
pub fn in_sight(heap: Global, rows: &[i128], struck: &[u32]) -> Result<Vec<i128>, AllocError> {
    rows.iter()
        .zip(0..)
        .filter(|(_, place)| !struck.contains(place))
        .map(|(rank, _)| *rank)
        .collect(heap)
}

// How many rows come before the key; or, after it, how many the key does not come before. By the library's `Side`,
// which the other trials that ask this do not all share.
fn place_of(rows: &[i128], sought: i128, side: Side) -> usize {
    // the side is told apart once, and not for each row
    match side {
        Side::At => rows.iter().filter(|row| **row < sought).count(),
        Side::After => rows.iter().filter(|row| **row <= sought).count(),
    }
}

// Does each place of an index have the row that is in sight there, and is each place past its end declined?
// The index is a column or a list above any other, so that it is open is asked for here, in `agrees` and in `above`.
fn rows_agree<K: Key + Ranked, I: Index<K>>(index: &I, seen: &[i128], spare: &K) -> bool
    requires { I.Index.opened index.now }
{
    let mut held = *spare;
    let shown = seen.iter().enumerate().all(
        |(place, rank)|
            requires { I.Index.opened index.now }
        { index.row(place, &mut held).is_ok() && held.rank() == *rank },
    );
    let before = held.rank();
    let mut declined = |past: usize|
        requires { I.Index.opened index.now }
    { index.row(past, &mut held) == Err(Decline::NoSuchRow) && held.rank() == before };
    shown && declined(seen.len()) && declined(usize::MAX)
}

// Holds all answers of an index against the rows that are in sight. (Rows and keys sought change from call to call, so no
// struct holds them.)
pub fn agrees<K: Key + Ranked, I: Index<K>>(
    tally: &mut Tally,
    index: &I,
    seen: &[i128],
    sought: &[K],
)
    requires { I.Index.opened index.now }
{
    tally.note(index.len() == seen.len());
    for key in sought {
        tally.note(rows_agree(index, seen, key));
        for side in [Side::At, Side::After] {
            let found = index.place(key, side).answer;
            tally.note(found == place_of(seen, key.rank(), side));
        }
    }
}
