// An opening of an index that is open already, and must still be so where the opening is declined.
use crate::case::stranger;
use crate::declined::is_declined;
use crate::kind::{Made, made_of};
use directories::FrozenIndex;
use indexes::{Decline, Index, Layout, Side};
use std::alloc::{AllocError, Global};

const LAYOUT: Layout = Layout::Full { slots: 2 };

// Has the index this row at this place, and at no other?
fn has<K: Made, I: Index<K>>(index: &I, place: usize, row: &K) -> bool
    requires { I.Index.opened index.now }
{
    let mut held = stranger();
    index.row(place, &mut held).is_ok()
        && held == *row
        && index.place(row, Side::At).answer == place
        && index.place(row, Side::After).answer.checked_sub(1) == Some(place)
}

// Has the index these rows, no two of them equivalent, and finds each?
fn has_all<K: Made, I: Index<K>>(index: &I, rows: &[K]) -> bool
    requires { I.Index.opened index.now }
{
    index.len() == rows.len()
        && rows.iter().enumerate().all(
            |(place, row)|
                requires { I.Index.opened index.now }
            { has(index, place, row) },
        )
}

// An opening to try: of this column, under this layout, with these slots.
#[derive(Clone, Copy)]
pub struct Opening<'a, K> {
    pub column: &'a [K],
    pub layout: Layout,
    pub slots: &'a [K],
}

impl<'a, K: Made> Opening<'a, K> {
    // Is it declined for this reason, and has the index still what it had?
    pub fn is_declined(&self, heap: Global, why: Decline) -> Result<bool, AllocError> {
        let rows: Vec<K> = made_of(heap, &[7, 8, 20, 30, 31])?;
        // a root with three chunks: its slots are the last rows of the first two
        let its_slots = made_of(heap, &[8, 30])?;
        let mut index = FrozenIndex::empty();
        let is_open = index
            .open(rows.as_slice(), LAYOUT, its_slots.as_slice())
            .is_ok();
        let answer = index.open(self.column, self.layout, self.slots);
        Ok(
            is_open
                && is_declined(answer, why)
                && index.layout() == LAYOUT
                && has_all(&index, rows.as_slice()),
        )
    }
}
