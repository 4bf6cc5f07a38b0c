// Columns with one row too many.
use crate::builds::Build;
use crate::declined::NOT_ALLOWED;
use crate::opening::Opening;
use indexes::{Decline, Layout};
use keys::Account;
use shapes::slot_count;
use std::alloc::{AllocError, Global};
use std::iter;
use trials::Tally;

const LAYOUTS: [Layout; 5] = [
    Layout::Bare,
    Layout::Full { slots: 2 },
    Layout::Full { slots: 64 },
    Layout::Level { slots: 2 },
    Layout::Level { slots: 64 },
];

// Accounts 1, 2, 3 and so on, 1,048,577 of them, the last of which is `last`.
// Not shared with `piles`: it is one chain of std's, and the contract of a shared one would be longer.
fn too_many(heap: Global, last: u32) -> Result<Vec<Account>, AllocError> {
    (1..1_048_577)
        .chain(iter::once(last))
        .map(Account::from)
        .collect(heap)
}

// Is all that is tried with these rows under this layout declined for this reason?
fn declined(
    heap: Global,
    rows: &[Account],
    layout: Layout,
    why: Decline,
) -> Result<Tally, AllocError> {
    let mut tally = Tally::new();
    tally.note(slot_count(layout, rows.len()) == Err(why));
    let build = Build {
        rows,
        layout,
        slots: 1,
    };
    tally.note(build.is_declined(heap, why)?);
    let opening = Opening {
        column: rows,
        layout,
        slots: &[],
    };
    tally.note(opening.is_declined(heap, why)?);
    Ok(tally)
}

// Too many rows go before rows out of order and slots too few; a node size that is not allowed goes before all.
pub fn tried(heap: Global) -> Result<Tally, AllocError> {
    let mut tally = Tally::new();
    for last in [u32::MAX, 0] {
        let column = too_many(heap, last)?;
        let rows = column.as_slice();
        for layout in LAYOUTS {
            tally += declined(heap, rows, layout, Decline::TooManyRows)?;
        }
        for layout in NOT_ALLOWED {
            tally += declined(heap, rows, layout, Decline::NodeSize)?;
        }
    }
    Ok(tally)
}
