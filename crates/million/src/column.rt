// The column, and the places of keys in it by arithmetic alone.
use indexes::Side;
use keys::Account;
use std::alloc::{AllocError, Global};

const ROWS: u32 = 1_048_576;

// The rows: 0, 0, 0, 7, 7, 7, 14 and so on; the last, 2,446,675, is alone.
pub fn rising(heap: Global) -> Result<Vec<Account>, AllocError> {
    (0..ROWS)
        .map(|row| Account::from(row / 3 * 7))
        .collect(heap)
}

// Before the key stand three rows for each multiple of 7 that is less than it, or, on the other side, not more.
pub fn expected_place(number: u32, side: Side) -> u32 {
    let multiples = match side {
        Side::At => number.div_ceil(7),
        Side::After => number / 7 + 1,
    };
    ROWS.min(multiples.saturating_mul(3))
}

// The key of a lookup: scattered over the rows and a little past the last, one in seven of them a row's.
pub fn scattered(lookup: u32) -> Account {
    Account::from(lookup.wrapping_mul(2_654_435_761) % 2_450_000)
}
