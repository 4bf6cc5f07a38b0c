// Columns that are too long or out of order, and what the index holds after openings that are declined and accepted.
use crate::seen::{agrees, ranks_of};
use directories::FrozenIndex;
use indexes::{Decline, Layout};
use keys::Account;
use std::alloc::{AllocError, Global};
use std::iter::once;
use trials::Tally;

// Accounts that rise, but for the last one, which is `last`.
// Not shared with `trees`: it is one chain of std's, and the contract of a shared one would be longer.
fn rising(heap: Global, len: u32, last: u32) -> Result<Vec<Account>, AllocError> {
    (1..len).chain(once(last)).map(Account::from).collect(heap)
}

// Reasons with their numbers, since which number a reason has is tried too.
const TOO_MANY_ROWS: (Decline, u8) = (Decline::TooManyRows, 2);

const OUT_OF_ORDER: (Decline, u8) = (Decline::OutOfOrder, 3);

// Is the opening declined for this reason, and has that its number?
fn is_declined(answer: Result<(), Decline>, (why, number): (Decline, u8)) -> bool {
    answer == Err(why) && why.number() == number
}

#[derive(Clone, Copy)]
struct Columns<'a> {
    short: &'a [Account],
    other: &'a [Account],
    falling: &'a [Account],
    long: &'a [Account],
    long_falling: &'a [Account],
    most: &'a [Account],
}

// What an index holds after openings, by the numbers of the rows: it is looked at where one stays that was there, and
// behind the first and the last.
fn opened<'a>(heap: Global, columns: &Columns<'a>) -> Result<Tally, AllocError> {
    let short = ranks_of(heap, columns.short)?;
    let other = ranks_of(heap, columns.other)?;
    let most = ranks_of(heap, columns.most)?;
    let sought = columns.falling;
    let mut tally = Tally::new();
    let mut index: FrozenIndex<'a, Account> = FrozenIndex::empty();
    agrees(&mut tally, &index, &[], sought);
    tally.note(is_declined(index.open(columns.falling, Layout::Bare, &[]), OUT_OF_ORDER));
    agrees(&mut tally, &index, &[], sought);
    tally.note(index.open(columns.short, Layout::Bare, &[]).is_ok());
    tally.note(is_declined(index.open(columns.long, Layout::Bare, &[]), TOO_MANY_ROWS));
    tally.note(is_declined(
        index.open(columns.long_falling, Layout::Bare, &[]),
        TOO_MANY_ROWS,
    ));
    tally.note(is_declined(index.open(columns.falling, Layout::Bare, &[]), OUT_OF_ORDER));
    agrees(&mut tally, &index, short.as_slice(), sought);
    tally.note(index.open(columns.other, Layout::Bare, &[]).is_ok());
    agrees(&mut tally, &index, other.as_slice(), sought);
    tally.note(index.open(columns.most, Layout::Bare, &[]).is_ok());
    agrees(&mut tally, &index, most.as_slice(), sought);
    Ok(tally)
}

// Opens columns that are taken, too long, or out of order.
pub fn tried(heap: Global) -> Result<Tally, AllocError> {
    let long = rising(heap, 1_048_577, u32::MAX)?;
    let long_falling = rising(heap, 1_048_577, 0)?;
    let most = rising(heap, 1_048_576, u32::MAX)?;
    let columns = Columns {
        short: &[10, 20, 20, 30].map(Account::from),
        other: &[5, 25].map(Account::from),
        falling: &[1, 25, 20].map(Account::from),
        long: long.as_slice(),
        long_falling: long_falling.as_slice(),
        most: most.as_slice(),
    };
    opened(heap, &columns)
}
