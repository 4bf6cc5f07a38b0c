// What programs that try a library share: counting what was tried, drawing numbers, halving over
// rows, taking parts of them.
//
// `Tally` counts cases, and how many of them came out otherwise than expected; `Table` adds the tallies of groups up, and
// `Group` is the line of one. What they print is stated byte for byte.
// `Random` draws numbers that look random and are the same in every run. `halved` seeks a place in rows by halving,
// over a closure that says which rows are passed. `part` is a part of some items.
//
// A reader must share no code with what it is held against: this crate stands on std alone.

#![tactic(auto)]

mod halving;
mod parts;
mod random;
mod table;
mod tally;

pub use halving::{Sought, halved};
pub use parts::part;
pub use random::Random;
pub use table::{Group, Table, Widths};
pub use tally::Tally;
