// Layers above an index, each an index again.
//
// `StrikeList` hides rows: it holds the index below and at most 64 of its row numbers, ascending, each once. `strike`
// puts a row of the index below out of sight and `restore` puts it back; its own rows are the rows below without those
// struck, and its comparisons and ceiling are those below. `Call` and `Answer` are what may be asked of it and what it
// answers; `StrikeList::answer` takes any call and is held to a plain set of row numbers that knows nothing of the
// list's own table.
//
// It promises, for every lawful key kind and every index below, ours or another's: each answer or decline exactly, the
// struck numbers afterwards, that the index below is left alone, and that a declined call changes nothing.
// It stands on the meaning of an index (crate `indexes`) and the laws of an order (crate `keys`).

#![tactic(auto)]

mod calls;
mod reply;
mod strike_list;
mod table;

pub use calls::{Answer, Call};
pub use strike_list::StrikeList;
pub use table::StruckRow;
