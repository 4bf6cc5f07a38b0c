// Frozen columns and the search directories over them: build, open, and look up.
//
// A column in order is frozen: it no longer changes. `build` writes the slots of a directory over it, the keys of the rows
// that the layout's shape (crate `shapes`) puts there. `FrozenIndex::open` takes a column with such slots, checks both, and
// is then an index over the column: a place is found by a descent through the slots to one chunk of the column. Under
// `Layout::Bare` there are no slots, and the one chunk is the column.
//
// What needs no order of keys stands in the types: a `Tree` is an allowed layout with the shape that it has over few rows,
// and a `Column` is rows with a tree over so many. That the rows are in order, and that the slots agree with them, stands in
// clauses, as `Open`: it holds from `empty` on, and every lookup asks for it. A fact of the order in `FrozenIndex` would
// keep it out of other structs over every kind of key: none could hold a `StrikeList<K, FrozenIndex<K>>`.
//
// It promises, for every lawful kind of key: each decline, in the order of the numbers, with everything left as it was;
// exactly the slots of the rules; that an index opens exactly where its slots are equivalent to those; and exactly the
// places and comparisons of the descent that the rules define, which are the places that counting over all rows gives,
// at no more comparisons than the ceiling.
// It stands on the meaning of an index (crate `indexes`), the laws of shapes (`shapes`) and those of an order (`keys`).

#![tactic(auto)]

mod chunk;
mod column;
mod descent;
mod directory;
mod frozen;
mod slots;
mod tree;

pub use directory::build;
pub use frozen::FrozenIndex;
