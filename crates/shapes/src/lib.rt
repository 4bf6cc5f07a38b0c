// The shape of a search directory: how its nodes, slots and chunks are numbered, before there is any key.
//
// A directory is a tree over a column's chunks in the layout of the cache-sensitive search tree. `Shape` has its numbers,
// and `Shape::of` computes them for a layout and a number of rows, or declines. `slot_count` tells how many slots the
// directory has. A bare column is the shape of one chunk, without a node.
//
// `Shape::of` promises the numbers that docs/DIRECTORIES.md defines (specs/Numbers.antt), and the laws of the tree that they
// give (specs/Laws.antt): its leaves are the chunks, each once and in their order; each slot is the last row under its
// child; a descent ends at the boundary between the rows passed and the others, within the ceiling.
//
// It stands on the node search and the declines of crate `indexes`, and knows nothing of keys.

#![tactic(auto)]

mod shape;

pub use shape::{Shape, slot_count};
