// What is built over a frozen column.

// A directory is a tree of keys over the column's chunks, each of its nodes with the same number of slots.
#[derive(Clone, Copy, PartialEq, Eq, Debug)]
pub enum Layout {
    // nothing: a place is sought by halving the column
    Bare,
    // a node with m slots has m + 1 children
    Full { slots: u8 },
    // a node with m slots has m children, and its last slot is never looked at
    Level { slots: u8 },
}
