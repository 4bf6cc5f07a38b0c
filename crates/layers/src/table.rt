// The table of struck rows: the struct, which says itself that its numbers ascend.
ghost use Rattle.std.specs.Prelude.{◌≡◌, ◌≤◌, length, take};
ghost use Rattle.layers.specs.Table.{Ascending, listed};

mod numbers;

// A row that is out of sight, by its number in the index below.
#[derive(Clone, Copy, PartialEq, Eq, Debug)]
pub struct StruckRow {
    pub number: u32,
}

// At most 64 struck rows, their numbers ascending, each once. The entries from `len` on are free. A fixed table, by a rule
// of the product: a strike needs no memory, so it cannot fail for want of it.
#[derive(Drop)]
pub(crate) struct StruckRows {
    entries: [StruckRow; 64],
    len: usize,
    ghost few: { len ≤ 64 },
    ghost whole: { length entries ≡ 64 },
    ghost rising: { Ascending (listed (take len entries)) },
}
