// A column with the tree over so many rows.
ghost use Rattle.directories.specs.Opening.{in_order};
ghost use Rattle.std.specs.Prelude.{◌≡◌, length};

use crate::tree::Tree;
use indexes::{Counted, Decline, Layout, Side, seek};
use keys::Key;
use std::alloc::AllocError;

pub(crate) struct Column<'a, K> {
    pub(crate) tree: Tree,
    pub(crate) rows: &'a [K],
    ghost all: { length rows.now ≡ tree.shape.rows },
}

// Both by hand: the check derives no `Clone` over a ghost field, and a derived `Copy` would ask `Copy` of keys.
impl<'a, K> Copy for Column<'a, K> {}

impl<'a, K> Clone for Column<'a, K> {
    ghost use Rattle.std.specs.Prelude.{⊤};

    ghost is_clone = { λ x y. y ≡ x };

    ghost is_infallible = { λ _. ⊤ };

    fn clone(&self) -> Result<Self, AllocError> {
        Ok(*self)
    }
}

impl<'a, K: Key> Column<'a, K> {
    ghost use Rattle.directories.specs.Columns.{Fits};
    ghost use Rattle.directories.specs.Slots.{chunk_rows};
    ghost use Rattle.indexes.specs.declared.layout.Layout.TheVariants.{Bare};
    ghost use Rattle.indexes.specs.Seeking.{passed_at};
    ghost use Rattle.shapes.specs.Descent.{at_leaf};
    ghost use Rattle.shapes.specs.Nodes.{chunk_at};
    ghost use Rattle.std.specs.Prelude.{◌<◌, ◌≤◌, []};

    // A bare column without rows.
    pub(crate) fn empty() -> Self
        ensures rows { result.rows.now ≡ [] }
        ensures layout { result.tree.layout ≡ Bare }
    {
        Column {
            tree: Tree::empty(),
            rows: &[],
        }
    }

    // The column with its tree, where a directory of so many slots may be over it.
    pub(crate) fn over(rows: &'a [K], layout: Layout, slots: usize) -> Result<Self, Decline>
        ensures { Fits K.Key.before layout rows.now slots result }
    {
        let tree = Tree::of(layout, rows.len())?;
        if !is_ordered(rows) {
            return Err(Decline::OutOfOrder);
        }
        if slots != tree.slot_count() {
            return Err(Decline::SlotCount);
        }
        Ok(Column { tree, rows })
    }

    // The rows of a chunk.
    #[tactic(auto, using(crate::proofs::TreeFacts::chunk))]
    fn chunk(&self, chunk: usize) -> &'a [K]
        requires { chunk < self.now.tree.shape.chunks }
        ensures { result.now ≡ chunk_rows self.now.tree.shape self.now.rows.now chunk }
    {
        let from = chunk * self.tree.shape.slots;
        &self.rows[from..from + self.tree.size_of(chunk)]
    }

    // The place at a node that is not internal.
    pub(crate) fn land(&self, node: usize, key: &K, side: Side) -> Counted<usize>
        requires { self.now.tree.shape.internal ≤ node }
        ensures place { result.answer ≡ (at_leaf self.now.tree.shape (passed_at K.Key.before self.now.rows.now key.now side) (chunk_at self.now.tree.shape node)).place }
        ensures comparisons { result.comparisons ≡ (at_leaf self.now.tree.shape (passed_at K.Key.before self.now.rows.now key.now side) (chunk_at self.now.tree.shape node)).rounds }
    {
        let Some(chunk) = self.tree.leaf_at(node) else {
            return Counted {
                answer: self.rows.len(),
                comparisons: 0,
            };
        };
        let found = seek(self.chunk(chunk), key, side);
        Counted {
            answer: chunk * self.tree.shape.slots + found.answer,
            ..found
        }
    }
}

// Does no row come before its predecessor?
fn is_ordered<K: Key>(rows: &[K]) -> bool
    ensures { result ≡ in_order K.Key.before rows.now }
{
    rows.is_sorted_by(|earlier, later| !later.precedes(earlier))
}
