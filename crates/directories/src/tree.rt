// The tree over a column's chunks: the children of its nodes, its slots, and its ceiling.
ghost use Rattle.shapes.specs.Layouts.{allowed, shape_under};
ghost use Rattle.std.specs.Coded.{Coded-set};
ghost use Rattle.std.specs.Prelude.{◌≡◌, ◌≤◌, true};

use indexes::{Decline, Layout, bits_of};
use shapes::Shape;

// An allowed layout over few rows, with the shape that it has over so many.
#[derive(Clone, Copy)]
pub(crate) struct Tree {
    pub(crate) layout: Layout,
    pub(crate) shape: Shape,
    ghost fine: { allowed layout ≡ true },
    ghost few: { shape.rows ≤ 1048576 },
    ghost shaped: { shape ≡ shape_under layout shape.rows } by { Coded-set shape-code shape (shape_under layout shape.rows) },
}

impl Tree {
    ghost use Rattle.directories.specs.Slots.{row_of_slot};
    ghost use Rattle.directories.specs.Trees.{Planted};
    ghost use Rattle.indexes.specs.declared.layout.Layout.TheVariants.{Bare};
    ghost use Rattle.shapes.specs.Layouts.{ceiling_under, slots_in};
    ghost use Rattle.shapes.specs.Nodes.{child};
    ghost use Rattle.shapes.specs.Numbers.{one_chunk};
    ghost use Rattle.std.specs.Prelude.{◌<◌, IfOk};

    // The tree over no rows.
    pub(crate) fn empty() -> Tree
        ensures layout { result.layout ≡ Bare }
        ensures shape { result.shape ≡ one_chunk 0 }
    {
        Tree {
            layout: Layout::Bare,
            shape: Shape::bare(0),
        }
    }

    // The tree of a layout over so many rows, where there may be one.
    pub(crate) fn of(layout: Layout, rows: usize) -> Result<Tree, Decline>
        ensures answers { Planted layout rows result }
        ensures rows { IfOk result (λ t. t.shape.rows ≡ rows) }
    {
        let shape = Shape::of(layout, rows)?;
        Ok(Tree { layout, shape })
    }

    // How many slots its internal nodes have.
    #[tactic(auto, using(crate::proofs::TreeFacts::few_slots))]
    pub(crate) fn slot_count(&self) -> usize
        ensures { result ≡ slots_in self.now.shape }
    {
        self.shape.internal * self.shape.slots
    }

    // A child of an internal node.
    #[tactic(auto, using(crate::proofs::TreeFacts::few_children, crate::proofs::TreeFacts::children_below))]
    pub(crate) fn child_of(&self, node: usize, i: usize) -> usize
        requires internal { node < self.now.shape.internal }
        requires child { i < self.now.shape.children }
        ensures is { result ≡ child self.now.shape node i }
        ensures above { node < result }
    {
        node * self.shape.children + 1 + i
    }

    // The row of the slot at a place among all slots.
    pub(crate) fn row_of(&self, place: usize) -> usize
        requires { place < slots_in self.now.shape }
        ensures is { result ≡ row_of_slot self.now.shape place }
        ensures exists { result < self.now.shape.rows }
    {
        let shape = &self.shape;
        let mut node = self.child_of(place / shape.slots, place % shape.slots);
        // a walk down the nodes, and no count: each gives the next
        while node < shape.internal {
            node = self.child_of(node, shape.children - 1);
        }
        self.last_of(self.leaf_at(node).unwrap_or(shape.first - 1))
    }

    // How many comparisons a descent takes at most: those of the nodes on its way, and those of a chunk.
    #[tactic(auto, using(crate::proofs::Models::tree_rounds, crate::proofs::Models::rounds_few))]
    pub(crate) fn most_comparisons(&self) -> u32
        ensures { result ≡ ceiling_under self.now.layout self.now.shape.rows }
    {
        let node = bits_of(self.shape.children - 1);
        let chunk = bits_of(self.shape.slots);
        self.shape.levels as u32 * node + chunk
    }
}
