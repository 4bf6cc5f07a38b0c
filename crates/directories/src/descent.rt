// The descent through a directory: from the root by node searches to a leaf, and there through one chunk of the column.
use crate::FrozenIndex;
use indexes::{Counted, Side, seek};
use keys::Key;

impl<'a, K: Key> FrozenIndex<'a, K> {
    ghost use Rattle.directories.specs.Frozen.{Open, column_of, layout_of};
    ghost use Rattle.directories.specs.Meanings.{sought_under};
    ghost use Rattle.indexes.specs.Meaning.{place_of};
    ghost use Rattle.std.specs.List.{between};
    ghost use Rattle.std.specs.Prelude.{◌≡◌, ◌<◌, ◌+◌, ◌-◌, ◌*◌};

    // The keys of an internal node that are looked at.
    fn keys_of(&self, node: usize) -> &'a [K]
        requires opened { Open K.Key.before self.now }
        requires internal { node < self.now.column.tree.shape.internal }
        ensures { result.now ≡ between (node * self.now.column.tree.shape.slots) (node * self.now.column.tree.shape.slots + (self.now.column.tree.shape.children - 1)) self.now.slots.now }
    {
        let shape = &self.column.tree.shape;
        let from = node * shape.slots;
        &self.slots[from..from + (shape.children - 1)]
    }

    // The place of a key in the column, sought through the slots. (Inlined, as a call of its own it costs a tenth more.)
    #[inline(always)]
    pub(crate) fn descend(&self, key: &K, side: Side) -> Counted<usize>
        requires { Open K.Key.before self.now }
        ensures place { result.answer ≡ place_of K.Key.before (column_of self.now) key.now side }
        ensures comparisons { result.comparisons ≡ (sought_under K.Key.before (layout_of self.now) (column_of self.now) key.now side).rounds }
    {
        let tree = &self.column.tree;
        let mut node = 0;
        let mut comparisons = 0;
        // a walk down the nodes, and no count: the search of each gives the next
        while node < tree.shape.internal {
            let found = seek(self.keys_of(node), key, side);
            comparisons += found.comparisons;
            node = tree.child_of(node, found.answer);
        }
        let landed = self.column.land(node, key, side);
        Counted {
            comparisons: comparisons + landed.comparisons,
            ..landed
        }
    }
}
