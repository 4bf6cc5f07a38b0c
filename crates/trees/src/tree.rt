// The tree of a directory as tables: the chunk of each leaf, and the row of each slot.
//
// The tables go by the numbers of nodes and slots, as the slots of a directory lie: which number a node has is what is tried.
use crate::numbers::Numbers;
use std::alloc::{AllocError, Global};
use trials::part;

#[derive(Drop)]
pub struct Tree {
    pub numbers: Numbers,
    // by node, where it is a leaf
    chunks: Vec<Option<usize>>,
    // by slot
    rows: Vec<usize>,
}

impl Numbers {
    // Puts each chunk to its leaf: those of the first part on the last level, the others from the first leaf on.
    fn leaves(&self, heap: Global) -> Result<Vec<Option<usize>>, AllocError> {
        let nodes = self.child(self.internal, 0);
        let mut leaves = vec![in heap; None; nodes]?;
        let last_level = leaves.iter_mut().skip(self.upper);
        for (leaf, chunk) in last_level.zip(0..self.first) {
            *leaf = Some(chunk);
        }
        let from_the_first = leaves.iter_mut().skip(self.internal);
        for (leaf, chunk) in from_the_first.zip(self.first..self.chunks) {
            *leaf = Some(chunk);
        }
        Ok(leaves)
    }

    // The last row of so many chunks, from the first on.
    fn last_row(&self, chunks: usize) -> usize {
        chunks
            .saturating_mul(self.slots)
            .min(self.rows)
            .saturating_sub(1)
    }

    // The last row under each node, from the last node to the first: a node's is that of its last child, which
    // was written before it.
    fn ends(&self, heap: Global, leaves: &[Option<usize>]) -> Result<Vec<usize>, AllocError> {
        let mut ends = vec![in heap; 0usize; leaves.len()]?;
        for (node, leaf) in leaves.iter().enumerate().rev() {
            let end = match leaf {
                Some(chunk) => self.last_row(chunk.saturating_add(1)),
                None if node < self.internal => {
                    let last = self.child(node, self.children.saturating_sub(1));
                    ends.get(last).copied().unwrap_or(0)
                }
                None => self.last_row(self.first),
            };
            if let Some(held) = ends.get_mut(node) {
                *held = end;
            }
        }
        Ok(ends)
    }
}

impl Tree {
    pub fn new(heap: Global, numbers: Numbers) -> Result<Tree, AllocError> {
        let chunks = numbers.leaves(heap)?;
        let ends = numbers.ends(heap, chunks.as_slice())?;
        let rows = (0..numbers.internal)
            .flat_map(|node| part(ends.as_slice(), numbers.child(node, 0), numbers.slots))
            .copied()
            .collect(heap)?;
        Ok(Tree {
            numbers,
            chunks,
            rows,
        })
    }

    // The row of each slot.
    pub fn slot_rows(&self) -> &[usize] {
        self.rows.as_slice()
    }

    // The rows of a node's slots that a descent looks at: there is one between two children.
    pub fn looked_at(&self, node: usize) -> &[usize] {
        let from = node.saturating_mul(self.numbers.slots);
        part(
            self.rows.as_slice(),
            from,
            self.numbers.children.saturating_sub(1),
        )
    }

    // The chunk of a leaf; none where there is no leaf.
    pub fn chunk(&self, node: usize) -> Option<usize> {
        self.chunks.get(node).copied().flatten()
    }
}
