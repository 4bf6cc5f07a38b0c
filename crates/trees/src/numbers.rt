// The numbers of a directory, found by counting: chunk by chunk, level by level, and node by node.
// The library's `Shape` has the same numbers by powers and division; a reader shares no code with what it is held against.
use indexes::Layout;
use std::iter;

#[derive(Clone, Copy, PartialEq, Eq, Debug)]
pub struct Numbers {
    // n, m and w: the rows, the slots of a node, and its children
    pub rows: usize,
    pub slots: usize,
    pub children: usize,
    // N: the chunks
    pub chunks: usize,
    // k: the levels above the last
    pub levels: u32,
    // U: the nodes on these levels
    pub upper: usize,
    // I: those of them that are internal
    pub internal: usize,
    // x: the chunks whose leaves lie on the last level; the others lie just above it
    pub first: usize,
}

// A chunk begins at each row whose number the slots of a node divide.
fn chunks_of(rows: usize, slots: usize) -> usize {
    (0..rows)
        .filter(|row| row.checked_rem(slots) == Some(0))
        .count()
}

// A tree begins as one leaf. A leaf that becomes internal has children in its place, until there is a leaf for each chunk.
fn internal_of(chunks: usize, children: usize) -> usize {
    iter::successors(Some(1usize), |leaves| {
        Some(leaves.saturating_sub(1).saturating_add(children))
    })
    .take(chunks)
    .take_while(|leaves| *leaves < chunks)
    .count()
}

// The levels that have fewer nodes than there are chunks, and the nodes on them; a level is as wide as the children of the one above.
fn levels_of(chunks: usize, children: usize) -> (u32, usize) {
    iter::successors(Some(1usize), |width| Some(width.saturating_mul(children)))
        .take(chunks)
        .take_while(|width| *width < chunks)
        .fold((0u32, 0usize), |(levels, nodes), width| {
            (levels.saturating_add(1), nodes.saturating_add(width))
        })
}

impl Numbers {
    fn counted(rows: usize, slots: usize, children: usize) -> Numbers {
        let chunks = chunks_of(rows, slots);
        let (levels, upper) = levels_of(chunks, children);
        let internal = internal_of(chunks, children);
        let late = upper.saturating_sub(internal);
        Numbers {
            rows,
            slots,
            children,
            chunks,
            levels,
            upper,
            internal,
            first: chunks.saturating_sub(late),
        }
    }

    // None for a bare column.
    pub fn of(layout: Layout, rows: usize) -> Option<Numbers> {
        let (slots, more) = match layout {
            Layout::Bare => return None,
            Layout::Full { slots } => (usize::from(slots), 1),
            Layout::Level { slots } => (usize::from(slots), 0),
        };
        Some(Numbers::counted(rows, slots, slots + more))
    }

    // The number of a node's child.
    pub fn child(&self, node: usize, child: usize) -> usize {
        node.saturating_mul(self.children)
            .saturating_add(1)
            .saturating_add(child)
    }
}
