// The descent through a directory and its ceiling, by the rules, over the column's rows in plain numbers.
use crate::numbers::Numbers;
use crate::passed::Target;
use crate::tree::Tree;
use indexes::Layout;
use std::alloc::{AllocError, Global};
use trials::{Sought, halved, part};

#[derive(Drop)]
pub struct Reader<'a> {
    rows: &'a [u32],
    // beside the tree, whose numbers do not say whether it is full or level, as the ceiling does
    layout: Layout,
    // none over a bare column
    tree: Option<Tree>,
}

impl<'a> Reader<'a> {
    pub fn new(heap: Global, rows: &'a [u32], layout: Layout) -> Result<Reader<'a>, AllocError> {
        let tree = Numbers::of(layout, rows.len())
            .map(|numbers| Tree::new(heap, numbers))
            .transpose()?;
        Ok(Reader { rows, layout, tree })
    }

    // The row of each slot.
    pub fn slot_rows(&self) -> &[usize] {
        match &self.tree {
            Some(tree) => tree.slot_rows(),
            None => &[],
        }
    }

    // The last slot of the first node.
    pub fn last_slot(&self) -> usize {
        match self.layout {
            Layout::Bare => 0,
            Layout::Full { slots } | Layout::Level { slots } => {
                usize::from(slots).saturating_sub(1)
            }
        }
    }

    // The most comparisons of a place.
    pub fn ceiling(&self) -> u32 {
        let levels = self.tree.as_ref().map_or(0, |tree| tree.numbers.levels);
        match self.layout {
            Layout::Bare => digits(self.rows.len()),
            Layout::Full { slots } => levels
                .saturating_add(1)
                .saturating_mul(digits(usize::from(slots))),
            Layout::Level { slots } => {
                let exponent = digits(usize::from(slots)).saturating_sub(1);
                levels
                    .saturating_mul(exponent)
                    .saturating_add(exponent)
                    .saturating_add(1)
            }
        }
    }

    // The place of what is sought, and its comparisons.
    pub fn sought(&self, target: Target) -> Sought {
        match &self.tree {
            Some(tree) => self.descent(tree, target),
            None => halved(self.rows, |row| target.passes(*row)),
        }
    }

    fn descent(&self, tree: &Tree, target: Target) -> Sought {
        let numbers = &tree.numbers;
        let mut node = 0usize;
        let mut comparisons = 0u32;
        // a loop: a `fold` would carry the node and the comparisons as a pair, by position
        for _ in 0..numbers.levels {
            // a leaf may lie above the last level
            if node < numbers.internal {
                let found = halved(tree.looked_at(node), |row| {
                    self.rows.get(*row).is_some_and(|row| target.passes(*row))
                });
                comparisons = comparisons.saturating_add(found.comparisons);
                node = numbers.child(node, found.place);
            }
        }
        let Some(chunk) = tree.chunk(node) else {
            return Sought {
                place: self.rows.len(),
                comparisons,
            };
        };
        let from = chunk.saturating_mul(numbers.slots);
        let found = halved(part(self.rows, from, numbers.slots), |row| {
            target.passes(*row)
        });
        Sought {
            place: from.saturating_add(found.place),
            comparisons: comparisons.saturating_add(found.comparisons),
        }
    }
}

// How many binary digits a number has: shifted by so many, nothing is left. The library counts leading zeros.
fn digits(number: usize) -> u32 {
    (0..usize::BITS)
        .find(|places| number >> *places == 0)
        .unwrap_or(usize::BITS)
}
