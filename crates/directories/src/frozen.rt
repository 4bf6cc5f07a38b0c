// A frozen column: rows in order that no longer change, with what is built over them.
ghost use Rattle.directories.specs.Frozen.{Open, column_of, layout_of};
ghost use Rattle.std.specs.Prelude.{◌≡◌};

use crate::column::Column;
use indexes::{Counted, Decline, Index, Layout, Side, seek};
use keys::Key;
use std::alloc::AllocError;

// The tree is computed once, at the opening.
pub struct FrozenIndex<'a, K> {
    pub(crate) column: Column<'a, K>,
    pub(crate) slots: &'a [K],
}

// Both by hand: derived, they would ask the same of keys.
impl<'a, K> Copy for FrozenIndex<'a, K> {}

impl<'a, K> Clone for FrozenIndex<'a, K> {
    ghost use Rattle.std.specs.Prelude.{⊤};

    ghost is_clone = { λ x y. y ≡ x };

    ghost is_infallible = { λ _. ⊤ };

    fn clone(&self) -> Result<Self, AllocError> {
        Ok(*self)
    }
}

impl<'a, K: Key> FrozenIndex<'a, K> {
    ghost use Rattle.directories.specs.Frozen.{Opens};
    ghost use Rattle.indexes.specs.declared.layout.Layout.TheVariants.{Bare};
    ghost use Rattle.std.specs.Prelude.{[]};

    // A bare column without rows.
    pub fn empty() -> Self
        ensures holds { column_of result ≡ [] }
        ensures layout { layout_of result ≡ Bare }
        ensures opened { Open K.Key.before result }
    {
        FrozenIndex {
            column: Column::empty(),
            slots: &[],
        }
    }

    // What is built over the column.
    pub fn layout(&self) -> Layout
        ensures answers { result ≡ layout_of self.now }
    {
        self.column.tree.layout
    }

    // Makes the column the rows of this index, with the slots of its directory; or declines and leaves it. A bare column
    // has no slots.
    pub fn open(&mut self, column: &'a [K], layout: Layout, slots: &'a [K]) -> Result<(), Decline>
        ensures { Opens K.Key.before layout column.now slots.now self.old self.new result }
    {
        let column = Column::over(column, layout, slots.len())?;
        if !column.agrees(slots) {
            return Err(Decline::SlotDiffers);
        }
        *self = FrozenIndex { column, slots };
        Ok(())
    }
}

impl<'a, K: Key> Index<K> for FrozenIndex<'a, K> {
    ghost use Rattle.directories.specs.Meanings.{frozen};

    ghost means = { λ x. frozen K.Key.before (layout_of x) (column_of x) };

    ghost opened = { Open K.Key.before };

    ghost meant = { λ _ o. o.meant };

    fn len(&self) -> usize {
        self.column.rows.len()
    }

    fn ceiling(&self) -> u32 {
        self.column.tree.most_comparisons()
    }

    fn row(&self, place: usize, held: &mut K) -> Result<(), Decline> {
        let row = self.column.rows.get(place).ok_or(Decline::NoSuchRow)?;
        *held = *row;
        Ok(())
    }

    // From one opening to the next it is always the same way: inlined, neither pays for the other.
    #[inline(always)]
    fn place(&self, key: &K, side: Side) -> Counted<usize> {
        match self.column.tree.layout {
            // one node, and no way down to it: a lookup in few rows is no dearer than its search
            Layout::Bare => seek(self.column.rows, key, side),
            Layout::Full { .. } | Layout::Level { .. } => self.descend(key, side),
        }
    }
}
