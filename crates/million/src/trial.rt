// A directory over the column, built, opened and asked.
use crate::column::{expected_place, scattered};
use directories::{FrozenIndex, build};
use indexes::{Index, Layout, Side};
use keys::Account;
use shapes::slot_count;
use std::alloc::{AllocError, Global};
use std::fmt;
use trials::Tally;

// A directory over the column, with its numbers worked by hand.
#[derive(Clone, Copy, PartialEq, Eq, Debug)]
pub struct Directory<'a> {
    pub name: &'a str,
    pub layout: Layout,
    pub slots: usize,
    pub ceiling: u32,
}

// What was found of a directory.
#[derive(Clone, Copy, PartialEq, Eq, Debug)]
pub struct Trial<'a> {
    directory: Directory<'a>,
    opened: Tally,
    lookups: Tally,
}

impl<'a> Directory<'a> {
    // Looks up 50,000 keys on either side.
    fn looked_up<I: Index<Account>>(&self, index: &I) -> Tally
        requires { I.Index.opened index.now }
    {
        let mut lookups = Tally::new();
        for lookup in 1..=50_000 {
            let key = scattered(lookup);
            for side in [Side::At, Side::After] {
                let found = index.place(&key, side);
                let expected = expected_place(key.number, side) as usize;
                lookups.note(found.answer == expected && found.comparisons <= self.ceiling);
            }
        }
        lookups
    }

    pub fn tried(&self, heap: Global, column: &[Account]) -> Result<Trial<'a>, AllocError> {
        let mut opened = Tally::new();
        let mut slots = vec![in heap; Account::from(0); self.slots]?;
        // as the trial of `trees` does, which is another program; what they share knows no directory
        opened.note(slot_count(self.layout, column.len()) == Ok(self.slots));
        opened.note(build(column, self.layout, slots.as_mut_slice()).is_ok());
        let mut index = FrozenIndex::empty();
        opened.note(index.open(column, self.layout, slots.as_slice()).is_ok());
        opened.note(index.len() == column.len());
        opened.note(index.ceiling() == self.ceiling);
        let lookups = self.looked_up(&index);
        Ok(Trial {
            directory: *self,
            opened,
            lookups,
        })
    }
}

impl<'a> fmt::Display for Trial<'a> {
    fn fmt<W: fmt::Write>(&self, f: &mut fmt::Formatter<W>) -> fmt::Result {
        let Directory {
            name,
            slots,
            ceiling,
            ..
        } = self.directory;
        let lookups = self.lookups.tried;
        let mut all = self.opened;
        all += self.lookups;
        let differ = all.differ;
        write!(
            f,
            "{name:<9} {slots:>6} slots {lookups:>7} lookups of at most {ceiling} comparisons {differ:>2} differ"
        )
    }
}
