// Places and comparisons of an index that opened.
use crate::case::{Case, stranger};
use crate::declined::is_declined;
use crate::kind::{Made, made_of};
use crate::opening::Opening;
use crate::report::Report;
use crate::source::Source;
use directories::FrozenIndex;
use indexes::{Decline, Index, Layout, Side};
use std::alloc::AllocError;
use std::io;
use trials::Tally;

// What was found of the rows of an index, of its places, and of their comparisons.
#[derive(Clone, Copy, PartialEq, Eq, Debug, Default)]
pub struct Found {
    rows: Tally,
    places: Tally,
    comparisons: Tally,
}

impl Found {
    pub fn print(&self, report: &mut Report<'_>) -> io::Result<()> {
        report.group("openings, and the rows then", self.rows)?;
        report.group("places", self.places)?;
        report.group("comparisons", self.comparisons)
    }

    // Has the index the rows of the column, and no more?
    fn rows<K: Made, I: Index<K>>(&mut self, index: &I, column: &[K])
        requires { I.Index.opened index.now }
    {
        self.rows.note(index.len() == column.len());
        let mut held = stranger();
        for (place, row) in column.iter().enumerate() {
            self.rows
                .note(index.row(place, &mut held).is_ok() && held == *row);
        }
        self.rows.note(index.row(column.len(), &mut held).is_err());
    }

    // Each key on either side: the place as counted over all rows, the comparisons as by the reader's descent.
    fn places<K: Made, I: Index<K>>(&mut self, index: &I, case: &Case<'_, K>, source: &mut Source)
        requires { I.Index.opened index.now }
    {
        let ceiling = case.reader.ceiling();
        self.comparisons.note(index.ceiling() == ceiling);
        for lookup in &case.column.lookups {
            let key = source.key(lookup.number);
            for side in [Side::At, Side::After] {
                let counted = lookup.place(side);
                let expected = case.reader.sought(lookup.target(side));
                let answer = index.place(&key, side);
                self.places
                    .note(answer.answer == counted && counted == expected.place);
                self.comparisons.note(
                    answer.comparisons == expected.comparisons && answer.comparisons <= ceiling,
                );
            }
        }
    }

    // Opens the case's column with these slots, tries openings that are declined, and looks up its keys.
    pub fn opened<K: Made>(
        &mut self,
        case: &Case<'_, K>,
        opening: Opening<'_, K>,
        source: &mut Source,
    ) -> Result<(), AllocError> {
        let Opening {
            column,
            layout,
            slots,
        } = opening;
        let falling: Vec<K> = made_of(source.heap, &[9, 3])?;
        let falling = falling.as_slice();
        let mut index = FrozenIndex::empty();
        self.rows.note(index.open(column, layout, slots).is_ok());
        let answer = index.open(falling, layout, falling);
        self.rows.note(is_declined(answer, Decline::OutOfOrder));
        let answer = index.open(&[], layout, falling);
        self.rows.note(is_declined(answer, Decline::SlotCount));
        let answer = index.open(&[], Layout::Full { slots: 1 }, slots);
        self.rows.note(is_declined(answer, Decline::NodeSize));
        self.rows.note(index.layout() == layout);
        self.rows(&index, column);
        self.places(&index, case, source);
        Ok(())
    }
}
