// Directories worked by hand: their slots, their ceilings, and some descents. The reader is held to them too.
use crate::builds::built;
use crate::kind::made_of;
use crate::passed::Target;
use crate::reader::Reader;
use directories::FrozenIndex;
use indexes::{Counted, Index, Layout, Side};
use keys::Account;
use shapes::slot_count;
use std::alloc::{AllocError, Global};
use std::array;
use trials::{Sought, Tally};

#[derive(Clone, Copy, PartialEq, Eq, Debug)]
struct Descent {
    target: Target,
    found: Sought,
}

#[derive(Clone, Copy, PartialEq, Eq, Debug)]
struct Worked<'a> {
    rows: &'a [u32],
    layout: Layout,
    slots: &'a [u32],
    ceiling: u32,
    descents: &'a [Descent],
}

impl Descent {
    fn new(side: Side, number: u32, place: usize, comparisons: u32) -> Descent {
        Descent {
            target: Target { number, side },
            found: Sought { place, comparisons },
        }
    }
}

impl<'a> Worked<'a> {
    // The rows of the reader's slots are those of the slots worked by hand.
    fn read(&self, tally: &mut Tally, reader: &Reader<'_>) {
        tally.note(reader.slot_rows().len() == self.slots.len());
        for (row, expected) in reader.slot_rows().iter().zip(self.slots) {
            tally.note(self.rows.get(*row) == Some(expected));
        }
        tally.note(reader.ceiling() == self.ceiling);
        for descent in self.descents {
            tally.note(reader.sought(descent.target) == descent.found);
        }
    }

    fn descend<I: Index<Account>>(&self, tally: &mut Tally, index: &I)
        requires { I.Index.opened index.now }
    {
        tally.note(index.ceiling() == self.ceiling);
        for descent in self.descents {
            let Target { number, side } = descent.target;
            let found = index.place(&Account::from(number), side);
            let Sought { place, comparisons } = descent.found;
            // in the library's type, since the other is a type of the reader, which shares none with it
            let expected = Counted {
                answer: place,
                comparisons,
            };
            tally.note(found == expected);
        }
    }

    fn tried(&self, heap: Global) -> Result<Tally, AllocError> {
        let mut tally = Tally::new();
        let column: Vec<Account> = made_of(heap, self.rows)?;
        let column = column.as_slice();
        let expected = made_of(heap, self.slots)?;
        let slots = built(heap, &mut tally, column, self.layout, expected.as_slice())?;
        let mut index = FrozenIndex::empty();
        tally.note(index.open(column, self.layout, slots.as_slice()).is_ok());
        self.descend(&mut tally, &index);
        self.read(&mut tally, &Reader::new(heap, self.rows, self.layout)?);
        Ok(tally)
    }
}

fn all_of(heap: Global, directories: &[Worked<'_>]) -> Result<Tally, AllocError> {
    let mut tally = Tally::new();
    for worked in directories {
        tally += worked.tried(heap)?;
    }
    Ok(tally)
}

// Few rows: equal ones over the chunks, the smallest and the largest numbers, and none.
fn few_rows(heap: Global) -> Result<Tally, AllocError> {
    let equal = Worked {
        rows: &[10, 20, 20, 30, 40, 50, 50, 50, 60],
        layout: Layout::Full { slots: 2 },
        slots: &[50, 50, 20, 30],
        ceiling: 6,
        descents: &[
            Descent::new(Side::At, 20, 1, 6),
            Descent::new(Side::At, 50, 5, 5),
            Descent::new(Side::After, 50, 8, 2),
            Descent::new(Side::At, 61, 9, 2),
        ],
    };
    let ends = Worked {
        rows: &[0, 0, u32::MAX, u32::MAX],
        layout: Layout::Level { slots: 2 },
        slots: &[0, u32::MAX],
        ceiling: 3,
        descents: &[
            Descent::new(Side::At, 0, 0, 3),
            Descent::new(Side::After, 0, 2, 3),
            Descent::new(Side::At, 1, 2, 3),
            Descent::new(Side::At, u32::MAX, 2, 3),
            Descent::new(Side::After, u32::MAX, 4, 2),
        ],
    };
    let none = Worked {
        rows: &[],
        layout: Layout::Full { slots: 2 },
        slots: &[],
        ceiling: 2,
        descents: &[
            Descent::new(Side::At, 0, 0, 0),
            Descent::new(Side::After, 5, 0, 0),
        ],
    };
    all_of(heap, &[equal, ends, none])
}

// The rows 1 to 40: with nodes that are no leaf, and with leaves on two levels.
fn forty_rows(heap: Global) -> Result<Tally, AllocError> {
    let rows: [u32; 40] = array::from_fn(|place| place as u32 + 1);
    let full = Worked {
        rows: &rows,
        layout: Layout::Full { slots: 3 },
        slots: &[12, 24, 36, 3, 6, 9, 15, 18, 21, 27, 30, 33, 39, 40, 40],
        ceiling: 6,
        descents: &[
            Descent::new(Side::At, 41, 40, 4),
            Descent::new(Side::After, 40, 40, 4),
        ],
    };
    let level = Worked {
        rows: &rows,
        layout: Layout::Level { slots: 4 },
        slots: &[16, 32, 36, 40, 4, 8, 12, 16, 20, 24, 28, 32],
        ceiling: 7,
        descents: &[Descent::new(Side::At, 17, 16, 7)],
    };
    all_of(heap, &[full, level])
}

// Slots are counted without a column too: sixteen nodes over 65 chunks of four rows; and the most rows there may be.
fn counts() -> Tally {
    let mut tally = Tally::new();
    for rows in 257..=260 {
        tally.note(slot_count(Layout::Full { slots: 4 }, rows) == Ok(64));
    }
    tally.note(slot_count(Layout::Full { slots: 16 }, 1_048_576) == Ok(65_536));
    tally.note(slot_count(Layout::Level { slots: 16 }, 1_048_576) == Ok(69_904));
    tally
}

pub fn tried(heap: Global) -> Result<Tally, AllocError> {
    let mut tally = few_rows(heap)?;
    tally += forty_rows(heap)?;
    tally += counts();
    Ok(tally)
}
