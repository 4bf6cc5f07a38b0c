// A column to try: its numbers, its keys, and the numbers to look up, each with its places.
use crate::kind::Made;
use crate::passed::Target;
use crate::source::Source;
use indexes::Side;
use keys::Key;
use std::alloc::AllocError;

// A number to look up, with the places that counting over all rows gives.
#[derive(Clone, Copy, PartialEq, Eq, Debug)]
pub struct Lookup {
    pub number: u32,
    at: usize,
    after: usize,
}

impl Lookup {
    fn over(rows: &[u32], number: u32) -> Lookup {
        let place = |side| Target { number, side }.place_in(rows);
        Lookup {
            number,
            at: place(Side::At),
            after: place(Side::After),
        }
    }

    pub fn target(&self, side: Side) -> Target {
        Target {
            number: self.number,
            side,
        }
    }

    pub fn place(&self, side: Side) -> usize {
        match side {
            Side::At => self.at,
            Side::After => self.after,
        }
    }
}

#[derive(Drop)]
pub struct Column<K> {
    // two lists and not one of pairs, since the library takes the keys as one slice, and the reader the numbers
    pub numbers: Vec<u32>,
    pub keys: Vec<K>,
    // the keys with two of them exchanged, out of order; none where all are equivalent
    pub fallen: Option<Vec<K>>,
    pub lookups: Vec<Lookup>,
}

// Each number up to the last and the next two, where these are few; otherwise some of them, and both ends.
fn sought_in(source: &mut Source, numbers: &[u32]) -> Result<Vec<u32>, AllocError> {
    let heap = source.heap;
    let end = numbers.last().copied().unwrap_or(0).saturating_add(3);
    if end <= 600 {
        return (0..end).collect(heap);
    }
    let ends = [0, 1, end.saturating_sub(3), end.saturating_sub(2)];
    ends.into_iter()
        .chain((0..600).map(|_| source.below(end)))
        .collect(heap)
}

// Two rows that are drawn, the first of them less than the second, where there are such.
fn falling_pair(source: &mut Source, numbers: &[u32]) -> Option<(usize, usize)> {
    let count = numbers.len();
    (0..1000)
        .map_while(|_| Some((source.place(count)?, source.place(count)?)))
        .find(|(first, second)| first < second && numbers.get(*first) < numbers.get(*second))
}

fn fallen_of<K: Key>(
    source: &mut Source,
    numbers: &[u32],
    keys: &[K],
) -> Result<Option<Vec<K>>, AllocError> {
    let Some((first, second)) = falling_pair(source, numbers) else {
        return Ok(None);
    };
    let mut fallen = Vec::from_slice(source.heap, keys)?;
    if first < fallen.len() && second < fallen.len() {
        fallen.swap(first, second);
    }
    Ok(Some(fallen))
}

impl<K: Made> Column<K> {
    // So many rows, each a step above its predecessor that is drawn below `steps`.
    pub fn drawn(source: &mut Source, rows: u32, steps: u32) -> Result<Column<K>, AllocError> {
        let numbers = source.rising(rows as usize, steps)?;
        let keys = source.keys(numbers.as_slice())?;
        let fallen = fallen_of(source, numbers.as_slice(), keys.as_slice())?;
        let lookups = sought_in(source, numbers.as_slice())?
            .iter()
            .map(|number| Lookup::over(numbers.as_slice(), *number))
            .collect(source.heap)?;
        Ok(Column {
            numbers,
            keys,
            fallen,
            lookups,
        })
    }

    // The number of a row; 0 past the last.
    pub fn number(&self, row: usize) -> u32 {
        self.numbers.get(row).copied().unwrap_or(0)
    }
}
