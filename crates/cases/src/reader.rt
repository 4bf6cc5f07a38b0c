// The reader of every row: it answers a question from the rules alone, with one flag a row.
// It shares nothing with the library that it is held against.
use crate::question::{Ask, PlainKey, PlainSide, Question};
use std::alloc::{AllocError, Global};
use trials::halved;

// Why a call or a column is declined, with the number that is printed.
#[derive(Clone, Copy, PartialEq, Eq, Debug)]
enum Refused {
    OutOfOrder = 3,
    NoSuchRow = 6,
    AlreadySo = 7,
    ListFull = 8,
}

// A row, as a number that is ordered as the keys are.
#[derive(Clone, Copy)]
struct PlainRow {
    rank: u128,
    struck: bool,
}

#[derive(Drop)]
struct EveryRow {
    rows: Vec<PlainRow>,
}

// A label's bytes by what they weigh, 97 to 122 as 32 less, the first the heaviest; an account's number.
pub fn rank(key: &PlainKey) -> u128 {
    match *key {
        PlainKey::Account(number) => u128::from(number),
        PlainKey::Label(bytes) => u128::from_be_bytes(bytes.map(|byte| byte.to_ascii_uppercase())),
    }
}

impl PlainSide {
    // Is the row among those that are counted for the sought key? Other trials ask it of the library's `Side`, with which
    // this reader shares nothing.
    fn passes(self, row: u128, sought: u128) -> bool {
        match self {
            PlainSide::At => row < sought,
            PlainSide::After => row <= sought,
        }
    }
}

impl EveryRow {
    fn new(heap: Global, keys: &[PlainKey]) -> Result<EveryRow, AllocError> {
        let rows = keys
            .iter()
            .map(|key| PlainRow {
                rank: rank(key),
                struck: false,
            })
            .collect(heap)?;
        Ok(EveryRow { rows })
    }

    // Does no row come before its predecessor?
    fn is_ordered(&self) -> bool {
        self.rows.as_slice().is_sorted_by_key(|row| row.rank)
    }

    // Are 64 rows struck?
    fn is_full(&self) -> bool {
        self.rows.iter().filter(|row| row.struck).count() == 64
    }

    fn strike(&mut self, row: u32) -> Result<(), Refused> {
        let full = self.is_full();
        match self.rows.get_mut(row as usize) {
            None => Err(Refused::NoSuchRow),
            Some(found) if found.struck => Err(Refused::AlreadySo),
            Some(_) if full => Err(Refused::ListFull),
            Some(found) => {
                found.struck = true;
                Ok(())
            }
        }
    }

    fn restore(&mut self, row: u32) -> Result<(), Refused> {
        match self.rows.get_mut(row as usize) {
            None => Err(Refused::NoSuchRow),
            Some(found) if !found.struck => Err(Refused::AlreadySo),
            Some(found) => {
                found.struck = false;
                Ok(())
            }
        }
    }

    // How many rows in sight are passed.
    fn place(&self, side: PlainSide, sought: u128) -> usize {
        self.rows
            .iter()
            .filter(|row| !row.struck && side.passes(row.rank, sought))
            .count()
    }

    // The rounds of halving the whole column, struck rows too.
    fn comparisons(&self, side: PlainSide, sought: u128) -> u32 {
        halved(self.rows.as_slice(), |row| side.passes(row.rank, sought)).comparisons
    }

    // Adds the line of one call.
    fn answer(&mut self, ask: &Ask, text: &mut String) -> Result<(), AllocError> {
        let (letter, done) = match *ask {
            Ask::Strike(row) => ('S', self.strike(row)),
            Ask::Restore(row) => ('R', self.restore(row)),
            Ask::Place(side, key) => {
                let place = self.place(side, rank(&key));
                let comparisons = self.comparisons(side, rank(&key));
                return writeln!(text, "Q 0 {place} {comparisons}");
            }
        };
        let number = done.err().map_or(0, |why| why as u8);
        writeln!(text, "{letter} {number}")
    }
}

// The text that the rules give for a question.
pub fn text_of(heap: Global, question: &Question<'_>) -> Result<String, AllocError> {
    let mut every = EveryRow::new(heap, question.rows)?;
    let mut text = String::new(heap);
    if !every.is_ordered() {
        let letter = char::from(question.kind.tag());
        let number = Refused::OutOfOrder as u8;
        writeln!(text, "{letter} {number}")?;
        return Ok(text);
    }
    for ask in question.asks {
        every.answer(ask, &mut text)?;
    }
    Ok(text)
}
