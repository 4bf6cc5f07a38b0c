// Keys and calls that are drawn, the same in every run.
use crate::question::{Ask, Kind, PlainKey, after, at};
use std::alloc::{AllocError, Global};
use trials::Random;

// What labels are made of: letters in both cases, and bytes beside them.
const ALPHABET: [u8; 16] = *b"aAaAbBzZzZ@[`{ ~";

// How far the account numbers of a column are spread; the next above, too, are sought.
const SPREADS: [u32; 4] = [2, 12, 250, u32::MAX];

#[derive(Drop)]
pub struct Draws {
    pub random: Random,
    pub kind: Kind,
}

impl Draws {
    pub fn spread(&mut self) -> u32 {
        self.random.one_of(&SPREADS)
    }

    // A label whose first and last bytes are drawn; the others are the same in all.
    fn label(&mut self) -> PlainKey {
        let mut bytes = *b"?Label of a row?";
        bytes[0] = self.random.one_of(&ALPHABET);
        bytes[15] = self.random.one_of(&ALPHABET);
        PlainKey::Label(bytes)
    }

    // A key; an account number is below `spread`.
    fn key(&mut self, spread: u32) -> PlainKey {
        match self.kind {
            Kind::Accounts => PlainKey::Account(self.random.below(spread)),
            Kind::Labels => self.label(),
        }
    }

    // A call on a column of at most 200 rows; some row numbers are past its end.
    fn ask(&mut self, spread: u32) -> Ask {
        match self.random.below(6) {
            0 | 1 => Ask::Strike(self.random.below(210)),
            2 => Ask::Restore(self.random.below(210)),
            3 => at(self.key(spread)),
            _ => after(self.key(spread)),
        }
    }

    // At most 200 keys.
    pub fn keys(&mut self, heap: Global, spread: u32) -> Result<Vec<PlainKey>, AllocError> {
        let count = self.random.below(201);
        (0..count).map(|_| self.key(spread)).collect(heap)
    }

    // At most `most` calls.
    pub fn asks(&mut self, heap: Global, spread: u32, most: u32) -> Result<Vec<Ask>, AllocError> {
        let count = self.random.below(most.saturating_add(1));
        (0..count).map(|_| self.ask(spread)).collect(heap)
    }
}
