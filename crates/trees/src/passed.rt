// Numbers in order, looked at one by one.
use indexes::Side;

// A number that is sought, and the side of the rows of this number that is meant.
#[derive(Clone, Copy, PartialEq, Eq, Debug)]
pub struct Target {
    pub number: u32,
    pub side: Side,
}

impl Target {
    // Is a row with this number passed? `trials` does not know the library's `Side`, and one of its own would want a
    // `match` here too.
    pub fn passes(self, row: u32) -> bool {
        match self.side {
            Side::At => row < self.number,
            Side::After => row <= self.number,
        }
    }

    // How many of all rows are passed.
    pub fn place_in(self, rows: &[u32]) -> usize {
        rows.iter().filter(|row| self.passes(**row)).count()
    }
}
