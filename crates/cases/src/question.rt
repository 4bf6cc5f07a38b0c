// A question in plain values, before it is written as a sheet's bytes.
// Its types stand apart from the library's: who reads and writes them shares nothing with what is tried.

#[derive(Clone, Copy, PartialEq, Eq, Debug)]
pub enum Kind {
    Accounts,
    Labels,
}

#[derive(Clone, Copy, PartialEq, Eq, Debug)]
pub enum PlainKey {
    Account(u32),
    Label([u8; 16]),
}

#[derive(Clone, Copy, PartialEq, Eq, Debug)]
pub enum PlainSide {
    At,
    After,
}

#[derive(Clone, Copy, PartialEq, Eq, Debug)]
pub enum Ask {
    Strike(u32),
    Restore(u32),
    Place(PlainSide, PlainKey),
}

// A bare column and what is asked of it.
#[derive(Clone, Copy)]
pub struct Question<'a> {
    pub kind: Kind,
    pub rows: &'a [PlainKey],
    pub asks: &'a [Ask],
}

impl Kind {
    // The tag of its column, which is the letter of a declined one too. By `match`, as in the table of the rules.
    pub fn tag(self) -> u8 {
        match self {
            Kind::Accounts => b'K',
            Kind::Labels => b'T',
        }
    }
}

pub fn at(key: PlainKey) -> Ask {
    Ask::Place(PlainSide::At, key)
}

pub fn after(key: PlainKey) -> Ask {
    Ask::Place(PlainSide::After, key)
}
