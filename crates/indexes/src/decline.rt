// Why a call is declined: one reason each, with its number.
ghost use Rattle.std.specs.Prelude.{◌≡◌};
ghost use Rattle.indexes.specs.Declines.{number_of};

// A declined call changes nothing. Where several reasons fit, the one with the lowest number is given,
// but for a malformed sheet, which is found before anything else.
#[derive(Clone, Copy, PartialEq, Eq, Debug)]
pub enum Decline {
    // the node size is not one allowed for that directory
    NodeSize = 1,
    // the column has more than 1,048,576 rows
    TooManyRows = 2,
    // some row of the column comes before its predecessor
    OutOfOrder = 3,
    // the slots are not exactly as many as the directory has
    SlotCount = 4,
    // a slot is not equivalent to the row that belongs there
    SlotDiffers = 5,
    // a place or a row number is not below the length it refers to
    NoSuchRow = 6,
    // the row to strike is struck already, or the row to restore is not struck
    AlreadySo = 7,
    // 64 rows are struck
    ListFull = 8,
    // the key comes before every row, or there is no row
    BeforeAllRows = 9,
    // the second bound comes before the first
    BoundsReversed = 10,
    // the table has fewer entries than the outer index has rows
    TableTooSmall = 11,
    // the bytes are not a question sheet
    MalformedSheet = 12,
}

impl Decline {
    // A call of its own, since the numbers are part of the format: a caller need not know how the enum stores them.
    pub fn number(&self) -> u8
        ensures { result ≡ number_of self.now }
    {
        *self as u8
    }
}
