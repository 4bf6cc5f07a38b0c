// A sheet that was read.
ghost use Rattle.std.specs.Prelude.{◌≡◌, Some, is_some};
ghost use Rattle.std.specs.Option.{option_map};
ghost use Rattle.sheets.specs.Fields.{told};
ghost use Rattle.sheets.specs.Grammar.{when, column_of, state, left, sheet};
ghost use Rattle.sheets.specs.Said.{layout_of};
ghost use Rattle.sheets.specs.Viewed.{col, viewed};
ghost use Rattle.sheets.specs.Written.{WrittenAs};

use crate::field::{Field, Part};
use crate::reader::Reader;
use indexes::Layout;

// The bytes that a sheet may have.
pub const MOST: usize = 65536;

// A column of account numbers of 4 bytes, or of labels of 16.
#[derive(Clone, Copy, PartialEq, Eq, Debug)]
pub enum Column<'a> {
    Accounts(Part<'a>),
    Labels(Part<'a>),
}

// The directory's value is its letter and its node size; the reader stands at the first call.
#[derive(Clone, Copy, PartialEq, Eq, Debug)]
pub struct Sheet<'a> {
    pub directory: Part<'a>,
    pub column: Column<'a>,
    pub calls: Reader<'a>,
}

impl<'a> Column<'a> {
    // The column that a field is, if it is one. An Option says as much as a TryFrom: there is one way to fail.
    fn of(field: Field<'a>) -> Option<Column<'a>>
        ensures { option_map col result ≡ column_of (told field.entry) }
    {
        match field {
            Field::Accounts(part) => Some(Column::Accounts(part)),
            Field::Labels(part) => Some(Column::Labels(part)),
            _ => None,
        }
    }
}

impl<'a> Sheet<'a> {
    // What is to be built over the column.
    pub fn layout(&self) -> Layout
        ensures { result ≡ layout_of self.now.directory.bytes.now }
    {
        match self.directory.bytes {
            [b'F', m, ..] => Layout::Full { slots: *m },
            [b'L', m, ..] => Layout::Level { slots: *m },
            _ => Layout::Bare,
        }
    }

    // The sheet that the bytes are, unless they are malformed.
    pub fn read(bytes: &'a [u8]) -> Option<Sheet<'a>>
        ensures said { option_map viewed result ≡ option_map Some (sheet bytes.now) }
        ensures written { WrittenAs bytes.now result }
    {
        if bytes.len() > MOST {
            return None;
        }
        let mut reader = Reader::new(bytes);
        let Field::Directory(directory) = reader.next()? else {
            return None;
        };
        let column = Column::of(reader.next()?)?;
        Sheet::checked(directory, column, reader)
    }

    // A sheet of these, if what is left is fields to the end: apart from `read`, so that the test has a clause of its own.
    fn checked(directory: Part<'a>, column: Column<'a>, reader: Reader<'a>) -> Option<Sheet<'a>>
        ensures { result ≡ when (is_some (left (state reader.entry))) (record { directory = directory.entry; column = column.entry; calls = reader.entry }) }
    {
        if !reader.is_well_formed() {
            return None;
        }
        Some(Sheet {
            directory,
            column,
            calls: reader,
        })
    }
}
