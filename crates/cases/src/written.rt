// The bytes of a sheet: fields of a one-byte tag, a two-byte length and a value, numbers with the high byte first.
// Fields are added to the sheet's one list; only a column and a sought key are put together first, since a field's length
// stands before its value.
use crate::question::{Ask, PlainKey, PlainSide, Question};
use std::alloc::{AllocError, Global};

// The field of a bare column's directory.
const BARE: [u8; 5] = *b"D\x00\x02P\x00";

// Adds a field; its value has at most 65,535 bytes.
fn add_field(sheet: &mut Vec<u8>, tag: u8, value: &[u8]) -> Result<(), AllocError> {
    let [.., hi, lo] = value.len().to_be_bytes();
    sheet.extend_from_slice(&[tag, hi, lo])?;
    sheet.extend_from_slice(value)
}

fn add_key(bytes: &mut Vec<u8>, key: &PlainKey) -> Result<(), AllocError> {
    match key {
        PlainKey::Account(number) => bytes.extend_from_slice(&number.to_be_bytes()),
        PlainKey::Label(label) => bytes.extend_from_slice(label),
    }
}

impl PlainSide {
    // By `match`, as in the table of the rules.
    fn letter(self) -> u8 {
        match self {
            PlainSide::At => b'a',
            PlainSide::After => b'n',
        }
    }
}

// Adds the field of a call.
fn add_ask(heap: Global, sheet: &mut Vec<u8>, ask: &Ask) -> Result<(), AllocError> {
    match *ask {
        Ask::Strike(row) => add_field(sheet, b'S', &row.to_be_bytes()),
        Ask::Restore(row) => add_field(sheet, b'R', &row.to_be_bytes()),
        Ask::Place(side, key) => {
            let mut value = vec![in heap; side.letter()]?;
            add_key(&mut value, &key)?;
            add_field(sheet, b'Q', value.as_slice())
        }
    }
}

// The sheet that asks a question.
pub fn sheet_of(heap: Global, question: &Question<'_>) -> Result<Vec<u8>, AllocError> {
    let mut sheet = Vec::from_slice(heap, &BARE)?;
    let mut column = Vec::new(heap);
    for row in question.rows {
        add_key(&mut column, row)?;
    }
    add_field(&mut sheet, question.kind.tag(), column.as_slice())?;
    for ask in question.asks {
        add_ask(heap, &mut sheet, ask)?;
    }
    Ok(sheet)
}
