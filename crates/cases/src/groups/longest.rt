// Sheets of exactly 65,536 bytes, the most that a sheet may have, and of one byte more.
use crate::question::{Ask, Kind, PlainKey, Question, after};
use crate::trial::{MALFORMED, Trial};
use crate::written::sheet_of;
use std::alloc::{AllocError, Global};

// How many rows, strikes and places a sheet has, and with them how many bytes.
#[derive(Clone, Copy)]
struct Shape {
    kind: Kind,
    rows: u32,
    strikes: u32,
    places: u32,
    bytes: usize,
}

// The last decimal digit of a number.
fn digit(number: u32) -> u8 {
    b'0' + (number % 10) as u8
}

// A key that rises with its number, which is below 10,000.
fn rising(kind: Kind, number: u32) -> PlainKey {
    match kind {
        Kind::Accounts => PlainKey::Account(number),
        Kind::Labels => {
            // by hand, since a label has room for 16 bytes, and a number that is printed may have any length
            let mut bytes = *b"row number  ....";
            bytes[12] = digit(number / 1000);
            bytes[13] = digit(number / 100);
            bytes[14] = digit(number / 10);
            bytes[15] = digit(number);
            PlainKey::Label(bytes)
        }
    }
}

fn rows_of(heap: Global, shape: Shape) -> Result<Vec<PlainKey>, AllocError> {
    (0..shape.rows)
        .map(|row| rising(shape.kind, row / 3))
        .collect(heap)
}

fn asks_of(heap: Global, shape: Shape) -> Result<Vec<Ask>, AllocError> {
    let strikes = (0..shape.strikes).map(|strike| Ask::Strike(strike.saturating_mul(11)));
    let places = (0..shape.places).map(|place| after(rising(shape.kind, place.saturating_mul(30))));
    strikes.chain(places).collect(heap)
}

// A sheet of this shape: answered as the reader does, or too long.
fn shaped(trial: &mut Trial, shape: Shape) -> Result<(), AllocError> {
    let rows = rows_of(trial.heap, shape)?;
    let asks = asks_of(trial.heap, shape)?;
    let question = Question {
        kind: shape.kind,
        rows: rows.as_slice(),
        asks: asks.as_slice(),
    };
    let len = sheet_of(trial.heap, &question)?.len();
    trial.tally.note(len == shape.bytes);
    if shape.bytes > 65_536 {
        trial.by_hand(&question, MALFORMED);
    } else {
        trial.question(&question);
    }
    Ok(())
}

// The most bytes, and one more; with calls of both kinds, of one, and of none.
const SHAPES: [Shape; 6] = [
    Shape {
        kind: Kind::Accounts,
        rows: 16_000,
        strikes: 0,
        places: 191,
        bytes: 65_536,
    },
    Shape {
        kind: Kind::Accounts,
        rows: 16_382,
        strikes: 0,
        places: 0,
        bytes: 65_536,
    },
    Shape {
        kind: Kind::Labels,
        rows: 4_000,
        strikes: 4,
        places: 75,
        bytes: 65_536,
    },
    Shape {
        kind: Kind::Accounts,
        rows: 16_000,
        strikes: 7,
        places: 185,
        bytes: 65_537,
    },
    Shape {
        kind: Kind::Accounts,
        rows: 16_377,
        strikes: 3,
        places: 0,
        bytes: 65_537,
    },
    Shape {
        kind: Kind::Labels,
        rows: 4_000,
        strikes: 7,
        places: 74,
        bytes: 65_537,
    },
];

pub fn tried(trial: &mut Trial) {
    for shape in SHAPES {
        let done = shaped(trial, shape);
        trial.settle(done);
    }
}
