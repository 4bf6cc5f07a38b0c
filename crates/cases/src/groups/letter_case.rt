// Labels that differ only in the case of their letters, and bytes just outside the letters.
use crate::question::{Ask, Kind, PlainKey, Question, after, at};
use crate::sorted::sorted;
use crate::trial::Trial;
use std::alloc::AllocError;
use std::array;

const FRUIT: [PlainKey; 4] = [
    PlainKey::Label(*b"apple           "),
    PlainKey::Label(*b"APPLE           "),
    PlainKey::Label(*b"Banana          "),
    PlainKey::Label(*b"banana          "),
];

// 64 is before the letters; 91, 96 and 123 are behind them.
const OUTSIDE: [PlainKey; 6] = [
    PlainKey::Label(*b"@               "),
    PlainKey::Label(*b"a               "),
    PlainKey::Label(*b"Z               "),
    PlainKey::Label(*b"[               "),
    PlainKey::Label(*b"`               "),
    PlainKey::Label(*b"{               "),
];

// Both sides of a key over a column, held against a text worked by hand.
fn sides(trial: &mut Trial, rows: &[PlainKey], key: &[u8; 16], expected: &str) {
    let key = PlainKey::Label(*key);
    let question = Question {
        kind: Kind::Labels,
        rows,
        asks: &[at(key), after(key)],
    };
    trial.by_hand(&question, expected);
}

// Account numbers whose bytes are letters are by size all the same.
fn lettered_accounts(trial: &mut Trial) {
    let small = PlainKey::Account(0x4141_4141);
    let large = PlainKey::Account(0x6161_6161);
    let question = Question {
        kind: Kind::Accounts,
        rows: &[small, large],
        asks: &[at(small), after(small), at(large), after(large)],
    };
    trial.by_hand(&question, "Q 0 0 2\nQ 0 1 2\nQ 0 1 2\nQ 0 2 1\n");
}

// A label of spaces, but for the byte at one place.
fn with_byte(place: usize, byte: u8) -> PlainKey {
    PlainKey::Label(array::from_fn(|at| if at == place { byte } else { b' ' }))
}

// Every byte at one place of a label, sought among all the others, held against the reader.
fn every_byte_at(trial: &mut Trial, place: usize) -> Result<(), AllocError> {
    let keys: Vec<PlainKey> = (0..=255u8)
        .map(|byte| with_byte(place, byte))
        .collect(trial.heap)?;
    let asks: Vec<Ask> = keys
        .iter()
        .flat_map(|key| [at(*key), after(*key)])
        .collect(trial.heap)?;
    let rows = sorted(trial.heap, keys.as_slice())?;
    trial.question(&Question {
        kind: Kind::Labels,
        rows: rows.as_slice(),
        asks: asks.as_slice(),
    });
    Ok(())
}

fn worked_by_hand(trial: &mut Trial) {
    for apple in [
        b"apple           ",
        b"APPLE           ",
        b"aPpLe           ",
    ] {
        sides(trial, &FRUIT, apple, "Q 0 0 3\nQ 0 2 2\n");
    }
    sides(trial, &FRUIT, b"BANANA          ", "Q 0 2 2\nQ 0 4 2\n");
    sides(trial, &OUTSIDE, b"@               ", "Q 0 0 3\nQ 0 1 3\n");
    sides(trial, &OUTSIDE, b"A               ", "Q 0 1 3\nQ 0 2 3\n");
    sides(trial, &OUTSIDE, b"z               ", "Q 0 2 3\nQ 0 3 3\n");
    sides(trial, &OUTSIDE, b"[               ", "Q 0 3 3\nQ 0 4 3\n");
    sides(trial, &OUTSIDE, b"`               ", "Q 0 4 3\nQ 0 5 3\n");
    sides(trial, &OUTSIDE, b"{               ", "Q 0 5 3\nQ 0 6 2\n");
}

pub fn tried(trial: &mut Trial) {
    worked_by_hand(trial);
    lettered_accounts(trial);
    for place in 0..16 {
        let done = every_byte_at(trial, place);
        trial.settle(done);
    }
}
