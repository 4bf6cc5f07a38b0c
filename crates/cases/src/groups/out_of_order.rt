// Columns out of order, which are declined whole, and sheets without calls, which print nothing.
use crate::question::{Ask, Kind, PlainKey, Question};
use crate::trial::Trial;
use std::array;

// A column without calls; where it is declined, with calls too.
fn column(trial: &mut Trial, kind: Kind, rows: &[PlainKey], expected: &str) {
    let silent = Question {
        kind,
        rows,
        asks: &[],
    };
    trial.by_hand(&silent, expected);
    if !expected.is_empty() {
        let asking = Question {
            asks: &[Ask::Strike(0), Ask::Strike(99), Ask::Restore(1)],
            ..silent
        };
        trial.by_hand(&asking, expected);
    }
}

// A column of three accounts.
fn accounts(trial: &mut Trial, numbers: [u32; 3], expected: &str) {
    let rows = numbers.map(PlainKey::Account);
    column(trial, Kind::Accounts, &rows, expected);
}

// A column of three labels of one byte.
fn labels(trial: &mut Trial, bytes: [u8; 3], expected: &str) {
    let rows = bytes.map(|byte| PlainKey::Label([byte; 16]));
    column(trial, Kind::Labels, &rows, expected);
}

// 30 rows in order but for one, at each place from the third on.
fn one_row(trial: &mut Trial) {
    for place in 2..30u32 {
        let rows: [PlainKey; 30] = array::from_fn(|row| {
            let number = row as u32;
            PlainKey::Account(if number == place { place - 2 } else { number })
        });
        column(trial, Kind::Accounts, &rows, "K 3\n");
    }
}

pub fn tried(trial: &mut Trial) {
    for numbers in [[1, 0, 2], [0, 2, 1], [3, 2, 1], [0, u32::MAX, 0]] {
        accounts(trial, numbers, "K 3\n");
    }
    for numbers in [[0, 0, 0], [1, 2, 3], [0, u32::MAX, u32::MAX]] {
        accounts(trial, numbers, "");
    }
    for bytes in [*b"bAc", *b"Bba", *b"{z{", *b"a`Z"] {
        labels(trial, bytes, "T 3\n");
    }
    for bytes in [*b"aAb", *b"Zz[", *b"@a`", *b"aaA"] {
        labels(trial, bytes, "");
    }
    one_row(trial);
}
