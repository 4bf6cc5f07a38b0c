// Every key from below the first row to above the last, on both sides, over columns of few and of many equal rows.
use crate::question::{Ask, Kind, PlainKey, Question, after, at};
use crate::trial::Trial;
use std::array;
use trials::part;

// Both sides of each number below 70, and the largest. No memory is taken, so that no want of it hides the questions.
fn sought() -> [Ask; 141] {
    array::from_fn(|place| {
        let key = PlainKey::Account(place as u32 / 2);
        match place {
            140 => after(PlainKey::Account(u32::MAX)),
            _ if place % 2 == 0 => at(key),
            _ => after(key),
        }
    })
}

// A column in which each number from 1 on stands `run` times. By arithmetic, which is no longer than runs that are flattened,
// and takes no memory.
fn in_runs(run: usize) -> [PlainKey; 66] {
    array::from_fn(|row| {
        let number = row.checked_div(run).unwrap_or(0) + 1;
        PlainKey::Account(number as u32)
    })
}

// A column of these rows' first, for each number of them from none to all.
fn over(trial: &mut Trial, rows: &[PlainKey], asks: &[Ask]) {
    for len in 0..=rows.len() {
        trial.question(&Question {
            kind: Kind::Accounts,
            rows: part(rows, 0, len),
            asks,
        });
    }
}

pub fn tried(trial: &mut Trial) {
    let asks = sought();
    for run in [1, 2, 3, 7, 66] {
        over(trial, &in_runs(run), &asks);
    }
    let ends = [0, 0, u32::MAX, u32::MAX].map(PlainKey::Account);
    over(trial, &ends, &asks);
}
