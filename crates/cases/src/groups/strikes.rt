// Strikes and restores, accepted and declined, and the places over the rows that are left in sight.
use crate::question::{Ask, Kind, PlainKey, Question, after, at};
use crate::trial::Trial;
use std::array;

// Each key written out, as in `FOUR`: a constant calls no `map`.
const NINE: [PlainKey; 9] = [
    PlainKey::Account(10),
    PlainKey::Account(20),
    PlainKey::Account(20),
    PlainKey::Account(30),
    PlainKey::Account(40),
    PlainKey::Account(50),
    PlainKey::Account(50),
    PlainKey::Account(50),
    PlainKey::Account(60),
];

const FOUR: [PlainKey; 4] = [
    PlainKey::Account(10),
    PlainKey::Account(20),
    PlainKey::Account(30),
    PlainKey::Account(40),
];

const LAST: PlainKey = PlainKey::Account(u32::MAX);

fn by_hand(trial: &mut Trial, rows: &[PlainKey], asks: &[Ask], expected: &str) {
    let question = Question {
        kind: Kind::Accounts,
        rows,
        asks,
    };
    trial.by_hand(&question, expected);
}

// Twice the same, and past the end.
fn declined(trial: &mut Trial) {
    let places = [
        Ask::Strike(1),
        Ask::Strike(1),
        at(PlainKey::Account(30)),
        after(PlainKey::Account(50)),
        Ask::Restore(4),
    ];
    by_hand(trial, &NINE, &places, "S 0\nS 7\nQ 0 2 3\nQ 0 7 3\nR 7\n");
    let twice = [Ask::Strike(8), Ask::Restore(8), Ask::Restore(8)];
    by_hand(trial, &NINE, &twice, "S 0\nR 0\nR 7\n");
    let past = [
        Ask::Strike(9),
        Ask::Restore(9),
        Ask::Strike(u32::MAX),
        Ask::Restore(u32::MAX),
    ];
    by_hand(trial, &NINE, &past, "S 6\nR 6\nS 6\nR 6\n");
    let none = [Ask::Strike(0), Ask::Restore(0), at(LAST), after(LAST)];
    by_hand(trial, &[], &none, "S 6\nR 6\nQ 0 0 0\nQ 0 0 0\n");
}

// Row numbers are those of the column, however many rows are struck.
fn not_renumbered(trial: &mut Trial) {
    let two = [
        Ask::Strike(1),
        Ask::Strike(2),
        at(PlainKey::Account(40)),
        after(PlainKey::Account(40)),
        Ask::Restore(1),
        at(PlainKey::Account(30)),
    ];
    by_hand(
        trial,
        &FOUR,
        &two,
        "S 0\nS 0\nQ 0 1 2\nQ 0 2 2\nR 0\nQ 0 2 2\n",
    );
    let all = [
        Ask::Strike(3),
        Ask::Strike(0),
        Ask::Strike(2),
        Ask::Strike(1),
        after(LAST),
    ];
    by_hand(trial, &FOUR, &all, "S 0\nS 0\nS 0\nS 0\nQ 0 0 2\n");
}

// The account numbers from 1 to 70.
fn seventy() -> [PlainKey; 70] {
    array::from_fn(|row| PlainKey::Account(row as u32 + 1))
}

// 64 strikes, and calls on the list that is full then. No memory is taken, so that no want of it hides the question.
fn filling() -> [Ask; 74] {
    let then = [
        Ask::Strike(64),
        Ask::Strike(0),
        Ask::Strike(70),
        at(PlainKey::Account(66)),
        Ask::Restore(63),
        Ask::Strike(64),
        Ask::Strike(65),
        Ask::Restore(63),
        Ask::Restore(70),
        after(PlainKey::Account(70)),
    ];
    array::from_fn(|call| {
        if call < 64 {
            Ask::Strike(call as u32)
        } else {
            then[call - 64]
        }
    })
}

// Each of 64 strikes is accepted; what follows is declined or accepted as on a full list.
fn full(trial: &mut Trial) {
    let expected =
        "S 0\nS 0\nS 0\nS 0\nS 0\nS 0\nS 0\nS 0\nS 0\nS 0\nS 0\nS 0\nS 0\nS 0\nS 0\nS 0\n\
                    S 0\nS 0\nS 0\nS 0\nS 0\nS 0\nS 0\nS 0\nS 0\nS 0\nS 0\nS 0\nS 0\nS 0\nS 0\nS 0\n\
                    S 0\nS 0\nS 0\nS 0\nS 0\nS 0\nS 0\nS 0\nS 0\nS 0\nS 0\nS 0\nS 0\nS 0\nS 0\nS 0\n\
                    S 0\nS 0\nS 0\nS 0\nS 0\nS 0\nS 0\nS 0\nS 0\nS 0\nS 0\nS 0\nS 0\nS 0\nS 0\nS 0\n\
                    S 8\nS 7\nS 6\nQ 0 1 6\nR 0\nS 0\nS 8\nR 7\nR 6\nQ 0 6 6\n";
    by_hand(trial, &seventy(), &filling(), expected);
}

// Call `number` of those that strike 70 of the numbers from 0 to 70 in steps of `stride`, and then restore 70 of them,
// with a place after each.
fn step(number: u32, stride: u32) -> Ask {
    let row = (number / 2).saturating_mul(stride) % 71;
    let key = PlainKey::Account(number.saturating_mul(29) % 72);
    match number % 4 {
        1 => at(key),
        3 => after(key),
        _ if number < 140 => Ask::Strike(row),
        _ => Ask::Restore(row),
    }
}

// The calls above, held against the reader.
fn in_steps(trial: &mut Trial, stride: u32) {
    let asks: [Ask; 280] = array::from_fn(|call| step(call as u32, stride));
    trial.question(&Question {
        kind: Kind::Accounts,
        rows: &seventy(),
        asks: &asks,
    });
}

pub fn tried(trial: &mut Trial) {
    declined(trial);
    not_renumbered(trial);
    full(trial);
    for stride in 1..71 {
        in_steps(trial, stride);
    }
}
