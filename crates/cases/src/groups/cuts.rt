// Good sheets cut at every length: malformed, but where the cut leaves whole fields and the column among them.
use crate::question::{Ask, Kind, PlainKey, Question, after, at};
use crate::trial::{MALFORMED, Trial};
use crate::written::sheet_of;
use std::alloc::AllocError;
use trials::part;

// Cuts a sheet between its calls and within each.
fn every_cut(trial: &mut Trial, whole: &Question<'_>) -> Result<(), AllocError> {
    let sheet = sheet_of(trial.heap, whole)?;
    // the first cut that is not tried yet: those before lie within the sheet with a call less, or leave it whole
    let mut from = 0usize;
    for count in 0..=whole.asks.len() {
        let short = Question {
            asks: part(whole.asks, 0, count),
            ..*whole
        };
        let end = sheet_of(trial.heap, &short)?.len();
        for cut in from..end {
            trial.sheet(part(sheet.as_slice(), 0, cut), MALFORMED);
        }
        trial.question(&short);
        from = end.saturating_add(1);
    }
    Ok(())
}

// A sheet with calls of every kind.
fn cut(trial: &mut Trial, kind: Kind, rows: &[PlainKey], key: PlainKey) {
    let asks = [
        Ask::Strike(1),
        at(key),
        Ask::Strike(1),
        after(key),
        Ask::Restore(1),
        Ask::Restore(9),
    ];
    let whole = Question {
        kind,
        rows,
        asks: &asks,
    };
    let done = every_cut(trial, &whole);
    trial.settle(done);
}

pub fn tried(trial: &mut Trial) {
    let [small, large] = [PlainKey::Account(10), PlainKey::Account(20)];
    cut(trial, Kind::Accounts, &[small, large, large], large);
    cut(trial, Kind::Accounts, &[large, small], large);
    cut(trial, Kind::Accounts, &[], small);
    let [apple, pear] = [
        PlainKey::Label(*b"apple           "),
        PlainKey::Label(*b"PEAR            "),
    ];
    cut(trial, Kind::Labels, &[apple, pear, pear], pear);
}
