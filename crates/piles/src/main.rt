// Tries columns and strike lists directly, over keys that no sheet has, against a reader of every row.
//
// `ranked` gives each kind of key a number of the same order, `seen` is the reader, `pile` builds columns and strike
// lists above one another, and `opening` opens columns that are accepted or declined.
// Expected values come from the rules, over every row; a case that differs changes what is printed.

#![tactic(auto)]

mod opening;
mod pile;
mod ranked;
mod seen;

use keys::{Account, Amount, Pair, Reversed};
use pile::piled;
use std::alloc::{AllocError, Global};
use trials::{Table, Tally, Widths};

fn amounts(heap: Global) -> Result<Tally, AllocError> {
    let column = [i64::MIN, -500, -500, -1, 0, 0, 7, i64::MAX].map(Amount::from);
    let between = [-501, -2, 1, i64::MAX - 1].map(Amount::from);
    piled(heap, &column, &between, &[2, 4, 7], &[0, 3])
}

// A key of two conversions, for the columns below: no `From` of one type makes it.
fn pair((number, cents): (u32, i64)) -> Pair<Account, Amount> {
    Pair {
        first: Account::from(number),
        second: Amount::from(cents),
    }
}

fn pairs(heap: Global) -> Result<Tally, AllocError> {
    let column = [
        (1, -5),
        (1, 3),
        (2, -9),
        (2, -9),
        (2, 0),
        (7, -1),
        (u32::MAX, i64::MIN),
    ]
    .map(pair);
    let between = [(0, 9), (1, 4), (2, -10), (3, 0), (u32::MAX, 0)].map(pair);
    piled(heap, &column, &between, &[3, 0, 6], &[2, 1, 0])
}

// A key of one conversion and a reversal: no `From` of one type makes it.
fn reversed(number: u32) -> Reversed<Account> {
    Reversed {
        key: Account::from(number),
    }
}

fn falling(heap: Global) -> Result<Tally, AllocError> {
    let column = [u32::MAX, 50, 50, 50, 40, 20, 0].map(reversed);
    let between = [51, 45, 19, 1].map(reversed);
    piled(heap, &column, &between, &[1, 2, 3], &[3])
}

fn run(rt: &HostRuntime) -> anyhow::Result<()> {
    let heap = rt.alloc();
    // each program's own, as wide as the names and counts that it prints want
    let mut table = Table::new(Widths { name: 52, tried: 6 });
    rt.println(table.line("strike lists over amounts", amounts(heap)?))?;
    rt.println(table.line("strike lists over pairs", pairs(heap)?))?;
    rt.println(table.line("strike lists over reversed accounts", falling(heap)?))?;
    let opened = opening::tried(heap)?;
    rt.println(table.line("columns opened, declined and opened again", opened))?;
    rt.println(table.sum)?;
    Ok(())
}

fn main(rt: HostRuntime) -> anyhow::Result<()> {
    run(&rt)
}
