// Tries the library against a reader of every row, and prints a table: what was tried, how often, how often it differed.
//
// `question` has a question in plain values, `written` its bytes, `reader` the answer that the rules give, `draws`
// questions that are drawn, `trial` what was found. Expected texts are worked by hand or come from the reader, never
// from the library. A case that differs changes the table, and with it what the program is expected to print.

#![tactic(auto)]

mod draws;
mod groups;
mod question;
mod reader;
mod sorted;
mod trial;
mod written;

use groups::{
    cuts, every_byte, every_key, letter_case, longest, malformed, out_of_order, random_sheets,
    strikes,
};
use question::Kind;
use std::io;
use trial::Trial;
use trials::{Table, Widths};

// Tries a group, and prints its line. (The runtime and the table stay two: three functions of this file pass them.)
fn group<F: FnOnce(&mut Trial)>(
    rt: &HostRuntime,
    table: &mut Table,
    name: &str,
    tried: F,
) -> io::Result<()>
    requires { F.IsAlwaysCallable tried }
{
    let mut trial = Trial::new(rt.alloc());
    tried(&mut trial);
    rt.println(table.line(name, trial.tally))
}

// Sheets that are built for one rule each.
fn built(rt: &HostRuntime, table: &mut Table) -> io::Result<()> {
    group(
        rt,
        table,
        "every key over few rows and equal rows",
        every_key::tried,
    )?;
    group(
        rt,
        table,
        "labels that differ only in case",
        letter_case::tried,
    )?;
    group(rt, table, "strikes and restores", strikes::tried)?;
    group(
        rt,
        table,
        "columns out of order, sheets without calls",
        out_of_order::tried,
    )?;
    group(rt, table, "malformed sheets by hand", malformed::tried)?;
    group(
        rt,
        table,
        "every byte changed, every length",
        every_byte::tried,
    )?;
    group(rt, table, "good sheets cut at every length", cuts::tried)?;
    group(
        rt,
        table,
        "sheets of 65,536 and 65,537 bytes",
        longest::tried,
    )
}

// Sheets that are drawn.
fn drawn(rt: &HostRuntime, table: &mut Table) -> io::Result<()> {
    group(rt, table, "random sheets of accounts", |trial| {
        random_sheets::tried(trial, Kind::Accounts, 2000, 60)
    })?;
    group(rt, table, "random sheets of labels", |trial| {
        random_sheets::tried(trial, Kind::Labels, 2000, 60)
    })?;
    group(rt, table, "random sheets with many calls", |trial| {
        random_sheets::tried(trial, Kind::Accounts, 200, 600)
    })
}

fn run(rt: &HostRuntime) -> anyhow::Result<()> {
    // each program's own, as wide as the names and counts that it prints want
    let mut table = Table::new(Widths { name: 52, tried: 6 });
    built(rt, &mut table)?;
    drawn(rt, &mut table)?;
    rt.println(table.sum)?;
    Ok(())
}

fn main(rt: HostRuntime) -> anyhow::Result<()> {
    run(&rt)
}
