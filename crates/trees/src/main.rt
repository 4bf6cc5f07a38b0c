// Tries directories against a reader of every row, and prints a table: what was tried, how often, how often it differed.
//
// The reader looks at plain numbers one by one and shares no code with the library: `passed` counts places over all
// rows, `numbers` counts out the shape of a directory, `tree` lays out its leaves and slots, `reader` descends through
// them. `kind` makes a key of a number, for each kind of key that is tried; `source` draws numbers, keys and layouts.
// `column` and `case` have what is expected, `declined` the reasons, `opening` an index that is open already; `findings`
// and `report` what was found. `builds`, `openings`, `lookups` and `respelled` hold the library to it;
// `worked` holds it to numbers worked by hand, and `longest` to the limit of rows.
// A case that differs changes the table, and with it what the program is expected to print.

#![tactic(auto)]

mod builds;
mod case;
mod column;
mod declined;
mod findings;
mod kind;
mod longest;
mod lookups;
mod numbers;
mod opening;
mod openings;
mod passed;
mod reader;
mod report;
mod respelled;
mod source;
mod tree;
mod worked;

use findings::Findings;
use keys::{Account, Amount, Label, Pair};
use kind::Made;
use report::Report;
use source::Source;

// Tries a kind of key, and prints what was found.
fn tried<K: Made>(
    report: &mut Report<'_>,
    source: &mut Source,
    name: &str,
) -> anyhow::Result<Findings> {
    report.heading(name)?;
    let found = Findings::of::<K>(source)?;
    found.print(report)?;
    Ok(found)
}

fn run(rt: &HostRuntime) -> anyhow::Result<()> {
    let heap = rt.alloc();
    let mut report = Report::new(rt);
    let mut source = Source::seeded(heap, 0x9e37_79b9_7f4a_7c15);

    report.heading("directories worked by hand, and columns of 1,048,577 rows")?;
    report.group(
        "slots, places and comparisons by hand",
        worked::tried(heap)?,
    )?;
    report.group("too many rows", longest::tried(heap)?)?;

    tried::<Account>(&mut report, &mut source, "accounts")?;
    tried::<Pair<Account, Amount>>(
        &mut report,
        &mut source,
        "pairs of an account and an amount",
    )?;
    let labels = tried::<Label>(&mut report, &mut source, "labels")?;
    report.heading("labels, with slots in other letters than the rows")?;
    labels.print_respelled(&mut report)?;

    report.total()?;
    Ok(())
}

fn main(rt: HostRuntime) -> anyhow::Result<()> {
    run(&rt)
}
