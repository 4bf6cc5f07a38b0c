// Tries directories over the most rows that a column may have, against places found by arithmetic.
//
// Row r of the column is 7 times a third of r, rounded down: three equal rows, then a gap of seven. So the place of a key
// is known without looking at a row (`expected_place`). A full and a level directory and the bare column are built over
// these rows, opened, and asked 100,000 times each, half of these on either side. What differs from the arithmetic, or
// takes more comparisons than the ceiling, is counted. There is no memory but the column and the slots.

#![tactic(auto)]

mod column;
mod trial;

use column::rising;
use indexes::Layout;
use trial::Directory;

// The directories that are tried, with their numbers worked by hand.
const DIRECTORIES: [Directory<'static>; 3] = [
    Directory {
        name: "full 16",
        layout: Layout::Full { slots: 16 },
        slots: 65_536,
        ceiling: 25,
    },
    Directory {
        name: "level 16",
        layout: Layout::Level { slots: 16 },
        slots: 69_904,
        ceiling: 21,
    },
    Directory {
        name: "bare",
        layout: Layout::Bare,
        slots: 0,
        ceiling: 21,
    },
];

fn run(rt: &HostRuntime) -> anyhow::Result<()> {
    let heap = rt.alloc();
    let column = rising(heap)?;
    let rows = column.len();
    println!(rt; "{rows} rows")?;
    for directory in &DIRECTORIES {
        rt.println(directory.tried(heap, column.as_slice())?)?;
    }
    Ok(())
}

fn main(rt: HostRuntime) -> anyhow::Result<()> {
    run(&rt)
}
