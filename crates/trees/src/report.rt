// The table: a heading for each kind of key, a line for each thing that was tried, and the sum of them all.
use std::io;
use trials::{Table, Tally, Widths};

#[derive(Drop)]
pub struct Report<'a> {
    rt: &'a HostRuntime,
    table: Table,
}

impl<'a> Report<'a> {
    pub fn new(rt: &'a HostRuntime) -> Report<'a> {
        Report {
            rt,
            table: Table::new(Widths { name: 44, tried: 8 }),
        }
    }

    pub fn heading(&self, name: &str) -> io::Result<()> {
        self.rt.println(name)
    }

    // Prints the line of a group, and adds it to the sum.
    pub fn group(&mut self, name: &str, found: Tally) -> io::Result<()> {
        let line = self.table.line(name, found);
        println!(self.rt; "  {line}")
    }

    pub fn total(&self) -> io::Result<()> {
        self.rt.println(self.table.sum)
    }
}
