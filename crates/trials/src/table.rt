// A table of what was tried: a line for each group, and the sum of them all.
ghost use Rattle.std.specs.Prelude.{◌≡◌, Some, ◌++◌, codes};
ghost use Rattle.trials.specs.Table.{none, sum_of, to_left, to_right};

use crate::Tally;
use std::fmt;

// The columns that a table gives to names and to counts of cases.
#[derive(Clone, Copy, PartialEq, Eq, Debug)]
pub struct Widths {
    pub name: usize,
    pub tried: usize,
}

#[derive(Clone, Copy)]
pub struct Group<'a> {
    pub name: &'a str,
    pub found: Tally,
    pub widths: Widths,
}

impl<'a> fmt::Display for Group<'a> {
    ghost output = { λ g. Some (to_left g.widths.name g.name.now ++ codes " " ++ to_right g.widths.tried g.found.tried ++ codes " tried " ++ to_right 3 g.found.differ ++ codes " differ") };

    fn fmt<W: fmt::Write>(&self, f: &mut fmt::Formatter<W>) -> fmt::Result {
        let Group {
            name,
            found,
            widths,
        } = *self;
        let Tally { tried, differ } = found;
        let names = widths.name;
        let counts = widths.tried;
        write!(
            f,
            "{name:<names$} {tried:>counts$} tried {differ:>3} differ"
        )
    }
}

// What was found of all groups whose lines were given so far.
#[derive(Clone, Copy, PartialEq, Eq, Debug)]
pub struct Table {
    pub widths: Widths,
    pub sum: Tally,
}

impl Table {
    pub fn new(widths: Widths) -> Table
        ensures { result ≡ record { widths = widths; sum = none } }
    {
        Table {
            widths,
            sum: Tally::new(),
        }
    }

    // Adds what was found of a group, and gives its line.
    pub fn line<'a>(&mut self, name: &'a str, found: Tally) -> Group<'a>
        ensures sum { self.new ≡ record self.old { sum = sum_of self.old.sum found } }
        ensures line { result ≡ record { name = name.entry; found = found; widths = self.old.widths } }
    {
        self.sum += found;
        Group {
            name,
            found,
            widths: self.widths,
        }
    }
}
