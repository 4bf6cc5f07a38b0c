// What was found of one kind of key, column by column and layout by layout.
use crate::case::Case;
use crate::column::Column;
use crate::kind::Made;
use crate::lookups::Found;
use crate::opening::Opening;
use crate::report::Report;
use crate::source::{LEVEL_SLOTS, Source};
use indexes::Layout;
use std::alloc::AllocError;
use std::{io, iter};
use trials::Tally;

#[derive(Clone, Copy, PartialEq, Eq, Debug, Default)]
pub struct Findings {
    slots: Tally,
    builds: Tally,
    openings: Tally,
    found: Found,
    respelled: Found,
}

impl Findings {
    // Columns of few rows under every layout, from none to 130; and longer ones.
    pub fn of<K: Made>(source: &mut Source) -> Result<Findings, AllocError> {
        let mut findings = Findings::default();
        for rows in 0..=130 {
            let column: Column<K> = Column::drawn(source, rows, rows % 4 + 1)?;
            findings.every_layout(source, &column)?;
        }
        for rows in [1000, 2047, 4096, 4097, 5000] {
            for steps in [2, 5] {
                let column: Column<K> = Column::drawn(source, rows, steps)?;
                findings.some_layouts(source, &column)?;
            }
        }
        Ok(findings)
    }

    // A column under every layout that is allowed.
    fn every_layout<K: Made>(
        &mut self,
        source: &mut Source,
        column: &Column<K>,
    ) -> Result<(), AllocError> {
        let full = (2..=64).map(|slots| Layout::Full { slots });
        let level = LEVEL_SLOTS.into_iter().map(|slots| Layout::Level { slots });
        for layout in iter::once(Layout::Bare).chain(full).chain(level) {
            self.case(source, column, layout)?;
        }
        Ok(())
    }

    // A column under the bare layout and some others that are drawn.
    fn some_layouts<K: Made>(
        &mut self,
        source: &mut Source,
        column: &Column<K>,
    ) -> Result<(), AllocError> {
        self.case(source, column, Layout::Bare)?;
        for _ in 0..3 {
            let full = source.full();
            self.case(source, column, full)?;
            let level = source.level();
            self.case(source, column, level)?;
        }
        Ok(())
    }

    fn case<K: Made>(
        &mut self,
        source: &mut Source,
        column: &Column<K>,
        layout: Layout,
    ) -> Result<(), AllocError> {
        let case = Case::new(source.heap, column, layout)?;
        self.slots += case.slots_written(source.heap)?;
        self.builds += case.builds_declined(source.heap)?;
        self.openings += case.openings_declined(source)?;
        self.found.opened(&case, case.fitting(), source)?;
        if let Some(slots) = case.respelled(source)? {
            let opening = Opening {
                slots: slots.as_slice(),
                ..case.fitting()
            };
            self.respelled.opened(&case, opening, source)?;
        }
        Ok(())
    }

    // Prints a line for each thing that was tried.
    pub fn print(&self, report: &mut Report<'_>) -> io::Result<()> {
        report.group("slots written", self.slots)?;
        report.group("builds declined", self.builds)?;
        report.group("openings declined", self.openings)?;
        self.found.print(report)
    }

    // The same for what was opened with slots in other letters.
    pub fn print_respelled(&self, report: &mut Report<'_>) -> io::Result<()> {
        self.respelled.print(report)
    }
}
