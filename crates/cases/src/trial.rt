// A trial of the library: the memory that it takes, and what was found.
use crate::question::Question;
use crate::reader::text_of;
use crate::written::sheet_of;
use answers::answer;
use std::alloc::{AllocError, Global};
use trials::Tally;

// What is printed for bytes that are no sheet.
pub const MALFORMED: &str = "X 12\n";

// Want of memory counts as a difference.
#[derive(Clone, Copy)]
pub struct Trial {
    pub heap: Global,
    pub tally: Tally,
}

impl Trial {
    pub fn new(heap: Global) -> Trial {
        Trial {
            heap,
            tally: Tally::new(),
        }
    }

    // One sheet by its bytes, held against the text that is expected.
    pub fn sheet(&mut self, bytes: &[u8], expected: &str) {
        let found = answer(self.heap, bytes);
        self.tally
            .note(found.is_ok_and(|text| text.as_str() == expected));
    }

    // One question, held against the reader of every row.
    pub fn question(&mut self, question: &Question<'_>) {
        let expected = text_of(self.heap, question);
        let done = expected.map(|text| self.by_hand(question, text.as_str()));
        self.settle(done);
    }

    // One question, held against a text that was worked by hand.
    pub fn by_hand(&mut self, question: &Question<'_>, expected: &str) {
        let written = sheet_of(self.heap, question);
        let done = written.map(|sheet| self.sheet(sheet.as_slice(), expected));
        self.settle(done);
    }

    // Counts want of memory, if there was any.
    pub fn settle(&mut self, done: Result<(), AllocError>) {
        if done.is_err() {
            self.tally.note(false);
        }
    }
}
