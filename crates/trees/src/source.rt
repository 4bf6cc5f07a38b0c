// Draws what is tried: layouts, numbers that rise, and the spellings of keys.
ghost use Rattle.std.specs.Prelude.{◌<◌, IfSome};

use crate::kind::Made;
use indexes::Layout;
use std::alloc::{AllocError, Global};
use std::iter;
use trials::Random;

// The node sizes of level directories.
pub const LEVEL_SLOTS: [u8; 6] = [2, 4, 8, 16, 32, 64];

#[derive(Drop)]
pub struct Source {
    pub heap: Global,
    random: Random,
}

impl Source {
    pub fn seeded(heap: Global, seed: u64) -> Source {
        Source {
            heap,
            random: Random::seeded(seed),
        }
    }

    // A number below the bound; 0 where that is 0.
    pub fn below(&mut self, bound: u32) -> u32 {
        self.random.below(bound)
    }

    // A place among so many; none where there are none.
    pub fn place(&mut self, count: usize) -> Option<usize>
        ensures { IfSome result (λ place. place < count) }
    {
        (self.random.next() as usize).checked_rem(count)
    }

    // The key of a number, in some spelling.
    pub fn key<K: Made>(&mut self, number: u32) -> K {
        K::made(number, self.random.next())
    }

    // The keys of these numbers, each in some spelling.
    pub fn keys<K: Made>(&mut self, numbers: &[u32]) -> Result<Vec<K>, AllocError> {
        let heap = self.heap;
        numbers.iter().map(|number| self.key(*number)).collect(heap)
    }

    // A full directory with 2 to 64 slots to a node.
    pub fn full(&mut self) -> Layout {
        Layout::Full {
            slots: self.random.below(63) as u8 + 2,
        }
    }

    // A level directory, whose slots are a power of two.
    pub fn level(&mut self) -> Layout {
        Layout::Level {
            slots: self.random.one_of(&LEVEL_SLOTS),
        }
    }

    // So many numbers that do not fall, from 1 on: each is below its predecessor plus `steps`.
    pub fn rising(&mut self, rows: usize, steps: u32) -> Result<Vec<u32>, AllocError> {
        let heap = self.heap;
        iter::successors(Some(1u32), |number| {
            Some(number.saturating_add(self.random.below(steps)))
        })
        .take(rows)
        .collect(heap)
    }
}
