// What is asked of the table of struck rows, and how it changes.
ghost use Rattle.std.specs.Prelude.{◌≡◌, ◌+◌, ◌-◌, ◌^◌, ◌<◌, ◌≤◌, false, [], nat_le, take, IfOk};
ghost use Rattle.std.specs.List.Sorted.{IsSearchInRange};
ghost use Rattle.layers.specs.Table.{has, under, search_answer, position_answer, gap_answer, insert_answer, remove_answer, with_number, without_number};
ghost use Rattle.layers.specs.Held.{numbers};

use super::{StruckRow, StruckRows};
use indexes::Decline;

// The rows that may be struck at once: as many as the table has entries.
const MAX_STRUCK: usize = 64;

impl StruckRows {
    pub(crate) fn new() -> StruckRows
        ensures { numbers result ≡ [] }
    {
        StruckRows {
            entries: [StruckRow { number: 0 }; 64],
            len: 0,
        }
    }

    // The rows struck now.
    pub(crate) fn as_slice(&self) -> &[StruckRow]
        ensures { result.now ≡ take self.now.len self.now.entries }
    {
        &self.entries[0..self.len]
    }

    // Where the row stands among those struck, or where it would go.
    #[tactic(auto, using(crate::proofs::Entries::before_first))]
    fn search(&self, row: u32) -> Result<usize, usize>
        ensures answers { result ≡ search_answer (numbers self.now) row }
        ensures within { IsSearchInRange result self.now.len }
    {
        let struck = self.as_slice();
        match struck.first() {
            // before the first struck row a call costs the same however many are struck
            Some(first) if row < first.number => Err(0),
            _ => struck.binary_search_by_key(&row, |struck| struck.number),
        }
    }

    // Where a row that is struck stands.
    fn position(&self, row: u32) -> Result<usize, Decline>
        ensures answers { result ≡ position_answer (numbers self.now) row }
        ensures within { IfOk result (λ at. at < self.now.len) }
    {
        self.search(row).map_err(|_| Decline::AlreadySo)
    }

    // Where a row that is not struck would go.
    fn gap(&self, row: u32) -> Result<usize, Decline>
        ensures answers { result ≡ gap_answer (numbers self.now) row }
        ensures within { IfOk result (λ at. at ≤ self.now.len) }
    {
        match self.search(row) {
            Err(at) => Ok(at),
            Ok(_) => Err(Decline::AlreadySo),
        }
    }

    // How many of the numbers are below `row`.
    fn rank(&self, row: u32) -> usize
        ensures { result ≡ under (numbers self.now) row }
    {
        self.search(row).unwrap_or_else(|at| at)
    }

    // How many of the first `number` rows below are in sight.
    pub(crate) fn in_sight(&self, number: usize) -> usize
        requires few { number < 2 ^ 32 }
        requires enough { under (numbers self.now) number ≤ number }
        ensures { result ≡ number - under (numbers self.now) number }
    {
        number - self.rank(number as u32)
    }

    // Is there no free entry?
    fn is_full(&self) -> bool
        ensures { result ≡ nat_le 64 self.now.len }
    {
        self.len >= MAX_STRUCK
    }

    // The number of the row that has `place` rows in sight below it and is in sight itself.
    pub(crate) fn unstruck(&self, place: usize) -> usize
        requires { place < 2 ^ 32 }
        ensures rank { result ≡ place + under (numbers self.now) result }
        ensures free { has (numbers self.now) result ≡ false }
    {
        // entry by entry, at most 64: what is asked of one depends on its place, which `partition_point` does not tell
        let at = (0..self.len)
            .find(|at| place + *at < self.entries[*at].number as usize)
            .unwrap_or(self.len);
        place + at
    }

    pub(crate) fn insert(&mut self, row: u32) -> Result<(), Decline>
        ensures answers { result ≡ insert_answer (numbers self.old) row }
        ensures holds { numbers self.new ≡ with_number result (numbers self.old) row }
    {
        let at = self.gap(row)?;
        if self.is_full() {
            return Err(Decline::ListFull);
        }
        self.entries.copy_within(at..self.len, at + 1);
        self.entries[at] = StruckRow { number: row };
        self.len += 1;
        Ok(())
    }

    pub(crate) fn remove(&mut self, row: u32) -> Result<(), Decline>
        ensures answers { result ≡ remove_answer (numbers self.old) row }
        ensures holds { numbers self.new ≡ without_number result (numbers self.old) row }
    {
        let at = self.position(row)?;
        self.entries.copy_within(at + 1..self.len, at);
        self.len -= 1;
        Ok(())
    }
}
