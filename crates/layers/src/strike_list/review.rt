// What a reviewer does with a strike list: rows of the index below are put out of sight and back.
ghost use Rattle.std.specs.Prelude.{◌≡◌, []};
ghost use Rattle.layers.specs.Table.{listed, number_answer, with_number, without_number};
ghost use Rattle.layers.specs.Views.{out_of, rows_below, strike_on, restore_on, Kept};

use super::StrikeList;
use crate::table::{StruckRow, StruckRows};
use indexes::{Decline, Index};
use keys::Key;
use std::marker::PhantomData;

impl<K: Key, I: Index<K>> StrikeList<K, I> {
    // Nothing is struck.
    pub fn new(below: I) -> StrikeList<K, I>
        requires { I.Index.opened below }
        ensures below { result.below ≡ below }
        ensures none { out_of result ≡ [] }
        ensures opened { Kept I.Index.opened I.Index.means result }
    {
        StrikeList {
            below,
            struck: StruckRows::new(),
            kind: PhantomData,
        }
    }

    // The index below.
    pub fn below(&self) -> &I
        ensures is { result.now ≡ self.now.below }
        ensures opened { Kept I.Index.opened I.Index.means self.now → I.Index.opened result.now }
    {
        &self.below
    }

    // The rows struck now, by their numbers in the index below, ascending.
    pub fn struck(&self) -> &[StruckRow]
        ensures { listed result.now ≡ out_of self.now }
    {
        self.struck.as_slice()
    }

    // Does the index below have a row of this number?
    fn below_has(&self, row: u32) -> Result<(), Decline>
        requires { Kept I.Index.opened I.Index.means self.now }
        ensures { result ≡ number_answer (rows_below I.Index.means self.now) row }
    {
        if (row as usize) < self.below.len() {
            Ok(())
        } else {
            Err(Decline::NoSuchRow)
        }
    }

    // Puts a row of the index below out of sight.
    pub fn strike(&mut self, row: u32) -> Result<(), Decline>
        requires { Kept I.Index.opened I.Index.means self.old }
        ensures answers { result ≡ strike_on I.Index.means self.old row }
        ensures holds { out_of self.new ≡ with_number result (out_of self.old) row }
        ensures below { self.new.below ≡ self.old.below }
        ensures opened { Kept I.Index.opened I.Index.means self.new }
    {
        self.below_has(row)?;
        self.struck.insert(row)
    }

    // Puts a struck row back in sight.
    pub fn restore(&mut self, row: u32) -> Result<(), Decline>
        requires { Kept I.Index.opened I.Index.means self.old }
        ensures answers { result ≡ restore_on I.Index.means self.old row }
        ensures holds { out_of self.new ≡ without_number result (out_of self.old) row }
        ensures below { self.new.below ≡ self.old.below }
        ensures opened { Kept I.Index.opened I.Index.means self.new }
    {
        self.below_has(row)?;
        self.struck.remove(row)
    }
}
