// What a sheet may ask, with its row number or its key.
ghost use Rattle.std.specs.Prelude.{◌≡◌, Some, IfOk};
ghost use Rattle.sheets.specs.Fields.{told};
ghost use Rattle.sheets.specs.Grammar.{Said, state, handed};
ghost use Rattle.sheets.specs.Viewed.{viewed};
ghost use Rattle.sheets.specs.Said.{request_of, requests_of, place_of};
ghost use Rattle.sheets.specs.Written.{Asks};

use crate::field::Field;
use crate::key::SheetKey;
use crate::sheet::Sheet;
use crate::value::number;
use indexes::Side;
use std::alloc::{AllocError, Global};

#[derive(Clone, Copy, PartialEq, Eq, Debug)]
pub enum Request<K> {
    // a row number of the column
    Strike(u32),
    Restore(u32),
    Place(Side, K),
}

// A side's letter, and a key.
fn place<K: SheetKey>(bytes: &[u8]) -> Option<Request<K>>
    ensures { result ≡ place_of K.SheetKey.width K.SheetKey.spelled bytes.now }
{
    match bytes {
        [b'a', key @ ..] => Some(Request::Place(Side::At, K::read(key)?)),
        [b'n', key @ ..] => Some(Request::Place(Side::After, K::read(key)?)),
        _ => None,
    }
}

impl<K: SheetKey> Request<K> {
    // What a field asks, if it is a call over keys of this kind. An Option says as much as a TryFrom: who reads calls
    // passes over what is none.
    pub fn of(field: Field<'_>) -> Option<Request<K>>
        ensures { result ≡ request_of K.SheetKey.width K.SheetKey.spelled (told field.entry) }
    {
        match field {
            Field::Strike(part) => Some(Request::Strike(number(part.bytes)?)),
            Field::Restore(part) => Some(Request::Restore(number(part.bytes)?)),
            Field::Place(part) => place(part.bytes),
            Field::Directory(_) | Field::Accounts(_) | Field::Labels(_) => None,
        }
    }
}

impl<'a> Sheet<'a> {
    // What the sheet asks, in its order; each of its calls, where they are over keys of this kind, asks one thing. A sheet
    // that a caller put together asks what its reader hands on, since its fields may not go on to the end.
    pub fn requests<K: SheetKey>(&self, heap: Global) -> Result<Vec<Request<K>>, AllocError>
        ensures asks { (s : Said) → viewed self.now ≡ Some s → Asks K.SheetKey.width K.SheetKey.spelled s.calls result }
        ensures each { IfOk result (λ v. v.items ≡ requests_of K.SheetKey.width K.SheetKey.spelled (handed (state self.now.calls))) }
    {
        self.calls
            .filter_map(|field| Request::of(field))
            .collect(heap)
    }
}
