// The kinds of key that a sheet can hold, and the keys that bytes spell.
ghost use Rattle.std.specs.Prelude.{◌≡◌, ℕ, ◌<◌, List, IfOk};
ghost use Rattle.sheets.specs.Said.{account_spelled, label_spelled, key_of, keys_of};

use crate::field::Part;
use crate::value::number;
use keys::{Account, Key, Label};
use std::alloc::{AllocError, Global};

pub trait SheetKey: Key {
    // how many bytes a key has
    ghost width: { ℕ };

    // the key that so many bytes spell
    ghost spelled: { List ℕ → Self };

    fn width() -> usize
        ensures value { result ≡ width }
        ensures some { 0 < result };

    // The key that the bytes spell, if there are just enough.
    fn read(bytes: &[u8]) -> Option<Self>
        ensures { result ≡ key_of width spelled bytes.now };
}

// Four bytes, big-endian.
impl SheetKey for Account {
    ghost width = { 4 };

    ghost spelled = { account_spelled };

    fn width() -> usize {
        4
    }

    fn read(bytes: &[u8]) -> Option<Account> {
        number(bytes).map(Account::from)
    }
}

// Sixteen bytes, as they are.
impl SheetKey for Label {
    ghost width = { 16 };

    ghost spelled = { label_spelled };

    fn width() -> usize {
        16
    }

    fn read(bytes: &[u8]) -> Option<Label> {
        <[u8; 16]>::try_from(bytes).ok().map(Label::from)
    }
}

impl<'a> Part<'a> {
    // The keys that stand one after the other in these bytes.
    pub fn keys<K: SheetKey>(&self, heap: Global) -> Result<Vec<K>, AllocError>
        ensures { IfOk result (λ v. v.items ≡ keys_of K.SheetKey.width K.SheetKey.spelled self.now.bytes.now) }
    {
        self.bytes
            .chunks_exact(K::width())
            .filter_map(|bytes| K::read(bytes))
            .collect(heap)
    }
}
