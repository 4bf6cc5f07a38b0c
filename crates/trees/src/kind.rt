// The kinds of key that are tried. A key is made of a number, so that the reader has only numbers to look at.
use keys::{Account, Amount, Key, Label, Pair};
use std::alloc::{AllocError, Global};

// `==` tells whether two keys are the same, and not only equivalent.
pub trait Made: Key + PartialEq {
    // A key that comes before those of larger numbers. The spelling chooses among equivalent keys, where there are several.
    fn made(number: u32, spelling: u32) -> Self;
}

// Keys made of these numbers. In a `Vec`, since an array of any kind of key might be larger than memory.
pub fn made_of<K: Made>(heap: Global, numbers: &[u32]) -> Result<Vec<K>, AllocError> {
    numbers
        .iter()
        .map(|number| K::made(*number, 0))
        .collect(heap)
}

impl Made for Account {
    fn made(number: u32, _spelling: u32) -> Account {
        Account::from(number)
    }
}

// Three amounts to an account, the first of them negative.
impl Made for Pair<Account, Amount> {
    fn made(number: u32, _spelling: u32) -> Pair<Account, Amount> {
        Pair {
            first: Account::from(number / 3),
            second: Amount::from(i64::from(number % 3) - 1),
        }
    }
}

// Digits by what they weigh: three of them letters, with other bytes around.
const DIGITS: [u8; 8] = [b' ', b'0', b'A', b'M', b'Z', b'[', b'_', 233];

// The letter in the other case; any other byte as it is.
fn other_case(byte: u8) -> u8 {
    if byte.is_ascii_lowercase() {
        byte.to_ascii_uppercase()
    } else {
        byte.to_ascii_lowercase()
    }
}

// Six digits of the number, within a text that is the same in all labels but for the case of its letters.
impl Made for Label {
    fn made(number: u32, spelling: u32) -> Label {
        let mut bytes = *b"row ??????of day";
        // by hand: std prints digits, not these eight signs
        let mut left = number;
        for byte in bytes[4..10].iter_mut().rev() {
            *byte = DIGITS[(left % 8) as usize];
            left /= 8;
        }
        for (place, byte) in bytes.iter_mut().enumerate() {
            if (spelling >> place) % 2 == 1 {
                *byte = other_case(*byte);
            }
        }
        Label::from(bytes)
    }
}
