// Two sheets with each of their bytes changed to every other, and values of every length below 80.
ghost use Rattle.std.specs.Prelude.{◌<◌, ◌≤◌};

use crate::question::Kind;
use crate::trial::{MALFORMED, Trial};
use trials::part;

// A bare column without rows, and a place or a strike.
const PLACE: [u8; 16] = *b"D\x00\x02P\x00K\x00\x00Q\x00\x05a\x00\x00\x00\x00";

const STRIKE: [u8; 15] = *b"D\x00\x02P\x00T\x00\x00S\x00\x04\x00\x00\x00\x00";

// What is printed for the first sheet with this byte at this place.
fn place_text(place: usize, byte: u8) -> &'static str {
    match (place, byte) {
        (0, b'D') | (2, 2) | (3, b'P') | (5, b'K') | (8, b'Q') | (10, 5) => "Q 0 0 0\n",
        (1 | 4 | 6 | 7 | 9, 0) | (11, b'a' | b'n') | (12..=15, _) => "Q 0 0 0\n",
        // the call is two account numbers then
        (7, 8) => "K 3\n",
        _ => MALFORMED,
    }
}

// What is printed for the second sheet with this byte at this place; from 15 on it is as it was.
fn strike_text(place: usize, byte: u8) -> &'static str {
    match (place, byte) {
        (0, b'D') | (2, 2) | (3, b'P') | (5, b'T' | b'K') | (8, b'S') | (10, 4) => "S 6\n",
        (1 | 4 | 6 | 7 | 9, 0) | (11.., _) => "S 6\n",
        (8, b'R') => "R 6\n",
        _ => MALFORMED,
    }
}

// A sheet with this byte at this place; past its end it is as it was.
fn changed<const LEN: usize>(
    trial: &mut Trial,
    mut sheet: [u8; LEN],
    place: usize,
    byte: u8,
    expected: &str,
) {
    if let Some(there) = sheet.get_mut(place) {
        *there = byte;
    }
    trial.sheet(&sheet, expected);
}

// The bytes of a key.
fn width(kind: Kind) -> u8
    ensures some { 0 < result }
    ensures few { result ≤ 16 }
{
    match kind {
        Kind::Accounts => 4,
        Kind::Labels => 16,
    }
}

// What is printed: the text, where the sheet is one.
fn text_if(is_sheet: bool, text: &str) -> &str {
    if is_sheet { text } else { MALFORMED }
}

// A column with so many bytes, all zero.
fn column(trial: &mut Trial, kind: Kind, len: u8) {
    // room for the longest, of which a part is the sheet: no memory is taken, and so there is no want of it
    let mut sheet = [0; 96];
    sheet[..8].copy_from_slice(&[b'D', 0, 2, b'P', 0, kind.tag(), 0, len]);
    let expected = text_if(len % width(kind) == 0, "");
    trial.sheet(part(&sheet, 0, 8 + usize::from(len)), expected);
}

// A place behind an empty column, with a value of so many bytes.
fn place(trial: &mut Trial, kind: Kind, len: u8) {
    let mut sheet = [0; 96];
    let start = [b'D', 0, 2, b'P', 0, kind.tag(), 0, 0, b'Q', 0, len, b'n'];
    sheet[..12].copy_from_slice(&start);
    let expected = text_if(len == 1 + width(kind), "Q 0 0 0\n");
    trial.sheet(part(&sheet, 0, 11 + usize::from(len)), expected);
}

pub fn tried(trial: &mut Trial) {
    for at in 0..16 {
        for byte in 0..=255u8 {
            // a full or a level directory is a sheet, but not answered yet
            if at != 3 || (byte != b'F' && byte != b'L') {
                changed(trial, PLACE, at, byte, place_text(at, byte));
                changed(trial, STRIKE, at, byte, strike_text(at, byte));
            }
        }
    }
    for len in 0..80u8 {
        for kind in [Kind::Accounts, Kind::Labels] {
            column(trial, kind, len);
            place(trial, kind, len);
        }
    }
}
