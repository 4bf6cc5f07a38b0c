// What the value of a directory and of a call for a place may be, and the number that four bytes are.
ghost use Rattle.std.specs.Prelude.{◌≡◌};
ghost use Rattle.sheets.specs.Fields.{choice, sought};
ghost use Rattle.sheets.specs.Said.{four_bytes};

// F or L and a node size, or P and 0.
pub(crate) fn is_choice(value: &[u8]) -> bool
    ensures { result ≡ choice value.now }
{
    matches!(value, [b'F' | b'L', _] | [b'P', 0])
}

// a or n, and a key of `width` bytes.
pub(crate) fn is_sought(value: &[u8], width: usize) -> bool
    ensures { result ≡ sought width value.now }
{
    matches!(value, [b'a' | b'n', key @ ..] if key.len() == width)
}

// The big-endian number of four bytes.
pub(crate) fn number(bytes: &[u8]) -> Option<u32>
    ensures { result ≡ four_bytes bytes.now }
{
    Some(u32::from_be_bytes(bytes.try_into().ok()?))
}
