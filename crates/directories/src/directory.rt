// Building a directory: its slots, written from a column.
ghost use Rattle.directories.specs.Opening.{building, kept_or, opening};
ghost use Rattle.directories.specs.Slots.{slots_under};
ghost use Rattle.std.specs.Prelude.{◌≡◌, length, Ok};

use crate::column::Column;
use indexes::{Decline, Layout};
use keys::Key;

// Writes the slots of a directory over the column; or declines and writes nothing. What it
// wrote, `open` accepts. Column, layout and slots stand apart:
// here the slots are written to, and `open` keeps them.
pub fn build<K: Key>(column: &[K], layout: Layout, slots: &mut [K]) -> Result<(), Decline>
    ensures answers { result ≡ building K.Key.before layout column.now (length slots.old) }
    ensures writes { slots.new ≡ kept_or result slots.old (slots_under layout column.now) }
    ensures opens { result ≡ Ok tt → opening K.Key.before layout column.now slots.new ≡ Ok tt }
{
    Column::over(column, layout, slots.len())?.fill(slots);
    Ok(())
}
