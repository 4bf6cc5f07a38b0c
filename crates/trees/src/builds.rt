// The slots that `build` writes, and those that it leaves where it declines.
use crate::case::{Case, stranger, strangers};
use crate::declined::{NOT_ALLOWED, is_declined};
use crate::kind::Made;
use directories::build;
use indexes::{Decline, Layout};
use shapes::slot_count;
use std::alloc::{AllocError, Global};
use trials::Tally;

// A build to try: over these rows, under this layout, into so many slots.
#[derive(Clone, Copy)]
pub struct Build<'a, K> {
    pub rows: &'a [K],
    pub layout: Layout,
    pub slots: usize,
}

impl<'a, K: Made> Build<'a, K> {
    // Is it declined for this reason, with all of the slots left?
    pub fn is_declined(&self, heap: Global, why: Decline) -> Result<bool, AllocError> {
        let mut slots: Vec<K> = strangers(heap, self.slots)?;
        let answer = build(self.rows, self.layout, slots.as_mut_slice());
        Ok(is_declined(answer, why) && slots.iter().all(|slot| *slot == stranger()))
    }
}

// The slots that `build` writes over a column: are there as many as were told, and is each as expected?
pub fn built<K: Made>(
    heap: Global,
    tally: &mut Tally,
    column: &[K],
    layout: Layout,
    expected: &[K],
) -> Result<Vec<K>, AllocError> {
    tally.note(slot_count(layout, column.len()) == Ok(expected.len()));
    let mut slots: Vec<K> = strangers(heap, expected.len())?;
    tally.note(build(column, layout, slots.as_mut_slice()).is_ok());
    for (slot, expected) in slots.iter().zip(expected) {
        tally.note(slot == expected);
    }
    Ok(slots)
}

impl<'a, K: Made> Case<'a, K> {
    // Is each slot the key of its row, and are there as many as were told?
    pub fn slots_written(&self, heap: Global) -> Result<Tally, AllocError> {
        let mut tally = Tally::new();
        let keys = self.column.keys.as_slice();
        built(heap, &mut tally, keys, self.layout, self.slots.as_slice())?;
        Ok(tally)
    }

    // Builds with a slot more and a slot less, over rows out of order, and with node sizes that are not allowed.
    // Not one walk with `misfits`: a build has a number of slots and an opening the slots, and the node sizes are tried
    // over other rows there.
    pub fn builds_declined(&self, heap: Global) -> Result<Tally, AllocError> {
        let mut tally = Tally::new();
        let fitting = Build {
            rows: self.column.keys.as_slice(),
            layout: self.layout,
            slots: self.slots.len(),
        };
        let more = Build {
            slots: fitting.slots.saturating_add(1),
            ..fitting
        };
        tally.note(more.is_declined(heap, Decline::SlotCount)?);
        if let Some(slots) = fitting.slots.checked_sub(1) {
            let fewer = Build { slots, ..fitting };
            tally.note(fewer.is_declined(heap, Decline::SlotCount)?);
        }
        let mut rows = fitting.rows;
        if let Some(fallen) = &self.column.fallen {
            rows = fallen.as_slice();
            for build in [fitting, more] {
                let out_of_order = Build { rows, ..build };
                tally.note(out_of_order.is_declined(heap, Decline::OutOfOrder)?);
            }
        }
        for layout in NOT_ALLOWED {
            let build = Build {
                rows,
                layout,
                ..more
            };
            tally.note(build.is_declined(heap, Decline::NodeSize)?);
        }
        Ok(tally)
    }
}
