// Openings that are declined.
use crate::case::{Case, strangers};
use crate::declined::NOT_ALLOWED;
use crate::kind::Made;
use crate::opening::Opening;
use crate::source::Source;
use indexes::{Decline, Layout};
use std::alloc::{AllocError, Global};
use trials::Tally;

impl<'a, K: Made> Case<'a, K> {
    // The opening that is not declined.
    pub fn fitting(&self) -> Opening<'_, K> {
        Opening {
            column: self.column.keys.as_slice(),
            layout: self.layout,
            slots: self.slots.as_slice(),
        }
    }

    // Openings with slots too many or too few, over rows out of order, and with node sizes that are not allowed.
    fn misfits(&self, heap: Global) -> Result<Tally, AllocError> {
        let mut tally = Tally::new();
        let fitting = self.fitting();
        let slots: Vec<K> = strangers(heap, fitting.slots.len().saturating_add(1))?;
        let more = Opening {
            slots: slots.as_slice(),
            ..fitting
        };
        tally.note(more.is_declined(heap, Decline::SlotCount)?);
        if let [_, slots @ ..] = fitting.slots {
            let fewer = Opening { slots, ..fitting };
            tally.note(fewer.is_declined(heap, Decline::SlotCount)?);
        }
        if let Some(fallen) = &self.column.fallen {
            let column = fallen.as_slice();
            tally.note(Opening { column, ..fitting }.is_declined(heap, Decline::OutOfOrder)?);
            tally.note(Opening { column, ..more }.is_declined(heap, Decline::OutOfOrder)?);
            let opening = Opening {
                column,
                layout: Layout::Full { slots: 0 },
                ..more
            };
            tally.note(opening.is_declined(heap, Decline::NodeSize)?);
        }
        for layout in NOT_ALLOWED {
            let opening = Opening { layout, ..fitting };
            tally.note(opening.is_declined(heap, Decline::NodeSize)?);
        }
        Ok(tally)
    }

    // Slots of which one has a key that is not equivalent to its row's, by a little less or a little more.
    fn changed(&self, source: &mut Source, place: usize) -> Result<Tally, AllocError> {
        let mut tally = Tally::new();
        let heap = source.heap;
        let row = self.reader.slot_rows().get(place).copied().unwrap_or(0);
        let number = self.column.number(row);
        for other in [number.saturating_sub(1), number.saturating_add(1)] {
            let mut slots = Vec::from_slice(heap, self.slots.as_slice())?;
            if let Some(slot) = slots.get_mut(place) {
                *slot = source.key(other);
            }
            let opening = Opening {
                slots: slots.as_slice(),
                ..self.fitting()
            };
            tally.note(opening.is_declined(heap, Decline::SlotDiffers)?);
        }
        Ok(tally)
    }

    // All of these; the last slot of a node is among those that are changed, which a level directory never looks at.
    pub fn openings_declined(&self, source: &mut Source) -> Result<Tally, AllocError> {
        let mut tally = self.misfits(source.heap)?;
        let count = self.slots.len();
        let Some(drawn) = source.place(count) else {
            return Ok(tally);
        };
        for place in [0, self.reader.last_slot(), drawn, count - 1] {
            tally += self.changed(source, place)?;
        }
        Ok(tally)
    }
}
