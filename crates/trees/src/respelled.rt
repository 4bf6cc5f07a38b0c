// Slots that are equivalent to their rows' keys without being the same.
use crate::case::Case;
use crate::kind::Made;
use crate::source::Source;
use std::alloc::AllocError;

impl<'a, K: Made> Case<'a, K> {
    // The slots spelled otherwise, where that is possible.
    pub fn respelled(&self, source: &mut Source) -> Result<Option<Vec<K>>, AllocError> {
        let heap = source.heap;
        let slots: Vec<K> = self
            .reader
            .slot_rows()
            .iter()
            .map(|row| source.key(self.column.number(*row)))
            .collect(heap)?;
        Ok(if slots == self.slots {
            None
        } else {
            Some(slots)
        })
    }
}
