// A column under a layout, with what the rules say of it.
use crate::column::Column;
use crate::kind::Made;
use crate::reader::Reader;
use indexes::Layout;
use std::alloc::{AllocError, Global};

#[derive(Drop)]
pub struct Case<'a, K> {
    pub column: &'a Column<K>,
    pub layout: Layout,
    pub reader: Reader<'a>,
    // the keys that belong in the slots
    pub slots: Vec<K>,
}

// A key that no drawn column has: it comes before all their keys.
pub fn stranger<K: Made>() -> K {
    K::made(0, 0)
}

// So many of them, to fill slots with.
pub fn strangers<K: Made>(heap: Global, count: usize) -> Result<Vec<K>, AllocError> {
    vec![in heap; stranger(); count]
}

impl<'a, K: Made> Case<'a, K> {
    pub fn new(
        heap: Global,
        column: &'a Column<K>,
        layout: Layout,
    ) -> Result<Case<'a, K>, AllocError> {
        let reader = Reader::new(heap, column.numbers.as_slice(), layout)?;
        let slots = reader
            .slot_rows()
            .iter()
            .map(|row| column.keys.get(*row).copied().unwrap_or(stranger()))
            .collect(heap)?;
        Ok(Case {
            column,
            layout,
            reader,
            slots,
        })
    }
}
