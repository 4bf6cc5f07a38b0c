// Rows put in order; equal ones stay as they came.
use crate::question::PlainKey;
use crate::reader::rank;
use std::alloc::{AllocError, Global};

pub fn sorted(heap: Global, keys: &[PlainKey]) -> Result<Vec<PlainKey>, AllocError> {
    let mut rows = Vec::from_slice(heap, keys)?;
    rows.sort_by_key(rank)?;
    Ok(rows)
}
