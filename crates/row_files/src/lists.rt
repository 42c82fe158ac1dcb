//! Short lists of what reads and writes do.

use std::alloc::{AllocError, Global};

/// `count` ones: what each read gives, where reads give single bytes.
pub fn singles(alloc: Global, count: usize) -> Result<Vec<usize>, AllocError> {
    let mut ones = Vec::new(alloc);
    for _ in 0..count {
        ones.push(1)?;
    }
    Ok(ones)
}

/// The value, if there is one: the calls that fail.
pub fn up_to_one<T: Copy>(alloc: Global, value: Option<T>) -> Result<Vec<T>, AllocError> {
    let mut values = Vec::new(alloc);
    if let Some(value) = value {
        values.push(value)?;
    }
    Ok(values)
}
