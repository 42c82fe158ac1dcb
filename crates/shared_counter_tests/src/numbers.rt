//! The numbers of replies.

use std::alloc::{AllocError, Global};

/// The first frame of these bytes: its tag, its body, and the bytes behind it.
fn first_frame(bytes: &[u8]) -> Option<(u8, &[u8], &[u8])> {
    let tag = *bytes.first()?;
    let [a, b, c, d] = bytes.get(1..5)? else {
        return None;
    };
    let length = u32::from_be_bytes([*a, *b, *c, *d]);
    let end = usize::try_from(length).ok()?.checked_add(1)?;
    Some((tag, bytes.get(5..end)?, bytes.get(end..)?))
}

/// The number in the body of a DataRow of one cell.
fn number_of(body: &[u8]) -> Option<u64> {
    let mut number = 0u64;
    for byte in body.get(6..)? {
        let digit = byte.checked_sub(b'0')?;
        number = number.checked_mul(10)?.checked_add(u64::from(digit))?;
    }
    Some(number)
}

/// Puts the numbers of all DataRows behind the others. False says that a frame or a row is broken.
pub(crate) fn put_numbers(into: &mut Vec<u64>, bytes: &[u8]) -> Result<bool, AllocError> {
    let mut rest = bytes;
    for _ in 0..bytes.len() {
        if rest.is_empty() {
            return Ok(true);
        }
        let Some((tag, body, behind)) = first_frame(rest) else {
            return Ok(false);
        };
        if tag == b'D' {
            let Some(number) = number_of(body) else {
                return Ok(false);
            };
            into.push(number)?;
        }
        rest = behind;
    }
    Ok(rest.is_empty())
}

/// Whether these are the numbers from 1 to `count`, each once, in any order.
pub(crate) fn are_all(numbers: &[u64], count: u64) -> bool {
    let mut found = 0u64;
    for number in 1..count.saturating_add(1) {
        if numbers.contains(&number) {
            found = found.saturating_add(1);
        }
    }
    found == count && u64::try_from(numbers.len()) == Ok(count)
}

/// Whether each number is greater than the one before it.
pub(crate) fn do_rise(numbers: &[u64]) -> bool {
    let mut last = 0u64;
    for number in numbers {
        if *number <= last {
            return false;
        }
        last = *number;
    }
    true
}

/// An empty list of numbers.
pub(crate) fn no_numbers(alloc: Global) -> Vec<u64> {
    Vec::new(alloc)
}
