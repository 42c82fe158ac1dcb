//! A copy is the same key until it is narrowed; and what is shown of a key.

use pg_messages::SecretKey;
use std::alloc::{AllocError, Global};
use std::test::*;

/// Whether a copy is the same key until it is narrowed.
fn is_copied(key: &SecretKey) -> Result<bool, AllocError> {
    let mut copy = key.copy_of()?;
    let same = copy == *key;
    copy.narrow();
    Ok(same && copy != *key && copy.as_slice() == [1, 2, 3, 4].as_slice())
}

/// Whether `Debug` shows how many bytes a key has, and none of the bytes.
fn is_hidden(alloc: Global, key: &SecretKey) -> Result<bool, Fail> {
    let shown = format!(in alloc; "{key:?}")?;
    Ok(shown.as_str() == "SecretKey { length: 6 }")
}

#[test]
fn t_key(rt: HostRuntime) -> Result<(), Fail> {
    let key = SecretKey::try_new(rt.alloc(), &[1, 2, 3, 4, 5, 6])?;
    assert!(rt; is_copied(&key)? && is_hidden(rt.alloc(), &key)?);
    Ok(())
}
