//! Where keys come from.

use pg_serve::{KeySource, RandomKeys};
use std::cell::Cell;
use std::io;
use std::random::RandomSource;

/// Bytes that count up, until none is left.
#[derive(Drop)]
struct Counting {
    next: Cell<u8>,
}

impl RandomSource for Counting {
    fn fill_bytes(&self, buf: &mut [u8]) -> io::Result<()> {
        for byte in buf {
            let next = self.next.get();
            if next == 70 {
                return Err(io::Error::from(io::ErrorKind::Uncategorized));
            }
            *byte = next;
            self.next.set(next.saturating_add(1));
        }
        Ok(())
    }
}

/// The length of the next key, and its first and its last byte.
fn next_key(keys: &mut RandomKeys<Counting>) -> Option<(usize, u8, u8)> {
    let key = keys.next_key().ok()?;
    let bytes = key.as_slice();
    Some((bytes.len(), *bytes.first()?, *bytes.last()?))
}

/// Each key is drawn anew, and there is none where no bytes are left.
#[test]
fn keys_differ(rt: HostRuntime) {
    let mut keys = RandomKeys::new(rt.alloc(), Counting { next: Cell::new(0) });
    let told = [
        next_key(&mut keys),
        next_key(&mut keys),
        next_key(&mut keys),
    ];
    assert!(rt; told == [Some((32, 0, 31)), Some((32, 32, 63)), None]);
}

/// Whether the next two keys differ.
fn are_two(keys: &mut RandomKeys<HostRuntime>) -> Option<bool> {
    let first = keys.next_key().ok()?;
    let second = keys.next_key().ok()?;
    Some(first != second)
}

/// Two keys of the system's differ.
#[test]
fn random_keys_differ(rt: HostRuntime) {
    let mut keys = RandomKeys::new(rt.alloc(), rt);
    assert!(rt; are_two(&mut keys) == Some(true));
}
