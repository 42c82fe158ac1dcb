//! The keys of the tests.

use pg_messages::SecretKey;
use std::alloc::Global;

/// A key.
#[derive(Clone, Copy)]
pub enum Key {
    /// That of the first connection.
    A,
    /// Another key, for the first connection's pid.
    B,
    /// That of the second connection.
    C,
    /// One that nobody has.
    Zero,
    /// One that begins as the first.
    Long,
}

impl Key {
    /// Its bytes.
    fn bytes(self) -> &'static [u8] {
        match self {
            Key::A => &[1, 2, 3, 4],
            Key::B => &[5, 6, 7, 8],
            Key::C => &[10, 11, 12, 13],
            Key::Zero => &[0, 0, 0, 0],
            Key::Long => &[1, 2, 3, 4, 5, 6, 7, 8],
        }
    }

    /// The key, in memory of its own.
    pub fn secret(self, alloc: Global) -> Option<SecretKey> {
        SecretKey::try_new(alloc, self.bytes()).ok()
    }
}
