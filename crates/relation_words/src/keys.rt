//! The word of a secret key.

ghost use Rattle.std.specs.Prelude.{◌≡◌, IfOk};
ghost use Rattle.relation_words.specs.Keys.{key_of};

use pg_messages::{KeyError, SecretKey};
use std::alloc::{AllocError, Global};
use std::marker::Model;

/// The most bytes that a secret key has.
const MOST_LENGTH: usize = 256;

/// The bytes of a secret key that isn't made yet: 4 to 256. They take no memory of their own, so
/// that words are judged without any.
#[derive(Drop)]
pub struct KeyBytes {
    room: [u8; MOST_LENGTH],
    length: usize,
}

impl Model for KeyBytes {
    ghost use Rattle.std.specs.Prelude.{◌≤◌, ℕ, List, take};

    ghost Value = { List ℕ };

    ghost view = { λ k. take k.length k.room };

    ghost invariant = { λ k. (4 ≤ k.length) × (k.length ≤ 256) };
}

impl KeyBytes {
    /// The secret key, in memory of its own.
    pub fn secret_key(&self, alloc: Global) -> Result<SecretKey, AllocError>
        ensures { IfOk result (λ key. key ≡ self.now) }
    {
        match SecretKey::try_new(alloc, &self.room[..self.length]) {
            Ok(key) => Ok(key),
            Err(KeyError::NoMemory) => Err(AllocError),
            Err(KeyError::BadLength(_)) => unreachable!(),
        }
    }
}

/// KEY: an even number of hexadecimal digits of either case, 8 to 512 of them.
pub fn read_key(word: &str) -> Option<KeyBytes>
    ensures { result ≡ key_of word.now }
{
    if word.len() < 8 || 512 < word.len() {
        return None;
    }
    let length = word.len() / 2;
    let mut room = [0; MOST_LENGTH];
    hex::decode_to_slice(word, &mut room[..length]).ok()?;
    Some(KeyBytes { room, length })
}
