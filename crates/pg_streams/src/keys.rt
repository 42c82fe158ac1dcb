//! Secret keys that nobody can guess.

ghost use Rattle.std.specs.Prelude.{◌≡◌, length, IfOk};

use crate::accept::KeySource;
use pg_messages::SecretKey;
use std::alloc::{AllocError, Global};
use std::random::RandomSource;

/// How many bytes a key has.
const LENGTH: usize = 32;

/// Keys of a source's random bytes.
#[derive(Drop)]
pub struct RandomKeys<R: RandomSource> {
    alloc: Global,
    source: R,
}

impl<R: RandomSource> RandomKeys<R> {
    /// Keys of this source.
    pub fn new(alloc: Global, source: R) -> RandomKeys<R> {
        RandomKeys { alloc, source }
    }
}

impl<R: RandomSource> KeySource for RandomKeys<R> {
    /// The next key, of 32 bytes. Where the source gives no bytes, or memory runs out, there is no
    /// key. An earlier key is never given again.
    fn next_key(&mut self) -> Result<SecretKey, AllocError>
        ensures { IfOk result (λ key. length key ≡ 32) }
    {
        let mut bytes = [0; LENGTH];
        if self.source.fill_bytes(&mut bytes).is_err() {
            return Err(AllocError);
        }
        SecretKey::try_new(self.alloc, &bytes).map_err(|_| AllocError)
    }
}
