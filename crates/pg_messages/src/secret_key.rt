//! The secret key of a connection, which a cancel request has to name.

ghost use Rattle.std.specs.Prelude.{◌≡◌, ◌↔◌, ◌⊎◌, ◌<◌, ◌≤◌, ℕ, length, take, IfOk, IsTrue, Err, nat_eq};
ghost use Rattle.std.specs.Cmp.Lexicographic.{pointwise, nat_list_eq_equiv};
ghost use Rattle.std.specs.Cmp.{partial_equiv_from_equiv};

use std::alloc::{AllocError, Global};
use std::fmt;
use std::fmt::{Debug, Formatter};
use std::marker::Model;

/// The fewest bytes that a secret key has. A client of protocol 3.0 receives this many.
const LEAST_LENGTH: usize = 4;

/// The most bytes that a secret key has.
const MOST_LENGTH: usize = 256;

/// A connection's secret key: 4 to 256 bytes. `Debug` shows how many, and never a byte.
#[derive(Drop)]
pub struct SecretKey {
    bytes: Vec<u8>,
}

impl Model for SecretKey {
    ghost use Rattle.std.specs.Prelude.{◌≤◌, ℕ, List, length};

    ghost Value = { List ℕ };

    ghost view = { λ k. k.bytes.items };

    ghost invariant = { λ k. (4 ≤ length k.bytes.items) × (length k.bytes.items ≤ 256) };
}

/// Why there is no key.
#[derive(Clone, Copy, Debug, PartialEq, Eq)]
pub enum KeyError {
    /// No key has this many bytes: below 4 or above 256.
    BadLength(usize),
    /// There was no memory.
    NoMemory,
}

impl SecretKey {
    /// A key of these bytes, which are copied. `BadLength` comes exactly below 4 and above 256
    /// bytes. `NoMemory` comes where memory runs out.
    pub fn try_new(alloc: Global, bytes: &[u8]) -> Result<SecretKey, KeyError>
        ensures ok { IfOk result (λ key. key ≡ bytes.now) }
        ensures bad_length { (n : ℕ) → (result ≡ Err (KeyError.BadLength n))
            ↔ ((n ≡ length bytes.now) × ((n < 4) ⊎ (256 < n))) }
    {
        let length = bytes.len();
        if length < LEAST_LENGTH || MOST_LENGTH < length {
            return Err(KeyError::BadLength(length));
        }
        match Vec::from_slice(alloc, bytes) {
            Ok(bytes) => Ok(SecretKey { bytes }),
            Err(AllocError) => Err(KeyError::NoMemory),
        }
    }

    /// A copy of the key, in memory of its own.
    pub fn copy_of(&self) -> Result<SecretKey, AllocError>
        ensures { IfOk result (λ copy. copy ≡ self.now) }
    {
        let alloc = *self.bytes.allocator();
        Ok(SecretKey {
            bytes: Vec::from_slice(alloc, self.as_slice())?,
        })
    }

    /// The bytes.
    pub fn as_slice(&self) -> &[u8]
        ensures bytes { result.now ≡ self.now }
        ensures fits { (4 ≤ length self.now) × (length self.now ≤ 256) }
    {
        self.bytes.as_slice()
    }

    /// Keeps the first four bytes, as many as a client of protocol 3.0 receives. It takes no
    /// memory.
    pub fn narrow(&mut self)
        ensures { self.new ≡ take 4 self.old }
    {
        self.bytes.truncate(LEAST_LENGTH);
    }

    /// Whether the other is the same key. Keys of one length take the same time wherever they
    /// differ. So a client that guesses a key byte by byte can't measure how much of a guess was
    /// right.
    pub fn is_same(&self, other: &SecretKey) -> bool
        ensures { IsTrue result ↔ (self.now ≡ other.now) }
    {
        are_same(self.as_slice(), other.as_slice())
    }
}

/// Whether these are the same bytes: all of them are read, whatever the first ones are.
fn are_same(left: &[u8], right: &[u8]) -> bool
    ensures { IsTrue result ↔ (left.now ≡ right.now) }
{
    if left.len() != right.len() {
        return false;
    }
    let mut difference = 0u8;
    for i in 0..left.len() {
        difference |= left[i] ^ right[i];
    }
    difference == 0
}

impl PartialEq for SecretKey {
    ghost eq = { pointwise nat_eq };

    ghost laws = { partial_equiv_from_equiv nat_list_eq_equiv };

    fn eq(&self, other: &SecretKey) -> bool {
        self.is_same(other)
    }
}

impl Eq for SecretKey {
    ghost laws = { nat_list_eq_equiv };
}

impl Debug for SecretKey {
    fn fmt<W: fmt::Write>(&self, f: &mut Formatter<W>) -> fmt::Result {
        let length = self.bytes.len();
        f.debug_struct("SecretKey")
            .field("length", &length)
            .finish()
    }
}
