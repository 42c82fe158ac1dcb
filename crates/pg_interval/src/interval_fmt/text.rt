ghost use Rattle.std.specs.Prelude.{◌≡◌, ◌≤◌, drop, IfOk, string_bytes};
ghost use Rattle.std.specs.Str.{IsUtf8};

use super::LONGEST;
use std::alloc::{AllocError, Global};
use std::marker::Model;

/// The text of an interval in a style. The value itself holds its ASCII bytes, so it takes no
/// memory.
#[derive(Drop)]
pub struct IntervalText {
    /// The text is what stands from `start` on.
    bytes: [u8; LONGEST],
    start: usize,
}

impl Model for IntervalText {
    ghost use Rattle.std.specs.Prelude.{List, ℕ, ◌≤◌, drop};
    ghost use Rattle.std.specs.Str.{IsUtf8};

    ghost Value = { List ℕ };

    ghost view = { λ t. drop t.start t.bytes };

    ghost invariant = { λ t. (t.start ≤ 96) × IsUtf8 (drop t.start t.bytes) };
}

impl IntervalText {
    /// The text that stands from `start` on.
    #[inline(always)]
    pub(super) fn new(bytes: [u8; LONGEST], start: usize) -> IntervalText
        requires within { start ≤ 96 }
        requires utf8 { IsUtf8 (drop start bytes) }
        ensures { result ≡ drop start bytes }
    {
        IntervalText { bytes, start }
    }

    /// The text's bytes.
    #[inline(always)]
    pub fn as_bytes(&self) -> &[u8]
        ensures { result.now ≡ self.now }
    {
        &self.bytes[self.start..]
    }

    /// The text.
    #[inline(always)]
    pub fn as_str(&self) -> &str
        ensures { result.now ≡ self.now }
    {
        unsafe { std::str::from_utf8_unchecked(&self.bytes[self.start..]) }
    }

    /// The text in memory of its own, of exactly its length.
    #[inline(always)]
    pub(super) fn to_string(&self, alloc: Global) -> Result<String, AllocError>
        ensures { IfOk result (λ text. string_bytes text ≡ self.now) }
    {
        String::from_str(alloc, self.as_str())
    }
}
