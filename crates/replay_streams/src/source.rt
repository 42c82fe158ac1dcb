//! A source over bytes that are there.

ghost use Rattle.std.specs.Prelude.{[], Some};

use conversation_runs::{Source, SourceFailed};

/// A source of bytes that are lent to it. It gives as many as fit, and never fails.
#[derive(Drop)]
pub struct BytesSource<'a> {
    /// The bytes still to come.
    pub left: &'a [u8],
    /// How many reads gave at least one byte. The count stands still at the greatest `u64`.
    pub reads: u64,
}

impl<'a> Source for BytesSource<'a> {
    ghost left = { λ s. Some s.left.now };

    ghost reads = { λ s. s.reads };

    ghost faults = { λ _. 0 };

    fn receive(&mut self, into: &mut [u8]) -> Result<usize, SourceFailed> {
        let n = self.left.len().min(into.len());
        let (front, rest) = self.left.split_at(n);
        into[..n].copy_from_slice(front);
        self.left = rest;
        if n > 0 {
            self.reads = self.reads.saturating_add(1);
        }
        Ok(n)
    }
}
