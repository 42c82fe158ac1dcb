//! Data of sample COPYs.

ghost use Rattle.std.specs.Prelude.{◌≡◌};

use pg_messages::{CopyData, PgBytes};
use pg_portal::{CopySource, PgWireError};
use std::alloc::{AllocError, Global};

/// Data of a COPY, `left` of them. Each is one byte, which says how many are left, itself included.
#[derive(Drop)]
pub struct SampleCopy {
    alloc: Global,
    left: u8,
}

impl SampleCopy {
    /// `left` data.
    pub fn new(alloc: Global, left: u8) -> SampleCopy
        ensures { result.left ≡ left }
    {
        SampleCopy { alloc, left }
    }
}

impl CopySource for SampleCopy {
    ghost use Rattle.sample_handlers.specs.Told.{data_left};

    ghost items = { λ c. data_left c.left };

    fn next(&mut self) -> Result<Option<Result<CopyData, PgWireError>>, AllocError> {
        if self.left == 0 {
            return Ok(None);
        }
        let payload = PgBytes::copy_of(self.alloc, &[self.left])?;
        self.left -= 1;
        Ok(Some(Ok(CopyData { payload })))
    }
}
