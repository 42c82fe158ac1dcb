//! COPY from the client.

use pg_handlers::{Client, CopyHandler, NoopHandler, copy_given_up};
use pg_messages::{CopyData, CopyDone, CopyFail};
use pg_portal::{PgWireError, PortalStore};
use std::alloc::Global;

/// What is done with a COPY from the client.
#[derive(Clone, Copy)]
pub enum SampleCopying {
    /// All of its data are taken.
    Taken,
    /// It is left to `NoopHandler`, which implements nothing.
    Noop,
}

impl CopyHandler for SampleCopying {
    ghost use Rattle.sample_handlers.specs.Told.{told_copying};

    ghost told = { λ copying. told_copying copying };

    fn on_copy_data<St: PortalStore>(
        &self,
        alloc: Global,
        client: &mut Client<St>,
        copy_data: CopyData,
    ) -> Result<(), PgWireError> {
        match *self {
            SampleCopying::Taken => Ok(()),
            SampleCopying::Noop => NoopHandler.on_copy_data(alloc, client, copy_data),
        }
    }

    fn on_copy_done<St: PortalStore>(
        &self,
        alloc: Global,
        client: &mut Client<St>,
        done: CopyDone,
    ) -> Result<(), PgWireError> {
        match *self {
            SampleCopying::Taken => Ok(()),
            SampleCopying::Noop => NoopHandler.on_copy_done(alloc, client, done),
        }
    }

    fn on_copy_fail<St: PortalStore>(
        &self,
        alloc: Global,
        client: &mut Client<St>,
        fail: CopyFail,
    ) -> PgWireError {
        match *self {
            SampleCopying::Taken => copy_given_up(alloc, fail),
            SampleCopying::Noop => NoopHandler.on_copy_fail(alloc, client, fail),
        }
    }
}
