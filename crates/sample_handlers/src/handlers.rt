//! All handlers of sample queries.

ghost use Rattle.std.specs.Prelude.{◌≡◌};

use crate::copying::SampleCopying;
use crate::handler::SampleHandler;
use pg_handlers::PgWireServerHandlers;

/// It answers sample queries, simple and extended; a COPY from the client is taken, or left to
/// `NoopHandler`.
#[derive(Drop)]
pub struct SampleHandlers {
    queries: SampleHandler,
    copying: SampleCopying,
}

impl SampleHandlers {
    /// The handlers that do this with a COPY from the client.
    pub fn new(copying: SampleCopying) -> SampleHandlers
        ensures { result.copying ≡ copying }
    {
        SampleHandlers {
            queries: SampleHandler,
            copying,
        }
    }
}

impl PgWireServerHandlers for SampleHandlers {
    ghost use Rattle.sample_handlers.specs.Told.{sample_handlers};

    type Simple = SampleHandler;

    type Extended = SampleHandler;

    type Copying = SampleCopying;

    ghost told = { λ handlers. sample_handlers handlers.copying };

    fn simple_query_handler(&self) -> &SampleHandler {
        &self.queries
    }

    fn extended_query_handler(&self) -> &SampleHandler {
        &self.queries
    }

    fn copy_handler(&self) -> &SampleCopying {
        &self.copying
    }
}
