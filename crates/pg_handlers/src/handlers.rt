//! The handlers of a server.

ghost use Rattle.std.specs.Prelude.{◌≡◌};
ghost use Rattle.conversation_table.specs.Handlers.{Handlers};

use crate::copy::CopyHandler;
use crate::query::extended::ExtendedQueryHandler;
use crate::query::simple::SimpleQueryHandler;

/// The handlers of a server.
pub trait PgWireServerHandlers: Drop {
    /// The type of the handler of simple queries.
    type Simple: SimpleQueryHandler;

    /// The type of the handler of extended queries.
    type Extended: ExtendedQueryHandler;

    /// The type of the handler of COPY.
    type Copying: CopyHandler;

    // what the three handlers tell
    ghost told: { Self → Handlers Self.Extended.Statement };

    /// The handler of simple queries.
    fn simple_query_handler(&self) -> &Self::Simple
        ensures { Self.Simple.told result.now ≡ (told self.now).simple };

    /// The handler of extended queries.
    fn extended_query_handler(&self) -> &Self::Extended
        ensures { Self.Extended.told result.now ≡ (told self.now).extended };

    /// The handler of COPY.
    fn copy_handler(&self) -> &Self::Copying
        ensures { Self.Copying.told result.now ≡ (told self.now).copying };
}
