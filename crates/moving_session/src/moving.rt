//! Handlers that change while they serve.

ghost use Rattle.std.specs.Prelude.{◌≡◌, IfOk, OnErr};
ghost use Rattle.std.specs.Arc.{arc_value};
ghost use Rattle.pg_results.specs.Told.{ParserTold};
ghost use Rattle.pg_client.specs.State.{state_of};
ghost use Rattle.conversation_table.specs.Good.{IsGoodState};
ghost use Rattle.conversation_runs.specs.Messages.{IsGivenIn};
ghost use Rattle.moving_runs.specs.Meeting.{Meeting};
ghost use Rattle.moving_session.specs.Moved.{MayHaveMet};
ghost use Rattle.pg_session.specs.Stored.{StoresAlike};

use pg_messages::PgWireFrontendMessage;
use pg_portal::PortalStore;
use pg_session::{Client, ExtendedQueryHandler, PgWireServerHandlers};
use std::alloc::{AllocError, Global};
use std::sync::Arc;

/// Handlers that change while they serve. Before a message of the client is answered, they meet it:
/// they do what it asks of their world, and tell its sheet. The sheet is the handlers by which this
/// message is answered, and it never changes.
pub trait MovingHandlers: Drop {
    /// The handlers of one message.
    type Sheet: PgWireServerHandlers;

    // the worlds that they may be in
    ghost World: { Type 0 };
    // the world that they are in
    ghost world: { Self → World };
    // the parser that all sheets share, as far as stored statements go
    ghost parser: { Self → ParserTold Self.Sheet.Extended.Statement };
    // what meeting a message may come to
    ghost meets: { Meeting World Self.Sheet.Extended.Statement };
    // what the end of a conversation may come to
    ghost leaves: { World → World → Type 0 };

    /// A sheet before any message was met. No message is answered by it. The only error is running
    /// out of memory.
    fn sheet(&self, alloc: Global) -> Result<Arc<Self::Sheet>, AllocError>
        ensures { IfOk result (λ sheet. StoresAlike (parser self.now)
            (Self.Sheet.told (arc_value sheet)).extended.parser) };

    /// Meets a message of this client, and tells its sheet. The only error is running out of
    /// memory. Nothing was done then, or the message was met and can't be answered; the conversation
    /// is given up.
    fn meet<
        St: PortalStore<
            Statement = <<Self::Sheet as PgWireServerHandlers>::Extended as ExtendedQueryHandler>::Statement,
            Rows = <<Self::Sheet as PgWireServerHandlers>::Extended as ExtendedQueryHandler>::Rows,
        >,
    >(
        &mut self,
        alloc: Global,
        client: &Client<St>,
        message: &PgWireFrontendMessage,
    ) -> Result<Arc<Self::Sheet>, AllocError>
        requires given { IsGivenIn (state_of St.maps client.now) message.now }
        requires good { IsGoodState (parser self.old) (state_of St.maps client.now) }
        ensures met { IfOk result (λ sheet. meets (world self.old) (state_of St.maps client.now)
            message.now (Self.Sheet.told (arc_value sheet)) (world self.new)) }
        ensures err { OnErr result (MayHaveMet meets (world self.old) (state_of St.maps client.now)
            message.now (world self.new)) }
        ensures alike { IfOk result (λ sheet. StoresAlike (parser self.old)
            (Self.Sheet.told (arc_value sheet)).extended.parser) }
        ensures parser { parser self.new ≡ parser self.old };

    /// The conversation has ended, in any way. No message is met after it.
    fn leave(&mut self)
        ensures left { leaves (world self.old) (world self.new) }
        ensures parser { parser self.new ≡ parser self.old };
}
