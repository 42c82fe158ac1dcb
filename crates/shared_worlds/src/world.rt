//! Worlds that connections share.

ghost use Rattle.std.specs.Prelude.{◌≡◌, Some, IfOk, OnErr};
ghost use Rattle.std.specs.Arc.{arc_value};
ghost use Rattle.pg_client.specs.State.{state_of};
ghost use Rattle.conversation_table.specs.Good.{IsGoodState};
ghost use Rattle.conversation_runs.specs.Messages.{IsGivenIn};
ghost use Rattle.pg_session.specs.Stored.{StoresAlike};
ghost use Rattle.shared_worlds.specs.Worlds.{WorldTold, HasMet};

use pg_messages::PgWireFrontendMessage;
use pg_portal::PortalStore;
use pg_session::{Client, ExtendedQueryHandler, PgWireServerHandlers};
use shared_history::History;
use std::alloc::{AllocError, Global};
use std::marker::PhantomData;
use std::sync::Arc;

/// A world that many clients share, as it lies under the lock.
pub trait SharedWorld: Drop {
    /// One change of the world, as the history tells it. None is stored.
    type Change: Drop;

    /// What one client has for itself beside the world, as an open transaction. Contracts see it as
    /// its model tells it.
    type Own: Drop;

    /// The handlers of one message.
    type Sheet: PgWireServerHandlers;

    // where the world may stand
    ghost Place: { Type 0 };
    // where it stands
    ghost place: { Self → Place };
    // where each world begins, what a change makes of a place, and what meeting a message comes to
    ghost told: { WorldTold Place Self.Change Self.Own Self.Sheet.Extended.Statement };

    /// A world where it begins. The only error is running out of memory.
    fn new(alloc: Global) -> Result<Self, AllocError>
        ensures { IfOk result (λ world. place world ≡ told.begins) };

    /// What a client has for itself that has just come. The only error is running out of memory.
    fn own(alloc: Global) -> Result<Self::Own, AllocError>
        ensures { IfOk result (λ own. own ≡ told.first) };

    /// A sheet before any message was met. No message is answered by it. The only error is running
    /// out of memory.
    fn sheet(alloc: Global) -> Result<Arc<Self::Sheet>, AllocError>
        ensures { IfOk result (λ sheet. StoresAlike told.parser
            (Self.Sheet.told (arc_value sheet)).extended.parser) };

    /// Meets a message of this client: does what it asks, and gives its sheet, with the change that
    /// it made of the world, if it made one. The only error is running out of memory. Then the world
    /// stands where it stood, and the client has what it had.
    fn meet<
        St: PortalStore<
            Statement = <<Self::Sheet as PgWireServerHandlers>::Extended as ExtendedQueryHandler>::Statement,
            Rows = <<Self::Sheet as PgWireServerHandlers>::Extended as ExtendedQueryHandler>::Rows,
        >,
    >(
        &mut self,
        alloc: Global,
        own: &mut Self::Own,
        client: &Client<St>,
        message: &PgWireFrontendMessage,
    ) -> Result<(Arc<Self::Sheet>, Option<Self::Change>), AllocError>
        requires given { IsGivenIn (state_of St.maps client.now) message.now }
        requires good { IsGoodState told.parser (state_of St.maps client.now) }
        ensures met { IfOk result (λ r. HasMet told (place self.old) (place self.new) own.old own.new
            (state_of St.maps client.now) message.now r.1 (Self.Sheet.told (arc_value r.0))) }
        ensures alike { IfOk result (λ r. StoresAlike told.parser
            (Self.Sheet.told (arc_value r.0)).extended.parser) }
        ensures place { OnErr result (place self.new ≡ place self.old) }
        ensures own { OnErr result (own.new ≡ own.old) };

    /// The client has gone, in any way. What it had for itself is as at the beginning, and the world
    /// isn't touched.
    fn leave(own: &mut Self::Own)
        ensures { own.new ≡ told.first };
}

/// The course that a world takes: its history, which is legal where each change is what meeting some
/// client's message came to at its place.
pub struct Course<W: SharedWorld> {
    of: PhantomData<W>,
}

impl<W: SharedWorld> History for Course<W> {
    ghost use Rattle.shared_worlds.specs.Worlds.{IsLegal};

    type Change = W::Change;

    ghost legal = { IsLegal W.told };

    ghost empty = { tt };
}
