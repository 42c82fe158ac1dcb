//! The world under the lock.

ghost use Rattle.std.specs.Prelude.{◌≡◌, IfOk, OnErr};
ghost use Rattle.std.specs.Arc.{arc_value};
ghost use Rattle.pg_client.specs.State.{state_of};
ghost use Rattle.conversation_table.specs.Good.{IsGoodState};
ghost use Rattle.conversation_runs.specs.Messages.{IsGivenIn};
ghost use Rattle.pg_session.specs.Stored.{StoresAlike};
ghost use Rattle.shared_worlds.specs.Worlds.{place_of};
ghost use Rattle.shared_worlds.specs.Sharing.{MeetsShared};

use crate::world::{Course, SharedWorld};
use pg_messages::PgWireFrontendMessage;
use pg_portal::PortalStore;
use pg_session::{Client, ExtendedQueryHandler, PgWireServerHandlers};
use shared_history::{Book, Front, Naming, Writer};
use std::alloc::{AllocError, Global};
use std::marker::Model;
use std::sync::Arc;

/// What lies under the lock: the world, and the writer of its history, which leads to where the world
/// stands. Contracts see it as the history.
#[derive(Drop)]
pub(crate) struct Locked<J: Naming, W: SharedWorld> {
    world: W,
    writer: Writer<J, Course<W>>,
}

impl<J: Naming, W: SharedWorld> Model for Locked<J, W> {
    ghost use Rattle.std.specs.Prelude.{◌≡◌, List};
    ghost use Rattle.shared_worlds.specs.Worlds.{place_of};

    ghost Value = { List W.Change };

    ghost view = { λ l. l.writer };

    ghost invariant = { λ l. W.place l.world ≡ place_of W.told l.writer };
}

impl<J: Naming, W: SharedWorld> Locked<J, W> {
    /// A world that stands where its history leads.
    pub(crate) fn new(world: W, writer: Writer<J, Course<W>>) -> Locked<J, W>
        requires { W.place world ≡ place_of W.told writer }
        ensures { result ≡ writer }
    {
        Locked { world, writer }
    }

    /// A front that has seen all of the history.
    pub(crate) fn front(&mut self, book: &Book<J, Course<W>>) -> Front<J, Course<W>>
        ensures { result ≡ self.old }
    {
        self.writer.front(book)
    }

    /// Meets a message of the client whose handlers have this front, and this of their own. The only
    /// error is running out of memory. Then both are as they were.
    #[tactic(auto, using(crate::proofs::Histories::stands_behind))]
    pub(crate) fn meet<
        St: PortalStore<
            Statement = <<W::Sheet as PgWireServerHandlers>::Extended as ExtendedQueryHandler>::Statement,
            Rows = <<W::Sheet as PgWireServerHandlers>::Extended as ExtendedQueryHandler>::Rows,
        >,
    >(
        &mut self,
        alloc: Global,
        book: &Book<J, Course<W>>,
        front: &mut Front<J, Course<W>>,
        own: &mut W::Own,
        client: &Client<St>,
        message: &PgWireFrontendMessage,
    ) -> Result<Arc<W::Sheet>, AllocError>
        requires given { IsGivenIn (state_of St.maps client.now) message.now }
        requires good { IsGoodState W.told.parser (state_of St.maps client.now) }
        ensures met { IfOk result (λ sheet. MeetsShared W.told
            (record { seen = front.old; own = own.old }) (state_of St.maps client.now)
            message.now (W.Sheet.told (arc_value sheet))
            (record { seen = front.new; own = own.new })) }
        ensures alike { IfOk result (λ sheet. StoresAlike W.told.parser
            (W.Sheet.told (arc_value sheet)).extended.parser) }
        ensures front { OnErr result (front.new ≡ front.old) }
        ensures own { OnErr result (own.new ≡ own.old) }
    {
        self.writer.is_legal();
        let (sheet, change) = self.world.meet(alloc, own, client, message)?;
        self.writer.note(book, front, change);
        Ok(sheet)
    }
}
