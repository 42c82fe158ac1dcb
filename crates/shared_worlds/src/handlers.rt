//! The handlers of one client of a world that many share.

ghost use Rattle.std.specs.Prelude.{◌≡◌, [], IfOk, OnErr};
ghost use Rattle.std.specs.Arc.{arc_value};
ghost use Rattle.pg_client.specs.State.{state_of};
ghost use Rattle.conversation_table.specs.Good.{IsGoodState};
ghost use Rattle.conversation_runs.specs.Messages.{IsGivenIn};
ghost use Rattle.pg_session.specs.Stored.{StoresAlike};
ghost use Rattle.shared_history.specs.Histories.{IsOneHistory};
ghost use Rattle.shared_worlds.specs.Worlds.{IsLegal};
ghost use Rattle.shared_worlds.specs.Sharing.{MeetsShared};

use crate::locked::Locked;
use crate::world::{Course, SharedWorld};
use moving_session::MovingHandlers;
use pg_messages::PgWireFrontendMessage;
use pg_portal::PortalStore;
use pg_session::{Client, ExtendedQueryHandler, PgWireServerHandlers};
use shared_history::{Book, Front, Naming, Opened};
use std::alloc::{AllocError, Global};
use std::marker::Model;
use std::sync::{Arc, Mutex, Wait};

/// A world under its lock.
#[derive(Drop)]
pub struct Shared<J: Naming, W: SharedWorld> {
    lock: Mutex<Locked<J, W>>,
    book: Book<J, Course<W>>,
}

impl<J: Naming, W: SharedWorld> Shared<J, W> {
    /// A front that has seen all of the history so far.
    fn front<R: Wait>(&self, rt: &R) -> Front<J, Course<W>> {
        self.lock.lock(rt).front(&self.book)
    }

    /// Meets a message under the lock.
    fn meet<
        R: Wait,
        St: PortalStore<
            Statement = <<W::Sheet as PgWireServerHandlers>::Extended as ExtendedQueryHandler>::Statement,
            Rows = <<W::Sheet as PgWireServerHandlers>::Extended as ExtendedQueryHandler>::Rows,
        >,
    >(
        &self,
        rt: &R,
        alloc: Global,
        front: &mut Front<J, Course<W>>,
        own: &mut W::Own,
        client: &Client<St>,
        message: &PgWireFrontendMessage,
    ) -> Result<Arc<W::Sheet>, AllocError>
        requires given { IsGivenIn (state_of St.maps client.now) message.now }
        requires good { IsGoodState W.told.parser (state_of St.maps client.now) }
        ensures met { IfOk result (λ sheet. MeetsShared W.told
            (record { seen = front.old; own = own.old }) (state_of St.maps client.now)
            message.now (W.Sheet.told (arc_value sheet))
            (record { seen = front.new; own = own.new })) }
        ensures alike { IfOk result (λ sheet. StoresAlike W.told.parser
            (W.Sheet.told (arc_value sheet)).extended.parser) }
        ensures front { OnErr result (front.new ≡ front.old) }
        ensures own { OnErr result (own.new ≡ own.old) }
    {
        self.lock
            .lock(rt)
            .meet(alloc, &self.book, front, own, client, message)
    }
}

/// The handlers of one client of a world that many share. Contracts see the part of the history that
/// they have seen, and what the client has for itself.
#[derive(Drop)]
pub struct SharedHandlers<R: Wait + Drop, J: Naming, W: SharedWorld> {
    rt: R,
    shared: Arc<Shared<J, W>>,
    front: Front<J, Course<W>>,
    own: W::Own,
}

impl<R: Wait + Drop, J: Naming, W: SharedWorld> Model for SharedHandlers<R, J, W> {
    ghost use Rattle.shared_worlds.specs.Sharing.{Known};

    ghost Value = { Known W.Change W.Own };

    ghost view = { λ h. record { seen = h.front; own = h.own } };
}

impl<R: Wait + Drop, J: Naming, W: SharedWorld> SharedHandlers<R, J, W> {
    /// A world where it begins, and the handlers of its first client. They wait for the lock by `rt`.
    /// The only error is running out of memory.
    pub fn new(
        rt: R,
        alloc: Global,
        opened: Opened<Course<W>>,
    ) -> Result<SharedHandlers<R, J, W>, AllocError>
        requires { opened ≡ J.table }
        ensures { IfOk result (λ h. h ≡ record { seen = []; own = W.told.first }) }
    {
        let world = W::new(alloc)?;
        let own = W::own(alloc)?;
        let (book, mut writer) = opened.named::<J>();
        let front = writer.front(&book);
        let lock = Mutex::new(Locked::new(world, writer));
        let shared = Arc::new(alloc, Shared { lock, book })?;
        Ok(SharedHandlers {
            rt,
            shared,
            front,
            own,
        })
    }

    /// The handlers of one more client of the same world, which have seen all that was changed so
    /// far. They wait for the lock by `rt`. The only error is running out of memory.
    pub fn share(&self, rt: R, alloc: Global) -> Result<SharedHandlers<R, J, W>, AllocError>
        ensures own { IfOk result (λ h. h.own ≡ W.told.first) }
        ensures legal { IfOk result (λ h. IsLegal W.told h.seen) }
    {
        let own = W::own(alloc)?;
        let front = self.shared.front(&rt);
        front.is_legal();
        Ok(SharedHandlers {
            rt,
            shared: Arc::try_clone(&self.shared)?,
            front,
            own,
        })
    }

    /// Two clients' handlers of one world have seen parts of one history, which is legal: what one of
    /// them has seen begins what the other one has.
    pub fn one_history(&mut self, other: &mut SharedHandlers<R, J, W>)
        ensures one { IsOneHistory self.old.seen other.old.seen }
        ensures legal { IsLegal W.told self.old.seen × IsLegal W.told other.old.seen }
        ensures same { (self.new ≡ self.old) × (other.new ≡ other.old) }
    {
        self.front.is_legal();
        other.front.is_legal();
        self.front.one_history(&self.shared.book, &mut other.front);
    }
}

impl<R: Wait + Drop, J: Naming, W: SharedWorld> MovingHandlers for SharedHandlers<R, J, W> {
    ghost use Rattle.shared_worlds.specs.Sharing.{Known, MeetsShared, LeavesShared};

    type Sheet = W::Sheet;

    ghost World = { Known W.Change W.Own };

    ghost world = { λ h. h };

    ghost parser = { λ _. W.told.parser };

    ghost meets = { MeetsShared W.told };

    ghost leaves = { LeavesShared W.told };

    fn sheet(&self, alloc: Global) -> Result<Arc<W::Sheet>, AllocError> {
        W::sheet(alloc)
    }

    fn meet<
        St: PortalStore<
            Statement = <<W::Sheet as PgWireServerHandlers>::Extended as ExtendedQueryHandler>::Statement,
            Rows = <<W::Sheet as PgWireServerHandlers>::Extended as ExtendedQueryHandler>::Rows,
        >,
    >(
        &mut self,
        alloc: Global,
        client: &Client<St>,
        message: &PgWireFrontendMessage,
    ) -> Result<Arc<W::Sheet>, AllocError> {
        self.shared.meet(
            &self.rt,
            alloc,
            &mut self.front,
            &mut self.own,
            client,
            message,
        )
    }

    fn leave(&mut self) {
        W::leave(&mut self.own);
    }
}
