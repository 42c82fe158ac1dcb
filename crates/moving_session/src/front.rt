//! The conversation of one client with handlers that change.

ghost use Rattle.std.specs.Prelude.{◌≡◌, ◌≤◌, ◌++◌, ℕ, List, [], true, length, IfOk, OnOk, Ok};
ghost use Rattle.pg_portal.specs.Maps.{no_maps};
ghost use Rattle.pg_client.specs.State.{first_state};
ghost use Rattle.conversation_table.specs.Table.{awaits};
ghost use Rattle.conversation_runs.specs.Causes.{HasCauses};
ghost use Rattle.conversation_runs.specs.Session.{is_more, most_held};
ghost use Rattle.conversation_runs.specs.declared.ends.Progress.TheVariants.{More};
ghost use Rattle.moving_runs.specs.Meeting.{Meeting};
ghost use Rattle.moving_runs.specs.Steps.{Standing, WasMetFed};

use crate::behind::{MetSession, SheetSession};
use crate::moving::MovingHandlers;
use crate::parts::Front;
use pg_messages::SecretKey;
use pg_portal::PortalStore;
use pg_session::{
    CancelDesk, ExtendedQueryHandler, PgWireServerHandlers, Progress, ServeError, Sink, Turns,
};
use std::alloc::{AllocError, Global};
use std::marker::Model;

/// A conversation with one client whose handlers change, as its engine sees it.
pub trait MovingConversation {
    // what statements mean
    ghost Statement: { Type 0 };
    // the worlds that its handlers may be in
    ghost World: { Type 0 };
    // what meeting a message may come to
    ghost meets: { Meeting World Statement };
    // what the end of a conversation may come to
    ghost leaves: { World → World → Type 0 };
    // where the conversation stands
    ghost told: { Self → Standing World Statement };
    // the bytes of a frame that isn't whole
    ghost rest: { Self → List ℕ };

    /// Takes a piece of the client's bytes. Each message that the piece completes is met, and
    /// answered by its sheet; the whole answer is written. Ok(More) says that no whole frame is
    /// left, Ok(Ended(kind)) that the conversation has ended. After that, and after an error, it is
    /// closed: WriteFault comes where the sink failed, TurnLimit where a query needed a turn and
    /// none was left, NoMemory where memory ran out. ReadFault never comes.
    fn feed<D: CancelDesk, K: Sink>(
        &mut self,
        alloc: Global,
        desk: &mut D,
        piece: &[u8],
        sink: &mut K,
        turns: &mut Turns,
    ) -> Result<Progress, ServeError>
        requires open { (told self.old).is_open ≡ true }
        ensures fed { WasMetFed meets (told self.old).world (told self.new).world
            (told self.old).state (told self.new).state (rest self.old ++ piece.now)
            (rest self.new) (K.written sink.old) (K.written sink.new) (told self.old).unsent
            (D.told desk.old).calls (D.told desk.new).calls result }
        ensures sent { OnOk result ((told self.new).unsent ≡ []) }
        ensures open { (told self.new).is_open ≡ is_more result }

        // The cause of each error.
        ensures causes { HasCauses K.faults K.origin sink.old sink.new (D.told desk.old)
            (D.told desk.new) turns.old turns.new result };

    /// Tells the handlers that the conversation has ended, in any way.
    fn leave(&mut self)
        ensures { leaves (told self.old).world (told self.new).world };
}

/// A session whose handlers change. They meet each message, and it is answered by its sheet.
#[derive(Drop)]
pub struct MovingSession<
    M: MovingHandlers,
    St: PortalStore<
        Statement = <<M::Sheet as PgWireServerHandlers>::Extended as ExtendedQueryHandler>::Statement,
    >,
> {
    front: Front<SheetSession<M, St>>,
    opened: bool,
}

impl<
    M: MovingHandlers,
    St: PortalStore<
        Statement = <<M::Sheet as PgWireServerHandlers>::Extended as ExtendedQueryHandler>::Statement,
    >,
> Model for MovingSession<M, St> {
    ghost use Rattle.std.specs.Prelude.{◌≡◌, true};
    ghost use Rattle.std.specs.Coded.{codes};
    ghost use Rattle.std.specs.FinMap as fin;
    ghost use Rattle.conversation_runs.specs.Session.{SessionValue};

    ghost Value = { SessionValue M M.Sheet.Extended.Statement };

    ghost coded = { Prim.hlevel (codes, fin.code) };

    ghost view = { λ s. record {
      handlers = s.front.inner.handlers;
      state = s.front.inner.state;
      rest = s.front.rest.items;
      unsent = s.front.inner.unsent;
      is_open = s.opened;
    } };

    ghost invariant = { λ s. s.opened ≡ true → s.front.inner.is_open ≡ true };
}

impl<
    M: MovingHandlers,
    St: PortalStore<
        Statement = <<M::Sheet as PgWireServerHandlers>::Extended as ExtendedQueryHandler>::Statement,
        Rows = <<M::Sheet as PgWireServerHandlers>::Extended as ExtendedQueryHandler>::Rows,
    >,
> MovingSession<M, St> {
    /// A session that awaits the startup packet of a client, whose messages these handlers meet. The
    /// client is told this pid and key, in 3.0 the key's first four bytes. The store has to be
    /// empty. The only error is running out of memory.
    pub fn new(
        alloc: Global,
        handlers: M,
        store: St,
        pid: i32,
        key: SecretKey,
    ) -> Result<MovingSession<M, St>, AllocError>
        requires empty { St.maps store ≡ no_maps }
        ensures { IfOk result (λ session. session ≡ record {
          handlers = handlers;
          state = first_state pid key;
          rest = [];
          unsent = [];
          is_open = true;
        }) }
    {
        let inner = SheetSession::new(alloc, handlers, store, pid, key)?;
        Ok(MovingSession {
            front: Front::new(alloc, inner),
            opened: true,
        })
    }
}

/// Whether the conversation goes on.
fn is_more(outcome: &Result<Progress, ServeError>) -> bool
    ensures { result ≡ is_more outcome.now }
{
    matches!(outcome, Ok(Progress::More))
}

impl<
    M: MovingHandlers,
    St: PortalStore<
        Statement = <<M::Sheet as PgWireServerHandlers>::Extended as ExtendedQueryHandler>::Statement,
        Rows = <<M::Sheet as PgWireServerHandlers>::Extended as ExtendedQueryHandler>::Rows,
    >,
> MovingConversation for MovingSession<M, St> {
    ghost Statement = { M.Sheet.Extended.Statement };

    ghost World = { M.World };

    ghost meets = { M.meets };

    ghost leaves = { M.leaves };

    ghost told = { λ s. record {
      world = M.world s.handlers;
      state = s.state;
      unsent = s.unsent;
      is_open = s.is_open;
    } };

    ghost rest = { λ s. s.rest };

    fn feed<D: CancelDesk, K: Sink>(
        &mut self,
        alloc: Global,
        desk: &mut D,
        piece: &[u8],
        sink: &mut K,
        turns: &mut Turns,
    ) -> Result<Progress, ServeError> {
        self.opened = false;
        let outcome = self.front.take(alloc, desk, piece, sink, turns);
        self.opened = is_more(&outcome);
        outcome
    }

    fn leave(&mut self) {
        self.opened = false;
        self.front.inner.leave();
    }
}
