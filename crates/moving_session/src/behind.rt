//! The session behind the front, with the handlers that meet its messages.

ghost use Rattle.std.specs.Prelude.{◌≡◌, [], true, Err, length, IfOk, OnOk, OnErr};
ghost use Rattle.std.specs.Arc.{arc_value};
ghost use Rattle.pg_client.specs.State.{first_state};
ghost use Rattle.pg_portal.specs.Maps.{no_maps};
ghost use Rattle.conversation_runs.specs.Causes.{HasFlushedTo};
ghost use Rattle.conversation_runs.specs.Messages.{IsGivenIn};
ghost use Rattle.conversation_runs.specs.Streams.{GrowsBy, GrowsByFront};
ghost use Rattle.conversation_runs.specs.declared.ends.ServeError.TheVariants as serve;
ghost use Rattle.moving_runs.specs.Meeting.{Meeting};
ghost use Rattle.moving_runs.specs.Steps.{IsMetResponse, KeepsStanding, Standing};
ghost use Rattle.moving_session.specs.Moved.{ChangesHandlers, MayHaveMet};
ghost use Rattle.pg_session.specs.Stored.{StoresAlike};

use crate::moving::MovingHandlers;
use pg_messages::{PgWireFrontendMessage, SecretKey};
use pg_portal::{PgWireConnectionState, PortalStore};
use pg_session::{
    CancelDesk, EndKind, ExtendedQueryHandler, PgWireServerHandlers, ServeError, Session, Sink,
    Turns,
};
use std::alloc::{AllocError, Global};
use std::marker::Model;

/// A session whose messages are met, as its front knows it: by its phase, by what becomes of a
/// message, and by the replies that wait. The front knows nothing else of it, so that the front's
/// proofs stay short.
pub(crate) trait MetSession: Drop {
    // what statements mean
    ghost Statement: { Type 0 };
    // the worlds that its handlers may be in
    ghost World: { Type 0 };
    // what meeting a message may come to
    ghost meets: { Meeting World Statement };
    // what the end of a conversation may come to
    ghost leaves: { World → World → Type 0 };
    // where the conversation stands
    ghost seen: { Self → Standing World Statement };

    /// The phase of the conversation.
    fn state(&self) -> PgWireConnectionState
        ensures { result ≡ (seen self.now).state.info.state };

    /// Has a message met, and answers it by its sheet. The replies wait until they are sent.
    fn answer<D: CancelDesk>(
        &mut self,
        alloc: Global,
        desk: &mut D,
        turns: &mut Turns,
        message: PgWireFrontendMessage,
    ) -> Result<Option<EndKind>, ServeError>
        requires open { (seen self.old).is_open ≡ true }
        requires given { IsGivenIn (seen self.old).state message }
        ensures { IsMetResponse meets message (seen self.old) (seen self.new) (D.told desk.old)
            (D.told desk.new) turns.old turns.new result };

    /// How many bytes of replies wait.
    fn unsent_len(&self) -> usize
        ensures { result ≡ length (seen self.now).unsent };

    /// Sends the replies that wait.
    fn flush<K: Sink>(&mut self, sink: &mut K) -> Result<(), ServeError>
        ensures empty { OnOk result ((seen self.new).unsent ≡ []) }
        ensures ok { OnOk result
            (GrowsBy (K.written sink.old) (K.written sink.new) (seen self.old).unsent) }
        ensures err { OnErr result
            (GrowsByFront (K.written sink.old) (K.written sink.new) (seen self.old).unsent) }
        ensures sink { HasFlushedTo K.faults K.origin sink.old sink.new result }
        ensures same { KeepsStanding (seen self.old) (seen self.new) };

    /// Tells the handlers that the conversation has ended.
    fn leave(&mut self)
        ensures { leaves (seen self.old).world (seen self.new).world };
}

/// Has a message met, and the session answer by its sheet. The only error is running out of memory.
fn tell_met<
    M: MovingHandlers,
    St: PortalStore<
        Statement = <<M::Sheet as PgWireServerHandlers>::Extended as ExtendedQueryHandler>::Statement,
        Rows = <<M::Sheet as PgWireServerHandlers>::Extended as ExtendedQueryHandler>::Rows,
    >,
>(
    alloc: Global,
    handlers: &mut M,
    session: &mut Session<M::Sheet, St>,
    message: &PgWireFrontendMessage,
) -> Result<(), AllocError>
    requires open { session.old.is_open ≡ true }
    requires given { IsGivenIn session.old.state message.now }
    requires alike { StoresAlike (M.parser handlers.old)
        (M.Sheet.told session.old.handlers).extended.parser }
    ensures met { OnOk result (M.meets (M.world handlers.old) session.old.state message.now
        (M.Sheet.told session.new.handlers) (M.world handlers.new)) }
    ensures err { OnErr result (MayHaveMet M.meets (M.world handlers.old) session.old.state
        message.now (M.world handlers.new)) }
    ensures alike { StoresAlike (M.parser handlers.new)
        (M.Sheet.told session.new.handlers).extended.parser }
    ensures same { ChangesHandlers session.old session.new }
{
    let sheet = handlers.meet(alloc, session.client(), message)?;
    session.tell_by(sheet);
    Ok(())
}

/// Memory ran out in the meeting of a message, which is dropped.
#[cold]
#[inline(never)]
fn unmet(_message: PgWireFrontendMessage) -> Result<Option<EndKind>, ServeError>
    ensures { result ≡ Err serve.NoMemory }
{
    Err(ServeError::NoMemory)
}

/// A session, and the handlers that meet its messages.
#[derive(Drop)]
pub(crate) struct SheetSession<
    M: MovingHandlers,
    St: PortalStore<
        Statement = <<M::Sheet as PgWireServerHandlers>::Extended as ExtendedQueryHandler>::Statement,
    >,
> {
    handlers: M,
    session: Session<M::Sheet, St>,
}

impl<
    M: MovingHandlers,
    St: PortalStore<
        Statement = <<M::Sheet as PgWireServerHandlers>::Extended as ExtendedQueryHandler>::Statement,
    >,
> Model for SheetSession<M, St> {
    ghost use Rattle.std.specs.Prelude.{◌≡◌, []};
    ghost use Rattle.std.specs.Coded.{codes};
    ghost use Rattle.std.specs.FinMap as fin;
    ghost use Rattle.conversation_runs.specs.Session.{SessionValue};
    ghost use Rattle.pg_session.specs.Stored.{StoresAlike};

    ghost Value = { SessionValue M M.Sheet.Extended.Statement };

    ghost coded = { Prim.hlevel (codes, fin.code) };

    ghost view = { λ s. record {
      handlers = s.handlers;
      state = s.session.state;
      rest = [];
      unsent = s.session.unsent;
      is_open = s.session.is_open;
    } };

    ghost invariant = { λ s. StoresAlike (M.parser s.handlers)
        (M.Sheet.told s.session.handlers).extended.parser };
}

impl<
    M: MovingHandlers,
    St: PortalStore<
        Statement = <<M::Sheet as PgWireServerHandlers>::Extended as ExtendedQueryHandler>::Statement,
        Rows = <<M::Sheet as PgWireServerHandlers>::Extended as ExtendedQueryHandler>::Rows,
    >,
> SheetSession<M, St> {
    /// A session that awaits the startup packet of a client, whose messages these handlers meet.
    pub(crate) fn new(
        alloc: Global,
        handlers: M,
        store: St,
        pid: i32,
        key: SecretKey,
    ) -> Result<SheetSession<M, St>, AllocError>
        requires empty { St.maps store ≡ no_maps }
        ensures { IfOk result (λ session. session ≡ record {
          handlers = handlers;
          state = first_state pid key;
          rest = [];
          unsent = [];
          is_open = true;
        }) }
    {
        let sheet = handlers.sheet(alloc)?;
        let session = Session::new(alloc, sheet, store, pid, key)?;
        Ok(SheetSession { handlers, session })
    }
}

impl<
    M: MovingHandlers,
    St: PortalStore<
        Statement = <<M::Sheet as PgWireServerHandlers>::Extended as ExtendedQueryHandler>::Statement,
        Rows = <<M::Sheet as PgWireServerHandlers>::Extended as ExtendedQueryHandler>::Rows,
    >,
> MetSession for SheetSession<M, St> {
    ghost Statement = { M.Sheet.Extended.Statement };

    ghost World = { M.World };

    ghost meets = { M.meets };

    ghost leaves = { M.leaves };

    ghost seen = { λ s. record {
      world = M.world s.handlers;
      state = s.state;
      unsent = s.unsent;
      is_open = s.is_open;
    } };

    fn state(&self) -> PgWireConnectionState {
        self.session.state()
    }

    fn answer<D: CancelDesk>(
        &mut self,
        alloc: Global,
        desk: &mut D,
        turns: &mut Turns,
        message: PgWireFrontendMessage,
    ) -> Result<Option<EndKind>, ServeError> {
        match tell_met(alloc, &mut self.handlers, &mut self.session, &message) {
            Ok(()) => self.session.answer(alloc, desk, turns, message),
            Err(_) => unmet(message),
        }
    }

    fn unsent_len(&self) -> usize {
        self.session.unsent().len()
    }

    fn flush<K: Sink>(&mut self, sink: &mut K) -> Result<(), ServeError> {
        self.session.flush(sink)
    }

    fn leave(&mut self) {
        self.handlers.leave();
    }
}
