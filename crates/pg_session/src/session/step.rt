//! One step: the next message is taken off the client's bytes and answered.

ghost use Rattle.std.specs.Prelude.{◌≡◌, ◌++◌, ◌∷◌, [], take, ℕ, List, true, IfOk, IfErr, IfNone, IfSome, OnErr, IsErrOf};
ghost use Rattle.pg_messages.specs.Frames.{IsFrame, IsUnfinished, IsBad};
ghost use Rattle.pg_results.specs.declared.client.PgWireConnectionState.TheVariants as phase;
ghost use Rattle.conversation_table.specs.Table.{awaits, is_startup_phase};
ghost use Rattle.conversation_runs.specs.Ready.{IsReady};
ghost use Rattle.conversation_runs.specs.Session.{ChangesRest, told_end, unread, IsUnread};
ghost use Rattle.conversation_runs.specs.SentFirst.{IsSentStep};
ghost use Rattle.conversation_runs.specs.Steps.{IsStep};

use crate::messages::{QueryMessage, ReadyMessage};
use crate::session::Session;
use conversation_runs::{Progress, ServeError, Sink};
use pg_handlers::{CancelDesk, EndKind, ExtendedQueryHandler, PgWireServerHandlers, Turns};
use pg_messages::{
    Bind, Close, Describe, Execute, FrameError, Parse, PgSync, PgWireFrontendMessage, Query,
    TypedMessage, decode_typed,
};
use pg_portal::{PgWireConnectionState, PortalStore};
use std::alloc::Global;

/// Whether the startup packet is still awaited.
#[inline(always)]
fn awaits_startup(state: PgWireConnectionState) -> bool
    ensures { result ≡ is_startup_phase state }
{
    matches!(state, PgWireConnectionState::AwaitingStartup)
}

/// The result of a step where no message could be read.
fn unread(error: FrameError) -> Result<Option<Progress>, ServeError>
    ensures { result ≡ unread error }
{
    match error {
        FrameError::Bad => Ok(Some(Progress::Ended(EndKind::BadFrame))),
        FrameError::NoMemory => Err(ServeError::NoMemory),
    }
}

/// The result of a step that answered a message: how the conversation ended, if it did, or the
/// error.
#[inline(always)]
fn told_end(answer: Result<Option<EndKind>, ServeError>) -> Result<Option<Progress>, ServeError>
    ensures { result ≡ told_end answer }
{
    match answer {
        Ok(end) => Ok(end.map(Progress::Ended)),
        Err(error) => Err(error),
    }
}

impl<
    H: PgWireServerHandlers,
    St: PortalStore<
        Statement = <H::Extended as ExtendedQueryHandler>::Statement,
        Rows = <H::Extended as ExtendedQueryHandler>::Rows,
    >,
> Session<H, St> {
    /// Takes the next message off the bytes and answers it. None says that the conversation goes on
    /// with the next one. The replies wait to be sent. Before a query is polled again, all that
    /// wait are sent.
    #[inline(always)]
    pub(crate) fn step<D: CancelDesk, K: Sink>(
        &mut self,
        alloc: Global,
        desk: &mut D,
        sink: &mut K,
        turns: &mut Turns,
    ) -> Result<Option<Progress>, ServeError>
        requires { self.old.is_open ≡ true }
        ensures { IsSentStep K.written K.faults K.origin H.told self.old.rest self.old self.new
            sink.old sink.new (D.told desk.old) (D.told desk.new) turns.old turns.new result }
    {
        match self.type_byte_when_ready() {
            Some(b'P') => self.step_as::<Parse, D>(alloc, desk, turns),
            Some(b'B') => self.step_as::<Bind, D>(alloc, desk, turns),
            Some(b'E') => self.step_query::<Execute, D, K>(alloc, desk, sink, turns),
            Some(b'S') => self.step_as::<PgSync, D>(alloc, desk, turns),
            Some(kind) => self.step_by(alloc, desk, sink, turns, kind),
            None => self.step_any(alloc, desk, turns),
        }
    }

    /// Takes a step where this type byte begins the next message and the session is ready. It is
    /// separate from `step` so that neither proof is long.
    #[inline(always)]
    fn step_by<D: CancelDesk, K: Sink>(
        &mut self,
        alloc: Global,
        desk: &mut D,
        sink: &mut K,
        turns: &mut Turns,
        kind: u8,
    ) -> Result<Option<Progress>, ServeError>
        requires ready { IsReady self.old }
        requires kind { take 1 self.old.rest ≡ kind ∷ [] }
        ensures { IsSentStep K.written K.faults K.origin H.told self.old.rest self.old self.new
            sink.old sink.new (D.told desk.old) (D.told desk.new) turns.old turns.new result }
    {
        match kind {
            b'Q' => self.step_query::<Query, D, K>(alloc, desk, sink, turns),
            b'D' => self.step_as::<Describe, D>(alloc, desk, turns),
            b'C' => self.step_as::<Close, D>(alloc, desk, turns),
            _ => self.step_any(alloc, desk, turns),
        }
    }

    /// The type byte that the bytes begin with, where the session is ready.
    #[inline(always)]
    fn type_byte_when_ready(&self) -> Option<u8>
        ensures { IfSome result (λ kind. (self.now.state.info.state ≡ phase.ReadyForQuery)
            × (take 1 self.now.rest ≡ kind ∷ [])) }
    {
        match self.client.info.state {
            PgWireConnectionState::ReadyForQuery => self.rest.as_slice().first().copied(),
            _ => None,
        }
    }

    /// Takes a step by a message whose type byte is that of `M`, and whose query may be unready. The
    /// message is read and answered as its own type.
    #[inline(always)]
    fn step_query<M: QueryMessage<H>, D: CancelDesk, K: Sink>(
        &mut self,
        alloc: Global,
        desk: &mut D,
        sink: &mut K,
        turns: &mut Turns,
    ) -> Result<Option<Progress>, ServeError>
        requires ready { IsReady self.old }
        requires kind { take 1 self.old.rest ≡ M.TypedMessage.kind ∷ [] }
        ensures { IsSentStep K.written K.faults K.origin H.told self.old.rest self.old self.new
            sink.old sink.new (D.told desk.old) (D.told desk.new) turns.old turns.new result }
    {
        match self.next_typed::<M>(alloc) {
            Ok(Some(message)) => told_end(self.answer_query(alloc, desk, sink, turns, message)),
            Ok(None) => Ok(Some(Progress::More)),
            Err(error) => unread(error),
        }
    }

    /// Takes a step by a message whose type byte is that of `M`. The message is read and answered
    /// as its own type.
    #[inline(always)]
    fn step_as<M: ReadyMessage, D: CancelDesk>(
        &mut self,
        alloc: Global,
        desk: &mut D,
        turns: &mut Turns,
    ) -> Result<Option<Progress>, ServeError>
        requires ready { IsReady self.old }
        requires kind { take 1 self.old.rest ≡ M.TypedMessage.kind ∷ [] }
        ensures { IsStep H.told self.old.rest self.old self.new (D.told desk.old)
            (D.told desk.new) turns.old turns.new result }
    {
        match self.next_typed::<M>(alloc) {
            Ok(Some(message)) => told_end(self.answer_as(alloc, desk, turns, message)),
            Ok(None) => Ok(Some(Progress::More)),
            Err(error) => unread(error),
        }
    }

    /// Takes the next message, whose type byte is that of `M`, off the bytes. After None and after
    /// an error nothing has changed.
    #[inline(always)]
    fn next_typed<M: TypedMessage>(&mut self, alloc: Global) -> Result<Option<M>, FrameError>
        requires ready { self.old.state.info.state ≡ phase.ReadyForQuery }
        requires kind { take 1 self.old.rest ≡ M.kind ∷ [] }
        ensures found { IfOk result (λ answer. IfSome answer (λ message. (frame : List ℕ)
            × (self.old.rest ≡ frame ++ self.new.rest)
            × IsFrame (awaits self.old.state) frame (M.message message))) }
        ensures none { IfOk result (λ answer. IfNone answer
            (IsUnfinished (awaits self.old.state) self.old.rest)) }
        ensures bad { IsErrOf result FrameError.Bad → IsBad (awaits self.old.state) self.old.rest }
        ensures kept { IfOk result (λ answer. IfNone answer (self.new.rest ≡ self.old.rest)) }
        ensures err { OnErr result (self.new.rest ≡ self.old.rest) }
        ensures same { ChangesRest self.old self.new }
    {
        decode_typed::<M>(alloc, &mut self.rest)
    }

    /// Takes a step by a message of any type, in any phase.
    #[inline(always)]
    fn step_any<D: CancelDesk>(
        &mut self,
        alloc: Global,
        desk: &mut D,
        turns: &mut Turns,
    ) -> Result<Option<Progress>, ServeError>
        requires { self.old.is_open ≡ true }
        ensures { IsStep H.told self.old.rest self.old self.new (D.told desk.old)
            (D.told desk.new) turns.old turns.new result }
    {
        match self.next_message(alloc) {
            Ok(message) => told_end(self.answer(alloc, desk, turns, message)),
            Err(told) => told,
        }
    }

    /// Takes the next message off the bytes. Where they begin with no good frame, Err has the
    /// result of the step: more bytes are awaited, the conversation ends, or memory ran out.
    #[inline(always)]
    fn next_message(
        &mut self,
        alloc: Global,
    ) -> Result<PgWireFrontendMessage, Result<Option<Progress>, ServeError>>
        ensures found { IfOk result (λ message. (frame : List ℕ)
            × (self.old.rest ≡ frame ++ self.new.rest)
            × IsFrame (awaits self.old.state) frame message) }
        ensures unread { IfErr result (λ told. IsUnread (awaits self.old.state) self.old.rest told) }
        ensures kept { OnErr result (self.new.rest ≡ self.old.rest) }
        ensures same { ChangesRest self.old self.new }
    {
        self.codec.context.awaiting_startup = awaits_startup(self.client.info.state);
        match self.codec.decode(alloc, &mut self.rest) {
            Ok(Some(message)) => Ok(message),
            Ok(None) => Err(Ok(Some(Progress::More))),
            Err(error) => Err(unread(error)),
        }
    }
}
