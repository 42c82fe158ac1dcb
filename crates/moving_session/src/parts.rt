//! What the front makes of the client's bytes, frame by frame.

ghost use Rattle.std.specs.Prelude.{◌≡◌, ◌≤◌, ◌<◌, ◌++◌, List, ℕ, [], true, Ok, None, length, IfOk, IfErr, IfNone, IfSome, OnOk, OnErr};
ghost use Rattle.pg_messages.specs.Frames.{IsFrame};
ghost use Rattle.conversation_table.specs.Table.{awaits, is_startup_phase};
ghost use Rattle.conversation_runs.specs.Causes.{HasCauses};
ghost use Rattle.conversation_runs.specs.Session.{IsUnread, most_held, told_end, told_or_more, unread};
ghost use Rattle.conversation_runs.specs.Steps.{SentBehind};
ghost use Rattle.conversation_runs.specs.Streams.{HasSentCause};
ghost use Rattle.conversation_runs.specs.declared.ends.Progress.TheVariants.{More};
ghost use Rattle.moving_runs.specs.Steps.{IsMetRound, IsMetStep, KeepsStanding, WasMetFed};

use crate::behind::MetSession;
use bytes::BytesMut;
use pg_messages::{FrameError, PgWireFrontendMessage, PgWireMessageServerCodec};
use pg_outbox::CHUNK;
use pg_portal::PgWireConnectionState;
use pg_session::{CancelDesk, EndKind, Progress, ServeError, Sink, Turns};
use std::alloc::Global;

/// A session whose messages are met, with the bytes of a frame that isn't whole.
#[derive(Drop)]
pub(crate) struct Front<C> {
    pub(crate) inner: C,
    codec: PgWireMessageServerCodec,
    pub(crate) rest: BytesMut,
}

impl<C: MetSession> Front<C> {
    /// A front of a session, which holds nothing.
    pub(crate) fn new(alloc: Global, inner: C) -> Front<C>
        ensures inner { result.inner ≡ inner }
        ensures rest { result.rest.items ≡ [] }
    {
        Front {
            inner,
            codec: PgWireMessageServerCodec::new(),
            rest: BytesMut::new(alloc),
        }
    }

    /// Takes a piece of the client's bytes, and answers the messages that it completes.
    pub(crate) fn take<D: CancelDesk, K: Sink>(
        &mut self,
        alloc: Global,
        desk: &mut D,
        piece: &[u8],
        sink: &mut K,
        turns: &mut Turns,
    ) -> Result<Progress, ServeError>
        requires { (C.seen self.old.inner).is_open ≡ true }
        ensures fed { WasMetFed C.meets (C.seen self.old.inner).world (C.seen self.new.inner).world
            (C.seen self.old.inner).state (C.seen self.new.inner).state
            (self.old.rest.items ++ piece.now) self.new.rest.items (K.written sink.old)
            (K.written sink.new) (C.seen self.old.inner).unsent (D.told desk.old).calls
            (D.told desk.new).calls result }
        ensures sent { OnOk result ((C.seen self.new.inner).unsent ≡ []) }
        ensures open { result ≡ Ok More → (C.seen self.new.inner).is_open ≡ true }
        ensures causes { HasCauses K.faults K.origin sink.old sink.new (D.told desk.old)
            (D.told desk.new) turns.old turns.new result }
    {
        match self.rest.extend_from_slice(piece) {
            Ok(()) => self.run(alloc, desk, sink, turns),
            Err(_) => Err(ServeError::NoMemory),
        }
    }

    /// Answers each whole frame of the bytes that are held, and sends all replies.
    fn run<D: CancelDesk, K: Sink>(
        &mut self,
        alloc: Global,
        desk: &mut D,
        sink: &mut K,
        turns: &mut Turns,
    ) -> Result<Progress, ServeError>
        requires { (C.seen self.old.inner).is_open ≡ true }
        ensures fed { WasMetFed C.meets (C.seen self.old.inner).world (C.seen self.new.inner).world
            (C.seen self.old.inner).state (C.seen self.new.inner).state
            self.old.rest.items self.new.rest.items (K.written sink.old) (K.written sink.new)
            (C.seen self.old.inner).unsent (D.told desk.old).calls (D.told desk.new).calls
            result }
        ensures sent { OnOk result ((C.seen self.new.inner).unsent ≡ []) }
        ensures open { result ≡ Ok More → (C.seen self.new.inner).is_open ≡ true }
        ensures causes { HasCauses K.faults K.origin sink.old sink.new (D.told desk.old)
            (D.told desk.new) turns.old turns.new result }
    {
        'messages: loop {
            match self.advance(alloc, desk, sink, turns) {
                None => {}
                Some(told) => return told,
            }
        }
    }

    /// Takes a step. None says that another step follows. Some(Ok) says that none does, and that all
    /// replies were sent.
    fn advance<D: CancelDesk, K: Sink>(
        &mut self,
        alloc: Global,
        desk: &mut D,
        sink: &mut K,
        turns: &mut Turns,
    ) -> Option<Result<Progress, ServeError>>
        requires { (C.seen self.old.inner).is_open ≡ true }
        ensures round { IsMetRound C.meets (C.seen self.old.inner).world
            (C.seen self.new.inner).world (C.seen self.old.inner).state
            (C.seen self.new.inner).state self.old.rest.items self.new.rest.items
            (K.written sink.old) (K.written sink.new) (C.seen self.old.inner).unsent
            (C.seen self.new.inner).unsent (D.told desk.old).calls (D.told desk.new).calls
            result }
        ensures sent { IfSome result (λ told. OnOk told ((C.seen self.new.inner).unsent ≡ [])) }
        ensures open { told_or_more result ≡ Ok More → (C.seen self.new.inner).is_open ≡ true }
        ensures shorter { IfNone result (length self.new.rest.items < length self.old.rest.items) }
        ensures causes { HasCauses K.faults K.origin sink.old sink.new (D.told desk.old)
            (D.told desk.new) turns.old turns.new (told_or_more result) }
    {
        let step = self.step(alloc, desk, turns);
        told_behind(&mut self.inner, sink, step)
    }

    /// Takes the next message off the bytes, has it met, and answers it. None says that the
    /// conversation goes on with the next one. The replies wait to be sent.
    fn step<D: CancelDesk>(
        &mut self,
        alloc: Global,
        desk: &mut D,
        turns: &mut Turns,
    ) -> Result<Option<Progress>, ServeError>
        requires { (C.seen self.old.inner).is_open ≡ true }
        ensures { IsMetStep C.meets (C.seen self.old.inner) (C.seen self.new.inner)
            self.old.rest.items self.new.rest.items (D.told desk.old) (D.told desk.new) turns.old
            turns.new result }
    {
        match self.next_message(alloc) {
            Ok(message) => told_end(self.inner.answer(alloc, desk, turns, message)),
            Err(told) => told,
        }
    }

    /// Takes the next message off the bytes. Where they begin with no good frame, Err has the result
    /// of the step: more bytes are awaited, the conversation ends, or memory ran out.
    fn next_message(
        &mut self,
        alloc: Global,
    ) -> Result<PgWireFrontendMessage, Result<Option<Progress>, ServeError>>
        ensures found { IfOk result (λ message. (frame : List ℕ)
            × (self.old.rest.items ≡ frame ++ self.new.rest.items)
            × IsFrame (awaits (C.seen self.old.inner).state) frame message) }
        ensures unread { IfErr result (λ told. IsUnread (awaits (C.seen self.old.inner).state)
            self.old.rest.items told) }
        ensures kept { OnErr result (self.new.rest.items ≡ self.old.rest.items) }
        ensures same { self.new.inner ≡ self.old.inner }
    {
        self.codec.context.awaiting_startup = awaits_startup(self.inner.state());
        match self.codec.decode(alloc, &mut self.rest) {
            Ok(Some(message)) => Ok(message),
            Ok(None) => Err(Ok(Some(Progress::More))),
            Err(error) => Err(unread(error)),
        }
    }
}

/// Sends the replies that wait after a step. Where no other step follows, all of them are sent, and
/// the step's result is returned. Where another follows, they are sent if they are a chunk or more.
/// An error of the step is returned at once.
fn told_behind<C: MetSession, K: Sink>(
    inner: &mut C,
    sink: &mut K,
    step: Result<Option<Progress>, ServeError>,
) -> Option<Result<Progress, ServeError>>
    ensures sent { SentBehind (K.written sink.old) (K.written sink.new) (C.seen inner.old).unsent
        (C.seen inner.new).unsent step result }
    ensures cause { HasSentCause (K.faults sink.old) (K.faults sink.new) step result }
    ensures same { KeepsStanding (C.seen inner.old) (C.seen inner.new) }
    ensures sink { K.origin sink.new ≡ K.origin sink.old }
{
    match step {
        Ok(told) => match told {
            Some(told) => match inner.flush(sink) {
                Ok(()) => Some(Ok(told)),
                Err(error) => Some(Err(error)),
            },
            None => sent_if_full(inner, sink),
        },
        Err(error) => Some(Err(error)),
    }
}

/// Sends what waits where it is a chunk or more. Some has the error where this failed.
fn sent_if_full<C: MetSession, K: Sink>(
    inner: &mut C,
    sink: &mut K,
) -> Option<Result<Progress, ServeError>>
    ensures sent { SentBehind (K.written sink.old) (K.written sink.new) (C.seen inner.old).unsent
        (C.seen inner.new).unsent (Ok None) result }
    ensures cause { HasSentCause (K.faults sink.old) (K.faults sink.new) (Ok None) result }
    ensures same { KeepsStanding (C.seen inner.old) (C.seen inner.new) }
    ensures sink { K.origin sink.new ≡ K.origin sink.old }
{
    if inner.unsent_len() < CHUNK {
        return None;
    }
    match inner.flush(sink) {
        Ok(()) => None,
        Err(error) => Some(Err(error)),
    }
}

/// Whether the startup packet is still awaited.
fn awaits_startup(state: PgWireConnectionState) -> bool
    ensures { result ≡ is_startup_phase state }
{
    matches!(state, PgWireConnectionState::AwaitingStartup)
}

/// The result of a step where no message could be read.
fn unread(error: FrameError) -> Result<Option<Progress>, ServeError>
    ensures { result ≡ unread error }
{
    match error {
        FrameError::Bad => Ok(Some(Progress::Ended(EndKind::BadFrame))),
        FrameError::NoMemory => Err(ServeError::NoMemory),
    }
}

/// The result of a step that answered a message: how the conversation ended, if it did, or the
/// error.
fn told_end(answer: Result<Option<EndKind>, ServeError>) -> Result<Option<Progress>, ServeError>
    ensures { result ≡ told_end answer }
{
    match answer {
        Ok(end) => Ok(end.map(Progress::Ended)),
        Err(error) => Err(error),
    }
}
