//! The session takes the client's bytes piece by piece, and sends what it answers.

ghost use Rattle.std.specs.Prelude.{◌≡◌, ◌≤◌, ◌<◌, ◌++◌, [], true, Option, None, length, IfNone, IfSome, OnOk, OnErr, Ok};
ghost use Rattle.conversation_table.specs.Table.{awaits};
ghost use Rattle.conversation_runs.specs.Causes.{HasCauses, HasFlushedTo};
ghost use Rattle.conversation_runs.specs.Session.{ChangesUnsent, told_or_more, whole_rules, is_more, most_held};
ghost use Rattle.conversation_runs.specs.Steps.{Flows, RoundSo, SentBehind, WasFed};
ghost use Rattle.conversation_runs.specs.Streams.{HasSentCause, GrowsBy, GrowsByFront};
ghost use Rattle.conversation_runs.specs.declared.ends.Progress.TheVariants.{More};

use crate::session::Session;
use conversation_runs::{Progress, ServeError, Sink};
use pg_handlers::{CHUNK, CancelDesk, ExtendedQueryHandler, Outbox, PgWireServerHandlers, Turns};
use pg_portal::PortalStore;
use std::alloc::Global;

/// Sends what waits in the outbox, each chunk by one call.
fn flush<K: Sink>(outbox: &mut Outbox, sink: &mut K) -> Result<(), ServeError>
    ensures empty { OnOk result (outbox.new ≡ []) }
    ensures ok { OnOk result (GrowsBy (K.written sink.old) (K.written sink.new) outbox.old) }
    ensures err { OnErr result (GrowsByFront (K.written sink.old) (K.written sink.new) outbox.old) }
    ensures sink { HasFlushedTo K.faults K.origin sink.old sink.new result }
{
    'chunks: while let Some(front) = outbox.front() {
        sink.send(front)?;
        outbox.drop_front();
    }
    Ok(())
}

/// Sends what waits in the outbox, and frees the memory that was kept for the next chunk.
fn flush_all<K: Sink>(outbox: &mut Outbox, sink: &mut K) -> Result<(), ServeError>
    ensures empty { OnOk result (outbox.new ≡ []) }
    ensures ok { OnOk result (GrowsBy (K.written sink.old) (K.written sink.new) outbox.old) }
    ensures err { OnErr result (GrowsByFront (K.written sink.old) (K.written sink.new) outbox.old) }
    ensures sink { HasFlushedTo K.faults K.origin sink.old sink.new result }
{
    let flushed = flush(outbox, sink);
    outbox.release();
    flushed
}

/// Sends what waits in the outbox where it is a chunk or more.
#[inline(always)]
fn flush_if_full<K: Sink>(outbox: &mut Outbox, sink: &mut K) -> Result<(), ServeError>
    ensures ok { OnOk result (Flows (K.written sink.old) (K.written sink.new) outbox.old outbox.new
        []) }
    ensures err { OnErr result (GrowsByFront (K.written sink.old) (K.written sink.new) outbox.old) }
    ensures sink { HasFlushedTo K.faults K.origin sink.old sink.new result }
{
    if outbox.len() < CHUNK {
        return Ok(());
    }
    flush(outbox, sink)
}

/// Whether the session goes on.
#[inline(always)]
fn is_more(outcome: &Result<Progress, ServeError>) -> bool
    ensures { result ≡ is_more outcome.now }
{
    matches!(outcome, Ok(Progress::More))
}

impl<
    H: PgWireServerHandlers,
    St: PortalStore<
        Statement = <H::Extended as ExtendedQueryHandler>::Statement,
        Rows = <H::Extended as ExtendedQueryHandler>::Rows,
    >,
> Session<H, St> {
    /// Sends all the replies that wait, each chunk by one call of the sink. After an error some of
    /// them may have been sent, and nothing is known of those that still wait.
    pub fn flush<K: Sink>(&mut self, sink: &mut K) -> Result<(), ServeError>
        ensures empty { OnOk result (self.new.unsent ≡ []) }
        ensures ok { OnOk result (GrowsBy (K.written sink.old) (K.written sink.new)
            self.old.unsent) }
        ensures err { OnErr result (GrowsByFront (K.written sink.old) (K.written sink.new)
            self.old.unsent) }
        ensures sink { HasFlushedTo K.faults K.origin sink.old sink.new result }
        ensures same { ChangesUnsent self.old self.new }
    {
        flush_all(&mut self.client.outbox, sink)
    }

    /// Sends what waits where it is a chunk or more. Some has the error where this failed.
    #[inline(always)]
    fn sent_if_full<K: Sink>(&mut self, sink: &mut K) -> Option<Result<Progress, ServeError>>
        ensures sent { SentBehind (K.written sink.old) (K.written sink.new) self.old.unsent
            self.new.unsent (Ok None) result }
        ensures cause { HasSentCause (K.faults sink.old) (K.faults sink.new) (Ok None) result }
        ensures same { ChangesUnsent self.old self.new }
        ensures sink { K.origin sink.new ≡ K.origin sink.old }
    {
        match flush_if_full(&mut self.client.outbox, sink) {
            Ok(()) => None,
            Err(error) => Some(Err(error)),
        }
    }

    /// Answers each whole frame of the bytes that the session holds, and sends all replies.
    fn run<D: CancelDesk, K: Sink>(
        &mut self,
        alloc: Global,
        desk: &mut D,
        sink: &mut K,
        turns: &mut Turns,
    ) -> Result<Progress, ServeError>
        requires { self.old.is_open ≡ true }
        ensures fed { WasFed
            (whole_rules
            (H.told self.old.handlers))
            self.old.state self.old.rest self.new.state self.new.rest (K.written sink.old)
            (K.written sink.new) self.old.unsent
            (D.told desk.old).calls (D.told desk.new).calls result }
        ensures sent { OnOk result (self.new.unsent ≡ []) }
        ensures open { result ≡ Ok More → self.new.is_open ≡ true }
        ensures handlers { self.new.handlers ≡ self.old.handlers }
        ensures causes { HasCauses K.faults K.origin sink.old sink.new (D.told desk.old)
            (D.told desk.new) turns.old turns.new result }
    {
        'messages: loop {
            match self.advance(alloc, desk, sink, turns) {
                None => {}
                Some(told) => return told,
            }
        }
    }

    /// Takes a step. None says that another step follows. Some(Ok) says that none does, and that
    /// all replies were sent.
    #[inline(always)]
    fn advance<D: CancelDesk, K: Sink>(
        &mut self,
        alloc: Global,
        desk: &mut D,
        sink: &mut K,
        turns: &mut Turns,
    ) -> Option<Result<Progress, ServeError>>
        requires { self.old.is_open ≡ true }
        ensures round { RoundSo
            (whole_rules
            (H.told self.old.handlers))
            self.old.state self.old.rest self.new.state self.new.rest (K.written sink.old)
            (K.written sink.new) self.old.unsent self.new.unsent
            (D.told desk.old).calls (D.told desk.new).calls result }
        ensures sent { IfSome result (λ told. OnOk told (self.new.unsent ≡ [])) }
        ensures open { told_or_more result ≡ Ok More → self.new.is_open ≡ true }
        ensures handlers { self.new.handlers ≡ self.old.handlers }
        ensures shorter { IfNone result (length self.new.rest < length self.old.rest) }
        ensures causes { HasCauses K.faults K.origin sink.old sink.new (D.told desk.old)
            (D.told desk.new) turns.old turns.new (told_or_more result) }
    {
        let step = self.step(alloc, desk, sink, turns);
        self.told_behind(sink, step)
    }

    /// Sends the replies that wait after a step. Where no other step follows, all of them are sent,
    /// and the step's result is returned. Where another follows, they are sent if they are a chunk
    /// or more. An error of the step is returned at once.
    #[inline(always)]
    fn told_behind<K: Sink>(
        &mut self,
        sink: &mut K,
        step: Result<Option<Progress>, ServeError>,
    ) -> Option<Result<Progress, ServeError>>
        ensures sent { SentBehind (K.written sink.old) (K.written sink.new) self.old.unsent
            self.new.unsent step result }
        ensures cause { HasSentCause (K.faults sink.old) (K.faults sink.new) step result }
        ensures same { ChangesUnsent self.old self.new }
        ensures sink { K.origin sink.new ≡ K.origin sink.old }
    {
        match step {
            Ok(told) => match told {
                Some(told) => match self.flush(sink) {
                    Ok(()) => Some(Ok(told)),
                    Err(error) => Some(Err(error)),
                },
                None => self.sent_if_full(sink),
            },
            Err(error) => Some(Err(error)),
        }
    }

    /// Takes a piece of the client's bytes, sends what waits, and writes the whole answer to the
    /// messages that the piece completes. Ok(More) says that no whole frame is left. Then the
    /// session holds at most 9,999 bytes before the startup packet, and 1,048,576 after it.
    /// Ok(Ended(kind)) says that the conversation has ended, and the session is closed then. An
    /// error closes it too: WriteFault where the sink failed, TurnLimit where a query needed a turn
    /// and none was left, NoMemory where memory ran out. ReadFault never comes.
    pub fn feed<D: CancelDesk, K: Sink>(
        &mut self,
        alloc: Global,
        desk: &mut D,
        piece: &[u8],
        sink: &mut K,
        turns: &mut Turns,
    ) -> Result<Progress, ServeError>
        requires { self.old.is_open ≡ true }

        // The frames of the rest and the piece are answered by the conversation table.
        ensures fed { WasFed
            (whole_rules
            (H.told self.old.handlers))
            self.old.state (self.old.rest ++ piece.now) self.new.state self.new.rest
            (K.written sink.old) (K.written sink.new) self.old.unsent
            (D.told desk.old).calls (D.told desk.new).calls result }
        ensures sent { OnOk result (self.new.unsent ≡ []) }
        ensures held { result ≡ Ok More → length self.new.rest ≤ most_held (awaits self.new.state) }
        ensures open { self.new.is_open ≡ is_more result }
        ensures handlers { self.new.handlers ≡ self.old.handlers }

        // The cause of each error.
        ensures causes { HasCauses K.faults K.origin sink.old sink.new (D.told desk.old)
            (D.told desk.new) turns.old turns.new result }
    {
        match self.rest.extend_from_slice(piece) {
            Ok(()) => {
                let outcome = self.run(alloc, desk, sink, turns);
                self.opened = self.opened && is_more(&outcome);
                outcome
            }
            Err(_) => {
                self.opened = false;
                Err(ServeError::NoMemory)
            }
        }
    }
}
