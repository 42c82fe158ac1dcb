//! A message whose query may be unready: what waits is sent before the query is polled again.

ghost use Rattle.std.specs.Prelude.{◌≡◌, ◌∷◌, []};
ghost use Rattle.pg_client.specs.Desk.{DeskTold, after_calls};
ghost use Rattle.pg_client.specs.Effect.{IsCutRow};
ghost use Rattle.pg_client.specs.declared.desk.DeskCall.TheVariants as call;
ghost use Rattle.conversation_table.specs.Good.{IsGiven};
ghost use Rattle.conversation_table.specs.Table.{message_row};
ghost use Rattle.conversation_runs.specs.Ready.{IsReady};
ghost use Rattle.conversation_runs.specs.SentFirst.{IsSentResponse};
ghost use Rattle.conversation_runs.specs.Steps.{IsResponse};

use crate::messages::QueryMessage;
use crate::session::Session;
use conversation_runs::{ServeError, Sink};
use pg_handlers::{Begun, CancelDesk, EndKind, ExtendedQueryHandler, PgWireServerHandlers, Turns};
use pg_portal::PortalStore;
use std::alloc::Global;

impl<
    H: PgWireServerHandlers,
    St: PortalStore<
        Statement = <H::Extended as ExtendedQueryHandler>::Statement,
        Rows = <H::Extended as ExtendedQueryHandler>::Rows,
    >,
> Session<H, St> {
    /// Answers a message as its own type while the session is ready, as `answer` does. Where the
    /// first poll of its query finds it unready, all replies that wait are sent before the second.
    /// Where the sink fails there, the session is closed.
    #[inline(always)]
    pub(crate) fn answer_query<M: QueryMessage<H>, D: CancelDesk, K: Sink>(
        &mut self,
        alloc: Global,
        desk: &mut D,
        sink: &mut K,
        turns: &mut Turns,
        message: M,
    ) -> Result<Option<EndKind>, ServeError>
        requires ready { IsReady self.old }
        requires given { IsGiven (M.TypedMessage.message message) }
        ensures { IsSentResponse K.written K.faults K.origin H.told
            (M.TypedMessage.message message) self.old self.new sink.old sink.new
            (D.told desk.old) (D.told desk.new) turns.old turns.new result }
    {
        let handlers = &*self.handlers;
        match M::begin(alloc, handlers, &mut self.client, desk, message) {
            Begun::Answered(Ok(())) => Ok(None),
            Begun::Answered(Err(error)) => self.fail(alloc, error, M::waits_for_sync()),
            Begun::Unready(kept, waiting) => {
                self.answer_unready::<M, D, K>(alloc, desk, sink, turns, kept, waiting)
            }
        }
    }

    /// Sends all replies that wait, and goes on with a message whose query was found unready.
    #[inline(never)]
    fn answer_unready<M: QueryMessage<H>, D: CancelDesk, K: Sink>(
        &mut self,
        alloc: Global,
        desk: &mut D,
        sink: &mut K,
        turns: &mut Turns,
        kept: M::Kept,
        waiting: M::Waiting,
    ) -> Result<Option<EndKind>, ServeError>
        requires ready { IsReady self.old }
        requires unready { (message : M) × M.waits
            (H.told self.old.handlers)
            self.old.state message kept waiting }
        ensures { (message : M) (first : DeskTold)
            → M.waits (H.told self.old.handlers) self.old.state message kept waiting
            → D.told desk.old ≡ after_calls first (call.Start ∷ [])
            → IsCutRow (λ answers. message_row
            (H.told self.old.handlers)
            answers self.old.state (M.TypedMessage.message message))
            first.calls (D.told desk.old).calls
            → IsSentResponse K.written K.faults K.origin H.told
            (M.TypedMessage.message message) self.old self.new sink.old sink.new first
            (D.told desk.new) turns.old turns.new result }
    {
        match self.flush(sink) {
            Ok(()) => self.finish_as::<M, D>(alloc, desk, turns, kept, waiting),
            Err(error) => {
                self.opened = false;
                Err(error)
            }
        }
    }

    /// Goes on with a message whose query was found unready.
    fn finish_as<M: QueryMessage<H>, D: CancelDesk>(
        &mut self,
        alloc: Global,
        desk: &mut D,
        turns: &mut Turns,
        kept: M::Kept,
        waiting: M::Waiting,
    ) -> Result<Option<EndKind>, ServeError>
        requires ready { IsReady self.old }
        requires unready { (message : M) × M.waits
            (H.told self.old.handlers)
            self.old.state message kept waiting }
        ensures { (message : M) (first : DeskTold)
            → M.waits (H.told self.old.handlers) self.old.state message kept waiting
            → D.told desk.old ≡ after_calls first (call.Start ∷ [])
            → IsResponse H.told (M.TypedMessage.message message) self.old self.new first
            (D.told desk.new) turns.old turns.new result }
    {
        let handlers = &*self.handlers;
        match M::finish(
            alloc,
            handlers,
            &mut self.client,
            desk,
            turns,
            kept,
            waiting,
        ) {
            Ok(()) => Ok(None),
            Err(error) => self.fail(alloc, error, M::waits_for_sync()),
        }
    }
}
