//! How the messages whose queries are polled are answered in two parts, so that the replies that
//! wait can be sent between them: up to the first poll, and on from there.

ghost use Rattle.std.specs.Prelude.{◌≡◌, ◌∷◌, [], IfErr};
ghost use Rattle.pg_messages.specs.declared.frontend.PgWireFrontendMessage.TheVariants as frontend;
ghost use Rattle.pg_results.specs.declared.client.PgWireConnectionState.TheVariants as phase;
ghost use Rattle.pg_client.specs.Desk.{DeskTold, after_calls};
ghost use Rattle.pg_client.specs.Effect.{IsCutRow};
ghost use Rattle.pg_client.specs.Ends.{IsAnswerableError};
ghost use Rattle.pg_client.specs.State.{State, state_of};
ghost use Rattle.pg_client.specs.declared.desk.DeskCall.TheVariants as call;
ghost use Rattle.pg_client.specs.declared.ends.Turns.{Turns};
ghost use Rattle.pg_handlers.specs.Beginning.{IfAnswered, IfUnready, WaitsToExecute, WaitsToQuery};
ghost use Rattle.conversation_table.specs.Good.{IsGiven, IsGoodState};
ghost use Rattle.conversation_table.specs.Handlers.{Handlers, told_all, told_one};
ghost use Rattle.conversation_table.specs.Table.{message_row};
ghost use Rattle.conversation_runs.specs.Messages.{going};
ghost use Rattle.conversation_runs.specs.Steps.{IsMessageRow};

use crate::messages::ready::ReadyMessage;
use pg_handlers::{
    Begun, CancelDesk, Client, ExtendedQueryHandler, PgWireServerHandlers, SessionError,
    SimpleQueryHandler, Turns, finish_execute, finish_query,
};
use pg_messages::{Execute, Query, TypedMessage};
use pg_portal::PortalStore;
use std::alloc::Global;

/// A message whose query a ready session polls: an Execute or a Query. It is answered as its own
/// type, in two parts.
pub(crate) trait QueryMessage<H: PgWireServerHandlers>: ReadyMessage {
    /// What its answer needs of the message.
    type Kept: Drop;

    /// Its query.
    type Waiting: Drop;

    // in this state the message, of which this is kept, waits for its query, which was found unready
    ghost waits: { Handlers H.Extended.Statement → State H.Extended.Statement → Self → Self.Kept
        → Self.Waiting → Type 0 };

    /// Begins to answer the message, up to the first poll of its query. Unready says that this poll
    /// found it unready: the desk's `start` was called, and nothing else has changed.
    fn begin<
        St: PortalStore<
            Statement = <H::Extended as ExtendedQueryHandler>::Statement,
            Rows = <H::Extended as ExtendedQueryHandler>::Rows,
        >,
        D: CancelDesk,
    >(
        alloc: Global,
        handlers: &H,
        client: &mut Client<St>,
        desk: &mut D,
        message: Self,
    ) -> Begun<Self::Kept, Self::Waiting>
        requires given { IsGiven (Self.TypedMessage.message message) }
        requires ready { client.old.info.state ≡ phase.ReadyForQuery }
        requires good { IsGoodState (H.told handlers.now).extended.parser
            (state_of St.maps client.old) }
        ensures answered { IfAnswered result (λ done. (turns : Turns) → IsMessageRow
            (H.told handlers.now)
            (Self.TypedMessage.message message) (state_of St.maps client.old)
            (state_of St.maps client.new) client.old.outbox client.new.outbox (D.told desk.old)
            (D.told desk.new) turns turns (going done)) }
        ensures unready { IfUnready result (λ kept waiting. waits
            (H.told handlers.now)
            (state_of St.maps client.old) message kept waiting) }
        ensures started { IfUnready result (λ kept waiting.
            D.told desk.new ≡ after_calls (D.told desk.old) (call.Start ∷ [])) }
        ensures cut { IfUnready result (λ kept waiting. IsCutRow
            (λ answers. message_row
            (H.told handlers.now)
            answers (state_of St.maps client.old) (Self.TypedMessage.message message))
            (D.told desk.old).calls (D.told desk.new).calls) }
        ensures same { IfUnready result (λ kept waiting. client.new ≡ client.old) }
        ensures good { IsGoodState (H.told handlers.now).extended.parser
            (state_of St.maps client.new) };

    /// Goes on with the message: its query is polled until it is ready, and then the message is
    /// answered. What follows an error is left to the caller.
    fn finish<
        St: PortalStore<
            Statement = <H::Extended as ExtendedQueryHandler>::Statement,
            Rows = <H::Extended as ExtendedQueryHandler>::Rows,
        >,
        D: CancelDesk,
    >(
        alloc: Global,
        handlers: &H,
        client: &mut Client<St>,
        desk: &mut D,
        turns: &mut Turns,
        kept: Self::Kept,
        waiting: Self::Waiting,
    ) -> Result<(), SessionError>
        requires ready { client.old.info.state ≡ phase.ReadyForQuery }
        requires good { IsGoodState (H.told handlers.now).extended.parser
            (state_of St.maps client.old) }
        requires unready { (message : Self) × waits
            (H.told handlers.now)
            (state_of St.maps client.old) message kept waiting }
        ensures row { (message : Self) (first : DeskTold)
            → waits (H.told handlers.now) (state_of St.maps client.old) message kept waiting
            → D.told desk.old ≡ after_calls first (call.Start ∷ []) → IsMessageRow
            (H.told handlers.now)
            (Self.TypedMessage.message message) (state_of St.maps client.old)
            (state_of St.maps client.new) client.old.outbox client.new.outbox first
            (D.told desk.new) turns.old turns.new (going result) }
        ensures answerable { IfErr result IsAnswerableError }
        ensures good { IsGoodState (H.told handlers.now).extended.parser
            (state_of St.maps client.new) };
}

impl<H: PgWireServerHandlers> QueryMessage<H> for Execute {
    type Kept = Execute;

    type Waiting = <H::Extended as ExtendedQueryHandler>::Query;

    ghost waits = { λ h s m kept waiting. (kept ≡ m) × IsGiven (frontend.Execute m)
        × WaitsToExecute h.extended (told_one H.Extended.Rows.items H.Extended.CopyRows.items) s m
        (H.Extended.Query.told waiting) };

    #[inline(always)]
    fn begin<
        St: PortalStore<
            Statement = <H::Extended as ExtendedQueryHandler>::Statement,
            Rows = <H::Extended as ExtendedQueryHandler>::Rows,
        >,
        D: CancelDesk,
    >(
        alloc: Global,
        handlers: &H,
        client: &mut Client<St>,
        desk: &mut D,
        message: Execute,
    ) -> Begun<Execute, <H::Extended as ExtendedQueryHandler>::Query> {
        handlers
            .extended_query_handler()
            .begin_execute(alloc, client, desk, message)
    }

    #[inline(always)]
    fn finish<
        St: PortalStore<
            Statement = <H::Extended as ExtendedQueryHandler>::Statement,
            Rows = <H::Extended as ExtendedQueryHandler>::Rows,
        >,
        D: CancelDesk,
    >(
        alloc: Global,
        handlers: &H,
        client: &mut Client<St>,
        desk: &mut D,
        turns: &mut Turns,
        kept: Execute,
        waiting: <H::Extended as ExtendedQueryHandler>::Query,
    ) -> Result<(), SessionError> {
        let handler = handlers.extended_query_handler();
        finish_execute(alloc, handler, client, desk, turns, kept, waiting)
    }
}

impl<H: PgWireServerHandlers> QueryMessage<H> for Query {
    type Kept = ();

    type Waiting = <H::Simple as SimpleQueryHandler>::Query;

    ghost waits = { λ h s m kept waiting. WaitsToQuery
        h.simple
        (told_all H.Simple.Rows.items H.Simple.CopyRows.items) s m
        (H.Simple.Query.told waiting) };

    #[inline(always)]
    fn begin<
        St: PortalStore<
            Statement = <H::Extended as ExtendedQueryHandler>::Statement,
            Rows = <H::Extended as ExtendedQueryHandler>::Rows,
        >,
        D: CancelDesk,
    >(
        alloc: Global,
        handlers: &H,
        client: &mut Client<St>,
        desk: &mut D,
        message: Query,
    ) -> Begun<(), <H::Simple as SimpleQueryHandler>::Query> {
        handlers
            .simple_query_handler()
            .begin_query(alloc, client, desk, message)
    }

    #[inline(always)]
    fn finish<
        St: PortalStore<
            Statement = <H::Extended as ExtendedQueryHandler>::Statement,
            Rows = <H::Extended as ExtendedQueryHandler>::Rows,
        >,
        D: CancelDesk,
    >(
        alloc: Global,
        handlers: &H,
        client: &mut Client<St>,
        desk: &mut D,
        turns: &mut Turns,
        _kept: (),
        waiting: <H::Simple as SimpleQueryHandler>::Query,
    ) -> Result<(), SessionError> {
        let handler = handlers.simple_query_handler();
        finish_query(alloc, handler, client, desk, turns, waiting)
    }
}
