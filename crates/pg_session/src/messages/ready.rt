//! How each message is answered while the session is ready. The most frequent messages are answered
//! as their own types, so that they needn't be moved as the larger enum of all messages.

ghost use Rattle.std.specs.Prelude.{◌≡◌};
ghost use Rattle.pg_results.specs.declared.client.PgWireConnectionState.TheVariants as phase;
ghost use Rattle.pg_client.specs.Desk.{DeskTold};
ghost use Rattle.pg_client.specs.State.{state_of};
ghost use Rattle.pg_client.specs.declared.ends.Turns.{Turns};
ghost use Rattle.conversation_table.specs.Good.{IsGiven, IsGoodState};
ghost use Rattle.conversation_table.specs.Table.{scope_in};
ghost use Rattle.conversation_runs.specs.Messages.{IsRarer, going, scope_for};
ghost use Rattle.conversation_runs.specs.Steps.{IsMessageRow};

use crate::messages::of_session;
use pg_handlers::{
    CancelDesk, Client, EndKind, ExtendedQueryHandler, PgWireServerHandlers, SessionError,
    SimpleQueryHandler, Turns,
};
use pg_messages::{
    Bind, Close, Describe, Execute, Parse, PgSync, PgWireFrontendMessage, Query, TypedMessage,
};
use pg_portal::PortalStore;
use std::alloc::Global;
use std::mem::drop;

/// A message that a ready session reads and answers as its own type.
pub(crate) trait ReadyMessage: TypedMessage {
    /// Whether the session waits for Sync after an error of the message.
    fn waits_for_sync() -> bool
        ensures { (message : Self) → scope_for result ≡ scope_in
            phase.ReadyForQuery
            (Self.TypedMessage.message message) };

    /// Answers the message. What follows an error is left to the caller.
    fn answer<
        H: PgWireServerHandlers,
        St: PortalStore<
            Statement = <H::Extended as ExtendedQueryHandler>::Statement,
            Rows = <H::Extended as ExtendedQueryHandler>::Rows,
        >,
        D: CancelDesk,
    >(
        alloc: Global,
        handlers: &H,
        client: &mut Client<St>,
        desk: &mut D,
        turns: &mut Turns,
        message: Self,
    ) -> Result<(), SessionError>
        requires given { IsGiven (Self.TypedMessage.message message) }
        requires ready { client.old.info.state ≡ phase.ReadyForQuery }
        requires good { IsGoodState (H.told handlers.now).extended.parser
            (state_of St.maps client.old) }
        ensures { IsMessageRow
            (H.told handlers.now)
            (Self.TypedMessage.message message) (state_of St.maps client.old)
            (state_of St.maps client.new) client.old.outbox client.new.outbox (D.told desk.old)
            (D.told desk.new) turns.old turns.new (going result) };
}

impl ReadyMessage for Parse {
    #[inline(always)]
    fn waits_for_sync() -> bool {
        true
    }

    #[inline(always)]
    fn answer<
        H: PgWireServerHandlers,
        St: PortalStore<
            Statement = <H::Extended as ExtendedQueryHandler>::Statement,
            Rows = <H::Extended as ExtendedQueryHandler>::Rows,
        >,
        D: CancelDesk,
    >(
        alloc: Global,
        handlers: &H,
        client: &mut Client<St>,
        desk: &mut D,
        turns: &mut Turns,
        message: Parse,
    ) -> Result<(), SessionError> {
        of_session(
            handlers
                .extended_query_handler()
                .on_parse(alloc, client, message),
        )
    }
}

impl ReadyMessage for Bind {
    #[inline(always)]
    fn waits_for_sync() -> bool {
        true
    }

    #[inline(always)]
    fn answer<
        H: PgWireServerHandlers,
        St: PortalStore<
            Statement = <H::Extended as ExtendedQueryHandler>::Statement,
            Rows = <H::Extended as ExtendedQueryHandler>::Rows,
        >,
        D: CancelDesk,
    >(
        alloc: Global,
        handlers: &H,
        client: &mut Client<St>,
        desk: &mut D,
        turns: &mut Turns,
        message: Bind,
    ) -> Result<(), SessionError> {
        of_session(
            handlers
                .extended_query_handler()
                .on_bind(alloc, client, message),
        )
    }
}

impl ReadyMessage for Describe {
    #[inline(always)]
    fn waits_for_sync() -> bool {
        true
    }

    #[inline(always)]
    fn answer<
        H: PgWireServerHandlers,
        St: PortalStore<
            Statement = <H::Extended as ExtendedQueryHandler>::Statement,
            Rows = <H::Extended as ExtendedQueryHandler>::Rows,
        >,
        D: CancelDesk,
    >(
        alloc: Global,
        handlers: &H,
        client: &mut Client<St>,
        desk: &mut D,
        turns: &mut Turns,
        message: Describe,
    ) -> Result<(), SessionError> {
        of_session(
            handlers
                .extended_query_handler()
                .on_describe(alloc, client, message),
        )
    }
}

impl ReadyMessage for Close {
    #[inline(always)]
    fn waits_for_sync() -> bool {
        true
    }

    #[inline(always)]
    fn answer<
        H: PgWireServerHandlers,
        St: PortalStore<
            Statement = <H::Extended as ExtendedQueryHandler>::Statement,
            Rows = <H::Extended as ExtendedQueryHandler>::Rows,
        >,
        D: CancelDesk,
    >(
        alloc: Global,
        handlers: &H,
        client: &mut Client<St>,
        desk: &mut D,
        turns: &mut Turns,
        message: Close,
    ) -> Result<(), SessionError> {
        of_session(handlers.extended_query_handler().on_close(client, message))
    }
}

impl ReadyMessage for PgSync {
    #[inline(always)]
    fn waits_for_sync() -> bool {
        true
    }

    #[inline(always)]
    fn answer<
        H: PgWireServerHandlers,
        St: PortalStore<
            Statement = <H::Extended as ExtendedQueryHandler>::Statement,
            Rows = <H::Extended as ExtendedQueryHandler>::Rows,
        >,
        D: CancelDesk,
    >(
        alloc: Global,
        handlers: &H,
        client: &mut Client<St>,
        desk: &mut D,
        turns: &mut Turns,
        message: PgSync,
    ) -> Result<(), SessionError> {
        of_session(handlers.extended_query_handler().on_sync(client, message))
    }
}

impl ReadyMessage for Execute {
    #[inline(always)]
    fn waits_for_sync() -> bool {
        true
    }

    #[inline(always)]
    fn answer<
        H: PgWireServerHandlers,
        St: PortalStore<
            Statement = <H::Extended as ExtendedQueryHandler>::Statement,
            Rows = <H::Extended as ExtendedQueryHandler>::Rows,
        >,
        D: CancelDesk,
    >(
        alloc: Global,
        handlers: &H,
        client: &mut Client<St>,
        desk: &mut D,
        turns: &mut Turns,
        message: Execute,
    ) -> Result<(), SessionError> {
        handlers
            .extended_query_handler()
            .on_execute(alloc, client, desk, turns, message)
    }
}

impl ReadyMessage for Query {
    #[inline(always)]
    fn waits_for_sync() -> bool {
        false
    }

    #[inline(always)]
    fn answer<
        H: PgWireServerHandlers,
        St: PortalStore<
            Statement = <H::Extended as ExtendedQueryHandler>::Statement,
            Rows = <H::Extended as ExtendedQueryHandler>::Rows,
        >,
        D: CancelDesk,
    >(
        alloc: Global,
        handlers: &H,
        client: &mut Client<St>,
        desk: &mut D,
        turns: &mut Turns,
        message: Query,
    ) -> Result<(), SessionError> {
        handlers
            .simple_query_handler()
            .on_query(alloc, client, desk, turns, message)
    }
}

/// The same result, as that of a message that doesn't end the conversation.
#[inline(always)]
fn going(answer: Result<(), SessionError>) -> Result<Option<EndKind>, SessionError>
    ensures { result ≡ going answer }
{
    match answer {
        Ok(()) => Ok(None),
        Err(error) => Err(error),
    }
}

/// Answers a message while the session is ready.
#[inline(always)]
pub(crate) fn on_ready<
    H: PgWireServerHandlers,
    St: PortalStore<
        Statement = <H::Extended as ExtendedQueryHandler>::Statement,
        Rows = <H::Extended as ExtendedQueryHandler>::Rows,
    >,
    D: CancelDesk,
>(
    alloc: Global,
    handlers: &H,
    client: &mut Client<St>,
    desk: &mut D,
    turns: &mut Turns,
    message: PgWireFrontendMessage,
) -> Result<Option<EndKind>, SessionError>
    requires given { IsGiven message }
    requires ready { client.old.info.state ≡ phase.ReadyForQuery }
    requires good { IsGoodState (H.told handlers.now).extended.parser
        (state_of St.maps client.old) }
    ensures { IsMessageRow
        (H.told handlers.now)
        message (state_of St.maps client.old) (state_of St.maps client.new) client.old.outbox
        client.new.outbox (D.told desk.old) (D.told desk.new) turns.old turns.new result }
{
    match message {
        PgWireFrontendMessage::Query(m) => {
            going(Query::answer(alloc, handlers, client, desk, turns, m))
        }
        PgWireFrontendMessage::Parse(m) => {
            going(Parse::answer(alloc, handlers, client, desk, turns, m))
        }
        PgWireFrontendMessage::Bind(m) => {
            going(Bind::answer(alloc, handlers, client, desk, turns, m))
        }
        PgWireFrontendMessage::Describe(m) => {
            going(Describe::answer(alloc, handlers, client, desk, turns, m))
        }
        PgWireFrontendMessage::Execute(m) => {
            going(Execute::answer(alloc, handlers, client, desk, turns, m))
        }
        PgWireFrontendMessage::Close(m) => {
            going(Close::answer(alloc, handlers, client, desk, turns, m))
        }
        PgWireFrontendMessage::PgSync(m) => {
            going(PgSync::answer(alloc, handlers, client, desk, turns, m))
        }
        other => on_rarer(handlers, client, other),
    }
}

/// Answers a message that isn't answered as its own type, while the session is ready: Flush goes to
/// its handler, Terminate ends the conversation, and messages of a COPY are dropped.
#[inline(never)]
fn on_rarer<
    H: PgWireServerHandlers,
    St: PortalStore<
        Statement = <H::Extended as ExtendedQueryHandler>::Statement,
        Rows = <H::Extended as ExtendedQueryHandler>::Rows,
    >,
>(
    handlers: &H,
    client: &mut Client<St>,
    message: PgWireFrontendMessage,
) -> Result<Option<EndKind>, SessionError>
    requires given { IsGiven message }
    requires ready { client.old.info.state ≡ phase.ReadyForQuery }
    requires good { IsGoodState (H.told handlers.now).extended.parser
        (state_of St.maps client.old) }
    requires rarer { IsRarer message }
    ensures { (desk : DeskTold) (turns : Turns) → IsMessageRow
        (H.told handlers.now)
        message (state_of St.maps client.old) (state_of St.maps client.new) client.old.outbox
        client.new.outbox desk desk turns turns result }
{
    match message {
        PgWireFrontendMessage::Flush(m) => going(of_session(
            handlers.extended_query_handler().on_flush(client, m),
        )),
        PgWireFrontendMessage::Terminate(_) => Ok(Some(EndKind::Terminate)),
        other => {
            drop(other);
            Ok(None)
        }
    }
}
