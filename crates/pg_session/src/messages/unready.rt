//! How a message is answered while the session isn't ready: before the startup packet, in a COPY
//! from the client, and after an error in an extended message, up to Sync.

ghost use Rattle.std.specs.Prelude.{◌≡◌, ◌≢◌, Some, IfOk, IfErr, OnOk};
ghost use Rattle.pg_messages.specs.declared.frontend.PgWireFrontendMessage.TheVariants as frontend;
ghost use Rattle.pg_messages.specs.declared.startup.Terminate.{Terminate};
ghost use Rattle.pg_results.specs.Rows.{IsAnswerable};
ghost use Rattle.pg_results.specs.declared.client.PgWireConnectionState.TheVariants as phase;
ghost use Rattle.pg_client.specs.Effect.{IsEffect, IsRefusedEffect, Done};
ghost use Rattle.pg_client.specs.Ends.{outcome_of};
ghost use Rattle.pg_client.specs.State.{state_of};
ghost use Rattle.pg_client.specs.declared.ends.EndKind.TheVariants.{InputEnd};
ghost use Rattle.pg_client.specs.declared.ends.Turns.{Turns};
ghost use Rattle.conversation_table.specs.CopyRows.{copy_row, copied};
ghost use Rattle.conversation_table.specs.Good.{IsGiven, IsGoodState};
ghost use Rattle.conversation_table.specs.Table.{awaiting_sync_row};
ghost use Rattle.conversation_runs.specs.Messages.{IsGivenIn, with_session_error};
ghost use Rattle.conversation_runs.specs.Steps.{IsMessageRow};

use pg_handlers::{
    CancelDesk, Client, CopyHandler, EndKind, ExtendedQueryHandler, PgWireServerHandlers,
    SessionError, send_ready_for_query,
};
use pg_messages::{CopyDone, PgWireFrontendMessage};
use pg_portal::{PgWireConnectionState, PgWireError, PortalStore};
use pg_startup::on_startup_phase;
use std::alloc::{AllocError, Global};
use std::mem::drop;

/// The same result, with an error of a message as one of a session.
#[inline(always)]
fn with_session_error(
    answer: Result<Option<EndKind>, PgWireError>,
) -> Result<Option<EndKind>, SessionError>
    ensures { result ≡ with_session_error answer }
{
    match answer {
        Ok(end) => Ok(end),
        Err(error) => Err(SessionError::Wire(error)),
    }
}

/// Answers a message while the session isn't ready. It spends no turns.
#[inline(never)]
pub(crate) fn on_unready<
    H: PgWireServerHandlers,
    St: PortalStore<
        Statement = <H::Extended as ExtendedQueryHandler>::Statement,
        Rows = <H::Extended as ExtendedQueryHandler>::Rows,
    >,
    D: CancelDesk,
>(
    alloc: Global,
    handlers: &H,
    client: &mut Client<St>,
    desk: &mut D,
    message: PgWireFrontendMessage,
) -> Result<Option<EndKind>, SessionError>
    requires given { IsGivenIn (state_of St.maps client.old) message }
    requires unready { client.old.info.state ≢ phase.ReadyForQuery }
    requires good { IsGoodState (H.told handlers.now).extended.parser
        (state_of St.maps client.old) }
    ensures { (turns : Turns) → IsMessageRow
        (H.told handlers.now)
        message (state_of St.maps client.old) (state_of St.maps client.new) client.old.outbox
        client.new.outbox (D.told desk.old) (D.told desk.new) turns turns result }
{
    match client.info.state {
        PgWireConnectionState::AwaitingStartup => on_startup_phase(alloc, client, desk, message),
        PgWireConnectionState::CopyInProgress(is_extended) => with_session_error(on_copy(
            alloc,
            handlers,
            client,
            is_extended,
            message,
        )),
        _ => with_session_error(on_awaiting_sync(handlers, client, message)),
    }
}

/// Answers a message after an error: every one but Sync and Terminate is dropped.
#[inline(never)]
fn on_awaiting_sync<
    H: PgWireServerHandlers,
    St: PortalStore<
        Statement = <H::Extended as ExtendedQueryHandler>::Statement,
        Rows = <H::Extended as ExtendedQueryHandler>::Rows,
    >,
>(
    handlers: &H,
    client: &mut Client<St>,
    message: PgWireFrontendMessage,
) -> Result<Option<EndKind>, PgWireError>
    requires given { IsGiven message }
    requires good { IsGoodState (H.told handlers.now).extended.parser
        (state_of St.maps client.old) }
    ensures ok { IfOk result (λ end. IsEffect
        (awaiting_sync_row (state_of St.maps client.old) message)
        client.old.outbox client.new.outbox (outcome_of end (state_of St.maps client.new))) }
    ensures refused { IfErr result (IsRefusedEffect
        (awaiting_sync_row (state_of St.maps client.old) message)
        client.old.outbox client.new.outbox (state_of St.maps client.new)) }
    ensures answerable { IfErr result IsAnswerable }
    ensures ends { IfOk result (λ end. end ≢ Some InputEnd) }
    ensures good { IsGoodState (H.told handlers.now).extended.parser (state_of St.maps client.new) }
{
    match message {
        PgWireFrontendMessage::Terminate(_) => Ok(Some(EndKind::Terminate)),
        PgWireFrontendMessage::PgSync(m) => {
            handlers.extended_query_handler().on_sync(client, m)?;
            Ok(None)
        }
        other => {
            drop(other);
            Ok(None)
        }
    }
}

/// Answers a message during a COPY from the client: every one but those of the COPY and Terminate
/// is dropped.
#[inline(never)]
fn on_copy<
    H: PgWireServerHandlers,
    St: PortalStore<
        Statement = <H::Extended as ExtendedQueryHandler>::Statement,
        Rows = <H::Extended as ExtendedQueryHandler>::Rows,
    >,
>(
    alloc: Global,
    handlers: &H,
    client: &mut Client<St>,
    is_extended: bool,
    message: PgWireFrontendMessage,
) -> Result<Option<EndKind>, PgWireError>
    requires given { IsGiven message }
    requires good { IsGoodState (H.told handlers.now).extended.parser
        (state_of St.maps client.old) }
    ensures ok { IfOk result (λ end. IsEffect
        (copy_row (H.told handlers.now).copying is_extended (state_of St.maps client.old) message)
        client.old.outbox client.new.outbox (outcome_of end (state_of St.maps client.new))) }
    ensures refused { IfErr result (IsRefusedEffect
        (copy_row (H.told handlers.now).copying is_extended (state_of St.maps client.old) message)
        client.old.outbox client.new.outbox (state_of St.maps client.new)) }
    ensures answerable { IfErr result IsAnswerable }
    ensures ends { IfOk result (λ end. end ≢ Some InputEnd) }
    ensures good { IsGoodState (H.told handlers.now).extended.parser (state_of St.maps client.new) }
{
    match message {
        PgWireFrontendMessage::Terminate(_) => Ok(Some(EndKind::Terminate)),
        other => match on_copied(alloc, handlers, client, is_extended, other) {
            Ok(()) => Ok(None),
            Err(error) => Err(error),
        },
    }
}

/// Answers a message during a COPY from the client, where the message doesn't end the conversation.
fn on_copied<
    H: PgWireServerHandlers,
    St: PortalStore<
        Statement = <H::Extended as ExtendedQueryHandler>::Statement,
        Rows = <H::Extended as ExtendedQueryHandler>::Rows,
    >,
>(
    alloc: Global,
    handlers: &H,
    client: &mut Client<St>,
    is_extended: bool,
    message: PgWireFrontendMessage,
) -> Result<(), PgWireError>
    requires given { IsGiven message }
    requires goes_on { (m : Terminate) → message ≢ frontend.Terminate m }
    requires good { IsGoodState (H.told handlers.now).extended.parser
        (state_of St.maps client.old) }
    ensures ok { OnOk result (IsEffect
        (copy_row (H.told handlers.now).copying is_extended (state_of St.maps client.old) message)
        client.old.outbox client.new.outbox (Done (state_of St.maps client.new))) }
    ensures refused { IfErr result (IsRefusedEffect
        (copy_row (H.told handlers.now).copying is_extended (state_of St.maps client.old) message)
        client.old.outbox client.new.outbox (state_of St.maps client.new)) }
    ensures answerable { IfErr result IsAnswerable }
    ensures good { IsGoodState (H.told handlers.now).extended.parser (state_of St.maps client.new) }
{
    match message {
        PgWireFrontendMessage::CopyData(m) => {
            handlers.copy_handler().on_copy_data(alloc, client, m)
        }
        PgWireFrontendMessage::CopyDone(m) => copy_done(alloc, handlers, client, is_extended, m),
        PgWireFrontendMessage::CopyFail(m) => {
            Err(handlers.copy_handler().on_copy_fail(alloc, client, m))
        }
        other => {
            drop(other);
            Ok(())
        }
    }
}

/// Answers CopyDone: all data of the COPY have come.
fn copy_done<
    H: PgWireServerHandlers,
    St: PortalStore<
        Statement = <H::Extended as ExtendedQueryHandler>::Statement,
        Rows = <H::Extended as ExtendedQueryHandler>::Rows,
    >,
>(
    alloc: Global,
    handlers: &H,
    client: &mut Client<St>,
    is_extended: bool,
    message: CopyDone,
) -> Result<(), PgWireError>
    requires given { IsGiven (frontend.CopyDone message) }
    requires good { IsGoodState (H.told handlers.now).extended.parser
        (state_of St.maps client.old) }
    ensures ok { OnOk result (IsEffect
        (copy_row
        (H.told handlers.now).copying
        is_extended (state_of St.maps client.old) (frontend.CopyDone message))
        client.old.outbox client.new.outbox (Done (state_of St.maps client.new))) }
    ensures refused { IfErr result (IsRefusedEffect
        (copy_row
        (H.told handlers.now).copying
        is_extended (state_of St.maps client.old) (frontend.CopyDone message))
        client.old.outbox client.new.outbox (state_of St.maps client.new)) }
    ensures answerable { IfErr result IsAnswerable }
    ensures good { IsGoodState (H.told handlers.now).extended.parser (state_of St.maps client.new) }
{
    handlers
        .copy_handler()
        .on_copy_done(alloc, client, message)?;
    end_copy(client, is_extended)?;
    Ok(())
}

/// Ends a COPY. One that a Query began ends with ReadyForQuery and the status that was kept. One
/// that an Execute began ends without a reply.
fn end_copy<St: PortalStore>(client: &mut Client<St>, is_extended: bool) -> Result<(), AllocError>
    ensures ok { OnOk result (IsEffect
        (copied is_extended (state_of St.maps client.old))
        client.old.outbox client.new.outbox (Done (state_of St.maps client.new))) }
    ensures store { client.new.store ≡ client.old.store }
    ensures metadata { client.new.info.metadata ≡ client.old.info.metadata }
{
    if !is_extended {
        send_ready_for_query(&mut client.outbox, client.info.status)?;
    }
    client.info.state = PgWireConnectionState::ReadyForQuery;
    Ok(())
}
