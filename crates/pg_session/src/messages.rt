//! How each message of a client is answered, by the phase of the conversation.

ghost use Rattle.std.specs.Prelude.{◌≡◌};
ghost use Rattle.pg_client.specs.State.{state_of};
ghost use Rattle.conversation_table.specs.Good.{IsGoodState};
ghost use Rattle.conversation_runs.specs.Messages.{IsGivenIn, with_session_error};
ghost use Rattle.conversation_runs.specs.Steps.{IsMessageRow};

use pg_handlers::{
    CancelDesk, Client, EndKind, ExtendedQueryHandler, PgWireServerHandlers, SessionError, Turns,
};
use pg_messages::PgWireFrontendMessage;
use pg_portal::{PgWireConnectionState, PgWireError, PortalStore};
use std::alloc::Global;

mod queries;
mod ready;
mod unready;

pub(crate) use queries::QueryMessage;
pub(crate) use ready::ReadyMessage;
use ready::on_ready;
use unready::on_unready;

/// The same result, with an error of a message as one of a session.
#[inline(always)]
fn of_session(answer: Result<(), PgWireError>) -> Result<(), SessionError>
    ensures { result ≡ with_session_error answer }
{
    match answer {
        Ok(()) => Ok(()),
        Err(error) => Err(SessionError::Wire(error)),
    }
}

/// Answers a message. What follows an error is left to the caller.
#[inline(always)]
pub(crate) fn on_message<
    H: PgWireServerHandlers,
    St: PortalStore<
        Statement = <H::Extended as ExtendedQueryHandler>::Statement,
        Rows = <H::Extended as ExtendedQueryHandler>::Rows,
    >,
    D: CancelDesk,
>(
    alloc: Global,
    handlers: &H,
    client: &mut Client<St>,
    desk: &mut D,
    turns: &mut Turns,
    message: PgWireFrontendMessage,
) -> Result<Option<EndKind>, SessionError>
    requires given { IsGivenIn (state_of St.maps client.old) message }
    requires good { IsGoodState (H.told handlers.now).extended.parser
        (state_of St.maps client.old) }
    ensures { IsMessageRow
        (H.told handlers.now)
        message (state_of St.maps client.old) (state_of St.maps client.new) client.old.outbox
        client.new.outbox (D.told desk.old) (D.told desk.new) turns.old turns.new result }
{
    match client.info.state {
        PgWireConnectionState::ReadyForQuery => {
            on_ready(alloc, handlers, client, desk, turns, message)
        }
        _ => on_unready(alloc, handlers, client, desk, message),
    }
}
