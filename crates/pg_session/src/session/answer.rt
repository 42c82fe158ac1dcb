//! What a message does to the session: its answer, and what follows its error.

ghost use Rattle.std.specs.Prelude.{◌≡◌, ◌≢◌, ◌≤◌, ◌++◌, ◌⊎◌, ◌↔◌, [], Some, None, Err, true, codes, IsTrue, IfOk, IfErr, OnOk};
ghost use Rattle.pg_messages.specs.Replies.{IsEncodable, replies_bytes, reply_bytes};
ghost use Rattle.pg_results.specs.Errors.{info_of};
ghost use Rattle.pg_results.specs.Rows.{IsAnswerable, IsTellable};
ghost use Rattle.pg_results.specs.declared.client.PgWireConnectionState.TheVariants as phase;
ghost use Rattle.pg_results.specs.declared.error.PgWireError.TheVariants as wire;
ghost use Rattle.pg_replies.specs.Replies.{error_reply};
ghost use Rattle.pg_client.specs.Desk.{GoesOn};
ghost use Rattle.pg_client.specs.Effect.{IsRow, IsRefusedRow, failed};
ghost use Rattle.pg_client.specs.Ends.{IsAnswerableError, outcome_of};
ghost use Rattle.pg_client.specs.State.{state_of};
ghost use Rattle.pg_client.specs.declared.ends.EndKind.TheVariants.{InputEnd, Fatal};
ghost use Rattle.conversation_table.specs.Good.{IsGiven};
ghost use Rattle.conversation_table.specs.Questions.{HasSpent, questions_since};
ghost use Rattle.conversation_table.specs.Table.{message_row, scope_in};
ghost use Rattle.conversation_runs.specs.Messages.{IsGivenIn, scope_for, next_of};
ghost use Rattle.conversation_runs.specs.Ready.{IsReady};
ghost use Rattle.conversation_runs.specs.Session.{stays_open, goes_on};
ghost use Rattle.conversation_runs.specs.Steps.{FailedSo, FollowsError, IsResponse};
ghost use Rattle.conversation_runs.specs.declared.ends.ServeError.TheVariants as serve;

use crate::messages::{ReadyMessage, on_message};
use crate::session::Session;
use conversation_runs::ServeError;
use pg_handlers::{
    CancelDesk, Client, EndKind, ExtendedQueryHandler, Outbox, PgWireServerHandlers, SessionError,
    Turns, send_ready_for_query,
};
use pg_messages::{ErrorInfo, ErrorResponse, PgWireBackendMessage, PgWireFrontendMessage};
use pg_portal::{PgWireConnectionState, PgWireError, PortalStore};
use std::alloc::{AllocError, Global};

/// Whether a session is open after a message.
#[inline(always)]
fn stays_open(outcome: &Result<Option<EndKind>, SessionError>) -> bool
    ensures { result ≡ stays_open outcome.now }
{
    match outcome {
        Ok(end) => end.is_none(),
        Err(SessionError::Wire(PgWireError::NoMemory)) => false,
        Err(SessionError::Wire(_)) => true,
        Err(SessionError::TurnLimit) => false,
    }
}

/// Answers a message. Its replies wait in the session's outbox, and the next `feed` sends them
/// before its own. Some(end) says that the conversation has ended. An error of the message leaves
/// the session open. Its ErrorResponse and what follows that aren't appended yet: `process_error`
/// does so. TurnLimit comes where a query needs a turn and none is left. An end, NoMemory and
/// TurnLimit close the session.
#[inline(always)]
pub fn process_message<
    H: PgWireServerHandlers,
    St: PortalStore<
        Statement = <H::Extended as ExtendedQueryHandler>::Statement,
        Rows = <H::Extended as ExtendedQueryHandler>::Rows,
    >,
    D: CancelDesk,
>(
    alloc: Global,
    session: &mut Session<H, St>,
    desk: &mut D,
    turns: &mut Turns,
    message: PgWireFrontendMessage,
) -> Result<Option<EndKind>, SessionError>
    requires open { session.old.is_open ≡ true }
    requires given { IsGivenIn session.old.state message }
    ensures ok { IfOk result (λ end. IsRow
        (λ answers. message_row
        (H.told session.old.handlers)
        answers session.old.state message)
        session.old.unsent session.new.unsent (D.told desk.old).calls (D.told desk.new).calls
        (outcome_of end session.new.state)) }
    ensures refused { IfErr result (IsRefusedRow
        (λ answers. message_row
        (H.told session.old.handlers)
        answers session.old.state message)
        session.old.unsent session.new.unsent (D.told desk.old).calls (D.told desk.new).calls
        session.new.state) }
    ensures answerable { IfErr result IsAnswerableError }
    ensures ends { IfOk result (λ end. end ≢ Some InputEnd) }
    ensures open { session.new.is_open ≡ stays_open result }
    ensures handlers { session.new.handlers ≡ session.old.handlers }
    ensures rest { session.new.rest ≡ session.old.rest }
    ensures turns { HasSpent turns.old turns.new
        (questions_since (D.told desk.old).calls (D.told desk.new).calls) result }
    ensures bounded { turns.old.spent ≤ turns.old.limit → turns.new.spent ≤ turns.new.limit }
    ensures registration { GoesOn (D.told desk.old) (D.told desk.new) }
{
    let handlers = &*session.handlers;
    let outcome = on_message(alloc, handlers, &mut session.client, desk, turns, message);
    session.opened = stays_open(&outcome);
    outcome
}

/// Appends the ErrorResponse of an error, and returns whether its severity is FATAL.
#[cold]
#[inline(never)]
fn tell_error(alloc: Global, outbox: &mut Outbox, error: PgWireError) -> Result<bool, AllocError>
    requires { IsTellable error }
    ensures replied { OnOk result
        (outbox.new ≡ outbox.old ++ reply_bytes (error_reply (info_of error))) }
    ensures fatal { IfOk result (λ fatal.
        IsTrue fatal ↔ ((info_of error).severity ≡ codes "FATAL")) }
{
    let info = error.into_info(alloc)?;
    let is_fatal = info.is_fatal();
    push_error(outbox, info)?;
    Ok(is_fatal)
}

/// Appends an ErrorResponse, and drops it.
fn push_error(outbox: &mut Outbox, info: ErrorInfo) -> Result<(), AllocError>
    requires { IsEncodable (error_reply info) }
    ensures { OnOk result (outbox.new ≡ outbox.old ++ reply_bytes (error_reply info)) }
{
    outbox.push(&PgWireBackendMessage::ErrorResponse(ErrorResponse { info }))
}

/// Tells the client an error of a message, and does what follows it. ErrorResponse is appended.
/// Where the error's severity is FATAL, the conversation ends. Else the transaction status becomes
/// that of an error. Then the session waits for Sync, where `wait_for_sync` is true (after an
/// extended message, or in a COPY that an Execute began); else ReadyForQuery is appended. The
/// session has to be open, and the error must not be NoMemory. An error before the startup packet
/// should be FATAL: any other would leave the client without its startup replies.
///
/// The replies wait for the next `feed`. An end closes the session. So does AllocError, after which
/// nothing is known of the replies that wait.
#[cold]
#[inline(never)]
pub fn process_error<
    H: PgWireServerHandlers,
    St: PortalStore<
        Statement = <H::Extended as ExtendedQueryHandler>::Statement,
        Rows = <H::Extended as ExtendedQueryHandler>::Rows,
    >,
>(
    alloc: Global,
    session: &mut Session<H, St>,
    error: PgWireError,
    wait_for_sync: bool,
) -> Result<Option<EndKind>, AllocError>
    requires open { session.old.is_open ≡ true }
    requires tellable { IsTellable error }
    ensures replied { OnOk result (session.new.unsent ≡ session.old.unsent ++ replies_bytes
        (failed (scope_for wait_for_sync) [] [] session.old.state (info_of error)).replies) }
    ensures next { IfOk result (λ end.
        (failed (scope_for wait_for_sync) [] [] session.old.state (info_of error)).next
        ≡ next_of end session.new.state) }
    ensures ends { IfOk result (λ end. (end ≡ None) ⊎ (end ≡ Some Fatal)) }
    ensures open { session.new.is_open ≡ goes_on result }
    ensures handlers { session.new.handlers ≡ session.old.handlers }
    ensures rest { session.new.rest ≡ session.old.rest }
{
    let outcome = error_told(alloc, &mut session.client, error, wait_for_sync);
    session.opened = goes_on(&outcome);
    outcome
}

/// Whether a session is open after it told the client an error.
fn goes_on(outcome: &Result<Option<EndKind>, AllocError>) -> bool
    ensures { result ≡ goes_on outcome.now }
{
    match outcome {
        Ok(end) => end.is_none(),
        Err(_) => false,
    }
}

/// Tells a client an error of a message, and does what follows it.
fn error_told<St: PortalStore>(
    alloc: Global,
    client: &mut Client<St>,
    error: PgWireError,
    wait_for_sync: bool,
) -> Result<Option<EndKind>, AllocError>
    requires { IsTellable error }
    ensures replied { OnOk result (client.new.outbox ≡ client.old.outbox ++ replies_bytes (failed
        (scope_for wait_for_sync)
        [] [] (state_of St.maps client.old) (info_of error)).replies) }
    ensures next { IfOk result (λ end. (failed
        (scope_for wait_for_sync)
        [] [] (state_of St.maps client.old) (info_of error)).next
        ≡ next_of end (state_of St.maps client.new)) }
    ensures ends { IfOk result (λ end. (end ≡ None) ⊎ (end ≡ Some Fatal)) }
    ensures store { client.new.store ≡ client.old.store }
    ensures metadata { client.new.info.metadata ≡ client.old.info.metadata }
{
    if tell_error(alloc, &mut client.outbox, error)? {
        return Ok(Some(EndKind::Fatal));
    }
    let status = client.info.status.to_error_state();
    client.info.status = status;
    if wait_for_sync {
        client.info.state = PgWireConnectionState::AwaitingSync;
        return Ok(None);
    }
    send_ready_for_query(&mut client.outbox, status)?;
    client.info.state = PgWireConnectionState::ReadyForQuery;
    Ok(None)
}

/// Whether the session waits for Sync after an error of a message. It does, but not after a Query
/// or in a COPY that a Query began.
#[inline(always)]
fn waits_for_sync(state: PgWireConnectionState, message: &PgWireFrontendMessage) -> bool
    ensures { scope_for result ≡ scope_in state message.now }
{
    match state {
        PgWireConnectionState::ReadyForQuery => !matches!(message, PgWireFrontendMessage::Query(_)),
        PgWireConnectionState::CopyInProgress(is_extended) => is_extended,
        _ => true,
    }
}

impl<
    H: PgWireServerHandlers,
    St: PortalStore<
        Statement = <H::Extended as ExtendedQueryHandler>::Statement,
        Rows = <H::Extended as ExtendedQueryHandler>::Rows,
    >,
> Session<H, St> {
    /// Answers a message, as the conversation table says, and does what follows its error. The
    /// replies wait until they are sent. Some(end) says that the conversation has ended, and the
    /// session is closed then. An error closes it too: TurnLimit where a query needed a turn and
    /// none was left, NoMemory where memory ran out. After an error nothing is known of the replies
    /// that wait: don't send them.
    #[inline(never)]
    pub fn answer<D: CancelDesk>(
        &mut self,
        alloc: Global,
        desk: &mut D,
        turns: &mut Turns,
        message: PgWireFrontendMessage,
    ) -> Result<Option<EndKind>, ServeError>
        requires open { self.old.is_open ≡ true }
        requires given { IsGivenIn self.old.state message }
        ensures { IsResponse H.told message self.old self.new (D.told desk.old) (D.told desk.new)
            turns.old turns.new result }
    {
        let waits = waits_for_sync(self.state(), &message);
        match process_message(alloc, self, desk, turns, message) {
            Ok(end) => Ok(end),
            Err(error) => self.fail(alloc, error, waits),
        }
    }

    /// Answers a message as its own type while the session is ready. It does what `answer` does.
    #[inline(always)]
    pub(crate) fn answer_as<M: ReadyMessage, D: CancelDesk>(
        &mut self,
        alloc: Global,
        desk: &mut D,
        turns: &mut Turns,
        message: M,
    ) -> Result<Option<EndKind>, ServeError>
        requires ready { IsReady self.old }
        requires given { IsGiven (M.TypedMessage.message message) }
        ensures { IsResponse H.told (M.TypedMessage.message message) self.old self.new
            (D.told desk.old) (D.told desk.new) turns.old turns.new result }
    {
        let handlers = &*self.handlers;
        match M::answer(alloc, handlers, &mut self.client, desk, turns, message) {
            Ok(()) => Ok(None),
            Err(error) => self.fail(alloc, error, M::waits_for_sync()),
        }
    }

    /// Closes the session at TurnLimit, or does what follows an error of a message.
    #[cold]
    #[inline(never)]
    pub(crate) fn fail(
        &mut self,
        alloc: Global,
        error: SessionError,
        wait_for_sync: bool,
    ) -> Result<Option<EndKind>, ServeError>
        requires open { stays_open (Err error) ≡ true → self.old.is_open ≡ true }
        requires answerable { IsAnswerableError error }
        ensures failed { FailedSo error (scope_for wait_for_sync) self.old.state self.new.state
            self.old.unsent self.new.unsent result }
        ensures behind { FollowsError self.old self.new result }
    {
        match error {
            SessionError::TurnLimit => {
                self.opened = false;
                Err(ServeError::TurnLimit)
            }
            SessionError::Wire(error) => self.tell(alloc, error, wait_for_sync),
        }
    }

    /// Tells the client an error of a message, and does what follows it. NoMemory isn't told. It
    /// closes the session.
    #[cold]
    #[inline(never)]
    fn tell(
        &mut self,
        alloc: Global,
        error: PgWireError,
        wait_for_sync: bool,
    ) -> Result<Option<EndKind>, ServeError>
        requires open { error ≢ wire.NoMemory → self.old.is_open ≡ true }
        requires answerable { IsAnswerable error }
        ensures known { OnOk result (error ≢ wire.NoMemory) }
        ensures replied { OnOk result (self.new.unsent ≡ self.old.unsent ++ replies_bytes
            (failed (scope_for wait_for_sync) [] [] self.old.state (info_of error)).replies) }
        ensures next { IfOk result (λ end.
            (failed (scope_for wait_for_sync) [] [] self.old.state (info_of error)).next
            ≡ next_of end self.new.state) }
        ensures only { IfErr result (λ e. e ≡ serve.NoMemory) }
        ensures behind { FollowsError self.old self.new result }
    {
        match error {
            PgWireError::NoMemory => {
                self.opened = false;
                Err(ServeError::NoMemory)
            }
            error => match process_error(alloc, self, error, wait_for_sync) {
                Ok(end) => Ok(end),
                Err(_) => Err(ServeError::NoMemory),
            },
        }
    }
}
